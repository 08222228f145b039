//! Powers, and the growth test, in 128 bits.
ghost use Rattle.std.specs.Prelude.{◌≡◌, ◌↔◌, ◌*◌, ◌^◌, ◌<◌, ◌≤◌, IsTrue, SomeIff};

/// `b ^ k`, or `None` where it is above 2^128 - 1. `power(b, 0)` is 1.
pub fn power(b: u128, k: u32) -> Option<u128>
    ensures { SomeIff result (b ^ k < 2 ^ 128) (b ^ k) }
{
    b.checked_pow(k)
}

/// Whether `z ^ k` is at most `r * y ^ k`, both of which are then at most 2^90.
pub fn at_most(z: u32, k: u32, r: u32, y: u32) -> bool
    requires z_small { z ≤ 1024 }
    requires r_small { r ≤ 1024 }
    requires y_small { y ≤ 1024 }
    requires few { k ≤ 8 }
    ensures { IsTrue result ↔ (z ^ k ≤ r * y ^ k) }
{
    u128::from(z).pow(k) <= u128::from(r) * u128::from(y).pow(k)
}
