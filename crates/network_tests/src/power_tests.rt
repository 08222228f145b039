//! Powers at the end of their type, and growths at the limits.
use crate::rows::{Asked, ask_rows, tell, tell_unknown};
use std::alloc::Global;
use whole_powers::{at_most, power};

// Both halves of a power, and nothing where it's beyond the type.
fn tell_power(told: &mut Vec<u64>, base: u32, exponent: u32) {
    if let Some(power) = power(u128::from(base), exponent) {
        tell(told, (power >> 64) as u64);
        tell(told, (power % (1 << 64)) as u64);
    }
}

// Whether z ^ k is at most r * y ^ k.
fn tell_growth(told: &mut Vec<u64>, z: u32, k: u32, r: u32, y: u32) {
    if z <= 1024 && r <= 1024 && y <= 1024 && k <= 8 {
        tell(told, u64::from(at_most(z, k, r, y)));
    }
}

// What is asked of whole powers.
struct Powers;

impl Asked for Powers {
    fn answer(&self, _alloc: Global, name: &str, numbers: [u32; 5], told: &mut Vec<u64>) {
        let [a, b, c, d, _] = numbers;
        match name {
            "power" => tell_power(told, a, b),
            "growth" => tell_growth(told, a, b, c, d),
            _ => tell_unknown(told),
        }
    }
}

// A power stands as what it is of 2^64, and the rest. A growth is asked by z, k, r and y: whether
// z ^ k is at most r * y ^ k.
#[test]
fn powers_and_growths_at_the_limits(rt: HostRuntime) {
    let rows = "power 2 127 = 9223372036854775808 0|power 2 128 =|power 0 0 = 0 1|power 7 0 = 0 1|\
        power 1024 8 = 65536 0|power 1 4294967295 = 0 1|power 0 4294967295 = 0 0|\
        growth 4 2 4 3 = 1|growth 0 1 0 0 = 1|growth 0 8 0 0 = 1|growth 1 1 0 1 = 0|\
        growth 1 8 1 0 = 0|growth 1 1 1 1 = 1|growth 1 8 1 1 = 1|growth 0 8 1024 1024 = 1|\
        growth 1024 1 1 1024 = 1|growth 1024 8 1 1024 = 1|growth 1024 1 1024 1 = 1|\
        growth 1024 8 1024 1 = 0|growth 1024 1 1023 1 = 0|growth 1024 8 1024 1024 = 1|\
        growth 1024 8 0 1024 = 0|growth 1024 1 1024 0 = 0|growth 1024 8 1024 0 = 0|\
        growth 3 1 4 1 = 1|growth 2 2 4 1 = 1|growth 3 2 4 1 = 0|";
    ask_rows(&rt, rt.alloc(), &Powers, "powers", rows);
}
