//! Lists of weights.

ghost use Rattle.std.specs.Prelude.{◌≡◌, ◌<◌, ◌≤◌, All, Contains, length};

/// The greatest of the weights, 0 where there is none.
pub fn greatest_weight(weights: &[u32]) -> u32
    ensures bound { All (λ x. x ≤ result) weights.now }
    ensures attained { 0 < length weights.now → Contains weights.now result }
    ensures none { length weights.now ≡ 0 → result ≡ 0 }
{
    weights.iter().copied().max().unwrap_or(0)
}
