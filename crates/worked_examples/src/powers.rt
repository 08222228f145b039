//! What the laws of powers say of a few numbers.
ghost use Rattle.std.specs.Prelude.{◌+◌, ◌*◌, ◌^◌, ◌≤◌, ℕ, suc, [], ◌∷◌, List, length};
ghost use Rattle.whole_powers.specs.Phases.{FallsBy};

use whole_powers::{bernoulli, phases_bound};

/// Bernoulli's inequality for the power 3, above one and below one. By parts that are large for the
/// power 2 the number 4 falls to nothing in at most four steps, as by 2 and 2.
pub fn worked_powers()
    ensures above { (x : ℕ) → 1 + 3 * x ≤ (1 + x) ^ 3 }
    ensures below { (q : ℕ) → suc q * suc q ^ 3 ≤ suc q * q ^ 3 + 3 * suc q ^ 3 }
    ensures falls { FallsBy 2 4 (2 ∷ 2 ∷ []) }
    ensures phases { (parts : List ℕ) → FallsBy 2 4 parts → length parts ≤ 4 }
{
    bernoulli();
    phases_bound();
}
