//! The bound on what a quiet find over a plan travels, as a number.
ghost use Rattle.std.specs.Prelude.{ℕ, ◌≡◌, ◌≤◌, ◌^◌};
ghost use Rattle.stretch_laws.specs.Plans.{bound_of};

use region_plan::Plan;

/// The greatest weight of a quiet find over a plan that bounds its finds: the plan's stretch times
/// the distance of the find from its subscriber, plus twice the weight of the passage that is open,
/// 0 where none is (docs/DIRECTORY.md, "What a find pays").
pub fn bound(plan: &Plan, distance: u64, passage: u64) -> u64
    requires distance { distance ≤ 2 ^ 30 }
    requires passage { passage ≤ 2 ^ 30 }
    ensures { result ≡ bound_of plan.now distance passage }
{
    plan.stretch() * distance + 2 * passage
}
