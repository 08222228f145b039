//! How many visits a script has at most.
ghost use Rattle.std.specs.Prelude.{◌≡◌, ◌≤◌, ◌^◌, IfOk, List, ℕ};
ghost use Rattle.machine.specs.Stands.{BeginInside, BeginsInside};
ghost use Rattle.region_plan.specs.Plan.{nodes_of};
ghost use Rattle.region_plan.specs.Settings.{setting_of};
ghost use Rattle.scripts.specs.Scripts.{most_in, most_of};

use net_reader::Call;
use region_plan::Plan;
use std::alloc::AllocError;

// A pass has room for no more visits than these.
const MOST: u64 = 1 << 56;

// The most visits of a call.
fn most_of(plan: &Plan, call: Call) -> u64
    requires inside { BeginsInside (nodes_of plan.now) call }
    ensures { (starts : List ℕ) → result ≡ most_of (setting_of plan.now starts) call }
{
    match call {
        Call::Move { .. } => plan.most_writes(),
        Call::Find { from, .. } => plan.most_looks(from),
        Call::Off | Call::On => 1,
    }
}

// The most visits of a script, for which there is room in a pass.
pub fn most_of_script(plan: &Plan, script: &[Call]) -> Result<u64, AllocError>
    requires inside { BeginInside (nodes_of plan.now) script.now }
    ensures most { IfOk result
        (λ most. (starts : List ℕ) → most ≡ most_in (setting_of plan.now starts) script.now) }
    ensures few { IfOk result (λ most. most ≤ 2 ^ 56) }
{
    let mut most = 0u64;
    for call in script {
        most = most.checked_add(most_of(plan, *call)).ok_or(AllocError)?;
    }
    if most > MOST {
        return Err(AllocError);
    }
    Ok(most)
}
