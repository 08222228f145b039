//! The bound over the plan of the line 0 - 1 - 2 - 3 of unit weights, and at its limits.

use crate::plays::{Over, Subject, perform};
use crate::sameness::same_shown;
use region_plan::Plan;
use std::alloc::Global;
use std::process::Abort;
use std::test::Fail;
use stretch_laws::bound;

/// The bounds of some distances and passages are to be shown so.
pub fn tell(rt: &impl Abort, alloc: Global, plan: &Plan, wanted: &str) {
    let bounds = [
        bound(plan, 1, 0),
        bound(plan, 0, 1),
        bound(plan, 0, 0),
        bound(plan, 1 << 30, 1 << 30),
    ];
    same_shown(rt, alloc, 0, &bounds, wanted);
}

// The last is 146 times 2^30.
#[test]
fn the_stretch_times_the_distance_and_twice_the_passage(rt: HostRuntime) -> Result<(), Fail> {
    let wanted = "[144, 2, 0, 156766306304]";
    perform(&rt, rt.alloc(), Over::Line, Subject::Bounds, wanted)
}
