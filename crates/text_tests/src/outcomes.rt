//! Outcomes of a few calls.
use directory::{Done, Outcome};
use std::alloc::Global;
use std::process::Abort;

/// These calls, and so many visits of this actor.
pub fn outcome_of(
    rt: &impl Abort,
    alloc: Global,
    calls: &[Done],
    actor: u32,
    visits: usize,
) -> Outcome {
    let calls = Vec::from_slice(alloc, calls).expect(rt, "memory");
    let order = vec![in alloc; actor; visits].expect(rt, "memory");
    Outcome { calls, order }
}
