//! Inputs over the line 0 - 1 - 2 - 3 of unit weights, and their runs.
ghost use Rattle.std.specs.Prelude.{IfOk, false, true};
ghost use Rattle.net_reader.specs.Seen.{seen_input};
ghost use Rattle.net_reader.specs.Valid.{IsValid};

use directory::{Done, Outcome};
use net_reader::Input;
use runner::{Gate, run_workers};
use std::alloc::Global;
use std::process::Abort;
use std::test::Fail;
use std::thread::Threads;
use test_networks::{input_of, plan_of};

/// The line, with one subscriber at node 3.
pub const LINE: &str = "track 1\nnodes 4\nk 2\nedge 0 1 1\nedge 1 2 1\nedge 2 3 1\nsub 3\n";

/// The input of these calls on the line.
pub fn input_of_calls(alloc: Global, calls: &str) -> Result<Input, Fail>
    ensures { IfOk result (λ input. IsValid (seen_input input)) }
{
    let mut text = String::from_str(alloc, LINE)?;
    text.push_str(calls)?;
    input_of(alloc, text.as_bytes())
}

/// What becomes of the move of the subscriber to node 2, where nobody else has a visit.
pub const MOVED: [Done; 1] = [Done::Moved {
    actor: 0,
    number: 1,
    from: 3,
    to: 2,
    weight: 1,
    first: 0,
    commit: 3,
    last: 5,
}];

/// A gate that never opens.
pub struct ShutGate;

impl Gate for ShutGate {
    ghost is_open = { λ _. false };

    ghost is_shut = { λ _. true };

    fn may_go(&self, actor: u32, done: u64) -> bool {
        let _ = (actor, done);
        false
    }

    fn made(&self, actor: u32, done: u64) {
        let _ = (actor, done);
    }
}

/// Stops where the calls and the order of an outcome aren't these.
pub fn same_outcome(rt: &impl Abort, outcome: &Outcome, calls: &[Done], order: &[u32]) {
    assert!(rt; outcome.calls.as_slice() == calls && outcome.order.as_slice() == order);
}

// What becomes of an input's calls by workers.
fn run_over<R: Threads + Sync, G: Gate>(
    rt: &R,
    alloc: Global,
    input: &Input,
    gate: &G,
    tries: u64,
) -> Result<Outcome, Fail>
    requires { IsValid (seen_input input.now) }
{
    let (plan, distances) = plan_of(alloc, input)?;
    Ok(run_workers(rt, alloc, input, &plan, &distances, gate, tries)?)
}

/// What becomes of these calls by workers on the line.
pub fn run<R: Threads + Sync, G: Gate>(
    rt: &R,
    alloc: Global,
    calls: &str,
    gate: &G,
    tries: u64,
) -> Result<Outcome, Fail> {
    let input = input_of_calls(alloc, calls)?;
    run_over(rt, alloc, &input, gate, tries)
}
