//! Turns of a machine, one and many: whose turns make a visit, and how many.

ghost use Rattle.std.specs.Prelude.{◌≡◌, ◌<◌, length};
ghost use Rattle.directory.specs.Histories.{History};
ghost use Rattle.region_plan.specs.Cells.{IsCell};
ghost use Rattle.machine.specs.Machines.{HasHistory, IsSame};

use crate::machine_tests::{PAIR, PATH, Task, perform};
use crate::rows::{row_of, rows_in, step_of};
use crate::sameness::same_shown;
use entry_word::Key;
use machine::Machine;
use net_reader::Input;
use region_plan::Plan;
use std::alloc::Global;
use std::process::Abort;
use std::test::Fail;

// What a cell of a machine holds.
fn word_in(machine: &Machine<'_>, input: &Input, plan: &Plan, key: Key) -> u64
    requires stands { (history : History) × HasHistory machine.now history }
    requires input { machine.now.input.now ≡ input.now }
    requires plan { machine.now.plan.now ≡ plan.now }
    requires cell { IsCell plan.now (length input.now.homes.items) key }
{
    machine.cells().look(plan, key)
}

// What the second node of some says of the first subscriber.
fn word_at_second(machine: &Machine<'_>, input: &Input, plan: &Plan) -> Option<u64>
    requires stands { (history : History) × HasHistory machine.now history }
    requires input { machine.now.input.now ≡ input.now }
    requires plan { machine.now.plan.now ≡ plan.now }
{
    if plan.nodes() >= 2 && input.homes.len() >= 1 {
        return Some(word_in(machine, input, plan, Key::Presence { node: 1, sub: 0 }));
    }
    None
}

// A turn of an actor is to be answered so, or so many turns are to make so many visits.
fn take(
    rt: &impl Abort,
    alloc: Global,
    place: usize,
    machine: &mut Machine<'_>,
    step: &str,
    wanted: &str,
)
    requires stands { (history : History) × HasHistory machine.old history }
    ensures stands { (history : History) × HasHistory machine.new history }
    ensures same { IsSame machine.old machine.new }
{
    let (name, [actor, count, ..]) = step_of(step);
    if name == "turn" {
        same_shown(rt, alloc, place, &machine.turn(actor), wanted);
    } else {
        same_shown(
            rt,
            alloc,
            place,
            &machine.turns(actor, count as usize),
            wanted,
        );
    }
}

fn play(rt: &impl Abort, alloc: Global, machine: &mut Machine<'_>, rows: &str)
    requires stands { (history : History) × HasHistory machine.old history }
    ensures stands { (history : History) × HasHistory machine.new history }
    ensures same { IsSame machine.old machine.new }
{
    'steps: for place in 0..rows_in(rows) {
        let (step, wanted) = row_of(rows, place);
        take(rt, alloc, place, machine, step, wanted);
    }
}

fn play_and_look(
    rt: &impl Abort,
    alloc: Global,
    machine: &mut Machine<'_>,
    input: &Input,
    plan: &Plan,
    rows: &str,
    word: &str,
)
    requires stands { (history : History) × HasHistory machine.old history }
    requires input { machine.old.input.now ≡ input.now }
    requires plan { machine.old.plan.now ≡ plan.now }
{
    play(rt, alloc, machine, rows);
    let seen = word_at_second(machine, input, plan);
    same_shown(rt, alloc, rows_in(rows), &seen, word);
}

/// Plays turns of a machine, and what its second node then says of the first subscriber is to be
/// shown so.
pub fn play_turns(
    rt: &impl Abort,
    alloc: Global,
    machine: Machine<'_>,
    input: &Input,
    plan: &Plan,
    rows: &str,
    word: &str,
)
    requires stands { (history : History) × HasHistory machine history }
    requires input { machine.input.now ≡ input.now }
    requires plan { machine.plan.now ≡ plan.now }
{
    let mut machine = machine;
    play_and_look(rt, alloc, &mut machine, input, plan, rows, word);
}

// An actor without calls, and one that isn't there. The word is that of a subscriber at the node
// where it starts.
#[test]
fn idle_turns(rt: HostRuntime) -> Result<(), Fail> {
    let rows = "turn 0>Finished|turn 1>Visited|turn 2>Finished|";
    let task = Task::Turns(rows, "Some(281474976710656)");
    perform(&rt, rt.alloc(), "track 1\n", PAIR, "find 1 0 0\n", task)
}

#[test]
fn many_turns(rt: HostRuntime) -> Result<(), Fail> {
    let rows = "turns 1 0>0|turns 0 3>0|turns 1 5>5|turns 1 1>1|turns 1 100>10|turns 1 1>0|\
        turns 2 4>0|";
    let task = Task::Turns(rows, "Some(0)");
    perform(&rt, rt.alloc(), "track 1\n", PATH, "find 1 6 0\n", task)
}
