//! Whole runs of a few actors: what becomes of their calls, and what idle turns leave.

ghost use Rattle.std.specs.Prelude.{ℕ, []};
ghost use Rattle.directory.specs.Orders.{IsDone};
ghost use Rattle.directory.specs.Histories.{History};
ghost use Rattle.machine.specs.Machines.{HasHistory, scripts_at, setting_at};
ghost use Rattle.machine.specs.Stands.{BelongTogether};
ghost use Rattle.net_reader.specs.Seen.{seen_input};
ghost use Rattle.net_reader.specs.Valid.{IsValid};

use crate::sameness::same_shown;
use crate::turn_tests;
use directory::all_scripts_done;
use distances::Distances;
use machine::Machine;
use net_reader::Input;
use region_plan::Plan;
use std::alloc::Global;
use std::process::Abort;
use std::test::Fail;
use test_networks::{input_of, plan_of};

// The line 0 - 1 - 2 - 3 of unit weights, with one subscriber at 3 and one caller, actor 1.
const LINE: &str = "nodes 4\nk 2\nedge 0 1 1\nedge 1 2 1\nedge 2 3 1\nsub 3\ncallers 1\n";

// Two nodes, three subscribers at 0, 1 and 1, and 64 callers, of which actor 66 is the last.
const CROWD: &str = "nodes 2\nk 2\nedge 0 1 1\nsub 0\nsub 1\nsub 1\ncallers 64\n";

// Two nodes, a subscriber without calls at node 1, and a caller with one.
pub(crate) const PAIR: &str = "nodes 2\nk 2\nedge 0 1 1\nsub 1\ncallers 1\n";

// The path 0 - 1 - .. - 7 of unit weights, whose covers of k 1 have a cluster for each node, with
// one subscriber at 0 and one caller, actor 1.
pub(crate) const PATH: &str =
    "nodes 8\nk 1\nedge 0 1 1\nedge 1 2 1\nedge 2 3 1\nedge 3 4 1\nedge 4 5 1\n\
                    edge 5 6 1\nedge 6 7 1\nsub 0\ncallers 1\n";

// The turns of an order, and the visits that are left.
fn play(machine: &mut Machine<'_>, order: &[u32])
    requires { HasHistory machine.old [] }
    ensures { (history : History) × HasHistory machine.new history
        × ((actor : ℕ) → IsDone (setting_at machine.new) (scripts_at machine.new) history actor) }
{
    all_scripts_done();
    machine.play(order);
    machine.finish();
}

// What a machine is to do.
#[derive(Clone, Copy)]
pub(crate) enum Task<'a> {
    /// All calls: what becomes of them past the first so many, and the actors of all tickets, are
    /// to be shown so.
    Calls(usize, &'a str),
    /// Turns, by rows, and what the second node then says of the first subscriber.
    Turns(&'a str, &'a str),
}

// All calls of a machine, in the order of its input.
fn play_calls(
    rt: &impl Abort,
    alloc: Global,
    mut machine: Machine<'_>,
    order: &[u32],
    skipped: usize,
    wanted: &str,
)
    requires { HasHistory machine [] }
{
    play(&mut machine, order);
    let outcome = machine.outcome();
    let seen = (outcome.calls.get(skipped..), outcome.order.as_slice());
    same_shown(rt, alloc, 0, &seen, wanted);
}

fn play_on(
    rt: &impl Abort,
    alloc: Global,
    input: &Input,
    plan: &Plan,
    distances: &Distances,
    task: Task<'_>,
)
    requires { BelongTogether (seen_input input.now) plan.now distances.now }
{
    let machine = Machine::new(alloc, input, plan, distances).expect(rt, "memory");
    match task {
        Task::Calls(skipped, wanted) => {
            play_calls(rt, alloc, machine, &input.order, skipped, wanted)
        }
        Task::Turns(rows, word) => {
            turn_tests::play_turns(rt, alloc, machine, input, plan, rows, word)
        }
    }
}

fn play_over(rt: &impl Abort, alloc: Global, input: &Input, task: Task<'_>) -> Result<(), Fail>
    requires { IsValid (seen_input input.now) }
{
    let (plan, distances) = plan_of(alloc, input)?;
    play_on(rt, alloc, input, &plan, &distances, task);
    Ok(())
}

/// A task over the input of a text: its format, a network with its actors, and calls.
pub(crate) fn perform(
    rt: &impl Abort,
    alloc: Global,
    format: &str,
    network: &str,
    calls: &str,
    task: Task<'_>,
) -> Result<(), Fail> {
    let text = format!(in alloc; "{format}{network}{calls}").expect(rt, "memory");
    let input = input_of(alloc, text.as_bytes())?;
    play_over(rt, alloc, &input, task)
}

#[test]
fn moves_finds_and_switches(rt: HostRuntime) -> Result<(), Fail> {
    perform(
        &rt,
        rt.alloc(),
        "track 1\n",
        LINE,
        "move 0 2\nfind 1 3 0\n",
        Task::Calls(
            0,
            "(Some([Moved { actor: 0, number: 1, from: 3, to: 2, weight: 1, first: 0, commit: 3, \
        last: 5 }, Found { actor: 1, from: 3, sub: 0, node: 2, number: 1, level: Some(0), \
        weight: 5, first: 6, last: 8 }]), [0, 0, 0, 0, 0, 0, 1, 1, 1])",
        ),
    )?;
    perform(
        &rt,
        rt.alloc(),
        "track 2\n",
        LINE,
        "off 0\nfind 1 2 0\n",
        Task::Calls(
            0,
            "(Some([Switched { actor: 0, off: true, node: 3, number: 0, ticket: 0 }, \
        Off { actor: 1, from: 2, sub: 0, node: 3, number: 0, level: Some(0), weight: 5, \
        first: 1, last: 4 }]), [0, 1, 1, 1, 1])",
        ),
    )
}

// The find's third look meets a node that the second move has purged.
#[test]
fn a_find_that_meets_a_purge(rt: HostRuntime) -> Result<(), Fail> {
    perform(
        &rt,
        rt.alloc(),
        "track 1\n",
        LINE,
        "move 0 2\nmove 0 0\nfind 1 3 0\norder 0 0 0 0 0 0 1 1 0 0 0 0 0 0 0 0 1\n",
        Task::Calls(
            2,
            "(Some([Again { actor: 1, from: 3, sub: 0, why: Empty { node: 2 }, weight: 5, \
        first: 6, last: 16 }]), [0, 0, 0, 0, 0, 0, 1, 1, 0, 0, 0, 0, 0, 0, 0, 0, 1])",
        ),
    )
}

// Idle turns leave no ticket and no line.
#[test]
fn a_crowd_and_idle_turns(rt: HostRuntime) -> Result<(), Fail> {
    perform(
        &rt,
        rt.alloc(),
        "track 1\n",
        CROWD,
        "move 1 0\nfind 66 0 2\n",
        Task::Calls(
            0,
            "(Some([Moved { actor: 1, number: 1, from: 1, to: 0, weight: 1, first: 0, commit: 2, \
        last: 4 }, Found { actor: 66, from: 0, sub: 2, node: 1, number: 0, level: Some(0), \
        weight: 1, first: 5, last: 7 }]), [1, 1, 1, 1, 1, 66, 66, 66])",
        ),
    )?;
    perform(
        &rt,
        rt.alloc(),
        "track 1\n",
        PAIR,
        "find 1 0 0\norder 0 1 0 1 0 1 1 0\n",
        Task::Calls(
            0,
            "(Some([Found { actor: 1, from: 0, sub: 0, node: 1, number: 0, level: Some(0), \
        weight: 1, first: 0, last: 2 }]), [1, 1, 1])",
        ),
    )
}

// Climbs past many entries that hold nothing, wherever an order cuts them. Two finds on the path
// have 16 looks and 6.
#[test]
fn climbs_at_once(rt: HostRuntime) -> Result<(), Fail> {
    let orders = [
        "find 1 6 0\nfind 1 2 0\n",
        "find 1 6 0\nfind 1 2 0\norder 1 1 1 1 1 0 0 1 0 1 1 1\n",
    ];
    for place in 0..orders.len() {
        perform(
            &rt,
            rt.alloc(),
            "track 1\n",
            PATH,
            orders[place],
            Task::Calls(
                0,
                "(Some([Found { actor: 1, from: 6, sub: 0, node: 0, number: 0, level: Some(3), \
            weight: 40, first: 0, last: 15 }, Found { actor: 1, from: 2, sub: 0, node: 0, \
            number: 0, level: Some(1), weight: 6, first: 16, last: 21 }]), \
            [1, 1, 1, 1, 1, 1, 1, 1, 1, 1, 1, 1, 1, 1, 1, 1, 1, 1, 1, 1, 1, 1])",
            ),
        )?;
    }
    Ok(())
}
