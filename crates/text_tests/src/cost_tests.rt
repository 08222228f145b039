//! What the moves of whole inputs cost, as text. The values are those of worked examples, and of a
//! program that was written apart from this one.

ghost use Rattle.move_cost.specs.Plans.{GoTogether};
ghost use Rattle.net_reader.specs.Seen.{seen_input};

use crate::playing::{Table, play};
use distances::Distances;
use move_cost::{costs, costs_text};
use net_reader::Input;
use region_plan::Plan;
use std::alloc::Global;
use std::process::Abort;
use std::test::Fail;

/// What the moves of an input cost over its plan, as text.
pub fn costs_by(
    rt: &impl Abort,
    alloc: Global,
    input: &Input,
    plan: &Plan,
    distances: &Distances,
) -> Vec<u8>
    requires { GoTogether (seen_input input.now) plan.now distances.now }
{
    let lines = costs(alloc, input, plan, distances).expect(rt, "memory");
    costs_text(alloc, &lines).expect(rt, "memory")
}

// Each row is an input over the line 0 - 1 - 2 - 3 of unit weights, and the costs.
#[test]
fn moves_on_the_line_of_four(rt: HostRuntime) -> Result<(), Fail> {
    let rows = "track 1\nnodes 4\nk 2\nedge 0 1 1\nedge 1 2 1\nedge 2 3 1\n\
        sub 3\ncallers 1\nmove 0 2\nfind 1 3 0\n>\
        cost 0 moves 1 moved 1 written 12 purged 0\nend\n|\
        track 1\nnodes 4\nk 2\nedge 0 1 1\nedge 1 2 1\nedge 2 3 1\n\
        sub 3\ncallers 1\nmove 0 2\nmove 0 0\n>\
        cost 0 moves 2 moved 3 written 16 purged 2\nend\n|\
        track 2\nnodes 4\nk 2\nedge 0 1 1\nedge 1 2 1\nedge 2 3 1\n\
        sub 3\nsub 0\ncallers 1\nmove 1 3\noff 1\non 1\n\
        move 1 0\nmove 0 2\nmove 0 1\nmove 0 2\n>\
        cost 0 moves 3 moved 3 written 30 purged 2\n\
        cost 1 moves 2 moved 6 written 36 purged 2\nend\n|\
        track 1\nnodes 4\nk 2\nedge 0 1 1\nedge 1 2 1\nedge 2 3 1\n\
        sub 3\ncallers 0\n>\
        cost 0 moves 0 moved 0 written 0 purged 0\nend\n|";
    play(&rt, rt.alloc(), Table::Costs, rows)
}

// The path 0 - 1 - .. - 69, whose edges weigh 1, 2 and 3 in turn.
#[test]
fn moves_past_a_word_of_nodes(rt: HostRuntime) -> Result<(), Fail> {
    let rows = "track 1\nnodes 70\nk 2\n\
        edge 0 1 1\nedge 1 2 2\nedge 2 3 3\nedge 3 4 1\nedge 4 5 2\nedge 5 6 3\nedge 6 7 1\n\
        edge 7 8 2\nedge 8 9 3\nedge 9 10 1\nedge 10 11 2\nedge 11 12 3\nedge 12 13 1\n\
        edge 13 14 2\nedge 14 15 3\nedge 15 16 1\nedge 16 17 2\nedge 17 18 3\nedge 18 19 1\n\
        edge 19 20 2\nedge 20 21 3\nedge 21 22 1\nedge 22 23 2\nedge 23 24 3\nedge 24 25 1\n\
        edge 25 26 2\nedge 26 27 3\nedge 27 28 1\nedge 28 29 2\nedge 29 30 3\nedge 30 31 1\n\
        edge 31 32 2\nedge 32 33 3\nedge 33 34 1\nedge 34 35 2\nedge 35 36 3\nedge 36 37 1\n\
        edge 37 38 2\nedge 38 39 3\nedge 39 40 1\nedge 40 41 2\nedge 41 42 3\nedge 42 43 1\n\
        edge 43 44 2\nedge 44 45 3\nedge 45 46 1\nedge 46 47 2\nedge 47 48 3\nedge 48 49 1\n\
        edge 49 50 2\nedge 50 51 3\nedge 51 52 1\nedge 52 53 2\nedge 53 54 3\nedge 54 55 1\n\
        edge 55 56 2\nedge 56 57 3\nedge 57 58 1\nedge 58 59 2\nedge 59 60 3\nedge 60 61 1\n\
        edge 61 62 2\nedge 62 63 3\nedge 63 64 1\nedge 64 65 2\nedge 65 66 3\nedge 66 67 1\n\
        edge 67 68 2\nedge 68 69 3\n\
        sub 69\nsub 0\ncallers 0\nmove 0 68\nmove 0 66\nmove 0 60\nmove 0 64\n\
        move 0 2\nmove 0 69\nmove 1 69\nmove 1 1\n>\
        cost 0 moves 6 moved 284 written 5058 purged 6\n\
        cost 1 moves 2 moved 275 written 4964 purged 2\nend\n|";
    play(&rt, rt.alloc(), Table::Costs, rows)
}
