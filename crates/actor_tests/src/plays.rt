//! What is played over plans. One function owns each plan, since the prover takes long for every
//! function that owns one.

ghost use Rattle.std.specs.Prelude.{◌≡◌, IfOk};

use crate::{cell_tests, handset_tests, route_tests, walk_tests};
use distances::Distances;
use region_plan::Plan;
use std::alloc::Global;
use std::process::Abort;
use std::test::Fail;
use test_networks::{line_of_four, plan_of_most_nodes, plan_past_two_words};

/// Over which plan rows are played.
#[derive(Clone, Copy)]
pub enum Over {
    /// The line 0 - 1 - 2 - 3 of unit weights.
    Line,
    /// A path of 130 nodes, whose nine levels have a cluster for each node.
    PastTwoWords,
    /// The flat plan of a path of the most nodes.
    MostNodes,
}

/// What rows are played with.
#[derive(Clone, Copy)]
pub enum Subject {
    /// The cells of so many subscribers, which all start at one node.
    Cells { home: u32, subs: u32 },
    /// A handset at rest at this node.
    Handset { home: u32 },
    /// The readers and the homes of all nodes.
    Routes,
    /// A find of the last of so many subscribers from a node.
    Walk { from: u32, subs: u32 },
}

fn plan_of(alloc: Global, over: Over) -> Result<(Plan, Distances), Fail>
    ensures copy { IfOk result (λ pair. pair.0.distances ≡ pair.1) }
{
    match over {
        Over::Line => line_of_four(alloc),
        Over::PastTwoWords => plan_past_two_words(alloc),
        Over::MostNodes => plan_of_most_nodes(alloc),
    }
}

fn play_rows(
    rt: &impl Abort,
    alloc: Global,
    plan: &Plan,
    distances: &Distances,
    subject: Subject,
    rows: &str,
)
    requires belongs { plan.now.distances ≡ distances.now }
{
    match subject {
        Subject::Cells { home, subs } => cell_tests::play_from(rt, alloc, plan, home, subs, rows),
        Subject::Handset { home } => {
            handset_tests::play_from(rt, alloc, plan, distances, home, rows)
        }
        Subject::Routes => route_tests::play_over(rt, alloc, plan, rows),
        Subject::Walk { from, subs } => {
            walk_tests::play_from(rt, alloc, plan, distances, from, subs, rows)
        }
    }
}

fn play_tables(
    rt: &impl Abort,
    alloc: Global,
    plan: &Plan,
    distances: &Distances,
    subject: Subject,
    tables: &[&str],
)
    requires belongs { plan.now.distances ≡ distances.now }
{
    for place in 0..tables.len() {
        play_rows(rt, alloc, plan, distances, subject, tables[place]);
    }
}

/// Plays each of some tables from the beginning.
pub fn play(
    rt: &impl Abort,
    alloc: Global,
    over: Over,
    subject: Subject,
    tables: &[&str],
) -> Result<(), Fail> {
    let (plan, distances) = plan_of(alloc, over)?;
    play_tables(rt, alloc, &plan, &distances, subject, tables);
    Ok(())
}
