//! Tables of subjects, whatever is asked: the first word of each says what it is.
ghost use Rattle.distances.specs.Table.{AreDistancesOf};

use crate::cover_tests::{ask_cover, ask_mean_cover};
use crate::distance_tests::{ask_complete, ask_twice};
use crate::graph_tests::ask_network;
use crate::plan_tests::{ask_levels, ask_plan, has_levels};
use crate::rows::{ask_rows, five_numbers, halves, within};
use crate::set_tests::play_set;
use distances::Distances;
use net_graph::{Graph, MAX_NODES};
use std::alloc::Global;
use std::process::Abort;
use std::test::Fail;
use test_networks::path;

// Asks a path, its distances and a copy of them, or a plan of it.
fn ask_about_path(
    rt: &impl Abort,
    alloc: Global,
    graph: &Graph,
    distances: &Distances,
    kind: &str,
    numbers: [u32; 5],
    head: &str,
    rows: &str,
)
    requires { AreDistancesOf graph.now distances.now }
{
    let [_, weight, k, ..] = numbers;
    match kind {
        "line" => ask_rows(rt, alloc, graph, head, rows),
        "path" => ask_twice(rt, alloc, distances, head, rows),
        "levels" => has_levels(rt, alloc, graph, distances, weight),
        _ => ask_plan(rt, alloc, graph, distances, kind, k, head, rows),
    }
}

/// Asks what stands over a path: its numbers are its nodes, the weight of its edges, and the
/// trade-off where it is a plan.
pub fn ask_path(
    rt: &impl Abort,
    alloc: Global,
    kind: &str,
    numbers: [u32; 5],
    head: &str,
    rows: &str,
) -> Result<(), Fail> {
    let n = within(rt, numbers[0], 1, MAX_NODES);
    let weight = within(rt, numbers[1], 1, 1_048_576);
    let (graph, distances) = path(alloc, n, u64::from(weight))?;
    ask_about_path(rt, alloc, &graph, &distances, kind, numbers, head, rows);
    Ok(())
}

// Asks what stands over networks that are made of a few numbers.
fn ask_made_network(
    rt: &impl Abort,
    alloc: Global,
    kind: &str,
    head: &str,
    rows: &str,
) -> Result<(), Fail> {
    match kind {
        "complete" => ask_complete(rt, alloc, head, rows),
        "levels" => ask_levels(rt, alloc, head),
        _ => ask_path(rt, alloc, kind, five_numbers(head), head, rows),
    }
}

fn ask_subject(rt: &impl Abort, alloc: Global, subject: &str) -> Result<(), Fail> {
    let (head, rows) = halves(subject, ':');
    let (kind, _) = halves(head, ' ');
    match kind {
        "set" => play_set(rt, alloc, head, rows),
        "cover" => ask_cover(rt, alloc, head, rows),
        "meancover" => ask_mean_cover(rt, alloc, head, rows),
        "network" => ask_network(rt, alloc, head, rows),
        _ => return ask_made_network(rt, alloc, kind, head, rows),
    }
    Ok(())
}

/// Asks each subject of a table.
pub fn ask(rt: &impl Abort, alloc: Global, subjects: &str) -> Result<(), Fail> {
    for subject in subjects.split_terminator(';') {
        ask_subject(rt, alloc, subject)?;
    }
    Ok(())
}
