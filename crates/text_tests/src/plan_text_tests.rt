//! The texts of plans: of two nodes, whose one level has two clusters of both, and of paths.
ghost use Rattle.std.specs.Prelude.{◌≤◌};
ghost use Rattle.distances.specs.Table.{AreDistancesOf};

use crate::rows::{row_of, rows_in};
use crate::sameness::{is_like, same};
use distances::Distances;
use net_graph::{Graph, MAX_NODES, MAX_WEIGHT};
use region_plan::Plan;
use report_text::{PlanParts, plan_text};
use std::alloc::Global;
use std::process::Abort;
use std::test::Fail;
use test_networks::path;

// The plan of a network with this trade-off, or its flat plan where that is 0.
fn plan_over(rt: &impl Abort, alloc: Global, graph: &Graph, distances: &Distances, k: u32) -> Plan
    requires belongs { AreDistancesOf graph.now distances.now }
{
    if k == 0 || k > 8 {
        return Plan::flat(alloc, graph, distances).expect(rt, "memory");
    }
    Plan::build(alloc, graph, distances, k).expect(rt, "memory")
}

// The text of a plan is this, or begins and ends so where a `*` stands between, and is so long.
fn is_text(rt: &impl Abort, alloc: Global, plan: &Plan, wanted: &str, long: usize) {
    let text = plan_text(alloc, plan).expect(rt, "memory");
    is_like(rt, 0, &text, wanted);
    same(rt, 1, text.len(), long);
}

// The next part of a text is this one.
fn goes_on(rt: &impl Abort, parts: &mut PlanParts<'_>, place: usize, wanted: &str) {
    assert!(rt; parts.advance());
    is_like(rt, place, parts.part(), wanted);
}

// A text has no part more.
fn has_ended(rt: &impl Abort, parts: &mut PlanParts<'_>) {
    assert!(rt; !parts.advance() && parts.part().is_empty() && !parts.advance());
}

// Each row is a part of a plan's text.
fn play(rt: &impl Abort, alloc: Global, plan: &Plan, rows: &str) {
    let mut parts = PlanParts::new(alloc, plan).expect(rt, "memory");
    for place in 0..rows_in(rows) {
        let (part, _) = row_of(rows, place);
        goes_on(rt, &mut parts, place, part);
    }
    has_ended(rt, &mut parts);
}

// What is to be told of a plan.
#[derive(Clone, Copy)]
enum Told<'a> {
    /// Its text.
    Text(&'a str),
    /// The parts of its text, in rows.
    Parts(&'a str),
    /// How its text begins, with a `*` behind, and how long it is.
    Long(&'a str, usize),
}

fn tell_plan(rt: &impl Abort, alloc: Global, plan: &Plan, told: Told<'_>) {
    match told {
        Told::Text(text) => is_text(rt, alloc, plan, text, text.len()),
        Told::Parts(rows) => play(rt, alloc, plan, rows),
        Told::Long(wanted, long) => is_text(rt, alloc, plan, wanted, long),
    }
}

// What is to be told of the plan of a network with this trade-off.
fn tell_over(
    rt: &impl Abort,
    alloc: Global,
    graph: &Graph,
    distances: &Distances,
    k: u32,
    told: Told<'_>,
)
    requires belongs { AreDistancesOf graph.now distances.now }
{
    let plan = plan_over(rt, alloc, graph, distances, k);
    tell_plan(rt, alloc, &plan, told);
}

// The plan of a path of `n` nodes, whose edges have this weight, with this trade-off, or the flat
// plan where that is 0.
fn tell(
    rt: &impl Abort,
    alloc: Global,
    n: u32,
    weight: u64,
    k: u32,
    told: Told<'_>,
) -> Result<(), Fail>
    requires some { 1 ≤ n }
    requires few { n ≤ MAX_NODES }
    requires positive { 1 ≤ weight }
    requires light { weight ≤ MAX_WEIGHT }
{
    let (graph, distances) = path(alloc, n, weight)?;
    tell_over(rt, alloc, &graph, &distances, k, told);
    Ok(())
}

#[test]
fn plan_of_two_nodes(rt: HostRuntime) -> Result<(), Fail> {
    let text =
        "plan nodes 2 k 1 levels 1 degree 2 stretch 56\nlevel 0 radius 1 clusters 2 phases 2\n\
            cluster 0 phase 0 leader 0 depth 1 members 0 1\n\
            cluster 1 phase 1 leader 1 depth 1 members 0 1\nhomes 0 1\nend\n";
    tell(&rt, rt.alloc(), 2, 1, 1, Told::Text(text))
}

#[test]
fn flat_plan_of_the_line_of_four(rt: HostRuntime) -> Result<(), Fail> {
    let text =
        "plan nodes 4 k 1 levels 1 degree 1 stretch 40\nlevel 0 radius 4 clusters 1 phases 1\n\
            cluster 0 phase 0 leader 0 depth 3 members 0 1 2 3\nhomes 0 0 0 0\nend\n";
    tell(&rt, rt.alloc(), 4, 1, 0, Told::Text(text))
}

#[test]
fn parts_of_the_plan_of_two_nodes(rt: HostRuntime) -> Result<(), Fail> {
    let rows = "plan nodes 2 k 1 levels 1 degree 2 stretch 56\n|\
        level 0 radius 1 clusters 2 phases 2\n|\
        cluster 0 phase 0 leader 0 depth 1 members| 0 1\n|\
        cluster 1 phase 1 leader 1 depth 1 members| 0 1\n|\
        homes| 0 1\n|\
        end\n|";
    tell(&rt, rt.alloc(), 2, 1, 1, Told::Parts(rows))
}

// The second level has the clusters of the first, so that its body is one part.
#[test]
fn parts_of_levels_with_the_same_clusters(rt: HostRuntime) -> Result<(), Fail> {
    let rows = "plan nodes 2 k 2 levels 3 degree 1 stretch 96\n|\
        level 0 radius 1 clusters 2 phases 1\n|\
        cluster 0 phase 0 leader 0 depth 0 members| 0\n|\
        cluster 1 phase 0 leader 1 depth 0 members| 1\n|\
        homes| 0 1\n|\
        level 1 radius 2 clusters 2 phases 1\n|\
        cluster 0 phase 0 leader 0 depth 0 members 0\n\
        cluster 1 phase 0 leader 1 depth 0 members 1\nhomes 0 1\n|\
        level 2 radius 4 clusters 1 phases 1\n|\
        cluster 0 phase 0 leader 0 depth 4 members| 0 1\n|\
        homes| 0 0\n|\
        end\n|";
    tell(&rt, rt.alloc(), 2, 4, 2, Told::Parts(rows))
}

// No part has more than 64 numbers.
#[test]
fn parts_past_a_word(rt: HostRuntime) -> Result<(), Fail> {
    let rows = "plan nodes 130 k 1 levels 1 degree 1 stretch 40\n|\
        level 0 radius 256 clusters 1 phases 1\n|\
        cluster 0 phase 0 leader 0 depth 129 members| 0 1 2 3 * 62 63|\x20\
        64 65 66 * 126 127| 128 129\n|\
        homes| 0 0 0 * 0 0| 0 0 0 * 0 0| 0 0\n|\
        end\n|";
    tell(&rt, rt.alloc(), 130, 1, 0, Told::Parts(rows))
}

// Digits and blanks of the members 0 to 1023 are 4,010, and of the homes 2,048;
// the `*` is one.
#[test]
fn text_at_the_most_nodes(rt: HostRuntime) -> Result<(), Fail> {
    let head = "plan nodes 1024 k 1 levels 1 degree 1 stretch 40\nlevel 0 radius 1024 clusters 1 *";
    let long = head.len() - 1 + 9 + 45 + 4010 + 1 + 5 + 2048 + 1 + 4;
    tell(&rt, rt.alloc(), MAX_NODES, 1, 0, Told::Long(head, long))
}
