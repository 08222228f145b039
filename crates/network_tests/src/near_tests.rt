//! The nodes near a set: on a line, round a ring that is shorter one way, and where a search is
//! lent what another has left.
ghost use Rattle.std.specs.Prelude.{◌<◌, ◌≤◌, ◌^◌, All};

use crate::rows::{WORD, tell};
use crate::subjects::ask;
use net_graph::{Graph, Nearby};
use std::alloc::{AllocError, Global};
use std::test::Fail;

// Those of the numbers after the first that are nodes.
fn sources_of(alloc: Global, n: u32, numbers: [u32; 5]) -> Vec<u32>
    ensures { All (λ v. v < n) result.items }
{
    let mut sources = Vec::new(alloc);
    for place in 1..5 {
        if numbers[place] < n {
            let _ = sources.push(numbers[place]);
        }
    }
    sources
}

// The nodes that were found, each with its weight.
fn tell_found(nearby: &Nearby, told: &mut Vec<u64>) {
    for node in nearby.found() {
        tell(told, u64::from(*node));
        tell(told, nearby.weight_of(*node).unwrap_or(WORD));
    }
}

// What a search finds after one that found all nodes.
fn search_twice(
    alloc: Global,
    graph: &Graph,
    sources: &[u32],
    radius: u64,
    told: &mut Vec<u64>,
) -> Result<(), AllocError>
    requires sources { All (λ v. v < graph.now.nodes) sources.now }
    requires radius { radius ≤ 2 ^ 32 }
{
    let mut nearby = Nearby::new(alloc, graph.nodes())?;
    graph.near(alloc, &[0], 1 << 40, &mut nearby)?;
    graph.near(alloc, sources, radius, &mut nearby)?;
    tell_found(&nearby, told);
    Ok(())
}

/// The nodes within the first number of the nodes that the others name, each with its weight.
pub fn tell_near(alloc: Global, graph: &Graph, numbers: [u32; 5], told: &mut Vec<u64>) {
    let sources = sources_of(alloc, graph.nodes(), numbers);
    if search_twice(alloc, graph, &sources, u64::from(numbers[0]), told).is_err() {
        tell(told, WORD);
    }
}

// The nearest come first, and of nodes that are as near the least. A source that is named twice
// counts once, and no source finds nothing. On the ring, node 2 is nearer through node 3.
#[test]
fn nodes_near_a_set(rt: HostRuntime) -> Result<(), Fail> {
    let subjects = "network 4, 0 1 1, 1 2 1, 2 3 1:\
        near 1 1 = 1 0 0 1 2 1|\
        near 0 2 = 2 0|\
        near 1 0 3 0 = 0 0 3 0 1 1 2 1|\
        near 9 3 = 3 0 2 1 1 2 0 3|\
        near 5 = |;\
        network 4, 0 1 5, 1 2 5, 2 3 2, 0 3 3:\
        near 5 0 = 0 0 3 3 1 5 2 5|\
        near 4 0 = 0 0 3 3|\
        near 5 1 3 = 1 0 3 0 2 2 0 3|;";
    ask(&rt, rt.alloc(), subjects)
}
