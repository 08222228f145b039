//! The arcs of each node in one flat array. They are counted first, so that each node's have their
//! place.

ghost use Rattle.std.specs.Prelude.{◌≡◌, ◌+◌, ◌<◌, ◌≤◌, [], All, IfOk, length, slice_index, slice_set};
ghost use Rattle.net_graph.specs.Layout.{IsArc, make_arc};
ghost use Rattle.net_graph.specs.Network.{IsEdge};
ghost use Rattle.net_graph.specs.Notes.{AreCounts, AreRows, HaveRoom, JoinsOther, notes_of};
ghost use Rattle.net_graph.specs.Starts.{AreStarts};

use crate::edge::Edge;
use crate::neighbours::Arc;
use std::alloc::{AllocError, Global};

// Counts the arcs of each node: one either way for each edge that is no loop.
pub(crate) fn count_arcs(edges: &[Edge], counts: &mut [usize])
    requires edges { All (IsEdge (length counts.old)) edges.now }
    requires none { AreCounts [] counts.old }
    ensures { AreCounts (notes_of edges.now) counts.new }
{
    for place in 0..edges.len() {
        let edge = edges[place];
        if edge.a != edge.b {
            counts[edge.a as usize] += 1;
            counts[edge.b as usize] += 1;
        }
    }
}

// Where the arcs of each node begin, and where the last ones end.
pub(crate) fn sum_counts(alloc: Global, counts: &[usize]) -> Result<Vec<usize>, AllocError>
    requires { length counts.now ≤ 1024 }
    ensures { IfOk result (λ starts. AreStarts counts.now starts.items) }
{
    let mut starts = Vec::with_capacity(alloc, counts.len() + 1)?;
    let mut sum: usize = 0;
    starts.push(sum)?;
    for count in counts {
        sum = sum.checked_add(*count).ok_or(AllocError)?;
        starts.push(sum)?;
    }
    Ok(starts)
}

// Writes the arcs of each node into its places.
pub(crate) fn fill_arcs(edges: &[Edge], starts: &[usize], taken: &mut [usize], arcs: &mut [Arc])
    requires edges { All (IsEdge (length taken.old)) edges.now }
    requires room { HaveRoom (length taken.old) (notes_of edges.now) starts.now }
    requires arcs { length arcs.old ≡ slice_index starts.now (length taken.old) }
    requires limits { All (IsArc (length taken.old)) arcs.old }
    requires none { AreCounts [] taken.old }
    ensures { AreRows (length taken.old) (JoinsOther edges.now) starts.now arcs.new }
{
    for edge in edges {
        if edge.a != edge.b {
            let weight = edge.weight as u32;
            put_arc(starts, taken, arcs, edge.a, edge.b, weight);
            put_arc(starts, taken, arcs, edge.b, edge.a, weight);
        }
    }
}

// Writes an arc at the next free place of the node from which it leads.
#[inline(always)]
fn put_arc(
    starts: &[usize],
    taken: &mut [usize],
    arcs: &mut [Arc],
    from: u32,
    target: u32,
    weight: u32,
)
    requires from { from < length taken.old }
    requires start { from < length starts.now }
    requires free { slice_index starts.now from + slice_index taken.old from < length arcs.old }
    ensures taken { taken.new ≡ slice_set taken.old from (slice_index taken.old from + 1) }
    ensures arcs { arcs.new ≡ slice_set arcs.old
        (slice_index starts.now from + slice_index taken.old from) (make_arc target weight) }
{
    let from = from as usize;
    let place = taken[from];
    arcs[starts[from] + place] = Arc { target, weight };
    taken[from] = place + 1;
}
