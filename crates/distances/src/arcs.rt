//! What elimination begins with: the weights of a network's arcs, and how many each node has.

ghost use Rattle.std.specs.Prelude.{◌≡◌, ◌+◌, ◌*◌, ◌<◌, ◌≤◌, All, IfOk, length, replicate};
ghost use Rattle.net_graph.specs.declared.edge.TheConstants.{MAX_NODES};
ghost use Rattle.net_graph.specs.Layout.{IsArc};
ghost use Rattle.distances.specs.NodesLeftOut.{IsFirstTable};
ghost use Rattle.distances.specs.Lowering.{Among, ArcOffer, IsLowered};

use crate::weights::{FAR, lower};
use net_graph::{Arc, Graph, OutOfMemory};
use std::alloc::Global;

// Lowers the cells of a node's arcs to their weights.
fn lower_to_arcs(table: &mut [u32], n: usize, width: usize, u: usize, arcs: &[Arc])
    requires few { n ≤ MAX_NODES }
    requires wide { n ≤ width }
    requires narrow { width ≤ 2048 }
    requires count { length table.old ≡ n * width }
    requires below { u < n }
    requires arcs { All (IsArc n) arcs.now }
    ensures { IsLowered (Among arcs.now (ArcOffer width u)) table.old table.new }
{
    for arc in arcs {
        lower(table, u * width + arc.target as usize, arc.weight);
    }
}

// Lowers the cells of all arcs of a network to their weights.
fn lower_to_all_arcs(table: &mut [u32], graph: &Graph, width: usize)
    requires wide { graph.now.nodes ≤ width }
    requires narrow { width ≤ 2048 }
    requires far { table.old ≡ replicate (graph.now.nodes * width) FAR }
    ensures { IsFirstTable graph.now width table.new }
{
    let n = graph.nodes() as usize;
    for u in 0..n {
        lower_to_arcs(table, n, width, u, graph.arcs_of(u as u32));
    }
}

// The least weights of the edges between each two nodes, `FAR` where there is none.
pub(crate) fn first_table(
    alloc: Global,
    graph: &Graph,
    width: usize,
) -> Result<Vec<u32>, OutOfMemory>
    requires wide { graph.now.nodes ≤ width }
    requires narrow { width ≤ 2048 }
    ensures { IfOk result (λ table. IsFirstTable graph.now width table.items) }
{
    let mut table = vec![in alloc; FAR; graph.nodes() as usize * width]?;
    lower_to_all_arcs(&mut table, graph, width);
    Ok(table)
}

// How many arcs each node has.
pub(crate) fn degrees_of(alloc: Global, graph: &Graph) -> Result<Vec<usize>, OutOfMemory>
    ensures { IfOk result (λ degrees. length degrees.items ≡ graph.now.nodes) }
{
    let n = graph.nodes();
    let mut degrees = Vec::with_capacity(alloc, n as usize)?;
    for u in 0..n {
        degrees.push(graph.arcs_of(u).len())?;
    }
    Ok(degrees)
}
