//! The line of four nodes.
ghost use Rattle.std.specs.Prelude.{◌≡◌, IfOk};
ghost use Rattle.region_plan.specs.Plan.{nodes_of};

use crate::stop::Stop;
use distances::Distances;
use net_graph::{Edge, Graph};
use region_plan::Plan;
use std::alloc::Global;

// An edge of weight 1.
fn edge(a: u32, b: u32) -> Edge
    ensures { result ≡ record { a = a; b = b; weight = 1 } }
{
    Edge { a, b, weight: 1 }
}

/// The plan of the line 0 - 1 - 2 - 3, and its distances.
pub fn line_of_four(alloc: Global) -> Result<(Plan, Distances), Stop>
    ensures copy { IfOk result (λ pair. pair.0.distances ≡ pair.1) }
    ensures nodes { IfOk result (λ pair. nodes_of pair.0 ≡ 4) }
{
    let Ok(graph) = Graph::new(alloc, 4, &[edge(0, 1), edge(1, 2), edge(2, 3)]) else {
        return Err(Stop::OutOfMemory);
    };
    let distances = Distances::new(alloc, &graph)?;
    let plan = Plan::build(alloc, &graph, &distances, 2)?;
    Ok((plan, distances))
}
