//! How many times its distance a find over a plan may weigh, as text.
ghost use Rattle.std.specs.Prelude.{◌≡◌, IfOk};
ghost use Rattle.net_graph.specs.Network.{IsGraphOf};
ghost use Rattle.net_reader.specs.Seen.{seen_input};
ghost use Rattle.net_reader.specs.Valid.{IsValid};
ghost use Rattle.region_plan.specs.Coverings.{trade_off_of};
ghost use Rattle.region_plan.specs.Regions.{covered_plan};
ghost use Rattle.report_check.specs.Inputs.{network_of};
ghost use Rattle.track.specs.Results.{IsStretchText};

use distances::Distances;
use net_graph::Graph;
use net_reader::Input;
use own_stretch::{own_stretches, plan_finds_keep_own_stretch, stretch_text};
use plan_laws::covered_plan_of_same_walks;
use region_plan::{Covering, Plan, covered_plan_means};
use std::alloc::{AllocError, Global};

// The stretches of the plan of an input's network over a covering.
pub(crate) fn stretches(
    alloc: Global,
    covering: Covering,
    input: &Input,
    graph: &Graph,
) -> Result<Vec<u8>, AllocError>
    requires valid { IsValid (seen_input input.now) }
    requires graph { IsGraphOf input.now.nodes input.now.edges.items graph.now }
    requires trade_off { trade_off_of covering ≡ input.now.k }
    ensures { IfOk result (λ text.
        IsStretchText (covered_plan covering (network_of (seen_input input.now)))
        (seen_input input.now) text.items) }
{
    plan_finds_keep_own_stretch();
    covered_plan_means();
    covered_plan_of_same_walks();
    let distances = Distances::new(alloc, graph)?;
    let plan = Plan::build_by(alloc, graph, &distances, covering)?;
    let found = own_stretches(alloc, &plan, &distances)?;
    stretch_text(alloc, &plan, found)
}
