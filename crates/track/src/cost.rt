//! What the moves of an input cost, as text.
ghost use Rattle.std.specs.Prelude.{◌≡◌, IfOk};
ghost use Rattle.net_graph.specs.Network.{IsGraphOf};
ghost use Rattle.net_reader.specs.Seen.{seen_input};
ghost use Rattle.net_reader.specs.Valid.{IsValid};
ghost use Rattle.region_plan.specs.Settings.{setting_of};
ghost use Rattle.scripts.specs.Scripts.{scripts_of};
ghost use Rattle.move_cost.specs.Costs.{cost_lines};
ghost use Rattle.move_cost.specs.CostText.{costs_text_of};
ghost use Rattle.move_cost.specs.Plans.{GoTogether};
ghost use Rattle.track.specs.Results.{IsCostText};

use distances::Distances;
use move_cost::{costs, costs_text, network_lines_are_within_rate};
use net_graph::Graph;
use net_reader::Input;
use plan_laws::plan_of_same_walks;
use region_plan::{Plan, plan_means};
use scripts::scripts_are_valid;
use std::alloc::{AllocError, Global};

// What the moves of each subscriber cost over a plan, as text.
fn cost_text_over(
    alloc: Global,
    input: &Input,
    plan: &Plan,
    distances: &Distances,
) -> Result<Vec<u8>, AllocError>
    requires together { GoTogether (seen_input input.now) plan.now distances.now }
    ensures { IfOk result (λ text. text.items ≡ costs_text_of (cost_lines
        (setting_of plan.now input.now.homes.items) (scripts_of (seen_input input.now)))) }
{
    let lines = costs(alloc, input, plan, distances)?;
    costs_text(alloc, &lines)
}

// What the moves of each subscriber cost, over the plan of the input's network.
pub(crate) fn cost_text(alloc: Global, input: &Input, graph: &Graph) -> Result<Vec<u8>, AllocError>
    requires valid { IsValid (seen_input input.now) }
    requires graph { IsGraphOf input.now.nodes input.now.edges.items graph.now }
    ensures { IfOk result (λ text. IsCostText (seen_input input.now) text.items) }
{
    network_lines_are_within_rate();
    scripts_are_valid();
    plan_means();
    plan_of_same_walks();
    let distances = Distances::new(alloc, graph)?;
    let plan = Plan::build(alloc, graph, &distances, input.k)?;
    cost_text_over(alloc, input, &plan, &distances)
}
