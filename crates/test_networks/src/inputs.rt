//! The inputs of texts, and their plans.
ghost use Rattle.std.specs.Prelude.{◌≡◌, IfOk};
ghost use Rattle.net_reader.specs.Seen.{seen_input};
ghost use Rattle.net_reader.specs.Valid.{IsValid};
ghost use Rattle.region_plan.specs.Plan.{nodes_of};

use distances::Distances;
use net_graph::Graph;
use net_reader::{Input, MAX_BYTES, ReadRefusal, inputs_are_valid, read_input};
use region_plan::Plan;
use std::alloc::{AllocError, Global};
use std::test::Fail;

/// The input of a text.
pub fn input_of(alloc: Global, text: &[u8]) -> Result<Input, Fail>
    ensures { IfOk result (λ input. IsValid (seen_input input)) }
{
    inputs_are_valid();
    if text.len() > MAX_BYTES {
        return Err(AllocError.into());
    }
    match read_input(alloc, text) {
        Ok(input) => Ok(input),
        Err(ReadRefusal::Fault(fault)) => Err(fault.into()),
        Err(ReadRefusal::OutOfMemory) => Err(AllocError.into()),
    }
}

/// The plan of an input, and its distances.
pub fn plan_of(alloc: Global, input: &Input) -> Result<(Plan, Distances), Fail>
    requires { IsValid (seen_input input.now) }
    ensures copy { IfOk result (λ pair. pair.0.distances ≡ pair.1) }
    ensures nodes { IfOk result (λ pair. nodes_of pair.0 ≡ input.now.nodes) }
{
    let graph = match Graph::new(alloc, input.nodes, &input.edges) {
        Ok(graph) => graph,
        Err(_) => return Err(AllocError.into()),
    };
    let distances = Distances::new(alloc, &graph)?;
    let plan = Plan::build(alloc, &graph, &distances, input.k)?;
    Ok((plan, distances))
}
