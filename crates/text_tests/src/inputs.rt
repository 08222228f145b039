//! What is told of the input of a text over its plan. One function owns the input, one the plan.
ghost use Rattle.std.specs.Prelude.{◌≡◌};
ghost use Rattle.move_cost.specs.Plans.{GoTogether};
ghost use Rattle.net_reader.specs.Seen.{seen_input};
ghost use Rattle.net_reader.specs.Valid.{IsValid};

use crate::checker_tests::verdict_by;
use crate::cost_tests::costs_by;
use crate::sameness::is_like;
use distances::Distances;
use net_reader::Input;
use region_plan::Plan;
use std::alloc::Global;
use std::process::Abort;
use std::test::Fail;
use test_networks::{input_of, plan_of};

/// What is asked of an input.
#[derive(Clone, Copy)]
pub enum Asked<'a> {
    /// What its moves cost.
    Costs,
    /// The verdict on this report.
    Verdict(&'a str),
}

fn told_by(
    rt: &impl Abort,
    alloc: Global,
    input: &Input,
    plan: &Plan,
    distances: &Distances,
    asked: Asked<'_>,
) -> Vec<u8>
    requires together { GoTogether (seen_input input.now) plan.now distances.now }
    requires valid { IsValid (seen_input input.now) }
    requires distances { distances.now ≡ plan.now.distances }
{
    match asked {
        Asked::Costs => costs_by(rt, alloc, input, plan, distances),
        Asked::Verdict(report) => verdict_by(rt, alloc, input, plan, distances, report),
    }
}

fn told_over(
    rt: &impl Abort,
    alloc: Global,
    input: &Input,
    asked: Asked<'_>,
) -> Result<Vec<u8>, Fail>
    requires { IsValid (seen_input input.now) }
{
    let (plan, distances) = plan_of(alloc, input)?;
    Ok(told_by(rt, alloc, input, &plan, &distances, asked))
}

/// What is asked of a text's input is to be told so.
pub fn tells(
    rt: &impl Abort,
    alloc: Global,
    place: usize,
    text: &str,
    asked: Asked<'_>,
    wanted: &str,
) -> Result<(), Fail> {
    let input = input_of(alloc, text.as_bytes())?;
    let told = told_over(rt, alloc, &input, asked)?;
    is_like(rt, place, &told, wanted);
    Ok(())
}
