//! What answers an input.
ghost use Rattle.std.specs.Prelude.{◌≡◌, ℕ, List, [], IfOk, Ok, true};
ghost use Rattle.net_reader.specs.Reading.{StandsFor};
ghost use Rattle.net_reader.specs.Seen.{seen_input};
ghost use Rattle.net_reader.specs.Valid.{IsValid};
ghost use Rattle.net_graph.specs.Network.{IsGraphOf};
ghost use Rattle.directory.specs.Orders.{history_of};
ghost use Rattle.directory.specs.Outcomes.{result_of};
ghost use Rattle.machine.specs.Stands.{BelongTogether};
ghost use Rattle.machine.specs.Machines.{IsSame, scripts_at, setting_at, HasHistory};
ghost use Rattle.report_text.specs.ReportText.{report_of};
ghost use Rattle.trail_laws.specs.RightOutcomes.{TellInTurn};
ghost use Rattle.track.specs.Bodies.{text_of};
ghost use Rattle.region_plan.specs.Coverings.{trade_off_of};
ghost use Rattle.region_plan.specs.Regions.{covered_plan};
ghost use Rattle.report_text.specs.PlanText.{plan_text_of};
ghost use Rattle.track.specs.Results.{IsInputText, IsMeanPlanText, IsPlanText, IsReport, IsReportOver};
ghost use Rattle.track.specs.Results.{IsRefused, IsResult, IsRightAnswer, is_made_alike};
ghost use Rattle.report_check.specs.Inputs.{network_of};
ghost use Rattle.track.specs.Results.{outcome_for, outcome_over};

use crate::census::census;
use crate::cost::cost_text;
use crate::status::Status;
use crate::stretch::stretches;
use busy_finds::plan_outcomes_are_priced;
use directory::{Outcome, all_scripts_done};
use distances::Distances;
use json_form::input_json;
use machine::Machine;
use net_graph::Graph;
use net_reader::{Input, InputFault, ReadRefusal, Reader, inputs_are_valid};
use own_reports::own_reports_are_sound;
use plan_laws::covered_plan_of_same_walks;
use region_plan::{
    Covering, Plan, covered_plan_is_bounding, covered_plan_means, mean_plan_is_small,
    plan_is_sparse,
};
use scripts::scripts_are_valid;
use std::alloc::{AllocError, Global};
use stretch_laws::{plan_outcomes_are_near, plans_track};
use trail_laws::outcomes_are_right;
use word_line::Command;

// What answers an input: its text is written from it.
#[derive(Drop)]
pub(crate) enum Body {
    Plan(Plan),
    Report(Outcome),
    Json(Outcome),
    Text(Vec<u8>),
    Refusal(InputFault),
}

// What answers an input, and the status that goes with it.
#[derive(Drop)]
pub(crate) struct Answer {
    pub(crate) status: Status,
    pub(crate) body: Body,
}

// The plan of an input's network over a covering.
fn cover(
    alloc: Global,
    covering: Covering,
    input: &Input,
    graph: &Graph,
) -> Result<Plan, AllocError>
    requires valid { IsValid (seen_input input.now) }
    requires graph { IsGraphOf input.now.nodes input.now.edges.items graph.now }
    requires trade_off { trade_off_of covering ≡ input.now.k }
    ensures { IfOk result
        (λ plan. plan ≡ covered_plan covering (network_of (seen_input input.now))) }
{
    covered_plan_of_same_walks();
    let distances = Distances::new(alloc, graph)?;
    Plan::build_by(alloc, graph, &distances, covering)
}

// The plan of an input's network, which is sparse.
fn phased_cover(alloc: Global, input: &Input, graph: &Graph) -> Result<Plan, AllocError>
    requires valid { IsValid (seen_input input.now) }
    requires graph { IsGraphOf input.now.nodes input.now.edges.items graph.now }
    ensures { IfOk result (λ plan. IsPlanText (seen_input input.now) (plan_text_of plan)) }
{
    covered_plan_is_bounding();
    plan_is_sparse();
    cover(alloc, Covering::Phased(input.k), input, graph)
}

// The plan of an input's network over mean covers.
fn mean_cover(alloc: Global, input: &Input, graph: &Graph) -> Result<Plan, AllocError>
    requires valid { IsValid (seen_input input.now) }
    requires graph { IsGraphOf input.now.nodes input.now.edges.items graph.now }
    ensures { IfOk result (λ plan. IsMeanPlanText (seen_input input.now) (plan_text_of plan)) }
{
    covered_plan_means();
    covered_plan_is_bounding();
    mean_plan_is_small();
    cover(alloc, Covering::Mean(input.k), input, graph)
}

// What becomes of an input's calls under its order, over a plan.
fn replay_over(
    alloc: Global,
    input: &Input,
    plan: &Plan,
    distances: &Distances,
) -> Result<Outcome, AllocError>
    requires together { BelongTogether (seen_input input.now) plan.now distances.now }
    ensures { IfOk result (λ outcome. (result_of outcome
        ≡ outcome_over plan.now (seen_input input.now)) × TellInTurn (result_of outcome).calls) }
{
    all_scripts_done();
    let mut machine = Machine::new(alloc, input, plan, distances)?;
    play(&mut machine, &input.order);
    Ok(machine.outcome())
}

// What becomes of an input's calls under its order, over its plan of a covering.
pub(crate) fn replay(
    alloc: Global,
    covering: Covering,
    input: &Input,
    graph: &Graph,
) -> Result<Outcome, AllocError>
    requires valid { IsValid (seen_input input.now) }
    requires graph { IsGraphOf input.now.nodes input.now.edges.items graph.now }
    requires trade_off { trade_off_of covering ≡ input.now.k }
    ensures is { IfOk result (λ outcome. result_of outcome
        ≡ outcome_over (covered_plan covering (network_of (seen_input input.now)))
        (seen_input input.now)) }
    ensures report { IfOk result (λ outcome. IsReportOver
        (covered_plan covering (network_of (seen_input input.now))) (seen_input input.now)
        (report_of (result_of outcome))) }
{
    outcomes_are_right();
    plans_track();
    plan_outcomes_are_near();
    plan_outcomes_are_priced();
    scripts_are_valid();
    covered_plan_means();
    covered_plan_of_same_walks();
    let distances = Distances::new(alloc, graph)?;
    let plan = Plan::build_by(alloc, graph, &distances, covering)?;
    replay_over(alloc, input, &plan, &distances)
}

// What becomes of an input's calls under its order, over the plan of its network: its report is
// sound.
fn own_replay(alloc: Global, input: &Input, graph: &Graph) -> Result<Outcome, AllocError>
    requires valid { IsValid (seen_input input.now) }
    requires graph { IsGraphOf input.now.nodes input.now.edges.items graph.now }
    ensures is { IfOk result (λ outcome. result_of outcome ≡ outcome_for (seen_input input.now)) }
    ensures report { IfOk result (λ outcome. IsReport (seen_input input.now)
        (report_of (result_of outcome))) }
{
    own_reports_are_sound();
    replay(alloc, Covering::Phased(input.k), input, graph)
}

// Plays an order to its end.
fn play(machine: &mut Machine<'_>, order: &[u32])
    requires stands { HasHistory machine.old [] }
    ensures stands { HasHistory machine.new
        (history_of (setting_at machine.old) (scripts_at machine.old) order.now) }
    ensures same { IsSame machine.old machine.new }
{
    machine.play(order);
    machine.finish();
}

// What a command makes of a valid input, in one order of its own.
fn body_of(
    alloc: Global,
    command: Command,
    input: &Input,
    graph: &Graph,
) -> Result<Body, AllocError>
    requires served { is_made_alike command ≡ true }
    requires valid { IsValid (seen_input input.now) }
    requires graph { IsGraphOf input.now.nodes input.now.edges.items graph.now }
    ensures { IfOk result (λ body. IsResult command (seen_input input.now) (text_of body)) }
{
    match command {
        Command::Cover => Ok(Body::Plan(phased_cover(alloc, input, graph)?)),
        Command::MeanCover => Ok(Body::Plan(mean_cover(alloc, input, graph)?)),
        Command::Replay => {
            let outcome = own_replay(alloc, input, graph)?;
            Ok(Body::Report(outcome))
        }
        Command::MeanReplay => {
            let outcome = replay(alloc, Covering::Mean(input.k), input, graph)?;
            Ok(Body::Report(outcome))
        }
        Command::Census => Ok(Body::Text(census(alloc, input)?)),
        Command::Costs => Ok(Body::Text(cost_text(alloc, input, graph)?)),
        Command::Stretch => {
            let text = stretches(alloc, Covering::Phased(input.k), input, graph)?;
            Ok(Body::Text(text))
        }
        Command::MeanStretch => {
            let text = stretches(alloc, Covering::Mean(input.k), input, graph)?;
            Ok(Body::Text(text))
        }
        Command::ToJson => Ok(Body::Text(input_json(alloc, input)?)),
        Command::ReplayJson => Ok(Body::Json(own_replay(alloc, input, graph)?)),
        _ => unreachable!(),
    }
}

// What answers a valid input.
fn answer_valid(
    alloc: Global,
    command: Command,
    input: &Input,
    graph: &Graph,
) -> Result<Answer, AllocError>
    requires served { is_made_alike command ≡ true }
    requires valid { IsValid (seen_input input.now) }
    requires graph { IsGraphOf input.now.nodes input.now.edges.items graph.now }
    ensures { IfOk result (λ answer. IsRightAnswer command (Ok (seen_input input.now))
        answer.status (text_of answer.body)) }
{
    Ok(Answer {
        status: Status::Done,
        body: body_of(alloc, command, input, graph)?,
    })
}

// What answers bytes that are refused.
pub(crate) fn answer_refused(refusal: ReadRefusal) -> Result<Answer, AllocError>
    ensures { IfOk result (λ answer. IsRefused refusal answer.status (text_of answer.body)) }
{
    match refusal {
        ReadRefusal::Fault(fault) => Ok(Answer {
            status: Status::Refused,
            body: Body::Refusal(fault),
        }),
        ReadRefusal::OutOfMemory => Err(AllocError),
    }
}

// What answers the bytes that the reader stands for.
pub(crate) fn make_answer(
    alloc: Global,
    command: Command,
    reader: Reader,
) -> Result<Answer, AllocError>
    requires served { is_made_alike command ≡ true }
    ensures text { IfOk result (λ answer. (bytes : List ℕ) → StandsFor reader bytes
        → IsInputText command bytes answer.status (text_of answer.body)) }
{
    inputs_are_valid();
    match reader.end_with_graph(alloc) {
        Ok(found) => {
            let (input, graph) = found;
            answer_valid(alloc, command, &input, &graph)
        }
        Err(refusal) => answer_refused(refusal),
    }
}
