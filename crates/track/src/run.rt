//! What answers an input to `run`: its calls are made by threads.
ghost use Rattle.std.specs.Prelude.{List, ℕ, IfOk, Ok};
ghost use Rattle.directory.specs.Outcomes.{result_of};
ghost use Rattle.net_graph.specs.Network.{IsGraphOf};
ghost use Rattle.net_reader.specs.Reading.{StandsFor};
ghost use Rattle.net_reader.specs.Seen.{seen_input};
ghost use Rattle.net_reader.specs.Valid.{IsValid};
ghost use Rattle.report_text.specs.ReportText.{report_of};
ghost use Rattle.word_line.specs.declared.command.Command.TheVariants.{Run};
ghost use Rattle.track.specs.Bodies.{text_of};
ghost use Rattle.track.specs.Results.{IsInputText, IsRightAnswer, IsRunReport};

use crate::answer::{Answer, Body, answer_refused};
use crate::status::Status;
use busy_finds::plan_outcomes_are_priced;
use directory::{Outcome, each_visit_is_next};
use distances::Distances;
use net_graph::Graph;
use net_reader::{Input, Reader, inputs_are_valid};
use own_reports::own_reports_are_sound;
use plan_laws::plan_of_same_walks;
use region_plan::{Plan, plan_means};
use runner::{Gate, run_workers};
use scripts::scripts_are_valid;
use std::alloc::{AllocError, Global};
use std::thread::Threads;
use stretch_laws::{plan_outcomes_are_near, plans_track};
use trail_laws::{lines_are_in_turn, outcomes_are_right};

// What becomes of an input's calls, made by a thread for each actor, over its plan.
fn run<R: Threads + Sync, G: Gate>(
    rt: &R,
    alloc: Global,
    input: &Input,
    graph: &Graph,
    gate: &G,
    tries: u64,
) -> Result<Outcome, AllocError>
    requires valid { IsValid (seen_input input.now) }
    requires graph { IsGraphOf input.now.nodes input.now.edges.items graph.now }
    ensures { IfOk result (λ outcome. IsRunReport (seen_input input.now)
        (report_of (result_of outcome))) }
{
    each_visit_is_next();
    lines_are_in_turn();
    outcomes_are_right();
    plans_track();
    plan_outcomes_are_near();
    plan_outcomes_are_priced();
    own_reports_are_sound();
    scripts_are_valid();
    plan_means();
    plan_of_same_walks();
    let distances = Distances::new(alloc, graph)?;
    let plan = Plan::build(alloc, graph, &distances, input.k)?;
    run_workers(rt, alloc, input, &plan, &distances, gate, tries)
}

// What answers a valid input.
fn answer_run<R: Threads + Sync, G: Gate>(
    rt: &R,
    alloc: Global,
    input: &Input,
    graph: &Graph,
    gate: &G,
    tries: u64,
) -> Result<Answer, AllocError>
    requires valid { IsValid (seen_input input.now) }
    requires graph { IsGraphOf input.now.nodes input.now.edges.items graph.now }
    ensures { IfOk result (λ answer. IsRightAnswer Run (Ok (seen_input input.now))
        answer.status (text_of answer.body)) }
{
    Ok(Answer {
        status: Status::Done,
        body: Body::Report(run(rt, alloc, input, graph, gate, tries)?),
    })
}

// What answers the bytes that the reader stands for.
pub(crate) fn answer_by_threads<R: Threads + Sync, G: Gate>(
    rt: &R,
    alloc: Global,
    reader: Reader,
    gate: &G,
    tries: u64,
) -> Result<Answer, AllocError>
    ensures text { IfOk result (λ answer. (bytes : List ℕ) → StandsFor reader bytes
        → IsInputText Run bytes answer.status (text_of answer.body)) }
{
    inputs_are_valid();
    match reader.end_with_graph(alloc) {
        Ok(found) => {
            let (input, graph) = found;
            answer_run(rt, alloc, &input, &graph, gate, tries)
        }
        Err(refusal) => answer_refused(refusal),
    }
}
