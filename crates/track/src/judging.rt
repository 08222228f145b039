//! What answers a text that has an input and a report.
ghost use Rattle.std.specs.Prelude.{◌≡◌, ◌≤◌, IfOk, Ok, length};
ghost use Rattle.net_graph.specs.Network.{IsGraphOf};
ghost use Rattle.net_reader.specs.Reading.{most_bytes};
ghost use Rattle.net_reader.specs.Seen.{seen_input};
ghost use Rattle.net_reader.specs.Valid.{IsValid};
ghost use Rattle.report_check.specs.Verdicts.{most_bytes as most_text_bytes};
ghost use Rattle.track.specs.Bodies.{text_of};
ghost use Rattle.track.specs.Results.{IsJudged, IsRightVerdict, verdict_for, verdict_status};

use crate::answer::{Answer, Body, answer_refused};
use crate::status::Status;
use crate::transfer::reader_of;
use distances::Distances;
use net_graph::Graph;
use net_reader::{Input, inputs_are_valid};
use plan_laws::plan_of_same_walks;
use region_plan::Plan;
use report_check::{Verdict, check, verdict_line};
use std::alloc::{AllocError, Global};

// The verdict on a report of an input, over the plan of its network.
fn verdict_for(
    alloc: Global,
    input: &Input,
    graph: &Graph,
    report: &[u8],
) -> Result<Verdict, AllocError>
    requires valid { IsValid (seen_input input.now) }
    requires graph { IsGraphOf input.now.nodes input.now.edges.items graph.now }
    requires few { length report.now ≤ most_text_bytes }
    ensures { IfOk result (λ verdict. verdict ≡ verdict_for (seen_input input.now) report.now) }
{
    plan_of_same_walks();
    let distances = Distances::new(alloc, graph)?;
    let plan = Plan::build(alloc, graph, &distances, input.k)?;
    check(alloc, input, &plan, &distances, report)
}

// The status that goes with a verdict.
fn status_of(verdict: Verdict) -> Status
    ensures { result ≡ verdict_status verdict }
{
    match verdict {
        Verdict::Sound => Status::Done,
        Verdict::Unsound { .. } => Status::Unsound,
    }
}

// What answers an input and a report of it.
fn judge(alloc: Global, input: &Input, graph: &Graph, report: &[u8]) -> Result<Answer, AllocError>
    requires valid { IsValid (seen_input input.now) }
    requires graph { IsGraphOf input.now.nodes input.now.edges.items graph.now }
    requires few { length report.now ≤ most_text_bytes }
    ensures { IfOk result (λ answer. IsRightVerdict report.now (Ok (seen_input input.now))
        answer.status (text_of answer.body)) }
{
    let verdict = verdict_for(alloc, input, graph, report)?;
    let line = verdict_line(alloc, verdict)?;
    Ok(Answer {
        status: status_of(verdict),
        body: Body::Text(line),
    })
}

// What answers an input part and a report.
pub(crate) fn judge_parts(alloc: Global, part: &[u8], report: &[u8]) -> Result<Answer, AllocError>
    requires short { length part.now ≤ most_bytes }
    requires few { length report.now ≤ most_text_bytes }
    ensures { IfOk result (λ answer.
        IsJudged part.now report.now answer.status (text_of answer.body)) }
{
    inputs_are_valid();
    let reader = reader_of(alloc, part)?;
    match reader.end_with_graph(alloc) {
        Ok(found) => {
            let (input, graph) = found;
            judge(alloc, &input, &graph, report)
        }
        Err(refusal) => answer_refused(refusal),
    }
}
