//! An answer, written piece by piece.
ghost use Rattle.std.specs.Prelude.{◌≡◌, [], IfErr, OnOk};
ghost use Rattle.outside.specs.Bytes.{append_known};
ghost use Rattle.directory.specs.Outcomes.{result_of};
ghost use Rattle.json_form.specs.Reports.{report_json_of};
ghost use Rattle.report_text.specs.PlanText.{plan_text_of};
ghost use Rattle.report_text.specs.ReportText.{refused_line_of, report_of};
ghost use Rattle.track.specs.Bodies.{text_of};
ghost use Rattle.track.specs.Transfer.{StopsWriting};

use crate::answer::Body;
use crate::outlet::Outlet;
use crate::pieces::Pieces;
use crate::stop::WriteStop;
use crate::transfer::write_all;
use directory::Outcome;
use json_form::ReportParts;
use net_reader::InputFault;
use outside::Sink;
use region_plan::Plan;
use report_text::{Lines, PlanParts, refused_line};
use std::alloc::Global;

// All pieces of a text into the sink, through the outlet.
fn pass_pieces<P: Pieces, K: Sink>(
    pieces: &mut P,
    outlet: &mut Outlet,
    sink: &mut K,
) -> Result<(), WriteStop>
    requires { outlet.old ≡ [] }
    ensures all { OnOk result (K.written sink.new
        ≡ append_known (K.written sink.old) (P.left pieces.old)) }
    ensures no_fault { OnOk result (K.faults sink.new ≡ K.faults sink.old) }
    ensures stops { IfErr result (λ stop. StopsWriting stop (P.left pieces.old)
        (K.written sink.old) (K.written sink.new) (K.faults sink.old) (K.faults sink.new)) }
{
    'pieces: while pieces.make_next() {
        outlet.pass_on(sink, pieces.made())?;
    }
    outlet.flush(sink)
}

// All pieces of a text into the sink. All memory is taken before the first byte is written.
pub(crate) fn write_pieces<P: Pieces, K: Sink>(
    alloc: Global,
    pieces: &mut P,
    sink: &mut K,
) -> Result<(), WriteStop>
    ensures all { OnOk result (K.written sink.new
        ≡ append_known (K.written sink.old) (P.left pieces.old)) }
    ensures no_fault { OnOk result (K.faults sink.new ≡ K.faults sink.old) }
    ensures stops { IfErr result (λ stop. StopsWriting stop (P.left pieces.old)
        (K.written sink.old) (K.written sink.new) (K.faults sink.old) (K.faults sink.new)) }
{
    let mut outlet = Outlet::new(alloc)?;
    pass_pieces(pieces, &mut outlet, sink)
}

// The text of a plan into the sink.
fn write_plan<K: Sink>(alloc: Global, plan: &Plan, sink: &mut K) -> Result<(), WriteStop>
    ensures all { OnOk result (K.written sink.new
        ≡ append_known (K.written sink.old) (plan_text_of plan.now)) }
    ensures no_fault { OnOk result (K.faults sink.new ≡ K.faults sink.old) }
    ensures stops { IfErr result (λ stop. StopsWriting stop (plan_text_of plan.now)
        (K.written sink.old) (K.written sink.new) (K.faults sink.old) (K.faults sink.new)) }
{
    let mut parts = PlanParts::new(alloc, plan)?;
    write_pieces(alloc, &mut parts, sink)
}

// The report of an outcome into the sink.
fn write_report<K: Sink>(alloc: Global, outcome: &Outcome, sink: &mut K) -> Result<(), WriteStop>
    ensures all { OnOk result (K.written sink.new
        ≡ append_known (K.written sink.old) (report_of (result_of outcome.now))) }
    ensures no_fault { OnOk result (K.faults sink.new ≡ K.faults sink.old) }
    ensures stops { IfErr result (λ stop. StopsWriting stop (report_of (result_of outcome.now))
        (K.written sink.old) (K.written sink.new) (K.faults sink.old) (K.faults sink.new)) }
{
    let mut lines = Lines::new(alloc, outcome)?;
    write_pieces(alloc, &mut lines, sink)
}

// The report of an outcome into the sink, as JSON.
fn write_json<K: Sink>(alloc: Global, outcome: &Outcome, sink: &mut K) -> Result<(), WriteStop>
    ensures all { OnOk result (K.written sink.new
        ≡ append_known (K.written sink.old) (report_json_of (result_of outcome.now))) }
    ensures no_fault { OnOk result (K.faults sink.new ≡ K.faults sink.old) }
    ensures stops { IfErr result (λ stop. StopsWriting stop (report_json_of (result_of outcome.now))
        (K.written sink.old) (K.written sink.new) (K.faults sink.old) (K.faults sink.new)) }
{
    let mut parts = ReportParts::new(alloc, outcome)?;
    write_pieces(alloc, &mut parts, sink)
}

// The line that refuses an input into the sink.
fn write_refusal<K: Sink>(alloc: Global, fault: InputFault, sink: &mut K) -> Result<(), WriteStop>
    ensures all { OnOk result (K.written sink.new
        ≡ append_known (K.written sink.old) (refused_line_of fault)) }
    ensures no_fault { OnOk result (K.faults sink.new ≡ K.faults sink.old) }
    ensures stops { IfErr result (λ stop. StopsWriting stop (refused_line_of fault)
        (K.written sink.old) (K.written sink.new) (K.faults sink.old) (K.faults sink.new)) }
{
    let line = refused_line(alloc, fault)?;
    write_all(sink, &line)
}

// The text of an answer into the sink. All memory is taken before the first byte is written.
pub(crate) fn write_body<K: Sink>(alloc: Global, body: &Body, sink: &mut K) -> Result<(), WriteStop>
    ensures all { OnOk result (K.written sink.new
        ≡ append_known (K.written sink.old) (text_of body.now)) }
    ensures no_fault { OnOk result (K.faults sink.new ≡ K.faults sink.old) }
    ensures stops { IfErr result (λ stop. StopsWriting stop (text_of body.now)
        (K.written sink.old) (K.written sink.new) (K.faults sink.old) (K.faults sink.new)) }
{
    match body {
        Body::Plan(plan) => write_plan(alloc, plan, sink),
        Body::Report(outcome) => write_report(alloc, outcome, sink),
        Body::Json(outcome) => write_json(alloc, outcome, sink),
        Body::Text(text) => write_all(sink, text),
        Body::Refusal(fault) => write_refusal(alloc, *fault, sink),
    }
}
