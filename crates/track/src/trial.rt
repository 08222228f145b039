//! What the commands write that read nothing: made inputs, and the summaries of their replays.
ghost use Rattle.std.specs.Prelude.{◌≡◌, IfErr, IfOk, OnOk};
ghost use Rattle.outside.specs.Bytes.{append_known};
ghost use Rattle.make_load.specs.Load.{IsLoad, load_contents, load_text_of};
ghost use Rattle.net_graph.specs.Network.{IsGraphOf};
ghost use Rattle.net_reader.specs.Seen.{seen_input};
ghost use Rattle.net_reader.specs.Valid.{IsValid};
ghost use Rattle.report_text.specs.SummaryText.{summary_of};
ghost use Rattle.track.specs.Results.{outcome_for};
ghost use Rattle.track.specs.Transfer.{StopsWriting};

use crate::answer::replay;
use crate::stop::WriteStop;
use crate::transfer::write_all;
use crate::writing::write_pieces;
use input_text::InputLines;
use make_load::{Workload, loads_are_valid, make_input};
use net_graph::{Graph, GraphFault};
use net_reader::Input;
use outside::Sink;
use region_plan::Covering;
use report_text::summary;
use std::alloc::{AllocError, Global};
use word_line::Load;

// The summary of what becomes of an input's calls under its order, over its plan.
fn replay_summary(alloc: Global, input: &Input, graph: &Graph) -> Result<Vec<u8>, AllocError>
    requires valid { IsValid (seen_input input.now) }
    requires graph { IsGraphOf input.now.nodes input.now.edges.items graph.now }
    ensures { IfOk result (λ text.
        text.items ≡ summary_of (outcome_for (seen_input input.now))) }
{
    let outcome = replay(alloc, Covering::Phased(input.k), input, graph)?;
    summary(alloc, &outcome)
}

// The summary of what becomes of a made input's calls under its order, over its plan.
fn trial(alloc: Global, load: Load) -> Result<Vec<u8>, AllocError>
    requires { IsLoad load }
    ensures { IfOk result (λ text. text.items ≡ summary_of (outcome_for (load_contents load))) }
{
    loads_are_valid();
    let input = make_input(alloc, load)?;
    match Graph::new(alloc, input.nodes, &input.edges) {
        Ok(graph) => replay_summary(alloc, &input, &graph),
        Err(GraphFault::Apart { .. }) => unreachable!(),
        Err(GraphFault::OutOfMemory) => Err(AllocError),
    }
}

// The summary of a trial into the sink. All memory is taken before the first byte is written.
pub(crate) fn write_trial<K: Sink>(alloc: Global, load: Load, sink: &mut K) -> Result<(), WriteStop>
    requires { IsLoad load }
    ensures all { OnOk result (K.written sink.new ≡ append_known (K.written sink.old)
        (summary_of (outcome_for (load_contents load)))) }
    ensures no_fault { OnOk result (K.faults sink.new ≡ K.faults sink.old) }
    ensures stops { IfErr result (λ stop. StopsWriting stop
        (summary_of (outcome_for (load_contents load)))
        (K.written sink.old) (K.written sink.new) (K.faults sink.old) (K.faults sink.new)) }
{
    let text = trial(alloc, load)?;
    write_all(sink, &text)
}

// A made input into the sink. All memory is taken before the first byte is written.
pub(crate) fn write_made<K: Sink>(alloc: Global, load: Load, sink: &mut K) -> Result<(), WriteStop>
    requires { IsLoad load }
    ensures all { OnOk result (K.written sink.new ≡ append_known (K.written sink.old)
        (load_text_of load)) }
    ensures no_fault { OnOk result (K.faults sink.new ≡ K.faults sink.old) }
    ensures stops { IfErr result (λ stop. StopsWriting stop (load_text_of load)
        (K.written sink.old) (K.written sink.new) (K.faults sink.old) (K.faults sink.new)) }
{
    let workload = Workload::new(alloc, load)?;
    let mut lines = InputLines::new(alloc, workload.listing())?;
    write_pieces(alloc, &mut lines, sink)
}
