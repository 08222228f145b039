//! The top calls.
ghost use Rattle.std.specs.Prelude.{◌≡◌, IfErr, IfSome, IsSome, OnOk, false, true};
ghost use Rattle.word_line.specs.declared.command.Command.TheVariants.{Check, FromJson, Run};
ghost use Rattle.word_line.specs.Forms.{bytes_of, command_of};
ghost use Rattle.track.specs.Bodies.{IsAnswered, IsEnded};
ghost use Rattle.track.specs.Results.{HasLoad, is_made_alike, is_served, text_alone};
ghost use Rattle.track.specs.Ends.{EndsAs, EndsIf, Tells, streams};
ghost use Rattle.track.specs.Sounds.{WritesSoundly};
ghost use Rattle.track.specs.Transfer.{IsEndOf, write_status};
ghost use Rattle.track.specs.declared.status.Status.TheVariants.{BadWords, Done};

use crate::answer::{Answer, make_answer};
use crate::json::answer_json;
use crate::judging::judge_parts;
use crate::run::answer_by_threads;
use crate::status::Status;
use crate::stop::WriteStop;
use crate::transfer::{read_all, read_text};
use crate::trial::{write_made, write_trial};
use crate::writing::write_body;
use make_load::words_are_loads;
use net_reader::{MAX_BYTES, inputs_are_valid};
use outside::{Sink, Source};
use own_reports::own_reports_are_sound_texts;
use report_check::cut_text;
use runner::Gate;
use std::alloc::{AllocError, Global};
use std::thread::Threads;
use word_line::{Command, read_words};

// How many bytes a text may have that has a report.
const MAX_TEXT_BYTES: usize = 67_108_864;

// Writes an answer, and tells the status to end with.
fn write_whole<K: Sink>(alloc: Global, answer: &Answer, sink: &mut K) -> Status
    ensures { IsAnswered answer.now result
        (K.written sink.old) (K.written sink.new) (K.faults sink.old) (K.faults sink.new) }
{
    match write_body(alloc, &answer.body, sink) {
        Ok(()) => answer.status,
        Err(stop) => Status::from(stop),
    }
}

// Writes an answer, if there was memory for one, and tells the status to end with.
fn write_answer<K: Sink>(alloc: Global, answer: Result<Answer, AllocError>, sink: &mut K) -> Status
    ensures { IsEnded answer result
        (K.written sink.old) (K.written sink.new) (K.faults sink.old) (K.faults sink.new) }
{
    match answer {
        Ok(answer) => write_whole(alloc, &answer, sink),
        Err(AllocError) => Status::OutOfMemory,
    }
}

// Reads the input, and writes what answers it.
fn perform<S: Source, K: Sink>(
    alloc: Global,
    command: Command,
    source: &mut S,
    sink: &mut K,
) -> Status
    requires { is_made_alike command ≡ true }
    ensures ends { EndsAs command result
        (streams
        (S.left source.old) (S.faults source.old) (K.written sink.old) (K.faults sink.old))
        (streams
        (S.left source.new) (S.faults source.new) (K.written sink.new) (K.faults sink.new)) }
    ensures rest { IsEndOf (S.left source.old) (S.left source.new) }
{
    match read_all(alloc, source) {
        Ok(reader) => write_answer(alloc, make_answer(alloc, command, reader), sink),
        Err(stop) => Status::from(stop),
    }
}

// Reads an input and a report, and writes the verdict on it.
fn perform_check<S: Source, K: Sink>(alloc: Global, source: &mut S, sink: &mut K) -> Status
    ensures ends { EndsAs Check result
        (streams
        (S.left source.old) (S.faults source.old) (K.written sink.old) (K.faults sink.old))
        (streams
        (S.left source.new) (S.faults source.new) (K.written sink.new) (K.faults sink.new)) }
    ensures rest { IsEndOf (S.left source.old) (S.left source.new) }
{
    let text = match read_text(alloc, source, MAX_TEXT_BYTES) {
        Ok(text) => text,
        Err(stop) => return Status::from(stop),
    };
    let parts = cut_text(&text);
    if parts.input.len() > MAX_BYTES {
        return Status::TooLong;
    }
    write_answer(alloc, judge_parts(alloc, parts.input, parts.report), sink)
}

// Reads JSON, and writes the text of the input that it tells.
fn perform_json<S: Source, K: Sink>(alloc: Global, source: &mut S, sink: &mut K) -> Status
    ensures ends { EndsAs FromJson result
        (streams
        (S.left source.old) (S.faults source.old) (K.written sink.old) (K.faults sink.old))
        (streams
        (S.left source.new) (S.faults source.new) (K.written sink.new) (K.faults sink.new)) }
    ensures rest { IsEndOf (S.left source.old) (S.left source.new) }
{
    match read_text(alloc, source, MAX_BYTES) {
        Ok(text) => write_answer(alloc, answer_json(alloc, &text), sink),
        Err(stop) => Status::from(stop),
    }
}

// Reads the input, and writes the report of what threads make of its calls.
fn perform_by_threads<R: Threads + Sync, S: Source, K: Sink, G: Gate>(
    rt: &R,
    alloc: Global,
    source: &mut S,
    sink: &mut K,
    gate: &G,
    tries: u64,
) -> Status
    ensures ends { EndsAs Run result
        (streams
        (S.left source.old) (S.faults source.old) (K.written sink.old) (K.faults sink.old))
        (streams
        (S.left source.new) (S.faults source.new) (K.written sink.new) (K.faults sink.new)) }
    ensures rest { IsEndOf (S.left source.old) (S.left source.new) }
{
    match read_all(alloc, source) {
        Ok(reader) => {
            let answer = answer_by_threads(rt, alloc, reader, gate, tries);
            write_answer(alloc, answer, sink)
        }
        Err(stop) => Status::from(stop),
    }
}

// How a call ends that has written its text, or stopped.
fn status_of(written: Result<(), WriteStop>) -> Status
    ensures done { OnOk written (result ≡ Done) }
    ensures stopped { IfErr written (λ stop. result ≡ write_status stop) }
{
    match written {
        Ok(()) => Status::Done,
        Err(stop) => Status::from(stop),
    }
}

// Does what a command says, without threads: `run` is none of the commands that it serves.
fn serve<S: Source, K: Sink>(
    alloc: Global,
    command: Command,
    source: &mut S,
    sink: &mut K,
) -> Status
    requires { HasLoad command }
    ensures ends { EndsIf (is_served false command) command result
        (streams
        (S.left source.old) (S.faults source.old) (K.written sink.old) (K.faults sink.old))
        (streams
        (S.left source.new) (S.faults source.new) (K.written sink.new) (K.faults sink.new)) }
    ensures untouched { result ≡ BadWords → (source.new ≡ source.old) × (sink.new ≡ sink.old) }
    ensures unread { IsSome (text_alone command) → source.new ≡ source.old }
    ensures rest { IsEndOf (S.left source.old) (S.left source.new) }
{
    match command {
        Command::Run => Status::BadWords,
        Command::Check => perform_check(alloc, source, sink),
        Command::FromJson => perform_json(alloc, source, sink),
        Command::Make(load) => status_of(write_made(alloc, load, sink)),
        Command::Trial(load) => status_of(write_trial(alloc, load, sink)),
        Command::Cover
        | Command::Replay
        | Command::Census
        | Command::Costs
        | Command::Stretch
        | Command::ToJson
        | Command::ReplayJson
        | Command::MeanCover
        | Command::MeanReplay
        | Command::MeanStretch => perform(alloc, command, source, sink),
    }
}

// Does what a command says; threads serve `run`.
fn serve_by_threads<R: Threads + Sync, S: Source, K: Sink, G: Gate>(
    rt: &R,
    alloc: Global,
    command: Command,
    source: &mut S,
    sink: &mut K,
    gate: &G,
    tries: u64,
) -> Status
    requires { HasLoad command }
    ensures ends { EndsIf (is_served true command) command result
        (streams
        (S.left source.old) (S.faults source.old) (K.written sink.old) (K.faults sink.old))
        (streams
        (S.left source.new) (S.faults source.new) (K.written sink.new) (K.faults sink.new)) }
    ensures untouched { result ≡ BadWords → (source.new ≡ source.old) × (sink.new ≡ sink.old) }
    ensures unread { IsSome (text_alone command) → source.new ≡ source.old }
    ensures rest { IsEndOf (S.left source.old) (S.left source.new) }
{
    match command {
        Command::Run => perform_by_threads(rt, alloc, source, sink, gate, tries),
        Command::Cover
        | Command::Replay
        | Command::Census
        | Command::Costs
        | Command::Stretch
        | Command::Check
        | Command::ToJson
        | Command::FromJson
        | Command::ReplayJson
        | Command::MeanCover
        | Command::MeanReplay
        | Command::MeanStretch
        | Command::Make(_)
        | Command::Trial(_) => serve(alloc, command, source, sink),
    }
}

/// Does what the words say, the program's name left out, and answers the status to end with.
///
/// docs/FORMATS.md tells the forms of the words, the input, the texts and the statuses. `cover`
/// writes the plan of the input's network, `replay` the report of what becomes of its calls under
/// its order, `census` tells who is where at their end, `costs` what its moves cost, and `stretch`
/// how many times its distance a find may weigh; `meancover`, `meanreplay` and `meanstretch` write
/// the plan, the report and the stretches over mean covers, `tojson` and `replayjson` the input and
/// its report as JSON, and `fromjson` the input that JSON tells. `check`
/// reads an input and a report of it, and writes the verdict. `make` and `trial` read nothing: the
/// one writes a made input, the other the summary of its replay. `run` needs threads
/// ([`command_with_threads`]), and ends here as words that are no form do. Nothing is written
/// before the source answered its end, and the first fault of the source or the sink ends the work.
/// Status 0 comes with the whole text, and 1 with the line that refuses the input; 2 are words that
/// read and write nothing; 3 is want of memory; 4 a fault of the source; 5 a fault of the sink,
/// where what was written begins the text; 6 an input, or a text with a report, that is too long; 8
/// comes with the line that tells a report's first flaw. What `replay` writes with status 0 is a
/// sound report of the input, in the report's own words (docs/BELIEF.md).
pub fn command<S: Source, K: Sink>(
    alloc: Global,
    words: &[String],
    source: &mut S,
    sink: &mut K,
) -> u8
    ensures told { Tells false (command_of (bytes_of words.now)) result
        (streams
        (S.left source.old) (S.faults source.old) (K.written sink.old) (K.faults sink.old))
        (streams
        (S.left source.new) (S.faults source.new) (K.written sink.new) (K.faults sink.new)) }
    ensures sound { WritesSoundly (command_of (bytes_of words.now)) result
        (S.left source.old) (K.written sink.old) (K.written sink.new) }
    ensures untouched { result ≡ 2 → (source.new ≡ source.old) × (sink.new ≡ sink.old) }
    ensures unread { IfSome (command_of (bytes_of words.now))
        (λ command. IsSome (text_alone command)) → source.new ≡ source.old }
    ensures rest { IsEndOf (S.left source.old) (S.left source.new) }
{
    inputs_are_valid();
    own_reports_are_sound_texts();
    words_are_loads();
    match read_words(words) {
        Ok(command) => u8::from(serve(alloc, command, source, sink)),
        Err(_) => u8::from(Status::BadWords),
    }
}

/// Does what the words say, as [`command`] does, and serves `run` too: it writes the report of what
/// becomes of the input's calls when a thread for each actor makes them, under the order of their
/// tickets, which the report prints whole; so that [`command`] on the same input with that order
/// and `replay` writes the same. The gate is asked before each visit, and each thread gives up
/// after so many turns that were lost or not allowed; the visits that are left are then made actor
/// by actor. It neither waits nor asks who comes first.
pub fn command_with_threads<R: Threads + Sync, S: Source, K: Sink, G: Gate>(
    rt: &R,
    alloc: Global,
    words: &[String],
    source: &mut S,
    sink: &mut K,
    gate: &G,
    tries: u64,
) -> u8
    ensures told { Tells true (command_of (bytes_of words.now)) result
        (streams
        (S.left source.old) (S.faults source.old) (K.written sink.old) (K.faults sink.old))
        (streams
        (S.left source.new) (S.faults source.new) (K.written sink.new) (K.faults sink.new)) }
    ensures sound { WritesSoundly (command_of (bytes_of words.now)) result
        (S.left source.old) (K.written sink.old) (K.written sink.new) }
    ensures untouched { result ≡ 2 → (source.new ≡ source.old) × (sink.new ≡ sink.old) }
    ensures unread { IfSome (command_of (bytes_of words.now))
        (λ command. IsSome (text_alone command)) → source.new ≡ source.old }
    ensures rest { IsEndOf (S.left source.old) (S.left source.new) }
{
    inputs_are_valid();
    own_reports_are_sound_texts();
    words_are_loads();
    match read_words(words) {
        Ok(command) => {
            let status = serve_by_threads(rt, alloc, command, source, sink, gate, tries);
            u8::from(status)
        }
        Err(_) => u8::from(Status::BadWords),
    }
}
