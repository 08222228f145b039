//! The program `track`: the top call over standard input and output, and threads.
#![tactic(auto)]

use outside::{StdSink, StdSource};
use runner::{OpenGate, RUN_TRIES};
use std::alloc::Global;
use std::env::{self, Env};
use std::io::{self, ErrorKind};
use std::process::ExitCode;
use track::command_with_threads;

// The statuses of a command line that can't be read: a word is no text, or memory runs out.
const BAD_WORDS: u8 = 2;

const OUT_OF_MEMORY: u8 = 3;

// The words behind the program's name.
fn words(rt: &(impl Env + AllocGlobal)) -> io::Result<Vec<String>> {
    let mut words = Vec::new(rt.alloc());
    for word in env::args(rt)?.skip(1) {
        words.push(word)?;
    }
    Ok(words)
}

fn main(rt: HostRuntime) -> ExitCode {
    let words = match words(&rt) {
        Ok(words) => words,
        Err(error) if error.kind() == ErrorKind::InvalidData => return ExitCode::from(BAD_WORDS),
        Err(_) => return ExitCode::from(OUT_OF_MEMORY),
    };
    let mut source = StdSource::new(rt.stdin());
    let mut sink = StdSink::new(rt.stdout());
    ExitCode::from(command_with_threads(
        &rt,
        rt.alloc(),
        &words,
        &mut source,
        &mut sink,
        &OpenGate,
        RUN_TRIES,
    ))
}
