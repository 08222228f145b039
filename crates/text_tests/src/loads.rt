//! Loads, by the words that tell them.
ghost use Rattle.std.specs.Prelude.{IfOk};
ghost use Rattle.make_load.specs.Load.{IsLoad};

use make_load::{load_text, words_are_loads};
use std::alloc::Global;
use std::process::Abort;
use word_line::{Command, Load, WordsFault, read_words};

/// The words of a line, each behind a blank but the first; the empty line has none.
pub fn words_of(rt: &impl Abort, alloc: Global, line: &str) -> Vec<String> {
    let mut words = Vec::new(alloc);
    for word in line.split_terminator(' ') {
        let word = String::from_str(alloc, word).expect(rt, "memory");
        words.push(word).expect(rt, "memory");
    }
    words
}

fn load_in(words: &[String]) -> Result<Load, WordsFault>
    ensures { IfOk result (λ load. IsLoad load) }
{
    words_are_loads();
    match read_words(words) {
        Ok(Command::Make(load)) => Ok(load),
        _ => Err(WordsFault::Refused),
    }
}

/// The load that these words make.
pub fn load_of(rt: &impl Abort, alloc: Global, line: &str) -> Load
    ensures { IsLoad result }
{
    load_in(&words_of(rt, alloc, line)).expect(rt, "a load")
}

/// The text of the load that these words make.
pub fn load_text_of(rt: &impl Abort, alloc: Global, line: &str) -> Vec<u8> {
    let load = load_of(rt, alloc, line);
    load_text(alloc, load).expect(rt, "memory")
}
