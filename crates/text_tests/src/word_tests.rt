//! Words that are read, on both sides of each limit.
use crate::loads::words_of;
use crate::playing::{Table, play};
use crate::sameness::same_shown;
use std::alloc::Global;
use std::process::Abort;
use std::test::Fail;
use word_line::read_words;

/// The words of a line are to be read so.
pub fn reads(rt: &impl Abort, alloc: Global, place: usize, line: &str, wanted: &str) {
    let words = words_of(rt, alloc, line);
    same_shown(rt, alloc, place, &read_words(&words), wanted);
}

#[test]
fn lines_of_words(rt: HostRuntime) -> Result<(), Fail> {
    let rows = "cover>Ok(Cover)|\
        replay>Ok(Replay)|\
        census>Ok(Census)|\
        run>Ok(Run)|\
        >Err(Refused)|\
        run 1>Err(Refused)|\
        make 999999999999999999 1024 8 64 64 016384>Ok(Make(Load { \
        start: 999999999999999999, nodes: 1024, k: 8, subs: 64, callers: 64, calls: 16384 }))|\
        trial 0 1 1 1 0 0>Ok(Trial(Load { \
        start: 0, nodes: 1, k: 1, subs: 1, callers: 0, calls: 0 }))|\
        make 1 256 1 1 1 1>Ok(Make(Load { \
        start: 1, nodes: 256, k: 1, subs: 1, callers: 1, calls: 1 }))|\
        make 1 1 1 1 1 1>Ok(Make(Load { \
        start: 1, nodes: 1, k: 1, subs: 1, callers: 1, calls: 1 }))|\
        make 1 1025 2 1 1 1>Err(Refused)|\
        make 1 2 9 1 1 1>Err(Refused)|\
        make 1 2 2 65 1 1>Err(Refused)|\
        make 1 2 2 1 65 1>Err(Refused)|\
        make 1 2 2 1 1 16385>Err(Refused)|\
        make 1 0 1 1 1 1>Err(Refused)|\
        make 1 1 0 1 1 1>Err(Refused)|\
        make 1 1 1 0 1 1>Err(Refused)|\
        make 1 1 1 1 0 1>Err(Refused)|\
        make 1 257 1 1 1 1>Err(Refused)|\
        make 0000000000000000001 1 1 1 1 1>Err(Refused)|\
        make +1 1 1 1 1 1>Err(Refused)|\
        make  1 1 1 1 1>Err(Refused)|\
        trial 1 1 1 1 1>Err(Refused)|\
        trial 1 1 1 1 1 1 1>Err(Refused)|";
    play(&rt, rt.alloc(), Table::Words, rows)
}
