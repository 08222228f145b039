//! The report of a few calls, whole and line by line, and the lines that refuse inputs.
use crate::outcomes::outcome_of;
use crate::sameness::{is_like, same_numbers, same_text};
use directory::{Done, Outcome, Why};
use net_reader::{InputCause, InputFault};
use report_text::{Lines, refused_line, report};
use std::alloc::Global;
use std::process::Abort;

const MOVED: Done = Done::Moved {
    actor: 0,
    number: 1,
    from: 3,
    to: 2,
    weight: 1_000_000_000_000,
    first: 0,
    commit: 3,
    last: 5,
};

const FOUND: Done = Done::Found {
    actor: 10,
    from: 0,
    sub: 0,
    node: 1_023,
    number: 0,
    level: None,
    weight: 0,
    first: 6,
    last: 6,
};

const AGAIN: Done = Done::Again {
    actor: 10,
    from: 0,
    sub: 0,
    why: Why::Empty { node: 2 },
    weight: 5,
    first: 7,
    last: 18_446_744_073_709_551_615,
};

// A move, a find and a find that has to be made again, with so many visits of actor 10.
fn outcome(rt: &impl Abort, alloc: Global, visits: usize) -> Outcome {
    outcome_of(rt, alloc, &[MOVED, FOUND, AGAIN], 10, visits)
}

#[test]
fn report_of_three_calls(rt: HostRuntime) {
    let outcome = outcome(&rt, rt.alloc(), 3);
    let text = report(rt.alloc(), &outcome).expect(&rt, "memory");
    let wanted = b"move 0 1 3 2 weight 1000000000000 first 0 commit 3 last 5\n\
            find 10 0 0 at 1023 number 0 level - weight 0 first 6 last 6\n\
            again 10 0 0 empty 2 weight 5 first 7 last 18446744073709551615\norder 10 10 10\n\
            end 3\n";
    same_text(&rt, 0, &text, wanted);
}

// The lengths of the next lines of a report; nought, where there is none.
fn lengths(lines: &mut Lines<'_>) -> [u64; 9] {
    let mut lengths = [0; 9];
    for place in 0..9 {
        if let Some(line) = lines.next_line() {
            lengths[place] = line.len() as u64;
        }
    }
    lengths
}

// The lines of a report are so long.
fn have_lengths(rt: &impl Abort, alloc: Global, outcome: &Outcome, wanted: [u64; 9]) {
    let mut lines = Lines::new(alloc, outcome).expect(rt, "memory");
    same_numbers(rt, 0, &lengths(&mut lines), &wanted);
}

// 130 visits take two whole lines of 64 and one of 2.
#[test]
fn lines_of_many_visits(rt: HostRuntime) {
    let wanted = [58, 61, 64, 198, 198, 12, 8, 0, 0];
    have_lengths(&rt, rt.alloc(), &outcome(&rt, rt.alloc(), 130), wanted);
}

// An input is refused at line 68 by this line.
fn refuses(rt: &impl Abort, alloc: Global, place: usize, cause: InputCause, wanted: &str) {
    let line = refused_line(alloc, InputFault { line: 68, cause }).expect(rt, "memory");
    is_like(rt, place, &line, wanted);
}

#[test]
fn lines_that_refuse(rt: HostRuntime) {
    let alloc = rt.alloc();
    refuses(&rt, alloc, 0, InputCause::Form, "refused 68 form\n");
    refuses(
        &rt,
        alloc,
        1,
        InputCause::TooLarge,
        "refused 68 too-large\n",
    );
    refuses(&rt, alloc, 2, InputCause::TooMany, "refused 68 too-many\n");
    refuses(&rt, alloc, 3, InputCause::Unknown, "refused 68 unknown\n");
    refuses(&rt, alloc, 4, InputCause::Switched, "refused 68 switched\n");
    refuses(&rt, alloc, 5, InputCause::Nowhere, "refused 68 nowhere\n");
    refuses(
        &rt,
        alloc,
        6,
        InputCause::Unfinished,
        "refused 68 unfinished\n",
    );
    refuses(
        &rt,
        alloc,
        7,
        InputCause::Apart { node: 2 },
        "refused 68 apart 2\n",
    );
}
