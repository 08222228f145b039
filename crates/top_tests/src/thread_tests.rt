//! Runs by threads, at the top call: those that can end in one way alone, what fails, the replay of
//! an order that was printed, and two callers that have to meet.
ghost use Rattle.std.specs.Prelude.{◌<◌, false};

use crate::faults::{each_read_fails, each_write_fails, play_faults};
use crate::rows::play_rows;
use crate::runs::{
    FOUR, Ran, Run, append, has_ended, perform, perform_by_threads, run_of, text_of,
};
use crate::sameness::{same_number, same_text};
use runner::{Gate, OpenGate, RUN_TRIES};
use std::alloc::Global;
use std::process::Abort;
use std::sync::atomic::{AtomicU64, Ordering};
use std::thread::Threads;

const MOVED: &str = "move 0 1 3 2 weight 1 first 0 commit 3 last 5\norder 0 0 0 0 0 0\nend 6\n";

// A run whose sink has more room.
fn roomy<'a>(words: &'a str, input: &'a [u8]) -> Run<'a> {
    Run {
        room: 100_000,
        ..run_of(words, input, 10)
    }
}

// A run by threads is to end so.
fn ends<R: Threads + Sync + Abort>(
    rt: &R,
    alloc: Global,
    place: usize,
    run: &Run<'_>,
    status: u32,
    text: &str,
) {
    let ran = perform_by_threads(rt, alloc, run, &OpenGate, RUN_TRIES);
    has_ended(rt, place, &ran, status, text.as_bytes());
}

// One actor alone has visits, so that there is one order.
#[test]
fn runs_of_one_actor(rt: HostRuntime) {
    let rows = "find 1 0 0\n>0 find 1 0 0 at 3 number 0 level 1 weight 3 first 0 last 3\n\
        order 1 1 1 1\nend 4\n|\
        find 1 0 0\norder 0 1 0\n>0 find 1 0 0 at 3 number 0 level 1 weight 3 first 0 last 3\n\
        order 1 1 1 1\nend 4\n|\
        move 0 2\n>0 move 0 1 3 2 weight 1 first 0 commit 3 last 5\norder 0 0 0 0 0 0\nend 6\n|\
        >0 end 0\n|";
    play_rows(&rt, rt.alloc(), "run", "10", FOUR, rows);
    let input = text_of(&rt, rt.alloc(), FOUR, "move 0 2\n");
    ends(&rt, rt.alloc(), 4, &roomy("replay", &input), 0, MOVED);
}

// Words that no run has: no call is made, which would fail.
fn is_refused<R: Threads + Sync + Abort>(rt: &R, alloc: Global, place: usize, words: &str) {
    let input = text_of(rt, alloc, FOUR, "find 1 0 0\n");
    let run = Run {
        failing_read: 0,
        failing_write: 0,
        ..roomy(words, &input)
    };
    ends(rt, alloc, place, &run, 2, "");
}

// Other words, and an input that is refused, end a run early.
#[test]
fn runs_that_are_refused(rt: HostRuntime) {
    let rows = "find 1 4 0\n>1 refused 9 unknown\n|\
        find 0 1 0\n>1 refused 9 unknown\n|\
        find 1 3>1 refused 9 form\n|\
        order 9999999999999999999>1 refused 9 form\n|\
        order 999999999999999999\n>1 refused 9 unknown\n|";
    play_rows(&rt, rt.alloc(), "run", "10", FOUR, rows);
    is_refused(&rt, rt.alloc(), 5, "run x");
    is_refused(&rt, rt.alloc(), 6, "Run");
}

// A find, one of whose reads or writes fails.
#[test]
fn runs_that_stop(rt: HostRuntime) {
    let input = text_of(&rt, rt.alloc(), FOUR, "find 1 0 0\n");
    let faults = "0 - 10>4 |6 - 10>4 |- 0 10>5 |- 2 10>5 find 1 0 0 at 3 numb|";
    play_faults(&rt, rt.alloc(), &roomy("run", &input), faults);
}

// Eight reads of 10 bytes take the input, and one more tells its end.
#[test]
fn each_call_of_a_run_fails(rt: HostRuntime) {
    let input = text_of(&rt, rt.alloc(), FOUR, "move 0 2\n");
    let run = roomy("run", &input);
    each_read_fails(&rt, rt.alloc(), &run, 9, 14, MOVED.as_bytes());
    each_write_fails(&rt, rt.alloc(), &run, 14, MOVED.as_bytes());
}

// The order that a report tells, from behind the first word of its lines to the end's line.
fn order_of<'a>(rt: &impl Abort, report: &'a Ran) -> &'a str {
    let text = str::from_utf8(&report.written).expect(rt, "a text");
    let (_, lines) = text.split_once("order").expect(rt, "an order");
    let (order, _) = lines.split_once("end").expect(rt, "an end");
    order
}

// Whatever order the threads draw, its replay writes the same.
fn is_replayed<R: Threads + Sync + Abort>(
    rt: &R,
    alloc: Global,
    place: usize,
    calls: &str,
    ran: &Ran,
) {
    let mut again = text_of(rt, alloc, FOUR, calls);
    append(rt, &mut again, "order");
    append(rt, &mut again, order_of(rt, ran));
    let replayed = perform(rt, alloc, &roomy("replay", &again));
    same_number(rt, place, u64::from(ran.status), 0);
    same_text(rt, place, &replayed.written, &ran.written);
}

fn runs_again<R: Threads + Sync + Abort>(rt: &R, alloc: Global, place: usize, calls: &str) {
    let input = text_of(rt, alloc, FOUR, calls);
    let run = roomy("run", &input);
    is_replayed(
        rt,
        alloc,
        place,
        calls,
        &perform_by_threads(rt, alloc, &run, &OpenGate, RUN_TRIES),
    );
}

#[test]
fn a_run_is_replayed(rt: HostRuntime) {
    let calls = "move 0 2\nmove 0 1\nmove 0 3\nfind 1 0 0\nfind 1 2 0\nfind 1 3 0\n";
    for place in 0..10 {
        runs_again(&rt, rt.alloc(), place, calls);
    }
}

// A run by threads of one actor writes what its replay writes.
fn runs_as_replayed<R: Threads + Sync + Abort>(rt: &R, alloc: Global, run: &Run<'_>) {
    let replay = Run {
        words: "replay",
        ..*run
    };
    let ran = perform_by_threads(rt, alloc, run, &OpenGate, RUN_TRIES);
    has_ended(rt, 0, &ran, 0, &perform(rt, alloc, &replay).written);
}

// A caller that makes all calls an input may have: its worker has room for their visits.
#[test]
fn a_script_of_all_calls(rt: HostRuntime) {
    let head = "track 2\nnodes 2\nk 1\nedge 0 1 1\nsub 0\ncallers 1\n";
    let input = text_of(&rt, rt.alloc(), head, "^find 1 0 0\n*16384");
    let run = Run {
        room: 4_194_304,
        ..run_of("run", &input, 65_536)
    };
    runs_as_replayed(&rt, rt.alloc(), &run);
}

// How often a caller reads the other's flag before it gives up.
const MOST_READS: u64 = 200_000_000;

// What one caller tells the other, and what it has seen of it.
#[derive(Drop)]
struct Caller {
    asked: AtomicU64,
    seen: AtomicU64,
    visits: AtomicU64,
    went_on: AtomicU64,
}

impl Caller {
    fn new() -> Caller {
        Caller {
            asked: AtomicU64::new(0),
            seen: AtomicU64::new(0),
            visits: AtomicU64::new(0),
            went_on: AtomicU64::new(0),
        }
    }

    // Whether it is seen to ask before the reads are used up.
    fn asks(&self) -> bool {
        for _ in 0..MOST_READS {
            if self.asked.load(Ordering::SeqCst) > 0 {
                return true;
            }
        }
        false
    }

    // Its first question: it asks, and looks for the other.
    fn first(&self, other: &Caller) -> bool {
        self.asked.store(1, Ordering::SeqCst);
        if other.asks() {
            self.seen.store(1, Ordering::SeqCst);
        }
        true
    }

    // Its second question: it goes on once the other has made a visit.
    fn second(&self, other: &Caller) -> bool {
        let goes = other.visits.load(Ordering::SeqCst) > 0;
        if goes {
            self.went_on.store(1, Ordering::SeqCst);
        }
        goes
    }
}

// Lets two callers, actors 1 and 2, make their first visits only where each has seen the other ask,
// and their second ones once both have made one.
#[derive(Drop)]
struct Meeting {
    one: Caller,
    two: Caller,
}

impl Gate for Meeting {
    ghost is_open = { λ _. false };

    ghost is_shut = { λ _. false };

    fn may_go(&self, actor: u32, done: u64) -> bool {
        match (actor, done) {
            (1, 0) => self.one.first(&self.two),
            (2, 0) => self.two.first(&self.one),
            (1, 1) => self.one.second(&self.two),
            (2, 1) => self.two.second(&self.one),
            _ => true,
        }
    }

    fn made(&self, actor: u32, done: u64) {
        match actor {
            1 => self.one.visits.store(done, Ordering::SeqCst),
            2 => self.two.visits.store(done, Ordering::SeqCst),
            _ => {}
        }
    }
}

const TRIES: u64 = 50_000_000;

// A caller saw the other ask, and went on.
fn has_met(rt: &impl Abort, place: usize, caller: &Caller) {
    same_number(rt, place, caller.seen.load(Ordering::SeqCst), 1);
    same_number(rt, place, caller.went_on.load(Ordering::SeqCst), 1);
}

// What two callers of a run by threads have seen of one another, and that the first two tickets are
// theirs.
fn workers_meet<R: Threads + Sync + Abort>(rt: &R, alloc: Global, input: &[u8], gate: &Meeting) {
    let ran = perform_by_threads(rt, alloc, &roomy("run", input), gate, TRIES);
    same_number(rt, 0, u64::from(ran.status), 0);
    has_met(rt, 1, &gate.one);
    has_met(rt, 2, &gate.two);
    let order = order_of(rt, &ran);
    assert!(rt; order.starts_with(" 1 2 ") || order.starts_with(" 2 1 "));
}

// Two callers in threads of their own: where one thread asked for both, the first question of one
// would look for the other's flag in vain; where nobody asks, nothing is seen.
#[test]
fn two_workers_meet(rt: HostRuntime) {
    let head = "track 1\nnodes 4\nk 2\nedge 0 1 1\nedge 1 2 1\nedge 2 3 1\nsub 3\ncallers 2\n";
    let input = text_of(&rt, rt.alloc(), head, "find 1 0 0\nfind 2 0 0\n");
    let gate = Meeting {
        one: Caller::new(),
        two: Caller::new(),
    };
    workers_meet(&rt, rt.alloc(), &input, &gate);
}
