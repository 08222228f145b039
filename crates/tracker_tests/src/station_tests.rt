//! Visits, turns, notes and the end of a tracker over the line 0 - 1 - 2 - 3 of unit weights, with
//! the subscriber at node 3. Passes 0, 1 and 2 are those of the subscriber and of two callers.

use crate::plays::{End, Over, Script, Subject, perform};
use station::{Note, Pass, Tracker};
use std::alloc::Global;
use std::process::Abort;
use std::sync::Wait;
use std::test::Fail;
use std::thread::Threads;

// Plays rows where each pass has room for so many visits, and compares the actors of the tickets.
fn play_on_line<R: Threads + Wait + Sync + Abort>(
    rt: &R,
    alloc: Global,
    visits: u32,
    rows: &str,
    wanted: &str,
) -> Result<(), Fail> {
    let script = Script {
        is_switching: false,
        visits,
        rows,
        end: End::Closed,
    };
    perform(rt, alloc, Over::Line, Subject::Script(script), wanted)
}

// The second word is that of a subscriber's presence where it starts.
#[test]
fn held_by_its_own_node_alone(rt: HostRuntime) -> Result<(), Fail> {
    let rows = "held 3 caller look 3>Some(Err(Held { node: 3, by: 2 }))|\
        held 3 caller census 3>Some(Err(Held { node: 3, by: 2 }))|\
        held 3 caller first-look 3>Some(Err(Held { node: 3, by: 2 }))|\
        held 3 caller look 2>Some(Ok(Looked { ticket: 0, word: 0 }))|\
        caller look 3>Some(Ok(Looked { ticket: 1, word: 281474976710656 }))|\
        held 3 caller first-look 2>Some(Ok(2))|\
        caller first-look 3>Some(Ok(3))|\
        state>([0, 4, 0], [9, 5, 9], false)|";
    let wanted = "(Missing { actor: 1 }, [1, 1, 1, 1])";
    play_on_line(&rt, rt.alloc(), 9, rows, wanted)
}

// The word says that the subscriber is coming from node 3 with its move 1.
#[test]
fn puts_and_censuses(rt: HostRuntime) -> Result<(), Fail> {
    let rows = "own put>None|\
        own begin 2>Ok(())|\
        own put>Some(Ok(0))|\
        caller census 3>Some(Ok(CensusSeen { ticket: 1, who: 1, count: 1 }))|\
        caller look 2>Some(Ok(Looked { ticket: 2, word: 844424930197507 }))|\
        caller census 2>Some(Ok(CensusSeen { ticket: 3, who: 0, count: 0 }))|\
        state>([1, 4, 0], [8, 6, 9], false)|";
    let wanted = "(Missing { actor: 1 }, [0, 1, 1, 1])";
    play_on_line(&rt, rt.alloc(), 9, rows, wanted)
}

#[test]
fn a_note_is_heard(rt: HostRuntime) -> Result<(), Fail> {
    let rows = "caller census 3>Some(Ok(CensusSeen { ticket: 0, who: 1, count: 1 }))|\
        hear other caller>true|\
        state>([0, 1, 1], [9, 8, 9], false)|\
        hear caller own>true|\
        state>([0, 1, 1], [9, 8, 9], false)|";
    let wanted = "(Missing { actor: 1 }, [1])";
    play_on_line(&rt, rt.alloc(), 9, rows, wanted)
}

// Between two puts the subscriber's pass hears a note, makes a census, a look and a find, and its
// handset goes on: by the tracker's own call in the first half of a move, by whole calls from there
// on. The second move has eight puts, a new address and a purge more than the others, as it renews
// the top level. The word of its look says that the subscriber is there with number 0.
#[test]
fn a_handset_goes_on(rt: HostRuntime) -> Result<(), Fail> {
    let rows = "own begin 2>Ok(())|\
        own put>Some(Ok(0))|\
        hear caller own>true|\
        caller census 3>Some(Ok(CensusSeen { ticket: 1, who: 1, count: 1 }))|\
        hear own caller>true|\
        state>([2, 2, 0], [39, 39, 40], false)|\
        own put>Some(Ok(2))|\
        own census 3>Some(Ok(CensusSeen { ticket: 3, who: 1, count: 1 }))|\
        own look 3>Some(Ok(Looked { ticket: 4, word: 281474976710656 }))|\
        own find-now 3 0>Ok(At { node: 3, number: 0, level: None, weight: 0 })|\
        own put>Some(Ok(6))|\
        state>([7, 2, 0], [34, 39, 40], false)|\
        caller census 2>Some(Ok(CensusSeen { ticket: 7, who: 0, count: 0 }))|\
        hear own caller>true|\
        own step>Ok(8)|\
        own census 3>Some(Ok(CensusSeen { ticket: 9, who: 0, count: 0 }))|\
        own step>Ok(10)|\
        own step>Ok(11)|\
        own step>Err(AtRest)|\
        caller census 2>Some(Ok(CensusSeen { ticket: 12, who: 1, count: 1 }))|\
        hear own caller>true|\
        own move 3>Ok(Moved { number: 2, first: 13, commit: 17, last: 20 })|\
        own census 3>Some(Ok(CensusSeen { ticket: 21, who: 1, count: 1 }))|\
        own move 2>Ok(Moved { number: 3, first: 22, commit: 25, last: 27 })|\
        state>([28, 13, 0], [15, 37, 40], false)|";
    let wanted = "(Missing { actor: 1 }, [0, 1, 0, 0, 0, 0, 0, 1, 0, 0, 0, 0, 1, \
        0, 0, 0, 0, 0, 0, 0, 0, 0, 0, 0, 0, 0, 0, 0])";
    play_on_line(&rt, rt.alloc(), 40, rows, wanted)
}

#[test]
fn closed_before_any_visit(rt: HostRuntime) -> Result<(), Fail> {
    let script = Script {
        is_switching: false,
        visits: 9,
        rows: "actors>[0, 1, 2]|state>([0, 0, 0], [9, 9, 9], false)|",
        end: End::OwnClosed,
    };
    let wanted = "(Missing { actor: 0 }, [])";
    perform(&rt, rt.alloc(), Over::Line, Subject::Script(script), wanted)
}

fn sends<T: Send>() {}

fn shares<T: Sync>() {}

#[test]
fn threads_may_have_them(_rt: HostRuntime) -> Result<(), Fail> {
    shares::<Tracker>();
    sends::<Tracker>();
    sends::<Pass>();
    sends::<Note>();
    Ok(())
}
