//! Whole calls over the line 0 - 1 - 2 - 3 of unit weights, with the subscriber at node 3, and over
//! the path of the most nodes. Passes 0, 1 and 2 are those of the subscriber and of two callers.

use crate::plays::{End, Over, Script, Subject, perform};
use std::alloc::Global;
use std::process::Abort;
use std::sync::Wait;
use std::test::Fail;
use std::thread::Threads;

// Plays rows where each pass has room for so many visits, and compares the actors of the tickets.
fn play_over<R: Threads + Wait + Sync + Abort>(
    rt: &R,
    alloc: Global,
    over: Over,
    is_switching: bool,
    visits: u32,
    rows: &str,
    wanted: &str,
) -> Result<(), Fail> {
    let script = Script {
        is_switching,
        visits,
        rows,
        end: End::Closed,
    };
    perform(rt, alloc, over, Subject::Script(script), wanted)
}

#[test]
fn calls_before_any_reserve(rt: HostRuntime) -> Result<(), Fail> {
    let rows = "own move 2>Err(Unreserved { need: 13 })|\
        own step>Err(AtRest)|\
        own begin 2>Ok(())|\
        own step>Err(Unreserved { need: 1 })|\
        caller find-now 2 0>Err(Unreserved { need: 12 })|\
        caller find-now 4 1>Err(NoNode)|\
        caller find-now 2 1>Err(NoSubscriber)|\
        caller find 2 0>Err(Unreserved { need: 12 })|\
        caller find 4 0>Err(NoNode)|\
        caller find 2 1>Err(NoSubscriber)|\
        state>([0, 0, 0], [0, 0, 0], false)|";
    let wanted = "(Missing { actor: 1 }, [])";
    play_over(&rt, rt.alloc(), Over::Line, false, 0, rows, wanted)
}

#[test]
fn moves_without_room(rt: HostRuntime) -> Result<(), Fail> {
    let rows = "own move 2>Err(Unreserved { need: 13 })|\
        own move 4>Err(NoNode)|\
        own move 3>Err(SamePlace)|\
        state>([0, 0, 0], [12, 12, 12], false)|";
    let wanted = "(Missing { actor: 1 }, [])";
    play_over(&rt, rt.alloc(), Over::Line, false, 12, rows, wanted)
}

#[test]
fn a_move_amid_another(rt: HostRuntime) -> Result<(), Fail> {
    let rows = "own begin 2>Ok(())|own move 0>Err(UnderWay)|own begin 0>Err(UnderWay)|";
    let wanted = "(Missing { actor: 1 }, [])";
    play_over(&rt, rt.alloc(), Over::Line, false, 20, rows, wanted)
}

#[test]
fn a_whole_move(rt: HostRuntime) -> Result<(), Fail> {
    let rows = "own move 2>Ok(Moved { number: 1, first: 0, commit: 3, last: 5 })|\
        caller find 3 0>Ok(At { node: 2, number: 1, level: Some(0), weight: 5 })|\
        state>([6, 9, 0], [14, 17, 20], false)|\
        own move 2>Err(SamePlace)|\
        own move 4>Err(NoNode)|";
    let wanted = "(Missing { actor: 1 }, [0, 0, 0, 0, 0, 0, 1, 1, 1])";
    play_over(&rt, rt.alloc(), Over::Line, false, 20, rows, wanted)
}

// The commit is the fourth put, with ticket 5.
#[test]
fn before_and_after_a_commit(rt: HostRuntime) -> Result<(), Fail> {
    let rows = "own begin 2>Ok(())|\
        own step>Ok(0)|\
        own step>Ok(1)|\
        own step>Ok(2)|\
        hear caller own>true|\
        state>([3, 3, 0], [17, 20, 20], false)|\
        caller find-now 2 0>Ok(At { node: 3, number: 0, level: None, weight: 1 })|\
        state>([3, 5, 0], [17, 18, 20], false)|\
        own step>Ok(5)|\
        caller census 3>Some(Ok(CensusSeen { ticket: 6, who: 0, count: 0 }))|\
        own step>Ok(7)|\
        own step>Ok(8)|\
        own step>Err(AtRest)|\
        caller census 2>Some(Ok(CensusSeen { ticket: 9, who: 1, count: 1 }))|\
        caller find-now 2 0>Ok(At { node: 2, number: 1, level: None, weight: 0 })|\
        state>([9, 11, 0], [14, 15, 20], false)|";
    let wanted = "(Missing { actor: 1 }, [0, 0, 0, 1, 1, 0, 1, 0, 0, 1, 1])";
    play_over(&rt, rt.alloc(), Over::Line, false, 20, rows, wanted)
}

// The find looks at node 2 and at node 0, and is held at the leader of its second entry.
#[test]
fn held_on_its_way(rt: HostRuntime) -> Result<(), Fail> {
    let rows = "held 3 caller find-now 2 0>Err(Held { node: 3, by: 2 })|\
        state>([0, 2, 0], [20, 18, 20], false)|\
        caller find-now 2 0>Ok(At { node: 3, number: 0, level: Some(0), weight: 5 })|\
        state>([0, 6, 0], [20, 14, 20], false)|";
    let wanted = "(Missing { actor: 1 }, [1, 1, 1, 1, 1, 1])";
    play_over(&rt, rt.alloc(), Over::Line, false, 20, rows, wanted)
}

// A put that is held is made by the next step.
#[test]
fn a_step_that_is_held(rt: HostRuntime) -> Result<(), Fail> {
    let rows = "held 2 own step>Err(AtRest)|\
        own begin 2>Ok(())|\
        held 2 own step>Err(Held { node: 2, by: 2 })|\
        state>([0, 0, 0], [20, 20, 20], false)|\
        held 3 own step>Ok(0)|\
        own step>Ok(1)|\
        state>([2, 0, 0], [18, 20, 20], false)|";
    let wanted = "(Missing { actor: 1 }, [0, 0])";
    play_over(&rt, rt.alloc(), Over::Line, false, 20, rows, wanted)
}

// The subscriber switches off by one put, and can't move then.
#[test]
fn a_switch_and_a_find(rt: HostRuntime) -> Result<(), Fail> {
    let rows = "state>([0, 0, 0], [20, 20, 20], false)|\
        own step>Ok(0)|\
        own step>Err(AtRest)|\
        own move 2>Err(IsOff)|\
        caller find-now 2 0>Ok(Off { node: 3, number: 0, level: Some(0), weight: 5 })|\
        state>([1, 5, 0], [19, 16, 20], true)|\
        caller census 3>Some(Ok(CensusSeen { ticket: 5, who: 0, count: 0 }))|";
    let wanted = "(Missing { actor: 1 }, [0, 1, 1, 1, 1, 1])";
    play_over(&rt, rt.alloc(), Over::Line, true, 20, rows, wanted)
}

// Between two moves the subscriber switches off (`switch 1`) and on again, by one put each.
#[test]
fn a_switch_between_two_moves(rt: HostRuntime) -> Result<(), Fail> {
    let rows = "own move 2>Ok(Moved { number: 1, first: 0, commit: 3, last: 5 })|\
        own switch 0>Err(Already)|\
        own switch 1>Ok(())|\
        own switch 0>Err(UnderWay)|\
        own put>Some(Ok(6))|\
        own move 3>Err(IsOff)|\
        caller census 2>Some(Ok(CensusSeen { ticket: 7, who: 0, count: 0 }))|\
        own switch 0>Ok(())|\
        own step>Ok(8)|\
        caller census 2>Some(Ok(CensusSeen { ticket: 9, who: 1, count: 1 }))|\
        own move 3>Ok(Moved { number: 2, first: 10, commit: 14, last: 17 })|\
        state>([18, 10, 0], [14, 28, 30], false)|";
    let wanted = "(Missing { actor: 1 }, [0, 0, 0, 0, 0, 0, 0, 1, 0, 1, 0, 0, 0, 0, 0, 0, 0, 0])";
    play_over(&rt, rt.alloc(), Over::Line, false, 30, rows, wanted)
}

// The subscriber moves from one end to the other by five puts, the last of which purges the first.
#[test]
fn a_move_over_the_most_nodes(rt: HostRuntime) -> Result<(), Fail> {
    let rows = "own move 0>Ok(Moved { number: 1, first: 0, commit: 2, last: 4 })|\
        caller find 1023 0>Ok(At { node: 0, number: 1, level: Some(0), weight: 1023 })|\
        state>([5, 8, 0], [2045, 2047, 2050], false)|";
    let wanted = "(Missing { actor: 1 }, [0, 0, 0, 0, 0, 1, 1, 1])";
    play_over(&rt, rt.alloc(), Over::MostNodes, false, 2050, rows, wanted)
}
