//! Summaries and the JSON of no call, and of calls of each kind.
use crate::outcomes::outcome_of;
use crate::sameness::is_like;
use directory::{Done, Why};
use json_form::report_json;
use report_text::summary;
use std::alloc::Global;
use std::process::Abort;

const HEAVY: u64 = 18_446_744_073_709_551_615;

fn moved(weight: u64) -> Done {
    Done::Moved {
        actor: 0,
        number: 1,
        from: 3,
        to: 2,
        weight,
        first: 0,
        commit: 3,
        last: 5,
    }
}

const SWITCHED: Done = Done::Switched {
    actor: 0,
    off: true,
    node: 2,
    number: 1,
    ticket: 7,
};

const FOUND: Done = Done::Found {
    actor: 1,
    from: 2,
    sub: 0,
    node: 3,
    number: 0,
    level: Some(0),
    weight: 5,
    first: 0,
    last: 3,
};

const OFF: Done = Done::Off {
    actor: 1,
    from: 2,
    sub: 0,
    node: 3,
    number: 0,
    level: None,
    weight: HEAVY,
    first: 10,
    last: 10,
};

const AGAIN: Done = Done::Again {
    actor: 1,
    from: 3,
    sub: 0,
    why: Why::Chased,
    weight: 300,
    first: 6,
    last: 16,
};

// The summary of these calls and so many visits is to be this line.
fn sums_up(rt: &impl Abort, alloc: Global, calls: &[Done], visits: usize, wanted: &str) {
    let outcome = outcome_of(rt, alloc, calls, 1, visits);
    let line = summary(alloc, &outcome).expect(rt, "memory");
    is_like(rt, visits, &line, wanted);
}

#[test]
fn no_calls(rt: HostRuntime) {
    let wanted = "summary moves 0 moved 0 finds 0 again 0 travelled 0 visits 0\n";
    sums_up(&rt, rt.alloc(), &[], 0, wanted);
}

#[test]
fn calls_of_each_kind(rt: HostRuntime) {
    let calls = [
        moved(HEAVY),
        FOUND,
        moved(1),
        SWITCHED,
        OFF,
        AGAIN,
        SWITCHED,
    ];
    let wanted = "summary moves 2 moved 18446744073709551616 finds 2 again 1 \
            travelled 18446744073709551920 visits 130\n";
    sums_up(&rt, rt.alloc(), &calls, 130, wanted);
}

const WHOLE: &str = "{\"calls\":[\
        {\"actor\":0,\"commit\":3,\"first\":0,\"from\":3,\"kind\":\"move\",\"last\":5,\"number\":1,\
        \"to\":2,\"weight\":1},\
        {\"actor\":0,\"kind\":\"switch\",\"node\":2,\"number\":1,\"off\":true,\"ticket\":7},\
        {\"actor\":1,\"first\":0,\"from\":2,\"kind\":\"find\",\"last\":3,\"level\":0,\"node\":3,\
        \"number\":0,\"sub\":0,\"weight\":5},\
        {\"actor\":1,\"first\":10,\"from\":2,\"kind\":\"off\",\"last\":10,\"level\":null,\
        \"node\":3,\"number\":0,\"sub\":0,\"weight\":18446744073709551615},\
        {\"actor\":1,\"first\":6,\"from\":3,\"kind\":\"again\",\"last\":16,\"node\":null,\
        \"sub\":0,\"weight\":300,\"why\":\"chased\"}],\"order\":[1],\"visits\":1}\n";

#[test]
fn report_as_json(rt: HostRuntime) {
    let calls = [moved(1), SWITCHED, FOUND, OFF, AGAIN];
    let outcome = outcome_of(&rt, rt.alloc(), &calls, 1, 1);
    let text = report_json(rt.alloc(), &outcome).expect(&rt, "memory");
    is_like(&rt, 0, &text, WHOLE);
}
