//! Three callers that let one another go on: they need three threads.
ghost use Rattle.std.specs.Prelude.{false};

use crate::runs::run;
use directory::Outcome;
use runner::Gate;
use std::sync::atomic::{AtomicU64, Ordering};
use std::test::Fail;

// How often a caller reads another's flag before it gives up.
const READS: u64 = 200_000_000;

const TRIES: u64 = 50_000_000;

// What one caller says to the others, and what was recorded of it.
#[derive(Drop)]
struct Caller {
    came: AtomicU64,
    made: AtomicU64,
    saw: AtomicU64,
    went_on: AtomicU64,
}

fn new_caller() -> Caller {
    Caller {
        came: AtomicU64::new(0),
        made: AtomicU64::new(0),
        saw: AtomicU64::new(0),
        went_on: AtomicU64::new(0),
    }
}

// The gate of the callers 1, 2 and 3: none makes its first visit before all have come, nor its
// second before the others have made one.
#[derive(Drop)]
struct Meeting {
    first: Caller,
    second: Caller,
    third: Caller,
}

impl Meeting {
    fn own(&self, actor: u32) -> &Caller {
        match actor {
            1 => &self.first,
            2 => &self.second,
            _ => &self.third,
        }
    }

    fn others(&self, actor: u32) -> (&Caller, &Caller) {
        match actor {
            1 => (&self.second, &self.third),
            2 => (&self.first, &self.third),
            _ => (&self.first, &self.second),
        }
    }
}

fn is_set(flag: &AtomicU64) -> bool {
    flag.load(Ordering::SeqCst) != 0
}

fn set(flag: &AtomicU64) {
    flag.store(1, Ordering::SeqCst);
}

// Whether a flag is set before so many reads are over.
fn sees(flag: &AtomicU64) -> bool {
    'reads: for _ in 0..READS {
        if is_set(flag) {
            return true;
        }
    }
    false
}

impl Gate for Meeting {
    ghost is_open = { λ _. false };

    ghost is_shut = { λ _. false };

    fn may_go(&self, actor: u32, done: u64) -> bool {
        let own = self.own(actor);
        let (one, other) = self.others(actor);
        if done == 0 {
            set(&own.came);
            if sees(&one.came) && sees(&other.came) {
                set(&own.saw);
            }
            return true;
        }
        if done == 1 {
            if !is_set(&one.made) || !is_set(&other.made) {
                return false;
            }
            set(&own.went_on);
        }
        true
    }

    fn made(&self, actor: u32, done: u64) {
        let _ = done;
        set(&self.own(actor).made);
    }
}

// Whether a caller saw that the others had come, and went on.
fn has_met(caller: &Caller) -> bool {
    is_set(&caller.saw) && is_set(&caller.went_on)
}

// Whether the first three tickets are one of each caller.
fn begins_with_all(outcome: &Outcome) -> bool {
    let order = outcome.order.as_slice();
    order.len() >= 3 && (1..=3).all(|caller| order[..3].contains(&caller))
}

#[test]
fn three_workers_meet(rt: HostRuntime) -> Result<(), Fail> {
    let gate = Meeting {
        first: new_caller(),
        second: new_caller(),
        third: new_caller(),
    };
    let calls = "callers 3\nfind 1 0 0\nfind 2 0 0\nfind 3 0 0\n";
    let outcome = run(&rt, rt.alloc(), calls, &gate, TRIES)?;
    let [one, two, three] = [&gate.first, &gate.second, &gate.third];
    assert!(rt; has_met(one) && has_met(two) && has_met(three) && begins_with_all(&outcome));
    Ok(())
}
