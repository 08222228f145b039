//! Runs whose outcome no order changes: one actor alone has visits.
ghost use Rattle.std.specs.Prelude.{false};

use crate::runs::{MOVED, ShutGate, run, same_outcome};
use directory::Done;
use runner::{Gate, OpenGate, RUN_TRIES, Worker};
use std::alloc::Global;
use std::process::Abort;
use std::sync::atomic::{AtomicU64, Ordering};
use std::test::Fail;
use std::thread::Threads;

const FIND: &str = "callers 1\nfind 1 0 0\n";

const FOUND: [Done; 1] = [Done::Found {
    actor: 1,
    from: 0,
    sub: 0,
    node: 3,
    number: 0,
    level: Some(1),
    weight: 3,
    first: 0,
    last: 3,
}];

// The find is made, however often a worker of this gate tries.
fn is_found<R: Threads + Sync + Abort, G: Gate>(
    rt: &R,
    alloc: Global,
    gate: &G,
    tries: u64,
) -> Result<(), Fail> {
    let outcome = run(rt, alloc, FIND, gate, tries)?;
    same_outcome(rt, &outcome, &FOUND, &[1; 4]);
    Ok(())
}

#[test]
fn tries_change_nothing(rt: HostRuntime) -> Result<(), Fail> {
    is_found(&rt, rt.alloc(), &OpenGate, RUN_TRIES)?;
    is_found(&rt, rt.alloc(), &OpenGate, 0)?;
    is_found(&rt, rt.alloc(), &ShutGate, 3)
}

// A gate that counts how often it is asked and told, and lets all go or none.
#[derive(Drop)]
struct Counting {
    lets: bool,
    asked: AtomicU64,
    told: AtomicU64,
}

impl Gate for Counting {
    ghost is_open = { λ _. false };

    ghost is_shut = { λ _. false };

    fn may_go(&self, actor: u32, done: u64) -> bool {
        let _ = (actor, done);
        let _ = self.asked.fetch_add(1, Ordering::SeqCst);
        self.lets
    }

    fn made(&self, actor: u32, done: u64) {
        let _ = (actor, done);
        let _ = self.told.fetch_add(1, Ordering::SeqCst);
    }
}

// How often a worker with so many tries asks the gate before visits of a find, and tells it of one.
fn asks_so<R: Threads + Sync + Abort>(
    rt: &R,
    alloc: Global,
    lets: bool,
    tries: u64,
    wanted: [u64; 2],
) -> Result<(), Fail> {
    let gate = Counting {
        lets,
        asked: AtomicU64::new(0),
        told: AtomicU64::new(0),
    };
    is_found(rt, alloc, &gate, tries)?;
    let counted = [
        gate.asked.load(Ordering::SeqCst),
        gate.told.load(Ordering::SeqCst),
    ];
    assert!(rt; counted == wanted);
    Ok(())
}

// Its thread makes the visits of a find, unless the gate is closed or it has no tries.
#[test]
fn a_thread_plays(rt: HostRuntime) -> Result<(), Fail> {
    asks_so(&rt, rt.alloc(), true, RUN_TRIES, [4, 4])?;
    asks_so(&rt, rt.alloc(), true, 0, [0, 0])?;
    asks_so(&rt, rt.alloc(), false, 3, [3, 0])
}

#[test]
fn a_move_is_made(rt: HostRuntime) -> Result<(), Fail> {
    let outcome = run(&rt, rt.alloc(), "callers 1\nmove 0 2\n", &OpenGate, 5)?;
    same_outcome(&rt, &outcome, &MOVED, &[0; 6]);
    Ok(())
}

fn sends<T: Send>() {}

#[test]
fn threads_may_have_workers(_rt: HostRuntime) -> Result<(), Fail> {
    sends::<Worker>();
    Ok(())
}
