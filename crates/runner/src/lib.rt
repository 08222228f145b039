//! Threads serve the actors of an input: each actor's worker makes the visits of its script on the
//! shared tracker, and in the end there is one order of all visits, and what became of all calls.
//!
//! [`run_workers`] does all of it. Its parts may be called one by one: [`open_run`] opens the
//! tracker and makes the workers, each by [`Worker::new`], which takes the pass of an actor,
//! [`Worker::play`] makes visits until the script is done or so many turns were lost, and
//! [`finish_run`] closes the tracker and makes the visits that are left. A [`Gate`] says before
//! each visit whether it may be made now; [`OpenGate`] always lets it.
//!
//! The predicate `IsWorkerOf` of `specs/` says that a worker serves an actor of an input on a
//! tracker; `Worker::new` gives it, and each play keeps it.
//!
//! ```text
//! let outcome = run_workers(&rt, alloc, &input, &plan, &distances, &OpenGate, RUN_TRIES)?;
//! ```
#![tactic(auto)]

mod finder;
mod gate;
mod mover;
mod role;
mod room;
mod running;
mod worker;
mod wrong;

pub use gate::{Gate, OpenGate};
pub use running::{RUN_TRIES, finish_run, open_run, run_workers};
pub use worker::{Played, Worker, WorkerRefused};
pub use wrong::{wrong_plays, wrong_runs, wrong_workers};
