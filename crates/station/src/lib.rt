//! The shared tracker: the directory for the threads of its callers. docs/LIBRARY.md tells how it
//! is used, and `crates/four_threads` is a program that does.
//!
//! The calls come in this order. [`Tracker::new`] makes a tracker over a plan, and a [`Pass`] for
//! each actor: the subscribers by their numbers, and then the callers. [`Pass::reserve`] sees to
//! room for visits: each look, put and census is one. Then any thread that has a pass visits:
//! `visit_look`, `visit_walk` with a find's walk, `visit_put` with the subscriber's handset,
//! `visit_census`; whole finds and moves are in `tracker_calls`. A [`Note`] carries what one pass
//! has seen to another. In the end [`Tracker::close`] takes all passes, and tells whose visit each
//! ticket was.
//!
//! A caller carries a few predicates of `specs/`. `AreFresh` holds of the passes of a new tracker,
//! in order. `IsFree` says that a pass is of the tracker and in no node; a fresh one is, and each
//! visit leaves it so. `IsHandsetOf` ties a handset to its subscriber's pass; the lemma
//! `new-handset` of `HandsetLaws` gives it at the start, and `visit_put` keeps it. A loop over
//! visits needs an invariant that says them again of the pass in the middle, and a closure that
//! takes a pass to another thread says them in its own clauses.
#![tactic(auto)]

mod closing;
mod inside;
mod notes;
mod opening;
mod pass;
mod rule;
mod tracker;
mod turns;
mod view;
mod visits;
mod walks;

pub use closing::{CloseCause, CloseFault};
pub use net_graph::OutOfMemory;
pub use notes::Note;
pub use pass::Pass;
pub use tracker::Tracker;
pub use turns::{Held, Stay, events_come_now, events_come_within_calls, lost_turns_are_read};
pub use visits::{CensusSeen, Looked};
