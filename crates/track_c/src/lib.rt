//! The directory's decisions for C: plans, finders and movers, whose cells the caller keeps; and crews,
//! whose members share a tracker.
//! bindings/c/track.h says of each export what it takes and answers.
#![tactic(auto)]

mod callers;
mod cells;
mod censuses;
mod crews;
mod edges;
mod fault;
mod finders;
mod handle;
mod looks;
mod members;
mod movers;
mod object;
mod openings;
mod plans;
mod rooms;
mod saving;
mod subscribers;
mod telling;
mod words;
