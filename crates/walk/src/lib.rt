//! A find under way: which cell it looks at next, and its answer.
#![tactic(auto)]

mod climb;
mod laws;
mod progress;
mod steps;
mod walk;

pub use laws::{climbs_go_on, empty_words};
pub use progress::Climb;
pub use walk::{Walk, WalkFault};
