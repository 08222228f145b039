//! Laws of what a subscriber's finds and moves weigh together: each public function is a law, and
//! does nothing.
#![tactic(auto)]

mod examples;
mod laws;

pub use examples::line_run;
pub use laws::{plan_runs_are_bounded, whole_runs_are_bounded};
