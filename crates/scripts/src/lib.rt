//! The scripts of an input: the steps and the finds that its calls are, and how many visits they
//! take at most. Each public function is a law, and does nothing.
#![tactic(auto)]

mod laws;

pub use laws::{scripts_are_valid, visits_are_few};
