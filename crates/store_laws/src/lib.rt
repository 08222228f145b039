//! Laws of the directory over a store of cells that somebody else keeps: what the store and its
//! users owe, and that a put which is made again changes nothing. Each public function is a law,
//! and does nothing.
#![tactic(auto)]

mod examples;
mod repeats;
mod stepping;

pub use examples::{example_repeats, example_told_looks};
pub use repeats::{finds_stay_without_repeats, repeats_change_nothing};
pub use stepping::{puts_in_turn_are_legal, stepped_finds_are_finds};
