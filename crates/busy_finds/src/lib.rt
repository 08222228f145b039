//! The laws of finds that meet moves: what each find weighs, quiet or not and whatever it answers,
//! and what has come within a find that is to be made again. Each public function is a law, and
//! does nothing.
#![tactic(auto)]

mod again;
mod below;
mod examples;
mod few;
mod outcomes;
mod plans;
mod prices;

pub use again::{
    agains_are_few, chased_meets_commits, empty_meets_a_purge, missed_finds_are_few,
    no_entry_meets_the_top,
};
pub use examples::line_price;
pub use few::{finds_meeting_few_moves, plan_finds_meeting_few_moves};
pub use outcomes::plan_outcomes_are_priced;
pub use plans::{plan_finds_are_bounded, plan_finds_in_turn_are_bounded, plans_gather_half};
pub use prices::{
    every_find_has_its_price, finds_end_by_level, finds_in_turn_are_bounded,
    quiet_finds_meet_no_commit,
};
