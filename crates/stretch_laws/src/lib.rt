//! The laws of the stretch: how far a quiet find travels, in proportion to its distance, over every
//! legal history, whoever made it. Each public function is a law, and does nothing, but for
//! `bound`, which computes the bound of a plan.
#![tactic(auto)]

mod bounds;
mod costs;
mod laws;
mod outcomes;
mod plans;

pub use bounds::bound;
pub use costs::{
    address_after_confirm, address_at_rest, address_in_passage, climb_ends_early,
    current_address_after_confirm, new_address_before_commit, old_address_before_commit,
    reading_is_bounded,
};
pub use laws::{quiet_finds_are_near, resting_finds_are_nearer};
pub use outcomes::{outcomes_are_near, plan_outcomes_are_near};
pub use plans::{plan_finds_are_near, plans_track};
