//! The laws of the trail: what the marks and the addresses of a subscriber tell after every legal
//! history, whoever made it, where they lead and how far, what finds read as they chase, and what
//! they answer. Each public function is a law, and does nothing.
#![tactic(auto)]

mod answers;
mod censuses;
mod marks;
mod outcomes;
mod ways;

pub use answers::{again_has_its_cause, answers_are_right, chases_rise, numbers_never_fall};
pub use censuses::censuses_are_right;
pub use marks::{coming_stands, entries_tell, marks_lead, marks_tell};
pub use outcomes::{lines_are_in_turn, outcomes_are_right};
pub use ways::{
    front_of_history_is_legal, levels_stay_near, marks_lead_by_phase, marks_lead_shortly,
    passage_is_open, phases_cover, quiet_finds_stand_still, quiet_finds_stay_within,
    rest_is_settled,
};
