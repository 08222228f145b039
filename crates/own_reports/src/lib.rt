//! What the directory reports is sound: laws alone, so each public function does nothing.
#![tactic(auto)]

mod laws;

pub use laws::{
    outcomes_have_form, own_reports_are_sound, own_reports_are_sound_texts, places_are_told,
    tickets_are_told,
};
