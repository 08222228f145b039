//! What a sound report of an input is, in the report's own words. There is no code: the examples
//! are laws.
#![tactic(auto)]

mod examples;

pub use examples::{sound_reports, unsound_reports};
