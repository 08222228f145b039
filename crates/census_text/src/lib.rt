//! The text of a census, as docs/FORMATS.md tells it.
#![tactic(auto)]

mod lines;

pub use lines::{census, census_of_places};
