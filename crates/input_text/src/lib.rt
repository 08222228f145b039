//! The text of an input, line by line, and the law that it reads as that input.
#![tactic(auto)]

mod examples;
mod input;
mod laws;
mod lines;
mod listing;
mod scripts;

pub use examples::example_texts;
pub use input::{calls_by_actor, input_text};
pub use laws::{inputs_read, listings_read};
pub use lines::{InputLines, listing_text};
pub use listing::{ActorCall, Listing};
pub use scripts::scripts_of;
