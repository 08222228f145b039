//! The words of the command line: which forms there are, and the command that each is.
#![tactic(auto)]

mod command;
mod examples;
mod load;
mod number;
mod words;

pub use command::{Command, WordsFault};
pub use examples::example_words;
pub use load::Load;
pub use words::read_words;
