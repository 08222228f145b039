//! Lines of text that are written piece by piece, into memory that was taken before.
#![tactic(auto)]

mod digits;
mod examples;
mod line;
mod order;
mod run;

pub use examples::example_orders;
pub use line::Line;
pub use order::write_next_order;
