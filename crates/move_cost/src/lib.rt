//! What moves cost: how far each subscriber goes, what it writes on its way, and what it purges.
//!
//! [`costs`] has one line for each subscriber of an input, over a plan of its network: it drives a
//! handset through the subscriber's script, and weighs each write as it comes. The laws bound what
//! is written by how far the subscriber goes, and what is purged by its moves.
#![tactic(auto)]

mod counting;
mod examples;
mod laws;
mod line;
mod text;
mod weights;

pub use counting::costs;
pub use examples::{example_costs, example_moves, example_pace, example_texts};
pub use laws::{
    erasures_are_written, lines_are_within_rate, move_weighs, network_lines_are_within_rate,
    plans_are_paced, purged_is_bounded, purges_are_counted, written_is_bounded,
};
pub use line::CostLine;
pub use text::costs_text;
