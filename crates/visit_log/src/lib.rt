//! The cells of the directory by number, and plain cells in memory.
#![tactic(auto)]

mod cells;
mod homes;
mod numbers;
mod places;
mod routes;
mod words;

pub use cells::PlainCells;
pub use homes::Homes;
pub use numbers::{cell_count, cell_number, cell_numbers, key_node};
pub use places::Places;
pub use routes::{Height, Routes};
