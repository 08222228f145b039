//! Made workloads: inputs that a few numbers make, by draws of a generator.
#![tactic(auto)]

mod draws;
mod examples;
mod laws;
mod text;
mod workload;

pub use examples::{example_draws, example_formats, example_loads};
pub use laws::{loads_are_listings, loads_are_valid, loads_read, words_are_loads};
pub use text::load_text;
pub use workload::{Workload, make_input};
