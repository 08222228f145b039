//! Powers of whole numbers, the growth test of coarsening, and the laws on powers that its bounds
//! rest on.
#![tactic(auto)]

mod laws;
mod powers;

pub use laws::{bernoulli, one_phase, phases_bound, powers_add};
pub use powers::{at_most, power};
