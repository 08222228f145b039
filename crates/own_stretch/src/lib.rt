//! A plan's own stretches: how many times its distance a find over this very plan may weigh, told
//! by the readers of its nodes, which may be far less than the stretch of all plans says.
//!
//! [`own_stretches`] computes them, and [`stretch_text`] writes them. The laws say that they bound the weight of finds, and that no
//! lesser numbers bound what is paid.
#![tactic(auto)]

mod costs;
mod examples;
mod laws;
mod stretches;
mod text;

pub use examples::line_stretches;
pub use laws::{own_stretches_are_least, plan_finds_keep_own_stretch};
pub use stretches::{OwnStretches, own_stretches};
pub use text::{line_of_stretches, stretch_text};
