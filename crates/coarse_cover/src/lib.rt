//! Coarsening of balls into clusters of bounded radius and bounded overlap.
#![tactic(auto)]

mod coarsening;
mod cover;
mod growing;
mod laws;
mod phasing;

pub use coarsening::{coarsen, coarsen_by_rows};
pub use cover::{Cluster, Cover};
pub use laws::{cluster_shape, covers_are_sparse, home_means};
