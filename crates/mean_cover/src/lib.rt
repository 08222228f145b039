//! Coarsening of balls into clusters of bounded radius whose sizes are small in the sum.
#![tactic(auto)]

mod cover;
mod covering;
mod examples;
mod growing;
mod laws;

pub use cover::{MeanCluster, MeanCover};
pub use covering::{coarsen_mean, coarsen_mean_by_rows};
pub use examples::example_cover;
pub use laws::{mean_cluster_shape, mean_covers_are_small, mean_home_means};
