//! Plans: for each power of two a cover of a network, with a home and readers for each node.
//!
//! [`Plan::build`] makes the plan of a network and a trade-off `k`, from the graph and its
//! distances; [`Plan::build_mean`] makes one over covers that are small in the sum, and
//! [`Plan::build_by`] either; [`Plan::flat`] makes one of a single level. Nodes, levels and
//! clusters are numbered from 0. Weights, distances, radii and thresholds have the unit of the
//! network's edges; level `i` has the radius 2^exponent, and the exponent of a level of `build` is
//! `i`. Accessors ask for numbers that there are.
//!
//! Every plan keeps what callers above lean on (`specs/Kept.antt`): it is within its sizes
//! (`IsKept`) and matched (`IsMatched`), and its clusters are within its reach (`IsWithinReach`).
//! Who holds a `&Plan` carries no such premise: the law [`plan_is_sound`] hands all three out. A
//! bound on finds asks for more: for `BoundsFinds`, which `build` gives by its clause `bounding`.
//! That the plan's distances are those handed in is the clause `copy`.
#![tactic(auto)]

mod balls;
mod building;
mod clusters;
mod covering;
mod flat;
mod laws;
mod level;
mod plan;
mod readers;
mod sharing;
mod spread;

pub use covering::Covering;
pub use laws::{
    covered_plan_is_bounding, covered_plan_is_one, covered_plan_means, degree_bounds, flat_means,
    mean_plan_is_small, plan_counts, plan_is_bounding, plan_is_sparse, plan_means,
};
pub use net_graph::OutOfMemory;
pub use plan::{Plan, plan_is_sound};
