//! Laws of plans beside what makes them: what is equal where two networks or two flat plans are,
//! and the line of four nodes with its plans, over which crates above compute their examples. Each
//! public function is a law, and does nothing.
#![tactic(auto)]

mod alike;
mod flat;
mod line;

pub use alike::{covered_plan_of_same_walks, plan_of_same_walks};
pub use flat::flat_is_one;
pub use line::{line_has_its_mean_plan, line_has_its_plan};
