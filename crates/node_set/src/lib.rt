//! Sets of node numbers of fixed room: bits in words, seen as ascending lists.
#![tactic(auto)]

mod bytes;
mod cuts;
mod lanes;
mod limit;
mod marks;
mod scan;
mod set;
mod turning;
mod workspace;

pub use lanes::{lanes_absorb, lanes_meet};
pub use marks::{absorb_balls, fill_all, set_homes, touch};
pub use set::{NodeSet, OutOfMemory, set_is_sound};
pub use turning::{balls_are_inside, rows_of};
pub use workspace::{Growth, Workspace, empty_set};
