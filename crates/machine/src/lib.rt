//! The directory at work: the actors of an input, each with its script, and the visits that they
//! make in any order.
//!
//! [`Machine::new`] takes an input, the plan of its network and the plan's distances, and all
//! memory that the machine needs. [`Machine::turn`] gives one actor its turn, as often and in any
//! order as the caller likes; [`Machine::turns`] gives it many at once, and [`Machine::play`] makes
//! those of an order. [`Machine::finish`] makes all visits that are left, and then
//! [`Machine::outcome`] tells what became of each call. The predicate `HasHistory` says for which
//! history a machine stands: of no visits at first, and each call says what it is afterwards. A
//! loop of turns says in its invariant that the machine stands for some history.
//!
//! ```text
//! let mut machine = Machine::new(alloc, &input, &plan, &distances)?;
//! machine.play(&order);
//! machine.finish();
//! let outcome = machine.outcome();
//! ```
#![tactic(auto)]

mod ahead;
mod caller;
mod lines;
mod machine;
mod order;
mod room;
mod subscriber;
mod turn;

pub use directory::Outcome;
pub use machine::Machine;
pub use turn::Turn;
