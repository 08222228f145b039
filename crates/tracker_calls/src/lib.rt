//! Whole calls for the callers' own threads: finds and moves over the shared tracker of `station`.
//! docs/LIBRARY.md tells how they are used, and `crates/four_threads` is a program that does.
//!
//! [`find`] and [`move_to`] wait while another pass is inside a node on their way, and take the
//! handle `Wait`; [`find_now`] and [`move_step`] end there with `Held`, and wait for nobody. Each
//! asks for the tracker's own plan and its distances, and for a pass of the tracker that is in no
//! node: the predicate `IsFree` of station says that, and holds after the call again. Moves ask
//! besides that the handset is the pass's own (`IsHandsetOf`), which they keep. To call in a loop,
//! wrap one call in a function whose clauses say these of the pass before and after, and say them
//! again in the loop's invariant.
//!
//! `subs` is the number of the tracker's subscribers. Neither a plan nor a pass keeps it, and with
//! it a find refuses a subscriber that there isn't.
//!
//! ```text
//! let found = find(rt, &tracker, &mut caller, &plan, &distances, 1, from, 0)?;
//! let moved = move_to(rt, &tracker, &mut own, &plan, &distances, &mut handset, to)?;
//! ```
#![tactic(auto)]

mod finds;
mod moves;
mod walking;
mod whole_moves;

pub use finds::{FindFault, FindRefusal, find, find_now};
pub use moves::{StepFault, move_step};
pub use whole_moves::{MoveToFault, Moved, move_to};
