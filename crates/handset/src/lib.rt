//! A subscriber's own state: where it stands, and what it writes next.
#![tactic(auto)]

mod entries;
mod fault;
mod handset;
mod levels;
mod stage;
mod states;
mod trail;
mod visits;
mod writes;

pub use entries::{EntryStage, Erasures, Renewals, entry_writes_are_next};
pub use fault::{MoveFault, StateFault, StateRefusal, SwitchFault};
pub use handset::Handset;
pub use states::states_come_back;
