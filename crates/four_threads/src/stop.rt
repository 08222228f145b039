//! Why the program stops early.

use net_graph::OutOfMemory;
use station::CloseCause;
use tracker_calls::{FindRefusal, MoveToFault};

/// Why the program stops early.
#[derive(Clone, Copy)]
pub enum Stop {
    /// Memory is wanting: end something else, and try again.
    OutOfMemory,
    /// A find can't begin: a wrong number, or a pass without room.
    Find(FindRefusal),
    /// A move isn't made: a wrong number, or a pass without room.
    Move(MoveToFault),
    /// The tracker isn't closed: a pass is missing.
    Close(CloseCause),
    /// Standard output takes no more.
    NotWritten,
}

impl From<OutOfMemory> for Stop {
    fn from(_: OutOfMemory) -> Stop {
        Stop::OutOfMemory
    }
}

impl From<FindRefusal> for Stop {
    fn from(refusal: FindRefusal) -> Stop {
        Stop::Find(refusal)
    }
}

impl From<MoveToFault> for Stop {
    fn from(fault: MoveToFault) -> Stop {
        Stop::Move(fault)
    }
}

impl From<CloseCause> for Stop {
    fn from(cause: CloseCause) -> Stop {
        match cause {
            CloseCause::OutOfMemory => Stop::OutOfMemory,
            CloseCause::Missing { .. } => Stop::Close(cause),
        }
    }
}
