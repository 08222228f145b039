//! Why a handset doesn't begin a step, or isn't made of words.
ghost use Rattle.std.specs.Prelude.{◌≡◌};
ghost use Rattle.handset.specs.declared.fault.StateRefusal.TheVariants.{OutOfMemory};

use std::alloc::AllocError;

/// Why a move doesn't begin: the first of these that holds.
#[derive(Clone, Copy, PartialEq, Eq, Debug)]
pub enum MoveFault {
    /// There is no such node.
    NoNode,
    /// The subscriber stands there.
    SamePlace,
    /// A step that was begun has writes left.
    UnderWay,
    /// The subscriber is off.
    IsOff,
    /// The greatest number has been given to a move.
    NumbersSpent,
}

/// Why a switch doesn't begin: the first of these that holds.
#[derive(Clone, Copy, PartialEq, Eq, Debug)]
pub enum SwitchFault {
    /// A step that was begun has writes left.
    UnderWay,
    /// The subscriber is in that state.
    Already,
}

/// Why words are no state of a handset for a plan: the first of these that holds.
#[derive(Clone, Copy, PartialEq, Eq, Debug)]
pub enum StateFault {
    /// There are fewer words than a state for this plan has.
    Short,
    /// No handset over a plan of this size has just these words.
    Garbled,
    /// A node is named that the plan hasn't.
    NoNode,
    /// Levels, numbers or weights don't go with one another, or not with the plan.
    Mixed,
}

/// Why no handset was made of words.
#[derive(Clone, Copy, PartialEq, Eq, Debug)]
pub enum StateRefusal {
    /// They are no state.
    Fault(StateFault),
    /// There was no memory for it.
    OutOfMemory,
}

impl From<AllocError> for StateRefusal {
    ghost from_gives = { λ _ e. e ≡ OutOfMemory };

    fn from(_: AllocError) -> Self {
        StateRefusal::OutOfMemory
    }
}
