//! How far a handset is with the step that it has begun.
ghost use Rattle.std.specs.Prelude.{◌≡◌};
ghost use Rattle.handset.specs.Beginning.{is_committing, is_rest};

/// The write that comes next: none at rest; those of a move in their order; the one of a switch.
#[derive(Clone, Copy)]
pub enum Stage {
    /// None.
    Resting,
    /// The mark at the move's destination that the subscriber is coming.
    Coming,
    /// The new address of this level.
    Renewing { level: u32 },
    /// The mark where the subscriber was that it is gone, which commits the move.
    Committing,
    /// The mark at the destination that it is there.
    Confirming,
    /// The old address of this level.
    Erasing { level: u32 },
    /// The mark at this node of the trail.
    Purging { node: u32 },
    /// The mark where the subscriber stands that it is off, or on again.
    Switching { off: bool },
}

impl Stage {
    // Whether no write is left.
    pub fn is_rest(self) -> bool
        ensures { result ≡ is_rest self }
    {
        matches!(self, Stage::Resting)
    }

    // Whether the write that comes next commits the move.
    pub fn is_committing(self) -> bool
        ensures { result ≡ is_committing self }
    {
        matches!(self, Stage::Committing)
    }
}

/// A move: its number, counted from 1, its two nodes and their distance, and the highest level that
/// it renews.
#[derive(Clone, Copy)]
pub struct Journey {
    pub number: u32,
    pub from: u32,
    pub to: u32,
    pub weight: u64,
    pub renewed: u32,
}
