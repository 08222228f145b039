//! What an actor did at its turn.

/// Whether an actor made a visit at its turn, or had none left.
#[derive(Clone, Copy, PartialEq, Eq, Debug)]
pub enum Turn {
    /// It made its next visit.
    Visited,
    /// Its script has no visit left.
    Finished,
}
