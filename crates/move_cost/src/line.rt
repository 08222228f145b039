//! What is told of a subscriber's moves.

/// What the moves of a subscriber cost. Weights have the unit of the network's edges.
#[derive(Clone, Copy, PartialEq, Eq, Debug)]
pub struct CostLine {
    pub sub: u32,
    /// How many moves it makes.
    pub moves: u64,
    /// How far it goes: the weight of all its moves.
    pub moved: u64,
    /// The weight of all that it writes.
    pub written: u64,
    /// How many marks it purges.
    pub purged: u64,
}
