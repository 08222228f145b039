//! What lines say.

/// What an actor does.
#[derive(Clone, Copy, Debug, PartialEq, Eq)]
pub enum Call {
    /// A subscriber moves to this node.
    Move { to: u32 },
    /// A caller looks for a subscriber, from this node.
    Find { from: u32, sub: u32 },
    /// A subscriber switches off.
    Off,
    /// A subscriber that is off switches on.
    On,
}

/// A call, and the actor that makes it.
#[derive(Clone, Copy)]
pub(crate) struct Spoken {
    pub(crate) actor: u32,
    pub(crate) call: Call,
}
