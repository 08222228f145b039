//! Why a call is refused, and the code that C is told.
ghost use Rattle.std.specs.Prelude.{◌≡◌};
ghost use Rattle.track_c.specs.Faults.{code_of};

/// The code of a call that was done.
pub const DONE: u32 = 0;

/// Why a call is refused.
#[derive(Clone, Copy)]
pub enum Fault {
    /// There was no memory; all is as before.
    NoMemory,
    /// The handle is empty.
    EmptyHandle,
    /// The handle holds something of another kind.
    OtherKind,
    /// The handle for the answer isn't empty.
    FullHandle,
    /// The network is refused; what is wrong is told beside.
    BadNetwork,
    /// There is no such node.
    NoNode,
    /// There is no such subscriber.
    NoSubscriber,
    /// The subscriber stands there.
    SamePlace,
    /// A step that was begun has puts left.
    UnderWay,
    /// The subscriber is off.
    IsOff,
    /// The greatest number has been given to a move.
    NumbersSpent,
    /// The subscriber is in that state.
    Already,
    /// No put is left.
    AtRest,
    /// No look is left.
    Ended,
    /// A look is left.
    Looking,
    /// There are no more.
    PastEnd,
    /// The word is none of that cell.
    BadWord,
    /// No word has these fields.
    BadFields,
    /// The state has another number of words than there is room for.
    NoRoom,
    /// There are fewer words than a state for this plan has.
    ShortState,
    /// No handset over a plan of this size has just these words.
    GarbledState,
    /// The levels, numbers or weights of the state don't go with one another, or with the plan.
    MixedState,
    /// A number is past its limit.
    CountTooLarge,
    /// The pass has no room for so many visits.
    Unreserved,
    /// Another member was inside a node on the way.
    Held,
}

impl Fault {
    /// The code that C is told.
    pub fn code(self) -> u32
        ensures { result ≡ code_of self }
    {
        match self {
            Fault::NoMemory => 1,
            Fault::EmptyHandle => 2,
            Fault::OtherKind => 3,
            Fault::FullHandle => 4,
            Fault::BadNetwork => 5,
            Fault::NoNode => 6,
            Fault::NoSubscriber => 7,
            Fault::SamePlace => 8,
            Fault::UnderWay => 9,
            Fault::IsOff => 10,
            Fault::NumbersSpent => 11,
            Fault::Already => 12,
            Fault::AtRest => 13,
            Fault::Ended => 14,
            Fault::Looking => 15,
            Fault::PastEnd => 16,
            Fault::BadWord => 17,
            Fault::BadFields => 18,
            Fault::NoRoom => 19,
            Fault::ShortState => 20,
            Fault::GarbledState => 21,
            Fault::MixedState => 22,
            Fault::CountTooLarge => 23,
            Fault::Unreserved => 24,
            Fault::Held => 25,
        }
    }
}
