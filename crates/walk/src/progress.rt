//! How far a find is.

use directory::Found;

/// What a find keeps as it chases: the greatest number of a Gone that it read, the level that it
/// climbed to, its weight so far, and how many hops it has left.
#[derive(Clone, Copy)]
pub struct Chase {
    pub known: Option<u32>,
    pub level: Option<u32>,
    pub weight: u64,
    pub hops_left: u32,
}

/// A climb of a find, apart from its walk: at the entry of a reader of its origin, by level and
/// place among the readers; the greatest number of a Gone that the find read, and its weight so
/// far.
#[derive(Clone, Copy, PartialEq, Eq, Debug)]
pub struct Climb {
    pub from: u32,
    pub known: Option<u32>,
    pub weight: u64,
    pub level: u32,
    pub index: u32,
}

/// The cell that a find reads next, if it isn't ended.
#[derive(Clone, Copy)]
pub enum Progress {
    /// The presence at its origin.
    AtOrigin,
    /// The entry of a reader of its origin, by level and place among the readers.
    Climbing {
        known: Option<u32>,
        weight: u64,
        level: u32,
        index: u32,
    },
    /// The presence at this node.
    Chasing {
        chase: Chase,
        node: u32,
    },
    /// None: it has its answer.
    Ended {
        found: Found,
    },
}
