//! The entries that a handset writes, one behind the other.
ghost use Rattle.std.specs.Prelude.{◌≡◌, ◌≢◌, ℕ, IfNone, IfSome};
ghost use Rattle.handset.specs.Condition.{GoesWith};
ghost use Rattle.handset.specs.Entries.{at_entry};
ghost use Rattle.handset.specs.NextEntries.{EntryWritesAreNext, erasures_from, renewals_from};

use crate::handset::Handset;
use crate::stage::{Journey, Stage};
use crate::visits::new_word;
use directory::levels_after_move;
use entry_word::mark_words;
use region_plan::{Plan, plan_is_sound};

/// Where a handset is among the entries that it writes, apart from it.
#[derive(Clone, Copy, PartialEq, Eq, Debug)]
pub enum EntryStage {
    /// At the new address of this level.
    Renewing { level: u32 },
    /// At the erasure of the old address of this level.
    Erasing { level: u32 },
}

/// The new addresses that a move writes one behind the other: those of the levels from `level` on,
/// below `end`, each at the level's home of the node, and the word of all of them. The address of
/// `end` itself has no other behind it, and is none of these.
#[derive(Clone, Copy, PartialEq, Eq, Debug)]
pub struct Renewals {
    pub level: u32,
    pub end: u32,
    pub node: u32,
    pub word: u64,
}

/// The erasures that a move writes one behind the other: of the old addresses of the levels from
/// `level` on, up to `last`, whose home isn't that of the node.
#[derive(Clone, Copy, PartialEq, Eq, Debug)]
pub struct Erasures {
    pub level: u32,
    pub last: u32,
    pub node: u32,
}

/// The write of an entry, where another of its kind is behind it, is the one that comes next. The
/// call does nothing, and its clause is a law.
pub fn entry_writes_are_next()
    ensures { EntryWritesAreNext }
{
    levels_after_move();
    mark_words();
}

impl Handset {
    /// The new addresses that it writes next, if the next write is one. What is at hand is enough
    /// to make them; `go_to` then counts them as made.
    #[inline(always)]
    pub fn renewals(&self, plan: &Plan) -> Option<Renewals>
        requires goes { GoesWith plan.now self.now }
        ensures some { IfSome result (λ r. (self.now.stage ≡ Stage.Renewing r.level)
            × (r ≡ renewals_from self.now r.level)) }
        ensures none { IfNone result ((level : ℕ) → self.now.stage ≢ Stage.Renewing level) }
    {
        // Nodes are few.
        plan_is_sound(plan);
        let Stage::Renewing { level } = self.stage else {
            return None;
        };
        let Journey {
            number,
            to,
            renewed,
            ..
        } = self.last;
        Some(Renewals {
            level,
            end: renewed,
            node: to,
            word: new_word(number, to),
        })
    }

    /// The erasures that it writes next, if the next write is one.
    #[inline(always)]
    pub fn erasures(&self) -> Option<Erasures>
        ensures some { IfSome result (λ e. (self.now.stage ≡ Stage.Erasing e.level)
            × (e ≡ erasures_from self.now e.level)) }
        ensures none { IfNone result ((level : ℕ) → self.now.stage ≢ Stage.Erasing level) }
    {
        let Stage::Erasing { level } = self.stage else {
            return None;
        };
        Some(Erasures {
            level,
            last: self.last.renewed,
            node: self.last.to,
        })
    }

    /// For each level the node of its address.
    #[inline(always)]
    pub fn addresses(&self) -> &[u32]
        ensures { result.now ≡ self.now.addresses }
    {
        &self.addresses
    }

    /// Goes on at an entry: what comes before it counts as made.
    pub fn go_to(&mut self, at: EntryStage)
        ensures { self.new ≡ at_entry self.old at }
    {
        self.stage = match at {
            EntryStage::Renewing { level } => Stage::Renewing { level },
            EntryStage::Erasing { level } => Stage::Erasing { level },
        };
    }
}
