//! Laws of keys, cells and histories.
ghost use Rattle.std.specs.Prelude.{[], cond, ℕ, ◌++◌, ◌==◌, ◌∷◌, ◌≡◌};
ghost use Rattle.directory.specs.Histories.{History, cell, is_put_for, own, puts_to, tickets, words_of, words_read};
ghost use Rattle.directory.specs.Settings.{Setting};
ghost use Rattle.directory.specs.Statements.{CellsOfPuts, SameKey, CellAfter, OwnGrow, TicketsGrow, TicketsAreOwn, TicketsAscend, BeginsWithItself, BeginsWithFront, BeginsThrough};
ghost use Rattle.entry_word.specs.declared.visit.Visit.{Visit};

/// Two keys are the same just where the test says so.
pub fn same_key_means()
    ensures { SameKey }
{}

/// A visit changes what a cell holds by its act alone.
pub fn cell_after()
    ensures { CellAfter }
{}

/// A cell is told by the puts for its subscriber alone.
pub fn cell_of_puts()
    ensures { CellsOfPuts }
{}

/// A visit adds to the visits of its own actor, and to the puts for the subscriber whose cell it
/// changes.
pub fn own_after()
    ensures visits { OwnGrow }
    ensures puts { (sub : ℕ) (history : History) (visit : Visit)
        → puts_to sub (history ++ visit ∷ [])
        ≡ puts_to sub history ++ cond (is_put_for sub visit.act) (visit ∷ []) [] }
    ensures words { (setting : Setting) (actor : ℕ) (history : History) (visit : Visit)
        → words_read setting actor (history ++ visit ∷ []) ≡ words_read setting actor history
        ++ cond (visit.actor == actor) (words_of setting history visit.act) [] }
    ensures tickets { TicketsGrow }
{}

/// The tickets of an actor ascend, and are those of all its visits.
pub fn tickets_tell()
    ensures visits { TicketsAreOwn }
    ensures ascend { TicketsAscend }
{}

/// A history begins with itself and with each front, and with what its front begins with.
pub fn histories_begin()
    ensures itself { BeginsWithItself }
    ensures longer { BeginsWithFront }
    ensures through { BeginsThrough }
{}
