//! Laws of what a legal history leaves in the cells.
ghost use Rattle.std.specs.Prelude.{ℕ, ◌^◌, ◌≡◌, ◌≤◌};
ghost use Rattle.directory.specs.Histories.{History, cell, puts_to};
ghost use Rattle.directory.specs.Legal.{IsLegal};
ghost use Rattle.directory.specs.Settings.{Setting};
ghost use Rattle.directory.specs.Statements.{CommitsAreTold, EntriesAreLeft, MarksAreLeft, OffIsTold};
ghost use Rattle.directory.specs.States.{AreSmall, entry_left, mark_left, writes_made};
ghost use Rattle.entry_word.specs.Addresses.{address_word};
ghost use Rattle.entry_word.specs.Marks.{mark_word};
ghost use Rattle.entry_word.specs.declared.visit.Key.TheVariants.{Entry, Presence};

use entry_word::{address_words, mark_words};

/// After a legal history a cell holds the word of what the writes that are made have left there.
pub fn cells_of_legal()
    ensures marks { (setting : Setting) (sub : ℕ) (history : History) → IsLegal setting sub history
        → (node : ℕ)
        → cell setting history (Presence node sub)
        ≡ mark_word (mark_left setting sub (writes_made setting sub (puts_to sub history)) node) }
    ensures entries { (setting : Setting) (sub : ℕ) (history : History)
        → IsLegal setting sub history
        → (level cluster : ℕ) → cell setting history (Entry level cluster sub) ≡ address_word
        (entry_left setting sub (writes_made setting sub (puts_to sub history)) level cluster) }
{}

/// And that is what is read there.
pub fn read_of_legal()
    ensures marks { MarksAreLeft }
    ensures entries { EntriesAreLeft }
{
    mark_words();
    address_words();
}

/// The numbers and nodes of the writes of a legal history fit into their words.
pub fn writes_are_small()
    ensures { (setting : Setting) (sub : ℕ) (history : History) → setting.nodes ≤ 2 ^ 16
        → IsLegal setting sub history
        → AreSmall (writes_made setting sub (puts_to sub history)) }
{}

/// The writes of a legal history tell its commits, and whether its subscriber is off.
pub fn told_by_writes()
    ensures commits { CommitsAreTold }
    ensures off { OffIsTold }
{
    mark_words();
}
