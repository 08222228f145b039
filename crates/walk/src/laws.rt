//! Laws that callers of a walk lean on: each function does nothing.
ghost use Rattle.std.specs.Prelude.{ℕ};
ghost use Rattle.walk.specs.Climbs.{ClimbsGoOn};
ghost use Rattle.walk.specs.Walks.{IsWordBelow};
ghost use Rattle.walk.specs.declared.progress.Progress.{Progress};

/// A cell that holds nothing names no node.
pub fn empty_words()
    ensures { (nodes : ℕ) (progress : Progress) → IsWordBelow nodes progress 0 }
{}

/// A climb with a reader ahead goes on past an entry that holds nothing.
pub fn climbs_go_on()
    ensures { ClimbsGoOn }
{}
