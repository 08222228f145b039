//! Worked examples: a report of a tracker that tells each move to all nodes, and how it is broken.
ghost use Rattle.std.specs.Prelude.{◌∷◌, [], None};
ghost use Rattle.directory.specs.declared.answers.Done.TheVariants.{Again, Found, Moved, Off};
ghost use Rattle.directory.specs.declared.answers.Why.TheVariants.{NoEntry};
ghost use Rattle.soundness.specs.Examples.{IsSoundHere, IsSoundWith, find_amid, find_far, find_there, first_move, second_move, told_lines, told_order};
ghost use Rattle.soundness.specs.Turns.{Follows};

/// A tracker that tells each move to all nodes has a sound report.
pub fn sound_reports()
    ensures told { IsSoundHere told_lines told_order }
    ensures completed { Follows (1 ∷ 0 ∷ 1 ∷ 1 ∷ 0 ∷ []) (1 ∷ 0 ∷ 1 ∷ 0 ∷ 0 ∷ 2 ∷ []) }
{}

/// Reports that are wrong in one part aren't sound: a line that isn't the call's, one that names a
/// ticket of another run, an answer that names another place, number or state, a find that is to be
/// made again and met no move, and a move and a find that weigh more than they may.
pub fn unsound_reports()
    ensures number { IsSoundWith (Moved 0 2 3 0 3 0 1 4) second_move find_amid find_there find_far
        → ⊥ }
    ensures ticket { IsSoundWith first_move second_move find_amid find_there
        (Found 2 3 0 1 2 None 2 7 10) → ⊥ }
    ensures place { IsSoundWith first_move second_move (Found 1 0 0 3 1 None 0 2 3) find_there
        find_far → ⊥ }
    ensures count { IsSoundWith first_move second_move (Found 1 0 0 0 0 None 0 2 3) find_there
        find_far → ⊥ }
    ensures state { IsSoundWith first_move second_move (Off 1 0 0 0 1 None 0 2 3) find_there
        find_far → ⊥ }
    ensures needless { IsSoundWith first_move second_move (Again 1 0 0 NoEntry 0 2 3) find_there
        find_far → ⊥ }
    ensures far { IsSoundWith (Moved 0 1 3 0 4 0 1 4) second_move find_amid find_there find_far
        → ⊥ }
    ensures heavy { IsSoundWith first_move second_move find_amid find_there
        (Found 2 3 0 1 2 None 291 7 8) → ⊥ }
    ensures early { Follows (1 ∷ 0 ∷ []) (0 ∷ 1 ∷ []) → ⊥ }
{}
