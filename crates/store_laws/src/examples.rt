//! Examples of the definitions.
ghost use Rattle.std.specs.Prelude.{◌≡◌, [], ◌∷◌, None};
ghost use Rattle.entry_word.specs.Marks.{mark_word};
ghost use Rattle.entry_word.specs.declared.mark.PresenceMark.TheVariants.{Here};
ghost use Rattle.entry_word.specs.declared.visit.Key.TheVariants.{Presence};
ghost use Rattle.directory.specs.Finds.{at_origin, ended};
ghost use Rattle.directory.specs.Looks.{look_by};
ghost use Rattle.directory.specs.declared.answers.Found.TheVariants.{At};
ghost use Rattle.plan_laws.specs.Examples.{line_setting};
ghost use Rattle.store_laws.specs.Examples.{puts_at};
ghost use Rattle.store_laws.specs.Repeats.{ticket_there, without_repeats};
ghost use Rattle.store_laws.specs.Stepping.{AreToldLooks, pursuit_told};

/// A put that is made again is left out, though a look or another subscriber's put came between; a
/// put of another word, one into another cell, and one that was made before the last put are kept.
pub fn example_repeats()
    ensures again { without_repeats (puts_at 0 2 5 ∷ puts_at 0 2 5 ∷ puts_at 0 2 5 ∷ [])
        ≡ puts_at 0 2 5 ∷ [] }
    ensures between { without_repeats
        (puts_at 0 2 5 ∷ look_by 9 (Presence 2 0) ∷ puts_at 1 2 7 ∷ puts_at 0 2 5 ∷ [])
        ≡ puts_at 0 2 5 ∷ look_by 9 (Presence 2 0) ∷ puts_at 1 2 7 ∷ [] }
    ensures word { without_repeats (puts_at 0 2 5 ∷ puts_at 0 2 6 ∷ [])
        ≡ puts_at 0 2 5 ∷ puts_at 0 2 6 ∷ [] }
    ensures cell { without_repeats (puts_at 0 2 5 ∷ puts_at 0 3 5 ∷ [])
        ≡ puts_at 0 2 5 ∷ puts_at 0 3 5 ∷ [] }
    ensures before_last { without_repeats (puts_at 0 2 5 ∷ puts_at 0 3 5 ∷ puts_at 0 2 5 ∷ [])
        ≡ puts_at 0 2 5 ∷ puts_at 0 3 5 ∷ puts_at 0 2 5 ∷ [] }
    ensures ticket { ticket_there (puts_at 0 2 5 ∷ puts_at 0 2 5 ∷ look_by 9 (Presence 2 0) ∷ [])
        2 ≡ 1 }
{}

/// A look that is told what its cell holds is a find's first, and ends it where the subscriber is;
/// one that is told another word is none.
pub fn example_told_looks()
    ensures told { AreToldLooks line_setting (look_by 1 (Presence 3 0) ∷ []) 1
        (record { from = 3; sub = 0 }) 0 at_origin
        (record { ticket = 0; word = mark_word (Here 0) } ∷ []) }
    ensures answer { pursuit_told line_setting (record { from = 3; sub = 0 }) at_origin
        (record { ticket = 0; word = mark_word (Here 0) } ∷ []) ≡ ended (At 3 0 None 0) }
    ensures wrong { AreToldLooks line_setting (look_by 1 (Presence 3 0) ∷ []) 1
        (record { from = 3; sub = 0 }) 0 at_origin
        (record { ticket = 0; word = 0 } ∷ []) → ⊥ }
{}
