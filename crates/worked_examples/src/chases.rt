//! What the law of chases says of single marks, what finds read on the line of four while the
//! subscriber moves, and what no chase reads.
ghost use Rattle.std.specs.Prelude.{◌≡◌, ◌<◌, ◌≤◌, List, [], ◌∷◌, Some, None, ℕ};
ghost use Rattle.entry_word.specs.Addresses.{address_word};
ghost use Rattle.entry_word.specs.Marks.{mark_word};
ghost use Rattle.entry_word.specs.declared.mark.PresenceMark.TheVariants.{Coming, Empty, Gone, Here, Off};
ghost use Rattle.directory.specs.Finds.{FindCall, at_origin};
ghost use Rattle.directory.specs.Histories.{History};
ghost use Rattle.directory.specs.Settings.{Setting};
ghost use Rattle.plan_laws.specs.Examples.{line_setting};
ghost use Rattle.trail_laws.specs.Chased.{ChaseRises, ChasesRise, FollowOn, marks_chased};
ghost use Rattle.worked_examples.specs.Chases.{ReadsInChase, chase_before_commit, chase_over_commit};
ghost use Rattle.worked_examples.specs.Examples.{find_from};

/// In a legal history a chase that reads Gone 4 reads no lower Here behind it, one that reads
/// Coming 4 none lower than 3; behind the hop back a Gone is above the one before it, and a Here no
/// lower; behind a Here nothing is read. A chase that meets the Coming before the commit reads
/// Here 0 behind it; if the commit falls into it, Gone 1, and the Coming again, which answers.
/// Neither the mark at the origin nor an address is of the chase.
pub fn worked_chases()
    ensures there { ChasesRise → (setting : Setting) (history : History) (call : FindCall)
        → (actor number : ℕ) (tickets : List ℕ)
        → ReadsInChase setting history actor call tickets (Gone 4 2 ∷ Here number ∷ [])
        → 4 ≤ number }
    ensures back { ChasesRise → (setting : Setting) (history : History) (call : FindCall)
        → (actor number : ℕ) (tickets : List ℕ)
        → ReadsInChase setting history actor call tickets (Coming 4 3 ∷ Here number ∷ [])
        → 3 ≤ number }
    ensures on { ChasesRise → (setting : Setting) (history : History) (call : FindCall)
        → (actor p q number : ℕ) (tickets : List ℕ)
        → ReadsInChase setting history actor call tickets
        (Gone p 2 ∷ Coming q 3 ∷ Gone number 1 ∷ [])
        → p < number }
    ensures above { ChasesRise → (setting : Setting) (history : History) (call : FindCall)
        → (actor p q number : ℕ) (tickets : List ℕ)
        → ReadsInChase setting history actor call tickets
        (Gone p 2 ∷ Coming q 3 ∷ Here number ∷ [])
        → p ≤ number }
    ensures ended { ChasesRise → (setting : Setting) (history : History) (call : FindCall)
        → (actor number : ℕ) (tickets : List ℕ)
        → ReadsInChase setting history actor call tickets (Here 3 ∷ Gone number 2 ∷ []) → ⊥ }
    ensures before_commit { ReadsInChase line_setting chase_before_commit 1 (find_from 1)
        (2 ∷ 3 ∷ 4 ∷ 5 ∷ []) (Coming 1 3 ∷ Here 0 ∷ []) }
    ensures over_commit { ReadsInChase line_setting chase_over_commit 1 (find_from 1)
        (2 ∷ 3 ∷ 4 ∷ 7 ∷ 8 ∷ []) (Coming 1 3 ∷ Gone 1 2 ∷ Coming 1 3 ∷ []) }
    ensures from_address { marks_chased line_setting (find_from 3) at_origin
        (mark_word (Gone 2 0) ∷ address_word (Some (record { number = 1; node = 1 }))
        ∷ mark_word (Gone 1 2) ∷ mark_word (Coming 2 0) ∷ []) ≡ (Gone 1 2 ∷ Coming 2 0 ∷ []) }
    ensures from_coming { marks_chased line_setting (find_from 2) at_origin
        (mark_word (Coming 1 3) ∷ mark_word (Gone 1 2) ∷ mark_word (Coming 1 3) ∷ [])
        ≡ (Gone 1 2 ∷ Coming 1 3 ∷ []) }
{}

/// What no chase reads: a number that falls behind a Gone, or stays at one; one that falls behind a
/// Coming to another mark than a Here, or by two; anything behind a mark that doesn't lead on; a
/// Gone again, though no number falls from one mark to the next; and a Here that is lower than a
/// Gone further ahead, though it may follow the Coming next to it.
pub fn wrong_chases()
    ensures lower { FollowOn (Gone 4 2 ∷ Here 3 ∷ []) → ⊥ }
    ensures same { FollowOn (Gone 4 2 ∷ Gone 4 1 ∷ []) → ⊥ }
    ensures two_lower { FollowOn (Coming 4 3 ∷ Here 2 ∷ []) → ⊥ }
    ensures back_lower { FollowOn (Coming 4 3 ∷ Gone 3 1 ∷ []) → ⊥ }
    ensures coming_lower { FollowOn (Coming 4 3 ∷ Coming 3 1 ∷ []) → ⊥ }
    ensures off_lower { FollowOn (Coming 4 3 ∷ Off 3 ∷ []) → ⊥ }
    ensures behind_here { FollowOn (Here 4 ∷ Gone 5 2 ∷ []) → ⊥ }
    ensures behind_off { FollowOn (Off 4 ∷ Here 5 ∷ []) → ⊥ }
    ensures behind_empty { FollowOn (Empty ∷ Here 5 ∷ []) → ⊥ }
    ensures later { FollowOn (Gone 1 2 ∷ Gone 4 2 ∷ Here 3 ∷ []) → ⊥ }
    ensures again { ChaseRises (Gone 4 2 ∷ Coming 4 3 ∷ Gone 4 2 ∷ []) → ⊥ }
    ensures may_follow { FollowOn (Gone 4 2 ∷ Coming 4 3 ∷ Gone 4 2 ∷ []) }
    ensures fallen { ChaseRises (Gone 4 2 ∷ Coming 4 3 ∷ Here 3 ∷ []) → ⊥ }
    ensures far { ChaseRises (Gone 4 2 ∷ Coming 4 3 ∷ Coming 4 1 ∷ Here 3 ∷ []) → ⊥ }
    ensures behind_both { ChaseRises (Coming 4 3 ∷ Gone 4 2 ∷ Coming 4 3 ∷ Here 3 ∷ []) → ⊥ }
    ensures may_fall { FollowOn (Coming 4 3 ∷ Gone 4 2 ∷ Coming 4 3 ∷ Coming 4 1 ∷ Here 3 ∷ []) }
{}
