//! What a whole move over a tracker tells: its visits, its tickets and its number.
ghost use Rattle.std.specs.Prelude.{◌≡◌, [], ◌∷◌, ℕ, List, Some, length};
ghost use Rattle.entry_word.specs.declared.visit.Visit.{Visit};
ghost use Rattle.directory.specs.Courses.{move_to, switch_off, switch_on};
ghost use Rattle.directory.specs.Histories.{own, puts_to};
ghost use Rattle.directory.specs.Writes.{visits};
ghost use Rattle.handset.specs.Beginning.{begin_move, journey_to};
ghost use Rattle.handset.specs.Condition.{HandsetData};
ghost use Rattle.handset.specs.StepWrites.{due};
ghost use Rattle.handset.specs.Stands.{StandsForSteps};
ghost use Rattle.plan_laws.specs.Examples.{line_setting};
ghost use Rattle.station.specs.Handsets.{IsHandsetOf};
ghost use Rattle.station.specs.Passes.{PassData, actor_of};
ghost use Rattle.station.specs.Setup.{Setup, setting_in};
ghost use Rattle.tracker_calls.specs.Added.{HasAdded};
ghost use Rattle.tracker_calls.specs.WholeMoves.{HasMoved, after_writes};
ghost use Rattle.tracker_calls.specs.declared.whole_moves.Moved.{Moved};
ghost use Rattle.worked_examples.specs.Passes.{HasPass, count_by, line_setup};

/// The first move of the line's subscriber, to node 2: its pass has made the six puts of the move,
/// they are all of its own visits, behind those that it had made before, and its handset stands for
/// this one step. One that was known to stand for a move, a switch off and one on stands for these
/// and the move.
pub fn worked_moves()
    ensures count { (old new : PassData) (handset after : HandsetData) (moved : Moved)
        (made : HasMoved line_setup old handset 2 moved new after) → HasPass old 0 []
        → made.steps ≡ [] → length made.made ≡ 6 }
    ensures visits { (old new : PassData) (handset after : HandsetData) (moved : Moved)
        (made : HasMoved line_setup old handset 2 moved new after) → HasPass old 0 []
        → made.steps ≡ []
        → own 0 new.view.seen ≡ visits line_setting 0 (move_to 2 ∷ []) }
    ensures behind { (old new : PassData) (handset after : HandsetData) (moved : Moved)
        (made : HasMoved line_setup old handset 2 moved new after)
        → HasPass old 0 (count_by 0 0 ∷ []) → made.steps ≡ []
        → own 0 new.view.seen ≡ count_by 0 0 ∷ visits line_setting 0 (move_to 2 ∷ []) }
    ensures steps { (old new : PassData) (handset after : HandsetData) (moved : Moved)
        (made : HasMoved line_setup old handset 2 moved new after) → made.steps ≡ []
        → made.its.steps ≡ move_to 2 ∷ [] }
    ensures own_steps { (old new : PassData) (handset after : HandsetData) (moved : Moved)
        (own : IsHandsetOf line_setup old.view handset)
        → HasMoved line_setup old handset 2 moved new after
        → own.steps ≡ move_to 1 ∷ switch_off ∷ switch_on ∷ []
        → (its : IsHandsetOf line_setup new.view after)
        × (its.steps ≡ move_to 1 ∷ switch_off ∷ switch_on ∷ move_to 2 ∷ []) }
    ensures first { (old new : PassData) (handset after : HandsetData) (moved : Moved)
        (made : HasMoved line_setup old handset 2 moved new after)
        → made.made ≡ 4 ∷ 6 ∷ 7 ∷ 8 ∷ 9 ∷ 11 ∷ [] → moved.first ≡ 4 }
    ensures last { (old new : PassData) (handset after : HandsetData) (moved : Moved)
        (made : HasMoved line_setup old handset 2 moved new after)
        → made.made ≡ 4 ∷ 6 ∷ 7 ∷ 8 ∷ 9 ∷ 11 ∷ [] → moved.last ≡ 11 }
    ensures commit { (old new : PassData) (handset after : HandsetData) (moved : Moved)
        (made : HasMoved line_setup old handset 2 moved new after)
        → made.made ≡ 4 ∷ 6 ∷ 7 ∷ 8 ∷ 9 ∷ 11 ∷ []
        → (journey_to line_setting handset 2).renewed ≡ 1 → moved.commit ≡ 8 }
{}

/// A move doesn't keep its handset's number, doesn't end with a visit due, and leaves a handset
/// that goes with its pass, which still has the visits of its own that it had before.
pub fn wrong_moves()
    ensures number { (setup : Setup) (old new : PassData) (handset after : HandsetData) (to : ℕ)
        (moved : Moved) → HasMoved setup old handset to moved new after
        → moved.number ≡ handset.number → ⊥ }
    ensures due { (setup : Setup) (old new : PassData) (handset after : HandsetData) (to : ℕ)
        (moved : Moved) (visit : Visit) → HasMoved setup old handset to moved new after
        → due (setting_in setup) after ≡ Some visit → ⊥ }
    ensures after { (setup : Setup) (old new : PassData) (handset after : HandsetData) (to : ℕ)
        (moved : Moved) (made : HasMoved setup old handset to moved new after)
        → after ≡ after_writes (setting_in setup) (begin_move (setting_in setup) handset to)
        (length made.made) }
    ensures its { (setup : Setup) (old new : PassData) (handset after : HandsetData) (to : ℕ)
        (moved : Moved) → HasMoved setup old handset to moved new after
        → IsHandsetOf setup new.view after }
    ensures added { (setup : Setup) (old new : PassData) (handset after : HandsetData) (to : ℕ)
        (moved : Moved) (made : HasMoved setup old handset to moved new after)
        → HasAdded setup old made.made new }
    ensures stood { (setup : Setup) (old new : PassData) (handset after : HandsetData) (to : ℕ)
        (moved : Moved) (made : HasMoved setup old handset to moved new after)
        → StandsForSteps (setting_in setup) handset made.steps
        (length (puts_to (actor_of old) old.view.seen)) }
    ensures forgotten { (setup : Setup) (old new : PassData) (handset after : HandsetData)
        (to : ℕ) (moved : Moved) → HasMoved setup old handset to moved new after
        → HasPass old 0 (count_by 0 0 ∷ []) → own 0 new.view.seen ≡ [] → ⊥ }
{}
