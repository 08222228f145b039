//! What whole finds over a tracker, and steps of moves, don't do, whether they end well or not:
//! each is wrong in one part.
ghost use Rattle.std.specs.Prelude.{◌≡◌, ◌<◌, ◌≤◌, ◌+◌, ◌++◌, [], ◌∷◌, ℕ, List, Some, None, flat_map, suc, slice_get};
ghost use Rattle.atomic_table.specs.Table.{State};
ghost use Rattle.busy_finds.specs.Examples.{meeting_history};
ghost use Rattle.busy_finds.specs.Plans.{distance_at};
ghost use Rattle.busy_finds.specs.Prices.{gathered_within};
ghost use Rattle.directory.specs.Courses.{move_to};
ghost use Rattle.directory.specs.Finds.{FindCall, found_weight};
ghost use Rattle.directory.specs.Histories.{History, before, through};
ghost use Rattle.directory.specs.Legal.{IsLegal};
ghost use Rattle.directory.specs.Looks.{IsQuiet, first_of, last_of};
ghost use Rattle.directory.specs.Standing.{number, passage};
ghost use Rattle.directory.specs.Writes.{visits};
ghost use Rattle.directory.specs.declared.answers.Found.{Found};
ghost use Rattle.directory.specs.declared.answers.Found.TheVariants.{At, Off as OffAt, Again};
ghost use Rattle.directory.specs.declared.answers.Why.TheVariants.{NoEntry};
ghost use Rattle.entry_word.specs.declared.visit.Act.{Act};
ghost use Rattle.handset.specs.Condition.{HandsetData};
ghost use Rattle.handset.specs.StepWrites.{due};
ghost use Rattle.handset.specs.declared.stage.Stage.TheVariants.{Coming};
ghost use Rattle.plan_laws.specs.Examples.{line_of_four, line_setting};
ghost use Rattle.region_plan.specs.Matched.{BoundsFinds};
ghost use Rattle.station.specs.Moments.{AreOthersOut, GoesThrough};
ghost use Rattle.station.specs.Passes.{PassData, actor_of};
ghost use Rattle.station.specs.Rule.{IsViewOf};
ghost use Rattle.station.specs.Setup.{Setup, nodes_in, setting_in, subs_in};
ghost use Rattle.station.specs.Turns.{LogsAll};
ghost use Rattle.station.specs.Views.{turn_at};
ghost use Rattle.station.specs.declared.turns.Held.{Held};
ghost use Rattle.station.specs.declared.view.TurnEvent.TheVariants.{Won, GivenBack, Lost};
ghost use Rattle.station.specs.declared.view.View.{View};
ghost use Rattle.station.specs.Visits.{own_nodes};
ghost use Rattle.stretch_laws.specs.Plans.{bound_of, IsWithinBound};
ghost use Rattle.tracker_calls.specs.Added.{HasAdded, KeepsHandsets, VisitTurns, turns_taken};
ghost use Rattle.tracker_calls.specs.RightAnswers.{TellsRightly};
ghost use Rattle.tracker_calls.specs.Finds.{HasFound, HasStopped};
ghost use Rattle.tracker_calls.specs.Moves.{HasStepped};
ghost use Rattle.trail_laws.specs.Rightness.{IsAnswered, IsRight};
ghost use Rattle.worked_examples.specs.Examples.{find_from};
ghost use Rattle.worked_examples.specs.Passes.{HasPass, count_by, line_setup};

use station::events_come_within_calls;

/// Answers of a find from node 2 whose subscriber rests at node 3: of another node, number or
/// state; none at all; or older than what the pass had seen. Each answer is right at the find's last
/// look, and each quiet find has one.
pub fn wrong_answers()
    ensures node { (old : PassData) → TellsRightly line_setup old (find_from 2)
        (At 2 0 (Some 0) 5) (0 ∷ []) [] → ⊥ }
    ensures number { (old : PassData) → TellsRightly line_setup old (find_from 2)
        (At 3 1 (Some 0) 5) (0 ∷ []) [] → ⊥ }
    ensures off { (old : PassData) → TellsRightly line_setup old (find_from 2)
        (OffAt 3 0 (Some 0) 5) (0 ∷ []) [] → ⊥ }
    ensures again { (setup : Setup) (old : PassData) (call : FindCall)
        → TellsRightly setup old call (Again NoEntry 4) (0 ∷ []) [] → ⊥ }
    ensures right { (setup : Setup) (old : PassData) (call : FindCall) (found : Found)
        (made : List ℕ) (seen : History) → TellsRightly setup old call found made seen
        → IsRight (setting_in setup) seen call.sub found (last_of made) }
    ensures quiet { (setup : Setup) (old : PassData) (call : FindCall) (found : Found)
        (made : List ℕ) (seen : History) → TellsRightly setup old call found made seen
        → IsQuiet seen call.sub (first_of made) (last_of made) → IsAnswered found }
    ensures older { (setup : Setup) (old : PassData) (call : FindCall) (made : List ℕ)
        (seen : History) → number call.sub old.view.seen ≡ 1
        → TellsRightly setup old call (At 3 0 None 0) made seen → ⊥ }
    ensures older_off { (setup : Setup) (old : PassData) (call : FindCall) (made : List ℕ)
        (seen : History) → number call.sub old.view.seen ≡ 1
        → TellsRightly setup old call (OffAt 3 0 None 0) made seen → ⊥ }
{}

/// What a find weighs: a quiet one from node 2 at most 144 times its distance of 1, and while its
/// subscriber has come there and hasn't confirmed it, at most twice the passage of 1; that is told
/// at its first look and at its last. One from node 0 within which the subscriber moves from node 3
/// to node 2 weighs at most 144 times 3: its distance is 2 at its last look, and the move gathered
/// 1. Told so at each of its tickets, this holds of every find.
pub fn wrong_weights()
    ensures far { IsWithinBound line_of_four (3 ∷ []) (find_from 2) (At 3 0 (Some 0) 145) [] → ⊥ }
    ensures passing { IsWithinBound line_of_four (3 ∷ []) (find_from 2) (At 2 1 None 3)
        (before 4 (visits line_setting 0 (move_to 2 ∷ []))) → ⊥ }
    ensures near_first { (setup : Setup) (old : PassData) (call : FindCall) (found : Found)
        (made : List ℕ) (seen : History) → TellsRightly setup old call found made seen
        → BoundsFinds setup.plan → IsQuiet seen call.sub (first_of made) (last_of made)
        → IsWithinBound setup.plan setup.homes call found (before (first_of made) seen) }
    ensures near_last { (setup : Setup) (old : PassData) (call : FindCall) (found : Found)
        (made : List ℕ) (seen : History) → TellsRightly setup old call found made seen
        → BoundsFinds setup.plan → IsQuiet seen call.sub (first_of made) (last_of made)
        → IsWithinBound setup.plan setup.homes call found (through (last_of made) seen) }
    ensures busy { BoundsFinds line_of_four → (old : PassData)
        → TellsRightly line_setup old (find_from 0) (At 2 1 (Some 1) 433)
        (0 ∷ 1 ∷ 6 ∷ 7 ∷ 8 ∷ 9 ∷ []) meeting_history → ⊥ }
    ensures priced { (setup : Setup) (old : PassData) (call : FindCall) (found : Found)
        (made : List ℕ) (seen : History) (ticket : ℕ)
        → TellsRightly setup old call found made seen → BoundsFinds setup.plan
        → first_of made ≤ ticket → ticket ≤ last_of made
        → found_weight found ≤ bound_of setup.plan
        (distance_at setup.plan setup.homes call seen ticket
        + gathered_within (setting_in setup) call.sub seen (first_of made) (last_of made))
        (passage (setting_in setup) call.sub (before (first_of made) seen)) }
{}

/// A call that made a visit with ticket 4: it has used one of its spare, and is in no node; what it
/// has seen is legal; and it has logged the turns of one visit, at that visit's node, and lost just
/// those that they tell. A call that made none has logged none.
pub fn wrong_additions()
    ensures spare { (setup : Setup) (old new : PassData) → HasAdded setup old (4 ∷ []) new
        → new.spare ≡ old.spare → ⊥ }
    ensures inside { (setup : Setup) (old new : PassData) → HasAdded setup old (4 ∷ []) new
        → new.view.inside ≡ Some 1 → ⊥ }
    ensures unseen { (setup : Setup) (old new : PassData) → HasPass old 1 [] → HasPass new 1 []
        → HasAdded setup old (4 ∷ []) new → ⊥ }
    ensures another { (setup : Setup) (old new : PassData) → HasPass old 1 []
        → HasPass new 1 (count_by 1 0 ∷ []) → HasAdded setup old (4 ∷ []) new → ⊥ }
    ensures forgotten { (setup : Setup) (old new : PassData) → HasPass old 1 (count_by 0 0 ∷ [])
        → HasPass new 1 [] → HasAdded setup old [] new → ⊥ }
    ensures won_back { (setup : Setup) (old new : PassData) → HasAdded setup old (4 ∷ []) new
        → old.view.lost ≡ turn_at 2 6 ∷ [] → new.view.lost ≡ [] → ⊥ }
    ensures actor { (setup : Setup) (old new : PassData) → HasAdded setup old [] new
        → HasPass old 0 [] → HasPass new 1 [] → ⊥ }
    ensures legal { (setup : Setup) (old new : PassData) (sub : ℕ)
        → HasAdded setup old (4 ∷ []) new → sub < subs_in setup
        → IsLegal (setting_in setup) sub new.view.seen }
    ensures more_spare { (setup : Setup) (old new : PassData) → HasAdded setup old (4 ∷ []) new
        → new.spare + 2 ≡ old.spare → ⊥ }
    ensures unwon { (setup : Setup) (old new : PassData)
        (added : HasAdded setup old (4 ∷ []) new) → added.turns ≡ [] → ⊥ }
    ensures won_twice { (setup : Setup) (old new : PassData) (one two : VisitTurns)
        (added : HasAdded setup old (4 ∷ []) new) → added.turns ≡ one ∷ two ∷ [] → ⊥ }
    ensures elsewhere { (setup : Setup) (old new : PassData) (words : List ℕ)
        (added : HasAdded setup old (4 ∷ []) new)
        → own_nodes (setting_in setup) (actor_of old) old.view.seen ≡ []
        → own_nodes (setting_in setup) (actor_of old) new.view.seen ≡ 2 ∷ []
        → added.turns ≡ record { node = 1; words = words } ∷ [] → ⊥ }
    ensures lost { (setup : Setup) (old new : PassData) (added : HasAdded setup old (4 ∷ []) new)
        → added.turns ≡ record { node = 2; words = 6 ∷ [] } ∷ []
        → new.view.lost ≡ old.view.lost ++ turn_at 2 6 ∷ [] }
    ensures taken { turns_taken 0 (record { node = 2; words = 6 ∷ [] })
        ≡ Lost 0 2 6 ∷ Won 0 2 ∷ GivenBack 0 2 ∷ [] }
    ensures logs { (setup : Setup) (old new : PassData) (added : HasAdded setup old (4 ∷ []) new)
        → LogsAll old.view.turns (flat_map (turns_taken (actor_of old)) added.turns)
        new.view.turns }
    ensures unlogged { (setup : Setup) (old new : PassData) → HasAdded setup old [] new
        → new.view.turns ≡ old.view.turns }
{}

/// A find that lost a turn has it as its last lost turn, at the node of its next look and to
/// another actor; what it did before were its looks. Just before one of its steps another pass was
/// inside that node.
pub fn wrong_stops()
    ensures told { (setup : Setup) (old new : PassData) (call : FindCall)
        → HasStopped setup old call (record { node = 2; by = 5 }) new
        → new.view.lost ≡ old.view.lost ++ turn_at 2 6 ∷ [] }
    ensures elsewhere { (old new : PassData)
        (stopped : HasStopped line_setup old (find_from 2) (record { node = 1; by = 0 }) new)
        → stopped.made ≡ [] → ⊥ }
    ensures own { (setup : Setup) (old new : PassData) (call : FindCall) → HasPass old 5 []
        → HasStopped setup old call (record { node = 2; by = 5 }) new → ⊥ }
    ensures spare { (setup : Setup) (old new : PassData) (call : FindCall) (held : Held)
        → HasStopped setup old call held new → new.spare ≡ suc old.spare → ⊥ }
    ensures no_look { (setup : Setup) (old new : PassData) (call : FindCall) (held : Held)
        (stopped : HasStopped setup old call held new) → stopped.made ≡ 4 ∷ []
        → slice_get stopped.between.view.seen 4 ≡ Some (count_by 1 0) → ⊥ }
    ensures keeps { (setup : Setup) (old new : PassData) (call : FindCall) (held : Held)
        (stopped : HasStopped setup old call held new)
        → KeepsHandsets setup old stopped.between }
    ensures alone { (setup : Setup) (old new : PassData) (call : FindCall) (count : ℕ)
        (states : ℕ → State Act View)
        → HasStopped setup old call (record { node = 2; by = 5 }) new
        → GoesThrough setup old.seat count states
        → IsViewOf (states 0).views old.seat old.view
        → IsViewOf (states count).views old.seat new.view → 2 < nodes_in setup
        → ((step : ℕ) → step < count → AreOthersOut (states step) (actor_of old) 2) → ⊥ }
{
    events_come_within_calls();
}

/// A find that has its answer has used as many visits as it made looks, is in no node, and each of
/// its tickets is that of a look; it tells of them rightly, and keeps what handsets stand for.
pub fn wrong_finds()
    ensures spare { (setup : Setup) (old new : PassData) (call : FindCall) (found : Found)
        → HasFound setup old call found new → new.spare ≡ suc old.spare → ⊥ }
    ensures inside { (setup : Setup) (old new : PassData) (call : FindCall) (found : Found)
        → HasFound setup old call found new → new.view.inside ≡ Some 1 → ⊥ }
    ensures answer { (old new : PassData)
        (has : HasFound line_setup old (find_from 2) (At 2 0 (Some 0) 5) new)
        → has.made ≡ 0 ∷ [] → new.view.seen ≡ [] → ⊥ }
    ensures no_look { (setup : Setup) (old new : PassData) (call : FindCall) (found : Found)
        (has : HasFound setup old call found new) → has.made ≡ 4 ∷ []
        → slice_get new.view.seen 4 ≡ Some (count_by 1 0) → ⊥ }
    ensures tells { (setup : Setup) (old new : PassData) (call : FindCall) (found : Found)
        (has : HasFound setup old call found new)
        → TellsRightly setup old call found has.made new.view.seen }
    ensures keeps { (setup : Setup) (old new : PassData) (call : FindCall) (found : Found)
        → HasFound setup old call found new → KeepsHandsets setup old new }
{}

/// A step of a move that was made is the handset's next visit, has used one of the pass's spare, is
/// in no node, and the handset goes on.
pub fn wrong_steps()
    ensures at_rest { (setup : Setup) (old new : PassData) (handset moved : HandsetData)
        (ticket : ℕ) → HasStepped setup old handset ticket new moved
        → due (setting_in setup) handset ≡ None → ⊥ }
    ensures no_room { (setup : Setup) (old new : PassData) (handset moved : HandsetData)
        (ticket : ℕ) → HasStepped setup old handset ticket new moved → old.spare ≡ 0 → ⊥ }
    ensures unspent { (setup : Setup) (old new : PassData) (handset moved : HandsetData)
        (ticket : ℕ) → HasStepped setup old handset ticket new moved → new.spare ≡ old.spare → ⊥ }
    ensures inside { (setup : Setup) (old new : PassData) (handset moved : HandsetData)
        (ticket : ℕ) → HasStepped setup old handset ticket new moved
        → new.view.inside ≡ Some 1 → ⊥ }
    ensures stays { (setup : Setup) (old new : PassData) (handset moved : HandsetData)
        (ticket : ℕ) → HasStepped setup old handset ticket new moved → handset.stage ≡ Coming
        → moved.stage ≡ Coming → ⊥ }
{}
