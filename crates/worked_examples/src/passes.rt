//! What a fresh pass isn't, and what a pass doesn't do when it loses a turn, stays in a node, takes
//! a census or hears a note: each is wrong in one part.
ghost use Rattle.std.specs.Prelude.{◌≡◌, ◌++◌, ◌<◌, ◌≤◌, [], ◌∷◌, ℕ, List, Some, None, suc, length, slice_index};
ghost use Rattle.atomic_table.specs.Table.{State};
ghost use Rattle.directory.specs.Histories.{own};
ghost use Rattle.directory.specs.Legal.{IsLegal};
ghost use Rattle.entry_word.specs.declared.visit.Act.{Act};
ghost use Rattle.entry_word.specs.declared.visit.Act.TheVariants.{Census};
ghost use Rattle.station.specs.Moments.{AreOthersOut, GoesThrough};
ghost use Rattle.station.specs.Passes.{AreFresh, IsFreshPass, IsStayOf, NoteData, PassData, TrackerData, actor_of};
ghost use Rattle.station.specs.Rule.{IsViewOf};
ghost use Rattle.station.specs.Setup.{lock_word, Setup, nodes_in, setting_in, subs_in};
ghost use Rattle.station.specs.Turns.{events_of, lock_in};
ghost use Rattle.station.specs.Views.{turn_at};
ghost use Rattle.station.specs.Visits.{HasHeard, HasLost, HasVisited, IsCensus};
ghost use Rattle.station.specs.declared.turns.Stay.{Stay};
ghost use Rattle.station.specs.declared.view.TurnEvent.{TurnEvent};
ghost use Rattle.station.specs.declared.view.TurnEvent.TheVariants.{GivenBack, Lost, Won};
ghost use Rattle.station.specs.declared.view.View.{View};
ghost use Rattle.worked_examples.specs.Passes.{HasNote, HasPass, count_by};

use station::events_come_within_calls;

/// A fresh pass has room for no visit, has seen none, is in no node, and has logged and lost no
/// turn; and it is that of the actor at whose place it stands.
pub fn wrong_passes()
    ensures room { (tracker : TrackerData) (actor : ℕ) (pass : PassData)
        → IsFreshPass tracker actor pass → pass.spare ≡ 1 → ⊥ }
    ensures seen { (tracker : TrackerData) (actor : ℕ) (pass : PassData)
        → IsFreshPass tracker actor pass → pass.view.seen ≡ count_by 0 0 ∷ [] → ⊥ }
    ensures inside { (tracker : TrackerData) (actor : ℕ) (pass : PassData)
        → IsFreshPass tracker actor pass → pass.view.inside ≡ Some 2 → ⊥ }
    ensures turns { (tracker : TrackerData) (actor : ℕ) (pass : PassData)
        → IsFreshPass tracker actor pass → pass.view.turns ≡ Won 0 2 ∷ [] → ⊥ }
    ensures lost { (tracker : TrackerData) (actor : ℕ) (pass : PassData)
        → IsFreshPass tracker actor pass → pass.view.lost ≡ turn_at 2 6 ∷ [] → ⊥ }
    ensures order { (tracker : TrackerData) (one other : PassData)
        → AreFresh tracker (one ∷ other ∷ []) → actor_of other ≡ 0 → ⊥ }
{}

/// A turn that is lost is one at the node that was asked for, to another actor of the tracker whose
/// turn it is by the log, and the pass has it as its last lost turn; nothing else changes. A visit
/// that is made has had a turn. Nothing else of the pass's own is logged.
pub fn wrong_turns()
    ensures elsewhere { (old new : PassData)
        → HasLost old 2 (record { node = 1; by = 5 }) new → ⊥ }
    ensures own { (old new : PassData) → HasPass old 5 []
        → HasLost old 2 (record { node = 2; by = 5 }) new → ⊥ }
    ensures stranger { (old new : PassData) → HasLost old 2 (record { node = 2; by = 5 }) new
        → old.view.setup.actors ≡ 5 → ⊥ }
    ensures untold { (old : PassData) → HasLost old 2 (record { node = 2; by = 5 }) old → ⊥ }
    ensures told { (old new : PassData) → HasLost old 2 (record { node = 2; by = 5 }) new
        → new.view.lost ≡ old.view.lost ++ turn_at 2 6 ∷ [] }
    ensures spare { (old new : PassData) → HasLost old 2 (record { node = 2; by = 5 }) new
        → suc new.spare ≡ old.spare → ⊥ }
    ensures inside { (old new : PassData) → HasLost old 2 (record { node = 2; by = 5 }) new
        → old.view.inside ≡ None → new.view.inside ≡ Some 2 → ⊥ }
    ensures unlogged { (old new : PassData) → HasLost old 2 (record { node = 2; by = 5 }) new
        → new.view.turns ≡ old.view.turns → ⊥ }
    ensures visited { (old new : PassData) → HasVisited old (Census 2) 0 new
        → new.view.turns ≡ old.view.turns → ⊥ }
    ensures unheld { (old new : PassData) → HasLost old 2 (record { node = 2; by = 5 }) new
        → new.view.turns ≡ Won 5 2 ∷ GivenBack 5 2 ∷ Lost (actor_of old) 2 6 ∷ [] → ⊥ }
    ensures held { (old new : PassData) (earlier : List TurnEvent)
        → HasLost old 2 (record { node = 2; by = 5 }) new
        → new.view.turns ≡ earlier ++ Lost (actor_of old) 2 6 ∷ [] → lock_in earlier 2 ≡ 6 }
    ensures seen { (old new : PassData) → HasPass old 1 [] → HasPass new 1 (count_by 0 0 ∷ [])
        → HasLost old 2 (record { node = 2; by = 5 }) new → ⊥ }
    ensures own_lost { (old new : PassData) → HasLost old 2 (record { node = 2; by = 5 }) new
        → events_of (actor_of old) new.view.turns
        ≡ events_of (actor_of old) old.view.turns ++ Lost (actor_of old) 2 6 ∷ [] }
    ensures own_visited { (old new : PassData) → HasVisited old (Census 2) 0 new
        → events_of (actor_of old) new.view.turns ≡ events_of (actor_of old) old.view.turns
        ++ Won (actor_of old) 2 ∷ GivenBack (actor_of old) 2 ∷ [] }
{}

/// Over states in which no other actor's pass is inside node 2, or whose lock word there is 0, no
/// turn is lost there: so neither a pass that enters the node nor a visit there tells that it is
/// held.
pub fn wrong_held()
    ensures alone { (setup : Setup) (old new : PassData) (other count : ℕ)
        (states : ℕ → State Act View) → HasLost old 2 (record { node = 2; by = other }) new
        → GoesThrough setup old.seat count states
        → IsViewOf (states 0).views old.seat old.view
        → IsViewOf (states count).views old.seat new.view → 2 < nodes_in setup
        → ((step : ℕ) → step < count → AreOthersOut (states step) (actor_of old) 2) → ⊥ }
    ensures free { (setup : Setup) (old new : PassData) (other count : ℕ)
        (states : ℕ → State Act View) → HasLost old 2 (record { node = 2; by = other }) new
        → GoesThrough setup old.seat count states
        → IsViewOf (states 0).views old.seat old.view
        → IsViewOf (states count).views old.seat new.view → 2 < nodes_in setup
        → ((step : ℕ) → step < count → slice_index (states step).words (lock_word 2) ≡ 0) → ⊥ }
{
    events_come_within_calls();
}

/// A stay is its pass's own, whose pass is inside the node of the stay, one of the plan's.
pub fn wrong_stays()
    ensures outside { (stay : Stay) (pass : PassData) → pass.view.inside ≡ None
        → IsStayOf stay pass → ⊥ }
    ensures elsewhere { (stay : Stay) (pass : PassData) → pass.view.inside ≡ Some 2
        → stay.node ≡ 1 → IsStayOf stay pass → ⊥ }
    ensures other { (stay : Stay) (pass : PassData) → HasPass pass 0 [] → stay.actor ≡ 1
        → IsStayOf stay pass → ⊥ }
    ensures unknown { (stay : Stay) (pass : PassData) → HasPass pass 0 [] → stay.node ≡ 4
        → IsStayOf stay pass → ⊥ }
{}

/// The bits of a census are those of its subscribers, 0 and 2 here, and no others; and there are
/// two.
pub fn worked_bits()
    ensures { IsCensus (0 ∷ 2 ∷ []) 5 2 }
{}

/// With a bit too few or too many, or another count, it isn't so.
pub fn wrong_censuses()
    ensures missing { IsCensus (0 ∷ 2 ∷ []) 4 2 → ⊥ }
    ensures more { IsCensus (0 ∷ 2 ∷ []) 7 2 → ⊥ }
    ensures higher { IsCensus (0 ∷ 2 ∷ []) 13 2 → ⊥ }
    ensures few { IsCensus (0 ∷ 2 ∷ []) 5 1 → ⊥ }
    ensures many { IsCensus (0 ∷ 2 ∷ []) 5 3 → ⊥ }
{}

/// A pass that hears a note has seen the longer of what it had seen and what was noted, and that
/// goes on from both; its own visits, its spare, its node and its lost turns stay; and what it has
/// seen is legal for each subscriber, and has no visit of an actor that there isn't.
pub fn wrong_notes()
    ensures unheard { (old new : PassData) (note : NoteData) → HasPass old 0 []
        → HasNote note (count_by 1 0 ∷ []) → HasPass new 0 [] → HasHeard old note new → ⊥ }
    ensures forgotten { (old new : PassData) (note : NoteData)
        → HasPass old 0 (count_by 1 0 ∷ []) → HasNote note [] → HasPass new 0 []
        → HasHeard old note new → ⊥ }
    ensures beyond { (old new : PassData) (note : NoteData) → HasPass old 0 []
        → HasNote note (count_by 1 0 ∷ [])
        → HasPass new 0 (count_by 1 0 ∷ count_by 1 1 ∷ []) → HasHeard old note new → ⊥ }
    ensures other_note { (old new : PassData) (note : NoteData)
        → HasPass old 0 (count_by 0 0 ∷ []) → HasNote note (count_by 1 0 ∷ [])
        → HasHeard old note new → ⊥ }
    ensures other_past { (old new : PassData) (note : NoteData)
        → HasPass old 0 (count_by 1 0 ∷ [])
        → HasNote note (count_by 1 1 ∷ count_by 1 0 ∷ []) → HasHeard old note new → ⊥ }
    ensures own { (old new : PassData) (note : NoteData) → HasPass old 0 []
        → HasNote note (count_by 0 0 ∷ []) → HasHeard old note new → ⊥ }
    ensures unknown { (old new : PassData) (note : NoteData) → HasPass old 0 []
        → HasNote note (count_by 2 0 ∷ []) → HasHeard old note new → ⊥ }
    ensures spare { (old new : PassData) (note : NoteData) → HasHeard old note new
        → suc new.spare ≡ old.spare → ⊥ }
    ensures more_spare { (old new : PassData) (note : NoteData) → HasHeard old note new
        → new.spare ≡ suc old.spare → ⊥ }
    ensures inside { (old new : PassData) (note : NoteData) → HasHeard old note new
        → old.view.inside ≡ None → new.view.inside ≡ Some 2 → ⊥ }
    ensures lost { (old new : PassData) (note : NoteData) → HasHeard old note new
        → old.view.lost ≡ [] → new.view.lost ≡ turn_at 2 6 ∷ [] → ⊥ }
    ensures turns { (old new : PassData) (note : NoteData) → HasHeard old note new
        → new.view.turns ≡ old.view.turns }
    ensures seat { (old new : PassData) (note : NoteData) → HasHeard old note new
        → new.seat ≡ suc old.seat → ⊥ }
    ensures actor { (old new : PassData) (note : NoteData) → HasHeard old note new
        → HasPass old 0 [] → HasPass new 1 [] → ⊥ }
    ensures table { (old new : PassData) (note : NoteData) → HasHeard old note new
        → new.table ≡ old.table }
    ensures setup { (old new : PassData) (note : NoteData) → HasHeard old note new
        → new.view.setup ≡ old.view.setup }
    ensures known { (old new : PassData) (note : NoteData) (actor : ℕ) → HasHeard old note new
        → old.view.setup.actors ≤ actor → own actor new.view.seen ≡ [] }
    ensures legal { (old new : PassData) (note : NoteData) (sub : ℕ) → HasHeard old note new
        → sub < subs_in old.view.setup
        → IsLegal (setting_in old.view.setup) sub new.view.seen }
{}
