//! When an event of a turn comes: what the locks are just before the step that brings it.
ghost use Rattle.std.specs.Prelude.{◌≡◌, ◌≢◌, ◌<◌, ◌==◌, ℕ, List, Some, slice_index, slice_set, true};
ghost use Rattle.atomic_table.specs.Table.{Me, State};
ghost use Rattle.entry_word.specs.declared.visit.Act.{Act};
ghost use Rattle.station.specs.Moments.{ComesAt, EventsComeNow, GoesThrough, IsMoment, IsStepBeside, IsStepOf, LostTurnsAreRead};
ghost use Rattle.station.specs.Rule.{IsViewOf, KeepsRule};
ghost use Rattle.station.specs.Setup.{Setup, lock_word, nodes_in};
ghost use Rattle.station.specs.declared.view.TurnEvent.{TurnEvent};
ghost use Rattle.station.specs.declared.view.TurnEvent.TheVariants.{Lost, Won};
ghost use Rattle.station.specs.declared.view.View.{View};
ghost use Rattle.worked_examples.specs.Moments.{Brings, IsToldLost, one_step};

/// Just before the step at which actor 0 loses a turn at node 2 to actor 5, the lock word there is
/// 6, and the pass of actor 5 is inside; just before it wins one the word is 0. A moment at which a
/// turn is lost has such a word and such a pass, another actor's, and an event that comes at a step
/// has its moment just before it. A step that loses a turn is one of the pass's own, whatever step
/// changes another pass's view is one of others, and each is a call of one step.
pub fn told_moments()
    ensures word { EventsComeNow → (setup : Setup) (old new : State Act View)
        → Brings setup old new (Lost 0 2 6) → 2 < nodes_in setup
        → slice_index old.words (lock_word 2) ≡ 6 }
    ensures holder { EventsComeNow → (setup : Setup) (old new : State Act View)
        → Brings setup old new (Lost 0 2 6) → 2 < nodes_in setup
        → ((seat : ℕ) (view : View) → IsViewOf old.views seat view → view.inside ≡ Some 2
        → view.low ≡ 5 → ⊥) → ⊥ }
    ensures free { EventsComeNow → (setup : Setup) (old new : State Act View)
        → Brings setup old new (Won 0 2) → 2 < nodes_in setup
        → slice_index old.words (lock_word 2) ≡ 0 }
    ensures lost_free { (setup : Setup) (state : State Act View) → 2 < nodes_in setup
        → slice_index state.words (lock_word 2) ≡ 0 → IsMoment setup state (Lost 0 2 6) → ⊥ }
    ensures lost_alone { (setup : Setup) (state : State Act View) → 2 < nodes_in setup
        → ((seat : ℕ) (view : View) → IsViewOf state.views seat view → view.inside ≡ Some 2
        → view.low ≡ 5 → ⊥) → IsMoment setup state (Lost 0 2 6) → ⊥ }
    ensures lost_own { (setup : Setup) (state : State Act View) → 2 < nodes_in setup
        → IsMoment setup state (Lost 0 2 1) → ⊥ }
    ensures moment { (setup : Setup) (seat : ℕ) (old new : State Act View)
        (earlier : List TurnEvent) (event : TurnEvent)
        → ComesAt setup seat earlier event old new → IsMoment setup old event }
    ensures own { (setup : Setup) (old new : State Act View)
        → Brings setup old new (Lost 0 2 6) → IsStepOf 1 old new }
    ensures others { (seat other : ℕ) (view : View) (old new : State Act View) → seat ≢ other
        → new.views ≡ slice_set old.views other view → IsStepBeside seat old new }
    ensures step { (setup : Setup) (seat : ℕ) (old new : State Act View) → KeepsRule setup old
        → KeepsRule setup new → IsStepOf seat old new
        → GoesThrough setup seat 1 (one_step old new) }
    ensures beside { (setup : Setup) (seat : ℕ) (old new : State Act View)
        → KeepsRule setup old → KeepsRule setup new → IsStepBeside seat old new
        → GoesThrough setup seat 1 (one_step old new) }
{}

/// No step may tell that actor 4 has lost a turn at node 2 to actor 0, whatever it reads or writes,
/// where the lock word is that of actor 5, or where it is free; nor one that finds the lock free
/// and tells so then alone. None may tell that it was lost to nobody, or to itself.
pub fn wrong_losses()
    ensures anothers { LostTurnsAreRead → (setup : Setup) (place : ℕ) (change : ℕ → ℕ)
        (before : Me Act View) (state : State Act View)
        → IsToldLost setup place change (λ found. true) 1 before state
        → slice_index state.words (lock_word 2) ≡ 6 → ⊥ }
    ensures free { LostTurnsAreRead → (setup : Setup) (place : ℕ) (change : ℕ → ℕ)
        (before : Me Act View) (state : State Act View)
        → IsToldLost setup place change (λ found. true) 1 before state
        → slice_index state.words (lock_word 2) ≡ 0 → ⊥ }
    ensures found_free { LostTurnsAreRead → (setup : Setup) (change : ℕ → ℕ)
        (before : Me Act View) (state : State Act View)
        → IsToldLost setup (lock_word 2) change (λ found. found == 0) 1 before state
        → slice_index state.words (lock_word 2) ≡ 0 → ⊥ }
    ensures nobody { LostTurnsAreRead → (setup : Setup) (place : ℕ) (change : ℕ → ℕ)
        (before : Me Act View) (state : State Act View)
        → IsToldLost setup place change (λ found. true) 0 before state → ⊥ }
    ensures own { LostTurnsAreRead → (setup : Setup) (place : ℕ) (change : ℕ → ℕ)
        (before : Me Act View) (state : State Act View)
        → IsToldLost setup place change (λ found. true) 5 before state → ⊥ }
{}
