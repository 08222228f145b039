//! What the rule of a tracker says of the view of a pass, told by number; and logs of turns and
//! views that it refuses, each wrong in one part.
ghost use Rattle.std.specs.Prelude.{◌≡◌, ◌-◌, ◌<◌, ◌≤◌, [], ◌∷◌, ℕ, List, Some, length, slice_get, slice_index, suc, take, true};
ghost use Rattle.atomic_table.specs.Table.{State};
ghost use Rattle.directory.specs.Census.{census};
ghost use Rattle.directory.specs.Histories.{History, cell, changes_here};
ghost use Rattle.directory.specs.Keys.{act_node};
ghost use Rattle.entry_word.specs.declared.visit.Act.{Act};
ghost use Rattle.entry_word.specs.declared.visit.Act.TheVariants.{Put};
ghost use Rattle.entry_word.specs.declared.visit.Key.{Key};
ghost use Rattle.station.specs.Moments.{ComesAt, HasLocks, IsLoggedAt, IsMoment};
ghost use Rattle.station.specs.Plays.{IsWitnessed, visit_by};
ghost use Rattle.station.specs.Rule.{IsViewOf, KeepsRule};
ghost use Rattle.station.specs.Setup.{Setup, lock_word, nodes_in, setting_in};
ghost use Rattle.station.specs.Turns.{HasLogged, IsLog, events_of, lock_in};
ghost use Rattle.station.specs.Views.{HasDrawn, IsInsideNode, IsSoundView, turn_at};
ghost use Rattle.station.specs.declared.view.TurnEvent.{TurnEvent};
ghost use Rattle.station.specs.declared.view.TurnEvent.TheVariants.{GivenBack, Lost, Won};
ghost use Rattle.station.specs.declared.view.View.{View};
ghost use Rattle.worked_examples.specs.Passes.{count_by, line_setup};

/// A ticket that a pass inside a node has drawn is that of its own visit there, of the act that it
/// means to do, and no later visit is there. What it hasn't written is what that act puts, and it
/// owes the tally only if the act changes it. The word and the tally that it keeps as those before
/// are what the visits before its ticket leave.
pub fn told_tickets()
    ensures own { (setup : Setup) (history : History) (view : View) (node : ℕ)
        → HasDrawn setup history view node → (act : Act) × (view.intended ≡ Some act)
        × (act_node (setting_in setup) act ≡ node)
        × (slice_get history (view.visit_count - 1) ≡ Some (visit_by view act)) }
    ensures unwritten { (setup : Setup) (history : History) (view : View) (node : ℕ) (key : Key)
        → HasDrawn setup history view node → view.unwritten ≡ Some key
        → (word : ℕ) × (view.intended ≡ Some (Put key word)) }
    ensures moves { (setup : Setup) (history : History) (view : View) (node : ℕ) (act : Act)
        → HasDrawn setup history view node → view.owes ≡ true → view.intended ≡ Some act
        → changes_here (setting_in setup) (take (view.visit_count - 1) history) act ≡ true }
    ensures word { (setup : Setup) (history : History) (view : View) (node : ℕ) (key : Key)
        → HasDrawn setup history view node → view.unwritten ≡ Some key
        → view.before
        ≡ cell (setting_in setup) (take (view.visit_count - 1) history) key }
    ensures tally { (setup : Setup) (history : History) (view : View) (node : ℕ)
        → HasDrawn setup history view node → view.owes ≡ true
        → view.tally
        ≡ length (census (setting_in setup) (take (view.visit_count - 1) history) node) }
    ensures later { (view : View) → view.visit_count ≡ 1
        → HasDrawn line_setup (count_by 0 1 ∷ count_by 1 1 ∷ []) view 1 → ⊥ }
    ensures owed { (setup : Setup) (words : List ℕ) (history : History) (view : View) (node : ℕ)
        → IsInsideNode setup words history view node → view.owes ≡ true
        → view.has_drawn ≡ true }
{}

/// A turn is won where it is nobody's, lost where it is another's, and given back where it is the
/// actor's own.
pub fn wrong_logs()
    ensures free { IsLog (Lost 0 2 6 ∷ []) → ⊥ }
    ensures given_back { IsLog (Won 5 2 ∷ GivenBack 5 2 ∷ Lost 0 2 6 ∷ []) → ⊥ }
    ensures elsewhere { IsLog (Won 5 1 ∷ Lost 0 2 6 ∷ []) → ⊥ }
    ensures other { IsLog (Won 4 2 ∷ Lost 0 2 6 ∷ []) → ⊥ }
    ensures nobody { IsLog (Lost 0 2 0 ∷ []) → ⊥ }
    ensures own { IsLog (Won 0 2 ∷ Lost 0 2 1 ∷ []) → ⊥ }
    ensures twice { IsLog (Won 0 2 ∷ Won 1 2 ∷ []) → ⊥ }
    ensures not_its_own { IsLog (Won 0 2 ∷ GivenBack 1 2 ∷ []) → ⊥ }
{}

/// A pass has lost no turn of its own, and just those that it has logged as lost; all its events
/// are in what it has logged; and the lock words are as the log leaves them. A view that is
/// witnessed is one of a state that keeps the rule.
pub fn wrong_views()
    ensures own { (setup : Setup) (words : List ℕ) (history : History) (owner : ℕ → ℕ) (seat : ℕ)
        (view : View) → view.low ≡ 5 → view.high ≡ 6 → view.lost ≡ turn_at 2 6 ∷ []
        → IsSoundView setup words history owner seat view → ⊥ }
    ensures unlogged { (view : View) → view.low ≡ 0 → view.high ≡ 1
        → view.lost ≡ turn_at 2 6 ∷ [] → HasLogged [] view → ⊥ }
    ensures untold { (view : View) → view.low ≡ 0 → view.high ≡ 1 → view.turns ≡ Won 5 2 ∷ []
        → HasLogged (Won 5 2 ∷ Lost 0 2 6 ∷ []) view → ⊥ }
    ensures again { (view : View) → view.low ≡ 0 → view.high ≡ 1
        → view.turns ≡ Won 5 2 ∷ Lost 0 2 6 ∷ [] → view.lost ≡ turn_at 2 6 ∷ turn_at 2 6 ∷ []
        → HasLogged (Won 5 2 ∷ Lost 0 2 6 ∷ []) view → ⊥ }
    ensures locked { (setup : Setup) (state : State Act View) (rule : KeepsRule setup state)
        (node : ℕ) → node < nodes_in setup
        → slice_index state.words (lock_word node) ≡ lock_in rule.turns node }
    ensures strangers { (setup : Setup) (state : State Act View) (rule : KeepsRule setup state)
        (actor : ℕ) → setup.actors ≤ actor → events_of actor rule.turns ≡ [] }
    ensures witnessed { (view : View) (seen : IsWitnessed view)
        → KeepsRule view.setup seen.state }
    ensures seat { (view : View) (seen : IsWitnessed view)
        → IsViewOf seen.state.views seen.seat view }
{}

/// No other pass is inside a node just before a turn there is won or given back. A log in which a
/// turn is won leaves the lock word of its actor, whose pass is inside. An event comes at a step
/// before which the view hadn't logged it, and behind which it has.
pub fn wrong_moments()
    ensures won { (setup : Setup) (state : State Act View) (seat : ℕ) (view : View)
        → IsMoment setup state (Won 0 2) → IsViewOf state.views seat view
        → view.inside ≡ Some 2 → view.low ≡ 5 → ⊥ }
    ensures given_back { (setup : Setup) (state : State Act View) (seat : ℕ) (view : View)
        → IsMoment setup state (GivenBack 0 2) → IsViewOf state.views seat view
        → view.inside ≡ Some 2 → view.low ≡ 5 → ⊥ }
    ensures locked { (setup : Setup) (state : State Act View)
        → HasLocks setup state (Won 5 2 ∷ []) → 2 < nodes_in setup
        → slice_index state.words (lock_word 2) ≡ 6 }
    ensures held { (setup : Setup) (state : State Act View)
        → HasLocks setup state (Won 5 2 ∷ []) → 2 < nodes_in setup
        → (seat : ℕ) × (view : View) × IsViewOf state.views seat view
        × (view.inside ≡ Some 2) × (view.low ≡ 5) }
    ensures absent { (setup : Setup) (seat : ℕ) (event : TurnEvent) (old new : State Act View)
        (comes : ComesAt setup seat [] event old new)
        → comes.own.before.turns ≡ event ∷ [] → ⊥ }
    ensures there { (setup : Setup) (seat : ℕ) (earlier : List TurnEvent) (event : TurnEvent)
        (old new : State Act View) (comes : ComesAt setup seat earlier event old new)
        → IsLoggedAt earlier event comes.own.after.turns }
{}
