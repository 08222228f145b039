//! What puts, notes, visits and whole calls leave of a handset: it goes on with its pass.
ghost use Rattle.std.specs.Prelude.{◌≡◌, ◌++◌, [], ◌∷◌, ℕ, List, None, true};
ghost use Rattle.directory.specs.Courses.{Step, move_to, switch_off, switch_on};
ghost use Rattle.directory.specs.Finds.{FindCall};
ghost use Rattle.directory.specs.Histories.{puts_to};
ghost use Rattle.directory.specs.declared.answers.Found.{Found};
ghost use Rattle.entry_word.specs.declared.visit.Act.TheVariants.{Census, Look};
ghost use Rattle.entry_word.specs.declared.visit.Key.{Key};
ghost use Rattle.entry_word.specs.declared.visit.Visit.{Visit};
ghost use Rattle.handset.specs.Beginning.{begin_move, move_fault, switch_fault};
ghost use Rattle.handset.specs.Condition.{GoesWith, HandsetData};
ghost use Rattle.handset.specs.Stands.{StandsForSteps};
ghost use Rattle.handset.specs.declared.stage.Stage.TheVariants.{Switching};
ghost use Rattle.station.specs.Handsets.{HandsetGoesOn, IsHandsetOf};
ghost use Rattle.station.specs.Passes.{NoteData, PassData};
ghost use Rattle.station.specs.Plays.{view_inside, view_outside};
ghost use Rattle.station.specs.Setup.{Setup, setting_in};
ghost use Rattle.station.specs.Visits.{HasHeard, HasLost, HasVisited};
ghost use Rattle.station.specs.declared.turns.Held.{Held};
ghost use Rattle.station.specs.declared.view.TurnEvent.{TurnEvent};
ghost use Rattle.station.specs.declared.view.View.{View};
ghost use Rattle.tracker_calls.specs.Finds.{HasFound, HasStopped, IsFindFault};
ghost use Rattle.tracker_calls.specs.declared.finds.FindFault.{FindFault};

/// A put keeps the steps that its handset stood for, and is the last one of its subscriber that the
/// pass has seen. A note, a look, a census, a lost turn, a node that is entered and left, and a
/// find, answered or held, leave the handset with its pass, and with its one step. So does a move
/// or a switch that it begins, and stands then behind its steps.
pub fn told_handsets()
    ensures steps { (setup : Setup) (old new : View) (moved : HandsetData) (steps : List Step)
        (put : Visit) (on : HandsetGoesOn setup old new moved steps put) → on.own.steps ≡ steps }
    ensures puts { (setup : Setup) (old new : View) (moved : HandsetData) (steps : List Step)
        (put : Visit) → HandsetGoesOn setup old new moved steps put
        → puts_to new.low new.seen ≡ puts_to old.low old.seen ++ put ∷ [] }
    ensures heard { (old new : PassData) (note : NoteData) (handset : HandsetData)
        (its : IsHandsetOf old.view.setup old.view handset) → HasHeard old note new
        → its.steps ≡ move_to 2 ∷ [] → (next : IsHandsetOf old.view.setup new.view handset)
        × (next.steps ≡ move_to 2 ∷ []) }
    ensures looked { (old new : PassData) (key : Key) (ticket : ℕ) (handset : HandsetData)
        (its : IsHandsetOf old.view.setup old.view handset) → HasVisited old (Look key) ticket new
        → its.steps ≡ move_to 2 ∷ [] → (next : IsHandsetOf old.view.setup new.view handset)
        × (next.steps ≡ move_to 2 ∷ []) }
    ensures counted { (old new : PassData) (node ticket : ℕ) (handset : HandsetData)
        (its : IsHandsetOf old.view.setup old.view handset)
        → HasVisited old (Census node) ticket new
        → its.steps ≡ move_to 2 ∷ [] → (next : IsHandsetOf old.view.setup new.view handset)
        × (next.steps ≡ move_to 2 ∷ []) }
    ensures held { (old new : PassData) (place : ℕ) (held : Held) (handset : HandsetData)
        (its : IsHandsetOf old.view.setup old.view handset) → HasLost old place held new
        → its.steps ≡ move_to 2 ∷ [] → (next : IsHandsetOf old.view.setup new.view handset)
        × (next.steps ≡ move_to 2 ∷ []) }
    ensures entered { (setup : Setup) (old : View) (node : ℕ) (log : List TurnEvent)
        (handset : HandsetData) (its : IsHandsetOf setup old handset)
        → its.steps ≡ move_to 2 ∷ []
        → (next : IsHandsetOf setup (view_inside old node (Census node) log) handset)
        × (next.steps ≡ move_to 2 ∷ []) }
    ensures left { (setup : Setup) (old : View) (log : List TurnEvent) (handset : HandsetData)
        (its : IsHandsetOf setup old handset) → its.steps ≡ move_to 2 ∷ []
        → (next : IsHandsetOf setup (view_outside old log) handset)
        × (next.steps ≡ move_to 2 ∷ []) }
    ensures found { (setup : Setup) (old new : PassData) (call : FindCall) (found : Found)
        (handset : HandsetData) (its : IsHandsetOf setup old.view handset)
        → HasFound setup old call found new → its.steps ≡ move_to 2 ∷ []
        → (next : IsHandsetOf setup new.view handset) × (next.steps ≡ move_to 2 ∷ []) }
    ensures stopped { (setup : Setup) (old new : PassData) (call : FindCall) (held : Held)
        (handset : HandsetData) (its : IsHandsetOf setup old.view handset)
        → HasStopped setup old call held new → its.steps ≡ move_to 2 ∷ []
        → (next : IsHandsetOf setup new.view handset) × (next.steps ≡ move_to 2 ∷ []) }
    ensures unfound { (setup : Setup) (old new : PassData) (call : FindCall) (fault : FindFault)
        (handset : HandsetData) (its : IsHandsetOf setup old.view handset)
        → IsFindFault setup old call fault new → its.steps ≡ move_to 2 ∷ []
        → (next : IsHandsetOf setup new.view handset) × (next.steps ≡ move_to 2 ∷ []) }
    ensures begun { (setup : Setup) (view : View) (handset begun : HandsetData)
        (its : IsHandsetOf setup view handset) → its.steps ≡ switch_off ∷ switch_on ∷ []
        → move_fault setup.plan handset 2 ≡ None
        → begun ≡ begin_move (setting_in setup) handset 2 → GoesWith setup.plan begun
        → ((steps : List Step) (made : ℕ) → StandsForSteps (setting_in setup) handset steps made
        → StandsForSteps (setting_in setup) begun (steps ++ move_to 2 ∷ []) made)
        → (next : IsHandsetOf setup view begun)
        × (next.steps ≡ switch_off ∷ switch_on ∷ move_to 2 ∷ []) }
    ensures switched { (setup : Setup) (view : View) (handset switched : HandsetData)
        (its : IsHandsetOf setup view handset) → its.steps ≡ move_to 2 ∷ []
        → switch_fault handset true ≡ None
        → switched ≡ record handset { stage = Switching true } → GoesWith setup.plan switched
        → ((steps : List Step) (made : ℕ) → StandsForSteps (setting_in setup) handset steps made
        → StandsForSteps (setting_in setup) switched (steps ++ switch_off ∷ []) made)
        → (next : IsHandsetOf setup view switched)
        × (next.steps ≡ move_to 2 ∷ switch_off ∷ []) }
{}
