//! Why a call isn't made, where several reasons stand together: the first of them is told.
ghost use Rattle.std.specs.Prelude.{◌≡◌, ◌^◌, ◌-◌, [], ◌∷◌, ℕ, Some, None, Ok, Err, true, false, map};
ghost use Rattle.directory.specs.Finds.{FindCall, most_looks};
ghost use Rattle.directory.specs.Keys.{act_node};
ghost use Rattle.directory.specs.Writes.{most_writes};
ghost use Rattle.entry_word.specs.declared.visit.Visit.{Visit};
ghost use Rattle.handset.specs.Beginning.{move_fault, switch_fault};
ghost use Rattle.handset.specs.Condition.{HandsetData};
ghost use Rattle.handset.specs.StepWrites.{due};
ghost use Rattle.handset.specs.declared.fault.MoveFault.TheVariants.{IsOff, NoNode, NumbersSpent, SamePlace, UnderWay};
ghost use Rattle.handset.specs.declared.fault.SwitchFault.TheVariants.{Already, UnderWay as StillUnderWay};
ghost use Rattle.plan_laws.specs.Examples.{line_of_four, line_setting};
ghost use Rattle.station.specs.Passes.{PassData};
ghost use Rattle.station.specs.Setup.{Setup, setting_in};
ghost use Rattle.station.specs.Visits.{HasLost};
ghost use Rattle.tracker_calls.specs.Finds.{HasStopped, IsFindFault, IsRefusal, MayFind};
ghost use Rattle.tracker_calls.specs.Moves.{IsStepFault};
ghost use Rattle.tracker_calls.specs.WholeMoves.{IsMoveToFault};
ghost use Rattle.tracker_calls.specs.declared.finds.FindFault.TheVariants as finds;
ghost use Rattle.tracker_calls.specs.declared.finds.FindRefusal.TheVariants as refusals;
ghost use Rattle.tracker_calls.specs.declared.moves.StepFault.TheVariants as steps;
ghost use Rattle.tracker_calls.specs.declared.whole_moves.MoveToFault.TheVariants as moves;
ghost use Rattle.walk.specs.Walks.{walk_or_fault};
ghost use Rattle.walk.specs.declared.walk.WalkFault.TheVariants.{NoNode as NoSuchNode, NoSubscriber};
ghost use Rattle.worked_examples.specs.Faults.{off_at_three, spent_at_three, stopped_at};
ghost use Rattle.worked_examples.specs.Passes.{line_setup};

/// A move to a node that isn't there, or where the subscriber is, is refused as that, whatever else
/// stands in its way; then one behind another that is under way, then one while it is off, and last
/// one that has no number left.
pub fn worked_move_faults()
    ensures no_node { move_fault line_of_four (stopped_at 4) 4 ≡ Some NoNode }
    ensures same_place { move_fault line_of_four (stopped_at 3) 3 ≡ Some SamePlace }
    ensures under_way { move_fault line_of_four (stopped_at 3) 2 ≡ Some UnderWay }
    ensures off { move_fault line_of_four off_at_three 2 ≡ Some IsOff }
    ensures spent { move_fault line_of_four spent_at_three 2 ≡ Some NumbersSpent }
    ensures last_number { move_fault line_of_four
        (record spent_at_three { number = 2 ^ 32 - 2 }) 2 ≡ None }
{}

/// A switch behind a step that is under way is refused as that; else one to the state that is.
pub fn worked_switch_faults()
    ensures under_way { map (switch_fault (stopped_at 3)) (true ∷ false ∷ [])
        ≡ Some StillUnderWay ∷ Some StillUnderWay ∷ [] }
    ensures off { map (switch_fault off_at_three) (true ∷ false ∷ [])
        ≡ Some Already ∷ None ∷ [] }
    ensures on { map (switch_fault spent_at_three) (true ∷ false ∷ [])
        ≡ None ∷ Some Already ∷ [] }
{}

/// A find from a node that isn't there, of a subscriber that isn't, by a pass without room: the
/// pass stays as it is. A find that lost a turn was one that may begin. A find that is tried once
/// is refused for the same reasons.
pub fn wrong_find_faults()
    ensures walk_node { walk_or_fault line_of_four 4 1 1 ≡ Err NoSuchNode }
    ensures walk_sub { walk_or_fault line_of_four 3 1 1 ≡ Err NoSubscriber }
    ensures node { (pass : PassData)
        → IsRefusal line_setup pass (record { from = 4; sub = 1 }) refusals.NoNode }
    ensures no_node { (pass : PassData)
        → IsRefusal line_setup pass (record { from = 3; sub = 1 }) refusals.NoNode → ⊥ }
    ensures sub_first { (pass : PassData)
        → IsRefusal line_setup pass (record { from = 4; sub = 1 }) refusals.NoSubscriber → ⊥ }
    ensures room_first { (pass : PassData) (need : ℕ)
        → IsRefusal line_setup pass (record { from = 3; sub = 1 }) (refusals.Unreserved need)
        → ⊥ }
    ensures room_before_node { (pass : PassData) (need : ℕ)
        → IsRefusal line_setup pass (record { from = 4; sub = 0 }) (refusals.Unreserved need)
        → ⊥ }
    ensures room { (pass : PassData) (need : ℕ) → pass.spare ≡ most_looks line_setting 3
        → IsRefusal line_setup pass (record { from = 3; sub = 0 }) (refusals.Unreserved need)
        → ⊥ }
    ensures need { (pass : PassData)
        → IsRefusal line_setup pass (record { from = 3; sub = 0 }) (refusals.Unreserved 100)
        → ⊥ }
    ensures still_no_node { (setup : Setup) (old new : PassData) (call : FindCall)
        → IsFindFault setup old call finds.NoNode new → new ≡ old }
    ensures still_no_sub { (setup : Setup) (old new : PassData) (call : FindCall)
        → IsFindFault setup old call finds.NoSubscriber new → new ≡ old }
    ensures still_no_room { (setup : Setup) (old new : PassData) (call : FindCall) (need : ℕ)
        → IsFindFault setup old call (finds.Unreserved need) new → new ≡ old }
    ensures known_sub { (pass : PassData)
        → IsRefusal line_setup pass (record { from = 3; sub = 0 }) refusals.NoSubscriber → ⊥ }
    ensures now_node { (setup : Setup) (old new : PassData) (call : FindCall)
        → IsFindFault setup old call finds.NoNode new
        → IsRefusal setup old call refusals.NoNode }
    ensures now_sub { (setup : Setup) (old new : PassData) (call : FindCall)
        → IsFindFault setup old call finds.NoSubscriber new
        → IsRefusal setup old call refusals.NoSubscriber }
    ensures now_room { (setup : Setup) (old new : PassData) (call : FindCall) (need : ℕ)
        → IsFindFault setup old call (finds.Unreserved need) new
        → IsRefusal setup old call (refusals.Unreserved need) }
    ensures held_begun { (setup : Setup) (old new : PassData) (call : FindCall) (node by : ℕ)
        → IsFindFault setup old call (finds.Held node by) new → MayFind setup old call }
    ensures held_told { (setup : Setup) (old new : PassData) (call : FindCall) (node by : ℕ)
        → IsFindFault setup old call (finds.Held node by) new
        → HasStopped setup old call (record { node = node; by = by }) new }
{}

/// A whole move that may not begin is refused for that before its room is counted; a step at rest
/// is at rest, with room or without; and a turn is lost with room alone, at the node of the step's
/// next visit. Each fault is told as what it is, with the room that is asked for, and but for a lost
/// turn the pass stays as it is.
pub fn wrong_move_faults()
    ensures room_first { (pass : PassData) (need : ℕ)
        → IsMoveToFault line_of_four pass (stopped_at 3) 3 (moves.Unreserved need) → ⊥ }
    ensures room_last { (pass : PassData) (handset : HandsetData) (to need : ℕ)
        → IsMoveToFault line_of_four pass handset to (moves.Unreserved need)
        → move_fault line_of_four handset to ≡ None }
    ensures later { (pass : PassData)
        → IsMoveToFault line_of_four pass (stopped_at 3) 3 moves.UnderWay → ⊥ }
    ensures off_later { (pass : PassData)
        → IsMoveToFault line_of_four pass (stopped_at 3) 2 moves.IsOff → ⊥ }
    ensures no_node { (pass : PassData)
        → IsMoveToFault line_of_four pass (stopped_at 3) 3 moves.NoNode → ⊥ }
    ensures elsewhere { (pass : PassData)
        → IsMoveToFault line_of_four pass (stopped_at 3) 2 moves.SamePlace → ⊥ }
    ensures spent_later { (pass : PassData)
        → IsMoveToFault line_of_four pass off_at_three 2 moves.NumbersSpent → ⊥ }
    ensures room { (pass : PassData) (handset : HandsetData) (to need : ℕ)
        → pass.spare ≡ most_writes line_setting
        → IsMoveToFault line_of_four pass handset to (moves.Unreserved need) → ⊥ }
    ensures need { (pass : PassData) (handset : HandsetData) (to : ℕ)
        → IsMoveToFault line_of_four pass handset to (moves.Unreserved 100) → ⊥ }
    ensures step_room { (setup : Setup) (old new : PassData) (handset : HandsetData) (need : ℕ)
        → old.spare ≡ 1 → IsStepFault setup old handset (steps.Unreserved need) new → ⊥ }
    ensures step_need { (setup : Setup) (old new : PassData) (handset : HandsetData)
        → IsStepFault setup old handset (steps.Unreserved 2) new → ⊥ }
    ensures still_no_room { (setup : Setup) (old new : PassData) (handset : HandsetData)
        (need : ℕ) → IsStepFault setup old handset (steps.Unreserved need) new → new ≡ old }
    ensures still_at_rest { (setup : Setup) (old new : PassData) (handset : HandsetData)
        → IsStepFault setup old handset steps.AtRest new → new ≡ old }
    ensures rest_first { (setup : Setup) (old new : PassData) (handset : HandsetData) (need : ℕ)
        → due (setting_in setup) handset ≡ None
        → IsStepFault setup old handset (steps.Unreserved need) new → ⊥ }
    ensures no_rest { (setup : Setup) (old new : PassData) (handset : HandsetData)
        (visit : Visit) → due (setting_in setup) handset ≡ Some visit
        → IsStepFault setup old handset steps.AtRest new → ⊥ }
    ensures held_later { (setup : Setup) (old new : PassData) (handset : HandsetData)
        (node by : ℕ) → old.spare ≡ 0
        → IsStepFault setup old handset (steps.Held node by) new → ⊥ }
    ensures held_at_rest { (setup : Setup) (old new : PassData) (handset : HandsetData)
        (node by : ℕ) → due (setting_in setup) handset ≡ None
        → IsStepFault setup old handset (steps.Held node by) new → ⊥ }
    ensures held_there { (setup : Setup) (old new : PassData) (handset : HandsetData)
        (visit : Visit) (node by : ℕ) → due (setting_in setup) handset ≡ Some visit
        → IsStepFault setup old handset (steps.Held node by) new
        → HasLost old (act_node (setting_in setup) visit.act) (record { node = node; by = by })
        new }
{}
