//! What the laws of marks and of phases say of single nodes, and the phases of a move on the line
//! of four from node 3 to node 2.
ghost use Rattle.std.specs.Prelude.{◌≡◌, ◌<◌, ◌≤◌, [], ◌∷◌, Some, ℕ, map, true};
ghost use Rattle.node_set.specs.Ascending.{has};
ghost use Rattle.entry_word.specs.declared.mark.PresenceMark.TheVariants.{Coming, Empty, Gone, Here, Off};
ghost use Rattle.directory.specs.Census.{census};
ghost use Rattle.directory.specs.Courses.{move_to, stop, switch_off};
ghost use Rattle.directory.specs.Histories.{History, before, puts_to};
ghost use Rattle.directory.specs.Legal.{IsLegal};
ghost use Rattle.directory.specs.Puts.{course_in, last_move};
ghost use Rattle.directory.specs.Settings.{Setting};
ghost use Rattle.directory.specs.Writes.{visits};
ghost use Rattle.plan_laws.specs.Examples.{line_setting};
ghost use Rattle.trail_laws.specs.Censuses.{IsCounted, IsOnAt, ListedStandThere, RestingAreListed, who_ends_at};
ghost use Rattle.trail_laws.specs.Phases.{ComingStands, IsAtRest, IsBeforeCommit, IsCurrent, IsPassingFrom, IsSettled, PhasesCover};
ghost use Rattle.trail_laws.specs.Trail.{EntriesTell, GoesUp, NumbersGoUp, OneComing, entry_seen, mark_seen};
ghost use Rattle.worked_examples.specs.Trails.{line_mark};

/// After a legal history of a subscriber, over whatever setting of up to 65,536 nodes: where a
/// Coming is at node 2, none is elsewhere; where its fourth move is begun, from node 3 to node 2,
/// and not committed, that Coming is there; behind a Gone with number 4 that leads to node 2, the
/// mark there has no lower number, and a Gone a higher one; where no move waits for its commit and
/// no passage is open, the subscriber is settled; and where an address of level 1 names node 2,
/// that is the stop of the address's number, and has a mark.
pub fn worked_trails()
    ensures one { OneComing → (setting : Setting) (sub : ℕ) (history : History)
        → setting.nodes ≤ 65536 → IsLegal setting sub history → (other p q u v : ℕ)
        → 2 < setting.nodes → other < setting.nodes → mark_seen setting sub history 2 ≡ Coming p u
        → mark_seen setting sub history other ≡ Coming q v → 2 ≡ other }
    ensures begun { ComingStands → (setting : Setting) (sub : ℕ) (history : History)
        → setting.nodes ≤ 65536 → IsLegal setting sub history → IsBeforeCommit setting sub history
        → (weight renewed : ℕ) → last_move setting sub (puts_to sub history)
        ≡ Some (record { number = 4; from = 3; to = 2; weight = weight; renewed = renewed })
        → mark_seen setting sub history 2 ≡ Coming 4 3 }
    ensures there { NumbersGoUp → (setting : Setting) (sub : ℕ) (history : History)
        → setting.nodes ≤ 65536 → IsLegal setting sub history → 3 < setting.nodes
        → (number : ℕ) → mark_seen setting sub history 3 ≡ Gone 4 2
        → mark_seen setting sub history 2 ≡ Here number → 4 ≤ number }
    ensures on { NumbersGoUp → (setting : Setting) (sub : ℕ) (history : History)
        → setting.nodes ≤ 65536 → IsLegal setting sub history → 3 < setting.nodes
        → (number : ℕ) → mark_seen setting sub history 3 ≡ Gone 4 2
        → mark_seen setting sub history 2 ≡ Gone number 1 → 4 < number }
    ensures cover { PhasesCover → (setting : Setting) (sub : ℕ) (history : History)
        → setting.nodes ≤ 65536 → IsLegal setting sub history
        → (IsBeforeCommit setting sub history → ⊥)
        → ((from : ℕ) → IsPassingFrom setting sub history from → ⊥)
        → IsSettled setting sub history }
    ensures stop { EntriesTell → (setting : Setting) (sub : ℕ) (history : History)
        → setting.nodes ≤ 65536 → IsLegal setting sub history → 1 ≤ setting.top
        → (cluster number : ℕ)
        → entry_seen setting sub history 1 cluster ≡ Some (record { number = number; node = 2 })
        → 2 ≡ stop (course_in setting sub (puts_to sub history)) number }
    ensures marked { EntriesTell → (setting : Setting) (sub : ℕ) (history : History)
        → setting.nodes ≤ 65536 → IsLegal setting sub history → 1 ≤ setting.top
        → (cluster number : ℕ)
        → entry_seen setting sub history 1 cluster ≡ Some (record { number = number; node = 2 })
        → mark_seen setting sub history 2 ≡ Empty → ⊥ }
{}

/// The phases of the move, of whose six puts the fourth is the commit and the fifth the confirm:
/// each holds where it is said, and not a put earlier or later.
pub fn worked_phases()
    ensures begun { IsBeforeCommit line_setting 0
        (before 3 (visits line_setting 0 (move_to 2 ∷ []))) }
    ensures its { last_move line_setting 0
        (puts_to 0 (before 3 (visits line_setting 0 (move_to 2 ∷ []))))
        ≡ Some (record { number = 1; from = 3; to = 2; weight = 1; renewed = 1 }) }
    ensures comes { line_mark (before 3 (visits line_setting 0 (move_to 2 ∷ []))) 2
        ≡ Coming 1 3 }
    ensures came { line_mark (before 5 (visits line_setting 0 (move_to 2 ∷ []))) 2
        ≡ Coming 1 3 → ⊥ }
    ensures unbegun { IsBeforeCommit line_setting 0 [] → ⊥ }
    ensures committed { IsBeforeCommit line_setting 0
        (before 4 (visits line_setting 0 (move_to 2 ∷ []))) → ⊥ }
    ensures passing { IsPassingFrom line_setting 0
        (before 4 (visits line_setting 0 (move_to 2 ∷ []))) 3 }
    ensures passing_elsewhere { IsPassingFrom line_setting 0
        (before 4 (visits line_setting 0 (move_to 2 ∷ []))) 1 → ⊥ }
    ensures early { IsPassingFrom line_setting 0
        (before 3 (visits line_setting 0 (move_to 2 ∷ []))) 3 → ⊥ }
    ensures confirmed { IsPassingFrom line_setting 0
        (before 5 (visits line_setting 0 (move_to 2 ∷ []))) 3 → ⊥ }
    ensures settled { IsSettled line_setting 0
        (before 5 (visits line_setting 0 (move_to 2 ∷ []))) }
    ensures unsettled { IsSettled line_setting 0
        (before 4 (visits line_setting 0 (move_to 2 ∷ []))) → ⊥ }
    ensures waiting { IsSettled line_setting 0
        (before 1 (visits line_setting 0 (move_to 2 ∷ []))) → ⊥ }
    ensures current { IsCurrent line_setting 0
        (before 5 (visits line_setting 0 (move_to 2 ∷ []))) 0 (record { number = 1; node = 2 }) }
    ensures kept { IsCurrent line_setting 0
        (before 5 (visits line_setting 0 (move_to 2 ∷ []))) 2 (record { number = 0; node = 3 }) }
    ensures old { IsCurrent line_setting 0
        (before 5 (visits line_setting 0 (move_to 2 ∷ []))) 0 (record { number = 0; node = 3 })
        → ⊥ }
    ensures rest { IsAtRest line_setting 0 (visits line_setting 0 (move_to 2 ∷ [])) }
    ensures unrested { IsAtRest line_setting 0
        (before 5 (visits line_setting 0 (move_to 2 ∷ []))) → ⊥ }
{}

/// After a legal history of a subscriber: where node 2 lists it, it stands there and is on; and
/// where it rests there and is on, node 2 lists it. One that is off, or that stands elsewhere,
/// isn't on at a node. Of two subscribers whose scripts lead to node 2, the one that is switched
/// off there doesn't end as listed.
pub fn worked_counts()
    ensures listed { ListedStandThere → (setting : Setting) (sub : ℕ) (history : History)
        → setting.nodes ≤ 65536 → IsLegal setting sub history → 2 < setting.nodes
        → has sub (census setting history 2) ≡ true → IsOnAt setting sub history 2 }
    ensures resting { RestingAreListed → (setting : Setting) (sub : ℕ) (history : History)
        → setting.nodes ≤ 65536 → IsLegal setting sub history → 2 < setting.nodes
        → IsAtRest setting sub history
        → IsOnAt setting sub history 2 → has sub (census setting history 2) ≡ true }
    ensures on { IsOnAt line_setting 0 [] 3 }
    ensures elsewhere { IsOnAt line_setting 0 [] 2 → ⊥ }
    ensures off { IsOnAt line_setting 0 (visits line_setting 0 (switch_off ∷ [])) 3 → ⊥ }
    ensures unlisted { IsCounted line_setting
        (before 4 (visits line_setting 0 (move_to 2 ∷ []))) 0 2 → ⊥ }
    ensures scripts { map (who_ends_at (3 ∷ 2 ∷ []) (record {
      steps = (move_to 2 ∷ []) ∷ (move_to 3 ∷ move_to 2 ∷ switch_off ∷ []) ∷ [];
      finds = [];
    })) (1 ∷ 2 ∷ 3 ∷ []) ≡ ([]) ∷ (0 ∷ []) ∷ ([]) ∷ [] }
{}

/// What no mark behind a Gone with number 4 may be.
pub fn wrong_numbers()
    ensures same { GoesUp 4 (Gone 4 1) → ⊥ }
    ensures here { GoesUp 4 (Here 3) → ⊥ }
    ensures coming { GoesUp 4 (Coming 3 0) → ⊥ }
    ensures off { GoesUp 4 (Off 3) → ⊥ }
{}
