//! What each part of a find costs, by number, where clusters are 3 radii wide and a node reads at
//! most 2 of a level, as on the line of four.
ghost use Rattle.std.specs.Prelude.{◌≡◌, ◌≢◌, ◌≤◌, ◌<◌, List, None, Some, [], ◌∷◌, slice_index, suc, ℕ};
ghost use Rattle.entry_word.specs.declared.address.Address.{Address};
ghost use Rattle.directory.specs.Finds.{FindCall, found_weight};
ghost use Rattle.directory.specs.Histories.{History, before};
ghost use Rattle.directory.specs.Legal.{IsLegal};
ghost use Rattle.directory.specs.Looks.{IsFind, IsQuiet, first_of, last_of};
ghost use Rattle.directory.specs.Parts.{climb_weight};
ghost use Rattle.directory.specs.Settings.{Setting};
ghost use Rattle.directory.specs.Standing.{number, passage, standing};
ghost use Rattle.directory.specs.declared.answers.Found.{Found};
ghost use Rattle.move_cost.specs.Rate.{IsWithinRate};
ghost use Rattle.plan_laws.specs.Examples.{line_setting};
ghost use Rattle.stretch_laws.specs.Costs.{AfterConfirm, AtRest, ClimbsEndEarly, Costs, CurrentAfterConfirm, InPassage, IsMet, NewBeforeCommit, OldBeforeCommit, ReadingIsBounded, readers_up_to};
ghost use Rattle.stretch_laws.specs.Tracking.{IsTracking, RestingFindsAreNearer, radius};
ghost use Rattle.trail_laws.specs.Phases.{IsAtRest, IsBeforeCommit, IsCurrent, IsPassingFrom, IsSettled, IsShortByPhase};
ghost use Rattle.trail_laws.specs.Rightness.{IsAnswered};
ghost use Rattle.trail_laws.specs.Trail.{IsLed, mark_seen};
ghost use Rattle.worked_examples.specs.Examples.{find_from};
ghost use Rattle.worked_examples.specs.Trails.{Meets};

use crate::tracks::line_tracks;

/// What the laws of costs say of a find that meets an address at level 0, 1 or 2, whatever the
/// setting, over clusters 3 radii wide: at most so much, by level. Where the way from the find's
/// origin to its subscriber counts it is 3 here, and an open passage is 2.
pub fn worked_costs()
    ensures old { OldBeforeCommit → (setting : Setting) (sub from level cluster : ℕ)
        (history : History) (address : Address) → level < 3
        → Meets setting sub history from level cluster address
        → IsBeforeCommit setting sub history → address.number ≤ number sub history
        → Costs setting sub history level cluster address (slice_index (4 ∷ 8 ∷ 16 ∷ []) level) }
    ensures new { NewBeforeCommit → (setting : Setting) (sub from level cluster : ℕ)
        (history : History) (address : Address) → level < 3
        → Meets setting sub history from level cluster address
        → IsBeforeCommit setting sub history → address.number ≡ suc (number sub history)
        → setting.distance from (standing setting sub history) ≡ 3
        → Costs setting sub history level cluster address (slice_index (12 ∷ 21 ∷ 39 ∷ []) level) }
    ensures passing { InPassage → (setting : Setting) (sub from level cluster left : ℕ)
        (history : History) (address : Address) → level < 3
        → Meets setting sub history from level cluster address
        → IsPassingFrom setting sub history left → passage setting sub history ≡ 2
        → Costs setting sub history level cluster address (slice_index (8 ∷ 12 ∷ 20 ∷ []) level) }
    ensures after { AfterConfirm → (setting : Setting) (sub from level cluster : ℕ)
        (history : History) (address : Address) → level < 3
        → Meets setting sub history from level cluster address → IsSettled setting sub history
        → setting.distance from (standing setting sub history) ≡ 3
        → Costs setting sub history level cluster address (slice_index (13 ∷ 23 ∷ 43 ∷ []) level) }
    ensures current { CurrentAfterConfirm → (setting : Setting) (sub from level cluster : ℕ)
        (history : History) (address : Address) → level < 3
        → Meets setting sub history from level cluster address → IsSettled setting sub history
        → IsCurrent setting sub history level address
        → Costs setting sub history level cluster address (slice_index (4 ∷ 8 ∷ 16 ∷ []) level) }
    ensures rest { AtRest → (setting : Setting) (sub from level cluster : ℕ)
        (history : History) (address : Address) → level < 3
        → Meets setting sub history from level cluster address → IsAtRest setting sub history
        → Costs setting sub history level cluster address (slice_index (4 ∷ 8 ∷ 16 ∷ []) level) }
{}

/// At the start a find from node 2 meets the address of the subscriber at node 3, at the lowest
/// level and at the highest, whose radius is as much as four times their distance. The cluster that
/// has it at the lowest isn't read by node 0, and the other one that node 2 reads has none.
pub fn worked_meetings()
    ensures lowest { IsMet line_setting 3 2 0 [] 2 0 1 (record { number = 0; node = 3 }) }
    ensures highest { IsMet line_setting 3 2 0 [] 2 2 0 (record { number = 0; node = 3 }) }
    ensures unread { IsMet line_setting 3 2 0 [] 0 0 1 (record { number = 0; node = 3 }) → ⊥ }
    ensures unheld { IsMet line_setting 3 2 0 [] 2 0 0 (record { number = 0; node = 3 }) → ⊥ }
{
    line_tracks();
}

/// How high a find climbs whose subscriber stands 3 away; what reading weighs at most where
/// clusters are 3 radii wide and a node reads 2 of a level; what a find from node 2 of the line
/// reads; and what a find weighs at most while its subscriber rests 3 away.
pub fn worked_climbs()
    ensures early { ClimbsEndEarly → (setting : Setting) (sub from : ℕ) (history : History)
        → setting.nodes ≤ 65536 → IsTracking setting 3 2 → from < setting.nodes
        → IsLegal setting sub history → from ≢ standing setting sub history
        → setting.distance from (standing setting sub history) ≡ 3
        → (level : ℕ) × (cluster : ℕ) × (address : Address) × (radius level < 12)
        × Meets setting sub history from level cluster address }
    ensures lowest { ReadingIsBounded → (setting : Setting) (call : FindCall)
        → IsTracking setting 3 2 → call.from < setting.nodes
        → climb_weight setting call (readers_up_to setting call.from 0) ≤ 24 }
    ensures highest { ReadingIsBounded → (setting : Setting) (call : FindCall)
        → IsTracking setting 3 2 → call.from < setting.nodes → 2 ≤ setting.top
        → climb_weight setting call (readers_up_to setting call.from 2) ≤ 96 }
    ensures read { readers_up_to line_setting 2 1 ≡ record { level = 0; cluster = 0 }
        ∷ record { level = 0; cluster = 1 } ∷ record { level = 1; cluster = 0 } ∷ [] }
    ensures weighs { climb_weight line_setting (find_from 2) (readers_up_to line_setting 2 1)
        ≡ 10 }
    ensures resting { RestingFindsAreNearer → (setting : Setting) (history : History) (actor : ℕ)
        (call : FindCall) (found : Found) (tickets : List ℕ) → setting.nodes ≤ 65536
        → IsTracking setting 3 2 → call.from < setting.nodes → IsLegal setting call.sub history
        → IsFind setting history actor call found tickets
        → IsQuiet history call.sub (first_of tickets) (last_of tickets)
        → IsAtRest setting call.sub (before (first_of tickets) history)
        → setting.distance call.from
        (standing setting call.sub (before (first_of tickets) history)) ≡ 3
        → IsAnswered found × (found_weight found ≤ 336) }
{}

/// Where a level gathers nothing, as each does whose threshold is 1, a current address is where its
/// subscriber stands, once the moves are settled: no way leads on.
pub fn short_ways()
    ensures { (setting : Setting) (sub way : ℕ) (history : History) (address : Address)
        → IsShortByPhase setting sub history 0 address way → setting.threshold 0 ≡ 1
        → IsSettled setting sub history → IsCurrent setting sub history 0 address → way ≡ 0 }
{}

/// A cost is of the whole way, from the leader, node 0, to the address's node and on from there: it
/// is 3 here, and no less. The marks lead along it, in no more hops than there are nodes; and they
/// do too when what is known is as high as the subscriber's number.
pub fn wrong_costs()
    ensures whole { Costs line_setting 0 [] 1 0 (record { number = 0; node = 3 }) 3 }
    ensures less { Costs line_setting 0 [] 1 0 (record { number = 0; node = 3 }) 2 → ⊥ }
    ensures leads { (setting : Setting) (sub cluster : ℕ) (history : History) (address : Address)
        → Costs setting sub history 1 cluster address 8
        → (hops : ℕ) × (way : ℕ) × (hops ≤ setting.nodes)
        × IsLed setting (mark_seen setting sub history) None address.node
        (standing setting sub history) hops way }
    ensures known { (setting : Setting) (sub cluster : ℕ) (history : History) (address : Address)
        → Costs setting sub history 1 cluster address 8 → number sub history ≡ 1
        → (hops : ℕ) × (way : ℕ) × (hops ≤ setting.nodes)
        × IsLed setting (mark_seen setting sub history) (Some 1) address.node
        (standing setting sub history) hops way }
{}

/// Over three levels of clusters 3 radii wide, a subscriber that made one move of weight 1 writes
/// at most 156, and purges one mark, however far it moved.
pub fn wrong_rates()
    ensures most { IsWithinRate 3 3
        (record { sub = 0; moves = 1; moved = 1; written = 156; purged = 1 }) }
    ensures written { IsWithinRate 3 3
        (record { sub = 0; moves = 1; moved = 1; written = 157; purged = 1 }) → ⊥ }
    ensures purged { IsWithinRate 3 3
        (record { sub = 0; moves = 1; moved = 1; written = 156; purged = 2 }) → ⊥ }
    ensures far { IsWithinRate 3 3
        (record { sub = 0; moves = 1; moved = 2; written = 156; purged = 2 }) → ⊥ }
{}
