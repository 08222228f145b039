//! Laws written out once more, with all that they speak of as free as there: of whatever setting,
//! subscriber, node and step. A law that is told of less no longer says this.
ghost use Rattle.std.specs.Prelude.{◌≡◌, ◌≢◌, ◌≤◌, ◌<◌, ◌++◌, ◌*◌, [], ◌∷◌, ℕ, List, Some, length, slice_get, true};
ghost use Rattle.entry_word.specs.declared.address.Address.{Address};
ghost use Rattle.entry_word.specs.declared.mark.PresenceMark.TheVariants.{Coming};
ghost use Rattle.entry_word.specs.declared.visit.Key.{Key};
ghost use Rattle.entry_word.specs.declared.visit.Visit.{Visit};
ghost use Rattle.directory.specs.Census.{census};
ghost use Rattle.directory.specs.Courses.{Course, Move, Step, after_steps, stop};
ghost use Rattle.directory.specs.Finds.{FindCall};
ghost use Rattle.directory.specs.Histories.{History, cell, puts_to};
ghost use Rattle.directory.specs.Keys.{opening};
ghost use Rattle.directory.specs.Legal.{ArePuts, IsLegal};
ghost use Rattle.directory.specs.Orders.{IsPlayed, Scripts, steps_of};
ghost use Rattle.directory.specs.Outcomes.{step_line, step_lines};
ghost use Rattle.directory.specs.Parts.{climb_weight};
ghost use Rattle.directory.specs.Puts.{course_in, last_move, steps_in};
ghost use Rattle.directory.specs.Settings.{Setting};
ghost use Rattle.directory.specs.Standing.{number, standing};
ghost use Rattle.directory.specs.Statements.{NextIsDecided, RestKeepsOpening, StandsAtStop, StepLinesGrow};
ghost use Rattle.directory.specs.Writes.{step_writes, visits, writes};
ghost use Rattle.node_set.specs.Ascending.{has};
ghost use Rattle.stretch_laws.specs.Costs.{ClimbsEndEarly, IsMet, ReadingIsBounded, readers_up_to};
ghost use Rattle.stretch_laws.specs.Tracking.{IsTracking, radius};
ghost use Rattle.trail_laws.specs.Censuses.{IsOnAt, ListedStandThere, RestingAreListed};
ghost use Rattle.trail_laws.specs.Phases.{ComingStands, IsAtRest, IsBeforeCommit};
ghost use Rattle.trail_laws.specs.Trail.{mark_seen};

/// Puts, stops, cells at rest and the lines of steps.
pub fn whole_steps()
    ensures decided { NextIsDecided → (setting : Setting) (sub : ℕ) (puts : List Visit)
        (visit : Visit) → length puts < length (visits setting sub (steps_in puts))
        → ArePuts setting sub (puts ++ visit ∷ [])
        → slice_get (visits setting sub (steps_in puts)) (length puts) ≡ Some visit }
    ensures stands { StandsAtStop → (setting : Setting) (sub : ℕ) (history : History)
        → setting.nodes ≤ 65536 → IsLegal setting sub history → standing setting sub history
        ≡ stop (course_in setting sub (puts_to sub history)) (number sub history) }
    ensures opening { RestKeepsOpening → (setting : Setting) (scripts : Scripts)
        (history : History) (key : Key) → ((sub : ℕ) → steps_of scripts sub ≡ [])
        → IsPlayed setting scripts history → cell setting history key ≡ opening setting key }
    ensures lines { StepLinesGrow → (setting : Setting) (sub : ℕ) (course : Course)
        (done : List Step) (step : Step) (seen more : List ℕ)
        → length seen ≡ length (writes setting course done)
        → length more ≡ length (step_writes setting (after_steps setting course done) step)
        → step_lines setting sub course (done ++ step ∷ []) (seen ++ more)
        ≡ step_lines setting sub course done seen
        ++ step_line setting sub (after_steps setting course done) step more ∷ [] }
{}

/// Whom a census lists, where a Coming stands, and how far a find climbs.
pub fn whole_finds()
    ensures listed { ListedStandThere → (setting : Setting) (sub : ℕ) (history : History)
        (node : ℕ) → setting.nodes ≤ 65536 → node < setting.nodes → IsLegal setting sub history
        → has sub (census setting history node) ≡ true → IsOnAt setting sub history node }
    ensures resting { RestingAreListed → (setting : Setting) (sub : ℕ) (history : History)
        (node : ℕ) → setting.nodes ≤ 65536 → node < setting.nodes → IsLegal setting sub history
        → IsAtRest setting sub history → IsOnAt setting sub history node
        → has sub (census setting history node) ≡ true }
    ensures comings { ComingStands → (setting : Setting) (sub : ℕ) (history : History)
        (move : Move) → setting.nodes ≤ 65536 → IsLegal setting sub history
        → IsBeforeCommit setting sub history
        → last_move setting sub (puts_to sub history) ≡ Some move
        → mark_seen setting sub history move.to ≡ Coming move.number move.from }
    ensures climbs { ClimbsEndEarly → (setting : Setting) (width most_readers sub : ℕ)
        (history : History) (from : ℕ) → setting.nodes ≤ 65536
        → IsTracking setting width most_readers → from < setting.nodes
        → IsLegal setting sub history → from ≢ standing setting sub history
        → (level : ℕ) × (cluster : ℕ) × (address : Address)
        × (radius level < 4 * setting.distance from (standing setting sub history))
        × IsMet setting width most_readers sub history from level cluster address }
    ensures reading { ReadingIsBounded → (setting : Setting) (width most_readers : ℕ)
        (call : FindCall) (last : ℕ) → IsTracking setting width most_readers
        → call.from < setting.nodes → last ≤ setting.top
        → climb_weight setting call (readers_up_to setting call.from last)
        ≤ 4 * (most_readers * (width * radius last)) }
{}
