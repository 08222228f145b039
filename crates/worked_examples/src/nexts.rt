//! Statements that no crate above uses, told of the line of four: which put may come next, where
//! its subscriber stands, and what a walk has read.
ghost use Rattle.std.specs.Prelude.{◌≡◌, ◌≤◌, ◌++◌, ◌*◌, ◌+◌, [], ◌∷◌, ℕ, List, Ok, Some, All, length, slice_get, take};
ghost use Rattle.entry_word.specs.declared.mark.PresenceMark.TheVariants.{Coming};
ghost use Rattle.entry_word.specs.declared.visit.Key.TheVariants.{Entry, Presence};
ghost use Rattle.entry_word.specs.declared.visit.Visit.{Visit};
ghost use Rattle.directory.specs.Courses.{after_steps, course_at, move_to};
ghost use Rattle.directory.specs.Finds.{key_of};
ghost use Rattle.directory.specs.Histories.{History, cell, puts_to};
ghost use Rattle.directory.specs.Keys.{opening};
ghost use Rattle.directory.specs.Legal.{ArePuts, IsLegal};
ghost use Rattle.directory.specs.Orders.{AreValid, IsPlayed, Scripts, history_of};
ghost use Rattle.directory.specs.Outcomes.{outcome_of, step_line, step_lines};
ghost use Rattle.directory.specs.Puts.{steps_in};
ghost use Rattle.directory.specs.Settings.{Setting};
ghost use Rattle.directory.specs.Standing.{number, standing};
ghost use Rattle.directory.specs.Statements.{BeginningIsLegal, DueIsLegal, NextIsDecided, RestKeepsOpening, StandsAtStop, StepLinesGrow};
ghost use Rattle.directory.specs.Writes.{visits};
ghost use Rattle.json_form.specs.Inputs.{input_json_of};
ghost use Rattle.json_form.specs.Laws.{InputsReturn};
ghost use Rattle.json_form.specs.TextOfJson.{IsTextOfJson};
ghost use Rattle.net_reader.specs.Input.{Contents, IsInput};
ghost use Rattle.net_reader.specs.Valid.{IsValid};
ghost use Rattle.plan_laws.specs.Examples.{line_of_four, line_scripts, line_setting};
ghost use Rattle.stretch_laws.specs.NearOutcomes.{IsLineWithin, OutcomesAreNear};
ghost use Rattle.stretch_laws.specs.Tracking.{IsTracking};
ghost use Rattle.trail_laws.specs.Trail.{ComingsLead, IsLed, mark_seen};
ghost use Rattle.walk.specs.Walks.{StandsForWords, WalkData, call_of, pursuit_of};
ghost use Rattle.worked_examples.specs.Examples.{find_from};
ghost use Rattle.worked_examples.specs.Trails.{line_mark};

/// Behind five puts of the move to node 2 its sixth is legal, and no other put is; behind all six
/// the first put of a move on to node 0 is. The next put is legal in a network of 65,536 nodes too.
pub fn worked_nexts()
    ensures due { DueIsLegal → (visit : Visit)
        → slice_get (visits line_setting 0 (move_to 2 ∷ [])) 5 ≡ Some visit
        → ArePuts line_setting 0 (take 5 (visits line_setting 0 (move_to 2 ∷ [])))
        → ArePuts line_setting 0 (take 5 (visits line_setting 0 (move_to 2 ∷ [])) ++ visit ∷ []) }
    ensures wide { DueIsLegal → (setting : Setting) (sub : ℕ) (puts : List Visit) (visit : Visit)
        → setting.nodes ≡ 65536 → ArePuts setting sub puts
        → slice_get (visits setting sub (steps_in puts)) (length puts) ≡ Some visit
        → ArePuts setting sub (puts ++ visit ∷ []) }
    ensures decided { NextIsDecided → (visit : Visit)
        → ArePuts line_setting 0 (take 5 (visits line_setting 0 (move_to 2 ∷ [])) ++ visit ∷ [])
        → slice_get (visits line_setting 0 (move_to 2 ∷ [])) 5 ≡ Some visit }
    ensures begins { BeginningIsLegal → (visit : Visit)
        → slice_get (visits line_setting 0 (move_to 2 ∷ move_to 0 ∷ [])) 6 ≡ Some visit
        → ArePuts line_setting 0 (visits line_setting 0 (move_to 2 ∷ []))
        → ArePuts line_setting 0 (visits line_setting 0 (move_to 2 ∷ []) ++ visit ∷ []) }
{}

/// After a commit of the move to node 2 the subscriber stands there. Where it makes no step, each
/// mark is as it was. Behind the line of a move comes that of the next one. Under every order the
/// line of a find that meets the move is within 137 times the distance, and twice the passage; and
/// so it is of whichever scripts in a network of 65,536 nodes.
pub fn worked_stops()
    ensures stands { StandsAtStop → (history : History) → IsLegal line_setting 0 history
        → steps_in (puts_to 0 history) ≡ move_to 2 ∷ [] → number 0 history ≡ 1
        → standing line_setting 0 history ≡ 2 }
    ensures opening { RestKeepsOpening → (history : History)
        → IsPlayed line_setting (line_scripts ([]) (find_from 0 ∷ [])) history
        → cell line_setting history (Presence 3 0) ≡ opening line_setting (Presence 3 0) }
    ensures lines { StepLinesGrow → (seen more : List ℕ) → length seen ≡ 6 → length more ≡ 8
        → step_lines line_setting 0 (course_at 3) (move_to 2 ∷ move_to 0 ∷ []) (seen ++ more)
        ≡ step_lines line_setting 0 (course_at 3) (move_to 2 ∷ []) seen
        ++ step_line line_setting 0 (after_steps line_setting (course_at 3) (move_to 2 ∷ []))
        (move_to 0) more ∷ [] }
    ensures near { OutcomesAreNear → IsTracking line_setting 3 2
        → AreValid line_setting (line_scripts (move_to 2 ∷ []) (find_from 2 ∷ []))
        → (order : List ℕ) → All (IsLineWithin (λ d p. 137 * d + 2 * p) line_setting
        (history_of line_setting (line_scripts (move_to 2 ∷ []) (find_from 2 ∷ [])) order))
        (outcome_of line_setting (line_scripts (move_to 2 ∷ []) (find_from 2 ∷ [])) order).calls }
    ensures wide { OutcomesAreNear → (setting : Setting) (scripts : Scripts) (order : List ℕ)
        → setting.nodes ≡ 65536 → IsTracking setting 3 2 → AreValid setting scripts
        → All (IsLineWithin (λ d p. 137 * d + 2 * p) setting (history_of setting scripts order))
        (outcome_of setting scripts order).calls }
{}

/// A Coming at node 2 leads one who knows of the last commit to where the subscriber stands, in at
/// most four hops. A walk from node 0 that has read an empty mark there looks at the home of node 0
/// on the lowest level. The JSON of a valid input makes a text, and that text reads as the input.
pub fn worked_ways()
    ensures comings { ComingsLead → (history : History) → IsLegal line_setting 0 history
        → (number_there from : ℕ) → line_mark history 2 ≡ Coming number_there from
        → number 0 history ≡ 1 → (hops : ℕ) × (way : ℕ) × (hops ≤ 4)
        × IsLed line_setting (mark_seen line_setting 0 history) (Some 1) from
        (standing line_setting 0 history) hops way }
    ensures walk { (walk : WalkData) → call_of walk ≡ find_from 0
        → StandsForWords line_of_four walk (0 ∷ [])
        → key_of (find_from 0) (pursuit_of line_of_four walk) ≡ Some (Entry 0 0 0) }
    ensures json { InputsReturn → (contents : Contents) → IsValid contents
        → (text : List ℕ) × IsTextOfJson (input_json_of contents) text
        × IsInput text (Ok contents) }
{}
