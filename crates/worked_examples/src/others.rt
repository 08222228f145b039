//! What others do beside a call: a switch after a move, another subscriber's puts, a second caller.
ghost use Rattle.std.specs.Prelude.{◌≡◌, [], ◌∷◌, None, true, false, map, replicate};
ghost use Rattle.directory.specs.Courses.{move_to, switch_off, switch_on};
ghost use Rattle.directory.specs.Looks.{moves_at};
ghost use Rattle.directory.specs.Outcomes.{outcome_of};
ghost use Rattle.directory.specs.Writes.{numbers_from, visits};
ghost use Rattle.directory.specs.declared.answers.Done.TheVariants.{Moved, Switched, Found as FoundBy};
ghost use Rattle.plan_laws.specs.Examples.{line_of_four, line_scripts, line_setting};
ghost use Rattle.region_plan.specs.Settings.{setting_of};
ghost use Rattle.worked_examples.specs.Examples.{find_from};

/// A switch's line has the node and the number after the move before it; the puts of another
/// subscriber are no puts of a move of the one that is looked for; two callers have an order of
/// their own, and both have turns behind it.
pub fn worked_others()
    ensures switched_elsewhere { outcome_of line_setting
        (line_scripts (move_to 2 ∷ switch_off ∷ switch_on ∷ []) ([])) ([]) ≡ record {
          calls = Moved 0 1 3 2 1 0 3 5 ∷ Switched 0 true 2 1 6 ∷ Switched 0 false 2 1 7 ∷ [];
          order = replicate 8 0;
        } }
    ensures moves_of_another { map
        (moves_at 0 (visits (setting_of line_of_four (3 ∷ 3 ∷ [])) 1 (move_to 2 ∷ [])))
        (numbers_from 0 7) ≡ replicate 7 false }
    ensures second_caller { outcome_of (setting_of line_of_four (3 ∷ 2 ∷ []))
        (record {
          steps = ([]) ∷ (move_to 3 ∷ []) ∷ [];
          finds = (find_from 3 ∷ []) ∷ (record { from = 2; sub = 1 } ∷ []) ∷ [];
        }) (3 ∷ 1 ∷ []) ≡ record {
          calls = Moved 1 1 2 3 1 1 4 6 ∷ FoundBy 2 3 0 3 0 None 0 7 7
              ∷ FoundBy 3 2 1 2 0 None 0 0 0 ∷ [];
          order = 3 ∷ 1 ∷ 1 ∷ 1 ∷ 1 ∷ 1 ∷ 1 ∷ 2 ∷ [];
        } }
    ensures both_callers { outcome_of (setting_of line_of_four (3 ∷ 2 ∷ []))
        (record {
          steps = ([]) ∷ ([]) ∷ [];
          finds = (find_from 3 ∷ []) ∷ (record { from = 2; sub = 1 } ∷ []) ∷ [];
        }) ([]) ≡ record {
          calls = FoundBy 2 3 0 3 0 None 0 0 0 ∷ FoundBy 3 2 1 2 0 None 0 1 1 ∷ [];
          order = 2 ∷ 3 ∷ [];
        } }
{}
