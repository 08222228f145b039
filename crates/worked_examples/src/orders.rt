//! The worked examples of orders, computed: what becomes of the calls on the line of four nodes;
//! and a line that no script has.
ghost use Rattle.std.specs.Prelude.{◌≡◌, [], ◌∷◌, Some, None, true, false};
ghost use Rattle.node_set.specs.Ascending.{IsAscending};
ghost use Rattle.directory.specs.Courses.{move_to, switch_off, switch_on};
ghost use Rattle.directory.specs.Histories.{History};
ghost use Rattle.directory.specs.Orders.{Scripts};
ghost use Rattle.directory.specs.Outcomes.{IsMade, IsStepLine, outcome_of};
ghost use Rattle.directory.specs.declared.answers.Done.{Done};
ghost use Rattle.directory.specs.declared.answers.Why.TheVariants.{Empty as EmptyAt};
ghost use Rattle.directory.specs.declared.answers.Done.TheVariants.{Moved, Switched, Found as FoundBy, Off as OffBy, Again as AgainBy};
ghost use Rattle.plan_laws.specs.Examples.{line_setting, line_scripts};
ghost use Rattle.worked_examples.specs.Examples.{find_from};

/// What becomes of moves, switches and finds of one subscriber and one caller, under these orders.
pub fn worked_orders()
    ensures far_find { outcome_of line_setting (line_scripts ([]) (find_from 0 ∷ [])) ([])
        ≡ record {
          calls = FoundBy 1 0 0 3 0 (Some 1) 3 0 3 ∷ [];
          order = 1 ∷ 1 ∷ 1 ∷ 1 ∷ [];
        } }
    ensures near_find { outcome_of line_setting (line_scripts ([]) (find_from 2 ∷ [])) ([])
        ≡ record {
          calls = FoundBy 1 2 0 3 0 (Some 0) 5 0 3 ∷ [];
          order = 1 ∷ 1 ∷ 1 ∷ 1 ∷ [];
        } }
    ensures move_alone { outcome_of line_setting (line_scripts (move_to 2 ∷ []) ([])) ([])
        ≡ record {
          calls = Moved 0 1 3 2 1 0 3 5 ∷ [];
          order = 0 ∷ 0 ∷ 0 ∷ 0 ∷ 0 ∷ 0 ∷ [];
        } }
    ensures find_after_move { outcome_of line_setting
        (line_scripts (move_to 2 ∷ []) (find_from 3 ∷ [])) ([]) ≡ record {
          calls = Moved 0 1 3 2 1 0 3 5 ∷ FoundBy 1 3 0 2 1 (Some 0) 5 6 8 ∷ [];
          order = 0 ∷ 0 ∷ 0 ∷ 0 ∷ 0 ∷ 0 ∷ 1 ∷ 1 ∷ 1 ∷ [];
        } }
    ensures two_moves { outcome_of line_setting (line_scripts (move_to 2 ∷ move_to 0 ∷ []) ([]))
        ([]) ≡ record {
          calls = Moved 0 1 3 2 1 0 3 5 ∷ Moved 0 2 2 0 2 6 10 13 ∷ [];
          order = 0 ∷ 0 ∷ 0 ∷ 0 ∷ 0 ∷ 0 ∷ 0 ∷ 0 ∷ 0 ∷ 0 ∷ 0 ∷ 0 ∷ 0 ∷ 0 ∷ [];
        } }
    ensures find_meets_coming { outcome_of line_setting
        (line_scripts (move_to 2 ∷ []) (find_from 2 ∷ [])) (0 ∷ 1 ∷ 1 ∷ []) ≡ record {
          calls = Moved 0 1 3 2 1 0 5 7 ∷ FoundBy 1 2 0 3 0 None 1 1 2 ∷ [];
          order = 0 ∷ 1 ∷ 1 ∷ 0 ∷ 0 ∷ 0 ∷ 0 ∷ 0 ∷ [];
        } }
    ensures find_meets_purged { outcome_of line_setting
        (line_scripts (move_to 2 ∷ move_to 0 ∷ []) (find_from 3 ∷ []))
        (0 ∷ 0 ∷ 0 ∷ 0 ∷ 0 ∷ 0 ∷ 1 ∷ 1 ∷ 0 ∷ 0 ∷ 0 ∷ 0 ∷ 0 ∷ 0 ∷ 0 ∷ 0 ∷ 1 ∷ []) ≡ record {
          calls = Moved 0 1 3 2 1 0 3 5 ∷ Moved 0 2 2 0 2 8 12 15
              ∷ AgainBy 1 3 0 (EmptyAt 2) 5 6 16 ∷ [];
          order = 0 ∷ 0 ∷ 0 ∷ 0 ∷ 0 ∷ 0 ∷ 1 ∷ 1 ∷ 0 ∷ 0 ∷ 0 ∷ 0 ∷ 0 ∷ 0 ∷ 0 ∷ 0 ∷ 1 ∷ [];
        } }
    ensures find_in_passage { outcome_of line_setting
        (line_scripts (move_to 2 ∷ []) (find_from 2 ∷ [])) (0 ∷ 0 ∷ 0 ∷ 0 ∷ 1 ∷ 1 ∷ 1 ∷ [])
        ≡ record {
          calls = Moved 0 1 3 2 1 0 3 8 ∷ FoundBy 1 2 0 2 1 None 2 4 6 ∷ [];
          order = 0 ∷ 0 ∷ 0 ∷ 0 ∷ 1 ∷ 1 ∷ 1 ∷ 0 ∷ 0 ∷ [];
        } }
    ensures find_before_move { outcome_of line_setting
        (line_scripts (move_to 2 ∷ []) (find_from 2 ∷ [])) (1 ∷ 1 ∷ 1 ∷ 1 ∷ []) ≡ record {
          calls = Moved 0 1 3 2 1 4 7 9 ∷ FoundBy 1 2 0 3 0 (Some 0) 5 0 3 ∷ [];
          order = 1 ∷ 1 ∷ 1 ∷ 1 ∷ 0 ∷ 0 ∷ 0 ∷ 0 ∷ 0 ∷ 0 ∷ [];
        } }
    ensures find_at_rest { outcome_of line_setting
        (line_scripts (move_to 2 ∷ []) (find_from 2 ∷ [])) ([]) ≡ record {
          calls = Moved 0 1 3 2 1 0 3 5 ∷ FoundBy 1 2 0 2 1 None 0 6 6 ∷ [];
          order = 0 ∷ 0 ∷ 0 ∷ 0 ∷ 0 ∷ 0 ∷ 1 ∷ [];
        } }
    ensures find_of_returning { outcome_of line_setting
        (line_scripts (move_to 2 ∷ move_to 3 ∷ []) (find_from 0 ∷ []))
        (1 ∷ 1 ∷ 1 ∷ 0 ∷ 0 ∷ 0 ∷ 0 ∷ 0 ∷ 0 ∷ 0 ∷ 1 ∷ 0 ∷ 0 ∷ 0 ∷ 0 ∷ 1 ∷ 1 ∷ []) ≡ record {
          calls = Moved 0 1 3 2 1 3 6 8 ∷ Moved 0 2 2 3 1 9 14 19
              ∷ FoundBy 1 0 0 3 2 (Some 1) 5 0 16 ∷ [];
          order = 1 ∷ 1 ∷ 1 ∷ 0 ∷ 0 ∷ 0 ∷ 0 ∷ 0 ∷ 0 ∷ 0 ∷ 1 ∷ 0 ∷ 0 ∷ 0 ∷ 0 ∷ 1 ∷ 1 ∷ 0 ∷ 0 ∷ 0
              ∷ [];
        } }
    ensures two_finds { outcome_of line_setting (line_scripts (move_to 2 ∷ [])
        (find_from 3 ∷ find_from 2 ∷ [])) (1 ∷ 0 ∷ 0 ∷ 0 ∷ 0 ∷ []) ≡ record {
          calls = Moved 0 1 3 2 1 1 4 6 ∷ FoundBy 1 3 0 3 0 None 0 0 0
              ∷ FoundBy 1 2 0 2 1 None 0 7 7 ∷ [];
          order = 1 ∷ 0 ∷ 0 ∷ 0 ∷ 0 ∷ 0 ∷ 0 ∷ 1 ∷ [];
        } }
    ensures find_of_off { outcome_of line_setting (line_scripts (switch_off ∷ [])
        (find_from 2 ∷ [])) ([]) ≡ record {
          calls = Switched 0 true 3 0 0 ∷ OffBy 1 2 0 3 0 (Some 0) 5 1 4 ∷ [];
          order = 0 ∷ 1 ∷ 1 ∷ 1 ∷ 1 ∷ [];
        } }
    ensures find_between_switches { outcome_of line_setting
        (line_scripts (switch_off ∷ switch_on ∷ []) (find_from 3 ∷ [])) (0 ∷ 1 ∷ 0 ∷ []) ≡ record {
          calls = Switched 0 true 3 0 0 ∷ Switched 0 false 3 0 2 ∷ OffBy 1 3 0 3 0 None 0 1 1
              ∷ [];
          order = 0 ∷ 1 ∷ 0 ∷ [];
        } }
{}

/// No line tells of a move where the script has none; and the tickets of a step's line ascend.
pub fn wrong_made()
    ensures unscripted { (history : History) → IsMade line_setting
        (line_scripts ([]) ([])) history (Moved 0 1 3 2 1 0 3 5) → ⊥ }
    ensures ascending { (scripts : Scripts) (history : History) (line : Done)
        (made : IsStepLine line_setting scripts history 0 line) → IsAscending made.seen }
{}
