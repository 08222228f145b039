//! An example that meets what the laws ask.
ghost use Rattle.std.specs.Prelude.{◌≡◌, ◌+◌, ◌++◌, [], ◌∷◌, Some, replicate};
ghost use Rattle.busy_finds.specs.Examples.{line_call, line_meeting, meeting_history, meeting_order};
ghost use Rattle.busy_finds.specs.FewMoves.{doubled_by};
ghost use Rattle.busy_finds.specs.Levels.{cost_up_to, IsOwnStretch, level_for};
ghost use Rattle.busy_finds.specs.Prices.{GathersHalf, gathered_within, greatest_threshold, moves_within, price, weight_of};
ghost use Rattle.directory.specs.Histories.{before};
ghost use Rattle.directory.specs.Outcomes.{outcome_of};
ghost use Rattle.directory.specs.declared.answers.Done.TheVariants.{Moved, Found as FoundBy};
ghost use Rattle.plan_laws.specs.Examples.{line_setting};

use crate::plans::plans_gather_half;
use plan_laws::line_has_its_plan;

/// A find on the line of four that meets a move: it weighs 4, at a distance of 3. Its price is 137
/// times 3 and the move's weight of 1; the highest level that the move renews had gathered 1. By the
/// one move and its weight alone it may weigh 137 times 8, which is twice 3 and 1. The readers of
/// node 0 up to the level for that distance cost 8, and the line's own stretch is 14, which finds from
/// node 3 to node 1 need.
pub fn line_price()
    ensures half { GathersHalf line_setting }
    ensures travels { outcome_of line_setting line_meeting meeting_order ≡ record {
      calls = Moved 0 1 3 2 1 2 5 11 ∷ FoundBy 1 0 0 2 1 (Some 1) 4 0 9 ∷ [];
      order = meeting_order ++ replicate 2 0;
    } }
    ensures weighs { weight_of (moves_within line_setting 0 meeting_history 0 9) ≡ 1 }
    ensures reaches { greatest_threshold line_setting
        (moves_within line_setting 0 meeting_history 0 9) ≡ 1 }
    ensures gathers { gathered_within line_setting 0 meeting_history 0 9 ≡ 1 }
    ensures costs { price line_setting 3 2 line_call (before 0 meeting_history)
        (moves_within line_setting 0 meeting_history 0 9) ≡ 412 }
    ensures doubles { doubled_by (moves_within line_setting 0 meeting_history 0 9) 3 ≡ 8 }
    ensures level { level_for line_setting 3 ≡ 2 }
    ensures dearest { cost_up_to line_setting 0 2 ≡ 8 }
    ensures own { IsOwnStretch line_setting 14 }
    ensures attained { cost_up_to line_setting 3 (level_for line_setting 2) + 2 ≡ 28 }
{
    line_has_its_plan();
    plans_gather_half();
}
