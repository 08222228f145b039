//! Laws of finds that meet few moves.
ghost use Rattle.busy_finds.specs.FewMoves.{FindsMeetingFewMoves, PlanFindsMeetingFewMoves};

use crate::below::laws_below;
use stretch_laws::plans_track;

/// No find weighs more than the stretch times its distance, told at any of its tickets, and what the
/// moves within weigh, doubled for each of these moves; and twice the passage that was open before its
/// first look.
pub fn finds_meeting_few_moves()
    ensures { FindsMeetingFewMoves }
{
    laws_below();
}

/// And over a plan that bounds its finds each is within the plan's bound on this and on that passage.
pub fn plan_finds_meeting_few_moves()
    ensures { PlanFindsMeetingFewMoves }
{
    finds_meeting_few_moves();
    plans_track();
}
