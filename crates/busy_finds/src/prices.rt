//! Laws of the weight of finds, quiet or not.
ghost use Rattle.busy_finds.specs.Altogether.{FindsInTurnAreBounded};
ghost use Rattle.busy_finds.specs.Levels.{FindsEndByLevel, FindsKeepAnyStretch, FindsKeepOwnStretch};
ghost use Rattle.busy_finds.specs.Prices.{EveryFindIsBounded, FindsBetweenCommits, FindsHaveTheirPrice};
ghost use Rattle.busy_finds.specs.Within.{QuietFindsMeetNoCommit};

use crate::below::laws_below;
use crate::few::finds_meeting_few_moves;

/// No find weighs more than its price, whatever falls within it and whatever it answers: the
/// stretch times its distance, or times the greatest threshold that a move within it reached; twice
/// the passage that was open; and the weight of these moves. A find with no commit within weighs at
/// most the stretch times its distance, and twice that passage. And no find weighs more than the
/// stretch times its distance, told at any of its tickets, and what the moves within had gathered,
/// and twice that passage.
pub fn every_find_has_its_price()
    ensures price { FindsHaveTheirPrice }
    ensures between { FindsBetweenCommits }
    ensures bounded { EveryFindIsBounded }
{
    laws_below();
    finds_meeting_few_moves();
}

/// Finds of a subscriber that follow one another, as those of one caller do, weigh in all at most
/// so many times their distances and what the subscriber moved, once for each level, and twice the
/// passages that were open before them.
pub fn finds_in_turn_are_bounded()
    ensures { FindsInTurnAreBounded }
{
    every_find_has_its_price();
}

/// A find whose climb ends at or below a level weighs at most what its origin's readers up to that
/// level cost, its distance, twice the passage that was open before its first look, and the weight
/// of the moves within. So a find with no commit within keeps to a setting's own stretch, which may
/// be far less than that of all settings, and each find to its price by such a stretch.
pub fn finds_end_by_level()
    ensures levels { FindsEndByLevel }
    ensures own { FindsKeepOwnStretch }
    ensures any { FindsKeepAnyStretch }
{
    laws_below();
}

/// While a find is quiet none of its subscriber's moves is committed: so what holds of finds with no
/// commit within them holds of quiet ones.
pub fn quiet_finds_meet_no_commit()
    ensures { QuietFindsMeetNoCommit }
{}
