//! Laws of ways: how near the levels stay, and how far the marks lead.
ghost use Rattle.trail_laws.specs.Phases.{AddressesLeadByPhase, PhasesCover, RestEndsItsCourse, RestIsSettled};
ghost use Rattle.trail_laws.specs.Ways.{AddressesLeadShortly, ComingsLeadShortly, LevelsStayNear, PassagesAreOpen, StandsInside};
ghost use Rattle.trail_laws.specs.Within.{HistoryFrontsAreLegal, QuietFindsStandStill, QuietFindsStayWithin};

use crate::marks::{entries_tell, marks_lead, marks_tell};
use directory::{
    cell_of_puts, commits_are_moves, front_is_legal, legal_is_amid, read_of_legal,
    steps_begin_at_rest, told_by_writes,
};

/// Each level has an address at the home of a node that is less than the level's threshold from
/// where the subscriber stands.
pub fn levels_stay_near()
    ensures near { LevelsStayNear }
    ensures inside { StandsInside }
{
    legal_is_amid();
    read_of_legal();
    told_by_writes();
}

/// A Coming whose move is committed leaves its passage open.
pub fn passage_is_open()
    ensures { PassagesAreOpen }
{
    cell_of_puts();
    front_is_legal();
    commits_are_moves();
    marks_tell();
}

/// From the node of each address, and from the node that a Coming names, the marks lead to where
/// the subscriber stands on a short way.
pub fn marks_lead_shortly()
    ensures addresses { AddressesLeadShortly }
    ensures comings { ComingsLeadShortly }
{
    legal_is_amid();
    read_of_legal();
    told_by_writes();
    marks_tell();
    entries_tell();
    marks_lead_by_phase();
    phases_cover();
}

/// From the node of each address the marks lead to where the subscriber stands on a way that is
/// short in each phase of a move.
pub fn marks_lead_by_phase()
    ensures { AddressesLeadByPhase }
{
    legal_is_amid();
    read_of_legal();
    told_by_writes();
}

/// After a legal history a subscriber is before a commit, in a passage, or settled.
pub fn phases_cover()
    ensures { PhasesCover }
{
    legal_is_amid();
    read_of_legal();
    told_by_writes();
    marks_tell();
    levels_stay_near();
}

/// A subscriber that has nothing left to put is settled, and all its addresses are current; it
/// stands where its course ends, and is off where the course is.
pub fn rest_is_settled()
    ensures settled { RestIsSettled }
    ensures ends { RestEndsItsCourse }
{
    legal_is_amid();
    read_of_legal();
    told_by_writes();
}

/// A quiet find that is sure of a bound where it begins has an answer within that bound.
pub fn quiet_finds_stay_within()
    ensures { QuietFindsStayWithin }
{
    marks_tell();
    entries_tell();
    marks_lead();
    cell_of_puts();
    front_is_legal();
    read_of_legal();
    steps_begin_at_rest();
}

/// A front of a legal history is legal.
pub fn front_of_history_is_legal()
    ensures { HistoryFrontsAreLegal }
{
    front_is_legal();
}

/// While a find is quiet its subscriber stands still, and a passage that is open at its first look
/// weighs no more than what is open at its last.
pub fn quiet_finds_stand_still()
    ensures { QuietFindsStandStill }
{
    marks_tell();
    entries_tell();
    marks_lead();
    cell_of_puts();
    front_is_legal();
    read_of_legal();
    steps_begin_at_rest();
    rest_is_settled();
    passage_is_open();
    levels_stay_near();
}
