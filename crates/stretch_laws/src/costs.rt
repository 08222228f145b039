//! Laws of what a find pays, part by part.
ghost use Rattle.stretch_laws.specs.Costs.{AfterConfirm, AtRest, ClimbsEndEarly, CurrentAfterConfirm, InPassage, NewBeforeCommit, OldBeforeCommit, ReadingIsBounded};

use trail_laws::{
    entries_tell, levels_stay_near, marks_lead_by_phase, passage_is_open, rest_is_settled,
};

/// A find that isn't where its subscriber stands meets an address at a level whose radius is less
/// than four times the distance.
pub fn climb_ends_early()
    ensures { ClimbsEndEarly }
{
    levels_stay_near();
}

/// The reading up to a level weighs at most four times its radius, times the width of clusters and
/// the number of readers.
pub fn reading_is_bounded()
    ensures { ReadingIsBounded }
{}

/// Before the commit of a move, an old address costs at most the width and once more the radius.
pub fn old_address_before_commit()
    ensures { OldBeforeCommit }
{
    entries_tell();
    marks_lead_by_phase();
    levels_stay_near();
}

/// Before the commit of a move, the new address costs at most three times the width, and the
/// distance.
pub fn new_address_before_commit()
    ensures { NewBeforeCommit }
{
    entries_tell();
    marks_lead_by_phase();
    levels_stay_near();
}

/// Between commit and confirm each address costs at most the width, once more the radius, and twice
/// the passage.
pub fn address_in_passage()
    ensures { InPassage }
{
    entries_tell();
    marks_lead_by_phase();
    levels_stay_near();
    passage_is_open();
}

/// After the confirm each address costs at most three times the width, the radius and the distance.
pub fn address_after_confirm()
    ensures { AfterConfirm }
{
    entries_tell();
    marks_lead_by_phase();
    levels_stay_near();
}

/// After the confirm an address that isn't being replaced costs at most the width and once more the
/// radius.
pub fn current_address_after_confirm()
    ensures { CurrentAfterConfirm }
{
    entries_tell();
    marks_lead_by_phase();
    levels_stay_near();
}

/// At rest each address costs at most the width and once more the radius.
pub fn address_at_rest()
    ensures { AtRest }
{
    entries_tell();
    marks_lead_by_phase();
    levels_stay_near();
    rest_is_settled();
}
