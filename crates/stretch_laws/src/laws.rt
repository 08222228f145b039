//! Laws of the weight of finds.
ghost use Rattle.stretch_laws.specs.Tracking.{QuietFindsAreNear, RestingFindsAreNearer};

use trail_laws::{
    entries_tell, front_of_history_is_legal, levels_stay_near, marks_lead_by_phase,
    marks_lead_shortly, marks_tell, passage_is_open, quiet_finds_stand_still,
    quiet_finds_stay_within, rest_is_settled,
};

/// A quiet find has its answer, and travels at most the stretch times the distance, and twice the
/// open passage.
pub fn quiet_finds_are_near()
    ensures { QuietFindsAreNear }
{
    front_of_history_is_legal();
    levels_stay_near();
    entries_tell();
    marks_lead_shortly();
    quiet_finds_stay_within();
    quiet_finds_stand_still();
    passage_is_open();
}

/// Where its subscriber has nothing left to put, a quiet find travels less.
pub fn resting_finds_are_nearer()
    ensures { RestingFindsAreNearer }
{
    front_of_history_is_legal();
    levels_stay_near();
    marks_tell();
    entries_tell();
    marks_lead_shortly();
    marks_lead_by_phase();
    quiet_finds_stay_within();
    quiet_finds_stand_still();
    passage_is_open();
    rest_is_settled();
}
