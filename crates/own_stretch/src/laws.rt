//! Laws of a plan's own stretches. Each public function is a law, and does nothing.
ghost use Rattle.own_stretch.specs.OwnStretch.{OwnStretchesAreLeast};
ghost use Rattle.own_stretch.specs.Plans.{PlanFindsKeepOwnStretch};

use busy_finds::{finds_end_by_level, quiet_finds_meet_no_commit};
use stretch_laws::plans_track;

/// The own stretches of a setting are the least numbers that bound what finds from its nodes pay up
/// to each level.
pub fn own_stretches_are_least()
    ensures { OwnStretchesAreLeast }
{}

/// Over a plan that bounds its finds, a find with no commit of its subscriber within it, as a quiet
/// one, weighs at most the plan's own stretch times its distance, and twice the passage that was open
/// before its first look; and any find at most the plan's own stretch of any find times its distance, or times
/// the greatest threshold that the moves within reached, if that is more, with twice that passage
/// and what these moves weigh.
pub fn plan_finds_keep_own_stretch()
    ensures { PlanFindsKeepOwnStretch }
{
    own_stretches_are_least();
    finds_end_by_level();
    quiet_finds_meet_no_commit();
    plans_track();
}
