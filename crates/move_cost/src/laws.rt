//! Laws of what moves cost: each function does nothing, and its clauses are laws.
ghost use Rattle.move_cost.specs.Pace.{ErasuresAreWritten, MoveWeighs, PurgedIsBounded, PurgesAreCounted, WrittenIsBounded};
ghost use Rattle.move_cost.specs.Plans.{LinesAreWithinRate, NetworkLinesAreWithinRate, PlansArePaced};

use directory::{base_after, levels_after_move};
use region_plan::{plan_is_bounding, plan_means};

/// What a move weighs, level by level.
pub fn move_weighs()
    ensures { MoveWeighs }
{}

/// The marks that a move purges are those that are counted.
pub fn purges_are_counted()
    ensures { PurgesAreCounted }
{}

/// Of the writes of a move those that erase an address are its erasures.
pub fn erasures_are_written()
    ensures { ErasuresAreWritten }
{}

/// Where levels gather about half of their radius before they are renewed, a subscriber writes in
/// proportion to how far it goes.
pub fn written_is_bounded()
    ensures { WrittenIsBounded }
{
    levels_after_move();
    move_weighs();
}

/// A subscriber purges at most as many marks as it makes moves.
pub fn purged_is_bounded()
    ensures { PurgedIsBounded }
{
    base_after();
    purges_are_counted();
}

/// A plan that bounds its finds renews its levels at the pace that the bounds ask for.
pub fn plans_are_paced()
    ensures { PlansArePaced }
{}

/// What the moves of valid scripts cost over a plan that bounds its finds is within its rate.
pub fn lines_are_within_rate()
    ensures { LinesAreWithinRate }
{
    plans_are_paced();
    written_is_bounded();
    purged_is_bounded();
}

/// What the moves of valid scripts cost over the plan of a network with the trade-off k is within
/// the rate of clusters 2 k - 1 radii wide.
pub fn network_lines_are_within_rate()
    ensures { NetworkLinesAreWithinRate }
{
    plan_is_bounding();
    plan_means();
    lines_are_within_rate();
}
