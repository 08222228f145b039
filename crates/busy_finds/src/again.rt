//! Laws of finds that are to be made again.
ghost use Rattle.busy_finds.specs.Again.{ChasedMeetsCommits, EmptyMeetsPurge};
ghost use Rattle.busy_finds.specs.Altogether.{AgainsAreFew, ChasedFindsAreFew, MissedFindsAreFew};
ghost use Rattle.busy_finds.specs.Within.{NoEntryMeetsTop};

use crate::below::laws_below;

/// Where a find met no address at all, a move that renews the top level was committed within it, and
/// erased an address of that level within it.
pub fn no_entry_meets_the_top()
    ensures { NoEntryMeetsTop }
{
    laws_below();
}

/// Where a find read that a node is empty, a move that renews the top level has purged that node since
/// the look at which the find's chase began.
pub fn empty_meets_a_purge()
    ensures { EmptyMeetsPurge }
{
    laws_below();
}

/// Where a find's chase took too many hops, at least three moves were committed since the look at which
/// it began.
pub fn chased_meets_commits()
    ensures { ChasedMeetsCommits }
{
    laws_below();
}

/// Of finds of a subscriber that follow one another no more met no address, or a node that was
/// emptied, than moves of the subscriber renewed the top level.
pub fn missed_finds_are_few()
    ensures { MissedFindsAreFew }
{
    laws_below();
    empty_meets_a_purge();
    no_entry_meets_the_top();
}

/// Of finds of a subscriber that follow one another the chases of no more took too many hops than a
/// third of its commits, and no more are to be made again than moves renewed the top level and a third
/// of the commits.
pub fn agains_are_few()
    ensures chased { ChasedFindsAreFew }
    ensures all { AgainsAreFew }
{
    missed_finds_are_few();
    chased_meets_commits();
}
