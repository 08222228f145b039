//! Laws of answers, and of what finds read on the way to them.
ghost use Rattle.trail_laws.specs.Chased.{ChasesRise};
ghost use Rattle.trail_laws.specs.Rightness.{AgainHasItsCause, AnswersAreRight, NumbersNeverFall, QuietFindsAnswer};

use crate::marks::{entries_tell, marks_lead, marks_tell};
use directory::{
    cell_of_puts, front_is_legal, legal_is_amid, read_of_legal, steps_begin_at_rest, told_by_writes,
};

/// A find that answers names the node where its subscriber stands at the find's last look, its
/// number, and whether it is off.
pub fn answers_are_right()
    ensures { AnswersAreRight }
{
    marks_tell();
    entries_tell();
    front_is_legal();
}

/// Of two finds of a subscriber the one with the later last look has no lower number.
pub fn numbers_never_fall()
    ensures { NumbersNeverFall }
{
    marks_tell();
    entries_tell();
    front_is_legal();
}

/// A quiet find has its answer; where a find is to be made again, a visit of a move of its
/// subscriber fell within it.
pub fn again_has_its_cause()
    ensures quiet { QuietFindsAnswer }
    ensures cause { AgainHasItsCause }
{
    marks_tell();
    entries_tell();
    marks_lead();
    cell_of_puts();
    front_is_legal();
    read_of_legal();
    steps_begin_at_rest();
}

/// Along the chase of a find, whatever visits fall between its looks, no mark has a lower number
/// than the one before, but for a Here to which a Coming leads back; and the numbers of the Gones
/// rise.
pub fn chases_rise()
    ensures { ChasesRise }
{
    marks_tell();
    entries_tell();
    front_is_legal();
    legal_is_amid();
    read_of_legal();
    told_by_writes();
}
