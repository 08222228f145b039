//! What the laws of this crate rest on.
ghost use Rattle.busy_finds.specs.LawsBelow.{PriceLaws};

use directory::{
    cell_after, commits_are_moves, legal_is_amid, read_of_legal, same_key_means, told_by_writes,
};
use stretch_laws::reading_is_bounded;
use trail_laws::{
    coming_stands, entries_tell, front_of_history_is_legal, levels_stay_near, marks_lead,
    marks_tell, passage_is_open, phases_cover,
};

/// The laws of the crates below that those of this crate rest on, in one record.
pub(crate) fn laws_below()
    ensures { PriceLaws }
{
    legal_is_amid();
    read_of_legal();
    told_by_writes();
    commits_are_moves();
    cell_after();
    same_key_means();
    front_of_history_is_legal();
    levels_stay_near();
    marks_tell();
    entries_tell();
    coming_stands();
    phases_cover();
    marks_lead();
    passage_is_open();
    reading_is_bounded();
}
