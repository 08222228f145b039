//! What holds of the scripts of valid inputs.
ghost use Rattle.scripts.specs.Laws.{ScriptsAreValid, VisitsAreFew};

use directory::{each_visit_is_next, moves_are_short, own_after, turns_are_few};

/// The scripts of a valid input are valid.
pub fn scripts_are_valid()
    ensures { ScriptsAreValid }
{}

/// No history of an input's scripts has more visits than `most_visits` says.
pub fn visits_are_few()
    ensures { VisitsAreFew }
{
    each_visit_is_next();
    moves_are_short();
    own_after();
    turns_are_few();
}
