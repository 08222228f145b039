//! The laws of outcomes.
ghost use Rattle.trail_laws.specs.RightOutcomes.{LinesAreInTurn, NumbersRise, OutcomesAreRight};

use crate::answers::{again_has_its_cause, answers_are_right, numbers_never_fall};
use directory::{
    all_scripts_done, each_visit_is_next, every_order_is_legal, lines_are_made, lines_grow,
    tickets_tell,
};

/// Under every order, each line of a find is right: an answer names the node where its subscriber
/// stood at the find's last visit, and a find that is to be made again had a visit of a move of its
/// subscriber within it. Of two answers the later one tells no lower number of their subscriber.
pub fn outcomes_are_right()
    ensures lines { OutcomesAreRight }
    ensures numbers { NumbersRise }
{
    answers_are_right();
    again_has_its_cause();
    numbers_never_fall();
    each_visit_is_next();
    all_scripts_done();
    every_order_is_legal();
    lines_are_made();
}

/// In every history of scripts each line of an actor's finds begins behind the last visit of those
/// before it, so that along its finds of a subscriber the numbers never fall.
pub fn lines_are_in_turn()
    ensures { LinesAreInTurn }
{
    lines_are_made();
    lines_grow();
    tickets_tell();
}
