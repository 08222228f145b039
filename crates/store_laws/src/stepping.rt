//! Laws of puts and looks that are made step by step, over a store.
ghost use Rattle.store_laws.specs.Stepping.{LegalPutsComeInTurn, PutsInTurnAreLegal, SteppedFindsAreFinds};

use directory::{front_is_legal, legal_next, next_is_decided, script_is_legal};

/// Where each put of a subscriber is the one that comes next after its puts so far, the history is
/// legal for it; and the puts of a legal history come so.
pub fn puts_in_turn_are_legal()
    ensures legal { PutsInTurnAreLegal }
    ensures turns { LegalPutsComeInTurn }
{
    legal_next();
    script_is_legal();
    front_is_legal();
    next_is_decided();
}

/// Looks that are told what their cells held, each at the cell that the words before ask for, are
/// those of a find of the history, and the answer that comes of them is that find's.
pub fn stepped_finds_are_finds()
    ensures { SteppedFindsAreFinds }
{}
