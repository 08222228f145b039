//! The rule of the table, and the names of its steps.
use crate::view::{About, View};
use atomic_table::{Join, Play, Split, TableRule};
use entry_word::Act;

/// The rule of a tracker.
pub struct Watch;

impl TableRule<Act, View, About> for Watch {
    ghost use Rattle.station.specs.Rule.{KeepsRule};
    ghost use Rattle.station.specs.Plays.{first_view};

    ghost holds = { λ about. KeepsRule about };

    ghost first = { first_view };
}

// A turn is won or lost.
pub struct Turn;

impl Play<Act, View> for Turn {
    ghost use Rattle.station.specs.Plays.{Turns};

    ghost then = { Turns };
}

// A node is left.
pub struct Leave;

impl Play<Act, View> for Leave {
    ghost use Rattle.station.specs.Plays.{Leaves};

    ghost then = { Leaves };
}

// A ticket is drawn.
pub struct DrawTicket;

impl Play<Act, View> for DrawTicket {
    ghost use Rattle.station.specs.Plays.{DrawsTicket};

    ghost then = { DrawsTicket };
}

// A cell is read.
pub struct ReadCell;

impl Play<Act, View> for ReadCell {
    ghost use Rattle.station.specs.Plays.{ReadsCell};

    ghost then = { ReadsCell };
}

// A tally is read.
pub struct ReadTally;

impl Play<Act, View> for ReadTally {
    ghost use Rattle.station.specs.Plays.{ReadsTally};

    ghost then = { ReadsTally };
}

// A put is written.
pub struct WriteCell;

impl Play<Act, View> for WriteCell {
    ghost use Rattle.station.specs.Plays.{Writes};

    ghost then = { Writes };
}

// A tally is written.
pub struct WriteTally;

impl Play<Act, View> for WriteTally {
    ghost use Rattle.station.specs.Plays.{Tallies};

    ghost then = { Tallies };
}

// The rule is seen.
pub struct Witness;

impl Play<Act, View> for Witness {
    ghost use Rattle.station.specs.Plays.{Witnesses};

    ghost then = { Witnesses };
}

// The first actor of a view is dealt to a new seat.
pub struct Deal;

impl Split<View> for Deal {
    ghost use Rattle.station.specs.Plays.{view_of_first, view_of_rest};

    ghost left = { view_of_rest };

    ghost right = { view_of_first };
}

// A note is taken.
pub struct TakeNote;

impl Split<View> for TakeNote {
    ghost use Rattle.station.specs.Plays.{note_of};

    ghost left = { λ view. view };

    ghost right = { note_of };
}

// A note is heard.
pub struct Hear;

impl Join<View> for Hear {
    ghost use Rattle.station.specs.Plays.{spent_view, view_with_note};

    ghost both = { view_with_note };

    ghost spent = { spent_view };
}

// What was heard is learned.
pub struct Learn;

impl Play<Act, View> for Learn {
    ghost use Rattle.station.specs.Plays.{Learns};

    ghost then = { Learns };
}
