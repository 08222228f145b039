//! Laws of outcomes.
ghost use Rattle.directory.specs.Statements.{CallerLinesGrow, CallersCount, CallersKept, CallersRead, FindsFollow, LinesAreMade, StepLinesGrow};

/// Each line of an outcome is tied to its visits: of a move or a switch to all its writes, of a
/// find to all its looks; and the finds of a caller lie one after another.
pub fn lines_are_made()
    ensures lines { LinesAreMade }
    ensures follow { FindsFollow }
{}

/// What a visit adds to the lines: a step's last visit its line, a look a line where the find has
/// its answer; and the visits of others change nothing of a caller.
pub fn lines_grow()
    ensures steps { StepLinesGrow }
    ensures finds { CallerLinesGrow }
    ensures read { CallersRead }
    ensures kept { CallersKept }
    ensures count { CallersCount }
{}
