//! Laws of what is read.
ghost use Rattle.report_check.specs.Laws.{CallsAreText, NumbersAreText, WordsAreText};

/// A word is read just where it stands.
pub fn words_are_text()
    ensures { WordsAreText }
{}

/// A number is read just as it is written, below the limit.
pub fn numbers_are_text()
    ensures { NumbersAreText }
{}

/// The line of a call is read just as it is written, where the call has the slot.
pub fn calls_are_text()
    ensures { CallsAreText }
{}
