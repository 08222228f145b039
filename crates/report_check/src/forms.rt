//! The law of the form of reports.
ghost use Rattle.report_check.specs.Forms.{ReadReportsAreText, ReportsAreRead};

/// A text is read as an outcome just where it is the text of that outcome, its calls are those of
/// the slots, and its numbers can be written.
pub fn reports_are_read()
    ensures whole { ReportsAreRead }
    ensures only { ReadReportsAreText }
{}
