//! Where a text is cut that has an input and a report.
ghost use Rattle.std.specs.Prelude.{◌≡◌, ◌≤◌, length};
ghost use Rattle.report_check.specs.Cuts.{behind_blanks, input_part, is_cut, report_part};
ghost use Rattle.net_reader.specs.TextLines.{is_blank, without_return};

use crate::cursor::Cursor;

/// The parts of a text that has an input and a report.
#[derive(Clone, Copy, Debug, PartialEq, Eq)]
pub struct CutText<'a> {
    /// What stands before the line that cuts the text.
    pub input: &'a [u8],
    /// What stands behind it.
    pub report: &'a [u8],
}

// Whether a byte is a space or a tab.
fn is_blank(byte: u8) -> bool
    ensures { result ≡ is_blank byte }
{
    byte == b' ' || byte == b'\t'
}

// The line, but for one carriage return at its end.
fn without_return(line: &[u8]) -> &[u8]
    ensures { result.now ≡ without_return line.now }
{
    if let [front @ .., last] = line {
        if *last == b'\r' {
            return front;
        }
    }
    line
}

// What stands behind the blanks at the front.
fn behind_blanks(text: &[u8]) -> &[u8]
    ensures { result.now ≡ behind_blanks text.now }
{
    let mut rest = text;
    'blanks: while let [byte, others @ ..] = rest {
        if !is_blank(*byte) {
            return rest;
        }
        rest = others;
    }
    rest
}

// Whether a line cuts the text.
fn is_cut(line: &[u8]) -> bool
    ensures { result ≡ is_cut line.now }
{
    let mut cursor = Cursor {
        rest: behind_blanks(without_return(line)),
    };
    cursor.word("report").is_some() && behind_blanks(cursor.rest).is_empty()
}

/// Cuts a text at its first line whose only field is `report`; blanks and one carriage return are
/// as in the lines of an input. Without such a line all is the input, and the report is empty.
pub fn cut_text(text: &[u8]) -> CutText<'_>
    ensures input { result.input.now ≡ input_part text.now }
    ensures report { result.report.now ≡ report_part text.now }
    ensures short { length result.report.now ≤ length text.now }
{
    let mut start = 0;
    'bytes: for at in 0..text.len() {
        if text[at] == b'\n' {
            if is_cut(&text[start..at]) {
                return CutText {
                    input: &text[..start],
                    report: &text[at + 1..],
                };
            }
            start = at + 1;
        }
    }
    if is_cut(&text[start..]) {
        return CutText {
            input: &text[..start],
            report: &[],
        };
    }
    CutText {
        input: text,
        report: &[],
    }
}
