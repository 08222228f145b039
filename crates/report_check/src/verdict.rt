//! What a checker says of a report.
ghost use Rattle.std.specs.Prelude.{◌≡◌, IfOk, codes};
ghost use Rattle.report_check.specs.VerdictText.{verdict_line_of};
ghost use Rattle.report_check.specs.Verdicts.{name_of};

use std::alloc::{AllocError, Global};
use std::fmt;

/// What is wrong with a report, in the order in which a line is tested.
#[derive(Clone, Copy, PartialEq, Eq, Debug)]
pub enum Flaw {
    /// The line isn't one that may stand there, or the report ends too early.
    Form,
    /// The order of actors doesn't give the call these tickets, or has tickets that no call holds.
    Tickets,
    /// The answer isn't where the subscriber stood at the find's last visit, or hasn't its number
    /// or its state.
    Place,
    /// The find is to be made again, and no visit of a move of its subscriber fell within it.
    Again,
    /// A move doesn't weigh its distance, or a quiet find weighs more than is promised.
    Weight,
}

impl Flaw {
    /// The name of a flaw, as it is written.
    pub fn name(self) -> &'static str
        ensures { result.now ≡ name_of self }
    {
        match self {
            Flaw::Form => "form",
            Flaw::Tickets => "tickets",
            Flaw::Place => "place",
            Flaw::Again => "again",
            Flaw::Weight => "weight",
        }
    }
}

/// Whether a report is sound; else its first flaw, and the line where it stands, from 1 on.
#[derive(Clone, Copy, PartialEq, Eq, Debug)]
pub enum Verdict {
    /// Each line is right.
    Sound,
    /// This line is the first that isn't, for this cause.
    Unsound { line: u32, cause: Flaw },
}

/// The line that tells a verdict: `yes`, or `no` with the line and the name of its flaw.
pub fn verdict_line(alloc: Global, verdict: Verdict) -> Result<Vec<u8>, AllocError>
    ensures { IfOk result (λ line. line.items ≡ verdict_line_of verdict) }
{
    let mut text = String::new(alloc);
    match verdict {
        Verdict::Sound => write!(text, "yes\n")?,
        Verdict::Unsound { line, cause } => write!(text, "no {line} {}\n", cause.name())?,
    }
    Ok(text.into_bytes())
}
