//! The line that refuses an input.
ghost use Rattle.std.specs.Prelude.{◌≡◌, ◌++◌, IfOk, OnOk};
ghost use Rattle.report_text.specs.ReportText.{cause_field, refused_line_of};

use crate::sums::push_field;
use net_reader::{InputCause, InputFault};
use std::alloc::{AllocError, Global};

// Why an input is refused.
fn push_cause(text: &mut Vec<u8>, cause: InputCause) -> Result<(), AllocError>
    ensures { OnOk result (text.new.items ≡ text.old.items ++ cause_field cause) }
{
    match cause {
        InputCause::Form => text.extend_from_slice(b" form"),
        InputCause::TooLarge => text.extend_from_slice(b" too-large"),
        InputCause::TooMany => text.extend_from_slice(b" too-many"),
        InputCause::Unknown => text.extend_from_slice(b" unknown"),
        InputCause::Switched => text.extend_from_slice(b" switched"),
        InputCause::Nowhere => text.extend_from_slice(b" nowhere"),
        InputCause::Unfinished => text.extend_from_slice(b" unfinished"),
        InputCause::Apart { node } => push_field(text, " apart", u128::from(node)),
    }
}

/// The line that refuses an input: where its first fault is, and what.
pub fn refused_line(alloc: Global, fault: InputFault) -> Result<Vec<u8>, AllocError>
    ensures { IfOk result (λ line. line.items ≡ refused_line_of fault) }
{
    let mut text = Vec::new(alloc);
    push_field(&mut text, "refused", u128::from(fault.line))?;
    push_cause(&mut text, fault.cause)?;
    text.push(b'\n')?;
    Ok(text)
}
