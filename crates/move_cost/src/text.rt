//! The text of what moves cost.
ghost use Rattle.std.specs.Prelude.{◌≡◌, ◌++◌, IfOk, OnOk, flat_map, string_bytes};
ghost use Rattle.move_cost.specs.CostText.{costs_text_of, line_text};

use crate::line::CostLine;
use std::alloc::{AllocError, Global};

/// The text of what moves cost: a line for each subscriber, then `end` (docs/FORMATS.md).
pub fn costs_text(alloc: Global, lines: &[CostLine]) -> Result<Vec<u8>, AllocError>
    ensures { IfOk result (λ text. text.items ≡ costs_text_of lines.now) }
{
    let mut text = String::new(alloc);
    push_lines(&mut text, lines)?;
    text.push_str("end\n")?;
    Ok(text.into_bytes())
}

// The lines of all subscribers.
fn push_lines(text: &mut String, lines: &[CostLine]) -> Result<(), AllocError>
    ensures { OnOk result (string_bytes text.new
        ≡ string_bytes text.old ++ flat_map line_text lines.now) }
{
    for line in lines {
        push_line(text, line)?;
    }
    Ok(())
}

// The line of a subscriber.
fn push_line(text: &mut String, line: &CostLine) -> Result<(), AllocError>
    ensures { OnOk result (string_bytes text.new ≡ string_bytes text.old ++ line_text line.now) }
{
    write!(
        text,
        "cost {} moves {} moved {}",
        line.sub, line.moves, line.moved
    )?;
    write!(text, " written {} purged {}\n", line.written, line.purged)?;
    Ok(())
}
