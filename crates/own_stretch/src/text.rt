//! The line of a plan's stretches.
ghost use Rattle.std.specs.Prelude.{◌≡◌, ◌++◌, ◌∷◌, [], IfOk, codes};
ghost use Rattle.own_stretch.specs.StretchText.{stretch_text_of};
ghost use Rattle.plan_laws.specs.Examples.{line_of_four};

use crate::stretches::OwnStretches;
use region_plan::Plan;
use std::alloc::{AllocError, Global};

/// The line of a plan's stretches (docs/FORMATS.md). The only fault is want of memory.
pub fn stretch_text(
    alloc: Global,
    plan: &Plan,
    own_stretches: OwnStretches,
) -> Result<Vec<u8>, AllocError>
    ensures { IfOk result (λ text. text.items ≡ stretch_text_of plan.now own_stretches) }
{
    let mut text = String::new(alloc);
    let OwnStretches { own, any } = own_stretches;
    write!(text, "stretch {} own {} any {}\n", plan.stretch(), own, any)?;
    Ok(text.into_bytes())
}

/// The line of the line of four nodes, computed.
pub fn line_of_stretches()
    ensures { stretch_text_of line_of_four (record { own = 14; any = 27 })
        ≡ codes "stretch 144 own 14 any 27" ++ 10 ∷ [] }
{}
