//! Why bytes make no text of an input.
ghost use Rattle.std.specs.Prelude.{◌≡◌};
ghost use Rattle.json_form.specs.declared.fault.JsonFault.TheVariants as faults;

use std::alloc::AllocError;

/// Why bytes make no text of an input.
#[derive(Clone, Copy, Debug, PartialEq, Eq)]
pub enum JsonFault {
    /// The bytes aren't UTF-8, or they are no JSON that `serde_json` reads.
    Json,
    /// They are JSON, and it hasn't the shape of an input.
    Shape,
    /// Memory is wanting, and of the bytes nothing is said.
    OutOfMemory,
}

impl From<AllocError> for JsonFault {
    ghost from_gives = { λ _ fault. fault ≡ faults.OutOfMemory };

    fn from(_: AllocError) -> Self {
        JsonFault::OutOfMemory
    }
}
