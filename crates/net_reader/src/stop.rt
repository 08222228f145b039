//! Why a line isn't taken.
ghost use Rattle.std.specs.Prelude.{◌≡◌};
ghost use Rattle.net_reader.specs.declared.stop.Stop.TheVariants.{Memory};

use crate::fault::InputCause;
use std::alloc::{AllocError, AllocFailed};

#[derive(Clone, Copy)]
pub(crate) enum Stop {
    Fault(InputCause),
    Memory,
}

impl From<AllocError> for Stop {
    ghost from_gives = { λ _ e. e ≡ Memory };

    fn from(_: AllocError) -> Self {
        Stop::Memory
    }
}

impl<T: Drop> From<AllocFailed<T>> for Stop {
    ghost from_gives = { λ _ e. e ≡ Memory };

    fn from(_: AllocFailed<T>) -> Self {
        Stop::Memory
    }
}
