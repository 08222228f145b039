//! Why not all was read, or a text wasn't written whole, and the status that each ends with.
ghost use Rattle.std.specs.Prelude.{◌≡◌};
ghost use Rattle.track.specs.declared.stop.ReadStop.TheVariants as reading;
ghost use Rattle.track.specs.declared.stop.WriteStop.TheVariants as writing;
ghost use Rattle.track.specs.Transfer.{read_status, write_status};

use crate::status::Status;
use std::alloc::AllocError;

// Why not all was read.
#[derive(Clone, Copy)]
pub(crate) enum ReadStop {
    OutOfMemory,
    Failed,
    TooLong,
}

// Why a text wasn't written whole.
#[derive(Clone, Copy)]
pub(crate) enum WriteStop {
    OutOfMemory,
    Failed,
}

impl From<AllocError> for ReadStop {
    ghost from_gives = { λ _ stop. stop ≡ reading.OutOfMemory };

    fn from(_: AllocError) -> Self {
        ReadStop::OutOfMemory
    }
}

impl From<AllocError> for WriteStop {
    ghost from_gives = { λ _ stop. stop ≡ writing.OutOfMemory };

    fn from(_: AllocError) -> Self {
        WriteStop::OutOfMemory
    }
}

impl From<ReadStop> for Status {
    ghost from_gives = { λ stop status. status ≡ read_status stop };

    fn from(stop: ReadStop) -> Self {
        match stop {
            ReadStop::OutOfMemory => Status::OutOfMemory,
            ReadStop::Failed => Status::ReadFailed,
            ReadStop::TooLong => Status::TooLong,
        }
    }
}

impl From<WriteStop> for Status {
    ghost from_gives = { λ stop status. status ≡ write_status stop };

    fn from(stop: WriteStop) -> Self {
        match stop {
            WriteStop::OutOfMemory => Status::OutOfMemory,
            WriteStop::Failed => Status::WriteFailed,
        }
    }
}
