//! How the program ends.
ghost use Rattle.std.specs.Prelude.{◌≡◌};
ghost use Rattle.track.specs.Ends.{status_number};

/// The status that the program ends with.
#[derive(Clone, Copy)]
pub enum Status {
    /// The whole text was written.
    Done = 0,
    /// The line that refuses the input was written.
    Refused = 1,
    /// The words are no form, or `run` without threads; nothing was read or written.
    BadWords = 2,
    /// Want of memory.
    OutOfMemory = 3,
    /// A read failed; nothing was written.
    ReadFailed = 4,
    /// A write failed; what was written begins the text.
    WriteFailed = 5,
    /// The input, or a text with a report, is too long; nothing was written.
    TooLong = 6,
    /// The line was written that tells why a report is unsound.
    Unsound = 8,
}

impl From<Status> for u8 {
    ghost from_gives = { λ status number. number ≡ status_number status };

    fn from(status: Status) -> Self {
        status as u8
    }
}
