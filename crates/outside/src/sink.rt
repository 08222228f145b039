//! What a sink for bytes is.
ghost use Rattle.std.specs.Prelude.{◌≡◌, ◌<◌, ℕ, List, Option, length, take};
ghost use Rattle.outside.specs.Bytes.{append_known};
ghost use Rattle.outside.specs.Calls.{count_given, GivesWithin, CountsWrite};

/// What one call of [`Sink::write`] answers.
#[derive(Clone, Copy, Debug, PartialEq, Eq)]
pub enum Gave {
    /// So many bytes of the piece end what was written now; at least one.
    Wrote(usize),
    /// The write failed. No byte counts as written, though a writer below may have taken some.
    Failed,
}

/// Where bytes are written one piece after another.
pub trait Sink {
    /// How often the sink has failed. It never falls, and stands still at 2^64-1.
    ghost faults: { Self → ℕ };

    /// The bytes that were written, where the sink tells them.
    ghost written: { Self → Option (List ℕ) };

    /// Writes a front of the piece.
    fn write(&mut self, piece: &[u8]) -> Gave
        requires { 0 < length piece.now }
        ensures within { GivesWithin result (length piece.now) }
        ensures bytes { written self.new
            ≡ append_known (written self.old) (take (count_given result) piece.now) }
        ensures count { CountsWrite result (faults self.old) (faults self.new) };
}
