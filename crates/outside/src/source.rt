//! What a source of bytes is.
ghost use Rattle.std.specs.Prelude.{◌≡◌, ◌<◌, ℕ, List, Option, length, take, drop};
ghost use Rattle.outside.specs.Bytes.{prepend_known, IsAtEnd};
ghost use Rattle.outside.specs.Calls.{count_taken, TakesWithin, CountsRead};

/// What one call of [`Source::read`] or [`Source::fill`] answers.
#[derive(Clone, Copy, Debug, PartialEq, Eq)]
pub enum Took {
    /// So many bytes stand at the front of the buffer now; at least one.
    Got(usize),
    /// Nothing is left.
    End,
    /// The read failed, and nothing was taken.
    Failed,
}

/// Bytes that are read one piece after another.
pub trait Source {
    /// How often the source has failed. It never falls, and stands still at 2^64-1.
    ghost faults: { Self → ℕ };

    /// The bytes that are left, where the source tells them.
    ghost left: { Self → Option (List ℕ) };

    /// Moves bytes that are left to the front of the buffer. What the call didn't fill stays as it
    /// was.
    fn read(&mut self, into: &mut [u8]) -> Took
        requires { 0 < length into.old }
        ensures within { TakesWithin result (length into.old) }
        ensures bytes { left self.old ≡ prepend_known (take (count_taken result) into.new) (left
            self.new) }
        ensures rest { drop (count_taken result) into.new ≡ drop (count_taken result) into.old }
        ensures end { result ≡ Took.End → IsAtEnd (left self.old) }
        ensures count { CountsRead result (faults self.old) (faults self.new) };

    /// Moves bytes that are left to the front of the buffer, as [`read`](Source::read) does, but
    /// the rest of the buffer may hold anything then. So a source over a reader needs no copy.
    fn fill(&mut self, into: &mut [u8]) -> Took
        requires { 0 < length into.old }
        ensures within { TakesWithin result (length into.old) }
        ensures bytes { left self.old ≡ prepend_known (take (count_taken result) into.new) (left
            self.new) }
        ensures end { result ≡ Took.End → IsAtEnd (left self.old) }
        ensures count { CountsRead result (faults self.old) (faults self.new) }
    {
        self.read(into)
    }
}
