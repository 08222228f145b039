//! How an answer becomes a code and a value in a place that C lent.
ghost use Rattle.std.specs.Prelude.{◌≡◌, MatchResult};
ghost use Rattle.track_c.specs.Faults.{Tells, code_of};

use crate::fault::{DONE, Fault};

/// Tells an answer: its value goes into the place, or the place is as before.
pub fn tell<T: Copy>(place: &mut T, answer: Result<T, Fault>) -> u32
    ensures { Tells answer result place.old place.new }
{
    match answer {
        Ok(value) => {
            *place = value;
            DONE
        }
        Err(fault) => fault.code(),
    }
}

/// The code of a call that has no other answer.
pub fn done(answer: Result<(), Fault>) -> u32
    ensures { MatchResult answer (λ _. result ≡ 0) (λ fault. result ≡ code_of fault) }
{
    match answer {
        Ok(()) => DONE,
        Err(fault) => fault.code(),
    }
}
