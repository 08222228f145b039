//! Bytes on their way into a sink.
ghost use Rattle.std.specs.Prelude.{◌≡◌, ◌≤◌, ◌+◌, ◌++◌, [], length, IfErr, IfOk, OnOk};
ghost use Rattle.outside.specs.Bytes.{append_known};
ghost use Rattle.track.specs.declared.stop.WriteStop.TheVariants.{Failed};
ghost use Rattle.track.specs.Transfer.{HasFaultedOnce, IsOnItsWay, IsWrittenPart};

use crate::stop::WriteStop;
use crate::transfer::write_all;
use outside::Sink;
use std::alloc::{AllocError, Global};
use std::marker::Model;

// How many bytes wait at most, so that the writer is called seldom.
const ROOM: usize = 65_536;

// Bytes that wait for a sink, in room for 65,536. They are written where one piece more doesn't
// fit.
#[derive(Drop)]
pub(crate) struct Outlet {
    waiting: Vec<u8>,
}

impl Model for Outlet {
    ghost use Rattle.std.specs.Prelude.{◌≤◌, List, ℕ, length, vec_capacity};

    ghost Value = { List ℕ };

    ghost view = { λ o. o.waiting.items };

    ghost invariant = { λ o. (length o.waiting.items ≤ 65536) × (65536 ≤ vec_capacity o.waiting) };
}

impl Outlet {
    // No byte waits.
    pub(crate) fn new(alloc: Global) -> Result<Outlet, AllocError>
        ensures { IfOk result (λ outlet. outlet ≡ []) }
    {
        Ok(Outlet {
            waiting: Vec::with_capacity(alloc, ROOM)?,
        })
    }

    // The bytes wait behind those that do.
    fn hold(&mut self, piece: &[u8])
        requires { length self.old + length piece.now ≤ 65536 }
        ensures { self.new ≡ self.old ++ piece.now }
    {
        match self.waiting.extend_from_slice(piece) {
            Ok(()) => {}
            Err(_) => unreachable!(),
        }
    }

    // Writes all bytes that wait.
    pub(crate) fn flush<K: Sink>(&mut self, sink: &mut K) -> Result<(), WriteStop>
        ensures all { OnOk result (K.written sink.new
            ≡ append_known (K.written sink.old) self.old) }
        ensures none { OnOk result (self.new ≡ []) }
        ensures no_fault { OnOk result (K.faults sink.new ≡ K.faults sink.old) }
        ensures stops { IfErr result (λ stop.
            (stop ≡ Failed) × HasFaultedOnce (K.faults sink.old) (K.faults sink.new)) }
        ensures part { IsWrittenPart self.old (K.written sink.old) (K.written sink.new) }
    {
        write_all(sink, &self.waiting)?;
        self.waiting.clear();
        Ok(())
    }

    // Passes a piece on: it waits, or is written behind those bytes that do.
    pub(crate) fn pass_on<K: Sink>(&mut self, sink: &mut K, piece: &[u8]) -> Result<(), WriteStop>
        ensures moved { OnOk result (IsOnItsWay
            (K.written sink.old) (K.written sink.new) (self.old ++ piece.now) self.new) }
        ensures no_fault { OnOk result (K.faults sink.new ≡ K.faults sink.old) }
        ensures stops { IfErr result (λ stop.
            (stop ≡ Failed) × HasFaultedOnce (K.faults sink.old) (K.faults sink.new)) }
        ensures part { IsWrittenPart (self.old ++ piece.now) (K.written sink.old) (K.written
            sink.new) }
    {
        if piece.len() <= ROOM - self.waiting.len() {
            self.hold(piece);
            return Ok(());
        }
        self.flush(sink)?;
        if piece.len() > ROOM {
            return write_all(sink, piece);
        }
        self.hold(piece);
        Ok(())
    }
}
