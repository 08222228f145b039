//! A sink in memory, which fails at the calls that it is told.
ghost use Rattle.std.specs.Prelude.{◌≡◌, ◌≢◌, ◌-◌, ◌<◌, ◌≤◌, ◌↔◌, ◌⊎◌, Some, length, take, min, Contains, vec_len, vec_capacity};
ghost use Rattle.outside.specs.Bytes.{append_known};
ghost use Rattle.outside.specs.Calls.{count_given, GivesWithin, CountsWrite, one_more};

use crate::{Gave, Sink};
use std::marker::Model;

/// A sink in memory with room for so many bytes. It takes at most `most` bytes a call, and fails at
/// the calls that `fail` names by their numbers from 0, and where its room is used up.
#[derive(Drop)]
pub struct MemorySink {
    written: Vec<u8>,
    room: usize,
    most: usize,
    fail: Vec<u64>,
    calls: u64,
    faults: u64,
}

impl Model for MemorySink {
    ghost use Rattle.std.specs.Prelude.{◌≤◌, vec_len, vec_capacity};
    ghost use Rattle.outside.specs.Memory.{SinkState};

    ghost Value = { SinkState };

    ghost view = { λ s. record {
      written = s.written.items;
      room = s.room;
      most = s.most;
      fail =
          s.fail.items;
      calls = s.calls;
      faults = s.faults;
    } };

    ghost invariant = { λ s. (vec_len s.written ≤ s.room) × (s.room ≤ vec_capacity s.written)
        × (1 ≤ s.most) };
}

impl MemorySink {
    /// A sink that holds these bytes, before its first call. It takes no memory, so the bytes come
    /// with their room.
    pub fn new(written: Vec<u8>, room: usize, most: usize, fail: Vec<u64>) -> MemorySink
        requires most { 1 ≤ most }
        requires within { vec_len written ≤ room }
        requires room { room ≤ vec_capacity written }
        ensures { result ≡ record {
          written = written.items;
          room = room;
          most = most;
          fail =
              fail.items;
          calls = 0;
          faults = 0;
        } }
    {
        MemorySink {
            written,
            room,
            most,
            fail,
            calls: 0,
            faults: 0,
        }
    }

    /// What was written.
    pub fn into_bytes(self) -> Vec<u8>
        ensures { result.items ≡ self.written }
    {
        self.written
    }
}

impl Sink for MemorySink {
    ghost faults = { λ s. s.faults };

    ghost written = { λ s. Some s.written };

    fn write(&mut self, piece: &[u8]) -> Gave
        requires { 0 < length piece.now }
        ensures within { GivesWithin result (length piece.now) }
        ensures bytes { Some self.new.written
            ≡ append_known (Some self.old.written) (take (count_given result) piece.now) }
        ensures count { CountsWrite result self.old.faults self.new.faults }

        // It fails where it is told to or has no room, and else gives as much as it may.
        ensures fails { (result ≡ Gave.Failed) ↔ (Contains self.old.fail self.old.calls
            ⊎ (length self.old.written ≡ self.old.room)) }
        ensures gives { result ≢ Gave.Failed → count_given result
            ≡ min (length piece.now) (min self.old.most (self.old.room - length self.old.written)) }
        ensures counted { self.new.calls ≡ one_more self.old.calls }
        ensures same { (self.new.most ≡ self.old.most) × (self.new.fail ≡ self.old.fail)
            × (self.new.room ≡ self.old.room) }
    {
        let number = self.calls;
        self.calls = number.saturating_add(1);
        let count = piece
            .len()
            .min(self.most)
            .min(self.room - self.written.len());
        if count == 0 || self.fail.contains(&number) {
            self.faults = self.faults.saturating_add(1);
            return Gave::Failed;
        }
        match self.written.extend_from_slice(&piece[..count]) {
            Ok(()) => Gave::Wrote(count),
            Err(_) => unreachable!(),
        }
    }
}
