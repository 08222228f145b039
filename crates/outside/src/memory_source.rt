//! A source in memory, which fails at the calls that it is told.
ghost use Rattle.std.specs.Prelude.{◌≡◌, ◌≢◌, ◌<◌, ◌≤◌, ◌↔◌, Some, length, drop, take, min, Contains};
ghost use Rattle.outside.specs.Bytes.{prepend_known, IsAtEnd};
ghost use Rattle.outside.specs.Calls.{count_taken, TakesWithin, CountsRead, one_more};

use crate::copy::copy_front;
use crate::{Source, Took};
use std::marker::Model;

/// A source over bytes in memory. It gives at most `most` bytes a call, and fails at the calls that
/// `fail` names by their numbers from 0.
#[derive(Drop)]
pub struct MemorySource {
    bytes: Vec<u8>,
    at: usize,
    most: usize,
    fail: Vec<u64>,
    calls: u64,
    faults: u64,
}

impl Model for MemorySource {
    ghost use Rattle.std.specs.Prelude.{◌≤◌, drop, vec_len};
    ghost use Rattle.outside.specs.Memory.{SourceState};

    ghost Value = { SourceState };

    ghost view = { λ s. record {
      left = drop s.at s.bytes.items;
      most = s.most;
      fail =
          s.fail.items;
      calls = s.calls;
      faults = s.faults;
    } };

    ghost invariant = { λ s. (s.at ≤ vec_len s.bytes) × (1 ≤ s.most) };
}

impl MemorySource {
    /// A source with all of these bytes left, before its first call.
    pub fn new(bytes: Vec<u8>, most: usize, fail: Vec<u64>) -> MemorySource
        requires { 1 ≤ most }
        ensures { result ≡ record {
          left = bytes.items;
          most = most;
          fail = fail.items;
          calls = 0;
          faults = 0;
        } }
    {
        MemorySource {
            bytes,
            at: 0,
            most,
            fail,
            calls: 0,
            faults: 0,
        }
    }
}

impl Source for MemorySource {
    ghost faults = { λ s. s.faults };

    ghost left = { λ s. Some s.left };

    fn read(&mut self, into: &mut [u8]) -> Took
        requires { 0 < length into.old }
        ensures within { TakesWithin result (length into.old) }
        ensures bytes { Some self.old.left
            ≡ prepend_known (take (count_taken result) into.new) (Some self.new.left) }
        ensures rest { drop (count_taken result) into.new ≡ drop (count_taken result) into.old }
        ensures end { result ≡ Took.End → IsAtEnd (Some self.old.left) }
        ensures count { CountsRead result self.old.faults self.new.faults }

        // It fails where it is told to, and else takes as much as it may.
        ensures fails { (result ≡ Took.Failed) ↔ Contains self.old.fail self.old.calls }
        ensures takes { result ≢ Took.Failed → count_taken result
            ≡ min (length into.old) (min self.old.most (length self.old.left)) }
        ensures counted { self.new.calls ≡ one_more self.old.calls }
        ensures same { (self.new.most ≡ self.old.most) × (self.new.fail ≡ self.old.fail) }
    {
        let number = self.calls;
        self.calls = number.saturating_add(1);
        if self.fail.contains(&number) {
            self.faults = self.faults.saturating_add(1);
            return Took::Failed;
        }
        let (_, rest) = self.bytes.split_at(self.at);
        let count = rest.len().min(self.most).min(into.len());
        if count == 0 {
            return Took::End;
        }
        copy_front(rest, into, count);
        self.at += count;
        Took::Got(count)
    }

    fn fill(&mut self, into: &mut [u8]) -> Took
        requires { 0 < length into.old }
        ensures within { TakesWithin result (length into.old) }
        ensures bytes { Some self.old.left
            ≡ prepend_known (take (count_taken result) into.new) (Some self.new.left) }
        ensures end { result ≡ Took.End → IsAtEnd (Some self.old.left) }
        ensures count { CountsRead result self.old.faults self.new.faults }

        // As `read` does.
        ensures fails { (result ≡ Took.Failed) ↔ Contains self.old.fail self.old.calls }
        ensures takes { result ≢ Took.Failed → count_taken result
            ≡ min (length into.old) (min self.old.most (length self.old.left)) }
        ensures counted { self.new.calls ≡ one_more self.old.calls }
        ensures same { (self.new.most ≡ self.old.most) × (self.new.fail ≡ self.old.fail) }
    {
        self.read(into)
    }
}
