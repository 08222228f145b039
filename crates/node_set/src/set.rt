//! The set itself: one bit for each number below the room.
ghost use Rattle.std.specs.Prelude.{◌≡◌, ◌+◌, ◌*◌, ◌≤◌, ◌<◌, [], ◌∷◌, filter, length, nat_le, not, slice_index, IfNone, IfOk, IfSome};
ghost use Rattle.node_set.specs.Ascending.{has, with_number, sift, union, share};
ghost use Rattle.node_set.specs.Nodes.{AreNodes};
ghost use Rattle.node_set.specs.Scan.{IsNext, IsNoneFrom};

use crate::bytes::fill_words;
use crate::cuts::{words_keep, words_remove};
use crate::lanes::{lanes_absorb, lanes_meet};
use crate::limit::words_within;
use crate::scan::next_bit;
use std::alloc::{AllocError, Global};
use std::marker::Model;

/// Memory ran out.
pub type OutOfMemory = AllocError;

/// A set of numbers below its room, which is at most 1,024.
#[derive(Drop)]
pub struct NodeSet {
    room: u32,
    words: Vec<u64>,
}

impl Model for NodeSet {
    ghost use Rattle.node_set.specs.Nodes.{Nodes, AreWords, set_bits};

    ghost Value = { Nodes };

    ghost view = { λ a. record { room = a.room; members = set_bits a.words.items } };

    ghost invariant = { λ a. AreWords a.room a.words.items };
}

impl NodeSet {
    /// The empty set of this room.
    pub fn empty(alloc: Global, room: u32) -> Result<Self, OutOfMemory>
        requires { room ≤ 1024 }
        ensures { IfOk result (λ set. set ≡ record { room = room; members = [] }) }
    {
        let words = vec![in alloc; 0u64; room.div_ceil(64) as usize]?;
        Ok(Self { room, words })
    }

    /// The places of the numbers that are at most the limit. There are at most 1,024 numbers.
    pub fn within(alloc: Global, numbers: &[u32], limit: u32) -> Result<Self, OutOfMemory>
        requires { length numbers.now ≤ 1024 }
        ensures room { IfOk result (λ set. set.room ≡ length numbers.now) }
        ensures members { IfOk result (λ set. set.members
            ≡ sift (λ x. nat_le (slice_index numbers.now x) limit) 0 (length numbers.now)) }
    {
        let words = words_within(alloc, numbers, limit)?;
        Ok(Self {
            room: numbers.len() as u32,
            words,
        })
    }

    /// The room: each member is below it.
    pub fn room(&self) -> u32
        ensures value { result ≡ self.now.room }
        ensures sound { AreNodes self.now }
    {
        set_is_sound(self);
        self.room
    }

    /// Puts `v` into the set.
    pub fn insert(&mut self, v: u32)
        requires { v < self.old.room }
        ensures { self.new ≡ record {
          room = self.old.room;
          members =
              with_number v self.old.members;
        } }
    {
        self.words[(v / 64) as usize] |= 1 << (v % 64);
    }

    /// Whether `v` is in the set.
    pub fn has(&self, v: u32) -> bool
        requires { v < self.now.room }
        ensures { result ≡ has v self.now.members }
    {
        (self.words[(v / 64) as usize] >> (v % 64)) & 1 == 1
    }

    /// Whether some number is in both sets.
    pub fn meets(&self, other: &NodeSet) -> bool
        requires { self.now.room ≡ other.now.room }
        ensures { result ≡ share self.now.members other.now.members }
    {
        lanes_meet(&self.words, &other.words)
    }

    /// Puts each number of `other` into the set.
    pub fn absorb(&mut self, other: &NodeSet)
        requires { self.old.room ≡ other.now.room }
        ensures { self.new ≡ record {
          room = self.old.room;
          members =
              union other.now.members self.old.members;
        } }
    {
        lanes_absorb(&mut self.words, &other.words);
    }

    /// Takes all numbers out of the set.
    pub fn clear(&mut self)
        ensures { self.new ≡ record { room = self.old.room; members = [] } }
    {
        self.words.fill(0);
    }

    /// Makes the set that of the numbers of `other`.
    pub fn assign(&mut self, other: &NodeSet)
        requires { self.old.room ≡ other.now.room }
        ensures { self.new ≡ other.now }
    {
        self.words.copy_from_slice(&other.words);
    }

    /// Makes the set that of the places of the bytes that are at most the limit. There are as many
    /// bytes as the room says.
    pub fn fill_within(&mut self, bytes: &[u8], limit: u8)
        requires { length bytes.now ≡ self.old.room }
        ensures room { self.new.room ≡ self.old.room }
        ensures members { self.new.members
            ≡ sift (λ x. nat_le (slice_index bytes.now x) limit) 0 (length bytes.now) }
    {
        fill_words(&mut self.words, bytes, limit);
    }

    /// Takes each number out of the set that isn't in `other`.
    pub fn keep(&mut self, other: &NodeSet)
        requires { self.old.room ≡ other.now.room }
        ensures room { self.new.room ≡ self.old.room }
        ensures members { self.new.members
            ≡ filter (λ v. has v other.now.members) self.old.members }
    {
        words_keep(&mut self.words, &other.words);
    }

    /// Takes each number of `other` out of the set.
    pub fn remove(&mut self, other: &NodeSet)
        requires { self.old.room ≡ other.now.room }
        ensures room { self.new.room ≡ self.old.room }
        ensures members { self.new.members ≡ filter (λ v. not (has v other.now.members))
            self.old.members }
    {
        words_remove(&mut self.words, &other.words);
    }

    /// The least number of the set that isn't below `from`.
    pub fn next_from(&self, from: u32) -> Option<u32>
        ensures some { IfSome result (IsNext self.now.members from) }
        ensures below { IfSome result (λ v. v < self.now.room) }
        ensures none { IfNone result (IsNoneFrom self.now.members from) }
    {
        match next_bit(&self.words, from as usize) {
            Some(v) => Some(v as u32),
            None => None,
        }
    }

    /// How many numbers are in the set.
    pub fn count(&self) -> u32
        ensures { result ≡ length self.now.members }
    {
        let mut total = 0;
        for word in &self.words {
            total += word.count_ones();
        }
        total
    }
}

/// What every set is: its members ascend, and lie below its room, which is at most 1,024. The call
/// does nothing, and its clause is a law.
pub fn set_is_sound(set: &NodeSet)
    ensures { AreNodes set.now }
{
    // A look at a field tells the proof what the set keeps.
    let _ = &set.room;
}
