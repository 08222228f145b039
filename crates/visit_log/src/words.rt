//! A row of words, in 32 bits each while they are small.
ghost use Rattle.std.specs.Prelude.{◌≡◌, ◌==◌, ◌<◌, ◌≤◌, ◌+◌, ◌++◌, ◌↔◌, IfOk, IsTrue, length, map, replicate, slice_index, slice_set, vec_capacity, vec_len};
ghost use Rattle.visit_log.specs.Words.{IsSmall, word_of_narrow};

use std::alloc::{AllocError, Global};
use std::marker::Model;

/// A row of words. While all of them are small they are kept in 32 bits each; the first one that
/// isn't moves all to 64 bits, in memory that was taken at the beginning and not touched until
/// then.
#[derive(Drop)]
pub struct Words {
    narrow: Vec<u32>,
    wide: Vec<u64>,
}

impl Model for Words {
    ghost use Rattle.std.specs.Prelude.{◌≡◌, ◌≢◌, ◌≤◌, [], ℕ, List, vec_capacity, vec_len};
    ghost use Rattle.visit_log.specs.Words.{words_of};

    ghost Value = { List ℕ };

    ghost view = { λ w. words_of w.narrow.items w.wide.items };

    ghost invariant = { λ w. (vec_len w.narrow ≤ vec_capacity w.wide)
        × (w.wide.items ≢ [] → w.narrow.items ≡ []) };
}

impl Words {
    /// So many words, all of them 0.
    pub fn new(alloc: Global, count: usize) -> Result<Words, AllocError>
        ensures { IfOk result (λ words. words ≡ replicate count 0) }
    {
        Ok(Words {
            narrow: vec![in alloc; 0u32; count]?,
            wide: Vec::with_capacity(alloc, count)?,
        })
    }

    /// The word at a place.
    #[inline(always)]
    pub fn get(&self, index: usize) -> u64
        requires { index < length self.now }
        ensures { result ≡ slice_index self.now index }
    {
        if self.wide.is_empty() {
            return widen(self.narrow[index]);
        }
        self.wide[index]
    }

    /// Whether the word at a place is 0.
    #[inline(always)]
    pub fn is_zero(&self, index: usize) -> bool
        requires { index < length self.now }
        ensures { result ≡ (slice_index self.now index == 0) }
    {
        if self.wide.is_empty() {
            return self.narrow[index] == 0;
        }
        self.wide[index] == 0
    }

    /// Puts a word into a place; all others stay.
    #[inline(always)]
    pub fn set(&mut self, index: usize, word: u64)
        requires { index < length self.old }
        ensures { self.new ≡ slice_set self.old index word }
    {
        if is_small(word) && self.wide.is_empty() {
            self.narrow[index] = narrow(word);
            return;
        }
        self.set_wide(index, word);
    }

    // Puts a word into a place, in 64 bits.
    #[inline(never)]
    fn set_wide(&mut self, index: usize, word: u64)
        requires { index < length self.old }
        ensures { self.new ≡ slice_set self.old index word }
    {
        if self.wide.is_empty() {
            push_wide(&mut self.wide, &self.narrow);
            self.narrow.clear();
        }
        self.wide[index] = word;
    }
}

// Whether a word can be kept in 32 bits.
fn is_small(word: u64) -> bool
    ensures { IsTrue result ↔ IsSmall word }
{
    (word >> 10) % (1 << 6) == 0 && (word >> 32) % (1 << 16) == 0 && word >> 54 == 0
}

// A small word in 32 bits.
fn narrow(word: u64) -> u32
    requires { IsSmall word }
    ensures { word_of_narrow result ≡ word }
{
    (word % (1 << 32) + (word >> 48) * (1 << 10)) as u32
}

// The word that 32 bits stand for.
fn widen(narrow: u32) -> u64
    ensures { result ≡ word_of_narrow narrow }
{
    let kind = u64::from((narrow >> 10) % (1 << 6));
    let number = u64::from(narrow >> 16);
    let node = u64::from(narrow % (1 << 10));
    kind * (1 << 48) + number * (1 << 16) + node
}

// Pushes the words that 32 bits each stand for behind others.
fn push_wide(wide: &mut Vec<u64>, narrow: &[u32])
    requires room { vec_len wide.old + length narrow.now ≤ vec_capacity wide.old }
    ensures { wide.new.items ≡ wide.old.items ++ map word_of_narrow narrow.now }
{
    for word in narrow {
        wide.push_reserved(widen(*word));
    }
}
