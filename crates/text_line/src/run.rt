//! Full lines of one actor: their fields are made once, and copied for each line of that actor
//! that follows.
ghost use Rattle.std.specs.Prelude.{◌≡◌, ◌+◌, ◌≤◌, ◌++◌, true, IfOk, IfSome};
ghost use Rattle.std.specs.Prelude.{length, replicate, take, vec_capacity};
ghost use Rattle.outside.specs.Texts.{fields};
ghost use Rattle.text_line.specs.Runs.{KeepsRun};

use std::alloc::{AllocError, Global};
use std::simd::prelude::*;

const ACTORS: usize = 64;

const ROOM: usize = 2_624;

// Whether these 64 actors are all this one.
#[inline(always)]
fn are_all(actors: &[u32], actor: u32) -> bool
    requires { length actors.now ≡ 64 }
    ensures { result ≡ true → actors.now ≡ replicate 64 actor }
{
    let others = u32x64::from_slice(actors).simd_ne(u32x64::splat(actor));
    others.to_bitmask() == 0
}

// The actor whose alone a full line of actors is. Most lines of others end with another actor than
// they begin with.
#[inline(always)]
pub(crate) fn lone_actor(actors: &[u32]) -> Option<u32>
    ensures { IfSome result (λ actor. actors.now ≡ replicate 64 actor) }
{
    if actors.len() != ACTORS || actors[0] != actors[ACTORS - 1] {
        return None;
    }
    if are_all(actors, actors[0]) {
        Some(actors[0])
    } else {
        None
    }
}

// The fields of the full line of one actor that was made last, and that actor.
#[derive(Debug, Drop)]
pub(crate) struct Run {
    pub(crate) actor: Option<u32>,
    pub(crate) text: Vec<u8>,
}

impl Run {
    // None was made. There is room for 64 fields.
    pub(crate) fn new(alloc: Global) -> Result<Run, AllocError>
        ensures { IfOk result KeepsRun }
    {
        Ok(Run {
            actor: None,
            text: Vec::with_capacity(alloc, ROOM)?,
        })
    }

    // Whether the fields of a full line of this actor are kept.
    #[inline(always)]
    pub(crate) fn is_of(&self, actor: u32) -> bool
        requires { KeepsRun self.now }
        ensures { result ≡ true → self.now.text.items ≡ fields (replicate 64 actor) }
    {
        match self.actor {
            Some(kept) => kept == actor,
            None => false,
        }
    }

    // Writes what is kept, and tells the place behind it.
    #[inline(always)]
    pub(crate) fn put(&self, bytes: &mut [u8], at: usize) -> usize
        requires room { at + 2624 ≤ length bytes.old }
        requires keeps { KeepsRun self.now }
        ensures text { take result bytes.new ≡ take at bytes.old ++ self.now.text.items }
        ensures next { result ≤ at + 2624 }
    {
        let end = at + self.text.len();
        bytes[at..end].copy_from_slice(&self.text);
        end
    }

    // Keeps the fields of a full line of this actor.
    pub(crate) fn keep(&mut self, actor: u32, text: &[u8])
        requires keeps { KeepsRun self.old }
        requires text { text.now ≡ fields (replicate 64 actor) }
        requires long { length text.now ≤ 2624 }
        ensures { KeepsRun self.new }
    {
        self.text.clear();
        match self.text.extend_from_slice(text) {
            Ok(()) => self.actor = Some(actor),
            Err(_) => unreachable!(),
        }
    }
}
