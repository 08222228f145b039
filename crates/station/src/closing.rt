//! The end of a tracker.
ghost use Rattle.std.specs.Prelude.{◌≡◌, ◌<◌, ◌≤◌, ℕ, All, IfErr, IfOk, MatchBool, MatchOption, OnOk, length};
ghost use Rattle.station.specs.Closing.{ArePresent, HasGathered, IsCause, HasNoPass, IsOrder};
ghost use Rattle.station.specs.Passes.{IsNoteOf, IsPassOf};

use crate::notes::Note;
use crate::pass::Pass;
use crate::tracker::Tracker;
use std::alloc::Global;

/// Why a tracker isn't closed.
#[derive(Clone, Copy, PartialEq, Eq, Debug)]
pub enum CloseCause {
    /// No pass of this actor is handed in, and it is the first.
    Missing { actor: u32 },
    /// There was no memory for what the close hands out.
    OutOfMemory,
}

/// A tracker that isn't closed comes back with the passes.
#[derive(Drop)]
pub struct CloseFault {
    pub cause: CloseCause,
    pub tracker: Tracker,
    pub passes: Vec<Pass>,
}

impl Tracker {
    /// Ends the tracker: the actor of each ticket, in order. Where the pass of an actor is missing,
    /// or memory is, the tracker comes back with the passes as they were.
    pub fn close(self, alloc: Global, mut passes: Vec<Pass>) -> Result<Vec<u32>, CloseFault>
        requires of { All (IsPassOf self) passes.items }
        ensures order { IfOk result (λ order. IsOrder self.setup passes.items order.items) }
        ensures present { OnOk result (ArePresent self.setup.actors passes.items) }
        ensures fault { IfErr result (λ fault. (fault.tracker ≡ self)
            × (fault.passes.items ≡ passes.items)
            × IsCause self.setup.actors passes.items fault.cause) }
    {
        if let Some(actor) = first_missing(self.actors, &passes) {
            return Err(CloseFault {
                cause: CloseCause::Missing { actor },
                tracker: self,
                passes,
            });
        }
        let mut longest = self.gather(&mut passes);
        let Ok(mut order) = vec![in alloc; 0u32; longest.seen() as usize] else {
            return Err(CloseFault {
                cause: CloseCause::OutOfMemory,
                tracker: self,
                passes,
            });
        };
        self.stamp_all(&mut longest, passes, &mut order);
        Ok(order)
    }

    // Writes each actor at the tickets of its visits.
    fn stamp_all(&self, longest: &mut Note, mut passes: Vec<Pass>, order: &mut [u32])
        requires of { All (IsPassOf self.now) passes.items }
        requires longest { IsNoteOf self.now longest.old }
        requires present { ArePresent self.now.setup.actors passes.items }
        requires gathered { HasGathered self.now.setup passes.items longest.old.view.seen }
        requires room { length order.old ≡ length longest.old.view.seen }
        ensures order { IsOrder self.now.setup passes.items order.new }
    {
        while let Some(mut pass) = passes.pop() {
            let note = self.copy(longest);
            self.hear(&mut pass, note);
            pass.stamp(order);
        }
    }
}

// The first actor that has no pass among these.
fn first_missing(actors: u32, passes: &[Pass]) -> Option<u32>
    ensures { MatchOption result (ArePresent actors passes.now)
        (λ actor. (actor < actors) × HasNoPass passes.now actor × ArePresent actor passes.now) }
{
    for actor in 0..actors {
        if !has_pass(passes, actor) {
            return Some(actor);
        }
    }
    None
}

// Whether an actor has a pass among these.
fn has_pass(passes: &[Pass], actor: u32) -> bool
    ensures { MatchBool result (HasNoPass passes.now actor → ⊥) (HasNoPass passes.now actor) }
{
    for k in 0..passes.len() {
        if passes[k].actor() == actor {
            return true;
        }
    }
    false
}
