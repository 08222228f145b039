//! Finds, look by look.
ghost use Rattle.std.specs.Prelude.{◌≡◌, Err, MatchResult, Ok};
ghost use Rattle.entry_word.specs.Addresses.{address_of};
ghost use Rattle.entry_word.specs.Marks.{mark_of};
ghost use Rattle.track_c.specs.Faults.{Tells, TellsWithMemory, and_then};
ghost use Rattle.track_c.specs.Finds.{after_look, answer_in, entry_fits, fits, mark_fits, new_finder, next_look};
ghost use Rattle.track_c.specs.Handles.{held};
ghost use Rattle.track_c.specs.Held.{IsMade, a_finder, finder_in, into, plan_in, seen_finder, seen_object};
ghost use Rattle.track_c.specs.Looks.{begun_again};

use crate::cells::{TrackAnswer, TrackCell, tell_answer, tell_cell};
use crate::fault::Fault;
use crate::handle::TrackHandle;
use crate::object::{Finder, Object};
use crate::plans::network_in;
use crate::telling::{done, tell};
use entry_word::{Key, PresenceMark, unpack_address, unpack_mark};
use std::alloc::Global;
use walk::{Walk, WalkFault};

// Whether this is a mark's word, which names no node from so many on.
fn mark_fits_in(nodes: u32, word: u64) -> bool
    ensures { result ≡ mark_fits nodes (mark_of word) }
{
    match unpack_mark(word) {
        Some(PresenceMark::Gone { to, .. }) => u32::from(to) < nodes,
        Some(PresenceMark::Coming { from, .. }) => u32::from(from) < nodes,
        Some(PresenceMark::Empty | PresenceMark::Here { .. } | PresenceMark::Off { .. }) => true,
        None => false,
    }
}

// Whether this is an entry's word, which names no node from so many on.
fn entry_fits_in(nodes: u32, word: u64) -> bool
    ensures { result ≡ entry_fits nodes (address_of word) }
{
    match unpack_address(word) {
        Some(Some(address)) => u32::from(address.node) < nodes,
        Some(None) => true,
        None => false,
    }
}

// Whether a cell may hold this word.
pub fn fits_in(nodes: u32, key: Key, word: u64) -> bool
    ensures { result ≡ fits nodes key word }
{
    match key {
        Key::Presence { .. } => mark_fits_in(nodes, word),
        Key::Entry { .. } => entry_fits_in(nodes, word),
    }
}

impl Finder {
    // The cell that it looks at next.
    pub fn next_cell(&self) -> Result<TrackCell, Fault>
        ensures { result ≡ next_look (seen_finder self.now) }
    {
        match self.walk.next(&self.network.plan) {
            Some(key) => Ok(tell_cell(&self.network.plan, key)),
            None => Err(Fault::Ended),
        }
    }

    // Its next look read this word.
    fn read(&mut self, word: u64) -> Result<(), Fault>
        ensures { MatchResult result
            (λ _. after_look word (seen_finder self.old) ≡ Ok (a_finder (seen_finder self.new)))
            (λ fault. (after_look word (seen_finder self.old) ≡ Err fault)
            × (seen_finder self.new ≡ seen_finder self.old)) }
    {
        let network = &*self.network;
        let Some(key) = self.walk.next(&network.plan) else {
            return Err(Fault::Ended);
        };
        if !fits_in(network.plan.nodes(), key, word) {
            return Err(Fault::BadWord);
        }
        self.walk.saw(&network.plan, &network.distances, word);
        Ok(())
    }

    // It begins again, over its plan.
    fn again(&mut self, from: u32, sub: u32, subs: u32) -> Result<(), Fault>
        ensures { MatchResult result
            (λ _. begun_again from sub subs (seen_finder self.old)
            ≡ Ok (a_finder (seen_finder self.new)))
            (λ fault. (begun_again from sub subs (seen_finder self.old) ≡ Err fault)
            × (seen_finder self.new ≡ seen_finder self.old)) }
    {
        match Walk::new(from, sub, subs, &self.network.plan) {
            Ok(walk) => {
                self.walk = walk;
                Ok(())
            }
            Err(WalkFault::NoNode) => Err(Fault::NoNode),
            Err(WalkFault::NoSubscriber) => Err(Fault::NoSubscriber),
        }
    }

    // Its answer.
    pub fn found(&self) -> Result<TrackAnswer, Fault>
        ensures { result ≡ answer_in (seen_finder self.now) }
    {
        match self.walk.answer() {
            Some(found) => Ok(tell_answer(found)),
            None => Err(Fault::Looking),
        }
    }
}

// A find over the plan of an object.
fn new_in(object: &Object, from: u32, sub: u32, subs: u32) -> Result<Object, Fault>
    ensures { IsMade (and_then (plan_in (seen_object object.now)) (new_finder from sub subs)) result }
{
    let network = network_in(object)?;
    match Walk::new(from, sub, subs, &network.plan) {
        Ok(walk) => Ok(Object::Finder(Finder { network, walk })),
        Err(WalkFault::NoNode) => Err(Fault::NoNode),
        Err(WalkFault::NoSubscriber) => Err(Fault::NoSubscriber),
    }
}

// The cell that the find of an object looks at next.
fn next_in(object: &Object) -> Result<TrackCell, Fault>
    ensures { result ≡ and_then (finder_in (seen_object object.now)) next_look }
{
    match object {
        Object::Finder(finder) => finder.next_cell(),
        Object::Plan(_)
        | Object::Mover(_)
        | Object::Crew(_)
        | Object::Caller(_)
        | Object::Subscriber(_) => Err(Fault::OtherKind),
    }
}

// The next look of the find of an object read this word.
fn read_in(object: &mut Object, word: u64) -> Result<(), Fault>
    ensures { MatchResult result
        (λ _. and_then (finder_in (seen_object object.old)) (after_look word)
        ≡ Ok (seen_object object.new))
        (λ fault. (and_then (finder_in (seen_object object.old)) (after_look word) ≡ Err fault)
        × (seen_object object.new ≡ seen_object object.old)) }
{
    match object {
        Object::Finder(finder) => finder.read(word),
        Object::Plan(_)
        | Object::Mover(_)
        | Object::Crew(_)
        | Object::Caller(_)
        | Object::Subscriber(_) => Err(Fault::OtherKind),
    }
}

// The find of an object begins again.
fn again_in(object: &mut Object, from: u32, sub: u32, subs: u32) -> Result<(), Fault>
    ensures { MatchResult result
        (λ _. and_then (finder_in (seen_object object.old)) (begun_again from sub subs)
        ≡ Ok (seen_object object.new))
        (λ fault. (and_then (finder_in (seen_object object.old)) (begun_again from sub subs)
        ≡ Err fault)
        × (seen_object object.new ≡ seen_object object.old)) }
{
    match object {
        Object::Finder(finder) => finder.again(from, sub, subs),
        Object::Plan(_)
        | Object::Mover(_)
        | Object::Crew(_)
        | Object::Caller(_)
        | Object::Subscriber(_) => Err(Fault::OtherKind),
    }
}

// The answer of the find of an object.
fn found_in(object: &Object) -> Result<TrackAnswer, Fault>
    ensures { result ≡ and_then (finder_in (seen_object object.now)) answer_in }
{
    match object {
        Object::Finder(finder) => finder.found(),
        Object::Plan(_)
        | Object::Mover(_)
        | Object::Crew(_)
        | Object::Caller(_)
        | Object::Subscriber(_) => Err(Fault::OtherKind),
    }
}

/// A find of a subscriber, one of so many, from a node.
#[unsafe(no_mangle)]
pub extern "C" fn track_finder_new(
    alloc: Global,
    plan: &mut TrackHandle,
    from: u32,
    sub: u32,
    subs: u32,
    finder: &mut TrackHandle,
) -> u32
    ensures given { TellsWithMemory
        (into (held finder.old) (and_then (plan_in (held plan.old)) (new_finder from sub subs)))
        result (held finder.old) (held finder.new) }
    ensures kept { held plan.new ≡ held plan.old }
{
    let Some(object) = plan.take(alloc) else {
        return finder.fill(alloc, Err(Fault::EmptyHandle));
    };
    let made = new_in(&object, from, sub, subs);
    plan.put(object);
    finder.fill(alloc, made)
}

/// The cell that a find looks at next.
#[unsafe(no_mangle)]
pub extern "C" fn track_finder_next(
    alloc: Global,
    finder: &mut TrackHandle,
    cell: &mut TrackCell,
) -> u32
    ensures told { Tells (and_then (finder_in (held finder.old)) next_look) result cell.old
        cell.new }
    ensures kept { held finder.new ≡ held finder.old }
{
    let Some(object) = finder.take(alloc) else {
        return Fault::EmptyHandle.code();
    };
    let next = next_in(&object);
    finder.put(object);
    tell(cell, next)
}

/// The next look of a find read this word.
#[unsafe(no_mangle)]
pub extern "C" fn track_finder_saw(alloc: Global, finder: &mut TrackHandle, word: u64) -> u32
    ensures { Tells (and_then (finder_in (held finder.old)) (after_look word)) result
        (held finder.old) (held finder.new) }
{
    let Some(mut object) = finder.take(alloc) else {
        return Fault::EmptyHandle.code();
    };
    let read = read_in(&mut object, word);
    finder.put(object);
    done(read)
}

/// The answer of a find.
#[unsafe(no_mangle)]
pub extern "C" fn track_finder_answer(
    alloc: Global,
    finder: &mut TrackHandle,
    answer: &mut TrackAnswer,
) -> u32
    ensures told { Tells (and_then (finder_in (held finder.old)) answer_in) result answer.old
        answer.new }
    ensures kept { held finder.new ≡ held finder.old }
{
    let Some(object) = finder.take(alloc) else {
        return Fault::EmptyHandle.code();
    };
    let found = found_in(&object);
    finder.put(object);
    tell(answer, found)
}

/// A finder begins again in its place: another find over its plan.
#[unsafe(no_mangle)]
pub extern "C" fn track_finder_again(
    alloc: Global,
    finder: &mut TrackHandle,
    from: u32,
    sub: u32,
    subs: u32,
) -> u32
    ensures { Tells (and_then (finder_in (held finder.old)) (begun_again from sub subs)) result
        (held finder.old) (held finder.new) }
{
    let Some(mut object) = finder.take(alloc) else {
        return Fault::EmptyHandle.code();
    };
    let begun = again_in(&mut object, from, sub, subs);
    finder.put(object);
    done(begun)
}
