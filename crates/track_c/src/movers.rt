//! Moves and switches, put by put.
ghost use Rattle.std.specs.Prelude.{◌≡◌, Err, MatchResult, Ok};
ghost use Rattle.track_c.specs.Faults.{Tells, TellsWithMemory, and_then};
ghost use Rattle.track_c.specs.Handles.{held};
ghost use Rattle.track_c.specs.Held.{IsMade, a_mover, into, mover_in, plan_in, seen_mover, seen_object};
ghost use Rattle.track_c.specs.Moves.{after_move, after_put, after_switch, move_refusal, new_mover, next_put, place_told, switch_refusal};

use crate::cells::{TrackPut, tell_cell};
use crate::fault::Fault;
use crate::handle::TrackHandle;
use crate::object::{Mover, Object};
use crate::plans::network_in;
use crate::telling::{done, tell};
use entry_word::Act;
use handset::{Handset, MoveFault, SwitchFault};
use std::alloc::Global;

/// Where a mover stands, by the puts made: its subscriber, the node, the number of its moves, and 1
/// where it is off.
#[repr(C)]
#[derive(Clone, Copy)]
pub struct TrackPlace {
    pub sub: u32,
    pub node: u32,
    pub number: u32,
    pub off: u32,
}

// Why a move doesn't begin.
pub fn refused_move(fault: MoveFault) -> Fault
    ensures { result ≡ move_refusal fault }
{
    match fault {
        MoveFault::NoNode => Fault::NoNode,
        MoveFault::SamePlace => Fault::SamePlace,
        MoveFault::UnderWay => Fault::UnderWay,
        MoveFault::IsOff => Fault::IsOff,
        MoveFault::NumbersSpent => Fault::NumbersSpent,
    }
}

// Why a switch doesn't begin.
pub fn refused_switch(fault: SwitchFault) -> Fault
    ensures { result ≡ switch_refusal fault }
{
    match fault {
        SwitchFault::UnderWay => Fault::UnderWay,
        SwitchFault::Already => Fault::Already,
    }
}

impl Mover {
    // Begins a move.
    fn begin(&mut self, to: u32) -> Result<(), Fault>
        ensures { MatchResult result
            (λ _. after_move to (seen_mover self.old) ≡ Ok (a_mover (seen_mover self.new)))
            (λ fault. (after_move to (seen_mover self.old) ≡ Err fault)
            × (seen_mover self.new ≡ seen_mover self.old)) }
    {
        let network = &*self.network;
        match self.handset.begin(&network.plan, &network.distances, to) {
            Ok(()) => Ok(()),
            Err(fault) => Err(refused_move(fault)),
        }
    }

    // Begins a switch.
    fn switch(&mut self, off: bool) -> Result<(), Fault>
        ensures { MatchResult result
            (λ _. after_switch off (seen_mover self.old) ≡ Ok (a_mover (seen_mover self.new)))
            (λ fault. (after_switch off (seen_mover self.old) ≡ Err fault)
            × (seen_mover self.new ≡ seen_mover self.old)) }
    {
        match self.handset.switch(off) {
            Ok(()) => Ok(()),
            Err(fault) => Err(refused_switch(fault)),
        }
    }

    // The put that comes next.
    fn next_put(&self) -> Result<TrackPut, Fault>
        ensures { result ≡ next_put (seen_mover self.now) }
    {
        let Some(visit) = self.handset.next(&self.network.plan) else {
            return Err(Fault::AtRest);
        };
        let Act::Put(key, word) = visit.act else {
            unreachable!()
        };
        Ok(TrackPut {
            cell: tell_cell(&self.network.plan, key),
            word,
        })
    }

    // The put that came next is made.
    fn made(&mut self) -> Result<(), Fault>
        ensures { MatchResult result
            (λ _. after_put (seen_mover self.old) ≡ Ok (a_mover (seen_mover self.new)))
            (λ fault. (after_put (seen_mover self.old) ≡ Err fault)
            × (seen_mover self.new ≡ seen_mover self.old)) }
    {
        let network = &*self.network;
        match self.handset.write(&network.plan) {
            Some(_) => Ok(()),
            None => Err(Fault::AtRest),
        }
    }

    // Where it stands.
    fn stand(&self) -> Result<TrackPlace, Fault>
        ensures { result ≡ place_told (seen_mover self.now) }
    {
        Ok(TrackPlace {
            sub: self.handset.sub(),
            node: self.handset.place(),
            number: self.handset.number(),
            off: u32::from(self.handset.is_off()),
        })
    }
}

// A mover over the plan of an object.
fn new_in(alloc: Global, object: &Object, sub: u32, node: u32) -> Result<Object, Fault>
    ensures { IsMade (and_then (plan_in (seen_object object.now)) (new_mover sub node)) result }
{
    let network = network_in(object)?;
    if node >= network.plan.nodes() {
        return Err(Fault::NoNode);
    }
    match Handset::new(alloc, sub, node, &network.plan) {
        Ok(handset) => Ok(Object::Mover(Mover { network, handset })),
        Err(_) => Err(Fault::NoMemory),
    }
}

// The mover of an object begins a move.
fn move_in(object: &mut Object, to: u32) -> Result<(), Fault>
    ensures { MatchResult result
        (λ _. and_then (mover_in (seen_object object.old)) (after_move to)
        ≡ Ok (seen_object object.new))
        (λ fault. (and_then (mover_in (seen_object object.old)) (after_move to) ≡ Err fault)
        × (seen_object object.new ≡ seen_object object.old)) }
{
    match object {
        Object::Mover(mover) => mover.begin(to),
        Object::Plan(_)
        | Object::Finder(_)
        | Object::Crew(_)
        | Object::Caller(_)
        | Object::Subscriber(_) => Err(Fault::OtherKind),
    }
}

// The mover of an object begins a switch.
fn switch_in(object: &mut Object, off: bool) -> Result<(), Fault>
    ensures { MatchResult result
        (λ _. and_then (mover_in (seen_object object.old)) (after_switch off)
        ≡ Ok (seen_object object.new))
        (λ fault. (and_then (mover_in (seen_object object.old)) (after_switch off) ≡ Err fault)
        × (seen_object object.new ≡ seen_object object.old)) }
{
    match object {
        Object::Mover(mover) => mover.switch(off),
        Object::Plan(_)
        | Object::Finder(_)
        | Object::Crew(_)
        | Object::Caller(_)
        | Object::Subscriber(_) => Err(Fault::OtherKind),
    }
}

// The put that the mover of an object makes next.
fn next_in(object: &Object) -> Result<TrackPut, Fault>
    ensures { result ≡ and_then (mover_in (seen_object object.now)) next_put }
{
    match object {
        Object::Mover(mover) => mover.next_put(),
        Object::Plan(_)
        | Object::Finder(_)
        | Object::Crew(_)
        | Object::Caller(_)
        | Object::Subscriber(_) => Err(Fault::OtherKind),
    }
}

// The mover of an object made its put.
fn made_in(object: &mut Object) -> Result<(), Fault>
    ensures { MatchResult result
        (λ _. and_then (mover_in (seen_object object.old)) after_put
        ≡ Ok (seen_object object.new))
        (λ fault. (and_then (mover_in (seen_object object.old)) after_put ≡ Err fault)
        × (seen_object object.new ≡ seen_object object.old)) }
{
    match object {
        Object::Mover(mover) => mover.made(),
        Object::Plan(_)
        | Object::Finder(_)
        | Object::Crew(_)
        | Object::Caller(_)
        | Object::Subscriber(_) => Err(Fault::OtherKind),
    }
}

// Where the mover of an object stands.
fn place_in(object: &Object) -> Result<TrackPlace, Fault>
    ensures { result ≡ and_then (mover_in (seen_object object.now)) place_told }
{
    match object {
        Object::Mover(mover) => mover.stand(),
        Object::Plan(_)
        | Object::Finder(_)
        | Object::Crew(_)
        | Object::Caller(_)
        | Object::Subscriber(_) => Err(Fault::OtherKind),
    }
}

/// A mover of a subscriber, at rest at its start node.
#[unsafe(no_mangle)]
pub extern "C" fn track_mover_new(
    alloc: Global,
    plan: &mut TrackHandle,
    sub: u32,
    node: u32,
    mover: &mut TrackHandle,
) -> u32
    ensures given { TellsWithMemory
        (into (held mover.old) (and_then (plan_in (held plan.old)) (new_mover sub node)))
        result (held mover.old) (held mover.new) }
    ensures kept { held plan.new ≡ held plan.old }
{
    let Some(object) = plan.take(alloc) else {
        return mover.fill(alloc, Err(Fault::EmptyHandle));
    };
    let made = new_in(alloc, &object, sub, node);
    plan.put(object);
    mover.fill(alloc, made)
}

/// Begins a move to a node.
#[unsafe(no_mangle)]
pub extern "C" fn track_mover_move(alloc: Global, mover: &mut TrackHandle, to: u32) -> u32
    ensures { Tells (and_then (mover_in (held mover.old)) (after_move to)) result
        (held mover.old) (held mover.new) }
{
    let Some(mut object) = mover.take(alloc) else {
        return Fault::EmptyHandle.code();
    };
    let begun = move_in(&mut object, to);
    mover.put(object);
    done(begun)
}

/// Begins a switch off, or on.
#[unsafe(no_mangle)]
pub extern "C" fn track_mover_switch(alloc: Global, mover: &mut TrackHandle, off: bool) -> u32
    ensures { Tells (and_then (mover_in (held mover.old)) (after_switch off)) result
        (held mover.old) (held mover.new) }
{
    let Some(mut object) = mover.take(alloc) else {
        return Fault::EmptyHandle.code();
    };
    let begun = switch_in(&mut object, off);
    mover.put(object);
    done(begun)
}

/// The put that comes next.
#[unsafe(no_mangle)]
pub extern "C" fn track_mover_next(
    alloc: Global,
    mover: &mut TrackHandle,
    put: &mut TrackPut,
) -> u32
    ensures told { Tells (and_then (mover_in (held mover.old)) next_put) result put.old put.new }
    ensures kept { held mover.new ≡ held mover.old }
{
    let Some(object) = mover.take(alloc) else {
        return Fault::EmptyHandle.code();
    };
    let next = next_in(&object);
    mover.put(object);
    tell(put, next)
}

/// The put that came next is made.
#[unsafe(no_mangle)]
pub extern "C" fn track_mover_made(alloc: Global, mover: &mut TrackHandle) -> u32
    ensures { Tells (and_then (mover_in (held mover.old)) after_put) result
        (held mover.old) (held mover.new) }
{
    let Some(mut object) = mover.take(alloc) else {
        return Fault::EmptyHandle.code();
    };
    let made = made_in(&mut object);
    mover.put(object);
    done(made)
}

/// Where a mover stands, by the puts made.
#[unsafe(no_mangle)]
pub extern "C" fn track_mover_place(
    alloc: Global,
    mover: &mut TrackHandle,
    place: &mut TrackPlace,
) -> u32
    ensures told { Tells (and_then (mover_in (held mover.old)) place_told) result place.old
        place.new }
    ensures kept { held mover.new ≡ held mover.old }
{
    let Some(object) = mover.take(alloc) else {
        return Fault::EmptyHandle.code();
    };
    let found = place_in(&object);
    mover.put(object);
    tell(place, found)
}
