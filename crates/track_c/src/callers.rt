//! Callers: room for visits, and finds over the tracker that a crew shares.
ghost use Rattle.std.specs.Prelude.{◌≡◌, ◌⊎◌, Err, MatchResult, None, Ok};
ghost use Rattle.std.specs.Arc.{arc_value};
ghost use Rattle.directory.specs.Finds.{FindCall};
ghost use Rattle.station.specs.Passes.{IsPassOf};
ghost use Rattle.track_c.specs.Callers.{IsFindOf, IsOutcome, TellsFind, after_reserve, caller_in, outcome_told, reserved};
ghost use Rattle.track_c.specs.Faults.{TellsWithMemory};
ghost use Rattle.track_c.specs.Handles.{held};
ghost use Rattle.track_c.specs.Held.{seen_object};
ghost use Rattle.track_c.specs.Members.{seen_caller};
ghost use Rattle.track_c.specs.declared.fault.Fault.TheVariants.{NoMemory};

use crate::cells::{TrackAnswer, tell_answer};
use crate::fault::Fault;
use crate::handle::TrackHandle;
use crate::members::{Caller, Subscriber};
use crate::object::Object;
use crate::telling::{done, tell};
use directory::Found;
use station::Pass;
use std::alloc::Global;
use tracker_calls::{FindFault, find_now};

/// The most visits that a pass may have seen and have room for.
const MOST_VISITS: u64 = 1 << 56;

// Room for so many visits of a pass.
fn reserve_for(pass: &mut Pass, visits: u64) -> Result<(), Fault>
    ensures { MatchResult result
        (λ _. reserved visits pass.old ≡ Ok pass.new)
        (λ fault. (pass.new ≡ pass.old)
        × ((fault ≡ NoMemory) ⊎ (reserved visits pass.old ≡ Err fault))) }
{
    let seen = pass.seen();
    if visits > MOST_VISITS || seen > MOST_VISITS - visits {
        return Err(Fault::CountTooLarge);
    }
    match pass.reserve(visits) {
        Ok(()) => Ok(()),
        Err(_) => Err(Fault::NoMemory),
    }
}

impl Caller {
    // Room for so many visits.
    fn reserve(&mut self, visits: u64) -> Result<(), Fault>
        ensures shared { self.new.shared ≡ self.old.shared }
        ensures room { MatchResult result
            (λ _. reserved visits self.old.pass ≡ Ok self.new.pass)
            (λ fault. (self.new.pass ≡ self.old.pass)
            × ((fault ≡ NoMemory) ⊎ (reserved visits self.old.pass ≡ Err fault))) }
    {
        reserve_for(&mut self.pass, visits)
    }

    // A find that waits for nobody.
    fn find(&mut self, from: u32, sub: u32) -> Result<Found, FindFault>
        ensures shared { self.new.shared ≡ self.old.shared }
        ensures find { IsOutcome (seen_caller self.old) (record { from = from; sub = sub }) result
            self.new.pass }
    {
        let shared = &*self.shared;
        let network = &*shared.network;
        find_now(
            &shared.tracker,
            &mut self.pass,
            &network.plan,
            &network.distances,
            shared.subs,
            from,
            sub,
        )
    }
}

impl Subscriber {
    // Room for so many visits.
    fn reserve(&mut self, visits: u64) -> Result<(), Fault>
        ensures shared { self.new.shared ≡ self.old.shared }
        ensures handset { self.new.handset ≡ self.old.handset }
        ensures room { MatchResult result
            (λ _. reserved visits self.old.pass ≡ Ok self.new.pass)
            (λ fault. (self.new.pass ≡ self.old.pass)
            × ((fault ≡ NoMemory) ⊎ (reserved visits self.old.pass ≡ Err fault))) }
    {
        reserve_for(&mut self.pass, visits)
    }
}

// Room for so many visits of the actor of an object.
fn reserve_in(object: &mut Object, visits: u64) -> Result<(), Fault>
    ensures { MatchResult result
        (λ _. after_reserve visits (seen_object object.old) ≡ Ok (seen_object object.new))
        (λ fault. (seen_object object.new ≡ seen_object object.old)
        × ((fault ≡ NoMemory) ⊎ (after_reserve visits (seen_object object.old) ≡ Err fault))) }
{
    match object {
        Object::Caller(caller) => caller.reserve(visits),
        Object::Subscriber(subscriber) => subscriber.reserve(visits),
        Object::Plan(_) | Object::Finder(_) | Object::Mover(_) | Object::Crew(_) => {
            Err(Fault::OtherKind)
        }
    }
}

/// Sees to room for so many visits of a caller or a subscriber.
#[unsafe(no_mangle)]
pub extern "C" fn track_actor_reserve(alloc: Global, actor: &mut TrackHandle, visits: u64) -> u32
    ensures { TellsWithMemory (after_reserve visits (held actor.old)) result (held actor.old)
        (held actor.new) }
{
    let Some(mut object) = actor.take(alloc) else {
        return Fault::EmptyHandle.code();
    };
    let made = reserve_in(&mut object, visits);
    actor.put(object);
    done(made)
}

// The outcome of a find, for C.
fn tell_outcome(outcome: Result<Found, FindFault>) -> Result<TrackAnswer, Fault>
    ensures { result ≡ outcome_told outcome }
{
    match outcome {
        Ok(found) => Ok(tell_answer(found)),
        Err(FindFault::NoNode) => Err(Fault::NoNode),
        Err(FindFault::NoSubscriber) => Err(Fault::NoSubscriber),
        Err(FindFault::Unreserved { .. }) => Err(Fault::Unreserved),
        Err(FindFault::Held { .. }) => Err(Fault::Held),
    }
}

// A find of the caller of an object.
fn find_in(object: &mut Object, from: u32, sub: u32) -> Result<TrackAnswer, Fault>
    ensures { IsFindOf (caller_in (seen_object object.old)) (record { from = from; sub = sub })
        result (seen_object object.old) (seen_object object.new) }
{
    match object {
        Object::Caller(caller) => tell_outcome(caller.find(from, sub)),
        Object::Plan(_)
        | Object::Finder(_)
        | Object::Mover(_)
        | Object::Crew(_)
        | Object::Subscriber(_) => Err(Fault::OtherKind),
    }
}

/// Finds a subscriber from a node, unless another member is inside a node on the way.
#[unsafe(no_mangle)]
pub extern "C" fn track_caller_find(
    alloc: Global,
    caller: &mut TrackHandle,
    from: u32,
    sub: u32,
    answer: &mut TrackAnswer,
) -> u32
    ensures { TellsFind (held caller.old) (record { from = from; sub = sub }) result answer.old
        answer.new (held caller.new) }
{
    let Some(mut object) = caller.take(alloc) else {
        return Fault::EmptyHandle.code();
    };
    let found = find_in(&mut object, from, sub);
    caller.put(object);
    tell(answer, found)
}
