//! Subscribers of a crew: moves and switches, put by put, over the tracker that it shares.
ghost use Rattle.std.specs.Prelude.{◌≡◌, [], Err, MatchResult, None, Ok, Some};
ghost use Rattle.std.specs.Arc.{arc_value};
ghost use Rattle.handset.specs.Beginning.{begin_move, move_fault, switch_fault};
ghost use Rattle.handset.specs.declared.stage.Stage.TheVariants.{Switching};
ghost use Rattle.region_plan.specs.Settings.{setting_of};
ghost use Rattle.station.specs.Handsets.{IsHandsetOf};
ghost use Rattle.station.specs.Passes.{IsPassOf};
ghost use Rattle.tracker_calls.specs.Moves.{HasStepped, IsStepFault};
ghost use Rattle.track_c.specs.Faults.{Tells, and_then};
ghost use Rattle.track_c.specs.Handles.{held};
ghost use Rattle.track_c.specs.Held.{a_subscriber, seen_object};
ghost use Rattle.track_c.specs.Members.{seen_subscriber};
ghost use Rattle.track_c.specs.Subscribers.{IsStep, IsStepOf, TellsStep, begun_move, begun_switch, step_told, subscriber_in};

use crate::fault::Fault;
use crate::handle::TrackHandle;
use crate::members::{Shared, Subscriber};
use crate::movers::{refused_move, refused_switch};
use crate::object::Object;
use crate::telling::{done, tell};
use handset::{Handset, MoveFault, SwitchFault};
use station::Pass;
use std::alloc::Global;
use tracker_calls::{StepFault, move_step};

// One put of a subscriber: its ticket.
fn put_of(shared: &Shared, pass: &mut Pass, handset: &mut Handset) -> Result<u64, StepFault>
    requires of { IsPassOf shared.now.tracker pass.old }
    requires outside { pass.old.view.inside ≡ None }
    requires own { IsHandsetOf shared.now.tracker.setup pass.old.view handset.old }
    ensures of { IsPassOf shared.now.tracker pass.new }
    ensures outside { pass.new.view.inside ≡ None }
    ensures own { IsHandsetOf shared.now.tracker.setup pass.new.view handset.new }
    ensures step { MatchResult result
        (λ ticket. HasStepped shared.now.tracker.setup pass.old handset.old ticket pass.new
        handset.new)
        (λ fault. IsStepFault shared.now.tracker.setup pass.old handset.old fault pass.new
        × (handset.new ≡ handset.old)) }
{
    match move_step(&shared.tracker, pass, &shared.network.plan, handset) {
        Ok(ticket) => Ok(ticket),
        Err(fault) => Err(fault),
    }
}

// A move begins, of a handset that is its pass's own.
fn begin_of(shared: &Shared, pass: &Pass, handset: &mut Handset, to: u32) -> Result<(), MoveFault>
    requires own { IsHandsetOf shared.now.tracker.setup pass.now.view handset.old }
    ensures own { IsHandsetOf shared.now.tracker.setup pass.now.view handset.new }
    ensures begun { MatchResult result
        (λ _. (move_fault shared.now.tracker.setup.plan handset.old to ≡ None)
        × (handset.new
        ≡ begin_move (setting_of shared.now.tracker.setup.plan []) handset.old to))
        (λ fault. (move_fault shared.now.tracker.setup.plan handset.old to ≡ Some fault)
        × (handset.new ≡ handset.old)) }
{
    let _ = pass;
    let network = &*shared.network;
    match handset.begin(&network.plan, &network.distances, to) {
        Ok(()) => Ok(()),
        Err(fault) => Err(fault),
    }
}

// A switch begins, of a handset that is its pass's own.
fn switch_of(
    shared: &Shared,
    pass: &Pass,
    handset: &mut Handset,
    off: bool,
) -> Result<(), SwitchFault>
    requires own { IsHandsetOf shared.now.tracker.setup pass.now.view handset.old }
    ensures own { IsHandsetOf shared.now.tracker.setup pass.now.view handset.new }
    ensures begun { MatchResult result
        (λ _. (switch_fault handset.old off ≡ None)
        × (handset.new ≡ record handset.old { stage = Switching off }))
        (λ fault. (switch_fault handset.old off ≡ Some fault)
        × (handset.new ≡ handset.old)) }
{
    let _ = shared;
    let _ = pass;
    match handset.switch(off) {
        Ok(()) => Ok(()),
        Err(fault) => Err(fault),
    }
}

impl Subscriber {
    // Begins a move.
    fn begin(&mut self, to: u32) -> Result<(), Fault>
        ensures { MatchResult result
            (λ _. begun_move to (seen_subscriber self.old)
            ≡ Ok (a_subscriber (seen_subscriber self.new)))
            (λ fault. (begun_move to (seen_subscriber self.old) ≡ Err fault)
            × (seen_subscriber self.new ≡ seen_subscriber self.old)) }
    {
        self.reveal();
        match begin_of(&self.shared, &self.pass, &mut self.handset, to) {
            Ok(()) => Ok(()),
            Err(fault) => Err(refused_move(fault)),
        }
    }

    // Begins a switch.
    fn switch(&mut self, off: bool) -> Result<(), Fault>
        ensures { MatchResult result
            (λ _. begun_switch off (seen_subscriber self.old)
            ≡ Ok (a_subscriber (seen_subscriber self.new)))
            (λ fault. (begun_switch off (seen_subscriber self.old) ≡ Err fault)
            × (seen_subscriber self.new ≡ seen_subscriber self.old)) }
    {
        self.reveal();
        match switch_of(&self.shared, &self.pass, &mut self.handset, off) {
            Ok(()) => Ok(()),
            Err(fault) => Err(refused_switch(fault)),
        }
    }

    // One put: its ticket.
    fn step(&mut self) -> Result<u64, StepFault>
        ensures shared { self.new.shared ≡ self.old.shared }
        ensures step { IsStep (seen_subscriber self.old) result self.new.pass self.new.handset }
    {
        self.reveal();
        put_of(&self.shared, &mut self.pass, &mut self.handset)
    }
}

// The subscriber of an object begins a move.
fn move_in(object: &mut Object, to: u32) -> Result<(), Fault>
    ensures { MatchResult result
        (λ _. and_then (subscriber_in (seen_object object.old)) (begun_move to)
        ≡ Ok (seen_object object.new))
        (λ fault. (and_then (subscriber_in (seen_object object.old)) (begun_move to) ≡ Err fault)
        × (seen_object object.new ≡ seen_object object.old)) }
{
    match object {
        Object::Subscriber(subscriber) => subscriber.begin(to),
        Object::Plan(_)
        | Object::Finder(_)
        | Object::Mover(_)
        | Object::Crew(_)
        | Object::Caller(_) => Err(Fault::OtherKind),
    }
}

// The subscriber of an object begins a switch.
fn switch_in(object: &mut Object, off: bool) -> Result<(), Fault>
    ensures { MatchResult result
        (λ _. and_then (subscriber_in (seen_object object.old)) (begun_switch off)
        ≡ Ok (seen_object object.new))
        (λ fault. (and_then (subscriber_in (seen_object object.old)) (begun_switch off) ≡ Err fault)
        × (seen_object object.new ≡ seen_object object.old)) }
{
    match object {
        Object::Subscriber(subscriber) => subscriber.switch(off),
        Object::Plan(_)
        | Object::Finder(_)
        | Object::Mover(_)
        | Object::Crew(_)
        | Object::Caller(_) => Err(Fault::OtherKind),
    }
}

// The outcome of a put, for C.
fn tell_step(outcome: Result<u64, StepFault>) -> Result<u64, Fault>
    ensures { result ≡ step_told outcome }
{
    match outcome {
        Ok(ticket) => Ok(ticket),
        Err(StepFault::AtRest) => Err(Fault::AtRest),
        Err(StepFault::Unreserved { .. }) => Err(Fault::Unreserved),
        Err(StepFault::Held { .. }) => Err(Fault::Held),
    }
}

// A put of the subscriber of an object.
fn step_in(object: &mut Object) -> Result<u64, Fault>
    ensures { IsStepOf (subscriber_in (seen_object object.old)) result (seen_object object.old)
        (seen_object object.new) }
{
    match object {
        Object::Subscriber(subscriber) => tell_step(subscriber.step()),
        Object::Plan(_)
        | Object::Finder(_)
        | Object::Mover(_)
        | Object::Crew(_)
        | Object::Caller(_) => Err(Fault::OtherKind),
    }
}

/// Begins a move of a subscriber to a node.
#[unsafe(no_mangle)]
pub extern "C" fn track_subscriber_move(alloc: Global, subscriber: &mut TrackHandle, to: u32) -> u32
    ensures { Tells (and_then (subscriber_in (held subscriber.old)) (begun_move to)) result
        (held subscriber.old) (held subscriber.new) }
{
    let Some(mut object) = subscriber.take(alloc) else {
        return Fault::EmptyHandle.code();
    };
    let begun = move_in(&mut object, to);
    subscriber.put(object);
    done(begun)
}

/// Begins a switch of a subscriber off, or on.
#[unsafe(no_mangle)]
pub extern "C" fn track_subscriber_switch(
    alloc: Global,
    subscriber: &mut TrackHandle,
    off: bool,
) -> u32
    ensures { Tells (and_then (subscriber_in (held subscriber.old)) (begun_switch off)) result
        (held subscriber.old) (held subscriber.new) }
{
    let Some(mut object) = subscriber.take(alloc) else {
        return Fault::EmptyHandle.code();
    };
    let begun = switch_in(&mut object, off);
    subscriber.put(object);
    done(begun)
}

/// Makes the next put of a move or a switch: its ticket.
#[unsafe(no_mangle)]
pub extern "C" fn track_subscriber_step(
    alloc: Global,
    subscriber: &mut TrackHandle,
    ticket: &mut u64,
) -> u32
    ensures { TellsStep (held subscriber.old) result ticket.old ticket.new (held subscriber.new) }
{
    let Some(mut object) = subscriber.take(alloc) else {
        return Fault::EmptyHandle.code();
    };
    let made = step_in(&mut object);
    subscriber.put(object);
    tell(ticket, made)
}
