//! Crews: a tracker that threads share, and the pass of each member.
ghost use Rattle.std.specs.Prelude.{◌≡◌, ◌⊎◌, ◌<◌, ◌≤◌, ◌++◌, ◌∷◌, [], All, IfOk, IfSome, IfErr, IfNone, MatchBool, MatchResult, Err, Ok, length};
ghost use Rattle.std.specs.Arc.{arc_value};
ghost use Rattle.region_plan.specs.Plan.{nodes_of};
ghost use Rattle.station.specs.Handsets.{IsHandsetOf};
ghost use Rattle.station.specs.Passes.{IsFreshPass, fresh_view};
ghost use Rattle.station.specs.Setup.{subs_in};
ghost use Rattle.track_c.specs.Crews.{HandsNext, HandsOf, HandsOut, IsCrewAnswer, IsCrewFault, IsHandFault, IsNewCrew, IsNewHandset, MakesCrew, crew_in, handing, handset_of, member_of};
ghost use Rattle.track_c.specs.Faults.{code_of};
ghost use Rattle.track_c.specs.Handles.{held};
ghost use Rattle.track_c.specs.Held.{a_crew, nothing, plan_in, seen_made, seen_object};
ghost use Rattle.track_c.specs.Members.{seen_crew};
ghost use Rattle.track_c.specs.declared.fault.Fault.TheVariants.{FullHandle, NoMemory};

use crate::fault::{DONE, Fault};
use crate::handle::TrackHandle;
use crate::members::{Caller, Crew, Shared, Subscriber};
use crate::object::{Network, Object};
use crate::plans::network_in;
use handset::Handset;
use station::{Pass, Tracker};
use std::alloc::Global;
use std::sync::Arc;

// Whether all of these are nodes.
fn are_nodes(starts: &[u32], nodes: u32) -> bool
    ensures { MatchBool result (All (λ node. node < nodes) starts.now)
        (All (λ node. node < nodes) starts.now → ⊥) }
{
    starts.iter().all(|node| *node < nodes)
}

// A crew over a plan.
fn crew_over(
    alloc: Global,
    network: Arc<Network, Global>,
    starts: &[u32],
    callers: u32,
) -> Result<Crew, Fault>
    ensures { MatchResult result
        (λ crew. IsNewCrew (arc_value network).plan starts.now callers (seen_crew crew))
        (λ fault. (fault ≡ NoMemory)
        ⊎ IsCrewFault (arc_value network).plan starts.now callers fault) }
{
    if starts.len() == 0 {
        return Err(Fault::NoSubscriber);
    }
    if starts.len() > 64 || callers > 64 {
        return Err(Fault::CountTooLarge);
    }
    if !are_nodes(starts, network.plan.nodes()) {
        return Err(Fault::NoNode);
    }
    let Ok(starts) = Vec::from_slice(alloc, starts) else {
        return Err(Fault::NoMemory);
    };
    let Ok((tracker, passes)) = Tracker::new(alloc, &network.plan, &starts, callers) else {
        return Err(Fault::NoMemory);
    };
    let subs = starts.len() as u32;
    let shared = Shared {
        network,
        tracker,
        subs,
    };
    let Ok(shared) = Arc::new(alloc, shared) else {
        return Err(Fault::NoMemory);
    };
    Ok(Crew {
        shared,
        starts,
        passes,
    })
}

// A crew over the plan of an object.
fn new_in(alloc: Global, object: &Object, starts: &[u32], callers: u32) -> Result<Object, Fault>
    ensures { (result ≡ Err NoMemory)
        ⊎ IsCrewAnswer (plan_in (seen_object object.now)) starts.now callers (seen_made result) }
{
    let network = network_in(object)?;
    match crew_over(alloc, network, starts, callers) {
        Ok(crew) => Ok(Object::Crew(crew)),
        Err(fault) => Err(fault),
    }
}

/// A crew over a plan: subscribers that start at these nodes, and so many callers.
#[unsafe(no_mangle)]
pub extern "C" fn track_crew_new(
    alloc: Global,
    plan: &mut TrackHandle,
    starts: &[u32],
    callers: u32,
    crew: &mut TrackHandle,
) -> u32
    ensures full { (held crew.old ≡ nothing → ⊥)
        → (result ≡ code_of FullHandle) × (held crew.new ≡ held crew.old) }
    ensures made { held crew.old ≡ nothing
        → MakesCrew (plan_in (held plan.old)) starts.now callers result (held crew.new) }
    ensures kept { held plan.new ≡ held plan.old }
{
    if crew.full {
        return Fault::FullHandle.code();
    }
    let Some(object) = plan.take(alloc) else {
        return Fault::EmptyHandle.code();
    };
    let made = new_in(alloc, &object, starts, callers);
    plan.put(object);
    crew.fill(alloc, made)
}

// The handset of a subscriber that has done nothing.
fn handset_for(alloc: Global, shared: &Shared, starts: &[u32], actor: u32) -> Result<Handset, Fault>
    requires starts { starts.now ≡ shared.now.tracker.setup.homes }
    requires inside { All (λ node. node < nodes_of shared.now.tracker.setup.plan) starts.now }
    requires sub { actor < length starts.now }
    ensures exact { IfOk result (λ handset. handset ≡ handset_of shared.now.tracker actor) }
    ensures own { IfOk result (IsHandsetOf shared.now.tracker.setup
        (fresh_view shared.now.tracker.setup actor)) }
    ensures wanting { IfErr result (λ fault. fault ≡ NoMemory) }
{
    let node = starts[actor as usize];
    match Handset::new(alloc, actor, node, &shared.network.plan) {
        Ok(handset) => Ok(handset),
        Err(_) => Err(Fault::NoMemory),
    }
}

// What the member with a fresh pass holds: a subscriber has a handset.
fn member_with(
    shared: Arc<Shared, Global>,
    pass: Pass,
    actor: u32,
    handset: Option<Handset>,
) -> Object
    requires fresh { IsFreshPass (arc_value shared).tracker actor pass }
    requires caller { IfNone handset (subs_in (arc_value shared).tracker.setup ≤ actor) }
    requires subscriber { IfSome handset (IsNewHandset (arc_value shared).tracker actor) }
    ensures { seen_object result ≡ member_of (arc_value shared).tracker pass }
{
    match handset {
        Some(handset) => Object::Subscriber(Subscriber {
            shared,
            pass,
            handset,
        }),
        None => Object::Caller(Caller { shared, pass }),
    }
}

impl Crew {
    // The handset that the next member needs, if it is a subscriber.
    fn next_handset(&self, alloc: Global, actor: u32) -> Result<Option<Handset>, Fault>
        ensures caller { IfOk result (λ made. IfNone made
            (subs_in (arc_value self.now.shared).tracker.setup ≤ actor)) }
        ensures subscriber { IfOk result (λ made. IfSome made
            (IsNewHandset (arc_value self.now.shared).tracker actor)) }
        ensures wanting { IfErr result (λ fault. fault ≡ NoMemory) }
    {
        if actor as usize >= self.starts.len() {
            return Ok(None);
        }
        match handset_for(alloc, &self.shared, &self.starts, actor) {
            Ok(handset) => Ok(Some(handset)),
            Err(fault) => Err(fault),
        }
    }

    // Its last pass.
    fn next_pass(&mut self) -> Option<Pass>
        ensures shared { self.new.shared ≡ self.old.shared }
        ensures starts { self.new.starts ≡ self.old.starts }
        ensures passes { IfSome result (λ pass.
            self.old.passes.items ≡ self.new.passes.items ++ pass ∷ []) }
        ensures fresh { IfSome result (IsFreshPass (arc_value self.old.shared).tracker
            (length self.new.passes.items)) }
        ensures none { IfNone result ((self.old.passes.items ≡ [])
            × (self.new.passes.items ≡ [])) }
    {
        self.passes.pop()
    }

    // The next member, in memory of its own, and its number.
    fn next(&mut self, alloc: Global) -> Result<(Box<Object, Global>, u32), Fault>
        ensures { MatchResult result
            (λ made. HandsOut (seen_crew self.old)
            (handing (a_crew (seen_crew self.new)) (seen_object made.0.value) made.1))
            (λ fault. (seen_crew self.new ≡ seen_crew self.old)
            × IsHandFault (Ok (seen_crew self.old)) fault) }
    {
        if self.passes.len() == 0 {
            return Err(Fault::PastEnd);
        }
        let actor = (self.passes.len() - 1) as u32;
        let Ok(shared) = Arc::try_clone(&self.shared) else {
            return Err(Fault::NoMemory);
        };
        let Ok(network) = Arc::try_clone(&shared.network) else {
            return Err(Fault::NoMemory);
        };
        // The box comes first, with another owner of the plan in it, so that no pass is taken that
        // has no place.
        let Ok(mut place) = Box::new(alloc, Object::Plan(network)) else {
            return Err(Fault::NoMemory);
        };
        let handset = self.next_handset(alloc, actor)?;
        let Some(pass) = self.next_pass() else {
            return Err(Fault::PastEnd);
        };
        *place = member_with(shared, pass, actor, handset);
        Ok((place, actor))
    }
}

// The next member of the crew of an object, and its number.
fn next_in(alloc: Global, object: &mut Object) -> Result<(Box<Object, Global>, u32), Fault>
    ensures { MatchResult result
        (λ made. HandsOf (crew_in (seen_object object.old))
        (handing (seen_object object.new) (seen_object made.0.value) made.1))
        (λ fault. (seen_object object.new ≡ seen_object object.old)
        × IsHandFault (crew_in (seen_object object.old)) fault) }
{
    match object {
        Object::Crew(crew) => crew.next(alloc),
        Object::Plan(_)
        | Object::Finder(_)
        | Object::Mover(_)
        | Object::Caller(_)
        | Object::Subscriber(_) => Err(Fault::OtherKind),
    }
}

/// The next member of a crew, the last actor first: the callers, and then the subscribers.
#[unsafe(no_mangle)]
pub extern "C" fn track_crew_next(
    alloc: Global,
    crew: &mut TrackHandle,
    member: &mut TrackHandle,
    actor: &mut u32,
) -> u32
    ensures full { (held member.old ≡ nothing → ⊥) → (result ≡ code_of FullHandle)
        × (handing (held crew.new) (held member.new) actor.new
        ≡ handing (held crew.old) (held member.old) actor.old) }
    ensures handed { held member.old ≡ nothing → HandsNext result
        (handing (held crew.old) (held member.old) actor.old)
        (handing (held crew.new) (held member.new) actor.new) }
{
    if member.full {
        return Fault::FullHandle.code();
    }
    let Some(mut object) = crew.take(alloc) else {
        return Fault::EmptyHandle.code();
    };
    let found = next_in(alloc, &mut object);
    crew.put(object);
    match found {
        Ok((made, number)) => {
            *actor = number;
            member.put(made);
            DONE
        }
        Err(fault) => fault.code(),
    }
}
