//! The state of a mover as words, and back.
ghost use Rattle.std.specs.Prelude.{◌≡◌, Ok, length};
ghost use Rattle.track_c.specs.Faults.{Tells, TellsWithMemory, and_then};
ghost use Rattle.track_c.specs.Handles.{held};
ghost use Rattle.track_c.specs.Held.{IsMade, MoverHeld, a_mover, into, mover_in, plan_in, seen_mover, seen_object};
ghost use Rattle.track_c.specs.Saving.{ComesBack, IsWritten, length_told, loaded, saved, state_refusal};

use crate::fault::Fault;
use crate::handle::TrackHandle;
use crate::object::{Mover, Object};
use crate::plans::network_in;
use crate::telling::{done, tell};
use handset::{Handset, StateFault, StateRefusal, states_come_back};
use region_plan::plan_is_sound;
use std::alloc::{AllocError, Global};

// Why words are no state.
fn refused_state(fault: StateFault) -> Fault
    ensures { result ≡ state_refusal fault }
{
    match fault {
        StateFault::Short => Fault::ShortState,
        StateFault::Garbled => Fault::GarbledState,
        StateFault::NoNode => Fault::NoNode,
        StateFault::Mixed => Fault::MixedState,
    }
}

impl Mover {
    // How many words its state has.
    fn state_length(&self) -> u32
        ensures { Ok result ≡ length_told (seen_mover self.now) }
    {
        self.handset.state_length(&self.network.plan)
    }

    // Its words are loaded as it is. The call does nothing.
    fn comes_back(&self)
        ensures { ComesBack (seen_mover self.now) }
    {
        states_come_back();
        plan_is_sound(&self.network.plan);
        // This tells the proof that the subscriber is a number of 32 bits.
        self.handset.sub();
    }

    // Writes its state over words.
    fn save(&self, alloc: Global, words: &mut [u64]) -> Result<(), Fault>
        ensures written { IsWritten (saved (length words.old) (seen_mover self.now)) result words.old
            words.new }
        ensures back { ComesBack (seen_mover self.now) }
    {
        self.comes_back();
        if words.len() != self.state_length() as usize {
            return Err(Fault::NoRoom);
        }
        match self.handset.state(alloc) {
            Ok(state) => {
                words.copy_from_slice(&state);
                Ok(())
            }
            Err(AllocError) => Err(Fault::NoMemory),
        }
    }
}

// How many words the state of an object's mover has.
fn length_in(object: &Object) -> Result<u32, Fault>
    ensures { result ≡ and_then (mover_in (seen_object object.now)) length_told }
{
    match object {
        Object::Mover(mover) => Ok(mover.state_length()),
        Object::Plan(_)
        | Object::Finder(_)
        | Object::Crew(_)
        | Object::Caller(_)
        | Object::Subscriber(_) => Err(Fault::OtherKind),
    }
}

// Writes the state of an object's mover over words.
fn save_in(alloc: Global, object: &Object, words: &mut [u64]) -> Result<(), Fault>
    ensures written { IsWritten (and_then (mover_in (seen_object object.now))
        (saved (length words.old))) result words.old words.new }
    ensures back { (it : MoverHeld) → seen_object object.now ≡ a_mover it → ComesBack it }
{
    match object {
        Object::Mover(mover) => mover.save(alloc, words),
        Object::Plan(_)
        | Object::Finder(_)
        | Object::Crew(_)
        | Object::Caller(_)
        | Object::Subscriber(_) => Err(Fault::OtherKind),
    }
}

// A mover by its state, over the plan of an object.
fn load_in(alloc: Global, object: &Object, words: &[u64]) -> Result<Object, Fault>
    ensures { IsMade (and_then (plan_in (seen_object object.now)) (loaded words.now)) result }
{
    let network = network_in(object)?;
    match Handset::of_state(alloc, &network.plan, words) {
        Ok(handset) => Ok(Object::Mover(Mover { network, handset })),
        Err(StateRefusal::Fault(fault)) => Err(refused_state(fault)),
        Err(StateRefusal::OutOfMemory) => Err(Fault::NoMemory),
    }
}

/// How many words the state of a mover has.
#[unsafe(no_mangle)]
pub extern "C" fn track_mover_length(alloc: Global, mover: &mut TrackHandle, count: &mut u32) -> u32
    ensures told { Tells (and_then (mover_in (held mover.old)) length_told) result count.old
        count.new }
    ensures kept { held mover.new ≡ held mover.old }
{
    let Some(object) = mover.take(alloc) else {
        return Fault::EmptyHandle.code();
    };
    let found = length_in(&object);
    mover.put(object);
    tell(count, found)
}

/// Writes the state of a mover over just as many words as it has.
#[unsafe(no_mangle)]
pub extern "C" fn track_mover_save(alloc: Global, mover: &mut TrackHandle, words: &mut [u64]) -> u32
    ensures told { TellsWithMemory
        (and_then (mover_in (held mover.old)) (saved (length words.old)))
        result words.old words.new }
    ensures back { (it : MoverHeld) → held mover.old ≡ a_mover it → ComesBack it }
    ensures kept { held mover.new ≡ held mover.old }
{
    let Some(object) = mover.take(alloc) else {
        return Fault::EmptyHandle.code();
    };
    let written = save_in(alloc, &object, words);
    mover.put(object);
    done(written)
}

/// The mover of which words are the state.
#[unsafe(no_mangle)]
pub extern "C" fn track_mover_load(
    alloc: Global,
    plan: &mut TrackHandle,
    words: &[u64],
    mover: &mut TrackHandle,
) -> u32
    ensures given { TellsWithMemory
        (into (held mover.old) (and_then (plan_in (held plan.old)) (loaded words.now)))
        result (held mover.old) (held mover.new) }
    ensures kept { held plan.new ≡ held plan.old }
{
    let Some(object) = plan.take(alloc) else {
        return mover.fill(alloc, Err(Fault::EmptyHandle));
    };
    let made = load_in(alloc, &object, words);
    plan.put(object);
    mover.fill(alloc, made)
}
