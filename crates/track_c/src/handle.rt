//! Handles, which C keeps: a box behind a pointer that names no type.
ghost use Rattle.std.specs.Prelude.{◌≡◌, Err, Ok, true, None, Some, Option, option_map};
ghost use Rattle.std.specs.Option.{is_some};
ghost use Rattle.track_c.specs.declared.fault.Fault.{Fault};
ghost use Rattle.track_c.specs.declared.object.Object.{Object};
ghost use Rattle.track_c.specs.Faults.{Answer, TellsWithMemory, code_of};
ghost use Rattle.track_c.specs.Held.{Held, IsMade, into, nothing, seen};
ghost use Rattle.track_c.specs.Owned.{held_coded, owned_at};

mod parts;

use crate::fault::{DONE, Fault};
use crate::object::Object;
use parts::BoxParts;
use std::alloc::Global;
use std::marker::Model;
use std::mem::replace;
use std::ptr::null_mut;

// What is behind the pointer, if anything.
#[repr(C)]
#[derive(Drop)]
pub struct Sealed {
    at: *mut u8,
    alloc: Global,
    pub ghost held: { Option Object } by { held_coded },
}

impl Model for Sealed {
    ghost also_owns = { λ sealed. owned_at sealed.held sealed.alloc sealed.at };
}

impl Sealed {
    // A box.
    pub fn of_box(whole: Box<Object, Global>) -> Sealed
        ensures { result.held ≡ Some whole.value }
    {
        Sealed::of_parts(BoxParts::of_box(whole))
    }

    fn of_parts(parts: BoxParts<Object, Global>) -> Sealed
        ensures { result.held ≡ Some parts.value }
    {
        let BoxParts { at, alloc } = parts;
        Sealed {
            at: at as *mut u8,
            alloc,
        }
    }

    fn into_parts(self) -> BoxParts<Object, Global>
        requires { is_some self.held ≡ true }
        ensures { self.held ≡ Some result.value }
    {
        let Sealed { at, alloc } = self;
        BoxParts {
            at: at as *mut Object,
            alloc,
        }
    }

    // The box again.
    pub fn into_box(self) -> Box<Object, Global>
        requires { is_some self.held ≡ true }
        ensures { self.held ≡ Some result.value }
    {
        self.into_parts().whole()
    }

    // Nothing.
    pub fn none(alloc: Global) -> Sealed
        ensures { result.held ≡ None }
    {
        let at: *mut u8 = null_mut();
        Sealed { at, alloc }
    }
}

// A box of what a handle can hold may go to another thread.
unsafe impl Send for Sealed {}

/// A handle, which C keeps. A handle of zeros is empty.
#[repr(C)]
#[derive(Drop)]
pub struct TrackHandle {
    pub full: bool,
    pub sealed: Sealed,
    pub ghost tied: { full ≡ is_some sealed.held },
}

impl TrackHandle {
    // What it holds, if anything. It is empty then.
    pub fn take(&mut self, alloc: Global) -> Option<Box<Object, Global>>
        ensures held { self.old.sealed.held ≡ option_map (λ object. object.value) result }
        ensures empty { self.new.sealed.held ≡ None }
    {
        if !self.full {
            return None;
        }
        let empty = TrackHandle {
            full: false,
            sealed: Sealed::none(alloc),
        };
        let TrackHandle { sealed, .. } = replace(self, empty);
        Some(sealed.into_box())
    }

    // It holds this.
    pub fn put(&mut self, object: Box<Object, Global>)
        ensures { self.new.sealed.held ≡ Some object.value }
    {
        *self = TrackHandle {
            full: true,
            sealed: Sealed::of_box(object),
        };
    }

    // It holds what was made, in new memory; else it is as before.
    pub fn fill(&mut self, alloc: Global, made: Result<Object, Fault>) -> u32
        ensures refused { (fault : Fault) → made ≡ Err fault → seen self.old.sealed.held ≡ nothing
            → (result ≡ code_of fault) × (seen self.new.sealed.held ≡ nothing) }
        ensures filled { (answer : Answer Held) → IsMade answer made → TellsWithMemory
            (into (seen self.old.sealed.held) answer) result
            (seen self.old.sealed.held) (seen self.new.sealed.held) }
    {
        if self.full {
            return Fault::FullHandle.code();
        }
        match made {
            Ok(object) => self.fill_with(alloc, object),
            Err(fault) => fault.code(),
        }
    }

    // It holds this, in new memory; without memory it is as before.
    fn fill_with(&mut self, alloc: Global, object: Object) -> u32
        ensures { TellsWithMemory (Ok (seen (Some object))) result (seen self.old.sealed.held)
            (seen self.new.sealed.held) }
    {
        let Ok(object) = Box::new(alloc, object) else {
            return Fault::NoMemory.code();
        };
        self.put(object);
        DONE
    }
}

// Takes a value that may go to another thread.
fn sent<T: Send>(value: T) -> T
    ensures { result ≡ value }
{
    value
}

/// A handle may go to another thread, whatever it holds.
pub fn handles_are_sent(handle: TrackHandle) -> TrackHandle
    ensures { result ≡ handle }
{
    sent(handle)
}
