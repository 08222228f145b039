//! Censuses of callers: which subscribers are at a node, over the tracker that a crew shares.
ghost use Rattle.std.specs.Prelude.{◌≡◌};
ghost use Rattle.track_c.specs.Callers.{caller_in};
ghost use Rattle.track_c.specs.Censuses.{IsCensusBy, IsListed, TellsCensus};
ghost use Rattle.track_c.specs.Handles.{held};
ghost use Rattle.track_c.specs.Held.{seen_object};
ghost use Rattle.track_c.specs.Members.{seen_caller};

use crate::fault::Fault;
use crate::handle::TrackHandle;
use crate::members::Caller;
use crate::object::Object;
use crate::telling::tell;
use std::alloc::Global;

/// What a census found at its ticket: bit s of `who` is set where the subscriber s is at the node,
/// and so many bits are.
#[repr(C)]
#[derive(Clone, Copy)]
pub struct TrackCensus {
    pub ticket: u64,
    pub who: u64,
    pub count: u32,
}

impl Caller {
    // A census that waits for nobody.
    fn census(&mut self, node: u32) -> Result<TrackCensus, Fault>
        ensures shared { self.new.shared ≡ self.old.shared }
        ensures census { IsListed (seen_caller self.old) node result self.new.pass }
    {
        let shared = &*self.shared;
        if node >= shared.network.plan.nodes() {
            return Err(Fault::NoNode);
        }
        if self.pass.spare() == 0 {
            return Err(Fault::Unreserved);
        }
        match shared.tracker.visit_census(&mut self.pass, node) {
            Ok(seen) => Ok(TrackCensus {
                ticket: seen.ticket,
                who: seen.who,
                count: seen.count,
            }),
            Err(_) => Err(Fault::Held),
        }
    }
}

// A census of the caller of an object.
fn census_in(object: &mut Object, node: u32) -> Result<TrackCensus, Fault>
    ensures { IsCensusBy (caller_in (seen_object object.old)) node result
        (seen_object object.old) (seen_object object.new) }
{
    match object {
        Object::Caller(caller) => caller.census(node),
        Object::Plan(_)
        | Object::Finder(_)
        | Object::Mover(_)
        | Object::Crew(_)
        | Object::Subscriber(_) => Err(Fault::OtherKind),
    }
}

/// Lists the subscribers that are at a node, unless another member is inside it.
#[unsafe(no_mangle)]
pub extern "C" fn track_caller_census(
    alloc: Global,
    caller: &mut TrackHandle,
    node: u32,
    census: &mut TrackCensus,
) -> u32
    ensures { TellsCensus (held caller.old) node result census.old census.new (held caller.new) }
{
    let Some(mut object) = caller.take(alloc) else {
        return Fault::EmptyHandle.code();
    };
    let found = census_in(&mut object, node);
    caller.put(object);
    tell(census, found)
}
