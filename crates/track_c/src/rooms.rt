//! How much room the visits of a find and of a move want.
ghost use Rattle.std.specs.Prelude.{◌≡◌};
ghost use Rattle.track_c.specs.Faults.{Tells, and_then};
ghost use Rattle.track_c.specs.Handles.{held};
ghost use Rattle.track_c.specs.Held.{plan_in, seen_network, seen_object};
ghost use Rattle.track_c.specs.Rooms.{room_told};

use crate::fault::Fault;
use crate::handle::TrackHandle;
use crate::object::{Network, Object};
use crate::telling::tell;
use std::alloc::Global;

/// The most looks of a find from a node, and the most puts of a move.
#[repr(C)]
#[derive(Clone, Copy)]
pub struct TrackRoom {
    pub looks: u64,
    pub puts: u64,
}

impl Network {
    // The room that a find from a node wants, and a move.
    fn room(&self, node: u32) -> Result<TrackRoom, Fault>
        ensures { result ≡ room_told node (seen_network self.now) }
    {
        if node >= self.plan.nodes() {
            return Err(Fault::NoNode);
        }
        Ok(TrackRoom {
            looks: self.plan.most_looks(node),
            puts: self.plan.most_writes(),
        })
    }
}

// The room by the plan of an object.
fn room_in(object: &Object, node: u32) -> Result<TrackRoom, Fault>
    ensures { result ≡ and_then (plan_in (seen_object object.now)) (room_told node) }
{
    match object {
        Object::Plan(network) => network.room(node),
        Object::Finder(_)
        | Object::Mover(_)
        | Object::Crew(_)
        | Object::Caller(_)
        | Object::Subscriber(_) => Err(Fault::OtherKind),
    }
}

/// How many visits a find from a node may make, and how many a move.
#[unsafe(no_mangle)]
pub extern "C" fn track_plan_room(
    alloc: Global,
    plan: &mut TrackHandle,
    node: u32,
    room: &mut TrackRoom,
) -> u32
    ensures told { Tells (and_then (plan_in (held plan.old)) (room_told node)) result room.old
        room.new }
    ensures kept { held plan.new ≡ held plan.old }
{
    let Some(object) = plan.take(alloc) else {
        return Fault::EmptyHandle.code();
    };
    let found = room_in(&object, node);
    plan.put(object);
    tell(room, found)
}
