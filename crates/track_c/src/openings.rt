//! What the cells of a subscriber hold at the opening.
ghost use Rattle.std.specs.Prelude.{◌≡◌, ◌<◌, Some};
ghost use Rattle.directory.specs.Writes.{entry_at};
ghost use Rattle.region_plan.specs.Plan.{home, levels_of, nodes_of};
ghost use Rattle.track_c.specs.Faults.{Tells, and_then};
ghost use Rattle.track_c.specs.Handles.{held};
ghost use Rattle.track_c.specs.Held.{plan_in, seen_network, seen_object};
ghost use Rattle.track_c.specs.Moves.{put_told};
ghost use Rattle.track_c.specs.Openings.{OpeningIsPut, PutsAreOpening, opening_put, opening_write, write_or_end};

use crate::cells::{TrackPut, tell_cell};
use crate::fault::Fault;
use crate::handle::TrackHandle;
use crate::object::{Network, Object};
use crate::telling::tell;
use entry_word::{Address, Key, PresenceMark, pack_address, pack_mark};
use region_plan::{Plan, plan_is_sound};
use std::alloc::Global;

// The presence of a subscriber where it starts, or its entry at a home of the node.
fn put_at(plan: &Plan, sub: u32, node: u32, index: u32) -> Result<TrackPut, Fault>
    requires { node < nodes_of plan.now }
    ensures { result ≡ write_or_end plan.now sub (opening_write plan.now node index) }
{
    if index == 0 {
        return Ok(TrackPut {
            cell: tell_cell(plan, Key::Presence { node, sub }),
            word: pack_mark(PresenceMark::Here { number: 0 }),
        });
    }
    let level = index - 1;
    if level >= plan.levels() {
        return Err(Fault::PastEnd);
    }
    Ok(entry_put(plan, sub, node, level))
}

// The entry of a subscriber at the home of its start node.
fn entry_put(plan: &Plan, sub: u32, node: u32, level: u32) -> TrackPut
    requires node { node < nodes_of plan.now }
    requires level { level < levels_of plan.now }
    ensures { result ≡ put_told plan.now sub (entry_at level (home plan.now level node)
        (Some (record { number = 0; node = node }))) }
{
    // Nodes are few.
    plan_is_sound(plan);
    let cluster = plan.home(level, node);
    let address = Address {
        number: 0,
        node: node as u16,
    };
    TrackPut {
        cell: tell_cell(
            plan,
            Key::Entry {
                level,
                cluster,
                sub,
            },
        ),
        word: pack_address(Some(address)),
    }
}

impl Network {
    // What a cell holds at the opening.
    fn opening(&self, sub: u32, node: u32, index: u32) -> Result<TrackPut, Fault>
        ensures { result ≡ opening_put sub node index (seen_network self.now) }
    {
        if node >= self.plan.nodes() {
            return Err(Fault::NoNode);
        }
        put_at(&self.plan, sub, node, index)
    }
}

// What a cell holds at the opening, by the plan of an object.
fn opening_in(object: &Object, sub: u32, node: u32, index: u32) -> Result<TrackPut, Fault>
    ensures { result ≡ and_then (plan_in (seen_object object.now)) (opening_put sub node index) }
{
    match object {
        Object::Plan(network) => network.opening(sub, node, index),
        Object::Finder(_)
        | Object::Mover(_)
        | Object::Crew(_)
        | Object::Caller(_)
        | Object::Subscriber(_) => Err(Fault::OtherKind),
    }
}

/// A cell that isn't 0 at the opening, by index.
#[unsafe(no_mangle)]
pub extern "C" fn track_plan_opening(
    alloc: Global,
    plan: &mut TrackHandle,
    sub: u32,
    node: u32,
    index: u32,
    put: &mut TrackPut,
) -> u32
    ensures told { Tells (and_then (plan_in (held plan.old)) (opening_put sub node index)) result
        put.old put.new }
    ensures kept { held plan.new ≡ held plan.old }
{
    let Some(object) = plan.take(alloc) else {
        return Fault::EmptyHandle.code();
    };
    let found = opening_in(&object, sub, node, index);
    plan.put(object);
    tell(put, found)
}

/// The puts of an opening are the directory's own: each tells what its cell holds, and each cell
/// that isn't 0 has one. The call does nothing.
pub fn openings_are_the_directorys()
    ensures puts { PutsAreOpening }
    ensures cells { OpeningIsPut }
{}
