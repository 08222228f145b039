//! What an input says of the lines of its report, before any report is read.
ghost use Rattle.std.specs.Prelude.{◌≡◌, ◌++◌, ◌+◌, ◌-◌, ◌<◌, ◌^◌, ℕ, OnOk, IfOk, length, map, [], slice_index};
ghost use Rattle.net_reader.specs.Seen.{seen_input};
ghost use Rattle.net_reader.specs.Valid.{IsValid};
ghost use Rattle.report_check.specs.Slots.{number_after, place_after, slot_of, slots_in, slots_for};

use net_reader::{Call, Input};
use std::alloc::{AllocError, Global};

/// What an input says of the line of a call.
#[derive(Clone, Copy)]
pub(crate) enum Slot {
    Move {
        actor: u32,
        number: u32,
        from: u32,
        to: u32,
    },
    Switch {
        actor: u32,
        off: bool,
        node: u32,
        number: u32,
    },
    Find {
        actor: u32,
        from: u32,
        sub: u32,
    },
}

// The slot of a call of an actor that has this place, and has made so many moves.
fn slot_of(actor: u32, place: u32, number: u32, call: Call) -> Slot
    requires { number + 1 < 2 ^ 32 }
    ensures { result ≡ slot_of actor place number call }
{
    match call {
        Call::Move { to } => Slot::Move {
            actor,
            number: number + 1,
            from: place,
            to,
        },
        Call::Find { from, sub } => Slot::Find { actor, from, sub },
        Call::Off => Slot::Switch {
            actor,
            off: true,
            node: place,
            number,
        },
        Call::On => Slot::Switch {
            actor,
            off: false,
            node: place,
            number,
        },
    }
}

// The place after a call.
fn place_after(place: u32, call: Call) -> u32
    ensures { result ≡ place_after place call }
{
    match call {
        Call::Move { to } => to,
        _ => place,
    }
}

// How many moves were made after a call.
fn number_after(number: u32, call: Call) -> u32
    requires { number + 1 < 2 ^ 32 }
    ensures { result ≡ number_after number call }
{
    match call {
        Call::Move { .. } => number + 1,
        _ => number,
    }
}

// Adds the slots of a script.
fn push_slots(
    slots: &mut Vec<Slot>,
    actor: u32,
    start: u32,
    script: &[Call],
) -> Result<(), AllocError>
    requires few { length script.now < 2 ^ 32 - 1 }
    ensures { OnOk result (slots.new.items ≡ slots.old.items ++ slots_in actor start 0 script.now) }
{
    let mut place = start;
    let mut number = 0;
    'calls: for call in script {
        slots.push(slot_of(actor, place, number, *call))?;
        place = place_after(place, *call);
        number = number_after(number, *call);
    }
    Ok(())
}

// The start node of a subscriber; a caller has none, and gets node 0.
fn start_of(homes: &[u32], actor: usize) -> u32
    ensures { result ≡ slice_index homes.now actor }
{
    match homes.get(actor) {
        Some(node) => *node,
        None => 0,
    }
}

// The slots of all calls of an input, by actor and in the order of their scripts.
pub(crate) fn slots_of(alloc: Global, input: &Input) -> Result<Vec<Slot>, AllocError>
    requires { IsValid (seen_input input.now) }
    ensures { IfOk result (λ slots. slots.items ≡ slots_for (seen_input input.now)) }
{
    let mut slots = Vec::new(alloc);
    'actors: for actor in 0..input.scripts.len() {
        let start = start_of(&input.homes, actor);
        push_slots(&mut slots, actor as u32, start, &input.scripts[actor])?;
    }
    Ok(slots)
}
