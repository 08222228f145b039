//! An input, and the same with its calls in one list.
ghost use Rattle.std.specs.Prelude.{◌≡◌, ◌≤◌, ◌++◌, length, map, IfOk, OnOk};
ghost use Rattle.net_reader.specs.Seen.{seen_input};
ghost use Rattle.input_text.specs.Listing.{calls_from, calls_of, input_text_of};

use crate::lines::listing_text;
use crate::listing::{ActorCall, Listing};
use net_reader::{Call, Input};
use std::alloc::{AllocError, Global};

// The calls of an actor's script after others.
fn push_calls(calls: &mut Vec<ActorCall>, actor: u32, script: &[Call]) -> Result<(), AllocError>
    ensures { OnOk result (calls.new.items ≡ calls.old.items ++ calls_of actor script.now) }
{
    for call in script {
        calls.push(ActorCall { actor, call: *call })?;
    }
    Ok(())
}

/// The calls of all scripts, by actor.
pub fn calls_by_actor(alloc: Global, scripts: &[Vec<Call>]) -> Result<Vec<ActorCall>, AllocError>
    requires { length scripts.now ≤ 4294967295 }
    ensures { IfOk result (λ calls. calls.items
        ≡ calls_from 0 (map (λ script. script.items) scripts.now)) }
{
    let mut calls = Vec::new(alloc);
    let mut actor = 0;
    for script in scripts {
        push_calls(&mut calls, actor, script)?;
        actor += 1;
    }
    Ok(calls)
}

/// The text of an input, with its calls by actor.
pub fn input_text(alloc: Global, input: &Input) -> Result<Vec<u8>, AllocError>
    requires { length input.now.scripts.items ≤ 4294967295 }
    ensures { IfOk result (λ text. text.items ≡ input_text_of (seen_input input.now)) }
{
    let calls = calls_by_actor(alloc, &input.scripts)?;
    listing_text(
        alloc,
        Listing {
            format: input.format,
            nodes: input.nodes,
            k: input.k,
            edges: &input.edges,
            homes: &input.homes,
            callers: input.callers,
            calls: &calls,
            order: &input.order,
        },
    )
}
