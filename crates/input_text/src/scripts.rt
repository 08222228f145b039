//! The scripts of actors, out of a list of calls.
ghost use Rattle.std.specs.Prelude.{◌≡◌, [], map, IfOk};
ghost use Rattle.net_reader.specs.Input.{numbers_from};
ghost use Rattle.net_reader.specs.Said.{script_of};
ghost use Rattle.input_text.specs.Listing.{spoken_of};

use crate::listing::ActorCall;
use net_reader::Call;
use std::alloc::{AllocError, Global};

// So many scripts without a call.
fn empty_scripts(alloc: Global, actors: u32) -> Result<Vec<Vec<Call>>, AllocError>
    ensures { IfOk result (λ scripts. map (λ script. script.items) scripts.items
        ≡ map (λ actor. script_of actor []) (numbers_from 0 actors)) }
{
    let mut scripts = Vec::with_capacity(alloc, actors as usize)?;
    for _ in 0..actors {
        scripts.push(Vec::new(alloc))?;
    }
    Ok(scripts)
}

/// The script of each of so many actors: its calls, in the order of the list. Calls of an actor
/// beyond them are in no script.
pub fn scripts_of(
    alloc: Global,
    actors: u32,
    calls: &[ActorCall],
) -> Result<Vec<Vec<Call>>, AllocError>
    ensures { IfOk result (λ scripts. map (λ script. script.items) scripts.items
        ≡ map (λ actor. script_of actor (map spoken_of calls.now)) (numbers_from 0 actors)) }
{
    let mut scripts = empty_scripts(alloc, actors)?;
    for call in calls {
        let actor = call.actor as usize;
        if actor < scripts.len() {
            scripts[actor].push(call.call)?;
        }
    }
    Ok(scripts)
}
