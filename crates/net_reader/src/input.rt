//! What an input says.
ghost use Rattle.std.specs.Prelude.{◌≡◌, [], map, IfOk, Ok};
ghost use Rattle.net_reader.specs.Said.{script_of};
ghost use Rattle.net_reader.specs.Input.{contents_of, numbers_from};
ghost use Rattle.net_reader.specs.Seen.{seen_input, seen_known, KeepsLimits, Answers};
ghost use Rattle.net_reader.specs.Sound.{IsSound};

use crate::fault::{InputCause, InputFault, ReadRefusal};
use crate::known::Known;
use crate::said::{Call, Spoken};
use net_graph::{Edge, Graph, GraphFault};
use std::alloc::{AllocError, Global};

/// What an input says: its network, its subscribers' homes, and one script per actor.
#[derive(Debug, Drop)]
pub struct Input {
    pub format: u32,
    pub nodes: u32,
    pub k: u32,
    pub edges: Vec<Edge>,
    pub homes: Vec<u32>,
    pub callers: u32,
    pub scripts: Vec<Vec<Call>>,
    pub order: Vec<u32>,
}

// So many scripts without a call, each with room for so many calls.
fn empty_scripts(alloc: Global, actors: u32, room: usize) -> Result<Vec<Vec<Call>>, AllocError>
    ensures { IfOk result (λ scripts. map (λ script. script.items) scripts.items
        ≡ map (λ actor. script_of actor []) (numbers_from 0 actors)) }
{
    let mut scripts = Vec::with_capacity(alloc, actors as usize)?;
    for _ in 0..actors {
        let script = Vec::with_capacity(alloc, room)?;
        scripts.push(script)?;
    }
    Ok(scripts)
}

// Room to reserve for a script: the mean number of calls of an actor, and a quarter more.
fn room_of_script(actors: u32, calls: usize) -> usize {
    let mean = calls / actors.max(1) as usize;
    mean.saturating_add(mean / 4)
}

// The script of each actor: its calls, in the order of the text.
fn scripts_of(alloc: Global, actors: u32, calls: &[Spoken]) -> Result<Vec<Vec<Call>>, AllocError>
    ensures { IfOk result (λ scripts. map (λ script. script.items) scripts.items
        ≡ map (λ actor. script_of actor calls.now) (numbers_from 0 actors)) }
{
    let room = room_of_script(actors, calls.len());
    let mut scripts = empty_scripts(alloc, actors, room)?;
    for spoken in calls {
        let actor = spoken.actor as usize;
        if actor < scripts.len() {
            scripts[actor].push(spoken.call)?;
        }
    }
    Ok(scripts)
}

// The input that was read.
fn input_of(alloc: Global, known: Known) -> Result<Input, AllocError>
    requires { KeepsLimits known }
    ensures { IfOk result (λ input. seen_input input ≡ contents_of (seen_known known)) }
{
    let actors = known.homes.len() as u32 + known.callers;
    let scripts = scripts_of(alloc, actors, &known.calls)?;
    Ok(Input {
        format: known.format,
        nodes: known.nodes,
        k: known.k,
        edges: known.edges,
        homes: known.homes,
        callers: known.callers,
        scripts,
        order: known.order,
    })
}

// The input that was read and the graph of its network, where each node has a walk from node 0.
pub(crate) fn answer(alloc: Global, known: Known, lines: u32) -> Result<(Input, Graph), ReadRefusal>
    requires kept { KeepsLimits known }
    requires sound { IsSound (seen_known known) }
    ensures { Answers result (Ok (seen_known known, lines)) }
{
    match Graph::new(alloc, known.nodes, &known.edges) {
        Ok(graph) => {
            let input = input_of(alloc, known)?;
            Ok((input, graph))
        }
        Err(GraphFault::Apart { node }) => Err(ReadRefusal::Fault(InputFault {
            line: lines,
            cause: InputCause::Apart { node },
        })),
        Err(GraphFault::OutOfMemory) => Err(ReadRefusal::OutOfMemory),
    }
}
