//! A made workload, and the input that it is.
ghost use Rattle.std.specs.Prelude.{◌≡◌, ◌+◌, ◌≤◌, length, IfOk};
ghost use Rattle.input_text.specs.Listing.{contents_in};
ghost use Rattle.input_text.specs.Written.{seen_listing};
ghost use Rattle.net_reader.specs.Seen.{seen_input};
ghost use Rattle.make_load.specs.Load.{IsLoad, format_of, listing_of, load_contents};
ghost use Rattle.make_load.specs.Made.{seen_workload};

use crate::draws::{draw_calls, draws_below, generator_of, push_others, push_tree};
use input_text::{ActorCall, Listing, scripts_of};
use net_graph::Edge;
use net_reader::Input;
use std::alloc::{AllocError, Global};
use word_line::Load;

// The most nodes and calls of the first format.
const MOST_NODES: u32 = 256;

const MOST_CALLS: u32 = 8_192;

// Eight turns are drawn for each call.
const TURNS: u32 = 8;

/// An input that a load makes, with its calls in the order in which they were drawn.
#[derive(Debug, Drop)]
pub struct Workload {
    format: u32,
    nodes: u32,
    k: u32,
    edges: Vec<Edge>,
    homes: Vec<u32>,
    callers: u32,
    calls: Vec<ActorCall>,
    order: Vec<u32>,
}

// The format that has room for a load.
fn format_of(load: &Load) -> u32
    ensures { result ≡ format_of load.now }
{
    if load.nodes <= MOST_NODES && load.calls <= MOST_CALLS {
        1
    } else {
        2
    }
}

impl Workload {
    /// What a load makes.
    pub fn new(alloc: Global, load: Load) -> Result<Workload, AllocError>
        requires { IsLoad load }
        ensures { IfOk result (λ workload. seen_workload workload ≡ listing_of load) }
    {
        let mut generator = generator_of(load.start);
        let mut edges = Vec::with_capacity(alloc, (load.nodes + load.nodes / 2) as usize)?;
        push_tree(&mut edges, &mut generator, load.nodes)?;
        push_others(&mut edges, &mut generator, load.nodes)?;
        let homes = draws_below(alloc, &mut generator, load.nodes, load.subs)?;
        let mut places = homes.to_vec(alloc)?;
        let calls = draw_calls(alloc, &mut generator, &load, &mut places)?;
        let actors = load.subs + load.callers;
        let order = draws_below(alloc, &mut generator, actors, TURNS * load.calls)?;
        Ok(Workload {
            format: format_of(&load),
            nodes: load.nodes,
            k: load.k,
            edges,
            homes,
            callers: load.callers,
            calls,
            order,
        })
    }

    /// The workload as its text tells it.
    pub fn listing(&self) -> Listing<'_>
        ensures { seen_listing result ≡ seen_workload self.now }
    {
        Listing {
            format: self.format,
            nodes: self.nodes,
            k: self.k,
            edges: &self.edges,
            homes: &self.homes,
            callers: self.callers,
            calls: &self.calls,
            order: &self.order,
        }
    }

    /// The input that it is: each actor's script has its calls in the order in which they were
    /// drawn.
    pub fn into_input(self, alloc: Global) -> Result<Input, AllocError>
        requires { length self.homes.items + self.callers ≤ 4294967295 }
        ensures { IfOk result (λ input. seen_input input ≡ contents_in (seen_workload self)) }
    {
        let actors = self.homes.len() as u32 + self.callers;
        let scripts = scripts_of(alloc, actors, &self.calls)?;
        Ok(Input {
            format: self.format,
            nodes: self.nodes,
            k: self.k,
            edges: self.edges,
            homes: self.homes,
            callers: self.callers,
            scripts,
            order: self.order,
        })
    }
}

/// The input that a load makes, which is valid (`loads_are_valid`).
pub fn make_input(alloc: Global, load: Load) -> Result<Input, AllocError>
    requires { IsLoad load }
    ensures { IfOk result (λ input. seen_input input ≡ load_contents load) }
{
    Workload::new(alloc, load)?.into_input(alloc)
}
