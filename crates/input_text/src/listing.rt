//! An input whose calls stand in the order of its text.
use net_graph::Edge;
use net_reader::Call;

/// A call, and the actor that makes it.
#[derive(Clone, Copy, Debug, PartialEq, Eq)]
pub struct ActorCall {
    pub actor: u32,
    pub call: Call,
}

/// An input as its text tells it: the calls of all actors stand in one list.
#[derive(Clone, Copy, Debug)]
pub struct Listing<'a> {
    pub format: u32,
    pub nodes: u32,
    pub k: u32,
    pub edges: &'a [Edge],
    pub homes: &'a [u32],
    pub callers: u32,
    pub calls: &'a [ActorCall],
    pub order: &'a [u32],
}
