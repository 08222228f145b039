//! Draws of single items, and of lists of them.
ghost use Rattle.std.specs.Prelude.{◌≡◌, ◌⊎◌, ◌≤◌, ◌<◌, ◌+◌, ◌-◌, ◌/◌, ◌++◌, ℕ, List, length, IfOk, OnOk};
ghost use Rattle.make_load.specs.Draws.{draw, draw_list, draws_below, generator_of};
ghost use Rattle.make_load.specs.Load.{IsLoad, drawn_call, drawn_calls, drawn_find, drawn_move, is_move, other_edge, tree_edge};

use input_text::ActorCall;
use net_graph::Edge;
use net_reader::Call;
use rand_core::utils::NextWord;
use rand_pcg::Lcg64Xsh32;
use std::alloc::{AllocError, Global};
use word_line::Load;

// The generator's stream. Another one would change every made input (docs/FORMATS.md).
const STREAM: u64 = 54;

// The greatest weight of an edge.
const MOST_WEIGHT: u32 = 16;

// The generator of the draws that start here.
pub(crate) fn generator_of(start: u64) -> Lcg64Xsh32
    ensures { result ≡ generator_of start }
{
    Lcg64Xsh32::new(start, STREAM)
}

// A draw below m.
fn draw(generator: &mut Lcg64Xsh32, m: u32) -> u32
    requires { 1 ≤ m }
    ensures value { result ≡ (draw m generator.old).value }
    ensures left { generator.new ≡ (draw m generator.old).left }
    ensures below { result < m }
{
    generator.next_word() % m
}

// The edge of the tree that joins a node to its parent.
fn draw_tree_edge(generator: &mut Lcg64Xsh32, node: u32) -> Edge
    requires { 1 ≤ node }
    ensures value { result ≡ (tree_edge node generator.old).value }
    ensures left { generator.new ≡ (tree_edge node generator.old).left }
{
    Edge {
        a: (node - 1) / 2,
        b: node,
        weight: 1 + u64::from(draw(generator, MOST_WEIGHT)),
    }
}

// An edge between any two nodes.
fn draw_other_edge(generator: &mut Lcg64Xsh32, nodes: u32) -> Edge
    requires { 1 ≤ nodes }
    ensures value { result ≡ (other_edge nodes 0 generator.old).value }
    ensures left { generator.new ≡ (other_edge nodes 0 generator.old).left }
{
    let a = draw(generator, nodes);
    let b = draw(generator, nodes);
    let weight = 1 + u64::from(draw(generator, MOST_WEIGHT));
    Edge { a, b, weight }
}

// The edges of the tree, behind others.
pub(crate) fn push_tree(
    edges: &mut Vec<Edge>,
    generator: &mut Lcg64Xsh32,
    nodes: u32,
) -> Result<(), AllocError>
    requires { 1 ≤ nodes }
    ensures value { OnOk result (edges.new.items
        ≡ edges.old.items ++ (draw_list tree_edge 1 (nodes - 1) generator.old).value) }
    ensures left { OnOk result (generator.new
        ≡ (draw_list tree_edge 1 (nodes - 1) generator.old).left) }
{
    for node in 1..nodes {
        edges.push(draw_tree_edge(generator, node))?;
    }
    Ok(())
}

// Half as many edges as there are nodes, behind others.
pub(crate) fn push_others(
    edges: &mut Vec<Edge>,
    generator: &mut Lcg64Xsh32,
    nodes: u32,
) -> Result<(), AllocError>
    requires { 1 ≤ nodes }
    ensures value { OnOk result (edges.new.items
        ≡ edges.old.items ++ (draw_list (other_edge nodes) 0 (nodes / 2) generator.old).value) }
    ensures left { OnOk result (generator.new
        ≡ (draw_list (other_edge nodes) 0 (nodes / 2) generator.old).left) }
{
    for _ in 0..nodes / 2 {
        edges.push(draw_other_edge(generator, nodes))?;
    }
    Ok(())
}

// So many draws below m.
pub(crate) fn draws_below(
    alloc: Global,
    generator: &mut Lcg64Xsh32,
    m: u32,
    count: u32,
) -> Result<Vec<u32>, AllocError>
    requires { 1 ≤ m }
    ensures value { IfOk result (λ numbers. numbers.items
        ≡ (draws_below m count generator.old).value) }
    ensures left { OnOk result (generator.new ≡ (draws_below m count generator.old).left) }
{
    let mut numbers = Vec::with_capacity(alloc, count as usize)?;
    for _ in 0..count {
        numbers.push(draw(generator, m))?;
    }
    Ok(numbers)
}

// A move, where there is another node to go to.
fn draw_move(generator: &mut Lcg64Xsh32, load: &Load, places: &mut [u32]) -> ActorCall
    requires nodes { 2 ≤ load.now.nodes }
    requires some { 1 ≤ load.now.subs }
    requires subs { length places.old ≡ load.now.subs }
    ensures call { result ≡ (drawn_move load.now places.old generator.old).call }
    ensures places { places.new ≡ (drawn_move load.now places.old generator.old).places }
    ensures left { generator.new ≡ (drawn_move load.now places.old generator.old).left }
{
    let actor = draw(generator, load.subs);
    let far = draw(generator, load.nodes - 1);
    let place = u64::from(places[actor as usize]);
    let to = ((place + 1 + u64::from(far)) % u64::from(load.nodes)) as u32;
    places[actor as usize] = to;
    ActorCall {
        actor,
        call: Call::Move { to },
    }
}

// A find, where there is a caller.
fn draw_find(generator: &mut Lcg64Xsh32, load: &Load) -> ActorCall
    requires nodes { 1 ≤ load.now.nodes }
    requires subs { 1 ≤ load.now.subs }
    requires few { load.now.subs + load.now.callers ≤ 4294967295 }
    requires callers { 1 ≤ load.now.callers }
    ensures call { (places : List ℕ) → result ≡ (drawn_find load.now places generator.old).call }
    ensures left { (places : List ℕ)
        → generator.new ≡ (drawn_find load.now places generator.old).left }
{
    let actor = load.subs + draw(generator, load.callers);
    let from = draw(generator, load.nodes);
    let sub = draw(generator, load.subs);
    ActorCall {
        actor,
        call: Call::Find { from, sub },
    }
}

// Whether call j is a move.
fn is_move(load: &Load, j: u32) -> bool
    ensures { result ≡ is_move load.now j }
{
    load.nodes > 1 && (j % 2 == 0 || load.callers == 0)
}

// Call j, where there is one to make.
fn draw_call(generator: &mut Lcg64Xsh32, load: &Load, j: u32, places: &mut [u32]) -> ActorCall
    requires nodes { 1 ≤ load.now.nodes }
    requires some { 1 ≤ load.now.subs }
    requires few { load.now.subs + load.now.callers ≤ 4294967295 }
    requires sound { (2 ≤ load.now.nodes) ⊎ (1 ≤ load.now.callers) }
    requires subs { length places.old ≡ load.now.subs }
    ensures call { result ≡ (drawn_call load.now j places.old generator.old).call }
    ensures places { places.new ≡ (drawn_call load.now j places.old generator.old).places }
    ensures left { generator.new ≡ (drawn_call load.now j places.old generator.old).left }
{
    if is_move(load, j) {
        draw_move(generator, load, places)
    } else {
        draw_find(generator, load)
    }
}

// All calls of a load whose subscribers are at these places.
pub(crate) fn draw_calls(
    alloc: Global,
    generator: &mut Lcg64Xsh32,
    load: &Load,
    places: &mut [u32],
) -> Result<Vec<ActorCall>, AllocError>
    requires load { IsLoad load.now }
    requires subs { length places.old ≡ load.now.subs }
    ensures value { IfOk result (λ calls. calls.items
        ≡ (drawn_calls load.now 0 load.now.calls places.old generator.old).value) }
    ensures left { OnOk result (generator.new
        ≡ (drawn_calls load.now 0 load.now.calls places.old generator.old).left) }
{
    let mut calls = Vec::with_capacity(alloc, load.calls as usize)?;
    for j in 0..load.calls {
        calls.push(draw_call(generator, load, j, places))?;
    }
    Ok(calls)
}
