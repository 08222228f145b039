//! Plans, of the text of a network.
ghost use Rattle.std.specs.Prelude.{◌≡◌, ◌⊎◌, ◌≤◌, Err, IfOk, MatchResult, Ok, length};
ghost use Rattle.std.specs.Arc.{arc_value};
ghost use Rattle.net_reader.specs.Reading.{IsReadWithGraph, most_bytes};
ghost use Rattle.region_plan.specs.Regions.{plan_of};
ghost use Rattle.track_c.specs.Faults.{Tells, TellsWithMemory, and_then};
ghost use Rattle.track_c.specs.Handles.{held};
ghost use Rattle.track_c.specs.Held.{IsMade, into, nothing, plan_in, seen_network, seen_object};
ghost use Rattle.track_c.specs.Plans.{IsPlanOfText, IsTextRefusal, IsUnmade, Makes, fault_told, closing_code, same_plan, sizes_told, start_told, IsAlmostMade, WasFull};
ghost use Rattle.track_c.specs.declared.fault.Fault.TheVariants.{NoMemory};

use crate::fault::{DONE, Fault};
use crate::handle::TrackHandle;
use crate::object::{Network, Object};
use crate::telling::tell;
use distances::Distances;
use net_graph::Graph;
use net_reader::{Input, InputCause, InputFault, MAX_BYTES, ReadRefusal, Reader, inputs_are_valid};
use region_plan::Plan;
use std::alloc::{AllocError, Global};
use std::sync::Arc;

/// Why a network is refused: the cause, the line of the text, and the node that is apart, 0 where
/// none is.
#[repr(C)]
#[derive(Clone, Copy)]
pub struct TrackRefusal {
    pub cause: u32,
    pub line: u32,
    pub node: u32,
}

/// What is told of a text that is too long to be read.
const TOO_LONG: TrackRefusal = TrackRefusal {
    cause: 9,
    line: 0,
    node: 0,
};

/// How large a plan is: nodes, levels, its trade-off, and how many subscribers its text says.
#[repr(C)]
#[derive(Clone, Copy)]
pub struct TrackSizes {
    pub nodes: u32,
    pub levels: u32,
    pub k: u32,
    pub subs: u32,
}

// Why no plan was made.
#[derive(Clone, Copy)]
pub enum Unmade {
    NoMemory,
    Refused(TrackRefusal),
}

// What C is told of a fault.
fn refusal_of(fault: InputFault) -> TrackRefusal
    ensures { result ≡ fault_told fault }
{
    let (cause, node) = match fault.cause {
        InputCause::Form => (1, 0),
        InputCause::TooLarge => (2, 0),
        InputCause::TooMany => (3, 0),
        InputCause::Unknown => (4, 0),
        InputCause::Switched => (5, 0),
        InputCause::Nowhere => (6, 0),
        InputCause::Unfinished => (7, 0),
        InputCause::Apart { node } => (8, node),
    };
    TrackRefusal {
        cause,
        line: fault.line,
        node,
    }
}

// The input of a text and the graph of its network.
fn read_graph(alloc: Global, text: &[u8]) -> Result<(Input, Graph), ReadRefusal>
    requires { length text.now ≤ most_bytes }
    ensures { IsReadWithGraph text.now result }
{
    let mut reader = Reader::new(alloc)?;
    reader.feed(text)?;
    reader.end_with_graph(alloc)
}

// The plan of a graph, with its distances.
pub fn network_of(
    alloc: Global,
    graph: &Graph,
    k: u32,
    starts: Vec<u32>,
) -> Result<Network, AllocError>
    requires low { 1 ≤ k }
    requires high { k ≤ 8 }
    requires few { length starts.items ≤ 64 }
    ensures plan { IfOk result (λ network. network.plan ≡ plan_of graph.now k) }
    ensures starts { IfOk result (λ network. network.starts ≡ starts) }
{
    let distances = Distances::new(alloc, graph)?;
    let plan = Plan::build(alloc, graph, &distances, k)?;
    Ok(Network {
        plan,
        distances,
        starts,
    })
}

// The network that a text says.
fn read_network(alloc: Global, text: &[u8]) -> Result<Network, Unmade>
    ensures { MatchResult result (λ network. IsPlanOfText text.now (seen_network network))
        (IsUnmade (IsTextRefusal text.now)) }
{
    if text.len() > MAX_BYTES {
        return Err(Unmade::Refused(TOO_LONG));
    }
    inputs_are_valid();
    match read_graph(alloc, text) {
        Ok((input, graph)) => {
            let Input { k, homes, .. } = input;
            match network_of(alloc, &graph, k, homes) {
                Ok(network) => Ok(network),
                Err(AllocError) => Err(Unmade::NoMemory),
            }
        }
        Err(ReadRefusal::Fault(fault)) => Err(Unmade::Refused(refusal_of(fault))),
        Err(ReadRefusal::OutOfMemory) => Err(Unmade::NoMemory),
    }
}

// A plan for a handle, and the refusal where there is none.
pub fn plan_or_refusal(
    alloc: Global,
    made: Result<Network, Unmade>,
    refusal: &mut TrackRefusal,
) -> Result<Object, Fault>
    ensures { IsAlmostMade made result refusal.old refusal.new }
{
    match made {
        Ok(network) => match Arc::new(alloc, network) {
            Ok(network) => Ok(Object::Plan(network)),
            Err(_) => Err(Fault::NoMemory),
        },
        Err(Unmade::Refused(found)) => {
            *refusal = found;
            Err(Fault::BadNetwork)
        }
        Err(Unmade::NoMemory) => Err(Fault::NoMemory),
    }
}

/// The plan of the network of a text.
#[unsafe(no_mangle)]
pub extern "C" fn track_plan_read(
    alloc: Global,
    text: &[u8],
    plan: &mut TrackHandle,
    refusal: &mut TrackRefusal,
) -> u32
    ensures full { (held plan.old ≡ nothing → ⊥) → WasFull result (held plan.old) (held plan.new)
        refusal.old refusal.new }
    ensures made { held plan.old ≡ nothing → Makes (IsPlanOfText text.now)
        (IsTextRefusal text.now) result (held plan.new) refusal.old refusal.new }
{
    if plan.full {
        return Fault::FullHandle.code();
    }
    let made = plan_or_refusal(alloc, read_network(alloc, text), refusal);
    plan.fill(alloc, made)
}

// One more owner of the network of an object.
pub fn network_in(object: &Object) -> Result<Arc<Network, Global>, Fault>
    ensures { MatchResult result
        (λ network. plan_in (seen_object object.now) ≡ Ok (seen_network (arc_value network)))
        (λ fault. (fault ≡ NoMemory) ⊎ (plan_in (seen_object object.now) ≡ Err fault)) }
{
    match object {
        Object::Plan(network) => match Arc::try_clone(network) {
            Ok(network) => Ok(network),
            Err(AllocError) => Err(Fault::NoMemory),
        },
        Object::Finder(_)
        | Object::Mover(_)
        | Object::Crew(_)
        | Object::Caller(_)
        | Object::Subscriber(_) => Err(Fault::OtherKind),
    }
}

// The same plan once more.
fn shared_in(object: &Object) -> Result<Object, Fault>
    ensures { IsMade (and_then (plan_in (seen_object object.now)) same_plan) result }
{
    Ok(Object::Plan(network_in(object)?))
}

// How large the plan of an object is.
fn sizes_in(object: &Object) -> Result<TrackSizes, Fault>
    ensures { result ≡ and_then (plan_in (seen_object object.now)) sizes_told }
{
    match object {
        Object::Plan(network) => Ok(network.sizes()),
        Object::Finder(_)
        | Object::Mover(_)
        | Object::Crew(_)
        | Object::Caller(_)
        | Object::Subscriber(_) => Err(Fault::OtherKind),
    }
}

// Where a subscriber of the text of an object's plan starts.
fn start_in(object: &Object, sub: u32) -> Result<u32, Fault>
    ensures { result ≡ and_then (plan_in (seen_object object.now)) (start_told sub) }
{
    match object {
        Object::Plan(network) => network.start(sub),
        Object::Finder(_)
        | Object::Mover(_)
        | Object::Crew(_)
        | Object::Caller(_)
        | Object::Subscriber(_) => Err(Fault::OtherKind),
    }
}

impl Network {
    // How large it is.
    fn sizes(&self) -> TrackSizes
        ensures { Ok result ≡ sizes_told (seen_network self.now) }
    {
        TrackSizes {
            nodes: self.plan.nodes(),
            levels: self.plan.levels(),
            k: self.plan.k(),
            subs: self.starts.len() as u32,
        }
    }

    // Where a subscriber starts.
    fn start(&self, sub: u32) -> Result<u32, Fault>
        ensures { result ≡ start_told sub (seen_network self.now) }
    {
        if sub as usize >= self.starts.len() {
            return Err(Fault::NoSubscriber);
        }
        Ok(self.starts[sub as usize])
    }
}

/// One more handle to the same plan.
#[unsafe(no_mangle)]
pub extern "C" fn track_plan_share(
    alloc: Global,
    plan: &mut TrackHandle,
    other: &mut TrackHandle,
) -> u32
    ensures given { TellsWithMemory
        (into (held other.old) (and_then (plan_in (held plan.old)) same_plan))
        result (held other.old) (held other.new) }
    ensures kept { held plan.new ≡ held plan.old }
{
    let Some(object) = plan.take(alloc) else {
        return other.fill(alloc, Err(Fault::EmptyHandle));
    };
    let made = shared_in(&object);
    plan.put(object);
    other.fill(alloc, made)
}

/// How large a plan is.
#[unsafe(no_mangle)]
pub extern "C" fn track_plan_sizes(
    alloc: Global,
    plan: &mut TrackHandle,
    sizes: &mut TrackSizes,
) -> u32
    ensures told { Tells (and_then (plan_in (held plan.old)) sizes_told) result sizes.old sizes.new }
    ensures kept { held plan.new ≡ held plan.old }
{
    let Some(object) = plan.take(alloc) else {
        return Fault::EmptyHandle.code();
    };
    let found = sizes_in(&object);
    plan.put(object);
    tell(sizes, found)
}

/// Where a subscriber of the text starts.
#[unsafe(no_mangle)]
pub extern "C" fn track_plan_start(
    alloc: Global,
    plan: &mut TrackHandle,
    sub: u32,
    node: &mut u32,
) -> u32
    ensures told { Tells (and_then (plan_in (held plan.old)) (start_told sub)) result node.old
        node.new }
    ensures kept { held plan.new ≡ held plan.old }
{
    let Some(object) = plan.take(alloc) else {
        return Fault::EmptyHandle.code();
    };
    let found = start_in(&object, sub);
    plan.put(object);
    tell(node, found)
}

/// Frees what a handle holds; it is empty then.
#[unsafe(no_mangle)]
pub extern "C" fn track_close(alloc: Global, handle: &mut TrackHandle) -> u32
    ensures code { result ≡ closing_code (held handle.old) }
    ensures empty { held handle.new ≡ nothing }
{
    match handle.take(alloc) {
        Some(_) => DONE,
        None => Fault::EmptyHandle.code(),
    }
}
