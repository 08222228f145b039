//! What a handle can hold.
ghost use Rattle.std.specs.Prelude.{◌≡◌, ◌≤◌, length};
ghost use Rattle.std.specs.Arc.{arc_value};
ghost use Rattle.handset.specs.Condition.{GoesWith};
ghost use Rattle.walk.specs.Walks.{IsWalkOver};
ghost use Rattle.track_c.specs.Facts.{facts};

use crate::members::{Caller, Crew, Subscriber};
use distances::Distances;
use handset::Handset;
use region_plan::Plan;
use std::alloc::Global;
use std::sync::Arc;
use walk::Walk;

/// A plan, the distances that are its own, and where subscribers start.
#[derive(Drop)]
pub struct Network {
    pub plan: Plan,
    pub distances: Distances,
    pub starts: Vec<u32>,
    pub ghost belongs: { plan.distances ≡ distances },
    pub ghost few: { length starts.items ≤ 64 },
}

/// A find under way, over the plan that it was made for.
#[derive(Drop)]
pub struct Finder {
    pub network: Arc<Network, Global>,
    pub walk: Walk,
    pub ghost goes: { IsWalkOver (arc_value network).plan walk } by { Prim.hlevel facts },
}

/// A handset, with the plan that it was made for.
#[derive(Drop)]
pub struct Mover {
    pub network: Arc<Network, Global>,
    pub handset: Handset,
    pub ghost goes: { GoesWith (arc_value network).plan handset } by { Prim.hlevel facts },
}

/// What a handle can hold.
#[derive(Drop)]
pub enum Object {
    Plan(Arc<Network, Global>),
    Finder(Finder),
    Mover(Mover),
    Crew(Crew),
    Caller(Caller),
    Subscriber(Subscriber),
}
