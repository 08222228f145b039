//! The homes of nodes, by the places of their entries.
ghost use Rattle.std.specs.Prelude.{◌≡◌, ◌<◌, ◌+◌, ◌*◌, ℕ, IfOk, OnOk, length, slice_index};
ghost use Rattle.region_plan.specs.Plan.{PlanData, levels_of, nodes_of};
ghost use Rattle.visit_log.specs.Homes.{AreHomes, HaveHomes, home_place};
ghost use Rattle.visit_log.specs.Numbers.{ArePlaces};

use crate::places::Places;
use region_plan::{Plan, plan_is_sound};
use std::alloc::{AllocError, Global};
use std::marker::Model;

/// For each node its homes, level by level, by the places of their entries among the cells of a
/// subscriber. They go with the plan that they were made for.
#[derive(Drop)]
pub struct Homes {
    levels: u32,
    places: Vec<u32>,
}

impl Model for Homes {
    ghost use Rattle.visit_log.specs.Homes.{HomeData};

    ghost Value = { HomeData };

    ghost view = { λ h. record { levels = h.levels; places = h.places.items } };
}

impl Homes {
    /// The homes of a plan.
    pub fn new(alloc: Global, plan: &Plan) -> Result<Homes, AllocError>
        ensures { IfOk result (AreHomes plan.now) }
    {
        let places = Places::new(alloc, plan)?;
        let mut homes = Homes::empty(alloc, plan)?;
        for node in 0..plan.nodes() {
            homes.push_node(plan, &places, node)?;
        }
        Ok(homes)
    }

    /// The places of a node's homes, one for each level.
    #[inline(always)]
    pub fn of(&self, node: u32) -> &[u32]
        requires node { (plan : PlanData) × AreHomes plan self.now × (node < nodes_of plan) }
        ensures count { (plan : PlanData) → AreHomes plan self.now → node < nodes_of plan
            → length result.now ≡ levels_of plan }
        ensures places { (plan : PlanData) → AreHomes plan self.now → node < nodes_of plan
            → (level : ℕ) → level < levels_of plan
            → slice_index result.now level ≡ home_place plan node level }
    {
        let first = node as usize * self.levels as usize;
        &self.places[first..first + self.levels as usize]
    }

    // The homes of no nodes.
    fn empty(alloc: Global, plan: &Plan) -> Result<Homes, AllocError>
        ensures { IfOk result (λ homes. HaveHomes plan.now homes 0) }
    {
        // Nodes and levels are few.
        plan_is_sound(plan);
        let count = plan.nodes() as usize * plan.levels() as usize;
        Ok(Homes {
            levels: plan.levels(),
            places: Vec::with_capacity(alloc, count)?,
        })
    }

    // Adds the homes of the next node.
    fn push_node(&mut self, plan: &Plan, places: &Places, node: u32) -> Result<(), AllocError>
        requires places { ArePlaces plan.now places.now }
        requires node { node < nodes_of plan.now }
        requires homes { HaveHomes plan.now self.old (node * levels_of plan.now) }
        ensures { OnOk result (HaveHomes plan.now self.new ((node + 1) * levels_of plan.now)) }
    {
        // Each home is a cluster of its level.
        plan_is_sound(plan);
        for level in 0..plan.levels() {
            let place = places.first(level) + plan.home(level, node);
            self.places.push(place)?;
        }
        Ok(())
    }
}
