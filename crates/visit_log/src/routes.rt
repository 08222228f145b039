//! The entries that climbs look at, by the places of their cells.
ghost use Rattle.std.specs.Prelude.{◌≡◌, ◌≤◌, ◌<◌, ◌+◌, ◌*◌, ◌∷◌, [], ℕ, IfOk, List, OnOk, length, slice_index};
ghost use Rattle.directory.specs.Finds.{most_looks};
ghost use Rattle.region_plan.specs.Plan.{PlanData, levels_of, nodes_of};
ghost use Rattle.region_plan.specs.Settings.{setting_of};
ghost use Rattle.visit_log.specs.Numbers.{ArePlaces};
ghost use Rattle.visit_log.specs.Routes.{AreRoutes, ComesTo, HaveParts, IsAt, IsRung, entry_place, height_of, span_of, rung_at, rung_past};

use crate::places::Places;
use region_plan::{Plan, plan_counts, plan_is_sound};
use std::alloc::{AllocError, Global};
use std::marker::Model;

/// For each node the entries that a climb from it looks at, level by level, by the places of their
/// cells, and the weights of the ways to their leaders. They go with the plan that they were made
/// for.
#[derive(Drop)]
pub struct Routes {
    levels: u32,
    starts: Vec<u32>,
    places: Vec<u32>,
    level_of: Vec<u8>,
    ways: Vec<u64>,
}

impl Model for Routes {
    ghost use Rattle.visit_log.specs.Routes.{RouteData};

    ghost Value = { RouteData };

    ghost view = { λ r. record {
      levels = r.levels;
      starts = r.starts.items;
      places = r.places.items;
      level_of = r.level_of.items;
      ways = r.ways.items;
    } };
}

/// Where a climb is: a reader by its level and its place among the readers there, and what the ways
/// to the readers that it passed weigh, there and back.
#[derive(Clone, Copy, PartialEq, Eq, Debug)]
pub struct Height {
    pub level: u32,
    pub index: u32,
    pub weight: u64,
}

impl Routes {
    /// The routes of a plan.
    pub fn new(alloc: Global, plan: &Plan) -> Result<Routes, AllocError>
        ensures { IfOk result (AreRoutes plan.now) }
    {
        // Nodes and levels are few.
        plan_is_sound(plan);
        let places = Places::new(alloc, plan)?;
        let mut routes = Routes::empty(alloc, plan, count_readers(plan))?;
        for node in 0..plan.nodes() {
            routes.push_node(plan, &places, node)?;
        }
        Ok(routes)
    }

    /// The places of the entries that a climb from a node looks at, from a reader on: those that
    /// are left of its level, and then those of all levels above.
    #[inline(always)]
    pub fn ahead(&self, node: u32, level: u32, index: u32) -> &[u32]
        requires at { (plan : PlanData) × IsAt plan self.now node (rung_at level index) }
        ensures some { 1 ≤ length result.now }
        ensures rungs { (plan : PlanData) → IsAt plan self.now node (rung_at level index)
            → (i : ℕ) → i < length result.now
            → IsRung plan node (rung_past plan node (rung_at level index) i) }
        ensures places { (plan : PlanData) → IsAt plan self.now node (rung_at level index)
            → (i : ℕ) → i < length result.now → slice_index result.now i
            ≡ entry_place plan node (rung_past plan node (rung_at level index) i) }
        ensures all { (plan : PlanData) → IsAt plan self.now node (rung_at level index)
            → IsRung plan node (rung_past plan node (rung_at level index) (length result.now)) → ⊥ }
    {
        let (first, end) = self.span(node, level, index);
        &self.places[first..end]
    }

    /// Where a climb from a node is that was at a reader, past so many entries.
    #[inline(always)]
    pub fn past(&self, node: u32, level: u32, index: u32, count: usize) -> Height
        requires on { (plan : PlanData)
            × ComesTo plan self.now node (rung_at level index) count }
        ensures { (plan : PlanData) → ComesTo plan self.now node (rung_at level index) count
            → result ≡ height_of plan node (rung_at level index) count }
    {
        let (first, _) = self.span(node, level, index);
        let place = first + count;
        let level = self.level_of[place];
        let part = node as usize * self.levels as usize + level as usize;
        Height {
            level: u32::from(level),
            index: (place - self.starts[part] as usize) as u32,
            weight: self.ways[place] - self.ways[first],
        }
    }

    /// The most looks of a find from a node: what the plan says of it, without a step for each
    /// level.
    pub fn most_looks(&self, plan: &Plan, from: u32) -> u64
        requires routes { AreRoutes plan.now self.now }
        requires node { from < nodes_of plan.now }
        ensures { (starts : List ℕ) → result ≡ most_looks (setting_of plan.now starts) from }
    {
        // There is a level.
        plan_is_sound(plan);
        plan_counts();
        let part = from as usize * self.levels as usize;
        let readers = self.starts[part + self.levels as usize] - self.starts[part];
        1 + u64::from(readers) + u64::from(plan.nodes()) + 3
    }

    // The place of a reader in the row, and where the readers of its node end.
    #[inline(always)]
    fn span(&self, node: u32, level: u32, index: u32) -> (usize, usize)
        requires at { (plan : PlanData) × IsAt plan self.now node (rung_at level index) }
        ensures order { result.0 < result.1 }
        ensures within { result.1 ≤ length self.now.places }
        ensures exact { (plan : PlanData) → IsAt plan self.now node (rung_at level index)
            → result ≡ span_of plan self.now node (rung_at level index) }
    {
        let part = node as usize * self.levels as usize;
        let first = self.starts[part + level as usize] as usize + index as usize;
        let end = self.starts[part + self.levels as usize] as usize;
        (first, end)
    }

    // The routes of no nodes, with room for so many readers.
    fn empty(alloc: Global, plan: &Plan, readers: usize) -> Result<Routes, AllocError>
        ensures { IfOk result (λ routes. HaveParts plan.now routes 0) }
    {
        // Nodes and levels are few.
        plan_is_sound(plan);
        let parts = plan.nodes() as usize * plan.levels() as usize;
        let ways_room = readers.checked_add(1).ok_or(AllocError)?;
        let starts = row_from(alloc, 0, parts + 1)?;
        let ways = row_from(alloc, 0, ways_room)?;
        Ok(Routes {
            levels: plan.levels(),
            starts,
            places: Vec::with_capacity(alloc, readers)?,
            level_of: Vec::with_capacity(alloc, readers)?,
            ways,
        })
    }

    // Adds the readers of the next node.
    fn push_node(&mut self, plan: &Plan, places: &Places, node: u32) -> Result<(), AllocError>
        requires places { ArePlaces plan.now places.now }
        requires node { node < nodes_of plan.now }
        requires parts { HaveParts plan.now self.old (node * levels_of plan.now) }
        ensures { OnOk result (HaveParts plan.now self.new ((node + 1) * levels_of plan.now)) }
    {
        // Levels are few.
        plan_is_sound(plan);
        for level in 0..plan.levels() {
            self.push_part(plan, places, node, level)?;
        }
        Ok(())
    }

    // Adds the readers of a node at the next level.
    fn push_part(
        &mut self,
        plan: &Plan,
        places: &Places,
        node: u32,
        level: u32,
    ) -> Result<(), AllocError>
        requires places { ArePlaces plan.now places.now }
        requires node { node < nodes_of plan.now }
        requires level { level < levels_of plan.now }
        requires parts { HaveParts plan.now self.old (node * levels_of plan.now + level) }
        ensures { OnOk result
            (HaveParts plan.now self.new (node * levels_of plan.now + level + 1)) }
    {
        // Readers are few, and the weights inside them are light.
        plan_is_sound(plan);
        let first = places.first(level);
        let readers = plan.readers(level, node);
        let mut sum = self.ways[self.places.len()];
        self.places.reserve(readers.len())?;
        self.ways.reserve(readers.len())?;
        for index in 0..readers.len() {
            self.places.push_reserved(first + readers[index]);
            sum += 2 * plan.reader_weight(level, node, index as u32);
            self.ways.push_reserved(sum);
        }
        self.level_of.resize(self.places.len(), level as u8)?;
        self.starts.push(self.places.len() as u32)?;
        Ok(())
    }
}

// A row with this number at first, and room for so many.
fn row_from<T: Copy>(alloc: Global, first: T, count: usize) -> Result<Vec<T>, AllocError>
    ensures { IfOk result (λ row. row.items ≡ first ∷ []) }
{
    let mut row = Vec::with_capacity(alloc, count)?;
    row.push(first)?;
    Ok(row)
}

// How many readers all nodes have on all levels, so that there is room for them from the beginning.
fn count_readers(plan: &Plan) -> usize {
    // Readers are few.
    plan_is_sound(plan);
    let mut count = 0;
    for level in 0..plan.levels() {
        for node in 0..plan.nodes() {
            count += plan.readers(level, node).len();
        }
    }
    count
}
