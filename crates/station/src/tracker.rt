//! The shared object.
ghost use Rattle.std.specs.Prelude.{◌≡◌, ◌+◌, ◌^◌, ◌<◌, ◌≤◌, [], All, IfOk, length};
ghost use Rattle.std.specs.Vec.{vec_capacity};
ghost use Rattle.region_plan.specs.Plan.{nodes_of};
ghost use Rattle.station.specs.Opening.{setup_of};
ghost use Rattle.station.specs.Passes.{AreFresh, IsPassOf};
ghost use Rattle.station.specs.Plays.{IsWitnessed, first_view};
ghost use Rattle.station.specs.Setup.{word_count};

use crate::opening::{opening_words, words_are_few};
use crate::pass::Pass;
use crate::rule::{Deal, Watch, Witness};
use crate::view::{About, View};
use atomic_table::{Seat, Table};
use entry_word::Act;
use net_graph::OutOfMemory;
use region_plan::{Plan, plan_is_sound};
use std::alloc::Global;
use std::marker::Model;
use visit_log::{Places, cell_numbers};

/// The directory that threads share. It is lent to all of them; what an actor may do, its pass may.
///
/// ```text
/// let (tracker, mut passes) = Tracker::new(alloc, &plan, &[3], 1)?;
/// let mut caller = passes.pop();     // actor 1, behind subscriber 0
/// ```
#[derive(Drop)]
pub struct Tracker {
    pub(crate) table: Table<Act, View, About, Watch, Global>,
    pub(crate) nodes: u32,
    pub(crate) subs: u32,
    pub(crate) actors: u32,
    // Where cells lie is kept, so that no visit adds up the clusters below a level.
    pub(crate) places: Places,
}

impl Model for Tracker {
    ghost use Rattle.station.specs.Passes.{TrackerData, IsTracker};

    ghost Value = { TrackerData };

    ghost view = { λ t. record { table = t.table.shared.table_id; setup = t.table.shared.key } };

    ghost invariant = { λ t. IsTracker t.table.shared.table_id t.table.shared.key t.nodes t.subs
        t.actors t.places };
}

impl Tracker {
    /// A tracker at the opening, and a pass for each actor: the subscribers, which start at these
    /// homes, and then the callers. Homes are nodes of the plan. There are 1 to 64 subscribers and
    /// at most 64 callers.
    pub fn new(
        alloc: Global,
        plan: &Plan,
        homes: &[u32],
        callers: u32,
    ) -> Result<(Tracker, Vec<Pass>), OutOfMemory>
        requires some { 1 ≤ length homes.now }
        requires few { length homes.now ≤ 64 }
        requires callers { callers ≤ 64 }
        requires inside { All (λ home. home < nodes_of plan.now) homes.now }
        ensures setup { IfOk result (λ made. made.0.setup
            ≡ setup_of plan.now homes.now (length homes.now + callers)) }
        ensures fresh { IfOk result (λ made. AreFresh made.0 made.1.items) }
        ensures count { IfOk result (λ made. length made.1.items
            ≡ length homes.now + callers) }
    {
        let subs = homes.len() as u32;
        let actors = subs + callers;
        let mut passes = Vec::with_capacity(alloc, actors as usize)?;
        let (tracker, seat) = Tracker::set_up(alloc, plan, homes, actors)?;
        tracker.deal(alloc, seat, &mut passes);
        Ok((tracker, passes))
    }

    // A tracker at the opening, and one seat for all its actors.
    fn set_up(
        alloc: Global,
        plan: &Plan,
        homes: &[u32],
        actors: u32,
    ) -> Result<(Tracker, Seat<Act, View>), OutOfMemory>
        requires some { 1 ≤ length homes.now }
        requires few { length homes.now ≤ 64 }
        requires inside { All (λ home. home < nodes_of plan.now) homes.now }
        requires actors { 1 ≤ actors }
        requires few_actors { actors ≤ 128 }
        ensures setup { IfOk result (λ made. made.0.setup ≡ setup_of plan.now homes.now actors) }
        ensures table { IfOk result (λ made. made.1.table_id ≡ made.0.table) }
        ensures first { IfOk result (λ made. made.1.me ≡ (first_view made.0.setup, [])) }
    {
        plan_is_sound(plan);
        let places = Places::new(alloc, plan)?;
        let (table, seat) = open_table(alloc, plan, homes, actors)?;
        let tracker = Tracker {
            table,
            nodes: plan.nodes(),
            subs: homes.len() as u32,
            actors,
            places,
        };
        Ok((tracker, seat))
    }

    // Deals the actors of the first seat to a pass each.
    fn deal(&self, alloc: Global, mut seat: Seat<Act, View>, passes: &mut Vec<Pass>)
        requires table { seat.table_id ≡ self.now.table }
        requires first { seat.me ≡ (first_view self.now.setup, []) }
        requires some { 1 ≤ self.now.setup.actors }
        requires none { passes.old.items ≡ [] }
        requires room { self.now.setup.actors ≤ vec_capacity passes.old }
        ensures fresh { AreFresh self.now passes.new.items }
        ensures count { length passes.new.items ≡ self.now.setup.actors }
    {
        for actor in 0..self.actors - 1 {
            let next = self.table.shared.split_seat::<Deal>(&mut seat);
            passes.push_reserved(Pass::of(alloc, next, actor));
        }
        passes.push_reserved(Pass::of(alloc, seat, self.actors - 1));
    }

    /// Tells the proof that the rule holds of a state with the view of the pass; nothing changes.
    pub fn witness(&self, pass: &mut Pass)
        requires of { IsPassOf self.now pass.old }
        ensures same { pass.new ≡ pass.old }
        ensures rule { IsWitnessed pass.old.view }
    {
        self.table.shared.load::<Witness>(&mut pass.seat, 0);
    }
}

// The table of the words at the opening, and its first seat.
fn open_table(
    alloc: Global,
    plan: &Plan,
    homes: &[u32],
    actors: u32,
) -> Result<(Table<Act, View, About, Watch, Global>, Seat<Act, View>), OutOfMemory>
    requires some { 1 ≤ length homes.now }
    requires few { length homes.now ≤ 64 }
    requires inside { All (λ home. home < nodes_of plan.now) homes.now }
    requires few_actors { actors ≤ 128 }
    ensures opened { IfOk result (λ made.
        (made.0.shared.table_id.words ≡ word_count (setup_of plan.now homes.now actors))
        × (word_count (setup_of plan.now homes.now actors) < 2 ^ 64)
        × (made.0.shared.table_id.slots ≡ 0)
        × (made.0.shared.key ≡ setup_of plan.now homes.now actors)
        × (made.1.table_id ≡ made.0.shared.table_id)
        × (made.1.me ≡ (first_view (setup_of plan.now homes.now actors), []))) }
{
    cell_numbers();
    plan_is_sound(plan);
    let words = opening_words(alloc, plan, homes)?;
    words_are_few(&words);
    let starts = Vec::from_slice(alloc, homes)?;
    let about = About::new(plan, &starts, actors);
    Table::of_words(alloc, &words, &about)
}
