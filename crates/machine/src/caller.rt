//! A caller: its finds, one after another.
ghost use Rattle.std.specs.Prelude.{◌≡◌, ◌≤◌, ◌<◌, ◌+◌, ◌^◌, [], ℕ, All, IfOk, true, drop, length, map, vec_capacity};
ghost use Rattle.directory.specs.Finds.{at_origin};
ghost use Rattle.directory.specs.declared.answers.Done.TheVariants.{Again};
ghost use Rattle.directory.specs.Outcomes.{found_line};
ghost use Rattle.net_reader.specs.Seen.{seen_input};
ghost use Rattle.net_reader.specs.Valid.{IsSearch};
ghost use Rattle.region_plan.specs.Plan.{nodes_of};
ghost use Rattle.scripts.specs.Scripts.{find_of};
ghost use Rattle.machine.specs.Stands.{BelongTogether, IsWalking};
ghost use Rattle.machine.specs.Callers.{Looks, MakesLooks, MayLook, TakesLooks};
ghost use Rattle.machine.specs.Climbs.{Passes, rung_of};
ghost use Rattle.visit_log.specs.Cells.{GoWith, word_beside};
ghost use Rattle.visit_log.specs.Routes.{AreRoutes, IsRung, entry_place, rung_past};
ghost use Rattle.walk.specs.Climbs.{IsClimbOver, climb_past};

use crate::turn::Turn;
use directory::{
    Done, Found, Why, each_visit_is_next, every_order_is_legal, lines_grow, own_after,
};
use distances::Distances;
use net_reader::{Call, Input};
use region_plan::{Plan, plan_is_sound};
use scripts::scripts_are_valid;
use std::alloc::{AllocError, Global};
use trail_laws::{entries_tell, marks_tell};
use visit_log::{Height, PlainCells, Routes, cell_numbers};
use walk::{Climb, Walk, climbs_go_on};

/// A caller: the walk of the find that it is at, if one is left, the ticket of that find's first
/// look, and the lines of the finds that are done.
#[derive(Drop)]
pub struct Caller {
    pub walk: Option<Walk>,
    pub first: Option<u64>,
    pub lines: Vec<Done>,
}

impl Caller {
    // A caller with these finds, before its first look.
    pub fn new(alloc: Global, script: &[Call], subs: u32, plan: &Plan) -> Result<Caller, AllocError>
        requires searches { All (IsSearch (nodes_of plan.now) subs) script.now }
        ensures walk { IfOk result
            (λ caller. IsWalking plan.now (map find_of script.now) at_origin caller.walk) }
        ensures first { IfOk result (λ caller. caller.first ≡ None) }
        ensures lines { IfOk result (λ caller. caller.lines.items ≡ []) }
        ensures room { IfOk result (λ caller. vec_capacity caller.lines ≡ length script.now) }
    {
        Ok(Caller {
            walk: walk_at(script, 0, subs, plan),
            first: None,
            lines: Vec::with_capacity(alloc, script.len())?,
        })
    }

    // The next looks, at most so many, and how many there were. A turn alone has its own copy of
    // the code, which has no loops.
    pub fn look<const ALONE: bool>(
        &mut self,
        actor: u32,
        input: &Input,
        plan: &Plan,
        routes: &Routes,
        distances: &Distances,
        cells: &PlainCells,
        ticket: u64,
        most: usize,
    ) -> usize
        requires together { BelongTogether (seen_input input.now) plan.now distances.now }
        requires routes { AreRoutes plan.now routes.now }
        requires high { length input.now.homes.items ≤ actor }
        requires low { actor < length input.now.scripts.items }
        requires stands { MayLook (seen_input input.now) plan.now cells.now ticket actor
            self.old }
        requires fits { ticket + most < 2 ^ 64 }
        requires alone { ALONE ≡ true → most ≤ 1 }
        ensures few { result ≤ most }
        ensures taken { TakesLooks (seen_input input.now) plan.now cells.now ticket actor most
            self.old self.new result }
        ensures still { result ≡ 0 → self.new ≡ self.old }
    {
        each_visit_is_next();
        if ALONE {
            return self.look_alone(actor, input, plan, routes, distances, cells, ticket, most);
        }
        let mut made = 0;
        'looks: while made < most {
            let at = ticket + made as u64;
            made += self.pass::<ALONE>(
                actor,
                input,
                plan,
                routes,
                distances,
                cells,
                at,
                most - made,
            );
            if made == most {
                return made;
            }
            let at = ticket + made as u64;
            match self.look_one(actor, input, plan, distances, cells, at) {
                Turn::Visited => made += 1,
                Turn::Finished => return made,
            }
        }
        made
    }

    // The next look, if there may be one and a find is left: what `look` does without its loop.
    #[inline(always)]
    fn look_alone(
        &mut self,
        actor: u32,
        input: &Input,
        plan: &Plan,
        routes: &Routes,
        distances: &Distances,
        cells: &PlainCells,
        ticket: u64,
        most: usize,
    ) -> usize
        requires together { BelongTogether (seen_input input.now) plan.now distances.now }
        requires routes { AreRoutes plan.now routes.now }
        requires high { length input.now.homes.items ≤ actor }
        requires low { actor < length input.now.scripts.items }
        requires stands { MayLook (seen_input input.now) plan.now cells.now ticket actor
            self.old }
        requires fits { ticket + most < 2 ^ 64 }
        requires alone { most ≤ 1 }
        ensures few { result ≤ most }
        ensures taken { TakesLooks (seen_input input.now) plan.now cells.now ticket actor most
            self.old self.new result }
        ensures still { result ≡ 0 → self.new ≡ self.old }
    {
        each_visit_is_next();
        if most == 0 {
            return 0;
        }
        let made = self.pass::<true>(actor, input, plan, routes, distances, cells, ticket, 1);
        if made == 1 {
            return 1;
        }
        let at = ticket + made as u64;
        match self.look_one(actor, input, plan, distances, cells, at) {
            Turn::Visited => 1,
            Turn::Finished => 0,
        }
    }

    // The next look, if a find is left.
    #[inline(always)]
    fn look_one(
        &mut self,
        actor: u32,
        input: &Input,
        plan: &Plan,
        distances: &Distances,
        cells: &PlainCells,
        ticket: u64,
    ) -> Turn
        requires together { BelongTogether (seen_input input.now) plan.now distances.now }
        requires high { length input.now.homes.items ≤ actor }
        requires low { actor < length input.now.scripts.items }
        requires stands { MayLook (seen_input input.now) plan.now cells.now ticket actor
            self.old }
        ensures { Looks (seen_input input.now) plan.now cells.now ticket actor self.old self.new
            result }
    {
        marks_tell();
        entries_tell();
        every_order_is_legal();
        scripts_are_valid();
        lines_grow();
        own_after();
        plan_is_sound(plan);
        let Some(walk) = &mut self.walk else {
            return Turn::Finished;
        };
        let Some(key) = walk.next(plan) else {
            unreachable!()
        };
        walk.saw(plan, distances, cells.look(plan, key));
        let first = self.first.unwrap_or(ticket);
        let Some(found) = walk.answer() else {
            self.first = Some(first);
            return Turn::Visited;
        };
        let script = input.scripts[actor as usize].as_slice();
        let line = line_of(actor, script[self.lines.len()], found, first, ticket);
        self.lines.push_reserved(line);
        self.walk = walk_at(script, self.lines.len(), input.homes.len() as u32, plan);
        self.first = None;
        Turn::Visited
    }

    // The looks at entries that hold nothing, at most so many, and how many there were. The last
    // look at the top level is no such look.
    fn pass<const ALONE: bool>(
        &mut self,
        actor: u32,
        input: &Input,
        plan: &Plan,
        routes: &Routes,
        distances: &Distances,
        cells: &PlainCells,
        ticket: u64,
        most: usize,
    ) -> usize
        requires together { BelongTogether (seen_input input.now) plan.now distances.now }
        requires routes { AreRoutes plan.now routes.now }
        requires high { length input.now.homes.items ≤ actor }
        requires low { actor < length input.now.scripts.items }
        requires stands { MayLook (seen_input input.now) plan.now cells.now ticket actor
            self.old }
        ensures few { result ≤ most }
        ensures passed { MakesLooks (seen_input input.now) plan.now cells.now ticket actor result
            self.old self.new }
        ensures still { result ≡ 0 → self.new ≡ self.old }
    {
        scripts_are_valid();
        each_visit_is_next();
        lines_grow();
        own_after();
        let Some(walk) = &mut self.walk else {
            return 0;
        };
        let Some(climb) = walk.climb() else {
            return 0;
        };
        // Each entry ahead is a cell of the plan.
        plan_is_sound(plan);
        let count = count_ahead::<ALONE>(plan, routes, cells, walk.sub(), climb, most);
        if count > 0 {
            walk.resume(climb_past(plan, routes, climb, count));
            self.first = Some(self.first.unwrap_or(ticket));
        }
        count
    }
}

// How many entries ahead of a climb hold nothing, at most so many. The last one at the top level
// isn't counted.
fn count_ahead<const ALONE: bool>(
    plan: &Plan,
    routes: &Routes,
    cells: &PlainCells,
    sub: u32,
    climb: Climb,
    most: usize,
) -> usize
    requires goes { GoWith plan.now cells.now }
    requires routes { AreRoutes plan.now routes.now }
    requires over { IsClimbOver plan.now climb }
    requires known { sub < cells.now.subs }
    ensures few { result ≤ most }
    ensures rungs { (i : ℕ) → i ≤ result
        → IsRung plan.now climb.from (rung_past plan.now climb.from (rung_of climb) i) }
    ensures empty { (i : ℕ) → i < result
        → word_beside cells.now sub (entry_place plan.now climb.from
        (rung_past plan.now climb.from (rung_of climb) i)) ≡ 0 }
{
    // Readers are clusters of their levels, and the place of each is one of a subscriber's.
    plan_is_sound(plan);
    cell_numbers();
    let ahead = routes.ahead(climb.from, climb.level, climb.index);
    let left = ahead.len() - 1;
    cells.count_empty(sub, &ahead[..left.min(most)])
}

// A climb past so many entries ahead that hold nothing.
fn climb_past(plan: &Plan, routes: &Routes, climb: Climb, count: usize) -> Climb
    requires routes { AreRoutes plan.now routes.now }
    requires over { IsClimbOver plan.now climb }
    requires rungs { (i : ℕ) → i ≤ count
        → IsRung plan.now climb.from (rung_past plan.now climb.from (rung_of climb) i) }
    ensures exact { result ≡ climb_past plan.now climb count }
    ensures from { result.from ≡ climb.from }
    ensures over { IsClimbOver plan.now result }
    ensures each { (i : ℕ) → i < count → Passes plan.now (climb_past plan.now climb i) }
{
    plan_is_sound(plan);
    climbs_go_on();
    let Height {
        level,
        index,
        weight,
    } = routes.past(climb.from, climb.level, climb.index, count);
    Climb {
        weight: climb.weight + weight,
        level,
        index,
        ..climb
    }
}

// The walk of the find at a place of a script, if there is one.
fn walk_at(script: &[Call], place: usize, subs: u32, plan: &Plan) -> Option<Walk>
    requires searches { All (IsSearch (nodes_of plan.now) subs) script.now }
    ensures { IsWalking plan.now (drop place (map find_of script.now)) at_origin result }
{
    match *script.get(place)? {
        Call::Find { from, sub } => Walk::new(from, sub, subs, plan).ok(),
        Call::Move { .. } | Call::Off | Call::On => None,
    }
}

// The line of a find.
fn line_of(actor: u32, call: Call, found: Found, first: u64, last: u64) -> Done
    ensures { result ≡ found_line actor (find_of call) found first last }
{
    let (from, sub) = ends_of(call);
    match found {
        Found::At {
            node,
            number,
            level,
            weight,
        } => Done::Found {
            actor,
            from,
            sub,
            node,
            number,
            level,
            weight,
            first,
            last,
        },
        Found::Off {
            node,
            number,
            level,
            weight,
        } => Done::Off {
            actor,
            from,
            sub,
            node,
            number,
            level,
            weight,
            first,
            last,
        },
        Found::Again { why, weight } => again_line(actor, from, sub, why, weight, first, last),
    }
}

// Where a find begins, and for whom it looks.
fn ends_of(call: Call) -> (u32, u32)
    ensures from { result.0 ≡ (find_of call).from }
    ensures sub { result.1 ≡ (find_of call).sub }
{
    match call {
        Call::Find { from, sub } => (from, sub),
        Call::Move { .. } | Call::Off | Call::On => (0, 0),
    }
}

// The line of a find that is to be made again.
fn again_line(actor: u32, from: u32, sub: u32, why: Why, weight: u64, first: u64, last: u64) -> Done
    ensures { result ≡ Again actor from sub why weight first last }
{
    Done::Again {
        actor,
        from,
        sub,
        why,
        weight,
        first,
        last,
    }
}
