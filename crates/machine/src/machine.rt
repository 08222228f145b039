//! The directory at work in one order of turns.
ghost use Rattle.std.specs.Prelude.{All, ◌≡◌, ◌∷◌, ◌++◌, ◌+◌, ◌-◌, ◌<◌, ◌≤◌, ◌↔◌, ℕ, List, [], IfOk, None, true, drop, length, map, replicate, slice_index, slice_index_or, vec_len, flat_map, vec_capacity};
ghost use Rattle.directory.specs.Histories.{History};
ghost use Rattle.directory.specs.Orders.{after_turn, after_turns, history_of, last_turns, most_turns, next, IsDone};
ghost use Rattle.directory.specs.Outcomes.{outcome_in, result_of};
ghost use Rattle.net_reader.specs.Seen.{seen_input};
ghost use Rattle.net_reader.specs.Valid.{IsValid};
ghost use Rattle.region_plan.specs.Plan.{nodes_of};
ghost use Rattle.visit_log.specs.Cells.{GoWith, Hold};
ghost use Rattle.visit_log.specs.Homes.{AreHomes};
ghost use Rattle.visit_log.specs.Routes.{AreRoutes};
ghost use Rattle.trail_laws.specs.RightOutcomes.{IsRightLine, TellInTurn, TellRisingNumbers};
ghost use Rattle.machine.specs.Callers.{IsCaller};
ghost use Rattle.machine.specs.Machines.{HasStridden, IsSame, HasHistory, scripts_at, setting_at};
ghost use Rattle.machine.specs.Stands.{BelongTogether};
ghost use Rattle.machine.specs.Subscribers.{IsSubscriber};
ghost use Rattle.machine.specs.declared.caller.Caller.{Caller};
ghost use Rattle.machine.specs.declared.subscriber.Subscriber.{Subscriber};
ghost use Rattle.machine.specs.declared.turn.Turn.TheVariants.{Finished};

use crate::caller::Caller;
use crate::lines::{push_finds, push_steps};
use crate::order::{log_run, room_for, run_end};
use crate::room::rooms_for;
use crate::subscriber::Subscriber;
use crate::turn::Turn;
use directory::{
    Done, Outcome, each_visit_is_next, lines_grow, next_is_own, order_of_history, own_after,
    turns_are_few,
};
use distances::Distances;
use net_reader::{Call, Input};
use region_plan::{Plan, plan_is_sound};
use scripts::{scripts_are_valid, visits_are_few};
use std::alloc::{AllocError, Global};
use trail_laws::{lines_are_in_turn, outcomes_are_right};
use visit_log::{Homes, PlainCells, Routes};

/// The actors of an input at work: the subscribers, then the callers, and the cells that they
/// visit.
#[derive(Drop)]
pub struct Machine<'a> {
    input: &'a Input,
    plan: &'a Plan,
    distances: &'a Distances,
    homes: Homes,
    routes: Routes,
    cells: PlainCells,
    subscribers: Vec<Subscriber>,
    callers: Vec<Caller>,
    calls: Vec<Done>,
    order: Vec<u32>,
}

impl<'a> Machine<'a> {
    /// All actors before their first turns. It takes all memory that the machine needs, and its
    /// lists have room for just what comes into them.
    pub fn new(
        alloc: Global,
        input: &'a Input,
        plan: &'a Plan,
        distances: &'a Distances,
    ) -> Result<Machine<'a>, AllocError>
        requires together { BelongTogether (seen_input input.now) plan.now distances.now }
        ensures made { IfOk result
            (λ machine. (machine.input.now ≡ input.now) × (machine.plan.now ≡ plan.now)
            × (machine.distances.now ≡ distances.now)) }
        ensures stands { IfOk result (λ machine. HasHistory machine []) }
    {
        // The actors first: each call drops what was made before it where it fails, and the prover
        // goes through each drop.
        let subscribers = subscribers_of(alloc, input, plan, distances)?;
        let callers = callers_of(alloc, input, plan, distances)?;
        let (homes, routes, cells) = cells_of(alloc, input, plan)?;
        let (order, calls) = rooms_for(alloc, input, plan, &routes)?;
        Ok(Machine {
            input,
            plan,
            distances,
            homes,
            routes,
            cells,
            subscribers,
            callers,
            calls,
            order,
        })
    }

    /// An actor's next visit, if it has one left; else nothing changes. An actor that the input
    /// doesn't have has none.
    pub fn turn(&mut self, actor: u32) -> Turn
        requires stands { (history : History) × HasHistory self.old history }
        ensures finished { (history : History) → HasHistory self.old history
            → ((result ≡ Finished)
            ↔ (next (setting_at self.old) (scripts_at self.old) history actor ≡ None)) }
        ensures still { result ≡ Finished → self.new ≡ self.old }
        ensures stands { (history : History) → HasHistory self.old history
            → HasHistory self.new
            (after_turn (setting_at self.old) (scripts_at self.old) history actor) }
        ensures same { IsSame self.old self.new }
    {
        if self.stride::<true>(actor, 1) == 0 {
            Turn::Finished
        } else {
            Turn::Visited
        }
    }

    /// So many turns of an actor, one after another: what as many calls of `turn` do, in fewer
    /// steps. How many visits it made.
    pub fn turns(&mut self, actor: u32, count: usize) -> usize
        requires stands { (history : History) × HasHistory self.old history }
        ensures stands { (history : History) → HasHistory self.old history
            → HasHistory self.new (after_turns (setting_at self.old) (scripts_at self.old) history
            (replicate count actor)) }
        ensures made { (history : History) → HasHistory self.old history
            → length (after_turns (setting_at self.old) (scripts_at self.old) history
            (replicate count actor)) ≡ length history + result }
        ensures same { IsSame self.old self.new }
    {
        if count == 1 {
            return self.stride::<true>(actor, 1);
        }
        let mut left = count;
        'turns: while left > 0 {
            let made = self.stride::<false>(actor, left);
            if made == 0 {
                return count - left;
            }
            left -= made;
        }
        count
    }

    /// The turns of an order, one after another; those of a run of equal numbers at once.
    pub fn play(&mut self, order: &[u32])
        requires stands { (history : History) × HasHistory self.old history }
        ensures stands { (history : History) → HasHistory self.old history
            → HasHistory self.new (after_turns (setting_at self.old) (scripts_at self.old) history
            order.now) }
        ensures same { IsSame self.old self.new }
    {
        let mut start = 0;
        'runs: while start < order.len() {
            let end = run_end(order, start);
            self.turns(order[start], end - start);
            start = end;
        }
    }

    /// The visits that are left, actor by actor. It never fails.
    pub fn finish(&mut self)
        requires stands { (history : History) × HasHistory self.old history }
        ensures stands { (history : History) → HasHistory self.old history → HasHistory self.new
            (after_turns (setting_at self.old) (scripts_at self.old) history
            (last_turns (setting_at self.old) (scripts_at self.old))) }
        ensures order { (order : List ℕ)
            → HasHistory self.old (after_turns (setting_at self.old) (scripts_at self.old) [] order)
            → HasHistory self.new (history_of (setting_at self.old) (scripts_at self.old) order) }
        ensures same { IsSame self.old self.new }
    {
        'actors: for actor in 0..self.input.scripts.len() as u32 {
            self.finish_actor(actor);
        }
    }

    /// What became of all calls, once no actor has a visit left. It never fails.
    pub fn outcome(self) -> Outcome
        requires stands { (history : History) × HasHistory self history
            × ((actor : ℕ) → IsDone (setting_at self) (scripts_at self) history actor) }
        ensures result { (history : History) → HasHistory self.entry history
            → ((actor : ℕ) → IsDone (setting_at self.entry) (scripts_at self.entry) history actor)
            → result_of result
            ≡ outcome_in (setting_at self.entry) (scripts_at self.entry) history }
        ensures right { (history : History) → HasHistory self.entry history
            → ((actor : ℕ) → IsDone (setting_at self.entry) (scripts_at self.entry) history actor)
            → All (IsRightLine (setting_at self.entry) history) (result_of result).calls }
        ensures numbers { (history : History) → HasHistory self.entry history
            → ((actor : ℕ) → IsDone (setting_at self.entry) (scripts_at self.entry) history actor)
            → TellRisingNumbers (result_of result).calls }
        ensures in_turn { (history : History) → HasHistory self.entry history
            → ((actor : ℕ) → IsDone (setting_at self.entry) (scripts_at self.entry) history actor)
            → TellInTurn (result_of result).calls }
    {
        lines_are_in_turn();
        outcomes_are_right();
        order_of_history();
        scripts_are_valid();
        plan_is_sound(self.plan);
        let mut calls = self.calls;
        push_steps(&mut calls, &self.subscribers);
        push_finds(&mut calls, &self.callers);
        Outcome {
            calls,
            order: self.order,
        }
    }

    /// The cells.
    pub fn cells(&self) -> &PlainCells
        ensures { result.now ≡ self.now.cells }
    {
        &self.cells
    }

    // The visits that are left of an actor.
    fn finish_actor(&mut self, actor: u32)
        requires stands { (history : History) × HasHistory self.old history }
        ensures stands { (history : History) → HasHistory self.old history → HasHistory self.new
            (after_turns (setting_at self.old) (scripts_at self.old) history
            (replicate (most_turns (setting_at self.old) (scripts_at self.old) actor) actor)) }
        ensures same { IsSame self.old self.new }
    {
        turns_are_few();
        visits_are_few();
        'turns: while self.stride::<false>(actor, usize::MAX) > 0 {}
    }

    // The next visits of an actor that are made at once, at most so many, and how many there were.
    fn stride<const ALONE: bool>(&mut self, actor: u32, most: usize) -> usize
        requires stands { (history : History) × HasHistory self.old history }
        requires some { 1 ≤ most }
        requires alone { ALONE ≡ true → most ≤ 1 }
        ensures few { result ≤ most }
        ensures stands { (history : History) → HasHistory self.old history
            → HasStridden self.old self.new history actor result }
        ensures same { IsSame self.old self.new }
    {
        if (actor as usize) < self.subscribers.len() {
            return self.write::<ALONE>(actor, most);
        }
        if self.input.scripts.len() <= actor as usize {
            return 0;
        }
        self.look::<ALONE>(actor, most)
    }

    // A subscriber's next visits, at most so many, and how many there were.
    fn write<const ALONE: bool>(&mut self, actor: u32, most: usize) -> usize
        requires stands { (history : History) × HasHistory self.old history }
        requires known { actor < length self.old.input.now.homes.items }
        requires some { 1 ≤ most }
        requires alone { ALONE ≡ true → most ≤ 1 }
        ensures few { result ≤ most }
        ensures stands { (history : History) → HasHistory self.old history
            → HasStridden self.old self.new history actor result }
        ensures same { IsSame self.old self.new }
    {
        each_visit_is_next();
        own_after();
        lines_grow();
        visits_are_few();
        let ticket = self.order.len() as u64;
        let reach = room_for(&self.order, most);
        let count = self.subscribers[actor as usize].write::<ALONE>(
            actor,
            self.input,
            self.plan,
            &self.homes,
            self.distances,
            &mut self.cells,
            ticket,
            reach,
        );
        log_run(&mut self.order, actor, count);
        count
    }

    // A caller's next looks, at most so many, and how many there were.
    fn look<const ALONE: bool>(&mut self, actor: u32, most: usize) -> usize
        requires stands { (history : History) × HasHistory self.old history }
        requires high { length self.old.input.now.homes.items ≤ actor }
        requires known { actor < length self.old.input.now.scripts.items }
        requires some { 1 ≤ most }
        requires alone { ALONE ≡ true → most ≤ 1 }
        ensures few { result ≤ most }
        ensures stands { (history : History) → HasHistory self.old history
            → HasStridden self.old self.new history actor result }
        ensures same { IsSame self.old self.new }
    {
        each_visit_is_next();
        own_after();
        lines_grow();
        visits_are_few();
        let ticket = self.order.len() as u64;
        let reach = room_for(&self.order, most);
        let place = actor as usize - self.subscribers.len();
        let count = self.callers[place].look::<ALONE>(
            actor,
            self.input,
            self.plan,
            &self.routes,
            self.distances,
            &self.cells,
            ticket,
            reach,
        );
        log_run(&mut self.order, actor, count);
        count
    }
}

// The homes and the routes of a plan, and the cells before the first visit.
fn cells_of(
    alloc: Global,
    input: &Input,
    plan: &Plan,
) -> Result<(Homes, Routes, PlainCells), AllocError>
    requires valid { IsValid (seen_input input.now) }
    requires nodes { nodes_of plan.now ≡ input.now.nodes }
    ensures homes { IfOk result (λ made. AreHomes plan.now made.0) }
    ensures routes { IfOk result (λ made. AreRoutes plan.now made.1) }
    ensures goes { IfOk result (λ made. GoWith plan.now made.2) }
    ensures opening { IfOk result (λ made. Hold plan.now input.now.homes.items made.2 []) }
{
    let homes = Homes::new(alloc, plan)?;
    let routes = Routes::new(alloc, plan)?;
    let cells = PlainCells::new(alloc, plan, &input.homes)?;
    Ok((homes, routes, cells))
}

// The subscribers, before their first steps.
fn subscribers_of(
    alloc: Global,
    input: &Input,
    plan: &Plan,
    distances: &Distances,
) -> Result<Vec<Subscriber>, AllocError>
    requires together { BelongTogether (seen_input input.now) plan.now distances.now }
    ensures count { IfOk result
        (λ subscribers. vec_len subscribers ≡ length input.now.homes.items) }
    ensures each { IfOk result
        (λ subscribers. (s : ℕ) (d : Subscriber) → s < length input.now.homes.items
        → IsSubscriber (seen_input input.now) plan.now [] s
        (slice_index_or subscribers.items s d)) }
    ensures room { IfOk result
        (λ subscribers. vec_capacity subscribers ≡ length input.now.homes.items) }
{
    let mut subscribers = Vec::with_capacity(alloc, input.homes.len())?;
    for sub in 0..input.homes.len() as u32 {
        let steps = input.scripts[sub as usize].len();
        let home = input.homes[sub as usize];
        subscribers.push_reserved(Subscriber::new(alloc, sub, home, steps, plan)?);
    }
    Ok(subscribers)
}

// The callers, before their first looks.
fn callers_of(
    alloc: Global,
    input: &Input,
    plan: &Plan,
    distances: &Distances,
) -> Result<Vec<Caller>, AllocError>
    requires together { BelongTogether (seen_input input.now) plan.now distances.now }
    ensures count { IfOk result (λ callers. vec_len callers ≡ input.now.callers) }
    ensures each { IfOk result (λ callers. (c : ℕ) (d : Caller) → c < input.now.callers
        → IsCaller (seen_input input.now) plan.now [] (length input.now.homes.items + c)
        (slice_index_or callers.items c d)) }
    ensures room { IfOk result (λ callers. vec_capacity callers ≡ input.now.callers) }
{
    let subs = input.homes.len();
    let mut callers = Vec::with_capacity(alloc, input.callers as usize)?;
    for caller in 0..input.callers as usize {
        let script = input.scripts[subs + caller].as_slice();
        callers.push_reserved(Caller::new(alloc, script, subs as u32, plan)?);
    }
    Ok(callers)
}
