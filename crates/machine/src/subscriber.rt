//! A subscriber: its moves and switches, one after another.
ghost use Rattle.std.specs.Prelude.{◌≡◌, ◌≤◌, ◌<◌, ◌+◌, ◌-◌, ◌^◌, ◌++◌, ◌∷◌, [], ℕ, List, IfOk, None, OnSome, true, false, not, length, suc, slice_get, slice_index, vec_capacity};
ghost use Rattle.directory.specs.Courses.{Step};
ghost use Rattle.directory.specs.Settings.{Setting};
ghost use Rattle.directory.specs.declared.answers.Done.TheVariants.{Switched};
ghost use Rattle.directory.specs.Histories.{History};
ghost use Rattle.directory.specs.Writes.{visits};
ghost use Rattle.net_reader.specs.Input.{Contents};
ghost use Rattle.net_reader.specs.Seen.{seen_input};
ghost use Rattle.region_plan.specs.Plan.{PlanData, nodes_of};
ghost use Rattle.region_plan.specs.Settings.{setting_of};
ghost use Rattle.handset.specs.Condition.{GoesWith};
ghost use Rattle.handset.specs.StepWrites.{due};
ghost use Rattle.handset.specs.Stands.{StandsForSteps, switch_to};
ghost use Rattle.visit_log.specs.Cells.{GoWith};
ghost use Rattle.visit_log.specs.Homes.{AreHomes};
ghost use Rattle.scripts.specs.Scripts.{step_of};
ghost use Rattle.machine.specs.Stands.{BelongTogether};
ghost use Rattle.machine.specs.Owed.{HasNone};
ghost use Rattle.machine.specs.Subscribers.{IsSubscriber, MakesTurns, MayBegin, begun_line, line_after, MayTakeTurn, TakesTurn, TakesTurns};
ghost use Rattle.machine.specs.declared.turn.Turn.TheVariants.{Visited};

use crate::ahead::{Ahead, fill, put_plain};
use crate::turn::Turn;
use directory::{Done, each_visit_is_next, next_is_own, own_after, tickets_tell};
use distances::Distances;
use entry_word::mark_words;
use handset::Handset;
use net_reader::{Call, Input};
use region_plan::Plan;
use scripts::scripts_are_valid;
use std::alloc::{AllocError, Global};
use visit_log::{Homes, PlainCells};

// How many writes a subscriber has ahead at most.
const MOST_AHEAD: usize = 64;

/// A subscriber: its handset, which has made the writes that are ahead; how many of these are in
/// their cells by now; and the lines of the steps that it has begun.
#[derive(Drop)]
pub struct Subscriber {
    handset: Handset,
    ahead: Vec<Ahead>,
    made: usize,
    pub lines: Vec<Done>,
}

impl Subscriber {
    // A subscriber at its start, before its first step of so many.
    pub fn new(
        alloc: Global,
        sub: u32,
        home: u32,
        steps: usize,
        plan: &Plan,
    ) -> Result<Subscriber, AllocError>
        requires node { home < nodes_of plan.now }
        ensures handset { IfOk result
            (λ subscriber. (starts : List ℕ) → slice_index starts sub ≡ home
            → StandsForSteps (setting_of plan.now starts) subscriber.handset [] 0) }
        ensures goes { IfOk result (λ subscriber. GoesWith plan.now subscriber.handset) }
        ensures its { IfOk result (λ subscriber. subscriber.handset.sub ≡ sub) }
        ensures rests { IfOk result
            (λ subscriber. due (setting_of plan.now []) subscriber.handset ≡ None) }
        ensures ahead { IfOk result
            (λ subscriber. (subscriber.ahead.items ≡ []) × (subscriber.made ≡ 0)) }
        ensures space { IfOk result (λ subscriber. vec_capacity subscriber.ahead ≡ 64) }
        ensures lines { IfOk result (λ subscriber. subscriber.lines.items ≡ []) }
        ensures room { IfOk result (λ subscriber. vec_capacity subscriber.lines ≡ steps) }
    {
        Ok(Subscriber {
            handset: Handset::new(alloc, sub, home, plan)?,
            ahead: Vec::with_capacity(alloc, MOST_AHEAD)?,
            made: 0,
            lines: Vec::with_capacity(alloc, steps)?,
        })
    }

    // The next visits, at most so many, and how many there were. A turn alone has its own copy of
    // the code, which has no loops.
    pub fn write<const ALONE: bool>(
        &mut self,
        sub: u32,
        input: &Input,
        plan: &Plan,
        homes: &Homes,
        distances: &Distances,
        cells: &mut PlainCells,
        ticket: u64,
        most: usize,
    ) -> usize
        requires together { BelongTogether (seen_input input.now) plan.now distances.now }
        requires homes { AreHomes plan.now homes.now }
        requires low { sub < length input.now.homes.items }
        requires stands { MayTakeTurn (seen_input input.now) plan.now cells.old ticket sub
            self.old }
        requires fits { ticket + most < 2 ^ 64 }
        requires alone { ALONE ≡ true → most ≤ 1 }
        ensures few { result ≤ most }
        ensures taken { TakesTurns (seen_input input.now) plan.now ticket sub most self.old self.new
            cells.old cells.new result }
        ensures still { result ≡ 0 → (self.new ≡ self.old) × (cells.new ≡ cells.old) }
    {
        each_visit_is_next();
        next_is_own();
        if ALONE {
            return self.write_alone(sub, input, plan, homes, distances, cells, ticket, most);
        }
        let mut made = 0;
        'writes: while made < most {
            let at = ticket + made as u64;
            made += self.write_plain(sub, input, plan, distances, cells, at, most - made);
            if made == most {
                return made;
            }
            let at = ticket + made as u64;
            match self.write_one(sub, input, plan, homes, distances, cells, at) {
                Turn::Visited => made += 1,
                Turn::Finished => return made,
            }
        }
        made
    }

    // The visits ahead that come next and don't commit a move, at most so many, and how many there
    // were.
    fn write_plain(
        &mut self,
        sub: u32,
        input: &Input,
        plan: &Plan,
        distances: &Distances,
        cells: &mut PlainCells,
        ticket: u64,
        most: usize,
    ) -> usize
        requires together { BelongTogether (seen_input input.now) plan.now distances.now }
        requires low { sub < length input.now.homes.items }
        requires stands { MayTakeTurn (seen_input input.now) plan.now cells.old ticket sub
            self.old }
        requires fits { ticket + most < 2 ^ 64 }
        ensures few { result ≤ most }
        ensures made { MakesTurns (seen_input input.now) plan.now ticket sub self.old self.new
            cells.old cells.new result }
        ensures still { result ≡ 0 → (self.new ≡ self.old) × (cells.new ≡ cells.old) }
    {
        own_after();
        tickets_tell();
        mark_words();
        scripts_are_valid();
        each_visit_is_next();
        next_is_own();
        let behind = put_plain(self.ahead.as_slice(), self.made, sub, cells, most);
        let made = behind - self.made;
        if made > 0 {
            self.made = behind;
            let last = self.lines.len() - 1;
            go_on(&mut self.lines[last], false, ticket + made as u64 - 1);
        }
        made
    }

    // The next visit, if there may be one and one is left: what `write` does without its loop.
    #[inline(always)]
    fn write_alone(
        &mut self,
        sub: u32,
        input: &Input,
        plan: &Plan,
        homes: &Homes,
        distances: &Distances,
        cells: &mut PlainCells,
        ticket: u64,
        most: usize,
    ) -> usize
        requires together { BelongTogether (seen_input input.now) plan.now distances.now }
        requires homes { AreHomes plan.now homes.now }
        requires low { sub < length input.now.homes.items }
        requires stands { MayTakeTurn (seen_input input.now) plan.now cells.old ticket sub
            self.old }
        requires alone { most ≤ 1 }
        ensures few { result ≤ most }
        ensures taken { TakesTurns (seen_input input.now) plan.now ticket sub most self.old self.new
            cells.old cells.new result }
        ensures still { result ≡ 0 → (self.new ≡ self.old) × (cells.new ≡ cells.old) }
    {
        each_visit_is_next();
        next_is_own();
        if most == 0 {
            return 0;
        }
        match self.write_one(sub, input, plan, homes, distances, cells, ticket) {
            Turn::Visited => 1,
            Turn::Finished => 0,
        }
    }

    // The next visit, if one is left.
    #[inline(always)]
    fn write_one(
        &mut self,
        sub: u32,
        input: &Input,
        plan: &Plan,
        homes: &Homes,
        distances: &Distances,
        cells: &mut PlainCells,
        ticket: u64,
    ) -> Turn
        requires together { BelongTogether (seen_input input.now) plan.now distances.now }
        requires homes { AreHomes plan.now homes.now }
        requires low { sub < length input.now.homes.items }
        requires stands { MayTakeTurn (seen_input input.now) plan.now cells.old ticket sub
            self.old }
        ensures { TakesTurn (seen_input input.now) plan.now ticket sub self.old self.new cells.old
            cells.new result }
    {
        if !self.has_ahead(plan, homes, cells) {
            return self.begin(sub, input, plan, homes, distances, cells, ticket);
        }
        self.put_one(sub, input, plan, distances, cells, ticket);
        Turn::Visited
    }

    // Whether a write of the steps that are begun is ahead. Where all that were are in their cells,
    // those that come next are ahead from now on; where none comes, nothing changes.
    #[inline(always)]
    fn has_ahead(&mut self, plan: &Plan, homes: &Homes, cells: &PlainCells) -> bool
        requires goes { GoesWith plan.now self.old.handset }
        requires homes { AreHomes plan.now homes.now }
        requires cells { GoWith plan.now cells.now }
        requires known { self.old.handset.sub < cells.now.subs }
        requires within { self.old.made ≤ length self.old.ahead.items }
        requires space { 1 ≤ vec_capacity self.old.ahead }
        requires rests { length self.old.ahead.items < vec_capacity self.old.ahead
            → due (setting_of plan.now []) self.old.handset ≡ None }
        ensures stands { (input : Contents) (history : History) (sub : ℕ)
            → length input.homes ≡ cells.now.subs
            → IsSubscriber input plan.now history sub self.old
            → IsSubscriber input plan.now history sub self.new }
        ensures some { result ≡ true → self.new.made < length self.new.ahead.items }
        ensures none { result ≡ false → (self.new ≡ self.old)
            × (length self.old.ahead.items ≤ self.old.made) × HasNone plan.now self.old.handset }
    {
        if self.made < self.ahead.len() {
            return true;
        }
        // Where there was room for one more, none came.
        if self.ahead.len() < self.ahead.capacity() {
            return false;
        }
        if self.handset.next(plan).is_none() {
            return false;
        }
        self.ahead.clear();
        self.made = 0;
        fill(&mut self.ahead, &mut self.handset, plan, homes, cells);
        true
    }

    // The visit ahead that comes next.
    #[inline(always)]
    fn put_one(
        &mut self,
        sub: u32,
        input: &Input,
        plan: &Plan,
        distances: &Distances,
        cells: &mut PlainCells,
        ticket: u64,
    )
        requires together { BelongTogether (seen_input input.now) plan.now distances.now }
        requires low { sub < length input.now.homes.items }
        requires left { self.old.made < length self.old.ahead.items }
        requires stands { MayTakeTurn (seen_input input.now) plan.now cells.old ticket sub
            self.old }
        ensures { TakesTurn (seen_input input.now) plan.now ticket sub self.old self.new cells.old
            cells.new Visited }
    {
        own_after();
        tickets_tell();
        mark_words();
        scripts_are_valid();
        let write = self.ahead[self.made];
        cells.put_at(sub, write.place, write.word);
        self.made += 1;
        let last = self.lines.len() - 1;
        go_on(&mut self.lines[last], write.commits, ticket);
    }

    // The first visit of the next step, if one is left. It is apart from the visits ahead, so that
    // these stay short.
    #[inline(never)]
    fn begin(
        &mut self,
        sub: u32,
        input: &Input,
        plan: &Plan,
        homes: &Homes,
        distances: &Distances,
        cells: &mut PlainCells,
        ticket: u64,
    ) -> Turn
        requires together { BelongTogether (seen_input input.now) plan.now distances.now }
        requires homes { AreHomes plan.now homes.now }
        requires low { sub < length input.now.homes.items }
        requires none { length self.old.ahead.items ≤ self.old.made }
        requires rests { due (setting_of plan.now []) self.old.handset ≡ None }
        requires stands { MayTakeTurn (seen_input input.now) plan.now cells.old ticket sub
            self.old }
        ensures { TakesTurn (seen_input input.now) plan.now ticket sub self.old self.new cells.old
            cells.new result }
    {
        own_after();
        tickets_tell();
        scripts_are_valid();
        let script = input.scripts[sub as usize].as_slice();
        let place = self.lines.len();
        if place == script.len() {
            return Turn::Finished;
        }
        let line = begin_step(&mut self.handset, script[place], plan, distances, ticket);
        self.lines.push_reserved(line);
        self.ahead.clear();
        fill(&mut self.ahead, &mut self.handset, plan, homes, cells);
        let write = self.ahead[0];
        cells.put_at(sub, write.place, write.word);
        self.made = 1;
        Turn::Visited
    }
}

// Begins the step of a call, and gives its line with the ticket of its first visit.
fn begin_step(
    handset: &mut Handset,
    call: Call,
    plan: &Plan,
    distances: &Distances,
    ticket: u64,
) -> Done
    requires goes { GoesWith plan.now handset.old }
    requires belongs { plan.now.distances ≡ distances.now }
    requires rests { due (setting_of plan.now []) handset.old ≡ None }
    requires may { MayBegin plan.now handset.old call }
    ensures line { result ≡ begun_line plan.now handset.old call ticket }
    ensures goes { GoesWith plan.now handset.new }
    ensures its { handset.new.sub ≡ handset.old.sub }
    ensures stands { (starts : List ℕ) (steps : List Step) (made : ℕ)
        → StandsForSteps (setting_of plan.now starts) handset.old steps made
        → StandsForSteps (setting_of plan.now starts) handset.new (steps ++ step_of call ∷ [])
        made }
{
    match call {
        Call::Move { to } => {
            let (number, from) = (handset.number() + 1, handset.place());
            if handset.begin(plan, distances, to).is_err() {
                unreachable!()
            }
            Done::Moved {
                actor: handset.sub(),
                number,
                from,
                to,
                weight: handset.weight(),
                first: ticket,
                commit: 0,
                last: ticket,
            }
        }
        Call::Off => switch(handset, true, ticket),
        Call::On => switch(handset, false, ticket),
        Call::Find { .. } => unreachable!(),
    }
}

// Begins a switch, and gives its line.
fn switch(handset: &mut Handset, off: bool, ticket: u64) -> Done
    requires rests { (plan : PlanData) × (due (setting_of plan []) handset.old ≡ None) }
    requires other { handset.old.is_off ≡ not off }
    ensures line { result
        ≡ Switched handset.old.sub off handset.old.place handset.old.number ticket }
    ensures goes { (plan : PlanData) → GoesWith plan handset.old → GoesWith plan handset.new }
    ensures its { handset.new.sub ≡ handset.old.sub }
    ensures stands { (setting : Setting) (steps : List Step) (made : ℕ)
        → StandsForSteps setting handset.old steps made
        → StandsForSteps setting handset.new (steps ++ switch_to off ∷ []) made }
{
    if handset.switch(off).is_err() {
        unreachable!()
    }
    Done::Switched {
        actor: handset.sub(),
        off,
        node: handset.place(),
        number: handset.number(),
        ticket,
    }
}

// Brings the line of a step to one more of its visits.
fn go_on(line: &mut Done, commits: bool, ticket: u64)
    ensures { line.new ≡ line_after line.old commits ticket }
{
    if let Done::Moved { commit, last, .. } = line {
        if commits {
            *commit = ticket;
        }
        *last = ticket;
    }
}
