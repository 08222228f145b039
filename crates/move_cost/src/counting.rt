//! What the moves of each subscriber cost, counted as a handset makes its writes.
ghost use Rattle.std.specs.Prelude.{◌≡◌, ◌<◌, ◌≤◌, ◌+◌, ◌*◌, ◌^◌, ◌++◌, ◌∷◌, [], ℕ, List, IfOk, None, length};
ghost use Rattle.directory.specs.Courses.{Step};
ghost use Rattle.directory.specs.Orders.{steps_of};
ghost use Rattle.directory.specs.Writes.{Write};
ghost use Rattle.net_reader.specs.Seen.{seen_input};
ghost use Rattle.region_plan.specs.Matched.{BoundsFinds};
ghost use Rattle.region_plan.specs.Plan.{nodes_of};
ghost use Rattle.region_plan.specs.Settings.{setting_of};
ghost use Rattle.handset.specs.Condition.{GoesWith};
ghost use Rattle.handset.specs.StepWrites.{due};
ghost use Rattle.handset.specs.Stands.{StandsForSteps};
ghost use Rattle.scripts.specs.Scripts.{scripts_of, step_of};
ghost use Rattle.move_cost.specs.Costs.{cost_line, cost_lines};
ghost use Rattle.move_cost.specs.Counting.{HasRoom, IsCounted, IsLeft, MayBegin, most_weight, node_after, with_call, with_writes};
ghost use Rattle.move_cost.specs.Plans.{AreWithinRate, GoTogether};

use crate::laws::lines_are_within_rate;
use crate::line::CostLine;
use crate::weights::{act_weight, is_purge};
use directory::moves_are_short;
use distances::Distances;
use entry_word::{address_words, mark_words};
use handset::Handset;
use net_reader::{Call, Input};
use region_plan::{Plan, plan_is_sound};
use scripts::scripts_are_valid;
use std::alloc::{AllocError, Global};

/// What the moves of each subscriber cost, by its number: how many moves it makes, how far it goes,
/// the weight of all that it writes and how many marks it purges (docs/DIRECTORY.md, "What moves
/// cost"). Over a plan that bounds its finds each line is within the plan's rate. The input is
/// valid, and the plan is one of its nodes, with these distances. The only fault is want of memory.
pub fn costs(
    alloc: Global,
    input: &Input,
    plan: &Plan,
    distances: &Distances,
) -> Result<Vec<CostLine>, AllocError>
    requires together { GoTogether (seen_input input.now) plan.now distances.now }
    ensures lines { IfOk result (λ lines. lines.items ≡ cost_lines
        (setting_of plan.now input.now.homes.items) (scripts_of (seen_input input.now))) }
    ensures bounded { IfOk result
        (λ lines. BoundsFinds plan.now → AreWithinRate plan.now lines.items) }
{
    scripts_are_valid();
    lines_are_within_rate();
    let mut lines = Vec::with_capacity(alloc, input.homes.len())?;
    for sub in 0..input.homes.len() as u32 {
        lines.push(cost_of(alloc, sub, input, plan, distances)?)?;
    }
    Ok(lines)
}

// What the moves of a subscriber cost.
fn cost_of(
    alloc: Global,
    sub: u32,
    input: &Input,
    plan: &Plan,
    distances: &Distances,
) -> Result<CostLine, AllocError>
    requires together { GoTogether (seen_input input.now) plan.now distances.now }
    requires known { sub < length input.now.homes.items }
    ensures { IfOk result (λ line. line ≡ cost_line
        (setting_of plan.now input.now.homes.items) sub
        (steps_of (scripts_of (seen_input input.now)) sub)) }
{
    let script = input.scripts[sub as usize].as_slice();
    let mut handset = Handset::new(alloc, sub, input.homes[sub as usize], plan)?;
    let mut line = CostLine {
        sub,
        moves: 0,
        moved: 0,
        written: 0,
        purged: 0,
    };
    'calls: for place in 0..script.len() {
        count_step(&mut handset, &mut line, place, sub, input, plan, distances);
    }
    Ok(line)
}

// Makes the next step of a script, and counts what it costs.
fn count_step(
    handset: &mut Handset,
    line: &mut CostLine,
    place: usize,
    sub: u32,
    input: &Input,
    plan: &Plan,
    distances: &Distances,
)
    requires together { GoTogether (seen_input input.now) plan.now distances.now }
    requires known { sub < length input.now.homes.items }
    requires short { place < length (steps_of (scripts_of (seen_input input.now)) sub) }
    requires counted { IsCounted (seen_input input.now) plan.now sub place handset.old line.old }
    ensures { IsCounted (seen_input input.now) plan.now sub (place + 1) handset.new line.new }
{
    scripts_are_valid();
    moves_are_short();
    // Levels are few, and homes hold their nodes.
    plan_is_sound(plan);
    let call = input.scripts[sub as usize][place];
    let node = begin(handset, line, call, plan, distances);
    finish(handset, line, node, plan, distances);
}

// Begins the step of a call, counts its move, and answers where the subscriber goes.
fn begin(
    handset: &mut Handset,
    line: &mut CostLine,
    call: Call,
    plan: &Plan,
    distances: &Distances,
) -> u32
    requires goes { GoesWith plan.now handset.old }
    requires belongs { plan.now.distances ≡ distances.now }
    requires rests { due (setting_of plan.now []) handset.old ≡ None }
    requires may { MayBegin plan.now handset.old call }
    requires moves { line.old.moves < 2 ^ 32 }
    requires moved { line.old.moved ≤ 2 ^ 62 }
    ensures node { result ≡ node_after handset.old call }
    ensures line { line.new ≡ with_call plan.now handset.old line.old call }
    ensures small { line.new.moved ≤ line.old.moved + 2 ^ 30 }
    ensures goes { GoesWith plan.now handset.new }
    ensures its { handset.new.sub ≡ handset.old.sub }
    ensures stands { (starts : List ℕ) (steps : List Step) (made : ℕ)
        → StandsForSteps (setting_of plan.now starts) handset.old steps made
        → StandsForSteps (setting_of plan.now starts) handset.new (steps ++ step_of call ∷ [])
        made }
{
    // Distances are small.
    plan_is_sound(plan);
    let place = handset.place();
    match call {
        Call::Move { to } => {
            if handset.begin(plan, distances, to).is_err() {
                unreachable!()
            }
            line.moves += 1;
            line.moved += distances.between(place, to);
            to
        }
        Call::Off => {
            if handset.switch(true).is_err() {
                unreachable!()
            }
            place
        }
        Call::On => {
            if handset.switch(false).is_err() {
                unreachable!()
            }
            place
        }
        Call::Find { .. } => unreachable!(),
    }
}

// Makes the writes that are left of a step of a subscriber that goes to a node, and counts what
// they cost.
fn finish(handset: &mut Handset, line: &mut CostLine, node: u32, plan: &Plan, distances: &Distances)
    requires goes { GoesWith plan.now handset.old }
    requires belongs { plan.now.distances ≡ distances.now }
    requires node { node < nodes_of plan.now }
    requires room { HasRoom plan.now handset.old line.old }
    ensures goes { GoesWith plan.now handset.new }
    ensures its { handset.new.sub ≡ handset.old.sub }
    ensures rests { due (setting_of plan.now []) handset.new ≡ None }
    ensures stands { (starts : List ℕ) (steps : List Step) (made : ℕ) (later : List Write)
        → IsLeft plan.now starts handset.old steps made later
        → StandsForSteps (setting_of plan.now starts) handset.new steps (made + length later) }
    ensures line { (starts : List ℕ) (steps : List Step) (made : ℕ) (later : List Write)
        → IsLeft plan.now starts handset.old steps made later
        → line.new ≡ with_writes (setting_of plan.now []) node line.old later }
    ensures small { (starts : List ℕ) (steps : List Step) (made : ℕ) (later : List Write)
        → IsLeft plan.now starts handset.old steps made later
        → line.new.written ≤ line.old.written + length later * most_weight }
{
    mark_words();
    address_words();
    plan_is_sound(plan);
    'writes: while let Some(visit) = handset.next(plan) {
        line.written += act_weight(plan, distances, node, visit.act);
        line.purged += u64::from(is_purge(visit.act));
        handset.made(plan);
    }
}
