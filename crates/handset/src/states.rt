//! The state of a handset as words, and back.
ghost use Rattle.std.specs.Prelude.{◌≡◌, ◌<◌, ◌≤◌, ◌+◌, ◌*◌, ◌==◌, ◌++◌, ◌^◌, ℕ, IfOk, MatchResult, OnOk, Ok, length, map, nat_le, nat_lt, slice_index};
ghost use Rattle.std.specs.List.{list_all};
ghost use Rattle.region_plan.specs.Kept.{IsKept};
ghost use Rattle.region_plan.specs.Plan.{PlanData, levels_of, nodes_of};
ghost use Rattle.handset.specs.Condition.{GoesWith, begun_at, move_of};
ghost use Rattle.handset.specs.States.{IsRefusalOf, ReadWordsAreStates, StatesComeBack, checked, goes_together, handset_from, head_of, is_move_stage, names_nodes, narrow, nodes_on, stage_from, stage_kind, stage_part, state_fault, state_of, trail_from, truth_word, words_of};
ghost use Rattle.handset.specs.Trails.{flags};

use crate::fault::{StateFault, StateRefusal};
use crate::handset::Handset;
use crate::stage::{Journey, Stage};
use node_set::{NodeSet, set_is_sound};
use region_plan::{Plan, plan_is_sound};
use std::alloc::{AllocError, Global};

/// How many words of a state come before those of the levels.
const HEAD: usize = 11;

/// A state is read as the handset that it is of, and whatever is read as a handset is its state.
/// The call does nothing, and its clauses are laws.
pub fn states_come_back()
    ensures back { StatesComeBack }
    ensures only { ReadWordsAreStates }
{}

impl Handset {
    /// Its state as words: all that it is, so that `of_state` makes the same handset of them.
    pub fn state(&self, alloc: Global) -> Result<Vec<u64>, AllocError>
        ensures words { IfOk result (λ words. words.items ≡ words_of self.now) }
        ensures back { (plan : PlanData) → IsKept plan → GoesWith plan self.now
            → state_of plan (words_of self.now) ≡ Ok self.now }
    {
        self.comes_back();
        let head = self.head();
        let mut words = Vec::from_slice(alloc, &head)?;
        push_numbers(&mut words, &self.addresses)?;
        words.extend_from_slice(&self.gathered)?;
        push_nodes(&mut words, &self.trail)?;
        Ok(words)
    }

    /// How many words its state has.
    pub fn state_length(&self, plan: &Plan) -> u32
        requires goes { GoesWith plan.now self.now }
        ensures { result ≡ length (words_of self.now) }
    {
        // Levels and nodes are few.
        plan_is_sound(plan);
        set_is_sound(&self.trail);
        11 + 2 * plan.levels() + self.trail.count()
    }

    /// The handset whose state for a plan these words are.
    pub fn of_state(alloc: Global, plan: &Plan, words: &[u64]) -> Result<Handset, StateRefusal>
        ensures exact { MatchResult result (λ handset. state_of plan.now words.now ≡ Ok handset)
            (IsRefusalOf (state_of plan.now words.now)) }
        ensures goes { IfOk result (GoesWith plan.now) }
    {
        // Levels are few.
        plan_is_sound(plan);
        states_come_back();
        if words.len() < HEAD + 2 * plan.levels() as usize {
            return Err(StateRefusal::Fault(StateFault::Short));
        }
        let (head, rest) = words.split_at(HEAD);
        let handset = Handset::read(alloc, plan, head, rest)?;
        handset.checked(alloc, plan, words)
    }

    // It, if the words of which it was read are its own and it goes with the plan.
    fn checked(self, alloc: Global, plan: &Plan, words: &[u64]) -> Result<Handset, StateRefusal>
        ensures { MatchResult result (λ handset. checked plan.now words.now self ≡ Ok handset)
            (IsRefusalOf (checked plan.now words.now self)) }
    {
        let again = self.state(alloc)?;
        if again.as_slice() != words {
            return Err(StateRefusal::Fault(StateFault::Garbled));
        }
        match self.fault(plan) {
            Some(fault) => Err(StateRefusal::Fault(fault)),
            None => Ok(self),
        }
    }

    // Its words are read as it is, over a plan that it goes with. The call does nothing.
    fn comes_back(&self)
        ensures { (plan : PlanData) → IsKept plan → GoesWith plan self.now
            → state_of plan (words_of self.now) ≡ Ok self.now }
    {
        states_come_back();
        // This tells the proof that the subscriber is a number of 32 bits.
        self.sub();
    }

    // The words before those of the levels.
    fn head(&self) -> [u64; 11]
        ensures { result ≡ head_of self.now }
    {
        let Journey {
            number,
            from,
            to,
            weight,
            renewed,
        } = self.last;
        [
            u64::from(self.sub),
            u64::from(self.place),
            u64::from(self.number),
            u64::from(self.off),
            self.stage.kind(),
            self.stage.part(),
            u64::from(number),
            u64::from(from),
            u64::from(to),
            weight,
            u64::from(renewed),
        ]
    }

    // The handset that is read of words, whatever they are.
    fn read(alloc: Global, plan: &Plan, head: &[u64], rest: &[u64]) -> Result<Handset, AllocError>
        requires head { length head.now ≡ 11 }
        requires levels { 2 * levels_of plan.now ≤ length rest.now }
        ensures { IfOk result (λ handset. handset ≡ handset_from plan.now head.now rest.now) }
    {
        // Nodes are few.
        plan_is_sound(plan);
        let (addresses, rest) = rest.split_at(plan.levels() as usize);
        let (gathered, nodes) = rest.split_at(plan.levels() as usize);
        let addresses = numbers_of(alloc, addresses)?;
        let gathered = Vec::from_slice(alloc, gathered)?;
        let trail = trail_of(alloc, plan.nodes(), nodes)?;
        Ok(Handset {
            sub: narrow(head[0]),
            place: narrow(head[1]),
            number: narrow(head[2]),
            off: head[3] == 1,
            stage: Stage::of_words(head[4], narrow(head[5])),
            last: Journey {
                number: narrow(head[6]),
                from: narrow(head[7]),
                to: narrow(head[8]),
                weight: head[9],
                renewed: narrow(head[10]),
            },
            addresses,
            gathered,
            trail,
        })
    }

    // Why it doesn't go with a plan, if it doesn't.
    fn fault(&self, plan: &Plan) -> Option<StateFault>
        ensures { result ≡ state_fault plan.now self.now }
    {
        if !self.names_nodes(plan.nodes()) {
            return Some(StateFault::NoNode);
        }
        if !self.goes_together(plan) {
            return Some(StateFault::Mixed);
        }
        None
    }

    // Whether the nodes that it names are below a number.
    fn names_nodes(&self, nodes: u32) -> bool
        ensures { result ≡ names_nodes nodes self.now }
    {
        self.place < nodes
            && self.last.from < nodes
            && self.last.to < nodes
            && are_below(&self.addresses, nodes)
    }

    // Whether its levels, numbers and weights go with one another and the plan.
    fn goes_together(&self, plan: &Plan) -> bool
        ensures { result ≡ goes_together plan.now self.now }
    {
        self.last.renewed < plan.levels()
            && self.stage.is_of(self.last, plan.nodes())
            && u64::from(self.last.number) == self.stage.begun(self.number)
            && are_at_most(&self.gathered, u64::from(self.last.number) * (1 << 30))
    }
}

impl Stage {
    // Its kind, as a word.
    fn kind(self) -> u64
        ensures { result ≡ stage_kind self }
    {
        match self {
            Stage::Resting => 0,
            Stage::Coming => 1,
            Stage::Renewing { .. } => 2,
            Stage::Committing => 3,
            Stage::Confirming => 4,
            Stage::Erasing { .. } => 5,
            Stage::Purging { .. } => 6,
            Stage::Switching { .. } => 7,
        }
    }

    // The level, the node or the switch that it names, as a word.
    fn part(self) -> u64
        ensures { result ≡ stage_part self }
    {
        match self {
            Stage::Renewing { level } | Stage::Erasing { level } => u64::from(level),
            Stage::Purging { node } => u64::from(node),
            Stage::Switching { off } => u64::from(off),
            Stage::Resting | Stage::Coming | Stage::Committing | Stage::Confirming => 0,
        }
    }

    // The stage of a kind that names this. Of a kind that there isn't Resting is read.
    fn of_words(kind: u64, part: u32) -> Stage
        ensures { result ≡ stage_from kind part }
    {
        match kind {
            1 => Stage::Coming,
            2 => Stage::Renewing { level: part },
            3 => Stage::Committing,
            4 => Stage::Confirming,
            5 => Stage::Erasing { level: part },
            6 => Stage::Purging { node: part },
            7 => Stage::Switching { off: part == 1 },
            _ => Stage::Resting,
        }
    }

    // Whether its level is one of the move, and its node one of so many.
    fn is_of(self, last: Journey, nodes: u32) -> bool
        ensures { result ≡ is_move_stage nodes (move_of last) self }
    {
        match self {
            Stage::Renewing { level } | Stage::Erasing { level } => level <= last.renewed,
            Stage::Purging { node } => node < nodes,
            Stage::Resting
            | Stage::Coming
            | Stage::Committing
            | Stage::Confirming
            | Stage::Switching { .. } => true,
        }
    }

    // How many moves are begun, when so many are committed.
    fn begun(self, number: u32) -> u64
        ensures { result ≡ begun_at self number }
    {
        match self {
            Stage::Coming | Stage::Renewing { .. } | Stage::Committing => u64::from(number) + 1,
            Stage::Resting
            | Stage::Confirming
            | Stage::Erasing { .. }
            | Stage::Purging { .. }
            | Stage::Switching { .. } => u64::from(number),
        }
    }
}

// A number of 32 bits by its word. One that is too large is read as 0, which isn't written as it
// came.
fn narrow(word: u64) -> u32
    ensures { result ≡ narrow word }
{
    if word < 1 << 32 { word as u32 } else { 0 }
}

// Whether numbers are below a limit.
fn are_below(numbers: &[u32], limit: u32) -> bool
    ensures { result ≡ list_all (λ number. nat_lt number limit) numbers.now }
{
    numbers.iter().all(|number| *number < limit)
}

// Whether numbers are at most a limit.
fn are_at_most(numbers: &[u64], limit: u64) -> bool
    ensures { result ≡ list_all (λ number. nat_le number limit) numbers.now }
{
    numbers.iter().all(|number| *number <= limit)
}

// Numbers as words.
fn push_numbers(words: &mut Vec<u64>, numbers: &[u32]) -> Result<(), AllocError>
    ensures { OnOk result (words.new.items ≡ words.old.items ++ numbers.now) }
{
    for number in numbers {
        words.push(u64::from(*number))?;
    }
    Ok(())
}

// The nodes of a trail as words.
fn push_nodes(words: &mut Vec<u64>, trail: &NodeSet) -> Result<(), AllocError>
    ensures { OnOk result (words.new.items ≡ words.old.items ++ nodes_on (flags trail.now)) }
{
    for node in 0..trail.room() {
        if trail.has(node) {
            words.push(u64::from(node))?;
        }
    }
    Ok(())
}

// Numbers of 32 bits by their words.
fn numbers_of(alloc: Global, words: &[u64]) -> Result<Vec<u32>, AllocError>
    ensures { IfOk result (λ numbers. numbers.items ≡ map narrow words.now) }
{
    words.iter().map(|word| narrow(*word)).collect(alloc)
}

// The trail of those of so many nodes that have one of these words.
fn trail_of(alloc: Global, nodes: u32, words: &[u64]) -> Result<NodeSet, AllocError>
    requires { nodes ≤ 1024 }
    ensures { IfOk result (λ trail. flags trail ≡ trail_from nodes words.now) }
{
    let mut trail = NodeSet::empty(alloc, nodes)?;
    for word in words {
        if *word < u64::from(nodes) {
            trail.insert(*word as u32);
        }
    }
    Ok(trail)
}
