//! A subscriber's handset.
ghost use Rattle.std.specs.Prelude.{◌≡◌, ◌<◌, ◌≤◌, ◌+◌, ◌-◌, ◌^◌, ◌++◌, ◌∷◌, [], ℕ, List, false, ◌==◌, if◌then◌else◌, IfOk, OnOk, OnErr, None, Some, MatchResult, slice_index, take};
ghost use Rattle.directory.specs.Settings.{Setting};
ghost use Rattle.directory.specs.Courses.{Step, move_to};
ghost use Rattle.directory.specs.Histories.{History, puts_to};
ghost use Rattle.directory.specs.Standing.{number, off, standing};
ghost use Rattle.directory.specs.Writes.{visits};
ghost use Rattle.region_plan.specs.Plan.{PlanData, home, nodes_of};
ghost use Rattle.region_plan.specs.Kept.{IsKept};
ghost use Rattle.region_plan.specs.Settings.{setting_of};
ghost use Rattle.handset.specs.Condition.{GoesWith};
ghost use Rattle.handset.specs.Stands.{StandsForSteps, switch_to};
ghost use Rattle.handset.specs.Beginning.{begin_move, handset_at, move_fault, switch_fault};

use crate::fault::{MoveFault, SwitchFault};
use crate::levels::{gather, renewal};
use crate::stage::{Journey, Stage};
use crate::trail::trail_at;
use directory::levels_after_move;
use distances::Distances;
use node_set::NodeSet;
use region_plan::{Plan, plan_is_sound};
use std::alloc::{AllocError, Global};
use std::marker::Model;

/// One subscriber's own state. It goes with the plan that it was made for.
#[derive(Drop)]
pub struct Handset {
    pub(crate) sub: u32,
    pub(crate) place: u32,
    pub(crate) number: u32,
    pub(crate) off: bool,
    pub(crate) stage: Stage,
    pub(crate) last: Journey,
    pub(crate) addresses: Vec<u32>,
    pub(crate) gathered: Vec<u64>,
    pub(crate) trail: NodeSet,
}

impl Model for Handset {
    ghost use Rattle.handset.specs.Condition.{HandsetData, move_of};
    ghost use Rattle.handset.specs.Trails.{flags};

    ghost Value = { HandsetData };

    ghost view = { λ h. record {
      sub = h.sub;
      place = h.place;
      number = h.number;
      is_off = h.off;
      stage = h.stage;
      last = move_of h.last;
      addresses = h.addresses.items;
      gathered = h.gathered.items;
      trail = flags h.trail;
    } };
}

impl Handset {
    /// A handset at rest at its start node, with number 0.
    pub fn new(alloc: Global, sub: u32, home: u32, plan: &Plan) -> Result<Handset, AllocError>
        requires node { home < nodes_of plan.now }
        ensures exact { IfOk result (λ handset. handset ≡ handset_at plan.now sub home) }
        ensures goes { IfOk result (GoesWith plan.now) }
        ensures stands { IfOk result (λ handset. (starts : List ℕ) → slice_index starts sub ≡ home
            → StandsForSteps (setting_of plan.now starts) handset [] 0) }
    {
        let handset = Handset::at_home(alloc, sub, home, plan)?;
        Ok(handset)
    }

    /// Begins a move.
    pub fn begin(&mut self, plan: &Plan, distances: &Distances, to: u32) -> Result<(), MoveFault>
        requires goes { GoesWith plan.now self.old }
        requires belongs { plan.now.distances ≡ distances.now }
        ensures faults { MatchResult result (λ _. move_fault plan.now self.old to ≡ None)
            (λ fault. move_fault plan.now self.old to ≡ Some fault) }
        ensures refused { OnErr result (self.new ≡ self.old) }
        ensures exact { OnOk result (self.new ≡ begin_move (setting_of plan.now []) self.old to) }
        ensures goes { GoesWith plan.now self.new }
        ensures stands { OnOk result ((starts : List ℕ) (steps : List Step) (made : ℕ)
            → StandsForSteps (setting_of plan.now starts) self.old steps made
            → StandsForSteps (setting_of plan.now starts) self.new (steps ++ move_to to ∷ [])
            made) }
    {
        levels_after_move();
        if to >= plan.nodes() {
            return Err(MoveFault::NoNode);
        }
        if to == self.place {
            return Err(MoveFault::SamePlace);
        }
        if !self.stage.is_rest() {
            return Err(MoveFault::UnderWay);
        }
        if self.off {
            return Err(MoveFault::IsOff);
        }
        if self.number == u32::MAX {
            return Err(MoveFault::NumbersSpent);
        }
        self.start(plan, distances, to);
        Ok(())
    }

    /// Begins a switch off or on.
    pub fn switch(&mut self, off: bool) -> Result<(), SwitchFault>
        ensures faults { MatchResult result (λ _. switch_fault self.old off ≡ None)
            (λ fault. switch_fault self.old off ≡ Some fault) }
        ensures refused { OnErr result (self.new ≡ self.old) }
        ensures exact { OnOk result (self.new ≡ record self.old { stage = Stage.Switching off }) }
        ensures goes { (plan : PlanData) → GoesWith plan self.old → GoesWith plan self.new }
        ensures stands { OnOk result ((setting : Setting) (steps : List Step) (made : ℕ)
            → StandsForSteps setting self.old steps made
            → StandsForSteps setting self.new (steps ++ switch_to off ∷ []) made) }
    {
        if !self.stage.is_rest() {
            return Err(SwitchFault::UnderWay);
        }
        if self.off == off {
            return Err(SwitchFault::Already);
        }
        self.stage = Stage::Switching { off };
        Ok(())
    }

    /// Where the subscriber stands, by the commits made.
    pub fn place(&self) -> u32
        ensures kept { result ≡ self.now.place }
        ensures shown { (setting : Setting) (steps : List Step) (made : ℕ) (history : History)
            → StandsForSteps setting self.now steps made
            → puts_to self.now.sub history ≡ take made (visits setting self.now.sub steps)
            → result ≡ standing setting self.now.sub history }
    {
        self.place
    }

    /// The number of the subscriber's moves, by the commits made.
    pub fn number(&self) -> u32
        ensures kept { result ≡ self.now.number }
        ensures shown { (setting : Setting) (steps : List Step) (made : ℕ) (history : History)
            → StandsForSteps setting self.now steps made
            → puts_to self.now.sub history ≡ take made (visits setting self.now.sub steps)
            → result ≡ number self.now.sub history }
    {
        self.number
    }

    /// Whether the subscriber is off, by the writes made.
    pub fn is_off(&self) -> bool
        ensures kept { result ≡ self.now.is_off }
        ensures shown { (setting : Setting) (steps : List Step) (made : ℕ) (history : History)
            → StandsForSteps setting self.now steps made
            → puts_to self.now.sub history ≡ take made (visits setting self.now.sub steps)
            → result ≡ off self.now.sub history }
    {
        self.off
    }

    /// The subscriber.
    pub fn sub(&self) -> u32
        ensures { result ≡ self.now.sub }
    {
        self.sub
    }

    /// The weight of the move that was begun last, 0 before any.
    pub fn weight(&self) -> u64
        ensures kept { result ≡ self.now.last.weight }
    {
        self.last.weight
    }

    // A handset at rest at a node.
    fn at_home(alloc: Global, sub: u32, home: u32, plan: &Plan) -> Result<Handset, AllocError>
        requires node { home < nodes_of plan.now }
        ensures exact { IfOk result (λ handset. handset ≡ handset_at plan.now sub home) }
        ensures goes { IfOk result (GoesWith plan.now) }
        ensures kept { IfOk result (λ _. IsKept plan.now) }
    {
        let addresses = vec![in alloc; home; plan.levels() as usize]?;
        let gathered = vec![in alloc; 0u64; plan.levels() as usize]?;
        let trail = trail_at(alloc, plan.nodes(), home)?;
        Ok(Handset {
            sub,
            place: home,
            number: 0,
            off: false,
            stage: Stage::Resting,
            last: Journey {
                number: 0,
                from: home,
                to: home,
                weight: 0,
                renewed: 0,
            },
            addresses,
            gathered,
            trail,
        })
    }

    // Begins a move that may come next.
    fn start(&mut self, plan: &Plan, distances: &Distances, to: u32)
        requires goes { GoesWith plan.now self.old }
        requires belongs { plan.now.distances ≡ distances.now }
        requires node { to < nodes_of plan.now }
        requires counted { self.old.last.number ≤ self.old.number }
        requires few { self.old.number + 1 < 2 ^ 32 }
        ensures { self.new ≡ begin_move (setting_of plan.now []) self.old to }
    {
        // Distances are small.
        plan_is_sound(plan);
        let weight = distances.between(self.place, to);
        let renewed = renewal(plan, &self.gathered, weight);
        gather(&mut self.gathered, renewed, weight);
        self.last = Journey {
            number: self.number + 1,
            from: self.place,
            to,
            weight,
            renewed,
        };
        self.stage = Stage::Coming;
    }
}
