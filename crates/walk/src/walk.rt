//! A find under way.
ghost use Rattle.std.specs.Prelude.{◌≡◌, ◌++◌, ◌∷◌, [], ℕ, true, List, IfOk, IfSome};
ghost use Rattle.std.specs.Option.{is_some};
ghost use Rattle.directory.specs.Finds.{after_word, answer_of, key_of};
ghost use Rattle.region_plan.specs.Plan.{PlanData, nodes_of};
ghost use Rattle.region_plan.specs.Settings.{setting_of};
ghost use Rattle.walk.specs.Climbs.{IsClimbOf, IsClimbOver, is_climbing, walk_at};
ghost use Rattle.walk.specs.Walks.{IsWalkOver, IsWordBelow, StandsForWords, call_of, pursuit_of, walk_or_fault};

use crate::progress::{Climb, Progress};
use crate::steps::progress_after;
use directory::Found;
use distances::Distances;
use entry_word::Key;
use region_plan::Plan;
use std::marker::Model;

/// Why a find can't begin: the first of these that holds.
#[derive(Clone, Copy, PartialEq, Eq, Debug)]
pub enum WalkFault {
    /// There is no such node.
    NoNode,
    /// There is no such subscriber.
    NoSubscriber,
}

/// A find of a subscriber from a node. It goes with the plan that it was made for.
#[derive(Clone, Copy)]
pub struct Walk {
    from: u32,
    sub: u32,
    progress: Progress,
}

impl Model for Walk {
    ghost use Rattle.walk.specs.Walks.{WalkData};

    ghost Value = { WalkData };

    ghost view = { λ w. record { from = w.from; sub = w.sub; progress = w.progress } };

    ghost inverse = { λ w. record { from = w.from; sub = w.sub; progress = w.progress } };
}

impl Walk {
    /// A find of `sub`, one of so many subscribers, from a node.
    pub fn new(from: u32, sub: u32, subs: u32, plan: &Plan) -> Result<Walk, WalkFault>
        ensures faults { result ≡ walk_or_fault plan.now from sub subs }
        ensures goes { IfOk result (IsWalkOver plan.now) }
        ensures stands { IfOk result (λ walk. StandsForWords plan.now walk []) }
    {
        if from >= plan.nodes() {
            return Err(WalkFault::NoNode);
        }
        if sub >= subs {
            return Err(WalkFault::NoSubscriber);
        }
        Ok(Walk {
            from,
            sub,
            progress: Progress::AtOrigin,
        })
    }

    /// The cell that it looks at next, if it has no answer.
    pub fn next(&self, plan: &Plan) -> Option<Key>
        requires goes { IsWalkOver plan.now self.now }
        ensures { result ≡ key_of (call_of self.now) (pursuit_of plan.now self.now) }
    {
        let sub = self.sub;
        match self.progress {
            Progress::AtOrigin => Some(Key::Presence {
                node: self.from,
                sub,
            }),
            Progress::Climbing { level, index, .. } => {
                let cluster = plan.readers(level, self.from)[index as usize];
                Some(Key::Entry {
                    level,
                    cluster,
                    sub,
                })
            }
            Progress::Chasing { node, .. } => Some(Key::Presence { node, sub }),
            Progress::Ended { .. } => None,
        }
    }

    /// The answer, if no look is left.
    pub fn answer(&self) -> Option<Found>
        ensures { (plan : PlanData) → IsWalkOver plan self.now → result
            ≡ answer_of (pursuit_of plan self.now) }
    {
        match self.progress {
            Progress::Ended { found } => Some(found),
            Progress::AtOrigin => None,
            Progress::Climbing { .. } => None,
            Progress::Chasing { .. } => None,
        }
    }

    /// Its subscriber.
    pub fn sub(&self) -> u32
        ensures { result ≡ self.now.sub }
    {
        self.sub
    }

    /// Its climb, if it is at an entry.
    pub fn climb(&self) -> Option<Climb>
        ensures some { is_some result ≡ is_climbing self.now.progress }
        ensures is { IfSome result (IsClimbOf self.now) }
        ensures over { (plan : PlanData) → IsWalkOver plan self.now
            → IfSome result (IsClimbOver plan) }
    {
        match self.progress {
            Progress::Climbing {
                known,
                weight,
                level,
                index,
            } => Some(Climb {
                from: self.from,
                known,
                weight,
                level,
                index,
            }),
            Progress::AtOrigin => None,
            Progress::Chasing { .. } => None,
            Progress::Ended { .. } => None,
        }
    }

    /// Goes on where a climb of its own is: all looks that the climb passed count as made.
    pub fn resume(&mut self, climb: Climb)
        requires own { climb.from ≡ self.old.from }
        ensures exact { self.new ≡ walk_at self.old climb }
        ensures goes { (plan : PlanData) → IsClimbOver plan climb → IsWalkOver plan self.new }
    {
        self.progress = Progress::Climbing {
            known: climb.known,
            weight: climb.weight,
            level: climb.level,
            index: climb.index,
        };
    }

    /// The look that came next read this word.
    pub fn saw(&mut self, plan: &Plan, distances: &Distances, word: u64)
        requires goes { IsWalkOver plan.now self.old }
        requires belongs { plan.now.distances ≡ distances.now }
        requires word { IsWordBelow (nodes_of plan.now) self.old.progress word }
        ensures pursuit { pursuit_of plan.now self.new ≡ after_word (setting_of plan.now [])
            (call_of self.old) (pursuit_of plan.now self.old) word }
        ensures call { call_of self.new ≡ call_of self.old }
        ensures goes { IsWalkOver plan.now self.new }
        ensures stands { (words : List ℕ) → StandsForWords plan.now self.old words
            → StandsForWords plan.now self.new (words ++ word ∷ []) }
    {
        self.step(plan, distances, word);
    }

    // One more word.
    fn step(&mut self, plan: &Plan, distances: &Distances, word: u64)
        requires goes { IsWalkOver plan.now self.old }
        requires belongs { plan.now.distances ≡ distances.now }
        requires word { IsWordBelow (nodes_of plan.now) self.old.progress word }
        ensures pursuit { pursuit_of plan.now self.new ≡ after_word (setting_of plan.now [])
            (call_of self.old) (pursuit_of plan.now self.old) word }
        ensures call { call_of self.new ≡ call_of self.old }
        ensures goes { IsWalkOver plan.now self.new }
    {
        self.progress = progress_after(plan, distances, self.from, self.progress, word);
    }
}
