//! What a tracker is told when it is made, and what each seat knows.
ghost use Rattle.std.specs.Prelude.{◌≡◌};
ghost use Rattle.station.specs.Opening.{setup_of};

use entry_word::{Act, Key, Visit};
use region_plan::Plan;
use std::collections::LinkedList;
use std::marker::Model;
use std::snapshot::Snapshot;

/// What a tracker is told when it is made. It has no bytes but the number of actors.
#[derive(Drop)]
pub struct About {
    plan: Snapshot<Plan>,
    homes: Snapshot<Vec<u32>>,
    actors: u32,
}

impl Model for About {
    ghost use Rattle.station.specs.Setup.{Setup};

    ghost Value = { Setup };

    ghost view = { λ a. record {
      plan = a.plan.value;
      homes = a.homes.value.items;
      actors = a.actors;
    } };
}

impl About {
    pub fn new(plan: &Plan, homes: &Vec<u32>, actors: u32) -> About
        ensures { result ≡ setup_of plan.now homes.now.items actors }
    {
        About {
            plan: Snapshot::of(plan),
            homes: Snapshot::of(homes),
            actors,
        }
    }
}

// A turn at a node: the node, and the word that its lock holds while it lasts.
pub struct NodeTurn {
    pub node: u32,
    pub word: u64,
}

// What an actor does at the lock of a node: it wins the turn, it gives it back, or it reads that
// the turn is another's, and has lost one.
pub enum TurnEvent {
    Won { actor: u64, node: u64 },
    GivenBack { actor: u64, node: u64 },
    Lost { actor: u64, node: u64, word: u64 },
}

// What a seat knows. No value of it is made.
pub struct View {
    pub setup: About,
    // It was joined into another.
    pub is_spent: bool,
    // The actors that it stands for, from the lowest on, up to another.
    pub low: u64,
    pub high: u64,
    // The history that it has seen, another that it was told, and the one that it had seen before.
    pub seen: LinkedList<Visit>,
    pub told: LinkedList<Visit>,
    pub had: LinkedList<Visit>,
    // The node that it is inside, and the act that it means to do there.
    pub inside: Option<u64>,
    pub intended: Option<Act>,
    // Whether it has drawn its ticket there, and how many visits there were with its own.
    pub has_drawn: bool,
    pub visit_count: u64,
    // The put that isn't written yet, and the word before it.
    pub unwritten: Option<Key>,
    pub before: u64,
    // Whether the tally isn't written yet, and the tally before.
    pub owes: bool,
    pub tally: u64,
    // The log of all turns, up to the last event of its own, and the turns that it has lost.
    pub turns: LinkedList<TurnEvent>,
    pub lost: LinkedList<NodeTurn>,
}
