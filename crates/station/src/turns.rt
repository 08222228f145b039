//! The turn at a node: it is won or lost, and given back.
ghost use Rattle.std.specs.Prelude.{◌≡◌, ◌<◌, List, suc, false, Some, None, MatchResult};
ghost use Rattle.entry_word.specs.declared.visit.Act.TheVariants.{Census};
ghost use Rattle.station.specs.Passes.{IsPassOf, IsStayOf, actor_of};
ghost use Rattle.station.specs.Moments.{EventsComeNow, EventsComeWithinCalls, LostTurnsAreRead};
ghost use Rattle.station.specs.Turns.{Logs};
ghost use Rattle.station.specs.declared.view.TurnEvent.{TurnEvent};
ghost use Rattle.station.specs.declared.view.TurnEvent.TheVariants.{GivenBack, Lost, Won};
ghost use Rattle.station.specs.Visits.{HasLost, LosesTurn, MayDraw};
ghost use Rattle.station.specs.Plays.{Draws, view_inside, view_outside};
ghost use Rattle.station.specs.Setup.{nodes_in};

use crate::pass::Pass;
use crate::rule::{DrawTicket, Leave, Turn};
use crate::tracker::Tracker;
use crate::view::View;
use atomic_table::Seat;
use directory::same_key_means;
use entry_word::Act;
use visit_log::cell_numbers;

/// Another pass was inside the node: that of the actor `by` of the tracker. Nothing else has
/// happened, so that the same call may be made again at once.
#[derive(Clone, Copy, PartialEq, Eq, Debug)]
pub struct Held {
    pub node: u32,
    pub by: u32,
}

/// The pass of an actor is inside a node. A stay must be spent.
pub struct Stay {
    node: u32,
    actor: u32,
}

impl Tracker {
    /// Enters a node, unless another pass is inside. No ticket is drawn.
    pub fn enter(&self, pass: &mut Pass, node: u32) -> Result<Stay, Held>
        requires of { IsPassOf self.now pass.old }
        requires node { node < nodes_in self.now.setup }
        requires outside { pass.old.view.inside ≡ None }
        ensures stay { MatchResult result
            (λ stay. IsStayOf stay pass.new
            × (pass.new ≡ record pass.old {
              view = view_inside pass.old.view node (Census node)
                  pass.new.view.turns;
            })
            × Logs pass.old.view.turns (Won (actor_of pass.old) node) pass.new.view.turns)
            (λ held. HasLost pass.old node held pass.new) }
    {
        let actor = pass.actor;
        self.turn(&mut pass.seat, actor, node, &Act::Census(node))?;
        Ok(Stay { node, actor })
    }

    /// Leaves the node that the pass is inside.
    pub fn leave(&self, pass: &mut Pass, stay: Stay)
        requires of { IsPassOf self.now pass.old }
        requires stay { IsStayOf stay pass.old }
        ensures left { pass.new
            ≡ record pass.old { view = view_outside pass.old.view pass.new.view.turns } }
        ensures logs { Logs pass.old.view.turns (GivenBack (actor_of pass.old) stay.node)
            pass.new.view.turns }
    {
        let Stay { node, actor: _ } = stay;
        self.give_back(&mut pass.seat, node);
    }

    // Takes the turn at a node, to do an act there.
    pub(crate) fn turn(
        &self,
        seat: &mut Seat<Act, View>,
        actor: u32,
        node: u32,
        act: &Act,
    ) -> Result<(), Held>
        requires table { seat.old.table_id ≡ self.now.table }
        requires node { node < nodes_in self.now.setup }
        requires low { seat.old.me.0.low ≡ actor }
        requires high { seat.old.me.0.high ≡ suc actor }
        requires outside { seat.old.me.0.inside ≡ None }
        requires unwritten { seat.old.me.0.unwritten ≡ None }
        requires real { seat.old.me.0.is_spent ≡ false }
        ensures table { seat.new.table_id ≡ seat.old.table_id }
        ensures id { seat.new.id ≡ seat.old.id }
        ensures turn { MatchResult result
            (λ _. seat.new.me ≡ (
              view_inside seat.old.me.0 node act.now seat.new.me.0.turns,
              seat.old.me.1,
            ))
            (λ held. LosesTurn seat.old.me actor node held seat.new.me) }
        ensures logs { MatchResult result
            (λ _. Logs seat.old.me.0.turns (Won actor node) seat.new.me.0.turns)
            (λ held. Logs seat.old.me.0.turns (Lost actor node (suc held.by)) seat.new.me.0.turns) }
    {
        cell_numbers();
        let place = self.lock_place(node);
        let mine = u64::from(actor) + 1;
        let shared = &self.table.shared;
        let found = shared.compare_exchange_with::<Turn>(seat, place, 0, mine, act);
        if found == 0 {
            return Ok(());
        }
        Err(Held {
            node,
            by: (found - 1) as u32,
        })
    }

    // Takes the turn at a node, and draws the ticket of an act there.
    pub(crate) fn draw(
        &self,
        seat: &mut Seat<Act, View>,
        actor: u32,
        node: u32,
        act: &Act,
    ) -> Result<u64, Held>
        requires table { seat.old.table_id ≡ self.now.table }
        requires setup { seat.old.me.0.setup ≡ self.now.setup }
        requires node { node < nodes_in self.now.setup }
        requires low { seat.old.me.0.low ≡ actor }
        requires high { seat.old.me.0.high ≡ suc actor }
        requires outside { seat.old.me.0.inside ≡ None }
        requires unwritten { seat.old.me.0.unwritten ≡ None }
        requires real { seat.old.me.0.is_spent ≡ false }
        requires may { (log : List TurnEvent)
            → MayDraw (view_inside seat.old.me.0 node act.now log) node act.now }
        ensures table { seat.new.table_id ≡ seat.old.table_id }
        ensures id { seat.new.id ≡ seat.old.id }
        ensures slots { seat.new.me.1 ≡ seat.old.me.1 }
        ensures drawn { MatchResult result
            (λ ticket. Draws
            (view_inside seat.old.me.0 node act.now seat.new.me.0.turns) node act.now ticket
            seat.new.me.0)
            (λ held. LosesTurn seat.old.me actor node held seat.new.me) }
        ensures logs { MatchResult result
            (λ _. Logs seat.old.me.0.turns (Won actor node) seat.new.me.0.turns)
            (λ held. Logs seat.old.me.0.turns (Lost actor node (suc held.by)) seat.new.me.0.turns) }
    {
        same_key_means();
        self.turn(seat, actor, node, act)?;
        Ok(self.table.shared.fetch_add::<DrawTicket>(seat, 0, 1))
    }

    // Gives the turn at a node back.
    pub(crate) fn give_back(&self, seat: &mut Seat<Act, View>, node: u32)
        requires table { seat.old.table_id ≡ self.now.table }
        requires node { node < nodes_in self.now.setup }
        requires inside { seat.old.me.0.inside ≡ Some node }
        requires unwritten { seat.old.me.0.unwritten ≡ None }
        requires clear { seat.old.me.0.owes ≡ false }
        ensures table { seat.new.table_id ≡ seat.old.table_id }
        ensures id { seat.new.id ≡ seat.old.id }
        ensures left { seat.new.me
            ≡ (view_outside seat.old.me.0 seat.new.me.0.turns, seat.old.me.1) }
        ensures logs { Logs seat.old.me.0.turns (GivenBack seat.old.me.0.low node)
            seat.new.me.0.turns }
    {
        cell_numbers();
        let place = self.lock_place(node);
        self.table.shared.store::<Leave>(seat, place, 0);
    }
}

/// An event comes into the log of turns at the very step that brings it: just before that step each
/// lock word is as the log until then leaves it. So where a call tells that a turn was lost, at one
/// of its steps the lock word named the other actor, whose pass was inside the node.
pub fn events_come_now()
    ensures { EventsComeNow }
{}

/// The rule allows no step to tell a turn as lost, whatever the step does, unless the lock word is
/// the one that it tells, another actor's, in each state in which it tells so. A step that names an
/// actor without having read its lock can't be proved.
pub fn lost_turns_are_read()
    ensures { LostTurnsAreRead }
{}

/// Each event that a pass has logged in a whole call came at one of the call's own steps, and just
/// before that step the locks were as the event says: where the call tells that a turn was lost,
/// the pass of the other actor was inside the node, and where it made a visit, no other pass was.
pub fn events_come_within_calls()
    ensures { EventsComeWithinCalls }
{}
