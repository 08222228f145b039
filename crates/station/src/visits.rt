//! Visits: a ticket is drawn inside a node, and what the act says is done there.
ghost use Rattle.std.specs.Prelude.{false, ◌≡◌, ◌≤◌, [], ◌<◌, ◌++◌, ◌∷◌, List, None, Some, IfSome, IsSome, MatchResult, OnOk, length, slice_get, suc};
ghost use Rattle.entry_word.specs.declared.visit.Act.TheVariants.{Census, Look, Put};
ghost use Rattle.directory.specs.Census.{census};
ghost use Rattle.directory.specs.Histories.{before, cell, puts_to};
ghost use Rattle.directory.specs.Keys.{act_node, key_node, key_sub};
ghost use Rattle.directory.specs.Legal.{IsLegal};
ghost use Rattle.directory.specs.Writes.{visits};
ghost use Rattle.handset.specs.Condition.{GoesWith};
ghost use Rattle.handset.specs.StepWrites.{after_write, due};
ghost use Rattle.region_plan.specs.Settings.{setting_of};
ghost use Rattle.station.specs.Handsets.{HandsetGoesOn, IsHandsetOf, put_of};
ghost use Rattle.station.specs.Passes.{IsPassOf};
ghost use Rattle.station.specs.Setup.{IsCellOf, nodes_in, setting_in, subs_in};
ghost use Rattle.station.specs.Visits.{HasLost, HasVisited, IsCensus, LosesTurn, Makes, MayDraw};
ghost use Rattle.station.specs.Plays.{view_inside};
ghost use Rattle.station.specs.Turns.{Logs};
ghost use Rattle.station.specs.declared.view.TurnEvent.{TurnEvent};
ghost use Rattle.station.specs.declared.view.TurnEvent.TheVariants.{Lost};
ghost use Rattle.station.specs.declared.view.View.{View};

use crate::pass::{Pass, keep_ticket};
use crate::tracker::Tracker;
use crate::turns::Held;
use crate::view::View;
use atomic_table::Seat;
use directory::{same_key_means, script_is_legal};
use entry_word::{Act, Key};
use handset::Handset;
use region_plan::Plan;

/// What a look found: the word of the cell at its ticket.
#[derive(Clone, Copy, PartialEq, Eq, Debug)]
pub struct Looked {
    pub ticket: u64,
    pub word: u64,
}

/// What a census found at its ticket: bit s of `who` is set where the subscriber s is at the node,
/// and so many bits are.
#[derive(Clone, Copy, PartialEq, Eq, Debug)]
pub struct CensusSeen {
    pub ticket: u64,
    pub who: u64,
    pub count: u32,
}

impl Tracker {
    /// Looks at a cell.
    /// While another pass is inside the node, one turn is lost, and nothing else changes.
    pub fn visit_look(&self, pass: &mut Pass, plan: &Plan, key: Key) -> Result<Looked, Held>
        requires of { IsPassOf self.now pass.old }
        requires plan { plan.now ≡ self.now.setup.plan }
        requires cell { IsCellOf self.now.setup key }
        requires outside { pass.old.view.inside ≡ None }
        requires spare { 1 ≤ pass.old.spare }
        ensures looked { MatchResult result
            (λ looked. HasVisited pass.old (Look key) looked.ticket pass.new
            × (looked.word ≡ cell (setting_in self.now.setup)
            (before looked.ticket pass.new.view.seen) key))
            (λ held. HasLost pass.old (key_node (setting_in self.now.setup) key) held pass.new) }
    {
        let node = self.node_of(plan, key);
        let actor = pass.actor;
        let ticket = self.draw(&mut pass.seat, actor, node, &Act::Look(key))?;
        let word = self.read_cell(&mut pass.seat, key);
        self.give_back(&mut pass.seat, node);
        keep_ticket(&mut pass.tickets, &mut pass.seen, &mut pass.spare, ticket);
        Ok(Looked { ticket, word })
    }

    /// Makes the put that a handset has next, and answers its ticket.
    /// While another pass is inside the node, one turn is lost, and nothing else changes.
    pub fn visit_put(
        &self,
        pass: &mut Pass,
        plan: &Plan,
        handset: &mut Handset,
    ) -> Result<u64, Held>
        requires of { IsPassOf self.now pass.old }
        requires plan { plan.now ≡ self.now.setup.plan }
        requires outside { pass.old.view.inside ≡ None }
        requires spare { 1 ≤ pass.old.spare }
        requires handset { IsHandsetOf self.now.setup pass.old.view handset.old }
        requires left { IsSome (due (setting_of plan.now []) handset.old) }
        ensures made { MatchResult result
            (λ ticket. IfSome (due (setting_of plan.now []) handset.old)
            (λ visit. HasVisited pass.old visit.act ticket pass.new)
            × (handset.new ≡ after_write (setting_of plan.now []) handset.old handset.old.stage)
            × IsHandsetOf self.now.setup pass.new.view handset.new)
            (λ held. IfSome (due (setting_of plan.now []) handset.old)
            (λ visit. HasLost pass.old (act_node (setting_in self.now.setup) visit.act) held
            pass.new)
            × (handset.new ≡ handset.old)) }
        ensures goes_on { OnOk result (IfSome (due (setting_of plan.now []) handset.old)
            (λ visit. (own : IsHandsetOf self.now.setup pass.old.view handset.old)
            → HandsetGoesOn self.now.setup pass.old.view pass.new.view handset.new own.steps
            visit)) }
    {
        let (key, word) = self.next_put(plan, handset);
        let node = self.node_of(plan, key);
        let actor = pass.actor;
        let ticket = self.make_put(&mut pass.seat, actor, node, key, word)?;
        keep_ticket(&mut pass.tickets, &mut pass.seen, &mut pass.spare, ticket);
        handset.made(plan);
        Ok(ticket)
    }

    /// Lists the subscribers that are at a node.
    /// While another pass is inside the node, one turn is lost, and nothing else changes.
    pub fn visit_census(&self, pass: &mut Pass, node: u32) -> Result<CensusSeen, Held>
        requires of { IsPassOf self.now pass.old }
        requires node { node < nodes_in self.now.setup }
        requires outside { pass.old.view.inside ≡ None }
        requires spare { 1 ≤ pass.old.spare }
        ensures seen { MatchResult result
            (λ seen. HasVisited pass.old (Census node) seen.ticket pass.new
            × IsCensus (census (setting_in self.now.setup)
            (before seen.ticket pass.new.view.seen) node) seen.who seen.count)
            (λ held. HasLost pass.old node held pass.new) }
    {
        let actor = pass.actor;
        let ticket = self.draw(&mut pass.seat, actor, node, &Act::Census(node))?;
        let who = self.list_here(&mut pass.seat, node);
        let count = self.count_here(&mut pass.seat, node);
        self.give_back(&mut pass.seat, node);
        keep_ticket(&mut pass.tickets, &mut pass.seen, &mut pass.spare, ticket);
        Ok(CensusSeen { ticket, who, count })
    }

    // What a handset puts next.
    fn next_put(&self, plan: &Plan, handset: &Handset) -> (Key, u64)
        requires plan { plan.now ≡ self.now.setup.plan }
        requires goes { GoesWith plan.now handset.now }
        requires left { IsSome (due (setting_of plan.now []) handset.now) }
        ensures due { due (setting_of plan.now []) handset.now
            ≡ Some (put_of handset.now.sub result.0 result.1) }
        ensures sub { key_sub result.0 ≡ handset.now.sub }
        ensures cell { handset.now.sub < subs_in self.now.setup
            → IsCellOf self.now.setup result.0 }
        ensures next { (view : View) (own : IsHandsetOf self.now.setup view handset.now)
            → slice_get (visits (setting_in self.now.setup) handset.now.sub own.steps)
            (length (puts_to view.low view.seen))
            ≡ Some (put_of handset.now.sub result.0 result.1) }
        ensures legal { (view : View) → IsHandsetOf self.now.setup view handset.now
            → IsLegal (setting_in self.now.setup) view.low
            (view.seen ++ put_of view.low result.0 result.1 ∷ []) }
    {
        script_is_legal();
        // The field tells the proof that nodes are few, and homes are clusters.
        let _ = &self.nodes;
        let Some(visit) = handset.next(plan) else {
            unreachable!()
        };
        let Act::Put(key, word) = visit.act else {
            unreachable!()
        };
        (key, word)
    }

    // Makes a put at its node, from its turn there to the turn given back.
    fn make_put(
        &self,
        seat: &mut Seat<Act, View>,
        actor: u32,
        node: u32,
        key: Key,
        word: u64,
    ) -> Result<u64, Held>
        requires table { seat.old.table_id ≡ self.now.table }
        requires setup { seat.old.me.0.setup ≡ self.now.setup }
        requires cell { IsCellOf self.now.setup key }
        requires node { node ≡ key_node (setting_in self.now.setup) key }
        requires inside { node < nodes_in self.now.setup }
        requires low { seat.old.me.0.low ≡ actor }
        requires high { seat.old.me.0.high ≡ suc actor }
        requires outside { seat.old.me.0.inside ≡ None }
        requires unwritten { seat.old.me.0.unwritten ≡ None }
        requires real { seat.old.me.0.is_spent ≡ false }
        requires may { (log : List TurnEvent) → MayDraw
            (view_inside seat.old.me.0 node (Put key word) log) node (Put key word) }
        ensures table { seat.new.table_id ≡ seat.old.table_id }
        ensures id { seat.new.id ≡ seat.old.id }
        ensures slots { seat.new.me.1 ≡ seat.old.me.1 }
        ensures made { MatchResult result
            (λ ticket. Makes seat.old.me.0 node (Put key word) ticket seat.new.me.0)
            (λ held. LosesTurn seat.old.me actor node held seat.new.me
            × Logs seat.old.me.0.turns (Lost actor node (suc held.by)) seat.new.me.0.turns) }
    {
        same_key_means();
        let ticket = self.draw(seat, actor, node, &Act::Put(key, word))?;
        self.put_there(seat, node, key, word);
        self.give_back(seat, node);
        Ok(ticket)
    }
}
