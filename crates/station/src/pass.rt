//! The token of one actor.
ghost use Rattle.std.specs.Prelude.{◌≡◌, ◌+◌, ◌<◌, ◌≤◌, ◌^◌, ◌++◌, ◌∷◌, [], if◌then◌else◌, length, max, slice_index, slice_set, suc, IsOk, OnErr, OnOk, ℕ};
ghost use Rattle.node_set.specs.Ascending.{has};
ghost use Rattle.std.specs.Vec.{vec_capacity};
ghost use Rattle.directory.specs.Histories.{own, tickets};
ghost use Rattle.station.specs.Passes.{actor_of, fresh_view};

use crate::view::View;
use atomic_table::Seat;
use entry_word::Act;
use net_graph::OutOfMemory;
use std::alloc::Global;
use std::marker::Model;

/// One actor's token. It can't be copied, so that an actor makes one visit at a time, whichever
/// thread has its pass. A thread gives the passes of its actors back when it is done, since `close`
/// wants them all.
///
/// ```text
/// pass.reserve(100 * plan.most_looks(from))?;     // room for a hundred finds from there
/// ```
#[derive(Drop)]
pub struct Pass {
    pub(crate) seat: Seat<Act, View>,
    pub(crate) actor: u32,
    pub(crate) seen: u64,
    pub(crate) spare: u64,
    pub(crate) tickets: Vec<u64>,
}

impl Model for Pass {
    ghost use Rattle.std.specs.Prelude.{◌≡◌};
    ghost use Rattle.std.specs.Vec.{vec_capacity};
    ghost use Rattle.station.specs.Passes.{PassData, IsPass};

    ghost Value = { PassData };

    ghost view = { λ p. record {
      table = p.seat.table_id;
      seat = p.seat.id;
      view = p.seat.me.0;
      spare = p.spare;
    } };

    ghost invariant = { λ p. IsPass p.seat.me p.actor p.seen p.spare p.tickets.items
        (vec_capacity p.tickets) };
}

impl Pass {
    // The pass of an actor that has done nothing.
    pub(crate) fn of(alloc: Global, seat: Seat<Act, View>, actor: u32) -> Pass
        requires { seat.me ≡ (fresh_view seat.me.0.setup actor, []) }
        ensures { result ≡ record {
          table = seat.table_id;
          seat = seat.id;
          view = seat.me.0;
          spare = 0;
        } }
    {
        Pass {
            seat,
            actor,
            seen: 0,
            spare: 0,
            tickets: Vec::new(alloc),
        }
    }

    /// Whose pass it is.
    pub fn actor(&self) -> u32
        ensures { result ≡ actor_of self.now }
    {
        self.actor
    }

    /// How many more visits it has room for.
    pub fn spare(&self) -> u64
        ensures { result ≡ self.now.spare }
    {
        self.spare
    }

    // Writes the actor at its tickets.
    pub(crate) fn stamp(&self, order: &mut [u32])
        requires room { length self.now.view.seen ≤ length order.old }
        ensures size { length order.new ≡ length order.old }
        ensures stamped { (i : ℕ) → slice_index order.new i
            ≡ (if has i (tickets (actor_of self.now) self.now.view.seen) then actor_of self.now
            else slice_index order.old i) }
    {
        for k in 0..self.tickets.len() {
            write_at(order, self.tickets[k] as usize, self.actor);
        }
    }

    /// Sees to room for so many visits from here on; room that is there counts, and takes no
    /// memory. Without memory the pass is as before. A find wants `Plan::most_looks` of its node, a
    /// move `Plan::most_writes`, a switch and a census 1 each. A visit takes 8 bytes until the
    /// tracker is closed.
    pub fn reserve(&mut self, visits: u64) -> Result<(), OutOfMemory>
        requires few { length (own (actor_of self.old) self.old.view.seen) + visits ≤ 2 ^ 56 }
        ensures room { OnOk result (self.new
            ≡ record self.old { spare = max self.old.spare visits }) }
        ensures refused { OnErr result (self.new ≡ self.old) }
        ensures there { visits ≤ self.old.spare → IsOk result }
    {
        if self.spare < visits {
            self.tickets.reserve(visits as usize)?;
            self.spare = visits;
        }
        Ok(())
    }

    /// How many visits of the history it knows of.
    pub fn seen(&self) -> u64
        ensures { result ≡ length self.now.view.seen }
    {
        self.seen
    }
}

// A pass keeps the ticket of a visit that it has made.
pub fn keep_ticket(tickets: &mut Vec<u64>, seen: &mut u64, spare: &mut u64, ticket: u64)
    requires room { length tickets.old.items + spare.old ≤ vec_capacity tickets.old }
    requires some { 1 ≤ spare.old }
    requires small { ticket ≤ 2 ^ 63 }
    ensures tickets { tickets.new.items ≡ tickets.old.items ++ ticket ∷ [] }
    ensures room { vec_capacity tickets.new ≡ vec_capacity tickets.old }
    ensures seen { seen.new ≡ suc ticket }
    ensures spare { spare.new + 1 ≡ spare.old }
{
    tickets.push_reserved(ticket);
    *seen = ticket + 1;
    *spare -= 1;
}

// Writes an actor at a ticket.
fn write_at(order: &mut [u32], ticket: usize, actor: u32)
    requires { ticket < length order.old }
    ensures { order.new ≡ slice_set order.old ticket actor }
{
    order[ticket] = actor;
}
