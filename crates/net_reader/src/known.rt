//! What the lines have said so far.
ghost use Rattle.std.specs.Prelude.{◌≡◌, ◌<◌, ◌≤◌, ◌^◌, ◌++◌, [], ◌∷◌, false, length, nat_le, not, Some, Err, is_ok, IfOk, IfSome, IfNone, IsTrue};
ghost use Rattle.std.specs.List.{list_any};
ghost use Rattle.net_reader.specs.Table.{most_calls, most_nodes};
ghost use Rattle.net_reader.specs.Rows.{judge_word, row_of, verdict, track_row, nodes_row, k_row, edge_row, sub_row, callers_row, move_row, find_row, switch_row, order_row};
ghost use Rattle.net_reader.specs.Said.{nothing};
ghost use Rattle.net_reader.specs.Steps.{word_in};
ghost use Rattle.net_reader.specs.Seen.{seen_known, KeepsLimits, Judges};
ghost use Rattle.net_reader.specs.Whole.{HearsOrder};

use crate::fault::InputCause;
use crate::room::push;
use crate::said::{Call, Spoken};
use crate::stop::Stop;
use crate::whole::push_line;
use crate::word::{Place, Word, may_follow, word_in};
use net_graph::{Edge, MAX_WEIGHT};
use std::alloc::{AllocError, Global};

const MAX_EDGES: usize = 32_768;

const MAX_SUBS: usize = 64;

const MAX_CALLERS: u64 = 64;

const MAX_ORDER: usize = 64;

/// What was read so far.
#[derive(Drop)]
pub(crate) struct Known {
    pub(crate) place: Place,
    pub(crate) format: u32,
    pub(crate) nodes: u32,
    pub(crate) k: u32,
    pub(crate) edges: Vec<Edge>,
    pub(crate) homes: Vec<u32>,
    pub(crate) callers: u32,
    pub(crate) calls: Vec<Spoken>,
    pub(crate) order: Vec<u32>,
    pub(crate) places: Vec<u32>,
    pub(crate) off: Vec<bool>,
}

fn most_nodes(format: u32) -> u64
    ensures { result ≡ most_nodes format }
{
    if format == 2 { 1024 } else { 256 }
}

fn most_calls(format: u32) -> usize
    ensures { result ≡ most_calls format }
{
    if format == 2 { 16_384 } else { 8_192 }
}

// Adds these numbers where all of them are below the limit, and says whether they are.
fn push_known(order: &mut Vec<u32>, limit: u64, numbers: &[u64]) -> Result<bool, AllocError>
    requires { limit ≤ 2 ^ 32 }
    ensures known { IfOk result (λ known. known
        ≡ not (list_any (λ number. nat_le limit number) numbers.now)) }
    ensures taken { IfOk result (λ known. IsTrue known → order.new.items
        ≡ order.old.items ++ numbers.now) }
{
    for &number in numbers {
        if number >= limit {
            return Ok(false);
        }
        order.push(number as u32)?;
    }
    Ok(true)
}

impl Known {
    pub(crate) fn new(alloc: Global) -> Known
        ensures nothing { seen_known result ≡ nothing }
        ensures kept { KeepsLimits result }
    {
        Known {
            place: Place::Start,
            format: 0,
            nodes: 0,
            k: 0,
            edges: Vec::new(alloc),
            homes: Vec::new(alloc),
            callers: 0,
            calls: Vec::new(alloc),
            order: Vec::new(alloc),
            places: Vec::new(alloc),
            off: Vec::new(alloc),
        }
    }

    fn track(&mut self, numbers: &[u64]) -> Result<(), Stop>
        requires { KeepsLimits self.old }
        ensures { Judges result self.new (verdict (track_row (seen_known self.old) numbers.now)) }
    {
        let &[format] = numbers else {
            return Err(Stop::Fault(InputCause::Form));
        };
        if format != 1 && format != 2 {
            return Err(Stop::Fault(InputCause::Form));
        }
        self.format = format as u32;
        self.place = Place::Track;
        Ok(())
    }

    fn nodes(&mut self, numbers: &[u64]) -> Result<(), Stop>
        requires { KeepsLimits self.old }
        ensures { Judges result self.new (verdict (nodes_row (seen_known self.old) numbers.now)) }
    {
        let &[nodes] = numbers else {
            return Err(Stop::Fault(InputCause::Form));
        };
        if nodes == 0 {
            return Err(Stop::Fault(InputCause::Form));
        }
        if nodes > most_nodes(self.format) {
            return Err(Stop::Fault(InputCause::TooLarge));
        }
        self.nodes = nodes as u32;
        self.place = Place::Nodes;
        Ok(())
    }

    // Whether an edge of these nodes and with this weight can be taken. Nearly all can, so what is
    // wrong with one is asked only where something is.
    #[inline(always)]
    fn takes_edge(&self, a: u64, b: u64, weight: u64) -> bool
        ensures taken { result
            ≡ is_ok (verdict (edge_row (seen_known self.now) (a ∷ b ∷ weight ∷ []))) }
        ensures short { IsTrue result → (a < 2 ^ 32) × (b < 2 ^ 32) }
    {
        let nodes = u64::from(self.nodes);
        0 < weight && weight <= MAX_WEIGHT && self.edges.len() < MAX_EDGES && a < nodes && b < nodes
    }

    // What is wrong with one that can't.
    #[inline(never)]
    fn edge_cause(&self, a: u64, b: u64, weight: u64) -> InputCause
        requires { is_ok (verdict (edge_row (seen_known self.now) (a ∷ b ∷ weight ∷ []))) ≡ false }
        ensures { verdict (edge_row (seen_known self.now) (a ∷ b ∷ weight ∷ [])) ≡ Err result }
    {
        if weight == 0 {
            InputCause::Form
        } else if weight > MAX_WEIGHT {
            InputCause::TooLarge
        } else if self.edges.len() >= MAX_EDGES {
            InputCause::TooMany
        } else {
            InputCause::Unknown
        }
    }

    #[inline(always)]
    fn edge(&mut self, numbers: &[u64]) -> Result<(), Stop>
        requires { KeepsLimits self.old }
        ensures { Judges result self.new (verdict (edge_row (seen_known self.old) numbers.now)) }
    {
        let &[a, b, weight] = numbers else {
            return Err(Stop::Fault(InputCause::Form));
        };
        if !self.takes_edge(a, b, weight) {
            return Err(Stop::Fault(self.edge_cause(a, b, weight)));
        }
        let (a, b) = (a as u32, b as u32);
        push(&mut self.edges, Edge { a, b, weight })?;
        self.place = Place::Edges;
        Ok(())
    }

    fn k(&mut self, numbers: &[u64]) -> Result<(), Stop>
        requires { KeepsLimits self.old }
        ensures { Judges result self.new (verdict (k_row (seen_known self.old) numbers.now)) }
    {
        let &[k] = numbers else {
            return Err(Stop::Fault(InputCause::Form));
        };
        if k == 0 {
            return Err(Stop::Fault(InputCause::Form));
        }
        if k > 8 || (k == 1 && self.nodes > 256) {
            return Err(Stop::Fault(InputCause::TooLarge));
        }
        self.k = k as u32;
        self.place = Place::K;
        Ok(())
    }

    fn sub(&mut self, numbers: &[u64]) -> Result<(), Stop>
        requires { KeepsLimits self.old }
        ensures { Judges result self.new (verdict (sub_row (seen_known self.old) numbers.now)) }
    {
        let &[node] = numbers else {
            return Err(Stop::Fault(InputCause::Form));
        };
        if self.homes.len() >= MAX_SUBS {
            return Err(Stop::Fault(InputCause::TooMany));
        }
        if node >= u64::from(self.nodes) {
            return Err(Stop::Fault(InputCause::Unknown));
        }
        let node = node as u32;
        self.homes.push(node)?;
        self.places.push(node)?;
        self.off.push(false)?;
        self.place = Place::Subs;
        Ok(())
    }

    fn callers(&mut self, numbers: &[u64]) -> Result<(), Stop>
        requires { KeepsLimits self.old }
        ensures { Judges result self.new (verdict (callers_row (seen_known self.old) numbers.now)) }
    {
        let &[callers] = numbers else {
            return Err(Stop::Fault(InputCause::Form));
        };
        if callers > MAX_CALLERS {
            return Err(Stop::Fault(InputCause::TooLarge));
        }
        self.callers = callers as u32;
        self.place = Place::Callers;
        Ok(())
    }

    fn has_spent_calls(&self) -> bool
        ensures { result ≡ nat_le (most_calls self.now.format) (length self.now.calls.items) }
    {
        self.calls.len() >= most_calls(self.format)
    }

    #[inline(always)]
    fn move_to(&mut self, numbers: &[u64]) -> Result<(), Stop>
        requires { KeepsLimits self.old }
        ensures { Judges result self.new (verdict (move_row (seen_known self.old) numbers.now)) }
    {
        let &[sub, to] = numbers else {
            return Err(Stop::Fault(InputCause::Form));
        };
        if self.has_spent_calls() {
            return Err(Stop::Fault(InputCause::TooMany));
        }
        if sub >= self.homes.len() as u64 || to >= u64::from(self.nodes) {
            return Err(Stop::Fault(InputCause::Unknown));
        }
        let (actor, to) = (sub as u32, to as u32);
        if self.off[actor as usize] {
            return Err(Stop::Fault(InputCause::Switched));
        }
        if self.places[actor as usize] == to {
            return Err(Stop::Fault(InputCause::Nowhere));
        }
        let call = Call::Move { to };
        push(&mut self.calls, Spoken { actor, call })?;
        self.places[actor as usize] = to;
        self.place = Place::Calls;
        Ok(())
    }

    #[inline(always)]
    fn find(&mut self, numbers: &[u64]) -> Result<(), Stop>
        requires { KeepsLimits self.old }
        ensures { Judges result self.new (verdict (find_row (seen_known self.old) numbers.now)) }
    {
        let &[caller, from, sub] = numbers else {
            return Err(Stop::Fault(InputCause::Form));
        };
        if self.has_spent_calls() {
            return Err(Stop::Fault(InputCause::TooMany));
        }
        let subs = self.homes.len() as u64;
        let actors = subs + u64::from(self.callers);
        if caller < subs || caller >= actors || from >= u64::from(self.nodes) || sub >= subs {
            return Err(Stop::Fault(InputCause::Unknown));
        }
        let (actor, from, sub) = (caller as u32, from as u32, sub as u32);
        let call = Call::Find { from, sub };
        push(&mut self.calls, Spoken { actor, call })?;
        self.place = Place::Calls;
        Ok(())
    }

    // What the line says of a subscriber that switches off, or on.
    fn switch(&mut self, off: bool, numbers: &[u64]) -> Result<(), Stop>
        requires { KeepsLimits self.old }
        ensures { Judges result self.new
            (verdict (switch_row off (seen_known self.old) numbers.now)) }
    {
        let &[sub] = numbers else {
            return Err(Stop::Fault(InputCause::Form));
        };
        if self.format != 2 {
            return Err(Stop::Fault(InputCause::Form));
        }
        if self.has_spent_calls() {
            return Err(Stop::Fault(InputCause::TooMany));
        }
        if sub >= self.homes.len() as u64 {
            return Err(Stop::Fault(InputCause::Unknown));
        }
        let actor = sub as u32;
        if self.off[actor as usize] == off {
            return Err(Stop::Fault(InputCause::Switched));
        }
        let call = if off { Call::Off } else { Call::On };
        push(&mut self.calls, Spoken { actor, call })?;
        self.off[actor as usize] = off;
        self.place = Place::Calls;
        Ok(())
    }

    fn order(&mut self, numbers: &[u64]) -> Result<(), Stop>
        requires { KeepsLimits self.old }
        ensures { Judges result self.new (verdict (order_row (seen_known self.old) numbers.now)) }
    {
        if numbers.is_empty() {
            return Err(Stop::Fault(InputCause::Form));
        }
        if numbers.len() > MAX_ORDER {
            return Err(Stop::Fault(InputCause::TooMany));
        }
        let actors = self.homes.len() as u64 + u64::from(self.callers);
        if !push_known(&mut self.order, actors, numbers)? {
            return Err(Stop::Fault(InputCause::Unknown));
        }
        self.place = Place::Orders;
        Ok(())
    }

    /// What a line of the order says whose numbers stand here up to its end, and what stands
    /// after; none, and nothing is said, where it isn't one that can be taken.
    pub(crate) fn order_line<'a>(&mut self, piece: &'a [u8]) -> Result<Option<&'a [u8]>, AllocError>
        requires { KeepsLimits self.old }
        ensures heard { IfOk result (λ found. IfSome found (λ rest. HearsOrder self.old self.new
            piece.now rest.now)) }
        ensures still { IfOk result (λ found. IfNone found
            (seen_known self.new ≡ seen_known self.old)) }
        ensures kept { IfOk result (λ found. KeepsLimits self.new) }
    {
        if !may_follow(self.place, Word::Order) {
            return Ok(None);
        }
        let actors = self.homes.len() as u64 + u64::from(self.callers);
        match push_line(&mut self.order, actors, piece)? {
            Some(rest) => {
                self.place = Place::Orders;
                Ok(Some(rest))
            }
            None => Ok(None),
        }
    }

    #[inline(always)]
    fn row(&mut self, word: Word, numbers: &[u64]) -> Result<(), Stop>
        requires { KeepsLimits self.old }
        ensures { Judges result self.new (verdict (row_of (seen_known self.old) word numbers.now)) }
    {
        match word {
            Word::Track => self.track(numbers),
            Word::Nodes => self.nodes(numbers),
            Word::K => self.k(numbers),
            Word::Edge => self.edge(numbers),
            Word::Sub => self.sub(numbers),
            Word::Callers => self.callers(numbers),
            Word::Move => self.move_to(numbers),
            Word::Find => self.find(numbers),
            Word::Off => self.switch(true, numbers),
            Word::On => self.switch(false, numbers),
            Word::Order => self.order(numbers),
        }
    }

    /// What a line with this word and these numbers says.
    #[inline(always)]
    pub(crate) fn hear_word(&mut self, word: Word, numbers: &[u64]) -> Result<(), Stop>
        requires { KeepsLimits self.old }
        ensures { Judges result self.new (judge_word (seen_known self.old) (Some word) (Some
            numbers.now)) }
    {
        if !may_follow(self.place, word) {
            return Err(Stop::Fault(InputCause::Form));
        }
        self.row(word, numbers)
    }

    /// What a line says whose word is packed so, and that has these numbers.
    pub(crate) fn hear(&mut self, packed: u64, numbers: &[u64]) -> Result<(), Stop>
        requires { KeepsLimits self.old }
        ensures { Judges result self.new (judge_word (seen_known self.old) (word_in packed) (Some
            numbers.now)) }
    {
        match word_in(packed) {
            Some(word) => self.hear_word(word, numbers),
            None => Err(Stop::Fault(InputCause::Form)),
        }
    }
}
