//! Where the lines of each actor and those of switches stand, and the last ticket of each actor.
ghost use Rattle.std.specs.Prelude.{◌≡◌, ◌<◌, ◌^◌, ℕ, IfOk, length, map, slice_index_or};
ghost use Rattle.report_check.specs.Blocks.{AreBehind, AreBlocks, SwitchesAlike, TellsAlike, IsBlock, grown, is_switched, no_block};
ghost use Rattle.report_check.specs.Parts.{is_of};
ghost use Rattle.report_check.specs.ReadLines.{done_of};
ghost use Rattle.std.specs.List.{list_any};
ghost use Rattle.directory.specs.CallLines.{actor_of};

use crate::calls::Line;
use std::alloc::{AllocError, Global};

/// The places of some lines, from the first up to behind the last.
#[derive(Clone, Copy)]
pub(crate) struct Block {
    pub(crate) start: usize,
    pub(crate) end: usize,
}

/// The lines of calls, the block of each actor's, and that of the switches.
#[derive(Clone, Copy)]
pub(crate) struct LinesByActor<'a> {
    pub(crate) calls: &'a [Line],
    pub(crate) blocks: &'a [Block],
    pub(crate) switches: Block,
}

// No line.
const NONE: Block = Block { start: 0, end: 0 };

// Whose line it is.
pub(crate) fn actor_of(line: &Line) -> u32
    ensures { result ≡ actor_of (done_of line.now) }
{
    match *line {
        Line::Move { actor, .. } => actor,
        Line::Switch { actor, .. } => actor,
        Line::Answer { actor, .. } => actor,
        Line::Again { actor, .. } => actor,
    }
}

// Whether a line is an actor's.
fn is_of(line: &Line, actor: u32) -> bool
    ensures { result ≡ is_of actor (done_of line.now) }
{
    actor_of(line) == actor
}

// Whether one of some lines is.
fn has_line(calls: &[Line], actor: u32) -> bool
    ensures { result ≡ list_any (is_of actor) (map done_of calls.now) }
{
    'lines: for line in calls {
        if is_of(line, actor) {
            return true;
        }
    }
    false
}

// Whether it is a switch's.
fn is_switched(line: &Line) -> bool
    ensures { result ≡ is_switched (done_of line.now) }
{
    matches!(*line, Line::Switch { .. })
}

// A block with a line more, which stands behind it.
fn with_line(block: Block, place: usize) -> Block
    requires { place < 2 ^ 63 }
    ensures { result ≡ grown block place }
{
    if block.end == 0 {
        Block {
            start: place,
            end: place + 1,
        }
    } else {
        Block {
            start: block.start,
            end: place + 1,
        }
    }
}

/// The blocks of so many actors.
pub(crate) fn blocks_of(
    alloc: Global,
    actors: usize,
    calls: &[Line],
) -> Result<Vec<Block>, AllocError>
    ensures { IfOk result (λ blocks. (actor : ℕ) → actor < length blocks.items
        → IsBlock (is_of actor) (map done_of calls.now)
        (slice_index_or blocks.items actor no_block)) }
{
    let mut blocks = vec![in alloc; NONE; actors]?;
    'lines: for place in 0..calls.len() {
        let actor = actor_of(&calls[place]) as usize;
        if actor < blocks.len() {
            blocks[actor] = with_line(blocks[actor], place);
        }
    }
    Ok(blocks)
}

/// The block of the switches.
pub(crate) fn switch_block(calls: &[Line]) -> Block
    ensures { IsBlock is_switched (map done_of calls.now) result }
{
    let mut block = NONE;
    'lines: for place in 0..calls.len() {
        if is_switched(&calls[place]) {
            block = with_line(block, place);
        }
    }
    block
}

/// The tickets behind the last ones of so many actors, 0 where an actor has none.
pub(crate) fn behind_tickets(
    alloc: Global,
    actors: usize,
    order: &[u64],
) -> Result<Vec<u64>, AllocError>
    ensures { IfOk result (λ behind. AreBehind order.now behind.items) }
{
    let mut behind = vec![in alloc; 0; actors]?;
    'tickets: for ticket in 0..order.len() {
        let actor = order[ticket] as usize;
        if actor < behind.len() {
            behind[actor] = ticket as u64 + 1;
        }
    }
    Ok(behind)
}

impl<'a> LinesByActor<'a> {
    /// The lines of an actor, and some of others; all lines where the actor is unknown.
    pub(crate) fn of_actor(&self, actor: u32) -> &'a [Line]
        requires { AreBlocks self.now }
        ensures tells { TellsAlike actor (map done_of self.now.calls.now) (map done_of result.now) }
        ensures some { list_any (is_of actor) (map done_of result.now)
            ≡ list_any (is_of actor) (map done_of self.now.calls.now) }
    {
        match self.blocks.get(actor as usize) {
            Some(block) => &self.calls[block.start..block.end],
            None => self.calls,
        }
    }

    /// Whether an actor has a line.
    pub(crate) fn has_line(&self, actor: u32) -> bool
        requires { AreBlocks self.now }
        ensures { result ≡ list_any (is_of actor) (map done_of self.now.calls.now) }
    {
        has_line(self.of_actor(actor), actor)
    }

    /// The lines of the switches, and some others.
    pub(crate) fn of_switches(&self) -> &'a [Line]
        requires { AreBlocks self.now }
        ensures { SwitchesAlike (map done_of self.now.calls.now) (map done_of result.now) }
    {
        &self.calls[self.switches.start..self.switches.end]
    }
}
