//! The text of a level behind its first line, kept for the levels that have the same clusters.
ghost use Rattle.std.specs.Prelude.{◌≡◌, ◌≤◌, ◌++◌, [], IfOk, None, false, length, vec_capacity};
ghost use Rattle.region_plan.specs.Plan.{PlanData};
ghost use Rattle.report_text.specs.declared.plan.NextPart.{NextPart};
ghost use Rattle.report_text.specs.Written.{KeepsBody, plan_left};

use std::alloc::{AllocError, Global};

const ROOM: usize = 65_536;

// The body of a level: what was written of it so far, the level if nothing of it is missing, and
// whether it is to be written once more.
#[derive(Drop)]
pub(crate) struct KeptBody {
    pub(crate) body: Vec<u8>,
    pub(crate) level: Option<u32>,
    pub(crate) waits: bool,
}

impl KeptBody {
    // Nothing is kept. There is room for 65,536 bytes.
    pub(crate) fn new(alloc: Global) -> Result<KeptBody, AllocError>
        ensures room { IfOk result (λ kept. 65536 ≤ vec_capacity kept.body) }
        ensures level { IfOk result (λ kept. kept.level ≡ None) }
        ensures waits { IfOk result (λ kept. kept.waits ≡ false) }
    {
        Ok(KeptBody {
            body: Vec::with_capacity(alloc, ROOM)?,
            level: None,
            waits: false,
        })
    }

    // Keeps one part more of a body, if there is room.
    pub(crate) fn keep(&mut self, part: &[u8])
        requires room { 65536 ≤ vec_capacity self.old.body }
        requires still { self.old.waits ≡ false }
        ensures keeps { (plan : PlanData) (before after : NextPart) → KeepsBody plan before self.old
            → plan_left plan before ≡ part.now ++ plan_left plan after
            → KeepsBody plan after self.new }
        ensures still { self.new.waits ≡ false }
    {
        if self.level.is_none() {
            return;
        }
        if part.len() > ROOM - self.body.len().min(ROOM) {
            self.level = None;
            return;
        }
        match self.body.extend_from_slice(part) {
            Ok(()) => {}
            Err(_) => unreachable!(),
        }
    }
}
