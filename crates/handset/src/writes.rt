//! The writes of a handset, one after another.
ghost use Rattle.std.specs.Prelude.{◌≡◌, ◌<◌, ◌≤◌, ◌+◌, ◌-◌, ◌^◌, [], ℕ, List, slice_get, suc, ◌==◌, length, if◌then◌else◌, nat_lt, IsSome, OnSome, None, Some};
ghost use Rattle.entry_word.specs.declared.visit.Visit.{Visit};
ghost use Rattle.directory.specs.Courses.{Step};
ghost use Rattle.directory.specs.Standing.{number, off};
ghost use Rattle.directory.specs.Writes.{visits};
ghost use Rattle.region_plan.specs.Plan.{PlanData, home, nodes_of};
ghost use Rattle.region_plan.specs.Kept.{IsKept};
ghost use Rattle.region_plan.specs.Settings.{setting_of};
ghost use Rattle.handset.specs.Beginning.{is_committing};
ghost use Rattle.handset.specs.Condition.{GoesWith};
ghost use Rattle.handset.specs.StepWrites.{after_write, due, erasing_from, first_with, go_on, is_behind, purging_at, settle};
ghost use Rattle.handset.specs.Stands.{StandsForSteps, is_commit};
ghost use Rattle.handset.specs.declared.stage.Stage.{Stage};

use crate::handset::Handset;
use crate::levels::{first_old, readdress};
use crate::stage::{Journey, Stage};
use crate::trail::{clear, first_behind, mark};
use crate::visits::{
    coming_visit, erasure_visit, gone_visit, here_visit, mark_visit, renewal_visit, switch_mark,
};
use directory::levels_after_move;
use entry_word::{PresenceMark, Visit, mark_words};
use region_plan::{Plan, plan_is_sound};

impl Handset {
    /// The write that comes next, if one is left.
    pub fn next(&self, plan: &Plan) -> Option<Visit>
        requires goes { GoesWith plan.now self.now }
        ensures exact { result ≡ due (setting_of plan.now []) self.now }
        ensures stands { (starts : List ℕ) (steps : List Step) (made : ℕ)
            → StandsForSteps (setting_of plan.now starts) self.now steps made
            → result ≡ slice_get (visits (setting_of plan.now starts) self.now.sub steps) made }
    {
        self.due(plan)
    }

    /// Whether the write that comes next commits a move; not so where none comes.
    pub fn commits(&self) -> bool
        ensures stage { result ≡ is_committing self.now.stage }
        ensures commit { (plan : PlanData) (visit : Visit) → nodes_of plan ≤ 2 ^ 16
            → GoesWith plan self.now → due (setting_of plan []) self.now ≡ Some visit
            → result ≡ is_commit visit.act }
    {
        mark_words();
        self.stage.is_committing()
    }

    /// The write that came next counts as made.
    pub fn made(&mut self, plan: &Plan)
        requires goes { GoesWith plan.now self.old }
        requires left { IsSome (due (setting_of plan.now []) self.old) }
        ensures exact { self.new ≡ after_write (setting_of plan.now []) self.old self.old.stage }
        ensures goes { GoesWith plan.now self.new }
        ensures stands { (starts : List ℕ) (steps : List Step) (made : ℕ)
            → StandsForSteps (setting_of plan.now starts) self.old steps made
            → StandsForSteps (setting_of plan.now starts) self.new steps (suc made) }
    {
        levels_after_move();
        mark_words();
        self.step(plan);
    }

    /// Makes the write that comes next, if one is left: what `next` tells, and then `made`.
    pub fn write(&mut self, plan: &Plan) -> Option<Visit>
        requires goes { GoesWith plan.now self.old }
        ensures exact { result ≡ due (setting_of plan.now []) self.old }
        ensures after { self.new ≡ after_write (setting_of plan.now []) self.old self.old.stage }
        ensures rests { result ≡ None → self.new ≡ self.old }
        ensures goes { GoesWith plan.now self.new }
        ensures visit { (starts : List ℕ) (steps : List Step) (made : ℕ)
            → StandsForSteps (setting_of plan.now starts) self.old steps made
            → result ≡ slice_get (visits (setting_of plan.now starts) self.old.sub steps) made }
        ensures stands { OnSome result ((starts : List ℕ) (steps : List Step) (made : ℕ)
            → StandsForSteps (setting_of plan.now starts) self.old steps made
            → StandsForSteps (setting_of plan.now starts) self.new steps (suc made)) }
    {
        levels_after_move();
        mark_words();
        self.step(plan)
    }

    // The write that the stage tells.
    #[inline(always)]
    fn due(&self, plan: &Plan) -> Option<Visit>
        requires goes { GoesWith plan.now self.now }
        ensures { result ≡ due (setting_of plan.now []) self.now }
    {
        let (sub, last) = (self.sub, self.last);
        // Nodes are few.
        plan_is_sound(plan);
        match self.stage {
            Stage::Resting => None,
            Stage::Coming => Some(coming_visit(sub, last)),
            Stage::Renewing { level } => {
                Some(renewal_visit(sub, level, plan.home(level, last.to), last))
            }
            Stage::Committing => Some(gone_visit(sub, last)),
            Stage::Confirming => Some(here_visit(sub, last)),
            Stage::Erasing { level } => {
                let old = plan.home(level, self.addresses[level as usize]);
                Some(erasure_visit(sub, level, old))
            }
            Stage::Purging { node } => Some(mark_visit(sub, node, PresenceMark::Empty)),
            Stage::Switching { off } => {
                let mark = switch_mark(off, self.number);
                Some(mark_visit(sub, self.place, mark))
            }
        }
    }

    // Makes the write that the stage tells, and goes on to the one after it. A caller that draws it
    // in takes the write apart without memory.
    #[inline(always)]
    fn step(&mut self, plan: &Plan) -> Option<Visit>
        requires goes { GoesWith plan.now self.old }
        ensures exact { result ≡ due (setting_of plan.now []) self.old }
        ensures after { self.new ≡ after_write (setting_of plan.now []) self.old self.old.stage }
        ensures rests { result ≡ None → self.new ≡ self.old }
        ensures goes { GoesWith plan.now self.new }
        ensures kept { IsKept plan.now }
    {
        let (sub, last) = (self.sub, self.last);
        plan_is_sound(plan);
        match self.stage {
            Stage::Resting => None,
            Stage::Coming => {
                self.stage = Stage::Renewing { level: 0 };
                Some(coming_visit(sub, last))
            }
            Stage::Renewing { level } => {
                self.stage = stage_behind(last, level);
                Some(renewal_visit(sub, level, plan.home(level, last.to), last))
            }
            Stage::Committing => {
                self.commit();
                Some(gone_visit(sub, last))
            }
            Stage::Confirming => {
                let next = self.erasing_from(plan, 0);
                self.go_on(plan, next);
                Some(here_visit(sub, last))
            }
            Stage::Erasing { level } => {
                let old = plan.home(level, self.addresses[level as usize]);
                let next = self.erasing_from(plan, level + 1);
                self.go_on(plan, next);
                Some(erasure_visit(sub, level, old))
            }
            Stage::Purging { node } => {
                let next = self.purging_from(node + 1);
                self.go_on(plan, next);
                Some(mark_visit(sub, node, PresenceMark::Empty))
            }
            Stage::Switching { off } => {
                let mark = switch_mark(off, self.number);
                self.change(off);
                Some(mark_visit(sub, self.place, mark))
            }
        }
    }

    // The move commits.
    fn commit(&mut self)
        ensures { self.new ≡ record self.old {
          place = self.old.last.to;
          number = self.old.last.number;
          stage = Stage.Confirming;
        } }
    {
        self.place = self.last.to;
        self.number = self.last.number;
        self.stage = Stage::Confirming;
    }

    // The switch is made.
    fn change(&mut self, off: bool)
        ensures { self.new ≡ record self.old { is_off = off; stage = Stage.Resting } }
    {
        self.off = off;
        self.stage = Stage::Resting;
    }

    // The stage at which old addresses are erased from a level on.
    #[inline(always)]
    fn erasing_from(&self, plan: &Plan, level: u32) -> Stage
        requires goes { GoesWith plan.now self.now }
        ensures { result ≡ erasing_from (setting_of plan.now []) self.now level }
    {
        // Nodes are few.
        plan_is_sound(plan);
        match first_old(plan, &self.addresses, self.last, level) {
            Some(level) => Stage::Erasing { level },
            None if self.last.renewed == plan.levels() - 1 => self.purging_from(0),
            None => Stage::Resting,
        }
    }

    // The stage at which the trail is purged from a node on.
    fn purging_from(&self, node: u32) -> Stage
        requires { length self.now.trail ≤ 1024 }
        ensures { result ≡ purging_at (first_with (is_behind self.now) node
            (length self.now.trail - node)) }
    {
        match first_behind(&self.trail, self.last.to, node) {
            Some(node) => Stage::Purging { node },
            None => Stage::Resting,
        }
    }

    // Goes on to a stage behind the confirm.
    fn go_on(&mut self, plan: &Plan, next: Stage)
        requires goes { GoesWith plan.now self.old }
        ensures { self.new ≡ go_on (setting_of plan.now []) self.old next }
    {
        if next.is_rest() {
            self.settle(plan);
        }
        self.stage = next;
    }

    // The move is over.
    fn settle(&mut self, plan: &Plan)
        requires goes { GoesWith plan.now self.old }
        ensures { self.new ≡ record (settle (setting_of plan.now []) self.old) {
          stage = self.old.stage;
        } }
    {
        let Journey { to, renewed, .. } = self.last;
        readdress(&mut self.addresses, renewed, to);
        if renewed == plan.levels() - 1 {
            clear(&mut self.trail);
        }
        mark(&mut self.trail, to);
    }
}

// The stage behind the new address of a level.
fn stage_behind(last: Journey, level: u32) -> Stage
    requires { level ≤ last.renewed }
    ensures { result ≡ (if nat_lt level last.renewed then Stage.Renewing (suc level)
        else Stage.Committing) }
{
    if level < last.renewed {
        Stage::Renewing { level: level + 1 }
    } else {
        Stage::Committing
    }
}
