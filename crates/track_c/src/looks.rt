//! A whole look of a find in one call: the word that was read, and what the find comes to.
ghost use Rattle.std.specs.Prelude.{◌≡◌, Err, MatchBool, MatchResult, Ok};
ghost use Rattle.track_c.specs.Faults.{and_then, code_of};
ghost use Rattle.track_c.specs.Finds.{next_look};
ghost use Rattle.track_c.specs.Handles.{held};
ghost use Rattle.track_c.specs.Held.{a_finder, finder_in, seen_finder, seen_object};
ghost use Rattle.track_c.specs.Looks.{Comes, TellsLook, after_turn, looking};
ghost use Rattle.walk.specs.Climbs.{IsClimbOver, next_climb};

use crate::cells::{TrackAnswer, TrackCell};
use crate::fault::{DONE, Fault};
use crate::finders::fits_in;
use crate::handle::TrackHandle;
use crate::object::{Finder, Object};
use region_plan::{Plan, plan_is_sound};
use std::alloc::Global;
use walk::{Climb, climbs_go_on};

// Where a climb is after an entry that holds nothing: at the next reader of its level, or at the
// first of the level above.
fn climb_on(plan: &Plan, climb: Climb) -> Climb
    requires { IsClimbOver plan.now climb }
    ensures { result ≡ next_climb plan.now climb }
{
    // There are few readers, and the weights inside them are light.
    plan_is_sound(plan);
    let way = plan.reader_weight(climb.level, climb.from, climb.index);
    let weight = climb.weight + 2 * way;
    let index = climb.index + 1;
    if (index as usize) < plan.readers(climb.level, climb.from).len() {
        Climb {
            weight,
            index,
            ..climb
        }
    } else {
        Climb {
            weight,
            level: climb.level + 1,
            index: 0,
            ..climb
        }
    }
}

impl Finder {
    // Passes an entry that holds nothing, if the climb has a reader ahead. Most looks of a find do
    // just this, and a step of the walk would take twice as long.
    fn pass(&mut self) -> bool
        ensures { MatchBool result
            (after_turn 0 (seen_finder self.old) ≡ Ok (seen_finder self.new))
            (seen_finder self.new ≡ seen_finder self.old) }
    {
        let plan = &self.network.plan;
        // A level above has a reader.
        plan_is_sound(plan);
        climbs_go_on();
        let Some(climb) = self.walk.climb() else {
            return false;
        };
        let next = climb_on(plan, climb);
        if next.level >= plan.levels() {
            return false;
        }
        self.walk.resume(next);
        true
    }

    // Makes any look, if one is left.
    fn turn(&mut self, word: u64) -> Result<(), Fault>
        ensures { MatchResult result
            (λ _. after_turn word (seen_finder self.old) ≡ Ok (seen_finder self.new))
            (λ fault. (after_turn word (seen_finder self.old) ≡ Err fault)
            × (seen_finder self.new ≡ seen_finder self.old)) }
    {
        let network = &*self.network;
        if let Some(key) = self.walk.next(&network.plan) {
            if !fits_in(network.plan.nodes(), key, word) {
                return Err(Fault::BadWord);
            }
            self.walk.saw(&network.plan, &network.distances, word);
        }
        Ok(())
    }

    // What it comes to: the cell at which it looks next, or its answer.
    fn come(&self, cell: &mut TrackCell, answer: &mut TrackAnswer) -> u32
        ensures { Comes (seen_finder self.now) (next_look (seen_finder self.now)) result
            (looking cell.old answer.old) (looking cell.new answer.new) }
    {
        match self.next_cell() {
            Ok(next) => {
                *cell = next;
                DONE
            }
            Err(fault) => {
                let Ok(found) = self.found() else {
                    unreachable!()
                };
                *answer = found;
                fault.code()
            }
        }
    }

    // Its next look read this word, if it has one left: what it comes to then.
    fn look(&mut self, word: u64, cell: &mut TrackCell, answer: &mut TrackAnswer) -> u32
        ensures { TellsLook (after_turn word (seen_finder self.old)) result
            (a_finder (seen_finder self.old)) (a_finder (seen_finder self.new))
            (looking cell.old answer.old) (looking cell.new answer.new) }
    {
        if word == 0 && self.pass() {
            return self.come(cell, answer);
        }
        match self.turn(word) {
            Ok(()) => self.come(cell, answer),
            Err(fault) => fault.code(),
        }
    }
}

// The find of an object makes a look.
fn look_in(object: &mut Object, word: u64, cell: &mut TrackCell, answer: &mut TrackAnswer) -> u32
    ensures { TellsLook (and_then (finder_in (seen_object object.old)) (after_turn word)) result
        (seen_object object.old) (seen_object object.new)
        (looking cell.old answer.old) (looking cell.new answer.new) }
{
    match object {
        Object::Finder(finder) => finder.look(word, cell, answer),
        Object::Plan(_)
        | Object::Mover(_)
        | Object::Crew(_)
        | Object::Caller(_)
        | Object::Subscriber(_) => Fault::OtherKind.code(),
    }
}

/// The next look of a find read this word: the cell at which it looks then, or its answer.
#[unsafe(no_mangle)]
pub extern "C" fn track_finder_look(
    alloc: Global,
    finder: &mut TrackHandle,
    word: u64,
    cell: &mut TrackCell,
    answer: &mut TrackAnswer,
) -> u32
    ensures { TellsLook (and_then (finder_in (held finder.old)) (after_turn word)) result
        (held finder.old) (held finder.new)
        (looking cell.old answer.old) (looking cell.new answer.new) }
{
    let Some(mut object) = finder.take(alloc) else {
        return Fault::EmptyHandle.code();
    };
    let code = look_in(&mut object, word, cell, answer);
    finder.put(object);
    code
}
