//! Notes: what one pass has seen, for another to hear.
ghost use Rattle.std.specs.Prelude.{◌≡◌, ◌<◌, ◌≤◌, ℕ, [], All, None, length};
ghost use Rattle.directory.specs.Histories.{IsFront, own};
ghost use Rattle.directory.specs.Legal.{IsLegal};
ghost use Rattle.station.specs.Closing.{ArePresent, HasGathered};
ghost use Rattle.station.specs.Setup.{setting_in, subs_in};
ghost use Rattle.station.specs.Passes.{IsNoteOf, IsPassOf};
ghost use Rattle.station.specs.Plays.{IsLearned, view_with_note};
ghost use Rattle.station.specs.Visits.{HasHeard};

use crate::pass::Pass;
use crate::rule::{Hear, Learn, TakeNote};
use crate::tracker::Tracker;
use crate::view::View;
use atomic_table::Seat;
use entry_word::Act;
use std::marker::Model;
use trail_laws::front_of_history_is_legal;

/// What a pass had seen when the note was taken, for another pass to hear, in another thread as
/// well. A find of a pass that heard it tells no lower number than there was in what was noted.
///
/// ```text
/// let note = tracker.note(&mut mover);     // in one thread
/// tracker.hear(&mut caller, note);         // in another
/// ```
#[derive(Drop)]
pub struct Note {
    seat: Seat<Act, View>,
    seen: u64,
}

impl Model for Note {
    ghost use Rattle.station.specs.Passes.{IsNote, NoteData};

    ghost Value = { NoteData };

    ghost view = { λ n. record { table = n.seat.table_id; seat = n.seat.id; view = n.seat.me.0 } };

    ghost invariant = { λ n. IsNote n.seat.me n.seen };
}

impl Note {
    // How many visits were noted.
    pub(crate) fn seen(&self) -> u64
        ensures { result ≡ length self.now.view.seen }
    {
        self.seen
    }
}

impl Tracker {
    /// Notes what a pass has seen.
    pub fn note(&self, pass: &mut Pass) -> Note
        requires of { IsPassOf self.now pass.old }
        ensures same { pass.new ≡ pass.old }
        ensures of { IsNoteOf self.now result }
        ensures seen { result.view.seen ≡ pass.old.view.seen }
    {
        let seat = self.table.shared.split_seat::<TakeNote>(&mut pass.seat);
        let seen = pass.seen;
        Note { seat, seen }
    }

    /// Takes in what was noted: the pass has then seen the longer of the two histories.
    pub fn hear(&self, pass: &mut Pass, note: Note)
        requires of { IsPassOf self.now pass.old }
        requires note { IsNoteOf self.now note }
        ensures heard { HasHeard pass.old note pass.new }
    {
        let Note { seat, seen } = note;
        self.learn(&mut pass.seat, seat);
        if pass.seen < seen {
            pass.seen = seen;
        }
    }

    // The longest history that a pass has seen, as a note; the passes stay as they are.
    pub(crate) fn gather(&self, passes: &mut Vec<Pass>) -> Note
        requires of { All (IsPassOf self.now) passes.old.items }
        requires present { ArePresent self.now.setup.actors passes.old.items }
        ensures same { passes.new.items ≡ passes.old.items }
        ensures of { IsNoteOf self.now result }
        ensures gathered { HasGathered self.now.setup passes.old.items result.view.seen }
    {
        // The field tells the proof that there is an actor.
        let _ = &self.actors;
        let mut longest = self.note(&mut passes[0]);
        for k in 0..passes.len() {
            let note = self.note(&mut passes[k]);
            self.take_in(&mut longest, note);
        }
        longest
    }

    // Takes another note in.
    fn take_in(&self, longest: &mut Note, note: Note)
        requires of { IsNoteOf self.now longest.old }
        requires note { IsNoteOf self.now note }
        ensures of { IsNoteOf self.now longest.new }
        ensures begins { IsFront longest.old.view.seen longest.new.view.seen }
        ensures told { IsFront note.view.seen longest.new.view.seen }
        ensures known { (actor : ℕ) → self.now.setup.actors ≤ actor
            → own actor longest.new.view.seen ≡ [] }
        ensures legal { (sub : ℕ) → sub < subs_in self.now.setup
            → IsLegal (setting_in self.now.setup) sub longest.new.view.seen }
    {
        let Note { seat, seen } = note;
        self.learn(&mut longest.seat, seat);
        if longest.seen < seen {
            longest.seen = seen;
        }
    }

    // Takes in what the seat of a note has seen.
    fn learn(&self, seat: &mut Seat<Act, View>, other: Seat<Act, View>)
        requires table { seat.old.table_id ≡ self.now.table }
        requires setup { seat.old.me.0.setup ≡ self.now.setup }
        requires from { other.table_id ≡ self.now.table }
        requires slots { other.me.1 ≡ [] }
        requires low { other.me.0.low ≡ 0 }
        requires high { other.me.0.high ≡ 0 }
        requires outside { other.me.0.inside ≡ None }
        ensures table { seat.new.table_id ≡ seat.old.table_id }
        ensures id { seat.new.id ≡ seat.old.id }
        ensures heard { seat.new.me ≡ (view_with_note seat.old.me.0 other.me.0, seat.old.me.1) }
        ensures learned { IsLearned seat.new.me.0 }
    {
        front_of_history_is_legal();
        self.table.shared.join_seat::<Hear>(seat, other);
        self.table.shared.load::<Learn>(seat, 0);
    }

    // A note of a note.
    pub(crate) fn copy(&self, note: &mut Note) -> Note
        requires of { IsNoteOf self.now note.old }
        ensures same { note.new ≡ note.old }
        ensures of { IsNoteOf self.now result }
        ensures seen { result.view.seen ≡ note.old.view.seen }
    {
        let seat = self.table.shared.split_seat::<TakeNote>(&mut note.seat);
        let seen = note.seen;
        Note { seat, seen }
    }
}
