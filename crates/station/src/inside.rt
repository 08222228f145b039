//! Single steps inside a node.
ghost use Rattle.std.specs.Prelude.{◌≡◌, ◌+◌, ◌<◌, None, Some, if◌then◌else◌, length, true, false, ℕ};
ghost use Rattle.std.specs.Int.{bit_at};
ghost use Rattle.node_set.specs.Ascending.{has};
ghost use Rattle.directory.specs.Census.{census};
ghost use Rattle.directory.specs.Histories.{cell};
ghost use Rattle.directory.specs.Keys.{key_node, key_sub};
ghost use Rattle.entry_word.specs.Marks.{mark_in, says_here as here};
ghost use Rattle.station.specs.Handsets.{Moves, moves_here as moves};
ghost use Rattle.station.specs.Plays.{view_after_put, view_after_tally};
ghost use Rattle.station.specs.Setup.{IsCellOf, cell_word, lock_word, nodes_in, setting_in, tally_word};
ghost use Rattle.station.specs.Visits.{HasTurn};

use crate::rule::{ReadCell, ReadTally, WriteCell, WriteTally};
use crate::tracker::Tracker;
use crate::view::View;
use atomic_table::Seat;
use directory::same_key_means;
use entry_word::{Act, Key, PresenceMark, unpack_mark};
use region_plan::Plan;
use visit_log::{cell_numbers, key_node};

impl Tracker {
    // The node at which a cell lies.
    pub(crate) fn node_of(&self, plan: &Plan, key: Key) -> u32
        requires plan { plan.now ≡ self.now.setup.plan }
        requires cell { IsCellOf self.now.setup key }
        ensures node { result ≡ key_node (setting_in self.now.setup) key }
        ensures inside { result < nodes_in self.now.setup }
    {
        // The field tells the proof that cells lie at nodes.
        let _ = &self.nodes;
        key_node(plan, key)
    }

    // The place of the lock word of a node.
    pub(crate) fn lock_place(&self, node: u32) -> usize
        requires node { node < nodes_in self.now.setup }
        ensures place { result ≡ lock_word node }
        ensures inside { result < self.now.table.words }
    {
        // The field tells the proof that nodes are few.
        let _ = &self.nodes;
        node as usize + 1
    }

    // The place of the tally word of a node.
    fn tally_place(&self, node: u32) -> usize
        requires node { node < nodes_in self.now.setup }
        ensures place { result ≡ tally_word self.now.setup node }
        ensures inside { result < self.now.table.words }
    {
        self.nodes as usize + self.lock_place(node)
    }

    // The place of the word of a cell.
    fn cell_place(&self, key: Key) -> usize
        requires cell { IsCellOf self.now.setup key }
        ensures place { result ≡ cell_word self.now.setup key }
        ensures inside { result < self.now.table.words }
    {
        cell_numbers();
        let place = self.places.place(key) as usize;
        let number = place * self.subs as usize + key_sub(key) as usize;
        2 * self.nodes as usize + 1 + number
    }

    // Reads a cell.
    pub(crate) fn read_cell(&self, seat: &mut Seat<Act, View>, key: Key) -> u64
        requires table { seat.old.table_id ≡ self.now.table }
        requires setup { seat.old.me.0.setup ≡ self.now.setup }
        requires cell { IsCellOf self.now.setup key }
        requires turn { HasTurn seat.old.me.0 (key_node (setting_in self.now.setup) key) }
        ensures table { seat.new.table_id ≡ seat.old.table_id }
        ensures id { seat.new.id ≡ seat.old.id }
        ensures same { seat.new.me ≡ seat.old.me }
        ensures word { seat.old.me.0.unwritten ≡ None
            → result ≡ cell (setting_in self.now.setup) seat.old.me.0.seen key }
        ensures before { seat.old.me.0.unwritten ≡ Some key → result ≡ seat.old.me.0.before }
    {
        cell_numbers();
        same_key_means();
        let place = self.cell_place(key);
        self.table.shared.load::<ReadCell>(seat, place)
    }

    // Writes the put that isn't written.
    pub(crate) fn write_cell(&self, seat: &mut Seat<Act, View>, key: Key, word: u64)
        requires table { seat.old.table_id ≡ self.now.table }
        requires setup { seat.old.me.0.setup ≡ self.now.setup }
        requires cell { IsCellOf self.now.setup key }
        requires turn { HasTurn seat.old.me.0 (key_node (setting_in self.now.setup) key) }
        requires put { seat.old.me.0.unwritten ≡ Some key }
        requires word { word ≡ cell (setting_in self.now.setup) seat.old.me.0.seen key }
        ensures table { seat.new.table_id ≡ seat.old.table_id }
        ensures id { seat.new.id ≡ seat.old.id }
        ensures written { seat.new.me ≡ (view_after_put seat.old.me.0, seat.old.me.1) }
    {
        cell_numbers();
        same_key_means();
        let place = self.cell_place(key);
        self.table.shared.store::<WriteCell>(seat, place, word);
    }

    // Reads the tally of a node.
    pub(crate) fn read_tally(&self, seat: &mut Seat<Act, View>, node: u32) -> u64
        requires table { seat.old.table_id ≡ self.now.table }
        requires setup { seat.old.me.0.setup ≡ self.now.setup }
        requires node { node < nodes_in self.now.setup }
        requires turn { HasTurn seat.old.me.0 node }
        ensures table { seat.new.table_id ≡ seat.old.table_id }
        ensures id { seat.new.id ≡ seat.old.id }
        ensures same { seat.new.me ≡ seat.old.me }
        ensures tally { seat.old.me.0.owes ≡ false
            → result ≡ length (census (setting_in self.now.setup) seat.old.me.0.seen node) }
        ensures before { seat.old.me.0.owes ≡ true → result ≡ seat.old.me.0.tally }
    {
        same_key_means();
        let place = self.tally_place(node);
        self.table.shared.load::<ReadTally>(seat, place)
    }

    // Writes the tally of a node.
    pub(crate) fn write_tally(&self, seat: &mut Seat<Act, View>, node: u32, tally: u64)
        requires table { seat.old.table_id ≡ self.now.table }
        requires setup { seat.old.me.0.setup ≡ self.now.setup }
        requires node { node < nodes_in self.now.setup }
        requires turn { HasTurn seat.old.me.0 node }
        requires tally { tally
            ≡ length (census (setting_in self.now.setup) seat.old.me.0.seen node) }
        ensures table { seat.new.table_id ≡ seat.old.table_id }
        ensures id { seat.new.id ≡ seat.old.id }
        ensures tallied { seat.new.me ≡ (view_after_tally seat.old.me.0, seat.old.me.1) }
    {
        cell_numbers();
        same_key_means();
        let place = self.tally_place(node);
        self.table.shared.store::<WriteTally>(seat, place, tally);
    }

    // The subscribers that are at a node, a bit for each.
    pub(crate) fn list_here(&self, seat: &mut Seat<Act, View>, node: u32) -> u64
        requires table { seat.old.table_id ≡ self.now.table }
        requires setup { seat.old.me.0.setup ≡ self.now.setup }
        requires node { node < nodes_in self.now.setup }
        requires turn { HasTurn seat.old.me.0 node }
        requires unwritten { seat.old.me.0.unwritten ≡ None }
        ensures table { seat.new.table_id ≡ seat.old.table_id }
        ensures id { seat.new.id ≡ seat.old.id }
        ensures same { seat.new.me ≡ seat.old.me }
        ensures bits { (sub : ℕ) → bit_at result sub
            ≡ (if has sub (census (setting_in self.now.setup) seat.old.me.0.seen node) then 1
            else 0) }
    {
        let mut who = 0;
        for sub in 0..self.subs {
            if says_here(self.read_cell(seat, Key::Presence { node, sub })) {
                who |= 1 << sub;
            }
        }
        who
    }

    // How many subscribers are at a node, by its tally.
    pub(crate) fn count_here(&self, seat: &mut Seat<Act, View>, node: u32) -> u32
        requires table { seat.old.table_id ≡ self.now.table }
        requires setup { seat.old.me.0.setup ≡ self.now.setup }
        requires node { node < nodes_in self.now.setup }
        requires turn { HasTurn seat.old.me.0 node }
        requires clear { seat.old.me.0.owes ≡ false }
        ensures table { seat.new.table_id ≡ seat.old.table_id }
        ensures id { seat.new.id ≡ seat.old.id }
        ensures same { seat.new.me ≡ seat.old.me }
        ensures count { result
            ≡ length (census (setting_in self.now.setup) seat.old.me.0.seen node) }
    {
        // The field tells the proof that subscribers are few.
        let _ = &self.subs;
        self.read_tally(seat, node) as u32
    }

    // Writes a put whose ticket is drawn, and the tally where it is owed.
    pub(crate) fn put_there(&self, seat: &mut Seat<Act, View>, node: u32, key: Key, word: u64)
        requires table { seat.old.table_id ≡ self.now.table }
        requires setup { seat.old.me.0.setup ≡ self.now.setup }
        requires cell { IsCellOf self.now.setup key }
        requires node { node ≡ key_node (setting_in self.now.setup) key }
        requires turn { HasTurn seat.old.me.0 node }
        requires put { seat.old.me.0.unwritten ≡ Some key }
        requires word { word ≡ cell (setting_in self.now.setup) seat.old.me.0.seen key }
        requires moves { Moves self.now.setup seat.old.me.0 node key seat.old.me.0.before word }
        ensures table { seat.new.table_id ≡ seat.old.table_id }
        ensures id { seat.new.id ≡ seat.old.id }
        ensures done { seat.new.me
            ≡ (view_after_tally (view_after_put seat.old.me.0), seat.old.me.1) }
    {
        let before = self.read_cell(seat, key);
        self.write_cell(seat, key, word);
        if moves_here(key, before, word) {
            self.move_tally(seat, node, says_here(word));
        }
    }

    // Writes the tally of a node, one more or one less.
    fn move_tally(&self, seat: &mut Seat<Act, View>, node: u32, more: bool)
        requires table { seat.old.table_id ≡ self.now.table }
        requires setup { seat.old.me.0.setup ≡ self.now.setup }
        requires node { node < nodes_in self.now.setup }
        requires turn { HasTurn seat.old.me.0 node }
        requires owes { seat.old.me.0.owes ≡ true }
        requires more { more ≡ true
            → length (census (setting_in self.now.setup) seat.old.me.0.seen node)
            ≡ seat.old.me.0.tally + 1 }
        requires less { more ≡ false
            → length (census (setting_in self.now.setup) seat.old.me.0.seen node) + 1
            ≡ seat.old.me.0.tally }
        ensures table { seat.new.table_id ≡ seat.old.table_id }
        ensures id { seat.new.id ≡ seat.old.id }
        ensures tallied { seat.new.me ≡ (view_after_tally seat.old.me.0, seat.old.me.1) }
    {
        // The field tells the proof that subscribers are few.
        let _ = &self.subs;
        let tally = self.read_tally(seat, node);
        let moved = if more { tally + 1 } else { tally - 1 };
        self.write_tally(seat, node, moved);
    }
}

// Whether a word of a presence cell says that its subscriber is here.
fn says_here(word: u64) -> bool
    ensures { result ≡ here (mark_in word) }
{
    matches!(unpack_mark(word), Some(PresenceMark::Here { .. }))
}

// Whether a word that goes into a cell in place of another changes who is at its node.
fn moves_here(key: Key, old: u64, new: u64) -> bool
    ensures { result ≡ moves key old new }
{
    match key {
        Key::Presence { .. } => says_here(old) != says_here(new),
        Key::Entry { .. } => false,
    }
}

// The subscriber of a cell.
fn key_sub(key: Key) -> u32
    ensures { result ≡ key_sub key }
{
    match key {
        Key::Presence { sub, .. } | Key::Entry { sub, .. } => sub,
    }
}
