//! Plain cells: one word of memory for each cell.
ghost use Rattle.std.specs.Prelude.{◌≡◌, ◌+◌, ◌*◌, ◌<◌, ◌≤◌, ◌++◌, ◌∷◌, [], ◌≢◌, ℕ, List, All, IfOk, length, replicate, slice_index, slice_set};
ghost use Rattle.entry_word.specs.declared.visit.Act.TheVariants.{Put};
ghost use Rattle.entry_word.specs.declared.visit.Key.{Key};
ghost use Rattle.directory.specs.Histories.{History, cell};
ghost use Rattle.directory.specs.Keys.{key_sub};
ghost use Rattle.region_plan.specs.Plan.{PlanData, levels_of, nodes_of};
ghost use Rattle.region_plan.specs.Settings.{setting_of};
ghost use Rattle.region_plan.specs.Cells.{IsCell, IsPlace};
ghost use Rattle.visit_log.specs.Cells.{GoWith, Hold, IsPlaceOf, open_word, slot_of, width_of, word_at, word_beside};
ghost use Rattle.visit_log.specs.Numbers.{key_place};

use crate::places::{Places, places_are_few};
use crate::words::Words;
use directory::{cell_after, same_key_means};
use entry_word::{Address, Key, PresenceMark, pack_address, pack_mark};
use region_plan::{Plan, plan_is_sound};
use std::alloc::{AllocError, Global};
use std::marker::Model;

/// The words of all cells of some subscribers. They go with the plan that they were made for.
#[derive(Drop)]
pub struct PlainCells {
    subs: u32,
    places: Places,
    words: Words,
}

impl Model for PlainCells {
    ghost use Rattle.visit_log.specs.Cells.{CellData};

    ghost Value = { CellData };

    ghost view = { λ c. record {
      subs = c.subs;
      width = c.places.width;
      firsts = c.places.firsts;
      words = c.words;
    } };
}

impl PlainCells {
    /// The cells at the opening, of subscribers that start at these nodes.
    pub fn new(alloc: Global, plan: &Plan, homes: &[u32]) -> Result<PlainCells, AllocError>
        requires some { 1 ≤ length homes.now }
        requires few { length homes.now ≤ 64 }
        requires inside { All (λ home. home < nodes_of plan.now) homes.now }
        ensures goes { IfOk result (GoWith plan.now) }
        ensures opening { IfOk result (λ cells. Hold plan.now homes.now cells []) }
    {
        // There is a level.
        plan_is_sound(plan);
        let subs = homes.len() as u32;
        let mut cells = PlainCells::empty(alloc, plan, subs)?;
        for sub in 0..subs {
            cells.open(plan, sub, homes[sub as usize]);
        }
        Ok(cells)
    }

    /// The word that a cell holds.
    pub fn look(&self, plan: &Plan, key: Key) -> u64
        requires goes { GoWith plan.now self.now }
        requires cell { IsCell plan.now self.now.subs key }
        ensures word { result ≡ word_at plan.now self.now key }
        ensures history { (starts : List ℕ) (history : History)
            → Hold plan.now starts self.now history
            → result ≡ cell (setting_of plan.now starts) history key }
    {
        self.words.get(self.index(plan, key))
    }

    /// How many of a subscriber's cells at these places hold nothing, up to the first that holds
    /// something.
    #[inline(always)]
    pub fn count_empty(&self, sub: u32, places: &[u32]) -> usize
        requires goes { (plan : PlanData) × GoWith plan self.now }
        requires known { sub < self.now.subs }
        requires inside { All (λ place. place < self.now.width) places.now }
        ensures within { result ≤ length places.now }
        ensures empty { (i : ℕ) → i < result
            → word_beside self.now sub (slice_index places.now i) ≡ 0 }
        ensures held { result < length places.now
            → word_beside self.now sub (slice_index places.now result) ≢ 0 }
    {
        let first = sub as usize * self.places.width() as usize;
        for i in 0..places.len() {
            if !self.words.is_zero(first + places[i] as usize) {
                return i;
            }
        }
        places.len()
    }

    /// Puts a word into a cell; all others stay.
    pub fn put(&mut self, plan: &Plan, key: Key, word: u64)
        requires goes { GoWith plan.now self.old }
        requires cell { IsCell plan.now self.old.subs key }
        ensures words { self.new ≡ record self.old {
          words = slice_set self.old.words (slot_of plan.now key) word;
        } }
        ensures goes { GoWith plan.now self.new }
        ensures history { (starts : List ℕ) (history : History) (actor : ℕ)
            → Hold plan.now starts self.old history
            → Hold plan.now starts self.new
            (history ++ record { actor = actor; act = Put key word } ∷ []) }
    {
        cell_after();
        same_key_means();
        self.set(plan, key, word);
    }

    /// The place of a cell among those of its subscriber.
    pub fn place(&self, plan: &Plan, key: Key) -> u32
        requires goes { GoWith plan.now self.now }
        requires place { IsPlace plan.now key }
        ensures { result ≡ key_place plan.now key }
    {
        places_are_few(&self.places);
        self.places.place(key)
    }

    /// Puts a word into the cell of a subscriber at a place; all others stay. It needs no plan:
    /// what it does is told for each that the cells go with.
    pub fn put_at(&mut self, sub: u32, place: u32, word: u64)
        requires cell { (plan : PlanData) × (key : Key) × GoWith plan self.old
            × IsPlaceOf plan self.old.subs sub place key }
        ensures words { (plan : PlanData) (key : Key) → GoWith plan self.old
            → IsPlaceOf plan self.old.subs sub place key
            → self.new ≡ record self.old {
              words = slice_set self.old.words (slot_of plan key) word;
            } }
        ensures goes { (plan : PlanData) → GoWith plan self.old → GoWith plan self.new }
        ensures history { (plan : PlanData) (key : Key) → GoWith plan self.old
            → IsPlaceOf plan self.old.subs sub place key
            → (starts : List ℕ) (history : History) (actor : ℕ)
            → Hold plan starts self.old history
            → Hold plan starts self.new
            (history ++ record { actor = actor; act = Put key word } ∷ []) }
    {
        cell_after();
        same_key_means();
        let index = sub as usize * self.places.width() as usize + place as usize;
        self.replace(index, word);
    }

    // Changes the word of a cell.
    fn set(&mut self, plan: &Plan, key: Key, word: u64)
        requires goes { GoWith plan.now self.old }
        requires cell { IsCell plan.now self.old.subs key }
        ensures words { self.new ≡ record self.old {
          words = slice_set self.old.words (slot_of plan.now key) word;
        } }
        ensures goes { GoWith plan.now self.new }
    {
        let index = self.index(plan, key);
        self.replace(index, word);
    }

    // Changes a word.
    fn replace(&mut self, index: usize, word: u64)
        requires { index < length self.old.words }
        ensures { self.new ≡ record self.old { words = slice_set self.old.words index word } }
    {
        self.words.set(index, word);
    }

    // Cells that hold nothing.
    fn empty(alloc: Global, plan: &Plan, subs: u32) -> Result<PlainCells, AllocError>
        requires { subs ≤ 64 }
        ensures goes { IfOk result (GoWith plan.now) }
        ensures subs { IfOk result (λ cells. cells.subs ≡ subs) }
        ensures words { IfOk result (λ cells. cells.words
            ≡ replicate (subs * width_of plan.now) 0) }
    {
        let places = Places::new(alloc, plan)?;
        let words = Words::new(alloc, subs as usize * places.width() as usize)?;
        Ok(PlainCells {
            subs,
            places,
            words,
        })
    }

    // Puts the opening words of a subscriber.
    fn open(&mut self, plan: &Plan, sub: u32, home: u32)
        requires goes { GoWith plan.now self.old }
        requires known { sub < self.old.subs }
        requires inside { home < nodes_of plan.now }
        ensures goes { GoWith plan.now self.new }
        ensures subs { self.new.subs ≡ self.old.subs }
        ensures words { (key : Key) → IsCell plan.now self.old.subs key
            → word_at plan.now self.new key ≡ open_word plan.now sub home (levels_of plan.now) key
            (word_at plan.now self.old key) }
    {
        same_key_means();
        // Nodes are few, and homes are clusters.
        plan_is_sound(plan);
        let here = pack_mark(PresenceMark::Here { number: 0 });
        self.set(plan, Key::Presence { node: home, sub }, here);
        let address = pack_address(Some(Address {
            number: 0,
            node: home as u16,
        }));
        for level in 0..plan.levels() {
            let cluster = plan.home(level, home);
            let key = Key::Entry {
                level,
                cluster,
                sub,
            };
            self.set(plan, key, address);
        }
    }

    // The place of a cell's word.
    fn index(&self, plan: &Plan, key: Key) -> usize
        requires goes { GoWith plan.now self.now }
        requires cell { IsCell plan.now self.now.subs key }
        ensures place { result ≡ slot_of plan.now key }
        ensures within { result < length self.now.words }
    {
        key_sub(key) as usize * self.places.width() as usize + self.places.place(key) as usize
    }
}

// The subscriber of a cell.
fn key_sub(key: Key) -> u32
    ensures { result ≡ key_sub key }
{
    match key {
        Key::Presence { sub, .. } | Key::Entry { sub, .. } => sub,
    }
}
