//! Levels over the tables that they share: levels with equal balls have one.

ghost use Rattle.std.specs.Prelude.{◌≡◌, ◌++◌, ◌∷◌, [], ◌-◌, ◌<◌, IfOk, OnOk, length, true};
ghost use Rattle.region_plan.specs.Plan.{level_in};
ghost use Rattle.region_plan.specs.Kept.{level_of, level_with, shape_of};

use crate::level::LevelTable;
use net_graph::OutOfMemory;
use std::alloc::Global;
use std::marker::Model;

// A level: its exponent, its threshold, and the place of its table.
#[derive(Clone, Copy)]
pub struct LevelHead {
    pub exponent: u32,
    pub threshold: u64,
    pub table: usize,
}

// The levels of a plan.
#[derive(Drop)]
pub struct Levels {
    heads: Vec<LevelHead>,
    tables: Vec<LevelTable>,
}

impl Model for Levels {
    ghost use Rattle.std.specs.Prelude.{All, List, ◌<◌, length};
    ghost use Rattle.region_plan.specs.Plan.{Level};
    ghost use Rattle.region_plan.specs.Kept.{levels_over};
    ghost use Rattle.region_plan.specs.declared.sharing.LevelHead.{LevelHead};

    ghost Value = { List Level };

    ghost view = { λ l. levels_over l.tables.items l.heads.items };

    ghost invariant = { λ l. All (λ (h : LevelHead). h.table < length l.tables.items)
        l.heads.items };
}

impl Levels {
    // No levels, with memory for so many.
    pub fn with_capacity(alloc: Global, count: usize) -> Result<Levels, OutOfMemory>
        ensures { IfOk result (λ levels. levels ≡ []) }
    {
        Ok(Levels {
            heads: Vec::with_capacity(alloc, count)?,
            tables: Vec::new(alloc),
        })
    }

    // Adds a level with a table of its own.
    pub fn push_table(
        &mut self,
        exponent: u32,
        threshold: u64,
        table: LevelTable,
    ) -> Result<(), OutOfMemory>
        ensures { OnOk result (self.new ≡ self.old ++ level_of exponent threshold table ∷ []) }
    {
        let place = self.tables.len();
        self.tables.push(table)?;
        self.heads.push(LevelHead {
            exponent,
            threshold,
            table: place,
        })?;
        Ok(())
    }

    // Adds a level that shares the table of the last one.
    pub fn push_shared(&mut self, exponent: u32, threshold: u64) -> Result<(), OutOfMemory>
        requires { 0 < length self.old }
        ensures { OnOk result (self.new ≡ self.old
            ++ level_with exponent threshold (level_in self.old (length self.old - 1)) ∷ []) }
    {
        let table = self.heads[self.heads.len() - 1].table;
        self.heads.push(LevelHead {
            exponent,
            threshold,
            table,
        })?;
        Ok(())
    }

    pub fn count(&self) -> usize
        ensures { result ≡ length self.now }
    {
        self.heads.len()
    }

    pub fn exponent(&self, i: u32) -> u32
        requires { i < length self.now }
        ensures { result ≡ (level_in self.now i).exponent }
    {
        self.heads[i as usize].exponent
    }

    pub fn threshold(&self, i: u32) -> u64
        requires { i < length self.now }
        ensures { result ≡ (level_in self.now i).threshold }
    {
        self.heads[i as usize].threshold
    }

    // Whether a level shares the table of the one below it.
    pub fn shares(&self, i: u32) -> bool
        requires { i < length self.now }
        ensures { result ≡ true → (0 < i)
            × (shape_of (level_in self.now i) ≡ shape_of (level_in self.now (i - 1))) }
    {
        if i == 0 {
            return false;
        }
        self.heads[i as usize].table == self.heads[i as usize - 1].table
    }

    // The table of a level.
    pub fn table(&self, i: u32) -> &LevelTable
        requires { i < length self.now }
        ensures { result.now ≡ shape_of (level_in self.now i) }
    {
        &self.tables[self.heads[i as usize].table]
    }
}
