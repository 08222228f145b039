//! A whole report: the lines of the calls, the lines of the order, and the end.
ghost use Rattle.std.specs.Prelude.{◌≡◌, ◌≤◌, ◌<◌, ◌^◌, ◌++◌, ◌∷◌, [], ℕ, List, Some, None, Ok, Err, IfSome, IfNone, IfOk, IfErr, OnOk, OnSome, drop, length, map, take};
ghost use Rattle.report_check.specs.Reading.{calls_in, numbers_in, order_in, order_line_count, orders_in, report_end, report_in};
ghost use Rattle.report_check.specs.ReadLines.{AreRead, IsReadLine, done_of, read_of, seen};

use crate::calls::{Bounds, Line};
use crate::cursor::Cursor;
use crate::slots::Slot;
use std::alloc::{AllocError, Global};

const MOST_ON_A_LINE: usize = 64;

/// What a report says.
#[derive(Drop)]
pub(crate) struct Report {
    pub(crate) calls: Vec<Line>,
    pub(crate) order: Vec<u64>,
}

// How many lines an order has.
fn line_count(order: &[u64]) -> usize
    ensures count { result ≡ order_line_count order.now }
    ensures few { result ≤ 2 ^ 58 }
{
    if order.len() % MOST_ON_A_LINE == 0 {
        order.len() / MOST_ON_A_LINE
    } else {
        order.len() / MOST_ON_A_LINE + 1
    }
}

impl<'a> Cursor<'a> {
    // The lines of calls, and how many could be read where one of them can't.
    fn calls(
        &mut self,
        alloc: Global,
        bounds: Bounds,
        slots: &[Slot],
    ) -> Result<Result<Vec<Line>, usize>, AllocError>
        ensures { IfOk result (λ read. AreRead (λ calls. map done_of calls.items)
            (calls_in bounds [] slots.now self.old.rest.now) read self.new.rest.now) }
    {
        let mut calls = Vec::new(alloc);
        'slots: for slot in slots {
            match self.call(bounds, *slot) {
                Some(line) => calls.push(line)?,
                None => return Ok(Err(calls.len())),
            }
        }
        Ok(Ok(calls))
    }

    // The numbers of a line up to its end, at most so many; whether the line has that form.
    fn numbers(&mut self, order: &mut Vec<u64>, room: usize) -> Result<Option<()>, AllocError>
        ensures { IfOk result (λ read. IsReadLine
            (numbers_in room order.old.items self.old.rest.now) read order.new.items
            self.new.rest.now) }
    {
        'numbers: for _number in 0..room {
            if self.line_end().is_some() {
                return Ok(Some(()));
            }
            match self.listed() {
                Some(number) => order.push(number)?,
                None => return Ok(None),
            }
        }
        Ok(self.line_end())
    }

    // The numbers of a line of the order, behind its word; whether the line has that form.
    fn order_line(&mut self, order: &mut Vec<u64>) -> Result<Option<()>, AllocError>
        ensures { IfOk result (λ read. IsReadLine
            (order_in order.old.items self.old.rest.now) read order.new.items
            self.new.rest.now) }
    {
        match self.listed() {
            Some(number) => order.push(number)?,
            None => return Ok(None),
        }
        self.numbers(order, MOST_ON_A_LINE - 1)
    }

    // The lines of the order, and how many could be read where one of them can't.
    fn order(&mut self, alloc: Global) -> Result<Result<Vec<u64>, usize>, AllocError>
        ensures read { IfOk result (λ read. AreRead (λ order. order.items)
            (orders_in (length self.old.rest.now) [] self.old.rest.now) read self.new.rest.now) }
        ensures few { IfOk result (λ read. IfErr read (λ lines. lines ≤ 2 ^ 58)) }
    {
        // A number takes two bytes at least.
        let mut order = Vec::with_capacity(alloc, self.rest.len() / 2)?;
        'lines: for _line in 0..self.rest.len() {
            if order.len() % MOST_ON_A_LINE != 0 {
                return Ok(Ok(order));
            }
            if self.word("order").is_none() {
                return Ok(Ok(order));
            }
            let lines = line_count(&order);
            if self.order_line(&mut order)?.is_none() {
                return Ok(Err(lines));
            }
        }
        Ok(Ok(order))
    }

    // Whether what a report says ends here, and else how many of its lines can be read.
    fn end(&mut self, report: &Report) -> Result<(), usize>
        ensures ok { IfOk result (λ done. report_end (seen report.now) self.old.rest.now
            ≡ Ok (seen report.now)) }
        ensures err { IfErr result (λ lines. report_end (seen report.now) self.old.rest.now
            ≡ Err lines) }
    {
        let lines = report.calls.len() + line_count(&report.order);
        match self.closing("end") {
            Some(visits) if visits == report.order.len() as u64 => {}
            _ => return Err(lines),
        }
        if !self.rest.is_empty() {
            return Err(lines + 1);
        }
        Ok(())
    }
}

// What a report says, or how many of its lines can be read.
pub(crate) fn read_report(
    alloc: Global,
    bounds: Bounds,
    slots: &[Slot],
    text: &[u8],
) -> Result<Result<Report, usize>, AllocError>
    ensures { IfOk result (λ read. read_of read ≡ report_in bounds slots.now text.now) }
{
    let mut cursor = Cursor { rest: text };
    let calls = match cursor.calls(alloc, bounds, slots)? {
        Ok(calls) => calls,
        Err(lines) => return Ok(Err(lines)),
    };
    let order = match cursor.order(alloc)? {
        Ok(order) => order,
        Err(lines) => return Ok(Err(calls.len() + lines)),
    };
    let report = Report { calls, order };
    match cursor.end(&report) {
        Ok(()) => Ok(Ok(report)),
        Err(lines) => Ok(Err(lines)),
    }
}
