//! A checker of reports: whether a report, by whoever made it, is sound for an input, and else its
//! first flaw (docs/FORMATS.md, "The checker").
#![tactic(auto)]

mod blocks;
mod calls;
mod checker;
mod cursor;
mod cut;
mod examples;
mod examples_of_parts;
mod forms;
mod judge;
mod laws;
mod report;
mod slots;
mod told;
mod verdict;

pub use checker::check;
pub use cut::{CutText, cut_text};
pub use examples::{
    example_cuts, example_readings, example_verdicts, flaws_of_form, flaws_of_place,
    flaws_of_tickets, moves_by_commits, moves_by_tickets, moves_of_nobody, switches_by_tickets,
    worked_reports,
};
pub use examples_of_parts::{
    finds_of_off, first_flaws, lines_of_orders, moves_within_finds, texts_of_reports,
};
pub use forms::reports_are_read;
pub use laws::{calls_are_text, numbers_are_text, words_are_text};
pub use verdict::{Flaw, Verdict, verdict_line};
