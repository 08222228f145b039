//! The top calls: what the program's words tell it to do, from the bytes read to the bytes written.
#![tactic(auto)]

mod answer;
mod census;
mod cost;
mod json;
mod judging;
mod laws;
mod outlet;
mod pieces;
mod run;
mod status;
mod stop;
mod stretch;
mod told;
mod top;
mod transfer;
mod trial;
mod writing;
mod wrong;

pub use laws::{
    bytes_have_one_text, complete, reports_tell, runs_are_replayed, stretches_tell, texts_tell,
};
pub use told::{told_refusals, told_results, told_stretches, told_sums};
pub use top::{command, command_with_threads};
pub use wrong::{
    told_laws, told_numbers, wrong_counts, wrong_ends, wrong_ends_alone, wrong_faults,
    wrong_lengths, wrong_rests,
};
