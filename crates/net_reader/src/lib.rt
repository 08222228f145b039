//! The input text: its grammar, and a reader that takes it piece by piece.
#![tactic(auto)]

mod examples;
mod fault;
mod input;
mod known;
mod laws;
mod line;
mod line_end;
mod reader;
mod room;
mod said;
mod scan;
mod stop;
mod whole;
mod word;

pub use examples::{
    example_inputs, limits_of_inputs, lines_and_fields, order_of_causes, refused_examples,
};
pub use fault::{InputCause, InputFault, ReadRefusal};
pub use input::Input;
pub use laws::{inputs_are_valid, rows_are_the_table, text_says_one};
pub use reader::{MAX_BYTES, Reader, read_input};
pub use said::Call;
