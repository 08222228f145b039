//! Inputs and reports as JSON, written byte for byte, and the text of an input out of its JSON.
#![tactic(auto)]

mod examples;
mod fault;
mod input;
mod laws;
mod lists;
mod report;
mod rows;
mod text;
mod values;

pub use examples::{example_input, example_report, example_rows, example_shapes, worked_shapes};
pub use fault::JsonFault;
pub use input::input_json;
pub use laws::{inputs_return, one_text, shapes_are_taken};
pub use report::{ReportParts, report_json};
pub use text::json_text;
