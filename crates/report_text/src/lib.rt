//! Texts of plans, of reports and of refusals, as docs/FORMATS.md tells them.
#![tactic(auto)]

mod examples;
mod kept;
mod plan;
mod refusal;
mod report_lines;
mod sums;

pub use examples::{example_calls, example_fields, example_lines, example_summaries};
pub use plan::{PlanParts, plan_text};
pub use refusal::refused_line;
pub use report_lines::{Lines, report};
pub use sums::summary;
