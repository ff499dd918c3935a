//! The trace of a board's run and its reports.
#![tactic(auto)]

mod bank_lines;
mod fields;
mod hart_lines;
mod pages;
mod reports;
mod run_lines;
mod run_texts;
mod tracer;
mod walks;
mod writes;

pub use reports::{report, report_brief, trace};
pub use tracer::Tracer;
