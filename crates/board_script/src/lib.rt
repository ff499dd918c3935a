//! Scripts: from text to plan, and from plan to text. The rules are the board book's, in `board_plan/specs`.
#![tactic(auto)]

mod banks;
mod fault;
mod half;
mod op_forms;
mod op_table;
mod program;
mod reading;
mod reporters;
mod schedule;
mod words;
mod writing;

pub use board_plan::LineFault;
pub use fault::ScriptError;
pub use reading::read;
pub use writing::{moved, write};
