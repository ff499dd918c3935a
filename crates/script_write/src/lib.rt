//! Scripts: from plan to text, and from version 1 to version 2. The rules are the board book's, in
//! `board_plan/specs`.
#![tactic(auto)]

mod moving;
mod statement;
mod writing;

pub use moving::moved;
pub use writing::write;
