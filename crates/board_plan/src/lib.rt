//! What is played on a board: the plan that a script gives, the steps that are made and their notes;
//! and in `specs/` the board book, the written machine of a whole board, its scripts and its reports.
#![tactic(auto)]

mod list;
mod next_words;
mod notes;
mod ops;
mod plan;
mod texts;

pub use list::List;
pub use next_words::{put_next_dec, put_next_hex, put_next_hexes, put_next_signed, put_next_word};
pub use notes::{Counts, Fates, Published, Step, StepNote};
pub use ops::{Op, Placed, Reg};
pub use plan::{BankDecl, LineFault, Plan, RecDecl, Reporter, Start};
pub use texts::{note_text, reg_word, severity_word};
