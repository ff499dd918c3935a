//! The ops of a supervisor's program: what each does to its hart and to memory, on the firmware of
//! a board, and which op stands at an address.
#![tactic(auto)]

mod executing;
mod index;
mod registers;

pub use executing::{is_illegal, pass, step};
pub use index::OpIndex;
