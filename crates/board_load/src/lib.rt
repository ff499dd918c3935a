//! The script of a load, made from its number. The text is this project's own: `specs/Load.antt` says it line by line.
#![tactic(auto)]

mod board;
mod errors;
mod harts;
mod load;

pub use load::script;
