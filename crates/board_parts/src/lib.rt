//! The parts of a board: its firmware, its banks, its reporters and what is counted of its harts, and the steps of
//! harts and reporters on them.
#![tactic(auto)]

mod banks;
mod counting;
mod harts;
mod homes;
mod looks;
mod making;
mod outcome;
mod parts;
mod progress;
mod reporters;
mod signals;
mod told;

pub use outcome::Outcome;
pub use parts::Parts;
