//! Plays a plan on a board, with its devices: its schedule where it has one, else rounds up to the first in which
//! nobody made a step.
#![tactic(auto)]

mod devices;
mod rounds;
mod tries;

pub use rounds::play_plan;
