//! How many errors have each fate, kept along with a run: a tally takes note after note and looks back at none.
#![tactic(auto)]

mod tally;

pub use tally::Tally;
