//! A bank of a board: its error records, the slot in which its blocks are published, and its drain, as one value.
#![tactic(auto)]

mod drained;

pub use drained::BoardBank;
