//! How the program ends: by the answer of its command and by the flush behind it.
#![tactic(auto)]

mod failure;

pub use failure::{Failure, ended};
