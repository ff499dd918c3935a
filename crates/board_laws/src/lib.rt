//! All laws of runs together: every run of every board is safe. The laws themselves are those of the crates below,
//! taken by what they promise; they speak of the book of boards and of no code.
#![tactic(auto)]

mod laws;

pub use laws::{each_kept_run_is_safe, each_run_is_safe};
