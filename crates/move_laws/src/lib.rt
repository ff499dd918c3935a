//! What a move to version 2 keeps of a plan. Each law is a public function with an empty body whose contract says it.
//! The laws speak of the board book alone, and of no code.
#![tactic(auto)]

mod laws;

pub use laws::{move_changes_only_the_version, move_keeps_runs, move_keeps_tries};
