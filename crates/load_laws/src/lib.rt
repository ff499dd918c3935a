//! What holds of the load's script for every number: the script book accepts it, and it is short enough to be read.
//! Each law is a public function with an empty body whose contract says it.
#![tactic(auto)]

mod laws;

pub use laws::{each_load_is_a_script, each_load_is_short};
