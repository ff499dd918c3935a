//! What holds of the fates of errors in every run of every board. Each law is a public function with an empty body
//! whose contract says it. The laws speak of the books of records and boards, and of no code.
#![tactic(auto)]

mod laws;

pub use laws::{each_drained_was_published, each_error_has_one_fate, fates_add_up};
