//! What holds of events and their handlers in every run of every board. Each law is a public function with an empty
//! body whose contract says it. The laws speak of the books of events and boards, and of no code.
#![tactic(auto)]

mod laws;

pub use laws::{
    each_change_is_an_arrow, each_mark_is_told, each_nest_is_few, each_nest_rises,
    each_runs_in_its_frame, each_step_is_prompt, each_step_leaves_others,
};
