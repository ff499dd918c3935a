//! What becomes of interrupted contexts in every run of every board: each is amended by what its hart's own notes tell,
//! and by nothing else. Each law is a public function without a body that promises it, and stands on the book of boards
//! alone, on no line of code.
#![tactic(auto)]

mod laws;

pub use laws::{
    each_base_is_amended, each_completion_restores, each_frame_is_amended, each_stack_is_told,
};
