//! Which harts are masked, what waits for each, and which event is delivered next on a hart.
#![tactic(auto)]

mod choice;
mod lines;
mod targets;

pub use choice::picked;
pub use sse_queue::Looks;
pub use targets::Targets;
