//! What a reporter does: the errors and raised events that come to a board from outside, and the devices that give
//! them.
#![tactic(auto)]

mod act;
mod device;
mod listed;
mod scrubber;
mod storm;

pub use act::Act;
pub use device::{ErrorDevice, Silent};
pub use listed::Listed;
pub use scrubber::Scrubber;
pub use storm::Storm;
