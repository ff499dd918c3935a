//! The queue of the events that wait for one hart.
#![tactic(auto)]

mod queue;
mod scan;
mod urgency;

pub use queue::{Looks, Queue};
pub use urgency::{Urgency, Waiting, is_more_urgent};
