//! A board behind a lock, and its workers: one for each hart and reporter, each of which makes the steps of its actor.
#![tactic(auto)]

mod gate;
mod handing;
mod hands;
mod hiring;
mod lent;
mod lock;
mod replaying;
mod running;
mod worker;

pub use gate::{Gate, OpenGate};
pub use hiring::{hire, rewind_all};
pub use lent::Lent;
pub use lock::{Shared, rounds, work};
pub use replaying::replay;
pub use running::run_plan;
pub use worker::Worker;
