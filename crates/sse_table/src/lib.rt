//! The table of a board's events: each instance with its state, its attributes and whether it is pending.
#![tactic(auto)]

mod instances;
mod pending;
mod places;
mod start;
mod table;
mod writes;

pub use pending::Pending;
pub use places::Place;
pub use sse_base::{AttrRange, Event, EventDecl, Slot};
pub use table::Table;
