//! Supervisor software events: ids, instances, states, codes and attributes, and in `specs/` the
//! written machine of events that every crate above is proved against.
#![tactic(auto)]

mod arrows;
mod attributes;
mod codes;
mod contexts;
mod events;
mod functions;
mod ids;
mod limits;

pub use arrows::{Move, State, next_state};
pub use attributes::{AttrRange, RangeFault, attr, attr_range, word_for};
pub use codes::{Reply, SbiCode};
pub use contexts::Privilege;
pub use events::{Event, EventDecl, Slot};
pub use functions::Function;
pub use ids::{EventClass, EventId, Instance};
pub use limits::{MAX_EVENTS, MAX_HARTS, MAX_INSTANCES};
