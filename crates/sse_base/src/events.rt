//! Events as a table keeps them.

use crate::arrows::State;
use crate::ids::{EventId, Instance};

/// An event that a board has.
#[derive(Clone, Copy, Debug, PartialEq, Eq)]
pub struct EventDecl {
    pub id: EventId,
    /// Whether software may inject it.
    pub inject: bool,
}

/// What is kept of one instance, but for the mark that it is pending (SBI 3.0, "Supervisor Software
/// Events", event attributes).
#[derive(Clone, Copy, Debug, PartialEq, Eq)]
pub struct Event {
    /// Whether software may inject it.
    pub inject: bool,
    pub state: State,
    /// The smaller, the more urgent.
    pub priority: u32,
    /// Whether a completion leaves it registered and not enabled.
    pub oneshot: bool,
    /// The hart that a global event prefers, or the own hart of a local one.
    pub preferred: u8,
    /// Where its handler begins.
    pub entry: u64,
    /// What its handler finds in `a7`.
    pub arg: u64,
}

/// An instance with what is kept of it, and whether it is pending.
#[derive(Clone, Copy, Debug, PartialEq, Eq)]
pub struct Slot {
    pub at: Instance,
    pub event: Event,
    pub pending: bool,
}
