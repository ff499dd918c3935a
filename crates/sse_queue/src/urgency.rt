//! How urgent an event is.

ghost use Rattle.std.specs.Prelude.{◌≡◌};
ghost use Rattle.sse_base.specs.Choice.{is_more_urgent};
ghost use Rattle.sse_queue.specs.Order.{urgency_of};

use sse_base::{EventId, Instance};

/// How urgent an event is: its priority and its id, the smaller pair being the more urgent.
pub type Urgency = (u32, EventId);

/// Whether the first is strictly more urgent: its priority is smaller, or equal and its id is smaller (SBI
/// 3.0, "Supervisor Software Events", event priority).
#[tactic(auto, unfolding(sse_base::specs::Choice::is_more_urgent))]
pub fn is_more_urgent(a: Urgency, b: Urgency) -> bool
    ensures { result ≡ is_more_urgent a b }
{
    a.0 < b.0 || (a.0 == b.0 && a.1.0 < b.1.0)
}

/// An instance that waits, with the priority of its event.
#[derive(Clone, Copy, Debug, PartialEq, Eq)]
pub struct Waiting {
    /// The smaller, the more urgent.
    pub priority: u32,
    pub at: Instance,
}

impl Waiting {
    /// How urgent its event is.
    pub fn urgency(self) -> Urgency
        ensures { result ≡ urgency_of self }
    {
        (self.priority, self.at.id())
    }
}

/// What a queue's unused places hold.
impl Default for Waiting {
    fn default() -> Waiting {
        Waiting {
            priority: 0,
            at: Instance::Global { id: EventId(0) },
        }
    }
}
