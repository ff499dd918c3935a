//! Places among events that wait.

ghost use Rattle.std.specs.Prelude.{◌≡◌};
ghost use Rattle.sse_queue.specs.Places.{spot_of, standing};

use crate::urgency::{Waiting, is_more_urgent};
use sse_base::Instance;

/// Where an event belongs: before the first that it is as urgent as, or more.
pub fn spot_of(one: Waiting, items: &[Waiting]) -> usize
    ensures { result ≡ spot_of one items.now }
{
    for (i, item) in items.iter().enumerate() {
        if !is_more_urgent(item.urgency(), one.urgency()) {
            return i;
        }
    }
    items.len()
}

/// Where an instance stands, or how many wait where it doesn't.
#[tactic(auto, unfolding(sse_base::specs::Ids::same_instance))]
pub fn standing(at: Instance, items: &[Waiting]) -> usize
    ensures { result ≡ standing at items.now }
{
    for (i, item) in items.iter().enumerate() {
        if item.at == at {
            return i;
        }
    }
    items.len()
}
