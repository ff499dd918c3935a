//! Instances, and where they stand in a list.

ghost use Rattle.std.specs.Prelude.{◌≡◌};
ghost use Rattle.sse_base.specs.Ids.{place, instance_of};

use sse_base::{EventId, Instance};

/// Where an instance stands in a list, or the list's length where it doesn't.
#[inline(never)]
#[tactic(auto, unfolding(sse_base::specs::Ids::same_instance))]
pub fn place(instances: &[Instance], at: Instance) -> usize
    ensures { result ≡ place at instances.now }
{
    for (i, one) in instances.iter().enumerate() {
        if *one == at {
            return i;
        }
    }
    instances.len()
}

/// The instance of an event that a hart means: its own, or the global one.
pub fn instance_of(id: EventId, hart: u8) -> Instance
    ensures { result ≡ instance_of id.0 hart }
{
    if id.is_global() {
        Instance::Global { id }
    } else {
        Instance::Local { id, hart }
    }
}
