//! The hart on which an instance is delivered, and what is chosen there.

ghost use Rattle.std.specs.Prelude.{◌≡◌, ◌&&◌, not, position};
ghost use Rattle.sse_base.specs.Choice.{is_masked, target};
ghost use Rattle.sse_base.specs.Events.{is_enabled};
ghost use Rattle.sse_target.specs.Picked.{picked};
ghost use Rattle.sse_target.specs.Steps.{waits_on};

use sse_base::{Event, Instance, Slot, State};
use sse_queue::{Urgency, is_more_urgent};

/// Whether a hart is masked. One that the board hasn't counts as masked.
pub fn is_masked(masks: &[bool], hart: u8) -> bool
    ensures { result ≡ is_masked hart masks.now }
{
    match masks.get(hart as usize) {
        Some(masked) => *masked,
        None => true,
    }
}

/// The unmasked hart of least number. None exactly where all are masked.
fn first_unmasked(masks: &[bool]) -> Option<usize>
    ensures { result ≡ position (λ masked. not masked) masks.now }
{
    masks.iter().position(|masked| !*masked)
}

/// The hart on which an instance is delivered. None exactly where it is global and all are masked.
#[tactic(auto, using(crate::proofs::First::first_is_position), unfolding(sse_base::specs::Choice::target))]
pub fn target(masks: &[bool], at: Instance, preferred: u8) -> Option<usize>
    ensures { result ≡ target at preferred masks.now }
{
    match at {
        Instance::Local { hart, .. } => Some(hart as usize),
        Instance::Global { .. } => {
            if is_masked(masks, preferred) {
                first_unmasked(masks)
            } else {
                Some(preferred as usize)
            }
        }
    }
}

/// Whether an instance waits: it is enabled and pending.
pub fn waits(event: &Event, pending: bool) -> bool
    ensures { result ≡ (is_enabled event.now.state && pending) }
{
    matches!(event.state, State::Enabled) && pending
}

/// The hart for which a slot's instance waits. None exactly where it isn't enabled, isn't pending, or is
/// delivered on no hart.
pub fn waits_on(masks: &[bool], slot: &Slot) -> Option<usize>
    ensures { result ≡ waits_on masks.now slot.now }
{
    if waits(&slot.event, slot.pending) {
        target(masks, slot.at, slot.event.preferred)
    } else {
        None
    }
}

/// The first of a queue with its priority, where nothing runs or where it is strictly more urgent than what runs.
pub fn picked(first: Option<(u32, Instance)>, top: Option<Urgency>) -> Option<Instance>
    ensures { result ≡ picked first top }
{
    let (priority, at) = first?;
    match top {
        Some(top) if !is_more_urgent((priority, at.id()), top) => None,
        _ => Some(at),
    }
}
