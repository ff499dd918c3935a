//! The queues of all harts, as instances come and go.

ghost use Rattle.std.specs.Prelude.{◌≡◌, ◌<◌, ℕ, length, slice_index_or, [], true, false};
ghost use Rattle.sse_base.specs.Ids.{FitsHarts};
ghost use Rattle.sse_base.specs.Choice.{is_hart, waits_for};
ghost use Rattle.sse_queue.specs.Order.{without};
ghost use Rattle.sse_target.specs.Lines.{line_for, waiting_of};
ghost use Rattle.sse_target.specs.Steps.{shown, waits_on, Takes, taken_if, put_if, moved, renewed};

use crate::choice::{target, waits, waits_on};
use sse_base::{Event, Instance, Slot};
use sse_queue::Queue;
use sse_table::Table;

/// An instance waits no longer on a hart, where it did.
fn take_out(queues: &mut [Queue], hart: Option<usize>, slot: &Slot)
    ensures { (h : ℕ) → h < length queues.old → slice_index_or queues.new h []
        ≡ taken_if (is_hart h hart) slot.now.at (slice_index_or queues.old h []) }
{
    if let Some(hart) = hart {
        if hart < queues.len() {
            let queue = &mut queues[hart];
            queue.leave(slot.at);
        }
    }
}

/// An instance waits on a hart from now on.
fn put_in(queues: &mut [Queue], hart: Option<usize>, slot: &Slot)
    requires { (h : ℕ) → h < length queues.old → is_hart h hart ≡ true
        → Takes (waiting_of slot.now) (slice_index_or queues.old h []) }
    ensures { (h : ℕ) → h < length queues.old → slice_index_or queues.new h []
        ≡ put_if (is_hart h hart) (waiting_of slot.now) (slice_index_or queues.old h []) }
{
    if let Some(hart) = hart {
        if hart < queues.len() {
            let queue = &mut queues[hart];
            queue.insert(slot.event.priority, slot.at);
        }
    }
}

/// An instance waits in a queue as urgent as it is now, or no longer.
fn wait_again(queue: &mut Queue, at: Instance, priority: u32, waits: bool)
    requires { waits ≡ true → Takes (record { priority = priority; at = at }) (without at queue.old) }
    ensures { queue.new ≡ put_if waits (record { priority = priority; at = at }) (without at queue.old) }
{
    queue.leave(at);
    if waits {
        queue.insert(priority, at);
    }
}

/// After an instance changed: on the hart on which it is delivered it waits, or no longer.
pub fn renew(queues: &mut [Queue], masks: &[bool], at: Instance, event: &Event, pending: bool)
    requires { (h : ℕ) → h < length queues.old → is_hart h (waits_on masks.now (shown at event.now pending)) ≡ true
        → Takes (waiting_of (shown at event.now pending)) (taken_if true at (slice_index_or queues.old h [])) }
    ensures { (h : ℕ) → h < length queues.old → slice_index_or queues.new h []
        ≡ renewed h masks.now (shown at event.now pending) (slice_index_or queues.old h []) }
{
    let Some(hart) = target(masks, at, event.preferred) else {
        return;
    };
    if hart >= queues.len() {
        return;
    }
    let waits = waits(event, pending);
    let queue = &mut queues[hart];
    wait_again(queue, at, event.priority, waits);
}

/// After masks changed: an instance waits where it is delivered now, if it waited.
fn follow(queues: &mut [Queue], before: &[bool], after: &[bool], slot: &Slot)
    requires { (h : ℕ) → h < length queues.old → waits_for h before.now slot.now ≡ false
        → waits_for h after.now slot.now ≡ true → Takes (waiting_of slot.now) (slice_index_or queues.old h []) }
    ensures { (h : ℕ) → h < length queues.old → slice_index_or queues.new h []
        ≡ moved (waits_for h before.now slot.now) (waits_for h after.now slot.now) (waiting_of slot.now)
        (slice_index_or queues.old h []) }
{
    let from = waits_on(before, slot);
    let to = waits_on(after, slot);
    if from == to {
        return;
    }
    take_out(queues, from, slot);
    put_in(queues, to, slot);
}

/// After masks changed: each instance waits where it is delivered now, if it waited.
pub fn follow_all(queues: &mut [Queue], before: &[bool], after: &[bool], table: &Table)
    requires board { FitsHarts table.now.instances }
    requires each { (h : ℕ) → h < length queues.old → slice_index_or queues.old h [] ≡ line_for h before.now table.now }
    ensures { (h : ℕ) → h < length queues.old → slice_index_or queues.new h [] ≡ line_for h after.now table.now }
{
    for i in 0..table.instances() {
        let slot = table.slot(i);
        follow(queues, before, after, &slot);
    }
}
