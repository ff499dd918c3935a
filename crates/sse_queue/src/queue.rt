//! The queue.

ghost use Rattle.std.specs.Prelude.{◌≡◌, ◌<◌, ◌≤◌, ◌+◌, ◌-◌, ◌^◌, length, true, false, []};
ghost use Rattle.std.specs.List.{insert, remove};
ghost use Rattle.sse_base.specs.Ids.{id_of};
ghost use Rattle.sse_queue.specs.Order.{holds, has_id, put_in, without, front, is_in_order};

use crate::scan::{spot_of, standing};
use crate::urgency::Waiting;
use arrayvec::ArrayVec;
use sse_base::{Instance, MAX_EVENTS};
use std::marker::Model;

/// How many questions queues were asked for their most urgent event.
#[derive(Clone, Copy, Debug, PartialEq, Eq)]
pub struct Looks {
    pub count: u64,
}

/// The events that wait for one hart, the most urgent first: at most one instance of each event of a board.
#[derive(Drop)]
pub struct Queue {
    items: Row,
}

/// What waits for one hart, in a row.
type Row = ArrayVec<Waiting, MAX_EVENTS>;

/// Puts one in where others follow.
#[inline(never)]
fn put_between(items: &mut Row, spot: usize, one: Waiting)
    requires room { length items.old.items < MAX_EVENTS }
    requires spot { spot ≤ length items.old.items }
    ensures { items.new.items ≡ insert items.old.items spot one }
{
    items.insert(spot, one);
}

/// Puts one in. Mostly none follows, and the others needn't make room.
#[inline]
#[tactic(auto, using(std::proofs::lemmas::List::Edits::insert_end))]
fn put(items: &mut Row, spot: usize, one: Waiting)
    requires room { length items.old.items < MAX_EVENTS }
    requires spot { spot ≤ length items.old.items }
    ensures { items.new.items ≡ insert items.old.items spot one }
{
    if spot == items.len() {
        items.push(one);
        return;
    }
    put_between(items, spot, one);
}

/// Takes one out where others follow.
#[inline(never)]
fn take_between(items: &mut Row, spot: usize)
    requires { spot < length items.old.items }
    ensures { items.new.items ≡ remove items.old.items spot }
{
    let _ = items.remove(spot);
}

/// Takes one out. Mostly none follows, and the others needn't close up.
#[inline]
#[tactic(auto, using(crate::proofs::Ends::take_last))]
fn take(items: &mut Row, spot: usize)
    requires { spot < length items.old.items }
    ensures { items.new.items ≡ remove items.old.items spot }
{
    if spot == items.len() - 1 {
        let _ = items.pop();
        return;
    }
    take_between(items, spot);
}

impl Model for Queue {
    ghost use Rattle.std.specs.Prelude.{◌≡◌, List, true};
    ghost use Rattle.sse_queue.specs.declared.urgency.Waiting.{Waiting};
    ghost use Rattle.sse_queue.specs.Order.{is_in_order};

    ghost Value = { List Waiting };

    ghost view = { λ q. q.items.items };

    ghost invariant = { λ q. is_in_order q.items.items ≡ true };
}

impl Default for Queue {
    fn default() -> Queue
        ensures { result ≡ [] }
    {
        Queue::new()
    }
}

impl Queue {
    /// A queue in which nothing waits.
    pub fn new() -> Queue
        ensures { result ≡ [] }
    {
        Queue {
            items: ArrayVec::new(),
        }
    }

    /// Whether an instance waits here.
    #[tactic(auto, using(crate::proofs::Places::holds_standing))]
    pub fn holds(&self, at: Instance) -> bool
        ensures { result ≡ holds at self.now }
    {
        standing(at, self.items.as_slice()) < self.items.len()
    }

    /// Lets an instance wait with this priority, behind all that are more urgent.
    #[inline]
    #[tactic(auto, using(crate::proofs::InOrder::put))]
    pub fn insert(&mut self, priority: u32, at: Instance)
        requires room { length self.old < MAX_EVENTS }
        requires id { has_id (id_of at) self.old ≡ false }
        ensures { self.new ≡ put_in (record { priority = priority; at = at }) self.old }
    {
        let one = Waiting { priority, at };
        let spot = spot_of(one, self.items.as_slice());
        put(&mut self.items, spot, one);
    }

    /// Lets an instance wait no longer; the others keep their order.
    pub fn remove(&mut self, at: Instance)
        requires { holds at self.old ≡ true }
        ensures { self.new ≡ without at self.old }
    {
        self.leave(at);
    }

    /// Lets an instance wait no longer, where it does; the others keep their order.
    #[inline]
    #[tactic(auto, using(crate::proofs::InOrder::left))]
    pub fn leave(&mut self, at: Instance)
        ensures { self.new ≡ without at self.old }
    {
        let spot = standing(at, self.items.as_slice());
        if spot < self.items.len() {
            take(&mut self.items, spot);
        }
    }

    /// The most urgent one, with its priority, which counts as one look. None exactly where nothing waits.
    pub fn first(&self, looks: &mut Looks) -> Option<(u32, Instance)>
        requires { looks.old.count < 2 ^ 64 - 1 }
        ensures first { result ≡ front self.now }
        ensures in_order { is_in_order self.now ≡ true }
        ensures looks { looks.new.count ≡ looks.old.count + 1 }
    {
        looks.count += 1;
        match self.items.first() {
            Some(item) => Some((item.priority, item.at)),
            None => None,
        }
    }
}
