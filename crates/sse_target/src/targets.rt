//! The masks and queues of all harts.

ghost use Rattle.std.specs.Prelude.{◌≡◌, ◌<◌, ◌≤◌, ◌+◌, ◌-◌, ◌^◌, ℕ, Option, length, slice_set, true, false, if◌then◌else◌};
ghost use Rattle.sse_base.specs.Ids.{FitsHarts};
ghost use Rattle.sse_base.specs.Events.{Events, IsOnBoard};
ghost use Rattle.sse_base.specs.Choice.{Urgency, is_masked, chosen};
ghost use Rattle.sse_base.specs.Calls.{mask, unmask};
ghost use Rattle.sse_table.specs.Found.{IsPlace};
ghost use Rattle.sse_target.specs.Lines.{fresh_lines, Holds, HoldsBut};
ghost use Rattle.sse_target.specs.Picked.{picked};

use crate::choice::{is_masked, picked};
use crate::lines::{follow_all, renew};
use arrayvec::ArrayVec;
use sse_base::{EventId, Instance, MAX_HARTS, SbiCode};
use sse_queue::{Looks, Queue};
use sse_table::{Place, Table};
use std::marker::Model;

/// Room for the most harts of a board.
const HARTS: usize = MAX_HARTS as usize;

/// Which harts of a board are masked, and for each hart the events that wait for it. A masked hart has no
/// delivery, and is no target of a global event.
#[derive(Drop)]
pub struct Targets {
    masks: ArrayVec<bool, HARTS>,
    queues: ArrayVec<Queue, HARTS>,
}

impl Model for Targets {
    ghost use Rattle.std.specs.Prelude.{◌≡◌, length};
    ghost use Rattle.sse_target.specs.Lines.{Lines};

    ghost Value = { Lines };

    ghost view = { λ t. record { masks = t.masks.items; queues = t.queues.items } };

    ghost invariant = { λ t. length t.queues.items ≡ length t.masks.items };
}

impl Targets {
    /// Harts that are all masked, where nothing waits.
    #[tactic(auto, using(crate::proofs::First::more_masks, crate::proofs::First::more_queues))]
    pub fn new(harts: u8) -> Targets
        requires { harts ≤ MAX_HARTS }
        ensures { result ≡ fresh_lines harts }
    {
        let mut masks = ArrayVec::new();
        let mut queues = ArrayVec::new();
        for _ in 0..harts {
            masks.push(true);
            queues.push(Queue::new());
        }
        Targets { masks, queues }
    }

    /// Whether a hart is masked. One that the board hasn't counts as masked.
    pub fn is_masked(&self, hart: u8) -> bool
        ensures { result ≡ is_masked hart self.now.masks }
    {
        is_masked(self.masks.as_slice(), hart)
    }

    /// Masks a hart or unmasks it, and lets each event wait where it is delivered now.
    fn set_mask(&mut self, table: &Table, hart: u8, masked: bool)
        requires hart { hart < length self.old.masks }
        requires board { FitsHarts table.now.instances }
        requires holds { Holds self.old table.now }
        ensures masks { self.new.masks ≡ slice_set self.old.masks hart masked }
        ensures holds { Holds self.new table.now }
    {
        let mut before: ArrayVec<bool, HARTS> = ArrayVec::new();
        let _ = before.try_extend_from_slice(self.masks.as_slice());
        self.masks[hart as usize] = masked;
        follow_all(
            self.queues.as_mut_slice(),
            before.as_slice(),
            self.masks.as_slice(),
            table,
        );
    }

    /// Masks a hart. One that is masked is already stopped; then nothing changes (SBI 3.0, "Supervisor
    /// Software Events", hart mask). The queues are those of the table, before and after.
    pub fn mask(&mut self, table: &Table, hart: u8) -> SbiCode
        requires hart { hart < length self.old.masks }
        requires board { FitsHarts table.now.instances }
        requires holds { Holds self.old table.now }
        ensures code { result ≡ (mask hart self.old.masks).0 }
        ensures masks { self.new.masks ≡ (mask hart self.old.masks).1 }
        ensures harts { length self.new.masks ≡ length self.old.masks }
        ensures holds { Holds self.new table.now }
    {
        if self.masks[hart as usize] {
            return SbiCode::AlreadyStopped;
        }
        self.set_mask(table, hart, true);
        SbiCode::Success
    }

    /// Unmasks a hart. One that is unmasked is already started; then nothing changes (SBI 3.0, "Supervisor
    /// Software Events", hart unmask). The queues are those of the table, before and after.
    pub fn unmask(&mut self, table: &Table, hart: u8) -> SbiCode
        requires hart { hart < length self.old.masks }
        requires board { FitsHarts table.now.instances }
        requires holds { Holds self.old table.now }
        ensures code { result ≡ (unmask hart self.old.masks).0 }
        ensures masks { self.new.masks ≡ (unmask hart self.old.masks).1 }
        ensures harts { length self.new.masks ≡ length self.old.masks }
        ensures holds { Holds self.new table.now }
    {
        if !self.masks[hart as usize] {
            return SbiCode::AlreadyStarted;
        }
        self.set_mask(table, hart, false);
        SbiCode::Success
    }

    /// Brings the queues up to date after an instance of the table changed its state, its priority or
    /// whether it is pending; the masks stay.
    pub fn on_change(&mut self, table: &Table, at: Instance)
        requires board { FitsHarts table.now.instances }
        requires on_board { IsOnBoard at table.now }
        requires holds { HoldsBut at self.old table.now }
        ensures masks { self.new.masks ≡ self.old.masks }
        ensures holds { Holds self.new table.now }
    {
        self.renew(table, table.place_of(at));
    }

    /// The same for an instance that was looked up before.
    pub fn renew(&mut self, table: &Table, place: Place)
        requires board { FitsHarts table.now.instances }
        requires place { IsPlace place table.now.instances }
        requires holds { HoldsBut place.at self.old table.now }
        ensures masks { self.new.masks ≡ self.old.masks }
        ensures holds { Holds self.new table.now }
    {
        let event = table.event_at(place);
        let pending = table.is_pending_at(place);
        renew(
            self.queues.as_mut_slice(),
            self.masks.as_slice(),
            place.at,
            event,
            pending,
        );
    }

    /// What comes first of all that waits for a hart, with its priority, for whatever runs there. None exactly
    /// where nothing waits or the hart is masked. It takes at most one look, and none where the hart is masked.
    pub fn first(&self, hart: u8, looks: &mut Looks) -> Option<(u32, Instance)>
        requires { looks.old.count < 2 ^ 64 - 1 }
        ensures chosen { (t : Events) → Holds self.now t → (top : Option Urgency)
            → picked result top ≡ chosen hart self.now.masks top t }
        ensures looks { looks.new.count ≡ looks.old.count + (if is_masked hart self.now.masks then 0 else 1) }
    {
        if is_masked(self.masks.as_slice(), hart) {
            return None;
        }
        self.queues[hart as usize].first(looks)
    }

    /// The instance that is delivered next on a hart where its newest handler is as urgent as `top`: the
    /// most urgent one that waits for it, where that is strictly more urgent. None exactly where there is
    /// none. It takes at most one look, and none where the hart is masked (SBI 3.0, "Supervisor Software
    /// Events", event priority; the target is this project's own).
    pub fn chosen(
        &self,
        hart: u8,
        top: Option<(u32, EventId)>,
        looks: &mut Looks,
    ) -> Option<Instance>
        requires { looks.old.count < 2 ^ 64 - 1 }
        ensures chosen { (t : Events) → Holds self.now t → result ≡ chosen hart self.now.masks top t }
        ensures looks { looks.new.count ≡ looks.old.count + (if is_masked hart self.now.masks then 0 else 1) }
    {
        picked(self.first(hart, looks), top)
    }
}
