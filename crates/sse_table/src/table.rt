//! The table.

mod by_place;

ghost use Rattle.std.specs.Prelude.{◌≡◌, ◌<◌, ◌≤◌, ◌+◌, length, slice_get, IfOk, MatchResult, true, false, [], ◌∷◌};
ghost use Rattle.sse_base.specs.Codes.{is_success};
ghost use Rattle.sse_base.specs.Ids.{place};
ghost use Rattle.sse_base.specs.Events.{IsOnBoard, is_on_board, change, event, start_events, slots, signal, set_running, set_completed, is_enabled, is_running};
ghost use Rattle.sse_base.specs.Calls.{find_instance, register, unregister, enable, disable, attribute, check_write, some_word, is_refused_value, with_attributes};
ghost use Rattle.sse_table.specs.Found.{IsPlace};

use crate::instances::instance_of;
use crate::pending::Pending;
use crate::places::{Place, Places};
use crate::start;
use ras_io::NoMemory;
use sse_base::{
    AttrRange, Event, EventClass, EventDecl, EventId, Instance, MAX_EVENTS, MAX_HARTS,
    MAX_INSTANCES, SbiCode, Slot, attr,
};
use std::alloc::{AllocError, Global};
use std::marker::Model;

/// The events of a board: by id and then by hart each instance, its event and whether it is pending.
#[derive(Drop)]
pub struct Table {
    harts: u8,
    instances: Places,
    each: Vec<Event>,
    marks: Pending,
}

impl Model for Table {
    ghost use Rattle.std.specs.Prelude.{◌≡◌, ◌≤◌, length};
    ghost use Rattle.sse_base.specs.Events.{Events};
    ghost use Rattle.sse_base.specs.declared.limits.TheConstants.{MAX_INSTANCES};

    ghost Value = { Events };

    ghost view = { λ t. record {
      harts = t.harts;
      instances = t.instances;
      each = t.each.items;
      marks = t.marks;
    } };

    ghost invariant = { λ t.
        (length t.each.items ≡ length t.instances)
        × (length t.marks ≡ length t.instances)
        × (length t.instances ≤ MAX_INSTANCES) };
}

/// The table at the start of a board.
#[tactic(auto, using(crate::proofs::Orders::sizes))]
fn made(alloc: Global, harts: u8, events: &[EventDecl]) -> Result<Table, AllocError>
    requires harts { harts ≤ MAX_HARTS }
    requires events { length events.now ≤ MAX_EVENTS }
    ensures { IfOk result (λ t. t ≡ start_events harts events.now) }
{
    let ordered = start::in_order(alloc, events)?;
    let instances = start::instances(alloc, harts, &ordered)?;
    let each = start::events(alloc, harts, &ordered)?;
    let marks = Pending::new(instances.len() as u16);
    Ok(Table {
        harts,
        instances: Places::new(instances),
        each,
        marks,
    })
}

impl Table {
    /// The events of a board of so many harts at its start, where nobody has used any. `NoMemory` comes
    /// where no room was found for them.
    pub fn new(alloc: Global, harts: u8, events: &[EventDecl]) -> Result<Table, NoMemory>
        requires harts { harts ≤ MAX_HARTS }
        requires events { length events.now ≤ MAX_EVENTS }
        ensures { IfOk result (λ t. t ≡ start_events harts events.now) }
    {
        match made(alloc, harts, events) {
            Ok(table) => Ok(table),
            Err(_) => Err(NoMemory),
        }
    }

    /// How many harts the board has.
    pub fn harts(&self) -> u8
        ensures { result ≡ self.now.harts }
    {
        self.harts
    }

    /// The instance that an id means on a hart, and its number. An id above 32 bits or of a reserved class is an
    /// invalid parameter, and another one that isn't on the board is not supported (the order is this project's
    /// own).
    #[inline(always)]
    #[tactic(auto, unfolding(sse_base::specs::Calls::is_reserved))]
    pub fn look_up(&self, id: u64, hart: u8) -> Result<Place, SbiCode>
        ensures found { MatchResult result (λ p. find_instance id hart self.now ≡ Ok p.at)
            (λ code. find_instance id hart self.now ≡ Err code) }
        ensures place { IfOk result (λ p. IsPlace p self.now.instances) }
    {
        if id > u32::MAX as u64 {
            return Err(SbiCode::InvalidParam);
        }
        let id = EventId(id as u32);
        if matches!(id.class(), EventClass::Reserved) {
            return Err(SbiCode::InvalidParam);
        }
        let at = instance_of(id, hart);
        let index = self.instances.place(at);
        if index < self.instances.len() {
            let index = index as u16;
            Ok(Place { at, index })
        } else {
            Err(SbiCode::NotSupported)
        }
    }

    /// The instance that an id means on a hart. An id above 32 bits or of a reserved class is an invalid
    /// parameter, and another one that isn't on the board is not supported (the order is this project's own).
    pub fn find(&self, id: u64, hart: u8) -> Result<Instance, SbiCode>
        ensures found { result ≡ find_instance id hart self.now }
        ensures on_board { IfOk result (λ at. IsOnBoard at self.now) }
    {
        match self.look_up(id, hart) {
            Ok(place) => Ok(place.at),
            Err(code) => Err(code),
        }
    }

    /// An instance and its number.
    pub fn place_of(&self, at: Instance) -> Place
        requires { IsOnBoard at self.now }
        ensures at { result.at ≡ at }
        ensures place { IsPlace result self.now.instances }
    {
        let index = self.instances.place(at) as u16;
        Place { at, index }
    }

    /// Whether the board has an instance.
    pub fn has(&self, at: Instance) -> bool
        ensures { result ≡ is_on_board at self.now }
    {
        self.instances.place(at) < self.instances.len()
    }

    /// How many instances the board has.
    #[tactic(auto, using(crate::proofs::Slots::slots_length))]
    pub fn instances(&self) -> u16
        ensures instances { result ≡ length self.now.instances }
        ensures events { result ≡ length self.now.each }
        ensures marks { result ≡ length self.now.marks }
        ensures slots { result ≡ length (slots self.now) }
        ensures at_most { result ≤ MAX_INSTANCES }
    {
        self.instances.len() as u16
    }

    /// The instance with this number, by id and then by hart, from 0.
    pub fn instance(&self, index: u16) -> Instance
        requires { index < length self.now.instances }
        ensures { slice_get self.now.instances index ≡ Some result }
    {
        self.instances.at(index as usize)
    }

    /// The instance with this number, its event and whether it is pending.
    #[tactic(auto, using(crate::proofs::Slots::slot_at))]
    pub fn slot(&self, index: u16) -> Slot
        requires { index < length self.now.instances }
        ensures { slice_get (slots self.now) index ≡ Some result }
    {
        let i = index as usize;
        Slot {
            at: self.instances.at(i),
            event: self.each[i],
            pending: self.marks.test(index),
        }
    }

    /// An instance with its event and whether it is pending.
    #[tactic(auto, using(crate::proofs::Slots::slot_at, sse_base::proofs::Instances::at_its_place))]
    pub fn slot_of(&self, at: Instance) -> Slot
        requires { IsOnBoard at self.now }
        ensures slot { slice_get (slots self.now) (place at self.now.instances) ≡ Some result }
        ensures at { result.at ≡ at }
        ensures event { result.event ≡ event at self.now }
    {
        let i = self.instances.place(at);
        Slot {
            at,
            event: self.each[i],
            pending: self.marks.test(i as u16),
        }
    }

    /// Registers an instance with where its handler begins and its argument. An odd place is an invalid
    /// parameter, and an instance that isn't unused is in an invalid state; then nothing changes.
    pub fn register(&mut self, at: Instance, pc: u64, arg: u64) -> SbiCode
        requires { IsOnBoard at self.old }
        ensures code { result ≡ (register pc arg at self.old).code }
        ensures next { self.new ≡ (register pc arg at self.old).next }
        ensures refused { is_success result ≡ false → self.new ≡ self.old }
        ensures harts { self.new.harts ≡ self.old.harts }
        ensures instances { self.new.instances ≡ self.old.instances }
    {
        let place = self.place_of(at);
        self.register_at(place, pc, arg)
    }

    /// Makes an instance unused; its entry and its argument become 0, and all else stays. An instance that
    /// isn't registered is in an invalid state; then nothing changes.
    pub fn unregister(&mut self, at: Instance) -> SbiCode
        requires { IsOnBoard at self.old }
        ensures code { result ≡ (unregister at self.old).code }
        ensures next { self.new ≡ (unregister at self.old).next }
        ensures refused { is_success result ≡ false → self.new ≡ self.old }
        ensures harts { self.new.harts ≡ self.old.harts }
        ensures instances { self.new.instances ≡ self.old.instances }
    {
        let place = self.place_of(at);
        self.unregister_at(place)
    }

    /// Enables an instance. One that isn't registered is in an invalid state; then nothing changes.
    pub fn enable(&mut self, at: Instance) -> SbiCode
        requires { IsOnBoard at self.old }
        ensures code { result ≡ (enable at self.old).code }
        ensures next { self.new ≡ (enable at self.old).next }
        ensures refused { is_success result ≡ false → self.new ≡ self.old }
        ensures harts { self.new.harts ≡ self.old.harts }
        ensures instances { self.new.instances ≡ self.old.instances }
    {
        let place = self.place_of(at);
        self.enable_at(place)
    }

    /// Disables an instance. One that isn't enabled is in an invalid state; then nothing changes.
    pub fn disable(&mut self, at: Instance) -> SbiCode
        requires { IsOnBoard at self.old }
        ensures code { result ≡ (disable at self.old).code }
        ensures next { self.new ≡ (disable at self.old).next }
        ensures refused { is_success result ≡ false → self.new ≡ self.old }
        ensures harts { self.new.harts ≡ self.old.harts }
        ensures instances { self.new.instances ≡ self.old.instances }
    {
        let place = self.place_of(at);
        self.disable_at(place)
    }

    /// An instance that is delivered runs, and is no longer pending.
    pub fn set_running(&mut self, at: Instance)
        requires on_board { IsOnBoard at self.old }
        requires enabled { is_enabled (event at self.old).state ≡ true }
        ensures { self.new ≡ set_running at self.old }
    {
        let place = self.place_of(at);
        self.set_running_at(place);
    }

    /// An instance whose handler is done is enabled again, or registered where it is oneshot.
    pub fn set_completed(&mut self, at: Instance)
        requires on_board { IsOnBoard at self.old }
        requires running { is_running (event at self.old).state ≡ true }
        ensures { self.new ≡ set_completed at self.old }
    {
        let place = self.place_of(at);
        self.set_completed_at(place);
    }

    /// Makes an instance pending, in whatever state it is.
    pub fn signal(&mut self, at: Instance)
        requires { IsOnBoard at self.old }
        ensures { self.new ≡ signal at self.old }
    {
        let place = self.place_of(at);
        self.signal_at(place);
    }

    /// Whether software may inject an instance.
    pub fn may_inject(&self, at: Instance) -> bool
        requires { IsOnBoard at self.now }
        ensures { result ≡ (event at self.now).inject }
    {
        self.each[self.instances.place(at)].inject
    }

    /// The priority of an instance: the smaller, the more urgent.
    pub fn priority(&self, at: Instance) -> u32
        requires { IsOnBoard at self.now }
        ensures { result ≡ (event at self.now).priority }
    {
        self.each[self.instances.place(at)].priority
    }

    /// Where the handler of an instance begins.
    pub fn entry(&self, at: Instance) -> u64
        requires { IsOnBoard at self.now }
        ensures { result ≡ (event at self.now).entry }
    {
        self.each[self.instances.place(at)].entry
    }

    /// What the handler of an instance finds in a7.
    pub fn arg(&self, at: Instance) -> u64
        requires { IsOnBoard at self.now }
        ensures { result ≡ (event at self.now).arg }
    {
        self.each[self.instances.place(at)].arg
    }

    /// One of the first six attributes of an instance.
    #[tactic(auto, unfolding(sse_base::specs::Calls::attribute))]
    pub fn get_attr(&self, at: Instance, attr: u8) -> u64
        requires on_board { IsOnBoard at self.now }
        requires attribute { attr ≤ 5 }
        ensures { result ≡ attribute attr at self.now }
    {
        let i = self.instances.place(at);
        let event = self.each[i];
        match attr {
            attr::STATUS => {
                event.state.number()
                    + 4 * self.marks.test(i as u16) as u64
                    + 8 * event.inject as u64
            }
            attr::PRIORITY => event.priority as u64,
            attr::CONFIG => event.oneshot as u64,
            attr::PREFERRED_HART => event.preferred as u64,
            attr::ENTRY_PC => event.entry,
            _ => event.arg,
        }
    }

    /// Whether these values can be written to a range of an instance's attributes: an attribute of it is
    /// never written, or not now, or its value is refused, each of these over the whole range before the
    /// next (the order is this project's own).
    pub fn check_write(
        &self,
        at: Instance,
        range: AttrRange,
        values: &[u64],
        running_here: bool,
    ) -> SbiCode
        requires on_board { IsOnBoard at self.now }
        requires range { range.base + range.count ≤ 10 }
        requires count { length values.now ≡ range.count }
        ensures { result ≡ check_write range.base values.now at running_here self.now }
    {
        self.check_write_at(self.place_of(at), range, values, running_here)
    }

    /// Writes values to the attributes of an instance from `base` on, all at once; those of them that are
    /// no priority, oneshot mark or preferred hart are passed over.
    pub fn set_attrs(&mut self, at: Instance, base: u8, values: &[u64])
        requires on_board { IsOnBoard at self.old }
        requires accepted { some_word (is_refused_value self.old.harts) base values.now ≡ false }
        ensures { self.new ≡ change at (with_attributes base values.now (event at self.old)) self.old }
    {
        let place = self.place_of(at);
        self.set_attrs_at(place, base, values);
    }

    /// Writes a value to attribute 1, 2 or 3 of an instance: its priority, oneshot mark or preferred hart.
    pub fn set_attr(&mut self, at: Instance, attr: u8, value: u64)
        requires on_board { IsOnBoard at self.old }
        requires first { 1 ≤ attr }
        requires last { attr ≤ 3 }
        requires accepted { is_refused_value self.old.harts attr value ≡ false }
        ensures { self.new ≡ change at (with_attributes attr (value ∷ []) (event at self.old)) self.old }
    {
        self.set_attrs(at, attr, &[value]);
    }
}
