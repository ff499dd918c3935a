//! The table by the places of its instances, where they were looked up before.

ghost use Rattle.std.specs.Prelude.{◌≡◌, ◌≤◌, ◌+◌, length, slice_get, map, true, false, [], ◌∷◌, option_map};
ghost use Rattle.sse_base.specs.Attributes.{STATUS, PRIORITY, CONFIG, PREFERRED_HART, ENTRY_PC, ENTRY_ARG};
ghost use Rattle.sse_base.specs.Codes.{is_success};
ghost use Rattle.sse_base.specs.Events.{change, event, moved, is_pending, slots, signal, set_running, set_completed, is_enabled, is_running};
ghost use Rattle.sse_base.specs.Calls.{take_next, with_handler, register, unregister, enable, disable, attribute, check_write, some_word, is_refused_value, with_attributes};
ghost use Rattle.sse_table.specs.Found.{IsPlace};

use crate::places::Place;
use crate::table::Table;
use crate::writes::{some_never_written, some_refused_value, some_shut};
use sse_base::{AttrRange, Event, Move, SbiCode, State, attr, next_state, word_for};

impl Table {
    /// The event of an instance.
    pub fn event_at(&self, place: Place) -> &Event
        requires { IsPlace place self.now.instances }
        ensures { result.now ≡ event place.at self.now }
    {
        &self.each[place.index as usize]
    }

    /// Whether an instance is pending.
    pub fn is_pending_at(&self, place: Place) -> bool
        requires { IsPlace place self.now.instances }
        ensures pending { result ≡ is_pending place.at self.now }
        ensures slot { slice_get (slots self.now) place.index ≡ Some (record {
          at = place.at;
          event = event place.at self.now;
          pending = result;
        }) }
    {
        self.marks.test(place.index)
    }

    /// The first six attributes of an instance.
    #[tactic(auto, unfolding(sse_base::specs::Calls::attribute))]
    pub fn attributes_at(&self, place: Place) -> [u64; 6]
        requires { IsPlace place self.now.instances }
        ensures { result ≡ map (λ attr. attribute attr place.at self.now)
            (STATUS ∷ PRIORITY ∷ CONFIG ∷ PREFERRED_HART ∷ ENTRY_PC ∷ ENTRY_ARG ∷ []) }
    {
        let event = &self.each[place.index as usize];
        let pending = self.marks.test(place.index);
        [
            event.state.number() + 4 * pending as u64 + 8 * event.inject as u64,
            event.priority as u64,
            event.oneshot as u64,
            event.preferred as u64,
            event.entry,
            event.arg,
        ]
    }

    /// An instance makes a move. One whose state has no such arrow is in an invalid state; then nothing changes.
    fn go(&mut self, place: Place, mv: Move) -> SbiCode
        requires { IsPlace place self.old.instances }
        ensures code { result ≡ (take_next (moved mv (event place.at self.old)) place.at self.old).code }
        ensures next { self.new ≡ (take_next (moved mv (event place.at self.old)) place.at self.old).next }
        ensures refused { is_success result ≡ false → self.new ≡ self.old }
        ensures harts { self.new.harts ≡ self.old.harts }
        ensures instances { self.new.instances ≡ self.old.instances }
    {
        let event = &mut self.each[place.index as usize];
        let Some(state) = next_state(event.state, mv) else {
            return SbiCode::InvalidState;
        };
        event.state = state;
        SbiCode::Success
    }

    /// The same, with where the handler of the instance begins and its argument from then on.
    fn go_with(&mut self, place: Place, mv: Move, entry: u64, arg: u64) -> SbiCode
        requires { IsPlace place self.old.instances }
        ensures code { result ≡ (take_next (option_map (with_handler entry arg) (moved mv (event place.at self.old)))
            place.at self.old).code }
        ensures next { self.new ≡ (take_next (option_map (with_handler entry arg)
            (moved mv (event place.at self.old))) place.at self.old).next }
        ensures refused { is_success result ≡ false → self.new ≡ self.old }
        ensures harts { self.new.harts ≡ self.old.harts }
        ensures instances { self.new.instances ≡ self.old.instances }
    {
        let event = &mut self.each[place.index as usize];
        let Some(state) = next_state(event.state, mv) else {
            return SbiCode::InvalidState;
        };
        event.state = state;
        event.entry = entry;
        event.arg = arg;
        SbiCode::Success
    }

    /// Registers an instance with where its handler begins and its argument. An odd place is an invalid
    /// parameter, and an instance that isn't unused is in an invalid state; then nothing changes.
    pub fn register_at(&mut self, place: Place, pc: u64, arg: u64) -> SbiCode
        requires { IsPlace place self.old.instances }
        ensures code { result ≡ (register pc arg place.at self.old).code }
        ensures next { self.new ≡ (register pc arg place.at self.old).next }
        ensures refused { is_success result ≡ false → self.new ≡ self.old }
        ensures harts { self.new.harts ≡ self.old.harts }
        ensures instances { self.new.instances ≡ self.old.instances }
    {
        if pc % 2 == 1 {
            return SbiCode::InvalidParam;
        }
        self.go_with(place, Move::Register, pc, arg)
    }

    /// Makes an instance unused; its entry and its argument become 0, and all else stays. An instance that
    /// isn't registered is in an invalid state; then nothing changes.
    pub fn unregister_at(&mut self, place: Place) -> SbiCode
        requires { IsPlace place self.old.instances }
        ensures code { result ≡ (unregister place.at self.old).code }
        ensures next { self.new ≡ (unregister place.at self.old).next }
        ensures refused { is_success result ≡ false → self.new ≡ self.old }
        ensures harts { self.new.harts ≡ self.old.harts }
        ensures instances { self.new.instances ≡ self.old.instances }
    {
        self.go_with(place, Move::Unregister, 0, 0)
    }

    /// Enables an instance. One that isn't registered is in an invalid state; then nothing changes.
    pub fn enable_at(&mut self, place: Place) -> SbiCode
        requires { IsPlace place self.old.instances }
        ensures code { result ≡ (enable place.at self.old).code }
        ensures next { self.new ≡ (enable place.at self.old).next }
        ensures refused { is_success result ≡ false → self.new ≡ self.old }
        ensures harts { self.new.harts ≡ self.old.harts }
        ensures instances { self.new.instances ≡ self.old.instances }
    {
        self.go(place, Move::Enable)
    }

    /// Disables an instance. One that isn't enabled is in an invalid state; then nothing changes.
    pub fn disable_at(&mut self, place: Place) -> SbiCode
        requires { IsPlace place self.old.instances }
        ensures code { result ≡ (disable place.at self.old).code }
        ensures next { self.new ≡ (disable place.at self.old).next }
        ensures refused { is_success result ≡ false → self.new ≡ self.old }
        ensures harts { self.new.harts ≡ self.old.harts }
        ensures instances { self.new.instances ≡ self.old.instances }
    {
        self.go(place, Move::Disable)
    }

    /// An instance that is delivered runs, and is no longer pending.
    pub fn set_running_at(&mut self, place: Place)
        requires place { IsPlace place self.old.instances }
        requires enabled { is_enabled (event place.at self.old).state ≡ true }
        ensures { self.new ≡ set_running place.at self.old }
    {
        let event = &mut self.each[place.index as usize];
        event.state = State::Running;
        self.marks.clear(place.index);
    }

    /// An instance whose handler is done is enabled again, or registered where it is oneshot.
    pub fn set_completed_at(&mut self, place: Place)
        requires place { IsPlace place self.old.instances }
        requires running { is_running (event place.at self.old).state ≡ true }
        ensures { self.new ≡ set_completed place.at self.old }
    {
        let event = &mut self.each[place.index as usize];
        event.state = if event.oneshot {
            State::Registered
        } else {
            State::Enabled
        };
    }

    /// Makes an instance pending, in whatever state it is.
    pub fn signal_at(&mut self, place: Place)
        requires { IsPlace place self.old.instances }
        ensures { self.new ≡ signal place.at self.old }
    {
        self.marks.set(place.index);
    }

    /// Whether these values can be written to a range of an instance's attributes: an attribute of it is
    /// never written, or not now, or its value is refused, each of these over the whole range before the
    /// next (the order is this project's own).
    pub fn check_write_at(
        &self,
        place: Place,
        range: AttrRange,
        values: &[u64],
        running_here: bool,
    ) -> SbiCode
        requires place { IsPlace place self.now.instances }
        requires range { range.base + range.count ≤ 10 }
        requires count { length values.now ≡ range.count }
        ensures { result ≡ check_write range.base values.now place.at running_here self.now }
    {
        let state = self.each[place.index as usize].state;
        if some_never_written(place.at, range) {
            SbiCode::Denied
        } else if some_shut(state, running_here, range) {
            SbiCode::InvalidState
        } else if some_refused_value(self.harts, range.base, values) {
            SbiCode::InvalidParam
        } else {
            SbiCode::Success
        }
    }

    /// Writes values to the attributes of an instance from `base` on, all at once; those of them that are
    /// no priority, oneshot mark or preferred hart are passed over.
    #[tactic(auto, using(crate::proofs::Checks::priority_fits, crate::proofs::Checks::preferred_fits))]
    pub fn set_attrs_at(&mut self, place: Place, base: u8, values: &[u64])
        requires place { IsPlace place self.old.instances }
        requires accepted { some_word (is_refused_value self.old.harts) base values.now ≡ false }
        ensures { self.new ≡ change place.at (with_attributes base values.now (event place.at self.old)) self.old }
    {
        let i = place.index as usize;
        let old = self.each[i];
        let event = &mut self.each[i];
        event.priority = word_for(attr::PRIORITY, base, values, old.priority as u64) as u32;
        event.oneshot = word_for(attr::CONFIG, base, values, old.oneshot as u64) == 1;
        event.preferred = word_for(attr::PREFERRED_HART, base, values, old.preferred as u64) as u8;
    }
}
