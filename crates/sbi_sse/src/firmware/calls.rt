//! The ten calls.

ghost use Rattle.std.specs.Prelude.{◌≡◌, ◌<◌, ◌≤◌, ◌+◌, ℕ, true, []};
ghost use Rattle.sse_base.specs.Machine.{reach};
ghost use Rattle.sse_base.specs.Words.{are_words};
ghost use Rattle.sse_base.specs.Calls.{function, interrupted_on, no_words, reads, write_range};
ghost use Rattle.hart_ctx.specs.Running.{word_of};
ghost use Rattle.sse_table.specs.Found.{IsPlace};
ghost use Rattle.sbi_sse.specs.Answered.{Answers};

use crate::firmware::Firmware;
use crate::parts::{elsewhere, find_range, interrupted, interrupted_here, nothing};
use hart_ctx::Saved;
use sse_base::{AttrRange, Function, Instance, SbiCode, State};
use sse_table::Place;

impl Firmware {
    /// Registers an event with where its handler begins and its argument.
    #[tactic(auto, using(crate::proofs::Places::stays))]
    pub(super) fn register(&mut self, hart: u8, args: [u64; 5]) -> SbiCode
        requires { hart < self.old.events.harts }
        ensures { Answers hart self.old self.new result no_words (function hart Function.Register args self.old.stacks
            (reach hart self.old)) }
    {
        let place = match self.table.look_up(args[0], hart) {
            Ok(place) => place,
            Err(code) => return code,
        };
        self.table.register_at(place, args[1], args[2])
    }

    /// Makes an event unused.
    #[tactic(auto, using(crate::proofs::Places::stays))]
    pub(super) fn unregister(&mut self, hart: u8, args: [u64; 5]) -> SbiCode
        requires { hart < self.old.events.harts }
        ensures { Answers hart self.old self.new result no_words (function hart Function.Unregister args self.old.stacks
            (reach hart self.old)) }
    {
        let place = match self.table.look_up(args[0], hart) {
            Ok(place) => place,
            Err(code) => return code,
        };
        self.table.unregister_at(place)
    }

    /// Enables an event.
    #[tactic(auto, using(crate::proofs::Places::stays))]
    pub(super) fn enable(&mut self, hart: u8, args: [u64; 5]) -> SbiCode
        requires { hart < self.old.events.harts }
        ensures { Answers hart self.old self.new result no_words (function hart Function.Enable args self.old.stacks
            (reach hart self.old)) }
    {
        let place = match self.table.look_up(args[0], hart) {
            Ok(place) => place,
            Err(code) => return code,
        };
        let code = self.table.enable_at(place);
        self.targets.renew(&self.table, place);
        code
    }

    /// Disables an event.
    #[tactic(auto, using(crate::proofs::Places::stays))]
    pub(super) fn disable(&mut self, hart: u8, args: [u64; 5]) -> SbiCode
        requires { hart < self.old.events.harts }
        ensures { Answers hart self.old self.new result no_words (function hart Function.Disable args self.old.stacks
            (reach hart self.old)) }
    {
        let place = match self.table.look_up(args[0], hart) {
            Ok(place) => place,
            Err(code) => return code,
        };
        let code = self.table.disable_at(place);
        self.targets.renew(&self.table, place);
        code
    }

    /// Completes the newest handler of the hart; where none runs nothing changes.
    #[tactic(auto, using(crate::proofs::Places::stays))]
    pub(super) fn complete(&mut self, hart: u8) -> SbiCode
        requires { hart < self.old.events.harts }
        ensures { Answers hart self.old self.new result no_words (function hart Function.Complete [] self.old.stacks
            (reach hart self.old)) }
    {
        let stack = &mut self.stacks[hart as usize];
        if let Some(at) = stack.complete() {
            let done = self.table.place_of(at);
            self.table.set_completed_at(done);
            self.targets.renew(&self.table, done);
        }
        SbiCode::Success
    }

    /// Unmasks the hart.
    #[tactic(auto, using(crate::proofs::Places::stays))]
    pub(super) fn unmask(&mut self, hart: u8) -> SbiCode
        requires { hart < self.old.events.harts }
        ensures { Answers hart self.old self.new result no_words (function hart Function.HartUnmask [] self.old.stacks
            (reach hart self.old)) }
    {
        self.targets.unmask(&self.table, hart)
    }

    /// Masks the hart.
    #[tactic(auto, using(crate::proofs::Places::stays))]
    pub(super) fn mask(&mut self, hart: u8) -> SbiCode
        requires { hart < self.old.events.harts }
        ensures { Answers hart self.old self.new result no_words (function hart Function.HartMask [] self.old.stacks
            (reach hart self.old)) }
    {
        self.targets.mask(&self.table, hart)
    }

    /// Signals an event, a local one on the hart that is named.
    #[tactic(auto, using(crate::proofs::Places::stays, crate::proofs::Injects::injected))]
    pub(super) fn inject(&mut self, hart: u8, args: [u64; 5]) -> SbiCode
        requires { hart < self.old.events.harts }
        ensures { Answers hart self.old self.new result no_words (function hart Function.Inject args self.old.stacks
            (reach hart self.old)) }
    {
        let place = match self.table.look_up(args[0], hart) {
            Ok(place) => place,
            Err(code) => return code,
        };
        if !self.table.event_at(place).inject {
            return SbiCode::InvalidParam;
        }
        let to = match elsewhere(place.at, args[1], self.table.harts()) {
            Some(to) => to,
            None => return SbiCode::InvalidParam,
        };
        match place.at {
            Instance::Global { .. } => self.signal_at(place),
            Instance::Local { .. } => self.signal(to),
        }
        SbiCode::Success
    }

    /// The INTERRUPTED attributes of an instance that may run: of a local one on its own hart.
    fn interrupted_by(&self, at: Instance) -> Saved
        ensures { (attr : ℕ) → word_of attr result ≡ interrupted_on attr at self.now.stacks }
    {
        match at {
            Instance::Local { hart, .. } => match self.stacks.get(hart as usize) {
                Some(stack) => interrupted_here(stack, at),
                None => nothing(),
            },
            Instance::Global { .. } => interrupted(&self.stacks, at),
        }
    }

    /// The INTERRUPTED attributes of an instance, which are 0 where it doesn't run.
    fn interrupted(&self, place: Place) -> Saved
        requires { IsPlace place self.now.events.instances }
        ensures { (attr : ℕ) → word_of attr result ≡ interrupted_on attr place.at self.now.stacks }
    {
        match self.table.event_at(place).state {
            State::Running => self.interrupted_by(place.at),
            _ => nothing(),
        }
    }

    /// All attributes of an instance.
    #[tactic(auto, using(crate::proofs::Interrupted::all_read))]
    fn attributes(&self, place: Place) -> [u64; 10]
        requires { IsPlace place self.now.events.instances }
        ensures { result ≡ reads 0 10 place.at self.now.stacks self.now.events }
    {
        let first = self.table.attributes_at(place);
        let last = self.interrupted(place);
        [
            first[0], first[1], first[2], first[3], first[4], first[5], last.sepc, last.flags,
            last.a6, last.a7,
        ]
    }

    /// Writes words to the attributes of a range, all or none, and notes them where they are taken.
    #[tactic(auto, using(crate::proofs::Places::stays, crate::proofs::Taken::over_blank))]
    fn write_range(
        &mut self,
        hart: u8,
        place: Place,
        range: AttrRange,
        lo: u64,
        written: &mut [u64; 10],
    ) -> SbiCode
        requires hart { hart < self.old.events.harts }
        requires place { IsPlace place self.old.events.instances }
        requires range { range.base + range.count ≤ 10 }
        requires words { are_words lo range.count ≡ true }
        requires blank { written.old ≡ no_words }
        ensures { Answers hart self.old self.new result written.new
            (write_range lo place.at (reach hart self.old) range) }
    {
        let values = self.memory.words_from(lo, range.count);
        let stack = &mut self.stacks[hart as usize];
        let code = self
            .table
            .check_write_at(place, range, values, stack.has(place.at));
        if !matches!(code, SbiCode::Success) {
            return code;
        }
        self.table.set_attrs_at(place, range.base, values);
        stack.write_interrupted(range.base, values, place.at);
        written[..range.count as usize].copy_from_slice(values);
        SbiCode::Success
    }

    /// Puts the attributes of an event into memory.
    #[tactic(auto, using(crate::proofs::Places::stays, crate::proofs::Gathered::range_read))]
    pub(super) fn read_attrs(&mut self, hart: u8, args: [u64; 5]) -> SbiCode
        requires { hart < self.old.events.harts }
        ensures { Answers hart self.old self.new result no_words (function hart Function.ReadAttrs args self.old.stacks
            (reach hart self.old)) }
    {
        let place = match self.table.look_up(args[0], hart) {
            Ok(place) => place,
            Err(code) => return code,
        };
        let range = match find_range(args) {
            Ok(range) => range,
            Err(code) => return code,
        };
        let words = self.attributes(place);
        let from = range.base as usize;
        let to = from + range.count as usize;
        self.memory.write_words(args[3], &words[from..to]);
        SbiCode::Success
    }

    /// Writes words in memory to the attributes of an event, all or none, and notes them where they are taken.
    #[tactic(auto, using(crate::proofs::Places::stays))]
    pub(super) fn write_attrs(
        &mut self,
        hart: u8,
        args: [u64; 5],
        written: &mut [u64; 10],
    ) -> SbiCode
        requires hart { hart < self.old.events.harts }
        requires blank { written.old ≡ no_words }
        ensures { Answers hart self.old self.new result written.new (function hart Function.WriteAttrs args
            self.old.stacks (reach hart self.old)) }
    {
        let place = match self.table.look_up(args[0], hart) {
            Ok(place) => place,
            Err(code) => return code,
        };
        match find_range(args) {
            Ok(range) => self.write_range(hart, place, range, args[3], written),
            Err(code) => code,
        }
    }
}
