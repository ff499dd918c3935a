//! The firmware: what it keeps, and all but its calls.

mod calls;

ghost use Rattle.std.specs.Prelude.{◌≡◌, ◌<◌, ◌≤◌, length, true, false, slice_set, slice_get, IfOk, MatchOption, if◌then◌else◌, is_some, unwrap_or};
ghost use Rattle.sse_base.specs.Codes.{is_success};
ghost use Rattle.sse_base.specs.Events.{IsOnBoard, is_on_board, signal};
ghost use Rattle.sse_base.specs.Contexts.{with_pc};
ghost use Rattle.sse_base.specs.Words.{load, store, is_word};
ghost use Rattle.sse_base.specs.Machine.{reach, placed, stack_of};
ghost use Rattle.sse_base.specs.Choice.{next_for, top_urgency};
ghost use Rattle.sse_base.specs.Calls.{call, delivered, no_words};
ghost use Rattle.hart_ctx.specs.Registers.{regs_of, with_regs};
ghost use Rattle.hart_ctx.specs.Running.{running_in};
ghost use Rattle.sse_table.specs.Found.{IsPlace};
ghost use Rattle.sse_target.specs.Lines.{Holds};
ghost use Rattle.std.specs.Borrow.{sem};
ghost use Rattle.sbi_sse.specs.Lending.{LendsMemory};
ghost use Rattle.sse_base.specs.Start.{are_distinct, start_machine};

use crate::parts::{CallNote, stacks};
use hart_ctx::{Contexts, Memory, Regs, Saved};
use ras_io::NoMemory;
use sse_base::{EventDecl, EventId, Function, Instance, MAX_EVENTS, MAX_HARTS, Reply, SbiCode};
use sse_table::{Place, Table};
use sse_target::{Looks, Targets, picked};
use std::alloc::Global;
use std::marker::Model;

/// The extension id of supervisor software events.
const EXTENSION: u64 = 0x53_5345;

/// The firmware of a board: its events, which harts are masked, what waits for each hart and what it runs, and
/// memory.
#[derive(Drop)]
pub struct Firmware {
    table: Table,
    targets: Targets,
    stacks: Vec<Contexts>,
    memory: Memory,
}

impl Model for Firmware {
    ghost use Rattle.sse_base.specs.Machine.{Machine};

    ghost Value = { Machine };

    ghost view = { λ f. record {
      events = f.table;
      masks = f.targets.masks;
      stacks = f.stacks.items;
      memory = f.memory;
    } };

    ghost use Rattle.sbi_sse.specs.Kept.{Stands};

    ghost invariant = { λ f. Stands f.table f.targets f.stacks.items };
}

impl Firmware {
    /// The firmware of a board at its start, with each hart at its own place and masked, and no event used.
    /// `NoMemory` comes where no room was found.
    pub fn new(
        alloc: Global,
        harts: u8,
        events: &[EventDecl],
        starts: &[u64],
    ) -> Result<Firmware, NoMemory>
        requires harts { harts ≤ MAX_HARTS }
        requires events { length events.now ≤ MAX_EVENTS }
        requires distinct { are_distinct events.now ≡ true }
        requires starts { length starts.now ≡ harts }
        ensures { IfOk result (λ f. f ≡ start_machine harts events.now starts.now) }
    {
        let table = Table::new(alloc, harts, events)?;
        let stacks = match stacks(alloc, starts) {
            Ok(stacks) => stacks,
            Err(_) => return Err(NoMemory),
        };
        Ok(Firmware {
            table,
            targets: Targets::new(harts),
            stacks,
            memory: Memory::new(),
        })
    }

    /// How many harts the board has: each has a stack and a mask.
    pub fn harts(&self) -> u8
        ensures harts { result ≡ self.now.events.harts }
        ensures stacks { length self.now.stacks ≡ result }
        ensures masks { length self.now.masks ≡ result }
    {
        self.table.harts()
    }

    /// The registers of a hart.
    pub fn regs(&self, hart: u8) -> &Regs
        requires { hart < self.now.events.harts }
        ensures { result.now ≡ regs_of (stack_of hart self.now) }
    {
        self.stacks[hart as usize].regs()
    }

    /// How many handlers run on a hart.
    pub fn depth(&self, hart: u8) -> usize
        requires { hart < self.now.events.harts }
        ensures depth { result ≡ length (stack_of hart self.now).frames }
        ensures at_most_eight { result ≤ 8 }
    {
        self.stacks[hart as usize].depth()
    }

    /// The handler with number `k` of a hart, where 0 is the oldest, and its INTERRUPTED attributes.
    pub fn running(&self, hart: u8, k: usize) -> (Instance, Saved)
        requires hart { hart < self.now.events.harts }
        requires handler { k < length (stack_of hart self.now).frames }
        ensures { slice_get (running_in (stack_of hart self.now).frames (stack_of hart self.now).base) k ≡ Some result }
    {
        self.stacks[hart as usize].running(k)
    }

    /// The events.
    pub fn table(&self) -> &Table
        ensures { result.now ≡ self.now.events }
    {
        &self.table
    }

    /// Which harts are masked, and what waits for each.
    pub fn targets(&self) -> &Targets
        ensures masks { result.now.masks ≡ self.now.masks }
        ensures holds { Holds result.now self.now.events }
    {
        &self.targets
    }

    /// The memory.
    pub fn memory(&self) -> &Memory
        ensures { result.now ≡ self.now.memory }
    {
        &self.memory
    }

    /// The memory, to be written; all else stays.
    pub fn memory_mut(&mut self) -> &mut Memory
        ensures* lends { sem 𝓛 (LendsMemory self.entry result) }
        ensures value { result.now ≡ self.old.memory }
    {
        &mut self.memory
    }

    /// Writes the word at an address; all but memory stays. None exactly where the address is no multiple of
    /// 8 or is outside memory; then nothing changes.
    pub fn store(&mut self, addr: u64, value: u64) -> Option<()>
        ensures stored { is_some result ≡ is_word addr }
        ensures next { self.new ≡ record self.old {
          memory =
              unwrap_or (store self.old.memory addr value) self.old.memory;
        } }
    {
        self.memory.store(addr, value)
    }

    /// Makes an instance pending, in whatever state it is; all else stays.
    pub fn signal(&mut self, at: Instance)
        requires { IsOnBoard at self.old.events }
        ensures { self.new ≡ record self.old { events = signal at self.old.events } }
    {
        let place = self.table.place_of(at);
        self.signal_at(place);
    }

    /// Makes an instance pending where the board has it, and says whether it has; else nothing changes.
    pub fn raise(&mut self, at: Instance) -> bool
        ensures there { result ≡ is_on_board at self.old.events }
        ensures next { self.new ≡ record self.old {
          events =
              if is_on_board at self.old.events then signal at self.old.events else self.old.events;
        } }
        ensures harts { self.new.events.harts ≡ self.old.events.harts }
        ensures instances { self.new.events.instances ≡ self.old.events.instances }
    {
        if !self.table.has(at) {
            return false;
        }
        let place = self.table.place_of(at);
        self.signal_at(place);
        true
    }

    /// Makes an instance that was looked up before pending. Where it is pending already nothing changes.
    #[inline(always)]
    #[tactic(auto, using(crate::proofs::Keeps::mark_keeps, crate::proofs::Queues::still_pending))]
    fn signal_at(&mut self, place: Place)
        requires { IsPlace place self.old.events.instances }
        ensures { self.new ≡ record self.old { events = signal place.at self.old.events } }
    {
        if self.table.is_pending_at(place) {
            return;
        }
        self.table.signal_at(place);
        self.targets.renew(&self.table, place);
    }

    /// Makes these the registers of a hart: what is live, and the triple that the running code sees in
    /// `sepc`, `spp` and `spie`. All else stays.
    pub fn set_regs(&mut self, hart: u8, regs: &Regs)
        requires { hart < self.old.events.harts }
        ensures { self.new ≡ record self.old {
          stacks =
              slice_set self.old.stacks hart (with_regs regs.now (stack_of hart self.old));
        } }
    {
        let stack = &mut self.stacks[hart as usize];
        stack.set_regs(regs);
    }

    /// How urgent the newest handler of a hart is.
    fn top(&self, hart: u8) -> Option<(u32, EventId)>
        requires { hart < self.now.events.harts }
        ensures { result ≡ top_urgency (stack_of hart self.now).frames self.now.events }
    {
        match self.stacks[hart as usize].newest() {
            Some(at) => Some((self.table.priority(at), at.id())),
            None => None,
        }
    }

    /// The event that is next on a hart. None exactly where there is none.
    fn next(&self, hart: u8) -> Option<Instance>
        requires { hart < self.now.events.harts }
        ensures { result ≡ next_for hart (reach hart self.now) }
    {
        let mut looks = Looks { count: 0 };
        match self.targets.first(hart, &mut looks) {
            Some(first) => picked(Some(first), self.top(hart)),
            None => None,
        }
    }

    /// Delivers the event that is next on a hart: the most urgent one that waits for it, where that is
    /// strictly more urgent than what runs. None exactly where there is none; then nothing changes (SBI 3.0,
    /// "Supervisor Software Events", event priority, software event delivery).
    pub fn deliver(&mut self, hart: u8) -> Option<Instance>
        requires { hart < self.old.events.harts }
        ensures which { result ≡ next_for hart (reach hart self.old) }
        ensures next { MatchOption result (self.new ≡ self.old) (λ at. self.new
            ≡ placed hart (delivered hart at (reach hart self.old)) self.old) }
        ensures harts { self.new.events.harts ≡ self.old.events.harts }
        ensures instances { self.new.events.instances ≡ self.old.events.instances }
    {
        let at = match self.next(hart) {
            Some(at) => at,
            None => return None,
        };
        let place = self.table.place_of(at);
        let event = self.table.event_at(place);
        let entry = event.entry;
        let arg = event.arg;
        self.table.set_running_at(place);
        self.targets.renew(&self.table, place);
        let stack = &mut self.stacks[hart as usize];
        stack.deliver(at, entry, arg, hart);
        Some(at)
    }

    /// A call of a hart, with its extension id, function number and arguments (SBI 3.0, "Supervisor Software
    /// Events"; the order of the checks is this project's own). An unknown extension or function is not
    /// supported, and so is an event that isn't on the board; the other codes are those of the functions. A
    /// call that isn't answered with success changes nothing.
    pub fn call(&mut self, hart: u8, eid: u64, fid: u64, args: [u64; 5]) -> CallNote
        requires { hart < self.old.events.harts }
        ensures code { result.reply.error ≡ (call hart eid fid args self.old.stacks (reach hart self.old)).code }
        ensures value { result.reply.value ≡ 0 }
        ensures written { result.written ≡ (call hart eid fid args self.old.stacks (reach hart self.old)).written }
        ensures next { self.new ≡ placed hart (call hart eid fid args self.old.stacks (reach hart self.old)).reach
            self.old }
        ensures refused { is_success result.reply.error ≡ false → self.new ≡ self.old }
        ensures harts { self.new.events.harts ≡ self.old.events.harts }
        ensures instances { self.new.events.instances ≡ self.old.events.instances }
    {
        let mut written = [0; 10];
        let error = self.answer(hart, eid, fid, args, &mut written);
        CallNote {
            reply: Reply { error, value: 0 },
            written,
        }
    }

    /// Answers a call as `call` does, with its code. The words that an accepted write of attributes took are put into
    /// `written`, which is blank until then.
    pub fn answer(
        &mut self,
        hart: u8,
        eid: u64,
        fid: u64,
        args: [u64; 5],
        written: &mut [u64; 10],
    ) -> SbiCode
        requires hart { hart < self.old.events.harts }
        requires blank { written.old ≡ no_words }
        ensures code { result ≡ (call hart eid fid args self.old.stacks (reach hart self.old)).code }
        ensures written { written.new ≡ (call hart eid fid args self.old.stacks (reach hart self.old)).written }
        ensures next { self.new ≡ placed hart (call hart eid fid args self.old.stacks (reach hart self.old)).reach
            self.old }
        ensures refused { is_success result ≡ false → self.new ≡ self.old }
        ensures harts { self.new.events.harts ≡ self.old.events.harts }
        ensures instances { self.new.events.instances ≡ self.old.events.instances }
    {
        if eid != EXTENSION {
            return SbiCode::NotSupported;
        }
        match Function::from_number(fid) {
            Some(Function::ReadAttrs) => self.read_attrs(hart, args),
            Some(Function::WriteAttrs) => self.write_attrs(hart, args, written),
            Some(Function::Register) => self.register(hart, args),
            Some(Function::Unregister) => self.unregister(hart, args),
            Some(Function::Enable) => self.enable(hart, args),
            Some(Function::Disable) => self.disable(hart, args),
            Some(Function::Complete) => self.complete(hart),
            Some(Function::Inject) => self.inject(hart, args),
            Some(Function::HartUnmask) => self.unmask(hart),
            Some(Function::HartMask) => self.mask(hart),
            None => SbiCode::NotSupported,
        }
    }

    /// Goes on with a hart at another place; all else stays.
    pub fn set_pc(&mut self, hart: u8, pc: u64)
        requires { hart < self.old.events.harts }
        ensures { self.new ≡ record self.old {
          stacks =
              slice_set self.old.stacks hart (with_pc pc (stack_of hart self.old));
        } }
    {
        let stack = &mut self.stacks[hart as usize];
        stack.set_pc(pc);
    }
}
