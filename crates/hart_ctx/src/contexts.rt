//! The handlers of a hart, over its registers.

ghost use Rattle.std.specs.Prelude.{◌≡◌, ℕ, ◌<◌, ◌≤◌, length, slice_get, option_map};
ghost use Rattle.sse_base.specs.Contexts.{fresh_stack, with_pc, deliver, complete, newest, has_frame, interrupted};
ghost use Rattle.sse_base.specs.Calls.{with_interrupted};
ghost use Rattle.hart_ctx.specs.Registers.{regs_of, with_regs};
ghost use Rattle.hart_ctx.specs.Running.{running_in, word_of};

use crate::kept::Kept;
use crate::regs::{Regs, Saved, enter, resume};
use crate::scan::{place, word_of, write};
use arrayvec::ArrayVec;
use sse_base::{Instance, Privilege};
use std::marker::Model;

/// What a hart runs: its registers, and the handlers on it, of which the newest comes first. At most 8
/// run at a time.
#[derive(Drop)]
pub struct Contexts {
    regs: Regs,
    kept: ArrayVec<Kept, 8>,
}

impl Model for Contexts {
    ghost use Rattle.sse_base.specs.Contexts.{Stack};

    ghost Value = { Stack };

    ghost use Rattle.hart_ctx.specs.Levels.{stack_of};

    ghost view = { λ s. stack_of s.regs s.kept.items };
}

impl Contexts {
    /// A hart in supervisor mode at `pc` on which no handler runs; all else is 0.
    pub fn new(pc: u64) -> Contexts
        ensures { result ≡ fresh_stack pc }
    {
        Contexts {
            regs: Regs {
                pc,
                privilege: Privilege::Supervisor,
                sie: false,
                sepc: 0,
                spp: false,
                spie: false,
                a6: 0,
                a7: 0,
            },
            kept: ArrayVec::new(),
        }
    }

    /// Where the hart is.
    pub fn pc(&self) -> u64
        ensures { result ≡ self.now.live.pc }
    {
        self.regs.pc
    }

    /// The mode that the hart is in.
    pub fn privilege(&self) -> Privilege
        ensures { result ≡ self.now.live.privilege }
    {
        self.regs.privilege
    }

    /// Goes on at another place; all else stays.
    pub fn set_pc(&mut self, pc: u64)
        ensures { self.new ≡ with_pc pc self.old }
    {
        self.regs.pc = pc;
    }

    /// How many handlers run.
    #[tactic(auto, using(crate::proofs::Frames::frames_length))]
    pub fn depth(&self) -> usize
        ensures depth { result ≡ length self.now.frames }
        ensures at_most_eight { result ≤ 8 }
    {
        self.kept.len()
    }

    /// Delivers an event to the hart: its handler begins at `entry` (SBI 3.0, "Supervisor Software
    /// Events", software event delivery).
    #[tactic(auto, using(crate::proofs::Frames::frames_length))]
    pub fn deliver(&mut self, at: Instance, entry: u64, arg: u64, hart: u8)
        requires { length self.old.frames < 8 }
        ensures { self.new ≡ deliver at entry arg hart self.old }
    {
        let saved = enter(&mut self.regs, entry, arg, hart);
        self.kept.insert(0, Kept { at, saved });
    }

    /// Completes the newest handler, and says of which event it is. None exactly where no handler runs;
    /// then nothing changes (SBI 3.0, "Supervisor Software Events", software event completion).
    pub fn complete(&mut self) -> Option<Instance>
        ensures which { result ≡ newest self.old.frames }
        ensures next { self.new ≡ complete self.old }
    {
        let kept = self.kept.pop_at(0)?;
        resume(&mut self.regs, &kept.saved);
        Some(kept.at)
    }

    /// The newest handler. None exactly where no handler runs.
    pub fn newest(&self) -> Option<Instance>
        ensures { result ≡ newest self.now.frames }
    {
        match self.kept.first() {
            Some(kept) => Some(kept.at),
            None => None,
        }
    }

    /// The handler with number `k`, where 0 is the oldest, and its INTERRUPTED attributes.
    #[tactic(auto, using(crate::proofs::Frames::frames_length, crate::proofs::Frames::running_at))]
    pub fn running(&self, k: usize) -> (Instance, Saved)
        requires { k < length self.now.frames }
        ensures { slice_get (running_in self.now.frames self.now.base) k ≡ Some result }
    {
        let kept = &self.kept[self.kept.len() - 1 - k];
        (kept.at, kept.saved)
    }

    /// The registers.
    #[tactic(auto, using(crate::proofs::Frames::regs_again))]
    pub fn regs(&self) -> &Regs
        ensures { result.now ≡ regs_of self.now }
    {
        &self.regs
    }

    /// Makes these the registers: what is live, and the triple that the running code sees in `sepc`, `spp`
    /// and `spie`. All else stays.
    #[tactic(auto, using(crate::proofs::Frames::regs_set))]
    pub fn set_regs(&mut self, regs: &Regs)
        ensures { self.new ≡ with_regs regs.now self.old }
    {
        self.regs = *regs;
    }

    /// Whether a handler of this event runs.
    #[tactic(auto, using(crate::proofs::Places::has_kept))]
    pub fn has(&self, at: Instance) -> bool
        ensures { result ≡ has_frame at self.now.frames }
    {
        place(self.kept.as_slice(), at) < self.kept.len()
    }

    /// INTERRUPTED attribute 6, 7, 8 or 9 of an event. None exactly where no handler of it runs here.
    #[tactic(auto, using(crate::proofs::Places::reads_kept, crate::proofs::Places::reads_none))]
    pub fn interrupted(&self, attr: u8, at: Instance) -> Option<u64>
        requires attribute { 6 ≤ attr }
        requires last { attr ≤ 9 }
        ensures { result ≡ interrupted attr at self.now.frames self.now.base }
    {
        let i = place(self.kept.as_slice(), at);
        if i < self.kept.len() {
            Some(word_of(&self.kept[i].saved, attr))
        } else {
            None
        }
    }

    /// The four INTERRUPTED attributes of an event. None exactly where no handler of it runs here.
    pub fn saved(&self, at: Instance) -> Option<Saved>
        ensures { (attr : ℕ) → option_map (word_of attr) result ≡ interrupted attr at self.now.frames self.now.base }
    {
        let i = place(self.kept.as_slice(), at);
        if i < self.kept.len() {
            Some(self.kept[i].saved)
        } else {
            None
        }
    }

    /// Writes words to the attributes of an event from `base` on. Those that are INTERRUPTED attributes are
    /// taken where a handler of it runs here, of the flags the lower two bits; all else stays.
    pub fn write_interrupted(&mut self, base: u8, words: &[u64], at: Instance)
        ensures { self.new ≡ with_interrupted base words.now at self.old }
    {
        write(self.kept.as_mut_slice(), base, words, at);
    }
}
