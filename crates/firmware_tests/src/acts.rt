//! What can happen on a board, and what must come of it.

ghost use Rattle.std.specs.Prelude.{◌≡◌};

use sbi_sse::{EventDecl, EventId, Firmware, Instance, Regs, Saved, SbiCode};
use std::process::Abort;

/// The extension of the calls.
pub const SSE: u64 = 0x53_5345;

/// Where memory begins.
pub const BASE: u64 = 0x8000_0000;

/// The local event that software injects, and the global one.
pub const LOCAL: u64 = 0xffff_0000;

pub const GLOBAL: u64 = 0xffff_8000;

/// The instance of the first on hart 0, and the instance of the second.
pub const OWN: Instance = Instance::Local {
    id: EventId(0xffff_0000),
    hart: 0,
};

pub const SHARED: Instance = Instance::Global {
    id: EventId(0xffff_8000),
};

/// Something that happens, or that must be so.
#[derive(Clone, Copy)]
pub enum Act {
    /// A hart calls a function with arguments, and is given a code.
    Call(u8, u64, [u64; 5], SbiCode),
    /// A hart is asked for a delivery, and has one or none.
    Deliver(u8, Option<Instance>),
    /// Somebody writes a word of memory.
    Store(u64, u64),
    /// Somebody sets a hart's registers.
    SetRegs(u8, Regs),
    /// A hart goes on at another place.
    SetPc(u8, u64),
    /// A word of memory is so.
    Word(u64, u64),
    /// A hart's registers are so.
    Regs(u8, Regs),
    /// So many handlers run on a hart.
    Depth(u8, usize),
    /// The oldest handler of a hart is of this event, and its INTERRUPTED attributes are so.
    Oldest(u8, Instance, Saved),
}

/// An event that software may inject.
pub fn injectable(id: u32) -> EventDecl
    ensures { result.id.0 ≡ id }
{
    EventDecl {
        id: EventId(id),
        inject: true,
    }
}

/// What must be so on a hart after act number `i`.
fn holds(rt: &impl Abort, i: usize, firmware: &Firmware, act: &Act) {
    match act {
        Act::Word(addr, word) => {
            assert_eq!(rt; firmware.memory().load(*addr), Some(*word), "act {i}");
        }
        Act::Regs(hart, regs) => {
            assert!(rt; *hart < firmware.harts());
            assert_eq!(rt; *firmware.regs(*hart), *regs, "act {i}");
        }
        Act::Depth(hart, depth) => {
            assert!(rt; *hart < firmware.harts());
            assert_eq!(rt; firmware.depth(*hart), *depth, "act {i}");
        }
        Act::Oldest(hart, at, saved) => {
            assert!(rt; *hart < firmware.harts());
            assert!(rt; firmware.depth(*hart) > 0);
            assert_eq!(rt; firmware.running(*hart, 0), (*at, *saved), "act {i}");
        }
        _ => {}
    }
}

/// Act number `i` happens.
pub fn happens(rt: &impl Abort, i: usize, firmware: &mut Firmware, act: &Act) {
    match act {
        Act::Call(hart, fid, args, code) => {
            assert!(rt; *hart < firmware.harts());
            let given = firmware.call(*hart, SSE, *fid, *args).reply.error;
            assert_eq!(rt; given, *code, "act {i}");
        }
        Act::Deliver(hart, at) => {
            assert!(rt; *hart < firmware.harts());
            assert_eq!(rt; firmware.deliver(*hart), *at, "act {i}");
        }
        Act::Store(addr, word) => {
            let _ = firmware.store(*addr, *word);
        }
        Act::SetRegs(hart, regs) => {
            assert!(rt; *hart < firmware.harts());
            firmware.set_regs(*hart, regs);
        }
        Act::SetPc(hart, pc) => {
            assert!(rt; *hart < firmware.harts());
            firmware.set_pc(*hart, *pc);
        }
        _ => holds(rt, i, firmware, act),
    }
}

/// One act after another.
pub fn all_happen(rt: &impl Abort, firmware: &mut Firmware, acts: &[Act]) {
    for (i, act) in acts.iter().enumerate() {
        happens(rt, i, firmware, act);
    }
}
