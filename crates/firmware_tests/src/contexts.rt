//! Two handlers that nest on one hart, and memory at its edges.

use hart_ctx::{Contexts, Memory, Privilege, Regs, Saved, enter, resume};
use sse_base::{EventId, Instance};

/// What the hart runs before the first delivery.
fn quiet() -> Regs {
    Regs {
        pc: 0x1020,
        privilege: Privilege::Supervisor,
        sie: true,
        sepc: 0xaaa0,
        spp: false,
        spie: true,
        a6: 0x11,
        a7: 0x22,
    }
}

/// What it runs in the handler of the first event.
fn in_first() -> Regs {
    Regs {
        pc: 0x2000,
        privilege: Privilege::Supervisor,
        sie: false,
        sepc: 0x1020,
        spp: true,
        spie: true,
        a6: 0,
        a7: 0xa,
    }
}

/// What the first event keeps.
fn kept_by_first() -> Saved {
    Saved {
        sepc: 0xaaa0,
        flags: 2,
        a6: 0x11,
        a7: 0x22,
    }
}

#[test]
fn delivery_and_completion_of_registers(rt: HostRuntime) {
    let mut regs = quiet();
    let saved = enter(&mut regs, 0x2000, 0xa, 0);
    assert_eq!(rt; saved, kept_by_first());
    assert_eq!(rt; regs, in_first());
    resume(&mut regs, &saved);
    assert_eq!(rt; regs, quiet());
}

#[test]
fn handlers_nest(rt: HostRuntime) {
    let first = Instance::Local {
        id: EventId(0x10_0000),
        hart: 0,
    };
    let second = Instance::Local {
        id: EventId(0),
        hart: 0,
    };
    let mut hart = Contexts::new(0x1020);
    hart.set_regs(&quiet());
    assert!(rt; hart.depth() < 8);
    hart.deliver(first, 0x2000, 0xa, 0);
    assert_eq!(rt; *hart.regs(), in_first());
    hart.set_pc(0x2004);
    assert!(rt; hart.depth() < 8);
    hart.deliver(second, 0x3000, 0xb, 0);
    assert_eq!(rt; hart.depth(), 2);
    assert_eq!(rt; hart.newest(), Some(second));
    assert_eq!(rt; hart.running(0), (first, kept_by_first()));
    assert_eq!(rt; hart.interrupted(7, second), Some(3));
    hart.write_interrupted(6, &[0x5550], first);
    hart.write_interrupted(6, &[0x1030], second);
    assert!(rt; hart.has(second));
    assert_eq!(rt; hart.complete(), Some(second));
    assert_eq!(rt; hart.regs().sepc, 0x1030);
    assert_eq!(rt; hart.complete(), Some(first));
    assert_eq!(rt; hart.pc(), 0x1030);
    assert_eq!(rt; hart.regs().sepc, 0x5550);
    assert_eq!(rt; hart.complete(), None);
}

#[test]
fn memory_ends(rt: HostRuntime) {
    let mut memory = Memory::new();
    assert_eq!(rt; memory.store(0x8000_0ff8, 7), Some(()));
    assert_eq!(rt; memory.load(0x8000_0ff8), Some(7));
    assert_eq!(rt; memory.store(0x8000_1000, 7), None);
    assert_eq!(rt; memory.load(0x8000_0004), None);
    assert_eq!(rt; memory.load(0x7fff_fff8), None);
    assert!(rt; Memory::are_words(0x8000_0fb0, 10));
    assert!(rt; !Memory::are_words(0x8000_0fb8, 10));
}
