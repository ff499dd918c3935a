//! Handlers that interrupt one another on a hart.

use crate::acts::{Act, BASE, GLOBAL, LOCAL, OWN, SHARED, all_happen, injectable};
use sbi_sse::{EventId, Firmware, Instance, Privilege, Regs, Saved, SbiCode};
use std::test::Fail;

/// The events of low and of high priority errors on hart 0.
const LOW: Instance = Instance::Local {
    id: EventId(0x10_0000),
    hart: 0,
};

const HIGH: Instance = Instance::Local {
    id: EventId(0),
    hart: 0,
};

/// What the hart runs before the first delivery.
const QUIET: Regs = Regs {
    pc: 0x1020,
    privilege: Privilege::Supervisor,
    sie: true,
    sepc: 0xaaa0,
    spp: false,
    spie: true,
    a6: 0x11,
    a7: 0x22,
};

/// The first handler as it begins.
const IN_LOW: Regs = Regs {
    pc: 0x2000,
    privilege: Privilege::Supervisor,
    sie: false,
    sepc: 0x1020,
    spp: true,
    spie: true,
    a6: 0,
    a7: 0xa,
};

/// The second handler as it begins.
const IN_HIGH: Regs = Regs {
    pc: 0x3000,
    privilege: Privilege::Supervisor,
    sie: false,
    sepc: 0x2004,
    spp: true,
    spie: false,
    a6: 0,
    a7: 0xb,
};

/// Priorities 9 and 1, both enabled, and the first signalled.
const TWO_ENABLED: [Act; 11] = [
    Act::Store(BASE, 9),
    Act::Store(BASE + 8, 1),
    Act::Call(0, 8, [0; 5], SbiCode::Success),
    Act::Call(0, 1, [0x10_0000, 1, 1, BASE, 0], SbiCode::Success),
    Act::Call(0, 1, [0, 1, 1, BASE + 8, 0], SbiCode::Success),
    Act::Call(0, 2, [0x10_0000, 0x2000, 0xa, 0, 0], SbiCode::Success),
    Act::Call(0, 2, [0, 0x3000, 0xb, 0, 0], SbiCode::Success),
    Act::Call(0, 4, [0x10_0000, 0, 0, 0, 0], SbiCode::Success),
    Act::Call(0, 4, [0; 5], SbiCode::Success),
    Act::Call(0, 7, [0x10_0000, 0, 0, 0, 0], SbiCode::Success),
    Act::SetRegs(0, QUIET),
];

/// The second interrupts the first, writes what both interrupted, and sets its own return; then both return.
const NESTED: [Act; 20] = [
    Act::Deliver(0, Some(LOW)),
    Act::Regs(0, IN_LOW),
    Act::Depth(0, 1),
    Act::Oldest(
        0,
        LOW,
        Saved {
            sepc: 0xaaa0,
            flags: 2,
            a6: 0x11,
            a7: 0x22,
        },
    ),
    Act::SetPc(0, 0x2004),
    Act::Call(0, 7, [0; 5], SbiCode::Success),
    Act::Deliver(0, Some(HIGH)),
    Act::Regs(0, IN_HIGH),
    Act::Store(BASE, 0x5550),
    Act::Store(BASE + 8, 0x1030),
    Act::Call(0, 1, [0x10_0000, 6, 1, BASE, 0], SbiCode::Success),
    Act::Call(0, 1, [0, 6, 1, BASE + 8, 0], SbiCode::Success),
    Act::SetRegs(
        0,
        Regs {
            sepc: 0x2008,
            ..IN_HIGH
        },
    ),
    Act::Oldest(
        0,
        LOW,
        Saved {
            sepc: 0x5550,
            flags: 2,
            a6: 0x11,
            a7: 0x22,
        },
    ),
    Act::Call(0, 6, [0; 5], SbiCode::Success),
    Act::Regs(
        0,
        Regs {
            pc: 0x2008,
            sepc: 0x1030,
            ..IN_LOW
        },
    ),
    Act::Depth(0, 1),
    Act::Call(0, 6, [0; 5], SbiCode::Success),
    Act::Regs(
        0,
        Regs {
            pc: 0x1030,
            sepc: 0x5550,
            ..QUIET
        },
    ),
    Act::Depth(0, 0),
];

#[test]
fn handlers_nest_and_return(rt: HostRuntime) -> Result<(), Fail> {
    let decls = [injectable(0x10_0000), injectable(0)];
    let mut firmware = Firmware::new(rt.alloc(), 1, &decls, &[0x1000])?;
    all_happen(&rt, &mut firmware, &TWO_ENABLED);
    all_happen(&rt, &mut firmware, &NESTED);
    Ok(())
}

/// Two events of equal priority, both enabled.
const EQUAL_ENABLED: [Act; 5] = [
    Act::Call(0, 8, [0; 5], SbiCode::Success),
    Act::Call(0, 2, [0, 0x3000, 0, 0, 0], SbiCode::Success),
    Act::Call(0, 4, [0; 5], SbiCode::Success),
    Act::Call(0, 2, [LOCAL, 0x2000, 0, 0, 0], SbiCode::Success),
    Act::Call(0, 4, [LOCAL, 0, 0, 0, 0], SbiCode::Success),
];

/// The lesser id interrupts the greater one.
const LESSER_INTERRUPTS: [Act; 5] = [
    Act::Call(0, 7, [LOCAL, 0, 0, 0, 0], SbiCode::Success),
    Act::Deliver(0, Some(OWN)),
    Act::Call(0, 7, [0; 5], SbiCode::Success),
    Act::Deliver(0, Some(HIGH)),
    Act::Depth(0, 2),
];

/// The greater id waits for the lesser one to complete.
const GREATER_WAITS: [Act; 7] = [
    Act::Call(0, 7, [0; 5], SbiCode::Success),
    Act::Deliver(0, Some(HIGH)),
    Act::Call(0, 7, [LOCAL, 0, 0, 0, 0], SbiCode::Success),
    Act::Deliver(0, None),
    Act::Call(0, 6, [0; 5], SbiCode::Success),
    Act::Depth(0, 0),
    Act::Deliver(0, Some(OWN)),
];

#[test]
fn equal_priorities_go_by_id(rt: HostRuntime) -> Result<(), Fail> {
    let decls = [injectable(0xffff_0000), injectable(0)];
    let mut firmware = Firmware::new(rt.alloc(), 1, &decls, &[0x1000])?;
    all_happen(&rt, &mut firmware, &EQUAL_ENABLED);
    all_happen(&rt, &mut firmware, &LESSER_INTERRUPTS);
    let mut firmware = Firmware::new(rt.alloc(), 1, &decls, &[0x1000])?;
    all_happen(&rt, &mut firmware, &EQUAL_ENABLED);
    all_happen(&rt, &mut firmware, &GREATER_WAITS);
    Ok(())
}

/// Three events of which two are equally urgent: the lesser id of the two runs first, then the other.
const BY_PRIORITY: [Act; 22] = [
    Act::Store(BASE, 5),
    Act::Store(BASE + 8, 3),
    Act::Call(0, 1, [0, 1, 1, BASE, 0], SbiCode::Success),
    Act::Call(0, 1, [0x10_0000, 1, 1, BASE + 8, 0], SbiCode::Success),
    Act::Call(0, 1, [GLOBAL, 1, 1, BASE + 8, 0], SbiCode::Success),
    Act::Call(0, 2, [0, 0x2000, 0, 0, 0], SbiCode::Success),
    Act::Call(0, 2, [0x10_0000, 0x2000, 0, 0, 0], SbiCode::Success),
    Act::Call(0, 2, [GLOBAL, 0x2000, 0, 0, 0], SbiCode::Success),
    Act::Call(0, 4, [0; 5], SbiCode::Success),
    Act::Call(0, 4, [0x10_0000, 0, 0, 0, 0], SbiCode::Success),
    Act::Call(0, 4, [GLOBAL, 0, 0, 0, 0], SbiCode::Success),
    Act::Call(0, 7, [0; 5], SbiCode::Success),
    Act::Call(0, 7, [0x10_0000, 0, 0, 0, 0], SbiCode::Success),
    Act::Call(0, 7, [GLOBAL, 0, 0, 0, 0], SbiCode::Success),
    Act::Deliver(0, None),
    Act::Call(0, 8, [0; 5], SbiCode::Success),
    Act::Deliver(0, Some(LOW)),
    Act::Deliver(0, None),
    Act::Call(0, 6, [0; 5], SbiCode::Success),
    Act::Deliver(0, Some(SHARED)),
    Act::Call(0, 6, [0; 5], SbiCode::Success),
    Act::Deliver(0, Some(HIGH)),
];

#[test]
fn the_most_urgent_runs_first(rt: HostRuntime) -> Result<(), Fail> {
    let decls = [
        injectable(0),
        injectable(0x10_0000),
        injectable(0xffff_8000),
    ];
    let mut firmware = Firmware::new(rt.alloc(), 1, &decls, &[0x1000])?;
    all_happen(&rt, &mut firmware, &BY_PRIORITY);
    Ok(())
}

/// What a hart runs in user mode.
const USER: Regs = Regs {
    pc: 0x1104,
    privilege: Privilege::User,
    sie: false,
    sepc: 0x1100,
    spp: false,
    spie: true,
    a6: 0,
    a7: 0,
};

/// A hart in user mode is interrupted, and goes on there.
const OF_A_USER: [Act; 11] = [
    Act::Call(0, 8, [0; 5], SbiCode::Success),
    Act::Call(0, 2, [LOCAL, 0x2000, 0, 0, 0], SbiCode::Success),
    Act::Call(0, 4, [LOCAL, 0, 0, 0, 0], SbiCode::Success),
    Act::Call(0, 7, [LOCAL, 0, 0, 0, 0], SbiCode::Success),
    Act::SetRegs(0, USER),
    Act::Deliver(0, Some(OWN)),
    Act::Regs(
        0,
        Regs {
            pc: 0x2000,
            privilege: Privilege::Supervisor,
            sie: false,
            sepc: 0x1104,
            spp: false,
            spie: false,
            a6: 0,
            a7: 0,
        },
    ),
    Act::Depth(0, 1),
    Act::Oldest(
        0,
        OWN,
        Saved {
            sepc: 0x1100,
            flags: 2,
            a6: 0,
            a7: 0,
        },
    ),
    Act::Call(0, 6, [0; 5], SbiCode::Success),
    Act::Regs(0, USER),
];

#[test]
fn a_user_is_interrupted(rt: HostRuntime) -> Result<(), Fail> {
    let mut firmware = Firmware::new(rt.alloc(), 1, &[injectable(0xffff_0000)], &[0x1000])?;
    all_happen(&rt, &mut firmware, &OF_A_USER);
    Ok(())
}
