//! Several harts: an event that they share, and the events that each has of its own.

ghost use Rattle.std.specs.Prelude.{◌≡◌, true};
ghost use Rattle.sse_base.specs.Start.{are_distinct};

use crate::acts::{Act, BASE, GLOBAL, SHARED, all_happen, happens, injectable};
use sbi_sse::{EventDecl, EventId, Firmware, Instance, Privilege, Regs, SbiCode};
use std::process::Abort;
use std::test::Fail;

/// The event is delivered on the hart that unmasks itself, though both were masked when it was signalled.
const WHERE_UNMASKED: [Act; 7] = [
    Act::Call(0, 2, [GLOBAL, 0x2000, 0, 0, 0], SbiCode::Success),
    Act::Call(0, 4, [GLOBAL, 0, 0, 0, 0], SbiCode::Success),
    Act::Call(1, 7, [GLOBAL, 0, 0, 0, 0], SbiCode::Success),
    Act::Call(1, 8, [0; 5], SbiCode::Success),
    Act::Deliver(0, None),
    Act::Deliver(1, Some(SHARED)),
    Act::Call(1, 6, [0; 5], SbiCode::Success),
];

/// What the handler on hart 0 interrupts.
const BEFORE: Regs = Regs {
    pc: 0x1000,
    privilege: Privilege::Supervisor,
    sie: false,
    sepc: 0,
    spp: false,
    spie: false,
    a6: 0x11,
    a7: 0,
};

/// It runs on hart 0. Hart 1 reads what was interrupted and can't write it, and has nothing to complete or to disable.
const FROM_ELSEWHERE: [Act; 11] = [
    Act::Call(0, 8, [0; 5], SbiCode::Success),
    Act::SetRegs(0, BEFORE),
    Act::Call(0, 7, [GLOBAL, 0, 0, 0, 0], SbiCode::Success),
    Act::Deliver(0, Some(SHARED)),
    Act::Call(1, 1, [GLOBAL, 8, 1, BASE + 8, 0], SbiCode::InvalidState),
    Act::Call(1, 0, [GLOBAL, 8, 1, BASE, 0], SbiCode::Success),
    Act::Word(BASE, 0x11),
    Act::Call(1, 6, [0; 5], SbiCode::Success),
    Act::Call(1, 5, [GLOBAL, 0, 0, 0, 0], SbiCode::InvalidState),
    Act::Depth(0, 1),
    Act::Depth(1, 0),
];

/// The event prefers hart 1, which is masked, so it begins on hart 0; signalled again it waits for the preferred
/// hart, and for the handler to complete.
const PREFERS_ANOTHER: [Act; 17] = [
    Act::Store(BASE, 1),
    Act::Call(0, 1, [GLOBAL, 3, 1, BASE, 0], SbiCode::Success),
    Act::Call(0, 2, [GLOBAL, 0x2000, 0, 0, 0], SbiCode::Success),
    Act::Call(0, 4, [GLOBAL, 0, 0, 0, 0], SbiCode::Success),
    Act::Call(0, 8, [0; 5], SbiCode::Success),
    Act::Call(0, 7, [GLOBAL, 0, 0, 0, 0], SbiCode::Success),
    Act::Deliver(1, None),
    Act::Deliver(0, Some(SHARED)),
    Act::Call(0, 7, [GLOBAL, 0, 0, 0, 0], SbiCode::Success),
    Act::Call(0, 9, [0; 5], SbiCode::Success),
    Act::Call(1, 8, [0; 5], SbiCode::Success),
    Act::Call(0, 8, [0; 5], SbiCode::Success),
    Act::Deliver(0, None),
    Act::Deliver(1, None),
    Act::Call(0, 6, [0; 5], SbiCode::Success),
    Act::Deliver(0, None),
    Act::Deliver(1, Some(SHARED)),
];

#[test]
fn two_harts_share_an_event(rt: HostRuntime) -> Result<(), Fail> {
    let decls = [injectable(0xffff_8000)];
    let mut firmware = Firmware::new(rt.alloc(), 2, &decls, &[0x1000, 0x1800])?;
    all_happen(&rt, &mut firmware, &WHERE_UNMASKED);
    all_happen(&rt, &mut firmware, &FROM_ELSEWHERE);
    let mut firmware = Firmware::new(rt.alloc(), 2, &decls, &[0x1000, 0x1800])?;
    all_happen(&rt, &mut firmware, &PREFERS_ANOTHER);
    Ok(())
}

/// Local events by rising id, the last of them the least urgent at equal priority.
const LOCALS: [u32; 8] = [
    0x0,
    0x4000,
    0x1_0000,
    0x1_4000,
    0x2_4000,
    0x3_4000,
    0x10_0000,
    0xffff_0000,
];

/// An event is enabled on a hart, injected from hart 0, and delivered.
fn begin(rt: &impl Abort, firmware: &mut Firmware, hart: u8, id: u32) {
    let wide = id as u64;
    let at = Instance::Local {
        id: EventId(id),
        hart,
    };
    let acts = [
        Act::Call(hart, 2, [wide, 0x2000, 0, 0, 0], SbiCode::Success),
        Act::Call(hart, 4, [wide, 0, 0, 0, 0], SbiCode::Success),
        Act::Call(0, 7, [wide, hart as u64, 0, 0, 0], SbiCode::Success),
        Act::Deliver(hart, Some(at)),
    ];
    all_happen(rt, firmware, &acts);
}

/// Every local event of a hart is delivered, each over the one before it, and all complete.
fn nest(rt: &impl Abort, firmware: &mut Firmware, hart: u8) {
    happens(
        rt,
        0,
        firmware,
        &Act::Call(hart, 8, [0; 5], SbiCode::Success),
    );
    for id in LOCALS.iter().rev() {
        begin(rt, firmware, hart, *id);
    }
    happens(rt, 1, firmware, &Act::Depth(hart, 8));
}

/// Eight handlers of a hart complete.
fn unwind(rt: &impl Abort, firmware: &mut Firmware, hart: u8) {
    for _ in 0..8 {
        happens(
            rt,
            0,
            firmware,
            &Act::Call(hart, 6, [0; 5], SbiCode::Success),
        );
    }
    happens(rt, 1, firmware, &Act::Depth(hart, 0));
    happens(rt, 2, firmware, &Act::Deliver(hart, None));
}

/// Each of these events as a board declares it.
fn declared() -> [EventDecl; 8]
    ensures { are_distinct result ≡ true }
{
    [
        injectable(0x0),
        injectable(0x4000),
        injectable(0x1_0000),
        injectable(0x1_4000),
        injectable(0x2_4000),
        injectable(0x3_4000),
        injectable(0x10_0000),
        injectable(0xffff_0000),
    ]
}

#[test]
fn each_of_64_instances_once(rt: HostRuntime) -> Result<(), Fail> {
    let mut firmware = Firmware::new(rt.alloc(), 8, &declared(), &[0x1000; 8])?;
    for hart in 0..8 {
        nest(&rt, &mut firmware, hart);
        unwind(&rt, &mut firmware, hart);
    }
    Ok(())
}

#[test]
fn each_of_256_instances_once(rt: HostRuntime) -> Result<(), Fail> {
    let mut firmware = Firmware::new(rt.alloc(), 32, &declared(), &[0x1000; 32])?;
    for hart in 0..32 {
        nest(&rt, &mut firmware, hart);
    }
    for hart in 0..32 {
        unwind(&rt, &mut firmware, hart);
    }
    Ok(())
}
