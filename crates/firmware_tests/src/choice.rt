//! Urgency, masks and targets, by the events that wait.

ghost use Rattle.std.specs.Prelude.{◌≡◌, true};
ghost use Rattle.sse_base.specs.Start.{are_distinct};

use crate::acts::{Act, BASE, GLOBAL, SHARED, all_happen, happens, injectable};
use sbi_sse::{EventDecl, EventId, Firmware, Instance, Looks, SbiCode};
use std::process::Abort;
use std::test::Fail;

/// An event on hart 0.
const fn here(id: u32) -> Instance {
    Instance::Local {
        id: EventId(id),
        hart: 0,
    }
}

/// A hart gives a value to an attribute of an event of its own, or of a global one, and enables it with that;
/// the event is signalled.
fn wait_with(rt: &impl Abort, firmware: &mut Firmware, id: u64, attr: u64, value: u64) {
    let acts = [
        Act::Store(BASE, value),
        Act::Call(0, 1, [id, attr, 1, BASE, 0], SbiCode::Success),
        Act::Call(0, 2, [id, 0x2000, 0, 0, 0], SbiCode::Success),
        Act::Call(0, 4, [id, 0, 0, 0, 0], SbiCode::Success),
        Act::Call(0, 7, [id, 0, 0, 0, 0], SbiCode::Success),
    ];
    all_happen(rt, firmware, &acts);
}

/// An event waits with this priority.
fn wait(rt: &impl Abort, firmware: &mut Firmware, id: u64, priority: u64) {
    wait_with(rt, firmware, id, 1, priority);
}

/// A hart masks itself, or unmasks itself.
fn set_masked(rt: &impl Abort, firmware: &mut Firmware, hart: u8, masked: bool) {
    let fid = if masked { 9 } else { 8 };
    let act = Act::Call(hart, fid, [0; 5], SbiCode::Success);
    happens(rt, 0, firmware, &act);
}

/// What is chosen on a hart where its newest handler is as urgent as `top`.
fn chosen(
    rt: &impl Abort,
    firmware: &Firmware,
    hart: u8,
    top: Option<(u32, EventId)>,
    looks: &mut Looks,
) -> Option<Instance> {
    assert!(rt; looks.count < 1000);
    firmware.targets().chosen(hart, top, looks)
}

/// What is chosen on a hart where nothing runs.
fn next(rt: &impl Abort, firmware: &Firmware, hart: u8) -> Option<Instance> {
    chosen(rt, firmware, hart, None, &mut Looks { count: 0 })
}

#[test]
fn the_smaller_id_of_the_urgent_two(rt: HostRuntime) -> Result<(), Fail> {
    let decls = [
        injectable(0),
        injectable(0x10_0000),
        injectable(0xffff_8000),
    ];
    let mut firmware = Firmware::new(rt.alloc(), 1, &decls, &[0x1000])?;
    wait(&rt, &mut firmware, 0, 5);
    wait(&rt, &mut firmware, 0x10_0000, 3);
    wait(&rt, &mut firmware, GLOBAL, 3);
    let mut looks = Looks { count: 0 };
    assert_eq!(rt; chosen(&rt, &firmware, 0, None, &mut looks), None);
    assert_eq!(rt; looks.count, 0);
    set_masked(&rt, &mut firmware, 0, false);
    assert_eq!(rt;
        chosen(&rt, &firmware, 0, None, &mut looks),
        Some(here(0x10_0000))
    );
    assert_eq!(rt; looks.count, 1);
    happens(
        &rt,
        1,
        &mut firmware,
        &Act::Deliver(0, Some(here(0x10_0000))),
    );
    let top = Some((3, EventId(0x10_0000)));
    assert_eq!(rt; chosen(&rt, &firmware, 0, top, &mut looks), None);
    assert_eq!(rt; looks.count, 2);
    happens(
        &rt,
        2,
        &mut firmware,
        &Act::Call(0, 6, [0; 5], SbiCode::Success),
    );
    assert_eq!(rt; chosen(&rt, &firmware, 0, None, &mut looks), Some(SHARED));
    Ok(())
}

#[test]
fn the_unmasked_hart_of_two(rt: HostRuntime) -> Result<(), Fail> {
    let decls = [injectable(0xffff_8000)];
    let mut firmware = Firmware::new(rt.alloc(), 2, &decls, &[0x1000; 2])?;
    wait(&rt, &mut firmware, GLOBAL, 0);
    set_masked(&rt, &mut firmware, 1, false);
    assert_eq!(rt; next(&rt, &firmware, 0), None);
    assert_eq!(rt; next(&rt, &firmware, 1), Some(SHARED));
    Ok(())
}

#[test]
fn an_equal_priority_by_id(rt: HostRuntime) -> Result<(), Fail> {
    let decls = [injectable(0), injectable(0xffff_0000)];
    let mut looks = Looks { count: 0 };
    let mut firmware = Firmware::new(rt.alloc(), 1, &decls, &[0x1000])?;
    set_masked(&rt, &mut firmware, 0, false);
    wait(&rt, &mut firmware, 0, 0);
    let top = Some((0, EventId(0xffff_0000)));
    assert_eq!(rt; chosen(&rt, &firmware, 0, top, &mut looks), Some(here(0)));
    let mut firmware = Firmware::new(rt.alloc(), 1, &decls, &[0x1000])?;
    set_masked(&rt, &mut firmware, 0, false);
    wait(&rt, &mut firmware, 0xffff_0000, 0);
    let top = Some((0, EventId(0)));
    assert_eq!(rt; chosen(&rt, &firmware, 0, top, &mut looks), None);
    assert_eq!(rt; next(&rt, &firmware, 0), Some(here(0xffff_0000)));
    Ok(())
}

#[test]
fn a_masked_preference_gives_way(rt: HostRuntime) -> Result<(), Fail> {
    let decls = [injectable(0xffff_8000)];
    let mut firmware = Firmware::new(rt.alloc(), 2, &decls, &[0x1000; 2])?;
    wait_with(&rt, &mut firmware, GLOBAL, 3, 1);
    set_masked(&rt, &mut firmware, 0, false);
    assert_eq!(rt; next(&rt, &firmware, 0), Some(SHARED));
    set_masked(&rt, &mut firmware, 1, false);
    assert_eq!(rt; next(&rt, &firmware, 0), None);
    assert_eq!(rt; next(&rt, &firmware, 1), Some(SHARED));
    Ok(())
}

/// A hart masks and unmasks itself, each twice.
const MASKS: [Act; 4] = [
    Act::Call(0, 8, [0; 5], SbiCode::Success),
    Act::Call(0, 8, [0; 5], SbiCode::AlreadyStarted),
    Act::Call(0, 9, [0; 5], SbiCode::Success),
    Act::Call(0, 9, [0; 5], SbiCode::AlreadyStopped),
];

#[test]
fn masks_by_their_codes(rt: HostRuntime) -> Result<(), Fail> {
    let mut firmware = Firmware::new(rt.alloc(), 1, &[injectable(0)], &[0x1000])?;
    all_happen(&rt, &mut firmware, &MASKS);
    assert!(rt; firmware.targets().is_masked(0));
    Ok(())
}

/// Global events, of which the sixth is the most urgent at these priorities.
const GLOBALS: [(u32, u64); 8] = [
    (0x8000, 7),
    (0xc000, 6),
    (0x1_c000, 5),
    (0x2_c000, 4),
    (0x3_c000, 3),
    (0x4_c000, 1),
    (0x10_8000, 1),
    (0xffff_8000, 2),
];

/// Each of them, as a board declares it.
fn declared() -> [EventDecl; 8]
    ensures { are_distinct result ≡ true }
{
    [
        injectable(0x8000),
        injectable(0xc000),
        injectable(0x1_c000),
        injectable(0x2_c000),
        injectable(0x3_c000),
        injectable(0x4_c000),
        injectable(0x10_8000),
        injectable(0xffff_8000),
    ]
}

#[test]
fn eight_events_leave_a_hart_that_masks_itself(rt: HostRuntime) -> Result<(), Fail> {
    let mut firmware = Firmware::new(rt.alloc(), 2, &declared(), &[0x1000; 2])?;
    for (id, priority) in GLOBALS {
        let id = id as u64;
        let acts = [
            Act::Store(BASE, priority),
            Act::Store(BASE + 8, 0),
            Act::Store(BASE + 16, 1),
            Act::Call(0, 1, [id, 1, 3, BASE, 0], SbiCode::Success),
            Act::Call(0, 2, [id, 0x2000, 0, 0, 0], SbiCode::Success),
            Act::Call(0, 4, [id, 0, 0, 0, 0], SbiCode::Success),
            Act::Call(0, 7, [id, 0, 0, 0, 0], SbiCode::Success),
        ];
        all_happen(&rt, &mut firmware, &acts);
    }
    set_masked(&rt, &mut firmware, 0, false);
    set_masked(&rt, &mut firmware, 1, false);
    let least = Instance::Global {
        id: EventId(0x4_c000),
    };
    assert_eq!(rt; next(&rt, &firmware, 0), None);
    assert_eq!(rt; next(&rt, &firmware, 1), Some(least));
    set_masked(&rt, &mut firmware, 1, true);
    assert_eq!(rt; next(&rt, &firmware, 0), Some(least));
    assert_eq!(rt; next(&rt, &firmware, 1), None);
    Ok(())
}

/// The event is chosen on this hart of 32 alone, or on none.
fn on_hart_alone(rt: &impl Abort, firmware: &Firmware, hart: Option<u8>) {
    for other in 0..32 {
        let wanted = if hart == Some(other) {
            Some(SHARED)
        } else {
            None
        };
        assert_eq!(rt; next(rt, firmware, other), wanted);
    }
}

#[test]
fn a_global_event_follows_masks_over_32_harts(rt: HostRuntime) -> Result<(), Fail> {
    let decls = [injectable(0xffff_8000)];
    let mut firmware = Firmware::new(rt.alloc(), 32, &decls, &[0x1000; 32])?;
    wait_with(&rt, &mut firmware, GLOBAL, 3, 31);
    on_hart_alone(&rt, &firmware, None);
    for hart in (0..31).rev() {
        set_masked(&rt, &mut firmware, hart, false);
        on_hart_alone(&rt, &firmware, Some(hart));
    }
    set_masked(&rt, &mut firmware, 31, false);
    on_hart_alone(&rt, &firmware, Some(31));
    set_masked(&rt, &mut firmware, 31, true);
    for hart in 0..31 {
        on_hart_alone(&rt, &firmware, Some(hart));
        set_masked(&rt, &mut firmware, hart, true);
    }
    on_hart_alone(&rt, &firmware, None);
    Ok(())
}

#[test]
fn the_preferred_hart_of_32_is_the_last(rt: HostRuntime) -> Result<(), Fail> {
    let decls = [injectable(0xffff_8000)];
    let mut firmware = Firmware::new(rt.alloc(), 32, &decls, &[0x1000; 32])?;
    for hart in 0..32 {
        set_masked(&rt, &mut firmware, hart, false);
    }
    wait_with(&rt, &mut firmware, GLOBAL, 3, 31);
    for hart in 0..31 {
        happens(&rt, 1, &mut firmware, &Act::Deliver(hart, None));
    }
    happens(&rt, 2, &mut firmware, &Act::Deliver(31, Some(SHARED)));
    Ok(())
}
