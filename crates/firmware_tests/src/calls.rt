//! The codes of calls on one hart with one event.

use crate::acts::{Act, BASE, GLOBAL, LOCAL, OWN, SSE, all_happen, injectable};
use sbi_sse::{Firmware, SbiCode};
use std::test::Fail;

/// Calls on states and masks, and ids that mean no event of the board.
const OF_STATES: [Act; 20] = [
    Act::Call(0, 2, [LOCAL, 0x1001, 0, 0, 0], SbiCode::InvalidParam),
    Act::Call(0, 2, [LOCAL, 0x1002, 0, 0, 0], SbiCode::Success),
    Act::Call(0, 2, [LOCAL, 0x1002, 0, 0, 0], SbiCode::InvalidState),
    Act::Call(0, 6, [0; 5], SbiCode::Success),
    Act::Call(0, 8, [0; 5], SbiCode::Success),
    Act::Call(0, 8, [0; 5], SbiCode::AlreadyStarted),
    Act::Call(0, 9, [0; 5], SbiCode::Success),
    Act::Call(0, 9, [0; 5], SbiCode::AlreadyStopped),
    Act::Call(0, 4, [0x2, 0, 0, 0, 0], SbiCode::InvalidParam),
    Act::Call(0, 4, [0x1, 0, 0, 0, 0], SbiCode::NotSupported),
    Act::Call(0, 4, [0x1_0000, 0, 0, 0, 0], SbiCode::NotSupported),
    Act::Call(0, 4, [0x4000, 0, 0, 0, 0], SbiCode::NotSupported),
    Act::Call(0, 4, [0x1_0000_0000, 0, 0, 0, 0], SbiCode::InvalidParam),
    Act::Call(0, 10, [0; 5], SbiCode::NotSupported),
    Act::Call(0, 4, [LOCAL, 0, 0, 0, 0], SbiCode::Success),
    Act::Call(0, 3, [LOCAL, 0, 0, 0, 0], SbiCode::InvalidState),
    Act::Call(0, 5, [LOCAL, 0, 0, 0, 0], SbiCode::Success),
    Act::Call(0, 3, [LOCAL, 0, 0, 0, 0], SbiCode::Success),
    Act::Call(0, 7, [LOCAL, 1, 0, 0, 0], SbiCode::InvalidParam),
    Act::Call(0, 7, [LOCAL, 0, 0, 0, 0], SbiCode::Success),
];

#[test]
fn codes_of_states_and_masks(rt: HostRuntime) -> Result<(), Fail> {
    let mut firmware = Firmware::new(rt.alloc(), 1, &[injectable(0xffff_0000)], &[0x1000])?;
    all_happen(&rt, &mut firmware, &OF_STATES);
    assert_eq!(rt; firmware.harts(), 1);
    let other = firmware.call(0, 0x10, 4, [LOCAL, 0, 0, 0, 0]);
    assert_eq!(rt; other.reply.error, SbiCode::NotSupported);
    assert!(rt; firmware.targets().is_masked(0));
    assert_eq!(rt; firmware.table().harts(), 1);
    Ok(())
}

/// Reads and writes of attributes, first with words 0, 5 and 1 where memory begins. A refused write leaves each
/// attribute.
const OF_ATTRIBUTES: [Act; 26] = [
    Act::Call(0, 0, [LOCAL, 0, 10, BASE, 0], SbiCode::Success),
    Act::Word(BASE, 8),
    Act::Word(BASE + 8, 0),
    Act::Word(BASE + 72, 0),
    Act::Call(0, 0, [LOCAL, 0, 11, BASE, 0], SbiCode::BadRange),
    Act::Call(0, 0, [LOCAL, u64::MAX, 2, BASE, 0], SbiCode::BadRange),
    Act::Call(0, 0, [LOCAL, 0, 0, BASE, 0], SbiCode::InvalidParam),
    Act::Call(0, 0, [LOCAL, 0, 10, BASE + 0xfb0, 0], SbiCode::Success),
    Act::Call(
        0,
        0,
        [LOCAL, 0, 10, BASE + 0xfb8, 0],
        SbiCode::InvalidAddress,
    ),
    Act::Call(0, 0, [LOCAL, 0, 10, BASE + 4, 0], SbiCode::InvalidAddress),
    Act::Call(0, 0, [LOCAL, 0, 10, BASE, 1], SbiCode::InvalidAddress),
    Act::Word(BASE + 0xfb0, 8),
    Act::Store(BASE, 0),
    Act::Store(BASE + 8, 5),
    Act::Store(BASE + 16, 1),
    Act::Call(0, 1, [LOCAL, 0, 2, BASE, 0], SbiCode::Denied),
    Act::Call(0, 1, [LOCAL, 1, 3, BASE + 8, 0], SbiCode::Denied),
    Act::Call(0, 0, [LOCAL, 1, 2, BASE + 32, 0], SbiCode::Success),
    Act::Word(BASE + 32, 0),
    Act::Word(BASE + 40, 0),
    Act::Call(0, 1, [LOCAL, 1, 1, BASE + 8, 0], SbiCode::Success),
    Act::Call(0, 1, [LOCAL, 3, 1, BASE + 24, 0], SbiCode::Denied),
    Act::Call(0, 1, [LOCAL, 6, 1, BASE + 24, 0], SbiCode::InvalidState),
    Act::Call(0, 0, [LOCAL, 1, 2, BASE + 32, 0], SbiCode::Success),
    Act::Word(BASE + 32, 5),
    Act::Word(BASE + 40, 0),
];

/// Both words of an accepted write are read again.
const READ_AGAIN: [Act; 3] = [
    Act::Call(0, 0, [LOCAL, 1, 2, BASE, 0], SbiCode::Success),
    Act::Word(BASE, 7),
    Act::Word(BASE + 8, 1),
];

#[test]
fn codes_of_attributes(rt: HostRuntime) -> Result<(), Fail> {
    let mut firmware = Firmware::new(rt.alloc(), 1, &[injectable(0xffff_0000)], &[0x1000])?;
    all_happen(&rt, &mut firmware, &OF_ATTRIBUTES);
    let _ = firmware.memory_mut().store(BASE + 8, 7);
    assert_eq!(rt; firmware.harts(), 1);
    let accepted = firmware.call(0, SSE, 1, [LOCAL, 1, 2, BASE + 8, 0]);
    assert_eq!(rt; accepted.reply.error, SbiCode::Success);
    assert_eq!(rt; accepted.written, [7, 1, 0, 0, 0, 0, 0, 0, 0, 0]);
    all_happen(&rt, &mut firmware, &READ_AGAIN);
    Ok(())
}

/// A oneshot mark of 2 is refused and one of 1 is taken; where one of two values is refused neither is written.
const OF_VALUES: [Act; 11] = [
    Act::Store(BASE, 5),
    Act::Store(BASE + 8, 2),
    Act::Call(0, 1, [LOCAL, 1, 2, BASE, 0], SbiCode::InvalidParam),
    Act::Call(0, 1, [LOCAL, 2, 1, BASE + 8, 0], SbiCode::InvalidParam),
    Act::Call(0, 0, [LOCAL, 1, 2, BASE + 16, 0], SbiCode::Success),
    Act::Word(BASE + 16, 0),
    Act::Word(BASE + 24, 0),
    Act::Store(BASE + 8, 1),
    Act::Call(0, 1, [LOCAL, 2, 1, BASE + 8, 0], SbiCode::Success),
    Act::Call(0, 0, [LOCAL, 2, 1, BASE + 24, 0], SbiCode::Success),
    Act::Word(BASE + 24, 1),
];

/// A board of one hart has hart 0 alone.
const OF_HARTS: [Act; 4] = [
    Act::Store(BASE, 1),
    Act::Call(0, 1, [GLOBAL, 3, 1, BASE, 0], SbiCode::InvalidParam),
    Act::Store(BASE, 0),
    Act::Call(0, 1, [GLOBAL, 3, 1, BASE, 0], SbiCode::Success),
];

#[test]
fn values_are_refused_and_taken(rt: HostRuntime) -> Result<(), Fail> {
    let mut firmware = Firmware::new(rt.alloc(), 1, &[injectable(0xffff_0000)], &[0x1000])?;
    all_happen(&rt, &mut firmware, &OF_VALUES);
    let mut firmware = Firmware::new(rt.alloc(), 1, &[injectable(0xffff_8000)], &[0x1000])?;
    all_happen(&rt, &mut firmware, &OF_HARTS);
    Ok(())
}

/// An event that is signalled again while it runs, and once more when it has run: it is pending in each state, and each
/// enabling lets it run once.
const ONESHOT: [Act; 22] = [
    Act::Store(BASE, 1),
    Act::Call(0, 1, [LOCAL, 2, 1, BASE, 0], SbiCode::Success),
    Act::Call(0, 2, [LOCAL, 0x2000, 0, 0, 0], SbiCode::Success),
    Act::Call(0, 4, [LOCAL, 0, 0, 0, 0], SbiCode::Success),
    Act::Call(0, 8, [0; 5], SbiCode::Success),
    Act::Call(0, 7, [LOCAL, 0, 0, 0, 0], SbiCode::Success),
    Act::Deliver(0, Some(OWN)),
    Act::Call(0, 7, [LOCAL, 0, 0, 0, 0], SbiCode::Success),
    Act::Call(0, 6, [0; 5], SbiCode::Success),
    Act::Call(0, 0, [LOCAL, 0, 1, BASE, 0], SbiCode::Success),
    Act::Word(BASE, 0xd),
    Act::Deliver(0, None),
    Act::Call(0, 4, [LOCAL, 0, 0, 0, 0], SbiCode::Success),
    Act::Deliver(0, Some(OWN)),
    Act::Call(0, 6, [0; 5], SbiCode::Success),
    Act::Call(0, 0, [LOCAL, 0, 1, BASE, 0], SbiCode::Success),
    Act::Word(BASE, 0x9),
    Act::Call(0, 7, [LOCAL, 0, 0, 0, 0], SbiCode::Success),
    Act::Call(0, 0, [LOCAL, 0, 1, BASE, 0], SbiCode::Success),
    Act::Word(BASE, 0xd),
    Act::Call(0, 4, [LOCAL, 0, 0, 0, 0], SbiCode::Success),
    Act::Deliver(0, Some(OWN)),
];

#[test]
fn a_oneshot_event_runs_once(rt: HostRuntime) -> Result<(), Fail> {
    let mut firmware = Firmware::new(rt.alloc(), 1, &[injectable(0xffff_0000)], &[0x1000])?;
    all_happen(&rt, &mut firmware, &ONESHOT);
    Ok(())
}
