//! Runs that nobody holds back.

use crate::counted::{count, scrubber};
use crate::outcomes::{Devices, play_of, run_of, with_schedule};
use crate::scripts::{REALISTIC, REALISTIC_LINES, THREE_DEVICES, WILD, WILD_OUT};
use board_lock::OpenGate;
use ras_device::Scrubber;
use std::sync::atomic::Ordering;
use std::test::Fail;

#[test]
fn its_schedule_makes_the_same_run(rt: HostRuntime) -> Result<(), Fail> {
    let alloc = rt.alloc();
    let mut devices: Devices = Vec::new(alloc);
    devices.push(Box::new(alloc, Scrubber::new(0, 0, 100))?)?;
    let ran = run_of(&rt, alloc, REALISTIC, devices, &OpenGate)?;
    assert!(rt; ran.has_lines(&REALISTIC_LINES));
    let text = with_schedule(alloc, REALISTIC, ran.bytes.as_slice())?;
    let mut devices: Devices = Vec::new(alloc);
    devices.push(Box::new(alloc, Scrubber::new(0, 0, 100))?)?;
    let again = play_of(alloc, text.as_slice(), devices)?;
    assert!(rt; again.is(ran.bytes.as_slice()));
    Ok(())
}

#[test]
fn a_hostile_hart_changes_nothing_else(rt: HostRuntime) -> Result<(), Fail> {
    let alloc = rt.alloc();
    let ran = run_of(&rt, alloc, WILD, Vec::new(alloc), &OpenGate)?;
    assert!(rt; ran.is(WILD_OUT));
    Ok(())
}

#[test]
fn drops_each_device_once(rt: HostRuntime) -> Result<(), Fail> {
    let alloc = rt.alloc();
    let named = count(alloc)?;
    let spare = count(alloc)?;
    let unplugged = count(alloc)?;
    let mut devices: Devices = Vec::new(alloc);
    devices.push(Box::new(alloc, scrubber(2, count(alloc)?, named.clone()?))?)?;
    devices.push(Box::new(alloc, scrubber(3, count(alloc)?, spare.clone()?))?)?;
    devices.push(Box::new(alloc, scrubber(4, count(alloc)?, unplugged.clone()?))?)?;
    let ran = run_of(&rt, alloc, THREE_DEVICES, devices, &OpenGate)?;
    assert!(rt; ran.has_lines(&["end"]));
    assert_eq!(rt; named.load(Ordering::SeqCst), 1);
    assert_eq!(rt; spare.load(Ordering::SeqCst), 1);
    assert_eq!(rt; unplugged.load(Ordering::SeqCst), 1);
    Ok(())
}
