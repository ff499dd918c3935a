//! Devices that keep time.

use crate::acts::{act_behind, ce, raise};
use ras_device::ErrorDevice;
use ras_pulse::{CountdownDevice, PmuDevice};
use std::test::Fail;

#[test]
fn one_period(rt: HostRuntime) -> Result<(), Fail> {
    let mut device = PmuDevice::new(1, 2, 1);
    assert_eq!(rt; device.next(), Some(ce(255, 255, 0, 0, 0)));
    assert_eq!(rt; device.next(), Some(ce(255, 255, 0, 0, 0)));
    assert_eq!(rt; device.next(), Some(raise(0x10000, 1)));
    assert_eq!(rt; device.next(), None);
    assert_eq!(rt; device.next(), None);
    Ok(())
}

#[test]
fn ten_periods(rt: HostRuntime) -> Result<(), Fail> {
    let mut device = PmuDevice::new(0, 3, 10);
    assert_eq!(rt; act_behind(&mut device, 3), Some(raise(0x10000, 0)));
    assert_eq!(rt; device.next(), Some(ce(255, 255, 0, 0, 0)));
    assert_eq!(rt; act_behind(&mut device, 33), Some(ce(255, 255, 0, 0, 0)));
    assert_eq!(rt; device.next(), Some(raise(0x10000, 0)));
    assert_eq!(rt; device.next(), None);
    assert_eq!(rt; device.next(), None);
    Ok(())
}

#[test]
fn a_period_without_pulses(rt: HostRuntime) -> Result<(), Fail> {
    let mut device = PmuDevice::new(7, 0, 2);
    assert_eq!(rt; device.next(), Some(raise(0x10000, 7)));
    assert_eq!(rt; device.next(), Some(raise(0x10000, 7)));
    assert_eq!(rt; device.next(), None);
    Ok(())
}

#[test]
fn a_countdown_ends(rt: HostRuntime) -> Result<(), Fail> {
    let mut device = CountdownDevice::new(0xffff0000, 5, 3);
    assert_eq!(rt; device.next(), Some(raise(0xffff0000, 5)));
    assert_eq!(rt; device.next(), Some(raise(0xffff0000, 5)));
    assert_eq!(rt; device.next(), Some(raise(0xffff0000, 5)));
    assert_eq!(rt; device.next(), Some(ce(0, 0, 3, 0, 3)));
    assert_eq!(rt; device.next(), None);
    assert_eq!(rt; device.next(), None);
    let mut at_once = CountdownDevice::new(0, 0, 0);
    assert_eq!(rt; at_once.next(), Some(ce(0, 0, 3, 0, 0)));
    assert_eq!(rt; at_once.next(), None);
    Ok(())
}
