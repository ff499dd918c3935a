//! Devices that give lists, scrub and storm.

use crate::acts::{act_behind, ce, raise, stormed, two_raises};
use ras_device::{ErrorDevice, Listed, Scrubber, Silent, Storm};
use reri_fields::Severity;
use std::test::Fail;

#[test]
#[tactic(auto, using(crate::proofs::Raises::two_raises))]
fn two_listed_acts(rt: HostRuntime) -> Result<(), Fail> {
    let mut device = Listed::new(two_raises(rt.alloc(), 0x8000, 3, 0)?);
    assert_eq!(rt; device.next(), Some(raise(0x8000, 3)));
    assert_eq!(rt; device.next(), Some(raise(0x8000, 0)));
    assert_eq!(rt; device.next(), None);
    assert_eq!(rt; device.next(), None);
    Ok(())
}

#[test]
fn no_listed_acts(rt: HostRuntime) -> Result<(), Fail> {
    let mut device = Listed::new(Vec::new(rt.alloc()));
    assert_eq!(rt; device.next(), None);
    assert_eq!(rt; device.next(), None);
    Ok(())
}

#[test]
fn scrubbed_pages(rt: HostRuntime) -> Result<(), Fail> {
    let mut device = Scrubber::new(3, 62, 65535);
    assert_eq!(rt; device.next(), Some(ce(3, 62, 1, 0, 0)));
    assert_eq!(rt; device.next(), Some(ce(3, 62, 1, 4096, 1)));
    assert_eq!(rt;
        act_behind(&mut device, 32766),
        Some(ce(3, 62, 1, 134217728, 32768))
    );
    assert_eq!(rt;
        act_behind(&mut device, 32765),
        Some(ce(3, 62, 1, 268427264, 65534))
    );
    assert_eq!(rt; device.next(), None);
    assert_eq!(rt; device.next(), None);
    Ok(())
}

#[test]
fn a_storm_takes_turns(rt: HostRuntime) -> Result<(), Fail> {
    let mut device = Storm::new(1, 4, 14);
    assert_eq!(rt; device.next(), Some(stormed(1, 0, Severity::Ce, 0, 0)));
    assert_eq!(rt; device.next(), Some(stormed(1, 1, Severity::Ued, 0, 1)));
    assert_eq!(rt; device.next(), Some(stormed(1, 2, Severity::Uec, 0, 2)));
    assert_eq!(rt; device.next(), Some(stormed(1, 3, Severity::Ce, 1, 3)));
    assert_eq!(rt; device.next(), Some(stormed(1, 0, Severity::Ued, 1, 4)));
    assert_eq!(rt;
        act_behind(&mut device, 6),
        Some(stormed(1, 3, Severity::Uec, 3, 11))
    );
    assert_eq!(rt; device.next(), Some(stormed(1, 0, Severity::Ce, 0, 12)));
    assert_eq!(rt; device.next(), Some(stormed(1, 1, Severity::Ued, 0, 13)));
    assert_eq!(rt; device.next(), None);
    assert_eq!(rt; device.next(), None);
    Ok(())
}

#[test]
fn nothing_of_a_silent_device(rt: HostRuntime) -> Result<(), Fail> {
    let mut device = Silent::new();
    assert_eq!(rt; device.next(), None);
    assert_eq!(rt; device.next(), None);
    let mut scrubber = Scrubber::new(0, 0, 0);
    assert_eq!(rt; scrubber.next(), None);
    assert_eq!(rt; scrubber.next(), None);
    Ok(())
}
