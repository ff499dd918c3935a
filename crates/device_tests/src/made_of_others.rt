//! Devices that are made of others.

use crate::acts::{ce, raise, two_raises};
use crate::asked::{Asked, no_asks};
use ras_device::{ErrorDevice, Listed, Scrubber, Silent};
use ras_pulse::{Alternate, Chain, CountdownDevice, PmuDevice};
use std::sync::Arc;
use std::sync::atomic::Ordering;
use std::test::Fail;

#[test]
#[tactic(auto, using(crate::proofs::Raises::two_raises))]
fn silence_before_a_list(rt: HostRuntime) -> Result<(), Fail> {
    let listed = Listed::new(two_raises(rt.alloc(), 0x8000, 2, 1)?);
    let mut device = Chain::new(Silent::new(), listed);
    assert_eq!(rt; device.next(), Some(raise(0x8000, 2)));
    assert_eq!(rt; device.next(), Some(raise(0x8000, 1)));
    assert_eq!(rt; device.next(), None);
    assert_eq!(rt; device.next(), None);
    Ok(())
}

#[test]
fn a_countdown_and_a_scrubber_in_turn(rt: HostRuntime) -> Result<(), Fail> {
    let mut device = Alternate::new(
        CountdownDevice::new(0xffff0000, 0, 2),
        Scrubber::new(0, 0, 1),
    );
    assert_eq!(rt; device.next(), Some(raise(0xffff0000, 0)));
    assert_eq!(rt; device.next(), Some(ce(0, 0, 1, 0, 0)));
    assert_eq!(rt; device.next(), Some(raise(0xffff0000, 0)));
    assert_eq!(rt; device.next(), Some(ce(0, 0, 3, 0, 2)));
    assert_eq!(rt; device.next(), None);
    assert_eq!(rt; device.next(), None);
    Ok(())
}

#[test]
fn the_second_goes_on_alone(rt: HostRuntime) -> Result<(), Fail> {
    let mut device = Alternate::new(Scrubber::new(1, 1, 1), PmuDevice::new(0, 1, 1));
    assert_eq!(rt; device.next(), Some(ce(1, 1, 1, 0, 0)));
    assert_eq!(rt; device.next(), Some(ce(255, 255, 0, 0, 0)));
    assert_eq!(rt; device.next(), Some(raise(0x10000, 0)));
    assert_eq!(rt; device.next(), None);
    assert_eq!(rt; device.next(), None);
    Ok(())
}

#[test]
fn a_chain_of_turns_of_a_chain(rt: HostRuntime) -> Result<(), Fail> {
    let inner = Chain::new(Scrubber::new(2, 0, 1), Scrubber::new(2, 1, 1));
    let turns = Alternate::new(inner, CountdownDevice::new(0, 4, 1));
    let mut device = Chain::new(turns, Scrubber::new(3, 0, 1));
    assert_eq!(rt; device.next(), Some(ce(2, 0, 1, 0, 0)));
    assert_eq!(rt; device.next(), Some(raise(0, 4)));
    assert_eq!(rt; device.next(), Some(ce(2, 1, 1, 0, 0)));
    assert_eq!(rt; device.next(), Some(ce(0, 0, 3, 0, 1)));
    assert_eq!(rt; device.next(), Some(ce(3, 0, 1, 0, 0)));
    assert_eq!(rt; device.next(), None);
    assert_eq!(rt; device.next(), None);
    Ok(())
}

#[test]
fn each_is_asked_once_for_nothing(rt: HostRuntime) -> Result<(), Fail> {
    let asks = no_asks(rt.alloc())?;
    let first = Asked::new(Arc::try_clone(&asks)?);
    let second = Asked::new(Arc::try_clone(&asks)?);
    let mut chain = Chain::new(first, second);
    assert_eq!(rt; chain.next(), None);
    assert_eq!(rt; chain.next(), None);
    assert_eq!(rt; asks.load(Ordering::SeqCst), 2);
    let first = Asked::new(Arc::try_clone(&asks)?);
    let second = Asked::new(Arc::try_clone(&asks)?);
    let mut turns = Alternate::new(first, second);
    assert_eq!(rt; turns.next(), None);
    assert_eq!(rt; turns.next(), None);
    assert_eq!(rt; asks.load(Ordering::SeqCst), 4);
    Ok(())
}
