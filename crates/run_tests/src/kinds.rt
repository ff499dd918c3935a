//! Devices of other kinds: a list, overflows of a counter, a chain, and one that watches another.

ghost use Rattle.std.specs.Prelude.{◌≡◌, [], ◌∷◌, IfOk};

use crate::counted::{Count, count};
use crate::outcomes::Devices;
use crate::plays::{CROSSED, UNPLUGGED, counted, played};
use ras_device::{Act, ErrorDevice, Listed, Scrubber, Silent};
use ras_pulse::{Chain, PmuDevice};
use std::alloc::{AllocError, Global};
use std::sync::atomic::Ordering;
use std::test::Fail;

const TRACE: &[&str] = &["play", "--trace"];

// ---- A list and a silent device ----

const LISTED: &[u8] = b"board 1 1
event 0xffff0000 inject
reporter device 1 5
reporter device 0 5
";

const LISTED_LINES: [&str; 3] = [
    "1 r1 raise 0xffff0000 0 signalled",
    "board 1 harts 1 banks 0 reporters 2 steps 1",
    "schedule r1",
];

/// A list of one raise.
fn one_raise(alloc: Global, id: u32, hart: u8) -> Result<Vec<Act>, AllocError>
    ensures { IfOk result (λ acts. acts.items ≡ Act.Raise id hart ∷ []) }
{
    let mut acts = Vec::new(alloc);
    acts.push(Act::Raise { id, hart })?;
    Ok(acts)
}

#[test]
#[tactic(auto, using(crate::proofs::Raises::one_raise))]
fn a_silent_device_makes_no_act(rt: HostRuntime) -> Result<(), Fail> {
    let alloc = rt.alloc();
    let asks = count(alloc)?;
    let drops = count(alloc)?;
    let device = Listed::new(one_raise(alloc, 0xffff_0000, 0)?);
    let mut devices: Devices = Vec::new(alloc);
    devices.push(Box::new(alloc, counted(device, &asks, &drops)?)?)?;
    devices.push(Box::new(alloc, Silent::new())?)?;
    let seen = played(alloc, TRACE, LISTED, devices)?;
    assert!(rt; seen.has_lines(&LISTED_LINES));
    assert_eq!(rt; asks.load(Ordering::SeqCst), 2);
    assert_eq!(rt; drops.load(Ordering::SeqCst), 1);
    Ok(())
}

// ---- Overflows ----

const OVERFLOWS: &[u8] = b"board 1 2
event 0x10000 noinject
reporter device 0 10
";

const OVERFLOWS_LINES: [&str; 5] = [
    "1 r0 error 255 255 ce 0 0 0x0 0x0 0x0 0x0 = stray",
    "2 r0 error 255 255 ce 0 0 0x0 0x0 0x0 0x0 = stray",
    "3 r0 raise 0x10000 1 signalled",
    "board 1 harts 2 banks 0 reporters 1 steps 3",
    "fates made 2 stray 2 disabled 0 counted 0 drained 0 overwritten 0 kept 0 stands 0",
];

#[test]
fn pulses_are_strays(rt: HostRuntime) -> Result<(), Fail> {
    let alloc = rt.alloc();
    let asks = count(alloc)?;
    let device = counted(PmuDevice::new(1, 2, 1), &asks, &count(alloc)?)?;
    let mut devices: Devices = Vec::new(alloc);
    devices.push(Box::new(alloc, device)?)?;
    let seen = played(alloc, TRACE, OVERFLOWS, devices)?;
    assert!(rt; seen.has_lines(&OVERFLOWS_LINES));
    assert_eq!(rt; asks.load(Ordering::SeqCst), 4);
    Ok(())
}

// ---- A device that is unplugged with acts left ----

const LEFT_OVER: &[u8] = b"board 1 1
bank 0 local 1
record 0 0 0x94 0
op unplug 0
start 0 0x1000 100
reporter device 0 3
reporter device 1 3
schedule r0 r1 h0 r1 r0 r1 r0
";

const LEFT_OVER_LINES: [&str; 5] = [
    "1 r0 error 0 0 ce 0 1 0x0 0x0 0x0 0x0 = disabled",
    "2 h0 unplug 0 yes",
    "board 1 harts 1 banks 1 reporters 2 steps 2",
    "fates made 1 stray 0 disabled 1 counted 0 drained 0 overwritten 0 kept 0 stands 0",
    "schedule r0 h0",
];

/// A device that has nothing to give, and adds up how many others were dropped each time that it is asked.
#[derive(Drop)]
struct Watching {
    drops: Count,
    seen: Count,
}

impl ErrorDevice for Watching {
    ghost use Rattle.ras_device.specs.Acts.{nothing};

    ghost left = { λ d. nothing };

    fn next(&mut self) -> Option<Act> {
        let drops = self.drops.load(Ordering::SeqCst);
        self.seen.fetch_add(drops, Ordering::SeqCst);
        None
    }
}

#[test]
fn drops_a_device_at_its_first_unwanted_try(rt: HostRuntime) -> Result<(), Fail> {
    let alloc = rt.alloc();
    let drops = count(alloc)?;
    let dropped_then = count(alloc)?;
    let looks = count(alloc)?;
    let asks = count(alloc)?;
    let first = counted(Scrubber::new(0, 0, 3), &asks, &drops)?;
    let watching = Watching {
        drops: drops.clone()?,
        seen: dropped_then.clone()?,
    };
    let second = counted(watching, &looks, &count(alloc)?)?;
    let mut devices: Devices = Vec::new(alloc);
    devices.push(Box::new(alloc, first)?)?;
    devices.push(Box::new(alloc, second)?)?;
    let seen = played(alloc, TRACE, LEFT_OVER, devices)?;
    assert!(rt; seen.has_lines(&LEFT_OVER_LINES));
    assert_eq!(rt; asks.load(Ordering::SeqCst), 1);
    assert_eq!(rt; drops.load(Ordering::SeqCst), 1);
    // of its three looks, the last alone saw that the device had been dropped
    assert_eq!(rt; looks.load(Ordering::SeqCst), 3);
    assert_eq!(rt; dropped_then.load(Ordering::SeqCst), 1);
    Ok(())
}

// ---- A chain ----

/// How often a chain was dropped after a play, and how many of its two devices were.
fn chain_drops(alloc: Global, text: &[u8]) -> Result<(u64, u64), Fail> {
    let chains = count(alloc)?;
    let drops = count(alloc)?;
    let asks = count(alloc)?;
    let first = counted(Silent::new(), &asks, &drops)?;
    let second = counted(Scrubber::new(0, 0, 2), &asks, &drops)?;
    let chain = counted(Chain::new(first, second), &asks, &chains)?;
    let mut devices: Devices = Vec::new(alloc);
    devices.push(Box::new(alloc, chain)?)?;
    devices.push(Box::new(alloc, Silent::new())?)?;
    let _seen = played(alloc, &["play"], text, devices)?;
    Ok((chains.load(Ordering::SeqCst), drops.load(Ordering::SeqCst)))
}

#[test]
fn drops_a_chain_with_its_devices(rt: HostRuntime) -> Result<(), Fail> {
    let texts: [&[u8]; 3] = [UNPLUGGED, CROSSED, b"board 1 1\n"];
    for text in texts {
        assert_eq!(rt; chain_drops(rt.alloc(), text)?, (1, 2));
    }
    Ok(())
}
