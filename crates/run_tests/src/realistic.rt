//! A whole board with a scrubber, whose errors are all counted, and an error that wasn't corrected on another bank.

use crate::counted::count;
use crate::outcomes::Devices;
use crate::plays::{counted, played};
use crate::scripts::REALISTIC;
use ras_device::Scrubber;
use std::sync::atomic::Ordering;
use std::test::Fail;

const LINES: [&str; 3] = [
    "board 1 harts 4 banks 3 reporters 2 steps 168",
    "fates made 101 stray 0 disabled 0 counted 100 drained 1 overwritten 0 kept 0 stands 0",
    "word 0x80000100 0x1",
];

#[test]
fn plays_a_whole_board(rt: HostRuntime) -> Result<(), Fail> {
    let alloc = rt.alloc();
    let asks = count(alloc)?;
    let drops = count(alloc)?;
    let device = counted(Scrubber::new(0, 0, 100), &asks, &drops)?;
    let mut devices: Devices = Vec::new(alloc);
    devices.push(Box::new(alloc, device)?)?;
    let seen = played(alloc, &["play"], REALISTIC, devices)?;
    assert!(rt; seen.has_lines(&LINES));
    assert_eq!(rt; asks.load(Ordering::SeqCst), 100);
    assert_eq!(rt; drops.load(Ordering::SeqCst), 1);
    Ok(())
}
