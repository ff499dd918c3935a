//! Runs under gates that look on or hold workers back.

use crate::counted::{Count, Counted, count, scrubber, three_raises};
use crate::outcomes::{Devices, comes_before, run_of, with_schedule};
use crate::scripts::{REALISTIC, REALISTIC_LINES, UNPLUGS, UNPLUGS_OUT};
use board_lock::Gate;
use ras_device::Listed;
use std::sync::atomic::{AtomicU64, Ordering};
use std::test::Fail;
use std::thread;

/// How often a gate looks for another arrival before it gives up.
const LOOKS: u32 = 1_000_000;

/// Waits until a number isn't 0, and says whether it came.
fn comes(number: &AtomicU64) -> bool {
    for _ in 0..LOOKS {
        if number.load(Ordering::SeqCst) != 0 {
            return true;
        }
        thread::yield_now();
    }
    false
}

// ---- Two workers meet ----

/// The first arrivals of actors 0 and 1, and how many of the two saw the other's.
#[derive(Drop)]
struct Meet {
    first: AtomicU64,
    second: AtomicU64,
    seen: AtomicU64,
}

impl Gate for Meet {
    fn arrive(&self, actor: u8, turn: u64) {
        if turn != 0 || actor > 1 {
            return;
        }
        let (own, other) = if actor == 0 {
            (&self.first, &self.second)
        } else {
            (&self.second, &self.first)
        };
        own.store(1, Ordering::SeqCst);
        if comes(other) {
            self.seen.fetch_add(1, Ordering::SeqCst);
        }
    }
}

#[test]
fn gate_meet(rt: HostRuntime) -> Result<(), Fail> {
    let alloc = rt.alloc();
    let gate = Meet {
        first: AtomicU64::new(0),
        second: AtomicU64::new(0),
        seen: AtomicU64::new(0),
    };
    let mut devices: Devices = Vec::new(alloc);
    devices.push(Box::new(alloc, scrubber(100, count(alloc)?, count(alloc)?))?)?;
    let ran = run_of(&rt, alloc, REALISTIC, devices, &gate)?;
    assert_eq!(rt; gate.seen.load(Ordering::SeqCst), 2);
    assert!(rt; ran.has_lines(&REALISTIC_LINES));
    Ok(())
}

// ---- A reporter's steps are made in holds, at most one in each ----

/// How many arrivals there were, and how often the device was asked by turn 100 of its reporter.
#[derive(Drop)]
struct Arrivals {
    all: AtomicU64,
    asks: Count,
    asked_by_then: AtomicU64,
}

impl Gate for Arrivals {
    fn arrive(&self, actor: u8, turn: u64) {
        self.all.fetch_add(1, Ordering::SeqCst);
        if actor == 4 && turn == 100 {
            let asked = self.asks.load(Ordering::SeqCst);
            self.asked_by_then.store(asked, Ordering::SeqCst);
        }
    }
}

#[test]
fn gate_count(rt: HostRuntime) -> Result<(), Fail> {
    let alloc = rt.alloc();
    let asks = count(alloc)?;
    let gate = Arrivals {
        all: AtomicU64::new(0),
        asks: asks.clone()?,
        asked_by_then: AtomicU64::new(0),
    };
    let mut devices: Devices = Vec::new(alloc);
    devices.push(Box::new(alloc, scrubber(100, asks, count(alloc)?))?)?;
    let ran = run_of(&rt, alloc, REALISTIC, devices, &gate)?;
    assert!(rt; gate.all.load(Ordering::SeqCst) >= 168);
    assert!(rt; gate.asked_by_then.load(Ordering::SeqCst) >= 100);
    assert!(rt; ran.has_lines(&REALISTIC_LINES));
    Ok(())
}

// ---- A hart's steps are made in holds ----

/// Holds back the first arrival of an actor until another one has arrived for its second turn.
#[derive(Drop)]
struct After {
    early: u8,
    late: u8,
    made: AtomicU64,
    seen: AtomicU64,
}

impl After {
    fn new(early: u8, late: u8) -> After {
        After {
            early,
            late,
            made: AtomicU64::new(0),
            seen: AtomicU64::new(0),
        }
    }
}

impl Gate for After {
    fn arrive(&self, actor: u8, turn: u64) {
        if actor == self.early && turn == 1 {
            self.made.store(1, Ordering::SeqCst);
        }
        if actor == self.late && turn == 0 && comes(&self.made) {
            self.seen.store(1, Ordering::SeqCst);
        }
    }
}

#[test]
#[tactic(auto, using(crate::proofs::Raises::three_raises))]
fn gate_unplug(rt: HostRuntime) -> Result<(), Fail> {
    let alloc = rt.alloc();
    let gate = After::new(0, 1);
    let asks = count(alloc)?;
    let drops = count(alloc)?;
    let device = Counted {
        inner: Listed::new(three_raises(alloc, 0xffff_0000, 0)?),
        asks: asks.clone()?,
        drops: drops.clone()?,
    };
    let mut devices: Devices = Vec::new(alloc);
    devices.push(Box::new(alloc, device)?)?;
    let ran = run_of(&rt, alloc, UNPLUGS, devices, &gate)?;
    assert_eq!(rt; gate.seen.load(Ordering::SeqCst), 1);
    assert_eq!(rt; asks.load(Ordering::SeqCst), 0);
    assert_eq!(rt; drops.load(Ordering::SeqCst), 1);
    assert!(rt; ran.is(UNPLUGS_OUT));
    Ok(())
}

// ---- The steps are those that the lock kept ----

#[test]
fn gate_order(rt: HostRuntime) -> Result<(), Fail> {
    let alloc = rt.alloc();
    let gate = After::new(1, 0);
    let mut devices: Devices = Vec::new(alloc);
    devices.push(Box::new(alloc, scrubber(100, count(alloc)?, count(alloc)?))?)?;
    let ran = run_of(&rt, alloc, REALISTIC, devices, &gate)?;
    assert_eq!(rt; gate.seen.load(Ordering::SeqCst), 1);
    assert!(rt; ran.has_lines(&REALISTIC_LINES));
    let schedule = with_schedule(alloc, b"", ran.bytes.as_slice())?;
    assert!(rt; comes_before(schedule.as_slice(), b"h1", b"h0"));
    Ok(())
}
