//! Drains at work, phase by phase, with errors and acknowledgements between the phases.
ghost use Rattle.std.specs.Prelude.{All, ◌≤◌, ◌<◌, length};

use crate::words::{PLAIN, shows};
use ghes_block::Slot;
use ras_drain::{Drain, DrainNote, Phase};
use ras_io::NoMemory;
use reri_bank::Bank;
use reri_fields::{Control, Logged, RecordCopy, Report, Severity, Status};
use std::alloc::Global;
use std::marker::Model;
use std::test::Fail;

// A bank with its slot and its drain.
#[derive(Drop)]
struct Bench {
    bank: Bank,
    slot: Slot,
    drain: Drain,
}

impl Model for Bench {
    ghost use Rattle.std.specs.Prelude.{List};
    ghost use Rattle.reri_fields.specs.declared.report.RecordCopy.{RecordCopy};
    ghost use Rattle.reri_fields.specs.Banks.{BankView};
    ghost use Rattle.ras_drain.specs.Fits.{DrainView, Fits, HasRoom};

    ghost Value = { BankView × List RecordCopy × DrainView };

    ghost view = { λ b. (b.bank, b.slot, b.drain) };

    // The drain may take a step whenever it is under way.
    ghost invariant = { λ b. Fits b.drain b.bank × HasRoom b.drain.drain b.slot };
}

impl Bench {
    fn new(alloc: Global, start: &[(u64, u16)]) -> Result<Bench, NoMemory>
        requires any { 0 < length start.now }
        requires room { length start.now ≤ 63 }
        requires controls { All (λ first. first.0 ≤ 0xff) start.now }
    {
        Ok(Bench {
            bank: Bank::new(alloc, start)?,
            slot: Slot::new(),
            drain: Drain::new(),
        })
    }

    // An error of this rank for a record, whose address and time tell it from others.
    fn report(&mut self, rec: u8, severity: Severity, priority: u8, time: u64) -> Option<Logged>
        requires { priority < 4 }
    {
        self.bank.report(&Report {
            bank: 0,
            rec,
            severity,
            priority,
            code: 2,
            address: 0x100,
            info: 0,
            supplement: 0,
            time,
        })
    }

    // Begins a drain where none is under way and the slot is free.
    fn begin(&mut self, gather: u8)
        requires some { 0 < gather }
        requires few { gather ≤ 4 }
    {
        if self.drain.phase().is_none() {
            if self.slot.is_free() {
                self.drain.begin(gather);
            }
        }
    }

    // The drain's next step, where one is under way.
    fn step(&mut self) -> Option<DrainNote> {
        if self.drain.phase().is_none() {
            return None;
        }
        Some(self.drain.step(&mut self.bank, &mut self.slot))
    }

    // Whether the next steps have these notes.
    fn takes(&mut self, notes: &[DrainNote]) -> bool {
        for note in notes {
            if self.step() != Some(*note) {
                return false;
            }
        }
        true
    }

    // Whether the drain takes one record from its Scan to its Invalidate.
    fn takes_whole(&mut self, rec: u8, copy: RecordCopy) -> bool {
        self.takes(&[DrainNote::Scanned { rec }, DrainNote::Claimed])
            && self.takes(&READS)
            && self.takes(&[
                DrainNote::Published { copy },
                DrainNote::Invalidated { cleared: true },
            ])
    }

    fn acknowledge(&mut self) -> bool {
        self.slot.acknowledge()
    }
}

const READS: [DrainNote; 4] = [
    DrainNote::Read { register: 2 },
    DrainNote::Read { register: 3 },
    DrainNote::Read { register: 4 },
    DrainNote::Read { register: 5 },
];

// The copy that a claimed record of control `PLAIN` shows.
fn copy(status: Status, time: u64) -> RecordCopy {
    RecordCopy {
        control: PLAIN,
        status: status.with_in_progress(true).0,
        address: 0x100,
        info: 0,
        supplement: 0,
        time,
    }
}

#[test]
fn nothing_to_drain(rt: HostRuntime) -> Result<(), Fail> {
    let mut bench = Bench::new(rt.alloc(), &[(PLAIN, 0)])?;
    assert_eq!(rt; bench.step(), None);
    bench.begin(1);
    assert_eq!(rt; bench.drain.phase(), Some((Phase::Scan, 0)));
    assert_eq!(rt; bench.step(), Some(DrainNote::Over));
    assert_eq!(rt; bench.drain.phase(), None);
    Ok(())
}

// An error that comes while the registers are read, at any of the four reads, tears the claim where it writes the
// record.
#[test]
fn a_claim_is_torn_at_each_read(rt: HostRuntime) -> Result<(), Fail> {
    for at in 0..5usize {
        let mut bench = Bench::new(rt.alloc(), &[(PLAIN, 0)])?;
        bench.report(0, Severity::Ued, 0, 1);
        bench.begin(1);
        assert!(rt; bench.takes(&[DrainNote::Scanned { rec: 0 }, DrainNote::Claimed]));
        assert!(rt; bench.takes(&READS[..at.min(4)]));
        assert_eq!(rt; bench.report(0, Severity::Ued, 0, 2), Some(Logged::Kept));
        assert_eq!(rt;
            bench.report(0, Severity::Uec, 0, 3),
            Some(Logged::Wrote { level: 2 })
        );
        assert!(rt; bench.takes(&READS[at.min(4)..]));
        assert_eq!(rt; bench.step(), Some(DrainNote::Torn));
        assert_eq!(rt; bench.drain.phase(), Some((Phase::Claim, 0)));
        let shown = copy(shows(0, 2).with_ued(true).with_uec(true), 3);
        assert_eq!(rt; bench.step(), Some(DrainNote::Claimed));
        assert!(rt; bench.takes(&READS));
        assert!(rt;
            bench.takes(&[
                DrainNote::Published { copy: shown },
                DrainNote::Invalidated { cleared: true },
                DrainNote::Signal { level: 2 },
            ])
        );
        assert_eq!(rt; bench.drain.phase(), None);
        assert_eq!(rt; bench.slot.copies(), [shown].as_slice());
    }
    Ok(())
}

// An error that is kept out changes the status alone, and the copy that is published has it.
#[test]
fn an_error_that_is_kept_out_tears_nothing(rt: HostRuntime) -> Result<(), Fail> {
    let mut bench = Bench::new(rt.alloc(), &[(PLAIN, 0)])?;
    bench.report(0, Severity::Uec, 1, 1);
    bench.begin(1);
    assert!(rt; bench.takes(&[DrainNote::Scanned { rec: 0 }, DrainNote::Claimed]));
    bench.report(0, Severity::Uec, 0, 2);
    bench.report(0, Severity::Ce, 3, 3);
    assert!(rt; bench.takes(&READS));
    let status = shows(1, 2).with_uec(true).with_ce(true).with_multiple(true);
    assert_eq!(rt;
        bench.step(),
        Some(DrainNote::Published {
            copy: copy(status, 1)
        })
    );
    Ok(())
}

// An error that writes between the Check and the Invalidate stays, and its bank goes on asking.
#[test]
fn a_newer_error_is_not_cleared(rt: HostRuntime) -> Result<(), Fail> {
    let mut bench = Bench::new(rt.alloc(), &[(PLAIN, 0)])?;
    bench.report(0, Severity::Ued, 0, 1);
    bench.begin(1);
    assert!(rt; bench.takes(&[DrainNote::Scanned { rec: 0 }, DrainNote::Claimed]));
    assert!(rt; bench.takes(&READS));
    let first = copy(shows(0, 2).with_ued(true), 1);
    assert_eq!(rt; bench.step(), Some(DrainNote::Published { copy: first }));
    bench.report(0, Severity::Uec, 1, 2);
    assert!(rt;
        bench.takes(&[
            DrainNote::Invalidated { cleared: false },
            DrainNote::Signal { level: 1 },
        ])
    );
    let stays = shows(1, 2).with_ued(true).with_uec(true);
    assert_eq!(rt; bench.bank.word(16), Some(stays.0));
    assert!(rt; bench.bank.asks());
    assert_eq!(rt; bench.slot.copies(), [first].as_slice());
    Ok(())
}

// Each of twelve errors of rising rank tears the claim before it; the last one is published.
#[test]
fn twelve_claims(rt: HostRuntime) -> Result<(), Fail> {
    let mut bench = Bench::new(rt.alloc(), &[(PLAIN, 0)])?;
    bench.report(0, Severity::Ce, 0, 0);
    bench.begin(1);
    assert_eq!(rt; bench.step(), Some(DrainNote::Scanned { rec: 0 }));
    for severity in [Severity::Ce, Severity::Ued, Severity::Uec] {
        for priority in 0..4u8 {
            if severity != Severity::Ce || priority > 0 {
                bench.report(0, severity, priority, u64::from(priority));
                assert!(rt; bench.takes(&READS));
                assert_eq!(rt; bench.step(), Some(DrainNote::Torn));
            }
            assert_eq!(rt; bench.step(), Some(DrainNote::Claimed));
        }
    }
    assert!(rt; bench.takes(&READS));
    let all = shows(3, 2)
        .with_ce(true)
        .with_ued(true)
        .with_uec(true)
        .with_multiple(true);
    assert_eq!(rt;
        bench.step(),
        Some(DrainNote::Published { copy: copy(all, 3) })
    );
    Ok(())
}

// Two copies are gathered; the block spells both, and the level is the greater one, which came first.
#[test]
fn two_copies_are_gathered(rt: HostRuntime) -> Result<(), Fail> {
    let mut bench = Bench::new(rt.alloc(), &[(PLAIN, 0), (PLAIN, 0)])?;
    bench.report(1, Severity::Ce, 0, 1);
    bench.report(0, Severity::Uec, 0, 2);
    let first = copy(shows(0, 2).with_uec(true), 2);
    let second = copy(shows(0, 2).with_ce(true), 1);
    bench.begin(2);
    assert!(rt; bench.takes_whole(0, first));
    assert_eq!(rt; bench.drain.phase(), Some((Phase::Scan, 0)));
    assert_eq!(rt; bench.drain.published(), 1);
    assert!(rt; bench.takes_whole(1, second));
    assert_eq!(rt; bench.step(), Some(DrainNote::Signal { level: 2 }));
    assert_eq!(rt; bench.drain.published(), 0);
    assert_eq!(rt; bench.slot.copies(), [first, second].as_slice());
    assert_eq!(rt; bench.slot.bytes().len(), 260);
    assert_eq!(rt; bench.slot.bytes()[0], 0x23);
    assert!(rt; bench.bank.asks());
    Ok(())
}

// Of six signalled records a drain of four takes the first four, and the next one, once the slot is free, the other
// two.
#[test]
fn four_of_six_records_are_gathered(rt: HostRuntime) -> Result<(), Fail> {
    let mut bench = Bench::new(rt.alloc(), &[(PLAIN, 0); 6])?;
    let shown = copy(shows(0, 2).with_ce(true), 7);
    for rec in 0..6 {
        bench.report(rec, Severity::Ce, 0, 7);
    }
    bench.begin(4);
    for rec in 0..4 {
        assert!(rt; bench.takes_whole(rec, shown));
    }
    assert_eq!(rt; bench.step(), Some(DrainNote::Signal { level: 1 }));
    assert_eq!(rt; bench.slot.bytes().len(), 500);
    bench.begin(4);
    assert_eq!(rt; bench.step(), None);
    assert!(rt; bench.acknowledge());
    bench.begin(4);
    for rec in 4..6 {
        assert!(rt; bench.takes_whole(rec, shown));
    }
    assert_eq!(rt; bench.step(), Some(DrainNote::Over));
    assert_eq!(rt; bench.drain.phase(), Some((Phase::Signal, 0)));
    assert!(rt; !bench.bank.asks());
    assert_eq!(rt; bench.step(), Some(DrainNote::Signal { level: 1 }));
    assert_eq!(rt; bench.slot.copies(), [shown, shown].as_slice());
    Ok(())
}

// A slot that is acknowledged while the drain is on its way holds the copies that came after it.
#[test]
fn an_acknowledgement_midway(rt: HostRuntime) -> Result<(), Fail> {
    let mut bench = Bench::new(rt.alloc(), &[(PLAIN, 0), (PLAIN, 0)])?;
    bench.report(0, Severity::Ce, 0, 1);
    bench.report(1, Severity::Uec, 0, 2);
    bench.begin(2);
    assert!(rt; bench.takes_whole(0, copy(shows(0, 2).with_ce(true), 1)));
    assert!(rt; bench.acknowledge());
    let second = copy(shows(0, 2).with_uec(true), 2);
    assert!(rt; bench.takes_whole(1, second));
    assert_eq!(rt; bench.step(), Some(DrainNote::Signal { level: 2 }));
    assert_eq!(rt; bench.slot.copies(), [second].as_slice());
    Ok(())
}

// A record that rises to a severity without a signal before its Check is published all the same.
#[test]
fn a_copy_of_level_zero(rt: HostRuntime) -> Result<(), Fail> {
    let silent = 0x15;
    assert_eq!(rt; silent, Control(PLAIN).with_uec_signal(0).0);
    let mut bench = Bench::new(rt.alloc(), &[(silent, 0)])?;
    bench.report(0, Severity::Ce, 0, 1);
    bench.begin(1);
    assert_eq!(rt; bench.step(), Some(DrainNote::Scanned { rec: 0 }));
    bench.report(0, Severity::Uec, 0, 2);
    assert_eq!(rt; bench.step(), Some(DrainNote::Claimed));
    assert!(rt; bench.takes(&READS));
    let shown = RecordCopy {
        control: silent,
        ..copy(shows(0, 2).with_ce(true).with_uec(true), 2)
    };
    assert!(rt;
        bench.takes(&[
            DrainNote::Published { copy: shown },
            DrainNote::Invalidated { cleared: true },
            DrainNote::Signal { level: 0 },
        ])
    );
    Ok(())
}
