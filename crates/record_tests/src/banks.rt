//! Banks at work: what a reader sees of each record, and calls that name nothing.
ghost use Rattle.std.specs.Prelude.{◌<◌};

use crate::words::{COUNTING, DISABLED, PLAIN, QUIET, shows};
use reri_bank::{Access, Bank};
use reri_fields::{Logged, Report, Severity, Status};
use std::test::Fail;

fn error(rec: u8, severity: Severity) -> Report
    ensures { result.priority < 4 }
{
    Report {
        bank: 0,
        rec,
        severity,
        priority: 1,
        code: 3,
        address: 0x1000,
        info: 5,
        supplement: 6,
        time: 9,
    }
}

fn read(bank: &mut Bank, rec: u8, register: u8) -> Option<u64> {
    bank.access(Access::Read { rec, register })
}

#[test]
fn what_is_not_there_is_none(rt: HostRuntime) -> Result<(), Fail> {
    let mut bank = Bank::new(rt.alloc(), &[(PLAIN, 0)])?;
    assert_eq!(rt; read(&mut bank, 1, 0), None);
    assert_eq!(rt; read(&mut bank, 0, 6), None);
    assert_eq!(rt; bank.access(Access::SetRead { rec: 1 }), None);
    assert_eq!(rt; bank.access(Access::Invalidate { rec: 1 }), None);
    assert_eq!(rt; bank.access(Access::Invalidate { rec: 0 }), Some(0));
    assert_eq!(rt; bank.report(&error(1, Severity::Ce)), None);
    assert_eq!(rt; bank.next_signalled(), None);
    assert!(rt; !bank.asks());
    Ok(())
}

// In a bank of as many records as can be, each is reported, claimed, read and cleared, and the summary is true all
// along.
#[test]
fn each_of_sixty_three_records_is_read_and_cleared(rt: HostRuntime) -> Result<(), Fail> {
    let start = [(PLAIN, 0); 63];
    let mut bank = Bank::new(rt.alloc(), &start)?;
    let shown = shows(1, 3).with_ce(true);
    for rec in 0..63u8 {
        assert_eq!(rt;
            bank.report(&error(rec, Severity::Ce)),
            Some(Logged::Wrote { level: 1 })
        );
        assert_eq!(rt; bank.word(0), Some(1 << rec));
        assert_eq!(rt; bank.next_signalled(), Some(rec));
        assert_eq!(rt;
            bank.access(Access::SetRead { rec }),
            Some(shown.with_in_progress(true).0)
        );
        assert_eq!(rt; bank.word(0), Some(1 << rec));
        assert_eq!(rt; read(&mut bank, rec, 5), Some(9));
        assert_eq!(rt; bank.word(48 * u64::from(rec) + 48), Some(9));
        assert_eq!(rt; bank.access(Access::Invalidate { rec }), Some(1));
        assert_eq!(rt; read(&mut bank, rec, 1), Some(0));
        assert_eq!(rt; bank.word(0), Some(0));
    }
    assert!(rt; bank.asks());
    Ok(())
}

#[test]
fn all_records_are_valid_at_once(rt: HostRuntime) -> Result<(), Fail> {
    let start = [(PLAIN, 0); 63];
    let mut bank = Bank::new(rt.alloc(), &start)?;
    for rec in 0..63u8 {
        bank.report(&error(rec, Severity::Ued));
    }
    assert_eq!(rt; bank.word(0), Some(u64::MAX >> 1));
    assert_eq!(rt; bank.access(Access::Summary), Some(u64::MAX >> 1));
    bank.access(Access::SetRead { rec: 62 });
    bank.access(Access::Invalidate { rec: 62 });
    assert_eq!(rt; bank.word(0), Some(u64::MAX >> 2));
    Ok(())
}

#[test]
fn words_are_laid_out_in_order(rt: HostRuntime) -> Result<(), Fail> {
    let mut bank = Bank::new(rt.alloc(), &[(PLAIN, 0), (COUNTING, 5)])?;
    let rows = [
        (0, Some(0)),
        (8, Some(PLAIN)),
        (56, Some(COUNTING)),
        (64, Some(Status(0).with_count(5).0)),
        (96, Some(0)),
        (97, None),
        (60, None),
        (104, None),
        (u64::MAX, None),
    ];
    for (offset, word) in rows {
        assert_eq!(rt; bank.word(offset), word);
    }
    bank.report(&error(1, Severity::Ued));
    assert_eq!(rt; bank.word(0), Some(2));
    Ok(())
}

#[test]
fn records_begin_with_their_control_and_count(rt: HostRuntime) -> Result<(), Fail> {
    let loudest = 0xff;
    let mut bank = Bank::new(rt.alloc(), &[(PLAIN, 0), (loudest, 65535), (DISABLED, 5)])?;
    assert_eq!(rt; read(&mut bank, 1, 0), Some(loudest));
    assert_eq!(rt; read(&mut bank, 1, 1), Some(Status(0).with_count(65535).0));
    assert_eq!(rt; read(&mut bank, 2, 1), Some(Status(0).with_count(5).0));
    assert_eq!(rt;
        bank.report(&error(2, Severity::Ce)),
        Some(Logged::Disabled)
    );
    assert_eq!(rt;
        bank.report(&error(1, Severity::Ce)),
        Some(Logged::Wrote { level: 3 })
    );
    let wrapped = shows(1, 3).with_ce(true).with_overflow(true);
    assert_eq!(rt; read(&mut bank, 1, 1), Some(wrapped.0));
    assert_eq!(rt; bank.access(Access::Summary), Some(2));
    Ok(())
}

// Without a claim an invalidation clears nothing, whether the record holds an error or not.
#[test]
fn what_is_not_claimed_is_not_cleared(rt: HostRuntime) -> Result<(), Fail> {
    let mut bank = Bank::new(rt.alloc(), &[(PLAIN, 0)])?;
    bank.report(&error(0, Severity::Uec));
    let before = bank.copy_of(0);
    assert_eq!(rt; bank.access(Access::Invalidate { rec: 0 }), Some(0));
    assert_eq!(rt; bank.copy_of(0), before);
    assert_eq!(rt; before.status, shows(1, 3).with_uec(true).0);
    assert_eq!(rt; bank.next_signalled(), Some(0));
    Ok(())
}

// A valid record of level 0 is passed over, and the least of two that are signalled is found.
#[test]
fn the_least_signalled_record_is_found(rt: HostRuntime) -> Result<(), Fail> {
    let mut bank = Bank::new(rt.alloc(), &[(QUIET, 0), (PLAIN, 0), (PLAIN, 0)])?;
    bank.report(&error(0, Severity::Ce));
    assert!(rt; !bank.asks());
    bank.report(&error(2, Severity::Uec));
    bank.report(&error(1, Severity::Ce));
    assert_eq!(rt; bank.word(0), Some(7));
    for rec in [1, 2] {
        assert_eq!(rt; bank.next_signalled(), Some(rec));
        bank.access(Access::SetRead { rec });
        bank.access(Access::Invalidate { rec });
    }
    assert_eq!(rt; bank.next_signalled(), None);
    assert_eq!(rt; bank.word(0), Some(1));
    assert!(rt; bank.asks());
    bank.clear_ask();
    assert!(rt; !bank.asks());
    Ok(())
}
