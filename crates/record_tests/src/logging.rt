//! Worked records: each error's answer, and the status word after it.
ghost use Rattle.std.specs.Prelude.{◌<◌};

use crate::words::{COUNTING, DISABLED, PLAIN, shows};
use reri_fields::{Logged, RecordCopy, Report, Severity, Status, record_at};
use reri_log::{log, log_words};
use std::test::Fail;

fn error(severity: Severity, priority: u8, code: u8) -> Report
    requires { priority < 4 }
    ensures { result.priority < 4 }
{
    Report {
        bank: 0,
        rec: 0,
        severity,
        priority,
        code,
        address: 0x1000,
        info: 5,
        supplement: 0,
        time: 9,
    }
}

fn logged(rec: &mut RecordCopy, severity: Severity, priority: u8, code: u8) -> (Logged, u64)
    requires { priority < 4 }
{
    let answer = log(rec, &error(severity, priority, code));
    (answer, rec.status)
}

#[test]
fn equal_and_smaller_ranks_are_kept_out(rt: HostRuntime) -> Result<(), Fail> {
    let mut rec = RecordCopy::fresh(PLAIN, 0);
    let first = shows(1, 3).with_ce(true);
    assert_eq!(rt;
        logged(&mut rec, Severity::Ce, 1, 3),
        (Logged::Wrote { level: 1 }, first.0)
    );
    assert_eq!(rt;
        logged(&mut rec, Severity::Ce, 1, 4),
        (Logged::Kept, first.with_multiple(true).0)
    );
    let second = shows(0, 5).with_ce(true).with_uec(true);
    assert_eq!(rt;
        logged(&mut rec, Severity::Uec, 0, 5),
        (Logged::Wrote { level: 2 }, second.0)
    );
    assert_eq!(rt;
        logged(&mut rec, Severity::Ued, 3, 6),
        (Logged::Kept, second.with_ued(true).0)
    );
    assert_eq!(rt;
        rec.registers(),
        [PLAIN, second.with_ued(true).0, 0x1000, 5, 0, 9]
    );
    Ok(())
}

#[test]
fn a_disabled_record_logs_nothing(rt: HostRuntime) -> Result<(), Fail> {
    let mut rec = RecordCopy::fresh(DISABLED, 0);
    assert_eq!(rt; logged(&mut rec, Severity::Ce, 1, 3), (Logged::Disabled, 0));
    assert_eq!(rt; logged(&mut rec, Severity::Ce, 1, 4), (Logged::Disabled, 0));
    assert_eq!(rt;
        logged(&mut rec, Severity::Uec, 0, 5),
        (Logged::Disabled, 0)
    );
    assert_eq!(rt;
        logged(&mut rec, Severity::Ued, 3, 6),
        (Logged::Disabled, 0)
    );
    assert_eq!(rt; rec, RecordCopy::fresh(DISABLED, 0));
    Ok(())
}

#[test]
fn the_count_wraps(rt: HostRuntime) -> Result<(), Fail> {
    let mut rec = RecordCopy::fresh(COUNTING, 65534);
    assert_eq!(rt; logged(&mut rec, Severity::Ce, 0, 7).0, Logged::Counted);
    assert_eq!(rt;
        logged(&mut rec, Severity::Ce, 0, 7).0,
        Logged::Wrote { level: 1 }
    );
    let wrapped = shows(0, 7).with_ce(true).with_overflow(true);
    assert_eq!(rt;
        logged(&mut rec, Severity::Ce, 0, 7),
        (Logged::Counted, wrapped.with_count(1).0)
    );
    Ok(())
}

// The second of three records in a row: its neighbours' words stay.
#[test]
fn words_of_other_records_stay(rt: HostRuntime) -> Result<(), Fail> {
    let mut words = [7; 20];
    words[7..13].copy_from_slice(&RecordCopy::fresh(PLAIN, 0).registers());
    let report = error(Severity::Uec, 2, 4);
    assert_eq!(rt;
        log_words(&mut words, 7, &report),
        Logged::Wrote { level: 2 }
    );
    let mut rec = RecordCopy::fresh(PLAIN, 0);
    log(&mut rec, &report);
    assert_eq!(rt; record_at(&words, 7), rec);
    assert_eq!(rt; rec.status, shows(2, 4).with_uec(true).0);
    assert_eq!(rt; Status(rec.status).greatest(), Some(Severity::Uec));
    for at in [0, 6, 13, 19] {
        assert_eq!(rt; words[at], 7);
    }
    Ok(())
}
