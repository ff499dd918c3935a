//! Runs told note by note.

use board_fates::Tally;
use board_plan::{Fates, StepNote};
use reri_fields::{Logged, Report, Severity};
use std::test::Fail;

// How many errors have each fate after these notes.
fn after(notes: &[StepNote]) -> Fates {
    let mut tally = Tally::new();
    for note in notes {
        tally.count(note);
    }
    tally.fates()
}

// An error for a record was answered so.
fn error(bank: u8, rec: u8, logged: Option<Logged>) -> StepNote {
    let report = Report {
        bank,
        rec,
        severity: Severity::Ce,
        priority: 0,
        code: 1,
        address: 0x1000,
        info: 0,
        supplement: 0,
        time: 0,
    };
    StepNote::Error { report, logged }
}

fn wrote(bank: u8, rec: u8) -> StepNote {
    error(bank, rec, Some(Logged::Wrote { level: 1 }))
}

fn read(bank: u8, rec: u8, register: u8) -> StepNote {
    StepNote::Read {
        bank,
        rec,
        register,
    }
}

fn published(bank: u8, rec: u8) -> StepNote {
    StepNote::Check {
        bank,
        rec,
        torn: false,
    }
}

#[test]
fn before_any_note(rt: HostRuntime) -> Result<(), Fail> {
    let none = Fates {
        made: 0,
        stray: 0,
        disabled: 0,
        counted: 0,
        drained: 0,
        overwritten: 0,
        kept: 0,
        stands: 0,
    };
    assert_eq!(rt; after(&[]), none);
    Ok(())
}

#[test]
fn every_fate(rt: HostRuntime) -> Result<(), Fail> {
    let notes = [
        wrote(0, 0),
        wrote(0, 0),
        error(0, 0, Some(Logged::Kept)),
        StepNote::Scan {
            bank: 0,
            rec: Some(0),
        },
        StepNote::Claim { bank: 0, rec: 0 },
        wrote(0, 0),
        read(0, 0, 2),
        StepNote::Check {
            bank: 0,
            rec: 0,
            torn: true,
        },
        StepNote::Claim { bank: 0, rec: 0 },
        read(0, 0, 2),
        error(0, 1, Some(Logged::Counted)),
        wrote(0, 1),
        error(0, 2, Some(Logged::Disabled)),
        error(0, 9, None),
        error(3, 0, None),
        published(0, 0),
        StepNote::Invalidate {
            bank: 0,
            rec: 0,
            cleared: true,
        },
        StepNote::Signal {
            bank: 0,
            level: 2,
            id: None,
        },
        wrote(0, 1),
    ];
    let wanted = Fates {
        made: 10,
        stray: 2,
        disabled: 1,
        counted: 1,
        drained: 1,
        overwritten: 3,
        kept: 1,
        stands: 1,
    };
    assert_eq!(rt; after(&notes), wanted);
    Ok(())
}

// An error that came between a Check and its invalidation writes over one that is drained.
#[test]
fn written_over_once_published(rt: HostRuntime) -> Result<(), Fail> {
    let notes = [
        wrote(0, 1),
        StepNote::Claim { bank: 0, rec: 1 },
        published(0, 1),
        wrote(0, 1),
        StepNote::Invalidate {
            bank: 0,
            rec: 1,
            cleared: false,
        },
        wrote(1, 0),
        error(0, 1, Some(Logged::Kept)),
        StepNote::Scan {
            bank: 0,
            rec: Some(1),
        },
        StepNote::Claim { bank: 0, rec: 1 },
        published(0, 1),
        StepNote::Invalidate {
            bank: 0,
            rec: 1,
            cleared: true,
        },
        StepNote::Scan { bank: 0, rec: None },
        StepNote::Claim { bank: 1, rec: 0 },
        wrote(0, 1),
    ];
    let wanted = Fates {
        made: 5,
        stray: 0,
        disabled: 0,
        counted: 0,
        drained: 2,
        overwritten: 0,
        kept: 1,
        stands: 2,
    };
    assert_eq!(rt; after(&notes), wanted);
    Ok(())
}

// Records of one number in two banks, of which a drain empties one.
#[test]
fn records_of_two_banks(rt: HostRuntime) -> Result<(), Fail> {
    let notes = [
        wrote(0, 1),
        wrote(1, 1),
        StepNote::Scan {
            bank: 0,
            rec: Some(1),
        },
        StepNote::Claim { bank: 0, rec: 1 },
        read(0, 1, 5),
        published(0, 1),
        wrote(1, 1),
        error(0, 1, Some(Logged::Kept)),
        StepNote::Invalidate {
            bank: 0,
            rec: 1,
            cleared: true,
        },
        StepNote::Scan { bank: 0, rec: None },
        StepNote::Signal {
            bank: 0,
            level: 1,
            id: None,
        },
        wrote(0, 1),
    ];
    let wanted = Fates {
        made: 5,
        stray: 0,
        disabled: 0,
        counted: 0,
        drained: 1,
        overwritten: 1,
        kept: 1,
        stands: 2,
    };
    assert_eq!(rt; after(&notes), wanted);
    Ok(())
}
