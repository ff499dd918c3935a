//! Lists of a few copies, and the pages that they give.

use board_plan::Published;
use ras_policy::{Page, pages};
use reri_fields::{RecordCopy, Status};
use std::test::Fail;

// A copy with this status.
pub(crate) fn with_status(status: Status, address: u64) -> Published {
    let copy = RecordCopy {
        status: status.with_valid(true).0,
        address,
        ..RecordCopy::default()
    };
    Published { bank: 0, copy }
}

pub(crate) fn ce(address: u64) -> Published {
    with_status(Status(0).with_ce(true), address)
}

pub(crate) fn ued(address: u64) -> Published {
    with_status(Status(0).with_ued(true), address)
}

pub(crate) fn uec(address: u64) -> Published {
    with_status(Status(0).with_uec(true), address)
}

pub(crate) fn page(page: u64, corrected: u32, uncorrected: u32) -> Page {
    Page {
        page,
        corrected,
        uncorrected,
    }
}

#[test]
fn two_of_three_on_a_page(rt: HostRuntime) -> Result<(), Fail> {
    let copies = [ce(0x1000), ce(0x1fff), ce(0x5000)];
    let two = pages(rt.alloc(), &copies, 2)?;
    assert_eq!(rt; two.as_slice(), [page(1, 2, 0)].as_slice());
    let one = pages(rt.alloc(), &copies, 1)?;
    assert_eq!(rt; one.as_slice(), [page(1, 2, 0), page(5, 1, 0)].as_slice());
    let three = pages(rt.alloc(), &copies, 3)?;
    assert_eq!(rt; three.as_slice(), [].as_slice());
    Ok(())
}

#[test]
fn no_copies(rt: HostRuntime) -> Result<(), Fail> {
    let none = pages(rt.alloc(), &[], 0)?;
    assert_eq!(rt; none.as_slice(), [].as_slice());
    Ok(())
}

#[test]
fn one_uncorrected_is_enough(rt: HostRuntime) -> Result<(), Fail> {
    let copies = [ued(0x3000), ce(0x3001), uec(0x2fff), ce(0x1000)];
    let listed = pages(rt.alloc(), &copies, 1000)?;
    assert_eq!(rt;
        listed.as_slice(),
        [page(2, 0, 1), page(3, 1, 1)].as_slice()
    );
    Ok(())
}

#[test]
fn greatest_severity_counts(rt: HostRuntime) -> Result<(), Fail> {
    let both = Status(0).with_ce(true).with_ued(true);
    let all = both.with_uec(true);
    let copies = [
        with_status(both, 0x1000),
        with_status(all, 0x1008),
        ce(0x1010),
    ];
    let listed = pages(rt.alloc(), &copies, 1)?;
    assert_eq!(rt; listed.as_slice(), [page(1, 1, 2)].as_slice());
    Ok(())
}

#[test]
fn falling_addresses_give_rising_pages(rt: HostRuntime) -> Result<(), Fail> {
    let copies = [
        uec(0x9000),
        uec(0x4000),
        ce(0x9008),
        uec(0x1000),
        uec(0x4008),
    ];
    let listed = pages(rt.alloc(), &copies, 1)?;
    let wanted = [page(1, 0, 1), page(4, 0, 2), page(9, 1, 1)];
    assert_eq!(rt; listed.as_slice(), wanted.as_slice());
    Ok(())
}

#[test]
fn edges_of_pages(rt: HostRuntime) -> Result<(), Fail> {
    let copies = [ce(0), ce(0xfff), ce(0x1000), ce(0x1800), ce(u64::MAX)];
    let listed = pages(rt.alloc(), &copies, 1)?;
    let wanted = [
        page(0, 2, 0),
        page(1, 2, 0),
        page(0x000f_ffff_ffff_ffff, 1, 0),
    ];
    assert_eq!(rt; listed.as_slice(), wanted.as_slice());
    Ok(())
}

#[test]
fn threshold_of_zero_lists_each_page(rt: HostRuntime) -> Result<(), Fail> {
    let silent = with_status(Status(0), 0x7000);
    let listed = pages(rt.alloc(), &[silent, ce(0x2000)], 0)?;
    assert_eq!(rt;
        listed.as_slice(),
        [page(2, 1, 0), page(7, 0, 0)].as_slice()
    );
    let above = pages(rt.alloc(), &[silent, ce(0x2000)], 1)?;
    assert_eq!(rt; above.as_slice(), [page(2, 1, 0)].as_slice());
    Ok(())
}
