//! Pages to retire, by all copies that were published in a run.

use crate::commands::{is_usage, outcome, writes};
use board_run::Status;
use std::test::Fail;

// one error is written over by another before it is published
const TORN: &[u8] = b"board 1 1
event 0x0 noinject
bank 0 local 1
record 0 0 0x95 0
start 0 0 100
reporter list
act 0 error 0 0 ued 0 1 0x100 0 0 1
act 0 error 0 0 uec 0 2 0x200 0 0 2
schedule r0 h0 h0 r0 h0 h0 h0 h0 h0
schedule h0 h0 h0 h0 h0 h0 h0 h0
";

// both errors are published
const STOOD: &[u8] = b"board 1 1
event 0x0 noinject
event 0x100000 noinject
bank 0 local 1
record 0 0 0x95 0
op ack 0
start 0 0x1000 100
reporter list
act 0 error 0 0 ce 0 1 0x100 0 0 1
act 0 error 0 0 uec 0 2 0x200 0 0 2
schedule r0 h0 h0 h0 h0 h0 h0 h0 r0
schedule h0 h0 h0 h0 h0 h0 h0 h0 h0 h0 h0 h0
";

// an event and no error
const NO_ERROR: &[u8] = b"board 1 1
event 0xffff0000 inject
at 0x1000
op sbi 0x535345 8
op sbi 0x535345 2 0xffff0000 0x2000 7
op sbi 0x535345 4 0xffff0000
op sbi 0x535345 7 0xffff0000 0
at 0x2000
op inc 0x80000000
op sbi 0x535345 6
start 0 0x1000 100
";

// four errors on three pages, the highest page first
const FALLING: &[u8] = b"board 1 1
event 0x0 noinject
bank 0 local 1
record 0 0 0x95 0
op ack 0
op ack 0
op ack 0
op ack 0
start 0 0x1000 100
reporter list
act 0 error 0 0 ce 0 1 0x5000 0 0 1
act 0 error 0 0 ce 0 1 0x1fff 0 0 2
act 0 error 0 0 ued 0 1 0x3000 0 0 3
act 0 error 0 0 ce 0 1 0x1000 0 0 4
schedule r0 h0 h0 h0 h0 h0 h0 h0 h0 h0 h0
schedule r0 h0 h0 h0 h0 h0 h0 h0 h0 h0 h0
schedule r0 h0 h0 h0 h0 h0 h0 h0 h0 h0 h0
schedule r0 h0 h0 h0 h0 h0 h0 h0 h0 h0 h0
";

const ONCE: &[u8] = b"page 0x1 corrected 2 uncorrected 0
page 0x3 corrected 0 uncorrected 1
page 0x5 corrected 1 uncorrected 0
";

const TWICE: &[u8] = b"page 0x1 corrected 2 uncorrected 0
page 0x3 corrected 0 uncorrected 1
";

#[test]
fn counts_published_copies_alone(rt: HostRuntime) -> Result<(), Fail> {
    let torn = b"page 0x0 corrected 0 uncorrected 1\n";
    let stood = b"page 0x0 corrected 1 uncorrected 1\n";
    assert!(rt; writes(rt.alloc(), &["pages", "1"], TORN, torn)?);
    assert!(rt; writes(rt.alloc(), &["pages", "1"], STOOD, stood)?);
    assert!(rt; writes(rt.alloc(), &["pages", "1"], NO_ERROR, b"")?);
    Ok(())
}

#[test]
fn lists_pages_by_their_numbers(rt: HostRuntime) -> Result<(), Fail> {
    assert!(rt; writes(rt.alloc(), &["pages", "1"], FALLING, ONCE)?);
    assert!(rt; writes(rt.alloc(), &["pages", "0002"], FALLING, TWICE)?);
    let third = b"page 0x3 corrected 0 uncorrected 1\n";
    assert!(rt; writes(rt.alloc(), &["pages", "3"], FALLING, third)?);
    assert!(rt; writes(rt.alloc(), &["pages", "1000"], FALLING, third)?);
    Ok(())
}

#[test]
fn reads_byte_by_byte(rt: HostRuntime) -> Result<(), Fail> {
    let (status, bytes) = outcome(rt.alloc(), &["pages", "1"], FALLING, 1, &[], &[])?;
    assert_eq!(rt; status, Status::Ok);
    assert!(rt; bytes.as_slice() == ONCE);
    Ok(())
}

#[test]
fn writes_the_lines_before_a_write_that_failed(rt: HostRuntime) -> Result<(), Fail> {
    for number in 0..3 {
        let (status, bytes) = outcome(
            rt.alloc(),
            &["pages", "1"],
            FALLING,
            4096,
            &[],
            &[number as u64],
        )?;
        assert_eq!(rt; status, Status::WriteFault);
        assert!(rt; bytes.as_slice() == &ONCE[..35 * number]);
    }
    Ok(())
}

#[test]
fn takes_no_other_words(rt: HostRuntime) -> Result<(), Fail> {
    let lists: [&[&str]; 7] = [
        &["pages"],
        &["pages", "0"],
        &["pages", "0000"],
        &["pages", "1001"],
        &["pages", "00001"],
        &["pages", "0x1"],
        &["pages", "1", "--short"],
    ];
    for words in lists {
        assert!(rt; is_usage(rt.alloc(), words, FALLING)?);
    }
    Ok(())
}
