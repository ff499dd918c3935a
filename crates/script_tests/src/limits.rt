//! Limits: so many things are taken, and one more is refused.

use crate::refusals::{is_read, is_refused};
use board_script::LineFault;
use std::alloc::{AllocError, Global};
use std::test::Fail;

// a text in which a part stands so many times
fn repeated(
    alloc: Global,
    head: &[u8],
    part: &[u8],
    end: &[u8],
    count: u32,
) -> Result<Vec<u8>, AllocError> {
    let mut text = Vec::from_slice(alloc, head)?;
    for _ in 0..count {
        text.extend_from_slice(part)?;
    }
    text.extend_from_slice(end)?;
    Ok(text)
}

// so many parts are read, and one more is refused at this line
fn is_most(
    alloc: Global,
    head: &[u8],
    part: &[u8],
    end: &[u8],
    most: u32,
    line: u32,
) -> Result<bool, AllocError> {
    let most = most.min(1_000_000);
    let full = repeated(alloc, head, part, end, most)?;
    let over = repeated(alloc, head, part, end, most + 1)?;
    let taken = is_read(alloc, full.as_slice());
    let refused = is_refused(alloc, over.as_slice(), line, LineFault::Full);
    Ok(taken && refused)
}

#[test]
fn takes_so_many_and_no_more(rt: HostRuntime) -> Result<(), Fail> {
    let alloc = rt.alloc();
    let board = b"board 1 1\n".as_slice();
    let list = b"board 1 1\nreporter list\n".as_slice();
    let schedule = b"board 1 1\nschedule".as_slice();
    assert!(rt; is_most(alloc, board, b"bank 0 local 1\n", b"", 4, 6)?);
    assert!(rt; is_most(alloc, board, b"reporter list\n", b"", 8, 10)?);
    assert!(rt; is_most(alloc, board, b"op nop\n", b"", 4096, 4098)?);
    assert!(rt; is_most(alloc, list, b"act 0 raise 0 0\n", b"", 10_000, 10_003)?);
    assert!(rt; is_most(alloc, schedule, b" h0", b"\n", 200_000, 2)?);
    Ok(())
}

#[test]
fn takes_what_stands_at_its_limit(rt: HostRuntime) -> Result<(), Fail> {
    let alloc = rt.alloc();
    assert!(rt; is_read(alloc, b"board 1 8\nbank 7 local 16"));
    assert!(rt;
        is_read(
            alloc,
            b"board 2 32\nbank 31 global 63\ngather 0 4\nrecord 0 62 0xff 65535"
        )
    );
    assert!(rt;
        is_read(
            alloc,
            b"board 1 1\nat 0xffff0000\nop ack 255\nop unplug 255\nop set sie 1"
        )
    );
    assert!(rt;
        is_read(
            alloc,
            b"board 1 1\nreporter device 7 10000\nstart 0 18446744073709551615 10000"
        )
    );
    assert!(rt;
        is_read(
            alloc,
            b"board 1 1\nreporter list\nact 0 raise 0xffffffff 255\nschedule r00 h0"
        )
    );
    Ok(())
}

#[test]
fn counts_a_million_lines(rt: HostRuntime) -> Result<(), Fail> {
    let text = repeated(rt.alloc(), b"", b"\n", b"", 1_048_576)?;
    assert!(rt; is_refused(rt.alloc(), text.as_slice(), 1_048_577, LineFault::Head));
    Ok(())
}
