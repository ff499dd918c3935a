//! Scripts that are refused: at which line, and why.

use crate::plays::{MOVE, PLAY, SHORT, TRACED, played};
use board_plan::LineFault;
use board_run::Status;
use std::alloc::Global;
use std::test::Fail;

type Row = (&'static [u8], u32, LineFault);

const ROWS: [Row; 37] = [
    (b"", 1, LineFault::Head),
    (b"# no statement\n\n \t\n", 4, LineFault::Head),
    (b"board 3 1\n", 1, LineFault::Head),
    (b"board\n", 1, LineFault::Count),
    (b"board 1 9\n", 1, LineFault::Range),
    (b"board 2 33\n", 1, LineFault::Range),
    (b"board 1 1\nboard 1 1\n", 2, LineFault::Twice),
    (b"board 1 1\nfoo\n", 2, LineFault::Word),
    (b"board 1 1\nop\n", 2, LineFault::Count),
    (b"board 1 1\nop sbi 1\n", 2, LineFault::Count),
    (b"board 1 1\nop set sie 2\n", 2, LineFault::Range),
    (b"board 1 1\nop set sp 2\n", 2, LineFault::Word),
    (b"board 1 1\nevent 0x1 inject\n", 2, LineFault::Range),
    (b"board 1 1\nevent 0x2 inject\n", 2, LineFault::Range),
    (b"board 1 1\nevent 0x4000 maybe\n", 2, LineFault::Word),
    (
        b"board 1 1\nevent 0x0 inject\nevent 0x0 inject\n",
        3,
        LineFault::Twice,
    ),
    (b"board 1 1\nplat 0 0x4000\n", 2, LineFault::Unknown),
    (
        b"board 1 1\nbank 0 local 1\nplat 0 0x8000\n",
        3,
        LineFault::Range,
    ),
    (
        b"board 1 1\nbank 0 local 1\ngather 0 2\n",
        3,
        LineFault::Word,
    ),
    (
        b"board 2 1\nbank 0 local 1\ngather 0 5\n",
        3,
        LineFault::Range,
    ),
    (b"board 2 32\nbank 31 local 64\n", 2, LineFault::Range),
    (b"board 1 1\nact 0 raise 0 0\n", 2, LineFault::Unknown),
    (b"board 1 1\nat 0x1001\n", 2, LineFault::Range),
    (
        b"board 1 1\n# a comment\n\nstart 0 0 10001\n",
        4,
        LineFault::Range,
    ),
    (b"board 1 1\nstart 0 0x 1\n", 2, LineFault::Number),
    (
        b"board 1 1\nevent 0xffff0000 inject\nstart 0 18446744073709551616 1\n",
        3,
        LineFault::Number,
    ),
    (
        b"board 1 1\nop nop\nat 0x1000\nop nop\n",
        4,
        LineFault::Twice,
    ),
    (b"board 1 1\nschedule h1\n", 2, LineFault::Unknown),
    (b"board 1 1\nschedule h256\n", 2, LineFault::Range),
    (b"board 1 1\nschedule x0\n", 2, LineFault::Word),
    (b"board 1 1\r\n\tfoo\r\n", 2, LineFault::Word),
    (b"board 1 1\nop nop\x00\n", 2, LineFault::Word),
    (b"\xef\xbb\xbfboard 1 1\n", 1, LineFault::Head),
    (
        b"board 1 1
event 0x4000 inject
event 0x4001 inject
event 0x4002 inject
event 0x4003 inject
event 0x4004 inject
event 0x4005 inject
event 0x4006 inject
event 0x4007 inject
event 0x4008 inject
",
        10,
        LineFault::Full,
    ),
    (
        b"board 1 1
bank 0 local 1
bank 0 local 1
bank 0 local 1
bank 0 local 1
bank 0 local 1
",
        6,
        LineFault::Full,
    ),
    (
        b"board 2 9
start 0 0 10000
start 1 0 10000
start 2 0 10000
start 3 0 10000
start 4 0 10000
start 5 0 10000
start 6 0 10000
start 7 0 10000
start 8 0 10000
",
        10,
        LineFault::Full,
    ),
    (
        b"board 1 1\nreporter device 7 1\nreporter device 7 1\n",
        3,
        LineFault::Twice,
    ),
];

// whether a text is refused at this line for this reason, and nothing is written
fn is_refused(alloc: Global, words: &[&str], row: &Row) -> Result<bool, Fail> {
    let (text, line, kind) = row;
    let refused = Status::BadScript {
        line: *line,
        kind: *kind,
    };
    let (status, bytes) = played(alloc, words, text)?;
    Ok(status == refused && bytes.is_empty())
}

#[test]
fn names_the_line_and_the_reason(rt: HostRuntime) -> Result<(), Fail> {
    for words in [PLAY, TRACED, SHORT, MOVE] {
        for row in ROWS {
            assert!(rt; is_refused(rt.alloc(), words, &row)?, "line {}", row.1);
        }
    }
    Ok(())
}
