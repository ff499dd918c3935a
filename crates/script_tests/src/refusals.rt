//! Texts that are refused: at which line, and why.

ghost use Rattle.std.specs.Prelude.{Some};

use board_script::{LineFault, ScriptError, read};
use std::alloc::Global;
use std::test::Fail;

const MOST_BYTES: usize = 2_000_000;

type Row = (&'static [u8], u32, LineFault);

const HEADS: [Row; 18] = [
    (b"", 1, LineFault::Head),
    (b"\n# no statement\n  \n", 4, LineFault::Head),
    (b"event 0x0 inject\n", 1, LineFault::Head),
    (b"board 3 1\n", 1, LineFault::Head),
    (b"board 01 1\n", 1, LineFault::Head),
    (b"board 0x1 1\n", 1, LineFault::Head),
    (b"board 3\n", 1, LineFault::Head),
    (b"board\n", 1, LineFault::Count),
    (b"board 1\n", 1, LineFault::Count),
    (b"board 1 1 1\n", 1, LineFault::Count),
    (b"board 1 x\n", 1, LineFault::Number),
    (b"board 1 0\n", 1, LineFault::Range),
    (b"board 1 9\n", 1, LineFault::Range),
    (b"board 2 0\n", 1, LineFault::Range),
    (b"board 2 33\n", 1, LineFault::Range),
    (b"# a comment\n\nboard 1 9", 3, LineFault::Range),
    (b"board 2 32\nbank 31 local 64\n", 2, LineFault::Range),
    (b"board 1 1\r\n\tfoo\r\n", 2, LineFault::Word),
];

const BOARDS: [Row; 38] = [
    (b"board 1 1\nboard 1 1\n", 2, LineFault::Twice),
    (b"board 1 1\nboard x\n", 2, LineFault::Twice),
    (b"board 1 1\nfoo\n", 2, LineFault::Word),
    (b"board 1 1\nEvent 0x0 inject\n", 2, LineFault::Word),
    (b"board 1 1\ngather 0 2\n", 2, LineFault::Word),
    (b"board 1 1\nevent 0x0\n", 2, LineFault::Count),
    (b"board 1 1\nevent 0x0 inject 1\n", 2, LineFault::Count),
    (b"board 1 1\nevent x inject\n", 2, LineFault::Number),
    (b"board 1 1\nevent 0x1 inject\n", 2, LineFault::Range),
    (b"board 1 1\nevent 0x2 inject\n", 2, LineFault::Range),
    (
        b"board 1 1\nevent 0x100004000 inject\n",
        2,
        LineFault::Range,
    ),
    (b"board 1 1\nevent 0x2 maybe\n", 2, LineFault::Range),
    (b"board 1 1\nevent 0x4000 maybe\n", 2, LineFault::Word),
    (
        b"board 1 1\nevent 0x0 inject\nevent 0x0 inject\n",
        3,
        LineFault::Twice,
    ),
    (
        b"board 1 1\nevent 0x0 inject\nevent 0 noinject\n",
        3,
        LineFault::Twice,
    ),
    (b"board 1 1\nbank 0 local\n", 2, LineFault::Count),
    (b"board 1 1\nbank 1 local 1\n", 2, LineFault::Range),
    (b"board 1 1\nbank 1 here 1\n", 2, LineFault::Range),
    (b"board 1 1\nbank 0 here 1\n", 2, LineFault::Word),
    (b"board 1 1\nbank 0 local 0\n", 2, LineFault::Range),
    (b"board 1 1\nbank 0 local 17\n", 2, LineFault::Range),
    (b"board 1 1\nplat 0\n", 2, LineFault::Count),
    (b"board 1 1\nplat 0 0x4000\n", 2, LineFault::Unknown),
    (
        b"board 1 1\nbank 0 local 1\nplat 0 0x8000\n",
        3,
        LineFault::Range,
    ),
    (
        b"board 1 1\nbank 0 local 1\nplat 0 0x4000\n",
        3,
        LineFault::Unknown,
    ),
    (
        b"board 1 1\nevent 0x4000 inject\nbank 0 local 1\nplat 0 0x4000\nplat 0 0x4000\n",
        5,
        LineFault::Twice,
    ),
    (b"board 2 1\ngather 0 2\n", 2, LineFault::Unknown),
    (
        b"board 2 1\nbank 0 local 1\ngather 0\n",
        3,
        LineFault::Count,
    ),
    (
        b"board 2 1\nbank 0 local 1\ngather 0 0\n",
        3,
        LineFault::Range,
    ),
    (
        b"board 2 1\nbank 0 local 1\ngather 0 5\n",
        3,
        LineFault::Range,
    ),
    (
        b"board 2 1\nbank 0 local 1\ngather 0 4\ngather 0 4\n",
        4,
        LineFault::Twice,
    ),
    (b"board 1 1\nrecord 0 0 0 0\n", 2, LineFault::Unknown),
    (
        b"board 1 1\nbank 0 local 1\nrecord 0 0 0\n",
        3,
        LineFault::Count,
    ),
    (
        b"board 1 1\nbank 0 local 1\nrecord 0 1 0 0\n",
        3,
        LineFault::Unknown,
    ),
    (
        b"board 1 1\nbank 0 local 1\nrecord 0 0 0x100 0\n",
        3,
        LineFault::Range,
    ),
    (
        b"board 1 1\nbank 0 local 1\nrecord 0 0 0xff 65536\n",
        3,
        LineFault::Range,
    ),
    (
        b"board 1 1\nbank 0 local 1\nrecord 0 0 0x95 0\nrecord 0 0 0x95 0\n",
        4,
        LineFault::Twice,
    ),
    (
        b"board 1 1\nevent 0xffff0000 inject\nstart 0 18446744073709551616 1\n",
        3,
        LineFault::Number,
    ),
];

const PROGRAMS: [Row; 30] = [
    (b"board 1 1\nat\n", 2, LineFault::Count),
    (b"board 1 1\nat 0x1001\n", 2, LineFault::Range),
    (b"board 1 1\nat 0xffff0002\n", 2, LineFault::Range),
    (
        b"board 1 1\nat 0x1000\nop nop\nat 0x1000\nop nop\n",
        5,
        LineFault::Twice,
    ),
    (
        b"board 1 1\nat 0x1004\nop nop\nat 0x1000\nop nop\nop nop\n",
        6,
        LineFault::Twice,
    ),
    (b"board 1 1\nop\n", 2, LineFault::Count),
    (b"board 1 1\nop foo\n", 2, LineFault::Word),
    (b"board 1 1\nop nop 1\n", 2, LineFault::Count),
    (b"board 1 1\nop sret 1\n", 2, LineFault::Count),
    (b"board 1 1\nop sbi 1\n", 2, LineFault::Count),
    (b"board 1 1\nop sbi 1 2 3 4 5 6 7 8\n", 2, LineFault::Count),
    (b"board 1 1\nop sbi 1 2 3 4 5 6 x\n", 2, LineFault::Number),
    (b"board 1 1\nop set sie 2\n", 2, LineFault::Range),
    (b"board 1 1\nop set spp 2\n", 2, LineFault::Range),
    (b"board 1 1\nop set spie 2\n", 2, LineFault::Range),
    (b"board 1 1\nop set sp 2\n", 2, LineFault::Word),
    (b"board 1 1\nop set sp 2 3\n", 2, LineFault::Count),
    (b"board 1 1\nop load a0 1\n", 2, LineFault::Word),
    (b"board 1 1\nop save a6\n", 2, LineFault::Count),
    (b"board 1 1\nop store 1\n", 2, LineFault::Count),
    (b"board 1 1\nop inc\n", 2, LineFault::Count),
    (b"board 1 1\nop jump 0x\n", 2, LineFault::Number),
    (b"board 1 1\nop jlt 1 2\n", 2, LineFault::Count),
    (b"board 1 1\nop ack 256\n", 2, LineFault::Range),
    (b"board 1 1\nop unplug 256\n", 2, LineFault::Range),
    (
        b"board 1 1\n# a comment\n\nstart 0 0 10001\n",
        4,
        LineFault::Range,
    ),
    (b"board 1 1\nstart 0 0\n", 2, LineFault::Count),
    (b"board 1 1\nstart 1 0 1\n", 2, LineFault::Range),
    (b"board 1 1\nstart 0 0x 1\n", 2, LineFault::Number),
    (
        b"board 1 1\nstart 0 0 1\nstart 0 0 1\n",
        3,
        LineFault::Twice,
    ),
];

const SOURCES: [Row; 33] = [
    (b"board 1 1\nreporter\n", 2, LineFault::Count),
    (b"board 1 1\nreporter foo\n", 2, LineFault::Word),
    (b"board 1 1\nreporter list 1\n", 2, LineFault::Count),
    (b"board 1 1\nreporter device 1\n", 2, LineFault::Count),
    (b"board 1 1\nreporter device 8 1\n", 2, LineFault::Range),
    (b"board 1 1\nreporter device 7 10001\n", 2, LineFault::Range),
    (
        b"board 1 1\nreporter device 7 1\nreporter device 7 2\n",
        3,
        LineFault::Twice,
    ),
    (b"board 1 1\nact\n", 2, LineFault::Count),
    (b"board 1 1\nact 0\n", 2, LineFault::Count),
    (b"board 1 1\nact x foo\n", 2, LineFault::Word),
    (b"board 1 1\nact 0 raise 0 0\n", 2, LineFault::Unknown),
    (
        b"board 1 1\nreporter device 0 1\nact 0 raise 0 0\n",
        3,
        LineFault::Unknown,
    ),
    (
        b"board 1 1\nreporter list\nact x raise 0 0\n",
        3,
        LineFault::Number,
    ),
    (
        b"board 1 1\nreporter list\nact 0 raise 0\n",
        3,
        LineFault::Count,
    ),
    (
        b"board 1 1\nreporter list\nact 0 raise 0x100000000 0\n",
        3,
        LineFault::Range,
    ),
    (
        b"board 1 1\nreporter list\nact 0 raise 0 256\n",
        3,
        LineFault::Range,
    ),
    (
        b"board 1 1\nreporter list\nact 0 error 0 0 ce 0 0 0 0 0\n",
        3,
        LineFault::Count,
    ),
    (
        b"board 1 1\nreporter list\nact 1 error 256 0 ce 0 0 0 0 0 0\n",
        3,
        LineFault::Unknown,
    ),
    (
        b"board 1 1\nreporter list\nact 0 error 256 0 ce 0 0 0 0 0 0\n",
        3,
        LineFault::Range,
    ),
    (
        b"board 1 1\nreporter list\nact 0 error 0 256 ce 0 0 0 0 0 0\n",
        3,
        LineFault::Range,
    ),
    (
        b"board 1 1\nreporter list\nact 0 error 0 0 de 0 0 0 0 0 0\n",
        3,
        LineFault::Word,
    ),
    (
        b"board 1 1\nreporter list\nact 0 error 0 0 ce 4 0 0 0 0 0\n",
        3,
        LineFault::Range,
    ),
    (
        b"board 1 1\nreporter list\nact 0 error 0 0 ce 0 256 0 0 0 0\n",
        3,
        LineFault::Range,
    ),
    (
        b"board 1 1\nreporter list\nact 0 error 0 0 ce 0 0 0 0 0 x\n",
        3,
        LineFault::Number,
    ),
    (b"board 1 1\nschedule h1\n", 2, LineFault::Unknown),
    (b"board 1 1\nschedule r0\n", 2, LineFault::Unknown),
    (
        b"board 1 1\nschedule r0\nreporter list\n",
        2,
        LineFault::Unknown,
    ),
    (b"board 1 1\nschedule h256\n", 2, LineFault::Range),
    (
        b"board 1 1\nschedule h18446744073709551616\n",
        2,
        LineFault::Range,
    ),
    (b"board 1 1\nschedule x0\n", 2, LineFault::Word),
    (b"board 1 1\nschedule h\n", 2, LineFault::Word),
    (b"board 1 1\nschedule h0x1\n", 2, LineFault::Word),
    (b"board 1 1\nschedule h0 x0 h256\n", 2, LineFault::Word),
];

// the text is a script
pub(crate) fn is_read(alloc: Global, text: &[u8]) -> bool {
    text.len() <= MOST_BYTES && read(alloc, text).is_ok()
}

// the text is refused at this line, and this is why
pub(crate) fn is_refused(alloc: Global, text: &[u8], line: u32, kind: LineFault) -> bool {
    if text.len() > MOST_BYTES {
        return false;
    }
    match read(alloc, text) {
        Err(ScriptError::BadLine { line: l, kind: k }) => l == line && k == kind,
        _ => false,
    }
}

fn are_refused(alloc: Global, rows: &[Row]) -> bool {
    for (text, line, kind) in rows {
        if !is_refused(alloc, text, *line, *kind) {
            return false;
        }
    }
    true
}

#[test]
fn refuses_first_statements(rt: HostRuntime) -> Result<(), Fail> {
    assert!(rt; are_refused(rt.alloc(), HEADS.as_slice()));
    Ok(())
}

#[test]
fn refuses_boards_events_and_banks(rt: HostRuntime) -> Result<(), Fail> {
    assert!(rt; are_refused(rt.alloc(), BOARDS.as_slice()));
    Ok(())
}

#[test]
fn refuses_ops_and_starts(rt: HostRuntime) -> Result<(), Fail> {
    assert!(rt; are_refused(rt.alloc(), PROGRAMS.as_slice()));
    Ok(())
}

#[test]
fn refuses_reporters_acts_and_schedules(rt: HostRuntime) -> Result<(), Fail> {
    assert!(rt; are_refused(rt.alloc(), SOURCES.as_slice()));
    Ok(())
}
