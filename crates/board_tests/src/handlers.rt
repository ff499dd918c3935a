//! Handlers within handlers: what a delivery saves and a completion gives back.

use crate::plays::{PLAY, TRACED, has_lines, played, writes};
use board_run::Status;
use std::alloc::Global;
use std::test::Fail;

/// A schedule, and how the hart and its handlers stand after it.
type Row = (&'static [u8], &'static [&'static str]);

// An event is delivered in the handler of another one, and writes what both will give back.
const NESTED: &[u8] = b"board 1 1
event 0x100000 noinject
event 0x0 noinject
at 0xf00
op store 0x80000000 9
op store 0x80000008 1
op sbi 0x535345 1 0x100000 1 1 0x80000000 0
op sbi 0x535345 1 0x0 1 1 0x80000008 0
op sbi 0x535345 2 0x100000 0x2000 0xa
op sbi 0x535345 2 0x0 0x3000 0xb
op sbi 0x535345 4 0x100000
op sbi 0x535345 4 0x0
op sbi 0x535345 8
op set a6 0x11
op set a7 0x22
op set sepc 0xaaa0
op set spie 1
op set sie 1
op jump 0x1020
at 0x2000
op nop
op nop
op sbi 0x535345 6
at 0x3000
op store 0x80000010 0x5550
op store 0x80000018 0x1030
op sbi 0x535345 1 0x100000 6 1 0x80000010 0
op sbi 0x535345 1 0x0 6 1 0x80000018 0
op set sepc 0x2008
op sbi 0x535345 6
start 0 0xf00 100
reporter list
act 0 raise 0x100000 0
act 0 raise 0x0 0
";

const ROWS: [Row; 5] = [
    (
        b"schedule h0 h0 h0 h0 h0 h0 h0 h0 h0 h0 h0 h0 h0 h0 h0 r0 h0",
        &[
            "hart 0 steps 16 masked 0 pc 0x2000 priv S sie 0 sepc 0x1020 spp 1 spie 1 a6 0x0 a7 0xa depth 1 \
                calls 7 failed 0 last 0",
            "frame 0 1 event 0x100000 sepc 0xaaa0 flags 2 a6 0x11 a7 0x22",
        ],
    ),
    (
        b"schedule h0 h0 h0 h0 h0 h0 h0 h0 h0 h0 h0 h0 h0 h0 h0 r0 h0 h0 r0 h0",
        &[
            "hart 0 steps 18 masked 0 pc 0x3000 priv S sie 0 sepc 0x2004 spp 1 spie 0 a6 0x0 a7 0xb depth 2 \
                calls 7 failed 0 last 0",
            "frame 0 1 event 0x100000 sepc 0xaaa0 flags 2 a6 0x11 a7 0x22",
            "frame 0 2 event 0x0 sepc 0x1020 flags 3 a6 0x0 a7 0xa",
        ],
    ),
    (
        b"schedule h0 h0 h0 h0 h0 h0 h0 h0 h0 h0 h0 h0 h0 h0 h0 r0 h0 h0 r0 h0 h0 h0 h0 h0 h0",
        &[
            "hart 0 steps 23 masked 0 pc 0x3014 priv S sie 0 sepc 0x2008 spp 1 spie 0 a6 0x0 a7 0xb depth 2 \
                calls 9 failed 0 last 0",
            "frame 0 1 event 0x100000 sepc 0x5550 flags 2 a6 0x11 a7 0x22",
            "frame 0 2 event 0x0 sepc 0x1030 flags 3 a6 0x0 a7 0xa",
        ],
    ),
    (
        b"schedule h0 h0 h0 h0 h0 h0 h0 h0 h0 h0 h0 h0 h0 h0 h0 r0 h0 h0 r0 h0 h0 h0 h0 h0 h0 h0",
        &[
            "hart 0 steps 24 masked 0 pc 0x2008 priv S sie 0 sepc 0x1030 spp 1 spie 1 a6 0x0 a7 0xa depth 1 \
                calls 10 failed 0 last 0",
            "frame 0 1 event 0x100000 sepc 0x5550 flags 2 a6 0x11 a7 0x22",
        ],
    ),
    (
        b"schedule h0 h0 h0 h0 h0 h0 h0 h0 h0 h0 h0 h0 h0 h0 h0 r0 h0 h0 r0 h0 h0 h0 h0 h0 h0 h0 h0",
        &[
            "hart 0 steps 25 masked 0 pc 0x1030 priv S sie 1 sepc 0x5550 spp 0 spie 1 a6 0x11 a7 0x22 depth \
                0 calls 11 failed 0 last 0",
        ],
    ),
];

// An event that is less urgent than the one that runs waits for its completion.
const IN_TURN: &[u8] = b"board 1 1
event 0x0 noinject
event 0xffff0000 noinject
op sbi 0x535345 2 0x0 0x3000 1
op sbi 0x535345 2 0xffff0000 0x2000 2
op sbi 0x535345 4 0x0
op sbi 0x535345 4 0xffff0000
op sbi 0x535345 8
op nop
at 0x2000
op inc 0x80000000
op sbi 0x535345 6
at 0x3000
op inc 0x80000008
op sbi 0x535345 6
start 0 0x1000 100
reporter list
act 0 raise 0x0 0
act 0 raise 0xffff0000 0
schedule h0 h0 h0 h0 h0 r0 h0 r0 h0 h0 h0 h0 h0 h0
";

const IN_TURN_OUT: &[u8] = b"1 h0 call 0x535345 0x2 0x0 0x3000 0x1 0x0 0x0 = 0
2 h0 call 0x535345 0x2 0xffff0000 0x2000 0x2 0x0 0x0 = 0
3 h0 call 0x535345 0x4 0x0 0x0 0x0 0x0 0x0 = 0
4 h0 call 0x535345 0x4 0xffff0000 0x0 0x0 0x0 0x0 = 0
5 h0 call 0x535345 0x8 0x0 0x0 0x0 0x0 0x0 = 0
6 r0 raise 0x0 0 signalled
7 h0 deliver 0x0
8 r0 raise 0xffff0000 0 signalled
9 h0 inc 0x80000008 0x1
10 h0 call 0x535345 0x6 0x0 0x0 0x0 0x0 0x0 = 0
11 h0 deliver 0xffff0000
12 h0 inc 0x80000000 0x1
13 h0 call 0x535345 0x6 0x0 0x0 0x0 0x0 0x0 = 0
14 h0 nop
board 1 harts 1 banks 0 reporters 1 steps 14
hart 0 steps 12 masked 0 pc 0x1018 priv S sie 0 sepc 0x0 spp 0 spie 0 a6 0x0 a7 0x0 depth 0 calls 7 failed 0 last 0
event 0x0 hart 0 state 2 pending 0 priority 0 config 0 preferred 0 entry 0x3000 arg 0x1
event 0xffff0000 hart 0 state 2 pending 0 priority 0 config 0 preferred 0 entry 0x2000 arg 0x2
fates made 0 stray 0 disabled 0 counted 0 drained 0 overwritten 0 kept 0 stands 0
word 0x80000000 0x1
word 0x80000008 0x1
schedule h0 h0 h0 h0 h0 r0 h0 r0 h0 h0 h0 h0 h0 h0
end
";

// whether the hart stands so after this schedule
fn stands(alloc: Global, schedule: &[u8], lines: &[&str]) -> Result<bool, Fail> {
    let mut text = Vec::from_slice(alloc, NESTED)?;
    text.extend_from_slice(schedule)?;
    let (status, bytes) = played(alloc, PLAY, text.as_slice())?;
    Ok(status == Status::Ok && has_lines(bytes.as_slice(), lines))
}

#[test]
fn gives_back_what_was_saved_and_written(rt: HostRuntime) -> Result<(), Fail> {
    for (schedule, lines) in ROWS {
        assert!(rt; stands(rt.alloc(), schedule, lines)?, "{}", lines[0]);
    }
    Ok(())
}

#[test]
fn lets_less_urgent_events_wait(rt: HostRuntime) -> Result<(), Fail> {
    assert!(rt; writes(rt.alloc(), TRACED, IN_TURN, IN_TURN_OUT)?);
    Ok(())
}
