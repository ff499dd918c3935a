//! The first script, by each command.

use crate::plays::{MOVE, PLAY, SHORT, TRACED, outcome, writes};
use board_run::Status;
use std::alloc::{AllocError, Global};
use std::test::Fail;

pub(crate) const SCRIPT: &[u8] = b"board 1 1
event 0xffff0000 inject
at 0x1000
op sbi 0x535345 8
op sbi 0x535345 2 0xffff0000 0x2000 7
op sbi 0x535345 4 0xffff0000
op sbi 0x535345 7 0xffff0000 0
at 0x2000
op inc 0x80000000
op sbi 0x535345 6
start 0 0x1000 100
";

pub(crate) const TRACE: &[u8] = b"1 h0 call 0x535345 0x8 0x0 0x0 0x0 0x0 0x0 = 0
2 h0 call 0x535345 0x2 0xffff0000 0x2000 0x7 0x0 0x0 = 0
3 h0 call 0x535345 0x4 0xffff0000 0x0 0x0 0x0 0x0 = 0
4 h0 call 0x535345 0x7 0xffff0000 0x0 0x0 0x0 0x0 = 0
5 h0 deliver 0xffff0000
6 h0 inc 0x80000000 0x1
7 h0 call 0x535345 0x6 0x0 0x0 0x0 0x0 0x0 = 0
";

pub(crate) const REPORT: &[u8] = b"board 1 harts 1 banks 0 reporters 0 steps 7
hart 0 steps 7 masked 0 pc 0x1010 priv S sie 0 sepc 0x0 spp 0 spie 0 a6 0x0 a7 0x0 depth 0 calls 5 failed 0 last 0
event 0xffff0000 hart 0 state 2 pending 0 priority 0 config 0 preferred 0 entry 0x2000 arg 0x7
fates made 0 stray 0 disabled 0 counted 0 drained 0 overwritten 0 kept 0 stands 0
word 0x80000000 0x1
schedule h0 h0 h0 h0 h0 h0 h0
end
";

pub(crate) const BRIEF: &[u8] = b"board 1 harts 1 banks 0 reporters 0 steps 7
fates made 0 stray 0 disabled 0 counted 0 drained 0 overwritten 0 kept 0 stands 0
end
";

pub(crate) const MOVED: &[u8] = b"board 2 1
event 4294901760 inject
op sbi 5460805 8 0 0 0 0 0
op sbi 5460805 2 4294901760 8192 7 0 0
op sbi 5460805 4 4294901760 0 0 0 0
op sbi 5460805 7 4294901760 0 0 0 0
at 8192
op inc 2147483648
op sbi 5460805 6 0 0 0 0 0
start 0 4096 100
";

// the same script with tabs, carriage returns, comments, numbers spelled otherwise and no newline at its end
const SPELLED: &[u8] = b"# the first event\r
\r
\tboard  1\t0x1 \r
event\t4294901760 inject\r
op sbi 0x00535345 8 0 0\r
op sbi 0x535345 2 0xFFFF0000 8192 07\r
op sbi 5460805 4 0xffff0000 0 0 0 0\r
op sbi 0x535345 7 0xffff0000 0\r
at 8192\r
# the handler\r
op inc 2147483648\r
op sbi 0x535345 6\r
start 00 4096 100";

// the trace, and then the report
pub(crate) fn traced(alloc: Global) -> Result<Vec<u8>, AllocError> {
    let mut all = Vec::from_slice(alloc, TRACE)?;
    all.extend_from_slice(REPORT)?;
    Ok(all)
}

#[test]
fn writes_what_each_command_asks_for(rt: HostRuntime) -> Result<(), Fail> {
    let traced = traced(rt.alloc())?;
    for script in [SCRIPT, SPELLED] {
        assert!(rt; writes(rt.alloc(), PLAY, script, REPORT)?);
        assert!(rt; writes(rt.alloc(), TRACED, script, traced.as_slice())?);
        assert!(rt; writes(rt.alloc(), SHORT, script, BRIEF)?);
        assert!(rt; writes(rt.alloc(), MOVE, script, MOVED)?);
    }
    Ok(())
}

#[test]
fn reads_a_script_piece_by_piece(rt: HostRuntime) -> Result<(), Fail> {
    for most in [1, 7, 65_536] {
        let (status, bytes) = outcome(rt.alloc(), PLAY, SCRIPT, most, None, None)?;
        assert_eq!(rt; status, Status::Ok);
        assert_eq!(rt; bytes.as_slice(), REPORT);
    }
    Ok(())
}
