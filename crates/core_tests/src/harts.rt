//! Steps of harts: user mode, calls that are refused, and harts without a step.

ghost use Rattle.std.specs.Prelude.{Some};

use crate::bench::play;
use board_plan::Counts;
use hart_ctx::{Privilege, Saved};
use sse_base::{EventId, Instance};
use std::test::Fail;

// a supervisor that returns to user mode, where it tries a call
const USER: &[u8] = b"board 1 1
event 0xffff0000 inject
op sbi 0x535345 8
op sbi 0x535345 2 0xffff0000 0x2000 7
op sbi 0x535345 4 0xffff0000
op set sepc 0x1100
op sret
at 0x1100
op sbi 0x535345 8
start 0 0x1000 100
reporter list
act 0 raise 0xffff0000 0
";

const USER_TRACE: &[u8] = b"1 h0 call 0x535345 0x8 0x0 0x0 0x0 0x0 0x0 = 0
2 h0 call 0x535345 0x2 0xffff0000 0x2000 0x7 0x0 0x0 = 0
3 h0 call 0x535345 0x4 0xffff0000 0x0 0x0 0x0 0x0 = 0
4 h0 set sepc 0x1100
5 h0 sret
6 h0 illegal
7 r0 raise 0xffff0000 0 signalled
8 h0 deliver 0xffff0000
";

#[test]
fn a_user_makes_no_calls_and_is_interrupted(rt: HostRuntime) -> Result<(), Fail> {
    let seen = play(rt.alloc(), USER, b"h0 h0 h0 h0 h0 h0 r0 h0")?;
    assert_eq!(rt; seen.idle, 0u64);
    assert_eq!(rt; seen.trace.as_slice(), USER_TRACE);
    assert_eq!(rt; seen.regs.pc, 0x2000);
    assert_eq!(rt; seen.regs.privilege, Privilege::Supervisor);
    assert_eq!(rt; seen.regs.sepc, 0x1104);
    assert!(rt; !seen.regs.spp);
    assert!(rt; !seen.regs.spie);
    let at = Instance::Local {
        id: EventId(0xffff_0000),
        hart: 0,
    };
    let saved = Saved {
        sepc: 0x1100,
        flags: 2,
        a6: 0,
        a7: 0,
    };
    assert_eq!(rt; seen.running, Some((at, saved)));
    Ok(())
}

// calls and addresses that no supervisor should use
const HOSTILE: &[u8] = b"board 1 1
event 0xffff0000 inject
op sbi 0x535345 6
op sbi 0x0 0
op sbi 0x535345 10
op sbi 0x535345 3 0xffff0000
op store 0x80001000 1
op jump 0x7
start 0 0x1000 100
";

const HOSTILE_TRACE: &[u8] = b"1 h0 call 0x535345 0x6 0x0 0x0 0x0 0x0 0x0 = 0
2 h0 call 0x0 0x0 0x0 0x0 0x0 0x0 0x0 = -2
3 h0 call 0x535345 0xa 0x0 0x0 0x0 0x0 0x0 = -2
4 h0 call 0x535345 0x3 0xffff0000 0x0 0x0 0x0 0x0 = -10
5 h0 fault
6 h0 jump 0x7
";

#[test]
fn wild_calls_change_nothing(rt: HostRuntime) -> Result<(), Fail> {
    let seen = play(rt.alloc(), HOSTILE, b"h0 h0 h0 h0 h0 h0 h0 h1")?;
    assert_eq!(rt; seen.idle, 2u64);
    assert_eq!(rt; seen.trace.as_slice(), HOSTILE_TRACE);
    let counts = Counts {
        steps: 6,
        calls: 4,
        failed: 3,
        last: -10,
    };
    assert_eq!(rt; seen.counts, counts);
    assert_eq!(rt; seen.regs.pc, 0x7);
    assert_eq!(rt; seen.running, None);
    Ok(())
}

// an op stands where the first two harts begin, of which the second may make one step; none where the third begins
const BUDGETS: &[u8] = b"board 1 3
op jump 0x1000
start 0 0x1000 0
start 1 0x1000 1
start 2 0x2000 9
";

#[test]
fn a_spent_budget_leaves_no_step(rt: HostRuntime) -> Result<(), Fail> {
    let seen = play(rt.alloc(), BUDGETS, b"h0 h1 h2 h0 h1 h2")?;
    assert_eq!(rt; seen.idle, 5u64);
    assert_eq!(rt; seen.places, 10);
    assert_eq!(rt; seen.trace.as_slice(), b"1 h1 jump 0x1000\n".as_slice());
    Ok(())
}
