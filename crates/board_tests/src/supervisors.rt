//! Supervisors that call wildly, jump off their code, or do in user mode what is supervisor's alone.

use crate::plays::{TRACED, writes};
use std::test::Fail;

// Calls that are refused, a completion of nothing, a store outside memory, and a jump to where no op stands.
const WILD: &[u8] = b"board 1 1
event 0xffff0000 inject
op sbi 0x535345 6
op sbi 0x0 0
op sbi 0x535345 10
op sbi 0x535345 3 0xffff0000
op store 0x80001000 1
op jump 0x7
start 0 0x1000 100
";

const WILD_OUT: &[u8] = b"1 h0 call 0x535345 0x6 0x0 0x0 0x0 0x0 0x0 = 0
2 h0 call 0x0 0x0 0x0 0x0 0x0 0x0 0x0 = -2
3 h0 call 0x535345 0xa 0x0 0x0 0x0 0x0 0x0 = -2
4 h0 call 0x535345 0x3 0xffff0000 0x0 0x0 0x0 0x0 = -10
5 h0 fault
6 h0 jump 0x7
board 1 harts 1 banks 0 reporters 0 steps 6
hart 0 steps 6 masked 1 pc 0x7 priv S sie 0 sepc 0x0 spp 0 spie 0 a6 0x0 a7 0x0 depth 0 calls 4 failed 3 last -10
event 0xffff0000 hart 0 state 0 pending 0 priority 0 config 0 preferred 0 entry 0x0 arg 0x0
fates made 0 stray 0 disabled 0 counted 0 drained 0 overwritten 0 kept 0 stands 0
schedule h0 h0 h0 h0 h0 h0
end
";

// A return to user mode, where only memory and two registers may be touched.
const IN_USER_MODE: &[u8] = b"board 1 1
event 0xffff0000 inject
op sbi 0x535345 8
op sbi 0x535345 2 0xffff0000 0x2000 7
op sbi 0x535345 4 0xffff0000
op set sepc 0x1100
op sret
at 0x1100
op sbi 0x535345 8
op set a6 5
op set sie 1
op load sepc 0x80001000
op load a7 0x80001000
op ack 0
op unplug 0
op sret
start 0 0x1000 100
reporter list
act 0 raise 0xffff0000 0
schedule h0 h0 h0 h0 h0 h0 h0 h0 h0 h0 h0 h0 h0
";

const IN_USER_MODE_OUT: &[u8] = b"1 h0 call 0x535345 0x8 0x0 0x0 0x0 0x0 0x0 = 0
2 h0 call 0x535345 0x2 0xffff0000 0x2000 0x7 0x0 0x0 = 0
3 h0 call 0x535345 0x4 0xffff0000 0x0 0x0 0x0 0x0 = 0
4 h0 set sepc 0x1100
5 h0 sret
6 h0 illegal
7 h0 set a6 0x5
8 h0 illegal
9 h0 illegal
10 h0 fault
11 h0 illegal
12 h0 illegal
13 h0 illegal
board 1 harts 1 banks 0 reporters 1 steps 13
hart 0 steps 13 masked 0 pc 0x1120 priv U sie 0 sepc 0x1100 spp 0 spie 1 a6 0x5 a7 0x0 depth 0 calls 3 failed 0 last 0
event 0xffff0000 hart 0 state 2 pending 0 priority 0 config 0 preferred 0 entry 0x2000 arg 0x7
fates made 0 stray 0 disabled 0 counted 0 drained 0 overwritten 0 kept 0 stands 0
schedule h0 h0 h0 h0 h0 h0 h0 h0 h0 h0 h0 h0 h0
end
";

// The same, and an event is delivered from user mode.
const FROM_USER_MODE: &[u8] = b"board 1 1
event 0xffff0000 inject
op sbi 0x535345 8
op sbi 0x535345 2 0xffff0000 0x2000 7
op sbi 0x535345 4 0xffff0000
op set sepc 0x1100
op sret
at 0x1100
op sbi 0x535345 8
op set a6 5
op set sie 1
op load sepc 0x80001000
op load a7 0x80001000
op ack 0
op unplug 0
op sret
start 0 0x1000 100
reporter list
act 0 raise 0xffff0000 0
schedule h0 h0 h0 h0 h0 h0 r0 h0
";

const FROM_USER_MODE_OUT: &[u8] = b"1 h0 call 0x535345 0x8 0x0 0x0 0x0 0x0 0x0 = 0
2 h0 call 0x535345 0x2 0xffff0000 0x2000 0x7 0x0 0x0 = 0
3 h0 call 0x535345 0x4 0xffff0000 0x0 0x0 0x0 0x0 = 0
4 h0 set sepc 0x1100
5 h0 sret
6 h0 illegal
7 r0 raise 0xffff0000 0 signalled
8 h0 deliver 0xffff0000
board 1 harts 1 banks 0 reporters 1 steps 8
hart 0 steps 7 masked 0 pc 0x2000 priv S sie 0 sepc 0x1104 spp 0 spie 0 a6 0x0 a7 0x7 depth 1 calls 3 failed 0 last 0
frame 0 1 event 0xffff0000 sepc 0x1100 flags 2 a6 0x0 a7 0x0
event 0xffff0000 hart 0 state 3 pending 0 priority 0 config 0 preferred 0 entry 0x2000 arg 0x7
fates made 0 stray 0 disabled 0 counted 0 drained 0 overwritten 0 kept 0 stands 0
schedule h0 h0 h0 h0 h0 h0 r0 h0
end
";

#[test]
fn changes_nothing_by_wild_ops(rt: HostRuntime) -> Result<(), Fail> {
    assert!(rt; writes(rt.alloc(), TRACED, WILD, WILD_OUT)?);
    Ok(())
}

#[test]
fn keeps_user_mode_apart(rt: HostRuntime) -> Result<(), Fail> {
    assert!(rt; writes(rt.alloc(), TRACED, IN_USER_MODE, IN_USER_MODE_OUT)?);
    assert!(rt; writes(rt.alloc(), TRACED, FROM_USER_MODE, FROM_USER_MODE_OUT)?);
    Ok(())
}
