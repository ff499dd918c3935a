//! Reporters: acts for what isn't there, unplugged reporters, and devices that nobody has given.

use crate::plays::{TRACED, writes};
use std::test::Fail;

// Acts for a bank, an event and a hart that the board hasn't; the first alone is an error.
const STRAYS: &[u8] = b"board 1 1
event 0xffff0000 inject
at 0x1000
op sbi 0x535345 8
op sbi 0x535345 2 0xffff0000 0x2000 7
op sbi 0x535345 4 0xffff0000
op sbi 0x535345 7 0xffff0000 0
at 0x2000
op inc 0x80000000
op sbi 0x535345 6
start 0 0x1000 100
reporter list
act 0 error 9 0 ce 0 0 0 0 0 0
act 0 raise 0x10000 0
act 0 raise 0xffff0000 7
";

const STRAYS_OUT: &[u8] = b"1 h0 call 0x535345 0x8 0x0 0x0 0x0 0x0 0x0 = 0
2 r0 error 9 0 ce 0 0 0x0 0x0 0x0 0x0 = stray
3 h0 call 0x535345 0x2 0xffff0000 0x2000 0x7 0x0 0x0 = 0
4 r0 raise 0x10000 0 stray
5 h0 call 0x535345 0x4 0xffff0000 0x0 0x0 0x0 0x0 = 0
6 r0 raise 0xffff0000 7 stray
7 h0 call 0x535345 0x7 0xffff0000 0x0 0x0 0x0 0x0 = 0
8 h0 deliver 0xffff0000
9 h0 inc 0x80000000 0x1
10 h0 call 0x535345 0x6 0x0 0x0 0x0 0x0 0x0 = 0
board 1 harts 1 banks 0 reporters 1 steps 10
hart 0 steps 7 masked 0 pc 0x1010 priv S sie 0 sepc 0x0 spp 0 spie 0 a6 0x0 a7 0x0 depth 0 calls 5 failed 0 last 0
event 0xffff0000 hart 0 state 2 pending 0 priority 0 config 0 preferred 0 entry 0x2000 arg 0x7
fates made 1 stray 1 disabled 0 counted 0 drained 0 overwritten 0 kept 0 stands 0
word 0x80000000 0x1
schedule h0 r0 h0 r0 h0 r0 h0 h0 h0 h0
end
";

// A reporter is unplugged with two acts left; once more, and one that isn't there.
const UNPLUGGED: &[u8] = b"board 1 1
op unplug 0
op unplug 0
op unplug 1
start 0 0x1000 100
bank 0 local 1
record 0 0 0x94 0
reporter list
act 0 error 0 0 ce 0 0 0 0 0 0
act 0 error 0 0 ce 0 0 0 0 0 0
act 0 error 0 0 ce 0 0 0 0 0 0
schedule r0 h0 r0 r0 h0 h0
";

const UNPLUGGED_OUT: &[u8] = b"1 r0 error 0 0 ce 0 0 0x0 0x0 0x0 0x0 = disabled
2 h0 unplug 0 yes
3 h0 unplug 0 no
4 h0 unplug 1 no
board 1 harts 1 banks 1 reporters 1 steps 4
hart 0 steps 3 masked 1 pc 0x100c priv S sie 0 sepc 0x0 spp 0 spie 0 a6 0x0 a7 0x0 depth 0 calls 0 failed 0 last 0
bank 0 home 0 scope local asks 0 block free drain none
record 0 0 control 0x94 status 0x0 address 0x0 info 0x0 supplement 0x0 time 0x0
fates made 1 stray 0 disabled 1 counted 0 drained 0 overwritten 0 kept 0 stands 0
schedule r0 h0 h0 h0
end
";

// A reporter that names a device makes no step, since none is given.
const DEVICE: &[u8] = b"board 1 1
op nop
start 0 0x1000 5
reporter device 0 5
reporter list
act 1 raise 0x0 0
schedule r0 r1 h0 r0
";

const DEVICE_OUT: &[u8] = b"1 r1 raise 0x0 0 stray
2 h0 nop
board 1 harts 1 banks 0 reporters 2 steps 2
hart 0 steps 1 masked 1 pc 0x1004 priv S sie 0 sepc 0x0 spp 0 spie 0 a6 0x0 a7 0x0 depth 0 calls 0 failed 0 last 0
fates made 0 stray 0 disabled 0 counted 0 drained 0 overwritten 0 kept 0 stands 0
schedule r1 h0
end
";

#[test]
fn makes_acts_for_what_is_there(rt: HostRuntime) -> Result<(), Fail> {
    assert!(rt; writes(rt.alloc(), TRACED, STRAYS, STRAYS_OUT)?);
    assert!(rt; writes(rt.alloc(), TRACED, UNPLUGGED, UNPLUGGED_OUT)?);
    assert!(rt; writes(rt.alloc(), TRACED, DEVICE, DEVICE_OUT)?);
    Ok(())
}
