//! Drains of records, and the blocks that they leave.

use crate::plays::{PLAY, SHORT, TRACED, count_ends, played, writes};
use board_run::Status;
use std::test::Fail;

// An error is written over while it is read: the check is torn, and the record is read again.
pub(crate) const TORN: &[u8] = b"board 1 1
event 0x0 noinject
bank 0 local 1
record 0 0 0x95 0
start 0 0 100
reporter list
act 0 error 0 0 ued 0 1 0x100 0 0 1
act 0 error 0 0 uec 0 2 0x200 0 0 2
schedule r0 h0 h0 r0 h0 h0 h0 h0 h0
schedule h0 h0 h0 h0 h0 h0 h0 h0
";

pub(crate) const TORN_OUT: &[u8] = b"1 r0 error 0 0 ued 0 1 0x100 0x0 0x0 0x1 = wrote 1
2 h0 scan 0 0
3 h0 claim 0 0
4 r0 error 0 0 uec 0 2 0x200 0x0 0x0 0x2 = wrote 2
5 h0 read 0 0 address
6 h0 read 0 0 info
7 h0 read 0 0 supplement
8 h0 read 0 0 time
9 h0 check 0 0 torn
10 h0 claim 0 0
11 h0 read 0 0 address
12 h0 read 0 0 info
13 h0 read 0 0 supplement
14 h0 read 0 0 time
15 h0 check 0 0 published
16 h0 invalidate 0 0 cleared
17 h0 signal 0 2 0x0
board 1 harts 1 banks 1 reporters 1 steps 17
hart 0 steps 15 masked 1 pc 0x0 priv S sie 0 sepc 0x0 spp 0 spie 0 a6 0x0 a7 0x0 depth 0 calls 0 failed 0 last 0
event 0x0 hart 0 state 0 pending 1 priority 0 config 0 preferred 0 entry 0x0 arg 0x0
bank 0 home 0 scope local asks 1 block full drain none
record 0 0 control 0x95 status 0x0 address 0x0 info 0x0 supplement 0x0 time 0x0
block 0 1100000000000000000000007800000001000000524552492d5245434f52442d3030303101000000000300003000000000000000\
0000000000000000000000000000000000000000000000000000000000000000000000000000000095000000000000008d00020000000000\
0002000000000000000000000000000000000000000000000200000000000000
fates made 2 stray 0 disabled 0 counted 0 drained 1 overwritten 1 kept 0 stands 0
schedule r0 h0 h0 r0 h0 h0 h0 h0 h0 h0 h0 h0 h0 h0 h0 h0
schedule h0
end
";

// A more severe error comes between check and invalidation: it stands, and is drained once the block is acknowledged.
const STOOD: &[u8] = b"board 1 1
event 0x0 noinject
event 0x100000 noinject
bank 0 local 1
record 0 0 0x95 0
op ack 0
start 0 0x1000 100
reporter list
act 0 error 0 0 ce 0 1 0x100 0 0 1
act 0 error 0 0 uec 0 2 0x200 0 0 2
schedule r0 h0 h0 h0 h0 h0 h0 h0 r0
schedule h0 h0 h0 h0 h0 h0 h0 h0 h0 h0 h0 h0
";

const STOOD_OUT: &[u8] = b"1 r0 error 0 0 ce 0 1 0x100 0x0 0x0 0x1 = wrote 1
2 h0 scan 0 0
3 h0 claim 0 0
4 h0 read 0 0 address
5 h0 read 0 0 info
6 h0 read 0 0 supplement
7 h0 read 0 0 time
8 h0 check 0 0 published
9 r0 error 0 0 uec 0 2 0x200 0x0 0x0 0x2 = wrote 2
10 h0 invalidate 0 0 stood
11 h0 signal 0 1 0x100000
12 h0 ack 0 yes
13 h0 scan 0 0
14 h0 claim 0 0
15 h0 read 0 0 address
16 h0 read 0 0 info
17 h0 read 0 0 supplement
18 h0 read 0 0 time
19 h0 check 0 0 published
20 h0 invalidate 0 0 cleared
21 h0 signal 0 2 0x0
board 1 harts 1 banks 1 reporters 1 steps 21
hart 0 steps 19 masked 1 pc 0x1004 priv S sie 0 sepc 0x0 spp 0 spie 0 a6 0x0 a7 0x0 depth 0 calls 0 failed 0 last 0
event 0x0 hart 0 state 0 pending 1 priority 0 config 0 preferred 0 entry 0x0 arg 0x0
event 0x100000 hart 0 state 0 pending 1 priority 0 config 0 preferred 0 entry 0x0 arg 0x0
bank 0 home 0 scope local asks 1 block full drain none
record 0 0 control 0x95 status 0x0 address 0x0 info 0x0 supplement 0x0 time 0x0
block 0 1100000000000000000000007800000001000000524552492d5245434f52442d3030303101000000000300003000000000000000\
0000000000000000000000000000000000000000000000000000000000000000000000000000000095000000000000008b00020000000000\
0002000000000000000000000000000000000000000000000200000000000000
fates made 2 stray 0 disabled 0 counted 0 drained 2 overwritten 0 kept 0 stands 0
schedule r0 h0 h0 h0 h0 h0 h0 h0 r0 h0 h0 h0 h0 h0 h0 h0
schedule h0 h0 h0 h0 h0
end
";

// A corrected error is drained; another of its rank comes later, and stands as long as the block isn't acknowledged.
const FIRST_COPY: &[u8] = b"board 1 1
event 0x100000 noinject
bank 0 local 1
record 0 0 0x95 0
op ack 0
start 0 0x1000 100
reporter list
act 0 error 0 0 ce 1 3 0x1000 5 0 9
act 0 error 0 0 ce 1 3 0x2000 6 0 10
schedule r0 h0 h0 h0 h0 h0 h0 h0 h0 h0 r0
";

const FIRST_COPY_OUT: &[u8] = b"board 1 harts 1 banks 1 reporters 1 steps 11
hart 0 steps 9 masked 1 pc 0x1000 priv S sie 0 sepc 0x0 spp 0 spie 0 a6 0x0 a7 0x0 depth 0 calls 0 failed 0 last 0
event 0x100000 hart 0 state 0 pending 1 priority 0 config 0 preferred 0 entry 0x0 arg 0x0
bank 0 home 0 scope local asks 1 block full drain none
record 0 0 control 0x95 status 0x30013 address 0x2000 info 0x6 supplement 0x0 time 0xa
block 0 1200000000000000000000007800000002000000524552492d5245434f52442d3030303102000000000300003000000000000000\
0000000000000000000000000000000000000000000000000000000000000000000000000000000095000000000000009300030000000000\
0010000000000000050000000000000000000000000000000900000000000000
fates made 2 stray 0 disabled 0 counted 0 drained 1 overwritten 0 kept 0 stands 1
schedule r0 h0 h0 h0 h0 h0 h0 h0 h0 h0 r0
end
";

// The same, and the block is acknowledged: the second error is drained too.
const SECOND_COPY: &[u8] = b"board 1 1
event 0x100000 noinject
bank 0 local 1
record 0 0 0x95 0
op ack 0
start 0 0x1000 100
reporter list
act 0 error 0 0 ce 1 3 0x1000 5 0 9
act 0 error 0 0 ce 1 3 0x2000 6 0 10
schedule r0 h0 h0 h0 h0 h0 h0 h0 h0 h0 r0
schedule h0 h0 h0 h0 h0 h0 h0 h0 h0 h0
";

const SECOND_COPY_OUT: &[u8] = b"1 r0 error 0 0 ce 1 3 0x1000 0x5 0x0 0x9 = wrote 1
2 h0 scan 0 0
3 h0 claim 0 0
4 h0 read 0 0 address
5 h0 read 0 0 info
6 h0 read 0 0 supplement
7 h0 read 0 0 time
8 h0 check 0 0 published
9 h0 invalidate 0 0 cleared
10 h0 signal 0 1 0x100000
11 r0 error 0 0 ce 1 3 0x2000 0x6 0x0 0xa = wrote 1
12 h0 ack 0 yes
13 h0 scan 0 0
14 h0 claim 0 0
15 h0 read 0 0 address
16 h0 read 0 0 info
17 h0 read 0 0 supplement
18 h0 read 0 0 time
19 h0 check 0 0 published
20 h0 invalidate 0 0 cleared
21 h0 signal 0 1 0x100000
board 1 harts 1 banks 1 reporters 1 steps 21
hart 0 steps 19 masked 1 pc 0x1004 priv S sie 0 sepc 0x0 spp 0 spie 0 a6 0x0 a7 0x0 depth 0 calls 0 failed 0 last 0
event 0x100000 hart 0 state 0 pending 1 priority 0 config 0 preferred 0 entry 0x0 arg 0x0
bank 0 home 0 scope local asks 1 block full drain none
record 0 0 control 0x95 status 0x0 address 0x0 info 0x0 supplement 0x0 time 0x0
block 0 1200000000000000000000007800000002000000524552492d5245434f52442d3030303102000000000300003000000000000000\
0000000000000000000000000000000000000000000000000000000000000000000000000000000095000000000000009300030000000000\
0020000000000000060000000000000000000000000000000a00000000000000
fates made 2 stray 0 disabled 0 counted 0 drained 2 overwritten 0 kept 0 stands 0
schedule r0 h0 h0 h0 h0 h0 h0 h0 h0 h0 r0 h0 h0 h0 h0 h0
schedule h0 h0 h0 h0 h0
end
";

// The schedule ends within a drain, which has read the address.
const STOPPED: &[u8] = b"board 1 1
event 0x0 noinject
bank 0 local 1
record 0 0 0x95 0
start 0 0 100
reporter list
act 0 error 0 0 ued 0 1 0x100 0 0 1
act 0 error 0 0 uec 0 2 0x200 0 0 2
schedule r0 h0 h0 r0 h0
";

const STOPPED_OUT: &[u8] = b"board 1 harts 1 banks 1 reporters 1 steps 5
hart 0 steps 3 masked 1 pc 0x0 priv S sie 0 sepc 0x0 spp 0 spie 0 a6 0x0 a7 0x0 depth 0 calls 0 failed 0 last 0
event 0x0 hart 0 state 0 pending 0 priority 0 config 0 preferred 0 entry 0x0 arg 0x0
bank 0 home 0 scope local asks 1 block free drain info 0
record 0 0 control 0x95 status 0x2000d address 0x200 info 0x0 supplement 0x0 time 0x2
fates made 2 stray 0 disabled 0 counted 0 drained 0 overwritten 1 kept 0 stands 1
schedule r0 h0 h0 r0 h0
end
";

// Corrected errors are counted; one that the count has no room for is written.
const WRAPPED: &[u8] = b"board 1 1
bank 0 local 1
record 0 0 0x97 65534
reporter list
act 0 error 0 0 ce 0 7 0 0 0 0
act 0 error 0 0 ce 0 7 0 0 0 0
act 0 error 0 0 ce 0 7 0 0 0 0
";

const WRAPPED_OUT: &[u8] = b"1 r0 error 0 0 ce 0 7 0x0 0x0 0x0 0x0 = counted
2 r0 error 0 0 ce 0 7 0x0 0x0 0x0 0x0 = wrote 1
3 r0 error 0 0 ce 0 7 0x0 0x0 0x0 0x0 = counted
board 1 harts 1 banks 1 reporters 1 steps 3
hart 0 steps 0 masked 1 pc 0x0 priv S sie 0 sepc 0x0 spp 0 spie 0 a6 0x0 a7 0x0 depth 0 calls 0 failed 0 last 0
bank 0 home 0 scope local asks 1 block free drain none
record 0 0 control 0x97 status 0x100070103 address 0x0 info 0x0 supplement 0x0 time 0x0
fates made 3 stray 0 disabled 0 counted 2 drained 0 overwritten 0 kept 0 stands 1
schedule r0 r0 r0
end
";

// Twelve errors of rising rank, each of which comes once the one before it was claimed.
const CLIMBING: &[u8] = b"board 1 1
bank 0 local 1
record 0 0 0x95 0
start 0 0 100
reporter list
act 0 error 0 0 ce 0 0 0 0 0 0
act 0 error 0 0 ce 1 0 0 0 0 0
act 0 error 0 0 ce 2 0 0 0 0 0
act 0 error 0 0 ce 3 0 0 0 0 0
act 0 error 0 0 ued 0 0 0 0 0 0
act 0 error 0 0 ued 1 0 0 0 0 0
act 0 error 0 0 ued 2 0 0 0 0 0
act 0 error 0 0 ued 3 0 0 0 0 0
act 0 error 0 0 uec 0 0 0 0 0 0
act 0 error 0 0 uec 1 0 0 0 0 0
act 0 error 0 0 uec 2 0 0 0 0 0
act 0 error 0 0 uec 3 0 0 0 0 0
schedule r0 h0
schedule h0 r0 h0 h0 h0 h0 h0
schedule h0 r0 h0 h0 h0 h0 h0
schedule h0 r0 h0 h0 h0 h0 h0
schedule h0 r0 h0 h0 h0 h0 h0
schedule h0 r0 h0 h0 h0 h0 h0
schedule h0 r0 h0 h0 h0 h0 h0
schedule h0 r0 h0 h0 h0 h0 h0
schedule h0 r0 h0 h0 h0 h0 h0
schedule h0 r0 h0 h0 h0 h0 h0
schedule h0 r0 h0 h0 h0 h0 h0
schedule h0 r0 h0 h0 h0 h0 h0
schedule h0 h0 h0 h0 h0 h0 h0 h0
";

const CLIMBING_OUT: &[u8] = b"board 1 harts 1 banks 1 reporters 1 steps 87
fates made 12 stray 0 disabled 0 counted 0 drained 1 overwritten 11 kept 0 stands 0
end
";

#[test]
fn drains_as_the_trace_and_the_report_say(rt: HostRuntime) -> Result<(), Fail> {
    assert!(rt; writes(rt.alloc(), TRACED, TORN, TORN_OUT)?);
    assert!(rt; writes(rt.alloc(), TRACED, STOOD, STOOD_OUT)?);
    assert!(rt; writes(rt.alloc(), PLAY, FIRST_COPY, FIRST_COPY_OUT)?);
    assert!(rt; writes(rt.alloc(), TRACED, SECOND_COPY, SECOND_COPY_OUT)?);
    assert!(rt; writes(rt.alloc(), PLAY, STOPPED, STOPPED_OUT)?);
    assert!(rt; writes(rt.alloc(), TRACED, WRAPPED, WRAPPED_OUT)?);
    Ok(())
}

#[test]
fn reads_again_for_each_higher_rank(rt: HostRuntime) -> Result<(), Fail> {
    assert!(rt; writes(rt.alloc(), SHORT, CLIMBING, CLIMBING_OUT)?);
    let (status, bytes) = played(rt.alloc(), TRACED, CLIMBING)?;
    assert_eq!(rt; status, Status::Ok);
    assert_eq!(rt; count_ends(bytes.as_slice(), " = wrote 1"), 8);
    assert_eq!(rt; count_ends(bytes.as_slice(), " = wrote 2"), 4);
    assert_eq!(rt; count_ends(bytes.as_slice(), " torn"), 11);
    assert_eq!(rt; count_ends(bytes.as_slice(), " published"), 1);
    Ok(())
}
