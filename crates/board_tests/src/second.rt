//! Scripts of the second version: blocks of several copies, larger boards, and scripts that are moved to it.

use crate::drains::{TORN, TORN_OUT};
use crate::plays::{MOVE, TRACED, tells, writes};
use std::alloc::{AllocError, Global};
use std::test::Fail;

// Two errors in one block, with one signal.
const GATHERED: &[u8] = b"board 2 1
event 0x0 noinject
bank 0 local 2
gather 0 2
record 0 0 0x95 0
record 0 1 0x95 0
start 0 0 100
reporter list
act 0 error 0 0 ce 0 1 0x100 0 0 1
act 0 error 0 1 uec 0 2 0x200 0 0 2
schedule r0 r0 h0 h0 h0 h0 h0 h0 h0 h0 h0 h0 h0 h0 h0 h0 h0 h0 h0
";

const GATHERED_OUT: &[u8] = b"1 r0 error 0 0 ce 0 1 0x100 0x0 0x0 0x1 = wrote 1
2 r0 error 0 1 uec 0 2 0x200 0x0 0x0 0x2 = wrote 2
3 h0 scan 0 0
4 h0 claim 0 0
5 h0 read 0 0 address
6 h0 read 0 0 info
7 h0 read 0 0 supplement
8 h0 read 0 0 time
9 h0 check 0 0 published
10 h0 invalidate 0 0 cleared
11 h0 scan 0 1
12 h0 claim 0 1
13 h0 read 0 1 address
14 h0 read 0 1 info
15 h0 read 0 1 supplement
16 h0 read 0 1 time
17 h0 check 0 1 published
18 h0 invalidate 0 1 cleared
19 h0 signal 0 2 0x0
board 2 harts 1 banks 1 reporters 1 steps 19
hart 0 steps 17 masked 1 pc 0x0 priv S sie 0 sepc 0x0 spp 0 spie 0 a6 0x0 a7 0x0 depth 0 calls 0 failed 0 last 0
event 0x0 hart 0 state 0 pending 1 priority 0 config 0 preferred 0 entry 0x0 arg 0x0
bank 0 home 0 scope local asks 1 block full drain none
record 0 0 control 0x95 status 0x0 address 0x0 info 0x0 supplement 0x0 time 0x0
record 0 1 control 0x95 status 0x0 address 0x0 info 0x0 supplement 0x0 time 0x0
block 0 230000000000000000000000f000000001000000524552492d5245434f52442d3030303102000000000300003000000000000000\
0000000000000000000000000000000000000000000000000000000000000000000000000000000095000000000000008300010000000000\
0001000000000000000000000000000000000000000000000100000000000000
block 0 524552492d5245434f52442d30303031010000000003000030000000000000000000000000000000000000000000000000000000\
0000000000000000000000000000000000000000950000000000000089000200000000000002000000000000000000000000000000000000\
000000000200000000000000
fates made 2 stray 0 disabled 0 counted 0 drained 2 overwritten 0 kept 0 stands 0
schedule r0 r0 h0 h0 h0 h0 h0 h0 h0 h0 h0 h0 h0 h0 h0 h0
schedule h0 h0 h0
end
";

// The block is acknowledged between the two copies.
const ACKNOWLEDGED: &[u8] = b"board 2 2
event 0x0 noinject
bank 0 local 2
gather 0 2
record 0 0 0x95 0
record 0 1 0x95 0
op ack 0
start 0 0 100
start 1 0x1000 100
reporter list
act 0 error 0 0 ce 0 1 0x100 0 0 1
act 0 error 0 1 uec 0 2 0x200 0 0 2
schedule r0 r0 h0 h0 h0 h0 h0 h0 h0 h0 h1 h0 h0 h0 h0 h0 h0 h0 h0 h0
";

const ACKNOWLEDGED_OUT: &[u8] = b"1 r0 error 0 0 ce 0 1 0x100 0x0 0x0 0x1 = wrote 1
2 r0 error 0 1 uec 0 2 0x200 0x0 0x0 0x2 = wrote 2
3 h0 scan 0 0
4 h0 claim 0 0
5 h0 read 0 0 address
6 h0 read 0 0 info
7 h0 read 0 0 supplement
8 h0 read 0 0 time
9 h0 check 0 0 published
10 h0 invalidate 0 0 cleared
11 h1 ack 0 yes
12 h0 scan 0 1
13 h0 claim 0 1
14 h0 read 0 1 address
15 h0 read 0 1 info
16 h0 read 0 1 supplement
17 h0 read 0 1 time
18 h0 check 0 1 published
19 h0 invalidate 0 1 cleared
20 h0 signal 0 2 0x0
board 2 harts 2 banks 1 reporters 1 steps 20
hart 0 steps 17 masked 1 pc 0x0 priv S sie 0 sepc 0x0 spp 0 spie 0 a6 0x0 a7 0x0 depth 0 calls 0 failed 0 last 0
hart 1 steps 1 masked 1 pc 0x1004 priv S sie 0 sepc 0x0 spp 0 spie 0 a6 0x0 a7 0x0 depth 0 calls 0 failed 0 last 0
event 0x0 hart 0 state 0 pending 1 priority 0 config 0 preferred 0 entry 0x0 arg 0x0
event 0x0 hart 1 state 0 pending 0 priority 0 config 0 preferred 1 entry 0x0 arg 0x0
bank 0 home 0 scope local asks 1 block full drain none
record 0 0 control 0x95 status 0x0 address 0x0 info 0x0 supplement 0x0 time 0x0
record 0 1 control 0x95 status 0x0 address 0x0 info 0x0 supplement 0x0 time 0x0
block 0 1100000000000000000000007800000001000000524552492d5245434f52442d3030303101000000000300003000000000000000\
0000000000000000000000000000000000000000000000000000000000000000000000000000000095000000000000008900020000000000\
0002000000000000000000000000000000000000000000000200000000000000
fates made 2 stray 0 disabled 0 counted 0 drained 2 overwritten 0 kept 0 stands 0
schedule r0 r0 h0 h0 h0 h0 h0 h0 h0 h0 h1 h0 h0 h0 h0 h0
schedule h0 h0 h0 h0
end
";

// A bank of 63 records: the last one is drained, and the scan after it is over.
const LAST_RECORD: &[u8] = b"board 2 1
event 0x100000 noinject
bank 0 local 63
record 0 62 0x95 0
start 0 0 100
reporter list
act 0 error 0 62 ce 0 1 0x100 0 0 1
";

const LAST_RECORD_LINES: [&str; 9] = [
    "1 r0 error 0 62 ce 0 1 0x100 0x0 0x0 0x1 = wrote 1",
    "2 h0 scan 0 62",
    "8 h0 check 0 62 published",
    "10 h0 scan 0 over",
    "11 h0 signal 0 1 0x100000",
    "board 2 harts 1 banks 1 reporters 1 steps 11",
    "bank 0 home 0 scope local asks 0 block full drain none",
    "record 0 62 control 0x95 status 0x0 address 0x0 info 0x0 supplement 0x0 time 0x0",
    "fates made 1 stray 0 disabled 0 counted 0 drained 1 overwritten 0 kept 0 stands 0",
];

// 32 harts: an event goes to the last one.
const LAST_HART: &[u8] = b"board 2 32
event 0xffff8000 inject
op sbi 0x535345 8
op nop
op nop
at 0x2000
op store 0x80000000 31
op sbi 0x535345 1 0xffff8000 3 1 0x80000000 0
op sbi 0x535345 2 0xffff8000 0x3000 0
op sbi 0x535345 4 0xffff8000
op sbi 0x535345 8
op sbi 0x535345 7 0xffff8000 0
at 0x3000
op sbi 0x535345 6
start 0 0x2000 20
start 1 0x1000 20
start 2 0x1000 20
start 3 0x1000 20
start 4 0x1000 20
start 5 0x1000 20
start 6 0x1000 20
start 7 0x1000 20
start 8 0x1000 20
start 9 0x1000 20
start 10 0x1000 20
start 11 0x1000 20
start 12 0x1000 20
start 13 0x1000 20
start 14 0x1000 20
start 15 0x1000 20
start 16 0x1000 20
start 17 0x1000 20
start 18 0x1000 20
start 19 0x1000 20
start 20 0x1000 20
start 21 0x1000 20
start 22 0x1000 20
start 23 0x1000 20
start 24 0x1000 20
start 25 0x1000 20
start 26 0x1000 20
start 27 0x1000 20
start 28 0x1000 20
start 29 0x1000 20
start 30 0x1000 20
start 31 0x1000 20
";

const LAST_HART_LINES: [&str; 4] = [
    "99 h0 call 0x535345 0x7 0xffff8000 0x0 0x0 0x0 0x0 = 0",
    "100 h31 deliver 0xffff8000",
    "board 2 harts 32 banks 0 reporters 0 steps 101",
    "event 0xffff8000 hart - state 2 pending 0 priority 0 config 0 preferred 31 entry 0x3000 arg 0x0",
];

// The torn drain's script, moved.
const MOVED_TORN: &[u8] = b"board 2 1
event 0 noinject
bank 0 local 1
gather 0 1
record 0 0 149 0
start 0 0 100
reporter list
act 0 error 0 0 ued 0 1 256 0 0 1
act 0 error 0 0 uec 0 2 512 0 0 2
schedule r0 h0 h0 r0 h0 h0 h0 h0 h0 h0 h0 h0 h0 h0 h0 h0
schedule h0
";

// what is written of a script of the first version, as it is once the script was moved
fn of_version_2(alloc: Global, written: &[u8]) -> Result<Vec<u8>, AllocError> {
    let mut all = Vec::new(alloc);
    let mut moved = false;
    for byte in written {
        let is_version = !moved && *byte == b'1' && all.as_slice().ends_with(b"board ");
        moved = moved || is_version;
        all.push(if is_version { b'2' } else { *byte })?;
    }
    Ok(all)
}

#[test]
fn gathers_copies_and_signals_once(rt: HostRuntime) -> Result<(), Fail> {
    assert!(rt; writes(rt.alloc(), TRACED, GATHERED, GATHERED_OUT)?);
    assert!(rt; writes(rt.alloc(), TRACED, ACKNOWLEDGED, ACKNOWLEDGED_OUT)?);
    Ok(())
}

#[test]
fn plays_larger_boards(rt: HostRuntime) -> Result<(), Fail> {
    assert!(rt;
        tells(
            rt.alloc(),
            TRACED,
            LAST_RECORD,
            LAST_RECORD_LINES.as_slice()
        )?
    );
    assert!(rt; tells(rt.alloc(), TRACED, LAST_HART, LAST_HART_LINES.as_slice())?);
    Ok(())
}

#[test]
fn moves_a_script_with_its_run(rt: HostRuntime) -> Result<(), Fail> {
    assert!(rt; writes(rt.alloc(), MOVE, TORN, MOVED_TORN)?);
    assert!(rt; writes(rt.alloc(), MOVE, MOVED_TORN, MOVED_TORN)?);
    let run = of_version_2(rt.alloc(), TORN_OUT)?;
    assert!(rt; writes(rt.alloc(), TRACED, MOVED_TORN, run.as_slice())?);
    Ok(())
}
