//! Drains that gather several copies into a block.

ghost use Rattle.std.specs.Prelude.{Some};

use crate::bench::play;
use std::test::Fail;

// two records, of which the second is to be gathered too
const GATHER: &[u8] = b"board 2 1
event 0x0 noinject
bank 0 local 2
gather 0 2
record 0 0 0x95 0
record 0 1 0x95 0
start 0 0 100
reporter list
act 0 error 0 0 ce 0 1 0x100 0 0 1
act 0 error 0 1 uec 0 2 0x200 0 0 2
";

const GATHER_TRACE: &[u8] = b"1 r0 error 0 0 ce 0 1 0x100 0x0 0x0 0x1 = wrote 1
2 r0 error 0 1 uec 0 2 0x200 0x0 0x0 0x2 = wrote 2
3 h0 scan 0 0
4 h0 claim 0 0
5 h0 read 0 0 address
6 h0 read 0 0 info
7 h0 read 0 0 supplement
8 h0 read 0 0 time
9 h0 check 0 0 published
10 h0 invalidate 0 0 cleared
11 h0 scan 0 1
12 h0 claim 0 1
13 h0 read 0 1 address
14 h0 read 0 1 info
15 h0 read 0 1 supplement
16 h0 read 0 1 time
17 h0 check 0 1 published
18 h0 invalidate 0 1 cleared
19 h0 signal 0 2 0x0
";

#[test]
fn a_drain_gathers_two_copies_and_signals_once(rt: HostRuntime) -> Result<(), Fail> {
    let seen = play(
        rt.alloc(),
        GATHER,
        b"r0 r0 h0 h0 h0 h0 h0 h0 h0 h0 h0 h0 h0 h0 h0 h0 h0 h0 h0 h0",
    )?;
    assert_eq!(rt; seen.idle, 1u64);
    assert_eq!(rt; seen.trace.as_slice(), GATHER_TRACE);
    let Some(bank) = &seen.bank else {
        return Err(Fail::new("there is a bank"));
    };
    let [first, second] = bank.copies.as_slice() else {
        return Err(Fail::new("two copies stand in the slot"));
    };
    assert_eq!(rt; first.status, 0x10083);
    assert_eq!(rt; second.status, 0x20089);
    assert_eq!(rt; bank.bytes.len(), 260);
    let (header, _) = bank.bytes.as_slice().split_at(20);
    assert_eq!(rt;
        header,
        b"\x23\0\0\0\0\0\0\0\0\0\0\0\xf0\0\0\0\x01\0\0\0".as_slice()
    );
    Ok(())
}

// the same on two harts, of which the other acknowledges
const SHARED: &[u8] = b"board 2 2
event 0x0 noinject
bank 0 local 2
gather 0 2
record 0 0 0x95 0
record 0 1 0x95 0
op ack 0
start 0 0 100
start 1 0x1000 100
reporter list
act 0 error 0 0 ce 0 1 0x100 0 0 1
act 0 error 0 1 uec 0 2 0x200 0 0 2
";

const SHARED_TRACE: &[u8] = b"1 r0 error 0 0 ce 0 1 0x100 0x0 0x0 0x1 = wrote 1
2 r0 error 0 1 uec 0 2 0x200 0x0 0x0 0x2 = wrote 2
3 h0 scan 0 0
4 h0 claim 0 0
5 h0 read 0 0 address
6 h0 read 0 0 info
7 h0 read 0 0 supplement
8 h0 read 0 0 time
9 h0 check 0 0 published
10 h0 invalidate 0 0 cleared
11 h1 ack 0 yes
12 h0 scan 0 1
13 h0 claim 0 1
14 h0 read 0 1 address
15 h0 read 0 1 info
16 h0 read 0 1 supplement
17 h0 read 0 1 time
18 h0 check 0 1 published
19 h0 invalidate 0 1 cleared
20 h0 signal 0 2 0x0
";

#[test]
fn an_acknowledgement_amid_a_drain_empties_the_block(rt: HostRuntime) -> Result<(), Fail> {
    let seen = play(
        rt.alloc(),
        SHARED,
        b"r0 r0 h0 h0 h0 h0 h0 h0 h0 h0 h1 h0 h0 h0 h0 h0 h0 h0 h0 h0",
    )?;
    assert_eq!(rt; seen.trace.as_slice(), SHARED_TRACE);
    assert_eq!(rt; seen.fates.drained, 2);
    let Some(bank) = &seen.bank else {
        return Err(Fail::new("there is a bank"));
    };
    assert_eq!(rt; bank.bytes.len(), 140);
    let (header, _) = bank.bytes.as_slice().split_at(20);
    assert_eq!(rt;
        header,
        b"\x11\0\0\0\0\0\0\0\0\0\0\0\x78\0\0\0\x01\0\0\0".as_slice()
    );
    Ok(())
}
