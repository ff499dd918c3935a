//! Drains of one record at a time: torn, left standing, repeated, and stopped on the way.

ghost use Rattle.std.specs.Prelude.{Some};

use crate::bench::play;
use board_plan::Fates;
use reri_fields::Phase;
use std::test::Fail;

// nobody made an error
const NONE: Fates = Fates {
    made: 0,
    stray: 0,
    disabled: 0,
    counted: 0,
    drained: 0,
    overwritten: 0,
    kept: 0,
    stands: 0,
};

// a greater error comes between claim and Check
const TORN: &[u8] = b"board 1 1
event 0x0 noinject
bank 0 local 1
record 0 0 0x95 0
start 0 0 100
reporter list
act 0 error 0 0 ued 0 1 0x100 0 0 1
act 0 error 0 0 uec 0 2 0x200 0 0 2
";

const TORN_TRACE: &[u8] = b"1 r0 error 0 0 ued 0 1 0x100 0x0 0x0 0x1 = wrote 1
2 h0 scan 0 0
3 h0 claim 0 0
4 r0 error 0 0 uec 0 2 0x200 0x0 0x0 0x2 = wrote 2
5 h0 read 0 0 address
6 h0 read 0 0 info
7 h0 read 0 0 supplement
8 h0 read 0 0 time
9 h0 check 0 0 torn
10 h0 claim 0 0
11 h0 read 0 0 address
12 h0 read 0 0 info
13 h0 read 0 0 supplement
14 h0 read 0 0 time
15 h0 check 0 0 published
16 h0 invalidate 0 0 cleared
17 h0 signal 0 2 0x0
";

#[test]
fn a_torn_copy_is_taken_again(rt: HostRuntime) -> Result<(), Fail> {
    let seen = play(
        rt.alloc(),
        TORN,
        b"r0 h0 h0 r0 h0 h0 h0 h0 h0 h0 h0 h0 h0 h0 h0 h0 h0 h0 r0",
    )?;
    assert_eq!(rt; seen.idle, 2u64);
    assert_eq!(rt; seen.trace.as_slice(), TORN_TRACE);
    let fates = Fates {
        made: 2,
        drained: 1,
        overwritten: 1,
        ..NONE
    };
    assert_eq!(rt; seen.fates, fates);
    let [published] = seen.published.as_slice() else {
        return Err(Fail::new("one copy is published"));
    };
    assert_eq!(rt; published.bank, 0);
    assert_eq!(rt; published.copy.status, 0x2008d);
    assert_eq!(rt; published.copy.address, 0x200);
    Ok(())
}

// a drain that was left before its copy of info
#[test]
fn a_drain_stops_on_its_way(rt: HostRuntime) -> Result<(), Fail> {
    let seen = play(rt.alloc(), TORN, b"r0 h0 h0 r0 h0")?;
    assert_eq!(rt; seen.idle, 0u64);
    let fates = Fates {
        made: 2,
        overwritten: 1,
        stands: 1,
        ..NONE
    };
    assert_eq!(rt; seen.fates, fates);
    let Some(bank) = &seen.bank else {
        return Err(Fail::new("there is a bank"));
    };
    assert_eq!(rt; bank.drain, Some((Phase::Info, 0)));
    assert!(rt; bank.asks);
    assert!(rt; bank.copies.is_empty());
    Ok(())
}

// a greater error comes between Check and invalidation
const STOOD: &[u8] = b"board 1 1
event 0x0 noinject
event 0x100000 noinject
bank 0 local 1
record 0 0 0x95 0
op ack 0
start 0 0x1000 100
reporter list
act 0 error 0 0 ce 0 1 0x100 0 0 1
act 0 error 0 0 uec 0 2 0x200 0 0 2
";

const STOOD_TRACE: &[u8] = b"1 r0 error 0 0 ce 0 1 0x100 0x0 0x0 0x1 = wrote 1
2 h0 scan 0 0
3 h0 claim 0 0
4 h0 read 0 0 address
5 h0 read 0 0 info
6 h0 read 0 0 supplement
7 h0 read 0 0 time
8 h0 check 0 0 published
9 r0 error 0 0 uec 0 2 0x200 0x0 0x0 0x2 = wrote 2
10 h0 invalidate 0 0 stood
11 h0 signal 0 1 0x100000
12 h0 ack 0 yes
13 h0 scan 0 0
14 h0 claim 0 0
15 h0 read 0 0 address
16 h0 read 0 0 info
17 h0 read 0 0 supplement
18 h0 read 0 0 time
19 h0 check 0 0 published
20 h0 invalidate 0 0 cleared
21 h0 signal 0 2 0x0
";

#[test]
fn a_newer_error_stands_and_is_drained_next(rt: HostRuntime) -> Result<(), Fail> {
    let seen = play(
        rt.alloc(),
        STOOD,
        b"r0 h0 h0 h0 h0 h0 h0 h0 r0 h0 h0 h0 h0 h0 h0 h0 h0 h0 h0 h0 h0",
    )?;
    assert_eq!(rt; seen.trace.as_slice(), STOOD_TRACE);
    let fates = Fates {
        made: 2,
        drained: 2,
        ..NONE
    };
    assert_eq!(rt; seen.fates, fates);
    let [first, second] = seen.published.as_slice() else {
        return Err(Fail::new("two copies are published"));
    };
    assert_eq!(rt; first.copy.address, 0x100);
    assert_eq!(rt; second.copy.status, 0x2008b);
    Ok(())
}

// errors of all ranks, in rising order
const RISING: &[u8] = b"board 1 1
event 0x0 noinject
bank 0 local 1
record 0 0 0x95 0
start 0 0 100
reporter list
act 0 error 0 0 ce 0 1 0x100 0 0 1
act 0 error 0 0 ce 1 2 0x200 0 0 2
act 0 error 0 0 ce 2 3 0x300 0 0 3
act 0 error 0 0 ce 3 4 0x400 0 0 4
act 0 error 0 0 ued 0 5 0x500 0 0 5
act 0 error 0 0 ued 1 6 0x600 0 0 6
act 0 error 0 0 ued 2 7 0x700 0 0 7
act 0 error 0 0 ued 3 8 0x800 0 0 8
act 0 error 0 0 uec 0 9 0x900 0 0 9
act 0 error 0 0 uec 1 10 0xa00 0 0 10
act 0 error 0 0 uec 2 11 0xb00 0 0 11
act 0 error 0 0 uec 3 12 0xc00 0 0 12
";

// a claim, an error that tears it, and the rest of that try, eleven times; then the last error's drain
const TRIES: &[u8] = b"r0 h0 \
h0 r0 h0 h0 h0 h0 h0 h0 r0 h0 h0 h0 h0 h0 h0 r0 h0 h0 h0 h0 h0 h0 r0 h0 h0 h0 h0 h0 \
h0 r0 h0 h0 h0 h0 h0 h0 r0 h0 h0 h0 h0 h0 h0 r0 h0 h0 h0 h0 h0 h0 r0 h0 h0 h0 h0 h0 \
h0 r0 h0 h0 h0 h0 h0 h0 r0 h0 h0 h0 h0 h0 h0 r0 h0 h0 h0 h0 h0 \
h0 h0 h0 h0 h0 h0 h0 h0";

#[test]
fn eleven_copies_are_torn_and_the_twelfth_is_whole(rt: HostRuntime) -> Result<(), Fail> {
    let seen = play(rt.alloc(), RISING, TRIES)?;
    assert_eq!(rt; seen.idle, 0u64);
    assert_eq!(rt; seen.steps, 87);
    assert_eq!(rt; seen.torn, 11);
    assert_eq!(rt; seen.published.len(), 1);
    let fates = Fates {
        made: 12,
        drained: 1,
        overwritten: 11,
        ..NONE
    };
    assert_eq!(rt; seen.fates, fates);
    Ok(())
}

// two errors of one rank
const SECOND: &[u8] = b"board 1 1
event 0x100000 noinject
bank 0 local 1
record 0 0 0x95 0
op nop
op ack 0
start 0 0x1000 100
reporter list
act 0 error 0 0 ce 1 3 0x1000 5 0 9
act 0 error 0 0 ce 1 4 0x2000 6 0 10
";

// the first is drained, and the second comes while the block is full
#[test]
fn a_second_error_waits_for_the_acknowledgement(rt: HostRuntime) -> Result<(), Fail> {
    let seen = play(rt.alloc(), SECOND, b"r0 h0 h0 h0 h0 h0 h0 h0 h0 h0 r0")?;
    assert_eq!(rt; seen.idle, 0u64);
    assert_eq!(rt; seen.published.len(), 1);
    let fates = Fates {
        made: 2,
        drained: 1,
        stands: 1,
        ..NONE
    };
    assert_eq!(rt; seen.fates, fates);
    let Some(bank) = &seen.bank else {
        return Err(Fail::new("there is a bank"));
    };
    let [copy] = bank.copies.as_slice() else {
        return Err(Fail::new("one copy stands in the slot"));
    };
    assert_eq!(rt; copy.status, 0x30093);
    assert_eq!(rt; copy.address, 0x1000);
    assert_eq!(rt; bank.drain, None);
    Ok(())
}

// then the next op is made, the block is acknowledged, and the second is drained too
#[test]
fn a_second_error_is_drained_after_it(rt: HostRuntime) -> Result<(), Fail> {
    let seen = play(
        rt.alloc(),
        SECOND,
        b"r0 h0 h0 h0 h0 h0 h0 h0 h0 h0 r0 h0 h0 h0 h0 h0 h0 h0 h0 h0 h0 h0 h0",
    )?;
    assert_eq!(rt; seen.idle, 1u64);
    let fates = Fates {
        made: 2,
        drained: 2,
        ..NONE
    };
    assert_eq!(rt; seen.fates, fates);
    Ok(())
}
