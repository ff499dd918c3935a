//! Steps of reporters: errors and raises that hit nothing, and a reporter that is unplugged.

ghost use Rattle.std.specs.Prelude.{Some};

use crate::bench::play;
use ras_device::Act;
use std::test::Fail;

// a record, an event and a hart that the board hasn't, and an event that it has
const STRAY: &[u8] = b"board 1 1
event 0xffff0000 inject
start 0 0x1000 0
reporter list
act 0 error 9 0 ce 0 0 0 0 0 0
act 0 raise 0x10000 0
act 0 raise 0xffff0000 7
act 0 raise 0xffff0000 0
";

const STRAY_TRACE: &[u8] = b"1 r0 error 9 0 ce 0 0 0x0 0x0 0x0 0x0 = stray
2 r0 raise 0x10000 0 stray
3 r0 raise 0xffff0000 7 stray
4 r0 raise 0xffff0000 0 signalled
";

#[test]
fn what_hits_nothing_is_stray(rt: HostRuntime) -> Result<(), Fail> {
    let seen = play(rt.alloc(), STRAY, b"r0 r0 r0 r0 r0 h0")?;
    assert_eq!(rt; seen.idle, 2u64);
    assert_eq!(rt; seen.trace.as_slice(), STRAY_TRACE);
    assert_eq!(rt; seen.fates.made, 1);
    assert_eq!(rt; seen.fates.stray, 1);
    assert!(rt; !seen.wants);
    assert_eq!(rt; seen.listed, None);
    Ok(())
}

// the other hart unplugs the reporter of two errors
const UNPLUG: &[u8] = b"board 1 2
bank 0 local 1
record 0 0 0x95 0
op unplug 0
start 0 0 100
start 1 0x1000 100
reporter list
act 0 error 0 0 ce 0 1 0x100 0 0 1
act 0 error 0 0 ce 0 2 0x200 0 0 2
";

const UNPLUG_TRACE: &[u8] = b"1 r0 error 0 0 ce 0 1 0x100 0x0 0x0 0x1 = wrote 1
2 h0 scan 0 0
3 h0 claim 0 0
4 h1 unplug 0 yes
5 h0 read 0 0 address
6 h0 read 0 0 info
7 h0 read 0 0 supplement
8 h0 read 0 0 time
9 h0 check 0 0 published
10 h0 invalidate 0 0 cleared
11 h0 signal 0 1 none
";

#[test]
fn an_unplugged_reporter_makes_no_more(rt: HostRuntime) -> Result<(), Fail> {
    let seen = play(
        rt.alloc(),
        UNPLUG,
        b"r0 h0 h0 h1 r0 h0 h0 h0 h0 h0 h0 h0 r0 h0",
    )?;
    assert_eq!(rt; seen.idle, 3u64);
    assert_eq!(rt; seen.trace.as_slice(), UNPLUG_TRACE);
    assert_eq!(rt; seen.fates.made, 1);
    assert_eq!(rt; seen.fates.drained, 1);
    assert!(rt; !seen.wants);
    let [Act::Error(made)] = seen.acts.as_slice() else {
        return Err(Fail::new("one error was made"));
    };
    assert_eq!(rt; made.address, 0x100);
    let Some(Act::Error(next)) = seen.listed else {
        return Err(Fail::new("one error is left"));
    };
    assert_eq!(rt; next.address, 0x200);
    Ok(())
}
