//! Random lists of calls on a board that has everything.

use crate::bench::play_drawn;
use std::test::Fail;

// events of both scopes, banks of both scopes, gathered copies, two reporters, acknowledgements and an unplug
const EVERYTHING: &[u8] = b"board 2 3
event 0x0 noinject
event 0x8000 inject
event 0x100000 inject
event 0xffff4000 inject
bank 0 local 2
bank 2 global 3
plat 0 0xffff4000
gather 0 2
gather 1 3
record 0 0 0x95 0
record 0 1 0xd7 65534
record 1 0 0x95 0
record 1 1 0x9b 0
record 1 2 0x01 0
op sbi 0x535345 8
op sbi 0x535345 2 0x8000 0x2000 7
op sbi 0x535345 4 0x8000
op sbi 0x535345 2 0x0 0x2100 8
op sbi 0x535345 4 0x0
op sbi 0x535345 7 0x8000 0
op store 0x80000000 5
op sbi 0x535345 1 0x8000 1 1 0x80000000 0
op ack 0
op jump 0x1014
at 0x2000
op inc 0x80000008
op set a6 3
op sbi 0x535345 0 0x8000 0 10 0x80000100 0
op ack 1
op sbi 0x535345 6
at 0x2100
op inc 0x80000010
op jlt 0x80000010 3 0x2110
op unplug 1
op nop
op sbi 0x535345 6
start 0 0x1000 400
start 1 0x1000 300
start 2 0x1000 200
reporter list
reporter list
act 0 error 0 0 ce 0 1 0x100 0 0 1
act 0 error 0 1 ce 1 2 0x200 0 0 2
act 0 error 0 0 uec 2 3 0x300 0 0 3
act 0 error 1 2 ued 3 4 0x400 0 0 4
act 0 raise 0x8000 0
act 0 error 0 1 ce 1 5 0x500 0 0 5
act 0 error 1 0 ued 0 6 0x600 0 0 6
act 1 error 1 1 uec 1 7 0x700 0 0 7
act 1 raise 0x0 1
act 1 error 1 0 uec 2 8 0x800 0 0 8
act 1 error 7 0 ce 0 9 0x900 0 0 9
act 1 error 1 1 ce 0 10 0xa00 0 0 10
act 1 raise 0x100000 2
";

#[test]
fn the_same_calls_leave_the_same_board(rt: HostRuntime) -> Result<(), Fail> {
    for seed in 1..6u64 {
        let a = play_drawn(rt.alloc(), EVERYTHING, seed, 400)?;
        let b = play_drawn(rt.alloc(), EVERYTHING, seed, 400)?;
        assert!(rt; a.steps > 200);
        assert_eq!(rt; a.idle, b.idle);
        assert_eq!(rt; a.trace.as_slice(), b.trace.as_slice());
        assert_eq!(rt; a.published.as_slice(), b.published.as_slice());
        assert_eq!(rt; a.fates, b.fates);
        assert_eq!(rt; a.regs, b.regs);
    }
    Ok(())
}
