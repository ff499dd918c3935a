//! Scripts that are run.

/// Four harts, three banks, a device of a hundred errors and a list of one.
pub(crate) const REALISTIC: &[u8] = b"board 1 4
event 0x0 noinject
event 0x8000 noinject
event 0x100000 noinject
bank 0 local 4
bank 1 local 4
bank 2 global 2
record 0 0 0x97 0
record 1 0 0x95 0
record 2 0 0x95 0
op store 0x80000000 1
op store 0x80000008 5
op store 0x80000010 9
op sbi 0x535345 1 0x0 1 1 0x80000000 0
op sbi 0x535345 1 0x8000 1 1 0x80000008 0
op sbi 0x535345 1 0x100000 1 1 0x80000010 0
op sbi 0x535345 2 0x0 0x2000 0
op sbi 0x535345 4 0x0
op sbi 0x535345 2 0x8000 0x2100 0
op sbi 0x535345 4 0x8000
op sbi 0x535345 2 0x100000 0x2200 0
op sbi 0x535345 4 0x100000
op sbi 0x535345 8
at 0x2000
op inc 0x80000100
op ack 0
op ack 1
op sbi 0x535345 6
at 0x2100
op inc 0x80000108
op ack 2
op sbi 0x535345 6
at 0x2200
op inc 0x80000110
op ack 0
op ack 1
op sbi 0x535345 6
start 0 0x1000 1000
start 1 0x1000 1000
start 2 0x1000 1000
start 3 0x1000 1000
reporter device 0 100
reporter list
act 1 error 1 0 uec 3 17 0x40000 0 0 1
";

/// What stands in its report, whatever the schedule.
pub(crate) const REALISTIC_LINES: [&str; 3] = [
    "board 1 harts 4 banks 3 reporters 2 steps 168",
    "fates made 101 stray 0 disabled 0 counted 100 drained 1 overwritten 0 kept 0 stands 0",
    "word 0x80000100 0x1",
];

/// A hart that unplugs the reporter of a device.
pub(crate) const UNPLUGS: &[u8] = b"board 1 1
op unplug 0
start 0 0x1000 10
reporter device 0 5
";

/// Its report, where the hart was first.
pub(crate) const UNPLUGS_OUT: &[u8] = b"board 1 harts 1 banks 0 reporters 1 steps 1
hart 0 steps 1 masked 1 pc 0x1004 priv S sie 0 sepc 0x0 spp 0 spie 0 a6 0x0 a7 0x0 depth 0 calls 0 failed 0 last 0
fates made 0 stray 0 disabled 0 counted 0 drained 0 overwritten 0 kept 0 stands 0
schedule h0
end
";

/// Calls that are refused, a store outside memory, and a jump to where no op stands.
pub(crate) const WILD: &[u8] = b"board 1 1
event 0xffff0000 inject
op sbi 0x535345 6
op sbi 0x0 0
op sbi 0x535345 10
op sbi 0x535345 3 0xffff0000
op store 0x80001000 1
op jump 0x7
start 0 0x1000 100
";

pub(crate) const WILD_OUT: &[u8] = b"board 1 harts 1 banks 0 reporters 0 steps 6
hart 0 steps 6 masked 1 pc 0x7 priv S sie 0 sepc 0x0 spp 0 spie 0 a6 0x0 a7 0x0 depth 0 calls 4 failed 3 last -10
event 0xffff0000 hart 0 state 0 pending 0 priority 0 config 0 preferred 0 entry 0x0 arg 0x0
fates made 0 stray 0 disabled 0 counted 0 drained 0 overwritten 0 kept 0 stands 0
schedule h0 h0 h0 h0 h0 h0
end
";

/// A device that gives all that it has, one that a hart unplugs, and one that nobody names.
pub(crate) const THREE_DEVICES: &[u8] = b"board 1 1
bank 0 local 1
record 0 0 0x97 0
op unplug 1
start 0 0x1000 10
reporter device 0 5
reporter device 2 5
";
