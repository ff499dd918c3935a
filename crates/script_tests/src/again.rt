//! Plans with everything in them, written and read again, part by part.

ghost use Rattle.std.specs.Prelude.{Some};

use crate::plans::plan_of;
use crate::texts::written;
use board_plan::Plan;
use board_script::moved;
use std::alloc::Global;
use std::test::Fail;

// every statement of version 1, ops of every form, an op behind a gap, and a schedule of 17 entries on two lines
const OLD: &[u8] = b"board 1 8
event 0xffff0000 inject
event 0x8000 noinject
event 0x00100000 noinject
event 0x4000 inject
bank 7 local 16
bank 0 global 1
plat 1 0x4000
record 0 15 0xff 65535
record 1 0 0 0
op nop
op sbi 0x535345 6 1 2 3 4 5
op set a6 18446744073709551615
op set a7 1
at 0xffff0000
op set sepc 0x10
op set spp 1
at 0x10
op set spie 0
op set sie 1
op load a6 8
op save sepc 16
op store 24 1
op inc 32
op jump 40
op jlt 48 9 56
op sret
op ack 255
op unplug 255
start 7 0 10000
start 0 18446744073709551615 0
reporter list
reporter device 0 0
reporter list
act 2 error 255 255 uec 3 255 1 2 3 4
act 0 raise 0xffffffff 255
act 0 error 0 0 ce 0 0 0 0 0 0
schedule h0 h1 h2 h3 h4 h5 h6 h7 r0 r1 r2 h0 h0 h0 h0 h0
schedule h7
";

// what only version 2 has, and a schedule that is given and has no entry
const NEW: &[u8] = b"board 2 32
event 0x0 inject
bank 31 global 63
bank 0 local 2
gather 0 1
gather 1 3
record 0 62 149 1
op nop
at 0x1008
op nop
op nop
start 31 0x1000 7
reporter device 7 10000
schedule
";

fn same_board(a: &Plan, b: &Plan) -> bool {
    a.version == b.version
        && a.harts == b.harts
        && a.events.as_slice() == b.events.as_slice()
        && a.banks.as_slice() == b.banks.as_slice()
        && a.recs.as_slice() == b.recs.as_slice()
}

fn same_program(a: &Plan, b: &Plan) -> bool {
    a.ops.as_slice() == b.ops.as_slice() && a.starts.as_slice() == b.starts.as_slice()
}

fn same_reporters(a: &Plan, b: &Plan) -> bool {
    if a.reporters.as_slice().len() != b.reporters.as_slice().len() {
        return false;
    }
    a.reporters
        .as_slice()
        .iter()
        .zip(b.reporters.as_slice())
        .all(|(x, y)| {
            x.device == y.device && x.limit == y.limit && x.acts.as_slice() == y.acts.as_slice()
        })
}

fn same_schedule(a: &Plan, b: &Plan) -> bool {
    match (&a.schedule, &b.schedule) {
        (None, None) => true,
        (Some(x), Some(y)) => x.as_slice() == y.as_slice(),
        _ => false,
    }
}

// the plan that is read from the text of a plan
fn again(alloc: Global, plan: &Plan) -> Result<Plan, Fail> {
    let text = written(alloc, plan)?;
    plan_of(alloc, text.as_slice())
}

#[test]
fn reads_again_what_it_wrote(rt: HostRuntime) -> Result<(), Fail> {
    for text in [OLD, NEW] {
        let plan = plan_of(rt.alloc(), text)?;
        let read = again(rt.alloc(), &plan)?;
        assert!(rt; same_board(&plan, &read));
        assert!(rt; same_program(&plan, &read));
        assert!(rt; same_reporters(&plan, &read));
        assert!(rt; same_schedule(&plan, &read));
    }
    Ok(())
}

#[test]
fn reads_again_what_it_moved(rt: HostRuntime) -> Result<(), Fail> {
    let old = plan_of(rt.alloc(), OLD)?;
    let mut plan = plan_of(rt.alloc(), OLD)?;
    moved(&mut plan);
    let read = again(rt.alloc(), &plan)?;
    assert_eq!(rt; read.version, 2);
    assert!(rt; same_board(&plan, &read));
    assert!(rt; same_program(&old, &read));
    assert!(rt; same_reporters(&old, &read));
    assert!(rt; same_schedule(&old, &read));
    Ok(())
}
