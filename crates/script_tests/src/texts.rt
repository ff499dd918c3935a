//! Plans that are written, read again and moved.

ghost use Rattle.std.specs.Prelude.{Some};

use crate::plans::plan_of;
use board_plan::Plan;
use board_script::{moved, write};
use ras_io::MemSink;
use std::alloc::Global;
use std::test::Fail;

const FIRST: &[u8] = b"board 1 1
event 0xffff0000 inject
at 0x1000
op sbi 0x535345 8
op sbi 0x535345 2 0xffff0000 0x2000 7
op sbi 0x535345 4 0xffff0000
op sbi 0x535345 7 0xffff0000 0
at 0x2000
op inc 0x80000000
op sbi 0x535345 6
start 0 0x1000 100
";

// as it is written, and as it is written once it was moved: all but the first line
const FIRST_LINES: &[u8] = b" 1
event 4294901760 inject
op sbi 5460805 8 0 0 0 0 0
op sbi 5460805 2 4294901760 8192 7 0 0
op sbi 5460805 4 4294901760 0 0 0 0
op sbi 5460805 7 4294901760 0 0 0 0
at 8192
op inc 2147483648
op sbi 5460805 6 0 0 0 0 0
start 0 4096 100
";

// every form, as it is written; 17 entries stand on two lines
const WHOLE: &[u8] = b"board 2 2
event 16384 inject
event 0 noinject
bank 1 global 3
plat 0 16384
gather 0 2
bank 0 local 63
record 0 2 149 7
op nop
at 8192
op set sie 1
op load a6 8
op save a7 16
op store 24 1
op jlt 8 9 10
op jump 0
at 8192000
op sret
op ack 3
op unplug 4
start 1 4096 100
reporter list
act 0 raise 16384 1
act 0 error 0 1 uec 3 4 5 6 7 8
reporter device 7 50
schedule h1 r0 h1 h1 h1 h1 h1 h1 h1 h1 h1 h1 h1 h1 h1 r1
schedule h0
";

pub(crate) fn written(alloc: Global, plan: &Plan) -> Result<Vec<u8>, Fail> {
    let mut sink = MemSink::new(alloc, 4096, Vec::new(alloc))?;
    write(plan, &mut sink)?;
    Ok(Vec::from_slice(alloc, sink.bytes())?)
}

fn first_text(alloc: Global, board: &[u8]) -> Result<Vec<u8>, Fail> {
    let mut text = Vec::from_slice(alloc, board)?;
    text.extend_from_slice(FIRST_LINES)?;
    Ok(text)
}

#[test]
fn writes_the_first_script(rt: HostRuntime) -> Result<(), Fail> {
    let plan = plan_of(rt.alloc(), FIRST)?;
    let text = first_text(rt.alloc(), b"board 1")?;
    assert_eq!(rt; written(rt.alloc(), &plan)?.as_slice(), text.as_slice());
    let again = plan_of(rt.alloc(), text.as_slice())?;
    assert_eq!(rt; written(rt.alloc(), &again)?.as_slice(), text.as_slice());
    Ok(())
}

#[test]
fn moves_the_first_script(rt: HostRuntime) -> Result<(), Fail> {
    let mut plan = plan_of(rt.alloc(), FIRST)?;
    moved(&mut plan);
    let text = first_text(rt.alloc(), b"board 2")?;
    assert_eq!(rt; written(rt.alloc(), &plan)?.as_slice(), text.as_slice());
    Ok(())
}

#[test]
fn keeps_gathering_one_when_moved(rt: HostRuntime) -> Result<(), Fail> {
    let mut plan = plan_of(rt.alloc(), b"board 1 1\nbank 0 local 1\nschedule\n")?;
    moved(&mut plan);
    let text = b"board 2 1\nbank 0 local 1\ngather 0 1\nschedule\n".as_slice();
    assert_eq!(rt; written(rt.alloc(), &plan)?.as_slice(), text);
    Ok(())
}

#[test]
fn writes_every_form(rt: HostRuntime) -> Result<(), Fail> {
    let plan = plan_of(rt.alloc(), WHOLE)?;
    assert_eq!(rt; written(rt.alloc(), &plan)?.as_slice(), WHOLE);
    Ok(())
}
