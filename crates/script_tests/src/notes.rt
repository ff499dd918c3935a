//! The text of notes.

ghost use Rattle.std.specs.Prelude.{◌≡◌, ◌∷◌, [], IsTrue};
ghost use Rattle.board_plan.specs.declared.notes.StepNote.TheVariants as note;
ghost use Rattle.board_plan.specs.Notes.{has_text};

use board_plan::{Reg, StepNote, note_text};
use ras_io::MemSink;
use ras_text::Line;
use reri_fields::{Logged, Report, Severity};
use sse_base::SbiCode;
use std::alloc::Global;
use std::test::Fail;

const ERROR: Report = Report {
    bank: 0,
    rec: 3,
    severity: Severity::Ued,
    priority: 1,
    code: 17,
    address: 0x100,
    info: 0,
    supplement: 10,
    time: 1,
};

// a call of write_attrs for two attributes
fn write(code: SbiCode, written: [u64; 10]) -> StepNote
    ensures { result ≡ note.Call 0x535345 1 (0x8000 ∷ 1 ∷ 2 ∷ 0x80000000 ∷ 0 ∷ []) code written }
{
    StepNote::Call {
        eid: 0x535345,
        fid: 1,
        args: [0x8000, 1, 2, 0x80000000, 0],
        code,
        written,
    }
}

// whether the note has this text
fn reads(alloc: Global, note: StepNote, text: &[u8]) -> Result<bool, Fail>
    requires { IsTrue (has_text note) }
{
    let mut sink = MemSink::new(alloc, 512, Vec::new(alloc))?;
    let mut line = Line::new(&mut sink);
    note_text(&mut line, &note);
    line.end()?;
    Ok(sink.bytes() == text)
}

#[test]
fn writes_notes_of_drains(rt: HostRuntime) -> Result<(), Fail> {
    let alloc = rt.alloc();
    let over = StepNote::Scan { bank: 3, rec: None };
    let read = StepNote::Read {
        bank: 0,
        rec: 15,
        register: 4,
    };
    let none = StepNote::Signal {
        bank: 1,
        level: 2,
        id: None,
    };
    let torn = StepNote::Check {
        bank: 0,
        rec: 1,
        torn: true,
    };
    let stood = StepNote::Invalidate {
        bank: 0,
        rec: 1,
        cleared: false,
    };
    assert!(rt; reads(alloc, over, b"scan 3 over\n")?);
    assert!(rt; reads(alloc, read, b"read 0 15 supplement\n")?);
    assert!(rt; reads(alloc, none, b"signal 1 2 none\n")?);
    assert!(rt; reads(alloc, torn, b"check 0 1 torn\n")?);
    assert!(rt; reads(alloc, stood, b"invalidate 0 1 stood\n")?);
    Ok(())
}

#[test]
fn writes_notes_of_ops(rt: HostRuntime) -> Result<(), Fail> {
    let alloc = rt.alloc();
    let denied = b"call 0x535345 0x1 0x8000 0x1 0x2 0x80000000 0x0 = -4\n".as_slice();
    let taken = b"call 0x535345 0x1 0x8000 0x1 0x2 0x80000000 0x0 = 0 : 0x5 0xff\n".as_slice();
    let load = StepNote::Load {
        reg: Reg::Spp,
        value: 1,
    };
    let ack = StepNote::Ack { bank: 9, was: None };
    assert!(rt; reads(alloc, write(SbiCode::Denied, [0; 10]), denied)?);
    assert!(rt;
        reads(
            alloc,
            write(SbiCode::Success, [5, 255, 0, 0, 0, 0, 0, 0, 0, 0]),
            taken
        )?
    );
    assert!(rt; reads(alloc, load, b"load spp 0x1\n")?);
    assert!(rt; reads(alloc, ack, b"ack 9 none\n")?);
    Ok(())
}

#[test]
fn writes_notes_of_acts(rt: HostRuntime) -> Result<(), Fail> {
    let alloc = rt.alloc();
    let wrote = StepNote::Error {
        report: ERROR,
        logged: Some(Logged::Wrote { level: 2 }),
    };
    let stray = StepNote::Error {
        report: ERROR,
        logged: None,
    };
    let raise = StepNote::Raise {
        id: 0x10000,
        hart: 7,
        signalled: false,
    };
    assert!(rt;
        reads(
            alloc,
            wrote,
            b"error 0 3 ued 1 17 0x100 0x0 0xa 0x1 = wrote 2\n"
        )?
    );
    assert!(rt;
        reads(
            alloc,
            stray,
            b"error 0 3 ued 1 17 0x100 0x0 0xa 0x1 = stray\n"
        )?
    );
    assert!(rt; reads(alloc, raise, b"raise 0x10000 7 stray\n")?);
    Ok(())
}
