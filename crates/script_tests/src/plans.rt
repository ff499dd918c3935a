//! Texts that are read, and their plans.

ghost use Rattle.std.specs.Prelude.{Some};

use board_plan::{BankDecl, Op, Placed, Plan, RecDecl, Reg, Start, Step};
use board_script::read;
use ras_device::Act;
use reri_fields::{Report, Severity};
use sse_base::{EventDecl, EventId};
use std::alloc::Global;
use std::test::Fail;

// tabs, comments, empty lines, carriage returns, and no newline at the end
const WHOLE: &[u8] = b"# a board\r\n\r\n\tboard 2  9\r
event 0x4000 inject
event 0x8000 noinject
bank 8 local 63\t
bank 0 global 1
plat 0 0x4000
gather 1 2
record 0 62 0x95 7
op sbi 1 2 3
op set sepc 0x10
at 0x2000
op jlt 8 9 10
start 8 0x1000 100
reporter list
reporter device 7 50
act 0 error 1 2 uec 3 4 5 6 7 8
act 0 raise 0x8000 1
schedule h8 r1
schedule r00";

pub(crate) fn plan_of(alloc: Global, text: &[u8]) -> Result<Plan, Fail> {
    if text.len() > 4096 {
        return Err(Fail::new("a long text"));
    }
    Ok(read(alloc, text)?)
}

fn has_the_board(plan: &Plan) -> bool {
    let events = [
        EventDecl {
            id: EventId(0x4000),
            inject: true,
        },
        EventDecl {
            id: EventId(0x8000),
            inject: false,
        },
    ];
    let banks = [
        BankDecl {
            home: 8,
            global: false,
            recs: 63,
            plat: Some(0x4000),
            gather: 4,
        },
        BankDecl {
            home: 0,
            global: true,
            recs: 1,
            plat: None,
            gather: 2,
        },
    ];
    let recs = [RecDecl {
        bank: 0,
        rec: 62,
        control: 0x95,
        count: 7,
    }];
    plan.version == 2
        && plan.harts == 9
        && plan.events.as_slice() == events.as_slice()
        && plan.banks.as_slice() == banks.as_slice()
        && plan.recs.as_slice() == recs.as_slice()
}

fn has_the_program(plan: &Plan) -> bool {
    let ops = [
        Placed {
            pc: 0x1000,
            op: Op::Sbi {
                eid: 1,
                fid: 2,
                args: [3, 0, 0, 0, 0],
            },
        },
        Placed {
            pc: 0x1004,
            op: Op::Set {
                reg: Reg::Sepc,
                value: 16,
            },
        },
        Placed {
            pc: 0x2000,
            op: Op::Jlt {
                addr: 8,
                value: 9,
                pc: 10,
            },
        },
    ];
    let starts = [Start {
        hart: 8,
        pc: 0x1000,
        budget: 100,
    }];
    plan.ops.as_slice() == ops.as_slice() && plan.starts.as_slice() == starts.as_slice()
}

fn has_the_reporters(plan: &Plan) -> bool {
    let error = Act::Error(Report {
        bank: 1,
        rec: 2,
        severity: Severity::Uec,
        priority: 3,
        code: 4,
        address: 5,
        info: 6,
        supplement: 7,
        time: 8,
    });
    let raise = Act::Raise {
        id: 0x8000,
        hart: 1,
    };
    match plan.reporters.as_slice() {
        [first, second] => {
            first.device.is_none()
                && first.limit == 2
                && first.acts.as_slice() == [error, raise].as_slice()
                && second.device == Some(7)
                && second.limit == 50
                && second.acts.as_slice().is_empty()
        }
        _ => false,
    }
}

fn has_the_schedule(plan: &Plan) -> bool {
    let steps = [Step::Hart(8), Step::Reporter(1), Step::Reporter(0)];
    match &plan.schedule {
        None => false,
        Some(given) => given.as_slice() == steps.as_slice(),
    }
}

fn is_the_whole(plan: &Plan) -> bool {
    has_the_board(plan)
        && has_the_program(plan)
        && has_the_reporters(plan)
        && has_the_schedule(plan)
}

#[test]
fn reads_every_form(rt: HostRuntime) -> Result<(), Fail> {
    let plan = plan_of(rt.alloc(), WHOLE)?;
    assert!(rt; is_the_whole(&plan));
    Ok(())
}

#[test]
fn copies_a_plan(rt: HostRuntime) -> Result<(), Fail> {
    let plan = plan_of(rt.alloc(), WHOLE)?;
    assert!(rt; is_the_whole(&plan.copy(rt.alloc())?));
    Ok(())
}

#[test]
fn tells_an_empty_schedule_from_none(rt: HostRuntime) -> Result<(), Fail> {
    let given = plan_of(rt.alloc(), b"board 1 1\nschedule")?;
    let none = plan_of(rt.alloc(), b"board 1 1")?;
    assert!(rt; given.schedule.is_some());
    assert!(rt; none.schedule.is_none());
    Ok(())
}
