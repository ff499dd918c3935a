//! The codes of calls in a row on one event, ids, and the order of instances.

use crate::acts::injectable;
use sse_base::{AttrRange, EventId, Instance, SbiCode};
use sse_table::Table;
use std::process::Abort;
use std::test::Fail;

#[test]
fn codes_in_a_row(rt: HostRuntime) -> Result<(), Fail> {
    let mut table = Table::new(rt.alloc(), 1, &[injectable(0xffff_0000)])?;
    let found = table.find(0xffff_0000, 0);
    assert!(rt; found.is_ok());
    if let Ok(at) = found {
        assert_eq!(rt; table.get_attr(at, 0), 8);
        assert_eq!(rt; table.register(at, 0x1001, 0), SbiCode::InvalidParam);
        assert_eq!(rt; table.register(at, 0x1002, 0), SbiCode::Success);
        assert_eq!(rt; table.register(at, 0x1002, 0), SbiCode::InvalidState);
        table.signal(at);
        assert_eq!(rt; table.get_attr(at, 0), 0xd);
        assert_eq!(rt; table.enable(at), SbiCode::Success);
        assert_eq!(rt; table.unregister(at), SbiCode::InvalidState);
        assert_eq!(rt; table.disable(at), SbiCode::Success);
    }
    Ok(())
}

/// The first attribute of a range, the values, and what a write of them is answered.
type Write = (u8, &'static [u64], SbiCode);

/// Writes to an unused local event.
const TO_A_LOCAL: [Write; 8] = [
    (0, &[0, 5], SbiCode::Denied),
    (1, &[5, 1, 0], SbiCode::Denied),
    (1, &[5], SbiCode::Success),
    (3, &[0], SbiCode::Denied),
    (6, &[0], SbiCode::InvalidState),
    (2, &[2], SbiCode::InvalidParam),
    (2, &[1], SbiCode::Success),
    (1, &[5, 2], SbiCode::InvalidParam),
];

/// Writes to an unused global event of a board of one hart.
const TO_A_GLOBAL: [Write; 3] = [
    (3, &[1], SbiCode::InvalidParam),
    (3, &[0], SbiCode::Success),
    (1, &[0xffff_ffff, 1, 0], SbiCode::Success),
];

/// Asks for each write to the one event of a board of one hart.
fn all_answer(rt: &impl Abort, table: &Table, id: u64, writes: &[Write]) {
    let Ok(at) = table.find(id, 0) else {
        assert!(rt; false);
        return;
    };
    for (i, (base, values, wanted)) in writes.iter().enumerate() {
        assert!(rt; *base <= 10 && values.len() <= (10 - *base) as usize);
        let range = AttrRange {
            base: *base,
            count: values.len() as u8,
        };
        let given = table.check_write(at, range, values, false);
        assert_eq!(rt; given, *wanted, "write {i}");
    }
}

#[test]
fn checks_of_writes(rt: HostRuntime) -> Result<(), Fail> {
    let table = Table::new(rt.alloc(), 1, &[injectable(0xffff_0000)])?;
    all_answer(&rt, &table, 0xffff_0000, &TO_A_LOCAL);
    let table = Table::new(rt.alloc(), 1, &[injectable(0xffff_8000)])?;
    all_answer(&rt, &table, 0xffff_8000, &TO_A_GLOBAL);
    Ok(())
}

#[test]
fn ids(rt: HostRuntime) -> Result<(), Fail> {
    let table = Table::new(rt.alloc(), 1, &[injectable(0xffff_0000)])?;
    let rows = [
        (0x2, SbiCode::InvalidParam),
        (0x1, SbiCode::NotSupported),
        (0x1_0000, SbiCode::NotSupported),
        (0x4000, SbiCode::NotSupported),
        (0x1_0000_0000, SbiCode::InvalidParam),
    ];
    for (id, code) in rows {
        assert_eq!(rt; table.find(id, 0), Err(code), "at {id}");
    }
    Ok(())
}

#[test]
fn instances_by_id_and_then_by_hart(rt: HostRuntime) -> Result<(), Fail> {
    let decls = [injectable(0x1_0000), injectable(0x8000), injectable(0)];
    let table = Table::new(rt.alloc(), 2, &decls)?;
    let rows = [
        Instance::Local {
            id: EventId(0),
            hart: 0,
        },
        Instance::Local {
            id: EventId(0),
            hart: 1,
        },
        Instance::Global {
            id: EventId(0x8000),
        },
        Instance::Local {
            id: EventId(0x1_0000),
            hart: 0,
        },
        Instance::Local {
            id: EventId(0x1_0000),
            hart: 1,
        },
    ];
    assert_eq!(rt; table.instances(), 5);
    let mut i = 0;
    for at in rows {
        assert!(rt; i < table.instances());
        assert_eq!(rt; table.instance(i), at);
        i += 1;
    }
    Ok(())
}
