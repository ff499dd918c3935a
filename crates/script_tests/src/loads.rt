//! The texts of some loads: their first and last lines, their lengths, and that they are scripts. The lines and lengths
//! are those that `checks/load_script.py` writes.

use board_load::script;
use board_script::read;
use std::alloc::Global;
use std::test::Fail;

const MOST_BYTES: usize = 200_000;

const LINES: usize = 2113;

struct Row {
    n: u16,
    length: usize,
    records: &'static [u8],
    last: &'static [u8],
}

const HEAD: &[u8] = b"board 1 4
event 0x0 noinject
event 0x8000 noinject
event 0x100000 noinject
event 0x108000 noinject
event 0xffff0000 inject
bank 0 local 4
bank 1 local 4
bank 2 global 4
";

const ROWS: [Row; 3] = [
    Row {
        n: 0,
        length: 84017,
        records: b"record 0 0 0x95 0\nrecord 0 1 0x97 0\n",
        last: b"\nact 3 error 1 2 ce 2 55 16384 499 0 499\n",
    },
    Row {
        n: 7,
        length: 83989,
        records: b"record 0 0 0x97 0\nrecord 0 1 0x95 0\n",
        last: b"\nact 3 error 2 3 ce 2 11 221184 499 0 499\n",
    },
    Row {
        n: 1000,
        length: 84024,
        records: b"record 0 0 0x95 0\nrecord 0 1 0x97 0\n",
        last: b"\nact 3 error 0 0 ce 2 203 147456 499 0 499\n",
    },
];

fn script_of(alloc: Global, n: u16) -> Result<Vec<u8>, Fail> {
    if n > 1000 {
        return Err(Fail::new("no load has that number"));
    }
    Ok(script(alloc, n)?)
}

// the text begins with the head and then these lines
fn begins_with(text: &[u8], records: &[u8]) -> bool {
    match text.strip_prefix(HEAD) {
        Some(rest) => rest.starts_with(records),
        None => false,
    }
}

fn count_lines(text: &[u8]) -> usize {
    text.iter().filter(|byte| **byte == b'\n').count()
}

#[test]
fn has_the_lines_of_its_number(rt: HostRuntime) -> Result<(), Fail> {
    for row in ROWS.as_slice() {
        let text = script_of(rt.alloc(), row.n)?;
        assert_eq!(rt; text.len(), row.length);
        assert_eq!(rt; count_lines(text.as_slice()), LINES);
        assert!(rt; begins_with(text.as_slice(), row.records));
        assert!(rt; text.as_slice().ends_with(row.last));
    }
    Ok(())
}

// how many ops and reporters a plan has, and how many acts the last of them
fn sizes(alloc: Global, text: &[u8]) -> Result<(usize, usize, usize), Fail> {
    if text.len() > MOST_BYTES {
        return Err(Fail::new("a long text"));
    }
    let plan = read(alloc, text)?;
    let acts = plan
        .reporters
        .as_slice()
        .last()
        .map_or(0, |last| last.acts.as_slice().len());
    Ok((
        plan.ops.as_slice().len(),
        plan.reporters.as_slice().len(),
        acts,
    ))
}

#[test]
fn is_a_script(rt: HostRuntime) -> Result<(), Fail> {
    for row in ROWS.as_slice() {
        let text = script_of(rt.alloc(), row.n)?;
        assert_eq!(rt; sizes(rt.alloc(), text.as_slice())?, (72, 4, 500));
    }
    Ok(())
}
