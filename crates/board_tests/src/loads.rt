//! Loads that are played. The report is that of `checks/board_model.py load 7`.

use crate::commands::{is_usage, outcome, writes};
use board_load::script;
use board_run::Status;
use std::test::Fail;

const REPORT: &[u8] = b"board 1 harts 4 banks 3 reporters 4 steps 7897
fates made 2000 stray 0 disabled 0 counted 739 drained 107 overwritten 125 kept 1029 stands 0
end
";

const FIRST: &[u8] = b"board 1 harts 4 banks 3 reporters 4 steps 7897\n";

#[test]
fn plays_the_load_of_a_number(rt: HostRuntime) -> Result<(), Fail> {
    for word in ["7", "07", "0007"] {
        assert!(rt; writes(rt.alloc(), &["load", word], b"", REPORT)?, "{word}");
    }
    Ok(())
}

#[test]
fn writes_what_its_script_gives_in_short(rt: HostRuntime) -> Result<(), Fail> {
    let text = script(rt.alloc(), 7)?;
    assert!(rt; writes(rt.alloc(), &["play", "--short"], text.as_slice(), REPORT)?);
    Ok(())
}

#[test]
fn reads_nothing(rt: HostRuntime) -> Result<(), Fail> {
    let (status, bytes) = outcome(rt.alloc(), &["load", "0"], b"no script", 4096, &[0], &[])?;
    assert_eq!(rt; status, Status::Ok);
    assert!(rt;
        bytes
            .as_slice()
            .starts_with(b"board 1 harts 4 banks 3 reporters 4 steps ")
    );
    Ok(())
}

#[test]
fn writes_the_lines_before_a_write_that_failed(rt: HostRuntime) -> Result<(), Fail> {
    let (status, bytes) = outcome(rt.alloc(), &["load", "7"], b"", 4096, &[], &[1])?;
    assert_eq!(rt; status, Status::WriteFault);
    assert!(rt; bytes.as_slice() == FIRST);
    Ok(())
}

#[test]
fn takes_no_other_words(rt: HostRuntime) -> Result<(), Fail> {
    let lists: [&[&str]; 12] = [
        &["load"],
        &["load", ""],
        &["load", "1001"],
        &["load", "9999"],
        &["load", "00007"],
        &["load", "0x7"],
        &["load", "-7"],
        &["load", "+7"],
        &["load", "7 "],
        &["load", "7", "8"],
        &["play", "7"],
        &["Load", "7"],
    ];
    for words in lists {
        assert!(rt; is_usage(rt.alloc(), words, b"board 1 1\n")?);
    }
    Ok(())
}
