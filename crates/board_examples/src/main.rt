//! Plays the example scripts, and compares the trace and the report of each with what its page shows.
#![tactic(auto)]

use board_run::{Status, play};
use ras_io::{MemSink, MemSource};
use std::process::ExitCode;
use std::rt::Files;
use std::{fs, io};

/// How many bytes are written at most.
const ROOM: usize = 65_536;

/// The scripts, each with the trace and report that come of it.
const EXAMPLES: [(&str, &str); 7] = [
    ("first-event.script", "first-event.report"),
    ("preemption.script", "preemption.report"),
    ("oneshot.script", "oneshot.report"),
    ("following-the-masks.script", "following-the-masks.report"),
    ("torn-drain.script", "torn-drain.report"),
    ("gathered-copies.script", "gathered-copies.report"),
    ("two-harts.script", "two-harts.report"),
];

/// Whether a script has this trace and report.
fn is_as_shown<R: Files + AllocGlobal>(rt: &R, script: &str, report: &str) -> io::Result<bool> {
    let text = fs::read(rt, script)?;
    let wanted = fs::read(rt, report)?;
    let mut source = MemSource::new(text, 4096, Vec::new(rt.alloc()));
    let Ok(mut sink) = MemSink::new(rt.alloc(), ROOM, Vec::new(rt.alloc())) else {
        return Ok(false);
    };
    let words = ["play", "--trace"];
    let alloc = rt.alloc();
    let status = play(
        alloc,
        words.as_slice(),
        &mut source,
        &mut sink,
        Vec::new(alloc),
    );
    Ok(status == Status::Ok && sink.bytes() == wanted.as_slice())
}

/// Plays all examples, and says of each whether it is as shown. True where all are.
fn play_all<R: Files + Print + AllocGlobal>(rt: &R) -> io::Result<bool> {
    let mut all = true;
    for (script, report) in EXAMPLES {
        let right = is_as_shown(rt, script, report)?;
        let said = if right { "as shown" } else { "otherwise" };
        println!(rt; "{script}: {said}")?;
        all = all && right;
    }
    Ok(all)
}

fn main(rt: HostRuntime) -> ExitCode {
    match play_all(&rt) {
        Ok(true) => ExitCode::SUCCESS,
        Ok(false) => ExitCode::FAILURE,
        Err(error) => {
            let _ = rt.eprintln(error);
            ExitCode::FAILURE
        }
    }
}
