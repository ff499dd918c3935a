//! The program `rasboard`: it does what its words say with the script on standard input, and prints what comes of it.
#![tactic(auto)]

use board_end::{Failure, ended};
use board_lock::OpenGate;
use board_run::{Status, play, run};
use ras_device::{ErrorDevice, Scrubber, Silent, Storm};
use ras_io::{Sink, Source, StdSink, StdSource};
use ras_pulse::{Chain, CountdownDevice, PmuDevice};
use std::alloc::AllocError;
use std::io::{self, ErrorKind};
use std::process::ExitCode;
use std::rt::Env;
use std::sync::Wait;
use std::thread::Threads;

/// The command-line words behind the program's name. Usage comes where one of them isn't UTF-8.
fn words<R: Env + AllocGlobal>(rt: &R) -> Result<Vec<String>, Failure> {
    let mut words = Vec::new(rt.alloc());
    let args = std::env::args(rt).map_err(|e| match e.kind() {
        ErrorKind::InvalidData => Failure::Usage,
        _ => Failure::NoMemory,
    })?;
    for word in args.skip(1) {
        words.push(word).map_err(|_| Failure::NoMemory)?;
    }
    Ok(words)
}

/// The same words as texts.
fn texts<'a, R: AllocGlobal>(rt: &R, words: &'a [String]) -> Result<Vec<&'a str>, Failure> {
    let mut texts = Vec::new(rt.alloc());
    for word in words {
        texts.push(word.as_str()).map_err(|_| Failure::NoMemory)?;
    }
    Ok(texts)
}

/// The event that software raises.
const SOFTWARE: u32 = 0xffff_0000;

/// Whether the words are for `run`.
fn is_run(words: &[&str]) -> bool {
    match words.first() {
        Some(name) => name.as_bytes() == b"run".as_slice(),
        None => false,
    }
}

/// Does what the words say with the devices that every run has: a scrubber of record 0 of bank 0, a storm on its first
/// four records, a silent one, the overflows of a counter on hart 0, a countdown on hart 0, and on hart 1 a countdown
/// and then overflows. Where there is no memory for them nothing is done.
fn act<R: AllocGlobal + Threads + Wait + Sync, S: Source, K: Sink>(
    rt: &R,
    words: &[&str],
    source: &mut S,
    sink: &mut K,
) -> Result<Status, AllocError> {
    let alloc = rt.alloc();
    let mut devices: Vec<Box<dyn ErrorDevice + Send>> = Vec::new(alloc);
    devices.push(Box::new(alloc, Scrubber::new(0, 0, 100))?)?;
    devices.push(Box::new(alloc, Storm::new(0, 4, 100))?)?;
    devices.push(Box::new(alloc, Silent::new())?)?;
    devices.push(Box::new(alloc, PmuDevice::new(0, 3, 10))?)?;
    devices.push(Box::new(alloc, CountdownDevice::new(SOFTWARE, 0, 10))?)?;
    let countdown = CountdownDevice::new(SOFTWARE, 1, 5);
    devices.push(Box::new(alloc, Chain::new(countdown, PmuDevice::new(1, 1, 5)))?)?;
    if is_run(words) {
        return Ok(run(rt, alloc, words, source, sink, devices, &OpenGate));
    }
    Ok(play(alloc, words, source, sink, devices))
}

/// Does what the words say with what comes in. What waits in the sink goes out before the ending is chosen.
fn answer<R: Env + Input + Print + AllocGlobal + Threads + Wait + Sync>(
    rt: &R,
) -> Result<(), Failure> {
    let words = words(rt)?;
    let texts = texts(rt, words.as_slice())?;
    let mut source = StdSource::new(rt.reader());
    let mut sink = StdSink::new(rt.alloc(), io::writer(rt)).map_err(|_| Failure::NoMemory)?;
    let status = act(rt, texts.as_slice(), &mut source, &mut sink).map_err(|_| Failure::NoMemory)?;
    let flushed = sink.flush();
    ended(status, flushed)
}

fn main(rt: HostRuntime) -> ExitCode {
    match answer(&rt) {
        Ok(()) => ExitCode::SUCCESS,
        Err(failure) => {
            let _ = rt.eprintln(failure);
            ExitCode::from(failure.number())
        }
    }
}
