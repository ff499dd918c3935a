//! The plan that a script gives.

ghost use Rattle.std.specs.Prelude.{◌≡◌, IfOk};

use crate::list::List;
use crate::notes::Step;
use crate::ops::Placed;
use ras_device::Act;
use ras_io::NoMemory;
use sse_base::EventDecl;
use std::alloc::Global;

/// A bank of error records.
#[derive(Clone, Copy, Debug, PartialEq, Eq)]
pub struct BankDecl {
    /// The hart that drains it.
    pub home: u8,
    /// Whether its errors are signalled by global events, and not by local ones of the home hart.
    pub global: bool,
    /// How many records it has.
    pub recs: u8,
    /// The event of the level "platform specific", where one is given.
    pub plat: Option<u32>,
    /// How many copies one drain publishes at most, 1 to 4.
    pub gather: u8,
}

/// How a record begins.
#[derive(Clone, Copy, Debug, PartialEq, Eq)]
pub struct RecDecl {
    pub bank: u8,
    pub rec: u8,
    pub control: u64,
    pub count: u16,
}

/// Where a hart begins, and how many steps it may make.
#[derive(Clone, Copy, Debug, PartialEq, Eq)]
pub struct Start {
    pub hart: u8,
    pub pc: u64,
    pub budget: u16,
}

/// A source of acts: a list of its own, or a device.
#[derive(Drop)]
pub struct Reporter {
    /// The number of the device that gives its acts; None where they are listed here.
    pub device: Option<u8>,
    /// How many acts it makes at most.
    pub limit: u16,
    /// The acts of a listed reporter, none for a device.
    pub acts: List<Act>,
}

/// All that a script states.
#[derive(Drop)]
pub struct Plan {
    /// The version of the script, 1 or 2.
    pub version: u8,
    pub harts: u8,
    pub events: List<EventDecl>,
    pub banks: List<BankDecl>,
    pub recs: List<RecDecl>,
    pub ops: List<Placed>,
    pub starts: List<Start>,
    pub reporters: List<Reporter>,
    /// The steps that are tried, where the script gives them.
    pub schedule: Option<List<Step>>,
}

impl Reporter {
    /// The same reporter once more.
    pub fn copy(&self, alloc: Global) -> Result<Reporter, NoMemory>
        ensures { IfOk result (λ r. r ≡ self.now) }
    {
        Ok(Reporter {
            device: self.device,
            limit: self.limit,
            acts: self.acts.copy(alloc)?,
        })
    }
}

// the same reporters once more
fn copy_reporters(alloc: Global, reporters: &[Reporter]) -> Result<List<Reporter>, NoMemory>
    ensures { IfOk result (λ l. l ≡ reporters.now) }
{
    let mut copies = List::new(alloc);
    for reporter in reporters {
        copies.push(reporter.copy(alloc)?)?;
    }
    Ok(copies)
}

// the same schedule once more
fn copy_schedule(
    alloc: Global,
    schedule: &Option<List<Step>>,
) -> Result<Option<List<Step>>, NoMemory>
    ensures { IfOk result (λ s. s ≡ schedule.now) }
{
    match schedule {
        None => Ok(None),
        Some(steps) => Ok(Some(steps.copy(alloc)?)),
    }
}

impl Plan {
    /// The same plan once more.
    pub fn copy(&self, alloc: Global) -> Result<Plan, NoMemory>
        ensures { IfOk result (λ p. p ≡ self.now) }
    {
        Ok(Plan {
            version: self.version,
            harts: self.harts,
            events: self.events.copy(alloc)?,
            banks: self.banks.copy(alloc)?,
            recs: self.recs.copy(alloc)?,
            ops: self.ops.copy(alloc)?,
            starts: self.starts.copy(alloc)?,
            reporters: copy_reporters(alloc, self.reporters.as_slice())?,
            schedule: copy_schedule(alloc, &self.schedule)?,
        })
    }
}

/// Why a line of a script is refused. This project's own.
#[derive(Clone, Copy, Debug, PartialEq, Eq)]
pub enum LineFault {
    /// The text doesn't begin with a board of a known version, or has no statement at all.
    Head,
    /// A word is none of those that may stand there.
    Word,
    /// The statement has too few words, or too many.
    Count,
    /// A word spells no number below 2^64.
    Number,
    /// A number is out of its range.
    Range,
    /// The thing that is named wasn't declared before.
    Unknown,
    /// The thing was given before.
    Twice,
    /// There is no room for one more.
    Full,
}
