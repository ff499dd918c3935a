//! Steps, what each is noted as, and what is counted of them.

use crate::ops::Reg;
use reri_fields::{Logged, RecordCopy, Report};
use sse_base::SbiCode;

/// The actor of a step.
#[derive(Clone, Copy, Debug, PartialEq, Eq)]
pub enum Step {
    Hart(u8),
    Reporter(u8),
}

/// What a step did. This project's own.
#[derive(Clone, Copy, Debug, PartialEq, Eq)]
pub enum StepNote {
    /// The actor had no step.
    Idle,
    /// A drain looked for a signalled record, and took this one or found none.
    Scan {
        bank: u8,
        rec: Option<u8>,
    },
    /// A drain set read-in-progress and read control.
    Claim {
        bank: u8,
        rec: u8,
    },
    /// A drain read a register, by its place among a record's six: 2 to 5.
    Read {
        bank: u8,
        rec: u8,
        register: u8,
    },
    /// A drain read status: torn, or published.
    Check {
        bank: u8,
        rec: u8,
        torn: bool,
    },
    /// A drain invalidated the record; not cleared where an error wrote it since the Check.
    Invalidate {
        bank: u8,
        rec: u8,
        cleared: bool,
    },
    /// A drain signalled the event of a level, where the level has one that is on the board.
    Signal {
        bank: u8,
        level: u8,
        id: Option<u32>,
    },
    /// An event was delivered.
    Deliver {
        id: u32,
    },
    /// A call was made, with its code and the words that an accepted write took, 0 in all other places.
    Call {
        eid: u64,
        fid: u64,
        args: [u64; 5],
        code: SbiCode,
        written: [u64; 10],
    },
    /// The op that does nothing.
    Nop,
    /// A register was set.
    Set {
        reg: Reg,
        value: u64,
    },
    /// A register took a word; the value is what it reads then.
    Load {
        reg: Reg,
        value: u64,
    },
    /// A word took a register.
    Save {
        addr: u64,
        value: u64,
    },
    /// A word was stored.
    Store {
        addr: u64,
        value: u64,
    },
    /// A word rose to this value.
    Inc {
        addr: u64,
        value: u64,
    },
    /// The hart went on at this address.
    Jump {
        pc: u64,
    },
    /// Whether the hart went on elsewhere.
    Jlt {
        taken: bool,
    },
    /// The hart returned.
    Sret,
    /// A block was acknowledged: whether it was full, or None where there is no such bank.
    Ack {
        bank: u8,
        was: Option<bool>,
    },
    /// A reporter was unplugged: whether it was plugged until then.
    Unplug {
        reporter: u8,
        was: bool,
    },
    /// The op isn't allowed in the hart's mode, and did nothing.
    Illegal,
    /// The op's address is outside memory or unaligned, and it did nothing.
    Fault,
    /// An error was reported: what logging did, or None where there is no such record.
    Error {
        report: Report,
        logged: Option<Logged>,
    },
    /// An event was raised: whether there is such an instance.
    Raise {
        id: u32,
        hart: u8,
        signalled: bool,
    },
}

/// What is counted of a hart's steps.
#[derive(Clone, Copy, Debug, PartialEq, Eq)]
pub struct Counts {
    pub steps: u32,
    pub calls: u32,
    /// Calls that were answered by another code than success.
    pub failed: u32,
    /// The number of the last call's code, 0 before the first.
    pub last: i64,
}

/// How many of the errors that were made have each fate. This project's own.
#[derive(Clone, Copy, Debug, PartialEq, Eq)]
pub struct Fates {
    /// All of them.
    pub made: u32,
    /// There is no such bank or record.
    pub stray: u32,
    /// The record wasn't enabled.
    pub disabled: u32,
    /// Counted and not logged.
    pub counted: u32,
    /// A drain published it.
    pub drained: u32,
    /// Another error wrote over it before a drain published it.
    pub overwritten: u32,
    /// Logged, while the record went on showing an earlier one.
    pub kept: u32,
    /// Its record shows it, and no drain has published it.
    pub stands: u32,
}

/// A copy of a record that a drain published, and the bank whose record it is.
#[derive(Clone, Copy, Debug, PartialEq, Eq)]
pub struct Published {
    pub bank: u8,
    pub copy: RecordCopy,
}
