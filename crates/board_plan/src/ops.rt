//! The ops of a supervisor's program.

/// A register that an op can name. `spp`, `spie` and `sie` have one bit.
#[derive(Clone, Copy, Debug, PartialEq, Eq)]
pub enum Reg {
    A6,
    A7,
    Sepc,
    Spp,
    Spie,
    Sie,
}

/// One op of a supervisor's program. This project's own.
#[derive(Clone, Copy, Debug, PartialEq, Eq)]
pub enum Op {
    /// Nothing.
    Nop,
    /// A call of the firmware: extension id, function id and arguments.
    Sbi { eid: u64, fid: u64, args: [u64; 5] },
    /// The register takes the value.
    Set { reg: Reg, value: u64 },
    /// The register takes the word at the address.
    Load { reg: Reg, addr: u64 },
    /// The word at the address takes the register.
    Save { reg: Reg, addr: u64 },
    /// The word at the address takes the value.
    Store { addr: u64, value: u64 },
    /// The word at the address rises by one, modulo 2^64.
    Inc { addr: u64 },
    /// The hart goes on at another address.
    Jump { pc: u64 },
    /// The hart goes on at another address where the word at `addr` is below the value.
    Jlt { addr: u64, value: u64, pc: u64 },
    /// The hart returns to what `sepc`, `spp` and `spie` say.
    Sret,
    /// The bank's block is acknowledged.
    Ack { bank: u8 },
    /// The reporter is unplugged.
    Unplug { reporter: u8 },
}

/// An op and the address at which it stands.
#[derive(Clone, Copy, Debug, PartialEq, Eq)]
pub struct Placed {
    pub pc: u64,
    pub op: Op,
}
