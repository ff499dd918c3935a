//! Registers, and what a delivery and a completion do to them.

ghost use Rattle.std.specs.Prelude.{◌≡◌, ◌≤◌};
ghost use Rattle.hart_ctx.specs.Registers.{entered, resumed, saved_of};

use sse_base::Privilege;

/// The registers of a hart.
#[derive(Clone, Copy, Debug, PartialEq, Eq)]
pub struct Regs {
    pub pc: u64,
    pub privilege: Privilege,
    /// Whether interrupts are enabled.
    pub sie: bool,
    /// Where a return from supervisor mode goes on. It keeps all 64 bits.
    pub sepc: u64,
    /// Whether a return from supervisor mode goes back to supervisor mode.
    pub spp: bool,
    /// What such a return makes of `sie`.
    pub spie: bool,
    pub a6: u64,
    pub a7: u64,
}

/// What a delivery writes over, as the INTERRUPTED attributes of its event keep it (SBI 3.0, "Supervisor
/// Software Events", event attributes).
#[derive(Clone, Copy, Debug, PartialEq, Eq)]
pub struct Saved {
    pub sepc: u64,
    /// `spp` in bit 0 and `spie` in bit 1.
    pub flags: u64,
    pub a6: u64,
    pub a7: u64,
}

/// Begins a handler at `entry`, and gives what that wrote over (SBI 3.0, "Supervisor Software Events",
/// software event injection and delivery: the registers). It never refuses.
pub fn enter(regs: &mut Regs, entry: u64, arg: u64, hart: u8) -> Saved
    ensures saved { result ≡ saved_of regs.old }
    ensures regs { regs.new ≡ entered entry arg hart regs.old }
{
    let saved = Saved {
        sepc: regs.sepc,
        flags: regs.spp as u64 + 2 * regs.spie as u64,
        a6: regs.a6,
        a7: regs.a7,
    };
    regs.sepc = regs.pc;
    regs.spp = matches!(regs.privilege, Privilege::Supervisor);
    regs.spie = regs.sie;
    regs.pc = entry;
    regs.privilege = Privilege::Supervisor;
    regs.sie = false;
    regs.a6 = hart as u64;
    regs.a7 = arg;
    saved
}

/// Goes on with what a handler interrupted, and gives back what its delivery wrote over (SBI 3.0,
/// "Supervisor Software Events", completion: the registers). It never refuses.
pub fn resume(regs: &mut Regs, saved: &Saved)
    requires { saved.now.flags ≤ 3 }
    ensures { regs.new ≡ resumed saved.now regs.old }
{
    regs.pc = regs.sepc;
    regs.privilege = if regs.spp {
        Privilege::Supervisor
    } else {
        Privilege::User
    };
    regs.sie = regs.spie;
    regs.sepc = saved.sepc;
    regs.spp = saved.flags % 2 == 1;
    regs.spie = saved.flags / 2 % 2 == 1;
    regs.a6 = saved.a6;
    regs.a7 = saved.a7;
}
