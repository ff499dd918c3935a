//! The registers that an op can name.

ghost use Rattle.std.specs.Prelude.{◌≡◌, ◌<◌};
ghost use Rattle.sse_base.specs.Machine.{stack_of};
ghost use Rattle.hart_ctx.specs.Registers.{regs_of, with_regs};
ghost use Rattle.board_ops.specs.Own.{register_in, returned_in, with_register};
ghost use Rattle.board_ops.specs.Placing.{with_stack};

use board_plan::Reg;
use sbi_sse::{Firmware, Privilege, Regs};

/// What a register reads.
pub(crate) fn read(regs: &Regs, reg: Reg) -> u64
    ensures { result ≡ register_in reg regs.now }
{
    match reg {
        Reg::A6 => regs.a6,
        Reg::A7 => regs.a7,
        Reg::Sepc => regs.sepc,
        Reg::Spp => regs.spp as u64,
        Reg::Spie => regs.spie as u64,
        Reg::Sie => regs.sie as u64,
    }
}

/// A register of a hart takes a value, and says what it reads then; one of a single bit takes the value's lowest.
pub(crate) fn put(firmware: &mut Firmware, hart: u8, reg: Reg, value: u64) -> u64
    requires { hart < firmware.old.events.harts }
    ensures reads { result ≡ register_in reg (with_register reg value (regs_of (stack_of hart firmware.old))) }
    ensures next { firmware.new ≡ with_stack hart (with_regs (with_register reg value
        (regs_of (stack_of hart firmware.old))) (stack_of hart firmware.old)) firmware.old }
{
    let old = *firmware.regs(hart);
    let is_odd = value % 2 == 1;
    match reg {
        Reg::A6 => {
            firmware.set_regs(hart, &Regs { a6: value, ..old });
            value
        }
        Reg::A7 => {
            firmware.set_regs(hart, &Regs { a7: value, ..old });
            value
        }
        Reg::Sepc => {
            firmware.set_regs(hart, &Regs { sepc: value, ..old });
            value
        }
        Reg::Spp => {
            firmware.set_regs(hart, &Regs { spp: is_odd, ..old });
            is_odd as u64
        }
        Reg::Spie => {
            firmware.set_regs(
                hart,
                &Regs {
                    spie: is_odd,
                    ..old
                },
            );
            is_odd as u64
        }
        Reg::Sie => {
            firmware.set_regs(hart, &Regs { sie: is_odd, ..old });
            is_odd as u64
        }
    }
}

/// The registers after a return from supervisor mode.
pub(crate) fn returned(regs: Regs) -> Regs
    ensures { result ≡ returned_in regs }
{
    Regs {
        pc: regs.sepc,
        privilege: if regs.spp {
            Privilege::Supervisor
        } else {
            Privilege::User
        },
        sie: regs.spie,
        spp: false,
        spie: true,
        ..regs
    }
}
