//! One op on the firmware of a board.

ghost use Rattle.std.specs.Prelude.{◌≡◌, ◌<◌, ◌&&◌};
ghost use Rattle.sse_base.specs.Words.{load};
ghost use Rattle.sse_base.specs.Machine.{reach, placed};
ghost use Rattle.board_plan.specs.Ops.{is_user, jumped, loaded, needs_supervisor, past, risen, save, sbi, set, sret, store_word};
ghost use Rattle.board_ops.specs.Own.{own_done, own_step};
ghost use Rattle.board_ops.specs.Executed.{Executes};

use crate::registers::{put, read, returned};
use board_plan::{Op, Reg, StepNote};
use sbi_sse::{Firmware, Privilege, SbiCode};

/// Whether an op is illegal in a hart's mode: user mode sees no register but a6 and a7, and makes no call, return,
/// acknowledgement or unplugging (RISC-V Privileged Specification, in this project's profile).
pub fn is_illegal(firmware: &Firmware, hart: u8, op: &Op) -> bool
    requires { hart < firmware.now.events.harts }
    ensures { result ≡ (is_user (reach hart firmware.now).stack.live.privilege && needs_supervisor op.now) }
{
    matches!(firmware.regs(hart).privilege, Privilege::User) && needs_supervisor(op)
}

/// Whether an op is illegal in user mode.
fn needs_supervisor(op: &Op) -> bool
    ensures { result ≡ needs_supervisor op.now }
{
    match op {
        Op::Sbi { .. } | Op::Sret | Op::Ack { .. } | Op::Unplug { .. } => true,
        Op::Set { reg, .. } | Op::Load { reg, .. } | Op::Save { reg, .. } => {
            !matches!(reg, Reg::A6 | Reg::A7)
        }
        _ => false,
    }
}

/// Goes past the op of a hart: 4 further, modulo 2^64 (this project).
pub fn pass(firmware: &mut Firmware, hart: u8)
    requires { hart < firmware.old.events.harts }
    ensures { firmware.new ≡ placed hart (past (reach hart firmware.old)) firmware.old }
{
    let pc = firmware.regs(hart).pc;
    firmware.set_pc(hart, pc.wrapping_add(4));
}

/// A register takes a value.
#[tactic(auto, using(crate::proofs::Levels::register_set))]
fn set(firmware: &mut Firmware, hart: u8, reg: Reg, value: u64, note: &mut StepNote)
    requires { hart < firmware.old.events.harts }
    ensures { Executes hart firmware.old firmware.new note.new (set reg value (reach hart firmware.old)) }
{
    let _ = put(firmware, hart, reg, value);
    *note = StepNote::Set { reg, value };
}

/// A register takes a word of memory.
#[tactic(auto, using(crate::proofs::Levels::loaded))]
fn load(firmware: &mut Firmware, hart: u8, reg: Reg, addr: u64, note: &mut StepNote)
    requires { hart < firmware.old.events.harts }
    ensures { Executes hart firmware.old firmware.new note.new
        (loaded reg (reach hart firmware.old) (load firmware.old.memory addr)) }
{
    let Some(word) = firmware.memory().load(addr) else {
        *note = StepNote::Fault;
        return;
    };
    let value = put(firmware, hart, reg, word);
    *note = StepNote::Load { reg, value };
}

/// A word of memory takes a register.
#[tactic(auto, using(crate::proofs::Levels::register_read, crate::proofs::Levels::stays))]
fn save(firmware: &mut Firmware, hart: u8, reg: Reg, addr: u64, note: &mut StepNote)
    requires { hart < firmware.old.events.harts }
    ensures { Executes hart firmware.old firmware.new note.new (save reg addr (reach hart firmware.old)) }
{
    let value = read(firmware.regs(hart), reg);
    match firmware.store(addr, value) {
        Some(()) => *note = StepNote::Save { addr, value },
        None => *note = StepNote::Fault,
    }
}

/// A word of memory takes a value.
#[tactic(auto, using(crate::proofs::Levels::stays))]
fn store(firmware: &mut Firmware, hart: u8, addr: u64, value: u64, note: &mut StepNote)
    requires { hart < firmware.old.events.harts }
    ensures { Executes hart firmware.old firmware.new note.new (store_word addr value (reach hart firmware.old)) }
{
    match firmware.store(addr, value) {
        Some(()) => *note = StepNote::Store { addr, value },
        None => *note = StepNote::Fault,
    }
}

/// A word of memory rises by one, modulo 2^64.
#[tactic(auto, using(crate::proofs::Levels::stays))]
fn inc(firmware: &mut Firmware, hart: u8, addr: u64, note: &mut StepNote)
    requires { hart < firmware.old.events.harts }
    ensures { Executes hart firmware.old firmware.new note.new
        (risen addr (reach hart firmware.old) (load firmware.old.memory addr)) }
{
    let Some(word) = firmware.memory().load(addr) else {
        *note = StepNote::Fault;
        return;
    };
    let value = word.wrapping_add(1);
    match firmware.store(addr, value) {
        Some(()) => *note = StepNote::Inc { addr, value },
        None => *note = StepNote::Fault,
    }
}

/// The hart goes on elsewhere where a word of memory is below a value.
#[tactic(auto, using(crate::proofs::Levels::stays))]
fn jlt(firmware: &mut Firmware, hart: u8, addr: u64, value: u64, pc: u64, note: &mut StepNote)
    requires { hart < firmware.old.events.harts }
    ensures { Executes hart firmware.old firmware.new note.new
        (jumped value pc (reach hart firmware.old) (load firmware.old.memory addr)) }
{
    let Some(word) = firmware.memory().load(addr) else {
        *note = StepNote::Fault;
        return;
    };
    if word >= value {
        *note = StepNote::Jlt { taken: false };
        return;
    }
    firmware.set_pc(hart, pc);
    *note = StepNote::Jlt { taken: true };
}

/// The hart returns to what sepc, spp and spie say.
#[tactic(auto, using(crate::proofs::Levels::return_made))]
fn sret(firmware: &mut Firmware, hart: u8, note: &mut StepNote)
    requires { hart < firmware.old.events.harts }
    ensures { Executes hart firmware.old firmware.new note.new (sret (reach hart firmware.old)) }
{
    let regs = returned(*firmware.regs(hart));
    firmware.set_regs(hart, &regs);
    *note = StepNote::Sret;
}

/// A call of the firmware.
fn sbi(firmware: &mut Firmware, hart: u8, eid: u64, fid: u64, args: [u64; 5], note: &mut StepNote)
    requires { hart < firmware.old.events.harts }
    ensures { Executes hart firmware.old firmware.new note.new
        (sbi hart eid fid args firmware.old.stacks (reach hart firmware.old)) }
{
    *note = StepNote::Call {
        eid,
        fid,
        args,
        code: SbiCode::Success,
        written: [0; 10],
    };
    let mut answer = SbiCode::Success;
    if let StepNote::Call { written, .. } = note {
        answer = firmware.answer(hart, eid, fid, args, written);
    }
    if let StepNote::Call { code, .. } = note {
        *code = answer;
    }
}

/// Executes an op of a hart that is past it already, and notes what it did. `ack` and `unplug` reach further than the
/// hart and memory: they do nothing here.
#[tactic(auto, using(crate::proofs::Levels::stays))]
fn execute(firmware: &mut Firmware, hart: u8, op: &Op, note: &mut StepNote)
    requires { hart < firmware.old.events.harts }
    ensures { Executes hart firmware.old firmware.new note.new
        (own_done hart firmware.old.stacks (reach hart firmware.old) op.now) }
{
    match *op {
        Op::Nop | Op::Ack { .. } | Op::Unplug { .. } => *note = StepNote::Nop,
        Op::Sbi { eid, fid, args } => sbi(firmware, hart, eid, fid, args, note),
        Op::Set { reg, value } => set(firmware, hart, reg, value, note),
        Op::Load { reg, addr } => load(firmware, hart, reg, addr, note),
        Op::Save { reg, addr } => save(firmware, hart, reg, addr, note),
        Op::Store { addr, value } => store(firmware, hart, addr, value, note),
        Op::Inc { addr } => inc(firmware, hart, addr, note),
        Op::Jump { pc } => {
            firmware.set_pc(hart, pc);
            *note = StepNote::Jump { pc };
        }
        Op::Jlt { addr, value, pc } => jlt(firmware, hart, addr, value, pc, note),
        Op::Sret => sret(firmware, hart, note),
    }
}

/// Makes the step of an op that stands at a hart's pc, and notes what it did: the hart goes past the
/// op, and executes it where its mode allows it; else the note is `Illegal`. `ack` and `unplug`
/// reach further than their hart and memory: where they are allowed they do nothing here, and the
/// note is `Nop`.
pub fn step(firmware: &mut Firmware, hart: u8, op: &Op, note: &mut StepNote)
    requires { hart < firmware.old.events.harts }
    ensures { Executes hart firmware.old firmware.new note.new
        (own_step hart firmware.old.stacks (reach hart firmware.old) op.now) }
{
    let _harts = firmware.harts();
    let illegal = is_illegal(firmware, hart, op);
    pass(firmware, hart);
    if illegal {
        *note = StepNote::Illegal;
        return;
    }
    execute(firmware, hart, op, note);
}
