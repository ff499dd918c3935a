//! The ops that a script can state, by the words behind `op`.

ghost use Rattle.std.specs.Prelude.{◌≡◌};
ghost use Rattle.board_plan.specs.OpForms.{
  bare_op,
  argument_at,
  arguments,
  call_of,
  sbi_op,
  set_op,
  load_op,
  save_op,
  store_op,
  inc_op,
  jump_op,
  jlt_op,
  ack_op,
  unplug_op,
  op_of,
};
ghost use Rattle.board_script.specs.Reading.{texts};

use crate::words::{any_number, byte, is, register, value_of};
use board_plan::{LineFault, Op};

#[tactic(auto, unfolding(board_plan::specs::OpForms::bare_op))]
fn bare_op(op: Op, words: &[&[u8]]) -> Result<Op, LineFault>
    ensures { result ≡ bare_op op (texts words.now) }
{
    let [] = words else {
        return Err(LineFault::Count);
    };
    Ok(op)
}

#[tactic(auto, unfolding(board_plan::specs::OpForms::argument_at))]
fn argument_at(words: &[&[u8]], i: usize) -> Result<u64, LineFault>
    ensures { result ≡ argument_at (texts words.now) i }
{
    match words.get(i) {
        None => Ok(0),
        Some(word) => any_number(word),
    }
}

#[tactic(auto, unfolding(board_plan::specs::OpForms::arguments))]
fn arguments(words: &[&[u8]]) -> Result<[u64; 5], LineFault>
    ensures { result ≡ arguments (texts words.now) }
{
    let a = argument_at(words, 0)?;
    let b = argument_at(words, 1)?;
    let c = argument_at(words, 2)?;
    let d = argument_at(words, 3)?;
    let e = argument_at(words, 4)?;
    Ok([a, b, c, d, e])
}

#[tactic(auto, unfolding(board_plan::specs::OpForms::call_of))]
fn call_of(eid: &[u8], fid: &[u8], words: &[&[u8]]) -> Result<Op, LineFault>
    ensures { result ≡ call_of eid.now fid.now (texts words.now) }
{
    if words.len() > 5 {
        return Err(LineFault::Count);
    }
    let eid = any_number(eid)?;
    let fid = any_number(fid)?;
    let args = arguments(words)?;
    Ok(Op::Sbi { eid, fid, args })
}

#[tactic(auto, unfolding(board_plan::specs::OpForms::sbi_op))]
fn sbi_op(words: &[&[u8]]) -> Result<Op, LineFault>
    ensures { result ≡ sbi_op (texts words.now) }
{
    let [eid, fid, words @ ..] = words else {
        return Err(LineFault::Count);
    };
    call_of(eid, fid, words)
}

#[tactic(auto, unfolding(board_plan::specs::OpForms::set_op))]
fn set_op(words: &[&[u8]]) -> Result<Op, LineFault>
    ensures { result ≡ set_op (texts words.now) }
{
    let [reg, value] = words else {
        return Err(LineFault::Count);
    };
    let reg = register(reg)?;
    let value = value_of(reg, value)?;
    Ok(Op::Set { reg, value })
}

#[tactic(auto, unfolding(board_plan::specs::OpForms::load_op))]
fn load_op(words: &[&[u8]]) -> Result<Op, LineFault>
    ensures { result ≡ load_op (texts words.now) }
{
    let [reg, addr] = words else {
        return Err(LineFault::Count);
    };
    let reg = register(reg)?;
    let addr = any_number(addr)?;
    Ok(Op::Load { reg, addr })
}

#[tactic(auto, unfolding(board_plan::specs::OpForms::save_op))]
fn save_op(words: &[&[u8]]) -> Result<Op, LineFault>
    ensures { result ≡ save_op (texts words.now) }
{
    let [reg, addr] = words else {
        return Err(LineFault::Count);
    };
    let reg = register(reg)?;
    let addr = any_number(addr)?;
    Ok(Op::Save { reg, addr })
}

#[tactic(auto, unfolding(board_plan::specs::OpForms::store_op))]
fn store_op(words: &[&[u8]]) -> Result<Op, LineFault>
    ensures { result ≡ store_op (texts words.now) }
{
    let [addr, value] = words else {
        return Err(LineFault::Count);
    };
    let addr = any_number(addr)?;
    let value = any_number(value)?;
    Ok(Op::Store { addr, value })
}

#[tactic(auto, unfolding(board_plan::specs::OpForms::inc_op))]
fn inc_op(words: &[&[u8]]) -> Result<Op, LineFault>
    ensures { result ≡ inc_op (texts words.now) }
{
    let [addr] = words else {
        return Err(LineFault::Count);
    };
    let addr = any_number(addr)?;
    Ok(Op::Inc { addr })
}

#[tactic(auto, unfolding(board_plan::specs::OpForms::jump_op))]
fn jump_op(words: &[&[u8]]) -> Result<Op, LineFault>
    ensures { result ≡ jump_op (texts words.now) }
{
    let [pc] = words else {
        return Err(LineFault::Count);
    };
    let pc = any_number(pc)?;
    Ok(Op::Jump { pc })
}

#[tactic(auto, unfolding(board_plan::specs::OpForms::jlt_op))]
fn jlt_op(words: &[&[u8]]) -> Result<Op, LineFault>
    ensures { result ≡ jlt_op (texts words.now) }
{
    let [addr, value, pc] = words else {
        return Err(LineFault::Count);
    };
    let addr = any_number(addr)?;
    let value = any_number(value)?;
    let pc = any_number(pc)?;
    Ok(Op::Jlt { addr, value, pc })
}

#[tactic(auto, unfolding(board_plan::specs::OpForms::ack_op))]
fn ack_op(words: &[&[u8]]) -> Result<Op, LineFault>
    ensures { result ≡ ack_op (texts words.now) }
{
    let [bank] = words else {
        return Err(LineFault::Count);
    };
    let bank = byte(bank)?;
    Ok(Op::Ack { bank })
}

#[tactic(auto, unfolding(board_plan::specs::OpForms::unplug_op))]
fn unplug_op(words: &[&[u8]]) -> Result<Op, LineFault>
    ensures { result ≡ unplug_op (texts words.now) }
{
    let [reporter] = words else {
        return Err(LineFault::Count);
    };
    let reporter = byte(reporter)?;
    Ok(Op::Unplug { reporter })
}

/// The op of a name and the words behind it.
#[tactic(auto, unfolding(board_plan::specs::OpForms::op_of))]
pub(crate) fn op_of(name: &[u8], words: &[&[u8]]) -> Result<Op, LineFault>
    ensures { result ≡ op_of name.now (texts words.now) }
{
    if is(name, b"nop") {
        return bare_op(Op::Nop, words);
    }
    if is(name, b"sbi") {
        return sbi_op(words);
    }
    if is(name, b"set") {
        return set_op(words);
    }
    if is(name, b"load") {
        return load_op(words);
    }
    if is(name, b"save") {
        return save_op(words);
    }
    if is(name, b"store") {
        return store_op(words);
    }
    if is(name, b"inc") {
        return inc_op(words);
    }
    if is(name, b"jump") {
        return jump_op(words);
    }
    if is(name, b"jlt") {
        return jlt_op(words);
    }
    if is(name, b"sret") {
        return bare_op(Op::Sret, words);
    }
    if is(name, b"ack") {
        return ack_op(words);
    }
    if is(name, b"unplug") {
        return unplug_op(words);
    }
    Err(LineFault::Word)
}
