//! What the load's harts do: each raises an event on the next one in a loop, and handles events of its own.

ghost use Rattle.std.specs.Prelude.{◌≡◌, ◌<◌, ◌≤◌, ◌+◌, ◌++◌, OnOk, string_bytes};
ghost use Rattle.board_load.specs.Load.{
  line_text,
  lines_text,
  lines_below,
  start_of,
  bank_handler,
  raise_handler,
  turns_word,
  loop_of,
  at_line,
  inc_line,
  register_line,
  enable_line,
  inject_line,
  again_line,
  start_line,
  unmask_line,
  complete_line,
  ack_lines,
  register_lines,
  global_lines,
  event_lines,
  loop_lines,
  bank_handler_lines,
  raise_handler_lines,
  hart_lines,
};

use std::alloc::AllocError;

/// How many harts there are.
const HARTS: u64 = 4;

/// Where a hart's program begins.
fn start_of(hart: u64) -> u64
    requires { hart < 4 }
    ensures value { result ≡ start_of hart }
    ensures small { result ≤ 0x4000 }
{
    0x1000 * (hart + 1)
}

/// Where the handler of the events that banks signal begins.
fn bank_handler(hart: u64) -> u64
    requires { hart < 4 }
    ensures { result ≡ bank_handler hart }
{
    start_of(hart) + 1024
}

/// Where the handler of the event that harts raise begins.
fn raise_handler(hart: u64) -> u64
    requires { hart < 4 }
    ensures { result ≡ raise_handler hart }
{
    start_of(hart) + 2048
}

/// The word of memory in which a hart counts the turns of its loop.
fn turns_word(hart: u64) -> u64
    requires { hart < 4 }
    ensures value { result ≡ turns_word hart }
    ensures small { result ≤ 0x80000018 }
{
    0x80000000 + 8 * hart
}

/// Where a hart's loop begins: behind the ops that register events.
fn loop_of(hart: u64) -> u64
    requires { hart < 4 }
    ensures { result ≡ loop_of hart }
{
    start_of(hart) + if hart == 0 { 44 } else { 28 }
}

#[tactic(auto, using(crate::proofs::Lines::parts), unfolding(crate::specs::Load::line_text))]
fn write_at(text: &mut String, address: u64) -> Result<(), AllocError>
    ensures { OnOk result (string_bytes text.new ≡ string_bytes text.old ++ line_text (at_line address)) }
{
    writeln!(text, "at {address}")
}

#[tactic(auto, using(crate::proofs::Lines::parts), unfolding(crate::specs::Load::line_text))]
fn write_inc(text: &mut String, word: u64) -> Result<(), AllocError>
    ensures { OnOk result (string_bytes text.new ≡ string_bytes text.old ++ line_text (inc_line word)) }
{
    writeln!(text, "op inc {word}")
}

#[tactic(auto, using(crate::proofs::Lines::parts), unfolding(crate::specs::Load::line_text))]
fn write_register(text: &mut String, id: &str, entry: u64) -> Result<(), AllocError>
    ensures { OnOk result (string_bytes text.new ≡ string_bytes text.old ++ line_text (register_line id.now entry)) }
{
    writeln!(text, "op sbi 0x535345 2 {id} {entry} 0")
}

#[tactic(auto, using(crate::proofs::Lines::parts), unfolding(crate::specs::Load::line_text))]
fn write_enable(text: &mut String, id: &str) -> Result<(), AllocError>
    ensures { OnOk result (string_bytes text.new ≡ string_bytes text.old ++ line_text (enable_line id.now)) }
{
    writeln!(text, "op sbi 0x535345 4 {id}")
}

/// The event is raised on the next hart.
#[tactic(auto, using(crate::proofs::Lines::parts), unfolding(crate::specs::Load::line_text))]
fn write_inject(text: &mut String, hart: u64) -> Result<(), AllocError>
    requires { hart < 4 }
    ensures { OnOk result (string_bytes text.new ≡ string_bytes text.old ++ line_text (inject_line hart)) }
{
    let next = (hart + 1) % HARTS;
    writeln!(text, "op sbi 0x535345 7 0xffff0000 {next}")
}

/// Back to where the loop begins, before its turn 200.
#[tactic(auto, using(crate::proofs::Lines::parts), unfolding(crate::specs::Load::line_text))]
fn write_again(text: &mut String, hart: u64) -> Result<(), AllocError>
    requires { hart < 4 }
    ensures { OnOk result (string_bytes text.new ≡ string_bytes text.old ++ line_text (again_line hart)) }
{
    let turns = turns_word(hart);
    let begin = loop_of(hart);
    writeln!(text, "op jlt {turns} 200 {begin}")
}

#[tactic(auto, using(crate::proofs::Lines::parts), unfolding(crate::specs::Load::line_text))]
fn write_start(text: &mut String, hart: u64) -> Result<(), AllocError>
    requires { hart < 4 }
    ensures { OnOk result (string_bytes text.new ≡ string_bytes text.old ++ line_text (start_line hart)) }
{
    let start = start_of(hart);
    writeln!(text, "start {hart} {start} 10000")
}

#[tactic(auto, unfolding(crate::specs::Load::line_text))]
fn write_unmask(text: &mut String) -> Result<(), AllocError>
    ensures { OnOk result (string_bytes text.new ≡ string_bytes text.old ++ line_text unmask_line) }
{
    text.push_str("op sbi 0x535345 8\n")
}

#[tactic(auto, unfolding(crate::specs::Load::line_text))]
fn write_complete(text: &mut String) -> Result<(), AllocError>
    ensures { OnOk result (string_bytes text.new ≡ string_bytes text.old ++ line_text complete_line) }
{
    text.push_str("op sbi 0x535345 6\n")
}

/// The block of each bank is taken.
#[tactic(auto, unfolding(crate::specs::Load::lines_text, crate::specs::Load::line_text))]
fn write_acks(text: &mut String) -> Result<(), AllocError>
    ensures { OnOk result (string_bytes text.new ≡ string_bytes text.old ++ lines_text ack_lines) }
{
    text.push_str("op ack 0\nop ack 1\nop ack 2\n")
}

/// Registers an event with its handler, and enables it.
#[tactic(auto, using(crate::proofs::Lines::joining), unfolding(crate::specs::Load::register_lines))]
fn write_registration(text: &mut String, id: &str, entry: u64) -> Result<(), AllocError>
    ensures { OnOk result (string_bytes text.new ≡ string_bytes text.old ++ lines_text (register_lines id.now entry)) }
{
    write_register(text, id, entry)?;
    write_enable(text, id)
}

/// Registers the global events, which are hart 0's.
#[tactic(auto, using(crate::proofs::Lines::joining), unfolding(crate::specs::Load::global_lines))]
fn write_globals(text: &mut String, hart: u64) -> Result<(), AllocError>
    requires { hart < 4 }
    ensures { OnOk result (string_bytes text.new ≡ string_bytes text.old ++ lines_text (global_lines hart)) }
{
    if hart != 0 {
        return Ok(());
    }
    write_registration(text, "0x8000", bank_handler(hart))?;
    write_registration(text, "0x108000", bank_handler(hart))
}

/// Registers all events of a hart.
#[tactic(auto, using(crate::proofs::Lines::joining), unfolding(crate::specs::Load::event_lines))]
fn write_events(text: &mut String, hart: u64) -> Result<(), AllocError>
    requires { hart < 4 }
    ensures { OnOk result (string_bytes text.new ≡ string_bytes text.old ++ lines_text (event_lines hart)) }
{
    write_registration(text, "0x0", bank_handler(hart))?;
    write_registration(text, "0x100000", bank_handler(hart))?;
    write_registration(text, "0xffff0000", raise_handler(hart))?;
    write_globals(text, hart)
}

/// The loop, in which the hart raises the event on the next one.
#[tactic(auto, using(crate::proofs::Lines::joining), unfolding(crate::specs::Load::loop_lines))]
fn write_loop(text: &mut String, hart: u64) -> Result<(), AllocError>
    requires { hart < 4 }
    ensures { OnOk result (string_bytes text.new ≡ string_bytes text.old ++ lines_text (loop_lines hart)) }
{
    write_unmask(text)?;
    write_inc(text, turns_word(hart))?;
    write_inject(text, hart)?;
    write_again(text, hart)
}

/// The handler of the events that banks signal.
#[tactic(auto, using(crate::proofs::Lines::joining), unfolding(crate::specs::Load::bank_handler_lines))]
fn write_bank_handler(text: &mut String, hart: u64) -> Result<(), AllocError>
    requires { hart < 4 }
    ensures { OnOk result (string_bytes text.new ≡ string_bytes text.old ++ lines_text (bank_handler_lines hart)) }
{
    write_at(text, bank_handler(hart))?;
    write_inc(text, turns_word(hart) + 128)?;
    write_acks(text)?;
    write_complete(text)
}

/// The handler of the event that harts raise.
#[tactic(auto, using(crate::proofs::Lines::joining), unfolding(crate::specs::Load::raise_handler_lines))]
fn write_raise_handler(text: &mut String, hart: u64) -> Result<(), AllocError>
    requires { hart < 4 }
    ensures { OnOk result (string_bytes text.new ≡ string_bytes text.old ++ lines_text (raise_handler_lines hart)) }
{
    write_at(text, raise_handler(hart))?;
    write_inc(text, turns_word(hart) + 256)?;
    write_complete(text)
}

/// What a hart does.
#[tactic(auto, using(crate::proofs::Lines::joining), unfolding(crate::specs::Load::hart_lines))]
fn write_hart(text: &mut String, hart: u64) -> Result<(), AllocError>
    requires { hart < 4 }
    ensures { OnOk result (string_bytes text.new ≡ string_bytes text.old ++ lines_text (hart_lines hart)) }
{
    write_at(text, start_of(hart))?;
    write_events(text, hart)?;
    write_loop(text, hart)?;
    write_bank_handler(text, hart)?;
    write_raise_handler(text, hart)?;
    write_start(text, hart)
}

/// What all harts do.
pub(crate) fn write_harts(text: &mut String) -> Result<(), AllocError>
    ensures { OnOk result (string_bytes text.new
        ≡ string_bytes text.old ++ lines_text (lines_below hart_lines 4)) }
{
    for hart in 0..HARTS {
        write_hart(text, hart)?;
    }
    Ok(())
}
