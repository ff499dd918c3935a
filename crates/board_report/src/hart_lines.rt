//! The lines of harts, events and memory.

ghost use Rattle.std.specs.Prelude.{◌≡◌, ◌+◌, ◌≤◌, ◌<◌, ◌++◌, ◌∷◌, [], length, codes};
ghost use Rattle.ras_text.specs.Lines.{text_of, sink_of, SameSink};
ghost use Rattle.sse_base.specs.Calls.{state_number};
ghost use Rattle.sse_base.specs.Machine.{stack_of};
ghost use Rattle.board_plan.specs.Text.{field, hart_line, event_line, owner_text, word_line};
ghost use Rattle.board_report.specs.Told.{told_line};

use crate::fields::{
    put_bit_field, put_context, put_counts, put_dec_field, put_hex_field, put_word_field,
};
use board_plan::Counts;
use hart_ctx::Saved;
use ras_io::Sink;
use ras_text::{Line, put_byte, put_dec, put_hex, put_word};
use sbi_sse::Firmware;
use sse_base::{Instance, Slot, State};

/// A hart: what it runs, and what is counted of it.
#[tactic(auto, using(crate::proofs::LineTexts::hart), unfolding(board_plan::specs::Text::hart_line))]
pub(crate) fn put_hart<K: Sink>(
    line: &mut Line<'_, K>,
    hart: u8,
    counts: &Counts,
    masked: bool,
    firmware: &Firmware,
)
    requires empty { text_of line.old ≡ [] }
    requires hart { hart < firmware.now.events.harts }
    ensures text { text_of line.new ≡ hart_line hart counts.now masked (stack_of hart firmware.now) }
    ensures room { length (text_of line.new) ≤ 512 }
    ensures sink { sink_of line.new ≡ sink_of line.old }
    ensures same_sink { SameSink line.new line.old }
{
    put_word(line, b"hart ");
    put_dec(line, u64::from(hart));
    put_dec_field(line, b"steps", u64::from(counts.steps));
    put_bit_field(line, b"masked", masked);
    put_context(line, firmware.regs(hart));
    put_dec_field(line, b"depth", firmware.depth(hart) as u64);
    put_counts(line, counts);
}

/// A handler that runs, by its number from the oldest, 1 and up.
#[tactic(auto, unfolding(crate::specs::Told::told_line))]
pub(crate) fn put_frame<K: Sink>(
    line: &mut Line<'_, K>,
    hart: u8,
    number: u64,
    at: Instance,
    saved: &Saved,
)
    requires { text_of line.old ≡ [] }
    ensures text { text_of line.new ≡ told_line hart number at saved.now }
    ensures room { length (text_of line.new) ≤ 512 }
    ensures sink { sink_of line.new ≡ sink_of line.old }
    ensures same_sink { SameSink line.new line.old }
{
    put_word(line, b"frame ");
    put_dec(line, u64::from(hart));
    put_byte(line, b' ');
    put_dec(line, number);
    put_hex_field(line, b"event", u64::from(at.id().0));
    put_hex_field(line, b"sepc", saved.sepc);
    put_dec_field(line, b"flags", saved.flags);
    put_hex_field(line, b"a6", saved.a6);
    put_hex_field(line, b"a7", saved.a7);
}

/// Whose instance it is.
fn put_owner<K: Sink>(line: &mut Line<'_, K>, at: Instance)
    requires { length (text_of line.old) + 26 ≤ 512 }
    ensures text { text_of line.new ≡ text_of line.old ++ field (codes "hart") (owner_text at) }
    ensures room { length (text_of line.new) ≤ length (text_of line.old) + 26 }
    ensures sink { sink_of line.new ≡ sink_of line.old }
    ensures same_sink { SameSink line.new line.old }
{
    match at {
        Instance::Local { hart, .. } => put_dec_field(line, b"hart", u64::from(hart)),
        Instance::Global { .. } => put_word_field(line, b"hart", b"-"),
    }
}

/// The number of a state.
fn number_of(state: State) -> u64
    ensures { result ≡ state_number state }
{
    match state {
        State::Unused => 0,
        State::Registered => 1,
        State::Enabled => 2,
        State::Running => 3,
    }
}

/// An instance with its attributes.
#[tactic(auto, unfolding(board_plan::specs::Text::event_line))]
pub(crate) fn put_event<K: Sink>(line: &mut Line<'_, K>, slot: &Slot)
    requires { text_of line.old ≡ [] }
    ensures text { text_of line.new ≡ event_line slot.now }
    ensures room { length (text_of line.new) ≤ 512 }
    ensures sink { sink_of line.new ≡ sink_of line.old }
    ensures same_sink { SameSink line.new line.old }
{
    let event = &slot.event;
    put_word(line, b"event ");
    put_hex(line, u64::from(slot.at.id().0));
    put_owner(line, slot.at);
    put_dec_field(line, b"state", number_of(event.state));
    put_bit_field(line, b"pending", slot.pending);
    put_dec_field(line, b"priority", u64::from(event.priority));
    put_bit_field(line, b"config", event.oneshot);
    put_dec_field(line, b"preferred", u64::from(event.preferred));
    put_hex_field(line, b"entry", event.entry);
    put_hex_field(line, b"arg", event.arg);
}

/// A word of memory.
#[tactic(auto, unfolding(board_plan::specs::Text::word_line))]
pub(crate) fn put_memory_word<K: Sink>(line: &mut Line<'_, K>, addr: u64, word: u64)
    requires { text_of line.old ≡ [] }
    ensures text { text_of line.new ≡ word_line addr word }
    ensures room { length (text_of line.new) ≤ 512 }
    ensures sink { sink_of line.new ≡ sink_of line.old }
    ensures same_sink { SameSink line.new line.old }
{
    put_word(line, b"word ");
    put_hex(line, addr);
    put_byte(line, b' ');
    put_hex(line, word);
}
