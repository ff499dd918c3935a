//! The parts of a report's lines.

ghost use Rattle.std.specs.Prelude.{◌≡◌, ◌+◌, ◌≤◌, ◌++◌, ◌∷◌, [], length, decimal};
ghost use Rattle.std.specs.Fmt.{signed_decimal};
ghost use Rattle.ras_text.specs.Numbers.{hexadecimal};
ghost use Rattle.ras_text.specs.Lines.{text_of, sink_of, SameSink};
ghost use Rattle.hart_ctx.specs.Registers.{live_of, triple_in};
ghost use Rattle.board_plan.specs.Text.{field, bit_text, privilege_text, context_text, counts_text};

use board_plan::Counts;
use hart_ctx::Regs;
use ras_io::Sink;
use ras_text::{Line, put_byte, put_dec, put_hex, put_signed, put_word};
use sse_base::Privilege;

/// ` NAME `
fn put_name<K: Sink>(line: &mut Line<'_, K>, name: &[u8])
    requires { length (text_of line.old) + length name.now + 2 ≤ 512 }
    ensures text { text_of line.new ≡ ((text_of line.old ++ 32 ∷ []) ++ name.now) ++ 32 ∷ [] }
    ensures room { length (text_of line.new) ≡ length (text_of line.old) + length name.now + 2 }
    ensures sink { sink_of line.new ≡ sink_of line.old }
    ensures same_sink { SameSink line.new line.old }
{
    put_byte(line, b' ');
    put_word(line, name);
    put_byte(line, b' ');
}

/// ` NAME VALUE`, the value in decimal.
#[tactic(auto, using(crate::proofs::LineParts::fields))]
pub(crate) fn put_dec_field<K: Sink>(line: &mut Line<'_, K>, name: &[u8], value: u64)
    requires { length (text_of line.old) + length name.now + 22 ≤ 512 }
    ensures text { text_of line.new ≡ text_of line.old ++ field name.now (decimal value) }
    ensures room { length (text_of line.new) ≤ length (text_of line.old) + length name.now + 22 }
    ensures sink { sink_of line.new ≡ sink_of line.old }
    ensures same_sink { SameSink line.new line.old }
{
    put_name(line, name);
    put_dec(line, value);
}

/// ` NAME VALUE`, the value in hexadecimal.
#[tactic(auto, using(crate::proofs::LineParts::fields))]
pub(crate) fn put_hex_field<K: Sink>(line: &mut Line<'_, K>, name: &[u8], value: u64)
    requires { length (text_of line.old) + length name.now + 20 ≤ 512 }
    ensures text { text_of line.new ≡ text_of line.old ++ field name.now (hexadecimal value) }
    ensures room { length (text_of line.new) ≤ length (text_of line.old) + length name.now + 20 }
    ensures sink { sink_of line.new ≡ sink_of line.old }
    ensures same_sink { SameSink line.new line.old }
{
    put_name(line, name);
    put_hex(line, value);
}

/// ` NAME VALUE`, the value a signed decimal.
#[tactic(auto, using(crate::proofs::LineParts::fields))]
fn put_signed_field<K: Sink>(line: &mut Line<'_, K>, name: &[u8], value: i64)
    requires { length (text_of line.old) + length name.now + 22 ≤ 512 }
    ensures text { text_of line.new ≡ text_of line.old ++ field name.now (signed_decimal value) }
    ensures room { length (text_of line.new) ≤ length (text_of line.old) + length name.now + 22 }
    ensures sink { sink_of line.new ≡ sink_of line.old }
    ensures same_sink { SameSink line.new line.old }
{
    put_name(line, name);
    put_signed(line, value);
}

/// ` NAME VALUE`, the value a word.
#[tactic(auto, using(crate::proofs::LineParts::fields))]
pub(crate) fn put_word_field<K: Sink>(line: &mut Line<'_, K>, name: &[u8], value: &[u8])
    requires { length (text_of line.old) + length name.now + length value.now + 2 ≤ 512 }
    ensures text { text_of line.new ≡ text_of line.old ++ field name.now value.now }
    ensures room { length (text_of line.new) ≤ length (text_of line.old) + length name.now + length value.now + 2 }
    ensures sink { sink_of line.new ≡ sink_of line.old }
    ensures same_sink { SameSink line.new line.old }
{
    put_name(line, name);
    put_word(line, value);
}

/// ` NAME VALUE`, the value 0 or 1.
#[tactic(auto, using(crate::proofs::LineParts::bits))]
pub(crate) fn put_bit_field<K: Sink>(line: &mut Line<'_, K>, name: &[u8], value: bool)
    requires { length (text_of line.old) + length name.now + 22 ≤ 512 }
    ensures text { text_of line.new ≡ text_of line.old ++ field name.now (bit_text value) }
    ensures room { length (text_of line.new) ≤ length (text_of line.old) + length name.now + 22 }
    ensures sink { sink_of line.new ≡ sink_of line.old }
    ensures same_sink { SameSink line.new line.old }
{
    put_dec_field(line, name, u64::from(value));
}

/// ` NAME VALUE`, the value a mode as U or S.
fn put_privilege_field<K: Sink>(line: &mut Line<'_, K>, name: &[u8], value: Privilege)
    requires { length (text_of line.old) + length name.now + 3 ≤ 512 }
    ensures text { text_of line.new ≡ text_of line.old ++ field name.now (privilege_text value) }
    ensures room { length (text_of line.new) ≤ length (text_of line.old) + length name.now + 3 }
    ensures sink { sink_of line.new ≡ sink_of line.old }
    ensures same_sink { SameSink line.new line.old }
{
    match value {
        Privilege::User => put_word_field(line, name, b"U"),
        Privilege::Supervisor => put_word_field(line, name, b"S"),
    }
}

/// What a hart runs, by its registers.
#[tactic(auto, using(crate::proofs::LineParts::contexts))]
pub(crate) fn put_context<K: Sink>(line: &mut Line<'_, K>, regs: &Regs)
    requires { length (text_of line.old) + 180 ≤ 512 }
    ensures text { text_of line.new ≡ text_of line.old ++ context_text (live_of regs.now) (triple_in regs.now) }
    ensures room { length (text_of line.new) ≤ length (text_of line.old) + 180 }
    ensures sink { sink_of line.new ≡ sink_of line.old }
    ensures same_sink { SameSink line.new line.old }
{
    put_hex_field(line, b"pc", regs.pc);
    put_privilege_field(line, b"priv", regs.privilege);
    put_bit_field(line, b"sie", regs.sie);
    put_hex_field(line, b"sepc", regs.sepc);
    put_bit_field(line, b"spp", regs.spp);
    put_bit_field(line, b"spie", regs.spie);
    put_hex_field(line, b"a6", regs.a6);
    put_hex_field(line, b"a7", regs.a7);
}

/// What is counted of a hart's calls.
#[tactic(auto, using(crate::proofs::LineParts::counts))]
pub(crate) fn put_counts<K: Sink>(line: &mut Line<'_, K>, counts: &Counts)
    requires { length (text_of line.old) + 90 ≤ 512 }
    ensures text { text_of line.new ≡ text_of line.old ++ counts_text counts.now }
    ensures room { length (text_of line.new) ≤ length (text_of line.old) + 90 }
    ensures sink { sink_of line.new ≡ sink_of line.old }
    ensures same_sink { SameSink line.new line.old }
{
    put_dec_field(line, b"calls", u64::from(counts.calls));
    put_dec_field(line, b"failed", u64::from(counts.failed));
    put_signed_field(line, b"last", counts.last);
}
