//! The lines of banks, their records and their blocks.

ghost use Rattle.std.specs.Prelude.{◌≡◌, ◌+◌, ◌≤◌, ◌<◌, ◌++◌, ◌∷◌, [], length, codes};
ghost use Rattle.ras_text.specs.Lines.{text_of, sink_of, SameSink};
ghost use Rattle.board_plan.specs.Text.{
  field,
  scope_text,
  slot_text,
  phase_text,
  record_line,
  hex_digit,
  byte_text,
  block_line,
};
ghost use Rattle.board_report.specs.Told.{told_phase, told_bank};

use crate::fields::{put_bit_field, put_dec_field, put_hex_field, put_word_field};
use board_plan::BankDecl;
use ras_io::Sink;
use ras_text::{Line, put_dec, put_word};
use reri_fields::{Phase, RecordCopy};

/// The name of a phase.
fn phase_word(phase: Phase) -> &'static [u8]
    ensures word { result.now ≡ phase_text phase }
    ensures short { length result.now ≤ 10 }
{
    match phase {
        Phase::Scan => b"scan",
        Phase::Claim => b"claim",
        Phase::Address => b"address",
        Phase::Info => b"info",
        Phase::Supplement => b"supplement",
        Phase::Time => b"time",
        Phase::Check => b"check",
        Phase::Invalidate => b"invalidate",
        Phase::Signal => b"signal",
    }
}

/// The next phase of a drain and the record that it has taken, where one is under way.
#[tactic(auto, using(crate::proofs::LineParts::drains))]
fn put_drain<K: Sink>(line: &mut Line<'_, K>, phase: Option<(Phase, u8)>)
    requires { length (text_of line.old) + 40 ≤ 512 }
    ensures text { text_of line.new ≡ text_of line.old ++ field (codes "drain") (told_phase phase) }
    ensures room { length (text_of line.new) ≤ length (text_of line.old) + 40 }
    ensures sink { sink_of line.new ≡ sink_of line.old }
    ensures same_sink { SameSink line.new line.old }
{
    match phase {
        None => put_word_field(line, b"drain", b"none"),
        Some((phase, rec)) => {
            put_word_field(line, b"drain", phase_word(phase));
            put_word(line, b" ");
            put_dec(line, u64::from(rec));
        }
    }
}

/// Whose events a bank signals.
fn scope_word(global: bool) -> &'static [u8]
    ensures word { result.now ≡ scope_text global }
    ensures short { length result.now ≤ 6 }
{
    if global { b"global" } else { b"local" }
}

/// Whether a slot is free or full.
fn slot_word(copies: &[RecordCopy]) -> &'static [u8]
    ensures word { result.now ≡ slot_text copies.now }
    ensures short { length result.now ≤ 4 }
{
    if copies.is_empty() { b"free" } else { b"full" }
}

/// A bank: whether it asks to be drained, what its slot holds, and the next phase of its drain.
#[tactic(auto, unfolding(crate::specs::Told::told_bank))]
pub(crate) fn put_bank<K: Sink>(
    line: &mut Line<'_, K>,
    bank: u8,
    decl: &BankDecl,
    asking: bool,
    copies: &[RecordCopy],
    phase: Option<(Phase, u8)>,
)
    requires { text_of line.old ≡ [] }
    ensures text { text_of line.new ≡ told_bank bank decl.now asking copies.now phase }
    ensures room { length (text_of line.new) ≤ 512 }
    ensures sink { sink_of line.new ≡ sink_of line.old }
    ensures same_sink { SameSink line.new line.old }
{
    put_word(line, b"bank ");
    put_dec(line, u64::from(bank));
    put_dec_field(line, b"home", u64::from(decl.home));
    put_word_field(line, b"scope", scope_word(decl.global));
    put_bit_field(line, b"asks", asking);
    put_word_field(line, b"block", slot_word(copies));
    put_drain(line, phase);
}

/// The registers of a record.
#[tactic(auto, unfolding(board_plan::specs::Text::record_line))]
pub(crate) fn put_registers<K: Sink>(line: &mut Line<'_, K>, bank: u8, rec: u8, copy: &RecordCopy)
    requires { text_of line.old ≡ [] }
    ensures text { text_of line.new ≡ record_line bank rec copy.now }
    ensures room { length (text_of line.new) ≤ 512 }
    ensures sink { sink_of line.new ≡ sink_of line.old }
    ensures same_sink { SameSink line.new line.old }
{
    put_word(line, b"record ");
    put_dec(line, u64::from(bank));
    put_word(line, b" ");
    put_dec(line, u64::from(rec));
    put_hex_field(line, b"control", copy.control);
    put_hex_field(line, b"status", copy.status);
    put_hex_field(line, b"address", copy.address);
    put_hex_field(line, b"info", copy.info);
    put_hex_field(line, b"supplement", copy.supplement);
    put_hex_field(line, b"time", copy.time);
}

/// A hexadecimal digit.
fn hex_digit(n: u8) -> u8
    requires { n < 16 }
    ensures { result ≡ hex_digit n }
{
    if n < 10 { b'0' + n } else { b'a' - 10 + n }
}

/// A byte as two hexadecimal digits.
fn put_byte<K: Sink>(line: &mut Line<'_, K>, byte: u8)
    requires { length (text_of line.old) + 2 ≤ 512 }
    ensures text { text_of line.new ≡ text_of line.old ++ byte_text byte }
    ensures room { length (text_of line.new) ≡ length (text_of line.old) + 2 }
    ensures sink { sink_of line.new ≡ sink_of line.old }
    ensures same_sink { SameSink line.new line.old }
{
    put_word(line, &[hex_digit(byte / 16), hex_digit(byte % 16)]);
}

/// Up to 140 bytes of a block.
#[tactic(auto, unfolding(board_plan::specs::Text::block_line))]
pub(crate) fn put_block<K: Sink>(line: &mut Line<'_, K>, bank: u8, bytes: &[u8])
    requires empty { text_of line.old ≡ [] }
    requires few { length bytes.now ≤ 140 }
    ensures text { text_of line.new ≡ block_line bank bytes.now }
    ensures room { length (text_of line.new) ≤ 512 }
    ensures sink { sink_of line.new ≡ sink_of line.old }
    ensures same_sink { SameSink line.new line.old }
{
    put_word(line, b"block ");
    put_dec(line, u64::from(bank));
    put_word(line, b" ");
    for byte in bytes {
        put_byte(line, *byte);
    }
}
