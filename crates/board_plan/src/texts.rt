//! The text of a note.

ghost use Rattle.std.specs.Prelude.{◌≡◌, ◌+◌, ◌≤◌, ◌++◌, ◌∷◌, [], length, slice_index, true, decimal, codes, IsTrue};
ghost use Rattle.std.specs.List.{join_with_byte};
ghost use Rattle.ras_text.specs.Numbers.{hexadecimal};
ghost use Rattle.ras_text.specs.Lines.{text_of, sink_of, SameSink};
ghost use Rattle.board_plan.specs.Notes.{
  choice_word,
  register_word,
  reg_word,
  severity_word,
  slot_word,
  is_accepted_write,
  after_spaces,
  written_words,
  logged_words,
  scanned_word,
  event_word,
  call_words,
  report_words,
  has_text,
  note_text,
};

use crate::next_words::{
    put_next_dec, put_next_hex, put_next_hexes, put_next_signed, put_next_word,
};
use crate::notes::StepNote;
use crate::ops::Reg;
use ras_io::Sink;
use ras_text::{Line, put_word};
use reri_fields::{Logged, Report, Severity};
use sse_base::SbiCode;

// the extension of supervisor software events, and its function write_attrs
const SSE: u64 = 0x535345;

const WRITE_ATTRS: u64 = 1;

const MOST_ATTRS: u64 = 10;

/// One of two words.
fn choice_word(yes: &'static [u8], no: &'static [u8], holds: bool) -> &'static [u8]
    ensures word { result.now ≡ choice_word yes.now no.now holds }
    ensures short { length result.now ≤ length yes.now + length no.now }
{
    if holds { yes } else { no }
}

/// The register of a record, by its place among the six.
fn register_word(register: u8) -> &'static [u8]
    ensures word { result.now ≡ register_word register }
    ensures short { length result.now ≤ 10 }
{
    match register {
        2 => b"address",
        3 => b"info",
        4 => b"supplement",
        _ => b"time",
    }
}

/// The name of a register of a hart.
pub fn reg_word(reg: Reg) -> &'static [u8]
    ensures word { result.now ≡ reg_word reg }
    ensures short { length result.now ≤ 4 }
{
    match reg {
        Reg::A6 => b"a6",
        Reg::A7 => b"a7",
        Reg::Sepc => b"sepc",
        Reg::Spp => b"spp",
        Reg::Spie => b"spie",
        Reg::Sie => b"sie",
    }
}

/// The name of a severity.
pub fn severity_word(severity: Severity) -> &'static [u8]
    ensures word { result.now ≡ severity_word severity }
    ensures short { length result.now ≤ 3 }
{
    match severity {
        Severity::Ce => b"ce",
        Severity::Ued => b"ued",
        Severity::Uec => b"uec",
    }
}

/// Whether the slot was full, where there is such a bank.
fn slot_word(was: Option<bool>) -> &'static [u8]
    ensures word { result.now ≡ slot_word was }
    ensures short { length result.now ≤ 4 }
{
    match was {
        None => b"none",
        Some(true) => b"yes",
        Some(false) => b"no",
    }
}

/// `NAME BANK RECORD`
#[inline]
fn put_record<K: Sink>(line: &mut Line<'_, K>, name: &[u8], bank: u8, rec: u8)
    requires { length (text_of line.old) + length name.now + 42 ≤ 512 }
    ensures text { text_of line.new
        ≡ text_of line.old ++ join_with_byte 32 (name.now ∷ decimal bank ∷ decimal rec ∷ []) }
    ensures room { length (text_of line.new) ≤ length (text_of line.old) + length name.now + 42 }
    ensures sink { sink_of line.new ≡ sink_of line.old }
    ensures same_sink { SameSink line.new line.old }
{
    put_word(line, name);
    put_next_dec(line, u64::from(bank));
    put_next_dec(line, u64::from(rec));
}

/// `NAME BANK RECORD WORD`
#[inline]
fn put_phase<K: Sink>(line: &mut Line<'_, K>, name: &[u8], bank: u8, rec: u8, word: &[u8])
    requires { length (text_of line.old) + length name.now + length word.now + 43 ≤ 512 }
    ensures text { text_of line.new
        ≡ text_of line.old ++ join_with_byte 32 (name.now ∷ decimal bank ∷ decimal rec ∷ word.now ∷ []) }
    ensures room { length (text_of line.new) ≤ length (text_of line.old) + length name.now + length word.now + 43 }
    ensures sink { sink_of line.new ≡ sink_of line.old }
    ensures same_sink { SameSink line.new line.old }
{
    put_record(line, name, bank, rec);
    put_next_word(line, word);
}

/// `NAME VALUE`, the value in hexadecimal.
#[inline]
fn put_hex_note<K: Sink>(line: &mut Line<'_, K>, name: &[u8], value: u64)
    requires { length (text_of line.old) + length name.now + 19 ≤ 512 }
    ensures text { text_of line.new ≡ text_of line.old ++ join_with_byte 32 (name.now ∷ hexadecimal value ∷ []) }
    ensures room { length (text_of line.new) ≤ length (text_of line.old) + length name.now + 19 }
    ensures sink { sink_of line.new ≡ sink_of line.old }
    ensures same_sink { SameSink line.new line.old }
{
    put_word(line, name);
    put_next_hex(line, value);
}

/// `NAME ADDR VALUE`, both in hexadecimal.
#[inline]
fn put_word_note<K: Sink>(line: &mut Line<'_, K>, name: &[u8], addr: u64, value: u64)
    requires { length (text_of line.old) + length name.now + 38 ≤ 512 }
    ensures text { text_of line.new
        ≡ text_of line.old ++ join_with_byte 32 (name.now ∷ hexadecimal addr ∷ hexadecimal value ∷ []) }
    ensures room { length (text_of line.new) ≤ length (text_of line.old) + length name.now + 38 }
    ensures sink { sink_of line.new ≡ sink_of line.old }
    ensures same_sink { SameSink line.new line.old }
{
    put_hex_note(line, name, addr);
    put_next_hex(line, value);
}

/// ` REG`
fn put_reg<K: Sink>(line: &mut Line<'_, K>, reg: Reg)
    requires { length (text_of line.old) + 5 ≤ 512 }
    ensures text { text_of line.new ≡ text_of line.old ++ 32 ∷ reg_word reg }
    ensures room { length (text_of line.new) ≤ length (text_of line.old) + 5 }
    ensures sink { sink_of line.new ≡ sink_of line.old }
    ensures same_sink { SameSink line.new line.old }
{
    match reg {
        Reg::A6 => put_word(line, b" a6"),
        Reg::A7 => put_word(line, b" a7"),
        Reg::Sepc => put_word(line, b" sepc"),
        Reg::Spp => put_word(line, b" spp"),
        Reg::Spie => put_word(line, b" spie"),
        Reg::Sie => put_word(line, b" sie"),
    }
}

/// `NAME REG VALUE`, the value in hexadecimal.
#[inline]
fn put_reg_note<K: Sink>(line: &mut Line<'_, K>, name: &[u8], reg: Reg, value: u64)
    requires { length (text_of line.old) + length name.now + 24 ≤ 512 }
    ensures text { text_of line.new
        ≡ text_of line.old ++ join_with_byte 32 (name.now ∷ reg_word reg ∷ hexadecimal value ∷ []) }
    ensures room { length (text_of line.new) ≤ length (text_of line.old) + length name.now + 24 }
    ensures sink { sink_of line.new ≡ sink_of line.old }
    ensures same_sink { SameSink line.new line.old }
{
    put_word(line, name);
    put_reg(line, reg);
    put_next_hex(line, value);
}

/// `NAME NUMBER WORD`
#[inline]
fn put_word_of<K: Sink>(line: &mut Line<'_, K>, name: &[u8], number: u8, word: &[u8])
    requires { length (text_of line.old) + length name.now + length word.now + 22 ≤ 512 }
    ensures text { text_of line.new
        ≡ text_of line.old ++ join_with_byte 32 (name.now ∷ decimal number ∷ word.now ∷ []) }
    ensures room { length (text_of line.new) ≤ length (text_of line.old) + length name.now + length word.now + 22 }
    ensures sink { sink_of line.new ≡ sink_of line.old }
    ensures same_sink { SameSink line.new line.old }
{
    put_word(line, name);
    put_next_dec(line, u64::from(number));
    put_next_word(line, word);
}

/// What a Scan found.
fn put_scan<K: Sink>(line: &mut Line<'_, K>, bank: u8, rec: Option<u8>)
    requires { length (text_of line.old) + 46 ≤ 512 }
    ensures text { text_of line.new
        ≡ text_of line.old ++ join_with_byte 32 (codes "scan" ∷ decimal bank ∷ scanned_word rec ∷ []) }
    ensures room { length (text_of line.new) ≤ length (text_of line.old) + 46 }
    ensures sink { sink_of line.new ≡ sink_of line.old }
    ensures same_sink { SameSink line.new line.old }
{
    match rec {
        None => put_word_of(line, b"scan", bank, b"over"),
        Some(rec) => put_record(line, b"scan", bank, rec),
    }
}

/// The level that a drain signalled, and its event.
fn put_signal<K: Sink>(line: &mut Line<'_, K>, bank: u8, level: u8, id: Option<u32>)
    requires { length (text_of line.old) + 67 ≤ 512 }
    ensures text { text_of line.new
        ≡ text_of line.old ++ join_with_byte 32 (codes "signal" ∷ decimal bank ∷ decimal level ∷ event_word id ∷ []) }
    ensures room { length (text_of line.new) ≤ length (text_of line.old) + 67 }
    ensures sink { sink_of line.new ≡ sink_of line.old }
    ensures same_sink { SameSink line.new line.old }
{
    put_record(line, b"signal", bank, level);
    match id {
        None => put_next_word(line, b"none"),
        Some(id) => put_next_hex(line, u64::from(id)),
    }
}

/// What became of an invalidation.
fn put_invalidate<K: Sink>(line: &mut Line<'_, K>, bank: u8, rec: u8, cleared: bool)
    requires { length (text_of line.old) + 70 ≤ 512 }
    ensures text { text_of line.new
        ≡ text_of line.old
        ++ join_with_byte 32
        (codes "invalidate" ∷ decimal bank ∷ decimal rec ∷ choice_word (codes "cleared") (codes "stood") cleared ∷ []) }
    ensures room { length (text_of line.new) ≤ length (text_of line.old) + 70 }
    ensures sink { sink_of line.new ≡ sink_of line.old }
    ensures same_sink { SameSink line.new line.old }
{
    put_phase(
        line,
        b"invalidate",
        bank,
        rec,
        choice_word(b"cleared", b"stood", cleared),
    );
}

/// The words of memory that went into attributes.
fn put_written<K: Sink>(line: &mut Line<'_, K>, accepted: bool, count: u64, written: &[u64; 10])
    requires room { length (text_of line.old) + 192 ≤ 512 }
    requires few { accepted ≡ true → count ≤ 10 }
    ensures text { text_of line.new ≡ text_of line.old ++ after_spaces (written_words accepted count written.now) }
    ensures room { length (text_of line.new) ≤ length (text_of line.old) + 192 }
    ensures sink { sink_of line.new ≡ sink_of line.old }
    ensures same_sink { SameSink line.new line.old }
{
    if accepted {
        let (taken, _) = written.as_slice().split_at(count as usize);
        put_next_word(line, b":");
        put_next_hexes(line, taken);
    }
}

fn is_accepted_write(eid: u64, fid: u64, args: &[u64; 5], code: SbiCode) -> bool
    ensures same { result ≡ is_accepted_write eid fid args.now code }
    ensures few { result ≡ true → slice_index args.now 2 ≤ 10 }
{
    eid == SSE && fid == WRITE_ATTRS && code == SbiCode::Success && args[2] <= MOST_ATTRS
}

/// A call and its answer.
#[tactic(auto, using(crate::proofs::Spaces::call_put), unfolding(crate::specs::Notes::call_words))]
fn put_call<K: Sink>(
    line: &mut Line<'_, K>,
    eid: u64,
    fid: u64,
    args: &[u64; 5],
    code: SbiCode,
    written: &[u64; 10],
)
    requires { length (text_of line.old) + 352 ≤ 512 }
    ensures text { text_of line.new
        ≡ text_of line.old ++ join_with_byte 32 (call_words eid fid args.now code written.now) }
    ensures room { length (text_of line.new) ≤ length (text_of line.old) + 352 }
    ensures sink { sink_of line.new ≡ sink_of line.old }
    ensures same_sink { SameSink line.new line.old }
{
    put_word_note(line, b"call", eid, fid);
    put_next_hexes(line, args.as_slice());
    put_next_word(line, b"=");
    put_next_signed(line, code.number());
    let accepted = is_accepted_write(eid, fid, args, code);
    put_written(line, accepted, args[2], written);
}

/// What became of an error.
fn put_logged<K: Sink>(line: &mut Line<'_, K>, logged: Option<Logged>)
    requires { length (text_of line.old) + 27 ≤ 512 }
    ensures text { text_of line.new ≡ text_of line.old ++ after_spaces (logged_words logged) }
    ensures room { length (text_of line.new) ≤ length (text_of line.old) + 27 }
    ensures sink { sink_of line.new ≡ sink_of line.old }
    ensures same_sink { SameSink line.new line.old }
{
    match logged {
        None => put_next_word(line, b"stray"),
        Some(Logged::Disabled) => put_next_word(line, b"disabled"),
        Some(Logged::Counted) => put_next_word(line, b"counted"),
        Some(Logged::Kept) => put_next_word(line, b"kept"),
        Some(Logged::Wrote { level }) => {
            put_next_word(line, b"wrote");
            put_next_dec(line, u64::from(level));
        }
    }
}

/// An error's record, severity, priority and code.
fn put_kind<K: Sink>(line: &mut Line<'_, K>, report: &Report)
    requires { length (text_of line.old) + 94 ≤ 512 }
    ensures text { text_of line.new
        ≡ text_of line.old
        ++ join_with_byte 32
        (codes "error" ∷ decimal report.now.bank ∷ decimal report.now.rec ∷ severity_word report.now.severity
        ∷ decimal report.now.priority ∷ decimal report.now.code ∷ []) }
    ensures room { length (text_of line.new) ≤ length (text_of line.old) + 94 }
    ensures sink { sink_of line.new ≡ sink_of line.old }
    ensures same_sink { SameSink line.new line.old }
{
    put_phase(
        line,
        b"error",
        report.bank,
        report.rec,
        severity_word(report.severity),
    );
    put_next_dec(line, u64::from(report.priority));
    put_next_dec(line, u64::from(report.code));
}

/// An error that was reported.
#[tactic(auto, using(crate::proofs::Spaces::report_put))]
fn put_report<K: Sink>(line: &mut Line<'_, K>, report: &Report)
    requires { length (text_of line.old) + 170 ≤ 512 }
    ensures text { text_of line.new ≡ text_of line.old ++ join_with_byte 32 (report_words report.now) }
    ensures room { length (text_of line.new) ≤ length (text_of line.old) + 170 }
    ensures sink { sink_of line.new ≡ sink_of line.old }
    ensures same_sink { SameSink line.new line.old }
{
    let values = [report.address, report.info, report.supplement, report.time];
    put_kind(line, report);
    put_next_hexes(line, values.as_slice());
}

/// An error that was reported, and what became of it.
#[tactic(auto, using(crate::proofs::Spaces::error_put))]
fn put_error<K: Sink>(line: &mut Line<'_, K>, report: &Report, logged: Option<Logged>)
    requires { length (text_of line.old) + 200 ≤ 512 }
    ensures text { text_of line.new
        ≡ text_of line.old ++ join_with_byte 32 (report_words report.now ++ codes "=" ∷ logged_words logged) }
    ensures room { length (text_of line.new) ≤ length (text_of line.old) + 200 }
    ensures sink { sink_of line.new ≡ sink_of line.old }
    ensures same_sink { SameSink line.new line.old }
{
    put_report(line, report);
    put_next_word(line, b"=");
    put_logged(line, logged);
}

/// An event that was raised.
fn put_raise<K: Sink>(line: &mut Line<'_, K>, id: u32, hart: u8, signalled: bool)
    requires { length (text_of line.old) + 60 ≤ 512 }
    ensures text { text_of line.new
        ≡ text_of line.old
        ++ join_with_byte 32
        (codes "raise" ∷ hexadecimal id ∷ decimal hart
        ∷ choice_word (codes "signalled") (codes "stray") signalled ∷ []) }
    ensures room { length (text_of line.new) ≤ length (text_of line.old) + 60 }
    ensures sink { sink_of line.new ≡ sink_of line.old }
    ensures same_sink { SameSink line.new line.old }
{
    put_hex_note(line, b"raise", u64::from(id));
    put_next_dec(line, u64::from(hart));
    put_next_word(line, choice_word(b"signalled", b"stray", signalled));
}

/// Appends the text of a note to the line under way, which has to have room for 352 bytes: the longest text is
/// that of a call. The note has to have a text: an actor that had no step has none, a Read names one of the registers
/// 2 to 5, and a call tells words only where it wrote attributes, as many as it wrote. The text is this project's own.
#[tactic(auto, unfolding(crate::specs::Notes::note_text, crate::specs::Notes::note_words))]
pub fn note_text<K: Sink>(line: &mut Line<'_, K>, note: &StepNote)
    requires room { length (text_of line.old) + 352 ≤ 512 }
    requires has_text { IsTrue (has_text note.now) }
    ensures text { text_of line.new ≡ text_of line.old ++ note_text note.now }
    ensures room { length (text_of line.new) ≤ length (text_of line.old) + 352 }
    ensures sink { sink_of line.new ≡ sink_of line.old }
    ensures same_sink { SameSink line.new line.old }
{
    match note {
        StepNote::Idle => {}
        StepNote::Scan { bank, rec } => put_scan(line, *bank, *rec),
        StepNote::Claim { bank, rec } => put_record(line, b"claim", *bank, *rec),
        StepNote::Read {
            bank,
            rec,
            register,
        } => put_phase(line, b"read", *bank, *rec, register_word(*register)),
        StepNote::Check { bank, rec, torn } => {
            put_phase(
                line,
                b"check",
                *bank,
                *rec,
                choice_word(b"torn", b"published", *torn),
            )
        }
        StepNote::Invalidate { bank, rec, cleared } => put_invalidate(line, *bank, *rec, *cleared),
        StepNote::Signal { bank, level, id } => put_signal(line, *bank, *level, *id),
        StepNote::Deliver { id } => put_hex_note(line, b"deliver", u64::from(*id)),
        StepNote::Call {
            eid,
            fid,
            args,
            code,
            written,
        } => put_call(line, *eid, *fid, args, *code, written),
        StepNote::Nop => put_word(line, b"nop"),
        StepNote::Set { reg, value } => put_reg_note(line, b"set", *reg, *value),
        StepNote::Load { reg, value } => put_reg_note(line, b"load", *reg, *value),
        StepNote::Save { addr, value } => put_word_note(line, b"save", *addr, *value),
        StepNote::Store { addr, value } => put_word_note(line, b"store", *addr, *value),
        StepNote::Inc { addr, value } => put_word_note(line, b"inc", *addr, *value),
        StepNote::Jump { pc } => put_hex_note(line, b"jump", *pc),
        StepNote::Jlt { taken: true } => put_word(line, b"jlt yes"),
        StepNote::Jlt { taken: false } => put_word(line, b"jlt no"),
        StepNote::Sret => put_word(line, b"sret"),
        StepNote::Ack { bank, was } => put_word_of(line, b"ack", *bank, slot_word(*was)),
        StepNote::Unplug { reporter, was } => {
            put_word_of(line, b"unplug", *reporter, choice_word(b"yes", b"no", *was))
        }
        StepNote::Illegal => put_word(line, b"illegal"),
        StepNote::Fault => put_word(line, b"fault"),
        StepNote::Error { report, logged } => put_error(line, report, *logged),
        StepNote::Raise {
            id,
            hart,
            signalled,
        } => put_raise(line, *id, *hart, *signalled),
    }
}
