//! One statement of a script, and its line.

ghost use Rattle.std.specs.Prelude.{◌≡◌, ◌+◌, ◌*◌, ◌≤◌, ◌++◌, ◌∷◌, [], length, decimal, map, codes, IsTrue};
ghost use Rattle.std.specs.List.{join_with_byte};
ghost use Rattle.ras_io.specs.Causes.{HasCause, Puts};
ghost use Rattle.ras_text.specs.Lines.{text_of, sink_of, SameSink};
ghost use Rattle.board_plan.specs.Notes.{after_spaces, choice_word, reg_word};
ghost use Rattle.board_plan.specs.Canonical.{
  line_text,
  board_line,
  event_line,
  bank_line,
  record_line,
  op_words,
  op_line,
  start_line,
  device_line,
  error_words,
  act_words,
  act_line,
  step_word,
  schedule_line,
};
ghost use Rattle.script_write.specs.Statements.{words_of, fits_line};

use board_plan::{
    BankDecl, Op, RecDecl, Reg, Start, Step, put_next_dec, put_next_word, reg_word, severity_word,
};
use ras_device::Act;
use ras_io::{Sink, SinkFault};
use ras_text::{Line, put_dec, put_word};
use reri_fields::Report;
use sse_base::EventDecl;

/// A statement.
#[derive(Clone, Copy)]
pub(crate) enum Statement<'a> {
    Board { version: u8, harts: u8 },
    Event(EventDecl),
    Bank(BankDecl),
    Plat { bank: u64, id: u32 },
    Gather { bank: u64, count: u8 },
    Record(RecDecl),
    At(u64),
    Op(Op),
    Start(Start),
    List,
    Device { k: u8, limit: u16 },
    Act { reporter: u64, act: Act },
    Schedule(&'a [Step]),
}

/// `NAME NUMBER`
fn put_number<K: Sink>(line: &mut Line<'_, K>, name: &[u8], number: u64)
    requires { length (text_of line.old) + length name.now + 21 ≤ 512 }
    ensures text { text_of line.new ≡ text_of line.old ++ join_with_byte 32 (name.now ∷ decimal number ∷ []) }
    ensures room { length (text_of line.new) ≤ length (text_of line.old) + length name.now + 21 }
    ensures sink { sink_of line.new ≡ sink_of line.old }
    ensures same_sink { SameSink line.new line.old }
{
    put_word(line, name);
    put_next_dec(line, number);
}

/// `NAME NUMBER NUMBER`
fn put_numbers<K: Sink>(line: &mut Line<'_, K>, name: &[u8], first: u64, second: u64)
    requires { length (text_of line.old) + length name.now + 42 ≤ 512 }
    ensures text { text_of line.new
        ≡ text_of line.old ++ join_with_byte 32 (name.now ∷ decimal first ∷ decimal second ∷ []) }
    ensures room { length (text_of line.new) ≤ length (text_of line.old) + length name.now + 42 }
    ensures sink { sink_of line.new ≡ sink_of line.old }
    ensures same_sink { SameSink line.new line.old }
{
    put_number(line, name, first);
    put_next_dec(line, second);
}

/// Numbers in decimal, each behind a space.
#[tactic(auto, using(crate::proofs::Further::numbers))]
fn put_next_decs<K: Sink>(line: &mut Line<'_, K>, numbers: &[u64])
    requires { length (text_of line.old) + 21 * length numbers.now ≤ 512 }
    ensures text { text_of line.new ≡ text_of line.old ++ after_spaces (map decimal numbers.now) }
    ensures room { length (text_of line.new) ≤ length (text_of line.old) + 21 * length numbers.now }
    ensures sink { sink_of line.new ≡ sink_of line.old }
    ensures same_sink { SameSink line.new line.old }
{
    for number in numbers {
        put_next_dec(line, *number);
    }
}

/// A name and a number behind spaces.
fn put_next_number<K: Sink>(line: &mut Line<'_, K>, name: &[u8], number: u64)
    requires { length (text_of line.old) + length name.now + 22 ≤ 512 }
    ensures text { text_of line.new ≡ text_of line.old ++ after_spaces (name.now ∷ decimal number ∷ []) }
    ensures room { length (text_of line.new) ≤ length (text_of line.old) + length name.now + 22 }
    ensures sink { sink_of line.new ≡ sink_of line.old }
    ensures same_sink { SameSink line.new line.old }
{
    put_next_word(line, name);
    put_next_dec(line, number);
}

/// The words of an op on a register.
fn put_reg_op<K: Sink>(line: &mut Line<'_, K>, name: &[u8], reg: Reg, number: u64)
    requires { length (text_of line.old) + length name.now + 27 ≤ 512 }
    ensures text { text_of line.new ≡ text_of line.old ++ after_spaces (name.now ∷ reg_word reg ∷ decimal number ∷ []) }
    ensures room { length (text_of line.new) ≤ length (text_of line.old) + length name.now + 27 }
    ensures sink { sink_of line.new ≡ sink_of line.old }
    ensures same_sink { SameSink line.new line.old }
{
    put_next_word(line, name);
    put_next_word(line, reg_word(reg));
    put_next_dec(line, number);
}

/// The words of a call.
#[tactic(auto, using(crate::proofs::Further::call))]
fn put_call<K: Sink>(line: &mut Line<'_, K>, eid: u64, fid: u64, args: &[u64; 5])
    requires { length (text_of line.old) + 160 ≤ 512 }
    ensures text { text_of line.new
        ≡ text_of line.old ++ after_spaces (codes "sbi" ∷ decimal eid ∷ decimal fid ∷ map decimal args.now) }
    ensures room { length (text_of line.new) ≤ length (text_of line.old) + 160 }
    ensures sink { sink_of line.new ≡ sink_of line.old }
    ensures same_sink { SameSink line.new line.old }
{
    put_next_number(line, b"sbi", eid);
    put_next_dec(line, fid);
    put_next_decs(line, args.as_slice());
}

/// The words of a jump on a word of memory.
fn put_jlt<K: Sink>(line: &mut Line<'_, K>, addr: u64, value: u64, pc: u64)
    requires { length (text_of line.old) + 70 ≤ 512 }
    ensures text { text_of line.new
        ≡ text_of line.old ++ after_spaces (codes "jlt" ∷ decimal addr ∷ decimal value ∷ decimal pc ∷ []) }
    ensures room { length (text_of line.new) ≤ length (text_of line.old) + 70 }
    ensures sink { sink_of line.new ≡ sink_of line.old }
    ensures same_sink { SameSink line.new line.old }
{
    put_next_number(line, b"jlt", addr);
    put_next_dec(line, value);
    put_next_dec(line, pc);
}

/// The words of an op that stores a number.
fn put_store<K: Sink>(line: &mut Line<'_, K>, addr: u64, value: u64)
    requires { length (text_of line.old) + 70 ≤ 512 }
    ensures text { text_of line.new
        ≡ text_of line.old ++ after_spaces (codes "store" ∷ decimal addr ∷ decimal value ∷ []) }
    ensures room { length (text_of line.new) ≤ length (text_of line.old) + 70 }
    ensures sink { sink_of line.new ≡ sink_of line.old }
    ensures same_sink { SameSink line.new line.old }
{
    put_next_number(line, b"store", addr);
    put_next_dec(line, value);
}

/// The words of an op.
fn put_op_words<K: Sink>(line: &mut Line<'_, K>, op: Op)
    requires { length (text_of line.old) + 160 ≤ 512 }
    ensures text { text_of line.new ≡ text_of line.old ++ after_spaces (op_words op) }
    ensures room { length (text_of line.new) ≤ length (text_of line.old) + 160 }
    ensures sink { sink_of line.new ≡ sink_of line.old }
    ensures same_sink { SameSink line.new line.old }
{
    match op {
        Op::Nop => put_next_word(line, b"nop"),
        Op::Sbi { eid, fid, args } => put_call(line, eid, fid, &args),
        Op::Set { reg, value } => put_reg_op(line, b"set", reg, value),
        Op::Load { reg, addr } => put_reg_op(line, b"load", reg, addr),
        Op::Save { reg, addr } => put_reg_op(line, b"save", reg, addr),
        Op::Store { addr, value } => put_store(line, addr, value),
        Op::Inc { addr } => put_next_number(line, b"inc", addr),
        Op::Jump { pc } => put_next_number(line, b"jump", pc),
        Op::Jlt { addr, value, pc } => put_jlt(line, addr, value, pc),
        Op::Sret => put_next_word(line, b"sret"),
        Op::Ack { bank } => put_next_number(line, b"ack", u64::from(bank)),
        Op::Unplug { reporter } => put_next_number(line, b"unplug", u64::from(reporter)),
    }
}

/// An op.
#[tactic(auto, using(crate::proofs::Further::one_word), unfolding(board_plan::specs::Canonical::op_line))]
fn put_op<K: Sink>(line: &mut Line<'_, K>, op: Op)
    requires { length (text_of line.old) + 170 ≤ 512 }
    ensures text { text_of line.new ≡ text_of line.old ++ join_with_byte 32 (op_line op) }
    ensures room { length (text_of line.new) ≤ length (text_of line.old) + 170 }
    ensures sink { sink_of line.new ≡ sink_of line.old }
    ensures same_sink { SameSink line.new line.old }
{
    put_word(line, b"op");
    put_op_words(line, op);
}

/// The words of an error.
#[tactic(auto, using(crate::proofs::Further::error))]
fn put_error<K: Sink>(line: &mut Line<'_, K>, report: &Report)
    requires { length (text_of line.old) + 200 ≤ 512 }
    ensures text { text_of line.new ≡ text_of line.old ++ after_spaces (error_words report.now) }
    ensures room { length (text_of line.new) ≤ length (text_of line.old) + 200 }
    ensures sink { sink_of line.new ≡ sink_of line.old }
    ensures same_sink { SameSink line.new line.old }
{
    let place = [u64::from(report.bank), u64::from(report.rec)];
    let values = [
        u64::from(report.priority),
        u64::from(report.code),
        report.address,
        report.info,
        report.supplement,
        report.time,
    ];
    put_next_word(line, b"error");
    put_next_decs(line, place.as_slice());
    put_next_word(line, severity_word(report.severity));
    put_next_decs(line, values.as_slice());
}

/// The words of an act.
fn put_act_words<K: Sink>(line: &mut Line<'_, K>, act: &Act)
    requires { length (text_of line.old) + 200 ≤ 512 }
    ensures text { text_of line.new ≡ text_of line.old ++ after_spaces (act_words act.now) }
    ensures room { length (text_of line.new) ≤ length (text_of line.old) + 200 }
    ensures sink { sink_of line.new ≡ sink_of line.old }
    ensures same_sink { SameSink line.new line.old }
{
    match act {
        Act::Error(report) => put_error(line, report),
        Act::Raise { id, hart } => {
            put_next_number(line, b"raise", u64::from(*id));
            put_next_dec(line, u64::from(*hart));
        }
    }
}

/// An act of a reporter.
#[tactic(auto, using(crate::proofs::Further::two_words), unfolding(board_plan::specs::Canonical::act_line))]
fn put_act<K: Sink>(line: &mut Line<'_, K>, reporter: u64, act: &Act)
    requires { length (text_of line.old) + 230 ≤ 512 }
    ensures text { text_of line.new ≡ text_of line.old ++ join_with_byte 32 (act_line reporter act.now) }
    ensures room { length (text_of line.new) ≤ length (text_of line.old) + 230 }
    ensures sink { sink_of line.new ≡ sink_of line.old }
    ensures same_sink { SameSink line.new line.old }
{
    put_number(line, b"act", reporter);
    put_act_words(line, act);
}

/// An entry of a schedule, behind a space.
fn put_entry<K: Sink>(line: &mut Line<'_, K>, step: Step)
    requires { length (text_of line.old) + 22 ≤ 512 }
    ensures text { text_of line.new ≡ text_of line.old ++ 32 ∷ step_word step }
    ensures room { length (text_of line.new) ≤ length (text_of line.old) + 22 }
    ensures sink { sink_of line.new ≡ sink_of line.old }
    ensures same_sink { SameSink line.new line.old }
{
    match step {
        Step::Hart(hart) => {
            put_word(line, b" h");
            put_dec(line, u64::from(hart));
        }
        Step::Reporter(reporter) => {
            put_word(line, b" r");
            put_dec(line, u64::from(reporter));
        }
    }
}

/// Entries of a schedule, each behind a space.
#[tactic(auto, using(crate::proofs::Further::entries))]
fn put_entries<K: Sink>(line: &mut Line<'_, K>, steps: &[Step])
    requires { length (text_of line.old) + 22 * length steps.now ≤ 512 }
    ensures text { text_of line.new ≡ text_of line.old ++ after_spaces (map step_word steps.now) }
    ensures room { length (text_of line.new) ≤ length (text_of line.old) + 22 * length steps.now }
    ensures sink { sink_of line.new ≡ sink_of line.old }
    ensures same_sink { SameSink line.new line.old }
{
    for step in steps {
        put_entry(line, *step);
    }
}

/// Up to 16 entries of a schedule.
#[tactic(auto, using(crate::proofs::Further::one_word), unfolding(board_plan::specs::Canonical::schedule_line))]
fn put_schedule<K: Sink>(line: &mut Line<'_, K>, steps: &[Step])
    requires empty { text_of line.old ≡ [] }
    requires few { length steps.now ≤ 16 }
    ensures text { text_of line.new ≡ join_with_byte 32 (schedule_line steps.now) }
    ensures room { length (text_of line.new) ≤ 512 }
    ensures sink { sink_of line.new ≡ sink_of line.old }
    ensures same_sink { SameSink line.new line.old }
{
    put_word(line, b"schedule");
    put_entries(line, steps);
}

/// Which of two words.
fn choice_word(yes: &'static [u8], no: &'static [u8], holds: bool) -> &'static [u8]
    ensures word { result.now ≡ choice_word yes.now no.now holds }
    ensures short { length result.now ≤ length yes.now + length no.now }
{
    if holds { yes } else { no }
}

/// An event.
#[tactic(auto, unfolding(board_plan::specs::Canonical::event_line))]
fn put_event<K: Sink>(line: &mut Line<'_, K>, event: &EventDecl)
    requires { text_of line.old ≡ [] }
    ensures text { text_of line.new ≡ join_with_byte 32 (event_line event.now) }
    ensures room { length (text_of line.new) ≤ 512 }
    ensures sink { sink_of line.new ≡ sink_of line.old }
    ensures same_sink { SameSink line.new line.old }
{
    put_number(line, b"event", u64::from(event.id.0));
    put_next_word(line, choice_word(b"inject", b"noinject", event.inject));
}

/// A bank.
#[tactic(auto, unfolding(board_plan::specs::Canonical::bank_line))]
fn put_bank<K: Sink>(line: &mut Line<'_, K>, bank: &BankDecl)
    requires { text_of line.old ≡ [] }
    ensures text { text_of line.new ≡ join_with_byte 32 (bank_line bank.now) }
    ensures room { length (text_of line.new) ≤ 512 }
    ensures sink { sink_of line.new ≡ sink_of line.old }
    ensures same_sink { SameSink line.new line.old }
{
    put_number(line, b"bank", u64::from(bank.home));
    put_next_word(line, choice_word(b"global", b"local", bank.global));
    put_next_dec(line, u64::from(bank.recs));
}

/// A record.
#[tactic(auto, unfolding(board_plan::specs::Canonical::record_line))]
fn put_record<K: Sink>(line: &mut Line<'_, K>, rec: &RecDecl)
    requires { text_of line.old ≡ [] }
    ensures text { text_of line.new ≡ join_with_byte 32 (record_line rec.now) }
    ensures room { length (text_of line.new) ≤ 512 }
    ensures sink { sink_of line.new ≡ sink_of line.old }
    ensures same_sink { SameSink line.new line.old }
{
    put_numbers(line, b"record", u64::from(rec.bank), u64::from(rec.rec));
    put_next_dec(line, rec.control);
    put_next_dec(line, u64::from(rec.count));
}

/// A start.
#[tactic(auto, unfolding(board_plan::specs::Canonical::start_line))]
fn put_start<K: Sink>(line: &mut Line<'_, K>, start: &Start)
    requires { text_of line.old ≡ [] }
    ensures text { text_of line.new ≡ join_with_byte 32 (start_line start.now) }
    ensures room { length (text_of line.new) ≤ 512 }
    ensures sink { sink_of line.new ≡ sink_of line.old }
    ensures same_sink { SameSink line.new line.old }
{
    put_numbers(line, b"start", u64::from(start.hart), start.pc);
    put_next_dec(line, u64::from(start.budget));
}

/// A reporter that is a device.
#[tactic(auto, unfolding(board_plan::specs::Canonical::device_line))]
fn put_device<K: Sink>(line: &mut Line<'_, K>, k: u8, limit: u16)
    requires { text_of line.old ≡ [] }
    ensures text { text_of line.new ≡ join_with_byte 32 (device_line k limit) }
    ensures room { length (text_of line.new) ≤ 512 }
    ensures sink { sink_of line.new ≡ sink_of line.old }
    ensures same_sink { SameSink line.new line.old }
{
    put_word(line, b"reporter");
    put_next_word(line, b"device");
    put_next_dec(line, u64::from(k));
    put_next_dec(line, u64::from(limit));
}

/// Puts the words of a statement on an empty line.
fn put_statement<K: Sink>(line: &mut Line<'_, K>, statement: Statement<'_>)
    requires empty { text_of line.old ≡ [] }
    requires fits { IsTrue (fits_line statement) }
    ensures text { text_of line.new ≡ join_with_byte 32 (words_of statement.entry) }
    ensures room { length (text_of line.new) ≤ 512 }
    ensures sink { sink_of line.new ≡ sink_of line.old }
    ensures same_sink { SameSink line.new line.old }
{
    match statement {
        Statement::Board { version, harts } => {
            put_numbers(line, b"board", u64::from(version), u64::from(harts))
        }
        Statement::Event(event) => put_event(line, &event),
        Statement::Bank(bank) => put_bank(line, &bank),
        Statement::Plat { bank, id } => { put_numbers(line, b"plat", bank, u64::from(id)) }
        Statement::Gather { bank, count } => {
            put_numbers(line, b"gather", bank, u64::from(count))
        }
        Statement::Record(rec) => put_record(line, &rec),
        Statement::At(pc) => put_number(line, b"at", pc),
        Statement::Op(op) => put_op(line, op),
        Statement::Start(start) => put_start(line, &start),
        Statement::List => {
            put_word(line, b"reporter");
            put_next_word(line, b"list");
        }
        Statement::Device { k, limit } => put_device(line, k, limit),
        Statement::Act { reporter, act } => put_act(line, reporter, &act),
        Statement::Schedule(steps) => put_schedule(line, steps),
    }
}

/// Writes a statement, as one line.
#[tactic(auto, unfolding(board_plan::specs::Canonical::line_text))]
pub(crate) fn write_statement<K: Sink>(
    line: &mut Line<'_, K>,
    statement: Statement<'_>,
) -> Result<(), SinkFault>
    requires empty { text_of line.old ≡ [] }
    requires fits { IsTrue (fits_line statement) }
    ensures empty { text_of line.new ≡ [] }
    ensures bytes { Puts (K.written (sink_of line.old)) (K.written (sink_of line.new)) result
        (line_text (words_of statement.entry)) }
    ensures cause { HasCause (K.faults (sink_of line.old)) (K.faults (sink_of line.new)) result }
    ensures same_sink { SameSink line.new line.old }
{
    put_statement(line, statement);
    line.end()
}
