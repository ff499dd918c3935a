//! The parts of a report, each line after line.

ghost use Rattle.std.specs.Prelude.{◌≡◌, ◌+◌, ◌*◌, ◌≤◌, ◌<◌, [], length, map, take, drop};
ghost use Rattle.ras_text.specs.Lines.{text_of};
ghost use Rattle.sse_base.specs.Events.{slots};
ghost use Rattle.sse_base.specs.Machine.{stack_of};
ghost use Rattle.board_plan.specs.Text.{
  frame_lines,
  lines_of_hart,
  hart_lines,
  event_line,
  bytes_of_entry,
  block_lines,
  word_lines,
  entries_of_line,
  schedule_lines,
};
ghost use Rattle.board_report.specs.Told.{
  AreWords,
  EachAreWords,
  HaveRecords,
  HaveTexts,
  told_bank_lines,
  told_banks,
  told_records,
  told_steps,
};
ghost use Rattle.board_report.specs.Writing.{Adds, SamePages};

use crate::pages::Pages;
use crate::writes::{
    write_bank, write_block, write_entries, write_event, write_frame, write_hart, write_registers,
    write_step, write_word,
};
use board_parts::Parts;
use board_plan::{BankDecl, Counts, Step, StepNote};
use ghes_block::Slot;
use ras_io::Sink;
use reri_bank::Bank;
use reri_fields::Phase;
use sbi_sse::Firmware;
use sse_table::Table;

/// How many entries of a schedule stand on a line.
const ENTRIES: usize = 16;

/// How many bytes of a block stand on its first line: its header and its first entry.
const FIRST: usize = 140;

/// How many bytes of a block stand on each further line: an entry.
const FURTHER: usize = 120;

/// How many bytes the header of a block has.
const HEADER: usize = 20;

/// The address of the first word of memory.
const MEMORY: u64 = 0x8000_0000;

/// The handlers that run on a hart, from the oldest.
pub(crate) fn write_frames<K: Sink>(pages: &mut Pages<'_, K>, hart: u8, firmware: &Firmware)
    requires empty { text_of pages.old.line ≡ [] }
    requires hart { hart < firmware.now.events.harts }
    ensures empty { text_of pages.new.line ≡ [] }
    ensures wrote { Adds K.written K.faults K.writes pages.old pages.new
        (frame_lines hart (stack_of hart firmware.now).frames (stack_of hart firmware.now).base) }
    ensures same_pages { SamePages pages.new pages.old }
{
    for k in 0..firmware.depth(hart) {
        let (at, saved) = firmware.running(hart, k);
        write_frame(pages, hart, k as u64 + 1, at, &saved);
    }
}

/// A hart and its handlers.
pub(crate) fn write_one_hart<K: Sink>(
    pages: &mut Pages<'_, K>,
    hart: u8,
    counts: &Counts,
    masked: bool,
    firmware: &Firmware,
)
    requires empty { text_of pages.old.line ≡ [] }
    requires hart { hart < firmware.now.events.harts }
    ensures empty { text_of pages.new.line ≡ [] }
    ensures wrote { Adds K.written K.faults K.writes pages.old pages.new
        (lines_of_hart hart counts.now masked (stack_of hart firmware.now)) }
    ensures same_pages { SamePages pages.new pages.old }
{
    write_hart(pages, hart, counts, masked, firmware);
    write_frames(pages, hart, firmware);
}

/// The harts.
pub(crate) fn write_harts<K: Sink>(pages: &mut Pages<'_, K>, parts: &Parts)
    requires { text_of pages.old.line ≡ [] }
    ensures empty { text_of pages.new.line ≡ [] }
    ensures wrote { Adds K.written K.faults K.writes pages.old pages.new
        (hart_lines 0 parts.now.counts.items parts.now.firmware.masks parts.now.firmware.stacks) }
    ensures same_pages { SamePages pages.new pages.old }
{
    let firmware = parts.firmware();
    for hart in 0..firmware.harts() {
        let masked = firmware.targets().is_masked(hart);
        write_one_hart(pages, hart, &parts.counts(hart), masked, firmware);
    }
}

/// The instances, in order.
pub(crate) fn write_events<K: Sink>(pages: &mut Pages<'_, K>, table: &Table)
    requires { text_of pages.old.line ≡ [] }
    ensures empty { text_of pages.new.line ≡ [] }
    ensures wrote { Adds K.written K.faults K.writes pages.old pages.new (map event_line (slots table.now)) }
    ensures same_pages { SamePages pages.new pages.old }
{
    for i in 0..table.instances() {
        write_event(pages, &table.slot(i));
    }
}

/// The records of a bank.
pub(crate) fn write_records<K: Sink>(pages: &mut Pages<'_, K>, number: u8, bank: &Bank, count: u8)
    requires empty { text_of pages.old.line ≡ [] }
    requires count { count ≡ length bank.now.copies }
    ensures empty { text_of pages.new.line ≡ [] }
    ensures wrote { Adds K.written K.faults K.writes pages.old pages.new (told_records number 0 bank.now.copies) }
    ensures words { AreWords bank.now.copies }
    ensures same_pages { SamePages pages.new pages.old }
{
    for rec in 0..count {
        write_registers(pages, number, rec, &bank.copy_of(rec));
    }
}

/// Up to so many bytes from a place on.
fn part(bytes: &[u8], start: usize, most: usize) -> &[u8]
    ensures bytes { result.now ≡ take most (drop start bytes.now) }
    ensures few { length result.now ≤ most }
{
    if bytes.len() <= start {
        return b"";
    }
    let (_, rest) = bytes.split_at(start);
    if rest.len() <= most {
        return rest;
    }
    let (part, _) = rest.split_at(most);
    part
}

/// The bytes of a block that stand on one of its lines.
#[tactic(auto, unfolding(board_plan::specs::Text::bytes_of_entry))]
fn bytes_of_entry(bytes: &[u8], k: usize) -> &[u8]
    requires { k < 4 }
    ensures bytes { result.now ≡ bytes_of_entry bytes.now k }
    ensures few { length result.now ≤ 140 }
{
    if k == 0 {
        part(bytes, 0, FIRST)
    } else {
        part(bytes, HEADER + FURTHER * k, FURTHER)
    }
}

/// The block that a slot holds, an entry a line.
pub(crate) fn write_blocks<K: Sink>(pages: &mut Pages<'_, K>, bank: u8, slot: &Slot)
    requires { text_of pages.old.line ≡ [] }
    ensures empty { text_of pages.new.line ≡ [] }
    ensures wrote { Adds K.written K.faults K.writes pages.old pages.new (block_lines bank slot.now) }
    ensures same_pages { SamePages pages.new pages.old }
{
    for k in 0..slot.copies().len() {
        write_block(pages, bank, bytes_of_entry(slot.bytes(), k));
    }
}

/// A bank, its records, and the block in its slot.
pub(crate) fn write_one_bank<K: Sink>(
    pages: &mut Pages<'_, K>,
    number: u8,
    decl: &BankDecl,
    bank: &Bank,
    slot: &Slot,
    phase: Option<(Phase, u8)>,
)
    requires empty { text_of pages.old.line ≡ [] }
    requires count { decl.now.recs ≡ length bank.now.copies }
    ensures empty { text_of pages.new.line ≡ [] }
    ensures wrote { Adds K.written K.faults K.writes pages.old pages.new
        (told_bank_lines number decl.now bank.now slot.now phase) }
    ensures words { AreWords bank.now.copies }
    ensures same_pages { SamePages pages.new pages.old }
{
    write_bank(pages, number, decl, bank.asks(), slot.copies(), phase);
    write_records(pages, number, bank, decl.recs);
    write_blocks(pages, number, slot);
}

/// The banks.
pub(crate) fn write_banks<K: Sink>(pages: &mut Pages<'_, K>, parts: &Parts)
    requires empty { text_of pages.old.line ≡ [] }
    requires records { HaveRecords parts.now.decls.items parts.now.banks.items }
    ensures empty { text_of pages.new.line ≡ [] }
    ensures wrote { Adds K.written K.faults K.writes pages.old pages.new
        (told_banks 0 parts.now.decls.items parts.now.banks.items) }
    ensures words { EachAreWords parts.now.banks.items }
    ensures same_pages { SamePages pages.new pages.old }
{
    for number in 0..parts.bank_count() {
        let decl = parts.bank_decl(number);
        let bank = parts.records(number);
        let slot = parts.slot(number);
        let phase = parts.phase(number);
        write_one_bank(pages, number, decl, bank, slot, phase);
    }
}

/// The words of memory that aren't 0.
pub(crate) fn write_words<K: Sink>(pages: &mut Pages<'_, K>, words: &[u64])
    requires empty { text_of pages.old.line ≡ [] }
    requires few { length words.now ≤ 512 }
    ensures empty { text_of pages.new.line ≡ [] }
    ensures wrote { Adds K.written K.faults K.writes pages.old pages.new (word_lines 0x80000000 words.now) }
    ensures same_pages { SamePages pages.new pages.old }
{
    for i in 0..words.len() {
        write_word(pages, MEMORY + 8 * i as u64, words[i]);
    }
}

/// The entries of one line of a schedule.
#[tactic(auto, unfolding(board_plan::specs::Text::entries_of_line))]
fn entries_of(steps: &[Step], k: usize) -> &[Step]
    requires { 16 * k ≤ length steps.now }
    ensures entries { result.now ≡ entries_of_line steps.now k }
    ensures few { length result.now ≤ 16 }
{
    let (_, rest) = steps.split_at(ENTRIES * k);
    if rest.len() <= ENTRIES {
        return rest;
    }
    let (entries, _) = rest.split_at(ENTRIES);
    entries
}

/// The steps that were made.
pub(crate) fn write_schedule<K: Sink>(pages: &mut Pages<'_, K>, steps: &[Step])
    requires empty { text_of pages.old.line ≡ [] }
    requires few { length steps.now ≤ 160000 }
    ensures empty { text_of pages.new.line ≡ [] }
    ensures wrote { Adds K.written K.faults K.writes pages.old pages.new (schedule_lines steps.now) }
    ensures same_pages { SamePages pages.new pages.old }
{
    let lines = ((steps.len() + 15) / ENTRIES).max(1);
    for k in 0..lines {
        write_entries(pages, entries_of(steps, k));
    }
}

/// The steps that were made with their notes, as lines of a trace.
pub(crate) fn write_steps<K: Sink>(pages: &mut Pages<'_, K>, steps: &[Step], notes: &[StepNote])
    requires empty { text_of pages.old.line ≡ [] }
    requires notes { length notes.now ≡ length steps.now }
    requires texts { HaveTexts notes.now }
    ensures empty { text_of pages.new.line ≡ [] }
    ensures wrote { Adds K.written K.faults K.writes pages.old pages.new (told_steps 1 steps.now notes.now) }
    ensures same_pages { SamePages pages.new pages.old }
{
    for i in 0..steps.len() {
        write_step(pages, i as u64 + 1, steps[i], &notes[i]);
    }
}
