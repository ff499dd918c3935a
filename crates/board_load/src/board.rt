//! The load's board: its events, banks, records and reporters.

ghost use Rattle.std.specs.Prelude.{◌≡◌, ◌<◌, ◌≤◌, ◌+◌, ◌++◌, OnOk, string_bytes};
ghost use Rattle.board_load.specs.Load.{
  line_text,
  lines_text,
  lines_below,
  board_lines,
  control_word,
  record_line,
  bank_lines,
  list_lines,
};

use std::alloc::AllocError;

/// How many banks there are.
const BANKS: u64 = 3;
/// How many records each of them has.
const RECORDS: u64 = 4;

/// The board, its events and its banks.
#[tactic(auto, unfolding(crate::specs::Load::lines_text, crate::specs::Load::line_text))]
pub(crate) fn write_board(text: &mut String) -> Result<(), AllocError>
    ensures { OnOk result (string_bytes text.new ≡ string_bytes text.old ++ lines_text board_lines) }
{
    text.push_str(
        "board 1 4
event 0x0 noinject
event 0x8000 noinject
event 0x100000 noinject
event 0x108000 noinject
event 0xffff0000 inject
bank 0 local 4
bank 1 local 4
bank 2 global 4
",
    )
}

/// A record's control, by the sum of the bank, the record and the load's number.
fn control_word(sum: u64) -> &'static str
    ensures { result.now ≡ control_word sum }
{
    if sum % 2 == 1 { "0x97" } else { "0x95" }
}

#[tactic(auto, using(crate::proofs::Lines::parts), unfolding(crate::specs::Load::line_text))]
fn write_record(text: &mut String, n: u16, bank: u64, rec: u64) -> Result<(), AllocError>
    requires bank { bank < 3 }
    requires rec { rec < 4 }
    ensures { OnOk result (string_bytes text.new ≡ string_bytes text.old ++ line_text (record_line n bank rec)) }
{
    let control = control_word(bank + rec + u64::from(n));
    writeln!(text, "record {bank} {rec} {control} 0")
}

/// The records of a bank.
fn write_bank(text: &mut String, n: u16, bank: u64) -> Result<(), AllocError>
    requires { bank < 3 }
    ensures { OnOk result (string_bytes text.new ≡ string_bytes text.old ++ lines_text (bank_lines n bank)) }
{
    for rec in 0..RECORDS {
        write_record(text, n, bank, rec)?;
    }
    Ok(())
}

/// The records of all banks.
pub(crate) fn write_records(text: &mut String, n: u16) -> Result<(), AllocError>
    ensures { OnOk result (string_bytes text.new
        ≡ string_bytes text.old ++ lines_text (lines_below (bank_lines n) 3)) }
{
    for bank in 0..BANKS {
        write_bank(text, n, bank)?;
    }
    Ok(())
}

/// The reporters, whose acts follow.
#[tactic(auto, unfolding(crate::specs::Load::lines_text, crate::specs::Load::line_text))]
pub(crate) fn write_lists(text: &mut String) -> Result<(), AllocError>
    ensures { OnOk result (string_bytes text.new ≡ string_bytes text.old ++ lines_text list_lines) }
{
    text.push_str("reporter list\nreporter list\nreporter list\nreporter list\n")
}
