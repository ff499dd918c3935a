//! The records of a bank among its words.

ghost use Rattle.std.specs.Prelude.{◌≡◌, ◌+◌, ◌*◌, ◌<◌, ◌≤◌, length, slice_get, slice_set, Some};
ghost use Rattle.reri_fields.specs.Records.{IsRecord};
ghost use Rattle.reri_log.specs.Update.{Updates};
ghost use Rattle.reri_bank.specs.Registers.{OneChanges};
ghost use Rattle.reri_bank.specs.Layout.{copies_in, IsLaidOut};

use reri_fields::{Logged, RecordCopy, Report, Status, put_record, record_at, with_flag_at};
use reri_log::log_words;

/// The place of the summary.
pub const SUMMARY: usize = 0;

/// How many registers a record has.
const REGISTERS: usize = 6;

/// The place of a record's first word.
fn place(rec: usize) -> usize
    requires { rec < 64 }
    ensures { result ≡ 1 + 6 * rec }
{
    SUMMARY + 1 + REGISTERS * rec
}

/// The registers of one record.
pub fn read(words: &[u64], rec: usize) -> RecordCopy
    requires laid { IsLaidOut words.now }
    requires there { rec < length (copies_in words.now) }
    requires room { 7 + 6 * rec ≤ length words.now }
    ensures value { slice_get (copies_in words.now) rec ≡ Some result }
    ensures kept { IsRecord result }
{
    record_at(words, place(rec))
}

/// Writes the registers of one record, and its bit in the summary.
pub fn write(words: &mut [u64], rec: usize, copy: &RecordCopy)
    requires laid { IsLaidOut words.old }
    requires there { rec < length (copies_in words.old) }
    requires room { 7 + 6 * rec ≤ length words.old }
    requires kept { IsRecord copy.now }
    ensures laid { IsLaidOut words.new }
    ensures length { length words.new ≡ length words.old }
    ensures changed { copies_in words.new ≡ slice_set (copies_in words.old) rec copy.now }
{
    put_record(words, place(rec), copy);
    words[SUMMARY] = with_flag_at(words[SUMMARY], rec as u32, Status(copy.status).valid());
}

/// Logs an error into one record, and brings its bit in the summary up to date.
pub fn log_into(words: &mut [u64], rec: usize, report: &Report) -> Logged
    requires priority { report.now.priority < 4 }
    requires laid { IsLaidOut words.old }
    requires there { rec < length (copies_in words.old) }
    requires room { 7 + 6 * rec ≤ length words.old }
    ensures laid { IsLaidOut words.new }
    ensures length { length words.new ≡ length words.old }
    ensures changed { OneChanges (λ old new. Updates old report.now new result)
        rec (copies_in words.old) (copies_in words.new) }
{
    let answer = log_words(words, place(rec), report);
    let valid = Status(words[place(rec) + 1]).valid();
    words[SUMMARY] = with_flag_at(words[SUMMARY], rec as u32, valid);
    answer
}
