//! The bank.
ghost use Rattle.std.specs.Prelude.{All, IfOk, map, ◌≡◌, ◌≤◌, ◌<◌, ◌↔◌, ◌+◌, ◌*◌, ◌%◌, ℕ, List, ◌∷◌, [], length, slice_get, slice_set, nat_lt, ◌||◌, IsNone, IfSome, IfNone, Some, false};
ghost use Rattle.reri_fields.specs.Records.{Origin, IsRecord};
ghost use Rattle.reri_fields.specs.Outcome.{outcome};
ghost use Rattle.reri_fields.specs.Banks.{BankEvent, BankStands, AllLogsBefore, events_of, level_in, IsLeast, is_signalled_at, is_signalled_after};
ghost use Rattle.reri_fields.specs.Banks.BankEvent.{Logs, Claims, Invalidates, ScanOver};
ghost use Rattle.reri_log.specs.Update.{Updates};
ghost use Rattle.reri_bank.specs.Registers.{origin_of, OneChanges, IsClaimed, IsInvalidated, summary};
ghost use Rattle.reri_bank.specs.Accesses.{IsThere, accessed, Makes, Gives};
ghost use Rattle.reri_bank.specs.Layout.{word_at};

use crate::access::Access;
use crate::layout;
use crate::record::{claim, invalidate, is_signalled};
use ras_io::NoMemory;
use reri_fields::{Logged, RecordCopy, Report};
use std::alloc::Global;
use std::marker::Model;

/// The most records that a bank can have.
pub const MAX_RECORDS: usize = 63;

/// The records of a bank, and whether the bank asks to be drained.
///
/// Contracts see the registers of each record and the ask flag. Behind them is one row of words: the summary, and then
/// six words for each record.
#[derive(Drop)]
pub struct Bank {
    words: Vec<u64>,
    count: usize,
    asks: bool,
}

impl Model for Bank {
    ghost use Rattle.reri_fields.specs.Banks.{BankView};
    ghost use Rattle.reri_bank.specs.Layout.{copies_in, IsLaidOut};
    ghost use Rattle.std.specs.Prelude.{◌≡◌, length};

    ghost Value = { BankView };

    ghost view = { λ bank. record { copies = copies_in bank.words.items; asks = bank.asks } };

    ghost invariant = { λ bank. IsLaidOut bank.words.items × (bank.count ≡ length (copies_in bank.words.items)) };
}

impl Bank {
    /// A bank of records with these control words and starting counts, to which nothing has happened yet.
    ///
    /// There are 1 to 63 of them, and no control word has a bit outside its fields. `NoMemory` comes where no room was
    /// found for them.
    pub fn new(alloc: Global, start: &[(u64, u16)]) -> Result<Bank, NoMemory>
        requires any { 0 < length start.now }
        requires room { length start.now ≤ MAX_RECORDS }
        requires controls { All (λ first. first.0 ≤ 0xff) start.now }
        ensures { IfOk result (λ bank. BankStands (map origin_of start.now) [] bank) }
    {
        let mut words = Vec::with_capacity(alloc, 1 + 6 * start.len()).map_err(|_| NoMemory)?;
        words.push(0).map_err(|_| NoMemory)?;
        for &(control, count) in start {
            let fresh = RecordCopy::fresh(control, count).registers();
            words.extend_from_slice(&fresh).map_err(|_| NoMemory)?;
        }
        Ok(Bank {
            words,
            count: start.len(),
            asks: false,
        })
    }

    /// The word at a byte offset, as the bank is laid out: the summary first, and then the six registers of each
    /// record, 8 bytes a word. None comes exactly where the offset is not a multiple of 8 or is past the last word.
    pub fn word(&self, offset: u64) -> Option<u64>
        ensures value { result ≡ word_at self.now.copies offset }
        ensures none { IsNone result ↔ ¬ ((offset % 8 ≡ 0) × (offset < 8 * (1 + 6 * length self.now.copies))) }
    {
        if offset % 8 != 0 {
            return None;
        }
        let at = (offset / 8) as usize;
        if at >= self.words.len() {
            return None;
        }
        Some(self.words[at])
    }

    /// The registers of a record, where the bank has it.
    fn find(&self, rec: u8) -> Option<RecordCopy>
        ensures there { IsNone result ↔ ¬ (rec < length self.now.copies) }
        ensures value { result ≡ slice_get self.now.copies rec }
        ensures kept { IfSome result (λ copy. IsRecord copy) }
    {
        let at = rec as usize;
        if at >= self.count {
            return None;
        }
        Some(layout::read(&self.words, at))
    }

    /// Writes the registers of a record.
    fn put(&mut self, rec: u8, copy: &RecordCopy)
        requires there { rec < length self.old.copies }
        requires kept { IsRecord copy.now }
        ensures { self.new ≡ record self.old { copies = slice_set self.old.copies rec copy.now } }
    {
        layout::write(&mut self.words, rec as usize, copy);
    }

    /// What a reader's access does and answers. None comes exactly where the record's number is not below the bank's
    /// count of records or the register's is above 5, and then nothing changed.
    pub fn access(&mut self, access: Access) -> Option<u64>
        ensures there { IsNone result ↔ ¬ (IsThere (length self.old.copies) access) }
        ensures value { IfSome result (λ value. Gives access self.old.copies self.new.copies value) }
        ensures stands { (origins : List Origin) (history : List BankEvent) → BankStands origins history self.old
            → BankStands origins (accessed access history) self.new }

        // The same for any registers.
        ensures records { IfSome result (λ _. Makes access self.old.copies self.new.copies) }
        ensures asking { self.new.asks ≡ self.old.asks }
        ensures unchanged { IfNone result (self.new ≡ self.old) }
    {
        match access {
            Access::Read { rec, register } => self.read(rec, register),
            Access::Summary => Some(self.summary()),
            Access::SetRead { rec } => self.set_read(rec),
            Access::Invalidate { rec } => self.invalidate(rec),
        }
    }

    /// One register of a record.
    fn read(&self, rec: u8, register: u8) -> Option<u64>
        ensures there { IsNone result ↔ ¬ (IsThere (length self.now.copies) (Access.Read rec register)) }
        ensures value { IfSome result (λ value.
            Gives (Access.Read rec register) self.now.copies self.now.copies value) }
    {
        let registers = self.find(rec)?.registers();
        registers.get(register as usize).copied()
    }

    /// One bit for each valid record.
    fn summary(&self) -> u64
        ensures { result ≡ summary self.now.copies }
    {
        self.words[layout::SUMMARY]
    }

    /// Sets read-in-progress of a valid record, and reads its status.
    fn set_read(&mut self, rec: u8) -> Option<u64>
        ensures there { IsNone result ↔ ¬ (IsThere (length self.old.copies) (Access.SetRead rec)) }
        ensures value { IfSome result (λ value. Gives (Access.SetRead rec) self.old.copies self.new.copies value) }
        ensures stands { (origins : List Origin) (history : List BankEvent) → BankStands origins history self.old
            → BankStands origins (Claims rec ∷ history) self.new }
        ensures records { IfSome result (λ _. OneChanges IsClaimed rec self.old.copies self.new.copies) }
        ensures asking { self.new.asks ≡ self.old.asks }
        ensures unchanged { IfNone result (self.new ≡ self.old) }
    {
        let mut copy = self.find(rec)?;
        claim(&mut copy);
        self.put(rec, &copy);
        Some(copy.status)
    }

    /// Clears a record whose read-in-progress is set.
    fn invalidate(&mut self, rec: u8) -> Option<u64>
        ensures there { IsNone result ↔ ¬ (IsThere (length self.old.copies) (Access.Invalidate rec)) }
        ensures value { IfSome result (λ value. Gives (Access.Invalidate rec) self.old.copies self.new.copies value) }
        ensures stands { (origins : List Origin) (history : List BankEvent) → BankStands origins history self.old
            → BankStands origins (Invalidates rec ∷ history) self.new }
        ensures records { IfSome result (λ _. OneChanges IsInvalidated rec self.old.copies self.new.copies) }
        ensures asking { self.new.asks ≡ self.old.asks }
        ensures unchanged { IfNone result (self.new ≡ self.old) }
    {
        let mut copy = self.find(rec)?;
        let cleared = invalidate(&mut copy);
        self.put(rec, &copy);
        Some(u64::from(cleared))
    }

    /// Logs an error into the record that it names, which the bank has.
    fn log_at(&mut self, report: &Report) -> Logged
        requires priority { report.now.priority < 4 }
        requires there { report.now.rec < length self.old.copies }
        ensures records { OneChanges (λ old new. Updates old report.now new result)
            report.now.rec self.old.copies self.new.copies }
        ensures asking { self.new.asks ≡ self.old.asks }
    {
        layout::log_into(&mut self.words, report.rec as usize, report)
    }

    /// Logs an error into the record that it names, and sets the ask flag where it wrote the record at a level other
    /// than 0. None comes exactly where the bank has no record of that number, and then nothing changed.
    pub fn report(&mut self, report: &Report) -> Option<Logged>
        requires { report.now.priority < 4 }
        ensures none { IsNone result ↔ (length self.old.copies ≤ report.now.rec) }
        ensures stands { (origins : List Origin) (history : List BankEvent) (step : ℕ) → AllLogsBefore step history
            → BankStands origins history self.old
            → BankStands origins (Logs (record { step = step; report = report.now }) ∷ history) self.new }
        ensures answer { (origins : List Origin) (history : List BankEvent) (step : ℕ) (origin : Origin)
            → AllLogsBefore step history → BankStands origins history self.old
            → slice_get origins report.now.rec ≡ Some origin
            → result ≡ Some (outcome origin (events_of report.now.rec history)
            (record { step = step; report = report.now })) }

        // The same for any registers.
        ensures records { IfSome result (λ answer. OneChanges (λ old new. Updates old report.now new answer)
            report.now.rec self.old.copies self.new.copies) }
        ensures asking { IfSome result (λ answer. self.new.asks ≡ (self.old.asks || nat_lt 0 (level_in answer))) }
        ensures unchanged { IfNone result (self.new ≡ self.old) }
    {
        if report.rec as usize >= self.count {
            return None;
        }
        let answer = self.log_at(report);
        self.asks |= level(answer) > 0;
        Some(answer)
    }

    /// Whether the bank asks to be drained: an error wrote a record at a level other than 0 since the last search that
    /// found none signalled, or since the start.
    pub fn asks(&self) -> bool
        ensures { result ≡ self.now.asks }
    {
        self.asks
    }

    /// The least number of a signalled record: one that is valid and whose control has a code other than 0 for its
    /// greatest severity. None comes exactly where no record is signalled.
    pub fn next_signalled(&self) -> Option<u8>
        ensures least { IsLeast (is_signalled_at self.now.copies) result }
        ensures stands { (origins : List Origin) (history : List BankEvent) → BankStands origins history self.now
            → IsLeast (is_signalled_after origins history) result }
    {
        for rec in 0..self.count {
            if is_signalled(&layout::read(&self.words, rec)) {
                return Some(rec as u8);
            }
        }
        None
    }

    /// Takes the ask flag back, once a search has found no signalled record.
    pub fn clear_ask(&mut self)
        requires { IsLeast (is_signalled_at self.old.copies) None }
        ensures stands { (origins : List Origin) (history : List BankEvent) → BankStands origins history self.old
            → BankStands origins (ScanOver ∷ history) self.new }
        ensures view { self.new ≡ record self.old { asks = false } }
    {
        self.asks = false;
    }

    /// The six registers of a record. Whatever happened to the record, it is valid exactly where it has a severity,
    /// and no bit outside the fields of its control and status is set.
    pub fn copy_of(&self, rec: u8) -> RecordCopy
        requires { rec < length self.now.copies }
        ensures value { slice_get self.now.copies rec ≡ Some result }
        ensures kept { IsRecord result }
    {
        layout::read(&self.words, rec as usize)
    }
}

/// The level at which an answer is signalled; 0 for an error that did not write.
#[tactic(auto, unfolding(reri_fields::specs::Banks::level_in))]
fn level(answer: Logged) -> u8
    ensures { result ≡ level_in answer }
{
    match answer {
        Logged::Wrote { level } => level,
        _ => 0,
    }
}
