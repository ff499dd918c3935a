//! A bank with its slot and its drain.

ghost use Rattle.std.specs.Prelude.{◌≡◌, ◌≤◌, ◌<◌, ◌&&◌, All, IfOk, IsSome, MatchOption, Some, None, false, is_some, length, map, ℕ};
ghost use Rattle.reri_fields.specs.Banks.{AllLogsBefore};
ghost use Rattle.reri_fields.specs.Drain.{BankPlan, BankState, Draining, bank_start, bank_step, is_free, phase_step};
ghost use Rattle.reri_fields.specs.Drain.BankTry.{Reports, Drains, Acknowledges};
ghost use Rattle.reri_fields.specs.Drain.BankNote.{Heard, Drew, Acknowledged};
ghost use Rattle.reri_bank.specs.Registers.{origin_of};
ghost use Rattle.ras_drain.specs.Steps.{IsAt};
ghost use Rattle.board_bank.specs.Standing.{StandsFor, Makes};
ghost use Rattle.board_bank.specs.Inside.{Begins, Advances};

use ghes_block::Slot;
use ras_drain::Drain;
use ras_io::NoMemory;
use reri_bank::{Bank, MAX_RECORDS};
use reri_fields::{DrainNote, Logged, Report};
use std::alloc::Global;
use std::marker::Model;

/// The most copies that a drain gathers.
pub const MAX_GATHERED: u8 = 4;

/// A bank of error records with its slot and its drain. Contracts say of it what they say of each
/// bank of a plan and each state that it stands for.
#[derive(Drop)]
pub struct BoardBank {
    bank: Bank,
    slot: Slot,
    drain: Drain,
    gather: u8,
}

impl Model for BoardBank {
    ghost use Rattle.board_bank.specs.Standing.{BankParts};
    ghost use Rattle.board_bank.specs.Inside.{IsReady};

    ghost Value = { BankParts };

    ghost view = { λ b. record { bank = b.bank; slot = b.slot; drain = b.drain.drain; gather = b.gather } };

    ghost invariant = { λ b. IsReady b.bank b.slot b.drain b.gather };
}

impl BoardBank {
    /// A bank of records with these control words and starting counts, to which nothing has
    /// happened yet. A drain of it gathers up to so many copies.
    ///
    /// There are 1 to 63 records, no control word has a bit outside its fields, and a drain gathers
    /// 1 to 4 copies. `NoMemory` comes where no room was found for the records.
    pub fn new(alloc: Global, start: &[(u64, u16)], gather: u8) -> Result<BoardBank, NoMemory>
        requires any { 0 < length start.now }
        requires room { length start.now ≤ MAX_RECORDS }
        requires controls { All (λ first. first.0 ≤ 0xff) start.now }
        requires some { 1 ≤ gather }
        requires few { gather ≤ MAX_GATHERED }
        ensures { IfOk result
            (λ b. StandsFor (record { origins = map origin_of start.now; gather = gather }) bank_start b) }
    {
        let bank = Bank::new(alloc, start)?;
        Ok(BoardBank {
            bank,
            slot: Slot::new(),
            drain: Drain::new(),
            gather,
        })
    }

    /// The records.
    pub fn bank(&self) -> &Bank
        ensures { result.now ≡ self.now.bank }
    {
        &self.bank
    }

    /// The slot in which blocks are published.
    pub fn slot(&self) -> &Slot
        ensures { result.now ≡ self.now.slot }
    {
        &self.slot
    }

    /// The drain.
    pub fn drain(&self) -> &Drain
        ensures { result.now.drain ≡ self.now.drain }
    {
        &self.drain
    }

    /// Whether a drain is under way.
    pub fn is_draining(&self) -> bool
        ensures { result ≡ is_some self.now.drain }
    {
        self.drain.phase().is_some()
    }

    /// Whether a drain may begin: the bank asks, and its slot is free.
    pub fn may_begin(&self) -> bool
        ensures { result ≡ (self.now.bank.asks && is_free self.now.slot) }
    {
        self.bank.asks() && self.slot.is_free()
    }

    /// Logs an error into the record that it names, and says what became of it. None comes exactly
    /// where the bank has no record of that number. The priority is at most 3.
    pub fn report(&mut self, report: &Report) -> Option<Logged>
        requires { report.now.priority < 4 }
        ensures { (plan : BankPlan) (s : BankState) (step : ℕ) → AllLogsBefore step s.history
            → StandsFor plan s self.old
            → Makes plan s (Reports (record { step = step; report = report.now })) (Heard report.now result) self.new }
    {
        self.bank.report(report)
    }

    /// Acknowledges the block that is published, and says whether there was one.
    pub fn acknowledge(&mut self) -> bool
        ensures makes { (plan : BankPlan) (s : BankState) → StandsFor plan s self.old
            → Makes plan s Acknowledges (Acknowledged result) self.new }
        ensures bank { self.new.bank ≡ self.old.bank }
        ensures drain { self.new.drain ≡ self.old.drain }
    {
        self.slot.acknowledge()
    }

    /// Goes on with a drain by one phase, or else begins one where the bank asks and its slot is free.
    /// The answer is the record that the drain had taken before, which is 0 where it had none, and what
    /// the phase did. None comes exactly where no drain is due; then nothing changes.
    pub fn step(&mut self) -> Option<(u8, DrainNote)>
        ensures { (plan : BankPlan) (s : BankState) → StandsFor plan s self.old
            → MatchOption result ((bank_step plan s Drains ≡ None) × (self.new ≡ self.old))
            (λ drawn. Makes plan s Drains (Drew drawn.0 drawn.1) self.new) }
    {
        if !self.begin() {
            return None;
        }
        Some(self.advance())
    }

    /// Sees to it that the drain that is due is under way. False exactly where none is; then nothing changes.
    fn begin(&mut self) -> bool
        ensures due { (plan : BankPlan) (s : BankState) → StandsFor plan s self.old → Begins plan s self.old self.new }
        ensures under_way { result ≡ is_some self.new.drain }
        ensures stays { result ≡ false → self.new ≡ self.old }
    {
        if self.is_draining() {
            return true;
        }
        if !self.may_begin() {
            return false;
        }
        self.drain.begin(self.gather);
        true
    }

    /// The record that the drain has taken, 0 where it has none.
    fn record(&self) -> u8
        ensures { (d : Draining) → self.now.drain ≡ Some d → result ≡ d.rec }
    {
        match self.drain.phase() {
            Some((_, rec)) => rec,
            None => 0,
        }
    }

    /// Lets the drain take one phase, and its bank and slot with it.
    fn advance(&mut self) -> (u8, DrainNote)
        requires { IsSome self.old.drain }
        ensures { (plan : BankPlan) (s : BankState) (d : Draining) → self.old.drain ≡ Some d
            → self.old.gather ≡ plan.gather
            → IsAt plan s self.old.bank self.old.slot → Advances plan s d self.new result.0 result.1 }
    {
        let rec = self.record();
        let note = self.drain.step(&mut self.bank, &mut self.slot);
        (rec, note)
    }
}
