//! The drain.

ghost use Rattle.std.specs.Prelude.{◌≡◌, ◌≤◌, ◌<◌, ℕ, List, [], IsSome, Some, None, option_map};
ghost use Rattle.std.specs.Option.{option_map_or};
ghost use Rattle.reri_fields.specs.Records.{Origin};
ghost use Rattle.reri_fields.specs.Banks.{BankEvent, BankView};
ghost use Rattle.reri_fields.specs.Drain.{BankPlan, BankState, Draining, fresh_drain, phase_step};
ghost use Rattle.ras_drain.specs.Fits.{Fits, HasRoom};
ghost use Rattle.ras_drain.specs.Steps.{IsAt, Took, TornAfterClaim, StoodAfterCheck};

use crate::phases::{At, advance};
use ghes_block::Slot;
use reri_bank::Bank;
use reri_fields::{DrainNote, Phase, RecordCopy};
use std::marker::Model;

/// A drain, which takes errors out of the records of one bank into the bank's slot, one phase a step.
///
/// From the Scan that took a record up to its Invalidate, only the drain may claim the record or clear it; errors may
/// come at any time.
#[derive(Drop)]
pub struct Drain {
    at: Option<At>,
    gather: u8,
    gathered: RecordCopy,
}

impl Model for Drain {
    ghost use Rattle.ras_drain.specs.Fits.{DrainView};
    ghost use Rattle.ras_drain.specs.Inside.{where_is, IsWithin};

    ghost Value = { DrainView };

    ghost view = { λ d. record { drain = where_is d.at; gather = d.gather; gathered = d.gathered } };

    ghost invariant = { λ d. IsWithin d.gather d.at };
}

impl Drain {
    /// A drain that is not under way.
    pub fn new() -> Drain
        ensures { result.drain ≡ None }
    {
        Drain {
            at: None,
            gather: 0,
            gathered: RecordCopy::default(),
        }
    }

    /// Begins to drain, up to so many copies, 1 to 4. The next step is a Scan.
    pub fn begin(&mut self, gather: u8)
        requires idle { self.old.drain ≡ None }
        requires some { 0 < gather }
        requires few { gather ≤ 4 }
        ensures begins { self.new.drain ≡ Some fresh_drain }
        ensures gathers { self.new.gather ≡ gather }
        ensures fits { (bank : BankView) → Fits self.new bank }
        ensures room { HasRoom self.new.drain [] }
    {
        self.gather = gather;
        self.at = Some(At {
            phase: Phase::Scan,
            rec: 0,
            published: 0,
            level: 0,
        });
    }

    /// The phase that the next step takes, and the record that the drain has taken, which is 0 where it has none. None
    /// comes exactly where no drain is under way.
    pub fn phase(&self) -> Option<(Phase, u8)>
        ensures { result ≡ option_map (λ d. (d.phase, d.rec)) self.now.drain }
    {
        self.at.map(|at| (at.phase, at.rec))
    }

    /// How many copies the drain has published so far; 0 where none is under way.
    pub fn published(&self) -> u8
        ensures { result ≡ option_map_or (λ d. d.count) self.now.drain 0 }
    {
        match self.at {
            Some(at) => at.published,
            None => 0,
        }
    }

    /// Takes one phase of the drain, and says what it did. `Over` comes exactly where a Scan finds no signalled
    /// record, `Torn` exactly where an error wrote the record since its claim, and `Invalidated` says false exactly
    /// where an error wrote the record since its Check.
    pub fn step(&mut self, bank: &mut Bank, slot: &mut Slot) -> DrainNote
        requires under_way { IsSome self.old.drain }
        requires room { HasRoom self.old.drain slot.old }
        requires fits { Fits self.old bank.old }

        // Drain, bank and slot are afterwards those of the bank's next state, and the note is that state's.
        ensures does { (plan : BankPlan) (s : BankState) (d : Draining) → self.old.drain ≡ Some d
            → self.old.gather ≡ plan.gather → IsAt plan s bank.old slot.old
            → Took plan (phase_step plan s d d.phase) self.new.drain bank.new slot.new result }
        ensures gathers { self.new.gather ≡ self.old.gather }

        // The next step may be taken, whatever errors come before it.
        ensures fits { Fits self.new bank.new }
        ensures room { HasRoom self.new.drain slot.new }

        // What a torn Check and a record that isn't cleared say of the errors since.
        ensures torn { (origins : List Origin) (history : List BankEvent) (d : Draining) → self.old.drain ≡ Some d
            → TornAfterClaim origins bank.old history d result }
        ensures stood { (origins : List Origin) (history : List BankEvent) (d : Draining) → self.old.drain ≡ Some d
            → StoodAfterCheck origins bank.old history d result }
    {
        let Some(at) = self.at else {
            return DrainNote::Over;
        };
        let (next, note) = advance(at, self.gather, &mut self.gathered, bank, slot);
        self.at = next;
        note
    }
}
