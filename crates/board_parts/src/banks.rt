//! The steps of banks.

ghost use Rattle.std.specs.Prelude.{◌≡◌, ◌<◌, ◌+◌, length, ℕ, slice_get, Some, None, IfSome};
ghost use Rattle.reri_fields.specs.Drain.{BankState};
ghost use Rattle.reri_fields.specs.Drain.BankTry.{Reports, Drains, Acknowledges};
ghost use Rattle.reri_fields.specs.Banks.{AllLogsBefore};
ghost use Rattle.board_plan.specs.declared.plan.Plan.{Plan};
ghost use Rattle.board_plan.specs.State.{BoardState};
ghost use Rattle.board_plan.specs.Step.{at_bank, bank_due, is_draining, is_waiting, passes};
ghost use Rattle.board_parts.specs.Shows.{Shows};
ghost use Rattle.board_parts.specs.Came.{Takes, came, outcome_of};
ghost use Rattle.board_parts.specs.Walked.{waits_below};

use crate::outcome::Outcome;
use crate::parts::Parts;
use crate::signals::drawn;
use board_plan::StepNote;
use reri_fields::Report;

impl Parts {
    // ---- Which bank a hart drains ----

    /// Whether a drain of a hart's bank is under way.
    fn is_draining(&self, hart: u8, at: usize) -> bool
        requires { at < length self.now.banks.items }
        ensures { (plan : Plan) (s : BoardState) → Shows plan s self.now
            → passes (is_draining hart plan at) (slice_get plan.banks at) (slice_get s.banks at) ≡ result }
    {
        if self.decls[at].home != hart {
            return false;
        }
        self.banks[at].is_draining()
    }

    /// Whether a drain of a hart's bank may begin.
    fn is_waiting(&self, hart: u8, at: usize) -> bool
        requires { at < length self.now.banks.items }
        ensures { (plan : Plan) (s : BoardState) → Shows plan s self.now
            → passes (is_waiting hart plan at) (slice_get plan.banks at) (slice_get s.banks at) ≡ result }
    {
        if self.decls[at].home != hart {
            return false;
        }
        self.banks[at].may_begin()
    }

    /// The first bank of a hart whose drain may begin among those up to this one, of which `before` is the first among
    /// those below it.
    fn first_waiting(&self, hart: u8, at: usize, before: Option<u8>) -> Option<u8>
        requires here { at < length self.now.banks.items }
        requires there { IfSome before (λ bank. bank < length self.now.banks.items) }
        ensures which { (plan : Plan) (s : BoardState) → Shows plan s self.now
            → waits_below hart plan s.banks at ≡ before → waits_below hart plan s.banks (at + 1) ≡ result }
        ensures there { IfSome result (λ bank. bank < length self.now.banks.items) }
    {
        if before.is_some() {
            return before;
        }
        if !self.is_waiting(hart, at) {
            return None;
        }
        Some(at as u8)
    }

    /// The bank that a hart drains next, by a walk over those of its span.
    fn first_due(&self, hart: u8) -> Option<u8>
        ensures which { (plan : Plan) (s : BoardState) → Shows plan s self.now → bank_due hart plan s.banks ≡ result }
        ensures there { IfSome result (λ at. at < length self.now.banks.items) }
    {
        let span = self.homes[hart as usize];
        let mut waiting = None;
        for at in span.first as usize..span.end as usize {
            if self.is_draining(hart, at) {
                return Some(at as u8);
            }
            waiting = self.first_waiting(hart, at, waiting);
        }
        waiting
    }

    /// The bank that a hart drains next: the first whose drain is under way, else the first whose drain may begin.
    pub(crate) fn due(&self, hart: u8) -> Option<u8>
        ensures which { (plan : Plan) (s : BoardState) → Shows plan s self.now → bank_due hart plan s.banks ≡ result }
        ensures there { IfSome result (λ at. at < length self.now.banks.items) }
    {
        if !self.heard {
            return None;
        }
        self.first_due(hart)
    }

    // ---- What is done at a bank ----

    /// Takes the next phase of a bank's drain. False where no drain is due; then nothing changes.
    pub(crate) fn drain(&mut self, bank: u8, outcome: &mut Outcome) -> bool
        requires { bank < length self.old.banks.items }
        ensures takes { (plan : Plan) (s : BoardState) → Shows plan s self.old
            → Takes plan s (at_bank bank Drains plan s.machine.events s.banks) self.new (came result outcome.new) }
        ensures harts { self.new.firmware.events.harts ≡ self.old.firmware.events.harts }
        ensures counts { self.new.counts.items ≡ self.old.counts.items }
    {
        let at = bank as usize;
        let decl = &self.decls[at];
        self.heard = true;
        let Some((rec, did)) = self.banks[at].step() else {
            return false;
        };
        drawn(&mut self.firmware, decl, bank, rec, &did, outcome);
        true
    }

    /// Acknowledges a bank's block. False where the board hasn't the bank; then nothing changes.
    pub(crate) fn acknowledge(&mut self, bank: u8, note: &mut StepNote) -> bool
        ensures takes { (plan : Plan) (s : BoardState) → Shows plan s self.old
            → Takes plan s (at_bank bank Acknowledges plan s.machine.events s.banks) self.new
            (came result (outcome_of note.new None)) }
        ensures harts { self.new.firmware.events.harts ≡ self.old.firmware.events.harts }
        ensures counts { self.new.counts.items ≡ self.old.counts.items }
    {
        let at = bank as usize;
        if at >= self.banks.len() {
            return false;
        }
        let full = self.banks[at].acknowledge();
        *note = StepNote::Ack {
            bank,
            was: Some(full),
        };
        true
    }

    /// Reports an error to its bank. False where the board hasn't the bank; then nothing changes.
    pub(crate) fn report(&mut self, report: &Report, note: &mut StepNote) -> bool
        requires { report.now.priority < 4 }
        ensures takes { (plan : Plan) (s : BoardState) (n : ℕ) → Shows plan s self.old
            → ((i : ℕ) (x : BankState) → slice_get s.banks i ≡ Some x → AllLogsBefore n x.history)
            → Takes plan s (at_bank report.now.bank (Reports (record { step = n; report = report.now })) plan
            s.machine.events s.banks) self.new (came result (outcome_of note.new None)) }
        ensures harts { self.new.firmware.events.harts ≡ self.old.firmware.events.harts }
    {
        let at = report.bank as usize;
        if at >= self.banks.len() {
            return false;
        }
        self.heard = true;
        let logged = self.banks[at].report(report);
        *note = StepNote::Error {
            report: *report,
            logged,
        };
        true
    }
}
