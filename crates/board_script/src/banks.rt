//! Events, banks and their records.

ghost use Rattle.std.specs.Prelude.{◌≡◌};
ghost use Rattle.board_plan.specs.Script.{
  has_event,
  has_number,
  has_record,
  most_records,
  usual_gather,
  fresh_bank,
  with_event,
  bank_of,
  with_bank,
  plat_of,
  with_plat,
  gather_of,
  with_gather,
  record_of,
  with_record,
};
ghost use Rattle.board_script.specs.Reading.{texts, Moves};

use crate::fault::ReadFault;
use crate::half::Half;
use crate::words::{
    event_id, first_of_two, known_below, number_below, number_from_1_to, number_upto, platform_id,
};
use board_plan::{BankDecl, LineFault, RecDecl};
use ras_io::NoMemory;
use sse_base::{EventDecl, EventId};

const MOST_EVENTS: usize = 8;

const MOST_BANKS: usize = 4;

const MOST_GATHERED: u8 = 4;

const MOST_CONTROL: u64 = 0xff;

const MOST_COUNT: u64 = 65_535;

#[tactic(auto, unfolding(board_plan::specs::Script::has_event))]
fn has_event(id: u32, events: &[EventDecl]) -> bool
    ensures { result ≡ has_event id events.now }
{
    events.iter().any(|event| event.id.0 == id)
}

#[tactic(auto, unfolding(board_plan::specs::Script::has_number))]
fn has_number(n: u8, numbers: &[u8]) -> bool
    ensures { result ≡ has_number n numbers.now }
{
    numbers.iter().any(|number| *number == n)
}

#[tactic(auto, unfolding(board_plan::specs::Script::has_record))]
fn has_record(bank: u8, rec: u8, recs: &[RecDecl]) -> bool
    ensures { result ≡ has_record bank rec recs.now }
{
    recs.iter().any(|r| r.bank == bank && r.rec == rec)
}

fn most_records(version: u8) -> u8
    ensures { result ≡ most_records version }
{
    if version == 1 { 16 } else { 63 }
}

fn usual_gather(version: u8) -> u8
    ensures { result ≡ usual_gather version }
{
    if version == 1 { 1 } else { 4 }
}

fn fresh_bank(version: u8, home: u8, global: bool, recs: u8) -> BankDecl
    ensures { result ≡ fresh_bank version home global recs }
{
    BankDecl {
        home,
        global,
        recs,
        plat: None,
        gather: usual_gather(version),
    }
}

impl Half {
    #[tactic(auto, unfolding(board_plan::specs::Script::with_event))]
    pub(crate) fn with_event(&mut self, words: &[&[u8]]) -> Result<(), ReadFault>
        ensures { Moves result self.new (with_event self.old (texts words.now)) }
    {
        let [id, how] = words else {
            return Err(ReadFault::Line(LineFault::Count));
        };
        let id = event_id(id)?;
        let inject = first_of_two(b"inject", b"noinject", how)?;
        if has_event(id, self.events.as_slice()) {
            return Err(ReadFault::Line(LineFault::Twice));
        }
        if self.events.as_slice().len() >= MOST_EVENTS {
            return Err(ReadFault::Line(LineFault::Full));
        }
        self.events.push(EventDecl {
            id: EventId(id),
            inject,
        })?;
        Ok(())
    }

    #[tactic(auto, unfolding(board_plan::specs::Script::bank_of))]
    fn bank_of(&mut self, home: &[u8], scope: &[u8], recs: &[u8]) -> Result<(), ReadFault>
        ensures { Moves result self.new (bank_of self.old home.now scope.now recs.now) }
    {
        let home = number_below(self.harts, home)?;
        let global = first_of_two(b"global", b"local", scope)?;
        let recs = number_from_1_to(most_records(self.version), recs)?;
        if self.banks.len() >= MOST_BANKS {
            return Err(ReadFault::Line(LineFault::Full));
        }
        let bank = fresh_bank(self.version, home, global, recs);
        self.banks.push(bank).map_err(|_| NoMemory)?;
        Ok(())
    }

    #[tactic(auto, unfolding(board_plan::specs::Script::with_bank))]
    pub(crate) fn with_bank(&mut self, words: &[&[u8]]) -> Result<(), ReadFault>
        ensures { Moves result self.new (with_bank self.old (texts words.now)) }
    {
        let [home, scope, recs] = words else {
            return Err(ReadFault::Line(LineFault::Count));
        };
        self.bank_of(home, scope, recs)
    }

    #[tactic(auto, unfolding(board_plan::specs::Script::plat_of))]
    fn plat_of(&mut self, bank: &[u8], id: &[u8]) -> Result<(), ReadFault>
        ensures { Moves result self.new (plat_of self.old bank.now id.now) }
    {
        let bank = known_below(self.banks.len() as u8, bank)?;
        let id = platform_id(id)?;
        if !has_event(id, self.events.as_slice()) {
            return Err(ReadFault::Line(LineFault::Unknown));
        }
        let Some(declared) = self.banks.get_mut(usize::from(bank)) else {
            return Err(ReadFault::Line(LineFault::Unknown));
        };
        if declared.plat.is_some() {
            return Err(ReadFault::Line(LineFault::Twice));
        }
        declared.plat = Some(id);
        Ok(())
    }

    #[tactic(auto, unfolding(board_plan::specs::Script::with_plat))]
    pub(crate) fn with_plat(&mut self, words: &[&[u8]]) -> Result<(), ReadFault>
        ensures { Moves result self.new (with_plat self.old (texts words.now)) }
    {
        let [bank, id] = words else {
            return Err(ReadFault::Line(LineFault::Count));
        };
        self.plat_of(bank, id)
    }

    #[tactic(auto, unfolding(board_plan::specs::Script::gather_of))]
    fn gather_of(&mut self, bank: &[u8], count: &[u8]) -> Result<(), ReadFault>
        ensures { Moves result self.new (gather_of self.old bank.now count.now) }
    {
        let bank = known_below(self.banks.len() as u8, bank)?;
        let count = number_from_1_to(MOST_GATHERED, count)?;
        let Some(declared) = self.banks.get_mut(usize::from(bank)) else {
            return Err(ReadFault::Line(LineFault::Unknown));
        };
        if has_number(bank, self.gathered.as_slice()) {
            return Err(ReadFault::Line(LineFault::Twice));
        }
        declared.gather = count;
        self.gathered.push(bank)?;
        Ok(())
    }

    #[tactic(auto, unfolding(board_plan::specs::Script::with_gather))]
    pub(crate) fn with_gather(&mut self, words: &[&[u8]]) -> Result<(), ReadFault>
        ensures { Moves result self.new (with_gather self.old (texts words.now)) }
    {
        let [bank, count] = words else {
            return Err(ReadFault::Line(LineFault::Count));
        };
        self.gather_of(bank, count)
    }

    #[tactic(auto, unfolding(board_plan::specs::Script::record_of))]
    fn record_of(
        &mut self,
        bank: &[u8],
        rec: &[u8],
        control: &[u8],
        count: &[u8],
    ) -> Result<(), ReadFault>
        ensures { Moves result self.new (record_of self.old bank.now rec.now control.now count.now) }
    {
        let bank = known_below(self.banks.len() as u8, bank)?;
        let Some(declared) = self.banks.get(usize::from(bank)) else {
            return Err(ReadFault::Line(LineFault::Unknown));
        };
        let rec = known_below(declared.recs, rec)?;
        let control = number_upto(MOST_CONTROL, control)?;
        let count = number_upto(MOST_COUNT, count)? as u16;
        if has_record(bank, rec, self.recs.as_slice()) {
            return Err(ReadFault::Line(LineFault::Twice));
        }
        self.recs.push(RecDecl {
            bank,
            rec,
            control,
            count,
        })?;
        Ok(())
    }

    #[tactic(auto, unfolding(board_plan::specs::Script::with_record))]
    pub(crate) fn with_record(&mut self, words: &[&[u8]]) -> Result<(), ReadFault>
        ensures { Moves result self.new (with_record self.old (texts words.now)) }
    {
        let [bank, rec, control, count] = words else {
            return Err(ReadFault::Line(LineFault::Count));
        };
        self.record_of(bank, rec, control, count)
    }
}
