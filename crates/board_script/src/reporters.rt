//! Reporters and their acts.

ghost use Rattle.std.specs.Prelude.{◌≡◌, ◌≤◌, length, slice_get, []};
ghost use Rattle.board_plan.specs.Script.{
  is_number,
  has_device,
  is_list,
  added,
  fresh_list,
  device_of,
  with_list,
  with_device,
  with_reporter,
  known_list,
  with_one_act,
  error_of,
  error_act,
  with_error,
  raise_of,
  with_raise,
  with_act,
};
ghost use Rattle.board_script.specs.Reading.{texts, Moves};

use crate::fault::ReadFault;
use crate::half::Half;
use crate::words::{any_number, byte, is, known_below, number_upto, severity, word_of_32_bits};
use board_plan::{LineFault, List, Reporter};
use ras_device::Act;
use ras_io::NoMemory;
use reri_fields::Report;

const MOST_REPORTERS: usize = 8;

const MOST_ACTS: usize = 10_000;

// how many acts a list has room for at first: so many that it grows by moving its pages and not its bytes
const FIRST_ACTS: usize = 4096;

const MOST_LIMIT: u64 = 10_000;

const LAST_DEVICE: u64 = 7;

const MOST_PRIORITY: u64 = 3;
// the words behind `error`
const ERROR_WORDS: usize = 9;

#[tactic(auto, unfolding(board_plan::specs::Script::is_number))]
fn is_number(k: u8, number: Option<u8>) -> bool
    ensures { result ≡ is_number k number }
{
    match number {
        None => false,
        Some(n) => n == k,
    }
}

#[tactic(auto, unfolding(board_plan::specs::Script::has_device))]
fn has_device(k: u8, reporters: &[Reporter]) -> bool
    ensures { result ≡ has_device k reporters.now }
{
    reporters
        .iter()
        .any(|reporter| is_number(k, reporter.device))
}

#[tactic(auto, unfolding(board_plan::specs::Script::is_list))]
fn is_list(n: u8, reporters: &[Reporter]) -> bool
    ensures { result ≡ is_list (slice_get reporters.now n) }
{
    match reporters.get(usize::from(n)) {
        None => false,
        Some(reporter) => reporter.device.is_none(),
    }
}

/// The number of a reporter with acts of its own.
#[tactic(auto, unfolding(board_plan::specs::Script::known_list))]
fn known_list(reporters: &[Reporter], word: &[u8]) -> Result<u8, LineFault>
    requires { length reporters.now ≤ 8 }
    ensures { result ≡ known_list reporters.now word.now }
{
    let n = known_below(reporters.len() as u8, word)?;
    if !is_list(n, reporters) {
        return Err(LineFault::Unknown);
    }
    Ok(n)
}

/// The nine words of an error.
#[tactic(auto, unfolding(board_plan::specs::Script::error_of))]
fn error_of(
    bank: &[u8],
    rec: &[u8],
    sev: &[u8],
    pri: &[u8],
    code: &[u8],
    addr: &[u8],
    info: &[u8],
    supp: &[u8],
    time: &[u8],
) -> Result<Act, LineFault>
    ensures { result ≡ error_of bank.now rec.now sev.now pri.now code.now addr.now info.now supp.now time.now }
{
    let bank = byte(bank)?;
    let rec = byte(rec)?;
    let severity = severity(sev)?;
    let priority = number_upto(MOST_PRIORITY, pri)? as u8;
    let code = byte(code)?;
    let address = any_number(addr)?;
    let info = any_number(info)?;
    let supplement = any_number(supp)?;
    let time = any_number(time)?;
    Ok(Act::Error(Report {
        bank,
        rec,
        severity,
        priority,
        code,
        address,
        info,
        supplement,
        time,
    }))
}

#[tactic(auto, unfolding(board_plan::specs::Script::error_act))]
fn error_act(words: &[&[u8]]) -> Result<Act, LineFault>
    ensures { result ≡ error_act (texts words.now) }
{
    let [bank, rec, sev, pri, code, addr, info, supp, time] = words else {
        return Err(LineFault::Count);
    };
    error_of(bank, rec, sev, pri, code, addr, info, supp, time)
}

#[tactic(auto, unfolding(board_plan::specs::Script::raise_of))]
fn raise_of(id: &[u8], hart: &[u8]) -> Result<Act, LineFault>
    ensures { result ≡ raise_of id.now hart.now }
{
    let id = word_of_32_bits(id)?;
    let hart = byte(hart)?;
    Ok(Act::Raise { id, hart })
}

impl Half {
    #[tactic(auto, unfolding(board_plan::specs::Script::added))]
    fn add_reporter(&mut self, reporter: Reporter) -> Result<(), ReadFault>
        ensures { Moves result self.new (added self.old reporter) }
    {
        if self.reporters.len() >= MOST_REPORTERS {
            return Err(ReadFault::Line(LineFault::Full));
        }
        self.reporters.push(reporter).map_err(|_| NoMemory)?;
        Ok(())
    }

    #[tactic(auto, unfolding(board_plan::specs::Script::with_list))]
    fn with_list(&mut self, words: &[&[u8]]) -> Result<(), ReadFault>
        ensures { Moves result self.new (with_list self.old (texts words.now)) }
    {
        let [] = words else {
            return Err(ReadFault::Line(LineFault::Count));
        };
        let acts = Vec::with_capacity(self.alloc, FIRST_ACTS).map_err(|_| NoMemory)?;
        self.add_reporter(Reporter {
            device: None,
            limit: 0,
            acts: List::from_vec(acts),
        })
    }

    #[tactic(auto, unfolding(board_plan::specs::Script::with_device))]
    fn with_device(&mut self, words: &[&[u8]]) -> Result<(), ReadFault>
        ensures { Moves result self.new (with_device self.old (texts words.now)) }
    {
        let [k, limit] = words else {
            return Err(ReadFault::Line(LineFault::Count));
        };
        let k = number_upto(LAST_DEVICE, k)? as u8;
        let limit = number_upto(MOST_LIMIT, limit)? as u16;
        if has_device(k, self.reporters.as_slice()) {
            return Err(ReadFault::Line(LineFault::Twice));
        }
        self.add_reporter(Reporter {
            device: Some(k),
            limit,
            acts: List::new(self.alloc),
        })
    }

    #[tactic(auto, unfolding(board_plan::specs::Script::with_reporter))]
    pub(crate) fn with_reporter(&mut self, words: &[&[u8]]) -> Result<(), ReadFault>
        ensures { Moves result self.new (with_reporter self.old (texts words.now)) }
    {
        let [kind, words @ ..] = words else {
            return Err(ReadFault::Line(LineFault::Count));
        };
        if is(kind, b"list") {
            return self.with_list(words);
        }
        if is(kind, b"device") {
            return self.with_device(words);
        }
        Err(ReadFault::Line(LineFault::Word))
    }

    #[tactic(auto, unfolding(board_plan::specs::Script::with_one_act))]
    fn with_one_act(&mut self, n: u8, act: Act) -> Result<(), ReadFault>
        ensures { Moves result self.new (with_one_act self.old n act) }
    {
        let Some(reporter) = self.reporters.get_mut(usize::from(n)) else {
            return Err(ReadFault::Line(LineFault::Unknown));
        };
        if reporter.acts.as_slice().len() >= MOST_ACTS {
            return Err(ReadFault::Line(LineFault::Full));
        }
        reporter.acts.push(act)?;
        reporter.limit = reporter.acts.as_slice().len() as u16;
        Ok(())
    }

    #[tactic(auto, unfolding(board_plan::specs::Script::with_error))]
    fn with_error(&mut self, reporter: &[u8], words: &[&[u8]]) -> Result<(), ReadFault>
        ensures { Moves result self.new (with_error self.old reporter.now (texts words.now)) }
    {
        if words.len() != ERROR_WORDS {
            return Err(ReadFault::Line(LineFault::Count));
        }
        let n = known_list(self.reporters.as_slice(), reporter)?;
        let act = error_act(words)?;
        self.with_one_act(n, act)
    }

    #[tactic(auto, unfolding(board_plan::specs::Script::with_raise))]
    fn with_raise(&mut self, reporter: &[u8], words: &[&[u8]]) -> Result<(), ReadFault>
        ensures { Moves result self.new (with_raise self.old reporter.now (texts words.now)) }
    {
        let [id, hart] = words else {
            return Err(ReadFault::Line(LineFault::Count));
        };
        let n = known_list(self.reporters.as_slice(), reporter)?;
        let act = raise_of(id, hart)?;
        self.with_one_act(n, act)
    }

    #[tactic(auto, unfolding(board_plan::specs::Script::with_act))]
    pub(crate) fn with_act(&mut self, words: &[&[u8]]) -> Result<(), ReadFault>
        ensures { Moves result self.new (with_act self.old (texts words.now)) }
    {
        let [reporter, kind, words @ ..] = words else {
            return Err(ReadFault::Line(LineFault::Count));
        };
        if is(kind, b"error") {
            return self.with_error(reporter, words);
        }
        if is(kind, b"raise") {
            return self.with_raise(reporter, words);
        }
        Err(ReadFault::Line(LineFault::Word))
    }
}
