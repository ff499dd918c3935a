//! What the words of a line stand for.

ghost use Rattle.std.specs.Prelude.{◌≡◌, ◌≤◌, ◌<◌, IfOk};
ghost use Rattle.std.specs.List.{list_all};
ghost use Rattle.ras_text.specs.Numbers.{is_digit_of};
ghost use Rattle.sse_base.specs.Ids.{is_platform};
ghost use Rattle.board_plan.specs.Words.{
  is,
  first_of_two,
  severity,
  register,
  any_number,
  number_upto,
  number_from_1_to,
  number_below,
  known_below,
  op_address,
  value_of,
  may_be_on_board,
  event_id,
  platform_id,
  is_digits,
  entry_number,
  hart_entry,
  reporter_entry,
  entry,
};

use board_plan::{LineFault, Reg, Step};
use ras_text::number;
use reri_fields::Severity;
use sse_base::{EventClass, EventId};

// where the last op address is that `at` can name
const LAST_ADDRESS: u64 = 0xffff_0000;

#[tactic(auto, unfolding(board_plan::specs::Words::is))]
pub(crate) fn is(word: &[u8], keyword: &[u8]) -> bool
    ensures { result ≡ is word.now keyword.now }
{
    word == keyword
}

/// Whether the word is the first of two keywords.
#[tactic(auto, unfolding(board_plan::specs::Words::first_of_two))]
pub(crate) fn first_of_two(first: &[u8], second: &[u8], word: &[u8]) -> Result<bool, LineFault>
    ensures { result ≡ first_of_two first.now second.now word.now }
{
    if is(word, first) {
        return Ok(true);
    }
    if is(word, second) {
        return Ok(false);
    }
    Err(LineFault::Word)
}

#[tactic(auto, unfolding(board_plan::specs::Words::severity))]
pub(crate) fn severity(word: &[u8]) -> Result<Severity, LineFault>
    ensures { result ≡ severity word.now }
{
    if is(word, b"ce") {
        return Ok(Severity::Ce);
    }
    if is(word, b"ued") {
        return Ok(Severity::Ued);
    }
    if is(word, b"uec") {
        return Ok(Severity::Uec);
    }
    Err(LineFault::Word)
}

#[tactic(auto, unfolding(board_plan::specs::Words::register))]
pub(crate) fn register(word: &[u8]) -> Result<Reg, LineFault>
    ensures { result ≡ register word.now }
{
    if is(word, b"a6") {
        return Ok(Reg::A6);
    }
    if is(word, b"a7") {
        return Ok(Reg::A7);
    }
    if is(word, b"sepc") {
        return Ok(Reg::Sepc);
    }
    if is(word, b"spp") {
        return Ok(Reg::Spp);
    }
    if is(word, b"spie") {
        return Ok(Reg::Spie);
    }
    if is(word, b"sie") {
        return Ok(Reg::Sie);
    }
    Err(LineFault::Word)
}

#[tactic(auto, unfolding(board_plan::specs::Words::any_number))]
pub(crate) fn any_number(word: &[u8]) -> Result<u64, LineFault>
    ensures { result ≡ any_number word.now }
{
    match number(word) {
        None => Err(LineFault::Number),
        Some(n) => Ok(n),
    }
}

#[tactic(auto, unfolding(board_plan::specs::Words::number_upto))]
pub(crate) fn number_upto(most: u64, word: &[u8]) -> Result<u64, LineFault>
    ensures same { result ≡ number_upto most word.now }
    ensures small { IfOk result (λ n. n ≤ most) }
{
    let n = any_number(word)?;
    if n > most {
        return Err(LineFault::Range);
    }
    Ok(n)
}

/// A number that fits a byte.
pub(crate) fn byte(word: &[u8]) -> Result<u8, LineFault>
    ensures { result ≡ number_upto 255 word.now }
{
    let n = number_upto(255, word)?;
    Ok(n as u8)
}

#[tactic(auto, unfolding(board_plan::specs::Words::number_from_1_to))]
pub(crate) fn number_from_1_to(most: u8, word: &[u8]) -> Result<u8, LineFault>
    ensures same { result ≡ number_from_1_to most word.now }
    ensures small { IfOk result (λ n. n ≤ most) }
{
    let n = number_upto(u64::from(most), word)?;
    if n == 0 {
        return Err(LineFault::Range);
    }
    Ok(n as u8)
}

#[tactic(auto, unfolding(board_plan::specs::Words::number_below))]
pub(crate) fn number_below(limit: u8, word: &[u8]) -> Result<u8, LineFault>
    ensures { result ≡ number_below limit word.now }
{
    let n = any_number(word)?;
    if n >= u64::from(limit) {
        return Err(LineFault::Range);
    }
    Ok(n as u8)
}

/// The number of one of so many things.
#[tactic(auto, unfolding(board_plan::specs::Words::known_below))]
pub(crate) fn known_below(count: u8, word: &[u8]) -> Result<u8, LineFault>
    ensures { result ≡ known_below count word.now }
{
    let n = any_number(word)?;
    if n >= u64::from(count) {
        return Err(LineFault::Unknown);
    }
    Ok(n as u8)
}

/// An address that `at` can name.
#[tactic(auto, unfolding(board_plan::specs::Words::op_address))]
pub(crate) fn op_address(word: &[u8]) -> Result<u64, LineFault>
    ensures same { result ≡ op_address word.now }
    ensures small { IfOk result (λ n. n ≤ 0xffff0000) }
{
    let n = number_upto(LAST_ADDRESS, word)?;
    if n % 2 != 0 {
        return Err(LineFault::Range);
    }
    Ok(n)
}

/// The value of a register: 0 or 1 where it has one bit.
#[tactic(auto, unfolding(board_plan::specs::Words::value_of))]
pub(crate) fn value_of(reg: Reg, word: &[u8]) -> Result<u64, LineFault>
    ensures { result ≡ value_of reg word.now }
{
    match reg {
        Reg::A6 => any_number(word),
        Reg::A7 => any_number(word),
        Reg::Sepc => any_number(word),
        Reg::Spp => number_upto(1, word),
        Reg::Spie => number_upto(1, word),
        Reg::Sie => number_upto(1, word),
    }
}

#[tactic(auto, unfolding(board_plan::specs::Words::may_be_on_board))]
fn may_be_on_board(id: u32) -> bool
    ensures { result ≡ may_be_on_board id }
{
    match EventId(id).class() {
        EventClass::Reserved => false,
        EventClass::Defined => id != 1,
        EventClass::Platform => id != 1,
    }
}

/// A number of 32 bits.
pub(crate) fn word_of_32_bits(word: &[u8]) -> Result<u32, LineFault>
    ensures { result ≡ number_upto 0xffffffff word.now }
{
    let n = number_upto(0xffff_ffff, word)?;
    Ok(n as u32)
}

/// An id that a board can have.
#[tactic(auto, unfolding(board_plan::specs::Words::event_id))]
pub(crate) fn event_id(word: &[u8]) -> Result<u32, LineFault>
    ensures { result ≡ event_id word.now }
{
    let id = word_of_32_bits(word)?;
    if !may_be_on_board(id) {
        return Err(LineFault::Range);
    }
    Ok(id)
}

#[tactic(auto, unfolding(sse_base::specs::Ids::is_platform))]
fn is_platform(id: u32) -> bool
    ensures { result ≡ is_platform id }
{
    (id >> 14) % 2 == 1
}

/// An id with the platform's bit.
#[tactic(auto, unfolding(board_plan::specs::Words::platform_id))]
pub(crate) fn platform_id(word: &[u8]) -> Result<u32, LineFault>
    ensures { result ≡ platform_id word.now }
{
    let id = word_of_32_bits(word)?;
    if !is_platform(id) {
        return Err(LineFault::Range);
    }
    Ok(id)
}

fn is_decimal_digit(byte: u8) -> bool
    ensures { result ≡ is_digit_of 10 byte }
{
    byte >= b'0' && byte <= b'9'
}

fn are_digits(word: &[u8]) -> bool
    ensures { result ≡ list_all (is_digit_of 10) word.now }
{
    word.iter().all(|byte| is_decimal_digit(*byte))
}

/// One decimal digit or more.
#[tactic(auto, unfolding(board_plan::specs::Words::is_digits))]
fn is_digits(word: &[u8]) -> bool
    ensures { result ≡ is_digits word.now }
{
    let [_, ..] = word else {
        return false;
    };
    are_digits(word)
}

#[tactic(auto, unfolding(board_plan::specs::Words::entry_number))]
fn entry_number(digits: &[u8]) -> Result<u8, LineFault>
    ensures { result ≡ entry_number digits.now }
{
    if !is_digits(digits) {
        return Err(LineFault::Word);
    }
    let Some(n) = number(digits) else {
        return Err(LineFault::Range);
    };
    if n > 255 {
        return Err(LineFault::Range);
    }
    Ok(n as u8)
}

#[tactic(auto, unfolding(board_plan::specs::Words::hart_entry))]
fn hart_entry(harts: u8, digits: &[u8]) -> Result<Step, LineFault>
    ensures { result ≡ hart_entry harts digits.now }
{
    let n = entry_number(digits)?;
    if n >= harts {
        return Err(LineFault::Unknown);
    }
    Ok(Step::Hart(n))
}

#[tactic(auto, unfolding(board_plan::specs::Words::reporter_entry))]
fn reporter_entry(reporters: u8, digits: &[u8]) -> Result<Step, LineFault>
    ensures { result ≡ reporter_entry reporters digits.now }
{
    let n = entry_number(digits)?;
    if n >= reporters {
        return Err(LineFault::Unknown);
    }
    Ok(Step::Reporter(n))
}

/// An entry of a schedule: `h` or `r` and a number in decimal digits.
#[tactic(auto, unfolding(board_plan::specs::Words::entry))]
pub(crate) fn entry(harts: u8, reporters: u8, word: &[u8]) -> Result<Step, LineFault>
    ensures { result ≡ entry harts reporters word.now }
{
    let [letter, digits @ ..] = word else {
        return Err(LineFault::Word);
    };
    if *letter == b'h' {
        return hart_entry(harts, digits);
    }
    if *letter == b'r' {
        return reporter_entry(reporters, digits);
    }
    Err(LineFault::Word)
}
