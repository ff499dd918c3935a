//! The commands of the top call, by their words.

ghost use Rattle.std.specs.Prelude.{◌≡◌, ◌≤◌, bytes_eq, IfSome};
ghost use Rattle.std.specs.List.{list_all};
ghost use Rattle.ras_text.specs.Numbers.{is_digit_of};
ghost use Rattle.board_plan.specs.Words.{is_digits};
ghost use Rattle.board_run.specs.Commands.{argument, command_of, command_with, load_of, option_of, pages_of, IsWithin};

use ras_text::number;

/// What is shown of a run. This project's own.
#[derive(Clone, Copy, Debug, PartialEq, Eq)]
pub enum Shown {
    /// The full report.
    Full,
    /// The trace, and then the full report.
    Traced,
    /// The short report.
    Short,
    /// The pages to retire, of at least so many corrected errors or of one that wasn't.
    Pages(u16),
}

/// What is done. This project's own.
#[derive(Clone, Copy, Debug, PartialEq, Eq)]
pub enum Command {
    /// A script is played, and so much of its run is shown.
    Play(Shown),
    /// The script of the load of this number is played, and the short report of its run is shown.
    Load(u16),
    /// A script is moved to version 2, and written again.
    Move,
}

/// The greatest number that a command takes.
const MOST: u64 = 1000;

/// Whether a word is this one.
fn is(word: &str, name: &[u8]) -> bool
    ensures { result ≡ bytes_eq word.now name.now }
{
    word.as_bytes() == name
}

/// The command that `play` is with an option.
fn option_of(option: &str) -> Option<Command>
    ensures command { result ≡ option_of option.now }
    ensures within { IfSome result (λ command. IsWithin command) }
{
    if is(option, b"--trace") {
        return Some(Command::Play(Shown::Traced));
    }
    if is(option, b"--short") {
        return Some(Command::Play(Shown::Short));
    }
    None
}

fn is_decimal_digit(byte: u8) -> bool
    ensures { result ≡ is_digit_of 10 byte }
{
    byte >= b'0' && byte <= b'9'
}

fn are_digits(word: &[u8]) -> bool
    ensures { result ≡ list_all (is_digit_of 10) word.now }
{
    word.iter().all(|byte| is_decimal_digit(*byte))
}

/// Whether a word is one decimal digit or more, and nothing else.
#[tactic(auto, unfolding(board_plan::specs::Words::is_digits))]
fn is_digits(word: &[u8]) -> bool
    ensures { result ≡ is_digits word.now }
{
    let [_, ..] = word else {
        return false;
    };
    are_digits(word)
}

/// The number of a word of one to four decimal digits, where it is from `least` to 1000.
#[tactic(auto, unfolding(crate::specs::Commands::argument))]
fn argument(least: u64, word: &[u8]) -> Option<u16>
    ensures number { result ≡ argument least word.now }
    ensures few { IfSome result (λ n. n ≤ 1000) }
{
    if !is_digits(word) || word.len() > 4 {
        return None;
    }
    let n = number(word)?;
    if n < least || n > MOST {
        return None;
    }
    Some(n as u16)
}

/// The load of a number.
fn load_of(word: &str) -> Option<Command>
    ensures command { result ≡ load_of (argument 0 word.now) }
    ensures within { IfSome result (λ command. IsWithin command) }
{
    let n = argument(0, word.as_bytes())?;
    Some(Command::Load(n))
}

/// The pages to retire by a number.
fn pages_of(word: &str) -> Option<Command>
    ensures command { result ≡ pages_of (argument 1 word.now) }
    ensures within { IfSome result (λ command. IsWithin command) }
{
    let threshold = argument(1, word.as_bytes())?;
    Some(Command::Play(Shown::Pages(threshold)))
}

/// The command of a first word with a second.
fn command_with(name: &str, word: &str) -> Option<Command>
    ensures command { result ≡ command_with name.now word.now }
    ensures within { IfSome result (λ command. IsWithin command) }
{
    if is(name, b"play") {
        return option_of(word);
    }
    if is(name, b"load") {
        return load_of(word);
    }
    if is(name, b"pages") {
        return pages_of(word);
    }
    None
}

/// The command that these words name. None where they are none.
pub(crate) fn command_of(words: &[&str]) -> Option<Command>
    ensures command { result ≡ command_of words.now }
    ensures within { IfSome result (λ command. IsWithin command) }
{
    match words {
        [name] => {
            if is(name, b"play") {
                return Some(Command::Play(Shown::Full));
            }
            if is(name, b"move") {
                return Some(Command::Move);
            }
            None
        }
        [name, word] => command_with(name, word),
        _ => None,
    }
}
