//! Reads a script line by line.

ghost use Rattle.std.specs.Prelude.{◌≡◌, ◌<◌, ◌≤◌, ◌+◌, ◌^◌, [], ◌∷◌, ◌++◌, length, IfOk, IfErr, OnOk, Ok};
ghost use Rattle.ras_text.specs.Pieces.{words, lines, is_blank, without_return};
ghost use Rattle.board_plan.specs.Script.{
  statement,
  is_comment,
  is_passed,
  after_line,
  follow,
  begin,
  script,
  Reads,
};
ghost use Rattle.board_plan.specs.Plans.{IsPlan, AreReports};
ghost use Rattle.board_plan.specs.Run.{lists};
ghost use Rattle.move_laws.specs.Moves.{GathersByVersion};
ghost use Rattle.board_script.specs.Reading.{texts, line_of, as_word, Moves, IsFault, Passes, EntriesAreOfBoard};

use crate::fault::{ReadFault, ScriptError};
use crate::half::{Half, board};
use crate::words::is;
use board_plan::{LineFault, Plan};
use ras_io::NoMemory;
use std::alloc::Global;

impl Half {
    #[tactic(auto, unfolding(board_plan::specs::Script::statement))]
    fn statement(&mut self, words: &[&[u8]]) -> Result<(), ReadFault>
        ensures { Moves result self.new (statement self.old (texts words.now)) }
    {
        let [name, words @ ..] = words else {
            return Err(ReadFault::Line(LineFault::Word));
        };
        if is(name, b"act") {
            return self.with_act(words);
        }
        if is(name, b"op") {
            return self.with_op(words);
        }
        if is(name, b"at") {
            return self.with_address(words);
        }
        if is(name, b"schedule") {
            return self.with_schedule(words);
        }
        if is(name, b"record") {
            return self.with_record(words);
        }
        if is(name, b"event") {
            return self.with_event(words);
        }
        if is(name, b"bank") {
            return self.with_bank(words);
        }
        if is(name, b"plat") {
            return self.with_plat(words);
        }
        if is(name, b"gather") && self.version == 2 {
            return self.with_gather(words);
        }
        if is(name, b"start") {
            return self.with_start(words);
        }
        if is(name, b"reporter") {
            return self.with_reporter(words);
        }
        if is(name, b"board") {
            return Err(ReadFault::Line(LineFault::Twice));
        }
        Err(ReadFault::Line(LineFault::Word))
    }

    /// Takes a line behind the first statement, by its number and its words.
    #[tactic(auto, unfolding(board_plan::specs::Script::after_line))]
    fn take_line(&mut self, line: u32, words: &[&[u8]]) -> Result<(), ScriptError>
        ensures { Passes result self.new (after_line line self.old (texts words.now)) }
    {
        if is_passed(words) {
            return Ok(());
        }
        match self.statement(words) {
            Ok(()) => Ok(()),
            Err(ReadFault::Line(kind)) => Err(ScriptError::BadLine { line, kind }),
            Err(ReadFault::NoMemory) => Err(ScriptError::NoMemory),
        }
    }
}

/// Whether the word begins a comment.
fn is_comment(word: &[u8]) -> bool
    ensures { result ≡ is_comment word.now }
{
    let [first, ..] = word else {
        return false;
    };
    *first == b'#'
}

/// Whether the line is no statement, by its words.
fn is_passed(words: &[&[u8]]) -> bool
    ensures { result ≡ is_passed (texts words.now) }
{
    let [first, ..] = words else {
        return true;
    };
    is_comment(first)
}

/// Whether the byte parts words.
fn is_blank(byte: u8) -> bool
    ensures { result ≡ is_blank byte }
{
    byte == b' ' || byte == b'\t'
}

/// A part of a line without a carriage return at its end.
fn without_return(part: &[u8]) -> &[u8]
    ensures { result.now ≡ without_return part.now }
{
    match part {
        [word @ .., b'\r'] => word,
        _ => part,
    }
}

/// Adds a part of a line to its words, unless it is empty.
fn add_word<'a>(into: &mut Vec<&'a [u8]>, part: &'a [u8]) -> Result<(), NoMemory>
    ensures ok { OnOk result (texts into.new.items ≡ texts into.old.items ++ as_word part.now) }
{
    match part {
        [] => Ok(()),
        _ => into.push(part).map_err(|_| NoMemory),
    }
}

/// Puts the words of a text's first line into a vector, in the place of what it had, and hands out the text after that
/// line.
fn gather<'a>(into: &mut Vec<&'a [u8]>, text: &'a [u8]) -> Result<&'a [u8], NoMemory>
    requires { 0 < length text.now }
    ensures words { OnOk result (texts into.new.items ≡ words (line_of text.now)) }
    ensures lines { IfOk result (λ rest. lines text.now ≡ line_of text.now ∷ lines rest.now) }
    ensures shorter { IfOk result (λ rest. length rest.now < length text.now) }
{
    into.clear();
    let mut start = 0;
    for (i, byte) in text.iter().enumerate() {
        // no byte above the space ends a word
        if *byte > b' ' {
            continue;
        }
        if *byte == b'\n' {
            add_word(into, without_return(&text[start..i]))?;
            return Ok(&text[i + 1..]);
        }
        if !is_blank(*byte) {
            continue;
        }
        add_word(into, &text[start..i])?;
        start = i + 1;
    }
    add_word(into, without_return(&text[start..]))?;
    Ok(&text[text.len()..])
}

/// What the first statement makes, the number of the line after it, and the text from there on.
#[derive(Drop)]
struct Begun<'a> {
    half: Half,
    line: u32,
    rest: &'a [u8],
}

/// Reads up to the first statement and that statement.
#[tactic(auto, unfolding(board_plan::specs::Script::begin))]
fn begin<'a>(
    alloc: Global,
    text: &'a [u8],
    into: &mut Vec<&'a [u8]>,
) -> Result<Begun<'a>, ScriptError>
    requires { length text.now + 1 < 2 ^ 32 }
    ensures begun { IfOk result (λ b. begin 1 (lines text.now) ≡ follow b.line b.half (lines b.rest.now)) }
    ensures short { IfOk result (λ b. b.line + length b.rest.now ≤ 1 + length text.now) }
    ensures refused { IfErr result (λ e. IsFault e (begin 1 (lines text.now))) }
{
    let mut line = 1;
    let mut rest = text;
    while !rest.is_empty() {
        let after = gather(into, rest)?;
        if !is_passed(into.as_slice()) {
            return match board(alloc, into.as_slice()) {
                Ok(half) => Ok(Begun {
                    half,
                    line: line + 1,
                    rest: after,
                }),
                Err(kind) => Err(ScriptError::BadLine { line, kind }),
            };
        }
        line += 1;
        rest = after;
    }
    Err(ScriptError::BadLine {
        line,
        kind: LineFault::Head,
    })
}

/// Reads the lines behind the first statement.
#[tactic(auto, unfolding(board_plan::specs::Script::follow))]
fn follow<'a>(begun: Begun<'a>, into: &mut Vec<&'a [u8]>) -> Result<Plan, ScriptError>
    requires { begun.line + length begun.rest.now < 2 ^ 32 }
    ensures plan { IfOk result (λ p. follow begun.entry.line begun.entry.half (lines begun.entry.rest.now) ≡ Ok p) }
    ensures refused { IfErr result
        (λ e. IsFault e (follow begun.entry.line begun.entry.half (lines begun.entry.rest.now))) }
{
    let Begun {
        mut half,
        mut line,
        mut rest,
    } = begun;
    while !rest.is_empty() {
        let after = gather(into, rest)?;
        half.take_line(line, into.as_slice())?;
        line += 1;
        rest = after;
    }
    Ok(half.into_plan())
}

/// Reads a script. BadLine comes exactly where the text isn't one: the first line that is refused, and
/// why. NoMemory comes where no memory is found. A plan that is read is one that a board can be made of, and each
/// error that its reporters act has a priority below 4; the entries of its schedule name harts and reporters of the
/// board; and in version 1 each bank gathers one copy. The form of scripts is this project's own.
#[tactic(auto, unfolding(board_plan::specs::Script::script))]
pub fn read(alloc: Global, text: &[u8]) -> Result<Plan, ScriptError>
    requires { length text.now + 1 < 2 ^ 32 }
    ensures plan { IfOk result (λ plan. Reads text.now plan) }
    ensures is_plan { IfOk result (λ plan. IsPlan plan) }
    ensures reports { IfOk result (λ plan. AreReports (lists plan [])) }
    ensures entries { IfOk result (λ plan. EntriesAreOfBoard plan) }
    ensures gathers { IfOk result (λ plan. GathersByVersion plan) }
    ensures refused { IfErr result (λ e. IsFault e (script text.now)) }
{
    let mut words = Vec::new(alloc);
    let begun = begin(alloc, text, &mut words)?;
    follow(begun, &mut words)
}
