//! The words of a line.
ghost use Rattle.std.specs.Prelude.{◌≡◌, ℕ, ◌<◌, ◌≤◌, true, false, length, slice_index, IsTrue};
ghost use Rattle.std.specs.Iterator.{YieldsFirstRef, item_count};
ghost use Rattle.ras_text.specs.Pieces.{words, is_blank};

use std::marker::Model;

/// The words that a line has left. It is seen as the list of them.
#[derive(Drop)]
pub struct WordIter<'a> {
    rest: &'a [u8],
}

impl<'a> Model for WordIter<'a> {
    ghost use Rattle.std.specs.Prelude.{ℕ, List};
    ghost use Rattle.ras_text.specs.Pieces.{words};

    ghost Value = { List (List ℕ) };

    ghost view = { λ s. words s.rest.now };
}

/// Cuts a line into words, from left to right. Spaces and tabs part them and belong to none. The rule
/// is this project's own.
pub fn words(line: &[u8]) -> WordIter<'_>
    ensures { result ≡ words line.now }
{
    WordIter { rest: line }
}

fn is_blank(byte: u8) -> bool
    ensures { result ≡ is_blank byte }
{
    byte == b' ' || byte == b'\t'
}

// the place of the first byte that isn't blank, or the length where there is none
fn word_in(text: &[u8]) -> usize
    ensures within { result ≤ length text.now }
    ensures before { (k : ℕ) → k < result → is_blank (slice_index text.now k) ≡ true }
    ensures at { result < length text.now → is_blank (slice_index text.now result) ≡ false }
{
    for (i, byte) in text.iter().enumerate() {
        if !is_blank(*byte) {
            return i;
        }
    }
    text.len()
}

// the place of the first blank byte, or the length where there is none
fn blank_in(text: &[u8]) -> usize
    ensures within { result ≤ length text.now }
    ensures before { (k : ℕ) → k < result → is_blank (slice_index text.now k) ≡ false }
    ensures at { result < length text.now → is_blank (slice_index text.now result) ≡ true }
{
    for (i, byte) in text.iter().enumerate() {
        if is_blank(*byte) {
            return i;
        }
    }
    text.len()
}

impl<'a> Iterator for WordIter<'a> {
    type Item = &'a [u8];

    ghost next_gives = { YieldsFirstRef (λ s. s) };

    ghost remaining = { item_count (λ s. s) };

    fn next(&mut self) -> Option<&'a [u8]> {
        let (_, text) = self.rest.split_at(word_in(self.rest));
        let (word, rest) = text.split_at(blank_in(text));
        self.rest = rest;
        if word.is_empty() {
            return None;
        }
        Some(word)
    }
}
