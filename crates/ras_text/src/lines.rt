//! The lines of a text.
ghost use Rattle.std.specs.Prelude.{◌≡◌, ℕ, ◌<◌, ◌≤◌, ◌≢◌, ◌∷◌, length, drop, slice_index};
ghost use Rattle.ras_text.specs.Pieces.{after_newline, lines, without_return};

// the place of the first newline, or the length where there is none
fn newline_in(text: &[u8]) -> usize
    ensures within { result ≤ length text.now }
    ensures before { (k : ℕ) → k < result → slice_index text.now k ≢ 10 }
    ensures at { result < length text.now → slice_index text.now result ≡ 10 }
{
    for (i, byte) in text.iter().enumerate() {
        if *byte == b'\n' {
            return i;
        }
    }
    text.len()
}

// the text without its first byte
fn without_first(text: &[u8]) -> &[u8]
    ensures { result.now ≡ drop 1 text.now }
{
    match text {
        [_, rest @ ..] => rest,
        [] => text,
    }
}

// the line without a carriage return at its end
fn cut_return(line: &[u8]) -> &[u8]
    ensures { result.now ≡ without_return line.now }
{
    match line {
        [text @ .., b'\r'] => text,
        _ => line,
    }
}

/// The first line of a text, and the text after it. Lines end with a newline, or at the end of the
/// text; a carriage return at the end of a line isn't part of it.
#[tactic(auto, using(crate::proofs::Splits::first_line, crate::proofs::Splits::after_line))]
pub fn first_line(text: &[u8]) -> (&[u8], &[u8])
    requires { 0 < length text.now }
    ensures lines { lines text.now ≡ result.0.now ∷ lines result.1.now }
    ensures rest { result.1.now ≡ after_newline text.now }
    ensures shorter { length result.1.now < length text.now }
{
    let (line, rest) = text.split_at(newline_in(text));
    (cut_return(line), without_first(rest))
}
