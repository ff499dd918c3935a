//! Further words of a line, each behind a space.

ghost use Rattle.std.specs.Prelude.{◌≡◌, ◌+◌, ◌*◌, ◌≤◌, ◌++◌, ◌∷◌, length, decimal, map};
ghost use Rattle.std.specs.Fmt.{signed_decimal};
ghost use Rattle.ras_text.specs.Numbers.{hexadecimal};
ghost use Rattle.ras_text.specs.Lines.{text_of, sink_of, SameSink};
ghost use Rattle.board_plan.specs.Notes.{after_spaces};

use ras_io::Sink;
use ras_text::{Line, put_byte, put_dec, put_hex, put_signed, put_word};

/// Appends a space and a word to the line under way, which has to have room for them.
#[inline]
pub fn put_next_word<K: Sink>(line: &mut Line<'_, K>, word: &[u8])
    requires { length (text_of line.old) + length word.now + 1 ≤ 512 }
    ensures text { text_of line.new ≡ text_of line.old ++ 32 ∷ word.now }
    ensures room { length (text_of line.new) ≡ length (text_of line.old) + length word.now + 1 }
    ensures sink { sink_of line.new ≡ sink_of line.old }
    ensures same_sink { SameSink line.new line.old }
{
    put_byte(line, b' ');
    put_word(line, word);
}

/// Appends a space and a number in decimal to the line under way, which has to have room for 21 bytes.
#[inline]
pub fn put_next_dec<K: Sink>(line: &mut Line<'_, K>, n: u64)
    requires { length (text_of line.old) + 21 ≤ 512 }
    ensures text { text_of line.new ≡ text_of line.old ++ 32 ∷ decimal n }
    ensures room { length (text_of line.new) ≤ length (text_of line.old) + 21 }
    ensures sink { sink_of line.new ≡ sink_of line.old }
    ensures same_sink { SameSink line.new line.old }
{
    put_byte(line, b' ');
    put_dec(line, n);
}

/// Appends a space and a signed number to the line under way, which has to have room for 21 bytes.
#[inline]
pub fn put_next_signed<K: Sink>(line: &mut Line<'_, K>, n: i64)
    requires { length (text_of line.old) + 21 ≤ 512 }
    ensures text { text_of line.new ≡ text_of line.old ++ 32 ∷ signed_decimal n }
    ensures room { length (text_of line.new) ≤ length (text_of line.old) + 21 }
    ensures sink { sink_of line.new ≡ sink_of line.old }
    ensures same_sink { SameSink line.new line.old }
{
    put_byte(line, b' ');
    put_signed(line, n);
}

/// Appends a space and a number in hexadecimal to the line under way, which has to have room for 19 bytes.
#[inline]
pub fn put_next_hex<K: Sink>(line: &mut Line<'_, K>, n: u64)
    requires { length (text_of line.old) + 19 ≤ 512 }
    ensures text { text_of line.new ≡ text_of line.old ++ 32 ∷ hexadecimal n }
    ensures room { length (text_of line.new) ≤ length (text_of line.old) + 19 }
    ensures sink { sink_of line.new ≡ sink_of line.old }
    ensures same_sink { SameSink line.new line.old }
{
    put_byte(line, b' ');
    put_hex(line, n);
}

/// Appends numbers in hexadecimal, each behind a space, to the line under way, which has to have room for 19
/// bytes for each.
#[tactic(auto, using(crate::proofs::Spaces::hexes_more))]
pub fn put_next_hexes<K: Sink>(line: &mut Line<'_, K>, numbers: &[u64])
    requires { length (text_of line.old) + 19 * length numbers.now ≤ 512 }
    ensures text { text_of line.new ≡ text_of line.old ++ after_spaces (map hexadecimal numbers.now) }
    ensures room { length (text_of line.new) ≤ length (text_of line.old) + 19 * length numbers.now }
    ensures sink { sink_of line.new ≡ sink_of line.old }
    ensures same_sink { SameSink line.new line.old }
{
    for number in numbers {
        put_next_hex(line, *number);
    }
}
