//! Lines that go to a sink, each in one write.
ghost use Rattle.std.specs.Prelude.{◌≡◌, ◌+◌, ◌<◌, ◌≤◌, ◌++◌, [], ◌∷◌, length, decimal};
ghost use Rattle.std.specs.Fmt.{signed_decimal};
ghost use Rattle.ras_io.specs.Causes.{HasCause, Puts, one_more};
ghost use Rattle.ras_text.specs.Numbers.{hexadecimal};
ghost use Rattle.ras_text.specs.Lines.{text_of, sink_of, Borrows, SameSink};

use crate::hex::{digit_count, glyph, write_hex};
use itoa::{Buffer, write_digits};
use ras_io::{Sink, SinkFault};

// the bytes of a line, and its newline
const ROOM: usize = 513;

/// A line under way, of at most 512 bytes, and the sink that it goes to. In clauses `text_of` is
/// its text so far and `sink_of` the sink.
#[derive(Drop)]
pub struct Line<'a, K: Sink> {
    sink: &'a mut K,
    bytes: [u8; ROOM],
    len: usize,
}

impl<'a, K: Sink> Line<'a, K> {
    /// An empty line that goes to `sink`.
    pub fn new(sink: &'a mut K) -> Line<'a, K>
        ensures empty { text_of result ≡ [] }
        ensures sink { sink_of result ≡ sink.old }
        ensures same_reference { Borrows result sink.entry }
    {
        Line {
            sink,
            bytes: [0; ROOM],
            len: 0,
        }
    }

    /// Ends the line: gives it to the sink with a newline behind it, as one write. The line is empty
    /// afterwards, whatever came of the write. The one error is the sink's, of which its count tells.
    pub fn end(&mut self) -> Result<(), SinkFault>
        requires { length (text_of self.old) ≤ 512 }
        ensures empty { text_of self.new ≡ [] }
        ensures bytes { Puts (K.written (sink_of self.old)) (K.written (sink_of self.new)) result
            (text_of self.old ++ 10 ∷ []) }
        ensures cause { HasCause (K.faults (sink_of self.old)) (K.faults (sink_of self.new)) result }
        ensures one_write { K.writes (sink_of self.new) ≡ one_more (K.writes (sink_of self.old)) }
        ensures same_reference { SameSink self.new self.old }
    {
        let end = self.len;
        self.bytes[end] = b'\n';
        let result = self.sink.write(&self.bytes[..end + 1]);
        self.clear();
        result
    }

    /// Empties the line, which goes to the same sink as before.
    pub fn clear(&mut self)
        ensures empty { text_of self.new ≡ [] }
        ensures sink { sink_of self.new ≡ sink_of self.old }
        ensures same_reference { SameSink self.new self.old }
    {
        self.len = 0;
    }
}

/// Appends a byte to the line under way, which has to have room for it.
#[inline]
pub fn put_byte<K: Sink>(line: &mut Line<'_, K>, byte: u8)
    requires { length (text_of line.old) + 1 ≤ 512 }
    ensures text { text_of line.new ≡ text_of line.old ++ byte ∷ [] }
    ensures sink { sink_of line.new ≡ sink_of line.old }
    ensures same_reference { SameSink line.new line.old }
{
    let end = line.len;
    line.bytes[end] = byte;
    line.len = end + 1;
}

/// Appends a word to the line under way, which has to have room for it.
#[inline]
pub fn put_word<K: Sink>(line: &mut Line<'_, K>, word: &[u8])
    requires { length (text_of line.old) + length word.now ≤ 512 }
    ensures text { text_of line.new ≡ text_of line.old ++ word.now }
    ensures sink { sink_of line.new ≡ sink_of line.old }
    ensures same_reference { SameSink line.new line.old }
{
    let end = line.len + word.len();
    line.bytes[line.len..end].copy_from_slice(word);
    line.len = end;
}

/// Appends a number in decimal to the line under way, which has to have room for 20 bytes.
#[inline]
pub fn put_dec<K: Sink>(line: &mut Line<'_, K>, n: u64)
    requires { length (text_of line.old) + 20 ≤ 512 }
    ensures text { text_of line.new ≡ text_of line.old ++ decimal n }
    ensures room { length (text_of line.new) ≤ length (text_of line.old) + 20 }
    ensures sink { sink_of line.new ≡ sink_of line.old }
    ensures same_reference { SameSink line.new line.old }
{
    if n < 10 {
        put_byte(line, b'0' + n as u8);
    } else {
        put_digits(line, n);
    }
}

/// Appends a signed number in decimal to the line under way, which has to have room for 20 bytes.
#[inline]
pub fn put_signed<K: Sink>(line: &mut Line<'_, K>, n: i64)
    requires { length (text_of line.old) + 20 ≤ 512 }
    ensures text { text_of line.new ≡ text_of line.old ++ signed_decimal n }
    ensures room { length (text_of line.new) ≤ length (text_of line.old) + 20 }
    ensures sink { sink_of line.new ≡ sink_of line.old }
    ensures same_reference { SameSink line.new line.old }
{
    if n >= 0 {
        put_dec(line, n as u64);
    } else {
        put_word(line, Buffer::new().format(n).as_bytes());
    }
}

/// Appends a number in hexadecimal to the line under way, as `0x` and lower-case digits with no
/// leading zero. The line has to have room for 18 bytes.
#[inline]
pub fn put_hex<K: Sink>(line: &mut Line<'_, K>, n: u64)
    requires { length (text_of line.old) + 18 ≤ 512 }
    ensures text { text_of line.new ≡ text_of line.old ++ hexadecimal n }
    ensures room { length (text_of line.new) ≤ length (text_of line.old) + 18 }
    ensures sink { sink_of line.new ≡ sink_of line.old }
    ensures same_reference { SameSink line.new line.old }
{
    if n < 16 {
        put_word(line, &[b'0', b'x', glyph(n)]);
    } else {
        put_hex_digits(line, n);
    }
}

// appends a number of two digits or more in decimal
#[inline(never)]
fn put_digits<K: Sink>(line: &mut Line<'_, K>, n: u64)
    requires some { 0 < n }
    requires room { length (text_of line.old) + 20 ≤ 512 }
    ensures text { text_of line.new ≡ text_of line.old ++ decimal n }
    ensures room { length (text_of line.new) ≤ length (text_of line.old) + 20 }
    ensures sink { sink_of line.new ≡ sink_of line.old }
    ensures same_reference { SameSink line.new line.old }
{
    let end = line.len + n.ilog10() as usize + 1;
    let _first = write_digits(n, &mut line.bytes, end);
    line.len = end;
}

// appends a number of two digits or more in hexadecimal
#[inline(never)]
fn put_hex_digits<K: Sink>(line: &mut Line<'_, K>, n: u64)
    requires some { 0 < n }
    requires room { length (text_of line.old) + 18 ≤ 512 }
    ensures text { text_of line.new ≡ text_of line.old ++ hexadecimal n }
    ensures room { length (text_of line.new) ≤ length (text_of line.old) + 18 }
    ensures sink { sink_of line.new ≡ sink_of line.old }
    ensures same_reference { SameSink line.new line.old }
{
    let start = line.len;
    let end = start + 2 + digit_count(n);
    line.bytes[start] = b'0';
    line.bytes[start + 1] = b'x';
    let _first = write_hex(n, &mut line.bytes, end);
    line.len = end;
}
