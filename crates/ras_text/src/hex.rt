//! Digits of a number in hexadecimal.
ghost use Rattle.std.specs.Prelude.{◌≡◌, ◌+◌, ◌/◌, ◌%◌, ◌<◌, ◌≤◌, ◌++◌, ◌∷◌, false, length, take, drop};
ghost use Rattle.std.specs.Fmt.{digit_glyph, digits};

const GLYPHS: &[u8; 16] = b"0123456789abcdef";

// the two digits of each byte
static PAIRS: [u8; 512] =
    *b"000102030405060708090a0b0c0d0e0f101112131415161718191a1b1c1d1e1f202122232425262728292a2b2c2d2e2f303132333435363738393a3b3c3d3e3f404142434445464748494a4b4c4d4e4f505152535455565758595a5b5c5d5e5f606162636465666768696a6b6c6d6e6f707172737475767778797a7b7c7d7e7f808182838485868788898a8b8c8d8e8f909192939495969798999a9b9c9d9e9fa0a1a2a3a4a5a6a7a8a9aaabacadaeafb0b1b2b3b4b5b6b7b8b9babbbcbdbebfc0c1c2c3c4c5c6c7c8c9cacbcccdcecfd0d1d2d3d4d5d6d7d8d9dadbdcdddedfe0e1e2e3e4e5e6e7e8e9eaebecedeeeff0f1f2f3f4f5f6f7f8f9fafbfcfdfeff";

// the digit of a value below 16
#[inline]
pub(crate) fn glyph(value: u64) -> u8
    requires { value < 16 }
    ensures { result ≡ digit_glyph false value }
{
    GLYPHS[value as usize]
}

// how many digits a number has that isn't 0
#[inline]
pub(crate) fn digit_count(n: u64) -> usize
    requires { 0 < n }
    ensures count { result ≡ length (digits 16 false n) }
    ensures few { result ≤ 16 }
{
    n.ilog2() as usize / 4 + 1
}

// writes both digits of a byte at a place
#[inline]
fn write_pair(byte: u8, buf: &mut [u8], at: usize)
    requires { at + 2 ≤ length buf.old }
    ensures pair { drop at buf.new
        ≡ digit_glyph false (byte / 16) ∷ digit_glyph false (byte % 16) ∷ drop (at + 2) buf.old }
    ensures before { take at buf.new ≡ take at buf.old }
{
    let from = byte as usize * 2;
    let (high, low) = (PAIRS[from], PAIRS[from + 1]);
    buf[at] = high;
    buf[at + 1] = low;
}

// writes the last one or two digits, of a number below 256, before `end`, and says where they start
#[inline]
fn write_first(n: u8, buf: &mut [u8], end: usize) -> usize
    requires room { length (digits 16 false n) ≤ end }
    requires within { end ≤ length buf.old }
    ensures start { result + length (digits 16 false n) ≡ end }
    ensures digits { drop result buf.new ≡ digits 16 false n ++ drop end buf.old }
    ensures before { take result buf.new ≡ take result buf.old }
{
    if n < 16 {
        buf[end - 1] = glyph(n as u64);
        return end - 1;
    }
    write_pair(n, buf, end - 2);
    end - 2
}

// writes the digits of a number before `end`, two at a time from the last on, and says where they start
#[inline]
pub(crate) fn write_hex(n: u64, buf: &mut [u8], end: usize) -> usize
    requires room { length (digits 16 false n) ≤ end }
    requires within { end ≤ length buf.old }
    ensures start { result + length (digits 16 false n) ≡ end }
    ensures digits { drop result buf.new ≡ digits 16 false n ++ drop end buf.old }
    ensures before { take result buf.new ≡ take result buf.old }
{
    let mut left = n;
    let mut at = end;
    while left >= 256 {
        at -= 2;
        write_pair((left % 256) as u8, buf, at);
        left /= 256;
    }
    write_first(left as u8, buf, at)
}
