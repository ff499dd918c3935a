//! Fields put at places of an array, one behind the other.
#![tactic(auto, using(crate::proofs::Digits::digits_are))]

ghost use Rattle.std.specs.Prelude.{◌≡◌, ◌+◌, ◌≤◌, ◌++◌, length, take, drop};
ghost use Rattle.byteorder.specs.Endian.{little_number};
ghost use Rattle.reri_fields.specs.Block.{digits};

use byteorder::{ByteOrder, LittleEndian};

/// Puts the bytes at a place; all other bytes stay.
pub(crate) fn put_within(out: &mut [u8], place: usize, bytes: &[u8])
    requires { place + length bytes.now ≤ length out.old }
    ensures front { take (place + length bytes.now) out.new ≡ take place out.old ++ bytes.now }
    ensures rest { drop (place + length bytes.now) out.new ≡ drop (place + length bytes.now) out.old }
    ensures length { length out.new ≡ length out.old }
{
    out[place..place + bytes.len()].copy_from_slice(bytes);
}

/// Puts the bytes at a place, behind what was put before.
pub(crate) fn put_bytes(out: &mut [u8], place: usize, bytes: &[u8])
    requires { place + length bytes.now ≤ length out.old }
    ensures { take (place + length bytes.now) out.new ≡ take place out.old ++ bytes.now }
{
    put_within(out, place, bytes);
}

/// Puts a number of two bytes at a place.
pub(crate) fn put_u16(out: &mut [u8], place: usize, number: u16)
    requires { place + 2 ≤ length out.old }
    ensures { take (place + 2) out.new ≡ take place out.old ++ digits 2 number }
{
    let mut field = [0; 2];
    LittleEndian::write_u16(&mut field, number);
    put_bytes(out, place, &field);
}

/// Puts a number of four bytes at a place.
pub(crate) fn put_u32(out: &mut [u8], place: usize, number: u32)
    requires { place + 4 ≤ length out.old }
    ensures { take (place + 4) out.new ≡ take place out.old ++ digits 4 number }
{
    let mut field = [0; 4];
    LittleEndian::write_u32(&mut field, number);
    put_bytes(out, place, &field);
}

/// Puts a number of eight bytes at a place.
pub(crate) fn put_u64(out: &mut [u8], place: usize, number: u64)
    requires { place + 8 ≤ length out.old }
    ensures { take (place + 8) out.new ≡ take place out.old ++ digits 8 number }
{
    let mut field = [0; 8];
    LittleEndian::write_u64(&mut field, number);
    put_bytes(out, place, &field);
}

/// The number in the eight bytes at a place.
pub(crate) fn word_at(bytes: &[u8], place: usize) -> u64
    requires { place + 8 ≤ length bytes.now }
    ensures { result ≡ little_number 8 (drop place bytes.now) }
{
    LittleEndian::read_u64(&bytes[place..])
}
