//! The block as bytes.

ghost use Rattle.std.specs.Prelude.{◌≡◌, ◌+◌, ◌≤◌, [], ◌∷◌, ◌++◌, take, drop, length};
ghost use Rattle.reri_fields.specs.Block.{IsCopy, entry, header, section, spelling, slot_text};

use crate::copies::{block_status, error_severity};
use crate::parts::{put_bytes, put_u16, put_u32, put_u64, put_within};
use reri_fields::RecordCopy;

/// How many bytes stand before the entries: a Generic Error Status Block (ACPI 6.5, 18.3.2.7.1).
pub(crate) const HEADER_BYTES: usize = 20;

/// How many bytes an entry has: a Generic Error Data Entry of 72 (ACPI 6.5, 18.3.2.7.1), and then the six registers of
/// 8 bytes each (this project).
pub(crate) const ENTRY_BYTES: usize = 120;

/// How many bytes a block of four entries has.
pub const MOST_BYTES: usize = 500;

/// The bytes of an error status block with one entry. Every number is little-endian.
pub type Block = [u8; 140];

/// The Generic Error Status Block before the entries.
#[tactic(auto, unfolding(reri_fields::specs::Block::header))]
fn header(copies: &[RecordCopy]) -> [u8; 20]
    requires { length copies.now ≤ 4 }
    ensures { result ≡ header copies.now }
{
    let mut out = [0; 20];
    put_u32(&mut out, 0, block_status(copies)); // Block Status
    put_u32(&mut out, 4, 0); // Raw Data Offset
    put_u32(&mut out, 8, 0); // Raw Data Length
    put_u32(&mut out, 12, 120 * copies.len() as u32); // Data Length
    put_u32(&mut out, 16, error_severity(copies)); // Error Severity
    out
}

/// The section of an entry: the six registers.
#[tactic(auto, unfolding(reri_fields::specs::Block::section))]
fn section(copy: &RecordCopy) -> [u8; 48]
    ensures { result ≡ section copy.now }
{
    let mut out = [0; 48];
    put_u64(&mut out, 0, copy.control);
    put_u64(&mut out, 8, copy.status);
    put_u64(&mut out, 16, copy.address);
    put_u64(&mut out, 24, copy.info);
    put_u64(&mut out, 32, copy.supplement);
    put_u64(&mut out, 40, copy.time);
    out
}

/// The Generic Error Data Entry of the copy.
#[tactic(auto, unfolding(crate::proofs::Text::entry, crate::proofs::Text::section_type, crate::proofs::Text::zeros))]
fn entry(copy: &RecordCopy) -> [u8; 120]
    ensures { result ≡ entry copy.now }
{
    let mut out = [0; 120];
    put_bytes(&mut out, 0, b"RERI-RECORD-0001"); // Section Type
    put_u32(&mut out, 16, error_severity(&[*copy])); // Error Severity
    put_u16(&mut out, 20, 0x0300); // Revision
    put_bytes(&mut out, 22, &[0; 1]); // Validation Bits
    put_bytes(&mut out, 23, &[0; 1]); // Flags
    put_u32(&mut out, 24, 48); // Error Data Length
    put_bytes(&mut out, 28, &[0; 16]); // FRU Id
    put_bytes(&mut out, 44, &[0; 20]); // FRU Text
    put_bytes(&mut out, 64, &[0; 8]); // Timestamp
    put_bytes(&mut out, 72, &section(copy)); // Error Data
    out
}

/// The block that holds the copy alone. It never refuses: ask `is_copy` first.
#[tactic(auto, unfolding(reri_fields::specs::Block::spelling))]
pub fn encode(copy: &RecordCopy) -> Block
    requires { IsCopy copy.now }
    ensures { result ≡ spelling (copy.now ∷ []) }
{
    let mut out = [0; 140];
    put_bytes(&mut out, 0, &header(&[*copy]));
    put_bytes(&mut out, HEADER_BYTES, &entry(copy));
    out
}

/// Puts the block that holds the copies at the front of `out`, and tells its length; all other bytes stay. It never
/// refuses: ask `is_copy` of each copy first.
#[tactic(auto, unfolding(reri_fields::specs::Block::spelling), using(crate::proofs::Entries::rest_further))]
pub fn encode_all(copies: &[RecordCopy], out: &mut [u8; 500]) -> usize
    requires some { 1 ≤ length copies.now }
    requires few { length copies.now ≤ 4 }
    ensures length { result ≡ length (spelling copies.now) }
    ensures block { take result out.new ≡ spelling copies.now }
    ensures rest { drop result out.new ≡ drop result out.old }
{
    put_within(out, 0, &header(copies));
    let mut place = HEADER_BYTES;
    for copy in copies {
        put_within(out, place, &entry(copy));
        place += ENTRY_BYTES;
    }
    place
}
