//! The copies that bytes spell.

ghost use Rattle.std.specs.Prelude.{◌≡◌, ◌↔◌, ◌+◌, ◌*◌, ◌≤◌, List, Some, [], ◌∷◌, drop, length, option_map};
ghost use Rattle.reri_fields.specs.declared.report.RecordCopy.{RecordCopy};
ghost use Rattle.reri_fields.specs.Block.{Spells};
ghost use Rattle.ghes_block.specs.Sections.{entries_in, registers_in, registers_of};

use crate::block::{ENTRY_BYTES, HEADER_BYTES, MOST_BYTES, encode_all};
use crate::copies::are_copies;
use crate::parts::word_at;
use arrayvec::ArrayVec;
use reri_fields::RecordCopy;

/// The six registers at their places in an entry, whatever else it holds.
fn read_entry(entry: &[u8]) -> RecordCopy
    requires { 120 ≤ length entry.now }
    ensures { result ≡ registers_in entry.now }
{
    RecordCopy {
        control: word_at(entry, 72),
        status: word_at(entry, 80),
        address: word_at(entry, 88),
        info: word_at(entry, 96),
        supplement: word_at(entry, 104),
        time: word_at(entry, 112),
    }
}

/// The registers in the entries of a block that has so many.
fn read_entries(bytes: &[u8], count: usize) -> ArrayVec<RecordCopy, 4>
    requires few { count ≤ 4 }
    requires length { length bytes.now ≡ 20 + 120 * count }
    ensures { result.items ≡ registers_of count (drop 20 bytes.now) }
{
    let mut copies = ArrayVec::new();
    for i in 0..count {
        copies.push(read_entry(&bytes[HEADER_BYTES + ENTRY_BYTES * i..]));
    }
    copies
}

/// How many entries a block of this length has, or None where no block has it.
#[tactic(auto, unfolding(crate::specs::Sections::entries_in))]
fn entries_in(length: usize) -> Option<usize>
    ensures { result ≡ entries_in length }
{
    match length {
        140 => Some(1),
        260 => Some(2),
        380 => Some(3),
        MOST_BYTES => Some(4),
        _ => None,
    }
}

/// The copies that the bytes spell: Some of them exactly where the bytes are the block that holds one to four copies.
/// None exactly where they are no such block: another length, a field that is not what the registers make it (those
/// that are 0 too), or registers that no block can hold.
pub fn decode_all(bytes: &[u8]) -> Option<ArrayVec<RecordCopy, 4>>
    ensures { (copies : List RecordCopy) → (option_map (λ v. v.items) result ≡ Some copies) ↔ Spells bytes.now copies }
{
    let count = match entries_in(bytes.len()) {
        Some(count) => count,
        None => return None,
    };
    let copies = read_entries(bytes, count);
    if !are_copies(copies.as_slice()) {
        return None;
    }
    let mut block = [0; 500];
    let length = encode_all(copies.as_slice(), &mut block);
    if block[..length] == bytes[..] {
        Some(copies)
    } else {
        None
    }
}

/// The copy that the bytes spell: Some of it exactly where they are the block that holds it alone, and None exactly
/// where they are the block of no copy alone.
pub fn decode(bytes: &[u8]) -> Option<RecordCopy>
    ensures { (copy : RecordCopy) → (result ≡ Some copy) ↔ Spells bytes.now (copy ∷ []) }
{
    let copies = decode_all(bytes)?;
    match copies.as_slice() {
        [copy] => Some(*copy),
        _ => None,
    }
}
