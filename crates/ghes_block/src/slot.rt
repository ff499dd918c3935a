//! The place of a published block.

ghost use Rattle.std.specs.Prelude.{◌≡◌, ◌↔◌, ◌+◌, ◌<◌, ◌≤◌, IsTrue, false, [], ◌∷◌, ◌++◌, length};
ghost use Rattle.reri_fields.specs.Block.{IsCopy, Spells, slot_text};

use crate::block::encode_all;
use arrayvec::ArrayVec;
use reri_fields::RecordCopy;
use std::marker::Model;

/// The place where a bank's block is published: free, or full with the block of one to four copies until it is
/// acknowledged (this project, after the acknowledgement of GHESv2 in ACPI 6.5, 18.3.2.8). In contracts it is the list
/// of its copies, the oldest first.
#[derive(Drop)]
pub struct Slot {
    copies: ArrayVec<RecordCopy, 4>,
    bytes: [u8; 500],
    length: usize,
}

impl Model for Slot {
    ghost use Rattle.std.specs.Prelude.{List};
    ghost use Rattle.reri_fields.specs.declared.report.RecordCopy.{RecordCopy};

    ghost Value = { List RecordCopy };

    ghost view = { λ s. s.copies.items };

    ghost use Rattle.ghes_block.specs.Held.{Holds};

    ghost invariant = { λ s. Holds s.copies.items s.bytes s.length };
}

impl Slot {
    /// A free slot.
    pub fn new() -> Slot
        ensures { result ≡ [] }
    {
        Slot {
            copies: ArrayVec::new(),
            bytes: [0; 500],
            length: 0,
        }
    }

    /// Whether the slot is free.
    pub fn is_free(&self) -> bool
        ensures { IsTrue result ↔ (self.now ≡ []) }
    {
        self.copies.is_empty()
    }

    /// Puts one more copy into the block, behind those that stand there.
    pub fn append(&mut self, copy: &RecordCopy)
        requires room { length self.old < 4 }
        requires copy { IsCopy copy.now }
        ensures { self.new ≡ self.old ++ copy.now ∷ [] }
    {
        self.hold(*copy);
    }

    /// The same by value.
    fn hold(&mut self, copy: RecordCopy)
        requires room { length self.old < 4 }
        requires copy { IsCopy copy }
        ensures { self.new ≡ self.old ++ copy ∷ [] }
    {
        self.copies.push(copy);
        self.length = encode_all(self.copies.as_slice(), &mut self.bytes);
    }

    /// The copies in the block, the oldest first.
    pub fn copies(&self) -> &[RecordCopy]
        ensures copies { result.now ≡ self.now }
        ensures few { length self.now ≤ 4 }
    {
        self.copies.as_slice()
    }

    /// The bytes of the block, none where the slot is free.
    pub fn bytes(&self) -> &[u8]
        ensures bytes { result.now ≡ slot_text self.now }
        ensures spelled { 1 ≤ length self.now → Spells result.now self.now }
    {
        &self.bytes[..self.length]
    }

    /// Frees the slot. True exactly where it was full.
    pub fn acknowledge(&mut self) -> bool
        ensures full { (result ≡ false) ↔ (self.old ≡ []) }
        ensures free { self.new ≡ [] }
    {
        let full = !self.copies.is_empty();
        self.copies.clear();
        self.length = 0;
        full
    }
}
