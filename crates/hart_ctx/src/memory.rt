//! The board's memory.

ghost use Rattle.std.specs.Prelude.{◌≡◌, true, unwrap_or, is_some, length};
ghost use Rattle.std.specs.Prelude.{if◌then◌else◌};
ghost use Rattle.sse_base.specs.Words.{is_word, word_index, fresh_memory, load, store, are_words, words_at, put_words};

use std::marker::Model;

/// 512 words of 8 bytes from address 0x8000_0000 on.
#[derive(Drop)]
pub struct Memory {
    words: [u64; 512],
}

impl Model for Memory {
    ghost use Rattle.std.specs.Prelude.{ℕ, List};

    ghost Value = { List ℕ };

    ghost view = { λ m. m.words };
}

/// Where memory begins.
const BASE: u64 = 0x8000_0000;

/// Where it ends.
const END: u64 = 0x8000_1000;

/// The place of the word at an address, or None where there is none.
fn place(addr: u64) -> Option<usize>
    ensures { result ≡ (if is_word addr then Some (word_index addr) else None) }
{
    if addr >= BASE && addr < END && addr % 8 == 0 {
        Some(((addr - BASE) / 8) as usize)
    } else {
        None
    }
}

impl Memory {
    /// Memory in which every word is 0.
    pub fn new() -> Memory
        ensures { result ≡ fresh_memory }
    {
        Memory { words: [0; 512] }
    }

    /// The word at an address. None exactly where the address is no multiple of 8 or is outside memory.
    pub fn load(&self, addr: u64) -> Option<u64>
        ensures { result ≡ load self.now addr }
    {
        let place = place(addr)?;
        Some(self.words[place])
    }

    /// Writes the word at an address. None exactly where the address is no multiple of 8 or is outside
    /// memory; then nothing changes.
    pub fn store(&mut self, addr: u64, value: u64) -> Option<()>
        ensures stored { is_some result ≡ is_word addr }
        ensures memory { self.new ≡ unwrap_or (store self.old addr value) self.old }
    {
        let place = place(addr)?;
        self.words[place] = value;
        Some(())
    }

    /// Whether `count` words stand in memory from the address `lo` on: `lo` is a multiple of 8, and no word
    /// is outside memory.
    pub fn are_words(lo: u64, count: u64) -> bool
        ensures { result ≡ are_words lo count }
    {
        lo % 8 == 0 && lo >= BASE && lo <= END && count <= (END - lo) / 8
    }

    /// `count` words where they stand, from the address `lo` on.
    pub fn words_from(&self, lo: u64, count: u8) -> &[u64]
        requires { are_words lo count ≡ true }
        ensures words { result.now ≡ words_at self.now lo count }
        ensures count { length result.now ≡ count }
    {
        let start = ((lo - BASE) / 8) as usize;
        &self.words[start..start + count as usize]
    }

    /// Writes words from the address `lo` on; all else stays.
    pub fn write_words(&mut self, lo: u64, words: &[u64])
        requires { are_words lo (length words.now) ≡ true }
        ensures { self.new ≡ put_words self.old (word_index lo) words.now }
    {
        let start = ((lo - BASE) / 8) as usize;
        for (i, word) in words.iter().enumerate() {
            self.words[start + i] = *word;
        }
    }

    /// All words, from the lowest address on.
    pub fn words(&self) -> &[u64]
        ensures words { result.now ≡ self.now }
        ensures count { length result.now ≡ 512 }
    {
        &self.words
    }
}
