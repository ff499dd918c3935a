//! Which instances are pending: one bit each, in words of 64.

ghost use Rattle.std.specs.Prelude.{◌≡◌, ◌<◌, ◌≤◌, length, slice_get, slice_set, Some, replicate, true, false};

use sse_base::MAX_INSTANCES;
use std::marker::Model;

/// How many bits a word has.
const WORD_BITS: u16 = 64;

/// How many words there are: enough for the most instances of a board.
const WORDS: usize = 4;

/// Whether each instance of a board is pending, by the instance's number: one bit each.
#[derive(Drop)]
pub struct Pending {
    words: [u64; WORDS],
    count: u16,
}

impl Model for Pending {
    ghost use Rattle.std.specs.Prelude.{◌≤◌, Bool, List};
    ghost use Rattle.sse_table.specs.Bits.{bits};

    ghost Value = { List Bool };

    ghost view = { λ p. bits p.words p.count };

    ghost use Rattle.sse_base.specs.declared.limits.TheConstants.{MAX_INSTANCES};

    ghost invariant = { λ p. p.count ≤ MAX_INSTANCES };
}

impl Pending {
    /// So many instances, none of them pending.
    #[tactic(auto, using(crate::proofs::Bits::none_set))]
    pub fn new(count: u16) -> Pending
        requires { count ≤ MAX_INSTANCES }
        ensures { result ≡ replicate count false }
    {
        Pending {
            words: [0; WORDS],
            count,
        }
    }

    /// Makes an instance pending.
    #[tactic(auto, using(crate::proofs::Bits::one_set, crate::proofs::Bits::within))]
    pub fn set(&mut self, index: u16)
        requires { index < length self.old }
        ensures { self.new ≡ slice_set self.old index true }
    {
        self.words[(index / WORD_BITS) as usize] |= 1 << (index % WORD_BITS);
    }

    /// Makes an instance pending no longer.
    #[tactic(auto, using(crate::proofs::Bits::one_cleared, crate::proofs::Bits::within))]
    pub fn clear(&mut self, index: u16)
        requires { index < length self.old }
        ensures { self.new ≡ slice_set self.old index false }
    {
        self.words[(index / WORD_BITS) as usize] &= !(1 << (index % WORD_BITS));
    }

    /// Whether an instance is pending.
    #[tactic(auto, using(crate::proofs::Bits::bit_there, crate::proofs::Bits::within))]
    pub fn test(&self, index: u16) -> bool
        requires { index < length self.now }
        ensures { slice_get self.now index ≡ Some result }
    {
        (self.words[(index / WORD_BITS) as usize] >> (index % WORD_BITS)) & 1 == 1
    }
}
