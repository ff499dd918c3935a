//! Looking a handler up among those that a hart keeps.

ghost use Rattle.std.specs.Prelude.{◌≡◌};
ghost use Rattle.sse_base.specs.Calls.{with_interrupted};
ghost use Rattle.hart_ctx.specs.declared.regs.Regs.{Regs};
ghost use Rattle.hart_ctx.specs.Levels.{kept_place, saved_with, stack_of};
ghost use Rattle.hart_ctx.specs.Running.{word_of};

use crate::kept::Kept;
use crate::regs::Saved;
use sse_base::{Instance, word_for};

/// Where a handler of this event is kept, or how many are where it isn't.
#[tactic(auto, unfolding(sse_base::specs::Ids::same_instance))]
pub fn place(kept: &[Kept], at: Instance) -> usize
    ensures { result ≡ kept_place at kept.now }
{
    for (i, one) in kept.iter().enumerate() {
        if one.at == at {
            return i;
        }
    }
    kept.len()
}

/// These values with words written to the attributes from `base` on.
pub fn written(saved: &Saved, base: u8, words: &[u64]) -> Saved
    ensures { result ≡ saved_with base words.now saved.now }
{
    Saved {
        sepc: word_for(6, base, words, saved.sepc),
        flags: word_for(7, base, words, saved.flags) % 4,
        a6: word_for(8, base, words, saved.a6),
        a7: word_for(9, base, words, saved.a7),
    }
}

/// INTERRUPTED attribute 6, 7, 8 or 9.
pub fn word_of(saved: &Saved, attr: u8) -> u64
    ensures { result ≡ word_of attr saved.now }
{
    match attr {
        6 => saved.sepc,
        7 => saved.flags,
        8 => saved.a6,
        _ => saved.a7,
    }
}

/// Writes words to the attributes from `base` on of the handler of this event, where it is kept.
#[tactic(auto, using(crate::proofs::Places::writes))]
pub fn write(kept: &mut [Kept], base: u8, words: &[u64], at: Instance)
    ensures { (r : Regs) → stack_of r kept.new ≡ with_interrupted base words.now at (stack_of r kept.old) }
{
    let i = place(kept, at);
    if i < kept.len() {
        let old = kept[i];
        kept[i] = Kept {
            at: old.at,
            saved: written(&old.saved, base, words),
        };
    }
}
