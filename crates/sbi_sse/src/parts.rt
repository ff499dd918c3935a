//! Answers, and the stacks of all harts.

ghost use Rattle.std.specs.Prelude.{◌≡◌, ◌≤◌, ◌+◌, ℕ, map, IfOk, true, unwrap_or};
ghost use Rattle.sse_base.specs.Contexts.{fresh_stack, interrupted};
ghost use Rattle.sse_base.specs.Calls.{interrupted_on, find_range, argument_at};
ghost use Rattle.sse_base.specs.Words.{are_words};
ghost use Rattle.hart_ctx.specs.Running.{word_of};
ghost use Rattle.sbi_sse.specs.Elsewhere.{elsewhere};

use hart_ctx::{Contexts, Memory, Saved};
use sse_base::{AttrRange, Instance, RangeFault, Reply, SbiCode, attr_range};
use std::alloc::{AllocError, Global};

/// What a call answered.
#[derive(Clone, Copy, Debug, PartialEq, Eq)]
pub struct CallNote {
    pub reply: Reply,
    /// The words that an accepted write of attributes took, in its first places, and 0 elsewhere.
    pub written: [u64; 10],
}

/// A hart at each of these places, on which no handler runs.
pub fn stacks(alloc: Global, starts: &[u64]) -> Result<Vec<Contexts>, AllocError>
    ensures { IfOk result (λ v. v.items ≡ map fresh_stack starts.now) }
{
    starts.iter().map(|pc| Contexts::new(*pc)).collect(alloc)
}

/// The range of attributes that a read or a write names in its arguments. An empty one is an invalid
/// parameter, and one past the last attribute a bad range; where it has no words in memory the address is
/// invalid (the order is this project's own).
pub fn find_range(args: [u64; 5]) -> Result<AttrRange, SbiCode>
    ensures range { result
        ≡ find_range (argument_at args 1) (argument_at args 2) (argument_at args 3) (argument_at args 4) }
    ensures short { IfOk result (λ r. r.base + r.count ≤ 10) }
    ensures words { IfOk result (λ r. are_words (argument_at args 3) r.count ≡ true) }
{
    let range = match attr_range(args[1], args[2]) {
        Ok(range) => range,
        Err(RangeFault::Zero) => return Err(SbiCode::InvalidParam),
        Err(RangeFault::Reserved) => return Err(SbiCode::BadRange),
    };
    if args[4] != 0 || !Memory::are_words(args[3], args[2]) {
        return Err(SbiCode::InvalidAddress);
    }
    Ok(range)
}

/// What an INTERRUPTED attribute reads where no handler runs.
const NOTHING: Saved = Saved {
    sepc: 0,
    flags: 0,
    a6: 0,
    a7: 0,
};

/// The INTERRUPTED attributes of an event that doesn't run.
#[tactic(auto, using(crate::proofs::Interrupted::reads_zero))]
pub fn nothing() -> Saved
    ensures { (attr : ℕ) → word_of attr result ≡ 0 }
{
    NOTHING
}

/// The INTERRUPTED attributes of an event on this hart, and 0 where it doesn't run here.
pub fn interrupted_here(stack: &Contexts, at: Instance) -> Saved
    ensures { (attr : ℕ) → word_of attr result
        ≡ unwrap_or (interrupted attr at stack.now.frames stack.now.base) 0 }
{
    match stack.saved(at) {
        Some(saved) => saved,
        None => nothing(),
    }
}

/// The INTERRUPTED attributes of an event: of its handler's frame, on whichever hart that runs, and 0 where
/// it doesn't run.
pub fn interrupted(stacks: &[Contexts], at: Instance) -> Saved
    ensures { (attr : ℕ) → word_of attr result ≡ interrupted_on attr at stacks.now }
{
    for stack in stacks {
        if let Some(saved) = stack.saved(at) {
            return saved;
        }
    }
    nothing()
}

/// The instance of the same event on another hart: a global one is the same everywhere. None exactly where
/// a local one is asked for on a hart that the board hasn't.
pub fn elsewhere(at: Instance, hart: u64, harts: u8) -> Option<Instance>
    ensures { result ≡ elsewhere at hart harts }
{
    match at {
        Instance::Local { id, .. } => {
            if hart < harts as u64 {
                Some(Instance::Local {
                    id,
                    hart: hart as u8,
                })
            } else {
                None
            }
        }
        Instance::Global { .. } => Some(at),
    }
}
