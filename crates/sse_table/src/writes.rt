//! The checks of a write of attributes, each over the whole range.

ghost use Rattle.std.specs.Prelude.{◌≡◌, ◌≤◌, ◌+◌, length};
ghost use Rattle.sse_base.specs.Calls.{is_never_written, is_shut, is_refused_value, some_attribute, some_word};
ghost use Rattle.sse_table.specs.Ranges.{reaches};

use sse_base::{AttrRange, Instance, State, attr};

/// Whether a range has an attribute from `first` to `last`.
fn reaches(range: AttrRange, first: u8, last: u8) -> bool
    requires { range.base + range.count ≤ 10 }
    ensures { result ≡ reaches range.base range.count first last }
{
    range.count > 0 && range.base <= last && range.base + range.count > first
}

/// Whether an attribute can't have this value on a board of so many harts.
#[tactic(auto, unfolding(sse_base::specs::Calls::is_refused_value))]
fn is_refused_value(harts: u8, attr: u8, value: u64) -> bool
    ensures { result ≡ is_refused_value harts attr value }
{
    match attr {
        attr::PRIORITY => value > u32::MAX as u64,
        attr::CONFIG => value > 1,
        attr::PREFERRED_HART => value >= harts as u64,
        attr::INTERRUPTED_FLAGS => value > 3,
        _ => false,
    }
}

/// Whether an attribute of the range is never written for this event.
#[tactic(auto, using(crate::proofs::Ranges::never_reached))]
pub fn some_never_written(at: Instance, range: AttrRange) -> bool
    requires { range.base + range.count ≤ 10 }
    ensures { result ≡ some_attribute (is_never_written at) range.base range.count }
{
    reaches(range, attr::STATUS, attr::STATUS)
        || reaches(range, attr::ENTRY_PC, attr::ENTRY_ARG)
        || (reaches(range, attr::PREFERRED_HART, attr::PREFERRED_HART)
            && matches!(at, Instance::Local { .. }))
}

/// Whether an attribute of the range may not be written now.
#[tactic(auto, using(crate::proofs::Ranges::shut_reached))]
pub fn some_shut(state: State, running_here: bool, range: AttrRange) -> bool
    requires { range.base + range.count ≤ 10 }
    ensures { result ≡ some_attribute (is_shut state running_here) range.base range.count }
{
    let open = matches!(state, State::Unused | State::Registered);
    (reaches(range, attr::PRIORITY, attr::PREFERRED_HART) && !open)
        || (reaches(range, attr::INTERRUPTED_SEPC, attr::INTERRUPTED_A7) && !running_here)
}

/// Whether an attribute from `base` on can't have its value.
#[tactic(auto, using(crate::proofs::Checks::one_more_word))]
pub fn some_refused_value(harts: u8, base: u8, values: &[u64]) -> bool
    requires { base + length values.now ≤ 10 }
    ensures { result ≡ some_word (is_refused_value harts) base values.now }
{
    for (i, value) in values.iter().enumerate() {
        if is_refused_value(harts, base + i as u8, *value) {
            return true;
        }
    }
    false
}
