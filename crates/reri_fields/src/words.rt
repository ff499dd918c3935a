//! Records as six words in a row.

ghost use Rattle.std.specs.Prelude.{◌≡◌, ◌+◌, ◌≤◌, length};
ghost use Rattle.reri_fields.specs.Words.{copy_at, with_record};

use crate::report::RecordCopy;

/// The record whose six registers stand in `words` from the place `at` on, in the order of `RecordCopy`.
#[tactic(auto, unfolding(crate::specs::Words::copy_at))]
pub fn record_at(words: &[u64], at: usize) -> RecordCopy
    requires { at + 6 ≤ length words.now }
    ensures { result ≡ copy_at words.now at }
{
    RecordCopy {
        control: words[at],
        status: words[at + 1],
        address: words[at + 2],
        info: words[at + 3],
        supplement: words[at + 4],
        time: words[at + 5],
    }
}

/// Writes the six registers into `words` from the place `at` on, in the order of `RecordCopy`. No other word changes.
#[tactic(auto, unfolding(crate::specs::Words::with_record))]
pub fn put_record(words: &mut [u64], at: usize, copy: &RecordCopy)
    requires { at + 6 ≤ length words.old }
    ensures { words.new ≡ with_record words.old at copy.now }
{
    words[at] = copy.control;
    words[at + 1] = copy.status;
    words[at + 2] = copy.address;
    words[at + 3] = copy.info;
    words[at + 4] = copy.supplement;
    words[at + 5] = copy.time;
}
