//! A number in some bits of a word.

ghost use Rattle.std.specs.Prelude.{◌≡◌, ◌+◌, ◌^◌, ◌<◌, ◌≤◌, if◌then◌else◌};
ghost use Rattle.reri_fields.specs.Fields.{bits, with_bits, flag};

// The number in `width` bits from bit `low` up.
pub(crate) fn field(word: u64, low: u32, width: u32) -> u64
    requires inside { low < 64 }
    requires narrow { width < 64 }
    ensures value { result ≡ bits word low width }
    ensures fits { result < 2 ^ width }
{
    (word >> low) & ((1 << width) - 1)
}

// The word with `value` in those bits.
pub(crate) fn with_field(word: u64, low: u32, width: u32, value: u64) -> u64
    requires inside { low + width ≤ 64 }
    requires narrow { width < 64 }
    requires place { low < 64 }
    requires fits { value < 2 ^ width }
    ensures { result ≡ with_bits word low width value }
{
    let mask = ((1 << width) - 1) << low;
    (word & !mask) | (value << low)
}

// Whether the bit at a place is set.
pub(crate) fn flag_at(word: u64, place: u32) -> bool
    requires { place < 64 }
    ensures { result ≡ flag word place }
{
    field(word, place, 1) == 1
}

/// The word with the bit at a place set or cleared, and every other bit as it was. Bit 0 is the lowest.
pub fn with_flag_at(word: u64, place: u32, value: bool) -> u64
    requires { place < 64 }
    ensures { result ≡ with_bits word place 1 (if value then 1 else 0) }
{
    with_field(word, place, 1, value as u64)
}
