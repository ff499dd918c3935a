//! The number that a word spells.
ghost use Rattle.std.specs.Prelude.{◌≡◌, ◌+◌, ◌*◌, ◌^◌, ◌<◌, ◌≤◌, nat_lt, [], ◌∷◌, length, Some, None, if◌then◌else◌};
ghost use Rattle.std.specs.Char.{digit_value};
ghost use Rattle.ras_text.specs.Numbers.{number, value_in};

// so many decimal digits make a number below 2 ^ 64, whatever they are
const FEW: usize = 19;

// the value of a digit or a letter in any base, and 36 for any other byte
fn digit_of(byte: u8) -> u64
    ensures { result ≡ digit_value byte }
{
    match byte {
        b'0'..=b'9' => u64::from(byte - b'0'),
        b'A'..=b'Z' => u64::from(byte - b'A' + 10),
        b'a'..=b'z' => u64::from(byte - b'a' + 10),
        _ => 36,
    }
}

// the number with one more digit at its end, where it is below 2 ^ 64
fn with_digit(value: u64, base: u64, digit: u64) -> Option<u64>
    ensures { result ≡ (if nat_lt (value * base + digit) (2 ^ 64) then Some (value * base + digit) else None) }
{
    value.checked_mul(base)?.checked_add(digit)
}

// the number of some digits
#[tactic(auto, using(crate::proofs::Values::value_is, crate::proofs::Values::value_none))]
fn value_of(base: u64, digits: &[u8]) -> Option<u64>
    requires { 1 ≤ base }
    ensures { result ≡ value_in base digits.now }
{
    if digits.is_empty() {
        return None;
    }
    let mut value = 0;
    for byte in digits {
        let digit = digit_of(*byte);
        if digit >= base {
            return None;
        }
        value = with_digit(value, base, digit)?;
    }
    Some(value)
}

// the value of a decimal digit, and 36 for any other byte
fn decimal_digit_of(byte: u8) -> u64
    ensures digit { result < 10 → result ≡ digit_value byte }
    ensures other { 10 ≤ result → 10 ≤ digit_value byte }
{
    match byte {
        b'0'..=b'9' => u64::from(byte - b'0'),
        _ => 36,
    }
}

// the number of a few decimal digits
#[tactic(auto, using(crate::proofs::Values::value_none))]
fn value_of_few(digits: &[u8]) -> Option<u64>
    requires { length digits.now ≤ 19 }
    ensures { result ≡ value_in 10 digits.now }
{
    if digits.is_empty() {
        return None;
    }
    let mut value = 0;
    for byte in digits {
        let digit = decimal_digit_of(*byte);
        if digit >= 10 {
            return None;
        }
        value = value * 10 + digit;
    }
    Some(value)
}

// the number of one decimal digit
#[tactic(auto, using(crate::proofs::Values::one_digit_is, crate::proofs::Values::no_digit_is))]
fn one_digit(byte: u8) -> Option<u64>
    ensures { result ≡ value_in 10 (byte ∷ []) }
{
    let digit = decimal_digit_of(byte);
    if digit >= 10 {
        return None;
    }
    Some(digit)
}

// the number of some decimal digits
fn decimal(digits: &[u8]) -> Option<u64>
    ensures { result ≡ value_in 10 digits.now }
{
    if digits.len() > FEW {
        value_of(10, digits)
    } else {
        value_of_few(digits)
    }
}

/// The number that a word spells, in decimal, or in hexadecimal behind `0x` with small or capital
/// digits. At least one digit has to stand there. None for every other word, and for a number that
/// a `u64` can't hold. The spelling is this project's own.
#[tactic(auto, using(crate::proofs::Values::short_number), unfolding(crate::specs::Numbers::number))]
pub fn number(word: &[u8]) -> Option<u64>
    ensures { result ≡ number word.now }
{
    match word {
        // most numbers of a text have one digit
        [digit] => one_digit(*digit),
        [b'0', b'x', digits @ ..] => value_of(16, digits),
        _ => decimal(word),
    }
}
