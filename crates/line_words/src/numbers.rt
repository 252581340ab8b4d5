//! Decimal numbers.
ghost use Rattle.std.specs.Prelude.{◌≡◌, ◌≤◌, ◌^◌, IsTrue, MatchOption, IfSome};
ghost use Rattle.std.specs.Str.{all_ascii_digits};
ghost use Rattle.std.specs.Str.Parse.{digits_value};
ghost use Rattle.line_words.specs.Numbers as terms;

/// The number that the word is, where it is in this range, both ends included: decimal digits, one
/// or more (docs/FORMATS.md, Configuration). Zeros in front do not matter.
pub fn number_within(least: u64, most: u64, word: &[u8]) -> Option<u64>
    ensures number { result ≡ terms.number_within least most word.now }
    ensures within { IfSome result (λ number. number ≤ most) }
{
    if word.is_empty() || !has_only_digits(word) {
        return None;
    }
    match value_of(word) {
        Some(value) if least <= value && value <= most => Some(value),
        _ => None,
    }
}

/// Whether each octet is a decimal digit; so it is where there is none.
pub fn has_only_digits(word: &[u8]) -> bool
    ensures { result ≡ all_ascii_digits word.now }
{
    word.iter().all(|octet| octet.is_ascii_digit())
}

/// The value of decimal digits, where it is below 2^64.
fn value_of(digits: &[u8]) -> Option<u64>
    requires { IsTrue (all_ascii_digits digits.now) }
    ensures { MatchOption result (2 ^ 64 ≤ digits_value 10 digits.now)
        (λ value. value ≡ digits_value 10 digits.now) }
{
    let mut value: u64 = 0;
    for digit in digits {
        let tens = value.checked_mul(10)?;
        value = tens.checked_add(u64::from(*digit - b'0'))?;
    }
    Some(value)
}
