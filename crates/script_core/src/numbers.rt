//! Decimal numbers without leading zeros.
ghost use Rattle.std.specs.Prelude.{◌≡◌, ◌≢◌, ◌↔◌, ℕ, ◌^◌, ◌<◌, ℤ, FitsSigned, IsTrue, MatchOption, decimal};
ghost use Rattle.std.specs.Int.{w64};
ghost use Rattle.std.specs.Fmt.{signed_decimal};
ghost use Rattle.script_core.specs.Numbers.{BeginsPlainly};

/// The natural number of at most 64 bits that the word is the one spelling of: without a sign, and without leading zeros.
pub fn natural_of(word: &str) -> Option<u64>
    ensures { MatchOption result ((n : ℕ) → n < 2 ^ 64 → word.now ≢ decimal n) (λ n. word.now ≡ decimal n) }
{
    if begins_plainly(word.as_bytes()) {
        word.parse().ok()
    } else {
        None
    }
}

/// The number of 64 bits that the word is the one spelling of: with a minus sign where it is negative, and without
/// leading zeros.
pub fn integer_of(word: &str) -> Option<i64>
    ensures { MatchOption result ((z : ℤ) → FitsSigned w64 z → word.now ≢ signed_decimal z) (λ z. word.now ≡ signed_decimal z) }
{
    match word.strip_prefix('-') {
        Some(digits) => match natural_of(digits)? {
            0 => None,
            n => 0i64.checked_sub_unsigned(n),
        },
        None => i64::try_from(natural_of(word)?).ok(),
    }
}

/// Whether the bytes begin as a decimal number does: with a digit, which is 0 only where it stands alone.
fn begins_plainly(bytes: &[u8]) -> bool
    ensures { IsTrue result ↔ BeginsPlainly bytes.now }
{
    match bytes {
        [first] => first.is_ascii_digit(),
        [first, ..] => matches!(first, b'1'..=b'9'),
        [] => false,
    }
}
