//! Appends pieces and numbers to a text, each number with the byte that stands before it. Where a growth is refused the old bytes stay.
ghost use Rattle.std.specs.Prelude.{◌≡◌, ◌∷◌, ◌++◌, MatchResult, decimal};
ghost use Rattle.std.specs.Fmt.{signed_decimal};
ghost use Rattle.script_core.specs.Output.{Extends};

use itoa::{Buffer, write_digits};
use range_core::Memory;

/// The most bytes of a number of 64 bits: its digits, a minus sign and the byte before it.
const NUMBER_MAX: usize = 22;

/// Appends bytes.
pub fn push_bytes(text: &mut Vec<u8>, piece: &[u8]) -> Result<(), Memory>
    ensures { MatchResult result (λ unit. text.new.items ≡ text.old.items ++ piece.now) (λ error. Extends text.old.items text.new.items) }
{
    Ok(text.extend_from_slice(piece)?)
}

/// Appends a piece.
pub fn push_str(text: &mut Vec<u8>, piece: &str) -> Result<(), Memory>
    ensures { MatchResult result (λ unit. text.new.items ≡ text.old.items ++ piece.now) (λ error. Extends text.old.items text.new.items) }
{
    push_bytes(text, piece.as_bytes())
}

/// Appends a natural number, with no byte before it.
#[tactic(auto, using(std::proofs::lemmas::Fmt::decimal_digit))]
pub fn push_first_number(text: &mut Vec<u8>, n: u64) -> Result<(), Memory>
    ensures { MatchResult result (λ unit. text.new.items ≡ text.old.items ++ decimal n) (λ error. Extends text.old.items text.new.items) }
{
    // Most of them are processes.
    if n < 10 {
        return push_bytes(text, &[b'0' + n as u8]);
    }
    push_str(text, Buffer::new().format(n))
}

/// Appends a byte and a natural number.
pub fn push_number(text: &mut Vec<u8>, before: u8, n: u64) -> Result<(), Memory>
    ensures { MatchResult result (λ unit. text.new.items ≡ text.old.items ++ before ∷ decimal n) (λ error. Extends text.old.items text.new.items) }
{
    // Most numbers are processes and descriptors.
    if n < 10 {
        return push_bytes(text, &[before, b'0' + n as u8]);
    }
    if n < 100 {
        let (tens, ones) = (b'0' + (n / 10) as u8, b'0' + (n % 10) as u8);
        return push_bytes(text, &[before, tens, ones]);
    }
    let mut number = [0; NUMBER_MAX];
    let start = write_digits(n, &mut number, NUMBER_MAX) - 1;
    number[start] = before;
    push_bytes(text, &number[start..])
}

/// Appends a piece, and a natural number behind a space.
pub fn push_numbered(text: &mut Vec<u8>, piece: &str, n: u64) -> Result<(), Memory>
    ensures { MatchResult result (λ unit. text.new.items ≡ text.old.items ++ (piece.now ++ 32 ∷ decimal n)) (λ error. Extends text.old.items text.new.items) }
{
    push_str(text, piece)?;
    push_number(text, b' ', n)
}

/// Appends a space and an integer.
pub fn push_integer(text: &mut Vec<u8>, z: i64) -> Result<(), Memory>
    ensures { MatchResult result (λ unit. text.new.items ≡ text.old.items ++ 32 ∷ signed_decimal z) (λ error. Extends text.old.items text.new.items) }
{
    if z >= 0 {
        return push_number(text, b' ', z.unsigned_abs());
    }
    text.push(b' ')?;
    push_number(text, b'-', z.unsigned_abs())
}
