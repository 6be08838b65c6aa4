//! Appends pieces and numbers to a text. Where a growth is refused the old bytes stay.
ghost use Rattle.std.specs.Prelude.{◌≡◌, ◌∷◌, ◌++◌, MatchResult, decimal};
ghost use Rattle.script_core.specs.Output.{Extends};

use itoa::Buffer;
use range_core::Memory;

/// Appends a piece.
pub fn push_str(text: &mut Vec<u8>, piece: &str) -> Result<(), Memory>
    ensures { MatchResult result (λ unit. text.new.items ≡ text.old.items ++ piece.now) (λ error. Extends text.old.items text.new.items) }
{
    Ok(text.extend_from_slice(piece.as_bytes())?)
}

/// Appends a space and a number.
pub fn push_number(text: &mut Vec<u8>, n: u64) -> Result<(), Memory>
    ensures { MatchResult result (λ unit. text.new.items ≡ text.old.items ++ 32 ∷ decimal n) (λ error. Extends text.old.items text.new.items) }
{
    push_str(text, " ")?;
    push_str(text, Buffer::new().format(n))
}
