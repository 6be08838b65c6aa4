//! The words behind the ID of a line, each as its type.
ghost use Rattle.std.specs.Prelude.{◌≡◌, ◌∷◌, [], MatchResult, codes, decimal};
ghost use Rattle.script_core.specs.RequestText.{mode_word};
ghost use Rattle.script_core.specs.Arguments.{UnsignedNumber, ModeWord, OpWord, NbWord, IsBad, IsFirstBad};
ghost use Rattle.history_text.specs.HistoryText.{operation_word, owner_word, span_words};
ghost use Rattle.history_text.specs.HistoryReading.{IsNoOwner};

use range_core::{Mode, Span};
use script_core::{Cause, natural_of};

/// A natural number of 64 bits, without a sign and without leading zeros.
pub fn read_number(word: &str) -> Result<u64, Cause>
    ensures { MatchResult result (λ n. word.now ≡ decimal n) (IsBad UnsignedNumber word.now) }
{
    natural_of(word).ok_or(Cause::Number)
}

/// The first byte of a range and the last one, of which either may be above the other.
pub fn read_span(first: &str, last: &str) -> Result<Span, Cause>
    ensures { MatchResult result (λ span. first.now ∷ last.now ∷ [] ≡ span_words span)
        (IsFirstBad (UnsignedNumber ∷ UnsignedNumber ∷ []) (first.now ∷ last.now ∷ [])) }
{
    let first = read_number(first)?;
    let last = read_number(last)?;
    Ok(Span { first, last })
}

/// Whose a lock was: `-` where the system doesn't tell it.
pub fn read_owner(word: &str) -> Result<Option<u64>, Cause>
    ensures { MatchResult result (λ owner. word.now ≡ owner_word owner) (IsNoOwner word.now) }
{
    match word {
        "-" => Ok(None),
        _ => read_number(word).map(Some),
    }
}

/// The mode of a byte lock.
pub fn read_mode(word: &str) -> Result<Mode, Cause>
    ensures { MatchResult result (λ mode. word.now ≡ mode_word mode) (IsBad ModeWord word.now) }
{
    match word {
        "r" => Ok(Mode::Read),
        "w" => Ok(Mode::Write),
        _ => Err(Cause::Word),
    }
}

/// An operation of flock: the mode of the lock that it asks for, and `None` where it removes one.
pub fn read_operation(word: &str) -> Result<Option<Mode>, Cause>
    ensures { MatchResult result (λ mode. word.now ≡ operation_word mode) (IsBad OpWord word.now) }
{
    match word {
        "sh" => Ok(Some(Mode::Read)),
        "ex" => Ok(Some(Mode::Write)),
        "un" => Ok(None),
        _ => Err(Cause::Word),
    }
}

/// The word of `LOCK_NB`.
pub fn read_nb(word: &str) -> Result<(), Cause>
    ensures { MatchResult result (λ unit. word.now ≡ codes "nb") (IsBad NbWord word.now) }
{
    match word {
        "nb" => Ok(()),
        _ => Err(Cause::Word),
    }
}
