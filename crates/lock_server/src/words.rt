//! Words of 64 bits that are put into a buffer, as bytes.
ghost use Rattle.std.specs.Prelude.{◌≡◌, [], ◌∷◌};
ghost use Rattle.lock_server.specs.Bytes.{conversion_word as conversion_word_of, family_word as family_word_of, flag_word as flag_word_of, mode_word as mode_word_of, policy_word as policy_word_of};
ghost use Rattle.lock_server.specs.Words.{Puts};

use crate::{Conversion, Family, Mode, Policy};

/// Puts the word into the buffer from this place on, as eight bytes, the lowest first, where these have room; the place behind them is
/// told also where they have none, and the greatest number for one that is larger.
pub fn put(out: &mut [u8], at: usize, word: u64) -> usize
    ensures { Puts (word ∷ []) out.old at out.new result }
{
    let behind = at.saturating_add(8);
    if behind <= out.len() {
        out[at..behind].copy_from_slice(&word.to_le_bytes());
    }
    behind
}

/// Puts these words, one behind another.
pub fn put_all(out: &mut [u8], at: usize, words: &[u64]) -> usize
    ensures { Puts words.now out.old at out.new result }
{
    let mut behind = at;
    for word in words {
        behind = put(out, behind, *word);
    }
    behind
}

/// The mode as a word.
pub fn mode_word(mode: Mode) -> u64
    ensures { result ≡ mode_word_of mode }
{
    match mode {
        Mode::Read => 1,
        Mode::Write => 2,
    }
}

/// The family as a word.
pub fn family_word(family: Family) -> u64
    ensures { result ≡ family_word_of family }
{
    match family {
        Family::Bytes => 0,
        Family::Whole => 1,
    }
}

/// A yes or no as a word.
pub fn flag_word(flag: bool) -> u64
    ensures { result ≡ flag_word_of flag }
{
    u64::from(flag)
}

/// The policy as a word.
pub fn policy_word(policy: Policy) -> u64
    ensures { result ≡ policy_word_of policy }
{
    match policy {
        Policy::Held => 0,
        Policy::Queue => 1,
    }
}

/// The conversion as a word.
pub fn conversion_word(conversion: Conversion) -> u64
    ensures { result ≡ conversion_word_of conversion }
{
    match conversion {
        Conversion::Stepwise => 0,
        Conversion::Atomic => 1,
    }
}
