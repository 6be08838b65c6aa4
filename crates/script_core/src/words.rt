//! The words of a line.
ghost use Rattle.std.specs.Prelude.{ℕ, ◌≡◌, ◌≤◌, ◌==◌, if◌then◌else◌, List, [], ◌∷◌, ◌++◌, IsTrue, IsFalse, MatchOption, length, take};
ghost use Rattle.script_core.specs.Words.{texts};
ghost use Rattle.script_core.specs.Words as spec;
ghost use Rattle.script_core.specs.Reading.{AreSkipped, is_comment as begins_comment};

use std::str;

/// One word more than the longest line has: a process, a lock command and its six arguments.
pub const WORDS_MAX: usize = 9;

/// The line as a text, where each byte is printable ASCII.
#[tactic(auto, using(crate::proofs::LineLemmas::printable_utf8))]
pub fn printable_text(line: &[u8]) -> Option<&str>
    ensures { MatchOption result (IsFalse (spec.is_printable line.now))
        (λ text. IsTrue (spec.is_printable line.now) × (text.now ≡ line.now)) }
{
    if is_printable(line) {
        // SAFETY: ASCII is UTF-8, and each byte was looked at already.
        Some(unsafe { str::from_utf8_unchecked(line) })
    } else {
        None
    }
}

/// Whether each byte is printable ASCII, or a space. It stops at none, so that the compiler can look at many at once.
fn is_printable(line: &[u8]) -> bool
    ensures { result ≡ spec.is_printable line.now }
{
    let mut printable = true;
    for byte in line {
        printable &= matches!(byte, b' '..=b'~');
    }
    printable
}

/// Whether the first byte that isn't a space is `#`: the line is a comment.
pub fn is_comment(line: &str) -> bool
    ensures { result ≡ spec.begins_with_hash line.now }
{
    for byte in line.as_bytes() {
        if *byte != b' ' {
            return *byte == b'#';
        }
    }
    false
}

/// The first words, at most [`WORDS_MAX`], which it puts at the front of `room`: what stands between spaces, of which there may be
/// several, and also at both ends.
// The caller has the room, so that no array of words is moved.
pub fn first_words<'a, 'w>(line: &'a str, room: &'w mut [&'a str; WORDS_MAX]) -> &'w [&'a str]
    ensures { texts result.now ≡ take WORDS_MAX (spec.words_of line.now) }
{
    let bytes = line.as_bytes();
    let mut count = 0;
    let mut start = 0;
    for at in 0..bytes.len() {
        if bytes[at] == b' ' {
            count = put_word(room, count, &line[start..at]);
            start = at + 1;
        }
    }
    count = put_word(room, count, &line[start..]);
    &room[..count]
}

/// The first one of the first words, and the others, where the line has words and is no comment.
#[tactic(auto, using(crate::proofs::LineLemmas::comment_skipped))]
pub fn said_words<'a, 'w>(
    line: &'a str,
    room: &'w mut [&'a str; WORDS_MAX],
) -> Option<(&'a str, &'w [&'a str])>
    ensures { MatchOption result (AreSkipped (spec.words_of line.now))
        (λ words. (take WORDS_MAX (spec.words_of line.now) ≡ words.0.now ∷ texts words.1.now) × IsFalse (begins_comment words.0.now)) }
{
    if is_comment(line) {
        return None;
    }
    match first_words(line, room) {
        [first, rest @ ..] if !first.starts_with('#') => Some((first, rest)),
        _ => None,
    }
}

/// Puts what stands between two spaces behind so many words, where it is a word and there is room for one more, and tells how many
/// words there are then.
fn put_word<'a>(words: &mut [&'a str; WORDS_MAX], count: usize, piece: &'a str) -> usize
    requires { count ≤ WORDS_MAX }
    ensures put { (before : List (List ℕ)) → texts (take count words.old) ≡ take WORDS_MAX before →
        texts (take result words.new) ≡ take WORDS_MAX (if length piece.now == 0 then before else before ++ piece.now ∷ []) }
    ensures room { result ≤ WORDS_MAX }
{
    if piece.is_empty() || count == WORDS_MAX {
        return count;
    }
    words[count] = piece;
    count + 1
}
