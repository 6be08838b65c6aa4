//! The words of a line, with the places where they begin.
ghost use Rattle.std.specs.Prelude.{◌≡◌, ◌≢◌, ◌≤◌, ◌<◌, ◌-◌, true, IfOk, All, length, slice_index};
ghost use Rattle.diagnosis.specs.Places.{BeginsWord, IsOfWord};

use std::alloc::{AllocError, Global};
use std::str;

/// A word of a line.
#[derive(Clone, Copy, Debug)]
pub struct Token<'a> {
    /// Where it begins, in bytes from the line's first.
    pub start: usize,
    /// The word itself.
    pub text: &'a str,
}

impl Token<'_> {
    /// Whether it is the bar between the pieces of an entry.
    pub fn is_bar(&self) -> bool {
        self.text == "|"
    }
}

/// The words of the line: what stands between spaces. Where bars part it, each bar is a word too, and ends the one in front.
pub fn tokens(alloc: Global, line: &[u8], bars: bool) -> Result<Vec<Token<'_>>, AllocError>
    ensures { IfOk result (λ tokens. All (λ token. BeginsWord bars line.now token.start) tokens.items) }
{
    let mut tokens = Vec::new(alloc);
    let mut start = behind_spaces(line, 0);
    while start < line.len() {
        let end = word_end(line, start, bars);
        let text = str::from_utf8(&line[start..end]).unwrap_or("");
        tokens.push(Token { start, text })?;
        start = behind_spaces(line, end);
    }
    Ok(tokens)
}

/// Where the spaces end that stand from this place on.
fn behind_spaces(line: &[u8], from: usize) -> usize
    requires { from ≤ length line.now }
    ensures within { (from ≤ result) × (result ≤ length line.now) }
    ensures no_space { result < length line.now → slice_index line.now result ≢ 32 }
    ensures spaces { from < result → slice_index line.now (result - 1) ≡ 32 }
{
    for place in from..line.len() {
        if line[place] != b' ' {
            return place;
        }
    }
    line.len()
}

/// Where the word ends that begins at this place.
fn word_end(line: &[u8], start: usize, bars: bool) -> usize
    requires { start < length line.now }
    ensures within { (start < result) × (result ≤ length line.now) }
    ensures ends { result < length line.now → slice_index line.now result ≢ 32 →
        (bars ≡ true) × (slice_index line.now result ≢ 124 → slice_index line.now (result - 1) ≡ 124) }
{
    if bars && line[start] == b'|' {
        return start + 1;
    }
    for place in start + 1..line.len() {
        if ends_word(line[place], bars) {
            return place;
        }
    }
    line.len()
}

/// Whether a word ends in front of this byte.
fn ends_word(byte: u8, bars: bool) -> bool
    ensures space { byte ≡ 32 → result ≡ true }
    ensures bar { bars ≡ true → byte ≡ 124 → result ≡ true }
    ensures no_other { result ≡ true → byte ≢ 32 → (bars ≡ true) × (byte ≡ 124) }
{
    byte == b' ' || (bars && byte == b'|')
}

/// Where the word of this index begins, or the line ends where it has fewer.
pub fn start_of(line: &[u8], tokens: &[Token<'_>], index: usize, bars: bool) -> usize
    requires { All (λ token. BeginsWord bars line.now token.start) tokens.now }
    ensures { IsOfWord bars line.now result }
{
    match tokens.get(index) {
        Some(token) => token.start,
        None => line.len(),
    }
}
