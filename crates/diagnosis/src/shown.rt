//! How a line is shown, and the caret under it.
ghost use Rattle.std.specs.Prelude.{◌≡◌, ◌≤◌, ◌+◌, ◌++◌, ◌<◌, ◌∷◌, [], length, OnOk, IfOk, codes, string_bytes, replicate};
ghost use Rattle.diagnosis.specs.Shown.{Shows, hexadecimal, shown, shown_byte};

use crate::bytes::is_printable;
use std::alloc::{AllocError, Global};

/// How many bytes of a long line are shown at most, and how many of these in front of the caret.
const WIDTH: usize = 160;

const FRONT: usize = 100;

/// The line, and behind it a line with a caret under the byte at `column`, or behind the last one. Of a long line, what stands around that is
/// shown. A byte that isn't printable ASCII is shown as in a literal of Rust: `\t`, `\r`, `\xE4`.
pub fn picture(alloc: Global, line: &[u8], column: usize) -> Result<String, AllocError>
    requires { column ≤ length line.now }
    ensures { IfOk result (λ text. Shows line.now column (string_bytes text)) }
{
    let from = begin_of(line, column);
    let to = end_of(line, from, column);
    let before = mark(from, 0);
    let behind = mark(to, line.len());
    let front = shown_of(alloc, &line[from..column])?;
    let rest = shown_of(alloc, &line[column..to])?;
    let spaces = spaces(alloc, before.len(), front.len())?;
    let text = joined(alloc, before, &front, &rest, behind, &spaces)?;
    Ok(text)
}

/// What stands at an end of what is shown, where that isn't the line's.
fn mark(place: usize, end: usize) -> &'static str
    ensures { place ≡ end → result.now ≡ [] }
{
    if place == end { "" } else { ".." }
}

/// Two lines behind the margin: the pieces, and a caret behind spaces.
fn joined(
    alloc: Global,
    before: &str,
    front: &str,
    rest: &str,
    behind: &str,
    spaces: &str,
) -> Result<String, AllocError>
    ensures { IfOk result (λ text. string_bytes text ≡ codes "    " ++ before.now ++ front.now ++ rest.now ++ behind.now ++ codes "\n"
        ++ codes "    " ++ spaces.now ++ codes "^\n") }
{
    format!(in alloc; "    {before}{front}{rest}{behind}\n    {spaces}^\n")
}

/// From where on a line is shown whose caret stands there.
fn begin_of(line: &[u8], column: usize) -> usize
    requires { column ≤ length line.now }
    ensures within { result ≤ column }
    ensures whole { length line.now ≤ WIDTH → result ≡ 0 }
{
    if line.len() <= WIDTH {
        0
    } else {
        column.saturating_sub(FRONT)
    }
}

/// Up to where a line is shown from this place on, whose caret stands at the other.
fn end_of(line: &[u8], from: usize, column: usize) -> usize
    requires caret { (from ≤ column) × (column ≤ length line.now) }
    ensures within { (column ≤ result) × (result ≤ length line.now) }
    ensures whole { length line.now ≤ WIDTH → from ≡ 0 → result ≡ length line.now }
{
    if line.len() - from <= WIDTH {
        line.len()
    } else {
        column.max(from + WIDTH)
    }
}

/// The bytes as they are shown.
fn shown_of(alloc: Global, bytes: &[u8]) -> Result<String, AllocError>
    ensures { IfOk result (λ text. string_bytes text ≡ shown bytes.now) }
{
    let mut text = String::new(alloc);
    for byte in bytes {
        push_shown(&mut text, *byte)?;
    }
    Ok(text)
}

/// Appends a byte as it is shown.
fn push_shown(text: &mut String, byte: u8) -> Result<(), AllocError>
    ensures { OnOk result (string_bytes text.new ≡ string_bytes text.old ++ shown_byte byte) }
{
    if is_printable(byte) {
        text.push(char::from(byte))
    } else if byte == b'\t' {
        text.push_str("\\t")
    } else if byte == b'\r' {
        text.push_str("\\r")
    } else {
        text.push_str("\\x")?;
        text.push(digit_of(byte / 16))?;
        text.push(digit_of(byte % 16))
    }
}

/// A hexadecimal digit, in capitals.
fn digit_of(number: u8) -> char
    requires { number < 16 }
    ensures { result ≡ hexadecimal number }
{
    if number < 10 {
        char::from(b'0' + number)
    } else {
        char::from(b'A' + (number - 10))
    }
}

/// As many spaces as these two say together.
fn spaces(alloc: Global, before: usize, front: usize) -> Result<String, AllocError>
    ensures { IfOk result (λ text. string_bytes text ≡ replicate (before + front) 32) }
{
    let mut text = String::new(alloc);
    push_spaces(&mut text, before)?;
    push_spaces(&mut text, front)?;
    Ok(text)
}

/// Appends so many spaces.
fn push_spaces(text: &mut String, count: usize) -> Result<(), AllocError>
    ensures { OnOk result (string_bytes text.new ≡ string_bytes text.old ++ replicate count 32) }
{
    for _ in 0..count {
        text.push(' ')?;
    }
    Ok(())
}
