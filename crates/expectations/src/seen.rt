//! What is seen of a run in place of what is expected.
ghost use Rattle.std.specs.Prelude.{◌≡◌, ◌<◌, true, false, filter, IfOk, MatchOption, bytes_eq, length};
ghost use Rattle.expectations.specs.FirstLines.{IsFirstLine};
ghost use Rattle.expectations.specs.Expectations.{has_line as has_line_by, is_about as is_about_by, is_met, last_note as last_note_by, last_of, note_seen, seen_in};

use crate::expectation::{Expectation, Wanted};
use crate::text::push_note;
use lock_manager::Note;
use memchr::memchr;
use range_core::Memory;
use session_core::Entry;
use std::alloc::Global;

/// What is seen of a run with this journal and this report in place of what is expected; `None` where that is met.
pub fn seen(
    alloc: Global,
    expectation: &Expectation,
    journal: &[Entry],
    report: &[u8],
) -> Result<Option<Vec<u8>>, Memory>
    ensures { IfOk result (λ seen. MatchOption seen (is_met expectation.now journal.now report.now ≡ true)
        (λ text. (is_met expectation.now journal.now report.now ≡ false) × (text.items ≡ seen_in expectation.now journal.now))) }
{
    let text = expectation.text.as_slice();
    match expectation.wanted {
        Wanted::Note { p, n } => seen_of_note(alloc, last_note(journal, p, n), text),
        Wanted::Line if has_line(report, text) => Ok(None),
        Wanted::Line => Ok(Some(Vec::from_slice(alloc, b"no such line")?)),
        Wanted::NoLine if has_line(report, text) => Ok(Some(Vec::from_slice(alloc, text)?)),
        Wanted::NoLine => Ok(None),
    }
}

/// What the last note on a request tells, or that there is none, in place of this text; `None` where it is the text.
fn seen_of_note(alloc: Global, note: Option<Note>, text: &[u8]) -> Result<Option<Vec<u8>>, Memory>
    ensures { IfOk result (λ seen. MatchOption seen (bytes_eq (note_seen note) text.now ≡ true)
        (λ told. (bytes_eq (note_seen note) text.now ≡ false) × (told.items ≡ note_seen note))) }
{
    let mut seen = Vec::new(alloc);
    push_note(&mut seen, note)?;
    Ok(if seen.as_slice() == text {
        None
    } else {
        Some(seen)
    })
}

/// The last note on request number `n` of process `p` in these entries.
fn last_note(journal: &[Entry], p: u8, n: u64) -> Option<Note>
    ensures { result ≡ last_note_by p n journal.now }
{
    let mut last = None;
    for entry in journal {
        if let Some(note) = last_among(entry.notes.as_slice(), p, n) {
            last = Some(note);
        }
    }
    last
}

/// The last of these notes that is on the request.
fn last_among(notes: &[Note], p: u8, n: u64) -> Option<Note>
    ensures { result ≡ last_of (filter (is_about_by p n) notes.now) }
{
    let mut last = None;
    for note in notes {
        if is_about(note, p, n) {
            last = Some(*note);
        }
    }
    last
}

/// Whether the note is on the request.
fn is_about(note: &Note, p: u8, n: u64) -> bool
    ensures { result ≡ is_about_by p n note.now }
{
    match note {
        Note::Answer {
            p: to,
            n: number,
            ..
        }
        | Note::Waits { p: to, n: number } => *to == p && *number == n,
    }
}

/// Whether the text has this line.
fn has_line(text: &[u8], line: &[u8]) -> bool
    ensures { result ≡ has_line_by text.now line.now }
{
    let mut rest = text;
    while !rest.is_empty() {
        let (first, behind) = first_line(rest);
        if first == line {
            return true;
        }
        rest = behind;
    }
    false
}

/// The first line, and what stands behind its line feed.
pub fn first_line(bytes: &[u8]) -> (&[u8], &[u8])
    requires { 0 < length bytes.now }
    ensures { IsFirstLine bytes.now result.0.now result.1.now }
{
    match memchr(b'\n', bytes) {
        Some(end) => (&bytes[..end], &bytes[end + 1..]),
        None => (bytes, &[]),
    }
}
