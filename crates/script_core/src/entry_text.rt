//! The text of an entry: a request and what it told.
ghost use Rattle.std.specs.Prelude.{◌≡◌, ◌∷◌, ◌++◌, MatchResult, codes};
ghost use Rattle.script_core.specs.EntryText.{entry_line, entry_text, note_text, reply_text, tag};
ghost use Rattle.script_core.specs.Output.{Extends};

use crate::noted::Noted;
use crate::pieces::{push_bytes, push_integer, push_number, push_numbered, push_str};
use crate::request_text::push_request;
use crate::word_tables::{spaced_error, spaced_mode};
use lock_manager::{Note, Reply};
use range_core::Memory;
use session_core::Entry;

/// Appends the line of an entry: the request with its process and number, and then each note.
pub fn push_entry(text: &mut Vec<u8>, entry: &Entry) -> Result<(), Memory>
    ensures { MatchResult result (λ unit. text.new.items ≡ text.old.items ++ entry_line entry.now) (λ error. Extends text.old.items text.new.items) }
{
    push_event(text, entry, entry.notes.as_slice())?;
    push_str(text, "\n")
}

/// Appends the request of an entry with its process and number, and then each of these notes.
pub fn push_event(text: &mut Vec<u8>, entry: &Entry, notes: &[Note]) -> Result<(), Memory>
    ensures { MatchResult result (λ unit. text.new.items ≡ text.old.items ++ entry_text (record entry.now { notes = notes.now }))
        (λ error. Extends text.old.items text.new.items) }
{
    // Most notes are about the request itself.
    let own = Noted::new(entry.p, entry.n);
    push_bytes(text, own.tag())?;
    push_request(text, &entry.request)?;
    for note in notes {
        push_note(text, note, &own)?;
    }
    Ok(())
}

/// Appends a note: the request that it is about, mostly this one, and what it tells of it.
fn push_note(text: &mut Vec<u8>, note: &Note, own: &Noted) -> Result<(), Memory>
    ensures { MatchResult result (λ unit. text.new.items ≡ text.old.items ++ note_text note.now) (λ error. Extends text.old.items text.new.items) }
{
    match note {
        Note::Answer { p, n, reply } => {
            push_noted(text, *p, *n, own)?;
            push_reply(text, *reply)
        }
        Note::Waits { p, n } => {
            push_noted(text, *p, *n, own)?;
            push_str(text, " waits")
        }
    }
}

/// Appends the request that a note is about, mostly this one.
fn push_noted(text: &mut Vec<u8>, p: u8, n: u64, own: &Noted) -> Result<(), Memory>
    ensures { MatchResult result (λ unit. text.new.items ≡ text.old.items ++ (codes " | " ++ tag p n)) (λ error. Extends text.old.items text.new.items) }
{
    if own.is(p, n) {
        return push_bytes(text, own.behind_bar());
    }
    push_numbered(text, " |", u64::from(p))?;
    push_number(text, b'#', n)
}

/// Appends a space and a reply.
fn push_reply(text: &mut Vec<u8>, reply: Reply) -> Result<(), Memory>
    ensures { MatchResult result (λ unit. text.new.items ≡ text.old.items ++ 32 ∷ reply_text reply) (λ error. Extends text.old.items text.new.items) }
{
    match reply {
        Reply::Ok => push_str(text, " ok"),
        Reply::Fd(fd) => push_numbered(text, " fd", u64::from(fd)),
        Reply::Free => push_str(text, " free"),
        Reply::Held {
            mode,
            start,
            len,
            pid,
        } => {
            push_str(text, " held")?;
            push_str(text, spaced_mode(mode))?;
            push_number(text, b' ', start)?;
            push_number(text, b' ', len)?;
            push_integer(text, pid)
        }
        Reply::Err(error) => push_str(text, spaced_error(error)),
    }
}
