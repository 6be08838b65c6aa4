//! The text of what a note tells, and of an expectation that isn't met.
ghost use Rattle.std.specs.Prelude.{◌≡◌, ◌++◌, OnOk, decimal};
ghost use Rattle.std.specs.Fmt.{signed_decimal};
ghost use Rattle.script_core.specs.RequestText.{mode_word as mode_word_by};
ghost use Rattle.script_core.specs.EntryText.{error_name as error_name_by, reply_text};
ghost use Rattle.expectations.specs.Expectations.{note_seen, told_text, wanted_text};

use crate::expectation::{Expectation, Wanted};
use itoa::Buffer;
use lock_manager::{Errno, Note, Reply};
use range_core::{Memory, Mode};

/// Appends what the last note on a request tells, or that there is none.
pub fn push_note(text: &mut Vec<u8>, note: Option<Note>) -> Result<(), Memory>
    ensures { OnOk result (text.new.items ≡ text.old.items ++ note_seen note) }
{
    match note {
        Some(note) => push_told(text, note),
        None => push_str(text, "none"),
    }
}

/// Appends what a note tells of its request.
fn push_told(text: &mut Vec<u8>, note: Note) -> Result<(), Memory>
    ensures { OnOk result (text.new.items ≡ text.old.items ++ told_text note) }
{
    match note {
        Note::Answer { reply, .. } => push_reply(text, reply),
        Note::Waits { .. } => push_str(text, "waits"),
    }
}

/// Appends a reply.
fn push_reply(text: &mut Vec<u8>, reply: Reply) -> Result<(), Memory>
    ensures { OnOk result (text.new.items ≡ text.old.items ++ reply_text reply) }
{
    match reply {
        Reply::Ok => push_str(text, "ok"),
        Reply::Fd(fd) => push_numbered(text, "fd ", u64::from(fd)),
        Reply::Free => push_str(text, "free"),
        Reply::Held {
            mode,
            start,
            len,
            pid,
        } => {
            push_str(text, "held ")?;
            push_str(text, mode_word(mode))?;
            push_numbered(text, " ", start)?;
            push_numbered(text, " ", len)?;
            push_str(text, " ")?;
            push_integer(text, pid)
        }
        Reply::Err(error) => push_str(text, error_name(error)),
    }
}

/// Appends what is expected, as it is told.
pub fn push_wanted(text: &mut Vec<u8>, expectation: &Expectation) -> Result<(), Memory>
    ensures { OnOk result (text.new.items ≡ text.old.items ++ wanted_text expectation.now) }
{
    match expectation.wanted {
        Wanted::Note { .. } | Wanted::Line => {}
        Wanted::NoLine => push_str(text, "no ")?,
    }
    push_bytes(text, &expectation.text)
}

/// Appends bytes.
pub fn push_bytes(text: &mut Vec<u8>, piece: &[u8]) -> Result<(), Memory>
    ensures { OnOk result (text.new.items ≡ text.old.items ++ piece.now) }
{
    Ok(text.extend_from_slice(piece)?)
}

/// Appends a piece.
pub fn push_str(text: &mut Vec<u8>, piece: &str) -> Result<(), Memory>
    ensures { OnOk result (text.new.items ≡ text.old.items ++ piece.now) }
{
    push_bytes(text, piece.as_bytes())
}

/// Appends a piece, and a natural number.
pub fn push_numbered(text: &mut Vec<u8>, piece: &str, n: u64) -> Result<(), Memory>
    ensures { OnOk result (text.new.items ≡ text.old.items ++ (piece.now ++ decimal n)) }
{
    push_str(text, piece)?;
    push_str(text, Buffer::new().format(n))
}

/// Appends an integer.
fn push_integer(text: &mut Vec<u8>, z: i64) -> Result<(), Memory>
    ensures { OnOk result (text.new.items ≡ text.old.items ++ signed_decimal z) }
{
    push_str(text, Buffer::new().format(z))
}

/// The word of a mode.
fn mode_word(mode: Mode) -> &'static str
    ensures { result.now ≡ mode_word_by mode }
{
    match mode {
        Mode::Read => "r",
        Mode::Write => "w",
    }
}

/// The name of an error (POSIX.1-2017 `<errno.h>`).
fn error_name(error: Errno) -> &'static str
    ensures { result.now ≡ error_name_by error }
{
    match error {
        Errno::EBADF => "EBADF",
        Errno::EINVAL => "EINVAL",
        Errno::EOVERFLOW => "EOVERFLOW",
        Errno::EAGAIN => "EAGAIN",
        Errno::EDEADLK => "EDEADLK",
        Errno::EINTR => "EINTR",
        Errno::EMFILE => "EMFILE",
        Errno::ESRCH => "ESRCH",
    }
}
