//! An entry of the journal: an event and what it told.
ghost use Rattle.std.specs.Prelude.{◌≡◌};
ghost use Rattle.session_core.specs.Mail.{answers_in, reply_of, reply_among};

use lock_manager::{Note, Reply, Request};
use std::marker::Model;
use std::{mem, slice};

/// One event: request number `n` of process `p`, and what it told (this project's choice).
#[derive(Debug, Drop)]
pub struct Entry {
    /// The process that the request was taken from.
    pub p: u8,
    /// The number of the request among those of its process, from 1.
    pub n: u64,
    /// The request.
    pub request: Request,
    /// The caller's note first, where there is one (an exit and a kill of oneself have none), then those of the others that it touched.
    pub notes: Notes,
}

impl Model for Entry {
    ghost use Rattle.session_core.specs.Event.{Event};

    ghost Value = { Event };

    ghost view = { λ entry. record { p = entry.p; n = entry.n; request = entry.request; notes = entry.notes } };
}

/// What an event told. Most events tell one note, which takes no memory of its own (this project's choice).
#[derive(Debug, Drop)]
pub struct Notes {
    kept: KeptNotes,
}

/// How notes are kept.
#[derive(Debug, Drop)]
enum KeptNotes {
    /// A single note.
    One(Note),
    /// None, or several.
    Several(Vec<Note>),
}

impl Model for Notes {
    ghost use Rattle.std.specs.Prelude.{List};
    ghost use Rattle.lock_manager.specs.declared.request.Note.{Note};
    ghost use Rattle.session_core.specs.Event.{notes_kept};

    ghost Value = { List Note };

    ghost view = { λ notes. notes_kept notes.kept };
}

impl Notes {
    /// These notes, without most of the room that there was for a note to each wait. Where the growth of a smaller place is refused,
    /// they keep their room.
    pub fn of(notes: Vec<Note>) -> Notes
        ensures { result ≡ notes.items }
    {
        let mut notes = notes;
        Notes::taken_from(&mut notes)
    }

    /// The same, where a single note is copied, so that the vector keeps its room; several go with theirs.
    pub(crate) fn taken_from(notes: &mut Vec<Note>) -> Notes
        ensures { result ≡ notes.old.items }
    {
        if let [note] = notes.as_slice() {
            return Notes {
                kept: KeptNotes::One(*note),
            };
        }
        let none = Vec::new(*notes.allocator());
        let mut several = mem::replace(notes, none);
        if several.len() + 1 < several.capacity() {
            several.shrink_to_fit();
        }
        Notes {
            kept: KeptNotes::Several(several),
        }
    }

    /// The notes, in order.
    pub fn as_slice(&self) -> &[Note]
        ensures { result.now ≡ self.now }
    {
        match &self.kept {
            KeptNotes::One(note) => slice::from_ref(note),
            KeptNotes::Several(notes) => notes,
        }
    }
}

/// The answer to request number `n` of the process that is among the notes.
pub fn find_reply(notes: &[Note], p: u8, n: u64) -> Option<Reply>
    ensures { result ≡ reply_among n (answers_in p 0 notes.now) }
{
    for note in notes {
        if let Some(reply) = reply_in(note, p, n) {
            return Some(reply);
        }
    }
    None
}

/// The answer to request number `n` of the process, if the note is that.
fn reply_in(note: &Note, p: u8, n: u64) -> Option<Reply>
    ensures { result ≡ reply_of p n note.now }
{
    match note {
        Note::Answer {
            p: to,
            n: number,
            reply,
        } if *to == p && *number == n => Some(*reply),
        _ => None,
    }
}
