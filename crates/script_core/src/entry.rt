//! The line of an entry: what it says, or its first fault.
ghost use Rattle.std.specs.Prelude.{◌≡◌, ◌==◌, [], IfOk, IfErr, Ok, Err};
ghost use Rattle.std.specs.List.{slice_split};
ghost use Rattle.script_core.specs.Words.{texts, words_of};
ghost use Rattle.script_core.specs.Reading.{IsOfScript, IsWantOfMemory};
ghost use Rattle.script_core.specs.EntryReading.{pieces_of, TakenGives, NotesGive, PiecesGive, EntryGives, HasOneEntry, BeginWithNote, HaveNote, HasNote};

use crate::line::read_request;
use crate::note::{read_note, read_tag};
use crate::words::{WORDS_MAX, first_words, printable_text};
use crate::{Cause, ENTRY_MAX};
use fd_table::Limits;
use lock_manager::{Note, Request};
use range_core::Memory;
use session_core::{Entry, Notes};
use std::alloc::Global;

/// A request that was taken, with its tag.
#[derive(Clone, Copy)]
pub struct Taken {
    /// Its process.
    pub p: u8,
    /// Its number among those of its process.
    pub n: u64,
    /// The request.
    pub request: Request,
}

/// The entry that a line of a journal says, or the line's first fault. The line stands without its line feed, and has at most
/// [`ENTRY_MAX`] bytes; processes are those of the limits, and the words of the request are as in a script.
///
/// [`Cause::Memory`] may come in place of any other answer, and only where a growth was refused.
pub fn parse_entry(alloc: Global, limits: Limits, line: &[u8]) -> Result<Entry, Cause>
    ensures read { IfOk result (λ entry. EntryGives limits line.now (Ok entry)) }
    ensures refused { IfErr result (λ cause. IsOfScript cause → EntryGives limits line.now (Err cause)) }

    // Memory is wanted for notes alone.
    ensures memory { IfErr result (λ cause. IsWantOfMemory cause → HasNote limits line.now) }

    // The line is read in no other way.
    ensures determined { HasOneEntry limits line.now }
{
    if line.len() > ENTRY_MAX {
        return Err(Cause::TooLong);
    }
    let text = printable_text(line).ok_or(Cause::Byte)?;
    read_pieces(alloc, limits, text)
}

/// What the pieces of a line say.
pub fn read_pieces(alloc: Global, limits: Limits, text: &str) -> Result<Entry, Cause>
    ensures read { IfOk result (λ entry. PiecesGive limits (pieces_of text.now) (Ok entry)) }
    ensures refused { IfErr result (λ cause. IsOfScript cause → PiecesGive limits (pieces_of text.now) (Err cause)) }
    ensures memory { IfErr result (λ cause. IsWantOfMemory cause → HaveNote limits (pieces_of text.now)) }
{
    let Some((first, behind)) = text.split_once('|') else {
        let Taken { p, n, request } = read_taken(limits, text)?;
        let notes = Notes::of(Vec::new(alloc));
        return Ok(Entry {
            p,
            n,
            request,
            notes,
        });
    };
    let Taken { p, n, request } = read_taken(limits, first)?;
    let notes = Notes::of(read_notes(alloc, limits, behind)?);
    Ok(Entry {
        p,
        n,
        request,
        notes,
    })
}

/// What the first piece says. Of more words than [`WORDS_MAX`] the first ones say the same.
fn read_taken(limits: Limits, piece: &str) -> Result<Taken, Cause>
    ensures { TakenGives limits (words_of piece.now) result }
{
    let mut room = [""; WORDS_MAX];
    read_taken_words(limits, first_words(piece, &mut room))
}

/// What the words of the first piece say: a tag, and the request.
fn read_taken_words(limits: Limits, words: &[&str]) -> Result<Taken, Cause>
    ensures { TakenGives limits (texts words.now) result }
{
    let [first, rest @ ..] = words else {
        return Err(Cause::Count);
    };
    let (p, n) = read_tag(limits, first)?;
    let request = read_request(limits, rest)?;
    Ok(Taken { p, n, request })
}

/// The notes that stand before, between and behind the bars.
fn read_notes(alloc: Global, limits: Limits, text: &str) -> Result<Vec<Note>, Cause>
    ensures read { IfOk result (λ notes. NotesGive limits [] (pieces_of text.now) (Ok notes.items)) }
    ensures refused { IfErr result (λ cause. IsOfScript cause → NotesGive limits [] (pieces_of text.now) (Err cause)) }
    ensures memory { IfErr result (λ cause. IsWantOfMemory cause → BeginWithNote limits (pieces_of text.now)) }
{
    let mut notes = Vec::new(alloc);
    for piece in text.split('|') {
        let note = read_note(limits, piece)?;
        notes.push(note).map_err(Memory::from)?;
    }
    Ok(notes)
}
