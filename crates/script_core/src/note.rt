//! Tags, and what is told of a request.
ghost use Rattle.std.specs.Prelude.{◌≡◌, ℕ, [], MatchResult, MatchOption, codes};
ghost use Rattle.script_core.specs.Words.{texts, words_of};
ghost use Rattle.script_core.specs.Arguments.{AreRefused};
ghost use Rattle.script_core.specs.EntryReading.{IsTag, TagGives, ReplyGives, ToldGives, NoteGives};

use crate::Cause;
use crate::arguments::{read_number, read_process, read_unsigned};
use crate::commands::read_descriptor_alone;
use crate::numbers::natural_of;
use crate::word_tables::{read_error, read_mode};
use crate::words::{WORDS_MAX, first_words};
use fd_table::Limits;
use lock_manager::{Note, Reply};

/// What a piece behind a `|` tells. Of more words than [`WORDS_MAX`] the first ones say the same.
pub fn read_note(limits: Limits, piece: &str) -> Result<Note, Cause>
    ensures { NoteGives limits (words_of piece.now) result }
{
    let mut room = [""; WORDS_MAX];
    read_note_words(limits, first_words(piece, &mut room))
}

/// What the words of a note tell: a tag, and what follows it.
fn read_note_words(limits: Limits, words: &[&str]) -> Result<Note, Cause>
    ensures { NoteGives limits (texts words.now) result }
{
    let [first, told @ ..] = words else {
        return Err(Cause::Count);
    };
    let (p, n) = read_tag(limits, first)?;
    read_told(p, n, told)
}

/// A tag: a process and the number of one of its requests, with a `#` between them.
pub fn read_tag(limits: Limits, word: &str) -> Result<(u8, u64), Cause>
    ensures { TagGives limits word.now result }
{
    tag_of(limits, word).ok_or(Cause::Tag)
}

/// The process and the number that the word is the tag of.
fn tag_of(limits: Limits, word: &str) -> Option<(u8, u64)>
    ensures { MatchOption result ((p n : ℕ) → ¬ (IsTag limits word.now p n)) (λ pair. IsTag limits word.now pair.0 pair.1) }
{
    let (process, number) = word.split_once('#')?;
    let p = read_process(limits, process).ok()?;
    let n = natural_of(number)?;
    Some((p, n))
}

/// What is told of request number `n` of process `p`: that it waits, or its reply.
fn read_told(p: u8, n: u64, words: &[&str]) -> Result<Note, Cause>
    ensures { ToldGives p n (texts words.now) result }
{
    let [name, arguments @ ..] = words else {
        return Err(Cause::Count);
    };
    if *name == "waits" {
        return alone(Note::Waits { p, n }, arguments);
    }
    let reply = read_reply(name, arguments)?;
    Ok(Note::Answer { p, n, reply })
}

/// What a word says, where nothing follows it.
fn alone<T: Copy>(said: T, arguments: &[&str]) -> Result<T, Cause>
    ensures { MatchResult result (λ value. (value ≡ said) × (texts arguments.now ≡ []))
        (AreRefused [] (texts arguments.now)) }
{
    match arguments {
        [] => Ok(said),
        _ => Err(Cause::Count),
    }
}

/// The reply of this word, with what follows it.
fn read_reply(name: &str, arguments: &[&str]) -> Result<Reply, Cause>
    ensures { ReplyGives name.now (texts arguments.now) result }
{
    match name {
        "ok" => alone(Reply::Ok, arguments),
        "fd" => read_descriptor_alone(arguments).map(|fd| Reply::Fd(fd)),
        "free" => alone(Reply::Free, arguments),
        "held" => read_held(arguments),
        _ => {
            let error = read_error(name)?;
            alone(Reply::Err(error), arguments)
        }
    }
}

/// The lock that blocks: MODE START LENGTH PID.
fn read_held(arguments: &[&str]) -> Result<Reply, Cause>
    ensures { ReplyGives (codes "held") (texts arguments.now) result }
{
    let [mode, start, len, pid] = arguments else {
        return Err(Cause::Count);
    };
    let mode = read_mode(mode)?;
    let start = read_unsigned(start)?;
    let len = read_unsigned(len)?;
    let pid = read_number(pid)?;
    Ok(Reply::Held {
        mode,
        start,
        len,
        pid,
    })
}
