//! The lines behind that of a fault.
ghost use Rattle.std.specs.Prelude.{◌≡◌, ◌≤◌, ◌<◌, ◌+◌, ◌^◌, ◌++◌, IfOk, string_bytes, length, min, codes, decimal};
ghost use Rattle.diagnosis.specs.Places.{IsOfStray, IsOfWord, IsPlaceOf, has_bars as has_bars_of, line_max as line_max_of};
ghost use Rattle.diagnosis.specs.Told.{Tells};

use crate::bytes::{stray_of, stray_place};
use crate::entry::find_in_journal;
use crate::heading::Heading;
use crate::history::{Open, find_in_history};
use crate::language::{Language, has_bars, line_max, size_max};
use crate::lines::line_at;
use crate::reason::{Read, Reason};
use crate::request::Finding;
use crate::script::find_in_script;
use crate::shown::picture;
use crate::tokens::{Token, start_of, tokens};
use script_core::{Cause, ScriptFault};
use std::alloc::{AllocError, Global};

/// A file that was read, as far as it was kept.
#[derive(Clone, Copy, Debug)]
pub struct Text<'a> {
    /// Its name.
    pub name: &'a str,
    /// What it is.
    pub language: Language,
    /// The bytes that were kept: all, or a front.
    pub bytes: &'a [u8],
}

/// The lines behind that of a fault of a file: where it is, what was read and what may stand there; the line; and a caret under the place. Or
/// that the file is too long, or that the line wasn't kept.
#[tactic(auto, using(crate::proofs::PlaceLemmas::place_within))]
pub fn told_of(alloc: Global, text: Text<'_>, fault: ScriptFault) -> Result<String, AllocError>
    // Where the file has the line of the fault, the place that is told is the fault's: what was read there and what may stand there is open.
    ensures { IfOk result (λ told. Tells text.entry.name.now text.entry.language text.entry.bytes.now fault (string_bytes told)) }
{
    let number = fault.line;
    match line_at(text.bytes, number) {
        Some(line) => {
            let found = found_in(alloc, text, fault, line)?;
            let message = found.message(alloc)?;
            let picture = picture(alloc, line, found.column)?;
            let told = placed(alloc, text.name, (number, found.column), &message, &picture)?;
            Ok(told)
        }
        None => {
            let told = told_of_none(alloc, text, number)?;
            Ok(told)
        }
    }
}

/// What is told of this line and column, in front of the picture.
fn placed(
    alloc: Global,
    name: &str,
    at: (u64, usize),
    message: &str,
    picture: &str,
) -> Result<String, AllocError>
    requires { at.1 + 1 < 2 ^ 64 }
    ensures { IfOk result (λ text. string_bytes text ≡ name.now ++ codes ":" ++ decimal at.0 ++ codes ":" ++ decimal (at.1 + 1) ++ codes ": "
        ++ message.now ++ codes "\n" ++ picture.now) }
{
    let number = at.0;
    let column = at.1 + 1;
    format!(in alloc; "{name}:{number}:{column}: {message}\n{picture}")
}

/// That there is no line of this number: the file is too long, or that line wasn't kept.
fn told_of_none(alloc: Global, text: Text<'_>, number: u64) -> Result<String, AllocError> {
    let name = text.name;
    if number == 0 {
        let most = size_max(text.language);
        format!(in alloc; "{name}: it is too long; it may have {most} bytes\n")
    } else {
        let kept = text.bytes.len();
        format!(in alloc; "{name}:{number}: the line comes after the {kept} bytes that were kept\n")
    }
}

/// What was found in a line.
#[derive(Clone, Copy, Debug)]
struct Found<'a> {
    /// Where the caret stands, in bytes from the line's first.
    column: usize,
    /// What was read there.
    read: Read<'a>,
    /// What may stand there.
    reason: Reason<'a>,
}

impl Found<'_> {
    /// What was read there, and what may stand there.
    fn message(&self, alloc: Global) -> Result<String, AllocError> {
        let read = self.read;
        let reason = self.reason;
        format!(in alloc; "read {read}; {reason}")
    }
}

/// What is wrong with the line of the fault.
#[tactic(auto, using(crate::proofs::PlaceLemmas::place_of_word))]
fn found_in<'a>(
    alloc: Global,
    text: Text<'a>,
    fault: ScriptFault,
    line: &'a [u8],
) -> Result<Found<'a>, AllocError>
    ensures { IfOk result (λ found. IsPlaceOf text.entry.language fault.cause line.entry.now found.column) }
{
    match fault.cause {
        Cause::TooLong => Ok(too_long(text.language, line)),
        Cause::Byte => Ok(stray(line, fault.line)),
        _ => word_in(alloc, text, fault, line),
    }
}

/// Of a line that is too long: the caret stands under the first byte too many.
fn too_long(language: Language, line: &[u8]) -> Found<'_>
    ensures { result.column ≡ min (line_max_of language) (length line.entry.now) }
{
    let most = line_max(language);
    Found {
        column: most.min(line.len()),
        read: Read::Long(line.len()),
        reason: Reason::Shorter(most),
    }
}

/// Of a byte that isn't printable ASCII: the caret stands under the first one.
fn stray(line: &[u8], number: u64) -> Found<'_>
    ensures { IsOfStray line.entry.now result.column }
{
    let column = stray_place(line);
    let stray = stray_of(&line[column..], number == 1 && column == 0);
    Found {
        column,
        read: Read::Stray(stray),
        reason: Reason::OnlyAscii(stray),
    }
}

/// Of a word: the caret stands under its first byte, or behind the line where one is missing.
fn word_in<'a>(
    alloc: Global,
    text: Text<'a>,
    fault: ScriptFault,
    line: &'a [u8],
) -> Result<Found<'a>, AllocError>
    ensures { IfOk result (λ found. IsOfWord (has_bars_of text.entry.language) line.entry.now found.column) }
{
    let bars = has_bars(text.language);
    let words = tokens(alloc, line, bars)?;
    let found = finding(text, &words, fault);
    Ok(Found {
        column: start_of(line, &words, found.index, bars),
        read: read_at(&words, found.index),
        reason: found.reason,
    })
}

/// What is wrong with the words of the line of the fault. A comment behind other words is, where none in front of it is.
fn finding<'a>(text: Text<'_>, words: &[Token<'a>], fault: ScriptFault) -> Finding<'a> {
    let number = fault.line;
    let heading = Heading::before(text.bytes, number);
    let found = match text.language {
        Language::Script => find_in_script(words, &heading),
        Language::Journal => find_in_journal(words, &heading),
        Language::History => {
            let open = Open::before(text.bytes, number, id_of(words));
            find_in_history(words, open)
        }
    };
    let unknown = Finding::at(0, Reason::Kind(fault.cause));
    let found = found.unwrap_or(unknown);
    match words.iter().position(|word| word.text.starts_with('#')) {
        Some(index) if index > 0 && index <= found.index => Finding::at(index, Reason::Comment),
        _ => found,
    }
}

/// The second word, which is the ID in a history.
fn id_of<'a>(words: &[Token<'a>]) -> &'a str {
    match words.get(1) {
        Some(word) => word.text,
        None => "",
    }
}

/// The word of this index, as it was read.
fn read_at<'a>(words: &[Token<'a>], index: usize) -> Read<'a> {
    match words.get(index) {
        Some(word) => Read::Word(word.text),
        None => Read::End,
    }
}
