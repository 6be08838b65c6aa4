//! Why a journal isn't legal.
use crate::lines::line_at;
use crate::reason::Read;
use crate::rerun::Rerun;
use crate::shown::picture;
use crate::tokens::{Token, start_of, tokens};
use range_core::Memory;
use replay_core::{FromReader, Outcome, RunFault, ToWriter, check};
use script_core::{JournalFault, JournalReader};
use std::alloc::{AllocError, Global};
use std::io::Read as ReadBytes;
use std::str;

/// What stands behind the verdict on an illegal journal of this name: the word with which it may not go on, and what the rules have there;
/// the line, and a caret under the word; and what explains the entry that is due, as a run is explained.
pub fn told_of_illegal(alloc: Global, name: &str, bytes: &[u8]) -> Result<String, Memory> {
    let (number, expected) = illegal_line(alloc, bytes)?;
    let Some(line) = line_at(bytes, number) else {
        return Ok(format!(in alloc; "{name}:{number}: the report ends too soon\n")?);
    };
    let rerun = Rerun::of(
        alloc,
        bytes,
        number,
        str::from_utf8(&expected).unwrap_or(""),
    )?;
    let mut text = String::new(alloc);
    push_difference(alloc, &mut text, (name, number, line), &rerun)?;
    rerun.push_why(&mut text)?;
    Ok(text)
}

/// The number of the first line with which the journal isn't legal, or that behind the last one, and what is expected there.
fn illegal_line(alloc: Global, bytes: &[u8]) -> Result<(u64, Vec<u8>), Memory> {
    let mut reader = JournalReader::new(alloc)?;
    let mut number: u64 = 0;
    for line in bytes.split(|byte| *byte == b'\n') {
        number = number.saturating_add(1);
        match reader.next(line) {
            Ok(()) => {}
            Err(JournalFault::Memory(memory)) => return Err(memory),
            Err(JournalFault::Grammar(_) | JournalFault::Illegal) => {
                return Ok((number, expected_of(alloc, &reader)?));
            }
        }
    }
    let behind = if bytes.ends_with(b"\n") {
        number
    } else {
        number.saturating_add(1)
    };
    Ok((behind, expected_of(alloc, &reader)?))
}

/// What the reader of a journal expected in place of what it refused.
fn expected_of(alloc: Global, reader: &JournalReader) -> Result<Vec<u8>, Memory> {
    let mut expected = Vec::new(alloc);
    reader.write_expected(&mut expected)?;
    Ok(expected)
}

/// Appends where the line differs from the one that is due, and the line with a caret there.
fn push_difference(
    alloc: Global,
    text: &mut String,
    at: (&str, u64, &[u8]),
    rerun: &Rerun,
) -> Result<(), AllocError> {
    let (name, number, line) = at;
    let words = tokens(alloc, line, true)?;
    let due = match rerun.due() {
        Some(due) => tokens(alloc, due.as_bytes(), true)?,
        None => Vec::new(alloc),
    };
    let index = first_difference(&words, &due);
    let start = start_of(line, &words, index, true);
    let column = start.saturating_add(1);
    let read = words
        .get(index)
        .map_or(Read::End, |word| Read::Word(word.text));
    write!(text, "{name}:{number}:{column}: read {read}; ")?;
    push_due(text, rerun, &due, index)?;
    text.push_str(&picture(alloc, line, start)?)
}

/// Appends what is due in place of the word of this index.
fn push_due(
    text: &mut String,
    rerun: &Rerun,
    due: &[Token<'_>],
    index: usize,
) -> Result<(), AllocError> {
    match (rerun.due(), due.get(index)) {
        (None, _) if rerun.is_entry() => text.push_str("its process takes no request here\n"),
        (None, _) => text.push_str("the report has another line here\n"),
        (Some(line), Some(word)) if word.is_bar() => {
            let rest = line.get(word.start..).unwrap_or("|");
            write!(text, "expected \"{rest}\"\n")
        }
        (Some(_), Some(word)) => write!(text, "expected \"{}\"\n", word.text),
        (Some(_), None) => text.push_str("expected the end of the line\n"),
    }
}

/// The index of the first word that the lines don't share.
fn first_difference(words: &[Token<'_>], due: &[Token<'_>]) -> usize {
    let pairs = words.iter().zip(due);
    pairs
        .take_while(|(word, due)| word.text == due.text)
        .count()
}

/// Header lines, each with what has to be put in front of a journal that lacks nothing else.
const HEADERS: [(&str, &str); 3] = [
    ("limits wide\n", "put \"limits wide\" before it\n"),
    ("policy queue\n", "put \"policy queue\" before it\n"),
    (
        "policy queue\nlimits wide\n",
        "put \"policy queue\" and \"limits wide\" before it\n",
    ),
];

/// What has to be put in front of a journal that is legal behind header lines; nothing, where these aren't all that it lacks.
pub fn told_of_headers(alloc: Global, bytes: &[u8]) -> Result<&'static str, Memory> {
    for (header, told) in HEADERS {
        if is_legal_behind(alloc, header, bytes)? {
            return Ok(told);
        }
    }
    Ok("")
}

/// Whether the journal is legal behind this header.
fn is_legal_behind(alloc: Global, header: &str, bytes: &[u8]) -> Result<bool, Memory> {
    let mut source = FromReader::new(header.as_bytes().chain(bytes));
    let mut sink = ToWriter::new(Vec::new(alloc));
    match check(alloc, &mut source, &mut sink) {
        Ok(outcome) => Ok(outcome == Outcome::Done),
        Err(RunFault::Memory(memory)) => Err(memory),
        Err(_) => Ok(false),
    }
}
