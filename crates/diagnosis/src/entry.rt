//! What is wrong with a line of a journal.
use crate::commands::{NOTES, shape_of_note};
use crate::heading::Heading;
use crate::near::nearest;
use crate::reason::Reason;
use crate::request::{Finding, find_in_arguments, find_in_request};
use crate::script::find_in_header;
use crate::tokens::Token;
use script_core::natural_of;

/// What is wrong with the words of a line, bars among them, if anything is.
pub fn find_in_journal<'a>(words: &[Token<'a>], heading: &Heading) -> Option<Finding<'a>> {
    let (first, rest) = words.split_first()?;
    if let Some(header) = heading.has(first.text) {
        return find_in_header(header, first.text, rest, heading).map(|found| found.behind(1));
    }
    if let Some(line) = heading.report {
        return Some(Finding::at(0, Reason::Report(line)));
    }
    find_in_entry(words, heading)
}

/// What is wrong with the words of an entry, if anything is: of its pieces from the left, the first that is faulty.
fn find_in_entry<'a>(words: &[Token<'a>], heading: &Heading) -> Option<Finding<'a>> {
    let mut before = 0;
    for (index, piece) in words.split(Token::is_bar).enumerate() {
        let found = if index == 0 {
            find_in_taken(piece, heading)
        } else {
            find_in_note(piece, heading)
        };
        if let Some(found) = found {
            return Some(found.behind(before));
        }
        before = before.saturating_add(piece.len()).saturating_add(1);
    }
    None
}

/// What is wrong with the words of a request and the tag in front of it, if anything is.
fn find_in_taken<'a>(words: &[Token<'a>], heading: &Heading) -> Option<Finding<'a>> {
    match behind_tag(words, heading) {
        Ok(request) => find_in_request(request, heading).map(|found| found.behind(1)),
        Err(found) => Some(found),
    }
}

/// What is wrong with the words of a note and the tag in front of it, if anything is.
fn find_in_note<'a>(words: &[Token<'a>], heading: &Heading) -> Option<Finding<'a>> {
    match behind_tag(words, heading) {
        Ok(note) => find_in_told(note, heading).map(|found| found.behind(1)),
        Err(found) => Some(found),
    }
}

/// What is wrong with the words of a note behind its tag, if anything is.
fn find_in_told<'a>(words: &[Token<'a>], heading: &Heading) -> Option<Finding<'a>> {
    let Some((name, rest)) = words.split_first() else {
        return Some(Finding::at(0, Reason::Note(None)));
    };
    match shape_of_note(name.text) {
        Some(shape) => find_in_arguments(name.text, shape, rest, heading).map(|found| found.behind(
            1,
        )),
        None => Some(Finding::at(0, Reason::Note(nearest(name.text, &NOTES)))),
    }
}

/// The words behind the tag that stands in front, or what is wrong with it.
fn behind_tag<'w, 'a>(
    words: &'w [Token<'a>],
    heading: &Heading,
) -> Result<&'w [Token<'a>], Finding<'a>> {
    let Some((tag, behind)) = words.split_first() else {
        return Err(Finding::at(0, Reason::Tag(false)));
    };
    if let Some(reason) = heading.refuses(tag.text) {
        return Err(Finding::at(0, reason));
    }
    match tag.text.split_once('#') {
        Some((process, number)) if natural_of(number).is_some() => {
            if heading.processes.have(process) {
                return Ok(behind);
            }
            Err(Finding::at(0, Reason::Tag(heading.wants_wide(process))))
        }
        _ => Err(Finding::at(0, Reason::Tag(false))),
    }
}
