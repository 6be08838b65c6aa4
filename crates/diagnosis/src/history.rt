//! What is wrong with a line of a history.
use crate::commands::{
    ANSWERS, Argument, Asked, Processes, REQUESTS, shape_of_answer, shape_of_request,
};
use crate::heading::Heading;
use crate::near::nearest;
use crate::reason::Reason;
use crate::request::{Finding, find_in_arguments, reason_of};
use crate::tokens::Token;
use script_core::natural_of;

/// The request that is open under an ID.
#[derive(Clone, Copy, Debug)]
pub struct Open {
    /// The line in which it was sent.
    pub line: u64,
    /// What decides which answers it has.
    pub asked: Asked,
}

impl Open {
    /// The request that is open under this ID in front of the line of this number.
    pub fn before(bytes: &[u8], number: u64, id: &str) -> Option<Open> {
        let mut open = None;
        let mut at: u64 = 1;
        for line in bytes.split(|byte| *byte == b'\n') {
            if at >= number {
                break;
            }
            open = opened(line, at, id, open);
            at = at.saturating_add(1);
        }
        open
    }
}

/// What is open under the ID behind a line of this number, in front of which this is.
fn opened(line: &[u8], number: u64, id: &str, before: Option<Open>) -> Option<Open> {
    let mut words = line
        .split(|byte| *byte == b' ')
        .filter(|word| !word.is_empty());
    let sign = words.next();
    if words.next() != Some(id.as_bytes()) {
        return before;
    }
    match (sign, words.next()) {
        (Some(b">"), Some(name)) => {
            let operation = words.nth(2);
            let asked = asked_by(name, operation, words.next().is_some());
            Some(Open {
                line: number,
                asked,
            })
        }
        (Some(b"<"), _) => None,
        _ => before,
    }
}

/// What decides which answers a request of this name has, of flock with this operation, and whether a word stands behind that.
fn asked_by(name: &[u8], operation: Option<&[u8]>, more: bool) -> Asked {
    match (name, operation) {
        (b"set", _) => Asked::AtOnce,
        (b"wait", _) => Asked::Waits,
        (b"get", _) => Asked::Get,
        (b"gone", _) => Asked::Gone,
        (b"flock", Some(b"un")) | (b"unlock" | b"close", _) => Asked::Removes,
        _ if more => Asked::AtOnce,
        _ => Asked::FlockWaits,
    }
}

/// What is wrong with the words of a line, if anything is, where the request that is open under its ID is given by `open`.
pub fn find_in_history<'a>(words: &[Token<'a>], open: Option<Open>) -> Option<Finding<'a>> {
    let [sign, rest @ ..] = words else {
        return None;
    };
    if sign.text != ">" && sign.text != "<" {
        return Some(Finding::at(0, Reason::Direction));
    }
    let [id, name, arguments @ ..] = rest else {
        return Some(too_short(sign.text, words.len(), open));
    };
    if natural_of(id.text).is_none() {
        let reason = reason_of(Argument::Id, id.text, &Heading::new());
        return Some(Finding::at(1, reason));
    }
    let found = match (sign.text, open) {
        (">", Some(open)) => return Some(Finding::at(1, Reason::FreeId(open.line))),
        (">", None) => find_in_sent(name, arguments),
        (_, None) => return Some(Finding::at(1, Reason::OpenId)),
        (_, Some(open)) => find_in_answer(open.asked, name, arguments),
    };
    found.map(|found| found.behind(2))
}

/// What is missing in a line of this sign that has so few words.
fn too_short<'a>(sign: &'a str, words: usize, open: Option<Open>) -> Finding<'a> {
    let usage = if sign == ">" {
        "ID REQUEST"
    } else {
        "ID ANSWER"
    };
    let reason = match (words, sign) {
        (1, _) => Reason::Missing(Argument::Id, Processes::Small, sign, usage),
        (_, ">") => Reason::Request(None),
        _ => Reason::Answer(open.map_or(&ANSWERS, |open| open.asked.answers())),
    };
    Finding::at(words, reason)
}

/// What is wrong with a request of this name and the words behind it, if anything is.
fn find_in_sent<'a>(name: &Token<'a>, words: &[Token<'a>]) -> Option<Finding<'a>> {
    let Some(shape) = shape_of_request(name.text) else {
        return Some(Finding::at(0, Reason::Request(nearest(name.text, &REQUESTS))));
    };
    find_in_arguments(name.text, shape, words, &Heading::new())
        .or(match words {
            [_, _, operation, _] if name.text == "flock" && operation.text == "un" => {
                Some(Finding::at(3, Reason::Nothing(name.text, "FILE OWNER un")))
            }
            _ => falling(words),
        })
        .map(|found| found.behind(1))
}

/// What is wrong with an answer that begins with this word, and has these behind it, of a request that has answers of its own.
fn find_in_answer<'a>(asked: Asked, name: &Token<'a>, words: &[Token<'a>]) -> Option<Finding<'a>> {
    if !asked.answers().contains(&name.text) {
        return Some(Finding::at(0, Reason::Answer(asked.answers())));
    }
    let shape = shape_of_answer(name.text);
    find_in_arguments(name.text, shape, words, &Heading::new())
        .or(falling(words))
        .map(|found| found.behind(1))
}

/// That the first byte is above the last one, where the last two of these words, of several, are these.
fn falling<'a>(words: &[Token<'a>]) -> Option<Finding<'a>> {
    let [_, _, .., first, last] = words else {
        return None;
    };
    match (natural_of(first.text), natural_of(last.text)) {
        (Some(first), Some(last)) if first > last => {
            Some(Finding::at(words.len() - 2, Reason::Rising))
        }
        _ => None,
    }
}
