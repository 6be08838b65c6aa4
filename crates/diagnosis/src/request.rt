//! What is wrong with the words behind one that says what they are.
use crate::commands::{Argument, COMMANDS, Form, Processes, Shape, shape_of_command};
use crate::heading::Heading;
use crate::near::nearest;
use crate::reason::{Reason, Spelling};
use crate::tokens::Token;

/// What is wrong with a line: the index of the word, or that behind the last one where the line ends too soon, and what may stand there.
#[derive(Clone, Copy, Debug)]
pub struct Finding<'a> {
    /// The index of the word.
    pub index: usize,
    /// What may stand there.
    pub reason: Reason<'a>,
}

impl<'a> Finding<'a> {
    /// This may stand where the word of this index is.
    pub fn at(index: usize, reason: Reason<'a>) -> Finding<'a> {
        Finding { index, reason }
    }

    /// The same so many words further on.
    pub fn behind(self, words: usize) -> Finding<'a> {
        Finding {
            index: self.index.saturating_add(words),
            reason: self.reason,
        }
    }
}

/// What is wrong with these words, which are all of a request of a script, if anything is.
pub fn find_in_request<'a>(words: &[Token<'a>], heading: &Heading) -> Option<Finding<'a>> {
    let Some((name, arguments)) = words.split_first() else {
        return Some(Finding::at(0, Reason::Command(None)));
    };
    match shape_of_command(name.text) {
        Some(shape) => find_in_arguments(name.text, shape, arguments, heading).map(
            |found| found.behind(1),
        ),
        None => Some(Finding::at(0, Reason::Command(nearest(name.text, &COMMANDS)))),
    }
}

/// What is wrong with these words, which are all behind a word of this shape, if anything is.
pub fn find_in_arguments<'a>(
    name: &'a str,
    shape: Shape,
    words: &[Token<'a>],
    heading: &Heading,
) -> Option<Finding<'a>> {
    let count = words.len();
    if count > shape.arguments.len() {
        let reason = Reason::Nothing(name, shape.usage);
        return Some(Finding::at(shape.arguments.len(), reason));
    }
    if count < shape.required {
        let missing = shape.arguments.get(count)?;
        let reason = Reason::Missing(*missing, heading.processes, name, shape.usage);
        return Some(Finding::at(count, reason));
    }
    for (index, word) in words.iter().enumerate() {
        let argument = *shape.arguments.get(index)?;
        if !argument.form().has(word.text, heading.processes) {
            return Some(Finding::at(index, reason_of(argument, word.text, heading)));
        }
    }
    None
}

/// What may stand in place of the word, which is no such argument.
pub fn reason_of(argument: Argument, word: &str, heading: &Heading) -> Reason<'static> {
    match argument.form() {
        Form::Process => Reason::Process(heading.processes, heading.wants_wide(word)),
        Form::Words(words) => Reason::Other(argument, heading.processes, nearest(word, words)),
        Form::Natural(_) | Form::Integer | Form::Holder => {
            Reason::Number(argument, spelling_of(word))
        }
    }
}

/// Why the word is no number, where its spelling tells.
fn spelling_of(word: &str) -> Spelling {
    match word.as_bytes() {
        [b'0', b'x' | b'X', ..] => Spelling::Hexadecimal,
        b"-0" => Spelling::MinusZero,
        [b'+', ..] => Spelling::Plus,
        [b'0', rest @ ..] | [b'-', b'0', rest @ ..] if are_digits(rest) => Spelling::LeadingZero,
        _ => Spelling::Other,
    }
}

/// Whether there are bytes, and each is a digit.
fn are_digits(bytes: &[u8]) -> bool {
    !bytes.is_empty() && bytes.iter().all(|byte| byte.is_ascii_digit())
}
