//! What is wrong with a line of a script.
use crate::commands::{shape_of_command, shape_of_header};
use crate::heading::Heading;
use crate::near::nearest;
use crate::reason::{Header, Reason};
use crate::request::{Finding, find_in_arguments, find_in_request};
use crate::tokens::Token;

/// The words that header lines begin with.
const HEADERS: [&str; 2] = ["policy", "limits"];

/// What is wrong with the words of a line, if anything is.
pub fn find_in_script<'a>(words: &[Token<'a>], heading: &Heading) -> Option<Finding<'a>> {
    let (first, rest) = words.split_first()?;
    if let Some(header) = heading.has(first.text) {
        return find_in_header(header, first.text, rest, heading).map(|found| found.behind(1));
    }
    if first.text == "#" {
        return Some(Finding::at(2, Reason::Expectation(heading.processes)));
    }
    if !heading.processes.have(first.text) {
        return Some(Finding::at(0, no_process(first.text, heading)));
    }
    find_in_request(rest, heading).map(|found| found.behind(1))
}

/// What is wrong with the words behind the first one of a header line, if anything is.
pub fn find_in_header<'a>(
    header: Header,
    name: &'a str,
    words: &[Token<'a>],
    heading: &Heading,
) -> Option<Finding<'a>> {
    find_in_arguments(name, shape_of_header(header), words, heading)
}

/// What may stand in place of the first word of a line, which is no process there.
fn no_process(word: &str, heading: &Heading) -> Reason<'static> {
    if let Some(reason) = heading.refuses(word) {
        return reason;
    }
    if shape_of_command(word).is_some() {
        return Reason::ProcessInFront(heading.processes);
    }
    match nearest(word, &HEADERS) {
        Some(near) if heading.is_open() => Reason::HeaderWord(near),
        _ => Reason::Process(heading.processes, heading.wants_wide(word)),
    }
}
