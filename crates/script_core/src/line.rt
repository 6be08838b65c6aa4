//! What a line of a script says.
ghost use Rattle.std.specs.Prelude.{ℕ, ◌≡◌, List};
ghost use Rattle.lock_manager.specs.declared.request.Request.{Request};
ghost use Rattle.script_core.specs.Words.{texts, words_of};
ghost use Rattle.script_core.specs.Reading.{is_empty, reading_after, RequestGives, ProcessGives, FirstGives, WordsGive, LineGives};
ghost use Rattle.script_core.specs.ScriptView.{reading_of, arrival_of, with_next};

use crate::arguments::read_process;
use crate::commands::read_command;
use crate::header::Header;
use crate::words::{WORDS_MAX, printable_text, said_words};
use crate::{Cause, LINE_MAX};
use fd_table::Limits;
use lock_manager::Request;

/// What a line of a script says.
#[derive(Clone, Copy)]
pub enum Line {
    /// Nothing: it has no words, or is a comment.
    Skipped,
    /// What the header lines say with it: a header line.
    Header(Header),
    /// A process and its request.
    Arrival(u8, Request),
}

/// What the line says behind these header lines, where `at_top` says that no arrival was read.
pub fn parse_line(header: Header, at_top: bool, line: &[u8]) -> Result<Line, Cause>
    ensures { (arrivals : List (ℕ × Request)) → at_top ≡ is_empty arrivals → LineGives (reading_of header arrivals) line.now result }
{
    if line.len() > LINE_MAX {
        return Err(Cause::TooLong);
    }
    let text = printable_text(line).ok_or(Cause::Byte)?;
    parse_text(header, at_top, text)
}

/// Takes down what a line says, and hands out its arrival, where it is one.
pub fn apply(header: &mut Header, at_top: &mut bool, said: Line) -> Option<(u8, Request)>
    ensures arrival { result ≡ arrival_of said }
    ensures read { (arrivals : List (ℕ × Request)) →
        reading_of header.new (with_next arrivals result) ≡ reading_after (reading_of header.old arrivals) said }
    ensures heads { (arrivals : List (ℕ × Request)) → at_top.old ≡ is_empty arrivals → at_top.new ≡ is_empty (with_next arrivals result) }
{
    match said {
        Line::Skipped => None,
        Line::Header(more) => {
            *header = more;
            None
        }
        Line::Arrival(p, request) => {
            *at_top = false;
            Some((p, request))
        }
    }
}

/// What the text of a line says. Of more words than [`WORDS_MAX`] the first ones say the same.
fn parse_text(header: Header, at_top: bool, text: &str) -> Result<Line, Cause>
    ensures { (arrivals : List (ℕ × Request)) → at_top ≡ is_empty arrivals → WordsGive (reading_of header arrivals) (words_of text.now) result }
{
    let mut room = [""; WORDS_MAX];
    match said_words(text, &mut room) {
        Some((first, rest)) => parse_first(header, at_top, first, rest),
        None => Ok(Line::Skipped),
    }
}

/// What a first word that is no comment says, with what follows it.
#[tactic(auto, using(crate::proofs::FirstWordsLemmas::header_gives))]
fn parse_first(header: Header, at_top: bool, first: &str, rest: &[&str]) -> Result<Line, Cause>
    ensures { FirstGives header at_top first.now (texts rest.now) result }
{
    match header.parse(at_top, first, rest)? {
        Some(header) => Ok(Line::Header(header)),
        None => read_arrival(header.limits(), first, rest),
    }
}

/// A process, and its request behind it.
fn read_arrival(limits: Limits, process: &str, words: &[&str]) -> Result<Line, Cause>
    ensures { ProcessGives limits process.now (texts words.now) result }
{
    let p = read_process(limits, process)?;
    let request = read_request(limits, words)?;
    Ok(Line::Arrival(p, request))
}

/// What stands behind the process: a command and its arguments.
pub fn read_request(limits: Limits, words: &[&str]) -> Result<Request, Cause>
    ensures { RequestGives limits (texts words.now) result }
{
    let [name, arguments @ ..] = words else {
        return Err(Cause::Count);
    };
    read_command(limits, name, arguments)
}
