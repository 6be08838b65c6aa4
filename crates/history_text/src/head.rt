//! How a line begins, and what it says where it is known what is open under its ID.
ghost use Rattle.std.specs.Prelude.{◌≡◌, MatchResult};
ghost use Rattle.script_core.specs.Words.{texts};
ghost use Rattle.history_text.specs.HistoryReading.{Begins, IsFaulty, BeginWords, AreFaulty, AreNamed, AreNotNamed};

use crate::answers::read_answer;
use crate::arguments::read_number;
use crate::line::HistoryLine;
use crate::requests::read_request;
use history_core::Action;
use script_core::{Cause, LINE_MAX, WORDS_MAX, first_words, is_comment, printable_text};

/// How a line of a history begins: what it is of and its ID, with the words behind it.
#[derive(Clone, Copy, Debug)]
pub enum Head<'w, 'a> {
    /// Nothing: the line has no words, or is a comment.
    Skipped,
    /// `> ID`: a request was sent.
    Sent {
        /// The ID of the request.
        id: u64,
        /// The words of the request.
        words: &'w [&'a str],
    },
    /// `< ID`: a request was answered.
    Answered {
        /// The ID of the request.
        id: u64,
        /// The words of the answer.
        words: &'w [&'a str],
    },
}

impl Head<'_, '_> {
    ghost use Rattle.history_text.specs.HistoryReading.{HeadGives, id_of};

    /// The ID of the line, unless it says nothing.
    pub fn id(self) -> Option<u64>
        ensures { result ≡ id_of self.entry }
    {
        match self {
            Head::Skipped => None,
            Head::Sent { id, .. } | Head::Answered { id, .. } => Some(id),
        }
    }

    /// What the line says, where the request that is open under its ID asks for `requested`, and `None` is told where none is open; or the
    /// first of its faults: [`Cause::Tag`] where an open ID is sent, or one that isn't open is answered; [`Cause::Word`] of the word of a
    /// request, or of an answer that this request doesn't have; [`Cause::Count`] of the number of words; that of the first bad word from
    /// the left, `nb` behind `un` being [`Cause::Word`]; [`Cause::Number`] where the first byte is above the last one.
    pub fn read(self, requested: Option<Action>) -> Result<HistoryLine, Cause>
        ensures { HeadGives self.entry requested result }
    {
        match (self, requested) {
            (Head::Skipped, _) => Ok(HistoryLine::Skipped),
            (Head::Sent { id, words }, None) => read_request(id, words),
            (Head::Answered { id, words }, Some(action)) => read_answer(id, action, words),
            (Head::Sent { .. }, Some(_)) | (Head::Answered { .. }, None) => Err(Cause::Tag),
        }
    }
}

/// How the line, which is without its line feed, begins; or the first of its faults that it has whatever is open:
/// [`Cause::TooLong`] of more than [`LINE_MAX`] bytes, [`Cause::Byte`] of one that isn't printable ASCII, [`Cause::Word`] of another first
/// word than `>` or `<`, [`Cause::Count`] of fewer than three words, [`Cause::Number`] of an ID that is no number of 64 bits.
///
/// The words of the line are put into `room`. The caller has it, so that no array of words is moved.
pub fn read_head<'w, 'a>(
    line: &'a [u8],
    room: &'w mut [&'a str; WORDS_MAX],
) -> Result<Head<'w, 'a>, Cause>
    ensures { MatchResult result (Begins line.now) (IsFaulty line.now) }
{
    if line.len() > LINE_MAX {
        return Err(Cause::TooLong);
    }
    let text = printable_text(line).ok_or(Cause::Byte)?;
    if is_comment(text) {
        return Ok(Head::Skipped);
    }
    head_of(first_words(text, room))
}

/// How a line of these words begins. Of more words than [`WORDS_MAX`] the first ones say the same.
fn head_of<'w, 'a>(words: &'w [&'a str]) -> Result<Head<'w, 'a>, Cause>
    ensures { MatchResult result (BeginWords (texts words.now)) (AreFaulty (texts words.now)) }
{
    let [first, rest @ ..] = words else {
        return Ok(Head::Skipped);
    };
    match *first {
        ">" => {
            let (id, words) = read_id(rest)?;
            Ok(Head::Sent { id, words })
        }
        "<" => {
            let (id, words) = read_id(rest)?;
            Ok(Head::Answered { id, words })
        }
        _ => Err(Cause::Word),
    }
}

/// The ID, and the words behind it, of which there is one at least.
fn read_id<'w, 'a>(words: &'w [&'a str]) -> Result<(u64, &'w [&'a str]), Cause>
    ensures { MatchResult result (λ named. AreNamed (texts words.now) named.0 (texts named.1.now)) (AreNotNamed (texts words.now)) }
{
    match words {
        [] | [_] => Err(Cause::Count),
        [id, rest @ ..] => Ok((read_number(id)?, rest)),
    }
}
