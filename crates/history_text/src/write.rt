//! Requests and answers behind the text that there is, or the text as it was.
ghost use Rattle.std.specs.Prelude.{◌≡◌, ◌∷◌, ◌++◌, MatchResult, OnOk, OnErr, flat_map};
ghost use Rattle.script_core.specs.Output.{Extends};
ghost use Rattle.history_text.specs.HistoryText.{request_text, answer_text, action_words, told_words, span_words, owner_word};

use crate::pieces::{push_number, push_str};
use crate::word_tables::{answer_word, request_word, spaced_mode, spaced_operation};
use history_core::{Action, Answer, Request};
use range_core::{Memory, Span};

/// Appends the words of a request on this file, one space between each two; its ID isn't among them.
///
/// `Memory` leaves the text as it was.
pub fn write_request(text: &mut Vec<u8>, file: u64, request: Request) -> Result<(), Memory>
    ensures ok { OnOk result (text.new.items ≡ text.old.items ++ request_text file request) }
    ensures err { OnErr result (text.new.items ≡ text.old.items) }
{
    let len = text.len();
    if let Err(memory) = push_request(text, file, request) {
        text.truncate(len);
        return Err(memory);
    }
    Ok(())
}

/// Appends the words of an answer, one space between each two.
///
/// `Memory` leaves the text as it was.
pub fn write_answer(text: &mut Vec<u8>, answer: Answer) -> Result<(), Memory>
    ensures ok { OnOk result (text.new.items ≡ text.old.items ++ answer_text answer) }
    ensures err { OnErr result (text.new.items ≡ text.old.items) }
{
    let len = text.len();
    if let Err(memory) = push_answer(text, answer) {
        text.truncate(len);
        return Err(memory);
    }
    Ok(())
}

/// Appends the words of a request.
fn push_request(text: &mut Vec<u8>, file: u64, request: Request) -> Result<(), Memory>
    ensures { MatchResult result (λ unit. text.new.items ≡ text.old.items ++ request_text file request)
        (λ error. Extends text.old.items text.new.items) }
{
    push_str(text, request_word(request.action))?;
    push_number(text, file)?;
    push_number(text, request.owner)?;
    push_action(text, request.action)
}

/// Appends the words of a request behind its file and its owner, each behind a space.
fn push_action(text: &mut Vec<u8>, action: Action) -> Result<(), Memory>
    ensures { MatchResult result (λ unit. text.new.items ≡ text.old.items ++ flat_map (λ word. 32 ∷ word) (action_words action))
        (λ error. Extends text.old.items text.new.items) }
{
    match action {
        Action::Set(mode, span) | Action::Wait(mode, span) | Action::Get(mode, span) => {
            push_str(text, spaced_mode(mode))?;
            push_span(text, span)
        }
        Action::Unlock(span) => push_span(text, span),
        Action::Flock(mode) => {
            push_str(text, spaced_operation(mode))?;
            push_str(text, " nb")
        }
        Action::FlockWait(mode) => push_str(text, spaced_operation(mode)),
        Action::FlockUnlock => push_str(text, " un"),
        Action::Close | Action::Gone => Ok(()),
    }
}

/// Appends the words of an answer.
fn push_answer(text: &mut Vec<u8>, answer: Answer) -> Result<(), Memory>
    ensures { MatchResult result (λ unit. text.new.items ≡ text.old.items ++ answer_text answer) (λ error. Extends text.old.items text.new.items) }
{
    push_str(text, answer_word(answer))?;
    push_told(text, answer)
}

/// Appends the words of an answer behind its own, each behind a space: those of the lock that was in the way.
fn push_told(text: &mut Vec<u8>, answer: Answer) -> Result<(), Memory>
    ensures { MatchResult result (λ unit. text.new.items ≡ text.old.items ++ flat_map (λ word. 32 ∷ word) (told_words answer))
        (λ error. Extends text.old.items text.new.items) }
{
    let Answer::Held(owner, mode, span) = answer else {
        return Ok(());
    };
    push_owner(text, owner)?;
    push_str(text, spaced_mode(mode))?;
    push_span(text, span)
}

/// Appends a space, and an owner or `-`.
fn push_owner(text: &mut Vec<u8>, owner: Option<u64>) -> Result<(), Memory>
    ensures { MatchResult result (λ unit. text.new.items ≡ text.old.items ++ 32 ∷ owner_word owner) (λ error. Extends text.old.items text.new.items) }
{
    match owner {
        Some(owner) => push_number(text, owner),
        None => push_str(text, " -"),
    }
}

/// Appends the first byte and the last one, each behind a space.
fn push_span(text: &mut Vec<u8>, span: Span) -> Result<(), Memory>
    ensures { MatchResult result (λ unit. text.new.items ≡ text.old.items ++ flat_map (λ word. 32 ∷ word) (span_words span))
        (λ error. Extends text.old.items text.new.items) }
{
    push_number(text, span.first)?;
    push_number(text, span.last)
}
