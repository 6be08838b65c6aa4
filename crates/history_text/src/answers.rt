//! The words of an answer.
ghost use Rattle.std.specs.Prelude.{◌≡◌, true, ◌∷◌, [], MatchResult, MatchBool, codes};
ghost use Rattle.history_core.specs.declared.request.Action.{Action};
ghost use Rattle.script_core.specs.Words.{texts};
ghost use Rattle.script_core.specs.Arguments.{AreRefused};
ghost use Rattle.script_core.specs.declared.script.Cause.TheVariants.{Number};
ghost use Rattle.history_core.specs.declared.request.Answer.TheVariants.{Held};
ghost use Rattle.history_text.specs.declared.line.HistoryLine.TheVariants.{Answered};
ghost use Rattle.history_text.specs.HistoryText.{is_turned_span};
ghost use Rattle.history_text.specs.HistoryReading.{AnsweredGives, AnswerIsGiven, ToldGives};
ghost use Rattle.history_text.specs.HistoryReading as spec;

use crate::arguments::{read_mode, read_owner, read_span};
use crate::line::HistoryLine;
use history_core::{Action, Answer};
use range_core::{Mode, Span};
use script_core::Cause;

/// The answer that the words are, where the request of this ID asks for `action`.
pub fn read_answer(id: u64, action: Action, words: &[&str]) -> Result<HistoryLine, Cause>
    ensures { AnsweredGives id action (texts words.now) result }
{
    match words {
        [] => Err(Cause::Count),
        [name, told @ ..] if has_answer(action, name) => read_named(id, name, told),
        _ => Err(Cause::Word),
    }
}

/// The answer of this word, which is one that some request may have, with the words behind it.
fn read_named(id: u64, name: &str, told: &[&str]) -> Result<HistoryLine, Cause>
    ensures { (action : Action) → spec.has_answer action name.now ≡ true → AnswerIsGiven id name.now (texts told.now) result }
{
    match name {
        "ok" => read_alone(id, Answer::Done, told),
        "busy" => read_alone(id, Answer::Busy, told),
        "EINTR" => read_alone(id, Answer::Interrupted, told),
        "EDEADLK" => read_alone(id, Answer::Deadlock, told),
        "free" => read_alone(id, Answer::Free, told),
        "held" => read_held(id, told),
        "error" => read_alone(id, Answer::Error, told),
        // No request has an answer of another word.
        _ => Err(Cause::Word),
    }
}

/// Whether a request for `action` may have an answer of this word.
fn has_answer(action: Action, word: &str) -> bool
    ensures { result ≡ spec.has_answer action word.now }
{
    match action {
        Action::Set(..) | Action::Flock(_) => matches!(word, "ok" | "busy" | "error"),
        Action::Wait(..) => matches!(word, "ok" | "EINTR" | "EDEADLK" | "error"),
        Action::Get(..) => matches!(word, "free" | "held" | "error"),
        Action::FlockWait(_) => matches!(word, "ok" | "EINTR" | "error"),
        Action::Unlock(_) | Action::FlockUnlock | Action::Close => matches!(word, "ok" | "error"),
        Action::Gone => word == "ok",
    }
}

/// An answer with no word behind its own.
fn read_alone(id: u64, answer: Answer, told: &[&str]) -> Result<HistoryLine, Cause>
    ensures { MatchResult result (λ said. (said ≡ Answered id answer) × (texts told.now ≡ [])) (AreRefused [] (texts told.now)) }
{
    match told {
        [] => Ok(HistoryLine::Answered { id, answer }),
        _ => Err(Cause::Count),
    }
}

/// The lock that was in the way: OWNER MODE FIRST LAST, or `-` in the place of its owner.
fn read_held(id: u64, told: &[&str]) -> Result<HistoryLine, Cause>
    ensures { AnswerIsGiven id (codes "held") (texts told.now) result }
{
    match told {
        [owner, mode, first, last] => read_held_words(id, owner, mode, first, last),
        _ => Err(Cause::Count),
    }
}

/// What these words say.
fn read_held_words(
    id: u64,
    owner: &str,
    mode: &str,
    first: &str,
    last: &str,
) -> Result<HistoryLine, Cause>
    ensures { let words = owner.now ∷ mode.now ∷ first.now ∷ last.now ∷ [] in ToldGives id (codes "held" ∷ words) words result }
{
    let owner = read_owner(owner)?;
    let mode = read_mode(mode)?;
    let span = read_span(first, last)?;
    held(id, owner, mode, span)
}

/// The line of the lock that was in the way, unless the first of its bytes is above the last one.
fn held(id: u64, owner: Option<u64>, mode: Mode, span: Span) -> Result<HistoryLine, Cause>
    ensures { MatchBool (is_turned_span span) (result ≡ Err Number) (result ≡ Ok (Answered id (Held owner mode span))) }
{
    if span.last < span.first {
        return Err(Cause::Number);
    }
    Ok(HistoryLine::Answered {
        id,
        answer: Answer::Held(owner, mode, span),
    })
}
