//! The words of a request.
ghost use Rattle.std.specs.Prelude.{◌≡◌, ◌∷◌, [], MatchResult, MatchBool, codes, decimal};
ghost use Rattle.script_core.specs.declared.script.Cause.TheVariants.{Number};
ghost use Rattle.script_core.specs.Words.{texts};
ghost use Rattle.script_core.specs.RequestText.{mode_word};
ghost use Rattle.script_core.specs.Arguments.{UnsignedNumber, ModeWord, OpWord, AreRefused, IsFirstBad};
ghost use Rattle.history_text.specs.declared.line.HistoryLine.TheVariants.{Sent};
ghost use Rattle.history_text.specs.HistoryText.{is_turned_action, operation_word, span_words};
ghost use Rattle.history_text.specs.HistoryReading.{SentGives, RequestIsGiven, ArgumentsGive, flock_request, unlock_request};

use crate::arguments::{read_mode, read_nb, read_number, read_operation, read_span};
use crate::line::HistoryLine;
use history_core::{Action, Request};
use range_core::{Mode, Span};
use script_core::Cause;

/// What a request for a byte lock says behind its word.
#[derive(Clone, Copy)]
struct LockWords {
    file: u64,
    owner: u64,
    mode: Mode,
    span: Span,
}

/// What a request for a lock of the whole file says behind its word: no mode where it removes one.
#[derive(Clone, Copy)]
struct FlockWords {
    file: u64,
    owner: u64,
    mode: Option<Mode>,
}

/// The request of this ID that the words are.
pub fn read_request(id: u64, words: &[&str]) -> Result<HistoryLine, Cause>
    ensures { SentGives id (texts words.now) result }
{
    match words {
        [] => Err(Cause::Count),
        [name, arguments @ ..] => read_named(id, name, arguments),
    }
}

/// The request of this word, with the words behind it.
fn read_named(id: u64, name: &str, arguments: &[&str]) -> Result<HistoryLine, Cause>
    ensures { SentGives id (name.now ∷ texts arguments.now) result }
{
    match name {
        "set" => {
            let lock = read_lock(arguments)?;
            sent(id, lock.file, lock.owner, Action::Set(lock.mode, lock.span))
        }
        "wait" => {
            let lock = read_lock(arguments)?;
            sent(
                id,
                lock.file,
                lock.owner,
                Action::Wait(lock.mode, lock.span),
            )
        }
        "get" => {
            let lock = read_lock(arguments)?;
            sent(id, lock.file, lock.owner, Action::Get(lock.mode, lock.span))
        }
        "unlock" => read_unlock(id, arguments),
        "flock" => read_flock(id, arguments),
        "close" => {
            let (file, owner) = read_whole(arguments)?;
            sent(id, file, owner, Action::Close)
        }
        "gone" => {
            let (file, owner) = read_whole(arguments)?;
            sent(id, file, owner, Action::Gone)
        }
        _ => Err(Cause::Word),
    }
}

/// set, wait and get: FILE OWNER MODE FIRST LAST.
fn read_lock(arguments: &[&str]) -> Result<LockWords, Cause>
    ensures { MatchResult result (λ lock. texts arguments.now ≡ decimal lock.file ∷ decimal lock.owner ∷ mode_word lock.mode ∷ span_words lock.span)
        (AreRefused (UnsignedNumber ∷ UnsignedNumber ∷ ModeWord ∷ UnsignedNumber ∷ UnsignedNumber ∷ []) (texts arguments.now)) }
{
    match arguments {
        [file, owner, mode, first, last] => read_lock_words(file, owner, mode, first, last),
        _ => Err(Cause::Count),
    }
}

/// What these words say.
#[tactic(auto, using(crate::proofs::ArgumentLemmas::number_then, crate::proofs::ArgumentLemmas::mode_then))]
fn read_lock_words(
    file: &str,
    owner: &str,
    mode: &str,
    first: &str,
    last: &str,
) -> Result<LockWords, Cause>
    ensures { let words = file.now ∷ owner.now ∷ mode.now ∷ first.now ∷ last.now ∷ [] in
        MatchResult result (λ lock. words ≡ decimal lock.file ∷ decimal lock.owner ∷ mode_word lock.mode ∷ span_words lock.span)
        (IsFirstBad (UnsignedNumber ∷ UnsignedNumber ∷ ModeWord ∷ UnsignedNumber ∷ UnsignedNumber ∷ []) words) }
{
    Ok(LockWords {
        file: read_number(file)?,
        owner: read_number(owner)?,
        mode: read_mode(mode)?,
        span: read_span(first, last)?,
    })
}

/// unlock: FILE OWNER FIRST LAST.
fn read_unlock(id: u64, arguments: &[&str]) -> Result<HistoryLine, Cause>
    ensures { RequestIsGiven id unlock_request (codes "unlock") (texts arguments.now) result }
{
    match arguments {
        [file, owner, first, last] => read_unlock_words(id, file, owner, first, last),
        _ => Err(Cause::Count),
    }
}

/// What these words say.
#[tactic(auto, using(crate::proofs::ArgumentLemmas::number_then, crate::proofs::RequestLemmas::request_given))]
fn read_unlock_words(
    id: u64,
    file: &str,
    owner: &str,
    first: &str,
    last: &str,
) -> Result<HistoryLine, Cause>
    ensures { let words = file.now ∷ owner.now ∷ first.now ∷ last.now ∷ [] in
        ArgumentsGive id (codes "unlock" ∷ words) unlock_request words result }
{
    let file = read_number(file)?;
    let owner = read_number(owner)?;
    let span = read_span(first, last)?;
    sent(id, file, owner, Action::Unlock(span))
}

/// flock: FILE OWNER, an operation, and then `nb` or nothing.
fn read_flock(id: u64, arguments: &[&str]) -> Result<HistoryLine, Cause>
    ensures { RequestIsGiven id flock_request (codes "flock") (texts arguments.now) result }
{
    match arguments {
        [file, owner, operation] => read_flock_waiting(id, file, owner, operation),
        [file, owner, operation, nb] => read_flock_at_once(id, file, owner, operation, nb),
        _ => Err(Cause::Count),
    }
}

/// What the words of flock say without `nb`.
fn read_flock_waiting(
    id: u64,
    file: &str,
    owner: &str,
    operation: &str,
) -> Result<HistoryLine, Cause>
    ensures { let words = file.now ∷ owner.now ∷ operation.now ∷ [] in ArgumentsGive id (codes "flock" ∷ words) flock_request words result }
{
    let flock = read_flock_words(file, owner, operation)?;
    let action = match flock.mode {
        Some(mode) => Action::FlockWait(mode),
        None => Action::FlockUnlock,
    };
    sent(id, flock.file, flock.owner, action)
}

/// What the words of flock say where `nb` should be the last one.
fn read_flock_at_once(
    id: u64,
    file: &str,
    owner: &str,
    operation: &str,
    nb: &str,
) -> Result<HistoryLine, Cause>
    ensures { let words = file.now ∷ owner.now ∷ operation.now ∷ nb.now ∷ [] in ArgumentsGive id (codes "flock" ∷ words) flock_request words result }
{
    let flock = read_flock_words(file, owner, operation)?;
    read_nb(nb)?;
    match flock.mode {
        Some(mode) => sent(id, flock.file, flock.owner, Action::Flock(mode)),
        None => Err(Cause::Word),
    }
}

/// What flock has in any case: a file, an owner and an operation.
fn read_flock_words(file: &str, owner: &str, operation: &str) -> Result<FlockWords, Cause>
    ensures { let words = file.now ∷ owner.now ∷ operation.now ∷ [] in
        MatchResult result (λ flock. words ≡ decimal flock.file ∷ decimal flock.owner ∷ operation_word flock.mode ∷ [])
        (IsFirstBad (UnsignedNumber ∷ UnsignedNumber ∷ OpWord ∷ []) words) }
{
    Ok(FlockWords {
        file: read_number(file)?,
        owner: read_number(owner)?,
        mode: read_operation(operation)?,
    })
}

/// close and gone: FILE OWNER.
fn read_whole(arguments: &[&str]) -> Result<(u64, u64), Cause>
    ensures { MatchResult result (λ whole. texts arguments.now ≡ decimal whole.0 ∷ decimal whole.1 ∷ [])
        (AreRefused (UnsignedNumber ∷ UnsignedNumber ∷ []) (texts arguments.now)) }
{
    match arguments {
        [file, owner] => Ok((read_number(file)?, read_number(owner)?)),
        _ => Err(Cause::Count),
    }
}

/// The line of the request, unless the first of its bytes is above the last one.
fn sent(id: u64, file: u64, owner: u64, action: Action) -> Result<HistoryLine, Cause>
    ensures { MatchBool (is_turned_action action) (result ≡ Err Number)
        (result ≡ Ok (Sent file (record { id = id; owner = owner; action = action }))) }
{
    if is_turned(action) {
        return Err(Cause::Number);
    }
    Ok(HistoryLine::Sent {
        file,
        request: Request { id, owner, action },
    })
}

/// Whether the request is for bytes of which the first is above the last one.
fn is_turned(action: Action) -> bool
    ensures { result ≡ is_turned_action action }
{
    match action {
        Action::Set(_, span)
        | Action::Wait(_, span)
        | Action::Get(_, span)
        | Action::Unlock(span) => { span.last < span.first }
        Action::Flock(_)
        | Action::FlockWait(_)
        | Action::FlockUnlock
        | Action::Close
        | Action::Gone => false,
    }
}
