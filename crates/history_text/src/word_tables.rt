//! The words of values as they are written. One that stands behind another has its space before it, so that it is pushed as one piece.
ghost use Rattle.std.specs.Prelude.{◌≡◌, ◌∷◌};
ghost use Rattle.script_core.specs.RequestText.{mode_word};
ghost use Rattle.history_text.specs.HistoryText.{operation_word};
ghost use Rattle.history_text.specs.HistoryText as spec;

use history_core::{Action, Answer};
use range_core::Mode;

/// The word of a request.
pub fn request_word(action: Action) -> &'static str
    ensures { result.now ≡ spec.request_word action }
{
    match action {
        Action::Set(..) => "set",
        Action::Wait(..) => "wait",
        Action::Get(..) => "get",
        Action::Unlock(_) => "unlock",
        Action::Flock(_) | Action::FlockWait(_) | Action::FlockUnlock => "flock",
        Action::Close => "close",
        Action::Gone => "gone",
    }
}

/// The word of an answer.
pub fn answer_word(answer: Answer) -> &'static str
    ensures { result.now ≡ spec.answer_word answer }
{
    match answer {
        Answer::Done => "ok",
        Answer::Busy => "busy",
        Answer::Interrupted => "EINTR",
        Answer::Deadlock => "EDEADLK",
        Answer::Free => "free",
        Answer::Held(..) => "held",
        Answer::Error => "error",
    }
}

/// A space, and the word of the mode of a byte lock.
pub fn spaced_mode(mode: Mode) -> &'static str
    ensures { result.now ≡ 32 ∷ mode_word mode }
{
    match mode {
        Mode::Read => " r",
        Mode::Write => " w",
    }
}

/// A space, and the word of the operation of flock that asks for a lock of this mode.
pub fn spaced_operation(mode: Mode) -> &'static str
    ensures { result.now ≡ 32 ∷ operation_word (Some mode) }
{
    match mode {
        Mode::Read => " sh",
        Mode::Write => " ex",
    }
}
