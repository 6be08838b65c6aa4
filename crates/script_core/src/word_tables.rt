//! The words of values and the values of words, table by table in both directions. A word that is written has its space before it,
//! so that it is pushed as one piece.
ghost use Rattle.std.specs.Prelude.{◌≡◌, ◌∷◌, MatchResult, None, MatchOption};
ghost use Rattle.fd_table.specs.declared.Limits.{Limits};
ghost use Rattle.script_core.specs.RequestText.{access_word as access_word_of, mode_word as mode_word_of, kind_word as kind_word_of, whence_word as whence_word_of, op_word as op_word_of, command_word as command_word_of, lock_command_word};
ghost use Rattle.script_core.specs.EntryText.{error_name as error_name_of};
ghost use Rattle.script_core.specs.Arguments.{AccessWord, IsBad, ModeWord, KindWord, WhenceWord, OpWord, ErrorWord, command_named};

use crate::Cause;
use crate::commands::CommandName;
use fd_table::Access;
use lock_manager::{Errno, FlockOp, LkCmd};
use range_core::{Kind, Mode, Whence};

/// A space, and the word of a lock command.
pub fn spaced_command(cmd: LkCmd) -> &'static str
    ensures { result.now ≡ 32 ∷ lock_command_word cmd }
{
    match cmd {
        LkCmd::GetLk => " getlk",
        LkCmd::SetLk => " setlk",
        LkCmd::SetLkW => " setlkw",
        LkCmd::OGetLk => " ogetlk",
        LkCmd::OSetLk => " osetlk",
        LkCmd::OSetLkW => " osetlkw",
    }
}

/// The command of this name.
pub fn command_name(word: &str) -> Option<CommandName>
    ensures { MatchOption result ((limits : Limits) → command_named limits word.now ≡ None) (λ command. word.now ≡ command_word_of command) }
{
    // Most requests are for locks, and the words are compared in turn.
    match word {
        "getlk" => Some(CommandName::Lock(LkCmd::GetLk)),
        "setlk" => Some(CommandName::Lock(LkCmd::SetLk)),
        "setlkw" => Some(CommandName::Lock(LkCmd::SetLkW)),
        "ogetlk" => Some(CommandName::Lock(LkCmd::OGetLk)),
        "osetlk" => Some(CommandName::Lock(LkCmd::OSetLk)),
        "osetlkw" => Some(CommandName::Lock(LkCmd::OSetLkW)),
        "flock" => Some(CommandName::Flock),
        "open" => Some(CommandName::Open),
        "dup" => Some(CommandName::Dup),
        "dup2" => Some(CommandName::DupTo),
        "close" => Some(CommandName::Close),
        "seek" => Some(CommandName::Seek),
        "resize" => Some(CommandName::Resize),
        "fork" => Some(CommandName::Fork),
        "signal" => Some(CommandName::Signal),
        "kill" => Some(CommandName::Kill),
        "exit" => Some(CommandName::Exit),
        "enter" => Some(CommandName::Enter),
        "leave" => Some(CommandName::Leave),
        "bail" => Some(CommandName::Bail),
        _ => None,
    }
}

/// A space, and the word of an access mode.
pub fn spaced_access(access: Access) -> &'static str
    ensures { result.now ≡ 32 ∷ access_word_of access }
{
    match access {
        Access::R => " r",
        Access::W => " w",
        Access::Rw => " rw",
    }
}

/// An access mode.
pub fn read_access(word: &str) -> Result<Access, Cause>
    ensures { MatchResult result (λ access. word.now ≡ access_word_of access) (IsBad AccessWord word.now) }
{
    match word {
        "r" => Ok(Access::R),
        "w" => Ok(Access::W),
        "rw" => Ok(Access::Rw),
        _ => Err(Cause::Word),
    }
}

/// A space, and the word of the mode of a byte lock.
pub fn spaced_mode(mode: Mode) -> &'static str
    ensures { result.now ≡ 32 ∷ mode_word_of mode }
{
    match mode {
        Mode::Read => " r",
        Mode::Write => " w",
    }
}

/// The mode of a byte lock.
pub fn read_mode(word: &str) -> Result<Mode, Cause>
    ensures { MatchResult result (λ mode. word.now ≡ mode_word_of mode) (IsBad ModeWord word.now) }
{
    match word {
        "r" => Ok(Mode::Read),
        "w" => Ok(Mode::Write),
        _ => Err(Cause::Word),
    }
}

/// A space, and the word of what a lock description asks for.
pub fn spaced_kind(kind: Kind) -> &'static str
    ensures { result.now ≡ 32 ∷ kind_word_of kind }
{
    match kind {
        Kind::Read => " r",
        Kind::Write => " w",
        Kind::Unlock => " u",
    }
}

/// What a lock description asks for.
pub fn read_kind(word: &str) -> Result<Kind, Cause>
    ensures { MatchResult result (λ kind. word.now ≡ kind_word_of kind) (IsBad KindWord word.now) }
{
    match word {
        "r" => Ok(Kind::Read),
        "w" => Ok(Kind::Write),
        "u" => Ok(Kind::Unlock),
        _ => Err(Cause::Word),
    }
}

/// A space, and the word of what the start of a range is counted from.
pub fn spaced_whence(whence: Whence) -> &'static str
    ensures { result.now ≡ 32 ∷ whence_word_of whence }
{
    match whence {
        Whence::Set => " set",
        Whence::Cur => " cur",
        Whence::End => " end",
    }
}

/// What the start of a range is counted from.
pub fn read_whence(word: &str) -> Result<Whence, Cause>
    ensures { MatchResult result (λ whence. word.now ≡ whence_word_of whence) (IsBad WhenceWord word.now) }
{
    match word {
        "set" => Ok(Whence::Set),
        "cur" => Ok(Whence::Cur),
        "end" => Ok(Whence::End),
        _ => Err(Cause::Word),
    }
}

/// A space, and the word of an operation of flock.
pub fn spaced_op(op: FlockOp) -> &'static str
    ensures { result.now ≡ 32 ∷ op_word_of op }
{
    match op {
        FlockOp::Sh => " sh",
        FlockOp::Ex => " ex",
        FlockOp::Un => " un",
    }
}

/// An operation of flock.
pub fn read_op(word: &str) -> Result<FlockOp, Cause>
    ensures { MatchResult result (λ op. word.now ≡ op_word_of op) (IsBad OpWord word.now) }
{
    match word {
        "sh" => Ok(FlockOp::Sh),
        "ex" => Ok(FlockOp::Ex),
        "un" => Ok(FlockOp::Un),
        _ => Err(Cause::Word),
    }
}

/// A space, and the error's name in `<errno.h>`.
pub fn spaced_error(error: Errno) -> &'static str
    ensures { result.now ≡ 32 ∷ error_name_of error }
{
    match error {
        Errno::EBADF => " EBADF",
        Errno::EINVAL => " EINVAL",
        Errno::EOVERFLOW => " EOVERFLOW",
        Errno::EAGAIN => " EAGAIN",
        Errno::EDEADLK => " EDEADLK",
        Errno::EINTR => " EINTR",
        Errno::EMFILE => " EMFILE",
        Errno::ESRCH => " ESRCH",
    }
}

/// The error of this name in `<errno.h>`.
pub fn read_error(word: &str) -> Result<Errno, Cause>
    ensures { MatchResult result (λ error. word.now ≡ error_name_of error) (IsBad ErrorWord word.now) }
{
    match word {
        "EBADF" => Ok(Errno::EBADF),
        "EINVAL" => Ok(Errno::EINVAL),
        "EOVERFLOW" => Ok(Errno::EOVERFLOW),
        "EAGAIN" => Ok(Errno::EAGAIN),
        "EDEADLK" => Ok(Errno::EDEADLK),
        "EINTR" => Ok(Errno::EINTR),
        "EMFILE" => Ok(Errno::EMFILE),
        "ESRCH" => Ok(Errno::ESRCH),
        _ => Err(Cause::Word),
    }
}
