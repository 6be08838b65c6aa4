//! The text of a request.
ghost use Rattle.std.specs.Prelude.{◌≡◌, ◌∷◌, ◌++◌, MatchResult, flat_map};
ghost use Rattle.std.specs.List.{join_with_byte};
ghost use Rattle.lock_manager.specs.declared.request.Request.TheVariants.{Flock};
ghost use Rattle.script_core.specs.RequestText.{request_text, lock_words, pid_words, nb_words, visit_words};
ghost use Rattle.script_core.specs.Output.{Extends};

use crate::pieces::{push_integer, push_number, push_numbered, push_str};
use crate::word_tables::{spaced_access, spaced_command, spaced_kind, spaced_op, spaced_whence};
use lock_manager::{FlockOp, Lock, Request, Visit};
use range_core::Memory;

/// Appends a space, and a request: its command and its arguments, with one space between words.
pub fn push_request(text: &mut Vec<u8>, request: &Request) -> Result<(), Memory>
    ensures { MatchResult result (λ unit. text.new.items ≡ text.old.items ++ 32 ∷ request_text request.now) (λ error. Extends text.old.items text.new.items) }
{
    match request {
        Request::OpenFile { file, access } => {
            push_numbered(text, " open", u64::from(*file))?;
            push_str(text, spaced_access(*access))
        }
        Request::Dup { fd } => push_numbered(text, " dup", u64::from(*fd)),
        Request::DupTo { fd, to } => {
            push_numbered(text, " dup2", u64::from(*fd))?;
            push_number(text, b' ', u64::from(*to))
        }
        Request::CloseFd { fd } => push_numbered(text, " close", u64::from(*fd)),
        Request::Seek { fd, offset } => {
            push_numbered(text, " seek", u64::from(*fd))?;
            push_integer(text, *offset)
        }
        Request::Resize { fd, size } => {
            push_numbered(text, " resize", u64::from(*fd))?;
            push_integer(text, *size)
        }
        Request::Lk { fd, cmd, lock } => {
            push_str(text, spaced_command(*cmd))?;
            push_lock(text, *fd, lock)
        }
        Request::Flock { fd, op, nb } => push_flock_request(text, *fd, *op, *nb),
        Request::Fork { child } => push_numbered(text, " fork", u64::from(*child)),
        Request::Exit => push_str(text, " exit"),
        Request::Signal { target } => push_numbered(text, " signal", u64::from(*target)),
        Request::Kill { target } => push_numbered(text, " kill", u64::from(*target)),
        Request::Enter { section, visit } => {
            push_numbered(text, " enter", u64::from(*section))?;
            push_visit(text, *visit)
        }
        Request::Leave { section } => push_numbered(text, " leave", u64::from(*section)),
        Request::Bail => push_str(text, " bail"),
    }
}

/// Appends the words of a lock command behind its name, each behind a space.
fn push_lock(text: &mut Vec<u8>, fd: u32, lock: &Lock) -> Result<(), Memory>
    ensures { MatchResult result (λ unit. text.new.items ≡ text.old.items
        ++ 32 ∷ join_with_byte 32 (lock_words fd lock.now ++ pid_words lock.now.pid)) (λ error. Extends text.old.items text.new.items) }
{
    push_number(text, b' ', u64::from(fd))?;
    push_str(text, spaced_kind(lock.kind))?;
    push_str(text, spaced_whence(lock.whence))?;
    push_integer(text, lock.start)?;
    push_integer(text, lock.len)?;
    push_pid(text, lock.pid)
}

/// The pid is written only where it isn't 0.
fn push_pid(text: &mut Vec<u8>, pid: i64) -> Result<(), Memory>
    ensures { MatchResult result (λ unit. text.new.items ≡ text.old.items
        ++ flat_map (λ word. 32 ∷ word) (pid_words pid)) (λ error. Extends text.old.items text.new.items) }
{
    if pid == 0 {
        return Ok(());
    }
    push_integer(text, pid)
}

/// Appends a space and a request of flock.
fn push_flock_request(text: &mut Vec<u8>, fd: u32, op: FlockOp, nb: bool) -> Result<(), Memory>
    ensures { MatchResult result (λ unit. text.new.items ≡ text.old.items
        ++ 32 ∷ request_text (Flock fd op nb)) (λ error. Extends text.old.items text.new.items) }
{
    push_numbered(text, " flock", u64::from(fd))?;
    push_str(text, spaced_op(op))?;
    push_nb(text, nb)
}

/// `sh` is written only where the visit is shared.
pub fn push_visit(text: &mut Vec<u8>, visit: Visit) -> Result<(), Memory>
    ensures { MatchResult result (λ unit. text.new.items ≡ text.old.items
        ++ flat_map (λ word. 32 ∷ word) (visit_words visit)) (λ error. Extends text.old.items text.new.items) }
{
    match visit {
        Visit::Sole => Ok(()),
        Visit::Shared => push_str(text, " sh"),
    }
}

/// `nb` is written only where it is set.
fn push_nb(text: &mut Vec<u8>, nb: bool) -> Result<(), Memory>
    ensures { MatchResult result (λ unit. text.new.items ≡ text.old.items
        ++ flat_map (λ word. 32 ∷ word) (nb_words nb)) (λ error. Extends text.old.items text.new.items) }
{
    if nb { push_str(text, " nb") } else { Ok(()) }
}
