//! The text of the report: locks, waits and processes.
ghost use Rattle.std.specs.Prelude.{◌≡◌, ◌∷◌, ◌++◌, MatchResult};
ghost use Rattle.script_core.specs.ReportText.{held_line, held_text, wait_line, wait_text, wanted_text, byte_lock_text, flock_text, owner_text, counts_text, process_line, process_text};
ghost use Rattle.script_core.specs.ReportText as spec;
ghost use Rattle.script_core.specs.Output.{Extends};

use crate::pieces::{push_number, push_numbered, push_str};
use crate::word_tables::spaced_mode;
use lock_book::{Held, Owner};
use lock_manager::ProcState;
use range_core::{Memory, Mode, Span};
use wait_core::{Family, Wait};

/// Appends the line of a lock that is held.
pub fn push_held(text: &mut Vec<u8>, held: &Held) -> Result<(), Memory>
    ensures { MatchResult result (λ unit. text.new.items ≡ text.old.items ++ held_line held.now) (λ error. Extends text.old.items text.new.items) }
{
    push_held_text(text, held)?;
    push_str(text, "\n")
}

/// Appends what is held, without the end of the line.
pub fn push_held_text(text: &mut Vec<u8>, held: &Held) -> Result<(), Memory>
    ensures { MatchResult result (λ unit. text.new.items ≡ text.old.items ++ held_text held.now) (λ error. Extends text.old.items text.new.items) }
{
    if held.whole {
        push_numbered(text, "flock", u64::from(held.file))?;
        push_flock(text, held.owner, held.mode)
    } else {
        push_str(text, "lock")?;
        push_byte_lock(text, held.file, held.owner, held.mode, held.span)
    }
}

/// Appends the line of a wait.
pub fn push_wait(text: &mut Vec<u8>, wait: &Wait) -> Result<(), Memory>
    ensures { MatchResult result (λ unit. text.new.items ≡ text.old.items ++ wait_line wait.now) (λ error. Extends text.old.items text.new.items) }
{
    push_wait_text(text, wait)?;
    push_str(text, "\n")
}

/// Appends a request that waits, and what it waits for, without the end of the line.
pub fn push_wait_text(text: &mut Vec<u8>, wait: &Wait) -> Result<(), Memory>
    ensures { MatchResult result (λ unit. text.new.items ≡ text.old.items ++ wait_text wait.now) (λ error. Extends text.old.items text.new.items) }
{
    push_numbered(text, "wait", u64::from(wait.p))?;
    push_number(text, b'#', wait.n)?;
    push_wanted(text, wait)
}

/// Appends a space and the lock that a wait is for.
fn push_wanted(text: &mut Vec<u8>, wait: &Wait) -> Result<(), Memory>
    ensures { MatchResult result (λ unit. text.new.items ≡ text.old.items
        ++ 32 ∷ wanted_text wait.now.family wait.now) (λ error. Extends text.old.items text.new.items) }
{
    let file = wait.file;
    match wait.family {
        Family::Bytes => push_byte_lock(text, file, wait.owner, wait.mode, wait.span),
        Family::Whole => {
            push_number(text, b' ', u64::from(file))?;
            push_str(text, " flock")?;
            push_flock(text, wait.owner, wait.mode)
        }
    }
}

/// Appends a space and a byte lock: file, owner, mode, first and last byte.
fn push_byte_lock(
    text: &mut Vec<u8>,
    file: u8,
    owner: Owner,
    mode: Mode,
    span: Span,
) -> Result<(), Memory>
    ensures { MatchResult result (λ unit. text.new.items ≡ text.old.items
        ++ 32 ∷ byte_lock_text file owner mode span) (λ error. Extends text.old.items text.new.items) }
{
    push_number(text, b' ', u64::from(file))?;
    push_owner(text, owner)?;
    push_str(text, spaced_mode(mode))?;
    push_number(text, b' ', span.first)?;
    push_number(text, b' ', span.last)
}

/// Appends a space and a flock lock: description and mode.
fn push_flock(text: &mut Vec<u8>, owner: Owner, mode: Mode) -> Result<(), Memory>
    ensures { MatchResult result (λ unit. text.new.items ≡ text.old.items ++ 32 ∷ flock_text owner mode) (λ error. Extends text.old.items text.new.items) }
{
    push_owner(text, owner)?;
    push_str(text, spaced_flock_mode(mode))
}

/// Appends a space and an owner: a process or an open file description, with its number.
fn push_owner(text: &mut Vec<u8>, owner: Owner) -> Result<(), Memory>
    ensures { MatchResult result (λ unit. text.new.items ≡ text.old.items ++ 32 ∷ owner_text owner) (λ error. Extends text.old.items text.new.items) }
{
    match owner {
        Owner::Process(p) => push_numbered(text, " process", u64::from(p)),
        Owner::Description(description) => push_numbered(text, " description", description),
    }
}

/// What the report tells of one process.
#[derive(Clone, Copy, Debug)]
pub struct ProcessLine {
    /// The process.
    pub p: u8,
    /// How many requests it sent.
    pub sent: u64,
    /// How many of them were taken.
    pub taken: u64,
    /// How many of them were answered.
    pub answered: u64,
    /// Where it stands.
    pub state: ProcState,
}

/// Appends the line of a process.
pub fn push_process(text: &mut Vec<u8>, line: &ProcessLine) -> Result<(), Memory>
    ensures { MatchResult result (λ unit. text.new.items ≡ text.old.items ++ process_line line.now) (λ error. Extends text.old.items text.new.items) }
{
    push_process_text(text, line)?;
    push_str(text, "\n")
}

/// Appends what there is to tell of a process, without the end of the line.
pub fn push_process_text(text: &mut Vec<u8>, line: &ProcessLine) -> Result<(), Memory>
    ensures { MatchResult result (λ unit. text.new.items ≡ text.old.items ++ process_text line.now) (λ error. Extends text.old.items text.new.items) }
{
    push_numbered(text, "proc", u64::from(line.p))?;
    push_counts(text, line)?;
    push_str(text, spaced_state(line.state))
}

/// Appends a space, and how many requests of the process were sent, taken and answered.
fn push_counts(text: &mut Vec<u8>, line: &ProcessLine) -> Result<(), Memory>
    ensures { MatchResult result (λ unit. text.new.items ≡ text.old.items ++ 32 ∷ counts_text line.now) (λ error. Extends text.old.items text.new.items) }
{
    push_numbered(text, " sent", line.sent)?;
    push_numbered(text, " taken", line.taken)?;
    push_numbered(text, " answered", line.answered)
}

/// A space, and the word of the mode of a flock lock.
fn spaced_flock_mode(mode: Mode) -> &'static str
    ensures { result.now ≡ 32 ∷ spec.flock_word mode }
{
    match mode {
        Mode::Read => " sh",
        Mode::Write => " ex",
    }
}

/// A space, and the word of where a process stands.
pub fn spaced_state(state: ProcState) -> &'static str
    ensures { result.now ≡ 32 ∷ spec.state_word state }
{
    match state {
        ProcState::Unborn => " unborn",
        ProcState::Live => " live",
        ProcState::Waiting => " waiting",
        ProcState::Ended => " ended",
    }
}
