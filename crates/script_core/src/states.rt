//! The lines that tell the whole state of a run behind one of its entries, or behind each.
ghost use Rattle.std.specs.Prelude.{◌≡◌, ◌↔◌, ◌≤◌, ◌<◌, ◌+◌, ◌++◌, ℕ, IsTrue, List, [], Some, MatchBool, MatchOption, MatchResult, OnOk, OnErr, codes, flat_map, length, slice_get};
ghost use Rattle.fd_table.specs.Descriptors.{descriptor_limit};
ghost use Rattle.lock_manager.specs.State.{State};
ghost use Rattle.lock_manager.specs.ManagerView.{StandsFor, processes_of};
ghost use Rattle.script_core.specs.Output.{Extends};
ghost use Rattle.script_core.specs.StateText.{AreMissing, AreStateLines, AsksForStates, AsksForNoState, IsAmong, IsChangesText, IsKept, IsStateText, TellsState, marked_line, state_line_text, standing_text, access_text, opened_text, descriptor_text, visit_text, size_text};
ghost use Rattle.script_core.specs.declared.state_lines.StateLine.{StateLine};

use crate::numbers::natural_of;
use crate::pieces::{push_number, push_numbered, push_str};
use crate::report_text::{push_held, push_wait, spaced_state};
use crate::request_text::push_visit;
use crate::state_lines::{Opened, StateLine, whole_state};
use crate::word_tables::spaced_access;
use fd_table::Limits;
use lock_manager::{Manager, ProcState, Rules, Visit};
use range_core::Memory;

/// Behind which entries of a run the state is told (this project's choice).
#[derive(Clone, Copy, Debug, PartialEq, Eq)]
pub enum States {
    /// Behind none.
    Nowhere,
    /// Behind the entry of this number, counted from 1 over the whole run; a run may have none of it.
    Behind(u64),
    /// Behind each.
    Everywhere,
    /// Behind each, but only what it changed: the lines that went and those that came.
    Changes,
}

impl States {
    /// The states that a word asks for: `all`, `changes`, or the number of an entry, from 1 on, without leading zeros.
    pub fn of_word(word: &str) -> Option<States>
        ensures { MatchOption result (AsksForNoState word.now) (AsksForStates word.now) }
    {
        if word == "all" {
            return Some(States::Everywhere);
        }
        if word == "changes" {
            return Some(States::Changes);
        }
        match natural_of(word) {
            Some(0) | None => None,
            Some(place) => Some(States::Behind(place)),
        }
    }
}

/// Appends what is told of the state behind the entry of this number. What it changed is told against the lines in `before`, which are
/// then those of the state.
pub fn push_state_behind(
    number: u64,
    states: States,
    text: &mut Vec<u8>,
    before: &mut Vec<StateLine>,
    manager: &Manager,
    rules: Rules,
) -> Result<(), Memory>
    requires { 1 ≤ number }
    ensures ok { OnOk result ((S T : State) → StandsFor manager.now T → IsKept states rules (processes_of manager.now) number S before.old.items
        → (more : List ℕ) × TellsState states rules (processes_of manager.now) number S T more × (text.new.items ≡ text.old.items ++ more)
        × IsKept states rules (processes_of manager.now) (number + 1) T before.new.items) }
    ensures err { OnErr result (Extends text.old.items text.new.items) }
{
    match states {
        States::Nowhere => Ok(()),
        States::Behind(place) => push_state_if(number == place, text, manager, rules.limits),
        States::Everywhere => push_state(text, manager, rules.limits),
        States::Changes => push_changes(text, before, manager, rules.limits),
    }
}

/// Appends the lines that went and those that came since the state whose lines are in `before`, which are then those of the state.
fn push_changes(
    text: &mut Vec<u8>,
    before: &mut Vec<StateLine>,
    manager: &Manager,
    limits: Limits,
) -> Result<(), Memory>
    ensures ok { OnOk result (((S : State) → StandsFor manager.now S → AreStateLines (processes_of manager.now) (descriptor_limit limits) S before.new.items)
        × (more : List ℕ) × IsChangesText before.old.items before.new.items more × (text.new.items ≡ text.old.items ++ more)) }
    ensures err { OnErr result (Extends text.old.items text.new.items) }
{
    let after = whole_state(*text.allocator(), manager, limits)?;
    push_missing(text, "# - ", before, &after)?;
    push_missing(text, "# + ", &after, before)?;
    *before = after;
    Ok(())
}

/// Appends each of the lines that is missing among the others, behind the mark. Lines that both have stand in one order in both, so each
/// is looked for from behind the one before it on.
fn push_missing(
    text: &mut Vec<u8>,
    mark: &str,
    told: &[StateLine],
    others: &[StateLine],
) -> Result<(), Memory>
    ensures { MatchResult result
        (λ unit. (missing : List StateLine) × AreMissing told.now others.now missing
        × (text.new.items ≡ text.old.items ++ flat_map (marked_line mark.now) missing))
        (λ error. Extends text.old.items text.new.items) }
{
    let mut from = 0;
    for line in told {
        match place_from(others, from, line) {
            Some(place) => from = place + 1,
            None => push_marked(text, mark, line)?,
        }
    }
    Ok(())
}

/// A place of the line among these; where it stands from this place on, one there.
fn place_from(told: &[StateLine], from: usize, line: &StateLine) -> Option<usize>
    requires { from ≤ length told.now }
    ensures { MatchOption result (¬ IsAmong told.now line.now) (λ place. (slice_get told.now place ≡ Some line.now) × (place < length told.now)) }
{
    match place_of(&told[from..], line) {
        Some(place) => Some(from + place),
        None => place_of(told, line),
    }
}

/// The first place of the line among these.
fn place_of(told: &[StateLine], line: &StateLine) -> Option<usize>
    ensures { MatchOption result (¬ IsAmong told.now line.now) (λ place. (slice_get told.now place ≡ Some line.now) × (place < length told.now)) }
{
    for (place, other) in told.iter().enumerate() {
        if is_same(other, line) {
            return Some(place);
        }
    }
    None
}

/// Whether the two are the same line.
fn is_same(line: &StateLine, other: &StateLine) -> bool
    ensures { IsTrue result ↔ (line.now ≡ other.now) }
{
    line == other
}

/// Appends the lines of the whole state, where it is told.
fn push_state_if(
    told: bool,
    text: &mut Vec<u8>,
    manager: &Manager,
    limits: Limits,
) -> Result<(), Memory>
    ensures ok { OnOk result ((S : State) → StandsFor manager.now S → (more : List ℕ)
        × MatchBool told (IsStateText (processes_of manager.now) (descriptor_limit limits) S more) (more ≡ []) × (text.new.items ≡ text.old.items ++ more)) }
    ensures err { OnErr result (Extends text.old.items text.new.items) }
{
    if told {
        push_state(text, manager, limits)
    } else {
        Ok(())
    }
}

/// Appends the lines of the whole state, each behind `# `.
fn push_state(text: &mut Vec<u8>, manager: &Manager, limits: Limits) -> Result<(), Memory>
    ensures ok { OnOk result ((S : State) → StandsFor manager.now S → (more : List ℕ)
        × IsStateText (processes_of manager.now) (descriptor_limit limits) S more × (text.new.items ≡ text.old.items ++ more)) }
    ensures err { OnErr result (Extends text.old.items text.new.items) }
{
    let told = whole_state(*text.allocator(), manager, limits)?;
    push_lines(text, &told)
}

/// Appends these lines, each behind `# `.
fn push_lines(text: &mut Vec<u8>, told: &[StateLine]) -> Result<(), Memory>
    ensures { MatchResult result (λ unit. text.new.items ≡ text.old.items ++ flat_map (marked_line (codes "# ")) told.now) (λ error. Extends text.old.items text.new.items) }
{
    for line in told {
        push_marked(text, "# ", line)?;
    }
    Ok(())
}

/// Appends the line behind the mark.
fn push_marked(text: &mut Vec<u8>, mark: &str, line: &StateLine) -> Result<(), Memory>
    ensures { MatchResult result (λ unit. text.new.items ≡ text.old.items ++ marked_line mark.now line.now) (λ error. Extends text.old.items text.new.items) }
{
    push_str(text, mark)?;
    push_state_line(text, line)
}

/// Appends what the line tells.
fn push_state_line(text: &mut Vec<u8>, line: &StateLine) -> Result<(), Memory>
    ensures { MatchResult result (λ unit. text.new.items ≡ text.old.items ++ state_line_text line.now) (λ error. Extends text.old.items text.new.items) }
{
    match line {
        StateLine::Held(held) => push_held(text, held),
        StateLine::Waits(wait) => push_wait(text, wait),
        StateLine::Process(p, state) => push_where(text, *p, *state),
        StateLine::Descriptor(p, fd, opened) => push_descriptor(text, *p, *fd, *opened),
        StateLine::Section(section, p, visit) => push_section(text, *section, *p, *visit),
        StateLine::File(file, size) => push_file(text, *file, *size),
    }
}

/// Appends where a process stands.
fn push_where(text: &mut Vec<u8>, p: u8, state: ProcState) -> Result<(), Memory>
    ensures { MatchResult result (λ unit. text.new.items ≡ text.old.items ++ standing_text p state) (λ error. Extends text.old.items text.new.items) }
{
    push_numbered(text, "proc", u64::from(p))?;
    push_str(text, spaced_state(state))?;
    push_str(text, "\n")
}

/// Appends a descriptor, and what it refers to.
fn push_descriptor(text: &mut Vec<u8>, p: u8, fd: u32, opened: Opened) -> Result<(), Memory>
    ensures { MatchResult result (λ unit. text.new.items ≡ text.old.items ++ descriptor_text p fd opened) (λ error. Extends text.old.items text.new.items) }
{
    push_numbered(text, "fd", u64::from(p))?;
    push_number(text, b' ', u64::from(fd))?;
    push_opened(text, opened)?;
    push_str(text, "\n")
}

/// Appends what a descriptor refers to.
fn push_opened(text: &mut Vec<u8>, opened: Opened) -> Result<(), Memory>
    ensures { MatchResult result (λ unit. text.new.items ≡ text.old.items ++ opened_text opened) (λ error. Extends text.old.items text.new.items) }
{
    push_numbered(text, " description", opened.description)?;
    push_numbered(text, " file", u64::from(opened.file))?;
    push_access(text, opened)
}

/// Appends the access mode and the offset of what a descriptor refers to.
fn push_access(text: &mut Vec<u8>, opened: Opened) -> Result<(), Memory>
    ensures { MatchResult result (λ unit. text.new.items ≡ text.old.items ++ access_text opened) (λ error. Extends text.old.items text.new.items) }
{
    push_str(text, spaced_access(opened.access))?;
    push_numbered(text, " offset", opened.offset)
}

/// Appends a section, and a process that is in it by this visit.
fn push_section(text: &mut Vec<u8>, section: u8, p: u8, visit: Visit) -> Result<(), Memory>
    ensures { MatchResult result (λ unit. text.new.items ≡ text.old.items ++ visit_text section p visit) (λ error. Extends text.old.items text.new.items) }
{
    push_numbered(text, "section", u64::from(section))?;
    push_numbered(text, " process", u64::from(p))?;
    push_visit(text, visit)?;
    push_str(text, "\n")
}

/// Appends a file with its size.
fn push_file(text: &mut Vec<u8>, file: u8, size: u64) -> Result<(), Memory>
    ensures { MatchResult result (λ unit. text.new.items ≡ text.old.items ++ size_text file size) (λ error. Extends text.old.items text.new.items) }
{
    push_numbered(text, "file", u64::from(file))?;
    push_numbered(text, " size", size)?;
    push_str(text, "\n")
}
