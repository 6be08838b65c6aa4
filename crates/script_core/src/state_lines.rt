//! The lines that there are of a whole state.
ghost use Rattle.std.specs.Prelude.{◌≡◌, ◌++◌, map, IfOk, OnOk};
ghost use Rattle.fd_table.specs.declared.TheConstants.{FILES as file_count};
ghost use Rattle.fd_table.specs.Descriptors.{descriptor_limit};
ghost use Rattle.lock_manager.specs.declared.request.TheConstants.{SECTIONS as section_count};
ghost use Rattle.lock_manager.specs.State.{State};
ghost use Rattle.lock_manager.specs.ManagerView.{StandsFor, processes_of, state_at};
ghost use Rattle.script_core.specs.StateText.{AreStateLines, standing_line, standing_lines, descriptor_line, descriptor_lines, all_descriptor_lines, visit_line, visit_lines, section_lines, size_line, size_lines};
ghost use Rattle.script_core.specs.StateText as spec;
ghost use Rattle.script_core.specs.declared.state_lines.StateLine.TheVariants as state_lines;

use fd_table::{Access, FILES, Limits, Look};
use lock_book::Held;
use lock_manager::{Manager, ProcState, SECTIONS, Visit};
use range_core::Memory;
use std::alloc::Global;
use wait_core::Wait;

/// What a descriptor refers to, but for the size of its file, which has a line of its own.
#[derive(Clone, Copy, Debug, PartialEq, Eq)]
pub struct Opened {
    /// The number of the open file description.
    pub description: u64,
    /// Its file.
    pub file: u8,
    /// What it was opened for.
    pub access: Access,
    /// The file offset, in bytes.
    pub offset: u64,
}

/// A line of a state (this project's choice).
#[derive(Clone, Copy, Debug, PartialEq, Eq)]
pub enum StateLine {
    /// Of a lock that is held.
    Held(Held),
    /// Of a request that waits.
    Waits(Wait),
    /// Of a process that was ever born, and stands so.
    Process(u8, ProcState),
    /// Of a descriptor of a process, which is open and refers to this.
    Descriptor(u8, u32, Opened),
    /// Of a section, and a process that is in it by this visit.
    Section(u8, u8, Visit),
    /// Of a file that isn't empty, with its size in bytes.
    File(u8, u64),
}

/// The lines of the whole state.
pub fn whole_state(
    alloc: Global,
    manager: &Manager,
    limits: Limits,
) -> Result<Vec<StateLine>, Memory>
    ensures { IfOk result (λ told. (S : State) → StandsFor manager.now S → AreStateLines (processes_of manager.now) (descriptor_limit limits) S told.items) }
{
    let mut told = Vec::new(alloc);
    add_locks(&mut told, &manager.held()?)?;
    add_waits(&mut told, &manager.waits()?)?;
    add_processes(&mut told, manager)?;
    add_all_descriptors(&mut told, manager, limits)?;
    add_sections(&mut told, manager)?;
    add_files(&mut told, manager)?;
    Ok(told)
}

/// Adds a line for each lock that is held.
fn add_locks(told: &mut Vec<StateLine>, locks: &[Held]) -> Result<(), Memory>
    ensures { OnOk result (told.new.items ≡ told.old.items ++ map state_lines.Held locks.now) }
{
    for held in locks {
        told.push(StateLine::Held(*held))?;
    }
    Ok(())
}

/// Adds a line for each request that waits.
fn add_waits(told: &mut Vec<StateLine>, waits: &[Wait]) -> Result<(), Memory>
    ensures { OnOk result (told.new.items ≡ told.old.items ++ map state_lines.Waits waits.now) }
{
    for wait in waits {
        told.push(StateLine::Waits(*wait))?;
    }
    Ok(())
}

/// Adds a line for each process that was ever born.
fn add_processes(told: &mut Vec<StateLine>, manager: &Manager) -> Result<(), Memory>
    ensures { OnOk result (told.new.items ≡ told.old.items ++ standing_lines (state_at manager.now) (processes_of manager.now)) }
{
    for index in 0..manager.processes() {
        let p = index + 1;
        add_process(told, p, manager.state_of(p))?;
    }
    Ok(())
}

/// Adds the line of a process that stands so, where it was ever born.
fn add_process(told: &mut Vec<StateLine>, p: u8, state: ProcState) -> Result<(), Memory>
    ensures { OnOk result (told.new.items ≡ told.old.items ++ standing_line p state) }
{
    match state {
        ProcState::Unborn => Ok(()),
        ProcState::Live | ProcState::Waiting | ProcState::Ended => {
            Ok(told.push(StateLine::Process(p, state))?)
        }
    }
}

/// Adds a line for each descriptor that is open.
fn add_all_descriptors(
    told: &mut Vec<StateLine>,
    manager: &Manager,
    limits: Limits,
) -> Result<(), Memory>
    ensures { OnOk result ((S : State) → StandsFor manager.now S
        → told.new.items ≡ told.old.items ++ all_descriptor_lines S.descriptors (descriptor_limit limits) (processes_of manager.now)) }
{
    for index in 0..manager.processes() {
        add_descriptors(told, manager, index + 1, limits.descriptors())?;
    }
    Ok(())
}

/// Adds a line for each descriptor of the process that is open, of the first so many.
fn add_descriptors(
    told: &mut Vec<StateLine>,
    manager: &Manager,
    p: u8,
    count: u32,
) -> Result<(), Memory>
    ensures { OnOk result ((S : State) → StandsFor manager.now S → told.new.items ≡ told.old.items ++ descriptor_lines S.descriptors p count) }
{
    for fd in 0..count {
        add_descriptor(told, p, fd, manager.look(p, fd))?;
    }
    Ok(())
}

/// Adds the line of a descriptor, where it is open.
fn add_descriptor(
    told: &mut Vec<StateLine>,
    p: u8,
    fd: u32,
    look: Option<Look>,
) -> Result<(), Memory>
    ensures { OnOk result (told.new.items ≡ told.old.items ++ descriptor_line p fd look) }
{
    match look {
        Some(look) => Ok(told.push(StateLine::Descriptor(p, fd, opened_of(look)))?),
        None => Ok(()),
    }
}

/// What there is to tell of a descriptor that refers to this.
fn opened_of(look: Look) -> Opened
    ensures { result ≡ spec.opened_of look }
{
    Opened {
        description: look.desc,
        file: look.file,
        access: look.access,
        offset: look.offset,
    }
}

/// Adds a line for each process that is in a section, by section.
fn add_sections(told: &mut Vec<StateLine>, manager: &Manager) -> Result<(), Memory>
    ensures { OnOk result ((S : State) → StandsFor manager.now S
        → told.new.items ≡ told.old.items ++ section_lines S.visits (processes_of manager.now) section_count) }
{
    for section in 0..SECTIONS {
        add_visits(told, manager, section)?;
    }
    Ok(())
}

/// Adds a line for each process that is in the section.
fn add_visits(told: &mut Vec<StateLine>, manager: &Manager, section: u8) -> Result<(), Memory>
    ensures { OnOk result ((S : State) → StandsFor manager.now S
        → told.new.items ≡ told.old.items ++ visit_lines S.visits section (processes_of manager.now)) }
{
    for index in 0..manager.processes() {
        let p = index + 1;
        add_visit(told, section, p, manager.visit(p, section))?;
    }
    Ok(())
}

/// Adds the line of a process, where it is in the section.
fn add_visit(
    told: &mut Vec<StateLine>,
    section: u8,
    p: u8,
    visit: Option<Visit>,
) -> Result<(), Memory>
    ensures { OnOk result (told.new.items ≡ told.old.items ++ visit_line section p visit) }
{
    match visit {
        Some(visit) => Ok(told.push(StateLine::Section(section, p, visit))?),
        None => Ok(()),
    }
}

/// Adds a line for each file that isn't empty.
fn add_files(told: &mut Vec<StateLine>, manager: &Manager) -> Result<(), Memory>
    ensures { OnOk result ((S : State) → StandsFor manager.now S → told.new.items ≡ told.old.items ++ size_lines S.descriptors.sizes file_count) }
{
    for file in 0..FILES {
        add_file(told, file, manager.size_of(file))?;
    }
    Ok(())
}

/// Adds the line of a file of this size, where it isn't empty.
fn add_file(told: &mut Vec<StateLine>, file: u8, size: u64) -> Result<(), Memory>
    ensures { OnOk result (told.new.items ≡ told.old.items ++ size_line file size) }
{
    if size == 0 {
        return Ok(());
    }
    Ok(told.push(StateLine::File(file, size))?)
}
