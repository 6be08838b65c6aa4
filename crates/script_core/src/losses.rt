//! The locks that go with an event: those that a close or an end releases, and the flock lock that a conversion loses.
ghost use Rattle.std.specs.Prelude.{◌≡◌, [], if◌then◌else◌, IfOk, IsFalse, map};
ghost use Rattle.fd_table.specs.Descriptors.{descriptor_limit};
ghost use Rattle.lock_manager.specs.State.{State};
ghost use Rattle.lock_manager.specs.ManagerView.{StandsFor, processes_of};
ghost use Rattle.script_core.specs.Losses.{AreReleased, AreReleasedBy, AreByteLocksOf, AreLocksOf};
ghost use Rattle.script_core.specs.Losses as spec;

use fd_table::{Limits, Look};
use lock_book::{Held, Owner};
use lock_manager::{FlockOp, Manager, ProcState, Request};
use owner_runs::Runs;
use range_core::{Memory, Mode, Span};
use std::alloc::Global;

/// Which descriptors a request closes, where they are open.
#[derive(Clone, Copy)]
pub enum Closing {
    /// None.
    Nothing,
    /// This one of the process.
    OneOf { p: u8, fd: u32 },
    /// All of the process, which ends.
    AllOf { p: u8 },
}

/// Which descriptors a request of the process closes.
pub fn closed_by(manager: &Manager, limits: Limits, p: u8, request: Request) -> Closing
    ensures { (S : State) → StandsFor manager.now S → result ≡ spec.closed_by limits S p request }
{
    match request {
        Request::CloseFd { fd } => Closing::OneOf { p, fd },
        Request::DupTo { fd, to } => {
            if manager.look(p, fd).is_some() && to < limits.descriptors() && to != fd {
                Closing::OneOf { p, fd: to }
            } else {
                Closing::Nothing
            }
        }
        Request::Exit => Closing::AllOf { p },
        Request::Kill { target } => killed(target, manager.state_of(target)),
        Request::Bail => bailed(p, manager.was_refused(p)),
        _ => Closing::Nothing,
    }
}

/// Which descriptors the end of a process closes that stands so.
fn killed(target: u8, state: ProcState) -> Closing
    ensures { result ≡ spec.killed target state }
{
    match state {
        ProcState::Live | ProcState::Waiting => Closing::AllOf { p: target },
        ProcState::Unborn | ProcState::Ended => Closing::Nothing,
    }
}

/// Which descriptors a bail closes: all, where the last answer to its process was an error.
fn bailed(p: u8, was_refused: bool) -> Closing
    ensures { result ≡ (if was_refused then Closing.AllOf p else Closing.Nothing) }
{
    if was_refused {
        Closing::AllOf { p }
    } else {
        Closing::Nothing
    }
}

/// The locks that the closing of these descriptors removes, in the report's order.
pub fn released(
    alloc: Global,
    manager: &Manager,
    limits: Limits,
    closing: Closing,
) -> Result<Vec<Held>, Memory>
    ensures { IfOk result (λ locks. (S : State) → StandsFor manager.now S
        → AreReleased (processes_of manager.now) (descriptor_limit limits) S closing locks.items) }
{
    match closing {
        Closing::Nothing => Ok(Vec::new(alloc)),
        Closing::OneOf { p, fd } => match manager.look(p, fd) {
            Some(look) => released_by(alloc, manager, limits, closing, p, look),
            None => Ok(Vec::new(alloc)),
        },
        Closing::AllOf { p } => released_by_end(alloc, manager, limits, p),
    }
}

/// The locks that go with a descriptor of the process which refers to this.
#[tactic(auto, using(crate::proofs::LossLemmas::own_of_lockless, crate::proofs::LossLemmas::own_of_open, crate::proofs::LossLemmas::own_and_others))]
fn released_by(
    alloc: Global,
    manager: &Manager,
    limits: Limits,
    closing: Closing,
    p: u8,
    look: Look,
) -> Result<Vec<Held>, Memory>
    ensures { IfOk result (λ locks. (S : State) → StandsFor manager.now S
        → AreReleasedBy S p look (spec.stays_open (descriptor_limit limits) S closing look.desc (processes_of manager.now)) locks.items) }
{
    let mut locks = byte_locks(alloc, manager, look.file, Owner::Process(p))?;
    // Only of a description with a lock it is asked who else refers to it.
    if !has_lock(manager, look) {
        return Ok(locks);
    }
    if stays_open(manager, limits, closing, look.desc) {
        return Ok(locks);
    }
    let mut others = locks_of(alloc, manager, look.file, look.desc)?;
    locks.append(&mut others)?;
    Ok(locks)
}

/// The byte locks of the owner on the file, run by run.
fn byte_locks(alloc: Global, manager: &Manager, file: u8, owner: Owner) -> Result<Vec<Held>, Memory>
    ensures { IfOk result (λ locks. (S : State) → StandsFor manager.now S → AreByteLocksOf S file owner locks.items) }
{
    match manager.byte_locks(file, owner) {
        Some(list) => byte_lines(alloc, file, owner, list.runs()),
        None => Ok(Vec::new(alloc)),
    }
}

/// A line for each run of the owner's byte locks.
fn byte_lines(alloc: Global, file: u8, owner: Owner, runs: Runs<'_>) -> Result<Vec<Held>, Memory>
    ensures { IfOk result (λ lines. lines.items ≡ map (spec.byte_line file owner) runs.entry) }
{
    let mut lines = Vec::new(alloc);
    for (mode, span) in runs {
        lines.push(Held {
            file,
            whole: false,
            owner,
            mode,
            span,
        })?;
    }
    Ok(lines)
}

/// All locks of the description on the file: its byte locks, and then its flock lock.
fn locks_of(
    alloc: Global,
    manager: &Manager,
    file: u8,
    description: u64,
) -> Result<Vec<Held>, Memory>
    ensures { IfOk result (λ locks. (S : State) → StandsFor manager.now S → AreLocksOf S file description locks.items) }
{
    let mut locks = byte_locks(alloc, manager, file, Owner::Description(description))?;
    if let Some(mode) = manager.flock_lock(file, description) {
        locks.push(flock_line(file, description, mode))?;
    }
    Ok(locks)
}

/// The line of a description's flock lock.
fn flock_line(file: u8, description: u64, mode: Mode) -> Held
    ensures { result ≡ spec.flock_line file description mode }
{
    Held {
        file,
        whole: true,
        owner: Owner::Description(description),
        mode,
        span: Span::WHOLE_FILE,
    }
}

/// Whether the description has a lock on the file.
fn has_lock(manager: &Manager, look: Look) -> bool
    ensures { IsFalse result → (S : State) → StandsFor manager.now S → AreLocksOf S look.file look.desc [] }
{
    if manager.flock_lock(look.file, look.desc).is_some() {
        return true;
    }
    match manager.byte_locks(look.file, Owner::Description(look.desc)) {
        Some(list) => !list.is_empty(),
        None => false,
    }
}

/// The locks that go with the end of the process.
fn released_by_end(
    alloc: Global,
    manager: &Manager,
    limits: Limits,
    p: u8,
) -> Result<Vec<Held>, Memory>
    ensures { IfOk result (λ locks. (S : State) → StandsFor manager.now S
        → AreReleased (processes_of manager.now) (descriptor_limit limits) S (Closing.AllOf p) locks.items) }
{
    let report = manager.held()?;
    let mut locks = Vec::new(alloc);
    for held in &report {
        if is_released(manager, limits, p, held.owner) {
            locks.push(*held)?;
        }
    }
    Ok(locks)
}

/// Whether the end of the process releases the locks of this owner: its own, and those of a description that no other has open.
fn is_released(manager: &Manager, limits: Limits, p: u8, owner: Owner) -> bool
    ensures { (S : State) → StandsFor manager.now S
        → result ≡ spec.is_released (processes_of manager.now) (descriptor_limit limits) S p owner }
{
    match owner {
        Owner::Process(q) => q == p,
        Owner::Description(description) => {
            keeps(manager, limits, Closing::Nothing, p, description)
                && !stays_open(manager, limits, Closing::AllOf { p }, description)
        }
    }
}

/// Whether some process that lives or waits has a descriptor that isn't closed and refers to the description.
fn stays_open(manager: &Manager, limits: Limits, closing: Closing, description: u64) -> bool
    ensures { (S : State) → StandsFor manager.now S
        → result ≡ spec.stays_open (descriptor_limit limits) S closing description (processes_of manager.now) }
{
    for index in 0..manager.processes() {
        let q = index + 1;
        if is_alive(manager.state_of(q)) && keeps(manager, limits, closing, q, description) {
            return true;
        }
    }
    false
}

/// Whether a process that stands so lives or waits.
fn is_alive(state: ProcState) -> bool
    ensures { result ≡ spec.is_alive state }
{
    match state {
        ProcState::Live | ProcState::Waiting => true,
        ProcState::Unborn | ProcState::Ended => false,
    }
}

/// Whether a descriptor of the process isn't closed and refers to the description.
fn keeps(manager: &Manager, limits: Limits, closing: Closing, q: u8, description: u64) -> bool
    ensures { (S : State) → StandsFor manager.now S
        → result ≡ spec.keeps (descriptor_limit limits) S.descriptors closing q description }
{
    for fd in 0..limits.descriptors() {
        if stays_on(closing, q, description, fd, manager.look(q, fd)) {
            return true;
        }
    }
    false
}

/// Whether the descriptor is open, isn't closed and refers to the description.
fn stays_on(closing: Closing, q: u8, description: u64, fd: u32, look: Option<Look>) -> bool
    ensures { result ≡ spec.is_such (spec.stays_on closing q description fd) look }
{
    match look {
        Some(look) => !closes(closing, q, fd) && look.desc == description,
        None => false,
    }
}

/// Whether this descriptor of this process is one of those that are closed.
fn closes(closing: Closing, q: u8, fd: u32) -> bool
    ensures { result ≡ spec.closes closing q fd }
{
    match closing {
        Closing::Nothing => false,
        Closing::OneOf { p, fd: one } => q == p && fd == one,
        Closing::AllOf { p } => q == p,
    }
}

/// The flock lock that there is before a request for another one.
pub fn flock_before(manager: &Manager, p: u8, request: Request) -> Option<Held>
    ensures { (S : State) → StandsFor manager.now S → result ≡ spec.flock_before S p request }
{
    match request {
        Request::Flock {
            fd,
            op: FlockOp::Sh | FlockOp::Ex,
            ..
        } => flock_of(manager, manager.look(p, fd)),
        _ => None,
    }
}

/// The flock lock of the description of an open descriptor.
fn flock_of(manager: &Manager, look: Option<Look>) -> Option<Held>
    ensures { (S : State) → StandsFor manager.now S → result ≡ spec.flock_of S look }
{
    let look = look?;
    let mode = manager.flock_lock(look.file, look.desc)?;
    Some(flock_line(look.file, look.desc, mode))
}

/// Whether the owner of a flock lock has one on the file.
pub fn has_flock(manager: &Manager, file: u8, owner: Owner) -> bool
    ensures { (T : State) → StandsFor manager.now T → result ≡ spec.has_flock T file owner }
{
    match owner {
        Owner::Process(_) => false,
        Owner::Description(description) => manager.flock_lock(file, description).is_some(),
    }
}
