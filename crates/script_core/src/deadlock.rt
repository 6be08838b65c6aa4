//! The cycle that a request refused with EDEADLK would have closed.
ghost use Rattle.std.specs.Prelude.{ℕ, ◌≡◌, ◌<◌, ◌≤◌, ◌↔◌, ◌⊎◌, not, false, All, IfNone, IfOk, IfSome, IsFalse, IsTrue, MatchOption, count_by, length, slice_index_or, []};
ghost use Rattle.lock_manager.specs.Asking.{IsFirstOf};
ghost use Rattle.wait_core.specs.Cycles.{IsTraditional};
ghost use Rattle.script_core.specs.declared.deadlock.Start.TheVariants.{Waiting, Wanted};
ghost use Rattle.script_core.specs.Deadlocks.{IsLockAgainst, IsWaitAgainst, IsBlockedInReport, IsStepTo, IsLink, IsLinkAt, BlocksAt, WaitsInReport, LeadsInReport, TellsCycleIfAny, IsLayersTo, IsLeastLink};

use lock_book::{Held, Owner};
use lock_manager::InTheWay;
use range_core::Memory;
use std::alloc::Global;
use wait_core::{Policy, Wait};

/// A step of a cycle: what a process waits for.
#[derive(Clone, Copy)]
pub struct Link {
    /// What it waits for, or would wait for.
    pub wait: Wait,
    /// The process that blocks the wait.
    pub process: u8,
    /// The lock of that process that blocks it or, under the queue policy, its earlier wait.
    pub step: InTheWay,
}

/// Where a step of a cycle begins.
#[derive(Clone, Copy)]
pub enum Start {
    /// At the wait that would close the cycle.
    Wanted(Wait),
    /// At this process, which waits.
    Waiting(u8),
}

/// Of each process, by its number, whether it is in the set.
type Processes = [bool; 256];

/// The steps of the cycle that a traditional wait would close, from the first process that blocks it to its own: of the shortest cycles
/// the one with the least processes in order. None where it would close no cycle.
pub fn cycle_of(
    alloc: Global,
    policy: Policy,
    held: &[Held],
    waits: &[Wait],
    wanted: &Wait,
) -> Result<Vec<Link>, Memory>
    requires { IsTraditional wanted.now }
    ensures { IfOk result (λ links. TellsCycleIfAny policy held.now waits.now wanted.now links.items) }
{
    match layers_to(alloc, policy, held, waits, wanted)? {
        Some(layers) => links_through(alloc, policy, held, waits, wanted, layers),
        None => Ok(Vec::new(alloc)),
    }
}

/// Of each number of steps, from none on, the processes that so many at most lead to the process of the wanted wait, up to the first
/// number of which one is a process that blocks that wait. `None` where there is no such number.
fn layers_to(
    alloc: Global,
    policy: Policy,
    held: &[Held],
    waits: &[Wait],
    wanted: &Wait,
) -> Result<Option<Vec<Processes>>, Memory>
    ensures { IfOk result (λ layers. MatchOption layers
        (TellsCycleIfAny policy held.now waits.now wanted.now [])
        (λ some. IsLayersTo policy held.now waits.now wanted.now some.items)) }
{
    let start = Start::Wanted(*wanted);
    let mut layers = Vec::new(alloc);
    let mut layer = alone(wanted.p);
    layers.push(layer)?;
    while least_link(policy, held, waits, start, &layer).is_none() {
        let Some(next) = grown(policy, held, waits, &layer) else {
            return Ok(None);
        };
        layer = next;
        layers.push(layer)?;
    }
    Ok(Some(layers))
}

/// The set of one process.
fn alone(p: u8) -> Processes
    ensures { (q : ℕ) → IsTrue (slice_index_or result q false) ↔ (q ≡ p) }
{
    let mut set = [false; 256];
    set[usize::from(p)] = true;
    set
}

/// The set and the processes that wait for one of it; `None` where each of these is in it.
fn grown(policy: Policy, held: &[Held], waits: &[Wait], layer: &Processes) -> Option<Processes>
    ensures members { IfSome result (λ next. (p : ℕ) → IsTrue (slice_index_or next p false)
        ↔ (IsTrue (slice_index_or layer.now p false)
        ⊎ ((q : ℕ) × WaitsInReport policy held.now waits.now p q × IsTrue (slice_index_or layer.now q false)))) }
    ensures fewer { IfSome result (λ next. count_by not next < count_by not layer.now) }
    ensures closed { IfNone result ((p q : ℕ) → WaitsInReport policy held.now waits.now p q
        → IsTrue (slice_index_or layer.now q false) → IsTrue (slice_index_or layer.now p false)) }
{
    let mut next = *layer;
    let mut has_grown = false;
    for wait in waits {
        let p = usize::from(wait.p);
        if !next[p] && leads_into(policy, held, waits, wait.p, layer) {
            next[p] = true;
            has_grown = true;
        }
    }
    if has_grown { Some(next) } else { None }
}

/// Whether the process waits for one of the set.
fn leads_into(policy: Policy, held: &[Held], waits: &[Wait], p: u8, layer: &Processes) -> bool
    ensures yes { IsTrue result → (q : ℕ) × WaitsInReport policy held.now waits.now p q × IsTrue (slice_index_or layer.now q false) }
    ensures no { IsFalse result → (q : ℕ) → WaitsInReport policy held.now waits.now p q → IsFalse (slice_index_or layer.now q false) }
{
    least_link(policy, held, waits, Start::Waiting(p), layer).is_some()
}

/// The steps that lead from the wanted wait through the sets, from the last to the first, each to the least process that it can.
fn links_through(
    alloc: Global,
    policy: Policy,
    held: &[Held],
    waits: &[Wait],
    wanted: &Wait,
    mut layers: Vec<Processes>,
) -> Result<Vec<Link>, Memory>
    requires traditional { IsTraditional wanted.now }
    requires layers { IsLayersTo policy held.now waits.now wanted.now layers.items }
    ensures { IfOk result (λ links. TellsCycleIfAny policy held.now waits.now wanted.now links.items) }
{
    let mut links = Vec::new(alloc);
    let mut start = Start::Wanted(*wanted);
    while let Some(layer) = layers.pop() {
        let Some(link) = least_link(policy, held, waits, start, &layer) else {
            unreachable!()
        };
        start = Start::Waiting(link.process);
        links.push(link)?;
    }
    Ok(links)
}

/// The step to the least process of the set to which there is one.
fn least_link(
    policy: Policy,
    held: &[Held],
    waits: &[Wait],
    start: Start,
    layer: &Processes,
) -> Option<Link>
    ensures { MatchOption result
        ((q : ℕ) → LeadsInReport policy held.now waits.now start q → IsFalse (slice_index_or layer.now q false))
        (IsLeastLink policy held.now waits.now start layer.now) }
{
    for q in 0..=u8::MAX {
        if layer[usize::from(q)] {
            if let Some(link) = link_to(policy, held, waits, start, q) {
                return Some(link);
            }
        }
    }
    None
}

/// The step to the process, if there is one.
fn link_to(policy: Policy, held: &[Held], waits: &[Wait], start: Start, q: u8) -> Option<Link>
    ensures { MatchOption result (¬ LeadsInReport policy held.now waits.now start q)
        (λ link. (link.process ≡ q) × IsLink policy held.now waits.now start link) }
{
    match start {
        Start::Wanted(wait) => {
            let step = step_to(policy, held, waits, &wait, q)?;
            Some(Link {
                wait,
                process: q,
                step,
            })
        }
        Start::Waiting(p) => link_from(policy, held, waits, p, q),
    }
}

/// The step from a process that waits to the other, if there is one.
fn link_from(policy: Policy, held: &[Held], waits: &[Wait], p: u8, q: u8) -> Option<Link>
    ensures { MatchOption result (¬ WaitsInReport policy held.now waits.now p q)
        (λ link. (link.process ≡ q) × IsLink policy held.now waits.now (Waiting p) link) }
{
    for place in 0..waits.len() {
        if let Some(link) = link_at(policy, held, waits, place, p, q) {
            return Some(link);
        }
    }
    None
}

/// The step to the process from the wait at this place, if it is a traditional one of the first process and there is a step.
fn link_at(
    policy: Policy,
    held: &[Held],
    waits: &[Wait],
    place: usize,
    p: u8,
    q: u8,
) -> Option<Link>
    requires { place < length waits.now }
    ensures { MatchOption result (¬ BlocksAt policy held.now waits.now p q place)
        (λ link. (link.process ≡ q) × IsLinkAt policy held.now waits.now p link place) }
{
    let wait = &waits[place];
    if wait.p != p || wait.owner != Owner::Process(p) {
        return None;
    }
    let step = step_to(policy, held, &waits[..place], wait, q)?;
    Some(Link {
        wait: *wait,
        process: q,
        step,
    })
}

/// What makes the step from the wait, which has these before it, to the process, if something does.
fn step_to(policy: Policy, held: &[Held], earlier: &[Wait], wait: &Wait, q: u8) -> Option<InTheWay>
    ensures { MatchOption result (¬ IsBlockedInReport policy held.now earlier.now wait.now q)
        (IsStepTo policy held.now earlier.now wait.now q) }
{
    if let Some(held) = first_lock(held, wait, q) {
        return Some(InTheWay::Lock(held));
    }
    match policy {
        Policy::Held => None,
        Policy::Queue => first_wait(earlier, wait, q).map(InTheWay::Wait),
    }
}

/// The first line that says a traditional lock of the process that is against the wait.
fn first_lock(lines: &[Held], wait: &Wait, q: u8) -> Option<Held>
    ensures { MatchOption result (All (λ line. ¬ IsLockAgainst q wait.now line) lines.now) (IsFirstOf (IsLockAgainst q wait.now) lines.now) }
{
    for line in lines {
        if is_lock_against(line, wait, q) {
            return Some(*line);
        }
    }
    None
}

/// Whether the line says a traditional lock of the process, another owner, that conflicts with the wait on some byte.
fn is_lock_against(line: &Held, wait: &Wait, q: u8) -> bool
    ensures { IsTrue result ↔ IsLockAgainst q wait.now line.now }
{
    let first = line.span.first.max(wait.span.first);
    !line.whole
        && line.file == wait.file
        && line.owner == Owner::Process(q)
        && line.owner != wait.owner
        && first <= line.span.last
        && first <= wait.span.last
        && line.mode.conflicts_with(wait.mode)
}

/// The first of the waits that is a traditional one of the process and conflicts with the wait.
fn first_wait(waits: &[Wait], wait: &Wait, q: u8) -> Option<Wait>
    ensures { MatchOption result (All (λ v. ¬ IsWaitAgainst q wait.now v) waits.now) (IsFirstOf (IsWaitAgainst q wait.now) waits.now) }
{
    for other in waits {
        if is_wait_against(other, wait, q) {
            return Some(*other);
        }
    }
    None
}

/// Whether the other is a traditional wait of the process, and conflicts with the wait.
fn is_wait_against(other: &Wait, wait: &Wait, q: u8) -> bool
    ensures { IsTrue result ↔ IsWaitAgainst q wait.now other.now }
{
    other.p == q && other.owner == Owner::Process(other.p) && other.conflicts_with(wait)
}
