//! A script with a thread for each process that requests something, at a table whose desk is served here.
ghost use Rattle.std.specs.Prelude.{◌≡◌, ◌≤◌, ◌<◌, ◌⊎◌, IfOk, IfErr, OnOk, All, length, map, vec_items, vec_len, vec_capacity, [], true};
ghost use Rattle.session_core.specs.SessionView.{events_in, SessionHolds};
ghost use Rattle.call_table.specs.Shown.{client_view, hub_setup, IsClientOf};
ghost use Rattle.fd_table.specs.Descriptors.{process_limit};
ghost use Rattle.call_table.specs.Desks.{IsOpened, desk_view, session_in, IsDeskOf, SameDesk, HasSetup};
ghost use Rattle.replay_core.specs.Callers.{AreReady, AreNew, AreOf};
ghost use Rattle.replay_core.specs.Places.{started, IsFor};
ghost use Rattle.replay_core.specs.Gathering.{AreGathered, AreAllTaken, IsGathered, AreToldOf, HasLeft};
ghost use Rattle.replay_core.specs.Rooms.{IsRoomFor, IsServed};
ghost use Rattle.replay_core.specs.Faults.{IsWantOfMemory};
ghost use Rattle.replay_core.specs.Interleaving.{IsThreadReport};
ghost use Rattle.replay_core.specs.Watching.{AreWatched};

mod place;

use self::place::Place;
use crate::caller::{Answer, Caller};
use crate::pause::{Patience, Pause};
use crate::replays::{RunFault, sent_counts};
use crate::watch::Watch;
use call_table::{Client, Desk, Gate, Hub, Served, open_hub};
use lock_manager::{Request, Rules};
use range_core::Memory;
use script_core::Script;
use session_core::Session;
use std::alloc::Global;
use std::sync::Wait;
use std::thread;
use std::thread::{Scope, Threads};
use std::time::Clock;

/// How many requests a process may have posted without having collected the answers (this project's choice).
const DEPTH: u8 = 4;

/// What came of a script whose processes ran in threads of their own.
#[derive(Drop)]
pub struct ThreadReport {
    /// The session that they shared.
    pub session: Session,
    /// What each process collected, in order, from process 1 on.
    pub collected: Vec<Vec<Answer>>,
}

/// Runs a script under its rules with a thread for each process that requests something; the requests are taken in this thread.
///
/// Returns once each able process has had all its requests taken, and every answer was collected. The watch was then told of each
/// request that was posted, those that were never taken too. `Thread` where a thread can't be had, and `Memory` where a growth is
/// refused.
pub fn replay_threads<R: Threads + Wait + Clock + Sync, W: Watch + Sync>(
    rt: &R,
    alloc: Global,
    script: &Script,
    watch: &W,
) -> Result<ThreadReport, RunFault>
    ensures ok { IfOk result (IsThreadReport script.now) }
    ensures told { IfOk result (λ report. AreWatched (W.told watch.now) script.now (events_in report.session)) }
    ensures fault { IfErr result (λ fault. IsWantOfMemory fault ⊎ (fault ≡ RunFault.Thread)) }
{
    let processes = script.rules.limits.processes();
    let counts = sent_counts(alloc, processes, &script.arrivals)?;
    let service = Service::of_counts(rt, counts);
    let (hub, clients, desk) = open_table(alloc, processes, script.rules)?;
    let callers = make_callers(alloc, clients, &script.arrivals, service.patience)?;
    let room = Room::new(alloc, callers.len())?;
    serve_in_scope(rt, &hub, desk, callers, &service, room, watch)
}

/// How the desk serves.
#[derive(Drop)]
struct Service {
    /// Until each able process has had so many requests taken, from process 1 on.
    counts: Vec<u64>,
    /// How long each thread looks at once for what it waits for.
    patience: Patience,
}

impl Service {
    /// Until so many are taken, where each process that sends one has a thread, and the desk another.
    fn of_counts(rt: &impl Threads, counts: Vec<u64>) -> Service
        ensures { result.counts ≡ counts }
    {
        let callers = counts.iter().filter(|count| **count > 0).count();
        Service {
            counts,
            patience: Patience::of_threads(rt, callers.saturating_add(1)),
        }
    }
}

/// A table of so many processes.
fn open_table(
    alloc: Global,
    processes: u8,
    rules: Rules,
) -> Result<(Hub, Vec<Client>, Desk), Memory>
    requires { (1 ≤ processes) × (processes ≤ process_limit rules.limits) }
    ensures opened { IfOk result (λ made. IsOpened (record { processes = processes; depth = 4; rules = rules })
        made.0 made.1.items made.2) }
{
    open_hub(alloc, processes, DEPTH, rules)
}

/// A caller for each client, in order: the clients of the processes from 1 on, which did nothing yet.
fn make_callers(
    alloc: Global,
    clients: Vec<Client>,
    arrivals: &[(u8, Request)],
    patience: Patience,
) -> Result<Vec<Caller>, Memory>
    requires few { vec_len clients < 256 }
    requires new { AreNew clients.items }
    ensures clients { IfOk result (λ callers. map (λ caller. caller.client) callers.items ≡ clients.items) }
    ensures callers { IfOk result (λ callers. AreOf arrivals.now callers.items) }
{
    let mut callers = Vec::new(alloc);
    let mut process = 0;
    for client in clients {
        process += 1;
        let caller = Caller::new(alloc, process, client, arrivals, patience)?;
        callers.push(caller)?;
    }
    Ok(callers)
}

/// Room for where each caller is and what it collected, which is taken before the first thread starts.
#[derive(Drop)]
struct Room<P> {
    places: Vec<P>,
    collected: Vec<Vec<Answer>>,
}

impl<P: Drop> Room<P> {
    /// Room for so many callers.
    fn new(alloc: Global, callers: usize) -> Result<Room<P>, Memory>
        ensures room { IfOk result (IsRoomFor callers) }
    {
        Ok(Room {
            places: Vec::with_capacity(alloc, callers)?,
            collected: Vec::with_capacity(alloc, callers)?,
        })
    }
}

/// Lets the callers run in threads and serves them, until so much is taken of each able process.
fn serve_in_scope<R: Threads + Wait + Clock + Sync, W: Watch + Sync>(
    rt: &R,
    hub: &Hub,
    desk: Desk,
    callers: Vec<Caller>,
    service: &Service,
    room: Room<Place<W>>,
    watch: &W,
) -> Result<ThreadReport, RunFault>
    requires desk { IsDeskOf hub.now desk }
    requires callers { AreReady hub.now callers.items }
    requires few { length service.now.counts.items < 256 }
    requires room { IsRoomFor (vec_len callers) room }
    ensures ok { IfOk result (IsServed (W.told watch.now) hub.now callers.items service.now.counts.items) }
    ensures fault { IfErr result (λ fault. IsWantOfMemory fault ⊎ (fault ≡ RunFault.Thread)) }
{
    thread::scope(
        thread::scope_env(),
        rt,
        |scope| -> Result<ThreadReport, RunFault>
            requires desk { IsDeskOf hub.now desk }
            requires callers { AreReady hub.now callers.items }
            requires few { length service.now.counts.items < 256 }
            requires room { IsRoomFor (vec_len callers) room }
            ensures ok { IfOk result (IsServed (W.told watch.entry.now) hub.entry.now callers.items service.entry.now.counts.items) }
            ensures fault { IfErr result (λ fault. IsWantOfMemory fault ⊎ (fault ≡ RunFault.Thread)) }
        { serve_threads(rt, scope, hub, desk, callers, service, room, watch) },
    )
}

/// The same in a scope, which waits for the threads.
fn serve_threads<'s, 'e: 's, R: Threads + Wait + Clock + Sync, W: Watch + Sync>(
    rt: &'e R,
    scope: &'s Scope<'s, &'e ()>,
    hub: &'e Hub,
    mut desk: Desk,
    callers: Vec<Caller>,
    service: &Service,
    room: Room<Place<W>>,
    watch: &'e W,
) -> Result<ThreadReport, RunFault>
    requires desk { IsDeskOf hub.now desk }
    requires callers { AreReady hub.now callers.items }
    requires few { length service.now.counts.items < 256 }
    requires room { IsRoomFor (vec_len callers) room }
    ensures ok { IfOk result (IsServed (W.told watch.now) hub.now callers.items service.now.counts.items) }
    ensures fault { IfErr result (λ fault. IsWantOfMemory fault ⊎ (fault ≡ RunFault.Thread)) }
{
    let Room { places, collected } = room;
    let served = start_and_serve(rt, scope, hub, &mut desk, callers, service, places, watch);
    // Whatever came of it, no thread ends before this.
    desk.close(hub);
    Ok(gather_all(rt, hub, desk, served?, watch, collected))
}

/// Starts the threads of the callers and serves them.
fn start_and_serve<'s, 'e: 's, R: Threads + Wait + Clock + Sync, W: Watch + Sync>(
    rt: &'e R,
    scope: &'s Scope<'s, &'e ()>,
    hub: &'e Hub,
    desk: &mut Desk,
    callers: Vec<Caller>,
    service: &Service,
    places: Vec<Place<W>>,
    watch: &'e W,
) -> Result<Vec<Place<W>>, RunFault>
    requires desk { IsDeskOf hub.now desk.old }
    requires callers { AreReady hub.now callers.items }
    requires few { length service.now.counts.items < 256 }
    requires none { places.items ≡ [] }
    requires room { vec_len callers ≤ vec_capacity places }
    ensures same { SameDesk desk.old desk.new }
    ensures started { IfOk result (λ places. map started places.items ≡ callers.items) }
    ensures watch { IfOk result (λ places. All (IsFor watch.now) places.items) }
    ensures taken { OnOk result (AreAllTaken (session_in desk.new) service.now.counts.items) }
    ensures fault { IfErr result (λ fault. IsWantOfMemory fault ⊎ (fault ≡ RunFault.Thread)) }
{
    let places = start_all(rt, scope, hub, watch, callers, places)?;
    serve_all(rt, hub, desk, service)?;
    Ok(places)
}

/// Starts the threads of the callers.
fn start_all<'s, 'e: 's, R: Threads + Wait + Clock + Sync, W: Watch + Sync>(
    rt: &'e R,
    scope: &'s Scope<'s, &'e ()>,
    hub: &'e Hub,
    watch: &'e W,
    callers: Vec<Caller>,
    mut places: Vec<Place<W>>,
) -> Result<Vec<Place<W>>, RunFault>
    requires callers { AreReady hub.now callers.items }
    requires none { places.items ≡ [] }
    requires room { vec_len callers ≤ vec_capacity places }
    ensures started { IfOk result (λ places. map started places.items ≡ callers.items) }
    ensures watch { IfOk result (λ places. All (IsFor watch.now) places.items) }
    ensures fault { IfErr result (λ fault. fault ≡ RunFault.Thread) }
{
    for caller in callers {
        let place = Place::start(rt, scope, hub, watch, caller)?;
        places.push_reserved(place);
    }
    Ok(places)
}

/// A gate that does nothing.
struct Open;

impl Gate for Open {
    fn between(&self, _place: u64) {}
}

/// Serves until each able process has had so many requests taken.
fn serve_all<R: Wait + Clock>(
    rt: &R,
    hub: &Hub,
    desk: &mut Desk,
    service: &Service,
) -> Result<(), Memory>
    requires desk { IsDeskOf hub.now desk.old }
    requires few { length service.now.counts.items < 256 }
    ensures same { SameDesk desk.old desk.new }
    ensures taken { OnOk result (AreAllTaken (session_in desk.new) service.now.counts.items) }
{
    let mut pause = Pause::new(service.patience);
    for _ in rt.forever() {
        let served = desk.serve_one(hub, &Open)?;
        let idle = served == Served::Idle;
        if idle && has_all_taken(desk.session(), &service.counts) {
            return Ok(());
        }
        pause.after(rt, !idle);
    }
    unreachable!()
}

/// Whether each able process has had so many requests taken.
fn has_all_taken(session: &Session, counts: &[u64]) -> bool
    requires { length counts.now < 256 }
    ensures { result ≡ true → AreAllTaken session.now counts.now }
{
    let mut process = 0;
    for count in counts {
        process += 1;
        if session.manager().able(process) && session.taken(process) != *count {
            return false;
        }
    }
    true
}

/// Ends the callers, once the desk is closed: each meets the desk, and gives what it collected.
fn gather_all<R: Threads + Wait + Clock, W: Watch + Sync>(
    rt: &R,
    hub: &Hub,
    mut desk: Desk,
    places: Vec<Place<W>>,
    watch: &W,
    mut collected: Vec<Vec<Answer>>,
) -> ThreadReport
    requires desk { IsDeskOf hub.now desk }
    requires callers { AreReady hub.now (map started places.items) }
    requires watch { All (IsFor watch.now) places.items }
    requires none { collected.items ≡ [] }
    requires room { vec_len places ≤ vec_capacity collected }
    ensures session { result.session ≡ session_in desk }
    ensures setup { HasSetup (hub_setup hub.now) result.session }
    ensures holds { SessionHolds result.session }
    ensures gathered { AreGathered (events_in result.session) (map started places.items) (map vec_items result.collected.items) }
    ensures told { AreToldOf (W.told watch.now) (events_in result.session) (map started places.items) }
{
    for place in places {
        let caller = place.end(rt, hub, watch);
        let (met, answers) = meet(hub, desk, caller);
        desk = met;
        collected.push_reserved(answers);
    }
    let session = desk.into_session();
    // Called for its clause `holds`; there is nothing to run.
    let _ = session.journal();
    ThreadReport { session, collected }
}

/// The caller, which has ended, meets the desk, and gives what it collected.
fn meet(hub: &Hub, desk: Desk, caller: Caller) -> (Desk, Vec<Answer>)
    requires desk { IsDeskOf hub.now desk }
    requires client { IsClientOf hub.now caller.client }
    requires drained { (client_view caller.client).drained ≡ true }
    ensures same { SameDesk desk result.0 }
    ensures session { session_in result.0 ≡ session_in desk }
    ensures journal { (desk_view result.0).journal ≡ (desk_view desk).journal }
    ensures gathered { IsGathered (desk_view desk).journal caller result.1.items }
    ensures left { HasLeft (desk_view desk).journal caller }
{
    let (client, answers) = caller.into_parts();
    let (desk, _client) = desk.meet(hub, client);
    (desk, answers)
}
