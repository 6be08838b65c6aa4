//! The loops of the desk over processes and over the words of a cell.
ghost use Rattle.std.specs.Prelude.{ℕ, ◌≡◌, ◌+◌, ◌<◌, [], length, IfSome, IfNone};
ghost use Rattle.session_core.specs.SessionView.{events_in};
ghost use Rattle.session_core.specs.Mail.{requests_taken};
ghost use Rattle.table_steps.specs.Places.{IsProcess, IsSetup};
ghost use Rattle.table_steps.specs.Shown.{words_table, words_setup, desk_at, desk_knows};
ghost use Rattle.table_steps.specs.Steps.{desk_told, AreRequestWords, IsNextToTell};
ghost use Rattle.table_steps.specs.Views.{tally_at};
ghost use Rattle.call_table.specs.Serving.{FindsNext, LooksUpTo, HasAllTakenBelow, IsBetween, IsUntold, IsTold};

use crate::gate::Gate;
use lock_manager::{Note, Reply};
use session_core::Session;
use table_steps::{DeskSeat, Setup, Words, spell_answer};

/// Loads the words of the next untaken request's cell.
pub(super) fn read(words: &Words, seat: &mut DeskSeat, process: u8, before: u64) -> [u64; 6]
    requires table { desk_at seat.old ≡ words_table words.now }
    requires process { IsProcess (words_setup words.now).processes process × ((desk_knows seat.old).reading ≡ (process, [])) }
    requires next { (before ≡ length (requests_taken process (desk_knows seat.old).journal))
        × (before < (tally_at (desk_knows seat.old).tallies process).looked) }
    ensures view { desk_knows seat.new ≡ record (desk_knows seat.old) { reading = (process, result) } }
    ensures words { AreRequestWords result }
    ensures same { desk_at seat.new ≡ desk_at seat.old }
{
    let mut cell = [0; 6];
    for at in 0..6 {
        cell[at] = seat.read(words, process, before, at);
    }
    cell
}

/// Fills in the cell of the next answer to the process, and publishes it.
fn publish(words: &Words, seat: &mut DeskSeat, process: u8, n: u64, reply: Reply, place: u64)
    requires table { desk_at seat.old ≡ words_table words.now }
    requires process { IsProcess (words_setup words.now).processes process × ((desk_knows seat.old).filling ≡ (0, [])) }
    requires next { IsNextToTell (desk_knows seat.old) process (n, reply, place) }
    requires number { n ≡ (tally_at (desk_knows seat.old).tallies process).published + 1 }
    ensures view { desk_knows seat.new ≡ desk_told (desk_knows seat.old) process }
    ensures same { desk_at seat.new ≡ desk_at seat.old }
{
    let cell = spell_answer(reply, place);
    for at in 0..6 {
        seat.fill(words, process, n - 1, at, cell[at]);
    }
    seat.publish(words, process, n);
}

/// Looks at the able processes in turn, up to the first of which more was posted than was taken: that process, and how many
/// requests of it were taken.
pub(super) fn find_next(
    words: &Words,
    setup: &Setup,
    seat: &mut DeskSeat,
    session: &Session,
) -> Option<(u8, u64)>
    requires table { (desk_at seat.old ≡ words_table words.now) × (words_setup words.now ≡ setup.now) }
    requires journal { (desk_knows seat.old).journal ≡ events_in session.now }
    requires setup { IsSetup setup.now }
    ensures some { IfSome result (λ found. FindsNext session.now setup.now.processes (desk_knows seat.old)
        (desk_knows seat.new) found.0 found.1) }
    ensures none { IfNone result (LooksUpTo session.now (desk_knows seat.old) (desk_knows seat.new) setup.now.processes
        × HasAllTakenBelow session.now (desk_knows seat.new) (setup.now.processes + 1)) }
    ensures same { desk_at seat.new ≡ desk_at seat.old }
{
    for index in 0..setup.processes {
        let process = index + 1;
        if session.manager().able(process) {
            let posted = seat.look(words, process);
            let taken = session.taken(process);
            if taken < posted {
                return Some((process, taken));
            }
        }
    }
    None
}

/// Calls the gate, where the seat's last event is taken and none of the answers that it told is published.
fn pass<G: Gate>(setup: &Setup, seat: &DeskSeat, gate: &G, place: u64)
    requires { IsBetween setup.now.processes (desk_knows seat.now) place }
    ensures { G.passed gate.now place }
{
    gate.between(place);
}

/// Passes the gate, and then publishes the answers among the notes of the journal's last entry, which has this place.
pub(super) fn publish_all<G: Gate>(
    words: &Words,
    setup: &Setup,
    seat: &mut DeskSeat,
    gate: &G,
    notes: &[Note],
    place: u64,
)
    requires table { (desk_at seat.old ≡ words_table words.now) × (words_setup words.now ≡ setup.now) }
    requires filling { (desk_knows seat.old).filling ≡ (0, []) }
    requires untold { IsUntold setup.now.processes (desk_knows seat.old) notes.now place }
    ensures told { IsTold setup.now.processes (desk_knows seat.old) (desk_knows seat.new) }
    ensures gate { G.passed gate.now place }
    ensures same { desk_at seat.new ≡ desk_at seat.old }
{
    pass(setup, seat, gate, place);
    publish_notes(words, setup, seat, notes, place);
}

/// Publishes the answers among the notes of the journal's last entry, which has this place.
fn publish_notes(words: &Words, setup: &Setup, seat: &mut DeskSeat, notes: &[Note], place: u64)
    requires table { (desk_at seat.old ≡ words_table words.now) × (words_setup words.now ≡ setup.now) }
    requires filling { (desk_knows seat.old).filling ≡ (0, []) }
    requires untold { IsUntold setup.now.processes (desk_knows seat.old) notes.now place }
    ensures told { IsTold setup.now.processes (desk_knows seat.old) (desk_knows seat.new) }
    ensures same { desk_at seat.new ≡ desk_at seat.old }
{
    for note in notes {
        match *note {
            Note::Answer { p, n, reply } => publish(words, seat, p, n, reply, place),
            Note::Waits { .. } => {}
        }
    }
}
