//! The side of the table that takes the requests.
ghost use Rattle.std.specs.Prelude.{ℕ, ◌≡◌, ◌≤◌, true, false};
ghost use Rattle.session_core.specs.SessionView.{events_in};
ghost use Rattle.table_steps.specs.Shown.{desk_knows};
ghost use Rattle.call_table.specs.Seats.{SitsAsDesk};
ghost use Rattle.table_steps.specs.Views.{tally_at};

mod steps;

use self::steps::{find_next, publish_all, read};
use crate::client::Client;
use crate::gate::Gate;
use crate::hub::Hub;
use crate::served::Served;
use range_core::Memory;
use session_core::Session;
use table_steps::{DeskSeat, JoinedSeat, Setup, read_request};

/// The side of the table that takes the requests.
#[derive(Drop)]
pub struct Desk {
    setup: Setup,
    closed: bool,
    session: Session,
    seat: DeskSeat,
    ghost sits: { SitsAsDesk (desk_knows seat) setup closed session },
}

#[tactic(auto, unfolding(crate::specs::Shown::hub_table, crate::specs::Shown::hub_setup, crate::specs::Shown::client_view, crate::specs::Shown::client_table, crate::specs::Shown::client_setup, crate::specs::Shown::client_process, crate::specs::Desks::desk_view, crate::specs::Desks::session_in, crate::specs::Desks::desk_table, crate::specs::Desks::desk_setup))]
impl Desk {
    /// A desk that has served nothing.
    pub(crate) fn of_parts(setup: Setup, session: Session, seat: DeskSeat) -> Desk
        requires { SitsAsDesk (desk_knows seat) setup false session }
        ensures { (result.setup ≡ setup) × (result.session ≡ session) × (result.seat ≡ seat) }
    {
        Desk {
            setup,
            closed: false,
            session,
            seat,
        }
    }

    ghost use Rattle.std.specs.Prelude.{IfOk, OnErr, Ok, ◌↔◌};
    ghost use Rattle.table_steps.specs.Steps.{met_desk, met_client};
    ghost use Rattle.call_table.specs.Shown.{client_view, IsClientOf, SameClient};
    ghost use Rattle.call_table.specs.Desks.{desk_view, desk_setup, session_in, IsDeskOf, SameDesk, HasSetup, IsMet, IsServed, IsUnserved};

    /// Closes the desk: no request is taken from now on.
    pub fn close(&mut self, hub: &Hub)
        requires { IsDeskOf hub.now self.old }
        ensures closed { desk_view self.new ≡ record (desk_view self.old) { closed = true } }
        ensures session { session_in self.new ≡ session_in self.old }
        ensures same { SameDesk self.old self.new }
    {
        self.seat.close(&hub.words);
        self.closed = true;
    }

    /// Takes one request, the next one of the able process of least number of which more was posted than was taken, and publishes
    /// all answers that this leads to. `Idle` where no able process had one when it was looked at, and `Closed` after
    /// [`Desk::close`]. `Memory` leaves every word and the session as they were.
    pub fn serve_one<G: Gate>(&mut self, hub: &Hub, gate: &G) -> Result<Served, Memory>
        requires { IsDeskOf hub.now self.old }
        ensures served { IfOk result (IsServed self.old self.new) }
        ensures closed { (result ≡ Ok Served.Closed) ↔ ((desk_view self.old).closed ≡ true) }
        ensures gate { (place : ℕ) → result ≡ Ok (Served.Took place) → G.passed gate.now place }
        ensures memory { OnErr result (IsUnserved self.old self.new) }
        ensures looked { (p : ℕ)
            → (tally_at (desk_view self.old).tallies p).looked ≤ (tally_at (desk_view self.new).tallies p).looked }
        ensures same { SameDesk self.old self.new }
    {
        if self.closed {
            return Ok(Served::Closed);
        }
        let words = &hub.words;
        let Some((process, taken)) = find_next(words, &self.setup, &mut self.seat, &self.session)
        else {
            return Ok(Served::Idle);
        };
        let cell = read(words, &mut self.seat, process, taken);
        let place = self.session.take_one(process, read_request(cell))?;
        let Some(entry) = self.session.journal().last() else {
            unreachable!()
        };
        self.seat.take(words, process, taken + 1, entry);
        publish_all(
            words,
            &self.setup,
            &mut self.seat,
            gate,
            entry.notes.as_slice(),
            place,
        );
        Ok(Served::Took(place))
    }

    /// Meets a client, which then knows all that the desk published.
    pub fn meet(self, hub: &Hub, client: Client) -> (Desk, Client)
        requires desk { IsDeskOf hub.now self }
        requires client { IsClientOf hub.now client }
        ensures desk { desk_view result.0 ≡ met_desk (desk_view self) (client_view client) }
        ensures client { client_view result.1 ≡ met_client (desk_view self) (client_view client) }
        ensures session { session_in result.0 ≡ session_in self }
        ensures met { IsMet (desk_view self) (client_view client) (desk_view result.0) (client_view result.1) }
        ensures same { SameDesk self result.0 × SameClient client result.1 }
    {
        let Desk {
            setup,
            closed,
            session,
            seat,
        } = self;
        let (sizes, process, posted, collected, other) = client.into_parts();
        let mut joined = JoinedSeat::join(seat, other, &hub.words);
        joined.compare(&hub.words);
        let (seat, other) = joined.part(&hub.words);
        (
            Desk {
                setup,
                closed,
                session,
                seat,
            },
            Client::of_parts(sizes, process, posted, collected, other),
        )
    }

    /// The session, whose journal is what was taken.
    pub fn session(&self) -> &Session
        ensures session { result.now ≡ session_in self.now }
        ensures journal { events_in result.now ≡ (desk_view self.now).journal }
        ensures setup { HasSetup (desk_setup self.now) result.now }
    {
        &self.session
    }

    /// The session, without its desk.
    pub fn into_session(self) -> Session
        ensures session { result ≡ session_in self }
        ensures journal { events_in result ≡ (desk_view self).journal }
        ensures setup { HasSetup (desk_setup self) result }
    {
        self.session
    }
}
