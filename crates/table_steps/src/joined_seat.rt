//! The seat of the desk and a client that meet, and the steps that it takes.
ghost use Rattle.std.specs.Prelude.{◌≡◌};
ghost use Rattle.table_steps.specs.Steps.{HasBoth};
ghost use Rattle.table_steps.specs.Views.{desk_of, client_of, before_of};

use crate::client_seat::ClientSeat;
use crate::desk_seat::DeskSeat;
use crate::plays::{Compare, Meeting};
use crate::view::View;
use crate::words::Words;
use atomic_table::Seat;

/// The seat of the desk and a client between their joining and their parting.
#[derive(Drop)]
pub struct JoinedSeat {
    seat: Seat<(), View>,
    ghost is: { HasBoth (desk_of seat.me.0) (client_of seat.me.0) (before_of seat.me.0) seat.me },
}

#[tactic(auto, unfolding(crate::specs::Shown::words_table, crate::specs::Shown::client_at, crate::specs::Shown::client_knows, crate::specs::Shown::desk_at, crate::specs::Shown::desk_knows, crate::specs::Shown::joined_at, crate::specs::Shown::joined_desk, crate::specs::Shown::joined_client, crate::specs::Shown::joined_before))]
impl JoinedSeat {
    ghost use Rattle.table_steps.specs.Shown.{words_table, client_at, client_knows, desk_at, desk_knows};
    ghost use Rattle.table_steps.specs.Shown.{joined_at, joined_desk, joined_client, joined_before};
    ghost use Rattle.table_steps.specs.Steps.{met_desk, met_client, before_meeting, HaveMet};

    /// Joins the two seats, by a load: the desk sees all that the client posted, and the client all that was published.
    pub fn join(desk: DeskSeat, client: ClientSeat, words: &Words) -> JoinedSeat
        requires desk { desk_at desk ≡ words_table words.now }
        requires client { client_at client ≡ words_table words.now }
        ensures desk { joined_desk result ≡ met_desk (desk_knows desk) (client_knows client) }
        ensures client { joined_client result ≡ met_client (desk_knows desk) (client_knows client) }
        ensures before { joined_before result ≡ before_meeting (desk_knows desk) (client_knows client) }
        ensures same { joined_at result ≡ words_table words.now }
    {
        let DeskSeat { mut seat } = desk;
        let ClientSeat { seat: other } = client;
        words.table.shared.join_seat::<Meeting>(&mut seat, other);
        JoinedSeat { seat }
    }

    /// Loads a word, which changes nothing. A play tells of the rule only at a step on a word, and joining and parting have none: so by
    /// this step the two learn how what they know stands to each other.
    pub fn compare(&mut self, words: &Words)
        requires { joined_at self.old ≡ words_table words.now }
        ensures desk { joined_desk self.new ≡ joined_desk self.old }
        ensures client { joined_client self.new ≡ joined_client self.old }
        ensures before { joined_before self.new ≡ joined_before self.old }
        ensures met { HaveMet (joined_desk self.old) (joined_client self.old) (joined_before self.old) }
        ensures same { joined_at self.new ≡ joined_at self.old }
    {
        words.table.shared.load::<Compare>(&mut self.seat, 0);
    }

    /// Parts the two, by a load.
    pub fn part(self, words: &Words) -> (DeskSeat, ClientSeat)
        requires { joined_at self ≡ words_table words.now }
        ensures desk { desk_knows result.0 ≡ joined_desk self }
        ensures client { client_knows result.1 ≡ joined_client self }
        ensures same { (desk_at result.0 ≡ joined_at self) × (client_at result.1 ≡ joined_at self) }
    {
        let JoinedSeat { mut seat } = self;
        let other = words.table.shared.split_seat::<Meeting>(&mut seat);
        (DeskSeat { seat }, ClientSeat { seat: other })
    }
}
