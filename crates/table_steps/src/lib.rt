//! The words of a call table, and each step that a seat of it can take: there are no others (this project's choice).
#![tactic(auto)]

mod before;
mod client_seat;
mod client_view;
mod desk_seat;
mod desk_view;
mod indexes;
mod joined_seat;
mod plays;
mod rule;
mod setup;
mod spelling;
mod tally;
mod view;
mod words;

pub use before::Before;
pub use client_seat::ClientSeat;
pub use client_view::ClientView;
pub use desk_seat::DeskSeat;
pub use desk_view::DeskView;
pub use joined_seat::JoinedSeat;
pub use setup::Setup;
pub use spelling::{read_answer, read_request, spell_answer, spell_request};
pub use tally::Tally;
pub use words::Words;
