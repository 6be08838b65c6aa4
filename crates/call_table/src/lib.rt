//! A lock manager that threads share: under one lock, or by a table of words.
#![tactic(auto)]

mod bench;
mod busy;
mod client;
mod desk;
mod gate;
mod hub;
mod open;
mod served;

pub use bench::Bench;
pub use busy::Busy;
pub use client::Client;
pub use desk::Desk;
pub use gate::Gate;
pub use hub::Hub;
pub use open::open_hub;
pub use served::Served;
pub use table_steps::{Before, ClientView, DeskView, Setup, Tally};
