//! The calls of a lock server as C sees them (`embedding/dehokuna.h`): each export makes the library's call on the server behind a
//! handle, and states that call's clauses again. What an export requires, nothing checks of a C caller.
#![tactic(auto)]

mod bytes;
mod clients;
mod export;
mod flocks;
mod handle;
mod import;
mod life;
mod listing;
mod loose;
mod numbers;
mod openings;
mod status;
mod tickets;
