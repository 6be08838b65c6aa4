//! The files that have a lock or a wait, and what is known of tickets and of owners.
ghost use Rattle.lock_server.specs.Index.{IsIndexed};

mod bytes;
mod clients;
mod counting;
mod cycles;
mod deadlock;
mod entries;
mod export;
mod flocks;
mod following;
mod freeing;
mod holding;
mod listing;
mod looked_at;
mod reached;
mod restoring;
mod settling;
mod waiting;

use crate::files::Files;
use crate::tickets::Tickets;
use crate::waiters::Waiters;
use std::alloc::Global;

/// The files that have a lock or a wait, and what is known of tickets and of owners. What is said of them here holds at every
/// moment, also inside a call.
#[derive(Drop)]
pub struct Table {
    alloc: Global,
    /// By file: those with a lock or a wait.
    files: Files,
    tickets: Tickets,
    waiters: Waiters,
    ghost indexed: { IsIndexed files tickets waiters },
}

#[tactic(auto, unfolding(crate::specs::TableView::table_state, crate::specs::TableView::entry_of, crate::specs::States::opening))]
impl Table {
    ghost use Rattle.lock_server.specs.States.{opening, SameState};
    ghost use Rattle.lock_server.specs.TableView.{AreSwept, table_state};

    /// No lock and no wait. It takes no memory.
    pub fn new(alloc: Global) -> Table
        ensures opening { SameState opening (table_state result) }
        ensures swept { AreSwept result }
    {
        Table {
            alloc,
            files: Files::new(alloc),
            tickets: Tickets::new(alloc),
            waiters: Waiters::new(alloc),
        }
    }
}
