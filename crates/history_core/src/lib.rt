//! Concurrent histories of locks: whether there was an order in which every answer was permitted.
#![tactic(auto)]

mod byte_locks;
mod file;
mod flock_locks;
mod held_locks;
mod order;
mod possibility;
mod request;
mod search;

pub use byte_locks::ByteLock;
pub use file::FileHistory;
pub use held_locks::{FlockLock, HeldLocks};
pub use order::{Deed, Happening};
pub use request::{Action, Answer, Request};
pub use search::SearchFault;
