//! What the desk and a client knew of each other before they met: in proofs alone.
use session_core::Entry;
use std::collections::LinkedList;

/// What the desk and a client knew of each other before they met. No such value is made: a seat has it in the proofs.
pub struct Before {
    /// How many requests of the client's process the desk had seen.
    pub looked: u64,
    /// How many answers the client had found published.
    pub known: u64,
    /// The journal that the client had seen.
    pub seen: LinkedList<Entry>,
}
