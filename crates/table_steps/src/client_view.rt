//! What a client knows: in proofs alone.
use crate::setup::Setup;
use lock_manager::Request;
use session_core::Entry;
use std::collections::LinkedList;

/// What a client knows. No such value is made: seats have it in the proofs.
pub struct ClientView {
    /// What the table was made with.
    pub setup: Setup,
    /// Its process, from 1.
    pub process: u64,
    /// The requests that it posted, in order.
    pub posted: LinkedList<Request>,
    /// How many answers it collected.
    pub collected: u64,
    /// How many answers were published when it last looked, or met the desk.
    pub known: u64,
    /// The journal of that moment.
    pub seen: LinkedList<Entry>,
    /// Whether it found the desk closed.
    pub over: bool,
    /// Whether it then found that every answer was collected.
    pub drained: bool,
    /// The words that it filled of the cell of its next request.
    pub filled: LinkedList<u64>,
    /// The words that it read of its next answer.
    pub read: LinkedList<u64>,
    /// How often it looked how many answers were published.
    pub looks: u64,
    /// How often it looked at the closing mark.
    pub marks: u64,
}
