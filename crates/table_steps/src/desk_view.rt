//! What the desk knows: in proofs alone.
use crate::setup::Setup;
use crate::tally::Tally;
use session_core::Entry;
use std::collections::LinkedList;

/// What the desk knows. No such value is made: seats have it in the proofs.
pub struct DeskView {
    /// What the table was made with.
    pub setup: Setup,
    /// How many clients were made.
    pub made: u64,
    /// All that was taken, in order.
    pub journal: LinkedList<Entry>,
    /// For each process, from process 0 on; a process past the end counts as zeros.
    pub tallies: LinkedList<Tally>,
    /// Whether it was closed.
    pub closed: bool,
    /// The process whose next request is being read, and the words that were read.
    pub reading: (u64, LinkedList<u64>),
    /// The process whose next answer is being filled in, and the words that were filled.
    pub filling: (u64, LinkedList<u64>),
}
