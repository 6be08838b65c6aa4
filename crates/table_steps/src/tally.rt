//! What the desk knows of one process: in proofs alone.

/// What the desk knows of one process. No such value is made: seats have it in the proofs.
pub struct Tally {
    /// How many answers to it were published.
    pub published: u64,
    /// How many of its requests were posted when the desk last looked, or met its client.
    pub looked: u64,
    /// How often the desk looked.
    pub probes: u64,
}
