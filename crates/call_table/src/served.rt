//! What the desk did in one call.

/// What the desk did in one call.
#[derive(Clone, Copy, Debug, PartialEq, Eq)]
pub enum Served {
    /// It looked at every able process, and all that it saw posted was taken.
    Idle,
    /// It took a request, which has this place in the journal, from 1.
    Took(u64),
    /// Nothing: the desk is closed.
    Closed,
}
