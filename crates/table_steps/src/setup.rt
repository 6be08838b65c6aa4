//! What a table is made with.
use lock_manager::Rules;

/// What the table is made with.
#[derive(Clone, Copy, Debug, PartialEq, Eq)]
pub struct Setup {
    /// How many processes there are, numbered from 1.
    pub processes: u8,
    /// How many requests of a process may be posted that aren't collected: 1 to 32.
    pub depth: u8,
    /// The rules of the session.
    pub rules: Rules,
}
