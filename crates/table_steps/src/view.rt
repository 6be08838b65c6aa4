//! What a seat knows: in proofs alone.
use crate::before::Before;
use crate::client_view::ClientView;
use crate::desk_view::DeskView;

/// What a seat knows. No such value is made: seats have it in the proofs.
pub enum View {
    /// Nothing: the seat was joined to another.
    Spent,
    /// What a client knows.
    Client(ClientView),
    /// What the desk knows.
    Desk(DeskView),
    /// What both know, between the joining of their seats and the splitting, and what they knew before.
    Both(DeskView, ClientView, Before),
}
