//! What the nodes of the configuration are to a view.
ghost use Rattle.cluster_view.specs.Parts.{IsPresence};

use crate::decision::is_among;
use crate::hello::Hello;

/// A node of the configuration.
#[repr(C)]
#[derive(Clone, Copy, Debug, PartialEq, Eq)]
pub struct Seat {
    /// The node.
    pub node: u16,
    /// Whether it is in the ring, with a process of the group or without.
    pub in_ring: bool,
}

/// What a node is to a view (this project's choice).
#[derive(Clone, Copy, Debug, PartialEq, Eq)]
pub enum Presence {
    /// It said HELLO.
    Member,
    /// It is in the ring, with no process in the group: its mount is dead, and it is purged as the view begins.
    Dead,
    /// It isn't in the ring: it is purged after the grace.
    Away,
    /// The same, and the view has no state before that purge was delivered.
    Awaited,
}

/// What the node is to the view that these members decided on, which begins with no state or not.
pub fn presence_of(hellos: &[Hello], seat: Seat, begins: bool) -> Presence
    ensures { IsPresence hellos.now seat begins result }
{
    if is_among(seat.node, hellos) {
        Presence::Member
    } else if seat.in_ring {
        Presence::Dead
    } else if begins {
        Presence::Awaited
    } else {
        Presence::Away
    }
}
