//! What a ring comes to, what a member does and what a node is, as numbers (`enum cluster_view_outcome`, `cluster_view_part`,
//! `cluster_view_presence`).
ghost use Rattle.std.specs.Prelude.{◌≡◌};
ghost use Rattle.cluster_view_c.specs.Outcomes.{outcome_of, part_number, presence_number, reason_number};

use cluster_view::{Decision, Part, Presence, Reason};

/// The view goes on from the giver's state.
pub const GOES_ON: u32 = 0;
/// The view begins with no state.
pub const BEGINS: u32 = 1;
/// Two HELLOs are of one node, or there are more than 65,536.
pub const NODE_TWICE: u32 = 3;
/// Versions differ.
pub const VERSIONS_DIFFER: u32 = 4;
/// Votes differ.
pub const VOTES_DIFFER: u32 = 5;
/// The members have no majority.
pub const TOO_FEW_VOTES: u32 = 6;
/// The ring has no later view.
pub const RING_NOT_RISEN: u32 = 7;
/// Logs or tables differ that can't.
pub const DIVERGED: u32 = 8;

/// The number of what the ring comes to.
pub(crate) fn number(decision: Decision) -> u32
    ensures { result ≡ outcome_of decision }
{
    match decision {
        Decision::GoesOn(_, _) => GOES_ON,
        Decision::Begins(_) => BEGINS,
        Decision::NoView(reason) => why(reason),
    }
}

/// The number of a reason.
fn why(reason: Reason) -> u32
    ensures { result ≡ reason_number reason }
{
    match reason {
        Reason::NodeTwice => NODE_TWICE,
        Reason::VersionsDiffer => VERSIONS_DIFFER,
        Reason::VotesDiffer => VOTES_DIFFER,
        Reason::TooFewVotes => TOO_FEW_VOTES,
        Reason::RingNotRisen => RING_NOT_RISEN,
        Reason::Diverged(_) => DIVERGED,
    }
}

/// The number of what a member does.
pub(crate) fn part(part: Part) -> u8
    ensures { result ≡ part_number part }
{
    match part {
        Part::Suspended => 0,
        Part::Withdraws => 1,
        Part::BeginsAnew => 2,
        Part::Takes => 3,
        Part::CatchesUp => 4,
        Part::HasAll => 5,
        Part::Gives => 6,
    }
}

/// The number of what a node is to a view.
pub(crate) fn presence(presence: Presence) -> u8
    ensures { result ≡ presence_number presence }
{
    match presence {
        Presence::Member => 0,
        Presence::Dead => 1,
        Presence::Away => 2,
        Presence::Awaited => 3,
    }
}
