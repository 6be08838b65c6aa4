//! What a ring comes to.
ghost use Rattle.std.specs.Prelude.{◌↔◌, ◌<◌, ◌≤◌, ◌^◌, All, length, IsTrue, MatchOption};
ghost use Rattle.cluster_view.specs.Decisions.{AgreeOnState, CanDecide, Decides, GoesFrom, HasNoNext, IsNext, IsUnfit};
ghost use Rattle.cluster_view.specs.Hellos.{AgreeOnVersions, AgreeOnVotes, AllRun, AreOneEach, HasElectorate, SaidHello};
ghost use Rattle.cluster_view.specs.Votes.{IsMajority};

use crate::base::{self, Base};
use crate::hello::{Electorate, Hello, Versions};
use crate::tables::{self, Trace};
use crate::view::View;
use crate::votes::Voters;

/// How many nodes there may be: as many as a number of 16 bits names.
const MOST_NODES: usize = 65_536;

/// Why a ring has no view (this project's choice).
#[derive(Clone, Copy, Debug, PartialEq, Eq)]
pub enum Reason {
    /// Two HELLOs are of one node, or there are more than 65,536.
    NodeTwice,
    /// The versions of the table or of the protocol differ.
    VersionsDiffer,
    /// The expected votes, or the votes of the nodes, differ among configurations and states.
    VotesDiffer,
    /// The members don't have a majority of the expected votes.
    TooFewVotes,
    /// A member knows of a view of a later ring, or of the last that this ring can count.
    RingNotRisen,
    /// Members that have a state of this view, the latest, have logs or tables that can't differ, and do.
    Diverged(View),
}

/// What a ring comes to (this project's choice).
#[derive(Clone, Copy, Debug, PartialEq, Eq)]
pub enum Decision {
    /// There is no view: holders of locks get EIO, and nothing is granted.
    NoView(Reason),
    /// The view begins with no state: all lose their locks, and there is none before each node that is away was purged.
    Begins(View),
    /// The view goes on from this state: who had an earlier one or none loses its locks and takes it.
    GoesOn(View, Base),
}

/// Decides: the HELLOs are those of all members of the group in the ring of this number, in whatever order.
pub fn decide(ring: u64, hellos: &[Hello]) -> Decision
    ensures { Decides ring hellos.now result }
{
    if let Some(reason) = unfitness(hellos) {
        return Decision::NoView(reason);
    }
    match next_view(ring, hellos) {
        Some(view) => go_on(view, hellos),
        None => Decision::NoView(Reason::RingNotRisen),
    }
}

/// Why the members can't decide on a view, whatever its number.
fn unfitness(hellos: &[Hello]) -> Option<Reason>
    ensures { MatchOption result (CanDecide hellos.now) (IsUnfit hellos.now) }
{
    if !are_one_each(hellos) {
        return Some(Reason::NodeTwice);
    }
    if !agree_on_versions(hellos) {
        return Some(Reason::VersionsDiffer);
    }
    if !agree_on_votes(hellos) {
        return Some(Reason::VotesDiffer);
    }
    if !is_majority(hellos, Voters::All.votes(hellos)) {
        return Some(Reason::TooFewVotes);
    }
    None
}

/// Whether each HELLO is of another node.
fn are_one_each(hellos: &[Hello]) -> bool
    ensures { IsTrue result ↔ AreOneEach hellos.now }
{
    if hellos.len() > MOST_NODES {
        return false;
    }
    for (place, hello) in hellos.iter().enumerate() {
        if is_among(hello.node, &hellos[..place]) {
            return false;
        }
    }
    true
}

/// Whether one of the HELLOs is of the node.
pub(crate) fn is_among(node: u16, hellos: &[Hello]) -> bool
    ensures { IsTrue result ↔ SaidHello node hellos.now }
{
    hellos.iter().any(|hello| hello.node == node)
}

/// Whether all run the same versions.
fn agree_on_versions(hellos: &[Hello]) -> bool
    ensures { IsTrue result ↔ AgreeOnVersions hellos.now }
{
    hellos.iter().all(|hello| all_run(hello.versions, hellos))
}

/// Whether all run these versions.
fn all_run(versions: Versions, hellos: &[Hello]) -> bool
    ensures { IsTrue result ↔ AllRun versions hellos.now }
{
    hellos.iter().all(|hello| hello.versions == versions)
}

/// Whether all configurations and states have the same votes.
fn agree_on_votes(hellos: &[Hello]) -> bool
    ensures { IsTrue result ↔ AgreeOnVotes hellos.now }
{
    hellos
        .iter()
        .all(|hello| all_vote(hello.electorate, hellos))
}

/// Whether all configurations and states have these votes.
fn all_vote(electorate: Electorate, hellos: &[Hello]) -> bool
    ensures { IsTrue result ↔ All (HasElectorate electorate) hellos.now }
{
    hellos.iter().all(|hello| {
        hello.electorate == electorate && (!hello.has_state || hello.state.electorate == electorate)
    })
}

/// Whether so many votes are more than half of the expected ones.
fn is_majority(hellos: &[Hello], votes: u64) -> bool
    requires { votes < 2 ^ 48 }
    ensures { IsTrue result ↔ IsMajority hellos.now votes }
{
    hellos
        .iter()
        .any(|hello| u64::from(hello.electorate.expected) < votes * 2)
}

/// The least view of the ring that is after each that a member knows of.
fn next_view(ring: u64, hellos: &[Hello]) -> Option<View>
    ensures { MatchOption result (HasNoNext ring hellos.now) (IsNext ring hellos.now) }
{
    let mut view = View { ring, count: 0 };
    for hello in hellos {
        view = view.next_from(hello.latest())?;
    }
    Some(view)
}

/// What members that can decide come to: the view begins with none, or goes on.
fn go_on(view: View, hellos: &[Hello]) -> Decision
    requires { length hellos.now ≤ 2 ^ 16 }
    ensures { GoesFrom view hellos.now result }
{
    let Some(latest) = base::latest(hellos) else {
        return Decision::Begins(view);
    };
    if !is_majority(hellos, Voters::Of(latest).votes(hellos)) {
        return Decision::Begins(view);
    }
    if !are_alike(latest, hellos) {
        return Decision::NoView(Reason::Diverged(latest));
    }
    match base::base_of(hellos, latest) {
        Some(base) => Decision::GoesOn(view, base),
        None => unreachable!(),
    }
}

/// Whether logs and tables agree of those that tell a state of the view.
fn are_alike(view: View, hellos: &[Hello]) -> bool
    ensures { IsTrue result ↔ AgreeOnState view hellos.now }
{
    tables::are_alike(Trace::Log, view, hellos) && tables::are_alike(Trace::Applied, view, hellos)
}
