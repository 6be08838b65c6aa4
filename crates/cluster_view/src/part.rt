//! What a member does.
ghost use Rattle.std.specs.Prelude.{◌≡◌, ◌↔◌, ◌≤◌, ◌^◌, length, IsTrue};
ghost use Rattle.cluster_view.specs.Parts.{IsPart, place_in, Withdrawn};

use crate::base::Base;
use crate::decision::{Decision, Reason};
use crate::hello::Hello;
use crate::tables::{self, Trace};
use crate::view::View;

/// What a member does (this project's choice).
#[derive(Clone, Copy, Debug, PartialEq, Eq)]
pub enum Part {
    /// There is no view: it keeps what it has, and grants nothing.
    Suspended,
    /// Its log or table differs from others', and those that have the same have no more votes: it leaves the group.
    Withdraws,
    /// It loses its locks, and begins with none.
    BeginsAnew,
    /// It loses its locks, and takes the giver's state; before that has come it has none.
    Takes,
    /// It keeps its locks, and takes the end of the log that it lacks.
    CatchesUp,
    /// It has all of the log.
    HasAll,
    /// The same, and it gives the state to who takes it.
    Gives,
}

/// What the member does that said this HELLO, one of those that came to the decision.
pub fn part_of(decision: Decision, hellos: &[Hello], member: &Hello) -> Part
    requires { length hellos.now ≤ 2 ^ 16 }
    ensures { IsPart decision hellos.now member.now result }
{
    match decision {
        Decision::NoView(Reason::Diverged(view)) if withdraws(view, hellos, member) => {
            Part::Withdraws
        }
        Decision::NoView(_) => Part::Suspended,
        Decision::Begins(_) => Part::BeginsAnew,
        Decision::GoesOn(_, base) => place(base, member),
    }
}

/// Whether the member tells a state of the view with a log or a table that is outvoted.
fn withdraws(view: View, hellos: &[Hello], member: &Hello) -> bool
    requires { length hellos.now ≤ 2 ^ 16 }
    ensures { IsTrue result ↔ Withdrawn view hellos.now member.now }
{
    member.tells(view)
        && (tables::is_outvoted(Trace::Log, view, member.state.log, hellos)
            || tables::is_outvoted(Trace::Applied, view, member.state.applied, hellos))
}

/// What a member does where the view goes on.
fn place(base: Base, member: &Hello) -> Part
    ensures { result ≡ place_in base member.now }
{
    if !member.tells(base.view) {
        Part::Takes
    } else if member.state.log.length < base.log.length {
        Part::CatchesUp
    } else if member.node == base.giver {
        Part::Gives
    } else {
        Part::HasAll
    }
}
