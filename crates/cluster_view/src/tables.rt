//! Logs and tables that can't differ, and do.
ghost use Rattle.std.specs.Prelude.{◌≡◌, ◌↔◌, ◌≤◌, ◌^◌, length, IsTrue};
ghost use Rattle.cluster_view.specs.Tables.{AgreeWith, AreAlike, differs_from, IsOutvoted, mark_of};

use crate::hello::{Hello, Mark};
use crate::view::View;
use crate::votes::Voters;

/// What members of one view are compared by.
#[derive(Clone, Copy, Debug, PartialEq, Eq)]
pub(crate) enum Trace {
    /// All of the log.
    Log,
    /// What the table has of it.
    Applied,
}

impl Trace {
    /// What the member tells of it.
    pub(crate) fn of(self, hello: &Hello) -> Mark
        ensures { result ≡ mark_of self hello.now }
    {
        match self {
            Trace::Log => hello.state.log,
            Trace::Applied => hello.state.applied,
        }
    }
}

impl Mark {
    /// Whether it is as long as the other, with another digest.
    pub(crate) fn differs(self, other: Mark) -> bool
        ensures { result ≡ differs_from self other }
    {
        self.length == other.length && self.digest != other.digest
    }
}

/// Whether of the members that tell a state of the view those agree that have as much.
pub(crate) fn are_alike(trace: Trace, view: View, hellos: &[Hello]) -> bool
    ensures { IsTrue result ↔ AreAlike trace view hellos.now }
{
    hellos.iter().all(|hello| agrees(trace, view, trace.of(hello), hellos) || !hello.tells(view))
}

/// Whether no member that tells a state of the view differs from the mark.
fn agrees(trace: Trace, view: View, mark: Mark, hellos: &[Hello]) -> bool
    ensures { IsTrue result ↔ AgreeWith trace view mark hellos.now }
{
    hellos.iter().all(|hello| !(hello.tells(view) && trace.of(hello).differs(mark)))
}

/// Whether others differ from the mark, and those that agree with it have no more votes.
pub(crate) fn is_outvoted(trace: Trace, view: View, mark: Mark, hellos: &[Hello]) -> bool
    requires { length hellos.now ≤ 2 ^ 16 }
    ensures { IsTrue result ↔ IsOutvoted trace view mark hellos.now }
{
    !agrees(trace, view, mark, hellos)
        && Voters::With(trace, view, mark).votes(hellos)
            <= Voters::Against(trace, view, mark).votes(hellos)
}
