//! Votes that are counted.
ghost use Rattle.std.specs.Prelude.{◌≡◌, ◌<◌, ◌≤◌, ◌^◌, length};
ghost use Rattle.cluster_view.specs.Voters.{is_voter};
ghost use Rattle.cluster_view.specs.Votes.{votes_of};

use crate::hello::{Hello, Mark};
use crate::tables::Trace;
use crate::view::View;

/// Whose votes are counted.
#[derive(Clone, Copy, Debug, PartialEq, Eq)]
pub(crate) enum Voters {
    /// All members'.
    All,
    /// Of those that tell a state of the view.
    Of(View),
    /// Of those of them that have as much as the mark, with the same digest.
    With(Trace, View, Mark),
    /// Of those of them that have as much, with another digest.
    Against(Trace, View, Mark),
}

impl Voters {
    /// The votes of those of the members.
    pub(crate) fn votes(self, hellos: &[Hello]) -> u64
        requires { length hellos.now ≤ 2 ^ 16 }
        ensures votes { result ≡ votes_of (is_voter self) hellos.now }
        ensures few { result < 2 ^ 48 }
    {
        let mut votes = 0;
        for hello in hellos {
            if self.has(hello) {
                votes += u64::from(hello.votes);
            }
        }
        votes
    }

    /// Whether the member is one of them.
    fn has(self, hello: &Hello) -> bool
        ensures { result ≡ is_voter self hello.now }
    {
        match self {
            Voters::All => true,
            Voters::Of(view) => hello.tells(view),
            Voters::With(trace, view, mark) => hello.tells(view) && trace.of(hello) == mark,
            Voters::Against(trace, view, mark) => {
                hello.tells(view) && trace.of(hello).differs(mark)
            }
        }
    }
}
