//! What a member says as the ring or the group changes.
ghost use Rattle.std.specs.Prelude.{◌≡◌, ◌↔◌, IsTrue};
ghost use Rattle.cluster_view.specs.Hellos.{known_of, tells};

use crate::view::View;

/// How long a log is, or how much of it was applied, and a digest: of the log, or of the table there (this project's choice).
#[repr(C)]
#[derive(Clone, Copy, Debug, Default, PartialEq, Eq)]
pub struct Mark {
    /// The number of entries.
    pub length: u64,
    /// The digest.
    pub digest: u64,
}

/// The votes of all nodes (votequorum(5), `expected_votes`, `quorum_votes`).
#[repr(C)]
#[derive(Clone, Copy, Debug, Default, PartialEq, Eq)]
pub struct Electorate {
    /// A digest of the votes of each node of the configuration.
    pub digest: u64,
    /// How many votes are expected.
    pub expected: u32,
}

/// The versions of the table, which decides what calls answer, and of the protocol (this project's choice).
#[repr(C)]
#[derive(Clone, Copy, Debug, Default, PartialEq, Eq)]
pub struct Versions {
    /// That of the table.
    pub table: u32,
    /// That of the protocol.
    pub protocol: u32,
}

/// A state that a member has.
#[repr(C)]
#[derive(Clone, Copy, Debug, Default, PartialEq, Eq)]
pub struct State {
    /// The view that it is of.
    pub view: View,
    /// All of its log.
    pub log: Mark,
    /// What the table has of it.
    pub applied: Mark,
    /// The votes that it began with.
    pub electorate: Electorate,
}

/// What a member says as the ring or the group changes.
#[repr(C)]
#[derive(Clone, Copy, Debug, Default, PartialEq, Eq)]
pub struct Hello {
    /// Its state; read only where it has one.
    pub state: State,
    /// The latest view that its process decided, with a state or without.
    pub known: View,
    /// The votes of all nodes, as its configuration has them.
    pub electorate: Electorate,
    /// Its own votes.
    pub votes: u32,
    /// The versions that it runs.
    pub versions: Versions,
    /// Its node.
    pub node: u16,
    /// Whether it has a state.
    pub has_state: bool,
}

impl Hello {
    /// Whether it tells a state of this view.
    pub(crate) fn tells(&self, view: View) -> bool
        ensures { result ≡ tells view self.now }
    {
        self.has_state && self.state.view == view
    }

    /// The latest view that it knows of: the one that its process decided last, or that of its state.
    pub(crate) fn latest(&self) -> View
        ensures { result ≡ known_of self.now }
    {
        if self.has_state && self.known.is_before(self.state.view) {
            self.state.view
        } else {
            self.known
        }
    }
}
