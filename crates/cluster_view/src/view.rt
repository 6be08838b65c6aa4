//! The numbers of views.
ghost use Rattle.std.specs.Prelude.{◌↔◌, IsTrue, MatchOption};
ghost use Rattle.cluster_view.specs.Views.{IsAtEnd, IsBefore, IsNextFrom};

/// The number of a view; all zero is that of none (this project's choice).
#[repr(C)]
#[derive(Clone, Copy, Debug, Default, PartialEq, Eq)]
pub struct View {
    /// The number of the ring, which rises with each ring that a node is in.
    pub ring: u64,
    /// Which of the ring's views it is.
    pub count: u64,
}

impl View {
    /// Whether it comes before the other: by the ring, and within one by the count.
    pub fn is_before(self, other: View) -> bool
        ensures { IsTrue result ↔ IsBefore self other }
    {
        self.ring < other.ring || self.ring == other.ring && self.count < other.count
    }

    /// The least view of the ring from this one on that is after the known one, or none: the known one is of a later ring, or the last of
    /// this one.
    pub(crate) fn next_from(self, known: View) -> Option<View>
        ensures { MatchOption result (IsAtEnd self.ring known) (IsNextFrom self known) }
    {
        if known.is_before(self) {
            return Some(self);
        }
        if known.ring != self.ring {
            return None;
        }
        let count = known.count.checked_add(1)?;
        Some(View {
            ring: self.ring,
            count,
        })
    }
}
