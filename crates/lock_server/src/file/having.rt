//! What an owner has already of what a request is for.
ghost use Rattle.std.specs.Prelude.{◌↔◌, ℕ, IfNone, IfSome, IsTrue};
ghost use Rattle.owner_runs.specs.Lists.{modes_of};
ghost use Rattle.range_core.specs.Ranges.{Covers, IsByteRange};
ghost use Rattle.lock_server.specs.FileView.{file_state};
ghost use Rattle.lock_server.specs.Lacking.{IsFirstLacking};
ghost use Rattle.lock_server.specs.Settling.{HasAlready, IsAtLeast};

use super::LockFile;
use crate::{Family, Mode, Pending, Span};
use lock_book::Owner;
use owner_runs::OwnerRuns;

#[tactic(auto, unfolding(crate::specs::FileView::file_state))]
impl LockFile {
    /// Whether the owner has already what the wait is for: at least its mode, and of bytes on each of them. It takes no memory.
    pub fn has_already(&self, wait: &Pending) -> bool
        requires { IsByteRange wait.now.span }
        ensures { IsTrue result ↔ HasAlready (file_state self.now) wait.now }
    {
        match wait.family {
            Family::Bytes => self.has_bytes(wait.owner, wait.span, wait.mode),
            Family::Whole => is_at_least(self.flock_mode(wait.owner), wait.mode),
        }
    }

    /// Whether the owner has at least the mode on each byte of the span.
    fn has_bytes(&self, owner: u64, span: Span, mode: Mode) -> bool
        requires { IsByteRange span }
        ensures { IsTrue result ↔ ((byte : ℕ) → Covers span byte → IsAtLeast ((file_state self.now).bytes owner byte) mode) }
    {
        match self.book.list(Owner::Description(owner)) {
            Some(list) => has_throughout(list, span, mode),
            None => false,
        }
    }
}

/// Whether the list has at least the mode on each byte of the span.
fn has_throughout(list: &OwnerRuns, span: Span, mode: Mode) -> bool
    requires { IsByteRange span }
    ensures { IsTrue result ↔ ((byte : ℕ) → Covers span byte → IsAtLeast (modes_of list.now byte) mode) }
{
    first_lacking(list, span, mode).is_none()
}

/// The first byte of the span on which the list hasn't at least the mode.
pub(crate) fn first_lacking(list: &OwnerRuns, span: Span, mode: Mode) -> Option<u64>
    requires { IsByteRange span }
    ensures some { IfSome result (IsFirstLacking (modes_of list.now) span mode) }
    ensures none { IfNone result ((byte : ℕ) → Covers span byte → IsAtLeast (modes_of list.now byte) mode) }
{
    let mut first = span.first;
    while let Some((held, run)) = list.run_at(first) {
        if !is_at_least(Some(held), mode) {
            return Some(first);
        }
        if span.last <= run.last {
            return None;
        }
        first = run.last + 1;
    }
    Some(first)
}

/// Whether what is held, if anything, allows all that the wanted mode does.
fn is_at_least(held: Option<Mode>, wanted: Mode) -> bool
    ensures { IsTrue result ↔ IsAtLeast held wanted }
{
    match held {
        None => false,
        Some(Mode::Read) => wanted == Mode::Read,
        Some(Mode::Write) => true,
    }
}
