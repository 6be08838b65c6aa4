//! The bytes on which a search for a cycle looked for locks.
ghost use Rattle.std.specs.Prelude.{◌≡◌, ◌↔◌, ℕ, Option, None, IfSome, IfNone, OnOk};
ghost use Rattle.range_core.specs.declared.Mode.{Mode};
ghost use Rattle.owner_runs.specs.Lists.{modes_of};
ghost use Rattle.range_core.specs.Ranges.{Covers, HeldConflicts, IsByteRange};
ghost use Rattle.lock_server.specs.Lacking.{IsFirstPartLacking};
ghost use Rattle.lock_server.specs.LookedAt.{looked_modes, NotesLook};
ghost use Rattle.lock_server.specs.Settling.{IsAtLeast};

use crate::file::having::first_lacking;
use crate::{Memory, Mode, Span};
use owner_runs::OwnerRuns;
use std::alloc::Global;
use std::collections::BTreeMap;

/// On which bytes of each file a search looked for the locks that conflict with a read lock (`Read`), or for all locks (`Write`).
#[derive(Drop)]
pub struct LookedAt {
    alloc: Global,
    files: BTreeMap<u64, OwnerRuns>,
}

impl LookedAt {
    /// On none. It takes no memory.
    pub fn new(alloc: Global) -> LookedAt
        ensures { (file byte : ℕ) → looked_modes result file byte ≡ None }
    {
        LookedAt {
            alloc,
            files: BTreeMap::new(alloc),
        }
    }

    /// The first part of the span on which it didn't look for the locks that conflict with this mode; `None` where there is none.
    pub fn first_left(&self, file: u64, span: Span, mode: Mode) -> Option<Span>
        requires { IsByteRange span }
        ensures some { IfSome result (IsFirstPartLacking (looked_modes self.now file) span mode) }
        ensures none { IfNone result ((byte : ℕ) → Covers span byte → IsAtLeast (looked_modes self.now file byte) mode) }
    {
        match self.files.get(&file) {
            Some(looked) => first_part_lacking(looked, span, mode),
            None => Some(span),
        }
    }

    /// It looked on the span of the file for the locks that conflict with this mode.
    pub fn note(&mut self, file: u64, span: Span, mode: Mode) -> Result<(), Memory>
        requires { IsByteRange span }
        ensures { OnOk result (NotesLook self.old self.new file span mode) }
    {
        if let Some(looked) = self.files.get_mut(&file) {
            return looked.set(span, Some(mode));
        }
        let mut looked = OwnerRuns::new(self.alloc);
        looked.set(span, Some(mode))?;
        self.files.insert(file, looked)?;
        Ok(())
    }
}

/// The first part of the span on no byte of which the list has at least the mode.
fn first_part_lacking(looked: &OwnerRuns, span: Span, mode: Mode) -> Option<Span>
    requires { IsByteRange span }
    ensures some { IfSome result (IsFirstPartLacking (modes_of looked.now) span mode) }
    ensures none { IfNone result ((byte : ℕ) → Covers span byte → IsAtLeast (modes_of looked.now byte) mode) }
{
    let first = first_lacking(looked, span, mode)?;
    let rest = Span {
        first,
        last: span.last,
    };
    match looked.first_hit(rest, against(mode)) {
        Some(byte) => Some(Span {
            first,
            last: byte - 1,
        }),
        None => Some(rest),
    }
}

/// The mode with which those conflict that are at least this one.
fn against(mode: Mode) -> Mode
    ensures { (held : Option Mode) → HeldConflicts held result ↔ IsAtLeast held mode }
{
    match mode {
        Mode::Read => Mode::Write,
        Mode::Write => Mode::Read,
    }
}
