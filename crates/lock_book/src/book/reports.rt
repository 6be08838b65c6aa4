//! All that is held on a file.
ghost use Rattle.std.specs.Prelude.{◌≡◌, true, IfOk, OnOk, All};
ghost use Rattle.range_core.specs.Ranges.{IsByteRange};
ghost use Rattle.owner_runs.specs.Lists.{modes_of};
ghost use Rattle.lock_book.specs.Reports.{AddsOwnerLocks, AreByteLocks, AreFlockLocks, IsFileReport, IsFlockLine};
ghost use Rattle.lock_book.specs.Books.{byte_modes_of, flock_modes_of};
ghost use Rattle.lock_book.specs.Changes.{whole_file};

use super::Book;
use crate::{Held, Owner};
use owner_runs::OwnerRuns;
use range_core::{Memory, Mode, Span};

impl Book {
    /// All locks on the file, whose number is only written down: owners rising, the runs of each rising, and then the
    /// flock locks by description (this project's choice).
    pub fn held(&self, file: u8) -> Result<Vec<Held>, Memory>
        ensures report { IfOk result (λ report. IsFileReport file (byte_modes_of self.now) (flock_modes_of self.now) report.items) }
        ensures ranges { IfOk result (λ report. All (λ line. IsByteRange line.span) report.items) }
    {
        let mut report = self.held_bytes(file)?;
        report.append(&mut self.held_flocks(file)?)?;
        Ok(report)
    }

    /// The byte locks, by owner and then by first byte.
    fn held_bytes(&self, file: u8) -> Result<Vec<Held>, Memory>
        ensures locks { IfOk result (λ locks. AreByteLocks file (byte_modes_of self.now) locks.items) }
        ensures ranges { IfOk result (λ locks. All (λ line. IsByteRange line.span) locks.items) }
    {
        let mut locks = Vec::new(self.alloc);
        for (owner, list) in self.owners.iter() {
            push_runs(&mut locks, file, *owner, list)?;
        }
        Ok(locks)
    }

    /// The flock locks, by description.
    fn held_flocks(&self, file: u8) -> Result<Vec<Held>, Memory>
        ensures { IfOk result (λ locks. AreFlockLocks file (flock_modes_of self.now) locks.items) }
    {
        let mut locks = Vec::new(self.alloc);
        for (description, place) in self.flocks.places() {
            let Some(mode) = *place else { continue };
            locks.push(flock_line(file, *description, mode))?;
        }
        Ok(locks)
    }
}

/// The line of a flock lock.
fn flock_line(file: u8, description: u64, mode: Mode) -> Held
    ensures { result ≡ record { file = file; whole = true; owner = Owner.Description description; mode = mode; span = whole_file } }
{
    Held {
        file,
        whole: true,
        owner: Owner::Description(description),
        mode,
        span: Span::WHOLE_FILE,
    }
}

/// Appends the runs of one owner, by first byte.
fn push_runs(locks: &mut Vec<Held>, file: u8, owner: Owner, list: &OwnerRuns) -> Result<(), Memory>
    ensures { OnOk result (AddsOwnerLocks file owner (modes_of list.now) locks.old.items locks.new.items) }
{
    for (mode, span) in list.runs() {
        locks.push(Held {
            file,
            whole: false,
            owner,
            mode,
            span,
        })?;
    }
    Ok(())
}
