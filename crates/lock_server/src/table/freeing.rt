//! Which waits on a file a change may free, where each is blocked before it.
ghost use Rattle.std.specs.Prelude.{None};
ghost use Rattle.range_core.specs.Ranges.{IsByteRange};
ghost use Rattle.lock_server.specs.Files.{ClearsBytes, SetsFlock};
ghost use Rattle.lock_server.specs.Freed.{Frees, SetFrees};
ghost use Rattle.lock_server.specs.TableView.{table_state};

use super::Table;
use crate::freed::Freed;
use crate::{Mode, Policy, Span};

#[tactic(auto, unfolding(crate::specs::TableView::table_state, crate::specs::TableView::entry_of))]
impl Table {
    /// Which waits on the file a set of the owner's mode on the span, or an unlock, may free.
    pub fn freed_by_set(
        &self,
        policy: Policy,
        file: u64,
        owner: u64,
        span: Span,
        mode: Option<Mode>,
    ) -> Freed
        requires { IsByteRange span }
        ensures { SetFrees policy ((table_state self.now).files file) owner span mode result }
    {
        match self.files.get(&file) {
            Some(locks) => locks.freed_by_set(policy, owner, span, mode),
            None => Freed::Anybody,
        }
    }

    /// Which waits on the file a release of the owner's byte locks may free.
    pub fn freed_by_release(&self, file: u64, owner: u64) -> Freed
        ensures { (policy : Policy) → Frees policy ((table_state self.now).files file) (ClearsBytes ((table_state self.now).files file) owner) result }
    {
        match self.files.get(&file) {
            Some(locks) => locks.freed_by_release(owner),
            None => Freed::Anybody,
        }
    }

    /// Which waits on the file a release of the owner's flock lock may free.
    pub fn freed_by_flock_release(&self, file: u64, owner: u64) -> Freed
        ensures { (policy : Policy) → Frees policy ((table_state self.now).files file) (SetsFlock ((table_state self.now).files file) owner None) result }
    {
        match self.files.get(&file) {
            Some(locks) => locks.freed_by_flock_release(owner),
            None => Freed::Anybody,
        }
    }
}
