//! The runs that reach a lock that is wanted.
ghost use Rattle.std.specs.Prelude.{◌≡◌, List};
ghost use Rattle.std.specs.List.{list_any};
ghost use Rattle.interval_index.specs.declared.Run.{Run};
ghost use Rattle.interval_index.specs.Leasts.{IsLeastOf};
ghost use Rattle.interval_index.specs.Reaching.{Tells};
ghost use Rattle.interval_index.specs.Tests.{reaches_lock};

use crate::least::{is_as_early, lesser};
use crate::reach::Reaches;
use crate::{Holder, Run};
use range_core::Mode;
use summary_tree::{Query, Walk};

/// A run of another owner that ends at the byte or behind it, and whose mode conflicts.
#[derive(Clone, Copy)]
pub(crate) struct Reaching {
    pub(crate) holder: Holder,
    pub(crate) byte: u64,
    pub(crate) wanted: Mode,
}

impl Query<Run, Reaches> for Reaching {
    ghost hits = { λ query run. reaches_lock query.holder query.byte query.wanted run };

    fn hits(&self, run: &Run) -> bool {
        self.wanted.conflicts_with(run.mode)
            && self.holder != run.holder()
            && self.byte <= run.span.last
    }

    // It passes over all that has no such run, so a search goes down one path.
    fn may_hit(&self, reaches: &Reaches) -> bool
        ensures { (runs : List Run) → Tells reaches.now runs → result ≡ list_any (reaches_lock self.now.holder self.now.byte self.now.wanted) runs }
    {
        reaches
            .conflicting(self.wanted)
            .reaches(self.holder, self.byte)
    }
}

impl Walk<Run, Reaches, Option<Holder>> for Reaching {
    ghost gathers = { IsLeastOf };

    fn see(&self, least: &mut Option<Holder>, run: &Run) {
        if self.hits(run) {
            *least = lesser(*least, Some(run.holder()));
        }
    }

    // It passes by what has no lesser owner. Where readers conflict too, the least owner of runs that all reach the byte is it.
    fn see_all(&self, least: &mut Option<Holder>, reaches: &Reaches) -> bool {
        if !self.may_hit(reaches) {
            return true;
        }
        let other = reaches.least.other_than(self.holder);
        if is_as_early(*least, other) {
            return true;
        }
        if self.wanted.conflicts_with(Mode::Read) && self.byte <= reaches.least.last() {
            *least = other;
            return true;
        }
        false
    }
}
