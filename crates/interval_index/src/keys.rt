//! The places of runs in their order.
ghost use Rattle.std.specs.Prelude.{◌≡◌};
ghost use Rattle.interval_index.specs.Tests.{begins_after, comes_behind, has_key, is_from};

use crate::{Holder, Run};
use summary_tree::Cut;

/// The place of the run with this first byte and this owner.
#[derive(Clone, Copy)]
pub(crate) struct Key {
    pub(crate) first: u64,
    pub(crate) holder: Holder,
}

impl Cut<Run> for Key {
    ghost is_behind = { λ key run. is_from key.first key.holder run };

    fn is_behind(&self, run: &Run) -> bool {
        self.first < run.span.first
            || (self.first == run.span.first
                && (self.holder.class < run.class
                    || (self.holder.class == run.class && self.holder.number <= run.number)))
    }
}

/// The place behind the run with this first byte and this owner.
#[derive(Clone, Copy)]
pub(crate) struct After {
    pub(crate) first: u64,
    pub(crate) holder: Holder,
}

impl Cut<Run> for After {
    ghost is_behind = { λ key run. comes_behind key.first key.holder run };

    fn is_behind(&self, run: &Run) -> bool {
        self.first < run.span.first
            || (self.first == run.span.first
                && (self.holder.class < run.class
                    || (self.holder.class == run.class && self.holder.number < run.number)))
    }
}

/// The place behind the runs that begin at this byte or before it.
#[derive(Clone, Copy)]
pub(crate) struct Beyond(pub(crate) u64);

impl Cut<Run> for Beyond {
    ghost is_behind = { λ key run. begins_after key.0 run };

    fn is_behind(&self, run: &Run) -> bool {
        self.0 < run.span.first
    }
}

impl Run {
    /// Whether the run has this first byte and this owner.
    pub(crate) fn has_key(&self, first: u64, holder: Holder) -> bool
        ensures { result ≡ has_key first holder self.now }
    {
        first == self.span.first && holder == self.holder()
    }
}
