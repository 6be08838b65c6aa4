//! Places in the order of the runs.
ghost use Rattle.owner_runs.specs.Tests.{ends_from};

use range_core::{Mode, Span};
use summary_tree::Cut;

/// The place of the first run that ends at this byte or behind it.
#[derive(Clone, Copy)]
pub(crate) struct EndingFrom(pub(crate) u64);

impl Cut<(Mode, Span)> for EndingFrom {
    ghost is_behind = { λ cut run. ends_from cut.0 run };

    fn is_behind(&self, run: &(Mode, Span)) -> bool {
        self.0 <= run.1.last
    }
}
