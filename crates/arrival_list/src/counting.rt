//! How many items there are of those that are looked for.
ghost use Rattle.std.specs.Prelude.{◌≡◌, ◌<◌, ◌^◌, length};
ghost use Rattle.std.specs.List.{filter};

use crate::arrived::{Arrived, Counted};
use summary_tree::{Query, Summary, Walk};

/// What is counted.
#[derive(Clone, Copy)]
pub(crate) struct Counting<Q: Copy>(pub(crate) Q);

impl<T: Copy, S: Summary<T> + Copy, Q: Query<Arrived<T>, Counted<S>> + Copy> Walk<
    Arrived<T>,
    Counted<S>,
    u64,
> for Counting<Q> {
    ghost gathers = { λ counting count seen. length seen < 2 ^ 64 → count ≡ length (filter (Q.hits counting.0) seen) };

    fn see(&self, count: &mut u64, arrived: &Arrived<T>) {
        if self.0.hits(arrived) {
            *count = count.saturating_add(1);
        }
    }

    fn see_all(&self, _count: &mut u64, counted: &Counted<S>) -> bool {
        !self.0.may_hit(counted)
    }
}
