//! Items with the order in which they came, and what is kept of many.
ghost use Rattle.std.specs.Prelude.{◌≡◌, ◌<◌, ◌^◌, length, ◌==◌};
ghost use Rattle.std.specs.Bool.{nat_le};
ghost use Rattle.arrival_list.specs.Arrivals.{items_of, is_from, Tells};

use summary_tree::{Cut, Summary};

/// An item, and its arrival: those that came later have greater ones.
#[derive(Clone, Copy)]
pub(crate) struct Arrived<T: Copy> {
    pub(crate) item: T,
    pub(crate) arrival: u64,
}

/// How many items there are, and what else is kept of them.
#[derive(Clone, Copy)]
pub(crate) struct Counted<S: Copy> {
    pub(crate) count: u64,
    pub(crate) summary: S,
}

impl<T: Copy, S: Summary<T> + Copy> Summary<Arrived<T>> for Counted<S> {
    ghost tells = { Tells S.tells };

    fn none() -> Counted<S> {
        Counted {
            count: 0,
            summary: S::none(),
        }
    }

    fn add(&mut self, arrived: &Arrived<T>) {
        self.count = self.count.saturating_add(1);
        self.summary.add(&arrived.item);
    }

    fn leave(&mut self, arrived: &Arrived<T>) -> bool {
        // (so many may be more than can be counted)
        if self.count == u64::MAX {
            return false;
        }
        self.count = self.count.saturating_sub(1);
        self.summary.leave(&arrived.item)
    }

    fn append(&mut self, more: &Counted<S>) {
        self.count = self.count.saturating_add(more.count);
        self.summary.append(&more.summary);
    }
}

/// The place of the item with this arrival.
#[derive(Clone, Copy)]
pub(crate) struct From(pub(crate) u64);

impl<T: Copy> Cut<Arrived<T>> for From {
    ghost is_behind = { λ cut arrived. is_from cut.0 arrived };

    fn is_behind(&self, arrived: &Arrived<T>) -> bool {
        self.0 <= arrived.arrival
    }
}
