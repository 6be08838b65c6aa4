//! What is looked for.
ghost use Rattle.std.specs.Prelude.{◌≡◌, true};
ghost use Rattle.arrival_list.specs.Arrivals.{items_of};

use crate::arrived::{Arrived, Counted};
use summary_tree::{Query, Summary, Walk};

/// Any item.
#[derive(Clone, Copy)]
pub(crate) struct Any;

impl<T: Copy, S: Summary<T> + Copy> Query<Arrived<T>, Counted<S>> for Any {
    ghost hits = { λ _ _. true };

    fn hits(&self, _arrived: &Arrived<T>) -> bool {
        true
    }

    fn may_hit(&self, _counted: &Counted<S>) -> bool {
        true
    }
}

/// What another query or walk asks of the items alone.
#[derive(Clone, Copy)]
pub(crate) struct Inner<Q: Copy>(pub(crate) Q);

impl<T: Copy, S: Summary<T> + Copy, Q: Query<T, S> + Copy> Query<Arrived<T>, Counted<S>>
    for Inner<Q> {
    ghost hits = { λ query arrived. Q.hits query.0 arrived.item };

    fn hits(&self, arrived: &Arrived<T>) -> bool {
        self.0.hits(&arrived.item)
    }

    fn may_hit(&self, counted: &Counted<S>) -> bool {
        self.0.may_hit(&counted.summary)
    }
}

impl<T: Copy, S: Summary<T> + Copy, F, W: Walk<T, S, F> + Copy> Walk<Arrived<T>, Counted<S>, F>
    for Inner<W> {
    ghost gathers = { λ walk found seen. W.gathers walk.0 found (items_of seen) };

    fn see(&self, found: &mut F, arrived: &Arrived<T>) {
        self.0.see(found, &arrived.item);
    }

    fn see_all(&self, found: &mut F, counted: &Counted<S>) -> bool {
        self.0.see_all(found, &counted.summary)
    }
}
