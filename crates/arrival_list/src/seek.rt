//! The first place from one on of an item that is looked for.
ghost use Rattle.std.specs.Prelude.{◌≡◌, ◌<◌, ◌^◌, length, slice_get};
ghost use Rattle.arrival_list.specs.Seeking.{HasSought};

use crate::arrived::{Arrived, Counted};
use crate::queries::Any;
use summary_tree::{Query, Summary, Tree, Walk};

/// From which place on, and for what, is looked.
#[derive(Clone, Copy)]
struct Seek<Q: Copy> {
    from: u64,
    query: Q,
}

/// What was found: after so many items nothing, or an item at a place.
#[derive(Clone, Copy)]
pub(crate) enum Sought<T: Copy> {
    Passed(u64),
    Found(u64, Arrived<T>),
}

impl<T: Copy, S: Summary<T> + Copy, Q: Query<Arrived<T>, Counted<S>> + Copy> Walk<
    Arrived<T>,
    Counted<S>,
    Sought<T>,
> for Seek<Q> {
    ghost gathers = { λ seek sought seen. length seen < 2 ^ 64 → HasSought (Q.hits seek.query) seek.from seen sought };

    fn see(&self, sought: &mut Sought<T>, arrived: &Arrived<T>) {
        let Sought::Passed(passed) = *sought else {
            return;
        };
        if self.from <= passed && self.query.hits(arrived) {
            *sought = Sought::Found(passed, *arrived);
        } else {
            *sought = Sought::Passed(passed.saturating_add(1));
        }
    }

    fn see_all(&self, sought: &mut Sought<T>, counted: &Counted<S>) -> bool {
        let Sought::Passed(passed) = *sought else {
            return true;
        };
        let behind = passed.saturating_add(counted.count);
        if behind <= self.from || !self.query.may_hit(counted) {
            *sought = Sought::Passed(behind);
            return true;
        }
        false
    }
}

/// The first place from this one on of an item that is looked for, and that item.
pub(crate) fn seek_in<T: Copy, S: Summary<T> + Copy, Q: Query<Arrived<T>, Counted<S>> + Copy>(
    tree: &Tree<Arrived<T>, Counted<S>>,
    from: u64,
    query: Q,
) -> Sought<T>
    ensures { HasSought (Q.hits query) from tree.now.items result }
{
    let mut sought = Sought::Passed(0);
    // The proof reads from it that the items can be counted.
    let count = tree.len();
    tree.walk(&Seek { from, query }, &mut sought);
    sought
}

/// The item at the place, if there is one.
pub(crate) fn at<T: Copy, S: Summary<T> + Copy>(
    tree: &Tree<Arrived<T>, Counted<S>>,
    place: u64,
) -> Option<Arrived<T>>
    ensures { result ≡ slice_get tree.now.items place }
{
    match seek_in(tree, place, Any) {
        Sought::Found(_, arrived) => Some(arrived),
        Sought::Passed(_) => None,
    }
}
