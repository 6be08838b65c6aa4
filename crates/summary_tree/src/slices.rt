//! What is asked of items that lie side by side.
ghost use Rattle.std.specs.Prelude.{◌≡◌, ◌++◌, List, None, Some};
ghost use Rattle.std.specs.List.{find, last_or, position_or_len, slice_get};
ghost use Rattle.summary_tree.specs.Cuts.{before, both, unless};

use crate::{Beside, Cut, Query, Summary, Walk};

/// The first item that is looked for.
pub(crate) fn first_where<T: Copy, S: Summary<T>, Q: Query<T, S>>(
    items: &[T],
    query: &Q,
) -> Option<T>
    ensures { result ≡ find (Q.hits query.now) items.now }
{
    for item in items {
        if query.hits(item) {
            return Some(*item);
        }
    }
    None
}

/// The item, if it stands before a place.
pub(crate) fn unless_behind<T: Copy, C: Cut<T>>(item: T, cut: &C) -> Option<T>
    ensures { result ≡ unless (C.is_behind cut.now) (Some item) }
{
    if cut.is_behind(&item) {
        None
    } else {
        Some(item)
    }
}

/// The first item from a place on that is looked for.
pub(crate) fn first_where_from<T: Copy, S: Summary<T>, C: Cut<T>, Q: Query<T, S>>(
    items: &[T],
    cut: &C,
    query: &Q,
) -> Option<T>
    ensures { result ≡ find (both (C.is_behind cut.now) (Q.hits query.now)) items.now }
{
    for item in items {
        if cut.is_behind(item) && query.hits(item) {
            return Some(*item);
        }
    }
    None
}

/// The first item from a place on.
pub(crate) fn first_from<T: Copy, C: Cut<T>>(items: &[T], cut: &C) -> Option<T>
    ensures { result ≡ find (C.is_behind cut.now) items.now }
{
    for item in items {
        if cut.is_behind(item) {
            return Some(*item);
        }
    }
    None
}

/// The first item.
pub(crate) fn first<T: Copy>(items: &[T]) -> Option<T>
    ensures { result ≡ slice_get items.now 0 }
{
    items.first().copied()
}

/// The last item.
pub(crate) fn last<T: Copy>(items: &[T]) -> Option<T>
    ensures { result ≡ last_or None items.now }
{
    items.last().copied()
}

/// The last item before a place, and the first from it on.
pub(crate) fn beside<T: Copy, C: Cut<T>>(items: &[T], cut: &C) -> Beside<T>
    ensures before { result.before ≡ last_or None (before (C.is_behind cut.now) items.now) }
    ensures behind { result.behind ≡ find (C.is_behind cut.now) items.now }
{
    let place = place_of(items, cut);
    Beside {
        before: last(&items[..place]),
        behind: first(&items[place..]),
    }
}

/// Gathers from all items.
pub(crate) fn walk<T: Copy, S: Summary<T>, F, W: Walk<T, S, F>>(
    items: &[T],
    walk: &W,
    found: &mut F,
)
    ensures { (seen : List T) → W.gathers walk.now found.old seen → W.gathers walk.now found.new (seen ++ items.now) }
{
    for item in items {
        walk.see(found, item);
    }
}

/// Gathers from the items before a place.
pub(crate) fn walk_before<T: Copy, S: Summary<T>, C: Cut<T>, F, W: Walk<T, S, F>>(
    items: &[T],
    cut: &C,
    walk: &W,
    found: &mut F,
)
    ensures { (seen : List T) → W.gathers walk.now found.old seen → W.gathers walk.now found.new (seen ++ before (C.is_behind cut.now) items.now) }
{
    for item in items {
        if cut.is_behind(item) {
            return;
        }
        walk.see(found, item);
    }
}

/// How many items stand before the first that stands at a place or behind it.
pub(crate) fn place_of<T: Copy, C: Cut<T>>(items: &[T], cut: &C) -> usize
    ensures { result ≡ position_or_len (C.is_behind cut.now) items.now }
{
    for (place, item) in items.iter().enumerate() {
        if cut.is_behind(item) {
            return place;
        }
    }
    items.len()
}
