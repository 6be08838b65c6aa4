//! An ordered collection in a balanced tree that keeps a summary of each subtree, so that what a query looks for is found,
//! and what is asked of many items is told, in a number of steps that grows with the logarithm of their number.
//!
//! A node holds a block of many items, so that an item takes little more room than its own.
#![tactic(auto)]

ghost use Rattle.std.specs.Prelude.{◌≡◌, Bool, true, false, List, [], ◌∷◌, ◌++◌};
ghost use Rattle.std.specs.List.{list_any};

mod block;
mod few;
mod many;
mod places;
mod slices;
mod subtree;
mod tree;

pub use tree::Tree;

/// How many items a block holds at most.
const BLOCK: usize = 64;

/// How many items each part of a full block has at most that was split for one more.
const PART: usize = 48;

/// How many items are put into such a part until it is split, or more.
const PUTS: u64 = 17;

/// What is kept of the items of a subtree.
pub trait Summary<T> {
    /// The summary tells of these items.
    ghost tells: { Self → List T → Type 0 };

    /// That of no item.
    fn none() -> Self
        ensures { tells result [] };

    /// One item more, wherever it stands among the others.
    fn add(&mut self, item: &T)
        ensures { (front back : List T) → tells self.old (front ++ back) → tells self.new (front ++ item.now ∷ back) };

    /// One item less, where what is kept of the others can be told without going to them: where it says no, that isn't told.
    fn leave(&mut self, item: &T) -> bool
        ensures { (front back : List T) → tells self.old (front ++ item.now ∷ back) → result ≡ true → tells self.new (front ++ back) };

    /// The items of another one more, behind the others.
    fn append(&mut self, more: &Self)
        ensures { (items others : List T) → tells self.old items → tells more.now others → tells self.new (items ++ others) };
}

/// What is looked for: a test of items, and a test of summaries that passes over only what has no such item.
///
/// Where the second passes over all that has none, a search goes down one path.
pub trait Query<T, S: Summary<T>> {
    /// Whether the item is one that is looked for.
    ghost hits: { Self → T → Bool };

    /// Whether the item is one that is looked for.
    fn hits(&self, item: &T) -> bool
        ensures { result ≡ hits self.now item.now };

    /// Whether one of the items that the summary tells of may be. It says no only where none is.
    fn may_hit(&self, summary: &S) -> bool
        ensures { (items : List T) → S.tells summary.now items → result ≡ false → list_any (hits self.now) items ≡ false };
}

/// A place in the order of the items: a test that none passes before it, and each from it on.
pub trait Cut<T> {
    /// Whether the item stands at the place or behind it.
    ghost is_behind: { Self → T → Bool };

    /// Whether the item stands at the place or behind it.
    fn is_behind(&self, item: &T) -> bool
        ensures { result ≡ is_behind self.now item.now };
}

/// What stands beside a place.
#[derive(Clone, Copy)]
pub struct Beside<T: Copy> {
    /// The last item before it.
    pub before: Option<T>,
    /// The first item from it on.
    pub behind: Option<T>,
}

/// What is gathered from items that are gone through in order, with a look at summaries, which may tell enough of the
/// items below them. What is asked stays as it is.
pub trait Walk<T, S: Summary<T>, F> {
    /// What was found is that of these items.
    ghost gathers: { Self → F → List T → Type 0 };

    /// Gathers from an item.
    fn see(&self, found: &mut F, item: &T)
        ensures { (seen : List T) → gathers self.now found.old seen → gathers self.now found.new (seen ++ item.now ∷ []) };

    /// Gathers from all items that the summary tells of, if it tells enough of them.
    fn see_all(&self, found: &mut F, summary: &S) -> bool
        ensures all { (seen items : List T) → gathers self.now found.old seen → S.tells summary.now items → result ≡ true → gathers self.now found.new (seen ++ items) }
        ensures none { (seen : List T) → gathers self.now found.old seen → result ≡ false → gathers self.now found.new seen };
}
