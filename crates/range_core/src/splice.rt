//! Writing over a stretch of a list, and taking out or putting in the rest.
ghost use Rattle.std.specs.Prelude.{◌≡◌, ◌+◌, ◌-◌, ◌≤◌, ◌++◌, ◌∷◌, length, take, drop};
ghost use Rattle.smallvec.specs.SmallVec.{small_vec_len};

use crate::{Mode, Span};
use smallvec::SmallVec;

/// Puts these runs in the place of those from `start` up to `end`, in room that is there: over as many of them as there are,
/// and those behind close up to what stands there, or make room for the rest.
pub fn splice(runs: &mut SmallVec<(Mode, Span), 2>, start: usize, end: usize, put: &[(Mode, Span)])
    requires ordered { start ≤ end }
    requires within { end ≤ small_vec_len runs.old }
    requires room { small_vec_len runs.old + length put.now ≤ runs.old.capacity + (end - start) }
    ensures items { runs.new.items ≡ take start runs.old.items ++ (put.now ++ drop end runs.old.items) }
    ensures capacity { runs.old.capacity ≤ runs.new.capacity }
{
    let (over, added) = put.split_at(put.len().min(end - start));
    let behind = start + over.len();
    runs.as_mut_slice()[start..behind].copy_from_slice(over);
    remove_range(runs, behind, end);
    insert_all(runs, behind, added);
}

/// Removes the runs from `start` up to `end`.
fn remove_range(runs: &mut SmallVec<(Mode, Span), 2>, start: usize, end: usize)
    requires ordered { start ≤ end }
    requires within { end ≤ small_vec_len runs.old }
    ensures items { runs.new.items ≡ take start runs.old.items ++ drop end runs.old.items }
    ensures capacity { runs.old.capacity ≤ runs.new.capacity }
{
    match end - start {
        0 => {}
        1 => {
            runs.remove(start);
        }
        count => {
            let left = runs.len() - count;
            runs.as_mut_slice().copy_within(end.., start);
            runs.truncate(left);
        }
    }
}

/// Inserts these runs before the one that stands `at` this place, in room that is there.
fn insert_all(runs: &mut SmallVec<(Mode, Span), 2>, at: usize, added: &[(Mode, Span)])
    requires within { at ≤ small_vec_len runs.old }
    requires room { small_vec_len runs.old + length added.now ≤ runs.old.capacity }
    ensures items { runs.new.items ≡ take at runs.old.items ++ (added.now ++ drop at runs.old.items) }
    ensures capacity { runs.old.capacity ≤ runs.new.capacity }
{
    for run in added.iter().rev() {
        insert(runs, at, *run);
    }
}

/// Inserts a run before the one that stands `at` this place, in room that is there.
fn insert(runs: &mut SmallVec<(Mode, Span), 2>, at: usize, run: (Mode, Span))
    requires within { at ≤ small_vec_len runs.old }
    requires room { small_vec_len runs.old + 1 ≤ runs.old.capacity }
    ensures items { runs.new.items ≡ take at runs.old.items ++ (run ∷ drop at runs.old.items) }
    ensures capacity { runs.old.capacity ≤ runs.new.capacity }
{
    // (LLVM moves the runs behind in one piece here, and one by one in `SmallVec::insert`)
    runs.push(run).unwrap();
    runs.as_mut_slice()[at..].rotate_right(1);
}
