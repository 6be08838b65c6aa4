//! Trees of numbers that grow and shrink at their ends, and what a refused growth leaves. That items come and go in the midst the
//! tests of `interval_index` try beside a list.
ghost use Rattle.std.specs.Prelude.{true, false};
ghost use Rattle.std.specs.Bool.{nat_le};

use range_core::Memory;
use std::fmt::Debug;
use std::process::Abort;
use std::test::Fail;
use summary_tree::{Cut, Query, Summary, Tree, Walk};

/// How many numbers there are, and their sum.
#[derive(Clone, Copy, Debug, PartialEq, Eq)]
struct Total {
    count: u64,
    sum: u64,
}

impl Summary<u64> for Total {
    ghost tells = { λ _ _. Unit {0} };

    fn none() -> Total {
        Total { count: 0, sum: 0 }
    }

    fn add(&mut self, number: &u64) {
        self.count = self.count.wrapping_add(1);
        self.sum = self.sum.wrapping_add(*number);
    }

    fn leave(&mut self, number: &u64) -> bool {
        self.count = self.count.wrapping_sub(1);
        self.sum = self.sum.wrapping_sub(*number);
        // (now and then all is told anew)
        *number % 3 != 0
    }

    fn append(&mut self, more: &Total) {
        self.count = self.count.wrapping_add(more.count);
        self.sum = self.sum.wrapping_add(more.sum);
    }
}

/// Numbers from this one on.
#[derive(Clone, Copy)]
struct From(u64);

impl Query<u64, Total> for From {
    ghost hits = { λ query number. nat_le query.0 number };

    fn hits(&self, number: &u64) -> bool {
        self.0 <= *number
    }

    fn may_hit(&self, _total: &Total) -> bool {
        true
    }
}

/// The place before all numbers.
#[derive(Clone, Copy)]
struct Front;

impl Cut<u64> for Front {
    ghost is_behind = { λ _ _. true };

    fn is_behind(&self, _number: &u64) -> bool {
        true
    }
}

/// The place behind them.
#[derive(Clone, Copy)]
struct Back;

impl Cut<u64> for Back {
    ghost is_behind = { λ _ _. false };

    fn is_behind(&self, _number: &u64) -> bool {
        false
    }
}

/// What was gathered, and in how many steps.
#[derive(Drop)]
struct Gathered {
    total: Total,
    steps: u64,
}

/// It takes the summaries of so many numbers at most, so that it goes down too.
struct Gathering {
    most: u64,
}

impl Walk<u64, Total, Gathered> for Gathering {
    ghost gathers = { λ _ _ _. Unit {0} };

    fn see(&self, found: &mut Gathered, number: &u64) {
        found.total.add(number);
        found.steps = found.steps.wrapping_add(1);
    }

    fn see_all(&self, found: &mut Gathered, total: &Total) -> bool {
        found.steps = found.steps.wrapping_add(1);
        if total.count > self.most {
            return false;
        }
        found.total.append(total);
        true
    }
}

/// What a walk gathers, and whether it took fewer than so many steps.
fn gather(tree: &Tree<u64, Total>, steps: u64) -> (Total, bool) {
    let mut gathered = Gathered {
        total: Total::none(),
        steps: 0,
    };
    tree.walk(&Gathering { most: 1000 }, &mut gathered);
    (gathered.total, gathered.steps < steps)
}

/// The two are the same.
fn same<T: PartialEq + Debug + Drop>(rt: &impl Abort, left: T, right: T) {
    assert_eq!(rt; left, right);
}

/// The sum of the numbers below one.
fn sum_below(count: u64) -> u64 {
    count.wrapping_mul(count.wrapping_sub(1)) / 2
}

/// Puts a number behind all others.
#[tactic(auto, using(crate::proofs::Ends::cut_nowhere))]
fn push_back(rt: &impl Abort, tree: &mut Tree<u64, Total>, number: u64) {
    assert!(rt; tree.room() > 0);
    tree.put(&Back, number);
}

/// Puts a number before all others.
#[tactic(auto, using(crate::proofs::Ends::cut_everywhere))]
fn push_front(rt: &impl Abort, tree: &mut Tree<u64, Total>, number: u64) {
    assert!(rt; tree.room() > 0);
    tree.put(&Front, number);
}

/// Takes out the first number.
#[tactic(auto, using(crate::proofs::Ends::cut_everywhere))]
fn pop_front(tree: &mut Tree<u64, Total>) -> Option<u64> {
    tree.take(&Front)
}

/// The numbers below this one are taken out from the front, and then none is left.
fn pop_all(rt: &impl Abort, tree: &mut Tree<u64, Total>, count: u64) {
    for number in 0..count {
        same(rt, pop_front(tree), Some(number));
        same(rt, tree.len(), count.wrapping_sub(number).wrapping_sub(1));
    }
    same(rt, pop_front(tree), None);
    same(rt, (tree.len(), tree.depth()), (0, 0));
}

/// Numbers are put behind one another, with room for one at a time.
fn rise(rt: &impl Abort, tree: &mut Tree<u64, Total>) -> Result<(), Memory> {
    for number in 0..20000u64 {
        tree.reserve(1)?;
        same(rt, tree.room(), 1);
        push_back(rt, tree, number);
        same(rt, tree.room(), 0);
    }
    Ok(())
}

/// What stands before all numbers and behind them.
#[tactic(auto, using(crate::proofs::Ends::cut_everywhere, crate::proofs::Ends::cut_nowhere))]
fn has_ends(rt: &impl Abort, tree: &Tree<u64, Total>, first: Option<u64>, last: Option<u64>) {
    let front = tree.beside(&Front);
    same(rt, (front.before, front.behind), (None, first));
    let back = tree.beside(&Back);
    same(rt, (back.before, back.behind), (last, None));
}

/// What the tree then tells.
fn tells_of_all(rt: &impl Abort, tree: &Tree<u64, Total>) {
    same(rt, tree.len(), 20000);
    // In 417 nodes, since a full block leaves 48 behind: the logarithm of 418 to the base 4/3 is 20.98.
    assert!(rt; tree.depth() <= 20);
    same(rt, tree.first_where(&From(17777)), Some(17777));
    same(rt, tree.first_where(&From(20000)), None);
    has_ends(rt, tree, Some(0), Some(19999));
    let total = Total {
        count: 20000,
        sum: sum_below(20000),
    };
    same(rt, gather(tree, 400), (total, true));
}

#[test]
fn rising_numbers(rt: HostRuntime) -> Result<(), Fail> {
    let tree: &mut Tree<u64, Total> = &mut Tree::new(rt.alloc());
    rise(&rt, tree)?;
    tells_of_all(&rt, tree);
    pop_all(&rt, tree, 20000);
    Ok(())
}

/// Numbers are put before one another, from the one below this on down to 0.
fn fall(rt: &impl Abort, tree: &mut Tree<u64, Total>, count: u64) {
    for number in 0..count {
        push_front(rt, tree, count.wrapping_sub(1).wrapping_sub(number));
    }
    same(rt, tree.room(), 0);
}

/// The tree has the first number from each on.
fn finds_each(rt: &impl Abort, tree: &Tree<u64, Total>) {
    for number in 0..3000u64 {
        same(rt, tree.first_where(&From(number)), Some(number));
    }
}

#[test]
fn falling_numbers_in_room_that_is_held(rt: HostRuntime) -> Result<(), Fail> {
    let tree: &mut Tree<u64, Total> = &mut Tree::new(rt.alloc());
    tree.reserve(3000)?;
    fall(&rt, tree, 3000);
    // In 63 nodes: the logarithm of 64 to the base 4/3 is 14.5.
    assert!(rt; tree.depth() <= 14);
    finds_each(&rt, tree);
    pop_all(&rt, tree, 3000);
    Ok(())
}

/// The node of the only number is kept for the next.
fn come_and_go(rt: &impl Abort, tree: &mut Tree<u64, Total>) {
    for number in 0..1000u64 {
        push_back(rt, tree, number);
        same(rt, pop_front(tree), Some(number));
        same(rt, tree.depth(), 0);
    }
}

/// And the room that is left serves more than one at a time.
#[test]
fn a_number_that_comes_and_goes(rt: HostRuntime) -> Result<(), Fail> {
    let tree: &mut Tree<u64, Total> = &mut Tree::new(rt.alloc());
    tree.reserve(2000)?;
    come_and_go(&rt, tree);
    fall(&rt, tree, 1000);
    same(&rt, tree.len(), 1000);
    Ok(())
}

/// With `--fail-alloc N` one of these growths is refused, and then the tree is as it was.
fn grow(rt: &impl Abort, tree: &mut Tree<u64, Total>) -> Result<(), Memory> {
    for number in 0..70u64 {
        let room = tree.room();
        if tree.reserve(2).is_err() {
            same(rt, (tree.room(), tree.len()), (room, number));
            tree.reserve(2)?;
        }
        push_back(rt, tree, number);
    }
    Ok(())
}

#[test]
fn a_refused_growth_leaves_the_tree_as_it_was(rt: HostRuntime) -> Result<(), Fail> {
    let tree: &mut Tree<u64, Total> = &mut Tree::new(rt.alloc());
    has_ends(&rt, tree, None, None);
    grow(&rt, tree)?;
    same(&rt, tree.len(), 70);
    has_ends(&rt, tree, Some(0), Some(69));
    Ok(())
}
