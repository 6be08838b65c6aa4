//! Whether an owner waits for itself, in a table that was built up from nothing.
ghost use Rattle.std.specs.Prelude.{ℕ, IfOk, IfSome, IfNone, IsTrue, MatchOption, OnOk};
ghost use Rattle.std.specs.BTreeSet.{contains};
ghost use Rattle.std.specs.Ordering.{nat_cmp};
ghost use Rattle.lock_server.specs.Deadlock.{IsFreeOfCycles};
ghost use Rattle.lock_server.specs.Restoring.{IsOnCycle};
ghost use Rattle.lock_server.specs.Searching.{ComesTo, GoesOn, IsAhead, IsTurn};
ghost use Rattle.lock_server.specs.TableView.{table_state};

use super::Table;
use crate::{Memory, Policy};
use std::collections::BTreeSet;

/// How the search goes on from an owner.
enum Turn {
    /// It waits for this one, which is on the path: that is a cycle.
    Closed(u64),
    /// It waits for this one, which is still untried.
    On(u64),
    /// It waits for none of these: there is no cycle through it.
    Back,
}

/// A search in depth: the owners that weren't come to yet, and those on the path from the first to the one that is looked at, each of which
/// waits for the next. Of all others it is known that they are on no cycle.
#[derive(Drop)]
struct Search {
    untried: BTreeSet<u64>,
    path: Vec<u64>,
}

impl Search {
    /// The last owner on the path; where it is empty an untried one begins it.
    fn current(&mut self) -> Result<Option<u64>, Memory>
        ensures some { IfOk result (λ found. IfSome found (ComesTo self.old self.new)) }
        ensures none { IfOk result (λ found. IfNone found ((owner : ℕ) → ¬ IsAhead self.old owner)) }
    {
        if let Some(owner) = self.path.last() {
            return Ok(Some(*owner));
        }
        let Some(owner) = self.untried.pop_first() else {
            return Ok(None);
        };
        self.path.push(owner)?;
        Ok(Some(owner))
    }

    /// How it goes on from an owner that waits for these.
    fn turn(&self, owners: &[u64]) -> Turn
        ensures { IsTurn self.now owners.now result }
    {
        for owner in owners {
            if self.path.contains(owner) {
                return Turn::Closed(*owner);
            }
            if self.untried.contains(owner) {
                return Turn::On(*owner);
            }
        }
        Turn::Back
    }

    /// The untried owner comes behind those on the path.
    fn go_on(&mut self, owner: u64) -> Result<(), Memory>
        requires { IsTrue (contains nat_cmp self.old.untried owner) }
        ensures { OnOk result (GoesOn self.old self.new owner) }
    {
        self.untried.remove(&owner);
        self.path.push(owner)?;
        Ok(())
    }
}

#[tactic(auto, unfolding(crate::specs::TableView::table_state, crate::specs::TableView::entry_of))]
impl Table {
    /// An owner that isn't crossed and waits for itself, by way of owners that aren't crossed; `None` where there is none (POSIX.1-2017
    /// fcntl, `EDEADLK`).
    pub fn owner_on_cycle(&self, policy: Policy) -> Result<Option<u64>, Memory>
        ensures { IfOk result (λ found. MatchOption found (IsFreeOfCycles policy (table_state self.now))
            (IsOnCycle policy (table_state self.now))) }
    {
        let mut search = Search {
            untried: self.waiters.uncrossed()?,
            path: Vec::new(self.alloc),
        };
        while let Some(owner) = search.current()? {
            let mut owners = Vec::new(self.alloc);
            self.add_steps(&mut owners, policy, owner)?;
            match search.turn(&owners) {
                Turn::Closed(owner) => return Ok(Some(owner)),
                Turn::On(next) => search.go_on(next)?,
                Turn::Back => {
                    search.path.pop();
                }
            }
        }
        Ok(None)
    }
}
