//! What owners of a range are kept with.
ghost use Rattle.std.specs.Prelude.{◌≡◌, ◌<◌, ◌≤◌, ◌⊎◌, ℕ, false, IfSome, IfNone};
ghost use Rattle.lock_server.specs.HoldingsView.{AreUnkept, behind_owner as behind_owner_of, IsBelow, keeps};
ghost use Rattle.lock_server.specs.Listing.{number_behind};
ghost use Rattle.lock_server.specs.OpeningsView.{IsAbove};

use super::{Holdings, behind};
use crate::owners::Owners;
use std::ops::Bound;

#[tactic(auto)]
impl Holdings {
    /// The least owner that is kept with some file, above this one where one is given.
    pub fn next_owner(&self, above: Option<u64>) -> Option<u64>
        ensures above { IfSome result (λ owner. number_behind above ≤ owner) }
        ensures least { IfSome result (λ owner. (other file : ℕ) → number_behind above ≤ other → other < owner → keeps self.now other file ≡ false) }
        ensures none { IfNone result ((owner file : ℕ) → number_behind above ≤ owner → keeps self.now owner file ≡ false) }
    {
        let (owner, _) = self.next_pair(behind_owner(above))?;
        Some(owner)
    }

    /// The least file with which one of the owners is kept, above this one where one is given. It looks at each of these owners.
    pub fn next_file_of(&self, owners: Owners, above: Option<u64>) -> Option<u64>
        ensures above { IfSome result (λ file. IsAbove above file) }
        ensures least { IfSome result (λ file. (other : ℕ) → IsAbove above other → other < file → AreUnkept self.now owners.first owners.last other) }
        ensures none { IfNone result ((file : ℕ) → IsAbove above file → AreUnkept self.now owners.first owners.last file) }
    {
        let mut least = None;
        let mut before = owners.before();
        while let Some(owner) = self.next_owner(before) {
            if owners.last < owner {
                return least;
            }
            least = lesser(least, self.next_file(owner, above));
            before = Some(owner);
        }
        least
    }

    /// Whether it takes fewer steps to look for each file of these owners ([`Holdings::next_file_of`]) than to go through so many files.
    pub fn are_few(&self, owners: Owners, files: usize) -> bool {
        let mut known: usize = 0;
        let mut pairs: usize = 0;
        let mut last = None;
        for (&(owner, _), _) in self.pairs.iter_from(behind(owners.first, None)) {
            if owner > owners.last {
                return true;
            }
            if pairs == files {
                return false;
            }
            pairs += 1;
            if last != Some(owner) {
                known += 1;
            }
            last = Some(owner);
            if files < known.saturating_mul(pairs) {
                return false;
            }
        }
        true
    }
}

/// Where the pairs of the owners begin that are above this one, where one is given.
fn behind_owner(above: Option<u64>) -> Bound<(u64, u64)>
    ensures { result ≡ behind_owner_of above }
{
    match above {
        None => behind(0, None),
        Some(owner) => behind(owner, Some(u64::MAX)),
    }
}

/// The lesser of the two numbers; where there is one, that one.
fn lesser(one: Option<u64>, other: Option<u64>) -> Option<u64>
    ensures either { (result ≡ one) ⊎ (result ≡ other) }
    ensures least { (number : ℕ) → IsBelow result number → IsBelow one number × IsBelow other number }
{
    match (one, other) {
        (Some(first), Some(second)) => Some(first.min(second)),
        (None, _) => other,
        (_, None) => one,
    }
}
