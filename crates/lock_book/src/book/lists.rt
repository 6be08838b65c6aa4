//! The lists of the owners of byte locks on one file.
ghost use Rattle.std.specs.Prelude.{◌≡◌, [], ◌∷◌, None, Some, is_some, IsSome, IfOk, IsOk, OnOk, OnErr, true, false, not, length, nat_lt};
ghost use Rattle.std.specs.List.{filter};
ghost use Rattle.std.specs.Map.{lookup};
ghost use Rattle.std.specs.Option.{option_copied, option_copied_mut};
ghost use Rattle.std.specs.Borrow.{sem};
ghost use Rattle.lock_book.specs.Owners.{is_from, is_same_owner};
ghost use Rattle.lock_book.specs.Kept.{pair_of};
ghost use Rattle.lock_book.specs.OwnerLists.{AreFound, AreRising, PutsFor};

use crate::Owner;
use block_map::{BlockMap, Iter};
use owner_runs::OwnerRuns;
use range_core::Memory;
use std::alloc::Global;
use std::marker::Model;
use std::mem;
use std::ops::Bound;

/// The lists of the owners that have one, seen as the owners with their lists, by owner.
///
/// Almost all files have one owner: its list takes no block of its own.
#[derive(Drop)]
pub struct OwnerLists {
    kept: Kept,
}

impl Model for OwnerLists {
    ghost use Rattle.std.specs.Prelude.{List};
    ghost use Rattle.owner_runs.specs.declared.owner_runs.OwnerRuns.{OwnerRuns};
    ghost use Rattle.lock_book.specs.declared.Owner.{Owner};

    ghost Value = { List (Owner × OwnerRuns) };

    ghost use Rattle.lock_book.specs.Kept.{lists_in};

    ghost view = { λ a. lists_in a.kept };
}

/// How many lists there are, and these.
#[derive(Drop)]
enum Kept {
    Nothing,
    One(OwnedList),
    Many(BlockMap<Owner, OwnerRuns>),
}

/// An owner with its list.
#[derive(Drop)]
struct OwnedList {
    owner: Owner,
    list: OwnerRuns,
}

impl OwnerLists {
    ghost use Rattle.lock_book.specs.Lending.{LendsList};

    /// No list.
    pub fn new() -> OwnerLists
        ensures { result ≡ [] }
    {
        OwnerLists {
            kept: Kept::Nothing,
        }
    }

    /// Whether more owners than so many have a list.
    pub fn has_more_than(&self, limit: usize) -> bool
        ensures { result ≡ nat_lt limit (length self.now) }
    {
        match &self.kept {
            Kept::Nothing => false,
            Kept::One(_) => limit == 0,
            Kept::Many(lists) => lists.has_more_than(limit),
        }
    }

    /// The list of the owner.
    pub fn get(&self, owner: Owner) -> Option<&OwnerRuns>
        ensures { option_copied result ≡ lookup (is_same_owner owner) self.now }
    {
        match &self.kept {
            Kept::Nothing => None,
            Kept::One(one) => {
                if one.owner == owner {
                    Some(&one.list)
                } else {
                    None
                }
            }
            Kept::Many(lists) => lists.get(owner),
        }
    }

    /// The list of the owner, which may be changed.
    pub fn get_mut(&mut self, owner: Owner) -> Option<&mut OwnerRuns>
        ensures* lends { sem 𝓛 (LendsList self.entry owner result) }
        ensures value { option_copied_mut result ≡ lookup (is_same_owner owner) self.old }
    {
        self.kept.get_mut(owner)
    }

    /// Adds the list of an owner that has none.
    ///
    /// `Memory` leaves the lists as they were.
    pub fn add(&mut self, alloc: Global, owner: Owner, list: OwnerRuns) -> Result<(), Memory>
        requires { lookup (is_same_owner owner) self.old ≡ None }
        ensures ok { OnOk result (PutsFor self.old self.new owner (Some list)) }
        ensures err { OnErr result (self.new ≡ self.old) }
    {
        self.add_new(alloc, owner, list)?;
        Ok(())
    }

    /// Adds the list of the owner, where it has none: whether that is so. Where it has one, nothing changes.
    ///
    /// `Memory`, which never comes where it has one, leaves the lists as they were.
    pub fn add_new(&mut self, alloc: Global, owner: Owner, list: OwnerRuns) -> Result<bool, Memory>
        ensures told { IfOk result (λ is_new. is_new ≡ not (is_some (lookup (is_same_owner owner) self.old))) }
        ensures ok { IfOk result (λ is_new. is_new ≡ true → PutsFor self.old self.new owner (Some list)) }
        ensures same { IfOk result (λ is_new. is_new ≡ false → self.new ≡ self.old) }
        ensures there { IsSome (lookup (is_same_owner owner) self.old) → IsOk result }
        ensures err { OnErr result (self.new ≡ self.old) }
    {
        let added = OwnedList { owner, list };
        match &mut self.kept {
            Kept::Nothing => self.kept = Kept::One(added),
            Kept::One(one) => {
                if one.owner == owner {
                    return Ok(false);
                }
                self.kept = Kept::Many(map_of(alloc, one, added)?);
            }
            Kept::Many(lists) => return Ok(lists.insert_new(owner, added.list)?),
        }
        Ok(true)
    }

    /// Takes the list of the owner out. It takes no memory.
    pub fn remove(&mut self, owner: Owner) -> Option<OwnerRuns>
        ensures value { result ≡ lookup (is_same_owner owner) self.old }
        ensures puts { PutsFor self.old self.new owner None }
    {
        match mem::replace(&mut self.kept, Kept::Nothing) {
            Kept::One(one) if one.owner == owner => Some(one.list),
            Kept::Many(mut lists) => {
                let list = lists.remove(owner);
                if !lists.is_empty() {
                    self.kept = Kept::Many(lists);
                }
                list
            }
            kept => {
                self.kept = kept;
                None
            }
        }
    }

    /// The owners with their lists, by owner.
    pub fn iter(&self) -> Lists<'_>
        ensures lists { result ≡ self.now }
        ensures rising { AreRising self.now }
        ensures found { AreFound self.now }
    {
        self.iter_from(Bound::Unbounded)
    }

    /// The owners from this bound on, with their lists, by owner.
    pub fn iter_from(&self, from: Bound<Owner>) -> Lists<'_>
        ensures lists { result ≡ filter (λ one. is_from from one.0) self.now }
        ensures rising { AreRising self.now }
    {
        let left = match &self.kept {
            Kept::Nothing => Left::One(None),
            Kept::One(one) => Left::One(is_owner_from(from, one.owner).then_some(one)),
            Kept::Many(lists) => Left::Many(lists.iter_from(from)),
        };
        Lists { left }
    }
}

impl Kept {
    ghost use Rattle.lock_book.specs.Kept.{LendsKept, lists_in};

    /// The list of the owner, which may be changed.
    fn get_mut(&mut self, owner: Owner) -> Option<&mut OwnerRuns>
        ensures* lends { sem 𝓛 (LendsKept self.entry owner result) }
        ensures value { option_copied_mut result ≡ lookup (is_same_owner owner) (lists_in self.old) }
    {
        match self {
            Kept::Nothing => None,
            Kept::One(one) => {
                if one.owner == owner {
                    return Some(&mut one.list);
                }
                None
            }
            Kept::Many(lists) => lists.get_mut(owner),
        }
    }
}

/// A map of the lists of two owners; that of the first is moved into it.
///
/// `Memory` leaves it where it was.
fn map_of(
    alloc: Global,
    one: &mut OwnedList,
    other: OwnedList,
) -> Result<BlockMap<Owner, OwnerRuns>, Memory>
    requires { is_same_owner other.owner one.old.owner ≡ false }
    ensures ok { IfOk result (λ lists. PutsFor (pair_of one.old ∷ []) lists other.owner (Some other.list)) }
    ensures err { OnErr result (one.new ≡ one.old) }
{
    let mut lists = BlockMap::new(alloc);
    lists.insert(one.owner, OwnerRuns::new(alloc))?;
    lists.insert(other.owner, other.list)?;
    // From here on nothing fails.
    mem::swap(lists.get_mut(one.owner).unwrap(), &mut one.list);
    Ok(lists)
}

/// Whether the owner is at the bound, or behind it.
fn is_owner_from(from: Bound<Owner>, owner: Owner) -> bool
    ensures { result ≡ is_from from owner }
{
    match from {
        Bound::Included(first) => first <= owner,
        Bound::Excluded(last) => last < owner,
        Bound::Unbounded => true,
    }
}

/// Owners with their lists, by owner.
#[derive(Drop)]
pub struct Lists<'a> {
    left: Left<'a>,
}

/// Those that are still to come.
#[derive(Drop)]
enum Left<'a> {
    One(Option<&'a OwnedList>),
    Many(Iter<'a, Owner, OwnerRuns>),
}

impl<'a> Model for Lists<'a> {
    ghost use Rattle.std.specs.Prelude.{List};
    ghost use Rattle.owner_runs.specs.declared.owner_runs.OwnerRuns.{OwnerRuns};
    ghost use Rattle.lock_book.specs.declared.Owner.{Owner};

    ghost Value = { List (Owner × OwnerRuns) };

    ghost use Rattle.lock_book.specs.Kept.{lists_left};

    ghost view = { λ a. lists_left a.left };
}

impl<'a> Iterator for Lists<'a> {
    ghost use Rattle.std.specs.Prelude.{length};
    ghost use Rattle.std.specs.Iterator.{at_most};
    ghost use Rattle.std.specs.Map.Iter.{TakesFirst, deref_pair};

    type Item = (&'a Owner, &'a OwnerRuns);

    ghost next_gives = { TakesFirst deref_pair };

    ghost remaining = { λ lists. at_most (length lists) };

    fn next(&mut self) -> Option<(&'a Owner, &'a OwnerRuns)> {
        match &mut self.left {
            Left::One(one) => {
                let one = one.take()?;
                Some((&one.owner, &one.list))
            }
            Left::Many(lists) => lists.next(),
        }
    }
}
