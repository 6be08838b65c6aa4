//! Books of many owners, and rooms, beyond any plausible cap; and what a refused growth leaves.
ghost use Rattle.std.specs.Prelude.{◌≡◌};

use lock_book::{Blocker, Book, Held, Owner};
use range_core::{Memory, Mode, OFFMAX, Span};
use std::alloc::Global;
use std::fmt::Debug;
use std::process::Abort;
use std::test::Fail;

/// The two are the same.
fn same<T: PartialEq + Debug + Drop>(rt: &impl Abort, left: T, right: T) {
    assert_eq!(rt; left, right);
}

/// The bytes of a range by its first and its last one.
fn bytes(first: u64, last: u64) -> Span
    ensures { (result.first ≡ first) × (result.last ≡ last) }
{
    Span { first, last }
}

/// The line of a byte lock on file 3.
fn byte_line(owner: Owner, mode: Mode, first: u64, last: u64) -> Held {
    Held {
        file: 3,
        whole: false,
        owner,
        mode,
        span: bytes(first, last),
    }
}

/// The line of a flock lock on file 3.
fn flock_line(description: u64, mode: Mode) -> Held {
    Held {
        file: 3,
        whole: true,
        owner: Owner::Description(description),
        mode,
        span: bytes(0, OFFMAX),
    }
}

/// Room and places that are held serve the reserved sets, and more than there can be is refused.
#[test]
fn holds_room_and_places(rt: HostRuntime) -> Result<(), Fail> {
    let mut book = Book::new(rt.alloc());
    let owner = Owner::Description(1);
    book.reserve(owner, 2)?;
    same(&rt, book.reserve(owner, usize::MAX).is_err(), true);
    book.set_reserved(owner, bytes(5, 9), Some(Mode::Write));
    let is_blocked = book.blocked(Owner::Process(1), bytes(9, 9), Mode::Read);
    same(&rt, is_blocked, true);
    book.flock_reserve(1)?;
    book.flock_set_reserved(1, Some(Mode::Read));
    same(&rt, book.flock_mode(1), Some(Mode::Read));
    Ok(())
}

/// A call that may grow.
#[derive(Clone, Copy)]
enum Growth {
    Set(Owner),
    Reserve(Owner),
    FlockSet(u64),
    FlockReserve(u64),
}

impl Growth {
    fn apply(self, book: &mut Book) -> Result<(), Memory> {
        match self {
            Growth::Set(owner) => book.set(owner, bytes(2, 5), Some(Mode::Write)),
            Growth::Reserve(owner) => book.reserve(owner, 100),
            Growth::FlockSet(description) => book.flock_set(description, Some(Mode::Read)),
            Growth::FlockReserve(description) => book.flock_reserve(description),
        }
    }
}

/// What is held, asked once more where memory was refused: then it must be told, for at most one growth is refused in a run.
fn held_again(rt: &impl Abort, book: &Book) -> Result<Vec<Held>, Memory> {
    let first = book.held(3);
    if first.is_ok() {
        return first;
    }
    let second = book.held(3);
    same(rt, ("made again", second.is_ok()), ("made again", true));
    second
}

/// How many changes more the byte locks of process 1 and of description 1 have room for, and whether the flock locks of the
/// descriptions have a place.
fn rooms_of(book: &Book) -> ([usize; 2], [bool; 2]) {
    (
        [Owner::Process(1), Owner::Description(1)].map(|owner| book.room(owner)),
        [1, 2].map(|description| book.flock_room(description)),
    )
}

/// The call is made. Where its growth is refused, as by a test run with one allocation failing, the book is as before and the next try goes
/// through.
fn grow(rt: &impl Abort, book: &mut Book, growth: Growth) -> Result<(), Memory> {
    let before = held_again(rt, book)?;
    let rooms = rooms_of(book);
    if growth.apply(book).is_err() {
        same(rt, held_again(rt, book)?.as_slice(), before.as_slice());
        same(rt, rooms_of(book), rooms);
        let second = growth.apply(book);
        same(rt, ("made again", second), ("made again", Ok(())));
    }
    Ok(())
}

/// Calls in turn, each of which may be refused its growth.
const GROWTHS: &[Growth] = &[
    Growth::Set(Owner::Process(1)),
    Growth::Reserve(Owner::Process(1)),
    Growth::Reserve(Owner::Description(1)),
    Growth::Set(Owner::Description(1)),
    Growth::FlockReserve(1),
    Growth::FlockSet(1),
    Growth::FlockSet(2),
];

/// A refused growth changes nothing, so whichever is refused, the book comes to the same.
#[test]
fn refused_growth_changes_nothing(rt: HostRuntime) -> Result<(), Fail> {
    let mut book = Book::new(rt.alloc());
    for growth in GROWTHS {
        grow(&rt, &mut book, *growth)?;
    }
    let wanted = [
        byte_line(Owner::Process(1), Mode::Write, 2, 5),
        byte_line(Owner::Description(1), Mode::Write, 2, 5),
        flock_line(1, Mode::Read),
        flock_line(2, Mode::Read),
    ];
    same(&rt, held_again(&rt, &book)?.as_slice(), wanted.as_slice());
    same(&rt, book.room(Owner::Process(1)) >= 100, true);
    Ok(())
}

/// Whether a walk over the modes of all descriptions finds one, of another, that conflicts.
fn walk_finds(held: &[Option<Mode>], description: usize, wanted: Mode) -> bool {
    for (other, place) in held.iter().enumerate() {
        if let Some(mode) = *place {
            if other != description && mode.conflicts_with(wanted) {
                return true;
            }
        }
    }
    false
}

/// Whether each description is kept from the wanted mode, and so is one without a lock.
fn walk_finds_for_all(held: &[Option<Mode>], wanted: Mode) -> bool {
    for description in 0..=held.len() {
        if !walk_finds(held, description, wanted) {
            return false;
        }
    }
    true
}

/// The modes of so many descriptions, more than a small limit allows.
type Modes = [Option<Mode>; 700];

/// The descriptions in some order set, change and remove their flock locks.
fn set_flocks(book: &mut Book, held: &mut Modes) -> Result<(), Memory> {
    for turn in 0..1500usize {
        let description = turn * 37 % 700;
        let mode = [
            Some(Mode::Read),
            None,
            Some(Mode::Write),
            Some(Mode::Read),
            None,
        ][turn % 5];
        book.flock_set(description as u64, mode)?;
        held[description] = mode;
    }
    Ok(())
}

/// Whether the description is kept from a mode, and now and then whether all are, is what a walk finds.
fn blocks_as_a_walk(rt: &impl Abort, book: &Book, held: &Modes, description: usize) {
    for wanted in [Mode::Read, Mode::Write] {
        let is_blocked = book.flock_blocked(description as u64, wanted);
        same(rt, is_blocked, walk_finds(held, description, wanted));
        if description % 50 == 0 || description > 690 {
            let blocks_all = book.flock_blocks_all(wanted);
            same(rt, blocks_all, walk_finds_for_all(held, wanted));
        }
    }
}

/// Flock locks of more descriptions than a small limit allows, each set, changed and removed: who is blocked is what a walk
/// over all of them finds.
#[test]
fn counts_flock_locks_as_a_walk_does(rt: HostRuntime) -> Result<(), Fail> {
    let mut book = Book::new(rt.alloc());
    let mut held = [None; 700];
    set_flocks(&mut book, &mut held)?;
    for description in 0..700usize {
        blocks_as_a_walk(&rt, &book, &held, description);
        book.flock_set(description as u64, None)?;
        held[description] = None;
    }
    same(&rt, book.flock_blocked(0, Mode::Write), false);
    same(&rt, book.flock_blocks_all(Mode::Write), false);
    Ok(())
}

/// An owner that has no lock.
const ASKER: Owner = Owner::Process(1);

/// More owners than a small limit allows come, each with a byte of its own.
fn come(book: &mut Book) -> Result<(), Memory> {
    for number in 0..700u64 {
        let owner = Owner::Description(number);
        book.set(owner, bytes(number, number), Some(Mode::Read))?;
    }
    Ok(())
}

/// They go, and each is the first that is in the way until then.
fn go(rt: &impl Abort, book: &mut Book) -> Result<(), Memory> {
    for number in 0..700u64 {
        let owner = Owner::Description(number);
        let blocker = Blocker {
            owner,
            mode: Mode::Read,
            span: bytes(number, number),
        };
        let is_blocked = book.blocked(ASKER, bytes(0, OFFMAX), Mode::Write);
        same(rt, (number, is_blocked), (number, true));
        let first = book.first_blocker(ASKER, bytes(0, OFFMAX), Mode::Write);
        same(rt, first, Some(blocker));
        book.set(owner, bytes(0, OFFMAX), None)?;
        let is_blocked = book.blocked(ASKER, bytes(0, number), Mode::Write);
        same(rt, (number, is_blocked), (number, false));
    }
    Ok(())
}

/// More owners than a small limit allows, each with a byte of its own, that come and go.
#[test]
fn many_owners_come_and_go(rt: HostRuntime) -> Result<(), Fail> {
    let mut book = Book::new(rt.alloc());
    come(&mut book)?;
    same(&rt, book.held(3)?.len(), 700);
    let is_blocked = book.blocked(ASKER, bytes(0, OFFMAX), Mode::Read);
    same(&rt, is_blocked, false);
    go(&rt, &mut book)?;
    same(&rt, book.held(3)?.is_empty(), true);
    Ok(())
}

/// A lock of one owner on one byte.
#[derive(Clone, Copy)]
struct OnByte {
    owner: Owner,
    byte: u64,
    mode: Mode,
}

/// Up to a hundred owners every second one is a process.
fn owner(number: u64) -> Owner {
    if number < 100 && number % 2 == 0 {
        Owner::Process((number % 100) as u8)
    } else {
        Owner::Description(number)
    }
}

/// The next number of a sequence that looks random.
fn next(seed: u64) -> u64 {
    seed.wrapping_mul(6364136223846793005)
        .wrapping_add(1442695040888963407)
}

/// The mode that a number spells.
fn spelled_mode(seed: u64) -> Mode {
    if seed % 3 == 0 {
        Mode::Write
    } else {
        Mode::Read
    }
}

/// The locks without those of the owner on these bytes, and with this mode there.
fn set_plainly(
    alloc: Global,
    locks: &[OnByte],
    owner: Owner,
    span: Span,
    mode: Option<Mode>,
) -> Result<Vec<OnByte>, Memory> {
    let mut rest = Vec::new(alloc);
    for lock in locks {
        if lock.owner != owner || lock.byte < span.first || span.last < lock.byte {
            rest.push(*lock)?;
        }
    }
    if let Some(mode) = mode {
        for byte in span.first..=span.last {
            rest.push(OnByte { owner, byte, mode })?;
        }
    }
    Ok(rest)
}

/// The lock on the least byte that is blocked, of the least owner that blocks there.
fn first_plainly(locks: &[OnByte], owner: Owner, span: Span, mode: Mode) -> Option<OnByte> {
    let mut first: Option<OnByte> = None;
    for lock in locks {
        let conflicts = lock.owner != owner
            && span.first <= lock.byte
            && lock.byte <= span.last
            && (lock.mode == Mode::Write || mode == Mode::Write);
        let is_lower = first.is_none_or(|least| {
            lock.byte < least.byte || (lock.byte == least.byte && lock.owner < least.owner)
        });
        if conflicts && is_lower {
            first = Some(*lock);
        }
    }
    first
}

/// One change of a book, by a set, a reserved set, a close or a release; all but the set leave the owner's place.
fn change(
    rt: &impl Abort,
    book: &mut Book,
    way: u64,
    owner: Owner,
    span: Span,
    mode: Option<Mode>,
) -> Result<(), Memory> {
    assert!(rt; span.first <= span.last && span.last <= OFFMAX);
    match way {
        0 => book.release_owner(owner),
        1 => book.clear_owner(owner),
        2 => {
            book.reserve(owner, 1)?;
            assert!(rt; book.room(owner) >= 1);
            book.set_reserved(owner, span, mode);
        }
        _ => book.set(owner, span, mode)?,
    }
    Ok(())
}

/// A book and a plain list of the same locks, and the number from which the next change is read off.
#[derive(Drop)]
struct Compared {
    book: Book,
    locks: Vec<OnByte>,
    seed: u64,
    alloc: Global,
}

impl Compared {
    fn new(alloc: Global) -> Compared {
        Compared {
            book: Book::new(alloc),
            locks: Vec::new(alloc),
            seed: 88172645463325252,
            alloc,
        }
    }

    /// A lock of the owner on its own byte and some more, as its first.
    fn lock(&mut self, rt: &impl Abort, number: u64) -> Result<(), Memory> {
        assert!(rt; number < 1000);
        let span = bytes(number % 30, number % 30 + number % 3);
        let mode = spelled_mode(number);
        self.book.set(owner(number), span, Some(mode))?;
        self.locks = set_plainly(self.alloc, &self.locks, owner(number), span, Some(mode))?;
        Ok(())
    }

    /// A change that looks random, by one of so many owners.
    fn change(&mut self, rt: &impl Abort, owners: u64) -> Result<(), Memory> {
        assert!(rt; owners > 0);
        self.seed = next(self.seed);
        let who = owner((self.seed >> 33) % owners);
        let first = (self.seed >> 40) % 30;
        let span = bytes(first, first + (self.seed >> 46) % 8);
        let mode = if (self.seed >> 50) % 4 == 0 {
            None
        } else {
            Some(spelled_mode(self.seed >> 53))
        };
        let way = (self.seed >> 56) % 8;
        change(rt, &mut self.book, way, who, span, mode)?;
        self.locks = if way < 2 {
            set_plainly(self.alloc, &self.locks, who, bytes(0, OFFMAX), None)?
        } else {
            set_plainly(self.alloc, &self.locks, who, span, mode)?
        };
        Ok(())
    }

    /// Asks the book and the list who is in the way of a lock that looks random, of one of so many owners.
    fn compare(&mut self, rt: &impl Abort, owners: u64, step: u64) {
        assert!(rt; owners > 0);
        self.seed = next(self.seed);
        let asker = owner((self.seed >> 33) % owners);
        let first = (self.seed >> 40) % 30;
        let asked = bytes(first, first + (self.seed >> 46) % 8);
        let wanted = spelled_mode(self.seed >> 53);
        let least = first_plainly(&self.locks, asker, asked, wanted);
        assert!(rt; asked.first <= asked.last && asked.last <= OFFMAX);
        let is_blocked = self.book.blocked(asker, asked, wanted);
        let blocker = self.book.first_blocker(asker, asked, wanted);
        let are_blocked = (is_blocked, blocker.is_some());
        same(
            rt,
            (step, are_blocked),
            (step, (least.is_some(), least.is_some())),
        );
        if let (Some(blocker), Some(least)) = (blocker, least) {
            let told = (step, blocker.owner, blocker.mode);
            same(rt, told, (step, least.owner, least.mode));
            let has_byte = blocker.span.first <= least.byte && least.byte <= blocker.span.last;
            same(rt, (step, has_byte), (step, true));
        }
        same(rt, self.book.is_empty(), self.locks.is_empty());
    }
}

/// With few owners and with many, who come and go, a book tells who is in the way as a list of all bytes does.
#[test]
fn tells_blockers_as_a_list_does(rt: HostRuntime) -> Result<(), Fail> {
    let mut compared = Compared::new(rt.alloc());
    for step in 0..600u64 {
        // Forty owners at first, then five, then forty again.
        let owners = if step / 200 == 1 { 5 } else { 40 };
        compared.change(&rt, owners)?;
        compared.compare(&rt, 40, step);
    }
    Ok(())
}

/// So it does among 500 owners, as they come and once all have locks.
#[test]
fn tells_blockers_among_500_owners(rt: HostRuntime) -> Result<(), Fail> {
    let mut compared = Compared::new(rt.alloc());
    for number in 0..500u64 {
        compared.lock(&rt, number)?;
        compared.compare(&rt, 500, number);
    }
    for step in 500..1000u64 {
        compared.change(&rt, 500)?;
        compared.compare(&rt, 500, step);
    }
    Ok(())
}
