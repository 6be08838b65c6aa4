//! The bytes of an export, read from the front. No count is trusted before its words are there.
ghost use Rattle.std.specs.Prelude.{◌≡◌, ℕ, ◌*◌, ◌<◌, ◌≤◌, List, [], ◌∷◌, ◌++◌, All, IfOk, OnOk, length, map};
ghost use Rattle.range_core.specs.Ranges.{IsByteRange};
ghost use Rattle.lock_server.specs.Bytes.{conversion_word, family_word, file_words, flag_word, flock_words, listed, lock_words, mode_word, note_words, number_words, policy_word, wait_words};
ghost use Rattle.lock_server.specs.Reading.{Always, IsRead, MayBeTold, MayLock, MayStand, MayWait, Reads, Succeeds, Told, alone, entry_of, head_words, itself, note_of, span_words, told_by, told_words};
ghost use Rattle.lock_server.specs.Words.{AreWords, bytes_of};

use super::fault;
use super::parts::{FilePart, Note, Parts};
use crate::{
    Conversion, Family, Flaw, FlockLock, ImportFault, Lock, Memory, Mode, OFFMAX, Pending, Policy,
    Rules, Span,
};
use std::alloc::Global;

/// The version of the format.
const VERSION: u64 = 1;

/// Reads an export.
pub fn read(alloc: Global, bytes: &[u8]) -> Result<Parts, ImportFault>
    ensures { (told : Told) → AreWords (told_words told) → MayBeTold told → bytes.now ≡ bytes_of (told_words told)
        → Succeeds result (λ parts. told_by parts ≡ told) }
{
    let words = words_of(alloc, bytes)?;
    let mut reader = Reader {
        left: &words,
        offset: 0,
        alloc,
    };
    let parts = reader.parts()?;
    if reader.left.is_empty() && bytes.len() % 8 == 0 {
        Ok(parts)
    } else {
        Err(fault(Flaw::Form, reader.offset))
    }
}

/// The whole words in front of the bytes, each of eight bytes, the lowest first.
fn words_of(alloc: Global, bytes: &[u8]) -> Result<Vec<u64>, Memory>
    ensures { (words : List ℕ) → AreWords words → bytes.now ≡ bytes_of words → IfOk result (λ read. read.items ≡ words) }
{
    let mut words = Vec::new(alloc);
    let mut left = bytes;
    while let Some((word, behind)) = left.split_first_chunk::<8>() {
        put(&mut words, u64::from_le_bytes(*word))?;
        left = behind;
    }
    Ok(words)
}

/// Puts it behind the others.
fn put<T: Drop>(items: &mut Vec<T>, item: T) -> Result<(), Memory>
    ensures { OnOk result (items.new.items ≡ items.old.items ++ item ∷ []) }
{
    items.push(item)?;
    Ok(())
}

/// The words that are left, and at which byte they begin.
#[derive(Drop)]
struct Reader<'a> {
    left: &'a [u64],
    offset: usize,
    alloc: Global,
}

impl Reader<'_> {
    /// All that an export tells.
    fn parts(&mut self) -> Result<Parts, ImportFault>
        ensures { Reads told_by told_words MayBeTold self.old.left.now result self.new.left.now }
    {
        let rules = self.rules()?;
        let files = self.files()?;
        let grants = self.numbers()?;
        let crossed = self.numbers()?;
        let notes = self.notes()?;
        Ok(Parts {
            rules,
            files,
            grants,
            crossed,
            notes,
        })
    }

    /// The version, and the rules.
    fn rules(&mut self) -> Result<Rules, ImportFault>
        ensures { Reads itself head_words Always self.old.left.now result self.new.left.now }
    {
        let offset = self.offset;
        if self.word()? != VERSION {
            return Err(fault(Flaw::Form, offset));
        }
        let policy = self.policy()?;
        let conversion = self.conversion()?;
        Ok(Rules { policy, conversion })
    }

    /// The files that are in use.
    fn files(&mut self) -> Result<Vec<FilePart>, ImportFault>
        ensures { Reads (λ files. map entry_of files.items) (listed file_words) (All MayStand) self.old.left.now result self.new.left.now }
    {
        // A file takes its number and three counts at least.
        let count = self.count(4)?;
        let mut files = Vec::new(self.alloc);
        for _place in 0..count {
            let file = self.file()?;
            put(&mut files, file)?;
        }
        Ok(files)
    }

    /// A file with what stands on it, which is something.
    fn file(&mut self) -> Result<FilePart, ImportFault>
        ensures { Reads entry_of file_words MayStand self.old.left.now result self.new.left.now }
    {
        let offset = self.offset;
        let number = self.word()?;
        let locks = self.locks()?;
        let flocks = self.flocks()?;
        let waits = self.waits()?;
        if locks.is_empty() && flocks.is_empty() && waits.is_empty() {
            return Err(fault(Flaw::Form, offset));
        }
        Ok(FilePart {
            number,
            locks,
            flocks,
            waits,
        })
    }

    /// The byte locks on a file.
    fn locks(&mut self) -> Result<Vec<Lock>, ImportFault>
        ensures range { IfOk result (λ locks. All (λ lock. IsByteRange lock.span) locks.items) }
        ensures again { Reads (λ locks. locks.items) (listed lock_words) (All MayLock) self.old.left.now result self.new.left.now }
    {
        let count = self.count(4)?;
        let mut locks = Vec::new(self.alloc);
        for _place in 0..count {
            let lock = self.lock()?;
            put(&mut locks, lock)?;
        }
        Ok(locks)
    }

    /// A byte lock.
    fn lock(&mut self) -> Result<Lock, ImportFault>
        ensures range { IfOk result (λ lock. IsByteRange lock.span) }
        ensures again { Reads itself lock_words MayLock self.old.left.now result self.new.left.now }
    {
        let owner = self.word()?;
        let span = self.span()?;
        let mode = self.mode()?;
        Ok(Lock { owner, mode, span })
    }

    /// The flock locks on a file.
    fn flocks(&mut self) -> Result<Vec<FlockLock>, ImportFault>
        ensures { Reads (λ locks. locks.items) (listed flock_words) Always self.old.left.now result self.new.left.now }
    {
        let count = self.count(2)?;
        let mut flocks = Vec::new(self.alloc);
        for _place in 0..count {
            let lock = self.flock()?;
            put(&mut flocks, lock)?;
        }
        Ok(flocks)
    }

    /// A flock lock.
    fn flock(&mut self) -> Result<FlockLock, ImportFault>
        ensures { Reads itself flock_words Always self.old.left.now result self.new.left.now }
    {
        let owner = self.word()?;
        let mode = self.mode()?;
        Ok(FlockLock { owner, mode })
    }

    /// The waits on a file.
    fn waits(&mut self) -> Result<Vec<Pending>, ImportFault>
        ensures range { IfOk result (λ waits. All (λ wait. IsByteRange wait.span) waits.items) }
        ensures again { Reads (λ waits. waits.items) (listed wait_words) (All MayWait) self.old.left.now result self.new.left.now }
    {
        let count = self.count(7)?;
        let mut waits = Vec::new(self.alloc);
        for _place in 0..count {
            let wait = self.wait()?;
            put(&mut waits, wait)?;
        }
        Ok(waits)
    }

    /// A wait.
    fn wait(&mut self) -> Result<Pending, ImportFault>
        ensures range { IfOk result (λ wait. IsByteRange wait.span) }
        ensures again { Reads itself wait_words MayWait self.old.left.now result self.new.left.now }
    {
        let ticket = self.word()?;
        let owner = self.word()?;
        let family = self.family()?;
        let span = self.span()?;
        let mode = self.mode()?;
        let detect = self.flag()?;
        Ok(Pending {
            ticket,
            owner,
            family,
            span,
            mode,
            detect,
        })
    }

    /// Numbers by themselves.
    fn numbers(&mut self) -> Result<Vec<u64>, ImportFault>
        ensures { Reads (λ numbers. numbers.items) (listed number_words) Always self.old.left.now result self.new.left.now }
    {
        let count = self.count(1)?;
        let mut numbers = Vec::new(self.alloc);
        for _place in 0..count {
            let number = self.word()?;
            put(&mut numbers, number)?;
        }
        Ok(numbers)
    }

    /// The notes.
    fn notes(&mut self) -> Result<Vec<Note>, ImportFault>
        ensures { Reads (λ notes. map note_of notes.items) (listed note_words) Always self.old.left.now result self.new.left.now }
    {
        let count = self.count(3)?;
        let mut notes = Vec::new(self.alloc);
        for _place in 0..count {
            let note = self.note()?;
            put(&mut notes, note)?;
        }
        Ok(notes)
    }

    /// A note.
    fn note(&mut self) -> Result<Note, ImportFault>
        ensures { Reads note_of note_words Always self.old.left.now result self.new.left.now }
    {
        let file = self.word()?;
        let owner = self.word()?;
        let open_file = self.word()?;
        Ok(Note {
            file,
            owner,
            open_file,
        })
    }

    /// A span, which has a byte and lies within a file of the largest size.
    fn span(&mut self) -> Result<Span, ImportFault>
        ensures range { IfOk result IsByteRange }
        ensures again { Reads itself span_words IsByteRange self.old.left.now result self.new.left.now }
    {
        let offset = self.offset;
        let first = self.word()?;
        let last = self.word()?;
        if last < first || last > OFFMAX {
            return Err(fault(Flaw::Form, offset));
        }
        Ok(Span { first, last })
    }

    /// A mode.
    fn mode(&mut self) -> Result<Mode, ImportFault>
        ensures { Reads itself (alone mode_word) Always self.old.left.now result self.new.left.now }
    {
        let offset = self.offset;
        match self.word()? {
            1 => Ok(Mode::Read),
            2 => Ok(Mode::Write),
            _ => Err(fault(Flaw::Form, offset)),
        }
    }

    /// A family.
    fn family(&mut self) -> Result<Family, ImportFault>
        ensures { Reads itself (alone family_word) Always self.old.left.now result self.new.left.now }
    {
        let offset = self.offset;
        match self.word()? {
            0 => Ok(Family::Bytes),
            1 => Ok(Family::Whole),
            _ => Err(fault(Flaw::Form, offset)),
        }
    }

    /// A yes or no.
    fn flag(&mut self) -> Result<bool, ImportFault>
        ensures { Reads itself (alone flag_word) Always self.old.left.now result self.new.left.now }
    {
        let offset = self.offset;
        match self.word()? {
            0 => Ok(false),
            1 => Ok(true),
            _ => Err(fault(Flaw::Form, offset)),
        }
    }

    /// A policy.
    fn policy(&mut self) -> Result<Policy, ImportFault>
        ensures { Reads itself (alone policy_word) Always self.old.left.now result self.new.left.now }
    {
        let offset = self.offset;
        match self.word()? {
            0 => Ok(Policy::Held),
            1 => Ok(Policy::Queue),
            _ => Err(fault(Flaw::Form, offset)),
        }
    }

    /// A conversion.
    fn conversion(&mut self) -> Result<Conversion, ImportFault>
        ensures { Reads itself (alone conversion_word) Always self.old.left.now result self.new.left.now }
    {
        let offset = self.offset;
        match self.word()? {
            0 => Ok(Conversion::Stepwise),
            1 => Ok(Conversion::Atomic),
            _ => Err(fault(Flaw::Form, offset)),
        }
    }

    /// How many things follow, each of so many words at least, which are there.
    fn count(&mut self, width: usize) -> Result<usize, ImportFault>
        requires { 0 < width }
        ensures { (count : ℕ) (rest : List ℕ) → width * count ≤ length rest → self.old.left.now ≡ count ∷ rest
            → IsRead itself result self.new.left.now count rest }
    {
        let offset = self.offset;
        let count = self.word()?;
        let most = self.left.len() / width;
        if count > most as u64 {
            return Err(fault(Flaw::Form, offset));
        }
        Ok(count as usize)
    }

    /// The next word.
    fn word(&mut self) -> Result<u64, ImportFault>
        ensures { Reads itself number_words Always self.old.left.now result self.new.left.now }
    {
        let Some((word, left)) = self.left.split_first() else {
            return Err(fault(Flaw::Form, self.offset));
        };
        self.left = left;
        self.offset = self.offset.saturating_add(8);
        Ok(*word)
    }
}
