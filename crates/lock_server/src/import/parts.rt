//! What the bytes of an export tell.
ghost use Rattle.std.specs.Prelude.{All};
ghost use Rattle.range_core.specs.Ranges.{IsByteRange};

use crate::{FlockLock, Lock, Pending, Rules};

/// A file with what stands on it: its byte locks, its flock locks, and its waits in order of arrival.
#[derive(Drop)]
pub struct FilePart {
    pub number: u64,
    pub locks: Vec<Lock>,
    pub flocks: Vec<FlockLock>,
    pub waits: Vec<Pending>,
    ghost lock_ranges: { All (λ lock. IsByteRange lock.span) locks.items },
    ghost wait_ranges: { All (λ wait. IsByteRange wait.span) waits.items },
}

/// Through which open file an owner was last seen on a file.
#[derive(Clone, Copy)]
pub struct Note {
    pub file: u64,
    pub owner: u64,
    pub open_file: u64,
}

/// All that an export tells.
#[derive(Drop)]
pub struct Parts {
    pub rules: Rules,
    pub files: Vec<FilePart>,
    pub grants: Vec<u64>,
    pub crossed: Vec<u64>,
    pub notes: Vec<Note>,
}

/// So many words, in bytes. No count of a list that was read is so large that it is cut here.
fn bytes(words: usize) -> usize {
    words.saturating_mul(8)
}

/// How many bytes a list takes, with its count: each of its things takes so many words.
fn list_size(length: usize, words: usize) -> usize {
    bytes(1).saturating_add(length.saturating_mul(bytes(words)))
}

impl FilePart {
    /// At which of the bytes of the file the byte lock at this place begins.
    pub fn lock_offset(&self, place: usize) -> usize {
        bytes(1).saturating_add(list_size(place, 4))
    }

    /// At which of the bytes of the file the flock lock at this place begins.
    pub fn flock_offset(&self, place: usize) -> usize {
        self.lock_offset(self.locks.len())
            .saturating_add(list_size(place, 2))
    }

    /// At which of the bytes of the file the wait at this place begins.
    pub fn wait_offset(&self, place: usize) -> usize {
        self.flock_offset(self.flocks.len())
            .saturating_add(list_size(place, 7))
    }

    /// How many bytes the file takes.
    fn size(&self) -> usize {
        self.wait_offset(self.waits.len())
    }
}

impl Parts {
    /// At which byte the file at this place begins.
    pub fn file_offset(&self, place: usize) -> usize {
        // Before it stand the version, the rules and the count of files.
        let mut offset = bytes(4);
        for file in self.files.iter().take(place) {
            offset = offset.saturating_add(file.size());
        }
        offset
    }

    /// At which byte the grant at this place begins.
    pub fn grant_offset(&self, place: usize) -> usize {
        self.file_offset(self.files.len())
            .saturating_add(list_size(place, 1))
    }

    /// At which byte the crossed owner at this place begins.
    pub fn crossed_offset(&self, place: usize) -> usize {
        self.grant_offset(self.grants.len())
            .saturating_add(list_size(place, 1))
    }

    /// At which byte the note at this place begins.
    pub fn note_offset(&self, place: usize) -> usize {
        self.crossed_offset(self.crossed.len())
            .saturating_add(list_size(place, 3))
    }
}
