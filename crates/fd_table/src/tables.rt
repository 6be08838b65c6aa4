//! The descriptors of all processes, and the open file descriptions that they refer to.
ghost use Rattle.std.specs.Prelude.{ℕ, ◌≡◌, ◌≤◌, ◌<◌, ◌+◌, ◌^◌, Some, length, option_map, replicate, false, IfSome, IfNone, ◌<ℤ◌, pos};
ghost use Rattle.fd_table.specs.declared.TheConstants.{DESCRIPTIONS, FILES};
ghost use Rattle.fd_table.specs.declared.tables.Opened.{Opened};
ghost use Rattle.slab.specs.Slab.{get};
ghost use Rattle.fd_table.specs.Rows.{users_in};
ghost use Rattle.fd_table.specs.Soundness.{AreRows, AreEntries, AreSizes, IsBytes, with_users};

use crate::releases::{Closed, Release, Releases};
use crate::rows::{Row, opening_rows, set_key};
use crate::{Access, DESCRIPTIONS, FILE_COUNT, FILES, FdFault, Limits};
use range_core::Memory;
use slab::Slab;
use std::alloc::Global;

/// What a descriptor refers to.
#[derive(Clone, Copy, Debug, PartialEq, Eq)]
pub struct Look {
    /// The number of the file.
    pub file: u8,
    /// The number of the open file description.
    pub desc: u64,
    /// What it was opened for.
    pub access: Access,
    /// The file offset, in bytes.
    pub offset: u64,
    /// The size of the file, in bytes.
    pub size: u64,
}

/// An open file description that some descriptor refers to (POSIX.1-2017 Base Definitions, "Open File Description").
#[derive(Clone, Copy)]
struct Opened {
    number: u64,
    file: u8,
    access: Access,
    offset: u64,
    /// How many descriptors of all processes refer to it.
    users: u64,
}

/// The descriptors of all processes.
#[derive(Drop)]
pub struct Tables {
    /// One for each process, by its number: process numbers begin at 1, so the first is never used.
    rows: Vec<Row>,
    opened: Slab<Opened>,
    sizes: [u64; FILE_COUNT],
    /// How many descriptions were ever made.
    made: u64,
    processes: u8,
    limits: Limits,
    ghost rowed: { AreRows processes limits rows.items },
    ghost entered: { AreEntries rows.items opened made },
    ghost sized: { AreSizes sizes },
    ghost bounded: { made ≤ DESCRIPTIONS },
}

#[tactic(auto, unfolding(crate::specs::TablesView::view_of, crate::specs::TablesView::processes_of, crate::specs::TablesView::limits_of))]
impl Tables {
    ghost use Rattle.std.specs.Prelude.{◌==◌, ◌||◌, OnOk, ◌≢◌, IsSome, IsTrue, IfOk, OnErr, Ok, Err, None};
    ghost use Rattle.fd_table.specs.Descriptors.{Descriptors, opening_descriptors, process_limit, look_at, with_descriptor};
    ghost use Rattle.fd_table.specs.Calls.{OpenGives, HadMemory, LackedMemory, OnlyLacksMemory, IsFreeProcess, DupGives, DupToGives, CloseGives, EndGives, ForkGives, SeekGives, ResizeGives};
    ghost use Rattle.fd_table.specs.Releases.{IsClosing, without_one};
    ghost use Rattle.fd_table.specs.Rows.{row_at, key_at, IsLowestClosed, AreAllOpen, WithKey};
    ghost use Rattle.fd_table.specs.TablesView.{SameLimits, StandFor, processes_of, limits_of, ever_alive, SameProcesses, IsInRange, opened_in};

    /// Process 1 alone lives, no descriptor is open and each file is empty. The room for the descriptors of process 1 is
    /// made here (this project's choice).
    pub fn new(alloc: Global, processes: u8, limits: Limits) -> Result<Tables, Memory>
        requires { (1 ≤ processes) × (processes ≤ process_limit limits) }
        ensures opening { IfOk result (λ tables. StandFor tables opening_descriptors) }
        ensures processes { IfOk result (λ tables. processes_of tables ≡ processes) }
        ensures limits { IfOk result (λ tables. limits_of tables ≡ limits) }
    {
        let rows = opening_rows(alloc, processes, limits.descriptors() as usize)?;
        Ok(Tables {
            rows,
            opened: Slab::new(alloc),
            sizes: empty_files(),
            made: 0,
            processes,
            limits,
        })
    }

    /// Whether the process was ever alive.
    pub fn born(&self, p: u8) -> bool
        ensures { result ≡ ever_alive self.now p }
    {
        match self.rows.get(usize::from(p)) {
            Some(row) => !row.is_empty(),
            None => false,
        }
    }

    /// `open` of a file that is there: a new description with offset 0, under the lowest free descriptor (POSIX.1-2017
    /// open). The process must have been alive.
    ///
    /// `Invalid` where the file is 64 or more, then `TooMany` where no descriptor is free or [`DESCRIPTIONS`] descriptions
    /// were ever made, then `Memory`.
    pub fn open_file(&mut self, p: u8, file: u8, access: Access) -> Result<u32, FdFault>
        requires { IsTrue (ever_alive self.old p) }
        ensures step { HadMemory result → (D : Descriptors) → StandFor self.old D →
            (E : Descriptors) × OpenGives (limits_of self.old) D p file access result E × StandFor self.new E }
        ensures memory { LackedMemory result → (D : Descriptors) → StandFor self.old D →
            OnlyLacksMemory (limits_of self.old) D p file × StandFor self.new D }
        ensures refused { OnErr result ((D : Descriptors) → StandFor self.old D → StandFor self.new D) }
        ensures kept { SameProcesses self.old self.new }
    {
        if file >= FILES {
            return Err(FdFault::Invalid);
        }
        let Some(fd) = self.lowest_free(p) else {
            return Err(FdFault::TooMany);
        };
        if self.made >= DESCRIPTIONS {
            return Err(FdFault::TooMany);
        }
        let number = self.made + 1;
        let opened = Opened {
            number,
            file,
            access,
            offset: 0,
            users: 1,
        };
        let key = self.opened.insert(opened)?;
        self.made = number;
        set_key(&mut self.rows, p, fd, Some(key));
        Ok(fd)
    }

    /// `dup`: the lowest free descriptor refers to the same description (POSIX.1-2017 dup).
    ///
    /// `BadFd` where the descriptor isn't open, then `TooMany` where none is free.
    pub fn dup(&mut self, p: u8, fd: u32) -> Result<u32, FdFault>
        ensures step { (D : Descriptors) → StandFor self.old D →
            (E : Descriptors) × DupGives (limits_of self.old) D p fd result E × StandFor self.new E }
        ensures refused { OnErr result ((D : Descriptors) → StandFor self.old D → StandFor self.new D) }
        ensures kept { SameProcesses self.old self.new }
    {
        if self.key_at(p, fd).is_none() {
            return Err(FdFault::BadFd);
        }
        let Some(free) = self.lowest_free(p) else {
            return Err(FdFault::TooMany);
        };
        self.share(p, fd, free);
        Ok(free)
    }

    /// `dup2`: the descriptor `to`, closed first where it is open, refers to the same description. Onto itself it changes
    /// nothing (POSIX.1-2017 dup2).
    ///
    /// `BadFd` where the descriptor isn't open, or `to` is past the last that the process may have.
    pub fn dup2(&mut self, p: u8, fd: u32, to: u32) -> Result<(u32, Release), FdFault>
        ensures step { (D : Descriptors) → StandFor self.old D →
            (E : Descriptors) × DupToGives (limits_of self.old) D p fd to result E × StandFor self.new E }
        ensures refused { OnErr result ((D : Descriptors) → StandFor self.old D → StandFor self.new D) }
        ensures kept { SameProcesses self.old self.new }
    {
        if self.key_at(p, fd).is_none() || to >= self.limits.descriptors() {
            return Err(FdFault::BadFd);
        }
        if to == fd {
            return Ok((to, Release::of(None)));
        }
        let released = Release::of(self.close_one(p, to));
        self.share(p, fd, to);
        Ok((to, released))
    }

    /// `close`: closes the descriptor, and tells what that releases (POSIX.1-2017 close).
    ///
    /// `BadFd` where the descriptor isn't open.
    pub fn close_fd(&mut self, p: u8, fd: u32) -> Result<Release, FdFault>
        ensures step { (D : Descriptors) → StandFor self.old D →
            (E : Descriptors) × CloseGives D p fd result E × StandFor self.new E }
        ensures refused { OnErr result ((D : Descriptors) → StandFor self.old D → StandFor self.new D) }
        ensures kept { SameProcesses self.old self.new }
    {
        match self.close_one(p, fd) {
            Some(closed) => Ok(Release::of(Some(closed))),
            None => Err(FdFault::BadFd),
        }
    }

    /// `fork`: the child lives, with a copy of each descriptor of its parent, so they share descriptions and offsets
    /// (POSIX.1-2017 fork; that the caller names the child is this project's choice). The process must have been alive. The
    /// room for the child's descriptors is made here.
    ///
    /// `Taken` where the child isn't 1 to the number of processes or was ever alive, then `Memory`.
    pub fn fork(&mut self, p: u8, child: u8) -> Result<(), FdFault>
        requires { IsTrue (ever_alive self.old p) }
        ensures step { HadMemory result → (D : Descriptors) → StandFor self.old D →
            (E : Descriptors) × ForkGives (processes_of self.old) D p child result E × StandFor self.new E }
        ensures memory { LackedMemory result → (D : Descriptors) → StandFor self.old D →
            IsFreeProcess (processes_of self.old) D child × StandFor self.new D }
        ensures refused { OnErr result ((D : Descriptors) → StandFor self.old D → StandFor self.new D) }
        ensures kept { SameLimits self.old self.new }
        ensures child { OnOk result ((1 ≤ child) × (child ≤ processes_of self.old)) }
        ensures unborn { OnOk result ((D : Descriptors) → StandFor self.old D → (fd : ℕ) → D.description_of child fd ≡ None) }
        ensures alive { OnOk result ((q : ℕ) → ever_alive self.new q ≡ ((q == child) || ever_alive self.old q)) }
        ensures same { OnErr result ((q : ℕ) → ever_alive self.new q ≡ ever_alive self.old q) }
    {
        if child == 0 || child > self.processes || self.born(child) {
            return Err(FdFault::Taken);
        }
        let row = self.rows[usize::from(p)].copied()?;
        add_users(&mut self.opened, &row);
        self.rows[usize::from(child)] = row;
        Ok(())
    }

    /// The end of a process: closes all its descriptors, and tells what that releases (POSIX.1-2017 _Exit).
    pub fn end_process(&mut self, p: u8) -> Releases
        ensures step { (D : Descriptors) → StandFor self.old D →
            (E : Descriptors) × EndGives D p result E × StandFor self.new E }
        ensures kept { SameProcesses self.old self.new }
    {
        let mut released = Releases::none();
        let mut files = no_marks();
        for fd in 0..self.limits.descriptors() {
            if let Some(closed) = self.close_one(p, fd) {
                files[usize::from(closed.file)] = true;
                if let Some(number) = closed.last {
                    released.push_description(number);
                }
            }
        }
        released.list_files(&files);
        released.sort_descriptions();
        released
    }

    /// What the descriptor refers to, if it is open.
    pub fn look(&self, p: u8, fd: u32) -> Option<Look>
        ensures look { (D : Descriptors) → StandFor self.now D → result ≡ look_at D p fd }
        ensures in_range { IfSome result IsInRange }
    {
        let opened = self.opened_at(p, fd)?;
        Some(Look {
            file: opened.file,
            desc: opened.number,
            access: opened.access,
            offset: opened.offset,
            size: self.sizes[usize::from(opened.file)],
        })
    }

    /// The size of a file in bytes, whether it is open or not.
    pub fn size_of(&self, file: u8) -> u64
        requires { file < FILES }
        ensures { (D : Descriptors) → StandFor self.now D → result ≡ D.sizes file }
    {
        self.sizes[usize::from(file)]
    }

    /// `lseek`: sets the offset of the description that the descriptor refers to, for all who share it. The access mode
    /// doesn't matter (POSIX.1-2017 lseek).
    ///
    /// `BadFd` where the descriptor isn't open, then `Invalid` where the offset is below 0.
    pub fn seek(&mut self, p: u8, fd: u32, offset: i64) -> Result<(), FdFault>
        ensures step { (D : Descriptors) → StandFor self.old D →
            (E : Descriptors) × SeekGives D p fd offset result E × StandFor self.new E }
        ensures refused { OnErr result ((D : Descriptors) → StandFor self.old D → StandFor self.new D) }
        ensures kept { SameProcesses self.old self.new }
    {
        let Some(key) = self.key_at(p, fd) else {
            return Err(FdFault::BadFd);
        };
        let Some(offset) = bytes(offset) else {
            return Err(FdFault::Invalid);
        };
        self.opened[key].offset = offset;
        Ok(())
    }

    /// `ftruncate`: sets the size of the file that the descriptor refers to. The access mode doesn't matter (this
    /// project's choice).
    ///
    /// `BadFd` where the descriptor isn't open, then `Invalid` where the size is below 0.
    pub fn resize(&mut self, p: u8, fd: u32, size: i64) -> Result<(), FdFault>
        ensures step { (D : Descriptors) → StandFor self.old D →
            (E : Descriptors) × ResizeGives D p fd size result E × StandFor self.new E }
        ensures refused { OnErr result ((D : Descriptors) → StandFor self.old D → StandFor self.new D) }
        ensures kept { SameProcesses self.old self.new }
    {
        let Some(opened) = self.opened_at(p, fd) else {
            return Err(FdFault::BadFd);
        };
        let Some(size) = bytes(size) else {
            return Err(FdFault::Invalid);
        };
        self.sizes[usize::from(opened.file)] = size;
        Ok(())
    }

    /// The key of the description that the descriptor refers to, if it is open.
    fn key_at(&self, p: u8, fd: u32) -> Option<usize>
        ensures { result ≡ key_at self.now.rows.items p fd }
    {
        self.rows.get(usize::from(p))?.get(fd as usize)
    }

    /// The description that the descriptor refers to, if it is open.
    fn opened_at(&self, p: u8, fd: u32) -> Option<Opened>
        ensures { result ≡ opened_in self.now.rows.items self.now.opened p fd }
    {
        self.opened.get(self.key_at(p, fd)?).copied()
    }

    /// The lowest closed descriptor of the process, if there is one.
    fn lowest_free(&self, p: u8) -> Option<u32>
        ensures some { IfSome result (IsLowestClosed (row_at self.now.rows.items p)) }
        ensures none { IfNone result (AreAllOpen (row_at self.now.rows.items p)) }
    {
        let fd = self.rows.get(usize::from(p))?.lowest_closed()?;
        Some(fd as u32)
    }

    /// Makes a closed descriptor refer to what an open one refers to.
    fn share(&mut self, p: u8, from: u32, to: u32)
        requires open { IsSome (key_at self.old.rows.items p from) }
        requires closed { key_at self.old.rows.items p to ≡ None }
        requires within { to < length (row_at self.old.rows.items p) }
        ensures step { (D : Descriptors) (description : ℕ) → StandFor self.old D → D.description_of p from ≡ Some description →
            StandFor self.new (with_descriptor D p to description) }
        ensures kept { SameProcesses self.old self.new }
    {
        if let Some(key) = self.key_at(p, from) {
            self.opened[key].users += 1;
            set_key(&mut self.rows, p, to, Some(key));
        }
    }

    /// Closes the descriptor, if it is open.
    fn close_one(&mut self, p: u8, fd: u32) -> Option<Closed>
        ensures step { (D : Descriptors) → StandFor self.old D → IsClosing D p fd result × StandFor self.new (without_one D p fd) }
        ensures rows { WithKey self.old.rows.items self.new.rows.items p fd None }
        ensures file { IfSome result (λ closed. closed.file < FILES) }
        ensures kept { SameProcesses self.old self.new }
    {
        let key = self.key_at(p, fd)?;
        set_key(&mut self.rows, p, fd, None);
        let opened = &mut self.opened[key];
        let Opened { number, file, .. } = *opened;
        if opened.users > 1 {
            opened.users -= 1;
            return Some(Closed { file, last: None });
        }
        self.opened.remove(key);
        Some(Closed {
            file,
            last: Some(number),
        })
    }
}

/// Counts one user more of a description for each place of the row that refers to it.
fn add_users(opened: &mut Slab<Opened>, row: &Row)
    requires { (key : ℕ) (entry : Opened) → get opened.old key ≡ Some entry → entry.users + length row.now < 2 ^ 64 }
    ensures { (key : ℕ) → get opened.new key ≡ option_map (with_users (users_in row.now key)) (get opened.old key) }
{
    for fd in 0..row.len() {
        if let Some(key) = row.get(fd) {
            if let Some(entry) = opened.get_mut(key) {
                entry.users += 1;
            }
        }
    }
}

/// No file is marked.
fn no_marks() -> [bool; FILE_COUNT]
    ensures { result ≡ replicate FILES false }
{
    [false; FILE_COUNT]
}

/// The sizes of empty files.
fn empty_files() -> [u64; FILE_COUNT]
    ensures { result ≡ replicate FILES 0 }
{
    [0; FILE_COUNT]
}

/// An offset or a size, if it isn't below 0.
fn bytes(count: i64) -> Option<u64>
    ensures some { IfSome result (IsBytes count) }
    ensures none { IfNone result (count <ℤ pos 0) }
{
    u64::try_from(count).ok()
}
