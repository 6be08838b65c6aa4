//! The lock manager itself.
mod lock_calls;
mod told;

ghost use Rattle.std.specs.Prelude.{◌≡◌, ◌≤◌, ◌<◌, All, IfSome, IsTrue, vec_len};
ghost use Rattle.fd_table.specs.TablesView.{IsInRange, ever_alive};
ghost use Rattle.wait_core.specs.WellFormed.{IsWellFormed};

use self::told::{Refusal, Told};
use fd_table::{Look, Tables};
use lock_book::{Book, Held, Owner};
use lock_manager::{Errno, Note, Reply, Request, Rules, SECTIONS, Visit};
use range_core::Memory;
use std::alloc::Global;
use wait_core::{Family, Wait};
use wait_core_tests::listed::{ListedWaits, empty_books};

/// The descriptors, the locks by file, the waits in order of arrival, and the processes that have ended: no more than the rules need.
#[derive(Drop)]
pub struct ListedMachine {
    alloc: Global,
    tables: Tables,
    books: Vec<Book>,
    waits: ListedWaits,
    ended: Vec<u8>,
    /// Each process that is in a section, with this and its visit.
    visits: Vec<(u8, u8, Visit)>,
    /// The processes whose last answer was an error.
    refused: Vec<u8>,
    ghost files: { vec_len books ≡ 64 },
}

impl ListedMachine {
    /// Process 1 lives, and there is nothing else.
    pub fn new(alloc: Global, rules: Rules) -> Result<ListedMachine, Memory> {
        let processes = rules.limits.processes();
        let tables = Tables::new(alloc, processes, rules.limits)?;
        let books = empty_books(alloc)?;
        Ok(ListedMachine {
            alloc,
            tables,
            books,
            waits: ListedWaits::new(alloc, rules.policy, processes),
            ended: Vec::new(alloc),
            visits: Vec::new(alloc),
            refused: Vec::new(alloc),
        })
    }

    /// Whether a request of the process may be taken: it was born, and neither waits nor has ended.
    pub fn is_able(&self, p: u8) -> bool {
        self.is_alive(p) && self.waits.of(p).is_none()
    }

    /// What request number `n` of the process tells, with all that it causes: the caller's note, where there is one, then who was
    /// interrupted or granted a lock, in order. Of a process that doesn't live nothing is taken.
    pub fn take(&mut self, p: u8, n: u64, request: Request) -> Result<Vec<Note>, Memory>
        requires { (1 ≤ p) × (p ≤ 64) }
    {
        let mut notes = Vec::new(self.alloc);
        if !self.is_alive(p) {
            return Ok(notes);
        }
        let mut others = Vec::new(self.alloc);
        let told = match self.serve(p, n, request, &mut others) {
            Ok(told) => told,
            Err(Refusal::Errno(error)) => Told::Reply(Reply::Err(error)),
            Err(Refusal::Memory(memory)) => return Err(memory),
        };
        self.settle(&mut others)?;
        if let Some(note) = told.note(p, n) {
            notes.push(note)?;
        }
        notes.append(&mut others)?;
        self.hear(&notes)?;
        Ok(notes)
    }

    /// Whether the process was born, whatever became of it.
    pub fn was_born(&self, p: u8) -> bool {
        self.tables.born(p)
    }

    /// Whether the process has ended.
    pub fn has_ended(&self, p: u8) -> bool {
        self.ended.contains(&p)
    }

    /// What a descriptor of the process refers to, if it is open.
    pub fn look(&self, p: u8, fd: u32) -> Option<Look>
        ensures { IfSome result IsInRange }
    {
        self.tables.look(p, fd)
    }

    /// The size of a file in bytes.
    pub fn size_of(&self, file: u8) -> u64
        requires { file < 64 }
    {
        self.tables.size_of(file)
    }

    /// All locks, by file and by owner.
    pub fn held(&self) -> Result<Vec<Held>, Memory> {
        let mut held = Vec::new(self.alloc);
        for file in 0..64u8 {
            held.append(&mut self.books[usize::from(file)].held(file)?)?;
        }
        Ok(held)
    }

    /// The waits, in order of arrival.
    pub fn waits(&self) -> &[Wait] {
        self.waits.list()
    }

    /// What the request comes to, but for the settling with which its event ends; what others are told on the way goes to `others`.
    fn serve(
        &mut self,
        p: u8,
        n: u64,
        request: Request,
        others: &mut Vec<Note>,
    ) -> Result<Told, Refusal>
        requires process { (1 ≤ p) × (p ≤ 64) }
        requires alive { IsTrue (ever_alive self.old.tables p) }
    {
        match request {
            Request::OpenFile { file, access } => {
                Ok(Told::descriptor(self.tables.open_file(p, file, access)?))
            },
            Request::Dup { fd } => Ok(Told::descriptor(self.tables.dup(p, fd)?)),
            Request::DupTo { fd, to } => self.dup_to(p, fd, to),
            Request::CloseFd { fd } => self.close_fd(p, fd),
            Request::Seek { fd, offset } => {
                self.tables.seek(p, fd, offset)?;
                Ok(Told::OK)
            },
            Request::Resize { fd, size } => {
                self.tables.resize(p, fd, size)?;
                Ok(Told::OK)
            },
            Request::Lk { fd, cmd, lock } => self.lock_command(p, n, fd, cmd, lock),
            Request::Flock { fd, op, nb } => self.flock(p, n, fd, op, nb, others),
            Request::Fork { child } => {
                self.tables.fork(p, child)?;
                Ok(Told::OK)
            },
            Request::Exit => self.kill(p, p),
            Request::Signal { target } => self.signal(target, others),
            Request::Kill { target } => self.kill(p, target),
            Request::Enter { section, visit } => self.enter(p, section, visit),
            Request::Leave { section } => self.leave(p, section),
            Request::Bail => {
                if self.refused.contains(&p) {
                    return self.kill(p, p);
                }
                Ok(Told::OK)
            },
        }
    }

    /// Whether the process was born and hasn't ended.
    fn is_alive(&self, p: u8) -> bool
        ensures { IsTrue result → IsTrue (ever_alive self.now.tables p) }
    {
        self.tables.born(p) && !self.has_ended(p)
    }

    /// By which visit the process is in the section.
    pub fn visit(&self, p: u8, section: u8) -> Option<Visit> {
        let place = self.place_in(p, section)?;
        Some(self.visits.get(place)?.2)
    }

    /// Whether the process is able, and its last answer was an error.
    pub fn was_refused(&self, p: u8) -> bool {
        self.is_able(p) && self.refused.contains(&p)
    }

    /// Where it stands among the visits.
    fn place_in(&self, p: u8, section: u8) -> Option<usize> {
        self.visits
            .iter()
            .position(|visit| visit.0 == p && visit.1 == section)
    }

    /// enter: of a section that there is, by a process that isn't in it.
    fn enter(&mut self, p: u8, section: u8, visit: Visit) -> Result<Told, Refusal> {
        if section >= SECTIONS || self.place_in(p, section).is_some() {
            return Err(Refusal::Errno(Errno::EINVAL));
        }
        self.visits.push((p, section, visit)).map_err(Memory::from)?;
        Ok(Told::OK)
    }

    /// leave: of a section in which the process is.
    fn leave(&mut self, p: u8, section: u8) -> Result<Told, Refusal> {
        if self.visit(p, section).is_none() {
            return Err(Refusal::Errno(Errno::EINVAL));
        }
        self.visits
            .retain(|visit| visit.0 != p || visit.1 != section);
        Ok(Told::OK)
    }

    /// Each answer is the last one so far to its process.
    fn hear(&mut self, notes: &[Note]) -> Result<(), Memory> {
        for note in notes {
            if let Note::Answer { p, reply, .. } = *note {
                self.refused.retain(|q| *q != p);
                if let Reply::Err(_) = reply {
                    self.refused.push(p)?;
                }
            }
        }
        Ok(())
    }

    /// dup2: what the second descriptor was is closed.
    fn dup_to(&mut self, p: u8, fd: u32, to: u32) -> Result<Told, Refusal> {
        let (descriptor, released) = self.tables.dup2(p, fd, to)?;
        self.release(p, released.files(), released.descriptions());
        Ok(Told::descriptor(descriptor))
    }

    /// close.
    fn close_fd(&mut self, p: u8, fd: u32) -> Result<Told, Refusal> {
        let released = self.tables.close_fd(p, fd)?;
        self.release(p, released.files(), released.descriptions());
        Ok(Told::OK)
    }

    /// A signal that is caught: it ends a wait, which is told behind the caller's answer.
    fn signal(&mut self, target: u8, others: &mut Vec<Note>) -> Result<Told, Refusal> {
        if !self.is_alive(target) {
            return Err(Refusal::Errno(Errno::ESRCH));
        }
        if let Some(Wait { p, n, .. }) = self.waits.remove(target) {
            let reply = Reply::Err(Errno::EINTR);
            let note = Note::Answer { p, n, reply };
            others.push(note).map_err(Memory::from)?;
        }
        Ok(Told::OK)
    }

    /// SIGKILL, and of oneself the end.
    fn kill(&mut self, p: u8, target: u8) -> Result<Told, Refusal> {
        if !self.is_alive(target) {
            return Err(Refusal::Errno(Errno::ESRCH));
        }
        self.end(target)?;
        if target == p {
            return Ok(Told::Nothing);
        }
        Ok(Told::OK)
    }

    /// The end of a process: its wait is gone, and all its descriptors are closed.
    fn end(&mut self, p: u8) -> Result<(), Memory> {
        self.waits.remove(p);
        let released = self.tables.end_process(p);
        self.release(p, released.files(), released.descriptions());
        self.visits.retain(|visit| visit.0 != p);
        self.ended.push(p)?;
        Ok(())
    }

    /// The process closed descriptors of these files, and was the last to refer to these descriptions: its traditional locks on the files
    /// go, and all locks of the descriptions.
    fn release(&mut self, p: u8, files: &[u8], descriptions: &[u64])
        requires { All (λ file. file < 64) files.now }
    {
        for file in files {
            self.books[usize::from(*file)].release_owner(Owner::Process(p));
        }
        for book in self.books.iter_mut() {
            for description in descriptions {
                book.release_owner(Owner::Description(*description));
                book.release_flock(*description);
            }
        }
    }

    /// Grants the earliest wait that nothing blocks, again and again while there is one, and tells of each.
    fn settle(&mut self, notes: &mut Vec<Note>) -> Result<(), Memory> {
        for _grant in 0..self.waits.list().len() {
            let Some(wait) = self.waits.next_ready(&self.books) else {
                return Ok(());
            };
            let Wait { p, n, .. } = wait;
            self.waits.remove(p);
            self.set(&wait)?;
            let reply = Reply::Ok;
            notes.push(Note::Answer { p, n, reply })?;
        }
        Ok(())
    }

    /// The owner has the lock from now on.
    fn set(&mut self, wait: &Wait) -> Result<(), Memory>
        requires { IsWellFormed 64 wait.now }
    {
        let book = &mut self.books[usize::from(wait.file)];
        match (wait.family, wait.owner) {
            (Family::Bytes, owner) => book.set(owner, wait.span, Some(wait.mode)),
            (Family::Whole, Owner::Description(description)) => {
                book.flock_set(description, Some(wait.mode))
            },
            (Family::Whole, Owner::Process(_)) => unreachable!(),
        }
    }
}
