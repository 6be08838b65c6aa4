//! The calls on descriptors.
ghost use Rattle.std.specs.Prelude.{◌≡◌, ◌<◌, IfOk, OnErr};
ghost use Rattle.fd_table.specs.declared.TheConstants.{FILES};
ghost use Rattle.fd_table.specs.Descriptors.{look_at};
ghost use Rattle.lock_manager.specs.State.{State};
ghost use Rattle.lock_manager.specs.MachineView.{SameMachine, SameRules, Shows, Answers, machine_waits, machine_state};

use super::Machine;
use crate::lock_releases::release;
use crate::replies::refusal;
use crate::{ProcState, Reply, Request};
use fd_table::{Access, Look};
use range_core::Memory;

impl Machine {
    /// What the descriptor refers to, if it is open.
    pub fn look(&self, p: u8, fd: u32) -> Option<Look>
        ensures { (S : State) → Shows self.now S → result ≡ look_at S.descriptors p fd }
    {
        self.tables.look(p, fd)
    }

    /// The size of a file in bytes.
    pub fn size_of(&self, file: u8) -> u64
        requires { file < FILES }
        ensures { (S : State) → Shows self.now S → result ≡ S.descriptors.sizes file }
    {
        self.tables.size_of(file)
    }

    /// open (POSIX.1-2017 open).
    pub(super) fn open_file(&mut self, p: u8, file: u8, access: Access) -> Result<Reply, Memory>
        requires { machine_state self.old p ≡ ProcState.Live }
        ensures answers { IfOk result (Answers self.old self.new p (Request.OpenFile file access)) }
        ensures memory { OnErr result (SameMachine self.old self.new) }
        ensures same_rules { SameRules self.old self.new }
        ensures waits { machine_waits self.new ≡ machine_waits self.old }
    {
        match self.tables.open_file(p, file, access) {
            Ok(fd) => Ok(Reply::Fd(fd)),
            Err(fault) => refusal(fault),
        }
    }

    /// dup (POSIX.1-2017 dup).
    pub(super) fn dup(&mut self, p: u8, fd: u32) -> Result<Reply, Memory>
        ensures answers { IfOk result (Answers self.old self.new p (Request.Dup fd)) }
        ensures memory { OnErr result (SameMachine self.old self.new) }
        ensures same_rules { SameRules self.old self.new }
        ensures waits { machine_waits self.new ≡ machine_waits self.old }
    {
        match self.tables.dup(p, fd) {
            Ok(free) => Ok(Reply::Fd(free)),
            Err(fault) => refusal(fault),
        }
    }

    /// dup2: what stood there is closed first, and what that closes is released (POSIX.1-2017 dup2). It takes no memory.
    pub(super) fn dup_to(&mut self, p: u8, fd: u32, to: u32) -> Result<Reply, Memory>
        requires { machine_state self.old p ≡ ProcState.Live }
        ensures answers { IfOk result (Answers self.old self.new p (Request.DupTo fd to)) }
        ensures memory { OnErr result (SameMachine self.old self.new) }
        ensures sure { OnErr result ⊥ }
        ensures same_rules { SameRules self.old self.new }
        ensures waits { machine_waits self.new ≡ machine_waits self.old }
    {
        match self.tables.dup2(p, fd, to) {
            Ok((number, released)) => {
                release(
                    &mut self.books,
                    &mut self.waits,
                    p,
                    released.files(),
                    released.descriptions(),
                );
                Ok(Reply::Fd(number))
            },
            Err(fault) => refusal(fault),
        }
    }

    /// close: what that closes is released (POSIX.1-2017 close). It takes no memory.
    pub(super) fn close_fd(&mut self, p: u8, fd: u32) -> Result<Reply, Memory>
        requires { machine_state self.old p ≡ ProcState.Live }
        ensures answers { IfOk result (Answers self.old self.new p (Request.CloseFd fd)) }
        ensures memory { OnErr result (SameMachine self.old self.new) }
        ensures sure { OnErr result ⊥ }
        ensures same_rules { SameRules self.old self.new }
        ensures waits { machine_waits self.new ≡ machine_waits self.old }
    {
        match self.tables.close_fd(p, fd) {
            Ok(released) => {
                release(
                    &mut self.books,
                    &mut self.waits,
                    p,
                    released.files(),
                    released.descriptions(),
                );
                Ok(Reply::Ok)
            },
            Err(fault) => refusal(fault),
        }
    }

    /// seek (POSIX.1-2017 lseek).
    pub(super) fn seek(&mut self, p: u8, fd: u32, offset: i64) -> Result<Reply, Memory>
        ensures answers { IfOk result (Answers self.old self.new p (Request.Seek fd offset)) }
        ensures memory { OnErr result (SameMachine self.old self.new) }
        ensures same_rules { SameRules self.old self.new }
        ensures waits { machine_waits self.new ≡ machine_waits self.old }
    {
        match self.tables.seek(p, fd, offset) {
            Ok(()) => Ok(Reply::Ok),
            Err(fault) => refusal(fault),
        }
    }

    /// resize (POSIX.1-2017 ftruncate).
    pub(super) fn resize(&mut self, p: u8, fd: u32, size: i64) -> Result<Reply, Memory>
        ensures answers { IfOk result (Answers self.old self.new p (Request.Resize fd size)) }
        ensures memory { OnErr result (SameMachine self.old self.new) }
        ensures same_rules { SameRules self.old self.new }
        ensures waits { machine_waits self.new ≡ machine_waits self.old }
    {
        match self.tables.resize(p, fd, size) {
            Ok(()) => Ok(Reply::Ok),
            Err(fault) => refusal(fault),
        }
    }
}
