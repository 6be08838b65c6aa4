//! The words of a request, command by command.
ghost use Rattle.std.specs.Prelude.{◌≡◌, pos, [], ◌∷◌, MatchResult, codes, decimal};
ghost use Rattle.std.specs.Fmt.{signed_decimal};
ghost use Rattle.fd_table.specs.declared.Limits.{Limits};
ghost use Rattle.script_core.specs.Words.{texts};
ghost use Rattle.script_core.specs.RequestText.{command_word, lock_command_word, lock_words};
ghost use Rattle.script_core.specs.Arguments.{DescriptorNumber, AnyNumber, ProcessNumber, IsFirstBad, AreRefused, open_command, dup_to_command, exit_command, enter_command, leave_command, bail_command, flock_command, lock_arguments, lock_command};
ghost use Rattle.script_core.specs.ScriptText.{IsProcess};
ghost use Rattle.script_core.specs.Reading.{CommandGives, RequestGives};

use crate::Cause;
use crate::arguments::{
    read_descriptor, read_file, read_nb, read_number, read_process, read_section, read_shared,
};
use crate::word_tables::{command_name, read_access, read_kind, read_op, read_whence};
use fd_table::Limits;
use lock_manager::{LkCmd, Lock, Request, Visit};

/// The name of a command.
#[derive(Clone, Copy)]
pub enum CommandName {
    Lock(LkCmd),
    Flock,
    Open,
    Dup,
    DupTo,
    Close,
    Seek,
    Resize,
    Fork,
    Signal,
    Kill,
    Exit,
    Enter,
    Leave,
    Bail,
}

/// The request that a command of this name makes of its arguments, where a script has these limits.
pub fn read_command(limits: Limits, name: &str, arguments: &[&str]) -> Result<Request, Cause>
    ensures { RequestGives limits (name.now ∷ texts arguments.now) result }
{
    match command_name(name) {
        Some(command) => read_named(limits, command, arguments),
        None => Err(Cause::Word),
    }
}

/// The request that the command makes of its arguments.
fn read_named(limits: Limits, command: CommandName, arguments: &[&str]) -> Result<Request, Cause>
    ensures { RequestGives limits (command_word command ∷ texts arguments.now) result }
{
    match command {
        CommandName::Lock(cmd) => read_lock(cmd, arguments),
        CommandName::Flock => read_flock(arguments),
        CommandName::Open => read_open(arguments),
        CommandName::Dup => read_descriptor_alone(arguments).map(|fd| Request::Dup { fd }),
        CommandName::DupTo => read_dup_to(arguments),
        CommandName::Close => read_descriptor_alone(arguments).map(|fd| Request::CloseFd { fd }),
        CommandName::Seek => {
            let (fd, offset) = read_descriptor_and_number(arguments)?;
            Ok(Request::Seek { fd, offset })
        }
        CommandName::Resize => {
            let (fd, size) = read_descriptor_and_number(arguments)?;
            Ok(Request::Resize { fd, size })
        }
        CommandName::Fork => read_process_alone(limits, arguments).map(|child| Request::Fork {
            child,
        }),
        CommandName::Signal => read_process_alone(limits, arguments).map(|target| Request::Signal {
            target,
        }),
        CommandName::Kill => read_process_alone(limits, arguments).map(|target| Request::Kill {
            target,
        }),
        CommandName::Exit => read_exit(arguments),
        CommandName::Enter => read_enter(arguments),
        CommandName::Leave => read_leave(arguments),
        CommandName::Bail => read_bail(arguments),
    }
}

/// The arguments of open: FILE ACCESS.
fn read_open(arguments: &[&str]) -> Result<Request, Cause>
    ensures { (limits : Limits) → CommandGives limits (codes "open" ∷ texts arguments.now) open_command (texts arguments.now) result }
{
    let [file, access] = arguments else {
        return Err(Cause::Count);
    };
    let file = read_file(file)?;
    let access = read_access(access)?;
    Ok(Request::OpenFile { file, access })
}

/// The arguments of a command on a descriptor alone.
pub fn read_descriptor_alone(arguments: &[&str]) -> Result<u32, Cause>
    ensures { MatchResult result (λ fd. texts arguments.now ≡ decimal fd ∷ [])
        (AreRefused (DescriptorNumber ∷ []) (texts arguments.now)) }
{
    match arguments {
        [fd] => read_descriptor(fd),
        _ => Err(Cause::Count),
    }
}

/// The arguments of a command on a descriptor and a number.
fn read_descriptor_and_number(arguments: &[&str]) -> Result<(u32, i64), Cause>
    ensures { MatchResult result (λ pair. texts arguments.now ≡ decimal pair.0 ∷ signed_decimal pair.1 ∷ [])
        (AreRefused (DescriptorNumber ∷ AnyNumber ∷ []) (texts arguments.now)) }
{
    match arguments {
        [fd, number] => Ok((read_descriptor(fd)?, read_number(number)?)),
        _ => Err(Cause::Count),
    }
}

/// The arguments of dup2: FD FD.
fn read_dup_to(arguments: &[&str]) -> Result<Request, Cause>
    ensures { (limits : Limits) → CommandGives limits (codes "dup2" ∷ texts arguments.now) dup_to_command (texts arguments.now) result }
{
    let [fd, to] = arguments else {
        return Err(Cause::Count);
    };
    let fd = read_descriptor(fd)?;
    let to = read_descriptor(to)?;
    Ok(Request::DupTo { fd, to })
}

/// The arguments of a command on a process alone.
fn read_process_alone(limits: Limits, arguments: &[&str]) -> Result<u8, Cause>
    ensures { MatchResult result (λ p. IsProcess limits p × (texts arguments.now ≡ decimal p ∷ []))
        (AreRefused (ProcessNumber limits ∷ []) (texts arguments.now)) }
{
    match arguments {
        [process] => read_process(limits, process),
        _ => Err(Cause::Count),
    }
}

/// The arguments of exit: none.
fn read_exit(arguments: &[&str]) -> Result<Request, Cause>
    ensures { (limits : Limits) → CommandGives limits (codes "exit" ∷ texts arguments.now) exit_command (texts arguments.now) result }
{
    match arguments {
        [] => Ok(Request::Exit),
        _ => Err(Cause::Count),
    }
}

/// enter: its argument, and then `sh` where it is written.
fn read_enter(arguments: &[&str]) -> Result<Request, Cause>
    ensures { (limits : Limits) → CommandGives limits (codes "enter" ∷ texts arguments.now) enter_command (texts arguments.now) result }
{
    match arguments {
        [section] => {
            let section = read_section(section)?;
            Ok(Request::Enter {
                section,
                visit: Visit::Sole,
            })
        }
        [section, shared] => {
            let section = read_section(section)?;
            read_shared(shared)?;
            Ok(Request::Enter {
                section,
                visit: Visit::Shared,
            })
        }
        _ => Err(Cause::Count),
    }
}

/// The argument of leave: SECTION.
fn read_leave(arguments: &[&str]) -> Result<Request, Cause>
    ensures { (limits : Limits) → CommandGives limits (codes "leave" ∷ texts arguments.now) leave_command (texts arguments.now) result }
{
    let [section] = arguments else {
        return Err(Cause::Count);
    };
    let section = read_section(section)?;
    Ok(Request::Leave { section })
}

/// The arguments of bail: none.
fn read_bail(arguments: &[&str]) -> Result<Request, Cause>
    ensures { (limits : Limits) → CommandGives limits (codes "bail" ∷ texts arguments.now) bail_command (texts arguments.now) result }
{
    match arguments {
        [] => Ok(Request::Bail),
        _ => Err(Cause::Count),
    }
}

/// flock: its arguments, and then `nb` where it is written.
fn read_flock(arguments: &[&str]) -> Result<Request, Cause>
    ensures { (limits : Limits) → CommandGives limits (codes "flock" ∷ texts arguments.now) flock_command (texts arguments.now) result }
{
    match arguments {
        [fd, op] => {
            let fd = read_descriptor(fd)?;
            let op = read_op(op)?;
            Ok(Request::Flock { fd, op, nb: false })
        }
        [fd, op, nb] => {
            let fd = read_descriptor(fd)?;
            let op = read_op(op)?;
            read_nb(nb)?;
            Ok(Request::Flock { fd, op, nb: true })
        }
        _ => Err(Cause::Count),
    }
}

/// A lock command: its arguments, and then the pid where it is written.
fn read_lock(cmd: LkCmd, arguments: &[&str]) -> Result<Request, Cause>
    ensures { let name = lock_command_word cmd in
        (limits : Limits) → CommandGives limits (name ∷ texts arguments.now) (lock_command name) (texts arguments.now) result }
{
    match arguments {
        [fd, kind, whence, start, len] => {
            let (fd, lock) = read_described(fd, kind, whence, start, len)?;
            Ok(Request::Lk { fd, cmd, lock })
        }
        [fd, kind, whence, start, len, pid] => {
            let (fd, lock) = read_described(fd, kind, whence, start, len)?;
            let pid = read_number(pid)?;
            let lock = Lock { pid, ..lock };
            Ok(Request::Lk { fd, cmd, lock })
        }
        _ => Err(Cause::Count),
    }
}

/// A descriptor, and the lock that the words describe, with a pid of 0.
fn read_described(
    fd: &str,
    kind: &str,
    whence: &str,
    start: &str,
    len: &str,
) -> Result<(u32, Lock), Cause>
    ensures { let words = fd.now ∷ kind.now ∷ whence.now ∷ start.now ∷ len.now ∷ [] in
        MatchResult result (λ described. (words ≡ lock_words described.0 described.1) × (described.1.pid ≡ pos 0))
        (IsFirstBad lock_arguments words) }
{
    let fd = read_descriptor(fd)?;
    let lock = Lock {
        kind: read_kind(kind)?,
        whence: read_whence(whence)?,
        start: read_number(start)?,
        len: read_number(len)?,
        pid: 0,
    };
    Ok((fd, lock))
}
