//! Requests by a written rule, of a few processes on two files and a few bytes, with waits of each kind.
ghost use Rattle.std.specs.Prelude.{◌≤◌};

use fd_table::Access;
use lock_manager::{FlockOp, LkCmd, Lock, Request, Visit};
use range_core::{Kind, Whence};
use wait_core_tests::rule::Rule;

/// The lock commands, some of them as often as they are wanted.
const COMMANDS: [LkCmd; 16] = [
    LkCmd::GetLk,
    LkCmd::OGetLk,
    LkCmd::SetLk,
    LkCmd::SetLk,
    LkCmd::SetLk,
    LkCmd::SetLk,
    LkCmd::OSetLk,
    LkCmd::SetLkW,
    LkCmd::SetLkW,
    LkCmd::SetLkW,
    LkCmd::SetLkW,
    LkCmd::SetLkW,
    LkCmd::SetLkW,
    LkCmd::SetLkW,
    LkCmd::SetLkW,
    LkCmd::OSetLkW,
];

/// The kinds of the locks that they ask for.
const KINDS: [Kind; 8] = [
    Kind::Read,
    Kind::Read,
    Kind::Write,
    Kind::Write,
    Kind::Write,
    Kind::Unlock,
    Kind::Unlock,
    Kind::Unlock,
];

/// The descriptors that they are of, as they are at the opening: 0 and 2 of the first file, 1 and 3 of the second, of which process 1 has
/// no 2 and 3, and all share 0 and 1.
const DESCRIPTORS: [u32; 8] = [0, 0, 0, 0, 2, 2, 1, 3];

/// What the starts of these locks are counted from.
const WHENCES: [Whence; 8] = [
    Whence::Set,
    Whence::Set,
    Whence::Set,
    Whence::Set,
    Whence::Set,
    Whence::Set,
    Whence::Cur,
    Whence::End,
];

/// The lengths of these locks.
const LENGTHS: [i64; 8] = [1, 1, 1, 1, 1, 2, 0, -1];

/// The unlock of all bytes.
const UNLOCK_ALL: Lock = Lock {
    kind: Kind::Unlock,
    whence: Whence::Set,
    start: 0,
    len: 0,
    pid: 0,
};

/// Offsets and sizes.
const OFFSETS: [i64; 4] = [-1, 3, 5, i64::MAX];

/// The access modes.
const ACCESSES: [Access; 4] = [Access::R, Access::W, Access::Rw, Access::Rw];

/// The operations of flock.
const OPERATIONS: [FlockOp; 5] = [
    FlockOp::Sh,
    FlockOp::Sh,
    FlockOp::Ex,
    FlockOp::Ex,
    FlockOp::Un,
];

/// Sections: the first two and the last, and one that there isn't.
const SECTIONS: [u8; 4] = [0, 1, 63, 64];

/// One of five processes, the last of them half as often, since it is born only where somebody forks it.
pub(super) fn next_process(rule: &mut Rule) -> u8
    ensures { (1 ≤ result) × (result ≤ 5) }
{
    rule.below(9) as u8 / 2 + 1
}

/// A request.
pub(super) fn next_request(rule: &mut Rule) -> Request {
    match rule.below(32) {
        0..=17 => next_lock_command(rule),
        18..=25 => next_flock(rule),
        26..=29 => Request::Signal {
            target: next_process(rule),
        },
        30 if rule.below(4) == 0 => next_end_or_birth(rule),
        _ => next_descriptor_call(rule),
    }
}

/// A request, which as often as not is one of a section, or a bail.
pub(super) fn next_request_in_sections(rule: &mut Rule) -> Request {
    match rule.below(8) {
        0 | 1 => Request::Enter {
            section: next_section(rule),
            visit: if rule.below(2) == 0 {
                Visit::Sole
            } else {
                Visit::Shared
            },
        },
        2 => Request::Leave {
            section: next_section(rule),
        },
        3 => Request::Bail,
        _ => next_request(rule),
    }
}

/// One of these sections.
fn next_section(rule: &mut Rule) -> u8 {
    SECTIONS[rule.below(4) as usize]
}

/// A descriptor, which may be closed.
fn next_descriptor(rule: &mut Rule) -> u32 {
    DESCRIPTORS[rule.below(8) as usize]
}

/// A lock command.
fn next_lock_command(rule: &mut Rule) -> Request {
    Request::Lk {
        fd: next_descriptor(rule),
        cmd: COMMANDS[rule.below(16) as usize],
        lock: next_lock(rule),
    }
}

/// What it asks for: most unlocks are of all bytes, and few give a pid.
fn next_lock(rule: &mut Rule) -> Lock {
    let kind = KINDS[rule.below(8) as usize];
    if kind == Kind::Unlock && rule.below(4) > 0 {
        return UNLOCK_ALL;
    }
    Lock {
        kind,
        whence: WHENCES[rule.below(8) as usize],
        start: rule.below(5) as i64,
        len: LENGTHS[rule.below(8) as usize],
        pid: i64::from(rule.below(16) == 0),
    }
}

/// A flock, on the first file.
fn next_flock(rule: &mut Rule) -> Request {
    Request::Flock {
        fd: 2 * rule.below(2) as u32,
        op: OPERATIONS[rule.below(5) as usize],
        nb: rule.below(4) == 0,
    }
}

/// A fork, an exit or a kill. Wide limits have all of the children.
fn next_end_or_birth(rule: &mut Rule) -> Request {
    match rule.below(4) {
        0 | 1 => Request::Fork {
            child: rule.below(20) as u8,
        },
        2 => Request::Exit,
        _ => Request::Kill {
            target: next_process(rule),
        },
    }
}

/// A call on descriptors. Wide limits have all of the numbers.
fn next_descriptor_call(rule: &mut Rule) -> Request {
    let fd = next_descriptor(rule);
    match rule.below(6) {
        0 => Request::OpenFile {
            file: rule.below(2) as u8,
            access: ACCESSES[rule.below(4) as usize],
        },
        1 => Request::Dup { fd },
        2 => Request::DupTo {
            fd,
            to: rule.below(40) as u32,
        },
        3 => Request::CloseFd { fd },
        4 => Request::Seek {
            fd,
            offset: OFFSETS[rule.below(4) as usize],
        },
        _ => Request::Resize {
            fd,
            size: OFFSETS[rule.below(4) as usize],
        },
    }
}
