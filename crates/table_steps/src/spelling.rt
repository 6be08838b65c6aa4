//! Requests and answers as words, and back.
ghost use Rattle.std.specs.Prelude.{◌≡◌, ℕ, ◌+◌, ◌*◌, ◌≤◌, ◌<◌, ◌^◌};
ghost use Rattle.table_steps.specs.Spelling.{request_spelled, answer_spelled, RequestFits, ReplyFits};
ghost use Rattle.table_steps.specs.Spelling.{access_code, mode_code, kind_code, whence_code, op_code, visit_code, flag_code, command_code, error_code};
ghost use Rattle.table_steps.specs.Spelling.{access_in, mode_in, kind_in, whence_in, op_in, visit_of_code, command_in, lock_in, error_in};

use fd_table::Access;
use lock_manager::{Errno, FlockOp, LkCmd, Lock, Reply, Request, Visit};
use range_core::{Kind, Mode, Whence};

fn access_number(access: Access) -> u64
    ensures { result ≡ access_code access }
{
    match access {
        Access::R => 0,
        Access::W => 1,
        Access::Rw => 2,
    }
}

fn kind_number(kind: Kind) -> u64
    ensures { (result ≡ kind_code kind) × (result ≤ 2) }
{
    match kind {
        Kind::Read => 0,
        Kind::Write => 1,
        Kind::Unlock => 2,
    }
}

fn whence_number(whence: Whence) -> u64
    ensures { (result ≡ whence_code whence) × (result ≤ 2) }
{
    match whence {
        Whence::Set => 0,
        Whence::Cur => 1,
        Whence::End => 2,
    }
}

fn op_number(op: FlockOp) -> u64
    ensures { (result ≡ op_code op) × (result ≤ 2) }
{
    match op {
        FlockOp::Sh => 0,
        FlockOp::Ex => 1,
        FlockOp::Un => 2,
    }
}

fn visit_number(visit: Visit) -> u64
    ensures { result ≡ visit_code visit }
{
    match visit {
        Visit::Sole => 0,
        Visit::Shared => 1,
    }
}

fn flag_number(flag: bool) -> u64
    ensures { (result ≡ flag_code flag) × (result ≤ 1) }
{
    if flag { 1 } else { 0 }
}

fn command_number(command: LkCmd) -> u64
    ensures { result ≡ command_code command }
{
    match command {
        LkCmd::GetLk => 7,
        LkCmd::SetLk => 8,
        LkCmd::SetLkW => 9,
        LkCmd::OGetLk => 10,
        LkCmd::OSetLk => 11,
        LkCmd::OSetLkW => 12,
    }
}

/// The six words of a request.
pub fn spell_request(request: Request) -> [u64; 6]
    ensures words { result ≡ request_spelled request }
    ensures fits { RequestFits request }
{
    match request {
        Request::OpenFile { file, access } => [1, file as u64, access_number(access), 0, 0, 0],
        Request::Dup { fd } => [2, fd as u64, 0, 0, 0, 0],
        Request::DupTo { fd, to } => [3, fd as u64, to as u64, 0, 0, 0],
        Request::CloseFd { fd } => [4, fd as u64, 0, 0, 0, 0],
        Request::Seek { fd, offset } => [5, fd as u64, 0, offset.cast_unsigned(), 0, 0],
        Request::Resize { fd, size } => [6, fd as u64, 0, size.cast_unsigned(), 0, 0],
        Request::Lk { fd, cmd, lock } => [
            command_number(cmd),
            fd as u64,
            3 * whence_number(lock.whence) + kind_number(lock.kind),
            lock.start.cast_unsigned(),
            lock.len.cast_unsigned(),
            lock.pid.cast_unsigned(),
        ],
        Request::Flock { fd, op, nb } => [
            13,
            fd as u64,
            2 * op_number(op) + flag_number(nb),
            0,
            0,
            0,
        ],
        Request::Fork { child } => [14, child as u64, 0, 0, 0, 0],
        Request::Exit => [15, 0, 0, 0, 0, 0],
        Request::Signal { target } => [16, target as u64, 0, 0, 0, 0],
        Request::Kill { target } => [17, target as u64, 0, 0, 0, 0],
        Request::Enter { section, visit } => [18, section as u64, visit_number(visit), 0, 0, 0],
        Request::Leave { section } => [19, section as u64, 0, 0, 0, 0],
        Request::Bail => [20, 0, 0, 0, 0, 0],
    }
}

fn access_in_word(word: u64) -> Access
    ensures { result ≡ access_in word }
{
    match word {
        0 => Access::R,
        1 => Access::W,
        _ => Access::Rw,
    }
}

fn kind_in_word(word: u64) -> Kind
    ensures { result ≡ kind_in word }
{
    match word {
        0 => Kind::Read,
        1 => Kind::Write,
        _ => Kind::Unlock,
    }
}

fn whence_in_word(word: u64) -> Whence
    ensures { result ≡ whence_in word }
{
    match word {
        0 => Whence::Set,
        1 => Whence::Cur,
        _ => Whence::End,
    }
}

fn op_in_word(word: u64) -> FlockOp
    ensures { result ≡ op_in word }
{
    match word {
        0 => FlockOp::Sh,
        1 => FlockOp::Ex,
        _ => FlockOp::Un,
    }
}

fn visit_in_word(word: u64) -> Visit
    ensures { result ≡ visit_of_code word }
{
    if word == 0 {
        Visit::Sole
    } else {
        Visit::Shared
    }
}

fn command_in_word(word: u64) -> LkCmd
    ensures { result ≡ command_in word }
{
    match word {
        7 => LkCmd::GetLk,
        8 => LkCmd::SetLk,
        9 => LkCmd::SetLkW,
        10 => LkCmd::OGetLk,
        11 => LkCmd::OSetLk,
        _ => LkCmd::OSetLkW,
    }
}

fn mode_in_word(word: u64) -> Mode
    ensures { result ≡ mode_in word }
{
    if word == 0 { Mode::Read } else { Mode::Write }
}

fn error_in_word(word: u64) -> Errno
    ensures { result ≡ error_in word }
{
    match word {
        1 => Errno::EBADF,
        2 => Errno::EINVAL,
        3 => Errno::EOVERFLOW,
        4 => Errno::EAGAIN,
        5 => Errno::EDEADLK,
        6 => Errno::EINTR,
        7 => Errno::EMFILE,
        _ => Errno::ESRCH,
    }
}

fn half(word: u64) -> u32
    ensures { word < 2 ^ 32 → result ≡ word }
{
    (word % (1 << 32)) as u32
}

fn octet(word: u64) -> u8
    ensures { word < 2 ^ 8 → result ≡ word }
{
    (word % 256) as u8
}

fn lock_in_words(how: u64, start: u64, len: u64, pid: u64) -> Lock
    ensures { result ≡ lock_in how start len pid }
{
    Lock {
        kind: kind_in_word(how % 3),
        whence: whence_in_word(how / 3),
        start: start.cast_signed(),
        len: len.cast_signed(),
        pid: pid.cast_signed(),
    }
}

/// The request that six words spell.
pub fn read_request(words: [u64; 6]) -> Request
    ensures { (r : Request) → RequestFits r → words ≡ request_spelled r → result ≡ r }
{
    let [a, b, c, d, e, f] = words;
    match a {
        1 => Request::OpenFile {
            file: octet(b),
            access: access_in_word(c),
        },
        2 => Request::Dup { fd: half(b) },
        3 => Request::DupTo {
            fd: half(b),
            to: half(c),
        },
        4 => Request::CloseFd { fd: half(b) },
        5 => Request::Seek {
            fd: half(b),
            offset: d.cast_signed(),
        },
        6 => Request::Resize {
            fd: half(b),
            size: d.cast_signed(),
        },
        13 => Request::Flock {
            fd: half(b),
            op: op_in_word(c / 2),
            nb: c % 2 == 1,
        },
        14 => Request::Fork { child: octet(b) },
        15 => Request::Exit,
        16 => Request::Signal { target: octet(b) },
        17 => Request::Kill { target: octet(b) },
        18 => Request::Enter {
            section: octet(b),
            visit: visit_in_word(c),
        },
        19 => Request::Leave { section: octet(b) },
        20 => Request::Bail,
        _ => Request::Lk {
            fd: half(b),
            cmd: command_in_word(a),
            lock: lock_in_words(c, d, e, f),
        },
    }
}

fn mode_number(mode: Mode) -> u64
    ensures { result ≡ mode_code mode }
{
    match mode {
        Mode::Read => 0,
        Mode::Write => 1,
    }
}

fn error_number(error: Errno) -> u64
    ensures { result ≡ error_code error }
{
    match error {
        Errno::EBADF => 1,
        Errno::EINVAL => 2,
        Errno::EOVERFLOW => 3,
        Errno::EAGAIN => 4,
        Errno::EDEADLK => 5,
        Errno::EINTR => 6,
        Errno::EMFILE => 7,
        Errno::ESRCH => 8,
    }
}

/// The six words of a reply with its place.
pub fn spell_answer(reply: Reply, place: u64) -> [u64; 6]
    ensures words { result ≡ answer_spelled reply place }
    ensures fits { ReplyFits reply }
{
    match reply {
        Reply::Ok => [1, 0, 0, 0, 0, place],
        Reply::Fd(fd) => [2, fd as u64, 0, 0, 0, place],
        Reply::Free => [3, 0, 0, 0, 0, place],
        Reply::Held {
            mode,
            start,
            len,
            pid,
        } => [4, mode_number(mode), start, len, pid.cast_unsigned(), place],
        Reply::Err(error) => [5, error_number(error), 0, 0, 0, place],
    }
}

/// The reply that six words spell, with its place.
pub fn read_answer(words: [u64; 6]) -> (Reply, u64)
    ensures { (r : Reply) (place : ℕ) → ReplyFits r → words ≡ answer_spelled r place → (result.0 ≡ r) × (result.1 ≡ place) }
{
    let [a, b, c, d, e, f] = words;
    let reply = match a {
        1 => Reply::Ok,
        2 => Reply::Fd(half(b)),
        3 => Reply::Free,
        4 => Reply::Held {
            mode: mode_in_word(b),
            start: c,
            len: d,
            pid: e.cast_signed(),
        },
        _ => Reply::Err(error_in_word(b)),
    };
    (reply, f)
}
