//! What want of memory leaves, run with each allocation refused in turn; and the notes of the lock manager beside those of a plain one,
//! on the worked scripts, which stand here, and on others. What lines, entries and reports say is tried on the program
//! (`tests/lines.sh`, `tests/worked-scripts.sh`), and so are large ones (`tests/large-scripts.sh`).
mod listed;
mod made;
mod taking;
mod worked;

use fd_table::{Access, Limits};
use lock_manager::{FlockOp, LkCmd, Lock, Request, Rules};
use range_core::{Kind, Memory, Whence};
use script_core::{
    Cause, JournalFault, JournalReader, ScriptFault, parse, parse_entry, write_entry, write_report,
};
use session_core::{Entry, Notes, run_all};
use std::alloc::Global;
use std::fmt::Debug;
use std::process::Abort;
use std::test::Fail;
use wait_core::Policy;

/// What a call comes to that is made again after a growth was refused: it must succeed, for at most one is refused in a run.
fn again<T>(rt: &impl Abort, second: Result<T, Memory>) -> T {
    second.expect(rt, "refused again")
}

/// The two are the same.
fn same<T: PartialEq + Debug + Drop>(rt: &impl Abort, left: T, right: T) {
    assert_eq!(rt; left, right);
}

/// A refused growth of `parse` is told of one of the lines, whatever the script says; and then the script is read as ever.
#[test]
fn parse_without_memory(rt: HostRuntime) {
    let conversion = b"1 open 0 rw\n1 setlk 0 w set 0 100\n1 setlk 0 r set 40 20\n";
    check_parse(&rt, rt.alloc(), conversion, None);
    let faulty = b"1 open 0 r\n1 open 0 rw\n1 setlk 0 w set\n";
    let fault = ScriptFault {
        line: 3,
        cause: Cause::Count,
    };
    check_parse(&rt, rt.alloc(), faulty, Some(fault));
}

fn check_parse(rt: &impl Abort, alloc: Global, script: &[u8], expected: Option<ScriptFault>) {
    let mut found = parse(alloc, script).map(|read| read.arrivals.len());
    if let Err(fault) = found
        && matches!(fault.cause, Cause::Memory(_))
    {
        let is_told_of_a_line = (1..=3).contains(&fault.line);
        same(rt, (fault, is_told_of_a_line), (fault, true));
        found = parse(alloc, script).map(|read| read.arrivals.len());
    }
    let due = match expected {
        None => Ok(3),
        Some(fault) => Err(fault),
    };
    same(rt, found, due);
}

/// A set of the first hundred bytes.
const SET: Request = Request::Lk {
    fd: 0,
    cmd: LkCmd::SetLk,
    lock: Lock {
        kind: Kind::Write,
        whence: Whence::Set,
        start: 0,
        len: 100,
        pid: 5,
    },
};

/// What is written of it twice.
const SET_TWICE: &[u8] = b"1#2 setlk 0 w set 0 100 5\n1#2 setlk 0 w set 0 100 5\n";

/// Writes the entry behind what stands there, which comes to these lines. A refused growth leaves the old bytes and a front of the text,
/// and written again behind these it is the whole one.
fn check_write(rt: &impl Abort, entry: &Entry, out: &mut Vec<u8>, lines: &[u8]) {
    let old = out.len();
    if write_entry(entry, out).is_err() {
        same(rt, old <= out.len() && lines.starts_with(out), true);
        out.truncate(old);
        same(rt, write_entry(entry, out).is_ok(), true);
    }
    same(rt, out.as_slice(), lines);
}

#[test]
fn write_without_memory(rt: HostRuntime) {
    let entry = Entry {
        p: 1,
        n: 2,
        request: SET,
        notes: Notes::of(Vec::new(rt.alloc())),
    };
    let mut out = Vec::new(rt.alloc());
    check_write(&rt, &entry, &mut out, &SET_TWICE[..26]);
    check_write(&rt, &entry, &mut out, SET_TWICE);
}

const RULES: Rules = Rules {
    policy: Policy::Held,
    limits: Limits::Small,
};

/// What stands behind the requests of [`write_report_without_memory`], written by hand.
const REPORT: &[u8] = b"flock 7 description 1 ex
wait 2#2 7 flock description 2 ex
proc 1 sent 3 taken 3 answered 3 live
proc 2 sent 2 taken 2 answered 1 waiting
";

/// A flock for writing that may wait.
fn exclude(fd: u32) -> Request {
    Request::Flock {
        fd,
        op: FlockOp::Ex,
        nb: false,
    }
}

/// A refused growth of `write_report` leaves the old bytes and a front of the text, and written again it is the whole one.
#[test]
fn write_report_without_memory(rt: HostRuntime) -> Result<(), Fail> {
    let access = Access::Rw;
    let arrivals = [
        (1, Request::OpenFile { file: 7, access }),
        (1, exclude(0)),
        (1, Request::Fork { child: 2 }),
        (2, Request::OpenFile { file: 7, access }),
        (2, exclude(1)),
    ];
    let session = run_all(rt.alloc(), 2, RULES, &arrivals)?;
    let mut out = Vec::new(rt.alloc());
    if write_report(session.sequencer(), &[3, 2], &mut out).is_err() {
        same(&rt, REPORT.starts_with(&out), true);
        out.clear();
        again(&rt, write_report(session.sequencer(), &[3, 2], &mut out));
    }
    same(&rt, out.as_slice(), REPORT);
    Ok(())
}

/// The lines of a journal.
const JOURNAL: &[&str] = &[
    "policy queue",
    "limits wide",
    "1#1 open 0 rw | 1#1 fd 0",
    "1#2 fork 2 | 1#2 ok",
    "1#3 setlk 0 w set 0 1 | 1#3 ok",
    "2#1 setlk 0 w set 1 1 | 2#1 ok",
    "1#4 setlkw 0 w set 1 1 | 1#4 waits",
    "2#2 setlkw 0 w set 0 1 | 2#2 EDEADLK",
    "2#3 setlk 0 u set 1 1 | 2#3 ok | 1#4 ok",
];

/// Reads the line. Want of memory leaves what was read of a journal, and then the line is read as if it came first.
fn check_line(rt: &impl Abort, reader: &mut JournalReader, line: &str) {
    if let Err(fault) = reader.next(line.as_bytes()) {
        let is_refused = matches!(fault, JournalFault::Memory(_));
        same(rt, (line, is_refused), (line, true));
        let second = reader.next(line.as_bytes());
        same(rt, (line, second.is_ok()), (line, true));
    }
}

#[test]
fn read_journal_without_memory(rt: HostRuntime) {
    let Ok(mut reader) = JournalReader::new(rt.alloc()) else {
        return;
    };
    for line in JOURNAL {
        check_line(&rt, &mut reader, line);
    }
    same(&rt, reader.finish(), Ok(()));
}

/// Reads an entry of so many notes, of which there may be more, or one with this fault. Want of memory is told of a line with a note alone,
/// where nothing else is wrong with what stands before it.
fn check_entry(
    rt: &impl Abort,
    alloc: Global,
    line: &[u8],
    notes: usize,
    due: Result<usize, Cause>,
) {
    let mut found = parse_entry(alloc, Limits::Small, line);
    if matches!(found, Err(Cause::Memory(_))) {
        same(rt, (line, notes > 0), (line, true));
        found = parse_entry(alloc, Limits::Small, line);
    }
    let told = found.map(|entry| entry.notes.as_slice().len());
    same(rt, told, due);
}

#[test]
fn parse_entry_without_memory(rt: HostRuntime) {
    let alloc = rt.alloc();
    let (two, no_error) = (
        b"1#2 signal 3 | 1#2 ok | 3#1 EINTR",
        b"1#2 signal 3 | 1#2 ok | 3#1 Eintr",
    );
    let no_reply = b"1#2 signal 3 | 1#2 yes | 3#1 EINTR";
    check_entry(&rt, alloc, b"1#1 exit", 0, Ok(0));
    check_entry(&rt, alloc, two, 2, Ok(2));
    check_entry(&rt, alloc, no_error, 2, Err(Cause::Word));
    check_entry(&rt, alloc, no_reply, 0, Err(Cause::Word));
}
