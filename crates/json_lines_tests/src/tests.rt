//! The objects of lines, each written by hand from the table of kinds.
use json_lines::Objects;
use line_writer::LineWriter;
use std::alloc::{AllocError, Global};
use std::fmt::Debug;
use std::io::Write;
use std::process::Abort;
use std::test::Fail;

/// A line of each kind, and its object: members in the order of their names.
const ROWS: &[(&str, &str)] = &[
    (
        "1#4 setlk 0 u set 5 4 | 1#4 ok | 2#1 ok",
        "{\"kind\":\"event\",\"notes\":[{\"answer\":\"ok\",\"number\":4,\"process\":1},{\"answer\":\"ok\",\"number\":1,\"process\":2}],\
         \"number\":4,\"process\":1,\"request\":\"setlk 0 u set 5 4\",\"text\":\"1#4 setlk 0 u set 5 4 | 1#4 ok | 2#1 ok\"}",
    ),
    (
        "1#6 getlk 0 r set 0 0 | 1#6 held w 5 1 2",
        "{\"kind\":\"event\",\"notes\":[{\"answer\":\"held w 5 1 2\",\"number\":6,\"process\":1}],\"number\":6,\"process\":1,\
         \"request\":\"getlk 0 r set 0 0\",\"text\":\"1#6 getlk 0 r set 0 0 | 1#6 held w 5 1 2\"}",
    ),
    (
        "64#1099511627776 exit",
        "{\"kind\":\"event\",\"notes\":[],\"number\":1099511627776,\"process\":64,\"request\":\"exit\",\"text\":\"64#1099511627776 exit\"}",
    ),
    (
        "lock 0 process 1 w 0 9223372036854775807",
        "{\"kind\":\"lock\",\"text\":\"lock 0 process 1 w 0 9223372036854775807\"}",
    ),
    (
        "flock 1 description 3 sh",
        "{\"kind\":\"flock\",\"text\":\"flock 1 description 3 sh\"}",
    ),
    (
        "wait 3#1 0 process 3 w 5 5",
        "{\"kind\":\"wait\",\"text\":\"wait 3#1 0 process 3 w 5 5\"}",
    ),
    (
        "proc 1 sent 7 taken 6 answered 5 live",
        "{\"answered\":5,\"kind\":\"process\",\"process\":1,\"sent\":7,\"state\":\"live\",\"taken\":6,\
         \"text\":\"proc 1 sent 7 taken 6 answered 5 live\"}",
    ),
    (
        "policy queue",
        "{\"kind\":\"header\",\"text\":\"policy queue\"}",
    ),
    (
        "limits wide",
        "{\"kind\":\"header\",\"text\":\"limits wide\"}",
    ),
    (
        "# 2#1 blocked by lock 0 process 1 w 0 99",
        "{\"kind\":\"explanation\",\"text\":\"# 2#1 blocked by lock 0 process 1 w 0 99\"}",
    ),
    ("# stuck", "{\"kind\":\"explanation\",\"text\":\"# stuck\"}"),
    (
        "# proc 1 live",
        "{\"kind\":\"state\",\"text\":\"# proc 1 live\"}",
    ),
    (
        "# file 0 size 100",
        "{\"kind\":\"state\",\"text\":\"# file 0 size 100\"}",
    ),
    (
        "# - proc 1 live",
        "{\"kind\":\"went\",\"text\":\"# - proc 1 live\"}",
    ),
    (
        "# + proc 1 waiting",
        "{\"kind\":\"came\",\"text\":\"# + proc 1 waiting\"}",
    ),
    (
        "stuck never",
        "{\"finding\":\"stuck\",\"found\":\"never\",\"kind\":\"finding\",\"text\":\"stuck never\"}",
    ),
    (
        "deadlock possible in 6 events",
        "{\"events\":6,\"finding\":\"deadlock\",\"found\":\"possible\",\"kind\":\"finding\",\"text\":\"deadlock possible in 6 events\"}",
    ),
    (
        "lost not found in 500 situations",
        "{\"finding\":\"lost\",\"found\":\"not found\",\"kind\":\"finding\",\"situations\":500,\"text\":\"lost not found in 500 situations\"}",
    ),
    (
        "situations 383",
        "{\"count\":383,\"kind\":\"situations\",\"text\":\"situations 383\"}",
    ),
    (
        "ends 2",
        "{\"count\":2,\"kind\":\"ends\",\"text\":\"ends 2\"}",
    ),
    (
        "longest 12",
        "{\"count\":12,\"kind\":\"longest\",\"text\":\"longest 12\"}",
    ),
    (
        "line 9: 3#2 setlkw 0 w set 0 1 | 3#2 EDEADLK expected",
        "{\"kind\":\"verdict\",\"line\":9,\"text\":\"line 9: 3#2 setlkw 0 w set 0 1 | 3#2 EDEADLK expected\"}",
    ),
    (
        "18446744073709551615 behind 5",
        "{\"id\":18446744073709551615,\"kind\":\"effect\",\"line\":5,\"text\":\"18446744073709551615 behind 5\"}",
    ),
    (
        "4 lets go behind 6",
        "{\"id\":4,\"kind\":\"lets_go\",\"line\":6,\"text\":\"4 lets go behind 6\"}",
    ),
    (
        "7 waits since 12",
        "{\"id\":7,\"kind\":\"waits\",\"line\":12,\"text\":\"7 waits since 12\"}",
    ),
    (
        "a \"line\" of none of them",
        "{\"kind\":\"line\",\"text\":\"a \\\"line\\\" of none of them\"}",
    ),
];

/// The two are the same.
fn same<T: PartialEq + Debug + Drop>(rt: &impl Abort, left: T, right: T) {
    assert_eq!(rt; left, right);
}

/// What the writer makes of these bytes, which it is given so many at a time, and at least one.
fn written(alloc: Global, bytes: &[u8], at_once: usize) -> Result<Vec<u8>, Fail> {
    let mut writer = LineWriter::new(alloc, Objects::new(alloc, Vec::new(alloc)));
    for part in bytes.chunks(at_once.max(1)) {
        writer.write_all(part)?;
    }
    Ok(writer.into_inner().into_inner())
}

/// The bytes of a text, and the end of its line.
fn whole_line(alloc: Global, text: &str) -> Result<Vec<u8>, AllocError> {
    let mut line = Vec::from_slice(alloc, text.as_bytes())?;
    line.push(b'\n')?;
    Ok(line)
}

/// The line becomes its object, whether it comes at once or byte by byte.
fn becomes(rt: &impl Abort, alloc: Global, line: &str, object: &str) -> Result<(), Fail> {
    let (plain, expected) = (whole_line(alloc, line)?, whole_line(alloc, object)?);
    for at_once in [1, plain.len()] {
        let told = written(alloc, &plain, at_once)?;
        same(rt, (line, told.as_slice()), (line, expected.as_slice()));
    }
    Ok(())
}

/// Each line becomes its object.
#[test]
fn each_kind(rt: HostRuntime) -> Result<(), Fail> {
    for (line, object) in ROWS {
        becomes(&rt, rt.alloc(), *line, *object)?;
    }
    Ok(())
}

/// Lines come in their order, and one that isn't whole isn't handed on.
#[test]
fn lines_in_order(rt: HostRuntime) -> Result<(), Fail> {
    let told = written(rt.alloc(), b"ends 1\npolicy held\nlock 0", 5)?;
    let objects: &[u8] =
        b"{\"count\":1,\"kind\":\"ends\",\"text\":\"ends 1\"}\n{\"kind\":\"header\",\"text\":\"policy held\"}\n";
    same(&rt, told.as_slice(), objects);
    Ok(())
}

/// A line of a million bytes is handed on whole.
#[test]
fn a_line_of_a_million_bytes(rt: HostRuntime) -> Result<(), Fail> {
    let mut line = vec![in rt.alloc(); b'x'; 1_000_000]?;
    line.push(b'\n')?;
    let told = written(rt.alloc(), &line, line.len())?;
    let around = "{\"kind\":\"line\",\"text\":\"\"}\n".len();
    same(&rt, told.len(), 1_000_000 + around);
    Ok(())
}

/// What isn't text is refused, and it isn't for want of memory.
#[test]
fn no_text(rt: HostRuntime) {
    let mut writer = LineWriter::new(rt.alloc(), Objects::new(rt.alloc(), Vec::new(rt.alloc())));
    same(&rt, writer.write_all(b"\xff\n").is_err(), true);
    same(&rt, writer.refused(), None);
}
