//! Runs and their pictures, each drawn by hand.
use line_writer::LineWriter;
use std::alloc::Global;
use std::io::Write;
use std::test::Fail;
use timeline::Timeline;

/// A run of three processes, with the state behind each event, and its picture.
const RUN: &str = "\
1#1 open 0 rw | 1#1 fd 0
# proc 1 live
# fd 1 0 description 1 file 0 rw offset 0
1#2 fork 2 | 1#2 ok
# proc 1 live
# proc 2 live
# fd 1 0 description 1 file 0 rw offset 0
# fd 2 0 description 1 file 0 rw offset 0
2#1 setlk 0 w set 0 10 | 2#1 ok
# lock 0 process 2 w 0 9
# proc 1 live
# proc 2 live
# fd 1 0 description 1 file 0 rw offset 0
# fd 2 0 description 1 file 0 rw offset 0
1#3 setlkw 0 r set 5 1 | 1#3 waits
# 1#3 blocked by lock 0 process 2 w 0 9
# lock 0 process 2 w 0 9
# wait 1#3 0 process 1 r 5 5
# proc 1 waiting
# proc 2 live
# fd 1 0 description 1 file 0 rw offset 0
# fd 2 0 description 1 file 0 rw offset 0
2#2 exit | 1#3 ok
# 2#2 released lock 0 process 2 w 0 9
# lock 0 process 1 r 5 5
# proc 1 live
# proc 2 ended
# fd 1 0 description 1 file 0 rw offset 0
lock 0 process 1 r 5 5
proc 1 sent 3 taken 3 answered 3 live
proc 2 sent 2 taken 2 answered 1 ended
";

const PICTURE: &str = "\x20      1                                   2
1#1    open 0 rw fd 0                      |
1#2    fork 2                              |
2#1    |                                   setlk 0 w set 0 10
1#3    setlkw 0 r set 5 1 waits            W
2#2    R                                   exit
";

/// Locks of descriptions are of each process that has the description open; a request that is refused names its error.
const SHARED: &str = "\
policy queue
1#3 flock 0 sh | 1#3 ok
# flock 0 description 1 sh
# proc 1 live
# proc 2 live
# proc 7 live
# fd 1 0 description 1 file 0 rw offset 0
# fd 2 0 description 2 file 0 rw offset 0
# fd 7 0 description 1 file 0 rw offset 0
2#1 flock 0 ex nb | 2#1 EAGAIN
# flock 0 description 1 sh
# proc 1 live
# proc 2 live
# proc 7 live
# fd 1 0 description 1 file 0 rw offset 0
# fd 2 0 description 2 file 0 rw offset 0
# fd 7 0 description 1 file 0 rw offset 0
2#2 ogetlk 0 w set 0 0 | 2#2 held r 0 0 -1
# lock 0 description 1 r 0 9223372036854775807
# lock 3 description 1 w 2 4
# proc 1 ended
# proc 2 live
# proc 7 waiting
# fd 2 0 description 1 file 0 rw offset 0
# fd 7 0 description 1 file 0 rw offset 0
";

const SHARED_PICTURE: &str = "\x20      1                       2                       7
1#3    flock 0 sh              |                       R
2#1    R                       flock 0 ex nb EAGAIN    R
2#2    |                       ogetlk 0 w set 0 0 held :
";

/// Six processes, of which five have columns, and a request that its column cuts.
const SIX: &str = "\
6#1 setlk 0 w set 0 10 | 6#1 ok
# lock 0 process 6 w 0 9
# proc 1 live
# proc 2 live
# proc 3 live
# proc 4 live
# proc 5 live
# proc 6 live
5#100 setlkw 0 w set 0 10 | 5#100 waits
# lock 0 process 6 w 0 9
# wait 5#100 0 process 5 w 0 9
# proc 1 live
# proc 2 live
# proc 3 live
# proc 4 live
# proc 5 waiting
# proc 6 live
";

const SIX_PICTURE: &str = "\x20      1             2             3             4             5
6#1    |             |             |             |             |
5#100  |             |             |             |             setlkw 0 w se
";

/// What is drawn of these lines.
fn drawn(alloc: Global, lines: &str) -> Result<Vec<u8>, Fail> {
    let mut writer = LineWriter::new(alloc, Timeline::new(alloc));
    writer.write_all(lines.as_bytes())?;
    let mut picture = Vec::new(alloc);
    writer.into_inner().draw(&mut picture)?;
    Ok(picture)
}

/// Each of these runs has its picture.
#[test]
fn pictures_by_hand(rt: HostRuntime) -> Result<(), Fail> {
    let rows = [
        (RUN, PICTURE),
        (SHARED, SHARED_PICTURE),
        (SIX, SIX_PICTURE),
        ("", ""),
    ];
    for (run, picture) in rows {
        let seen = drawn(rt.alloc(), run)?;
        assert_eq!(rt; seen.as_slice(), picture.as_bytes(), "{picture}");
    }
    Ok(())
}

/// A run of many events, each with its row.
#[test]
fn thousands_of_rows(rt: HostRuntime) -> Result<(), Fail> {
    let mut writer = LineWriter::new(rt.alloc(), Timeline::new(rt.alloc()));
    for _ in 0..20_000 {
        writer.write_all(b"1#7 seek 0 7 | 1#7 ok\n# proc 1 live\n")?;
    }
    let mut picture = Vec::new(rt.alloc());
    writer.into_inner().draw(&mut picture)?;
    assert_eq!(rt;
        picture.len(),
        "       1\n".len() + 20_000 * "1#7    seek 0 7\n".len()
    );
    Ok(())
}
