//! The worked scripts, with the lines of their entries. Printed by `tests/worked-rows.sh`, to which the gate holds it.
use super::taking::Row;

pub const ROWS: &[Row] = &[
    Row {
        name: "a-byte-at-the-largest-offset",
        script: b"1 open 0 rw
1 setlk 0 r set 10 -10
1 setlk 0 r set 10 -11
1 setlk 0 r set 9223372036854775807 2
1 setlk 0 w set 0 0
1 setlk 0 u set 9223372036854775807 1
1 seek 0 9223372036854775807
1 setlk 0 r cur 1 -1
",
        entries: b"1#1 open 0 rw | 1#1 fd 0
1#2 setlk 0 r set 10 -10 | 1#2 ok
1#3 setlk 0 r set 10 -11 | 1#3 EINVAL
1#4 setlk 0 r set 9223372036854775807 2 | 1#4 EOVERFLOW
1#5 setlk 0 w set 0 0 | 1#5 ok
1#6 setlk 0 u set 9223372036854775807 1 | 1#6 ok
1#7 seek 0 9223372036854775807 | 1#7 ok
1#8 setlk 0 r cur 1 -1 | 1#8 ok
",
    },
    Row {
        name: "a-close-of-another-descriptor-drops-the-lock",
        script: b"1 open 3 rw
1 open 3 r
1 setlk 0 w set 0 10
1 close 1
",
        entries: b"1#1 open 3 rw | 1#1 fd 0
1#2 open 3 r | 1#2 fd 1
1#3 setlk 0 w set 0 10 | 1#3 ok
1#4 close 1 | 1#4 ok
",
    },
    Row {
        name: "a-comment",
        script: b"# 17 exit
",
        entries: b"",
    },
    Row {
        name: "a-conversion-by-flock-that-is-lost",
        script: b"1 open 0 r
1 open 0 r
1 flock 0 sh
1 flock 1 sh
1 flock 0 ex nb
",
        entries: b"1#1 open 0 r | 1#1 fd 0
1#2 open 0 r | 1#2 fd 1
1#3 flock 0 sh | 1#3 ok
1#4 flock 1 sh | 1#4 ok
1#5 flock 0 ex nb | 1#5 EAGAIN
",
    },
    Row {
        name: "a-conversion-splits",
        script: b"1 open 0 rw
1 setlk 0 w set 0 100
1 setlk 0 r set 40 20
",
        entries: b"1#1 open 0 rw | 1#1 fd 0
1#2 setlk 0 w set 0 100 | 1#2 ok
1#3 setlk 0 r set 40 20 | 1#3 ok
",
    },
    Row {
        name: "a-cycle-of-three-through-one-of-two-readers",
        script: b"1 open 0 rw
1 fork 2
1 fork 3
1 fork 4
1 setlk 0 w set 0 1
2 setlk 0 r set 1 1
3 setlk 0 r set 1 1
4 setlk 0 w set 2 1
1 setlkw 0 w set 1 1
3 setlkw 0 w set 2 1
4 setlk 0 w set 0 1
4 setlkw 0 w set 0 1
",
        entries: b"1#1 open 0 rw | 1#1 fd 0
1#2 fork 2 | 1#2 ok
1#3 fork 3 | 1#3 ok
1#4 fork 4 | 1#4 ok
1#5 setlk 0 w set 0 1 | 1#5 ok
2#1 setlk 0 r set 1 1 | 2#1 ok
3#1 setlk 0 r set 1 1 | 3#1 ok
4#1 setlk 0 w set 2 1 | 4#1 ok
1#6 setlkw 0 w set 1 1 | 1#6 waits
3#2 setlkw 0 w set 2 1 | 3#2 waits
4#2 setlk 0 w set 0 1 | 4#2 EAGAIN
4#3 setlkw 0 w set 0 1 | 4#3 EDEADLK
",
    },
    Row {
        name: "a-cycle-of-two",
        script: b"1 open 0 rw
1 fork 2
1 setlk 0 w set 0 1
2 setlk 0 w set 1 1
1 setlkw 0 w set 1 1
2 setlkw 0 w set 0 1
2 setlk 0 u set 1 1
",
        entries: b"1#1 open 0 rw | 1#1 fd 0
1#2 fork 2 | 1#2 ok
1#3 setlk 0 w set 0 1 | 1#3 ok
2#1 setlk 0 w set 1 1 | 2#1 ok
1#4 setlkw 0 w set 1 1 | 1#4 waits
2#2 setlkw 0 w set 0 1 | 2#2 EDEADLK
2#3 setlk 0 u set 1 1 | 2#3 ok | 1#4 ok
",
    },
    Row {
        name: "a-grant-inside-a-conversion-by-flock",
        script: b"1 open 0 rw
1 fork 2
2 open 0 rw
1 flock 0 ex
2 flock 1 ex
1 flock 0 sh nb
",
        entries: b"1#1 open 0 rw | 1#1 fd 0
1#2 fork 2 | 1#2 ok
2#1 open 0 rw | 2#1 fd 1
1#3 flock 0 ex | 1#3 ok
2#2 flock 1 ex | 2#2 waits
1#4 flock 0 sh nb | 1#4 EAGAIN | 2#2 ok
",
    },
    Row {
        name: "a-header-line-behind-a-comment",
        script: b"# x
policy held
",
        entries: b"",
    },
    Row {
        name: "a-line-of-120-bytes",
        script: b"1 exit                                                                                                                  
",
        entries: b"1#1 exit
",
    },
    Row {
        name: "a-range-is-resolved-once-and-the-offset-is-shared",
        script: b"1 open 0 rw
1 fork 2
1 setlk 0 w set 100 10
2 resize 0 50
2 seek 0 100
2 setlkw 0 w cur 0 5
1 seek 0 0
1 setlk 0 u set 100 10
1 setlk 0 r end 0 -50
1 setlk 0 r cur 0 1
",
        entries: b"1#1 open 0 rw | 1#1 fd 0
1#2 fork 2 | 1#2 ok
1#3 setlk 0 w set 100 10 | 1#3 ok
2#1 resize 0 50 | 2#1 ok
2#2 seek 0 100 | 2#2 ok
2#3 setlkw 0 w cur 0 5 | 2#3 waits
1#4 seek 0 0 | 1#4 ok
1#5 setlk 0 u set 100 10 | 1#5 ok | 2#3 ok
1#6 setlk 0 r end 0 -50 | 1#6 ok
1#7 setlk 0 r cur 0 1 | 1#7 ok
",
    },
    Row {
        name: "a-reader-doesnt-pass-a-waiting-writer",
        script: b"policy queue
1 open 0 rw
1 fork 2
1 fork 3
1 setlk 0 r set 0 10
2 setlkw 0 w set 0 10
3 setlkw 0 r set 0 10
1 setlk 0 u set 0 10
",
        entries: b"1#1 open 0 rw | 1#1 fd 0
1#2 fork 2 | 1#2 ok
1#3 fork 3 | 1#3 ok
1#4 setlk 0 r set 0 10 | 1#4 ok
2#1 setlkw 0 w set 0 10 | 2#1 waits
3#1 setlkw 0 r set 0 10 | 3#1 waits
1#5 setlk 0 u set 0 10 | 1#5 ok | 2#1 ok
",
    },
    Row {
        name: "a-reader-passes-a-writer-that-waits",
        script: b"1 open 0 rw
1 fork 2
1 fork 3
1 setlk 0 r set 0 10
2 setlkw 0 w set 0 10
3 setlkw 0 r set 0 10
1 setlk 0 u set 0 10
",
        entries: b"1#1 open 0 rw | 1#1 fd 0
1#2 fork 2 | 1#2 ok
1#3 fork 3 | 1#3 ok
1#4 setlk 0 r set 0 10 | 1#4 ok
2#1 setlkw 0 w set 0 10 | 2#1 waits
3#1 setlkw 0 r set 0 10 | 3#1 ok
1#5 setlk 0 u set 0 10 | 1#5 ok
",
    },
    Row {
        name: "a-shared-lock-in-the-way-and-a-hole-in-it",
        script: b"1 open 2 rw
1 setlk 0 r set 0 0
1 fork 2
2 setlk 0 r set 5 1
2 setlk 0 w set 5 1
1 setlk 0 u set 5 1
2 setlk 0 w set 5 1
1 fork 2
",
        entries: b"1#1 open 2 rw | 1#1 fd 0
1#2 setlk 0 r set 0 0 | 1#2 ok
1#3 fork 2 | 1#3 ok
2#1 setlk 0 r set 5 1 | 2#1 ok
2#2 setlk 0 w set 5 1 | 2#2 EAGAIN
1#4 setlk 0 u set 5 1 | 1#4 ok
2#3 setlk 0 w set 5 1 | 2#3 ok
1#5 fork 2 | 1#5 EAGAIN
",
    },
    Row {
        name: "a-signal-ends-one-wait-an-unlock-another-and-a-third-goes-on",
        script: b"1 open 0 rw
1 fork 2
1 fork 3
1 setlk 0 w set 0 10
2 setlkw 0 r set 0 5
3 osetlkw 0 w set 2 0
1 signal 3
3 setlkw 0 w set 5 5
1 setlk 0 u set 0 5
",
        entries: b"1#1 open 0 rw | 1#1 fd 0
1#2 fork 2 | 1#2 ok
1#3 fork 3 | 1#3 ok
1#4 setlk 0 w set 0 10 | 1#4 ok
2#1 setlkw 0 r set 0 5 | 2#1 waits
3#1 osetlkw 0 w set 2 0 | 3#1 waits
1#5 signal 3 | 1#5 ok | 3#1 EINTR
3#2 setlkw 0 w set 5 5 | 3#2 waits
1#6 setlk 0 u set 0 5 | 1#6 ok | 2#1 ok
",
    },
    Row {
        name: "a-signal-to-the-writer-lets-the-reader-in",
        script: b"policy queue
1 open 0 rw
1 fork 2
1 fork 3
1 setlk 0 r set 0 10
2 setlkw 0 w set 0 10
3 setlkw 0 r set 0 10
1 signal 2
",
        entries: b"1#1 open 0 rw | 1#1 fd 0
1#2 fork 2 | 1#2 ok
1#3 fork 3 | 1#3 ok
1#4 setlk 0 r set 0 10 | 1#4 ok
2#1 setlkw 0 w set 0 10 | 2#1 waits
3#1 setlkw 0 r set 0 10 | 3#1 waits
1#5 signal 2 | 1#5 ok | 2#1 EINTR | 3#1 ok
",
    },
    Row {
        name: "an-empty-script",
        script: b"",
        entries: b"",
    },
    Row {
        name: "an-ofd-cycle-and-a-wait-for-an-ofd-lock-of-its-own",
        script: b"1 open 0 rw
1 fork 2
1 fork 3
2 open 0 rw
3 open 1 rw
1 osetlk 0 w set 0 1
2 osetlk 1 w set 1 1
1 osetlkw 0 w set 1 1
2 osetlkw 1 w set 0 1
3 osetlk 1 w set 0 1
3 setlkw 1 w set 0 1
",
        entries: b"1#1 open 0 rw | 1#1 fd 0
1#2 fork 2 | 1#2 ok
1#3 fork 3 | 1#3 ok
2#1 open 0 rw | 2#1 fd 1
3#1 open 1 rw | 3#1 fd 1
1#4 osetlk 0 w set 0 1 | 1#4 ok
2#2 osetlk 1 w set 1 1 | 2#2 ok
1#5 osetlkw 0 w set 1 1 | 1#5 waits
2#3 osetlkw 1 w set 0 1 | 2#3 waits
3#2 osetlk 1 w set 0 1 | 3#2 ok
3#3 setlkw 1 w set 0 1 | 3#3 waits
",
    },
    Row {
        name: "an-ofd-lock-passes-through-dup-fork-and-exit",
        script: b"1 open 0 rw
1 osetlk 0 w set 0 0
1 dup 0
1 close 0
1 fork 2
1 exit
2 osetlk 1 u set 0 10
1 getlk 1 r set 0 1
",
        entries: b"1#1 open 0 rw | 1#1 fd 0
1#2 osetlk 0 w set 0 0 | 1#2 ok
1#3 dup 0 | 1#3 fd 1
1#4 close 0 | 1#4 ok
1#5 fork 2 | 1#5 ok
1#6 exit
2#1 osetlk 1 u set 0 10 | 2#1 ok
",
    },
    Row {
        name: "an-upgrade-behind-a-waiting-writer",
        script: b"policy queue
1 open 0 rw
1 fork 2
1 setlk 0 r set 0 1
2 setlkw 0 w set 0 1
1 setlkw 0 w set 0 1
1 setlk 0 w set 0 1
1 setlk 0 u set 0 1
",
        entries: b"1#1 open 0 rw | 1#1 fd 0
1#2 fork 2 | 1#2 ok
1#3 setlk 0 r set 0 1 | 1#3 ok
2#1 setlkw 0 w set 0 1 | 2#1 waits
1#4 setlkw 0 w set 0 1 | 1#4 EDEADLK
1#5 setlk 0 w set 0 1 | 1#5 ok
1#6 setlk 0 u set 0 1 | 1#6 ok | 2#1 ok
",
    },
    Row {
        name: "cut-in-an-argument",
        script: b"1 open 0 rw
1 setlk 0 w set 0 1",
        entries: b"1#1 open 0 rw | 1#1 fd 0
1#2 setlk 0 w set 0 1 | 1#2 ok
",
    },
    Row {
        name: "dup2-onto-itself-keeps-the-lock",
        script: b"1 open 0 rw
1 open 0 rw
1 setlk 0 w set 0 10
1 dup2 0 0
",
        entries: b"1#1 open 0 rw | 1#1 fd 0
1#2 open 0 rw | 1#2 fd 1
1#3 setlk 0 w set 0 10 | 1#3 ok
1#4 dup2 0 0 | 1#4 fd 0
",
    },
    Row {
        name: "dup2-onto-itself-onto-another-and-past-the-last",
        script: b"1 open 0 rw
1 open 0 rw
1 setlk 0 w set 0 10
1 dup2 0 0
1 dup2 0 1
1 dup2 0 32
1 dup 0
1 close 1
1 open 1 r
",
        entries: b"1#1 open 0 rw | 1#1 fd 0
1#2 open 0 rw | 1#2 fd 1
1#3 setlk 0 w set 0 10 | 1#3 ok
1#4 dup2 0 0 | 1#4 fd 0
1#5 dup2 0 1 | 1#5 fd 1
1#6 dup2 0 32 | 1#6 EBADF
1#7 dup 0 | 1#7 fd 2
1#8 close 1 | 1#8 ok
1#9 open 1 r | 1#9 fd 1
",
    },
    Row {
        name: "fork-and-the-last-close-of-a-flock-lock",
        script: b"1 open 0 rw
1 setlk 0 w set 0 10
1 flock 0 ex
1 fork 2
2 getlk 0 w set 0 10
1 close 0
2 open 0 r
2 flock 1 sh nb
2 close 0
2 flock 1 sh nb
",
        entries: b"1#1 open 0 rw | 1#1 fd 0
1#2 setlk 0 w set 0 10 | 1#2 ok
1#3 flock 0 ex | 1#3 ok
1#4 fork 2 | 1#4 ok
2#1 getlk 0 w set 0 10 | 2#1 held w 0 10 1
1#5 close 0 | 1#5 ok
2#2 open 0 r | 2#2 fd 1
2#3 flock 1 sh nb | 2#3 EAGAIN
2#4 close 0 | 2#4 ok
2#5 flock 1 sh nb | 2#5 ok
",
    },
    Row {
        name: "mail-of-unborn-processes",
        script: b"2 open 0 r
3 exit
1 fork 2
",
        entries: b"1#1 fork 2 | 1#1 ok
2#1 open 0 r | 2#1 fd 0
",
    },
    Row {
        name: "mailbox-signal-and-kill",
        script: b"1 open 0 rw
1 fork 2
1 setlk 0 w set 0 1
2 setlkw 0 r set 0 1
2 getlk 0 w set 0 1
2 setlkw 0 w set 0 1
2 setlk 0 r set 5 1
1 signal 2
1 kill 2
1 signal 2
",
        entries: b"1#1 open 0 rw | 1#1 fd 0
1#2 fork 2 | 1#2 ok
1#3 setlk 0 w set 0 1 | 1#3 ok
2#1 setlkw 0 r set 0 1 | 2#1 waits
1#4 signal 2 | 1#4 ok | 2#1 EINTR
2#2 getlk 0 w set 0 1 | 2#2 held w 0 1 1
2#3 setlkw 0 w set 0 1 | 2#3 waits
1#5 kill 2 | 1#5 ok
1#6 signal 2 | 1#6 ESRCH
",
    },
    Row {
        name: "refusals-and-their-order",
        script: b"1 open 0 w
1 osetlk 0 w set 0 1 5
1 setlk 0 r set 0 1
1 setlk 0 w set 0 1 5
1 getlk 0 u set 0 1
1 getlk 0 r set 0 1
1 setlk 9 u set 0 1
1 osetlk 0 w set -1 1
1 setlk 0 r set -1 1
1 seek 0 -1
1 fork 1
1 kill 2
",
        entries: b"1#1 open 0 w | 1#1 fd 0
1#2 osetlk 0 w set 0 1 5 | 1#2 EINVAL
1#3 setlk 0 r set 0 1 | 1#3 EBADF
1#4 setlk 0 w set 0 1 5 | 1#4 ok
1#5 getlk 0 u set 0 1 | 1#5 EINVAL
1#6 getlk 0 r set 0 1 | 1#6 free
1#7 setlk 9 u set 0 1 | 1#7 EBADF
1#8 osetlk 0 w set -1 1 | 1#8 EINVAL
1#9 setlk 0 r set -1 1 | 1#9 EINVAL
1#10 seek 0 -1 | 1#10 EINVAL
1#11 fork 1 | 1#11 EAGAIN
1#12 kill 2 | 1#12 ESRCH
",
    },
    Row {
        name: "settling-begins-again-after-a-grant",
        script: b"1 open 0 rw
1 fork 2
1 fork 3
2 setlk 0 w set 0 10
3 setlk 0 w set 50 10
1 setlkw 0 r set 0 10
2 setlkw 0 r set 0 100
3 setlk 0 u set 50 10
",
        entries: b"1#1 open 0 rw | 1#1 fd 0
1#2 fork 2 | 1#2 ok
1#3 fork 3 | 1#3 ok
2#1 setlk 0 w set 0 10 | 2#1 ok
3#1 setlk 0 w set 50 10 | 3#1 ok
1#4 setlkw 0 r set 0 10 | 1#4 waits
2#2 setlkw 0 r set 0 100 | 2#2 waits
3#2 setlk 0 u set 50 10 | 3#2 ok | 2#2 ok | 1#4 ok
",
    },
    Row {
        name: "signs-and-the-largest-offset",
        script: b"1 open 0 rw
1 setlk 0 r set 10 -10
1 setlk 0 r set 10 -11
1 setlk 0 r set 9223372036854775807 2
1 setlk 0 w set 0 0
1 setlk 0 u set 9223372036854775807 1
",
        entries: b"1#1 open 0 rw | 1#1 fd 0
1#2 setlk 0 r set 10 -10 | 1#2 ok
1#3 setlk 0 r set 10 -11 | 1#3 EINVAL
1#4 setlk 0 r set 9223372036854775807 2 | 1#4 EOVERFLOW
1#5 setlk 0 w set 0 0 | 1#5 ok
1#6 setlk 0 u set 9223372036854775807 1 | 1#6 ok
",
    },
    Row {
        name: "the-257th-descriptor",
        script: b"limits wide
1 open 0 r
1 dup 0
1 dup 0
1 dup 0
1 dup 0
1 dup 0
1 dup 0
1 dup 0
1 dup 0
1 dup 0
1 dup 0
1 dup 0
1 dup 0
1 dup 0
1 dup 0
1 dup 0
1 dup 0
1 dup 0
1 dup 0
1 dup 0
1 dup 0
1 dup 0
1 dup 0
1 dup 0
1 dup 0
1 dup 0
1 dup 0
1 dup 0
1 dup 0
1 dup 0
1 dup 0
1 dup 0
1 dup 0
1 dup 0
1 dup 0
1 dup 0
1 dup 0
1 dup 0
1 dup 0
1 dup 0
1 dup 0
1 dup 0
1 dup 0
1 dup 0
1 dup 0
1 dup 0
1 dup 0
1 dup 0
1 dup 0
1 dup 0
1 dup 0
1 dup 0
1 dup 0
1 dup 0
1 dup 0
1 dup 0
1 dup 0
1 dup 0
1 dup 0
1 dup 0
1 dup 0
1 dup 0
1 dup 0
1 dup 0
1 dup 0
1 dup 0
1 dup 0
1 dup 0
1 dup 0
1 dup 0
1 dup 0
1 dup 0
1 dup 0
1 dup 0
1 dup 0
1 dup 0
1 dup 0
1 dup 0
1 dup 0
1 dup 0
1 dup 0
1 dup 0
1 dup 0
1 dup 0
1 dup 0
1 dup 0
1 dup 0
1 dup 0
1 dup 0
1 dup 0
1 dup 0
1 dup 0
1 dup 0
1 dup 0
1 dup 0
1 dup 0
1 dup 0
1 dup 0
1 dup 0
1 dup 0
1 dup 0
1 dup 0
1 dup 0
1 dup 0
1 dup 0
1 dup 0
1 dup 0
1 dup 0
1 dup 0
1 dup 0
1 dup 0
1 dup 0
1 dup 0
1 dup 0
1 dup 0
1 dup 0
1 dup 0
1 dup 0
1 dup 0
1 dup 0
1 dup 0
1 dup 0
1 dup 0
1 dup 0
1 dup 0
1 dup 0
1 dup 0
1 dup 0
1 dup 0
1 dup 0
1 dup 0
1 dup 0
1 dup 0
1 dup 0
1 dup 0
1 dup 0
1 dup 0
1 dup 0
1 dup 0
1 dup 0
1 dup 0
1 dup 0
1 dup 0
1 dup 0
1 dup 0
1 dup 0
1 dup 0
1 dup 0
1 dup 0
1 dup 0
1 dup 0
1 dup 0
1 dup 0
1 dup 0
1 dup 0
1 dup 0
1 dup 0
1 dup 0
1 dup 0
1 dup 0
1 dup 0
1 dup 0
1 dup 0
1 dup 0
1 dup 0
1 dup 0
1 dup 0
1 dup 0
1 dup 0
1 dup 0
1 dup 0
1 dup 0
1 dup 0
1 dup 0
1 dup 0
1 dup 0
1 dup 0
1 dup 0
1 dup 0
1 dup 0
1 dup 0
1 dup 0
1 dup 0
1 dup 0
1 dup 0
1 dup 0
1 dup 0
1 dup 0
1 dup 0
1 dup 0
1 dup 0
1 dup 0
1 dup 0
1 dup 0
1 dup 0
1 dup 0
1 dup 0
1 dup 0
1 dup 0
1 dup 0
1 dup 0
1 dup 0
1 dup 0
1 dup 0
1 dup 0
1 dup 0
1 dup 0
1 dup 0
1 dup 0
1 dup 0
1 dup 0
1 dup 0
1 dup 0
1 dup 0
1 dup 0
1 dup 0
1 dup 0
1 dup 0
1 dup 0
1 dup 0
1 dup 0
1 dup 0
1 dup 0
1 dup 0
1 dup 0
1 dup 0
1 dup 0
1 dup 0
1 dup 0
1 dup 0
1 dup 0
1 dup 0
1 dup 0
1 dup 0
1 dup 0
1 dup 0
1 dup 0
1 dup 0
1 dup 0
1 dup 0
1 dup 0
1 dup 0
1 dup 0
1 dup 0
1 dup 0
1 dup 0
1 dup 0
1 dup 0
1 dup 0
1 dup 0
1 dup 0
1 dup 0
1 dup 0
1 dup 0
1 dup 0
1 dup 0
1 dup 0
",
        entries: b"1#1 open 0 r | 1#1 fd 0
1#2 dup 0 | 1#2 fd 1
1#3 dup 0 | 1#3 fd 2
1#4 dup 0 | 1#4 fd 3
1#5 dup 0 | 1#5 fd 4
1#6 dup 0 | 1#6 fd 5
1#7 dup 0 | 1#7 fd 6
1#8 dup 0 | 1#8 fd 7
1#9 dup 0 | 1#9 fd 8
1#10 dup 0 | 1#10 fd 9
1#11 dup 0 | 1#11 fd 10
1#12 dup 0 | 1#12 fd 11
1#13 dup 0 | 1#13 fd 12
1#14 dup 0 | 1#14 fd 13
1#15 dup 0 | 1#15 fd 14
1#16 dup 0 | 1#16 fd 15
1#17 dup 0 | 1#17 fd 16
1#18 dup 0 | 1#18 fd 17
1#19 dup 0 | 1#19 fd 18
1#20 dup 0 | 1#20 fd 19
1#21 dup 0 | 1#21 fd 20
1#22 dup 0 | 1#22 fd 21
1#23 dup 0 | 1#23 fd 22
1#24 dup 0 | 1#24 fd 23
1#25 dup 0 | 1#25 fd 24
1#26 dup 0 | 1#26 fd 25
1#27 dup 0 | 1#27 fd 26
1#28 dup 0 | 1#28 fd 27
1#29 dup 0 | 1#29 fd 28
1#30 dup 0 | 1#30 fd 29
1#31 dup 0 | 1#31 fd 30
1#32 dup 0 | 1#32 fd 31
1#33 dup 0 | 1#33 fd 32
1#34 dup 0 | 1#34 fd 33
1#35 dup 0 | 1#35 fd 34
1#36 dup 0 | 1#36 fd 35
1#37 dup 0 | 1#37 fd 36
1#38 dup 0 | 1#38 fd 37
1#39 dup 0 | 1#39 fd 38
1#40 dup 0 | 1#40 fd 39
1#41 dup 0 | 1#41 fd 40
1#42 dup 0 | 1#42 fd 41
1#43 dup 0 | 1#43 fd 42
1#44 dup 0 | 1#44 fd 43
1#45 dup 0 | 1#45 fd 44
1#46 dup 0 | 1#46 fd 45
1#47 dup 0 | 1#47 fd 46
1#48 dup 0 | 1#48 fd 47
1#49 dup 0 | 1#49 fd 48
1#50 dup 0 | 1#50 fd 49
1#51 dup 0 | 1#51 fd 50
1#52 dup 0 | 1#52 fd 51
1#53 dup 0 | 1#53 fd 52
1#54 dup 0 | 1#54 fd 53
1#55 dup 0 | 1#55 fd 54
1#56 dup 0 | 1#56 fd 55
1#57 dup 0 | 1#57 fd 56
1#58 dup 0 | 1#58 fd 57
1#59 dup 0 | 1#59 fd 58
1#60 dup 0 | 1#60 fd 59
1#61 dup 0 | 1#61 fd 60
1#62 dup 0 | 1#62 fd 61
1#63 dup 0 | 1#63 fd 62
1#64 dup 0 | 1#64 fd 63
1#65 dup 0 | 1#65 fd 64
1#66 dup 0 | 1#66 fd 65
1#67 dup 0 | 1#67 fd 66
1#68 dup 0 | 1#68 fd 67
1#69 dup 0 | 1#69 fd 68
1#70 dup 0 | 1#70 fd 69
1#71 dup 0 | 1#71 fd 70
1#72 dup 0 | 1#72 fd 71
1#73 dup 0 | 1#73 fd 72
1#74 dup 0 | 1#74 fd 73
1#75 dup 0 | 1#75 fd 74
1#76 dup 0 | 1#76 fd 75
1#77 dup 0 | 1#77 fd 76
1#78 dup 0 | 1#78 fd 77
1#79 dup 0 | 1#79 fd 78
1#80 dup 0 | 1#80 fd 79
1#81 dup 0 | 1#81 fd 80
1#82 dup 0 | 1#82 fd 81
1#83 dup 0 | 1#83 fd 82
1#84 dup 0 | 1#84 fd 83
1#85 dup 0 | 1#85 fd 84
1#86 dup 0 | 1#86 fd 85
1#87 dup 0 | 1#87 fd 86
1#88 dup 0 | 1#88 fd 87
1#89 dup 0 | 1#89 fd 88
1#90 dup 0 | 1#90 fd 89
1#91 dup 0 | 1#91 fd 90
1#92 dup 0 | 1#92 fd 91
1#93 dup 0 | 1#93 fd 92
1#94 dup 0 | 1#94 fd 93
1#95 dup 0 | 1#95 fd 94
1#96 dup 0 | 1#96 fd 95
1#97 dup 0 | 1#97 fd 96
1#98 dup 0 | 1#98 fd 97
1#99 dup 0 | 1#99 fd 98
1#100 dup 0 | 1#100 fd 99
1#101 dup 0 | 1#101 fd 100
1#102 dup 0 | 1#102 fd 101
1#103 dup 0 | 1#103 fd 102
1#104 dup 0 | 1#104 fd 103
1#105 dup 0 | 1#105 fd 104
1#106 dup 0 | 1#106 fd 105
1#107 dup 0 | 1#107 fd 106
1#108 dup 0 | 1#108 fd 107
1#109 dup 0 | 1#109 fd 108
1#110 dup 0 | 1#110 fd 109
1#111 dup 0 | 1#111 fd 110
1#112 dup 0 | 1#112 fd 111
1#113 dup 0 | 1#113 fd 112
1#114 dup 0 | 1#114 fd 113
1#115 dup 0 | 1#115 fd 114
1#116 dup 0 | 1#116 fd 115
1#117 dup 0 | 1#117 fd 116
1#118 dup 0 | 1#118 fd 117
1#119 dup 0 | 1#119 fd 118
1#120 dup 0 | 1#120 fd 119
1#121 dup 0 | 1#121 fd 120
1#122 dup 0 | 1#122 fd 121
1#123 dup 0 | 1#123 fd 122
1#124 dup 0 | 1#124 fd 123
1#125 dup 0 | 1#125 fd 124
1#126 dup 0 | 1#126 fd 125
1#127 dup 0 | 1#127 fd 126
1#128 dup 0 | 1#128 fd 127
1#129 dup 0 | 1#129 fd 128
1#130 dup 0 | 1#130 fd 129
1#131 dup 0 | 1#131 fd 130
1#132 dup 0 | 1#132 fd 131
1#133 dup 0 | 1#133 fd 132
1#134 dup 0 | 1#134 fd 133
1#135 dup 0 | 1#135 fd 134
1#136 dup 0 | 1#136 fd 135
1#137 dup 0 | 1#137 fd 136
1#138 dup 0 | 1#138 fd 137
1#139 dup 0 | 1#139 fd 138
1#140 dup 0 | 1#140 fd 139
1#141 dup 0 | 1#141 fd 140
1#142 dup 0 | 1#142 fd 141
1#143 dup 0 | 1#143 fd 142
1#144 dup 0 | 1#144 fd 143
1#145 dup 0 | 1#145 fd 144
1#146 dup 0 | 1#146 fd 145
1#147 dup 0 | 1#147 fd 146
1#148 dup 0 | 1#148 fd 147
1#149 dup 0 | 1#149 fd 148
1#150 dup 0 | 1#150 fd 149
1#151 dup 0 | 1#151 fd 150
1#152 dup 0 | 1#152 fd 151
1#153 dup 0 | 1#153 fd 152
1#154 dup 0 | 1#154 fd 153
1#155 dup 0 | 1#155 fd 154
1#156 dup 0 | 1#156 fd 155
1#157 dup 0 | 1#157 fd 156
1#158 dup 0 | 1#158 fd 157
1#159 dup 0 | 1#159 fd 158
1#160 dup 0 | 1#160 fd 159
1#161 dup 0 | 1#161 fd 160
1#162 dup 0 | 1#162 fd 161
1#163 dup 0 | 1#163 fd 162
1#164 dup 0 | 1#164 fd 163
1#165 dup 0 | 1#165 fd 164
1#166 dup 0 | 1#166 fd 165
1#167 dup 0 | 1#167 fd 166
1#168 dup 0 | 1#168 fd 167
1#169 dup 0 | 1#169 fd 168
1#170 dup 0 | 1#170 fd 169
1#171 dup 0 | 1#171 fd 170
1#172 dup 0 | 1#172 fd 171
1#173 dup 0 | 1#173 fd 172
1#174 dup 0 | 1#174 fd 173
1#175 dup 0 | 1#175 fd 174
1#176 dup 0 | 1#176 fd 175
1#177 dup 0 | 1#177 fd 176
1#178 dup 0 | 1#178 fd 177
1#179 dup 0 | 1#179 fd 178
1#180 dup 0 | 1#180 fd 179
1#181 dup 0 | 1#181 fd 180
1#182 dup 0 | 1#182 fd 181
1#183 dup 0 | 1#183 fd 182
1#184 dup 0 | 1#184 fd 183
1#185 dup 0 | 1#185 fd 184
1#186 dup 0 | 1#186 fd 185
1#187 dup 0 | 1#187 fd 186
1#188 dup 0 | 1#188 fd 187
1#189 dup 0 | 1#189 fd 188
1#190 dup 0 | 1#190 fd 189
1#191 dup 0 | 1#191 fd 190
1#192 dup 0 | 1#192 fd 191
1#193 dup 0 | 1#193 fd 192
1#194 dup 0 | 1#194 fd 193
1#195 dup 0 | 1#195 fd 194
1#196 dup 0 | 1#196 fd 195
1#197 dup 0 | 1#197 fd 196
1#198 dup 0 | 1#198 fd 197
1#199 dup 0 | 1#199 fd 198
1#200 dup 0 | 1#200 fd 199
1#201 dup 0 | 1#201 fd 200
1#202 dup 0 | 1#202 fd 201
1#203 dup 0 | 1#203 fd 202
1#204 dup 0 | 1#204 fd 203
1#205 dup 0 | 1#205 fd 204
1#206 dup 0 | 1#206 fd 205
1#207 dup 0 | 1#207 fd 206
1#208 dup 0 | 1#208 fd 207
1#209 dup 0 | 1#209 fd 208
1#210 dup 0 | 1#210 fd 209
1#211 dup 0 | 1#211 fd 210
1#212 dup 0 | 1#212 fd 211
1#213 dup 0 | 1#213 fd 212
1#214 dup 0 | 1#214 fd 213
1#215 dup 0 | 1#215 fd 214
1#216 dup 0 | 1#216 fd 215
1#217 dup 0 | 1#217 fd 216
1#218 dup 0 | 1#218 fd 217
1#219 dup 0 | 1#219 fd 218
1#220 dup 0 | 1#220 fd 219
1#221 dup 0 | 1#221 fd 220
1#222 dup 0 | 1#222 fd 221
1#223 dup 0 | 1#223 fd 222
1#224 dup 0 | 1#224 fd 223
1#225 dup 0 | 1#225 fd 224
1#226 dup 0 | 1#226 fd 225
1#227 dup 0 | 1#227 fd 226
1#228 dup 0 | 1#228 fd 227
1#229 dup 0 | 1#229 fd 228
1#230 dup 0 | 1#230 fd 229
1#231 dup 0 | 1#231 fd 230
1#232 dup 0 | 1#232 fd 231
1#233 dup 0 | 1#233 fd 232
1#234 dup 0 | 1#234 fd 233
1#235 dup 0 | 1#235 fd 234
1#236 dup 0 | 1#236 fd 235
1#237 dup 0 | 1#237 fd 236
1#238 dup 0 | 1#238 fd 237
1#239 dup 0 | 1#239 fd 238
1#240 dup 0 | 1#240 fd 239
1#241 dup 0 | 1#241 fd 240
1#242 dup 0 | 1#242 fd 241
1#243 dup 0 | 1#243 fd 242
1#244 dup 0 | 1#244 fd 243
1#245 dup 0 | 1#245 fd 244
1#246 dup 0 | 1#246 fd 245
1#247 dup 0 | 1#247 fd 246
1#248 dup 0 | 1#248 fd 247
1#249 dup 0 | 1#249 fd 248
1#250 dup 0 | 1#250 fd 249
1#251 dup 0 | 1#251 fd 250
1#252 dup 0 | 1#252 fd 251
1#253 dup 0 | 1#253 fd 252
1#254 dup 0 | 1#254 fd 253
1#255 dup 0 | 1#255 fd 254
1#256 dup 0 | 1#256 fd 255
1#257 dup 0 | 1#257 EMFILE
",
    },
    Row {
        name: "the-33rd-descriptor",
        script: b"1 open 0 r
1 dup 0
1 dup 0
1 dup 0
1 dup 0
1 dup 0
1 dup 0
1 dup 0
1 dup 0
1 dup 0
1 dup 0
1 dup 0
1 dup 0
1 dup 0
1 dup 0
1 dup 0
1 dup 0
1 dup 0
1 dup 0
1 dup 0
1 dup 0
1 dup 0
1 dup 0
1 dup 0
1 dup 0
1 dup 0
1 dup 0
1 dup 0
1 dup 0
1 dup 0
1 dup 0
1 dup 0
1 dup 0
",
        entries: b"1#1 open 0 r | 1#1 fd 0
1#2 dup 0 | 1#2 fd 1
1#3 dup 0 | 1#3 fd 2
1#4 dup 0 | 1#4 fd 3
1#5 dup 0 | 1#5 fd 4
1#6 dup 0 | 1#6 fd 5
1#7 dup 0 | 1#7 fd 6
1#8 dup 0 | 1#8 fd 7
1#9 dup 0 | 1#9 fd 8
1#10 dup 0 | 1#10 fd 9
1#11 dup 0 | 1#11 fd 10
1#12 dup 0 | 1#12 fd 11
1#13 dup 0 | 1#13 fd 12
1#14 dup 0 | 1#14 fd 13
1#15 dup 0 | 1#15 fd 14
1#16 dup 0 | 1#16 fd 15
1#17 dup 0 | 1#17 fd 16
1#18 dup 0 | 1#18 fd 17
1#19 dup 0 | 1#19 fd 18
1#20 dup 0 | 1#20 fd 19
1#21 dup 0 | 1#21 fd 20
1#22 dup 0 | 1#22 fd 21
1#23 dup 0 | 1#23 fd 22
1#24 dup 0 | 1#24 fd 23
1#25 dup 0 | 1#25 fd 24
1#26 dup 0 | 1#26 fd 25
1#27 dup 0 | 1#27 fd 26
1#28 dup 0 | 1#28 fd 27
1#29 dup 0 | 1#29 fd 28
1#30 dup 0 | 1#30 fd 29
1#31 dup 0 | 1#31 fd 30
1#32 dup 0 | 1#32 fd 31
1#33 dup 0 | 1#33 EMFILE
",
    },
    Row {
        name: "the-first-blocker-by-byte-and-then-by-owner",
        script: b"1 open 0 rw
1 fork 2
1 fork 3
1 fork 4
4 setlk 0 r set 5 10
3 setlk 0 r set 8 4
2 setlk 0 r set 8 100
1 getlk 0 w set 8 0
1 getlk 0 w set 0 0
1 getlk 0 w set 15 1
",
        entries: b"1#1 open 0 rw | 1#1 fd 0
1#2 fork 2 | 1#2 ok
1#3 fork 3 | 1#3 ok
1#4 fork 4 | 1#4 ok
4#1 setlk 0 r set 5 10 | 4#1 ok
3#1 setlk 0 r set 8 4 | 3#1 ok
2#1 setlk 0 r set 8 100 | 2#1 ok
1#5 getlk 0 w set 8 0 | 1#5 held r 8 100 2
1#6 getlk 0 w set 0 0 | 1#6 held r 5 10 4
1#7 getlk 0 w set 15 1 | 1#7 held r 8 100 2
",
    },
    Row {
        name: "the-last-process-and-the-last-descriptor",
        script: b"limits wide
1 open 0 rw
1 fork 64
64 setlk 0 w set 0 1
1 dup2 0 255
1 dup2 0 256
",
        entries: b"1#1 open 0 rw | 1#1 fd 0
1#2 fork 64 | 1#2 ok
64#1 setlk 0 w set 0 1 | 64#1 ok
1#3 dup2 0 255 | 1#3 fd 255
1#4 dup2 0 256 | 1#4 EBADF
",
    },
    Row {
        name: "touching-runs-merge",
        script: b"1 open 5 w
1 setlk 0 w set 0 10
1 setlk 0 w set 10 10
",
        entries: b"1#1 open 5 w | 1#1 fd 0
1#2 setlk 0 w set 0 10 | 1#2 ok
1#3 setlk 0 w set 10 10 | 1#3 ok
",
    },
    Row {
        name: "traditional-and-ofd-locks-meet",
        script: b"1 open 0 rw
1 setlk 0 w set 0 10
1 osetlk 0 w set 5 1
1 ogetlk 0 w set 5 1
1 osetlk 0 r set 20 5
1 getlk 0 w set 0 0
1 getlk 0 r set 20 5
",
        entries: b"1#1 open 0 rw | 1#1 fd 0
1#2 setlk 0 w set 0 10 | 1#2 ok
1#3 osetlk 0 w set 5 1 | 1#3 EAGAIN
1#4 ogetlk 0 w set 5 1 | 1#4 held w 0 10 1
1#5 osetlk 0 r set 20 5 | 1#5 ok
1#6 getlk 0 w set 0 0 | 1#6 held r 20 5 -1
1#7 getlk 0 r set 20 5 | 1#7 free
",
    },
    Row {
        name: "two-conversions-to-exclusive-flock-locks",
        script: b"1 open 0 r
1 fork 2
2 open 0 r
1 flock 0 sh
2 flock 1 sh
1 flock 0 ex
2 flock 1 ex
",
        entries: b"1#1 open 0 r | 1#1 fd 0
1#2 fork 2 | 1#2 ok
2#1 open 0 r | 2#1 fd 1
1#3 flock 0 sh | 1#3 ok
2#2 flock 1 sh | 2#2 ok
1#4 flock 0 ex | 1#4 waits
2#3 flock 1 ex | 2#3 waits | 1#4 ok
",
    },
    Row {
        name: "two-waits-of-one-description",
        script: b"1 open 0 rw
1 fork 2
1 fork 3
3 setlk 0 w set 0 100
1 osetlkw 0 w set 10 5
2 osetlkw 0 r set 12 1
3 close 0
",
        entries: b"1#1 open 0 rw | 1#1 fd 0
1#2 fork 2 | 1#2 ok
1#3 fork 3 | 1#3 ok
3#1 setlk 0 w set 0 100 | 3#1 ok
1#4 osetlkw 0 w set 10 5 | 1#4 waits
2#1 osetlkw 0 r set 12 1 | 2#1 waits
3#2 close 0 | 3#2 ok | 1#4 ok | 2#1 ok
",
    },
    Row {
        name: "visits-and-who-bails",
        script: b"1 open 0 rw
1 fork 2
1 fork 3
1 bail
2 bail
1 enter 7 sh
2 enter 7 sh
3 enter 7
1 enter 7
2 leave 8
3 leave 7
3 leave 7
3 enter 7 sh
1 setlk 0 w set 0 1
2 getlk 0 w set 0 1
2 bail
3 setlkw 0 w set 0 1
2 signal 3
3 bail
3 enter 0
2 setlkw 0 r set 0 2
1 enter 7
1 bail
1 leave 7
2 bail
2 setlk 0 w set 5 1
2 setlk 9 w set 5 1
2 bail
",
        entries: b"1#1 open 0 rw | 1#1 fd 0
1#2 fork 2 | 1#2 ok
1#3 fork 3 | 1#3 ok
1#4 bail | 1#4 ok
2#1 bail | 2#1 ok
1#5 enter 7 sh | 1#5 ok
2#2 enter 7 sh | 2#2 ok
3#1 enter 7 | 3#1 ok
1#6 enter 7 | 1#6 EINVAL
2#3 leave 8 | 2#3 EINVAL
3#2 leave 7 | 3#2 ok
3#3 leave 7 | 3#3 EINVAL
3#4 enter 7 sh | 3#4 ok
1#7 setlk 0 w set 0 1 | 1#7 ok
2#4 getlk 0 w set 0 1 | 2#4 held w 0 1 1
2#5 bail | 2#5 ok
3#5 setlkw 0 w set 0 1 | 3#5 waits
2#6 signal 3 | 2#6 ok | 3#5 EINTR
3#6 bail
2#7 setlkw 0 r set 0 2 | 2#7 waits
1#8 enter 7 | 1#8 EINVAL
1#9 bail | 2#7 ok
2#8 bail | 2#8 ok
2#9 setlk 0 w set 5 1 | 2#9 ok
2#10 setlk 9 w set 5 1 | 2#10 EBADF
2#11 bail
",
    },
    Row {
        name: "without-the-header-line-the-reader-passes",
        script: b"1 open 0 rw
1 fork 2
1 fork 3
1 setlk 0 r set 0 10
2 setlkw 0 w set 0 10
3 setlkw 0 r set 0 10
1 setlk 0 u set 0 10
",
        entries: b"1#1 open 0 rw | 1#1 fd 0
1#2 fork 2 | 1#2 ok
1#3 fork 3 | 1#3 ok
1#4 setlk 0 r set 0 10 | 1#4 ok
2#1 setlkw 0 w set 0 10 | 2#1 waits
3#1 setlkw 0 r set 0 10 | 3#1 ok
1#5 setlk 0 u set 0 10 | 1#5 ok
",
    },
];
