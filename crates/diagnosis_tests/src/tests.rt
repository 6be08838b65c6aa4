//! Faulty lines, and what stands behind their faults, each derived by hand from docs/RULES.md.
use diagnosis::{Language, Text, told_of, told_of_headers, told_of_illegal};
use script_core::{Cause, JournalFault, JournalReader, ScriptFault, parse};
use std::alloc::Global;
use std::process::Abort;
use std::test::Fail;

/// A text, what is told of its fault, the line as it is shown, and its caret.
type Row<'a> = (&'a [u8], &'a str, &'a str, &'a str);

/// The same of a history, with the kind of its fault.
type HistoryRow = (
    &'static [u8],
    Cause,
    &'static str,
    &'static str,
    &'static str,
);

/// Scripts with a faulty process or byte, and of each what stands behind the place of its fault, the line as it is shown, and its caret.
const PROCESSES_AND_BYTES: &[Row<'static>] = &[
    // A process.
    (
        b"17 open 0 rw\n",
        "f:1:1: read \"17\"; expected a process 1 to 16; write \"limits wide\" in front for 64",
        "17 open 0 rw",
        "^",
    ),
    (
        b"limits small\n17 open 0 rw\n",
        "f:2:1: read \"17\"; expected a process 1 to 16",
        "17 open 0 rw",
        "^",
    ),
    (
        b"limits wide\n65 open 0 rw\n",
        "f:2:1: read \"65\"; expected a process 1 to 64",
        "65 open 0 rw",
        "^",
    ),
    (
        b"0 open 0 rw\n",
        "f:1:1: read \"0\"; expected a process 1 to 16",
        "0 open 0 rw",
        "^",
    ),
    (
        b"open 0 rw\n",
        "f:1:1: read \"open\"; expected a process 1 to 16 in front of it",
        "open 0 rw",
        "^",
    ),
    (
        b"1 fork 17\n",
        "f:1:8: read \"17\"; expected a process 1 to 16; write \"limits wide\" in front for 64",
        "1 fork 17",
        "       ^",
    ),
    (
        b"1 kill x\n",
        "f:1:8: read \"x\"; expected a process 1 to 16",
        "1 kill x",
        "       ^",
    ),
    // A byte.
    (
        b"1 open 0 rw\r\n",
        "f:1:12: read a carriage return; a line ends with a line feed alone, and not with CR LF",
        "1 open 0 rw\\r",
        "           ^",
    ),
    (
        b"1 open\r0 rw\n",
        "f:1:7: read the byte 13; a line has bytes from 32 to 126 alone, and a comment too",
        "1 open\\r0 rw",
        "      ^",
    ),
    (
        b"\xEF\xBB\xBF1 open 0 rw\n",
        "f:1:1: read a byte order mark; save the file as ASCII, without it",
        "\\xEF\\xBB\\xBF1 open 0 rw",
        "^",
    ),
    (
        b"\xFF\xFE1\0\n\0",
        "f:1:1: read a byte order mark of UTF-16; save the file as ASCII, without it",
        "\\xFF\\xFE1\\x00",
        "^",
    ),
    (
        b"1 exit\n\xEF\xBB\xBF\n",
        "f:2:1: read the letter U+FEFF, which is beyond ASCII; a line has bytes from 32 to 126 alone, and a comment too",
        "\\xEF\\xBB\\xBF",
        "^",
    ),
    (
        b"1\topen 0 rw\n",
        "f:1:2: read a tab; words are separated by spaces",
        "1\\topen 0 rw",
        " ^",
    ),
    (
        b"1\xC2\xA0exit\n",
        "f:1:2: read a no-break space; words are separated by spaces",
        "1\\xC2\\xA0exit",
        " ^",
    ),
    (
        b"# f\xC3\xBCr\n1 exit\n",
        "f:1:4: read the letter U+00FC, which is beyond ASCII; a line has bytes from 32 to 126 alone, and a comment too",
        "# f\\xC3\\xBCr",
        "   ^",
    ),
    (
        b"1 exit\n1 \xE4xit\n",
        "f:2:3: read the byte 228; a line has bytes from 32 to 126 alone, and a comment too",
        "1 \\xE4xit",
        "  ^",
    ),
    (
        b"1 exit \x07\n",
        "f:1:8: read the byte 7; a line has bytes from 32 to 126 alone, and a comment too",
        "1 exit \\x07",
        "       ^",
    ),
];

/// The same with a faulty header line or command.
const HEADERS_AND_COMMANDS: &[Row<'static>] = &[
    // A header line.
    (
        b"1 open 0 rw\npolicy queue\n",
        "f:2:1: read \"policy\"; it has to come before all requests, and the first is on line 1",
        "policy queue",
        "^",
    ),
    (
        b"# x\n\n1 exit\nlimits\n",
        "f:4:1: read \"limits\"; it has to come before all requests, and the first is on line 3",
        "limits",
        "^",
    ),
    (
        b"# x\nlimits wide\n\nlimits wide\n",
        "f:4:1: read \"limits\"; it may come once, and line 2 has it",
        "limits wide",
        "^",
    ),
    (
        b"policy\n",
        "f:1:7: read the end of the line; expected POLICY, held or queue: policy held|queue",
        "policy",
        "      ^",
    ),
    (
        b"policy fair\n",
        "f:1:8: read \"fair\"; expected POLICY, held or queue",
        "policy fair",
        "       ^",
    ),
    (
        b"limits wide 64\n",
        "f:1:13: read \"64\"; expected nothing more: limits small|wide",
        "limits wide 64",
        "            ^",
    ),
    (
        b"limits Wide\n",
        "f:1:8: read \"Wide\"; expected LIMITS, small or wide; did you mean \"wide\"?",
        "limits Wide",
        "       ^",
    ),
    (
        b"polcy queue\n",
        "f:1:1: read \"polcy\"; expected policy, limits or a process; did you mean \"policy\"?",
        "polcy queue",
        "^",
    ),
    // A command.
    (
        b"1\n",
        "f:1:2: read the end of the line; expected a command: open, dup, dup2, close, seek, resize, getlk, setlk, setlkw, ogetlk, osetlk, osetlkw, flock, fork, signal, kill, exit, enter, leave or bail",
        "1",
        " ^",
    ),
    (
        b"1  \n",
        "f:1:4: read the end of the line; expected a command: open, dup, dup2, close, seek, resize, getlk, setlk, setlkw, ogetlk, osetlk, osetlkw, flock, fork, signal, kill, exit, enter, leave or bail",
        "1  ",
        "   ^",
    ),
    (
        b"1 setlkv 0 w set 0 0\n",
        "f:1:3: read \"setlkv\"; expected a command: open, dup, dup2, close, seek, resize, getlk, setlk, setlkw, ogetlk, osetlk, osetlkw, flock, fork, signal, kill, exit, enter, leave or bail; did you mean \"setlk\"?",
        "1 setlkv 0 w set 0 0",
        "  ^",
    ),
    (
        b"1 lock 0\n",
        "f:1:3: read \"lock\"; expected a command: open, dup, dup2, close, seek, resize, getlk, setlk, setlkw, ogetlk, osetlk, osetlkw, flock, fork, signal, kill, exit, enter, leave or bail; did you mean \"flock\"?",
        "1 lock 0",
        "  ^",
    ),
    (
        b"1 opne 0 rw\n",
        "f:1:3: read \"opne\"; expected a command: open, dup, dup2, close, seek, resize, getlk, setlk, setlkw, ogetlk, osetlk, osetlkw, flock, fork, signal, kill, exit, enter, leave or bail; did you mean \"open\"?",
        "1 opne 0 rw",
        "  ^",
    ),
    (
        b"1 OPEN 0 rw\n",
        "f:1:3: read \"OPEN\"; expected a command: open, dup, dup2, close, seek, resize, getlk, setlk, setlkw, ogetlk, osetlk, osetlkw, flock, fork, signal, kill, exit, enter, leave or bail; did you mean \"open\"?",
        "1 OPEN 0 rw",
        "  ^",
    ),
    (
        b"1 sigmal 1\n",
        "f:1:3: read \"sigmal\"; expected a command: open, dup, dup2, close, seek, resize, getlk, setlk, setlkw, ogetlk, osetlk, osetlkw, flock, fork, signal, kill, exit, enter, leave or bail; did you mean \"signal\"?",
        "1 sigmal 1",
        "  ^",
    ),
    (
        b"1 fcntl 0\n",
        "f:1:3: read \"fcntl\"; expected a command: open, dup, dup2, close, seek, resize, getlk, setlk, setlkw, ogetlk, osetlk, osetlkw, flock, fork, signal, kill, exit, enter, leave or bail",
        "1 fcntl 0",
        "  ^",
    ),
];

/// The same with too few or too many words, or a faulty number.
const COUNTS_AND_NUMBERS: &[Row<'static>] = &[
    // How many words.
    (
        b"1 open 0\n",
        "f:1:9: read the end of the line; expected ACCESS, r, w or rw: open FILE r|w|rw",
        "1 open 0",
        "        ^",
    ),
    (
        b"1 open 0 rw\n\n# c\n2 open",
        "f:4:7: read the end of the line; expected FILE, a number 0 to 63: open FILE r|w|rw",
        "2 open",
        "      ^",
    ),
    (
        b"1 open 0 rw 5\n",
        "f:1:13: read \"5\"; expected nothing more: open FILE r|w|rw",
        "1 open 0 rw 5",
        "            ^",
    ),
    (
        b"1 exit now\n",
        "f:1:8: read \"now\"; expected nothing more: exit",
        "1 exit now",
        "       ^",
    ),
    (
        b"1 setlkw 0 w set 0\n",
        "f:1:19: read the end of the line; expected LENGTH, a number -9223372036854775808 to 9223372036854775807: setlkw FD r|w|u set|cur|end START LENGTH [PID]",
        "1 setlkw 0 w set 0",
        "                  ^",
    ),
    (
        b"1 osetlk 0 w set 0 0 1 2\n",
        "f:1:24: read \"2\"; expected nothing more: osetlk FD r|w|u set|cur|end START LENGTH [PID]",
        "1 osetlk 0 w set 0 0 1 2",
        "                       ^",
    ),
    (
        b"1 fork\n",
        "f:1:7: read the end of the line; expected PROCESS, a process 1 to 16: fork PROCESS",
        "1 fork",
        "      ^",
    ),
    // A number.
    (
        b"1 open 64 rw\n",
        "f:1:8: read \"64\"; expected FILE, a number 0 to 63",
        "1 open 64 rw",
        "       ^",
    ),
    (
        b"1 open 01 rw\n",
        "f:1:8: read \"01\"; expected FILE, a number 0 to 63, without a leading zero",
        "1 open 01 rw",
        "       ^",
    ),
    (
        b"1 close +1\n",
        "f:1:9: read \"+1\"; expected FD, a number 0 to 4294967295, without a plus sign",
        "1 close +1",
        "        ^",
    ),
    (
        b"1 dup -1\n",
        "f:1:7: read \"-1\"; expected FD, a number 0 to 4294967295",
        "1 dup -1",
        "      ^",
    ),
    (
        b"1 dup2 0 4294967296\n",
        "f:1:10: read \"4294967296\"; expected FD, a number 0 to 4294967295",
        "1 dup2 0 4294967296",
        "         ^",
    ),
    (
        b"1 seek 0 -0\n",
        "f:1:10: read \"-0\"; expected OFFSET, a number -9223372036854775808 to 9223372036854775807, 0 without a sign",
        "1 seek 0 -0",
        "         ^",
    ),
    (
        b"1 resize 0 0x10\n",
        "f:1:12: read \"0x10\"; expected SIZE, a number -9223372036854775808 to 9223372036854775807, in decimal",
        "1 resize 0 0x10",
        "           ^",
    ),
    (
        b"1 setlk 0 w set -01 0\n",
        "f:1:17: read \"-01\"; expected START, a number -9223372036854775808 to 9223372036854775807, without a leading zero",
        "1 setlk 0 w set -01 0",
        "                ^",
    ),
    (
        b"1 setlk 0 w set 0 9223372036854775808\n",
        "f:1:19: read \"9223372036854775808\"; expected LENGTH, a number -9223372036854775808 to 9223372036854775807",
        "1 setlk 0 w set 0 9223372036854775808",
        "                  ^",
    ),
    (
        b" 1  setlk  0 w set 0 0 x\n",
        "f:1:24: read \"x\"; expected PID, a number -9223372036854775808 to 9223372036854775807",
        " 1  setlk  0 w set 0 0 x",
        "                       ^",
    ),
];

/// Faulty visits to sections, and a bail with an argument.
const SECTIONS: &[Row<'static>] = &[
    (
        b"1 enter 64\n",
        "f:1:9: read \"64\"; expected SECTION, a number 0 to 63",
        "1 enter 64",
        "        ^",
    ),
    (
        b"1 enter\n",
        "f:1:8: read the end of the line; expected SECTION, a number 0 to 63: enter SECTION [sh]",
        "1 enter",
        "       ^",
    ),
    (
        b"1 enter 0 ex\n",
        "f:1:11: read \"ex\"; expected VISIT, sh",
        "1 enter 0 ex",
        "          ^",
    ),
    (
        b"1 leave 0 sh\n",
        "f:1:11: read \"sh\"; expected nothing more: leave SECTION",
        "1 leave 0 sh",
        "          ^",
    ),
    (
        b"1 bail 0\n",
        "f:1:8: read \"0\"; expected nothing more: bail",
        "1 bail 0",
        "       ^",
    ),
];

/// The same with another faulty word, a comment behind a request, or without a fault.
const WORDS_AND_COMMENTS: &[Row<'static>] = &[
    // A word.
    (
        b"1 open 0 wr\n",
        "f:1:10: read \"wr\"; expected ACCESS, r, w or rw; did you mean \"rw\"?",
        "1 open 0 wr",
        "         ^",
    ),
    (
        b"1 setlk 0 x set 0 0\n",
        "f:1:11: read \"x\"; expected KIND, r, w or u",
        "1 setlk 0 x set 0 0",
        "          ^",
    ),
    (
        b"1 getlk 0 w start 0 0\n",
        "f:1:13: read \"start\"; expected WHENCE, set, cur or end",
        "1 getlk 0 w start 0 0",
        "            ^",
    ),
    (
        b"1 flock 0 x\n",
        "f:1:11: read \"x\"; expected OPERATION, sh, ex or un",
        "1 flock 0 x",
        "          ^",
    ),
    (
        b"1 flock 0 ex nowait\n",
        "f:1:14: read \"nowait\"; expected LOCK_NB, nb",
        "1 flock 0 ex nowait",
        "             ^",
    ),
    // A comment behind a request.
    (
        b"1 open 0 rw # the database\n",
        "f:1:13: read \"#\"; put a comment on a line of its own",
        "1 open 0 rw # the database",
        "            ^",
    ),
    (
        b"1 flock 0 sh #shared\n",
        "f:1:14: read \"#shared\"; put a comment on a line of its own",
        "1 flock 0 sh #shared",
        "             ^",
    ),
    (
        b"1 setlk 0 w # set 0 0\n",
        "f:1:13: read \"#\"; put a comment on a line of its own",
        "1 setlk 0 w # set 0 0",
        "            ^",
    ),
    (
        b"1 #x\n",
        "f:1:3: read \"#x\"; put a comment on a line of its own",
        "1 #x",
        "  ^",
    ),
    (
        b"policy queue # fair\n",
        "f:1:14: read \"#\"; put a comment on a line of its own",
        "policy queue # fair",
        "             ^",
    ),
    (
        b"1 fcntl # x\n",
        "f:1:3: read \"fcntl\"; expected a command: open, dup, dup2, close, seek, resize, getlk, setlk, setlkw, ogetlk, osetlk, osetlkw, flock, fork, signal, kill, exit, enter, leave or bail",
        "1 fcntl # x",
        "  ^",
    ),
    // None is wrong.
    (b"1 open 0 rw\n1 setlk 0 w set 0 0\n", "", "", ""),
];

/// The same of journals.
const JOURNALS: &[Row<'static>] = &[
    (
        b"open 0 rw | 1#1 fd 0\n",
        "f:1:1: read \"open\"; expected a process and the number of its request, as 1#1",
        "open 0 rw | 1#1 fd 0",
        "^",
    ),
    (
        b"1#1 open 0 rw | 1#1 fd 0\npolicy queue\n",
        "f:2:1: read \"policy\"; it has to come before all requests, and the first is on line 1",
        "policy queue",
        "^",
    ),
    (
        b"17#1 exit\n",
        "f:1:1: read \"17#1\"; expected a process and the number of its request, as 1#1; write \"limits wide\" in front for 64",
        "17#1 exit",
        "^",
    ),
    (
        b"limits wide\n65#1 exit\n",
        "f:2:1: read \"65#1\"; expected a process and the number of its request, as 1#1",
        "65#1 exit",
        "^",
    ),
    (
        b"1#x exit\n",
        "f:1:1: read \"1#x\"; expected a process and the number of its request, as 1#1",
        "1#x exit",
        "^",
    ),
    (
        b"limits tall\n",
        "f:1:8: read \"tall\"; expected LIMITS, small or wide",
        "limits tall",
        "       ^",
    ),
    (
        b"1#1 open 0 rw |1#1 fd x\n",
        "f:1:23: read \"x\"; expected FD, a number 0 to 4294967295",
        "1#1 open 0 rw |1#1 fd x",
        "                      ^",
    ),
    (
        b"1#1 open 0 | 1#1 fd 0\n",
        "f:1:12: read \"|\"; expected ACCESS, r, w or rw: open FILE r|w|rw",
        "1#1 open 0 | 1#1 fd 0",
        "           ^",
    ),
    (
        b"1#1 open 0|1#1 fd 0\n",
        "f:1:11: read \"|\"; expected ACCESS, r, w or rw: open FILE r|w|rw",
        "1#1 open 0|1#1 fd 0",
        "          ^",
    ),
    (
        b"1#1 exit |\n",
        "f:1:11: read the end of the line; expected a process and the number of its request, as 1#1",
        "1#1 exit |",
        "          ^",
    ),
    (
        b"1#1 exit | 1#1\n",
        "f:1:15: read the end of the line; expected a note: waits, fd, free, held, ok or an error, as EAGAIN",
        "1#1 exit | 1#1",
        "              ^",
    ),
    (
        b"1#1 exit | 1#1 granted\n",
        "f:1:16: read \"granted\"; expected a note: waits, fd, free, held, ok or an error, as EAGAIN",
        "1#1 exit | 1#1 granted",
        "               ^",
    ),
    (
        b"1#1 exit | 1#1 wait\n",
        "f:1:16: read \"wait\"; expected a note: waits, fd, free, held, ok or an error, as EAGAIN; did you mean \"waits\"?",
        "1#1 exit | 1#1 wait",
        "               ^",
    ),
    (
        b"1#1 exit | 1#1 ok ok\n",
        "f:1:19: read \"ok\"; expected nothing more: ok",
        "1#1 exit | 1#1 ok ok",
        "                  ^",
    ),
    (
        b"1#1 exit | 1#1 held w 0 10\n",
        "f:1:27: read the end of the line; expected PID, a number -9223372036854775808 to 9223372036854775807: held r|w START LENGTH PID",
        "1#1 exit | 1#1 held w 0 10",
        "                          ^",
    ),
    (
        b"1#1 exit | 1#1 held u 0 10 1\n",
        "f:1:21: read \"u\"; expected MODE, r or w",
        "1#1 exit | 1#1 held u 0 10 1",
        "                    ^",
    ),
    (
        b"1#1 fork 2 | 1#1 ok # born\n",
        "f:1:21: read \"#\"; put a comment on a line of its own",
        "1#1 fork 2 | 1#1 ok # born",
        "                    ^",
    ),
    (
        b"proc 1 sent 0 taken 0 answered 0 live\n1#1 exit\n",
        "f:2:1: read \"1#1\"; after line 1, of the report, only lock, flock, wait and proc lines may come",
        "1#1 exit",
        "^",
    ),
];

/// The same of histories, with the kind of the fault, which is that of the last line.
const HISTORIES: &[HistoryRow] = &[
    (
        b"= 1 set 0 1 w 0 9",
        Cause::Word,
        "f:1:1: read \"=\"; expected > of a request that is sent, or < of its answer",
        "= 1 set 0 1 w 0 9",
        "^",
    ),
    (
        b">",
        Cause::Count,
        "f:1:2: read the end of the line; expected ID, a number 0 to 18446744073709551615: > ID REQUEST",
        ">",
        " ^",
    ),
    (
        b"> 1",
        Cause::Count,
        "f:1:4: read the end of the line; expected a request: set, wait, get, unlock, flock, close or gone",
        "> 1",
        "   ^",
    ),
    (
        b"> a set 0 1 w 0 9",
        Cause::Number,
        "f:1:3: read \"a\"; expected ID, a number 0 to 18446744073709551615",
        "> a set 0 1 w 0 9",
        "  ^",
    ),
    (
        b"> 1 set 0 1 w 0 9\n> 1 get 0 2 w 0 9",
        Cause::Tag,
        "f:2:3: read \"1\"; a request of this ID is open since line 1",
        "> 1 get 0 2 w 0 9",
        "  ^",
    ),
    (
        b"> 1 set 0 1 w 0 9\n< 1 ok\n< 1 ok",
        Cause::Tag,
        "f:3:3: read \"1\"; no request of this ID is open",
        "< 1 ok",
        "  ^",
    ),
    (
        b"> 1 set 0 1 w 0 9\n# x\n< 1 EINTR",
        Cause::Word,
        "f:3:5: read \"EINTR\"; expected an answer of this request: ok, busy or error",
        "< 1 EINTR",
        "    ^",
    ),
    (
        b"> 1 get 0 1 w 0 9\n< 1",
        Cause::Count,
        "f:2:4: read the end of the line; expected an answer of this request: free, held or error",
        "< 1",
        "   ^",
    ),
    (
        b"> 1 flock 0 1 ex\n< 1 busy",
        Cause::Word,
        "f:2:5: read \"busy\"; expected an answer of this request: ok, EINTR or error",
        "< 1 busy",
        "    ^",
    ),
    (
        b"> 1 flock 0 1 ex nb\n< 1 EINTR",
        Cause::Word,
        "f:2:5: read \"EINTR\"; expected an answer of this request: ok, busy or error",
        "< 1 EINTR",
        "    ^",
    ),
    (
        b"> 1 flock 0 1 un\n< 1 busy",
        Cause::Word,
        "f:2:5: read \"busy\"; expected an answer of this request: ok or error",
        "< 1 busy",
        "    ^",
    ),
    (
        b"> 1 gone 0 1\n< 1 error",
        Cause::Word,
        "f:2:5: read \"error\"; expected an answer of this request: ok",
        "< 1 error",
        "    ^",
    ),
    (
        b"> 1 wait 0 1 w 0 9\n< 1 ok 2",
        Cause::Count,
        "f:2:8: read \"2\"; expected nothing more: ok",
        "< 1 ok 2",
        "       ^",
    ),
    (
        b"> 1 lock 0 1",
        Cause::Word,
        "f:1:5: read \"lock\"; expected a request: set, wait, get, unlock, flock, close or gone; did you mean \"flock\"?",
        "> 1 lock 0 1",
        "    ^",
    ),
    (
        b"> 1 close 0",
        Cause::Count,
        "f:1:12: read the end of the line; expected OWNER, a number 0 to 18446744073709551615: close FILE OWNER",
        "> 1 close 0",
        "           ^",
    ),
    (
        b"> 1 set 0 1 u 0 9",
        Cause::Word,
        "f:1:13: read \"u\"; expected MODE, r or w",
        "> 1 set 0 1 u 0 9",
        "            ^",
    ),
    (
        b"> 1 set 0 1 w 9 0",
        Cause::Number,
        "f:1:15: read \"9\"; FIRST is above LAST",
        "> 1 set 0 1 w 9 0",
        "              ^",
    ),
    (
        b"> 1 unlock 0 1 9 0",
        Cause::Number,
        "f:1:16: read \"9\"; FIRST is above LAST",
        "> 1 unlock 0 1 9 0",
        "               ^",
    ),
    (
        b"> 1 flock 0 1 un nb",
        Cause::Word,
        "f:1:18: read \"nb\"; expected nothing more: flock FILE OWNER un",
        "> 1 flock 0 1 un nb",
        "                 ^",
    ),
    (
        b"> 1 get 0 1 w 0 9\n< 1 held x w 0 9",
        Cause::Number,
        "f:2:10: read \"x\"; expected OWNER, - or a number 0 to 18446744073709551615",
        "< 1 held x w 0 9",
        "         ^",
    ),
    (
        b"> 1 get 0 1 w 0 9\n< 1 held - w 9 0",
        Cause::Number,
        "f:2:14: read \"9\"; FIRST is above LAST",
        "< 1 held - w 9 0",
        "             ^",
    ),
];

/// The texts are the same.
fn same(rt: &impl Abort, seen: &str, due: &str) {
    assert_eq!(rt; seen, due);
}

/// What stands behind the fault of a text, if it has one.
fn told_behind(
    alloc: Global,
    language: Language,
    bytes: &[u8],
    fault: Option<ScriptFault>,
) -> Result<String, Fail> {
    let Some(fault) = fault else {
        return Ok(String::new(alloc));
    };
    let name = "f";
    let text = Text {
        name,
        language,
        bytes,
    };
    Ok(told_of(alloc, text, fault)?)
}

/// What is to stand there by a row.
fn due(alloc: Global, told: &str, shown: &str, caret: &str) -> Result<String, Fail> {
    if told.is_empty() {
        return Ok(String::new(alloc));
    }
    Ok(format!(in alloc; "{told}\n    {shown}\n    {caret}\n")?)
}

/// Behind the fault of the row's text stands what is written there.
fn comes_out(
    rt: &impl Abort,
    alloc: Global,
    language: Language,
    fault: Option<ScriptFault>,
    row: Row,
) -> Result<(), Fail> {
    let (bytes, told, shown, caret) = row;
    let seen = told_behind(alloc, language, bytes, fault)?;
    let due = due(alloc, told, shown, caret)?;
    same(rt, seen.as_str(), due.as_str());
    Ok(())
}

/// So it is with each of these scripts.
fn scripts_come_out(rt: &impl Abort, alloc: Global, rows: &[Row]) -> Result<(), Fail> {
    for row in rows {
        let fault = parse(alloc, row.0).err();
        comes_out(rt, alloc, Language::Script, fault, *row)?;
    }
    Ok(())
}

/// The fault that a reader tells of a journal.
fn fault_told(reader: &mut JournalReader, bytes: &[u8]) -> Option<ScriptFault> {
    let mut line: u64 = 1;
    for text in bytes.split(|byte| *byte == b'\n') {
        if let Err(JournalFault::Grammar(cause)) = reader.next(text) {
            return Some(ScriptFault { line, cause });
        }
        line = line.saturating_add(1);
    }
    None
}

/// The fault of a journal.
fn fault_of_journal(alloc: Global, bytes: &[u8]) -> Result<Option<ScriptFault>, Fail> {
    let mut reader = JournalReader::new(alloc)?;
    Ok(fault_told(&mut reader, bytes))
}

/// Behind the fault of each of these scripts stands what is written here.
#[test]
fn scripts_by_hand(rt: HostRuntime) -> Result<(), Fail> {
    for rows in [
        PROCESSES_AND_BYTES,
        HEADERS_AND_COMMANDS,
        COUNTS_AND_NUMBERS,
        SECTIONS,
        WORDS_AND_COMMENTS,
    ] {
        scripts_come_out(&rt, rt.alloc(), rows)?;
    }
    Ok(())
}

/// So it is with journals.
#[test]
fn journals_by_hand(rt: HostRuntime) -> Result<(), Fail> {
    for row in JOURNALS {
        let fault = fault_of_journal(rt.alloc(), row.0)?;
        comes_out(&rt, rt.alloc(), Language::Journal, fault, *row)?;
    }
    Ok(())
}

/// So it is with histories, whose kinds are written here.
#[test]
fn histories_by_hand(rt: HostRuntime) -> Result<(), Fail> {
    for (bytes, cause, told, shown, caret) in HISTORIES {
        let line = bytes.split(|byte| *byte == b'\n').count() as u64;
        let fault = Some(ScriptFault {
            line,
            cause: *cause,
        });
        let row = (*bytes, *told, *shown, *caret);
        comes_out(&rt, rt.alloc(), Language::History, fault, row)?;
    }
    Ok(())
}

/// The front, so many times the letter, and the end.
fn line_of(
    alloc: Global,
    front: &str,
    letter: char,
    count: usize,
    end: &str,
) -> Result<String, Fail> {
    let mut line = String::new(alloc);
    line.push_str(front)?;
    for _ in 0..count {
        line.push(letter)?;
    }
    line.push_str(end)?;
    Ok(line)
}

/// A line that is too long, as a front and how many letters come behind it, and what is told of it; what is shown, as a front, how many of the
/// letters, and an end; and behind how many spaces its caret stands.
type LongRow = (
    &'static str,
    usize,
    &'static str,
    (&'static str, usize, &'static str),
    usize,
);

/// The caret stands under the 121st byte, behind what a tab is shown as; and where the line isn't shown whole, 100 bytes stand in front of the
/// caret and 60 from it on, between dots.
const LONG_LINES: &[LongRow] = &[
    (
        "\t",
        120,
        "f:1:121: read a line of 121 bytes; it may have 120",
        ("\\t", 120, ""),
        121,
    ),
    (
        "",
        200,
        "f:1:121: read a line of 200 bytes; it may have 120",
        ("..", 160, ".."),
        102,
    ),
];

/// So it is with scripts of a line that is too long.
#[test]
fn long_lines(rt: HostRuntime) -> Result<(), Fail> {
    for (front, letters, told, (start, length, end), spaces) in LONG_LINES {
        let line = line_of(rt.alloc(), front, 'x', *letters, "")?;
        let shown = line_of(rt.alloc(), start, 'x', *length, end)?;
        let caret = line_of(rt.alloc(), "", ' ', *spaces, "^")?;
        let row = (line.as_bytes(), *told, shown.as_str(), caret.as_str());
        scripts_come_out(&rt, rt.alloc(), &[row])?;
    }
    Ok(())
}

/// Languages, lines, and what is told where a line of that number, which may be 0, is too long, and just one line of 7 bytes was kept: a file
/// that is too long as a whole has no line 0, and a line that wasn't kept isn't shown.
const NOT_THERE: &[(Language, u64, &str)] = &[
    (
        Language::Script,
        0,
        "f: it is too long; it may have 1048576 bytes\n",
    ),
    (
        Language::Journal,
        0,
        "f: it is too long; it may have 67108864 bytes\n",
    ),
    (
        Language::History,
        0,
        "f: it is too long; it may have 1099511627776 bytes\n",
    ),
    (
        Language::History,
        2,
        "f:2: the line comes after the 7 bytes that were kept\n",
    ),
];

/// So it is with these lines.
#[test]
fn lines_that_are_not_there(rt: HostRuntime) -> Result<(), Fail> {
    for (language, line, due) in NOT_THERE {
        let fault = Some(ScriptFault {
            line: *line,
            cause: Cause::TooLong,
        });
        let seen = told_behind(rt.alloc(), *language, b"1 exit\n", fault)?;
        same(&rt, seen.as_str(), due);
    }
    Ok(())
}

/// Illegal journals, and what stands behind the verdict on each.
const ILLEGAL: &[(&str, &str)] = &[
    // An answer of another kind, with what explains the one that is due.
    (
        "1#1 open 0 rw | 1#1 fd 0\n1#2 fork 2 | 1#2 ok\n1#3 setlk 0 w set 0 9 | 1#3 ok\n2#1 setlk 0 r set 5 1 | 2#1 ok\n",
        "f:4:29: read \"ok\"; expected \"EAGAIN\"\n    2#1 setlk 0 r set 5 1 | 2#1 ok\n                                ^\n# 2#1 blocked by lock 0 process 1 w 0 8\n",
    ),
    // A note that is missing.
    (
        "1#1 open 0 rw\n",
        "f:1:14: read the end of the line; expected \"| 1#1 fd 0\"\n    1#1 open 0 rw\n                 ^\n",
    ),
    // A note too many.
    (
        "1#1 open 0 rw | 1#1 fd 0 | 1#1 ok\n",
        "f:1:26: read \"|\"; expected the end of the line\n    1#1 open 0 rw | 1#1 fd 0 | 1#1 ok\n                             ^\n",
    ),
    // A number out of turn.
    (
        "# x\n1#2 open 0 rw | 1#2 fd 0\n",
        "f:2:1: read \"1#2\"; expected \"1#1\"\n    1#2 open 0 rw | 1#2 fd 0\n    ^\n",
    ),
    // A process that takes no request.
    (
        "2#1 open 0 rw | 2#1 fd 0\n",
        "f:1:1: read \"2#1\"; its process takes no request here\n    2#1 open 0 rw | 2#1 fd 0\n    ^\n# 2#1 never taken: process 2 was never born\n",
    ),
    // A line of the report, and a report that is cut short.
    (
        "1#1 open 0 rw | 1#1 fd 0\nlock 0 process 1 w 0 9\n",
        "f:2:1: read \"lock\"; the report has another line here\n    lock 0 process 1 w 0 9\n    ^\n",
    ),
    (
        "1#1 open 0 rw | 1#1 fd 0\n1#2 setlk 0 w set 0 1 | 1#2 ok\nlock 0 process 1 w 0 0\n",
        "f:4: the report ends too soon\n",
    ),
    (
        "1#1 open 0 rw | 1#1 fd 0\n1#2 setlk 0 w set 0 1 | 1#2 ok\nlock 0 process 1 w 0 0",
        "f:4: the report ends too soon\n",
    ),
    // Under a policy, the wait that is in the way.
    (
        "policy queue\n1#1 open 0 rw | 1#1 fd 0\n1#2 fork 2 | 1#2 ok\n1#3 fork 3 | 1#3 ok\n1#4 setlk 0 r set 0 1 | 1#4 ok\n2#1 setlkw 0 w set 0 1 | 2#1 waits\n3#1 setlkw 0 r set 0 1 | 3#1 ok\n",
        "f:7:30: read \"ok\"; expected \"waits\"\n    3#1 setlkw 0 r set 0 1 | 3#1 ok\n                                 ^\n# 3#1 behind wait 2#1 0 process 2 w 0 0\n",
    ),
];

/// Behind the verdict on each of these journals stands what is written here.
#[test]
fn illegal_journals_by_hand(rt: HostRuntime) -> Result<(), Fail> {
    for (journal, told) in ILLEGAL {
        let seen = told_of_illegal(rt.alloc(), "f", journal.as_bytes())?;
        same(&rt, seen.as_str(), told);
    }
    Ok(())
}

/// Journals, and the header lines that each lacks, where it lacks nothing else.
const HEADLESS: &[(&str, &str)] = &[
    (
        "1#1 fork 17 | 1#1 ok\n17#1 open 0 rw | 17#1 fd 0\n",
        "put \"limits wide\" before it\n",
    ),
    (
        "1#1 open 0 rw | 1#1 fd 0\n1#2 fork 2 | 1#2 ok\n1#3 fork 3 | 1#3 ok\n1#4 setlk 0 r set 0 1 | 1#4 ok\n2#1 setlkw 0 w set 0 1 | 2#1 waits\n3#1 setlkw 0 r set 0 1 | 3#1 waits\n",
        "put \"policy queue\" before it\n",
    ),
    (
        "1#1 open 0 rw | 1#1 fd 0\n1#2 fork 2 | 1#2 ok\n1#3 fork 64 | 1#3 ok\n1#4 setlk 0 r set 0 1 | 1#4 ok\n2#1 setlkw 0 w set 0 1 | 2#1 waits\n64#1 setlkw 0 r set 0 1 | 64#1 waits\n",
        "put \"policy queue\" and \"limits wide\" before it\n",
    ),
    ("1#1 fork 65 | 1#1 ok\n", ""),
    ("1#1 fork 17 | 1#1 EAGAIN\n", ""),
];

/// Each of these journals lacks the header lines that are written here.
#[test]
fn headless_journals_by_hand(rt: HostRuntime) -> Result<(), Fail> {
    for (journal, told) in HEADLESS {
        let seen = told_of_headers(rt.alloc(), journal.as_bytes())?;
        same(&rt, seen, told);
    }
    Ok(())
}
