//! The command line of the program, read by `clap`.
ghost use Rattle.std.specs.Prelude.{◌≡◌, IfOk, IfErr, map, option_map, string_bytes, false, true};
ghost use Rattle.clap.specs.Words.{FailsBy, app_of, fault_of, kind_of, rule_of, takes};
ghost use Rattle.lockreplay.specs.CommandLine.{Flag, FollowsUsage, IsGiven, command_line, fail_on_in, file_of, state_in, option_rule, flag_in, flag_rule, has_flag};
ghost use Rattle.lockreplay.specs.CommandLine as spec;

use crate::options::Options;
use clap::error::ErrorKind;
use clap::{Arg, ArgAction, Command};
use std::alloc::{AllocError, Global};

/// What these words ask for, the first of which is the program's name.
pub fn options<'a>(alloc: Global, words: &'a [String]) -> Result<Options<'a>, clap::Error>
    // The file is that of the matches that clap states for these words.
    ensures file { IfOk result (λ options. option_map (λ file. file.now) options.file ≡ file_of (map string_bytes words.entry.now)) }

    // So is the word behind `--state`.
    ensures state { IfOk result (λ options. option_map (λ word. word.now) options.state ≡ state_in (map string_bytes words.entry.now)) }

    // And the one behind `--fail-on`.
    ensures fail_on { IfOk result (λ options. option_map (λ word. word.now) options.fail_on ≡ fail_on_in (map string_bytes words.entry.now)) }

    // So are the flags.
    ensures flags { IfOk result (λ options. (flag : Flag) → IsGiven (flag_in flag (map string_bytes words.entry.now)) (has_flag options flag)) }

    // Words are refused just where clap's own condition for this command fails, and by the kind that it states, or for want of memory.
    ensures kind { FailsBy (fault_of command_line (map string_bytes words.entry.now)) result }
    ensures taken { IfErr result (λ error. takes command_line (map string_bytes words.entry.now) ≡ true → kind_of error ≡ ErrorKind.OutOfMemory) }

    // So one word is the file, without one there is none, and two are refused, where they begin with no hyphen; each flag before or
    // behind it asks for what it says, beside another too, and is refused twice in front.
    ensures usage { FollowsUsage (map string_bytes words.entry.now) result }
{
    let matches = command(alloc)?.try_get_matches_from(words)?;
    Ok(Options {
        threads: matches.get_flag("threads"),
        explain: matches.get_flag("explain"),
        check: matches.get_flag("check"),
        state: matches.get_str("state"),
        fail_on: matches.get_str("fail-on"),
        file: matches.get_str("file"),
    })
}

/// The command, with its version and the text of its help.
fn command<'a>(alloc: Global) -> Result<Command<'a>, AllocError>
    ensures { IfOk result (λ command. app_of command ≡ command_line) }
{
    let threads = flag(alloc, "threads", "Runs each process in a thread of its own");
    let explain = flag(
        alloc,
        "explain",
        "Explains refusals, waits and lost locks, in # lines",
    );
    let state = option(
        alloc,
        "state",
        "N",
        "Explains; shows the state after event N, all or changes",
    );
    let check = flag(alloc, "check", "Checks a log instead of replaying a script");
    let fail_on = option(
        alloc,
        "fail-on",
        "LIST",
        "Exits with 3 if the run shows one of these findings",
    );
    Command::new(alloc, "lockreplay")
        .version(VERSION)
        .about(ABOUT)
        .after_help(GUIDE)
        .arg(threads)?
        .arg(explain)?
        .arg(state)?
        .arg(check)?
        .arg(fail_on)?
        .arg(file_argument(alloc))
}

/// FILE, which may be left out.
pub fn file_argument<'a>(alloc: Global) -> Arg<'a>
    ensures rule { rule_of result ≡ spec.file_argument }
    ensures local { result.global ≡ false }
{
    Arg::new(alloc, "file")
        .value_name("FILE")
        .help("What to read; standard input if there is none or it is -")
}

/// The flag of this name.
pub fn flag<'a>(alloc: Global, name: &'a str, help: &'a str) -> Arg<'a>
    ensures rule { rule_of result ≡ flag_rule name.entry.now }
    ensures local { result.global ≡ false }
{
    Arg::new(alloc, name)
        .long(name)
        .action(ArgAction::SetTrue)
        .help(help)
}

/// The option of this name, behind which a value stands.
pub fn option<'a>(alloc: Global, name: &'a str, value: &'a str, help: &'a str) -> Arg<'a>
    ensures rule { rule_of result ≡ option_rule name.entry.now }
    ensures local { result.global ≡ false }
{
    Arg::new(alloc, name)
        .long(name)
        .value_name(value)
        .help(help)
}

/// The version of the program, which is the topmost of CHANGELOG.md.
pub const VERSION: &str = "0.2.0";

/// What the program does.
pub const ABOUT: &str =
    "Replays a script of advisory lock requests. No file of the machine is locked.";

/// For whom the program is, and how a script is written. With what clap puts before it, its first 8 lines fill a screen of 24.
pub const GUIDE: &str =
    "Exit status: 0 replayed or legal; 3 illegal, or a finding; 2 input or command
  line refused, or --help; 4 --limit; 1 reading, writing, memory or a thread

  $ printf '1 open 0 rw\\n1 setlk 0 w set 0 100\\n' | lockreplay
  1#1 open 0 rw | 1#1 fd 0
  1#2 setlk 0 w set 0 100 | 1#2 ok
  lock 0 process 1 w 0 99
  proc 1 sent 2 taken 2 answered 2 live

My program lost its lock:
  strace -f -y -ttt -o LOG PROGRAM; lockreplay-trace LOG
  lockreplay --explain FILE             a script of what the program requests

I test my locking protocol:
  lockreplay --explore [--limit N] [--fail-on LIST] [--run FINDING] [FILE]
    Takes the requests of a script's processes in every order, and says which
    findings an order shows, with a shortest run, and which none does:
    deadlock, stuck, together, dropped, lost, busy, interrupted, killed,
    unborn. Exits with 3 if one of LIST is possible; without LIST, if any but
    busy, interrupted and killed is.
  lockreplay [--explain] --fail-on LIST [FILE]
    Takes them in the script's order alone. LIST may also name badfd: EBADF.
  lockreplay --expect [FILE]            checks its lines # expect 1#2 EAGAIN

I write a file server, or test one:
  lockreplay --check [FILE]             a log in its order, as a run is printed
  lockreplay --history [--limit N] [--open] [--runs] [--order [--state N]]
                       [FILE]           a log of clients that race
    dehokuna(3) has the library, lockfs(1) a server on it; locktest(1) tests a
    mount with real processes.

Script: a line for each request, the number of a process, 1 to 16, and one of
  open FILE r|w|rw      dup FD          dup2 FD FD         close FD
  seek FD OFFSET        resize FD SIZE
  getlk|setlk|setlkw    FD r|w|u set|cur|end START LENGTH [PID]
  ogetlk|osetlk|osetlkw .. the same, of the open file description
  flock FD sh|ex|un [nb]
  fork PROCESS          signal PROCESS  kill PROCESS       exit
  enter SECTION [sh]    leave SECTION   bail (exit after an error)
  Process 1 is alive at the start, others from their fork on. FILE is 0 to 63,
  FD 0 to 31; LENGTH 0 reaches to the largest offset. Before all requests there
  may be policy queue, where a request also waits behind earlier waits, and
  limits wide, for processes up to 64 and descriptors up to 255. Blank lines and
  comments, which begin with #, are skipped.

With --json, added to any of these, each line of the output is a JSON object.
--timeline draws a run, also that of --explore --run, a column for each process.
--diagnose, added to any, shows the line of a fault, and what is wrong in it.
man lockreplay has each request, the output, and the faults by number.";
