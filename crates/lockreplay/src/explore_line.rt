//! The command line of a search, read by `clap`: the one with `--explore`, which has flags of its own.
ghost use Rattle.std.specs.Prelude.{◌≡◌, IfOk, IfErr, map, option_map, string_bytes, codes, true};
ghost use Rattle.clap.specs.Words.{FailsBy, app_of, fault_of, kind_of, takes};
ghost use Rattle.lockreplay.specs.ExploreLine.{explore_line, explore_value_in};

use crate::command_line::{ABOUT, GUIDE, VERSION, file_argument, flag, option};
use crate::options::ExploreOptions;
use clap::Command;
use clap::error::ErrorKind;
use std::alloc::{AllocError, Global};

/// What these words ask for, the first of which is the program's name.
pub fn explore_options<'a>(
    alloc: Global,
    words: &'a [String],
) -> Result<ExploreOptions<'a>, clap::Error>
    // The file, and the words behind `--limit`, `--fail-on` and `--run`, are those of the matches that clap states for these words.
    ensures file { IfOk result (λ options. option_map (λ file. file.now) options.file ≡ explore_value_in (codes "file") (map string_bytes words.entry.now)) }
    ensures limit { IfOk result (λ options. option_map (λ word. word.now) options.limit ≡ explore_value_in (codes "limit") (map string_bytes words.entry.now)) }
    ensures fail_on { IfOk result (λ options. option_map (λ word. word.now) options.fail_on ≡ explore_value_in (codes "fail-on") (map string_bytes words.entry.now)) }
    ensures run { IfOk result (λ options. option_map (λ word. word.now) options.run ≡ explore_value_in (codes "run") (map string_bytes words.entry.now)) }

    // Words are refused just where clap's own condition for this command fails, and by the kind that it states, or for want of memory.
    ensures kind { FailsBy (fault_of explore_line (map string_bytes words.entry.now)) result }
    ensures taken { IfErr result (λ error. takes explore_line (map string_bytes words.entry.now) ≡ true → kind_of error ≡ ErrorKind.OutOfMemory) }
{
    let matches = command(alloc)?.try_get_matches_from(words)?;
    Ok(ExploreOptions {
        limit: matches.get_str("limit"),
        fail_on: matches.get_str("fail-on"),
        run: matches.get_str("run"),
        file: matches.get_str("file"),
    })
}

/// The command, with its version and the text of its help.
fn command<'a>(alloc: Global) -> Result<Command<'a>, AllocError>
    ensures { IfOk result (λ command. app_of command ≡ explore_line) }
{
    let explore = flag(
        alloc,
        "explore",
        "Searches every order: deadlock, stuck, lost locks, or never",
    );
    let limit = option(
        alloc,
        "limit",
        "N",
        "Keeps N situations at most, 10000000 where it isn't given",
    );
    let fail_on = option(
        alloc,
        "fail-on",
        "LIST",
        "Has status 3 where one of these findings is possible",
    );
    let run = option(
        alloc,
        "run",
        "FINDING",
        "Prints the run of a finding alone, which --check accepts",
    );
    Command::new(alloc, "lockreplay")
        .version(VERSION)
        .about(ABOUT)
        .after_help(GUIDE)
        .arg(explore)?
        .arg(limit)?
        .arg(fail_on)?
        .arg(run)?
        .arg(file_argument(alloc))
}
