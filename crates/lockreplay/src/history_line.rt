//! The command line of a history, read by `clap`: the one with `--history`, which has flags of its own.
ghost use Rattle.std.specs.Prelude.{◌≡◌, IfOk, IfErr, map, option_map, string_bytes, codes, true};
ghost use Rattle.clap.specs.Words.{FailsBy, app_of, fault_of, kind_of, takes};
ghost use Rattle.lockreplay.specs.CommandLine.{IsGiven};
ghost use Rattle.lockreplay.specs.HistoryLine.{history_flag_in, history_line, value_in};

use crate::command_line::{ABOUT, GUIDE, VERSION, file_argument, flag, option};
use crate::options::HistoryOptions;
use clap::Command;
use clap::error::ErrorKind;
use std::alloc::{AllocError, Global};

/// What these words ask for, the first of which is the program's name.
pub fn history_options<'a>(
    alloc: Global,
    words: &'a [String],
) -> Result<HistoryOptions<'a>, clap::Error>
    // The file, and the words behind `--limit` and `--state`, are those of the matches that clap states for these words.
    ensures file { IfOk result (λ options. option_map (λ file. file.now) options.file ≡ value_in (codes "file") (map string_bytes words.entry.now)) }
    ensures limit { IfOk result (λ options. option_map (λ word. word.now) options.limit ≡ value_in (codes "limit") (map string_bytes words.entry.now)) }

    ensures state { IfOk result (λ options. option_map (λ word. word.now) options.state ≡ value_in (codes "state") (map string_bytes words.entry.now)) }

    // So are the flags.
    ensures open_waits { IfOk result (λ options. IsGiven (history_flag_in (codes "open") (map string_bytes words.entry.now)) options.open_waits) }
    ensures runs { IfOk result (λ options. IsGiven (history_flag_in (codes "runs") (map string_bytes words.entry.now)) options.runs) }
    ensures order { IfOk result (λ options. IsGiven (history_flag_in (codes "order") (map string_bytes words.entry.now)) options.order) }

    // Words are refused just where clap's own condition for this command fails, and by the kind that it states, or for want of memory.
    ensures kind { FailsBy (fault_of history_line (map string_bytes words.entry.now)) result }
    ensures taken { IfErr result (λ error. takes history_line (map string_bytes words.entry.now) ≡ true → kind_of error ≡ ErrorKind.OutOfMemory) }
{
    let matches = command(alloc)?.try_get_matches_from(words)?;
    Ok(HistoryOptions {
        open_waits: matches.get_flag("open"),
        runs: matches.get_flag("runs"),
        order: matches.get_flag("order"),
        state: matches.get_str("state"),
        limit: matches.get_str("limit"),
        file: matches.get_str("file"),
    })
}

/// The command, with its version and the text of its help.
fn command<'a>(alloc: Global) -> Result<Command<'a>, AllocError>
    ensures { IfOk result (λ command. app_of command ≡ history_line) }
{
    let history = flag(
        alloc,
        "history",
        "Judges a history of locks: was there a legal order?",
    );
    let limit = option(
        alloc,
        "limit",
        "N",
        "Keeps N possibilities at most, 1000000 where it isn't given",
    );
    let waits = flag(
        alloc,
        "open",
        "Asks whether each open wait may wait still at the end",
    );
    let runs = flag(
        alloc,
        "runs",
        "Demands of each held a largest run of that owner's mode",
    );
    let order = flag(
        alloc,
        "order",
        "Tells an order of the effects of a legal history",
    );
    let state = option(
        alloc,
        "state",
        "N",
        "Tells the locks behind line N of the order, or behind all",
    );
    Command::new(alloc, "lockreplay")
        .version(VERSION)
        .about(ABOUT)
        .after_help(GUIDE)
        .arg(history)?
        .arg(limit)?
        .arg(waits)?
        .arg(runs)?
        .arg(order)?
        .arg(state)?
        .arg(file_argument(alloc))
}
