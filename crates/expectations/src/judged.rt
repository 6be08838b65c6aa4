//! What is told of the expectations of a script.
ghost use Rattle.std.specs.Prelude.{◌≡◌, ◌≤◌, ◌++◌, [], ℕ, List, Ok, IfOk, OnOk, IfErr, IsTrue, length};
ghost use Rattle.script_core.specs.declared.TheConstants.{SCRIPT_MAX};
ghost use Rattle.script_core.specs.ScriptText.{Meaning};
ghost use Rattle.script_core.specs.Words.{lines_of};
ghost use Rattle.script_core.specs.Reading.{Reads};
ghost use Rattle.expectations.specs.Expectations.{is_expectation, unmet_line};
ghost use Rattle.expectations.specs.Judging.{IsFaultAt, IsToldFault, TellsExpectation, TellsLine, TellsLines};

use crate::expectation::{Expectation, expects, words_of};
use crate::run::run_of;
use crate::seen::{first_line, seen};
use crate::text::{push_bytes, push_numbered, push_str, push_wanted};
use range_core::Memory;
use replay_core::{RunFault, parse_script};
use script_core::{Cause, SCRIPT_MAX, ScriptFault, printable_text};
use std::alloc::Global;

/// What is told of the expectations of a script of these bytes: of each that isn't met a line, in order.
pub fn told_text(alloc: Global, bytes: &[u8]) -> Result<Vec<u8>, RunFault>
    ensures told { IfOk result (λ text. (script : Meaning) × Reads bytes.now (Ok script) × TellsLines [] (lines_of bytes.now) text.items) }
    ensures short { OnOk result (length bytes.now ≤ SCRIPT_MAX) }
    ensures fault { IfErr result (IsToldFault bytes.now) }
{
    if bytes.len() > SCRIPT_MAX {
        return Err(RunFault::Script(ScriptFault {
            line: 0,
            cause: Cause::TooLong,
        }));
    }
    let mut told = Vec::new(alloc);
    let mut rest = bytes;
    let mut number = 0;
    while !rest.is_empty() {
        let (line, behind) = first_line(rest);
        let script = &bytes[..bytes.len() - behind.len()];
        number += 1;
        push_line(alloc, &mut told, script, number, line)?;
        rest = behind;
    }
    parse_script(alloc, bytes)?;
    Ok(told)
}

/// Appends what is told of the line with this number, at which the script of these bytes ends.
fn push_line(
    alloc: Global,
    told: &mut Vec<u8>,
    bytes: &[u8],
    number: u64,
    line: &[u8],
) -> Result<(), RunFault>
    requires { number ≡ length (lines_of bytes.now) }
    ensures told { OnOk result ((own : List ℕ) × TellsLine (lines_of bytes.now) line.now own × (told.new.items ≡ told.old.items ++ own)) }
    ensures fault { IfErr result (IsFaultAt bytes.now line.now number) }
{
    match printable_text(line) {
        Some(text) if expects(text) => push_expectation(alloc, told, bytes, number, text),
        _ => Ok(()),
    }
}

/// Appends what is told of the expectation in the line with this number, at which the script of these bytes ends. The script is run anew.
fn push_expectation(
    alloc: Global,
    told: &mut Vec<u8>,
    bytes: &[u8],
    number: u64,
    line: &str,
) -> Result<(), RunFault>
    requires number { number ≡ length (lines_of bytes.now) }
    requires is { IsTrue (is_expectation line.now) }
    ensures told { OnOk result ((own : List ℕ) × TellsExpectation (lines_of bytes.now) line.now own × (told.new.items ≡ told.old.items ++ own)) }
    ensures fault { IfErr result (IsFaultAt bytes.now line.now number) }
{
    let script = parse_script(alloc, bytes)?;
    let words = words_of(alloc, line)?;
    let Some(expectation) = Expectation::of_words(alloc, script.rules.limits, &words[2..])? else {
        return Err(RunFault::Script(ScriptFault {
            line: number,
            cause: Cause::Word,
        }));
    };
    let run = run_of(alloc, &script)?;
    match seen(alloc, &expectation, run.session.journal(), &run.report)? {
        Some(seen) => Ok(push_unmet(told, number, &seen, &expectation)?),
        None => Ok(()),
    }
}

/// Appends that this was seen, and not what the line with this number expects.
fn push_unmet(
    told: &mut Vec<u8>,
    number: u64,
    seen: &[u8],
    expectation: &Expectation,
) -> Result<(), Memory>
    ensures { OnOk result (told.new.items ≡ told.old.items ++ unmet_line number seen.now expectation.now) }
{
    push_numbered(told, "line ", number)?;
    push_str(told, ": ")?;
    push_bytes(told, seen)?;
    push_str(told, ", expected ")?;
    push_wanted(told, expectation)?;
    push_str(told, "\n")
}
