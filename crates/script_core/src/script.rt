//! A whole script: its meaning, or its first faulty line.
ghost use Rattle.std.specs.Prelude.{◌≡◌, ◌≤◌, ◌+◌, [], ◌∷◌, ◌++◌, All, Ok, Err, IfOk, OnOk, IfErr, length};
ghost use Rattle.script_core.specs.declared.TheConstants.{SCRIPT_MAX};
ghost use Rattle.script_core.specs.Reading.{Reads, HasOneReading, IsAtHand, IsOfScript, IsWantOfMemory};
ghost use Rattle.script_core.specs.ScriptText.{IsProcess};

use crate::reader::ScriptReader;
use lock_manager::{Request, Rules};
use range_core::Memory;
use std::alloc::Global;
use std::marker::Model;
use thiserror::Error;

/// What is wrong with a line (this project's choice). The messages are the names of the faults.
#[derive(Clone, Copy, Debug, PartialEq, Eq, Error)]
pub enum Cause {
    /// A byte that isn't printable ASCII.
    #[error("1 Byte")]
    Byte,
    /// A word that isn't one of those that may stand there.
    #[error("2 Word")]
    Word,
    /// A wrong number of words.
    #[error("3 Count")]
    Count,
    /// A word that doesn't spell a number in its range.
    #[error("4 Number")]
    Number,
    /// A word that doesn't spell the number of a process.
    #[error("5 Process")]
    Process,
    /// A line or a script that is too long.
    #[error("6 TooLong")]
    TooLong,
    /// A growth was refused.
    #[error("7 Memory")]
    Memory(Memory),
    /// In a journal alone: a word that isn't a process and the number of a request of it, as `2#1`.
    #[error("8 Tag")]
    Tag,
}

impl From<Memory> for Cause {
    ghost use Rattle.script_core.specs.declared.script.Cause.{Cause};

    ghost from_gives = { λ memory cause. cause ≡ Cause.Memory memory };

    fn from(memory: Memory) -> Cause {
        Cause::Memory(memory)
    }
}

/// The first faulty line of a script, counted from 1, and what is wrong with it; line 0 is the script as a whole.
#[derive(Clone, Copy, Debug, PartialEq, Eq, Error)]
#[error("line {line}: {cause}")]
pub struct ScriptFault {
    /// The number of the line.
    pub line: u64,
    /// What is wrong with it.
    pub cause: Cause,
}

/// What a script says (this project's choice).
#[derive(Debug, Drop)]
pub struct Script {
    /// What its header lines say: the policy is held and the limits are small where none says otherwise.
    pub rules: Rules,
    /// The requests with their processes, in order.
    pub arrivals: Vec<(u8, Request)>,
}

impl Model for Script {
    ghost use Rattle.script_core.specs.ScriptText.{Meaning};

    ghost Value = { Meaning };

    ghost view = { λ script. record { rules = script.rules; arrivals = script.arrivals.items } };
}

/// The meaning of a script of bytes, or its first faulty line and what is wrong with it.
///
/// Lines end with a line feed, and bytes after the last one are a line too. A script of more than [`SCRIPT_MAX`] bytes is
/// too long as a whole, whatever its lines are; a line may have [`crate::LINE_MAX`] bytes. [`Cause::Memory`] may come in
/// place of any other answer, and only where a growth was refused; its line is the one at hand, an arrival.
#[tactic(auto, using(crate::proofs::ReadingLemmas::one_reading, crate::proofs::lengths::ArrivalLengthLemmas::few_read))]
pub fn parse(alloc: Global, bytes: &[u8]) -> Result<Script, ScriptFault>
    ensures accepted { IfOk result (λ script. Reads bytes.now (Ok script)) }
    ensures refused { IfErr result (λ fault. IsOfScript fault.cause → Reads bytes.now (Err fault)) }

    // Want of memory is told of the line at hand.
    ensures memory { IfErr result (λ fault. IsWantOfMemory fault.cause → IsAtHand bytes.now fault.line) }

    // Each arrival is of a process that the script's limits have.
    ensures processes { IfOk result (λ script. All (λ arrival. IsProcess script.rules.limits arrival.0) script.arrivals) }

    // There are no more arrivals than a script has lines.
    ensures few { IfOk result (λ script. length script.arrivals ≤ SCRIPT_MAX + 1) }

    // The bytes have no other reading.
    ensures determined { HasOneReading bytes.now }
{
    let mut reader = ScriptReader::new(bytes)?;
    let mut arrivals = Vec::new(alloc);
    while let Some(arrival) = reader.next_arrival()? {
        take_down(&mut arrivals, arrival, reader.line())?;
    }
    Ok(Script {
        rules: reader.rules(),
        arrivals,
    })
}

/// Takes down an arrival behind the others. A fault is that of its line.
fn take_down(
    arrivals: &mut Vec<(u8, Request)>,
    arrival: (u8, Request),
    line: u64,
) -> Result<(), ScriptFault>
    ensures taken { OnOk result (arrivals.new.items ≡ arrivals.old.items ++ arrival ∷ []) }
    ensures memory { IfErr result (λ fault. (fault.line ≡ line) × IsWantOfMemory fault.cause) }
{
    arrivals.push(arrival).map_err(|refused| ScriptFault {
        line,
        cause: Cause::Memory(Memory::from(refused)),
    })
}
