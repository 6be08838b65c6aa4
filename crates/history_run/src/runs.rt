//! A history from its bytes to what is told of it.
ghost use Rattle.std.specs.Prelude.{◌≡◌, ◌≢◌, ◌≤◌, ◌<◌, ◌+◌, ◌^◌, ℕ, List, Option, IfOk, IfErr, OnOk, OnErr, MatchResult, Ok, Err, IsTrue, length};
ghost use Rattle.std.specs.Io.KnownBytes.{Appends};
ghost use Rattle.history_check.specs.declared.judging.HistoryOutcome.{HistoryOutcome};
ghost use Rattle.history_check.specs.Verdicts.{IsSound, history_limit};
ghost use Rattle.history_check.specs.Checked.{HasChecked, HasJudged, lines_in, verdict_in};
ghost use Rattle.history_check.specs.Told.{outcome_of};
ghost use Rattle.replay_core.specs.Devices.{TakesFront};
ghost use Rattle.history_run.specs.declared.runs.HistoryFault.{HistoryFault};
ghost use Rattle.history_run.specs.HistoryRuns.{Exceeds, IsEndFault, IsPrinted, IsRead, IsReadFault, IsReadTo, TellsSome, WritesFront, WritesTold, fault_status};
ghost use Rattle.history_check.specs.declared.judging.Judging.{Judging};

use history_check::{HISTORY_MAX, HistoryCheck, HistoryOutcome, Judging};
use history_core::SearchFault;
use range_core::Memory;
use replay_core::{DeviceFault, Sink, Source};
use std::alloc::Global;
use thiserror::Error;

/// How many bytes are asked for at once.
const CHUNK: usize = 8192;

/// Why nothing is claimed of a history. The messages are the program's.
#[derive(Clone, Copy, Debug, PartialEq, Eq, Error)]
pub enum HistoryFault {
    /// The source failed; nothing was written.
    #[error("read failed")]
    Read,
    /// The sink failed; a front of what is told stands there.
    #[error("write failed")]
    Write,
    /// More possibilities than the limit would be kept; nothing was written.
    #[error("limit reached")]
    Limit,
    /// A growth was refused; nothing was written.
    #[error(transparent)]
    Memory(Memory),
}

impl HistoryFault {
    /// The exit status of the program: 4 where the limit was reached, and else 1.
    pub fn status(&self) -> u8
        ensures { result ≡ fault_status self.now }
    {
        match self {
            HistoryFault::Limit => 4,
            HistoryFault::Read | HistoryFault::Write | HistoryFault::Memory(_) => 1,
        }
    }
}

impl From<SearchFault> for HistoryFault {
    ghost use Rattle.history_core.specs.declared.search.SearchFault.{SearchFault};
    ghost use Rattle.history_run.specs.HistoryRuns.{fault_of};

    ghost from_gives = { λ search fault. fault ≡ fault_of search };

    fn from(search: SearchFault) -> HistoryFault {
        match search {
            SearchFault::Limit => HistoryFault::Limit,
            SearchFault::Memory(memory) => HistoryFault::Memory(memory),
        }
    }
}

impl From<Memory> for HistoryFault {
    ghost use Rattle.history_run.specs.declared.runs.HistoryFault.{HistoryFault};

    ghost from_gives = { λ memory fault. fault ≡ HistoryFault.Memory memory };

    fn from(memory: Memory) -> HistoryFault {
        HistoryFault::Memory(memory)
    }
}

/// Reads a history, line by line, until it is judged, and writes what is told of it: nothing where it is legal and no order is kept, or where it
/// has a fault, which the outcome has.
///
/// No more is read than decides. A history that is too long is refused once one byte past the longest was read. It keeps no more of it than
/// the line at hand, and what a [`HistoryCheck`] keeps.
pub fn judge_history<R: Source, W: Sink>(
    alloc: Global,
    judging: Judging,
    source: &mut R,
    sink: &mut W,
) -> Result<HistoryOutcome, HistoryFault>
    // What was read is all, or decides, and just what is to be told of it was written.
    ensures ok { IfOk result (λ outcome. WritesTold judging outcome
        (R.remaining source.old) (R.remaining source.new) (W.written sink.old) (W.written sink.new)) }
    ensures quiet { IfOk result (λ outcome. ¬ IsPrinted judging outcome → sink.new ≡ sink.old) }

    // The limit is told only of what reaches it, a fault of reading only where the source failed, and one of writing only where the sink did;
    // then a front of what is to be told was written.
    ensures limit { result ≡ Err HistoryFault.Limit → Exceeds judging (R.remaining source.old) (R.remaining source.new) }
    ensures read { result ≡ Err HistoryFault.Read → IsTrue (R.failed source.new) }
    ensures write { result ≡ Err HistoryFault.Write → IsTrue (W.failed sink.new)
        × (outcome : HistoryOutcome) × WritesFront judging outcome
        (R.remaining source.old) (R.remaining source.new) (W.written sink.old) (W.written sink.new) }
    ensures source { result ≢ Err HistoryFault.Read → R.failed source.new ≡ R.failed source.old }
    ensures sink { result ≢ Err HistoryFault.Write → W.failed sink.new ≡ W.failed sink.old }

    // Each other fault leaves the sink as it was.
    ensures unwritten { IfErr result (λ fault. fault ≢ HistoryFault.Write → sink.new ≡ sink.old) }
    ensures calls { R.calls source.new ≤ R.calls source.old + (history_limit + 1) }
{
    let check = read_history(alloc, judging, source)?;
    write_told(alloc, judging, &check, sink)?;
    Ok(check.outcome())
}

/// Writes what is told of a history that was judged.
fn write_told<W: Sink>(
    alloc: Global,
    judging: Judging,
    check: &HistoryCheck,
    sink: &mut W,
) -> Result<(), HistoryFault>
    requires few { lines_in check.now + 1 < 2 ^ 64 }
    requires sound { IsSound judging (verdict_in check.now) }
    ensures ok { OnOk result (TellsSome judging check.now (λ text. Appends (W.written sink.old) (W.written sink.new) text)) }
    ensures quiet { OnOk result (¬ IsPrinted judging (outcome_of (verdict_in check.now)) → sink.new ≡ sink.old) }
    ensures front { result ≡ Err HistoryFault.Write → TellsSome judging check.now (λ text. TakesFront (W.written sink.old) (W.written sink.new) text) }
    ensures failed { result ≡ Err HistoryFault.Write → IsTrue (W.failed sink.new) }
    ensures sound { result ≢ Err HistoryFault.Write → W.failed sink.new ≡ W.failed sink.old }
    ensures unwritten { IfErr result (λ fault. fault ≢ HistoryFault.Write → sink.new ≡ sink.old) }
    ensures known { (result ≢ Err HistoryFault.Read) × (result ≢ Err HistoryFault.Limit) }
{
    match check.outcome() {
        HistoryOutcome::Legal if !judging.order => Ok(()),
        HistoryOutcome::Faulty(_) => Ok(()),
        HistoryOutcome::Legal | HistoryOutcome::Illegal | HistoryOutcome::LostWakeUps => {
            let text = check.told(alloc, judging.states)?;
            write_all(sink, &text)
        }
    }
}

/// Reads a history until it is judged.
fn read_history<R: Source>(
    alloc: Global,
    judging: Judging,
    source: &mut R,
) -> Result<HistoryCheck, HistoryFault>
    ensures whole { IfOk result (IsRead judging (R.remaining source.old) (R.remaining source.new)) }
    ensures fault { IfErr result (IsReadFault judging (R.remaining source.old) (R.remaining source.new) (R.failed source.new)) }
    ensures sound { result ≢ Err HistoryFault.Read → R.failed source.new ≡ R.failed source.old }
    ensures calls { R.calls source.new ≤ R.calls source.old + (history_limit + 1) }
{
    let mut check = HistoryCheck::new(alloc, judging);
    let mut chunk = [0; CHUNK];
    let mut left = HISTORY_MAX;
    while left > 0 {
        if check.is_decided() {
            return Ok(check);
        }
        let len = CHUNK.min(left);
        let room = &mut chunk[..len];
        match source.read_some(room) {
            Ok(0) => return ended(check),
            Ok(count) => {
                check.take_all(&room[..count])?;
                left -= count;
            }
            Err(DeviceFault) => return Err(HistoryFault::Read),
        }
    }
    read_past(check, source)
}

/// Judges as many bytes as a history may have, by whether one more follows.
fn read_past<R: Source>(
    mut check: HistoryCheck,
    source: &mut R,
) -> Result<HistoryCheck, HistoryFault>
    requires { lines_in check ≤ history_limit }
    ensures whole { (judging : Judging) (old : Option (List ℕ)) → IsReadTo judging old (R.remaining source.old) check 0
        → IfOk result (IsRead judging old (R.remaining source.new)) }
    ensures fault { (judging : Judging) (old : Option (List ℕ)) → IsReadTo judging old (R.remaining source.old) check 0
        → IfErr result (IsReadFault judging old (R.remaining source.new) (R.failed source.new)) }
    ensures sound { result ≢ Err HistoryFault.Read → R.failed source.new ≡ R.failed source.old }
    ensures calls { R.calls source.new ≤ R.calls source.old + 1 }
{
    match source.read_byte() {
        Ok(None) => ended(check),
        Ok(Some(_)) => {
            check.cut_off();
            Ok(check)
        }
        Err(DeviceFault) => Err(HistoryFault::Read),
    }
}

/// Judges a history of which no byte follows.
fn ended(mut check: HistoryCheck) -> Result<HistoryCheck, HistoryFault>
    requires { lines_in check ≤ history_limit }
    ensures judged { (judging : Judging) (bytes : List ℕ) → length bytes ≤ history_limit → HasChecked judging check bytes
        → MatchResult result (λ last. HasJudged judging last bytes) (IsEndFault judging bytes) }
    ensures few { IfOk result (λ last. lines_in last ≤ history_limit + 1) }
    ensures sound { (judging : Judging) (bytes : List ℕ) → HasChecked judging check bytes → IfOk result (λ last. IsSound judging (verdict_in last)) }
    ensures fault { IfErr result (λ fault. fault ≢ HistoryFault.Read) }
{
    check.end()?;
    Ok(check)
}

/// Writes the whole text, in as many writes as the sink needs.
fn write_all<W: Sink>(sink: &mut W, text: &[u8]) -> Result<(), HistoryFault>
    ensures ok { OnOk result (Appends (W.written sink.old) (W.written sink.new) text.now) }
    ensures sound { OnOk result (W.failed sink.new ≡ W.failed sink.old) }
    ensures fault { IfErr result (λ fault. fault ≡ HistoryFault.Write) }
    ensures front { OnErr result (TakesFront (W.written sink.old) (W.written sink.new) text.now × IsTrue (W.failed sink.new)) }
{
    let mut rest = text;
    while !rest.is_empty() {
        let count = sink.write_some(rest).map_err(|_| HistoryFault::Write)?;
        rest = &rest[count..];
    }
    Ok(())
}
