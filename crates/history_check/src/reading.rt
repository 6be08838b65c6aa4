//! A line of a history behind those that a judge has read.
ghost use Rattle.std.specs.Prelude.{◌≡◌, ◌≢◌, None, Err, OnOk, IfOk, true, false};
ghost use Rattle.history_core.specs.declared.search.SearchFault.{SearchFault};
ghost use Rattle.history_judge.specs.Histories.{Answered, Sent};
ghost use Rattle.history_judge.specs.JudgeView.{Exceeds, Refuses, Takes, keeps_order};
ghost use Rattle.history_text.specs.HistoryReading.{LineGives};
ghost use Rattle.history_check.specs.Checked.{requested_in};

use history_core::{Action, Answer, Request, SearchFault};
use history_judge::{HistoryJudge, JudgeFault};
use history_text::{HistoryLine, read_head};
use script_core::{Cause, WORDS_MAX};

/// What the line says, or the first of its faults.
pub fn read_line(judge: &HistoryJudge, line: &[u8]) -> Result<HistoryLine, Cause>
    ensures { LineGives (requested_in judge.now) line.now result }
{
    let mut room = [""; WORDS_MAX];
    let head = read_head(line, &mut room)?;
    let requested = match head.id() {
        Some(id) => asked_for(judge, id),
        None => None,
    };
    head.read(requested)
}

/// What the open request of this ID asks for.
fn asked_for(judge: &HistoryJudge, id: u64) -> Option<Action>
    ensures { result ≡ requested_in judge.now id }
{
    let opened = judge.open_request(id)?;
    Some(opened.request.action)
}

/// The judge reads a `>`, the line of this number, of an ID that is free.
///
/// Each fault leaves what it has read.
pub fn send(
    judge: &mut HistoryJudge,
    number: u64,
    file: u64,
    request: Request,
    limit: usize,
) -> Result<(), SearchFault>
    requires { requested_in judge.old request.id ≡ None }
    ensures ok { OnOk result (Takes judge.old judge.new (Sent file request)) }
    ensures limit { result ≡ Err SearchFault.Limit → Exceeds judge.old limit }
    ensures keeps { keeps_order judge.new ≡ keeps_order judge.old }
{
    match judge.send(number, file, request, limit) {
        Ok(()) => Ok(()),
        Err(JudgeFault::Limit) => Err(SearchFault::Limit),
        Err(JudgeFault::Memory(memory)) => Err(SearchFault::Memory(memory)),
        Err(JudgeFault::IdTaken | JudgeFault::IdUnknown | JudgeFault::Impossible) => unreachable!(),
    }
}

/// The judge reads a `<` of an ID that is open. `false` where the answer isn't possible.
///
/// Each fault leaves what it has read.
pub fn answer(
    judge: &mut HistoryJudge,
    id: u64,
    answer: Answer,
    limit: usize,
) -> Result<bool, SearchFault>
    requires { requested_in judge.old id ≢ None }
    ensures legal { IfOk result (λ is_possible. is_possible ≡ true → Takes judge.old judge.new (Answered id answer)) }
    ensures illegal { IfOk result (λ is_possible. is_possible ≡ false → Refuses judge.old (Answered id answer)) }
    ensures limit { result ≡ Err SearchFault.Limit → Exceeds judge.old limit }
    ensures keeps { keeps_order judge.new ≡ keeps_order judge.old }
{
    match judge.answer(id, answer, limit) {
        Ok(()) => Ok(true),
        Err(JudgeFault::Impossible) => Ok(false),
        Err(JudgeFault::Limit) => Err(SearchFault::Limit),
        Err(JudgeFault::Memory(memory)) => Err(SearchFault::Memory(memory)),
        Err(JudgeFault::IdTaken | JudgeFault::IdUnknown) => unreachable!(),
    }
}
