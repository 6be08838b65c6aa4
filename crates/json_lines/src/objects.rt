//! A line of the output as an object.
ghost use Rattle.std.specs.Prelude.{IfOk};
ghost use Rattle.json_lines.specs.Objects.{HasText};

use range_core::Memory;
use serde_json::{Value, json};
use std::alloc::{AllocError, Global};

/// The object of a line without its line feed: what the line is (`kind`), its text, and what it says by name (this project's choice).
///
/// | Line | `kind` | Also
/// |---|---|---
/// | of an event | `event` | `process`, `number`, `request`, and `notes`, each with `process`, `number`, `answer`
/// | `proc ..` | `process` | `process`, `sent`, `taken`, `answered`, `state`
/// | `lock ..`, `flock ..`, `wait ..` | that word |
/// | `policy ..`, `limits ..` | `header` |
/// | `# - ..`, `# + ..` | `went`, `came` |
/// | `# lock ..` and the other lines of a state | `state` |
/// | any other comment | `explanation` |
/// | `FINDING never`, `FINDING possible ..`, `FINDING not found ..` | `finding` | `finding`, `found`, and `events` or `situations`
/// | `situations N`, `ends N`, `longest N` | that word | `count`
/// | `line L: ..` | `verdict` | `line`
/// | `ID behind L`, `ID lets go behind L`, `ID waits since L` | `effect`, `lets_go`, `waits` | `id`, `line`
/// | any other | `line` |
///
/// `Memory` tells nothing.
pub fn object_of(alloc: Global, line: &str) -> Result<Value, Memory>
    ensures { IfOk result (HasText line.now) }
{
    let words: Vec<&str> = line.split_whitespace().collect(alloc)?;
    Ok(object_of_words(alloc, line, &words)?)
}

/// The object of a line of these words.
fn object_of_words(alloc: Global, line: &str, words: &[&str]) -> Result<Value, AllocError>
    ensures { IfOk result (HasText line.now) }
{
    match words {
        ["#", comment @ ..] => of_kind(alloc, kind_of_comment(comment), line),
        [first, ..] if first.contains('#') => event(alloc, line, first),
        ["lock", ..] => of_kind(alloc, "lock", line),
        ["flock", ..] => of_kind(alloc, "flock", line),
        ["wait", ..] => of_kind(alloc, "wait", line),
        ["policy" | "limits", _] => of_kind(alloc, "header", line),
        [
            "proc",
            process,
            "sent",
            sent,
            "taken",
            taken,
            "answered",
            answered,
            state,
        ] => { of_process(alloc, line, process, [sent, taken, answered], state) }
        _ => object_of_verdict(alloc, line, words),
    }
}

/// The object of the line of a process: how many of its requests were sent, taken and answered, and how it stands.
fn of_process(
    alloc: Global,
    line: &str,
    process: &str,
    counts: [&str; 3],
    state: &str,
) -> Result<Value, AllocError>
    ensures { IfOk result (HasText line.now) }
{
    let [sent, taken, answered] = counts;
    json!(in alloc; {
        "kind": "process",
        "text": line,
        "process": number(process),
        "sent": number(sent),
        "taken": number(taken),
        "answered": number(answered),
        "state": state,
    })
}

/// The object of a line that judges a journal or a history, or tells what a search found.
fn object_of_verdict(alloc: Global, line: &str, words: &[&str]) -> Result<Value, AllocError>
    ensures { IfOk result (HasText line.now) }
{
    match words {
        ["line", place, ..] => verdict(alloc, line, place.trim_end_matches(':')),
        [id, "behind", place] => of_moment(alloc, line, "effect", id, place),
        [id, "lets", "go", "behind", place] => of_moment(alloc, line, "lets_go", id, place),
        [id, "waits", "since", place] => of_moment(alloc, line, "waits", id, place),
        [finding, "never"] => never(alloc, line, finding),
        [finding, "possible", "in", events, "events"] => possible(alloc, line, finding, events),
        [finding, "not", "found", "in", situations, "situations"] => {
            not_found(alloc, line, finding, situations)
        }
        [counted @ ("situations" | "ends" | "longest"), count] => of_count(
            alloc, line, counted, count,
        ),
        _ => of_kind(alloc, "line", line),
    }
}

/// The object of a verdict on a line of a journal or a history.
fn verdict(alloc: Global, line: &str, place: &str) -> Result<Value, AllocError>
    ensures { IfOk result (HasText line.now) }
{
    json!(in alloc; {"kind": "verdict", "text": line, "line": number(place)})
}

/// The object of a finding that no order shows.
fn never(alloc: Global, line: &str, finding: &str) -> Result<Value, AllocError>
    ensures { IfOk result (HasText line.now) }
{
    json!(in alloc; {"kind": "finding", "text": line, "finding": finding, "found": "never"})
}

/// The object of a finding that some order shows.
fn possible(alloc: Global, line: &str, finding: &str, events: &str) -> Result<Value, AllocError>
    ensures { IfOk result (HasText line.now) }
{
    json!(in alloc; {"kind": "finding", "text": line, "finding": finding, "found": "possible", "events": number(events)})
}

/// The object of a finding that no order showed up to the limit.
fn not_found(
    alloc: Global,
    line: &str,
    finding: &str,
    situations: &str,
) -> Result<Value, AllocError>
    ensures { IfOk result (HasText line.now) }
{
    json!(in alloc; {"kind": "finding", "text": line, "finding": finding, "found": "not found", "situations": number(situations)})
}

/// The object of what a search counted.
fn of_count(alloc: Global, line: &str, counted: &str, count: &str) -> Result<Value, AllocError>
    ensures { IfOk result (HasText line.now) }
{
    json!(in alloc; {"kind": counted, "text": line, "count": number(count)})
}

/// The object of a line that tells of one request of a history and one of its lines.
fn of_moment(
    alloc: Global,
    line: &str,
    kind: &str,
    id: &str,
    place: &str,
) -> Result<Value, AllocError>
    ensures { IfOk result (HasText line.now) }
{
    json!(in alloc; {"kind": kind, "text": line, "id": number(id), "line": number(place)})
}

/// What the words of a comment tell.
fn kind_of_comment(words: &[&str]) -> &'static str {
    match words {
        ["-", ..] => "went",
        ["+", ..] => "came",
        ["lock" | "flock" | "wait" | "proc" | "fd" | "file", ..] => "state",
        _ => "explanation",
    }
}

/// The object of a line of which all is said by its kind and its text.
fn of_kind(alloc: Global, kind: &str, line: &str) -> Result<Value, AllocError>
    ensures { IfOk result (HasText line.now) }
{
    json!(in alloc; {"kind": kind, "text": line})
}

/// The object of an event's line, of which the first word says whose request it is.
fn event(alloc: Global, line: &str, first: &str) -> Result<Value, AllocError>
    ensures { IfOk result (HasText line.now) }
{
    let mut parts = line.split(" | ");
    let request = parts
        .next()
        .and_then(|part| part.split_once(' '))
        .map_or("", |(_, request)| request);
    let mut notes = Vec::new(alloc);
    for part in parts {
        notes.push(note(alloc, part)?)?;
    }
    let (process, number) = numbered(first);
    json!(in alloc; {
        "kind": "event",
        "text": line,
        "process": process,
        "number": number,
        "request": request,
        "notes": (Value::Array(notes)),
    })
}

/// The object of an event's note: whose request is answered, and what.
fn note(alloc: Global, text: &str) -> Result<Value, AllocError> {
    let (first, answer) = text.split_once(' ').unwrap_or((text, ""));
    let (process, number) = numbered(first);
    json!(in alloc; {"process": process, "number": number, "answer": answer})
}

/// The process and the number of a word such as `2#1`.
fn numbered(word: &str) -> (Value, Value) {
    let (process, place) = word.split_once('#').unwrap_or((word, ""));
    (number(process), number(place))
}

/// The word as a number, and null where it is none of 64 bits.
fn number(word: &str) -> Value {
    word.parse::<u64>().map_or(Value::Null, Value::from)
}
