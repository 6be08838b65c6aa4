//! What is printed of a history.
ghost use Rattle.std.specs.Prelude.{◌≡◌, ◌++◌, ◌==◌, List, ℕ, OnOk, decimal, filter, flat_map, not};
ghost use Rattle.history_check.specs.Told.{IsComment, comment_line, illegal_line, wait_line};

use crate::open_waits::OpenWait;
use history_core::Answer;
use history_judge::OpenRequest;
use history_text::{write_answer, write_request};
use itoa::Buffer;
use range_core::Memory;
use std::alloc::Global;
use std::collections::BTreeMap;

/// Appends the line that tells an answer that isn't possible, and a comment for each open request.
///
/// After `Memory` a part of it was appended, or none.
pub fn push_illegal(
    text: &mut Vec<u8>,
    number: u64,
    answer: Answer,
    open: &BTreeMap<u64, OpenRequest>,
) -> Result<(), Memory>
    ensures { OnOk result ((comment : List ℕ) × IsComment comment × (text.new.items ≡ text.old.items ++ (illegal_line number answer ++ comment))) }
{
    push_illegal_line(text, number, answer)?;
    push_open(text, open)
}

/// Appends the line of each open wait.
///
/// After `Memory` a part of them was appended, or none.
pub fn push_waits(text: &mut Vec<u8>, waits: &[OpenWait]) -> Result<(), Memory>
    ensures { OnOk result (text.new.items ≡ text.old.items ++ flat_map wait_line waits.now) }
{
    for wait in waits {
        push_wait(text, *wait)?;
    }
    Ok(())
}

/// Appends the line that tells an answer that isn't possible.
#[tactic(auto, using(crate::proofs::TextLemmas::joined_six))]
fn push_illegal_line(text: &mut Vec<u8>, number: u64, answer: Answer) -> Result<(), Memory>
    ensures { OnOk result (text.new.items ≡ text.old.items ++ illegal_line number answer) }
{
    push_str(text, "line ")?;
    push_number(text, number)?;
    push_str(text, ": ")?;
    write_answer(text, answer)?;
    push_str(text, " isn't possible")?;
    push_str(text, "\n")
}

/// Appends the line of an open wait.
fn push_wait(text: &mut Vec<u8>, wait: OpenWait) -> Result<(), Memory>
    ensures { OnOk result (text.new.items ≡ text.old.items ++ wait_line wait) }
{
    push_number(text, wait.id)?;
    push_str(text, " waits since ")?;
    push_number(text, wait.since)?;
    push_str(text, "\n")
}

/// Appends a comment for each open request.
fn push_open(text: &mut Vec<u8>, open: &BTreeMap<u64, OpenRequest>) -> Result<(), Memory>
    ensures { OnOk result ((comment : List ℕ) × IsComment comment × (text.new.items ≡ text.old.items ++ comment)) }
{
    let mut line = Vec::new(*text.allocator());
    for opened in open.values() {
        line.clear();
        push_request(&mut line, *opened)?;
        push_comment(text, &line)?;
    }
    Ok(())
}

/// Appends an open request, and the number of its line.
fn push_request(text: &mut Vec<u8>, opened: OpenRequest) -> Result<(), Memory> {
    push_str(text, " open since line ")?;
    push_number(text, opened.line)?;
    push_str(text, ": > ")?;
    push_number(text, opened.request.id)?;
    push_str(text, " ")?;
    write_request(text, opened.file, opened.request)
}

/// Appends a comment, without what would end its line.
#[tactic(auto, using(crate::proofs::TextLemmas::joined_three))]
fn push_comment(text: &mut Vec<u8>, line: &[u8]) -> Result<(), Memory>
    ensures { OnOk result (text.new.items ≡ text.old.items ++ comment_line (filter (λ byte. not (byte == 10)) line.now)) }
{
    push_str(text, "#")?;
    push_without_ends(text, line)?;
    push_str(text, "\n")
}

/// Appends all bytes but line feeds.
fn push_without_ends(text: &mut Vec<u8>, line: &[u8]) -> Result<(), Memory>
    ensures { OnOk result (text.new.items ≡ text.old.items ++ filter (λ byte. not (byte == 10)) line.now) }
{
    for byte in line {
        if *byte != b'\n' {
            text.push(*byte)?;
        }
    }
    Ok(())
}

/// Appends a piece.
pub fn push_str(text: &mut Vec<u8>, piece: &str) -> Result<(), Memory>
    ensures { OnOk result (text.new.items ≡ text.old.items ++ piece.now) }
{
    Ok(text.extend_from_slice(piece.as_bytes())?)
}

/// Appends a number.
pub fn push_number(text: &mut Vec<u8>, number: u64) -> Result<(), Memory>
    ensures { OnOk result (text.new.items ≡ text.old.items ++ decimal number) }
{
    push_str(text, Buffer::new().format(number))
}
