//! What a line of a script expects.
ghost use Rattle.std.specs.Prelude.{◌≡◌, ◌∷◌, ◌++◌, ℕ, List, IfOk, OnOk, MatchOption, decimal, flat_map};
ghost use Rattle.std.specs.List.{join_with_byte};
ghost use Rattle.script_core.specs.Words.{texts, words_of as words_by};
ghost use Rattle.script_core.specs.ScriptText.{IsProcess};
ghost use Rattle.script_core.specs.JournalReading.{is_report_word as is_report_word_by};
ghost use Rattle.script_core.specs.EntryReading.{IsTag};
ghost use Rattle.expectations.specs.declared.expectation.Wanted.{Wanted as Wanted_of};
ghost use Rattle.expectations.specs.Expectations.{IsForm, begins_report_line as begins_report_line_by, expects as expects_by};

use fd_table::Limits;
use range_core::Memory;
use script_core::{WORDS_MAX, first_words, natural_of};
use std::alloc::Global;
use std::marker::Model;

/// What an expectation is of.
#[derive(Clone, Copy, Debug, PartialEq, Eq)]
pub enum Wanted {
    /// The last note on request number `n` of process `p`.
    Note { p: u8, n: u64 },
    /// A line that the report has.
    Line,
    /// A line that the report hasn't.
    NoLine,
}

/// What is expected of a run.
#[derive(Debug, Drop)]
pub struct Expectation {
    /// What it is of.
    pub wanted: Wanted,
    /// The text of the note, or of the line.
    pub text: Vec<u8>,
}

impl Model for Expectation {
    ghost use Rattle.expectations.specs.Expectations.{Expected};

    ghost Value = { Expected };

    ghost view = { λ expectation. record { wanted = expectation.wanted; text = expectation.text.items } };
}

impl Expectation {
    ghost use Rattle.expectations.specs.Expectations.{Expected, Says};

    /// What the words behind `# expect` say under these limits; `None` where they have another form.
    pub fn of_words(
        alloc: Global,
        limits: Limits,
        words: &[&str],
    ) -> Result<Option<Expectation>, Memory>
        ensures { IfOk result (λ said. MatchOption said ((expected : Expected) → ¬ Says limits (texts words.now) expected)
            (Says limits (texts words.now))) }
    {
        match form_of(limits, words) {
            Some((wanted, words)) => {
                let text = joined(alloc, words)?;
                Ok(Some(Expectation { wanted, text }))
            }
            None => Ok(None),
        }
    }
}

/// What the words are an expectation of, and those of them that are its text.
fn form_of<'w, 'a>(limits: Limits, words: &'w [&'a str]) -> Option<(Wanted, &'w [&'a str])>
    ensures { MatchOption result ((wanted : Wanted_of) (text : List (List ℕ)) → ¬ IsForm limits (texts words.now) wanted text)
        (λ form. IsForm limits (texts words.now) form.0 (texts form.1.now)) }
{
    let [first, behind @ ..] = words else {
        return None;
    };
    if begins_report_line(words) {
        return Some((Wanted::Line, words));
    }
    if *first == "no" && begins_report_line(behind) {
        return Some((Wanted::NoLine, behind));
    }
    if behind.is_empty() {
        return None;
    }
    let (p, n) = tag_of(limits, first)?;
    Some((Wanted::Note { p, n }, behind))
}

/// Whether the first of the words is one that a line of a report begins with.
fn begins_report_line(words: &[&str]) -> bool
    ensures { result ≡ begins_report_line_by (texts words.now) }
{
    match words {
        [first, ..] => is_report_word(first),
        [] => false,
    }
}

/// Whether a line of a report begins with this word.
fn is_report_word(word: &str) -> bool
    ensures { result ≡ is_report_word_by word.now }
{
    word == "lock" || word == "flock" || word == "wait" || word == "proc"
}

/// The process and the number that the word is the tag of.
fn tag_of(limits: Limits, word: &str) -> Option<(u8, u64)>
    ensures { MatchOption result ((p n : ℕ) → ¬ IsTag limits word.now p n) (λ pair. IsTag limits word.now pair.0 pair.1) }
{
    let (process, number) = word.split_once('#')?;
    let p = process_of(limits, process)?;
    let n = natural_of(number)?;
    Some((p, n))
}

/// The process of these limits that the word is the number of.
#[tactic(auto, using(script_core::proofs::NumberLemmas::one_number, script_core::proofs::ReadingLemmas::small_process))]
fn process_of(limits: Limits, word: &str) -> Option<u8>
    ensures { MatchOption result ((p : ℕ) → ¬ (IsProcess limits p × (word.now ≡ decimal p))) (λ p. IsProcess limits p × (word.now ≡ decimal p)) }
{
    match natural_of(word) {
        Some(p) if 1 <= p && p <= u64::from(limits.processes()) => Some(p as u8),
        _ => None,
    }
}

/// The words with one space between each two.
fn joined(alloc: Global, words: &[&str]) -> Result<Vec<u8>, Memory>
    ensures { IfOk result (λ text. text.items ≡ join_with_byte 32 (texts words.now)) }
{
    let [first, behind @ ..] = words else {
        return Ok(Vec::new(alloc));
    };
    let mut text = Vec::from_slice(alloc, first.as_bytes())?;
    push_words(&mut text, behind)?;
    Ok(text)
}

/// Appends each of the words behind a space.
fn push_words(text: &mut Vec<u8>, words: &[&str]) -> Result<(), Memory>
    ensures { OnOk result (text.new.items ≡ text.old.items ++ flat_map (λ word. 32 ∷ word) (texts words.now)) }
{
    for word in words {
        text.push(b' ')?;
        text.extend_from_slice(word.as_bytes())?;
    }
    Ok(())
}

/// Whether the line is an expectation, by its first words.
pub fn expects(line: &str) -> bool
    ensures { result ≡ expects_by (words_by line.now) }
{
    let mut room = [""; WORDS_MAX];
    match first_words(line, &mut room) {
        [first, second, ..] => *first == "#" && *second == "expect",
        _ => false,
    }
}

/// All words of a line: what stands between spaces, of which there may be several, and also at both ends.
pub fn words_of<'a>(alloc: Global, line: &'a str) -> Result<Vec<&'a str>, Memory>
    ensures { IfOk result (λ words. texts words.items ≡ words_by line.now) }
{
    let mut words = Vec::new(alloc);
    for piece in line.split(' ') {
        if !piece.is_empty() {
            words.push(piece)?;
        }
    }
    Ok(words)
}
