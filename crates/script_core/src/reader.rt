//! Reading a script arrival by arrival.
ghost use Rattle.std.specs.Prelude.{ℕ, ◌≡◌, ◌+◌, ◌<◌, ◌≤◌, ◌==◌, List, [], ◌∷◌, ◌++◌, Ok, Err, IfOk, OnOk, OnErr, IfErr, IfSome, length, position};
ghost use Rattle.lock_manager.specs.declared.request.Request.{Request};
ghost use Rattle.script_core.specs.declared.TheConstants.{SCRIPT_MAX};
ghost use Rattle.script_core.specs.Words.{lines_of};
ghost use Rattle.script_core.specs.ScriptText.{IsProcess};
ghost use Rattle.script_core.specs.Reading.{Reads, IsAtHand, IsOfScript};

use crate::header::Header;
use crate::line::{apply, parse_line};
use crate::{Cause, SCRIPT_MAX, ScriptFault};
use lock_manager::{Request, Rules};
use memchr::memchr;

/// Reads a script and hands out its arrivals, one after another (this project's choice). It takes no memory: it keeps what the header lines
/// said, and where it stands in the bytes.
#[derive(Drop)]
pub struct ScriptReader<'a> {
    header: Header,
    /// No arrival was read: a header line may still stand there.
    at_top: bool,
    /// How many lines were read.
    lines: u64,
    /// What stands behind them.
    rest: &'a [u8],
    ghost short: { lines + length rest.now ≤ SCRIPT_MAX },
}

#[tactic(auto, unfolding(crate::specs::ScriptView::HasRead, crate::specs::ScriptView::unread_in, crate::specs::ScriptView::lines_in, crate::specs::ScriptView::rules_in))]
impl<'a> ScriptReader<'a> {
    ghost use Rattle.script_core.specs.ScriptView.{HasRead, HandsOut, unread_in, lines_in, rules_in, with_next};

    /// Nothing was read. A script of more than [`SCRIPT_MAX`] bytes is too long as a whole, whatever its lines are.
    pub fn new(bytes: &'a [u8]) -> Result<ScriptReader<'a>, ScriptFault>
        ensures opened { IfOk result (λ reader. HasRead bytes.now reader []) }
        ensures refused { IfErr result (λ fault. Reads bytes.now (Err fault)) }
        ensures told { IfErr result (λ fault. IsOfScript fault.cause) }
    {
        if bytes.len() > SCRIPT_MAX {
            return Err(ScriptFault {
                line: 0,
                cause: Cause::TooLong,
            });
        }
        Ok(ScriptReader {
            header: Header::new(),
            at_top: true,
            lines: 0,
            rest: bytes,
        })
    }

    /// Reads up to the next arrival, and hands it out with its process; `None` at the end of the script. A fault is that of the first
    /// faulty line, and never want of memory. Each later call answers the end, or the fault, again.
    pub fn next_arrival(&mut self) -> Result<Option<(u8, Request)>, ScriptFault>
        // Whatever was read so far.
        ensures next { (bytes : List ℕ) (arrivals : List (ℕ × Request)) → HasRead bytes self.old arrivals →
            IfOk result (HandsOut bytes self.new arrivals) }
        ensures refused { (bytes : List ℕ) (arrivals : List (ℕ × Request)) → HasRead bytes self.old arrivals →
            IfErr result (λ fault. HasRead bytes self.new arrivals × Reads bytes (Err fault) × IsOfScript fault.cause) }

        // From the first arrival on the rules are those of the whole script.
        ensures rules { (bytes : List ℕ) (arrivals : List (ℕ × Request)) (arrival : ℕ × Request) → HasRead bytes self.old (arrivals ++ arrival ∷ []) →
            rules_in self.new ≡ rules_in self.old }

        // So there is an end to it.
        ensures shorter { IfOk result (λ next. IfSome next (λ arrival. unread_in self.new < unread_in self.old)) }
    {
        while !self.rest.is_empty() {
            if let Some(arrival) = self.read_line()? {
                return Ok(Some(arrival));
            }
        }
        Ok(None)
    }

    /// What the header lines said that were read: from the first arrival on, the rules of the script.
    pub fn rules(&self) -> Rules
        ensures { result ≡ rules_in self.now }
    {
        self.header.rules()
    }

    /// The number of the line that was read last, counted from 1: that of the arrival which was handed out last.
    pub fn line(&self) -> u64
        ensures { result ≡ lines_in self.now }
    {
        self.lines
    }

    /// Reads one more line: its arrival, where it is one. A faulty line is left.
    fn read_line(&mut self) -> Result<Option<(u8, Request)>, ScriptFault>
        requires { 0 < length self.old.rest.now }
        ensures read { (bytes : List ℕ) (arrivals : List (ℕ × Request)) → HasRead bytes self.old arrivals →
            IfOk result (λ next. HasRead bytes self.new (with_next arrivals next)) }
        ensures arrival { (bytes : List ℕ) (arrivals : List (ℕ × Request)) → HasRead bytes self.old arrivals →
            IfOk result (λ next. IfSome next (λ arrival. IsProcess (rules_in self.new).limits arrival.0
            × IsAtHand bytes (lines_in self.new) × (length arrivals + 1 ≤ SCRIPT_MAX))) }
        ensures rules { (bytes : List ℕ) (arrivals : List (ℕ × Request)) (arrival : ℕ × Request) → HasRead bytes self.old (arrivals ++ arrival ∷ []) →
            rules_in self.new ≡ rules_in self.old }
        ensures refused { (bytes : List ℕ) (arrivals : List (ℕ × Request)) → HasRead bytes self.old arrivals →
            IfErr result (λ fault. Reads bytes (Err fault) × IsOfScript fault.cause) }
        ensures kept { OnErr result (self.new ≡ self.old) }
        ensures shorter { OnOk result (unread_in self.new < unread_in self.old) }
    {
        let (line, rest) = first_line(self.rest);
        match parse_line(self.header, self.at_top, line) {
            Ok(said) => {
                self.rest = rest;
                self.lines += 1;
                Ok(apply(&mut self.header, &mut self.at_top, said))
            }
            Err(cause) => Err(ScriptFault {
                line: self.lines + 1,
                cause,
            }),
        }
    }
}

/// The first line, and what stands behind its line feed.
#[tactic(auto, using(crate::proofs::ScriptLemmas::lines_last))]
fn first_line(bytes: &[u8]) -> (&[u8], &[u8])
    requires { 0 < length bytes.now }
    ensures lines { lines_of bytes.now ≡ result.0.now ∷ lines_of result.1.now }
    ensures shorter { length result.1.now < length bytes.now }
{
    match first_feed(bytes) {
        Some(end) => (&bytes[..end], &bytes[end + 1..]),
        None => (bytes, &[]),
    }
}

/// Where the first line feed stands.
#[tactic(auto, using(crate::proofs::ScriptLemmas::found_first))]
fn first_feed(bytes: &[u8]) -> Option<usize>
    ensures { result ≡ position (λ byte. byte == 10) bytes.now }
{
    memchr(b'\n', bytes)
}
