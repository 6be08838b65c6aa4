//! A journal's requests, run again.
use range_core::Memory;
use replay_core::{Detail, RunFault, text_in};
use script_core::States;
use std::alloc::{AllocError, Global};
use std::str;

/// What the requests of a journal's entries come to, up to one whose notes may be others.
#[derive(Drop)]
pub struct Rerun {
    /// Whether that line is an entry.
    is_entry: bool,
    /// The last line of the run, where that is of that entry's request.
    due: Option<String>,
    /// What explains that line, or why the request isn't taken.
    why: String,
}

impl Rerun {
    /// Runs the requests of the entries up to the line of this number, of which all in front are legal, as a script has them. Where they
    /// are too many for a script, the line that is due is the one that was expected, and nothing explains it.
    pub fn of(alloc: Global, bytes: &[u8], number: u64, expected: &str) -> Result<Rerun, Memory> {
        let (script, is_entry) = script_of(alloc, bytes, number)?;
        let mut rerun = Rerun {
            is_entry,
            due: None,
            why: String::new(alloc),
        };
        if !is_entry {
            return Ok(rerun);
        }
        let requests = count_requests(&script);
        match text_in(alloc, Detail::Explained(States::Nowhere), script) {
            Ok(text) => rerun.take_run(alloc, str::from_utf8(&text).unwrap_or(""), requests)?,
            Err(RunFault::Memory(memory)) => return Err(memory),
            Err(_) => rerun.take_expected(alloc, expected)?,
        }
        Ok(rerun)
    }

    /// Takes the entry that was expected, if one was.
    fn take_expected(&mut self, alloc: Global, expected: &str) -> Result<(), AllocError> {
        if let Some(due) = expected.strip_suffix(" expected") {
            self.due = Some(String::from_str(alloc, due)?);
        }
        self.why.push_str(
            "# not explained: the requests up to here are more than a script may have\n",
        )
    }

    /// Takes the explained run of so many requests.
    fn take_run(&mut self, alloc: Global, text: &str, requests: usize) -> Result<(), AllocError> {
        let mut events: usize = 0;
        for line in text.lines() {
            if line.starts_with(|letter: char| letter.is_ascii_digit()) {
                events = events.saturating_add(1);
                self.why.clear();
                if events == requests {
                    self.due = Some(String::from_str(alloc, line)?);
                }
            } else if line.starts_with('#') {
                self.why.push_str(line)?;
                self.why.push('\n')?;
            } else if self.due.is_some() {
                return Ok(());
            } else {
                self.why.clear();
            }
        }
        Ok(())
    }

    /// Whether the line of that number is an entry.
    pub fn is_entry(&self) -> bool {
        self.is_entry
    }

    /// The line that is due there, where the request of the entry is taken.
    pub fn due(&self) -> Option<&str> {
        self.due.as_ref().map(|due| due.as_str())
    }

    /// Appends what explains it.
    pub fn push_why(&self, text: &mut String) -> Result<(), AllocError> {
        text.push_str(&self.why)
    }
}

/// How many lines of the script are requests.
fn count_requests(script: &[u8]) -> usize {
    script
        .split(|byte| *byte == b'\n')
        .filter(|line| matches!(line, [b'0'..=b'9', ..]))
        .count()
}

/// The script of the entries up to the line of this number, under the journal's header lines, and whether that line is an entry.
fn script_of(alloc: Global, bytes: &[u8], number: u64) -> Result<(Vec<u8>, bool), AllocError> {
    let mut script = Vec::new(alloc);
    let mut is_entry = false;
    let mut at: u64 = 0;
    for line in bytes.split(|byte| *byte == b'\n') {
        if at == number {
            break;
        }
        at = at.saturating_add(1);
        is_entry = push_request(&mut script, str::from_utf8(line).unwrap_or(""))?;
    }
    Ok((script, is_entry))
}

/// Appends the line of a script that the line of a journal makes, if it makes one, and tells whether that is a request.
fn push_request(script: &mut Vec<u8>, line: &str) -> Result<bool, AllocError> {
    let mut words = line.split('|').next().unwrap_or("").split_whitespace();
    let first = words.next().unwrap_or("");
    let is_entry = match first.split_once('#') {
        Some(("", _)) => return Ok(false),
        Some((process, _)) => {
            script.extend_from_slice(process.as_bytes())?;
            true
        }
        None if first == "policy" || first == "limits" => {
            script.extend_from_slice(first.as_bytes())?;
            false
        }
        None => return Ok(false),
    };
    for word in words {
        script.push(b' ')?;
        script.extend_from_slice(word.as_bytes())?;
    }
    script.push(b'\n')?;
    Ok(is_entry)
}
