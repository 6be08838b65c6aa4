//! What `--diagnose` tells behind the line of a fault, and what is noted of a run for it.
use crate::faults::Fault;
use diagnosis::{Language, Text, told_of, told_of_headers, told_of_illegal};
use history_run::HistoryFault;
use range_core::Memory;
use replay_core::{DeviceFault, RunFault, Source};
use script_core::ScriptFault;
use std::alloc::Global;
use std::io::{Error as IoError, Read, Result as IoResult, Write};

/// How many bytes of what is read are kept at most (this project's choice).
const KEPT_MAX: usize = 1 << 26;

/// How standard input and output are called.
const STANDARD_INPUT: &str = "<stdin>";

const STANDARD_OUTPUT: &str = "<stdout>";

/// What is noted of a run.
#[derive(Drop)]
pub struct Notes {
    /// What is read.
    pub language: Language,
    /// The name of the file.
    name: String,
    /// What was read.
    pub input: Kept,
    /// Why a write failed.
    pub unwritten: Option<IoError>,
}

impl Notes {
    /// Nothing was read.
    pub fn new(alloc: Global) -> Notes {
        Notes {
            language: Language::Script,
            name: String::new(alloc),
            input: Kept::new(alloc, false),
            unwritten: None,
        }
    }

    /// The file is opened whose path this is, or standard input; what is read is to be kept, where it is asked for.
    pub fn open(&mut self, path: Option<&str>) -> Result<bool, Memory> {
        if self.input.asked {
            self.name.push_str(path.unwrap_or(STANDARD_INPUT))?;
        }
        Ok(self.input.asked)
    }

    /// The file couldn't be opened for this reason, which it hands back.
    pub fn fail(&mut self, error: IoError) -> IoError {
        self.input.unread = Some(error);
        error
    }

    /// What stands behind the line of the fault, or behind an illegal journal's, where it is asked for.
    pub fn told(&self, alloc: Global, ended: &Result<u8, Fault>) -> Result<Option<String>, Memory> {
        match ended {
            _ if !self.input.asked => Ok(None),
            Ok(3) if self.language == Language::Journal => self.told_of_illegal(alloc),
            Ok(_) => Ok(None),
            Err(Fault::Run(RunFault::Script(fault))) => self.told_of_script(alloc, *fault),
            Err(Fault::Run(RunFault::Read) | Fault::History(HistoryFault::Read)) => {
                told_of_error(alloc, &self.name, self.input.unread)
            }
            Err(Fault::Run(RunFault::Write) | Fault::History(HistoryFault::Write)) => {
                told_of_error(alloc, STANDARD_OUTPUT, self.unwritten)
            }
            Err(_) => Ok(None),
        }
    }

    /// The same of an illegal journal, where it was kept.
    fn told_of_illegal(&self, alloc: Global) -> Result<Option<String>, Memory> {
        if !self.input.is_whole {
            return Ok(None);
        }
        let bytes = self.input.lines();
        let mut text = told_of_illegal(alloc, &self.name, bytes)?;
        text.push_str(told_of_headers(alloc, bytes)?)?;
        Ok(Some(text))
    }

    /// The same of a text that isn't one of its language.
    fn told_of_script(&self, alloc: Global, fault: ScriptFault) -> Result<Option<String>, Memory> {
        let bytes = self.input.lines();
        let text = Text {
            name: &self.name,
            language: self.language,
            bytes,
        };
        let mut text = told_of(alloc, text, fault)?;
        if self.language == Language::Journal && self.input.is_whole {
            text.push_str(told_of_headers(alloc, bytes)?)?;
        }
        Ok(Some(text))
    }
}

/// The system's word for why a file of this name failed.
fn told_of_error(
    alloc: Global,
    name: &str,
    error: Option<IoError>,
) -> Result<Option<String>, Memory> {
    match error {
        Some(error) => {
            let word = error.to_string(alloc)?;
            let word = word.split(" (os error").next().unwrap_or("");
            Ok(Some(format!(in alloc; "{name}: {word}\n")?))
        }
        None => Ok(None),
    }
}

/// What was read.
#[derive(Drop)]
pub struct Kept {
    /// Whether anything is told behind the line of a fault. Else nothing is kept.
    pub asked: bool,
    /// The bytes, at most [`KEPT_MAX`].
    bytes: Vec<u8>,
    /// Whether these are all that was read.
    is_whole: bool,
    /// Why it couldn't be opened or read.
    unread: Option<IoError>,
}

impl Kept {
    /// Nothing was read. It is to be kept, where that is asked for.
    pub fn new(alloc: Global, asked: bool) -> Kept {
        Kept {
            asked,
            bytes: Vec::new(alloc),
            is_whole: true,
            unread: None,
        }
    }

    /// Keeps these bytes, which were read, where that is asked for; from the first that aren't kept on, none is.
    fn keep(&mut self, bytes: &[u8]) {
        if !self.asked {
            return;
        }
        if self.is_whole && bytes.len() <= KEPT_MAX.saturating_sub(self.bytes.len()) {
            self.is_whole = self.bytes.extend_from_slice(bytes).is_ok();
        } else {
            self.is_whole = false;
        }
    }

    /// The bytes of the lines that were kept whole.
    fn lines(&self) -> &[u8] {
        if self.is_whole {
            return &self.bytes;
        }
        match self.bytes.iter().rposition(|byte| *byte == b'\n') {
            Some(end) => self.bytes.get(..end).unwrap_or(&[]),
            None => &[],
        }
    }
}

/// A reader as a source, as [`replay_core::FromReader`] is, that keeps what it gives.
#[derive(Drop)]
pub struct Noted<R> {
    reader: R,
    failed: bool,
    kept: Kept,
}

impl<R: Read> Noted<R> {
    /// A source of the bytes that the reader has left.
    pub fn new(reader: R, kept: Kept) -> Noted<R> {
        Noted {
            reader,
            failed: false,
            kept,
        }
    }

    /// What was read.
    pub fn into_kept(self) -> Kept
    where
        R: Drop,
    {
        self.kept
    }
}

impl<R: Read> Source for Noted<R> {
    ghost remaining = { λ source. R.remaining source.reader };

    ghost failed = { λ source. source.failed };

    // It doesn't count.
    ghost calls = { λ source. 0 };

    fn read_byte(&mut self) -> Result<Option<u8>, DeviceFault> {
        let mut byte = [0];
        match self.reader.read(&mut byte) {
            Ok(0) => Ok(None),
            Ok(_) => {
                self.kept.keep(&byte);
                Ok(Some(byte[0]))
            }
            Err(error) => {
                self.kept.unread = Some(error);
                self.failed = true;
                Err(DeviceFault)
            }
        }
    }

    fn read_some(&mut self, room: &mut [u8]) -> Result<usize, DeviceFault> {
        match self.reader.read(room) {
            Ok(count) => {
                self.kept.keep(&room[..count]);
                Ok(count)
            }
            Err(error) => {
                self.kept.unread = Some(error);
                self.failed = true;
                Err(DeviceFault)
            }
        }
    }
}

/// Hands on what is written, and notes why a write failed.
#[derive(Drop)]
pub struct Writing<W> {
    writer: W,
    unwritten: Option<IoError>,
}

impl<W: Write> Writing<W> {
    /// What goes to this writer.
    pub fn new(writer: W) -> Writing<W> {
        Writing {
            writer,
            unwritten: None,
        }
    }

    /// Why a write failed, if one did.
    pub fn unwritten(&self) -> Option<IoError> {
        self.unwritten
    }

    /// The writer.
    pub fn into_inner(self) -> W {
        self.writer
    }
}

impl<W: Write> Write for Writing<W> {
    ghost contents = { λ writing. W.contents writing.writer };

    fn write(&mut self, bytes: &[u8]) -> IoResult<usize> {
        match self.writer.write(bytes) {
            Ok(count) => Ok(count),
            Err(error) => {
                self.unwritten = Some(error);
                Err(error)
            }
        }
    }

    fn flush(&mut self) -> IoResult<()> {
        self.writer.flush()
    }
}
