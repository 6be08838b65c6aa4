//! A writer that hands on each line, and what takes the lines.
ghost use Rattle.std.specs.Prelude.{◌≡◌, None, IfOk};

use range_core::Memory;
use std::alloc::Global;
use std::io::{Error as IoError, ErrorKind, Result as IoResult, Write};
use std::str;

/// Why a line wasn't taken (this project's choice).
#[derive(Debug, Drop)]
pub enum Untaken {
    /// A growth was refused.
    Memory(Memory),
    /// What the line goes to failed.
    Write(IoError),
}

impl From<Memory> for Untaken {
    fn from(memory: Memory) -> Untaken {
        Untaken::Memory(memory)
    }
}

impl From<IoError> for Untaken {
    fn from(error: IoError) -> Untaken {
        Untaken::Write(error)
    }
}

/// What takes the lines of an output in their order (this project's choice).
pub trait TakeLine {
    /// Takes a line, without its line feed.
    fn take_line(&mut self, line: &str) -> Result<(), Untaken>;
}

/// Takes an output of lines and hands on each, as soon as it is whole (this project's choice). What isn't UTF-8 is refused.
#[derive(Drop)]
pub struct LineWriter<T> {
    taker: T,
    /// The front of a line that isn't whole yet.
    line: Vec<u8>,
    refused: Option<Memory>,
}

impl<T: TakeLine> LineWriter<T> {
    /// Nothing was taken yet.
    pub fn new(alloc: Global, taker: T) -> LineWriter<T>
        ensures { result.refused ≡ None }
    {
        LineWriter {
            taker,
            line: Vec::new(alloc),
            refused: None,
        }
    }

    /// The growth that was refused, where a write failed for want of memory.
    pub fn refused(&self) -> Option<Memory>
        ensures { result ≡ self.now.refused }
    {
        self.refused
    }

    /// What took the lines that were whole.
    pub fn into_inner(self) -> T
        ensures { result ≡ self.taker }
    {
        self.taker
    }

    /// Takes bytes of a line.
    fn take(&mut self, bytes: &[u8]) -> Result<(), Untaken> {
        self.line.extend_from_slice(bytes).map_err(Memory::from)?;
        Ok(())
    }

    /// Takes the last bytes of a line, and hands it on.
    fn end(&mut self, bytes: &[u8]) -> Result<(), Untaken> {
        self.take(bytes)?;
        let Ok(line) = str::from_utf8(&self.line) else {
            return Err(Untaken::Write(ErrorKind::InvalidData.into()));
        };
        self.taker.take_line(line)?;
        self.line.clear();
        Ok(())
    }

    /// So many bytes were taken, or why not.
    fn told(&mut self, taken: Result<(), Untaken>, count: usize) -> IoResult<usize>
        ensures { IfOk result (λ told. told ≡ count) }
    {
        match taken {
            Ok(()) => Ok(count),
            Err(Untaken::Write(error)) => Err(error),
            Err(Untaken::Memory(refused)) => {
                self.refused = Some(refused);
                Err(ErrorKind::Other.into())
            }
        }
    }
}

impl<T: TakeLine> Write for LineWriter<T> {
    fn write(&mut self, bytes: &[u8]) -> IoResult<usize> {
        match bytes.iter().position(|byte| *byte == b'\n') {
            Some(end) => {
                let taken = self.end(&bytes[..end]);
                self.told(taken, end + 1)
            }
            None => {
                let taken = self.take(bytes);
                self.told(taken, bytes.len())
            }
        }
    }

    fn flush(&mut self) -> IoResult<()> {
        Ok(())
    }
}
