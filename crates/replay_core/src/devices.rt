//! Where bytes come from and go to, as the program sees std's readers and writers.
ghost use Rattle.std.specs.Prelude.{ℕ, ◌≡◌, ◌≤◌, ◌<◌, ◌+◌, Bool, false, Option, List, IfOk, OnOk, OnErr, length};
ghost use Rattle.replay_core.specs.Devices.{GivesByte, GivesSome, TakesSome, Fails};

use std::io::{Read, Write};
use thiserror::Error;

/// A device that failed.
#[derive(Clone, Copy, Debug, PartialEq, Eq, Error)]
#[error("the device failed")]
pub struct DeviceFault;

/// Where a script is read from: byte by byte, or several at once.
pub trait Source {
    /// The bytes that it has left, where they are known.
    ghost remaining: { Self → Option (List ℕ) };

    /// Whether a call has failed.
    ghost failed: { Self → Bool };

    /// How many calls were made, where the source counts them; no call counts for more than one.
    ghost calls: { Self → ℕ };

    /// The next byte, and `None` at the end. A fault moves no byte.
    fn read_byte(&mut self) -> Result<Option<u8>, DeviceFault>
        ensures byte { IfOk result (GivesByte (remaining self.old) (remaining self.new)) }
        ensures sound { OnOk result (failed self.new ≡ failed self.old) }
        ensures fault { OnErr result (Fails (remaining self.old) (remaining self.new) (failed self.new)) }
        ensures call { calls self.new ≤ calls self.old + 1 };

    /// The next bytes, at least one unless the source is at its end, at the front of a room that isn't empty; says how many. A
    /// fault moves no byte.
    fn read_some(&mut self, room: &mut [u8]) -> Result<usize, DeviceFault>
        requires { 0 < length room.old }
        ensures some { IfOk result (GivesSome (remaining self.old) (remaining self.new) room.new) }
        ensures sound { OnOk result (failed self.new ≡ failed self.old) }
        ensures fault { OnErr result (Fails (remaining self.old) (remaining self.new) (failed self.new)) }
        ensures call { calls self.new ≤ calls self.old + 1 }
    {
        match self.read_byte()? {
            Some(byte) => {
                room[0] = byte;
                Ok(1)
            }
            None => Ok(0),
        }
    }
}

/// Where a text is written to.
pub trait Sink {
    /// The bytes that were written, where they are known.
    ghost written: { Self → Option (List ℕ) };

    /// Whether a call has failed.
    ghost failed: { Self → Bool };

    /// Writes the front of the text, at least one byte of a text that isn't empty, and says how many bytes. A fault writes none.
    fn write_some(&mut self, text: &[u8]) -> Result<usize, DeviceFault>
        ensures some { IfOk result (TakesSome (written self.old) (written self.new) text.now) }
        ensures sound { OnOk result (failed self.new ≡ failed self.old) }
        ensures fault { OnErr result (Fails (written self.old) (written self.new) (failed self.new)) };
}

/// A reader as a source. Each error of the reader is a fault, `Interrupted` too (this project's choice).
#[derive(Drop)]
pub struct FromReader<R> {
    reader: R,
    failed: bool,
}

impl<R: Read> FromReader<R> {
    /// A source of the bytes that the reader has left.
    pub fn new(reader: R) -> FromReader<R>
        ensures reader { result.reader ≡ reader }
        ensures sound { result.failed ≡ false }
    {
        FromReader {
            reader,
            failed: false,
        }
    }
}

impl<R: Read> Source for FromReader<R> {
    ghost remaining = { λ source. R.remaining source.reader };

    ghost failed = { λ source. source.failed };

    // It doesn't count.
    ghost calls = { λ source. 0 };

    fn read_byte(&mut self) -> Result<Option<u8>, DeviceFault> {
        let mut byte = [0];
        match self.reader.read(&mut byte) {
            Ok(0) => Ok(None),
            Ok(_) => Ok(Some(byte[0])),
            Err(_) => {
                self.failed = true;
                Err(DeviceFault)
            }
        }
    }

    fn read_some(&mut self, room: &mut [u8]) -> Result<usize, DeviceFault> {
        match self.reader.read(room) {
            Ok(count) => Ok(count),
            Err(_) => {
                self.failed = true;
                Err(DeviceFault)
            }
        }
    }
}

/// A writer as a sink. Each error of the writer is a fault, and so is a write of no byte (this project's choice).
#[derive(Drop)]
pub struct ToWriter<W> {
    writer: W,
    failed: bool,
}

impl<W: Write> ToWriter<W> {
    /// A sink that writes behind what the writer holds.
    pub fn new(writer: W) -> ToWriter<W>
        ensures writer { result.writer ≡ writer }
        ensures sound { result.failed ≡ false }
    {
        ToWriter {
            writer,
            failed: false,
        }
    }

    /// The writer, with what was written to it.
    pub fn into_inner(self) -> W
        ensures { result ≡ self.writer }
    {
        self.writer
    }
}

impl<W: Write> Sink for ToWriter<W> {
    ghost written = { λ sink. W.contents sink.writer };

    ghost failed = { λ sink. sink.failed };

    fn write_some(&mut self, text: &[u8]) -> Result<usize, DeviceFault> {
        match self.writer.write(text) {
            Ok(count) if count > 0 || text.is_empty() => Ok(count),
            _ => {
                self.failed = true;
                Err(DeviceFault)
            }
        }
    }
}
