//! What writes each line as an object.
ghost use Rattle.std.specs.Prelude.{◌≡◌};

use crate::objects::object_of;
use line_writer::{TakeLine, Untaken};
use range_core::Memory;
use serde_json::Value;
use std::alloc::Global;
use std::io::Write;

/// Takes the lines of the program's plain output and writes each as a JSON object and a line feed (this project's choice).
#[derive(Drop)]
pub struct Objects<W> {
    writer: W,
    alloc: Global,
}

impl<W: Write> Objects<W> {
    /// Nothing was taken yet.
    pub fn new(alloc: Global, writer: W) -> Objects<W> {
        Objects { writer, alloc }
    }

    /// The writer, with the objects that were written to it.
    pub fn into_inner(self) -> W
        ensures { result ≡ self.writer }
    {
        self.writer
    }
}

impl<W: Write> TakeLine for Objects<W> {
    fn take_line(&mut self, line: &str) -> Result<(), Untaken> {
        let object = object_of(self.alloc, line)?;
        let text = written(self.alloc, &object)?;
        self.writer.write_all(&text)?;
        Ok(())
    }
}

/// The text of the object, and a line feed.
fn written(alloc: Global, object: &Value) -> Result<Vec<u8>, Memory> {
    let mut text = object.to_vec(alloc)?;
    text.push(b'\n')?;
    Ok(text)
}
