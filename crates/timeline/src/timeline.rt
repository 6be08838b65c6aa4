//! A run that was taken line by line.
use crate::row::{Columns, Row};
use crate::scene::Scene;
use line_writer::{TakeLine, Untaken};
use range_core::Memory;
use std::alloc::{AllocError, Global};
use std::io::{Result as IoResult, Write};
use std::mem;

/// Takes a run with the state behind each event, as `--state all` prints it, and draws it (this project's choice): a column for each
/// process, of at most five, and a row for each event. In the column of the event's process stands the request, with its answer unless
/// that is `ok`; in each other `W` (the process has a write or exclusive lock, its own or of a description that it has open), `R`
/// (a read or shared one), `:` (it waits) or `|`.
#[derive(Drop)]
pub struct Timeline {
    alloc: Global,
    rows: Vec<Row>,
    /// What was told behind the last event.
    scene: Scene,
}

impl Timeline {
    /// Nothing was taken yet.
    pub fn new(alloc: Global) -> Timeline {
        Timeline {
            alloc,
            rows: Vec::new(alloc),
            scene: Scene::new(alloc),
        }
    }

    /// Draws the run that was taken; one without events has no picture.
    pub fn draw(mut self, writer: &mut impl Write) -> Result<(), Untaken> {
        self.settle();
        let Some(last) = self.rows.last() else {
            return Ok(());
        };
        let columns = Columns::of(&last.has);
        let head = columns.head(self.alloc).map_err(Memory::from)?;
        write_row(writer, &head)?;
        for row in &self.rows {
            let drawn = row.drawn(self.alloc, columns).map_err(Memory::from)?;
            write_row(writer, &drawn)?;
        }
        Ok(())
    }

    /// What was told behind the last event is of its row.
    fn settle(&mut self) {
        let scene = mem::replace(&mut self.scene, Scene::new(self.alloc));
        if let Some(last) = self.rows.last_mut() {
            last.has = scene.processes;
        }
    }

    /// Takes a line of the state behind the last event, without its `#`.
    fn take_state(&mut self, line: &str) -> Result<(), AllocError> {
        let words: Vec<&str> = line.split_whitespace().collect(self.alloc)?;
        self.scene.take(&words)
    }

    /// Takes the line of an event, or one that is passed over.
    fn take_event(&mut self, line: &str) -> Result<(), AllocError> {
        if let Some(row) = Row::of_line(self.alloc, line)? {
            self.settle();
            self.rows.push(row)?;
        }
        Ok(())
    }
}

impl TakeLine for Timeline {
    fn take_line(&mut self, line: &str) -> Result<(), Untaken> {
        let taken = match line.strip_prefix("# ") {
            Some(state) => self.take_state(state),
            None => self.take_event(line),
        };
        taken.map_err(Memory::from)?;
        Ok(())
    }
}

/// Writes a row, without the spaces at its end.
fn write_row(writer: &mut impl Write, row: &str) -> IoResult<()> {
    writer.write_all(row.trim_end().as_bytes())?;
    writer.write_all(b"\n")
}
