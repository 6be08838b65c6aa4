//! The row of an event.
use crate::scene::{Has, greatest};
use std::alloc::{AllocError, Global};

/// How wide a picture is, in characters.
const WIDTH: usize = 80;

/// How wide its left margin is, which has the names of the events.
const MARGIN: usize = 7;

/// The columns of a picture: a process each.
#[derive(Clone, Copy)]
pub struct Columns<'a> {
    /// The processes, with what each has at the end.
    processes: &'a [Has],
    /// How wide each is.
    width: usize,
}

impl<'a> Columns<'a> {
    /// A column for each of these processes.
    pub fn of(processes: &'a [Has]) -> Columns<'a> {
        Columns {
            processes,
            width: (WIDTH - MARGIN) / processes.len().max(1),
        }
    }

    /// The head of the picture: the number of each process above its column.
    pub fn head(&self, alloc: Global) -> Result<String, AllocError> {
        let mut line = String::new(alloc);
        push_cell(&mut line, "", MARGIN)?;
        for process in self.processes {
            push_cell(&mut line, &process.number.to_string(alloc)?, self.width)?;
        }
        Ok(line)
    }
}

/// An event, and what each process has behind it.
#[derive(Drop)]
pub struct Row {
    /// The name of the event, as `2#1`.
    name: String,
    /// The process that made it.
    process: u64,
    /// The request, with its answer unless that is `ok`.
    text: String,
    /// What each process has behind it.
    pub has: Vec<Has>,
}

impl Row {
    /// The row of the event of this line, and none where the line is of another kind.
    pub fn of_line(alloc: Global, line: &str) -> Result<Option<Row>, AllocError> {
        let Some((name, rest)) = line.split_once(' ') else {
            return Ok(None);
        };
        let Some(process) = process_of(name) else {
            return Ok(None);
        };
        Ok(Some(Row {
            name: String::from_str(alloc, name)?,
            process,
            text: text_of(alloc, name, rest)?,
            has: Vec::new(alloc),
        }))
    }

    /// The row as it is drawn, without its line feed.
    pub fn drawn(&self, alloc: Global, columns: Columns<'_>) -> Result<String, AllocError> {
        let mut line = String::new(alloc);
        push_cell(&mut line, &self.name, MARGIN)?;
        for process in columns.processes {
            push_cell(&mut line, self.cell(process.number), columns.width)?;
        }
        Ok(line)
    }

    /// What stands in the column of this process.
    fn cell(&self, process: u64) -> &str {
        if process == self.process {
            &self.text
        } else {
            greatest(&self.has, process).letter()
        }
    }
}

/// The process in the name of an event, as 2 in `2#1`.
fn process_of(name: &str) -> Option<u64> {
    let (process, _) = name.split_once('#')?;
    process.parse::<u64>().ok()
}

/// The request of the event of this name, of whose line this is the rest, with its answer unless that is `ok`.
fn text_of(alloc: Global, name: &str, rest: &str) -> Result<String, AllocError> {
    let mut pieces = rest.split(" | ");
    let mut text = String::from_str(alloc, pieces.next().unwrap_or(""))?;
    for note in pieces {
        match note.split_once(' ') {
            Some((of, answer)) if of == name && answer != "ok" => {
                text.push(' ')?;
                text.push_str(answer)?;
            }
            _ => {}
        }
    }
    Ok(text)
}

/// Puts the text behind the line, cut to leave a space, and spaces up to the width.
fn push_cell(line: &mut String, text: &str, width: usize) -> Result<(), AllocError> {
    let shown = text.get(..width.saturating_sub(1)).unwrap_or(text);
    line.push_str(shown)?;
    for _ in shown.len()..width {
        line.push(' ')?;
    }
    Ok(())
}
