//! What the program reads from and writes to.
use crate::faults::Fault;
use crate::notes::{Kept, Noted, Notes, Writing};
use either::Either;
use json_lines::Objects;
use line_writer::LineWriter;
use range_core::Memory;
use replay_core::{RunFault, ToWriter};
use std::fs;
use std::fs::Files;
use std::io::{Printer, writer};
use timeline::Timeline;

/// The file, or standard input where there is none. What is read is kept, where that is asked for.
pub fn input<R: AllocGlobal + Files + Input>(
    rt: &R,
    path: Option<&str>,
    notes: &mut Notes,
) -> Result<Noted<Either<R::File, R::Reader>>, Fault> {
    let asked = notes.open(path)?;
    let reader = match path {
        Some(path) => match fs::open(rt, path) {
            Ok(file) => Either::Left(file),
            Err(error) => return Err(Fault::of_input(notes.fail(error))),
        },
        None => Either::Right(rt.reader()),
    };
    Ok(Noted::new(reader, Kept::new(rt.alloc(), asked)))
}

/// Standard output: its lines as they are, or each as an object.
pub type Output<'a, R> = ToWriter<
    Writing<Either<Printer<'a, R>, LineWriter<Objects<Printer<'a, R>>>>>,
>;

/// Standard output, with its lines as objects where that is asked for.
pub fn output<R: AllocGlobal + Print>(rt: &R, json: bool) -> Output<'_, R> {
    let printer = writer(rt);
    let lines = if json {
        let objects = Objects::new(rt.alloc(), printer);
        Either::Right(LineWriter::new(rt.alloc(), objects))
    } else {
        Either::Left(printer)
    };
    ToWriter::new(Writing::new(lines))
}

/// The fault that is told where a job ends with this one: want of memory, where the object of a line found none. Why a write failed is noted.
pub fn fault_of<R: Print>(
    output: Output<'_, R>,
    fault: impl Into<Fault> + Drop,
    notes: &mut Notes,
) -> Fault {
    let writing = output.into_inner();
    notes.unwritten = writing.unwritten();
    match writing.into_inner() {
        Either::Right(objects) => unless_refused(objects.refused(), fault),
        Either::Left(_) => fault.into(),
    }
}

/// The lines of a run, for its picture.
pub type Picture = ToWriter<LineWriter<Timeline>>;

/// No line of a run was taken yet.
pub fn picture(rt: &impl AllocGlobal) -> Picture {
    ToWriter::new(LineWriter::new(rt.alloc(), Timeline::new(rt.alloc())))
}

/// Draws the run of a job that ended so on standard output, and says the status.
pub fn drawn(
    rt: &impl Print,
    picture: Picture,
    status: Result<u8, RunFault>,
    notes: &mut Notes,
) -> Result<u8, Fault> {
    match status {
        Ok(status) => {
            draw(rt, picture, notes)?;
            Ok(status)
        }
        Err(fault) => Err(unless_refused(picture.into_inner().refused(), fault)),
    }
}

/// Draws the run on standard output. Why a write failed is noted.
fn draw(rt: &impl Print, picture: Picture, notes: &mut Notes) -> Result<(), Fault> {
    let timeline = picture.into_inner().into_inner();
    let mut writing = Writing::new(writer(rt));
    let drawn = timeline.draw(&mut writing);
    notes.unwritten = writing.unwritten();
    drawn.map_err(Fault::of_line)
}

/// Want of memory, or else the fault.
fn unless_refused(refused: Option<Memory>, fault: impl Into<Fault> + Drop) -> Fault {
    match refused {
        Some(refused) => Fault::from(refused),
        None => fault.into(),
    }
}
