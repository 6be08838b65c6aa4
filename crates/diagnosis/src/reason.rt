//! What was read, and what may stand there: their texts.
use crate::commands::{Argument, COMMANDS, Form, Processes, REQUESTS};
use script_core::Cause;
use std::fmt;
use std::fmt::{Display, Formatter, Write};

/// A byte that isn't printable ASCII, or those of a character or a mark.
#[derive(Clone, Copy, Debug, PartialEq, Eq)]
pub enum Stray {
    /// At the end of a line.
    CarriageReturn,
    /// The mark that some editors put in front of UTF-8.
    ByteOrderMark,
    /// A mark of UTF-16.
    WideMark,
    Tab,
    /// U+00A0, which looks like a space.
    NoBreakSpace,
    /// A character of UTF-8 beyond ASCII.
    BeyondAscii(char),
    /// Any other.
    Byte(u8),
}

/// What was read where the caret stands.
#[derive(Clone, Copy, Debug)]
pub enum Read<'a> {
    /// A word.
    Word(&'a str),
    /// Nothing: the line ends.
    End,
    /// A byte that no line may have.
    Stray(Stray),
    /// A line of so many bytes.
    Long(usize),
}

/// A header line.
#[derive(Clone, Copy, Debug, PartialEq, Eq)]
pub enum Header {
    Policy,
    Limits,
}

/// Why a word that was read is no number.
#[derive(Clone, Copy, Debug, PartialEq, Eq)]
pub enum Spelling {
    /// It begins with a zero that isn't needed.
    LeadingZero,
    /// It begins with a plus sign.
    Plus,
    /// It is a zero behind a minus sign.
    MinusZero,
    /// It isn't decimal: `0x` stands in front.
    Hexadecimal,
    /// None of these.
    Other,
}

/// What may stand where the caret stands.
#[derive(Clone, Copy, Debug)]
pub enum Reason<'a> {
    /// No byte but printable ASCII.
    OnlyAscii(Stray),
    /// A line of no more bytes.
    Shorter(usize),
    /// A header line, but no longer: the first request stands in this line.
    Late(u64),
    /// A header line, but once: it stands in this line.
    Once(u64),
    /// A comment, on a line of its own.
    Comment,
    /// What a comment that is an expectation may say, of so many processes.
    Expectation(Processes),
    /// The number of a process. It is told whether wide limits would have the one that was read.
    Process(Processes, bool),
    /// The number of a process, in front of a command.
    ProcessInFront(Processes),
    /// A header line or a process; a header word is near what was read.
    HeaderWord(&'static str),
    /// A command, and one that is near what was read.
    Command(Option<&'static str>),
    /// An argument of a command, a note or a request, in place of nothing.
    Missing(Argument, Processes, &'a str, &'static str),
    /// Nothing more behind a command, a note or a request.
    Nothing(&'a str, &'static str),
    /// An argument in place of another word; a word is near that one.
    Other(Argument, Processes, Option<&'static str>),
    /// An argument that is a number in place of another word.
    Number(Argument, Spelling),
    /// A process and the number of its request. It is told whether wide limits would have the one that was read.
    Tag(bool),
    /// A note.
    Note(Option<&'static str>),
    /// Lines of the report alone: its first one stands in this line.
    Report(u64),
    /// A sign that a request was sent or answered.
    Direction,
    /// A request of a history.
    Request(Option<&'static str>),
    /// An answer of the request that is open.
    Answer(&'static [&'static str]),
    /// An ID that is free: it is open since this line.
    FreeId(u64),
    /// An ID that is open.
    OpenId,
    /// A first byte that is no greater than the last one.
    Rising,
    /// What the kind of the fault says.
    Kind(Cause),
}

impl Display for Stray {
    fn fmt<W: Write>(&self, f: &mut Formatter<W>) -> fmt::Result {
        match *self {
            Stray::CarriageReturn => f.write_str("a carriage return"),
            Stray::ByteOrderMark => f.write_str("a byte order mark"),
            Stray::WideMark => f.write_str("a byte order mark of UTF-16"),
            Stray::Tab => f.write_str("a tab"),
            Stray::NoBreakSpace => f.write_str("a no-break space"),
            Stray::BeyondAscii(letter) => {
                let code = u32::from(letter);
                write!(f, "the letter U+{code:04X}, which is beyond ASCII")
            }
            Stray::Byte(byte) => write!(f, "the byte {byte}"),
        }
    }
}

impl Display for Read<'_> {
    fn fmt<W: Write>(&self, f: &mut Formatter<W>) -> fmt::Result {
        match *self {
            Read::Word(word) => write!(f, "\"{word}\""),
            Read::End => f.write_str("the end of the line"),
            Read::Stray(stray) => write!(f, "{stray}"),
            Read::Long(bytes) => write!(f, "a line of {bytes} bytes"),
        }
    }
}

impl Display for Spelling {
    fn fmt<W: Write>(&self, f: &mut Formatter<W>) -> fmt::Result {
        match *self {
            Spelling::LeadingZero => f.write_str(", without a leading zero"),
            Spelling::Plus => f.write_str(", without a plus sign"),
            Spelling::MinusZero => f.write_str(", 0 without a sign"),
            Spelling::Hexadecimal => f.write_str(", in decimal"),
            Spelling::Other => Ok(()),
        }
    }
}

/// Words, with commas between them, and `or` before the last one.
#[derive(Clone, Copy)]
struct Listed(&'static [&'static str]);

impl Display for Listed {
    fn fmt<W: Write>(&self, f: &mut Formatter<W>) -> fmt::Result {
        let last = self.0.len().saturating_sub(1);
        for (index, word) in self.0.iter().enumerate() {
            let before = match index {
                0 => "",
                _ if index == last => " or ",
                _ => ", ",
            };
            write!(f, "{before}{word}")?;
        }
        Ok(())
    }
}

/// How an argument is spelled, where there are so many processes.
#[derive(Clone, Copy)]
struct Spelled(Form, Processes);

impl Display for Spelled {
    fn fmt<W: Write>(&self, f: &mut Formatter<W>) -> fmt::Result {
        match self.0 {
            Form::Natural(most) => write!(f, "a number 0 to {most}"),
            Form::Integer => write!(f, "a number {} to {}", i64::MIN, i64::MAX),
            Form::Process => {
                let most = self.1.most();
                write!(f, "a process 1 to {most}")
            }
            Form::Words(words) => {
                let listed = Listed(words);
                write!(f, "{listed}")
            }
            Form::Holder => write!(f, "- or a number 0 to {}", u64::MAX),
        }
    }
}

/// The word that may have been meant, if there is one.
#[derive(Clone, Copy)]
struct Near(Option<&'static str>);

impl Display for Near {
    fn fmt<W: Write>(&self, f: &mut Formatter<W>) -> fmt::Result {
        match self.0 {
            Some(word) => write!(f, "; did you mean \"{word}\"?"),
            None => Ok(()),
        }
    }
}

/// That wide limits would have a process, if they would.
#[derive(Clone, Copy)]
struct Wider(bool);

impl Display for Wider {
    fn fmt<W: Write>(&self, f: &mut Formatter<W>) -> fmt::Result {
        if self.0 {
            f.write_str("; write \"limits wide\" in front for 64")
        } else {
            Ok(())
        }
    }
}

impl Display for Reason<'_> {
    fn fmt<W: Write>(&self, f: &mut Formatter<W>) -> fmt::Result {
        match *self {
            Reason::OnlyAscii(stray) => write_only_ascii(f, stray),
            Reason::Shorter(most) => write!(f, "it may have {most}"),
            Reason::Late(line) => write!(
                f,
                "it has to come before all requests, and the first is on line {line}"
            ),
            Reason::Once(line) => write!(f, "it may come once, and line {line} has it"),
            Reason::Comment => f.write_str("put a comment on a line of its own"),
            Reason::Report(line) => write!(
                f,
                "after line {line}, of the report, only lock, flock, wait and proc lines may come"
            ),
            Reason::FreeId(line) => write!(f, "a request of this ID is open since line {line}"),
            Reason::OpenId => f.write_str("no request of this ID is open"),
            Reason::Rising => f.write_str("FIRST is above LAST"),
            Reason::Kind(cause) => write_kind(f, cause),
            expected => write_expected(f, expected),
        }
    }
}

/// What has to be done where a byte isn't printable ASCII.
fn write_only_ascii<W: Write>(f: &mut Formatter<W>, stray: Stray) -> fmt::Result {
    match stray {
        Stray::CarriageReturn => {
            f.write_str("a line ends with a line feed alone, and not with CR LF")
        }
        Stray::ByteOrderMark | Stray::WideMark => f.write_str("save the file as ASCII, without it"),
        Stray::Tab | Stray::NoBreakSpace => f.write_str("words are separated by spaces"),
        Stray::BeyondAscii(_) | Stray::Byte(_) => {
            f.write_str("a line has bytes from 32 to 126 alone, and a comment too")
        }
    }
}

/// What a fault of this kind says.
fn write_kind<W: Write>(f: &mut Formatter<W>, cause: Cause) -> fmt::Result {
    match cause {
        Cause::Byte => f.write_str("a line has bytes from 32 to 126 alone"),
        Cause::Word => f.write_str("another word may stand here"),
        Cause::Count => f.write_str("another number of words may stand here"),
        Cause::Number => f.write_str("another number may stand here"),
        Cause::Process => f.write_str("the number of a process may stand here"),
        Cause::TooLong => f.write_str("it is too long"),
        Cause::Memory(_) => f.write_str("there was no memory"),
        Cause::Tag => f.write_str("a process and the number of its request may stand here"),
    }
}

/// What may stand there.
fn write_expected<W: Write>(f: &mut Formatter<W>, reason: Reason<'_>) -> fmt::Result {
    f.write_str("expected ")?;
    match reason {
        Reason::Process(processes, wider) => {
            let most = processes.most();
            let wider = Wider(wider);
            write!(f, "a process 1 to {most}{wider}")
        }
        Reason::ProcessInFront(processes) => {
            let most = processes.most();
            write!(f, "a process 1 to {most} in front of it")
        }
        Reason::Expectation(processes) => {
            let most = processes.most();
            write!(
                f,
                "P#N TEXT, of a process 1 to {most}; or LINE or no LINE, a lock, flock, wait or proc line of the report"
            )
        }
        Reason::HeaderWord(near) => {
            let near = Near(Some(near));
            write!(f, "policy, limits or a process{near}")
        }
        Reason::Tag(wider) => {
            let wider = Wider(wider);
            write!(f, "a process and the number of its request, as 1#1{wider}")
        }
        _ => write_argument(f, reason),
    }
}

/// The same of an argument, or of the word that says what they are.
fn write_argument<W: Write>(f: &mut Formatter<W>, reason: Reason<'_>) -> fmt::Result {
    match reason {
        Reason::Missing(argument, processes, name, usage) => {
            let called = argument.name();
            let spelled = Spelled(argument.form(), processes);
            write!(f, "{called}, {spelled}: {name} {usage}")
        }
        Reason::Nothing(name, usage) => {
            let before = if usage.is_empty() { "" } else { " " };
            write!(f, "nothing more: {name}{before}{usage}")
        }
        Reason::Other(argument, processes, near) => {
            let called = argument.name();
            let spelled = Spelled(argument.form(), processes);
            let near = Near(near);
            write!(f, "{called}, {spelled}{near}")
        }
        Reason::Number(argument, spelling) => {
            let called = argument.name();
            let spelled = Spelled(argument.form(), Processes::Small);
            write!(f, "{called}, {spelled}{spelling}")
        }
        _ => write_first_word(f, reason),
    }
}

/// The same of a word that says what stands behind it.
fn write_first_word<W: Write>(f: &mut Formatter<W>, reason: Reason<'_>) -> fmt::Result {
    match reason {
        Reason::Command(near) => {
            let listed = Listed(&COMMANDS);
            let near = Near(near);
            write!(f, "a command: {listed}{near}")
        }
        Reason::Note(near) => {
            let near = Near(near);
            write!(
                f,
                "a note: waits, fd, free, held, ok or an error, as EAGAIN{near}"
            )
        }
        Reason::Direction => f.write_str("> of a request that is sent, or < of its answer"),
        Reason::Request(near) => {
            let listed = Listed(&REQUESTS);
            let near = Near(near);
            write!(f, "a request: {listed}{near}")
        }
        Reason::Answer(words) => {
            let listed = Listed(words);
            write!(f, "an answer of this request: {listed}")
        }
        _ => f.write_str("something else"),
    }
}
