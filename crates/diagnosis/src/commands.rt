//! What the commands, notes and answers of the languages have behind their words, as docs/RULES.md lists it.
use crate::reason::Header;
use script_core::natural_of;

/// How many processes there are, by the limits.
#[derive(Clone, Copy, Debug, PartialEq, Eq)]
pub enum Processes {
    /// 1 to 16.
    Small,
    /// 1 to 64.
    Wide,
}

impl Processes {
    /// The greatest number of a process.
    pub fn most(self) -> u64 {
        match self {
            Processes::Small => 16,
            Processes::Wide => 64,
        }
    }

    /// Whether the word is the number of a process.
    pub fn have(self, word: &str) -> bool {
        matches!(natural_of(word), Some(process) if 1 <= process && process <= self.most())
    }
}

/// How an argument is spelled.
#[derive(Clone, Copy, Debug)]
pub enum Form {
    /// A number from 0 to this one.
    Natural(u64),
    /// A number of 64 bits, with a minus sign where it is negative.
    Integer,
    /// The number of a process.
    Process,
    /// One of these words.
    Words(&'static [&'static str]),
    /// The number of an owner, or a hyphen.
    Holder,
}

impl Form {
    /// Whether the word is one of this form.
    pub fn has(self, word: &str, processes: Processes) -> bool {
        match self {
            Form::Natural(most) => matches!(natural_of(word), Some(number) if number <= most),
            Form::Integer => is_integer(word),
            Form::Process => processes.have(word),
            Form::Words(words) => words.contains(&word),
            Form::Holder => word == "-" || natural_of(word).is_some(),
        }
    }
}

/// Whether the word is a number of 64 bits without leading zeros, with a minus sign where it is negative.
fn is_integer(word: &str) -> bool {
    match word.strip_prefix('-') {
        Some(digits) => digits != "0"
            && natural_of(digits).is_some()
            && word.parse::<i64>().is_ok(),
        None => natural_of(word).is_some() && word.parse::<i64>().is_ok(),
    }
}

/// What may stand behind a word.
#[derive(Clone, Copy, Debug, PartialEq, Eq)]
pub enum Argument {
    File,
    Section,
    Descriptor,
    Offset,
    Size,
    Start,
    Length,
    Pid,
    Access,
    Kind,
    Whence,
    Operation,
    NonBlocking,
    Shared,
    Process,
    Policy,
    Limits,
    /// Of a note: the mode, the start and the length of a lock that is held.
    Mode,
    HeldStart,
    HeldLength,
    /// Of a history: numbers of 64 bits, and the owner of a lock that is held.
    Id,
    Number,
    Owner,
    First,
    Last,
    Holder,
}

impl Argument {
    /// Its name in the manual.
    pub fn name(self) -> &'static str {
        match self {
            Argument::File | Argument::Number => "FILE",
            Argument::Section => "SECTION",
            Argument::Id => "ID",
            Argument::Descriptor => "FD",
            Argument::Offset => "OFFSET",
            Argument::Size => "SIZE",
            Argument::Start | Argument::HeldStart => "START",
            Argument::Length | Argument::HeldLength => "LENGTH",
            Argument::Pid => "PID",
            Argument::Access => "ACCESS",
            Argument::Kind => "KIND",
            Argument::Whence => "WHENCE",
            Argument::Operation => "OPERATION",
            Argument::NonBlocking => "LOCK_NB",
            Argument::Shared => "VISIT",
            Argument::Process => "PROCESS",
            Argument::Policy => "POLICY",
            Argument::Limits => "LIMITS",
            Argument::Mode => "MODE",
            Argument::Owner | Argument::Holder => "OWNER",
            Argument::First => "FIRST",
            Argument::Last => "LAST",
        }
    }

    /// How it is spelled.
    pub fn form(self) -> Form {
        match self {
            Argument::File | Argument::Section => Form::Natural(63),
            Argument::Descriptor => Form::Natural(4_294_967_295),
            Argument::Offset
            | Argument::Size
            | Argument::Start
            | Argument::Length
            | Argument::Pid => Form::Integer,
            Argument::Access => Form::Words(&["r", "w", "rw"]),
            Argument::Kind => Form::Words(&["r", "w", "u"]),
            Argument::Whence => Form::Words(&["set", "cur", "end"]),
            Argument::Operation => Form::Words(&["sh", "ex", "un"]),
            Argument::NonBlocking => Form::Words(&["nb"]),
            Argument::Shared => Form::Words(&["sh"]),
            Argument::Process => Form::Process,
            Argument::Policy => Form::Words(&["held", "queue"]),
            Argument::Limits => Form::Words(&["small", "wide"]),
            Argument::Mode => Form::Words(&["r", "w"]),
            Argument::HeldStart
            | Argument::HeldLength
            | Argument::Id
            | Argument::Number
            | Argument::Owner
            | Argument::First
            | Argument::Last => Form::Natural(u64::MAX),
            Argument::Holder => Form::Holder,
        }
    }
}

/// What stands behind a word: arguments, of which the last ones may be left out.
#[derive(Clone, Copy, Debug)]
pub struct Shape {
    /// How these are written in the manual.
    pub usage: &'static str,
    /// The arguments.
    pub arguments: &'static [Argument],
    /// How many have to stand there.
    pub required: usize,
}

impl Shape {
    /// All of these have to stand there.
    fn of(usage: &'static str, arguments: &'static [Argument]) -> Shape {
        Shape {
            usage,
            arguments,
            required: arguments.len(),
        }
    }
}

/// The commands of a script.
pub const COMMANDS: [&str; 20] = [
    "open", "dup", "dup2", "close", "seek", "resize", "getlk", "setlk", "setlkw", "ogetlk",
    "osetlk", "osetlkw", "flock", "fork", "signal", "kill", "exit", "enter", "leave", "bail",
];

/// What a command of this name has behind it.
pub fn shape_of_command(name: &str) -> Option<Shape> {
    match name {
        "open" => Some(Shape::of("FILE r|w|rw", &[Argument::File, Argument::Access])),
        "dup" | "close" => Some(Shape::of("FD", &[Argument::Descriptor])),
        "dup2" => Some(Shape::of("FD FD", &[Argument::Descriptor, Argument::Descriptor])),
        "seek" => Some(Shape::of("FD OFFSET", &[Argument::Descriptor, Argument::Offset])),
        "resize" => Some(Shape::of("FD SIZE", &[Argument::Descriptor, Argument::Size])),
        "getlk" | "setlk" | "setlkw" | "ogetlk" | "osetlk" | "osetlkw" => Some(lock_shape()),
        "flock" => Some(flock_shape()),
        "fork" | "signal" | "kill" => Some(Shape::of("PROCESS", &[Argument::Process])),
        "exit" | "bail" => Some(Shape::of("", &[])),
        "enter" => Some(enter_shape()),
        "leave" => Some(Shape::of("SECTION", &[Argument::Section])),
        _ => None,
    }
}

/// What a lock command has behind it.
fn lock_shape() -> Shape {
    Shape {
        usage: "FD r|w|u set|cur|end START LENGTH [PID]",
        arguments: &[
            Argument::Descriptor,
            Argument::Kind,
            Argument::Whence,
            Argument::Start,
            Argument::Length,
            Argument::Pid,
        ],
        required: 5,
    }
}

/// What flock has behind it.
fn flock_shape() -> Shape {
    Shape {
        usage: "FD sh|ex|un [nb]",
        arguments: &[
            Argument::Descriptor,
            Argument::Operation,
            Argument::NonBlocking,
        ],
        required: 2,
    }
}

/// What enter has behind it.
fn enter_shape() -> Shape {
    Shape {
        usage: "SECTION [sh]",
        arguments: &[Argument::Section, Argument::Shared],
        required: 1,
    }
}

/// What a header line has behind its first word.
pub fn shape_of_header(header: Header) -> Shape {
    match header {
        Header::Policy => Shape::of("held|queue", &[Argument::Policy]),
        Header::Limits => Shape::of("small|wide", &[Argument::Limits]),
    }
}

/// The words of a note beside the names of errors.
pub const NOTES: [&str; 5] = ["waits", "fd", "free", "held", "ok"];

/// What a note that begins with this word has behind it.
pub fn shape_of_note(word: &str) -> Option<Shape> {
    match word {
        "fd" => Some(Shape::of("N", &[Argument::Descriptor])),
        "held" => Some(Shape::of(
            "r|w START LENGTH PID",
            &[
                Argument::Mode,
                Argument::HeldStart,
                Argument::HeldLength,
                Argument::Pid,
            ],
        )),
        "waits" | "free" | "ok" => Some(Shape::of("", &[])),
        "EBADF" | "EINVAL" | "EOVERFLOW" | "EAGAIN" | "EDEADLK" | "EINTR" | "EMFILE" | "ESRCH" => {
            Some(Shape::of("", &[]))
        }
        _ => None,
    }
}

/// The requests of a history.
pub const REQUESTS: [&str; 7] = ["set", "wait", "get", "unlock", "flock", "close", "gone"];

/// What a request of a history has behind it.
pub fn shape_of_request(name: &str) -> Option<Shape> {
    match name {
        "set" | "wait" | "get" => Some(Shape::of(
            "FILE OWNER r|w FIRST LAST",
            &[
                Argument::Number,
                Argument::Owner,
                Argument::Mode,
                Argument::First,
                Argument::Last,
            ],
        )),
        "unlock" => Some(Shape::of(
            "FILE OWNER FIRST LAST",
            &[
                Argument::Number,
                Argument::Owner,
                Argument::First,
                Argument::Last,
            ],
        )),
        "flock" => Some(Shape {
            usage: "FILE OWNER sh|ex|un [nb]",
            arguments: &[
                Argument::Number,
                Argument::Owner,
                Argument::Operation,
                Argument::NonBlocking,
            ],
            required: 3,
        }),
        "close" | "gone" => Some(Shape::of("FILE OWNER", &[Argument::Number, Argument::Owner])),
        _ => None,
    }
}

/// The words that answers of a history begin with.
pub const ANSWERS: [&str; 7] = ["ok", "busy", "free", "held", "EINTR", "EDEADLK", "error"];

/// What decides which answers a request of a history has.
#[derive(Clone, Copy, Debug, PartialEq, Eq)]
pub enum Asked {
    /// `set`, or `flock` with `nb`.
    AtOnce,
    /// `wait`.
    Waits,
    /// `get`.
    Get,
    /// `flock` without `nb`.
    FlockWaits,
    /// `unlock`, `flock` with `un`, `close`.
    Removes,
    /// `gone`.
    Gone,
}

impl Asked {
    /// The words that its answers begin with.
    pub fn answers(self) -> &'static [&'static str] {
        match self {
            Asked::AtOnce => &["ok", "busy", "error"],
            Asked::Waits => &["ok", "EINTR", "EDEADLK", "error"],
            Asked::Get => &["free", "held", "error"],
            Asked::FlockWaits => &["ok", "EINTR", "error"],
            Asked::Removes => &["ok", "error"],
            Asked::Gone => &["ok"],
        }
    }
}

/// What an answer of a history that begins with this word has behind it.
pub fn shape_of_answer(word: &str) -> Shape {
    match word {
        "held" => Shape::of(
            "OWNER r|w FIRST LAST",
            &[
                Argument::Holder,
                Argument::Mode,
                Argument::First,
                Argument::Last,
            ],
        ),
        _ => Shape::of("", &[]),
    }
}
