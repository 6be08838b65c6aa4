//! What the lines in front of a faulty one said.
use crate::commands::Processes;
use crate::reason::{Header, Reason};

/// What the lines said that stand in front of a faulty one, none of which is.
#[derive(Clone, Copy, Debug)]
pub struct Heading {
    /// The line that says the policy.
    policy: Option<u64>,
    /// The line that says the limits.
    limits: Option<u64>,
    /// How many processes there are.
    pub processes: Processes,
    /// The first line that is neither of these, nor skipped.
    first: Option<u64>,
    /// The first line of the report, in a journal.
    pub report: Option<u64>,
}

impl Heading {
    /// No line said anything.
    pub fn new() -> Heading {
        Heading {
            policy: None,
            limits: None,
            processes: Processes::Small,
            first: None,
            report: None,
        }
    }

    /// What the lines say in front of the one of this number.
    pub fn before(bytes: &[u8], number: u64) -> Heading {
        let mut heading = Heading::new();
        let mut at: u64 = 1;
        for line in bytes.split(|byte| *byte == b'\n') {
            if at >= number {
                break;
            }
            heading.take(line, at);
            at = at.saturating_add(1);
        }
        heading
    }

    /// Takes a line of this number.
    fn take(&mut self, line: &[u8], number: u64) {
        let mut words = line
            .split(|byte| *byte == b' ')
            .filter(|word| !word.is_empty());
        match words.next() {
            None | Some([b'#', ..]) => {}
            Some(b"policy") if self.says(self.policy) => self.policy = Some(number),
            Some(b"limits") if self.says(self.limits) => {
                self.limits = Some(number);
                if words.next() == Some(b"wide") {
                    self.processes = Processes::Wide;
                }
            }
            Some(b"lock" | b"flock" | b"wait" | b"proc") => {
                self.first = self.first.or(Some(number));
                self.report = self.report.or(Some(number));
            }
            Some(_) => self.first = self.first.or(Some(number)),
        }
    }

    /// Whether a header line may stand here that stood in this one.
    fn says(&self, line: Option<u64>) -> bool {
        line.is_none() && self.first.is_none()
    }

    /// Whether a line of this first word is a header line here.
    pub fn has(&self, word: &str) -> Option<Header> {
        match word {
            "policy" if self.says(self.policy) => Some(Header::Policy),
            "limits" if self.says(self.limits) => Some(Header::Limits),
            _ => None,
        }
    }

    /// Why a line of this first word is no header line here, where it would be one elsewhere.
    pub fn refuses(&self, word: &str) -> Option<Reason<'static>> {
        match word {
            "policy" => self.refuses_header(self.policy),
            "limits" => self.refuses_header(self.limits),
            _ => None,
        }
    }

    /// Why a header line that stood in this line may not stand here.
    fn refuses_header(&self, line: Option<u64>) -> Option<Reason<'static>> {
        match (line, self.first) {
            (Some(line), _) => Some(Reason::Once(line)),
            (None, Some(first)) => Some(Reason::Late(first)),
            (None, None) => None,
        }
    }

    /// Whether header lines may still stand here.
    pub fn is_open(&self) -> bool {
        self.first.is_none()
    }

    /// Whether the word is the number of a process that wide limits alone have, where no line said the limits.
    pub fn wants_wide(&self, word: &str) -> bool {
        self.limits.is_none() && Processes::Wide.have(word) && !self.processes.have(word)
    }
}
