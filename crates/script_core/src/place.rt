//! Where a journal stands, and what its next line says.
ghost use Rattle.std.specs.Prelude.{◌≡◌, ◌∷◌, Ok, Err, IfOk, IfErr};
ghost use Rattle.script_core.specs.Words.{texts, words_of};
ghost use Rattle.script_core.specs.Reading.{IsOfScript, IsWantOfMemory};
ghost use Rattle.script_core.specs.EntryReading.{pieces_of, HaveNote};
ghost use Rattle.script_core.specs.JournalReading as spec;

use crate::Cause;
use crate::entry::read_pieces;
use crate::header::Header;
use crate::words::{WORDS_MAX, said_words};
use session_core::Entry;
use std::alloc::Global;

/// What a line of a journal says.
#[derive(Drop)]
pub enum JournalLine {
    /// Nothing: it has no words, or is a comment.
    Skipped,
    /// What the header lines say with it: a header line.
    Header(Header),
    /// An event and what it told.
    Entry(Entry),
    /// Something of the state behind the entries.
    Report,
}

/// Which lines came.
#[derive(Clone, Copy)]
pub enum Stage {
    /// No entry, and no line of the report.
    Header,
    /// An entry, and no line of the report.
    Entries,
    /// A line of the report.
    Report,
}

/// Where a journal stands: what its header lines said, and which lines came.
#[derive(Clone, Copy)]
pub struct Place {
    /// What its header lines said.
    pub header: Header,
    /// Which lines came.
    pub stage: Stage,
}

impl Place {
    ghost use Rattle.script_core.specs.JournalReading.{opening_place, limits_at, HeadGives, TextGives};

    /// At the first line.
    pub fn opening() -> Place
        ensures { result ≡ opening_place }
    {
        Place {
            header: Header::new(),
            stage: Stage::Header,
        }
    }

    /// What the text of a line says there. `Memory` is wanted for the notes of an entry alone.
    pub fn parse_text(&self, alloc: Global, text: &str) -> Result<JournalLine, Cause>
        ensures read { IfOk result (λ said. TextGives self.now text.now (Ok said)) }
        ensures refused { IfErr result (λ cause. IsOfScript cause → TextGives self.now text.now (Err cause)) }
        ensures memory { IfErr result (λ cause. IsWantOfMemory cause → HaveNote (limits_at self.now) (pieces_of text.now)) }
    {
        match self.parse_head(text)? {
            Some(said) => Ok(said),
            None => read_pieces(alloc, self.header.limits(), text).map(JournalLine::Entry),
        }
    }

    /// What the text of a line says there: `None` where it should be an entry. Of more words than [`WORDS_MAX`] the first
    /// ones say the same.
    fn parse_head(&self, text: &str) -> Result<Option<JournalLine>, Cause>
        ensures { HeadGives self.now (words_of text.now) result }
    {
        let mut room = [""; WORDS_MAX];
        match said_words(text, &mut room) {
            Some((first, rest)) => self.parse_first(first, rest),
            None => Ok(Some(JournalLine::Skipped)),
        }
    }

    /// What a first word that is no comment says there, with what follows it: `None` where the line should be an entry.
    #[tactic(auto, using(crate::proofs::FirstWordsLemmas::header_gives))]
    fn parse_first(&self, first: &str, rest: &[&str]) -> Result<Option<JournalLine>, Cause>
        ensures { spec.FirstGives self.now first.now (texts rest.now) result }
    {
        match (
            self.header.parse(self.is_header(), first, rest)?,
            self.stage,
        ) {
            (Some(header), _) => Ok(Some(JournalLine::Header(header))),
            (None, _) if is_report_word(first) => Ok(Some(JournalLine::Report)),
            (None, Stage::Header | Stage::Entries) => Ok(None),
            (None, Stage::Report) => Err(Cause::Word),
        }
    }

    /// Whether header lines may stand there.
    fn is_header(&self) -> bool
        ensures { result ≡ spec.is_header self.now.stage }
    {
        match self.stage {
            Stage::Header => true,
            Stage::Entries | Stage::Report => false,
        }
    }
}

/// Whether a line of this first word is one of the report.
fn is_report_word(first: &str) -> bool
    ensures { result ≡ spec.is_report_word first.now }
{
    first == "lock" || first == "flock" || first == "wait" || first == "proc"
}
