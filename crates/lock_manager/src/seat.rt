//! The sections of one process, in two words, and whether its last answer was an error (this project's choice).
ghost use Rattle.std.specs.Prelude.{ℕ, ◌≡◌, ◌<◌, ◌==◌, ◌||◌, if◌then◌else◌, Some, None, false, IsTrue};
ghost use Rattle.lock_manager.specs.declared.request.TheConstants.{SECTIONS};
ghost use Rattle.lock_manager.specs.SeatView.{has_section, visit_of, no_seat};
ghost use Rattle.lock_manager.specs.Sections.{has_ended, is_live};

use crate::{ProcState, SECTIONS, Visit};

/// In which sections a process is, and whether its last answer was an error.
#[derive(Clone, Copy, Debug, PartialEq, Eq)]
pub struct Seat {
    /// The sections in which it is by a sole visit: section `k` is bit `k`.
    sole: u64,
    /// Those in which it is by a shared one.
    shared: u64,
    /// Whether its last answer was an error.
    refused: bool,
}

impl Seat {
    /// In no section, and told no error.
    pub fn empty() -> Seat
        ensures { result ≡ no_seat }
    {
        Seat {
            sole: 0,
            shared: 0,
            refused: false,
        }
    }

    /// By which visit it is in the section; `None` where it isn't, and where there is no such section.
    pub fn visit(self, section: u8) -> Option<Visit>
        ensures { result ≡ visit_of self section }
    {
        if section >= SECTIONS {
            return None;
        }
        if has(self.sole, section) {
            return Some(Visit::Sole);
        }
        if has(self.shared, section) {
            return Some(Visit::Shared);
        }
        None
    }

    /// Whether the last answer was an error.
    pub fn was_refused(self) -> bool
        ensures { result ≡ self.refused }
    {
        self.refused
    }

    /// The same, but in this section, in which it wasn't, by this visit.
    pub fn with(self, section: u8, visit: Visit) -> Seat
        requires there { section < SECTIONS }
        requires none { visit_of self section ≡ None }
        ensures visits { (other : ℕ) → visit_of result other ≡ (if other == section then Some visit else visit_of self other) }
        ensures refused { result.refused ≡ self.refused }
    {
        match visit {
            Visit::Sole => Seat {
                sole: with_section(self.sole, section),
                ..self
            },
            Visit::Shared => Seat {
                shared: with_section(self.shared, section),
                ..self
            },
        }
    }

    /// The same, but not in this section.
    pub fn without(self, section: u8) -> Seat
        requires { section < SECTIONS }
        ensures visits { (other : ℕ) → visit_of result other ≡ (if other == section then None else visit_of self other) }
        ensures refused { result.refused ≡ self.refused }
    {
        Seat {
            sole: without_section(self.sole, section),
            shared: without_section(self.shared, section),
            ..self
        }
    }

    /// The same, but the last answer was an error, or wasn't.
    pub fn told(self, is_error: bool) -> Seat
        ensures visits { (section : ℕ) → visit_of result section ≡ visit_of self section }
        ensures refused { result.refused ≡ is_error }
    {
        Seat {
            refused: is_error,
            ..self
        }
    }

    /// Whether it is the same for a process that stands so.
    #[tactic(auto, using(crate::proofs::SectionLemmas::no_visit))]
    pub fn is_standing(self, state: ProcState) -> bool
        ensures visits { IsTrue result → (section : ℕ) → visit_of self section ≡ (if has_ended state then None else visit_of self section) }
        ensures refused { IsTrue result → self.refused ≡ (if is_live state then self.refused else false) }
    {
        match state {
            ProcState::Live => true,
            ProcState::Unborn | ProcState::Waiting => !self.refused,
            ProcState::Ended => self == Seat::empty(),
        }
    }

    /// The same, of a process that stands so: if it has ended it is in no section, and if it doesn't live it wasn't refused.
    #[tactic(auto, using(crate::proofs::SectionLemmas::no_visit))]
    pub fn standing(self, state: ProcState) -> Seat
        ensures visits { (section : ℕ) → visit_of result section ≡ (if has_ended state then None else visit_of self section) }
        ensures refused { result.refused ≡ (if is_live state then self.refused else false) }
    {
        match state {
            ProcState::Live => self,
            ProcState::Unborn | ProcState::Waiting => self.told(false),
            ProcState::Ended => Seat::empty(),
        }
    }
}

/// Whether the word has the section.
#[tactic(auto, unfolding(crate::specs::SeatView::has_section))]
fn has(word: u64, section: u8) -> bool
    requires { section < SECTIONS }
    ensures { result ≡ has_section word section }
{
    word >> section & 1 == 1
}

/// The word with the section in it.
fn with_section(word: u64, section: u8) -> u64
    requires { section < SECTIONS }
    ensures { (other : ℕ) → other < SECTIONS → has_section result other ≡ (other == section || has_section word other) }
{
    word | 1 << section
}

/// The word without the section.
fn without_section(word: u64, section: u8) -> u64
    requires { section < SECTIONS }
    ensures { (other : ℕ) → other < SECTIONS → has_section result other ≡ (if other == section then false else has_section word other) }
{
    word & !(1 << section)
}
