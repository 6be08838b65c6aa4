//! Who is in which section, and whose last answer was an error (this project's choice).
ghost use Rattle.std.specs.Prelude.{ℕ, ◌≡◌, ◌≤◌, ◌&&◌, ◌==◌, ◌<◌, ◌+◌, [], ◌∷◌, if◌then◌else◌, not, None, Some, false, List, length, vec_len, IfOk};
ghost use Rattle.lock_manager.specs.State.{state_numbered};
ghost use Rattle.lock_manager.specs.SeatView.{no_seat};
ghost use Rattle.lock_manager.specs.SectionsView.{seat_in, visit_in, refused_in};
ghost use Rattle.lock_manager.specs.Sections.{may_enter as may_enter_of, may_leave as may_leave_of, is_error as is_error_of, keeps_out as keeps_out_of, with_visit, visits_behind, visits_left, has_ended, is_live, last_refused, refused_behind};

use crate::seat::Seat;
use crate::{Note, ProcState, Reply, Request, SECTIONS, Visit};
use range_core::Memory;
use std::alloc::Global;

impl Visit {
    /// Whether this visit and another, if there is one, keep each other out: one of the two is not shared (this project's choice).
    pub(crate) fn keeps_out(self, other: Option<Visit>) -> bool
        ensures { result ≡ keeps_out_of self other }
    {
        match other {
            None => false,
            Some(other) => self == Visit::Sole || other == Visit::Sole,
        }
    }
}

/// The sections of each process, from process 1 on, and whether its last answer was an error.
#[derive(Drop)]
pub struct Sections {
    seats: Vec<Seat>,
}

impl Sections {
    /// Nobody is in a section, and nobody was answered.
    pub fn new(alloc: Global, processes: u8) -> Result<Sections, Memory>
        ensures nobody { IfOk result (λ sections. (p : ℕ) → seat_in sections p ≡ no_seat) }
        ensures all { IfOk result (λ sections. vec_len sections.seats ≡ processes) }
    {
        let count = usize::from(processes);
        let seats = vec![in alloc; Seat::empty(); count]?;
        Ok(Sections { seats })
    }

    /// The words of the process: those of nobody where there is no such process.
    #[tactic(auto, unfolding(crate::specs::SectionsView::seat_in))]
    fn seat(&self, p: u8) -> Seat
        ensures { result ≡ seat_in self.now p }
    {
        match usize::from(p).checked_sub(1) {
            Some(place) => self.seats.get(place).copied().unwrap_or(Seat::empty()),
            None => Seat::empty(),
        }
    }

    /// By which visit the process is in the section; `None` where it isn't, and where there is no such process or section.
    pub fn visit(&self, p: u8, section: u8) -> Option<Visit>
        ensures { result ≡ visit_in self.now p section }
    {
        self.seat(p).visit(section)
    }

    /// Whether the last answer to the process was an error.
    pub fn was_refused(&self, p: u8) -> bool
        ensures { result ≡ refused_in self.now p }
    {
        self.seat(p).was_refused()
    }

    /// Whether the process may enter the section: there is one, and the process isn't in it.
    pub fn may_enter(&self, p: u8, section: u8) -> bool
        ensures { result ≡ may_enter_of (visit_in self.now) p section }
    {
        section < SECTIONS && self.visit(p, section).is_none()
    }

    /// Whether the process may leave the section: it is in it.
    pub fn may_leave(&self, p: u8, section: u8) -> bool
        ensures { result ≡ may_leave_of (visit_in self.now) p section }
    {
        self.visit(p, section).is_some()
    }

    /// Behind a request that told these answers, where the processes stand so: who entered or left has, who ended is in no section, and
    /// of those that live it is known whose last answer was an error. It takes no memory.
    pub fn mark(&mut self, p: u8, request: Request, told: &[Note], states: &[ProcState])
        requires there { (1 ≤ p) × (p ≤ vec_len self.old.seats) }
        requires all { length states.now ≡ vec_len self.old.seats }
        ensures visits { (q section : ℕ) → visit_in self.new q section
            ≡ visits_left (state_numbered states.now) (visits_behind (visit_in self.old) p request) q section }
        ensures refused { (q : ℕ) → refused_in self.new q ≡ refused_behind (state_numbered states.now) told.now (refused_in self.old) q }
        ensures all { vec_len self.new.seats ≡ vec_len self.old.seats }
    {
        self.go(p, request);
        self.hear(told);
        self.stand(states);
    }

    /// Who enters or leaves has.
    fn go(&mut self, p: u8, request: Request)
        requires { (1 ≤ p) × (p ≤ vec_len self.old.seats) }
        ensures visits { (q section : ℕ) → visit_in self.new q section ≡ visits_behind (visit_in self.old) p request q section }
        ensures refused { (q : ℕ) → refused_in self.new q ≡ refused_in self.old q }
        ensures all { vec_len self.new.seats ≡ vec_len self.old.seats }
    {
        match request {
            Request::Enter { section, visit } => {
                if self.may_enter(p, section) {
                    self.put(usize::from(p) - 1, self.seat(p).with(section, visit));
                }
            },
            Request::Leave { section } => {
                if section < SECTIONS {
                    self.put(usize::from(p) - 1, self.seat(p).without(section));
                }
            },
            _ => {},
        }
    }

    /// These are the words at this place from now on.
    #[tactic(auto, using(crate::proofs::SectionLemmas::seat_put))]
    fn put(&mut self, place: usize, seat: Seat)
        requires { place < vec_len self.old.seats }
        ensures seats { (q : ℕ) → seat_in self.new q ≡ (if q == place + 1 then seat else seat_in self.old q) }
        ensures all { vec_len self.new.seats ≡ vec_len self.old.seats }
    {
        self.seats[place] = seat;
    }

    /// Each answer is the last one so far to its process.
    fn hear(&mut self, told: &[Note])
        ensures visits { (q section : ℕ) → visit_in self.new q section ≡ visit_in self.old q section }
        ensures refused { (q : ℕ) → 1 ≤ q → q ≤ vec_len self.old.seats → refused_in self.new q ≡ last_refused told.now q (refused_in self.old q) }
        ensures all { vec_len self.new.seats ≡ vec_len self.old.seats }
    {
        for note in told {
            self.hear_one(*note);
        }
    }

    /// Where the note is an answer it is the last one so far to its process.
    fn hear_one(&mut self, note: Note)
        ensures visits { (q section : ℕ) → visit_in self.new q section ≡ visit_in self.old q section }
        ensures refused { (q : ℕ) → 1 ≤ q → q ≤ vec_len self.old.seats → refused_in self.new q ≡ last_refused (note ∷ []) q (refused_in self.old q) }
        ensures all { vec_len self.new.seats ≡ vec_len self.old.seats }
    {
        match note {
            Note::Answer { p, reply, .. } => self.answer(p, is_error(reply)),
            Note::Waits { .. } => {},
        }
    }

    /// The process, if there is one, was told an error or none.
    fn answer(&mut self, p: u8, is_error: bool)
        ensures visits { (q section : ℕ) → visit_in self.new q section ≡ visit_in self.old q section }
        ensures refused { (q : ℕ) → 1 ≤ q → q ≤ vec_len self.old.seats → refused_in self.new q ≡ (if q == p then is_error else refused_in self.old q) }
        ensures all { vec_len self.new.seats ≡ vec_len self.old.seats }
    {
        if p > 0 && usize::from(p) <= self.seats.len() {
            self.put(usize::from(p) - 1, self.seat(p).told(is_error));
        }
    }

    /// Who has ended is in no section, and nobody was refused who doesn't live.
    fn stand(&mut self, states: &[ProcState])
        requires { length states.now ≡ vec_len self.old.seats }
        ensures visits { (q section : ℕ) → visit_in self.new q section ≡ visits_left (state_numbered states.now) (visit_in self.old) q section }
        ensures refused { (q : ℕ) → refused_in self.new q ≡ (is_live (state_numbered states.now q) && refused_in self.old q) }
        ensures all { vec_len self.new.seats ≡ vec_len self.old.seats }
    {
        for place in 0..states.len() {
            self.stand_one(place, states[place]);
        }
    }

    /// Of the process at this place, which stands so: if it has ended it is in no section, and if it doesn't live it wasn't refused.
    fn stand_one(&mut self, place: usize, state: ProcState)
        requires { place < vec_len self.old.seats }
        ensures visits { (q section : ℕ) → visit_in self.new q section
            ≡ (if (q == place + 1) && has_ended state then None else visit_in self.old q section) }
        ensures refused { (q : ℕ) → refused_in self.new q ≡ (if (q == place + 1) && not (is_live state) then false else refused_in self.old q) }
        ensures all { vec_len self.new.seats ≡ vec_len self.old.seats }
    {
        let seat = self.seat_at(place);
        // An event leaves most as they were.
        if !seat.is_standing(state) {
            self.put(place, seat.standing(state));
        }
    }

    /// The words at this place.
    #[tactic(auto, using(crate::proofs::SectionLemmas::seat_at))]
    fn seat_at(&self, place: usize) -> Seat
        requires { place < vec_len self.now.seats }
        ensures { result ≡ seat_in self.now (place + 1) }
    {
        self.seats[place]
    }
}

/// Whether the reply is an error.
fn is_error(reply: Reply) -> bool
    ensures { result ≡ is_error_of reply }
{
    match reply {
        Reply::Err(_) => true,
        Reply::Ok | Reply::Fd(_) | Reply::Free | Reply::Held { .. } => false,
    }
}
