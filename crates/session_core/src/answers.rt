//! The last answer to each process.
ghost use Rattle.std.specs.Prelude.{◌≡◌, ◌≤◌, ℕ, ◌==◌, Some, None, IfOk, if◌then◌else◌};
ghost use Rattle.session_core.specs.Mail.{answers_in};

use lock_manager::{Note, Reply};
use range_core::Memory;
use std::alloc::Global;

/// The answer to request number `n` of some process.
#[derive(Clone, Copy, Debug)]
pub struct Answer {
    /// The number of the request.
    pub n: u64,
    /// What was answered.
    pub reply: Reply,
}

/// The last answer to each process.
#[derive(Drop)]
pub struct LastAnswers {
    /// By process, from process 1 on.
    answers: Vec<Option<Answer>>,
}

impl LastAnswers {
    ghost use Rattle.session_core.specs.LastAnswers.{latest, processes_in, last_of};

    /// Nothing was answered to any of so many processes.
    pub fn new(alloc: Global, processes: u8) -> Result<LastAnswers, Memory>
        ensures processes { IfOk result (λ last. processes_in last ≡ processes) }
        ensures none { IfOk result (λ last. (p : ℕ) → last_of last p ≡ None) }
    {
        let answers = vec![in alloc; None; usize::from(processes)]?;
        Ok(LastAnswers { answers })
    }

    /// The last answer to the process: `None` also where there is no such process.
    pub fn of(&self, p: u8) -> Option<Answer>
        ensures { result ≡ last_of self.now p }
    {
        let place = usize::from(p).checked_sub(1)?;
        *self.answers.get(place)?
    }

    /// Takes down the answers that are among the notes. It takes no memory.
    pub fn tell(&mut self, notes: &[Note])
        ensures processes { processes_in self.new ≡ processes_in self.old }
        ensures latest { (p : ℕ) → 1 ≤ p → p ≤ processes_in self.old →
            last_of self.new p ≡ latest (last_of self.old p) (answers_in p 0 notes.now) }
    {
        for note in notes {
            if let Note::Answer { p, n, reply } = note {
                let answer = Answer {
                    n: *n,
                    reply: *reply,
                };
                self.put(*p, answer);
            }
        }
    }

    /// The answer is the last one to this process, where there is such a process.
    fn put(&mut self, p: u8, answer: Answer)
        ensures processes { processes_in self.new ≡ processes_in self.old }
        ensures put { (q : ℕ) → 1 ≤ q → q ≤ processes_in self.old →
            last_of self.new q ≡ (if p == q then Some answer else last_of self.old q) }
    {
        if let Some(place) = usize::from(p).checked_sub(1)
            && let Some(last) = self.answers.get_mut(place)
        {
            *last = Some(answer);
        }
    }
}
