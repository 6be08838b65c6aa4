//! Arrivals, one after another, or a list of them.
ghost use Rattle.std.specs.Prelude.{ℕ, ◌≡◌, ◌<◌, ◌≤◌, List, All, IfOk, OnOk, Err, length};
ghost use Rattle.fd_table.specs.Descriptors.{process_limit};
ghost use Rattle.lock_manager.specs.State.{State};
ghost use Rattle.lock_manager.specs.ManagerView.{StandsFor, rules_of, processes_of};
ghost use Rattle.session_core.specs.Event.{Event};
ghost use Rattle.session_core.specs.Mail.{requests_sent};
ghost use Rattle.session_core.specs.Draining.{IsDrain};
ghost use Rattle.session_core.specs.SessionView.{manager_of, events_in, sent_of, SessionHolds};

use crate::sequencer::Sequencer;
use crate::{ArriveFault, Entry, N_MAX, Session};
use lock_manager::{Request, Rules};
use range_core::Memory;
use std::alloc::Global;
use thiserror::Error;

/// Why a list of arrivals can't be run.
#[derive(Clone, Copy, Debug, PartialEq, Eq, Error)]
pub enum RunAllFault {
    /// Some process sends more than [`N_MAX`] requests.
    #[error("a process sends more requests than it may")]
    Full,
    /// A growth was refused.
    #[error(transparent)]
    Memory(Memory),
}

impl From<Memory> for RunAllFault {
    ghost use Rattle.session_core.specs.declared.run.RunAllFault.{RunAllFault};

    ghost from_gives = { λ memory fault. fault ≡ RunAllFault.Memory memory };

    fn from(memory: Memory) -> RunAllFault {
        RunAllFault::Memory(memory)
    }
}

/// Runs the arrivals in turn: after each, all that can be taken is taken. There are `processes` processes, numbered from 1,
/// at most [`fd_table::Limits::processes`], and each arrival is of one of them (this project's choice).
///
/// `Full` only where some process sends more than [`N_MAX`] requests. `Memory` may come in place of any answer.
pub fn run_all(
    alloc: Global,
    processes: u8,
    rules: Rules,
    arrivals: &[(u8, Request)],
) -> Result<Session, RunAllFault>
    requires processes { (1 ≤ processes) × (processes ≤ process_limit rules.limits) }
    requires arrivals { All (λ arrival. (1 ≤ arrival.0) × (arrival.0 ≤ processes)) arrivals.now }
    ensures drained { IfOk result (λ session. (T : State) ×
        IsDrain rules processes arrivals.now (events_in session) T × StandsFor (manager_of session) T) }
    ensures sent { IfOk result (λ session. (p : ℕ) → sent_of session p ≡ requests_sent p arrivals.now) }
    ensures rules { IfOk result (λ session. rules_of (manager_of session) ≡ rules) }
    ensures processes { IfOk result (λ session. processes_of (manager_of session) ≡ processes) }
    ensures holds { IfOk result (λ session. SessionHolds session) }
    ensures full { result ≡ Err RunAllFault.Full → (p : ℕ) × (N_MAX < length (requests_sent p arrivals.now)) }
{
    let mut sequencer = Sequencer::new(alloc, processes, rules)?;
    let mut journal = Vec::new(alloc);
    for (p, request) in arrivals {
        sequencer.deliver(*p, *request, &mut journal)?;
    }
    Ok(Session::of(sequencer, journal))
}

impl Sequencer {
    ghost use Rattle.std.specs.Prelude.{◌⊎◌, OnErr};
    ghost use Rattle.session_core.specs.SequencerView.{manager_in, sent_by, HasTold, HasNoMail};
    ghost use Rattle.session_core.specs.Deliveries.{Delivers, DeliversNothing, RunsOn, TellsSome};

    /// The request arrives, and then all that can be taken is taken: the entries go behind those in `told`.
    ///
    /// `Full` where the process has sent [`N_MAX`] requests leaves everything as it was. After `Memory` what was taken stays taken,
    /// and is told; a request that wasn't taken stands in its mailbox, or hasn't arrived, and then everything is as it was. What stands
    /// in a mailbox the next call takes where it can be.
    pub fn deliver(
        &mut self,
        p: u8,
        request: Request,
        told: &mut Vec<Entry>,
    ) -> Result<(), RunAllFault>
        requires { (1 ≤ p) × (p ≤ processes_of (manager_in self.old)) }

        // Also after a call that wanted memory: the request came, all that could be taken then was, and it is told.
        ensures delivered { OnOk result (Delivers self.old self.new p request told.old.items told.new.items) }
        ensures rest { OnOk result (HasNoMail self.new) }

        // Of arrivals that were run, these and this one were.
        ensures ok { OnOk result (RunsOn self.old self.new told.old.items told.new.items p request) }
        ensures processes { processes_of (manager_in self.new) ≡ processes_of (manager_in self.old) }
        ensures full { result ≡ Err RunAllFault.Full → (journal : List Event) → HasTold self.old journal → length (sent_by self.old journal p) ≡ N_MAX }
        ensures kept { result ≡ Err RunAllFault.Full → DeliversNothing self.old self.new told.old.items told.new.items }

        // Nothing happened, or the request came and what could be taken was, up to the want of memory.
        ensures err { OnErr result (DeliversNothing self.old self.new told.old.items told.new.items
            ⊎ Delivers self.old self.new p request told.old.items told.new.items) }
    {
        // Most requests come to an able process while no able one has mail: such a request is next, and needs no mailbox.
        if self.manager().able(p) && self.next_mail().is_none() {
            // The place is there before the request is taken, so that nothing can fail afterwards.
            told.reserve(1).map_err(Memory::from)?;
            let entry = self.take_at_once(p, request)?;
            told.push_reserved(entry);
            return Ok(self.drain(told)?);
        }
        match self.arrive(p, request) {
            Ok(_) => Ok(self.drain(told)?),
            Err(ArriveFault::Full) => Err(RunAllFault::Full),
            Err(ArriveFault::Memory(memory)) => Err(RunAllFault::Memory(memory)),
        }
    }

    /// Takes until no able process has mail.
    fn drain(&mut self, told: &mut Vec<Entry>) -> Result<(), Memory>
        ensures told { TellsSome self.old self.new told.old.items told.new.items }
        ensures rest { OnOk result (HasNoMail self.new) }
        ensures processes { processes_of (manager_in self.new) ≡ processes_of (manager_in self.old) }
    {
        while let Some((p, request)) = self.next_mail() {
            // The place is there before the request is taken, so that nothing can fail afterwards.
            told.reserve(1)?;
            let entry = self.take(p, request)?;
            told.push_reserved(entry);
        }
        Ok(())
    }
}
