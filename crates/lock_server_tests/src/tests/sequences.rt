//! The server against the model, on sequences of calls that are made by a written rule.
use super::calls::{Call, atomic, stepwise, tells};
use super::listing::lists_as;
use super::model::{FILES, Model, OWNERS};
use super::rule::Rule;
use lock_server::{LockServer, Memory, Policy};
use std::process::Abort;
use std::test::Fail;

/// How many open files of each file the sequences speak of.
const OPEN_FILES: u64 = 3;

impl Rule {
    /// A request for a lock, or an unlock.
    pub(super) fn request(&mut self) -> Call {
        let (ticket, owner, mode) = (self.below(8), self.below(OWNERS), self.mode());
        let bytes = self.bytes();
        match self.below(16) {
            0..=2 => Call::Set(owner, bytes, Some(mode)),
            3 | 4 => Call::Set(owner, bytes, None),
            5..=8 => Call::Wait(ticket, owner, bytes, mode, true),
            9 | 10 => Call::Wait(ticket, owner, bytes, mode, false),
            11 | 12 => Call::Flock(owner, Some(mode)),
            13 => Call::Flock(owner, None),
            _ => Call::FlockWait(ticket, owner, mode),
        }
    }

    /// A call of any kind, but that it asks for nothing that is in the way.
    pub(super) fn call(&mut self) -> Call {
        let (owner, open_file) = (self.below(OWNERS), self.below(OPEN_FILES));
        match self.below(28) {
            0..=3 => Call::Note(owner, open_file),
            4 => Call::Release(open_file, None),
            5 => Call::Release(open_file, Some(owner)),
            6 => Call::Flush(owner),
            7 => Call::Forget(owner),
            8 => Call::FlockRelease(owner),
            9 => Call::Cancel(self.below(8)),
            10 | 11 => Call::Grant,
            12 => Call::ForgetOwners(owner, owner + self.below(2)),
            13 => Call::ForgetFile,
            14 => Call::HasLocks(owner, owner + self.below(3)),
            15 => Call::Counts(owner, owner + self.below(3)),
            _ => self.request(),
        }
    }
}

/// A sequence of 40 calls, and what is in the way of some request after each; then all grants that are left. In its midst and behind the
/// calls all is listed.
fn sequence(
    rt: &impl Abort,
    server: &mut LockServer,
    model: &mut Model,
    rule: &mut Rule,
) -> Result<(), Memory> {
    for step in 0..88u64 {
        let call = match (step / 80, step % 2) {
            (0, 0) => rule.call(),
            (0, _) => Call::Get(rule.below(OWNERS), rule.bytes(), rule.mode()),
            _ => Call::Grant,
        };
        let file = rule.below(FILES);
        let told = model.serve(file, call)?;
        tells(rt, server, &[(file, call, told)])?;
        if step % 40 == 39 {
            lists_as(rt, server, model);
        }
    }
    Ok(())
}

/// Two and a half thousand sequences by each of the rules: each answer, each grant, what is in the way and what is listed are the
/// model's.
#[test]
fn goes_as_the_model_often(rt: HostRuntime) -> Result<(), Fail> {
    let mut rule = Rule { x: 31 };
    for _ in 0..2500 {
        for rules in [
            stepwise(Policy::Held),
            stepwise(Policy::Queue),
            atomic(Policy::Held),
            atomic(Policy::Queue),
        ] {
            let mut model = Model::new(rt.alloc(), rules);
            let server = &mut LockServer::new(rt.alloc(), rules);
            sequence(&rt, server, &mut model, &mut rule)?;
        }
    }
    Ok(())
}
