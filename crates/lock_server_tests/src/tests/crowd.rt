//! The server against the model where many owners have locks and wait on one file, and where a few are forgotten often.
use super::calls::{Call, stepwise, tells};
use super::model::{FILES, Model, OWNERS};
use super::rule::Rule;
use lock_server::{LockServer, Memory, Mode, Policy};
use std::process::Abort;
use std::test::Fail;

/// So many owners have locks on a file, and so many wait there.
const CROWD: u64 = 500;

/// A server and the model of it, and the rule by which they are asked.
#[derive(Drop)]
struct Crowd {
    server: LockServer,
    model: Model,
    rule: Rule,
}

impl Crowd {
    /// The call on the file comes to what the model tells.
    fn goes_on(&mut self, rt: &impl Abort, file: u64, call: Call) -> Result<(), Memory> {
        let told = self.model.serve(file, call)?;
        tells(rt, &mut self.server, &[(file, call, told)])
    }

    /// Each of the owners reads some bytes of the file, and as many others wait to write some, one in eight of them detected.
    fn gather(&mut self, rt: &impl Abort, file: u64) -> Result<(), Memory> {
        for owner in 0..CROWD {
            let bytes = self.rule.bytes();
            self.goes_on(rt, file, Call::Set(owner, bytes, Some(Mode::Read)))?;
        }
        for owner in CROWD..2 * CROWD {
            let (bytes, detect) = (self.rule.bytes(), self.rule.below(8) == 0);
            self.goes_on(
                rt,
                file,
                Call::Wait(owner, owner, bytes, Mode::Write, detect),
            )?;
        }
        Ok(())
    }

    /// Some call by one of the owners, of whom most lose what they have.
    fn step(&mut self) -> Call {
        let (owner, ticket) = (self.rule.below(2 * CROWD), self.rule.below(2 * CROWD));
        let (bytes, mode) = (self.rule.bytes(), self.rule.mode());
        match self.rule.below(12) {
            0..=2 => Call::Set(owner, bytes, None),
            3 => Call::Set(owner, bytes, Some(mode)),
            4 | 5 => Call::Wait(ticket, owner, bytes, mode, true),
            6 => Call::Cancel(ticket),
            7 => Call::Flush(owner),
            8 => Call::Forget(owner),
            9 => Call::ForgetOwners(owner, owner + 2),
            10 => Call::Get(owner, bytes, mode),
            _ => Call::Grant,
        }
    }

    /// All gather on one file, and make so many calls there.
    fn serve(&mut self, rt: &impl Abort, calls: u64) -> Result<(), Memory> {
        self.gather(rt, 1)?;
        for _ in 0..calls {
            let call = self.step();
            self.goes_on(rt, 1, call)?;
        }
        Ok(())
    }
}

/// Five hundred owners with locks and five hundred waits on one file, and then some calls: each comes to what the model tells.
#[test]
fn a_crowd_goes_as_the_model_often(rt: HostRuntime) -> Result<(), Fail> {
    for policy in [Policy::Held, Policy::Queue] {
        let mut many = Crowd {
            server: LockServer::new(rt.alloc(), stepwise(policy)),
            model: Model::new(rt.alloc(), stepwise(policy)),
            rule: Rule { x: 77 },
        };
        many.serve(&rt, 200)?;
    }
    Ok(())
}

/// A call by one of a few owners; every other one forgets some.
fn forgetting(rule: &mut Rule) -> Call {
    let owner = rule.below(OWNERS);
    match rule.below(8) {
        0 | 1 => Call::Forget(owner),
        2 => Call::ForgetOwners(owner, owner + rule.below(3)),
        3 => Call::Flush(owner),
        _ => rule.request(),
    }
}

/// A few owners come, wait and are forgotten, again and again, on the same files of the same server.
#[test]
fn a_few_are_forgotten_often(rt: HostRuntime) -> Result<(), Fail> {
    for policy in [Policy::Held, Policy::Queue] {
        let mut few = Crowd {
            server: LockServer::new(rt.alloc(), stepwise(policy)),
            model: Model::new(rt.alloc(), stepwise(policy)),
            rule: Rule { x: 5 },
        };
        for _ in 0..20_000u64 {
            let (file, call) = (few.rule.below(FILES), forgetting(&mut few.rule));
            few.goes_on(&rt, file, call)?;
        }
    }
    Ok(())
}
