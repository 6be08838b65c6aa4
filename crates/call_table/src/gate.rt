//! What stands between the taking of a request and its answers, for tests that stop there.
ghost use Rattle.std.specs.Prelude.{ℕ};

/// What stands between the taking of a request and its answers (this project's choice).
pub trait Gate {
    /// What holds of a gate once it was passed at a place; nothing, where a gate says no more. The desk knows it of each place that it
    /// took, and no other way leads there than the gate.
    ghost passed: { Self → ℕ → Type 0 } = { λ gate place. Unit {0} };

    /// Called once the request with this place in the journal, from 1, is taken, and before any answer is published. The desk
    /// goes on when it returns.
    fn between(&self, place: u64)
        ensures { passed self.now place };
}
