//! Who is told of each request that was posted in a run in threads.
ghost use Rattle.std.specs.Prelude.{ℕ, ◌-◌};
ghost use Rattle.replay_core.specs.Watching.{HasPosted, IsToldOf};

/// Is told of each request that was posted, in the thread that posts it (this project's choice).
pub trait Watch {
    /// What holds of a watch once it was told that the process has posted the request with this number; nothing, where a watch says no
    /// more. A caller knows it of each request that it posted, and no other way leads there than the call.
    ghost told: { Self → ℕ → ℕ → Type 0 } = { λ watch p n. Unit {0} };

    /// The request number `n` of the process `p` was posted. Of those before it the watch was told, in their order.
    fn posted(&self, p: u8, n: u64)
        requires posted { HasPosted p n }
        requires before { IsToldOf (told self.now) p (n - 1) }
        ensures { told self.now p n };
}
