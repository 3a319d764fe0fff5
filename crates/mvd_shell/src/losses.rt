//! Writes of which nobody can tell whether they were done.
ghost use Rattle.std.specs.Prelude.{◌≡◌, ℕ};

/// How many of the writes that were asked of something are lost: they may have been done, but no reply to them came.
pub trait Losses<A> {
    /// So many are.
    ghost lost: { A → ℕ };

    fn lost(asked: &A) -> u64
        ensures { result ≡ lost asked.now };
}

/// What is asked replies to each write.
pub struct NoLosses;

impl<A> Losses<A> for NoLosses {
    ghost lost = { λ _. 0 };

    fn lost(_asked: &A) -> u64 {
        0
    }
}
