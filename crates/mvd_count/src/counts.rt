//! One count.
ghost use Rattle.std.specs.Prelude.{◌≡◌};
ghost use Rattle.mvd_count.specs.Counted.{RoseBy, counted};

use mvd_start::Start;
use std::marker::{Model, PhantomData};

/// How much of a kind of work was done. A count that is full, at `2^64 - 1`, stays there. No count can stand in the
/// place of one of another kind.
#[derive(Drop)]
pub struct Count<K> {
    made: u64,
    kind: PhantomData<K>,
}

impl<K> Model for Count<K> {
    ghost use Rattle.std.specs.Prelude.{ℕ};
    ghost use Rattle.std.specs.Coded.{coded_ℕ};

    ghost Value = { ℕ };

    ghost coded = { coded_ℕ };

    ghost view = { λ c. c.made };
}

impl<K> Count<K> {
    /// Nothing was done yet.
    pub fn new(_start: &Start) -> Count<K>
        ensures { result ≡ 0 }
    {
        Count {
            made: 0,
            kind: PhantomData,
        }
    }

    /// How much was done. What is counted cannot read its count, and so not wait until it is full.
    pub fn made(&self, _start: &Start) -> u64
        ensures { result ≡ self.now }
    {
        self.made
    }

    /// So much more was done.
    pub fn add(&mut self, more: u64)
        ensures counted { self.new ≡ counted self.old more }
        ensures rose { RoseBy more self.old self.new }
    {
        self.made = self.made.saturating_add(more);
    }
}
