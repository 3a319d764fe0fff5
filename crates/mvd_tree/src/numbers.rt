//! Numbers of buckets or of nodes, a bit for each.
ghost use Rattle.std.specs.Prelude.{◌≡◌, ◌<◌, not};
ghost use Rattle.std.specs.FinSet as set;

use std::marker::Model;

/// Numbers below 4,096, seen as the set of them. They stand in place, and need no memory.
#[derive(Drop)]
pub(crate) struct Numbers {
    words: [u64; 64],
}

impl Model for Numbers {
    ghost use Rattle.std.specs.Coded.{coded_ℕ};
    ghost use Rattle.std.specs.FinSet as set;
    ghost use Rattle.std.specs.Ordering.{nat_cmp};
    ghost use Rattle.mvd_tree.specs.BitSet.{numbers_in};

    ghost Value = { set.FinSet nat_cmp };

    ghost coded = { set.code coded_ℕ };

    ghost view = { λ n. numbers_in n.words };
}

impl Numbers {
    /// No number.
    pub(crate) fn none() -> Numbers
        ensures { result ≡ set.empty }
    {
        Numbers { words: [0; 64] }
    }

    /// Puts a number in, and tells whether it is new.
    pub(crate) fn insert(&mut self, number: usize) -> bool
        requires { number < 4096 }
        ensures new { result ≡ not (set.contains self.old number) }
        ensures numbers { self.new ≡ set.insert self.old number }
    {
        let word = self.words[number / 64];
        let bit = 1u64 << (number % 64);
        self.words[number / 64] = word | bit;
        word & bit == 0
    }
}
