//! A place that is lent. All times are in milliseconds, and given by whoever has a clock.
ghost use Rattle.std.specs.Prelude.{◌≡◌};
ghost use Rattle.mvd_meet.specs.Loans.{moved_on, over_at};

/// The bytes that have to move in a second, for a place to be kept.
const BYTES: u64 = 65_536;

/// The milliseconds in which so many have to move.
const SECOND: u64 = 1_000;

/// The milliseconds for which a place is kept, whatever moves.
const LEAST: u64 = 2_000;

/// The most milliseconds for which it is kept, however much moves.
const MOST: u64 = 5_000;

/// When a place was lent, and how many bytes moved since a later time: fewer than have to in a second.
#[derive(Clone, Copy)]
pub struct Loan {
    pub since: u64,
    pub mark: u64,
    pub moved: u64,
}

impl Loan {
    /// A place that is lent now.
    pub fn new(now: u64) -> Loan
        ensures { result ≡ record { since = now; mark = now; moved = 0 } }
    {
        Loan {
            since: now,
            mark: now,
            moved: 0,
        }
    }

    /// So many bytes moved at this time.
    pub fn count(&mut self, bytes: u64, now: u64)
        ensures { self.new ≡ moved_on bytes now self.old }
    {
        let moved = self.moved.saturating_add(bytes);
        if moved < BYTES {
            self.moved = moved;
        } else {
            self.mark = now;
            self.moved = 0;
        }
    }

    /// When it is over, if nothing moves.
    pub fn due(&self) -> u64
        ensures { result ≡ over_at self.now }
    {
        let slow = self.mark.saturating_add(SECOND);
        let least = self.since.saturating_add(LEAST);
        let most = self.since.saturating_add(MOST);
        slow.max(least).min(most)
    }
}
