//! When something is due for which client.
ghost use Rattle.std.specs.Prelude.{◌≡◌};
ghost use Rattle.mvd_server.specs.Dues.{earlier_of};

use std::alloc::Global;
use std::collections::BTreeSet;
use std::time::Duration;

/// The times at which clients are looked after, in milliseconds, each with its client's number. The first is found at
/// once.
#[derive(Drop)]
pub(crate) struct Timers {
    entries: BTreeSet<(u64, u64)>,
}

impl Timers {
    pub fn new(alloc: Global) -> Timers {
        Timers {
            entries: BTreeSet::new(alloc),
        }
    }

    /// Sets a client's time. It is `false` where memory was refused.
    pub fn set(&mut self, due: u64, client: u64) -> bool {
        self.entries.insert((due, client)).is_ok()
    }

    pub fn remove(&mut self, due: u64, client: u64) {
        self.entries.remove(&(due, client));
    }

    /// The first time.
    pub fn next_due(&self) -> Option<u64> {
        match self.entries.first() {
            Some((due, _)) => Some(*due),
            None => None,
        }
    }

    /// Takes out the first client whose time has come.
    pub fn take_due(&mut self, now: u64) -> Option<u64> {
        match self.next_due() {
            Some(due) if due <= now => {}
            _ => return None,
        }
        match self.entries.pop_first() {
            Some((_, client)) => Some(client),
            None => None,
        }
    }
}

/// The earlier of two times.
pub(crate) fn earlier(first: Option<u64>, second: Option<u64>) -> Option<u64>
    ensures { result ≡ earlier_of first second }
{
    match (first, second) {
        (Some(first), Some(second)) => Some(first.min(second)),
        (Some(first), None) => Some(first),
        (None, second) => second,
    }
}

/// The whole milliseconds of a time.
pub(crate) fn millis_of(time: Duration) -> u64 {
    let whole = time.as_secs().saturating_mul(1_000);
    whole.saturating_add(u64::from(time.subsec_millis()))
}
