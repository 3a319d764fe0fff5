//! How long commits and requests take, by the clock.
use crate::histogram::Histogram;
use mvd_host::{KINDS, Tally};
use std::time::{Clock, Duration, Instant};

/// How long commits took, and requests by their kind, in the order of a tally. A commit takes from its round's start to its
/// end, or its share of that; a request from when the server woke up to the end of the round that answered it. The clock is
/// read twice for a round, whatever is asked in it.
#[derive(Drop)]
pub(crate) struct Timing {
    pub commits: Histogram,
    pub requests: [Histogram; KINDS],
    start: Instant,
    /// When the server woke up, when its last round began, and what the clock showed last: microseconds since its start.
    woke: u64,
    began: u64,
    last: u64,
    /// What was answered before the last round, and how many rounds and commits there were.
    answered: Tally,
    rounds: u64,
    commits_before: u64,
}

impl Timing {
    pub fn new(start: Instant) -> Timing {
        Timing {
            commits: Histogram::new(),
            requests: [Histogram::new(); KINDS],
            start,
            woke: 0,
            began: 0,
            last: 0,
            answered: Tally::new(),
            rounds: 0,
            commits_before: 0,
        }
    }

    /// The server woke up after so long.
    pub fn wake(&mut self, passed: Duration) {
        self.last = micros_of(passed);
        self.woke = self.last;
    }

    /// A round begins, before which there were so many that answered something, and so many commits.
    pub fn begin<N: Clock>(&mut self, rt: &N, rounds: u64, commits: u64) {
        self.read(rt);
        self.began = self.last;
        self.rounds = rounds;
        self.commits_before = commits;
    }

    /// A round ended.
    pub fn end<N: Clock>(&mut self, rt: &N, tally: &Tally, rounds: u64, commits: u64) {
        if rounds == self.rounds {
            return;
        }
        self.read(rt);
        let made = commits.saturating_sub(self.commits_before);
        if made > 0 {
            let took = self.last.saturating_sub(self.began);
            self.commits.note(took / made, made);
        }
        let took = self.last.saturating_sub(self.woke);
        for place in 0..KINDS {
            let before = self.answered.done[place].saturating_add(self.answered.refused[place]);
            let until = tally.done[place].saturating_add(tally.refused[place]);
            self.requests[place].note(took, until.saturating_sub(before));
        }
        self.answered = *tally;
    }

    /// A clock that cannot be read stands still.
    fn read<N: Clock>(&mut self, rt: &N) {
        if let Ok(passed) = self.start.elapsed(rt) {
            self.last = micros_of(passed);
        }
    }
}

/// The whole microseconds of a time.
fn micros_of(time: Duration) -> u64 {
    let whole = time.as_secs().saturating_mul(1_000_000);
    whole.saturating_add(u64::from(time.subsec_micros()))
}
