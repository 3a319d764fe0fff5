//! How long two sides wait until they meet again.
ghost use Rattle.std.specs.Prelude.{◌≡◌};
ghost use Rattle.mvd_meet.specs.Times.{ended_of, pause_after};

use mvd_sync::{Left, Report};

/// The most seconds until a session is tried again, unless sessions are further apart.
const MOST_PAUSE: u32 = 60;

/// How a session ended: it exchanged all that it could, it exchanged nothing and left keys, or it failed.
#[derive(Clone, Copy, PartialEq, Eq)]
pub enum Met {
    Well,
    Stuck,
    Failed,
}

impl Met {
    /// How a session ended that has this report.
    pub fn with(report: &Report) -> Met
        ensures { result ≡ ended_of report.now }
    {
        if report.keys == 0 && report.refused > 0 {
            Met::Stuck
        } else {
            Met::Well
        }
    }
}

/// How the last session ended, and the pause after it, in seconds.
#[derive(Clone, Copy)]
pub struct Pace {
    pub last: Met,
    pub pause: u32,
}

impl Pace {
    /// Before the first session.
    pub fn new() -> Pace
        ensures { result ≡ record { last = Met.Well; pause = 0 } }
    {
        Pace {
            last: Met::Well,
            pause: 0,
        }
    }

    /// The pause after a session that ended so, where sessions are as many seconds apart that end well. It doubles in a
    /// row of sessions that ended badly.
    pub fn after(&mut self, ended: Met, every: u32) -> u32
        ensures pause { result ≡ pause_after ended self.old every }
        ensures noted { self.new ≡ record { last = ended; pause = result } }
    {
        let most = every.max(MOST_PAUSE);
        let pause = match (ended, self.last) {
            (Met::Well, _) => every,
            (Met::Stuck, Met::Stuck) | (Met::Failed, Met::Failed) => {
                self.pause.saturating_mul(2).min(most)
            }
            (Met::Stuck, _) => every.saturating_mul(2).min(most),
            (Met::Failed, _) => 1,
        };
        self.last = ended;
        self.pause = pause;
        pause
    }
}

/// Whether a key stands among others, refused by the same side and in the same way.
pub fn is_among(left: &Left, others: &[Left]) -> bool {
    others.iter().any(|other| is_same(left, other))
}

fn is_same(first: &Left, second: &Left) -> bool {
    first.key == second.key && first.side == second.side && first.refusal == second.refusal
}
