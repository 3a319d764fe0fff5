//! Which passes the clients meet.
ghost use Rattle.std.specs.Prelude.{◌≡◌, Some, length};
ghost use Rattle.mvd_server.specs.Guarded.{AreSettled};
ghost use Rattle.mvd_server.specs.Talking.{Deeds, TalksDeeds, Talking, with_host};

use crate::metrics::Counts;
use crate::talks::Talks;
use mvd_conn::Passes;
use mvd_host::Host;

impl Talks {
    /// Has the clients of frames meet the passes that are known, where a token is asked of them.
    pub fn meet_all(&mut self, ready: &[u64])
        ensures deeds { TalksDeeds self.old self.new }
        ensures hand { self.new.hand ≡ self.old.hand }
        ensures settled { AreSettled self.new.passes ready.now (length ready.now) self.new.host }
    {
        if let Some(passes) = &self.passes {
            meet_each(&mut self.host, ready, passes);
        }
    }

    /// Other passes are known from now on, where tokens are asked for. Those that wait for a change are told that there is
    /// none yet: their tokens are looked at anew as they ask again.
    pub fn rotate(&mut self, passes: Passes, counts: &mut Counts)
        ensures { TalksDeeds self.old self.new }
    {
        self.end_waits(u64::MAX, counts);
        self.know(passes);
    }

    fn know(&mut self, passes: Passes)
        ensures { TalksDeeds self.old self.new }
    {
        if self.passes.is_some() {
            self.passes = Some(passes);
        }
    }
}

/// Has these clients meet passes.
fn meet_each(host: &mut Host, ready: &[u64], passes: &Passes)
    ensures deeds { (t : Talking) → t.passes ≡ Some passes.now → t.host ≡ host.old → Deeds t (with_host t host.new) }
    ensures settled { AreSettled (Some passes.now) ready.now (length ready.now) host.new }
{
    for number in ready {
        host.meet(*number, passes);
    }
}
