//! The lines that were had, and those that were let go.
ghost use Rattle.std.specs.Prelude.{◌≡◌, ◌++◌, ◌∷◌, []};
ghost use Rattle.mvd_client.specs.Gone.{HasLine, LetsGo};
ghost use Rattle.mvd_client.specs.Refusals.{noted_in};

use crate::stored_side::Refusals;
use http_server::Log;
use mvd_remote::{Line, Remote};

/// The lines that were had, and those that were let go, each with its side as that was left, and with what a stored
/// site refused in the session over it: for proofs alone, and it takes no memory. Each line that was had ends here and
/// nowhere else.
#[derive(Drop)]
pub struct Gone<L: Line> {
    had: Log<L, ()>,
    lines: Log<Remote<L>, Refusals>,
}

impl<L: Line> Gone<L> {
    /// No line was had. Only who has the runtime can begin such notes: whoever is handed some has no others to dial by.
    pub fn new(_rt: &HostRuntime) -> Self
        ensures had { result.had.items ≡ [] }
        ensures gone { result.lines.items ≡ [] }
    {
        Gone {
            had: Log::new(),
            lines: Log::new(),
        }
    }

    /// Notes a line that was had.
    pub fn has(&mut self, line: &L)
        ensures { HasLine line.now self.old self.new }
    {
        self.had = self.had.and(line, &());
    }

    /// Lets a line go, which is closed so. No stored site was asked meanwhile.
    pub(crate) fn lets_go(&mut self, remote: Remote<L>)
        ensures { LetsGo remote [] self.old self.new }
    {
        self.lets_go_with(remote, Refusals::none());
    }

    /// Lets the line of a session go, in which a stored site refused this.
    pub(crate) fn lets_go_with(&mut self, remote: Remote<L>, refused: Refusals)
        ensures { LetsGo remote (noted_in refused) self.old self.new }
    {
        let_go(&mut self.lines, remote, refused);
    }
}

/// Notes what is dropped then, with a word on it. It is of any type: nothing else can be done with it here.
fn let_go<T: Drop, N: Drop>(log: &mut Log<T, N>, value: T, note: N)
    ensures { log.new.items ≡ log.old.items ++ (value, note) ∷ [] }
{
    *log = log.and(&value, &note);
    drop(value);
    drop(note);
}
