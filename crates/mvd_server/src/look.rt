//! When a server looks at its file: a second after a commit.
ghost use Rattle.std.specs.Prelude.{◌≡◌, IfErr};
ghost use Rattle.mvd_dots.specs.declared.refusals.Refusal.TheVariants.{Store};
ghost use Rattle.mvd_input.specs.declared.fault.Fault.TheVariants.{Stopped};
ghost use Rattle.mvd_server.specs.Looking.{LooksAfter};

use mvd_dots::Refusal;
use mvd_hint::Watch;
use mvd_input::Fault;
use std::fs::Files;

/// So many milliseconds after a commit the file is looked at.
const PAUSE: u64 = 1_000;

/// When the file is looked at next, if it is, and how many commits there were when that was set.
#[derive(Clone, Copy)]
pub(crate) struct Look {
    pub due: Option<u64>,
    pub commits: u64,
}

impl Look {
    pub fn new() -> Look {
        Look {
            due: None,
            commits: 0,
        }
    }

    /// Looks at the file where that is due. Its harm ends the server.
    pub fn look<F: Files>(
        &mut self,
        rt: &F,
        watch: &mut Watch,
        now: u64,
        commits: u64,
    ) -> Result<(), Fault>
        ensures { IfErr result (λ fault. fault ≡ Stopped Store) }
    {
        if self.is_due(now, commits) && watch.look(rt).is_some() {
            return Err(Fault::Stopped(Refusal::Store));
        }
        Ok(())
    }

    /// Sets the time where something was committed, and gives whether it has come.
    fn is_due(&mut self, now: u64, commits: u64) -> bool
        ensures { LooksAfter now commits self.old self.new result }
    {
        if commits != self.commits && self.due.is_none() {
            self.due = Some(now.saturating_add(PAUSE));
            self.commits = commits;
        }
        match self.due {
            Some(due) if due <= now => {
                self.due = None;
                true
            }
            _ => false,
        }
    }
}
