//! A session of a side that is asked at hand and one that is asked by mail, step by step.
ghost use Rattle.std.specs.Prelude.{◌≡◌, ◌≢◌, false, true, IfErr, IfOk, Ok, OnOk};
ghost use Rattle.mvd_meet.specs.Callers.{has_all};
ghost use Rattle.mvd_meet.specs.Nears.{near_has_all};
ghost use Rattle.mvd_meet.specs.Meetings.{AskFails, AsksBoth, AsksNext, AsksPart, AsksUntil, EitherCannot};
ghost use Rattle.mvd_meet.specs.Meetings.{MeetingFails, MeetingHears, MeetingSteps, OpensMeeting, ReportsOn};

use crate::caller::Caller;
use crate::near::Near;
use mvd_sync::{MOST_QUESTIONS, Machine, Report, Step, SyncFault};
use std::alloc::Global;

/// How far a session is.
#[derive(Clone, Copy, PartialEq, Eq)]
pub enum Course {
    /// Something is due that did not come.
    Waits,
    /// Something was asked.
    Asks,
    /// It is done.
    Done,
}

/// A session.
#[derive(Drop)]
pub struct Meeting {
    machine: Machine,
    began: bool,
}

impl Meeting {
    /// A session in which nothing was asked. The site that is near has this number.
    pub fn new(alloc: Global, number: u32) -> Result<Meeting, SyncFault>
        ensures { IfOk result (OpensMeeting number MOST_QUESTIONS) }
    {
        let machine = Machine::new(alloc, Some(number), MOST_QUESTIONS)?;
        Ok(Meeting {
            machine,
            began: false,
        })
    }

    /// Takes what came of both sides, once all came, and asks what is next. As long as something is due, it does
    /// nothing. Where it ends by a fault, it has asked no more than is next.
    pub fn step(&mut self, near: &mut Near, far: &mut Caller) -> Result<Course, SyncFault>
        ensures waits { near_has_all near.old ≡ false → result ≡ Ok Course.Waits }
        ensures waits_too { has_all far.old ≡ false → result ≡ Ok Course.Waits }
        // Where nothing is due, it does not wait.
        ensures goes { near_has_all near.old ≡ true → has_all far.old ≡ true → result ≢ Ok Course.Waits }
        ensures steps { IfOk result (MeetingSteps self.old near.old far.old self.new near.new far.new) }
        ensures fails { IfErr result (MeetingFails self.old near.old far.old self.new near.new far.new) }
    {
        if !near.has_all() || !far.has_all() {
            return Ok(Course::Waits);
        }
        self.hear(near, far)?;
        self.ask(near, far)
    }

    /// Takes what both sides tell of what they were asked. At first nothing was.
    fn hear(&mut self, near: &mut Near, far: &mut Caller) -> Result<(), SyncFault>
        ensures { MeetingHears self.old near.old far.old self.new near.new far.new result }
    {
        if !self.began {
            self.began = true;
            return Ok(());
        }
        let mine = near.tell();
        let theirs = far.tell();
        self.machine.take(mine, theirs)
    }

    /// Asks what is next.
    fn ask(&mut self, near: &mut Near, far: &mut Caller) -> Result<Course, SyncFault>
        ensures asks { IfOk result (AsksNext self.old near.old far.old self.new near.new far.new) }
        ensures part { IfErr result (AsksPart self.old near.old far.old self.new near.new far.new) }
        ensures ended { IfErr result (AskFails self.old near.old far.old) }
        ensures goes { result ≢ Ok Course.Waits }
    {
        match self.machine.next()? {
            Some(step) => {
                ask_both(step, near, far)?;
                Ok(Course::Asks)
            }
            None => Ok(Course::Done),
        }
    }

    /// What a session did that is done.
    pub fn report(self) -> Report
        ensures { ReportsOn self result }
    {
        let Meeting { machine, began: _ } = self;
        machine.report()
    }
}

/// Asks each side what a step wants of it, the local one first.
fn ask_both(step: Step, near: &mut Near, far: &mut Caller) -> Result<(), SyncFault>
    ensures asks { OnOk result (AsksBoth step near.old far.old near.new far.new) }
    ensures until { IfErr result (λ fault. AsksUntil step fault near.old far.old near.new far.new) }
    ensures ended { IfErr result (EitherCannot near.old far.old) }
{
    let Step { local, peer } = step;
    if let Some(window) = local
        && let Err(refusal) = near.ask(window)
    {
        return Err(SyncFault::Local(refusal));
    }
    if let Some(window) = &peer
        && let Err(refusal) = far.ask(window)
    {
        return Err(SyncFault::Peer(refusal));
    }
    Ok(())
}
