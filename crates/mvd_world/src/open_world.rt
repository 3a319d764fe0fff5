//! A world in which sessions are open: they run into each other, and among writers.
ghost use Rattle.std.specs.Prelude.{◌≡◌, ◌≤◌, ◌<◌, ◌++◌, ◌∷◌, [], IfErr, IfOk, OnErr, OnOk, length};
ghost use Rattle.mvd_dots.specs.declared.refusals.Refusal.TheVariants.{Memory};
ghost use Rattle.mvd_world.specs.Machine.{is_numbered, setting_of};
ghost use Rattle.mvd_world.specs.OpenWorlds.{ActsOpen, WindowsOn, IsOfSent, IsOpenWorld, LeadActs, LeadsWhere, no_scene};
ghost use Rattle.mvd_world.specs.declared.acts.Act.TheVariants.{Begin, Go, Take};
ghost use Rattle.mvd_world.specs.declared.acts.Came.TheVariants.{Took};

use crate::acts::{Act, Came};
use crate::steps::{Outcome, Step};
use crate::windows::ask_site;
use crate::worlds::{World, is_numbered};
use mvd_dots::Refusal;
use mvd_rows::Defs;
use mvd_sync::{MOST_QUESTIONS, Machine, SyncFault};
use std::alloc::Global;

/// A session of two sites, between two of its windows.
#[derive(Drop)]
pub struct OpenSession {
    local: u32,
    peer: u32,
    /// None where it has ended.
    machine: Option<Machine>,
}

/// A world, and the sessions that began in it, numbered from 1.
#[derive(Drop)]
pub struct OpenWorld {
    alloc: Global,
    world: World,
    sessions: Vec<OpenSession>,
}

impl OpenWorld {
    /// Sites that hold no key, as `World::new` makes them, and no session.
    pub fn new(alloc: Global, count: u32, max_keys: u32, defs: Defs) -> Result<OpenWorld, Refusal>
        requires some { 1 ≤ count }
        requires few { count ≤ 16 }
        requires low { 0 < max_keys }
        requires high { max_keys ≤ 1000000 }
        ensures world { IfOk result (λ made. IsOpenWorld (setting_of count max_keys defs) made no_scene) }
        ensures only { IfErr result (λ refusal. refusal ≡ Memory) }
    {
        Ok(OpenWorld {
            alloc,
            world: World::new(alloc, count, max_keys, defs)?,
            sessions: Vec::new(alloc),
        })
    }

    /// The world.
    pub fn world(&self) -> &World
        ensures { result.now ≡ self.now.world }
    {
        &self.world
    }

    /// Takes an act.
    pub fn act(&mut self, act: &Act) -> Came
        ensures { ActsOpen self.old self.new act.now result }
    {
        match act {
            Act::Take(step) => Came::Took(self.step(step)),
            Act::Begin { local, peer } => self.begin(*local, *peer),
            Act::Go { session } => self.go(*session),
        }
    }

    /// Takes one step of the world.
    pub fn step(&mut self, step: &Step) -> Outcome
        ensures { ActsOpen self.old self.new (Take step.now) (Took result) }
    {
        self.world.step(step)
    }

    /// A session between two sites begins, which asks each at most `MOST_QUESTIONS` questions.
    pub fn begin(&mut self, local: u32, peer: u32) -> Came
        ensures acts { ActsOpen self.old self.new (Begin local peer) result }
        // Nothing is asked.
        ensures same { self.new.world ≡ self.old.world }
    {
        if !self.world.may_meet(local, peer) {
            return Came::NoSuch;
        }
        let machine = match Machine::new(self.alloc, Some(local), MOST_QUESTIONS) {
            Ok(machine) => machine,
            Err(fault) => return Came::Failed(fault),
        };
        let session = OpenSession {
            local,
            peer,
            machine: Some(machine),
        };
        match self.append(session) {
            Ok(()) => Came::Began(self.sessions.len() as u64),
            Err(refusal) => Came::Failed(SyncFault::Local(refusal)),
        }
    }

    /// A session becomes the last.
    fn append(&mut self, session: OpenSession) -> Result<(), Refusal>
        ensures world { self.new.world ≡ self.old.world }
        ensures ok { OnOk result (self.new.sessions.items ≡ self.old.sessions.items ++ session ∷ []) }
        ensures memory { IfErr result (λ refusal. refusal ≡ Memory) }
        ensures err { OnErr result (self.new.sessions.items ≡ self.old.sessions.items) }
    {
        self.sessions.push(session)?;
        Ok(())
    }

    /// Whether a session of this number began.
    fn has(&self, number: u64) -> bool
        ensures { result ≡ is_numbered (length self.now.sessions.items) number }
    {
        is_numbered(self.sessions.len(), number)
    }

    /// A session that began goes on by one window, or tells that it is done.
    pub fn go(&mut self, number: u64) -> Came
        ensures { ActsOpen self.old self.new (Go number) result }
    {
        if !self.has(number) {
            return Came::NoSuch;
        }
        let session = &mut self.sessions[number as usize - 1];
        let Some(machine) = session.machine.take() else {
            return Came::NoSuch;
        };
        let (came, left) = go_on(
            self.alloc,
            &mut self.world,
            session.local,
            session.peer,
            machine,
        );
        session.machine = left;
        came
    }
}

/// One window of a session of two sites: what it came to, and how far the session then is, unless it has ended.
fn go_on(
    alloc: Global,
    world: &mut World,
    local: u32,
    peer: u32,
    machine: Machine,
) -> (Came, Option<Machine>)
    ensures { LeadsWhere world.old world.new (λ before. IsOfSent before.messages machine.stage)
        (λ setting before after. WindowsOn setting local peer machine before result.0 result.1 after) }
{
    let mut machine = machine;
    let step = match machine.next() {
        Ok(Some(step)) => step,
        Ok(None) => return (Came::Met(machine.report()), None),
        Err(fault) => return (Came::Failed(fault), None),
    };
    let mine = ask_site(alloc, world, local, step.local);
    let theirs = ask_site(alloc, world, peer, step.peer);
    match machine.take(mine, theirs) {
        Ok(()) => (Came::Went, Some(machine)),
        Err(fault) => (Came::Failed(fault), None),
    }
}

/// Takes acts in order, beginning with sites that hold no key.
pub fn run_acts(
    alloc: Global,
    count: u32,
    max_keys: u32,
    defs: Defs,
    acts: &[Act],
) -> Result<(OpenWorld, Vec<Came>), Refusal>
    requires some { 1 ≤ count }
    requires few { count ≤ 16 }
    requires low { 0 < max_keys }
    requires high { max_keys ≤ 1000000 }
    ensures happened { let s = setting_of count max_keys defs in IfOk result (LeadActs s acts.now) }
    ensures only { IfErr result (λ refusal. refusal ≡ Memory) }
{
    let mut world = OpenWorld::new(alloc, count, max_keys, defs)?;
    let mut cames = Vec::new(alloc);
    for act in acts {
        let came = world.act(act);
        cames.push(came)?;
    }
    Ok((world, cames))
}
