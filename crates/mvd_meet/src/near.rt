//! A side of a session that is asked at hand: its requests are handed on as values, few at a time, and its replies come
//! as values.
ghost use Rattle.std.specs.Prelude.{◌≡◌, ◌≢◌, [], IfErr, IfOk, IsErr, None, OnErr, OnOk, map, true};
ghost use Rattle.mvd_dots.specs.declared.refusals.Refusal.TheVariants.{Memory};
ghost use Rattle.mvd_meet.specs.Inboxes.{awaits_pushes};
ghost use Rattle.mvd_meet.specs.Nears.{CannotAskNear, CannotHearNear, FewAreOut, NearAsks, NearGoesOn, NearHears};
ghost use Rattle.mvd_meet.specs.Nears.{NearTells, asked_near, asked_of_near, near_has_all, next_at, replies_at};
ghost use Rattle.mvd_meet.specs.Nears.{requests_at};
ghost use Rattle.mvd_remote.specs.Remotes.{requests_of};
ghost use Rattle.mvd_wire.specs.declared.request.Request.TheVariants.{Bucket, Get, Node, Push};

use crate::caller::sort_of;
use crate::inbox::Inbox;
use mvd_dots::Refusal;
use mvd_keys::{Key, KeyState, Path};
use mvd_peer::{Told, Window};
use mvd_wire::{Reply, Request};
use std::alloc::Global;

/// A side, and what came of it.
#[derive(Drop)]
pub struct Near {
    alloc: Global,
    /// What is to be handed on to it now.
    pub leaving: Vec<Request>,
    inbox: Inbox,
    /// The number of questions that were asked.
    questions: u64,
}

impl Near {
    /// A side that was asked nothing.
    pub fn new(alloc: Global) -> Near
        ensures leaving { requests_at result ≡ [] }
        ensures came { replies_at result ≡ [] }
        ensures asked { asked_of_near result ≡ None }
        ensures questions { asked_near result ≡ 0 }
    {
        Near {
            alloc,
            leaving: Vec::new(alloc),
            inbox: Inbox::new(alloc),
            questions: 0,
        }
    }

    /// The number of questions that were asked.
    pub fn questions(&self) -> u64
        ensures { result ≡ asked_near self.now }
    {
        self.questions
    }

    /// Whether pushes are asked, which may change it.
    pub fn is_pushed(&self) -> bool
        ensures { result ≡ awaits_pushes (asked_of_near self.now) }
    {
        self.inbox.is_pushed()
    }

    /// Whether all came that is due.
    pub fn has_all(&self) -> bool
        ensures is { result ≡ near_has_all self.now }
        // So no request is left that is to be handed on later.
        ensures went { result ≡ true → requests_at self.now ≡ next_at self.now }
    {
        self.inbox.has_all()
    }

    /// The requests of a window are to be handed on, and their replies are due. Where it is refused, it is as it was.
    pub fn ask(&mut self, window: Window) -> Result<(), Refusal>
        ensures asks { OnOk result (NearAsks window self.old self.new) }
        ensures err { OnErr result (self.new ≡ self.old) }
        // Nor is it asked before all that it was asked is handed on, and told.
        ensures again { asked_of_near self.old ≢ None → IsErr result }
        ensures waiting { next_at self.old ≢ [] → IsErr result }
        ensures cannot { IfErr result (CannotAskNear self.old) }
    {
        if !self.leaving.is_empty() {
            return Err(Refusal::BadBody);
        }
        let sort = sort_of(&window);
        let requests = requests_in(self.alloc, window)?;
        let count = requests.len() as u64;
        self.inbox.begin(sort, requests)?;
        self.questions = self.questions.saturating_add(count);
        Ok(())
    }

    /// The next requests are to be handed on now, as many as may be out, unless some are. Where there is no memory for
    /// that, it is as it was.
    pub fn go_on(&mut self) -> Result<(), Refusal>
        ensures goes { OnOk result (NearGoesOn self.old self.new) }
        // At most 64 are out, but all pushes of a window.
        ensures few { FewAreOut self.new }
        ensures err { OnErr result (self.new ≡ self.old) }
        ensures memory { IfErr result (λ refusal. refusal ≡ Memory) }
    {
        self.inbox.go_on(&mut self.leaving)
    }

    /// Takes the next reply. Where it is refused, it is as it was.
    pub fn hear(&mut self, reply: Reply) -> Result<(), Refusal>
        ensures hears { OnOk result (NearHears reply self.old self.new) }
        ensures err { OnErr result (self.new ≡ self.old) }
        ensures cannot { IfErr result (CannotHearNear reply self.old) }
    {
        self.inbox.hear(reply)
    }

    /// What came of what was asked, if something was.
    pub fn tell(&mut self) -> Option<Told>
        ensures { NearTells (asked_of_near self.old) self.old self.new result }
    {
        self.inbox.tell()
    }
}

/// The requests of a window.
fn requests_in(alloc: Global, window: Window) -> Result<Vec<Request>, Refusal>
    ensures requests { IfOk result (λ all. all.items ≡ requests_of window) }
    ensures memory { IfErr result (λ refusal. refusal ≡ Memory) }
{
    let mut all = Vec::with_capacity(alloc, window.count())?;
    match window {
        Window::Nodes(paths) => add_nodes(paths, &mut all)?,
        Window::Pages(pages) => add_pages(pages, &mut all)?,
        Window::Gets(keys) => add_gets(keys, &mut all)?,
        Window::Pushes(pairs) => add_pushes(pairs, &mut all)?,
    }
    Ok(all)
}

fn add_nodes(paths: Vec<Path>, all: &mut Vec<Request>) -> Result<(), Refusal>
    requires { all.old.items ≡ [] }
    ensures all { OnOk result (all.new.items ≡ map (λ path. Node path) paths.items) }
    ensures memory { IfErr result (λ refusal. refusal ≡ Memory) }
{
    for path in paths {
        all.push(Request::Node(path))?;
    }
    Ok(())
}

fn add_pages(pages: Vec<(Path, Option<Key>)>, all: &mut Vec<Request>) -> Result<(), Refusal>
    requires { all.old.items ≡ [] }
    ensures all { OnOk result (all.new.items ≡ map (λ q. Bucket q.0 q.1) pages.items) }
    ensures memory { IfErr result (λ refusal. refusal ≡ Memory) }
{
    for (path, after) in pages {
        all.push(Request::Bucket(path, after))?;
    }
    Ok(())
}

fn add_gets(keys: Vec<Key>, all: &mut Vec<Request>) -> Result<(), Refusal>
    requires { all.old.items ≡ [] }
    ensures all { OnOk result (all.new.items ≡ map (λ key. Get key) keys.items) }
    ensures memory { IfErr result (λ refusal. refusal ≡ Memory) }
{
    for key in keys {
        all.push(Request::Get(key))?;
    }
    Ok(())
}

fn add_pushes(pairs: Vec<(Key, KeyState)>, all: &mut Vec<Request>) -> Result<(), Refusal>
    requires { all.old.items ≡ [] }
    ensures all { OnOk result (all.new.items ≡ map (λ pair. Push pair.0 pair.1) pairs.items) }
    ensures memory { IfErr result (λ refusal. refusal ≡ Memory) }
{
    for (key, state) in pairs {
        all.push(Request::Push(key, state))?;
    }
    Ok(())
}
