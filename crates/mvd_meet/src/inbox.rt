//! A window that is asked at hand: its requests go as values, few at a time, and its replies come as values.
ghost use Rattle.std.specs.Prelude.{◌≡◌, ◌≢◌, [], Err, IfErr, None, OnErr, OnOk, Ok, Some, false, length, true};
ghost use Rattle.mvd_dots.specs.declared.refusals.Refusal.TheVariants.{BadBody, Memory};
ghost use Rattle.mvd_remote.specs.LinkWindows.{IsOfKind};
ghost use Rattle.mvd_meet.specs.Posts.{kind_of};
ghost use Rattle.mvd_wire.specs.Replies.{reply_kind};

use crate::asked::{Due, Sort};
use crate::turns::told_in;
use mvd_dots::Refusal;
use mvd_peer::{Told, room_for};
use mvd_remote::kept;
use mvd_wire::{Reply, Request};
use std::alloc::Global;
use std::marker::Model;
use std::mem;

/// The most requests that are out: they went, and have no reply. A get weighs nothing in a round of a host, and its
/// reply may have 1,150,000 bytes. Pushes weigh there, and are stored together, so all of a window go at once.
const OUT_MAX: usize = 64;

/// What is due, the requests that go later, and the replies that came. Of their states so many are held as are held at
/// once.
#[derive(Drop)]
pub struct Inbox {
    alloc: Global,
    due: Option<Due>,
    later: Vec<Request>,
    replies: Vec<Result<Reply, Refusal>>,
    /// The bytes of the states in the replies.
    bytes: u64,
}

impl Model for Inbox {
    ghost use Rattle.mvd_meet.specs.Inboxes.{InboxValue};

    ghost Value = { InboxValue };

    ghost use Rattle.std.specs.Coded.{codes};
    ghost use Rattle.mvd_dots.specs.Context.{dot_set_code};
    ghost use Rattle.mvd_dots.specs.Dot.{dot_code};
    ghost use Rattle.mvd_keys.specs.State.{state_code};

    ghost coded = { Prim.hlevel (codes, dot_code, dot_set_code, state_code) };

    ghost use Rattle.mvd_meet.specs.KeptInbox.{IsKeptInbox, inbox_of};

    ghost view = { inbox_of };

    ghost invariant = { IsKeptInbox };
}

impl Inbox {
    ghost use Rattle.mvd_meet.specs.Inboxes.{AreFewOut, CannotBegin, CannotHear, GoesNext, HearsReply, InboxTells};
    ghost use Rattle.mvd_meet.specs.Inboxes.{awaits_pushes, has_replies, out_of, room_in};

    /// One in which nothing is due.
    pub fn new(alloc: Global) -> Inbox
        ensures { result ≡ record { asked = None; came = []; later = [] } }
    {
        Inbox {
            alloc,
            due: None,
            later: Vec::new(alloc),
            replies: Vec::new(alloc),
            bytes: 0,
        }
    }

    /// Whether all came that is due.
    pub fn has_all(&self) -> bool
        ensures is { result ≡ has_replies self.now }
        // So all went.
        ensures went { result ≡ true → self.now.later ≡ [] }
    {
        match &self.due {
            Some(due) => due.count <= self.replies.len(),
            None => true,
        }
    }

    /// Whether pushes are asked, which may change the side.
    pub fn is_pushed(&self) -> bool
        ensures { result ≡ awaits_pushes self.now.asked }
    {
        match &self.due {
            Some(due) => matches!(due.sort, Sort::Pushes),
            None => false,
        }
    }

    /// These requests of a window go later, and their replies are due. It is refused with 33 while another window is
    /// not told.
    pub fn begin(&mut self, sort: Sort, requests: Vec<Request>) -> Result<(), Refusal>
        ensures begins { OnOk result (self.new ≡ record {
          asked = Some (record { sort = sort; count = length requests.items });
          came = [];
          later = requests.items;
        }) }
        ensures err { OnErr result (self.new ≡ self.old) }
        ensures again { self.old.asked ≢ None → result ≡ Err BadBody }
        ensures cannot { IfErr result (CannotBegin self.old) }
    {
        if self.due.is_some() {
            return Err(Refusal::BadBody);
        }
        let count = requests.len();
        let replies = room_for(self.alloc, count)?;
        self.replies = replies;
        self.bytes = 0;
        self.later = requests;
        self.due = Some(Due { sort, count });
        Ok(())
    }

    /// The number of requests that are out.
    fn out(&self) -> usize
        ensures { result ≡ out_of self.now }
    {
        match &self.due {
            Some(due) => {
                let unheard = due.count.saturating_sub(self.replies.len());
                unheard.saturating_sub(self.later.len())
            }
            None => 0,
        }
    }

    /// The number of requests that may go.
    fn room(&self) -> usize
        ensures { result ≡ room_in self.now }
    {
        if self.is_pushed() {
            return self.later.len();
        }
        OUT_MAX.saturating_sub(self.out())
    }

    /// The next requests go, as many as may be out, unless some wait to be handed on.
    pub fn go_on(&mut self, leaving: &mut Vec<Request>) -> Result<(), Refusal>
        ensures goes { OnOk result (GoesNext self.old leaving.old.items self.new leaving.new.items) }
        ensures few { AreFewOut self.new }
        ensures err { OnErr result ((self.new ≡ self.old) × (leaving.new ≡ leaving.old)) }
        ensures memory { IfErr result (λ refusal. refusal ≡ Memory) }
    {
        let count = self.room().min(self.later.len());
        if !leaving.is_empty() {
            return Ok(());
        }
        let rest = self.later.split_off(count)?;
        *leaving = mem::replace(&mut self.later, rest);
        Ok(())
    }

    /// Takes the next reply.
    pub fn hear(&mut self, reply: Reply) -> Result<(), Refusal>
        ensures hears { OnOk result (HearsReply reply self.old self.new) }
        ensures err { OnErr result (self.new ≡ self.old) }
        ensures cannot { IfErr result (CannotHear reply self.old) }
    {
        let Some(due) = &self.due else {
            return Err(Refusal::BadBody);
        };
        if self.out() == 0 {
            return Err(Refusal::BadBody);
        }
        if !is_told_by(due.sort, &reply) {
            return Err(Refusal::BadKind);
        }
        self.replies.reserve(1)?;
        let reply = kept(&mut self.bytes, Ok(reply));
        self.replies.push_reserved(reply);
        Ok(())
    }

    /// What came of the window that was asked, if one was.
    pub fn tell(&mut self) -> Option<Told>
        ensures { InboxTells self.old.asked self.old self.new result }
    {
        let Due { sort, count } = self.due.take()?;
        let replies = mem::replace(&mut self.replies, Vec::new(self.alloc));
        self.later = Vec::new(self.alloc);
        self.bytes = 0;
        if count <= replies.len() {
            return Some(told_in(self.alloc, sort, replies));
        }
        Some(Told::Refused(Refusal::ReadFailed))
    }
}

/// Whether a reply is of the kind that is asked for, or a refusal.
fn is_told_by(sort: Sort, reply: &Reply) -> bool
    ensures is { result ≡ true → IsOfKind (kind_of sort) (Ok reply.now) }
    ensures other { result ≡ false → (reply_kind reply.now ≢ kind_of sort) × (reply_kind reply.now ≢ 0xEE) }
{
    match (sort, reply) {
        (Sort::Nodes, Reply::Digests(_))
        | (Sort::Pages, Reply::Keys(_, _))
        | (Sort::States, Reply::State(_))
        | (Sort::Pushes, Reply::Done)
        | (_, Reply::Refused(_)) => true,
        _ => false,
    }
}
