//! A window that leaves by mail, and the replies to it, which are taken as they come.
ghost use Rattle.std.specs.Prelude.{◌≡◌, ◌≢◌, ◌≤◌, ◌<◌, ◌⊎◌, ◌++◌, [], IfErr, None, OnErr, OnOk, drop, false, length, true};
ghost use Rattle.mvd_dots.specs.declared.refusals.Refusal.TheVariants.{Memory};

use crate::asked::{Asked, Sort};
use crate::turns::{Turn, end_of, has_turns, kind_of, told_in, turn_at};
use bytes::BytesMut;
use http_server::Log;
use mvd_dots::Refusal;
use mvd_peer::{Told, room_for};
use mvd_remote::kept;
use mvd_wire::Reply;
use std::alloc::Global;
use std::marker::Model;
use std::mem;

/// The most bytes that wait to be taken: a part of the longest frame, and as many as come at once. Of a site of this
/// server's own whole frames come, 262,143 bytes and the longest reply at most.
const MOST: usize = 1_462_147;

/// What is to leave, what came, and the replies to the first requests of the window that left. Of their states so many
/// are held as are held at once.
#[derive(Drop)]
pub struct Post {
    alloc: Global,
    leaving: BytesMut,
    /// What came and was not taken.
    came: BytesMut,
    asked: Option<Asked>,
    replies: Vec<Result<Reply, Refusal>>,
    /// The bytes of the states in the replies.
    bytes: u64,
    /// Nothing more is asked, since that was refused.
    refused: Option<Refusal>,
    /// Nothing more comes, since reading failed.
    failed: bool,
    /// For proofs alone: what had come before each frame that was taken, and the frame's length.
    taken: Log<BytesMut, usize>,
}

impl Model for Post {
    ghost use Rattle.mvd_meet.specs.Posts.{PostValue};

    ghost Value = { PostValue };

    ghost use Rattle.mvd_meet.specs.Kept.{IsKeptPost, post_of};

    ghost view = { post_of };

    ghost invariant = { IsKeptPost };
}

impl Post {
    ghost use Rattle.mvd_meet.specs.Posts.{CannotSend, PostSends, PostTells, TookAll, asks_pushes, due_of, has_come};

    /// One by which nothing was asked.
    pub fn new(alloc: Global) -> Post
        ensures { result ≡
            record { leaving = []; came = []; waits = []; asked = None; answered = 0; refused = None } }
    {
        Post {
            alloc,
            leaving: BytesMut::new(alloc),
            came: BytesMut::new(alloc),
            asked: None,
            replies: Vec::new(alloc),
            bytes: 0,
            refused: None,
            failed: false,
            taken: Log::new(),
        }
    }

    /// The bytes that are to leave.
    pub fn leaving(&self) -> &[u8]
        ensures { result.now ≡ self.now.leaving }
    {
        self.leaving.as_slice()
    }

    /// So many of them left.
    pub fn left(&mut self, count: usize)
        requires { count ≤ length self.old.leaving }
        ensures { self.new ≡ record self.old { leaving = drop count self.old.leaving } }
    {
        self.leaving.advance(count);
    }

    /// Takes bytes that came, and the replies that are whole. Where memory is refused, none is taken.
    pub fn feed(&mut self, bytes: &[u8]) -> Result<(), Refusal>
        ensures ok { OnOk result (self.new.came ≡ self.old.came ++ bytes.now) }
        ensures err { OnErr result (self.new ≡ self.old) }
        ensures memory { IfErr result (λ refusal. refusal ≡ Memory) }
        ensures bounded { OnOk result (length self.new.waits ≤ 1462147) }
        ensures took { OnOk result (TookAll self.new) }
        ensures leaving { self.new.leaving ≡ self.old.leaving }
        ensures asked { self.new.asked ≡ self.old.asked }
    {
        if self.came.len().saturating_add(bytes.len()) > MOST {
            return Err(Refusal::Memory);
        }
        self.came.extend_from_slice(bytes)?;
        self.take();
        Ok(())
    }

    /// Nothing more comes, since reading failed.
    pub fn fail(&mut self)
        ensures { self.new ≡ self.old }
    {
        self.failed = true;
    }

    /// Whether pushes are asked, which may change the side.
    pub fn is_pushed(&self) -> bool
        ensures { result ≡ asks_pushes self.now.asked }
    {
        match &self.asked {
            Some(asked) => matches!(asked.sort, Sort::Pushes),
            None => false,
        }
    }

    /// Whether all came that is due, or what is no reply to it.
    pub fn has_come(&self) -> bool
        ensures { result ≡ has_come self.now }
    {
        let Some(asked) = &self.asked else {
            return true;
        };
        if self.refused.is_some() {
            return true;
        }
        let nones = asked.frames.nones();
        let next = self.replies.len();
        if next >= nones.len() {
            return true;
        }
        has_turns(&nones[next..], self.came.as_slice())
    }

    /// Whether nothing came that was not told, and nothing is asked.
    pub fn is_quiet(&self) -> bool
        ensures quiet { result ≡ true → self.now.came ≡ [] }
        ensures busy { result ≡ false → (self.now.asked ≢ None) ⊎ (self.now.came ≢ []) }
    {
        self.asked.is_none() && self.came.is_empty()
    }

    /// The frames of a window are to leave. It is refused with 33 while another one is not told.
    pub fn send(&mut self, asked: Asked) -> Result<(), Refusal>
        ensures sends { OnOk result (PostSends asked self.old self.new) }
        ensures err { OnErr result (self.new ≡ self.old) }
        ensures cannot { IfErr result (CannotSend self.old) }
    {
        if let Some(refusal) = self.refused {
            return Err(refusal);
        }
        if self.asked.is_some() {
            return Err(Refusal::BadBody);
        }
        let replies = room_for(self.alloc, asked.frames.nones().len())?;
        self.leaving.extend_from_slice(asked.frames.frames())?;
        self.replies = replies;
        self.bytes = 0;
        self.asked = Some(asked);
        self.take();
        Ok(())
    }

    /// Takes the replies that came, each in its turn.
    fn take(&mut self)
        ensures leaving { self.new.leaving ≡ self.old.leaving }
        ensures came { self.new.came ≡ self.old.came }
        ensures waits { length self.new.waits ≤ length self.old.waits }
        ensures asked { self.new.asked ≡ self.old.asked }
        ensures took { TookAll self.new }
    {
        'taking: while self.take_turn() {}
    }

    /// Takes the reply to the next request, if it came. Whether there may be another.
    fn take_turn(&mut self) -> bool
        ensures leaving { self.new.leaving ≡ self.old.leaving }
        ensures came { self.new.came ≡ self.old.came }
        ensures waits { length self.new.waits ≤ length self.old.waits }
        ensures asked { self.new.asked ≡ self.old.asked }
        ensures fewer { result ≡ true → due_of self.new < due_of self.old }
        ensures took { result ≡ false → TookAll self.new }
    {
        let Some(asked) = &self.asked else {
            return false;
        };
        if self.refused.is_some() {
            return false;
        }
        let nones = asked.frames.nones();
        let next = self.replies.len();
        if next >= nones.len() {
            return false;
        }
        let kind = kind_of(asked.sort);
        match turn_at(self.alloc, nones[next], kind, self.came.as_slice()) {
            Turn::Waits => false,
            Turn::Told(reply, size) => {
                if self.replies.push(kept(&mut self.bytes, reply)).is_err() {
                    self.refused = Some(Refusal::Memory);
                    return false;
                }
                self.taken = self.taken.and(&self.came, &size);
                self.came.advance(size);
                true
            }
            Turn::Breaks(refusal, size) => {
                self.refused = Some(refusal);
                self.taken = self.taken.and(&self.came, &size);
                self.came.advance(size);
                false
            }
        }
    }

    /// What came of the window that was asked, if one was.
    pub fn tell(&mut self) -> Option<Told>
        ensures { PostTells self.old.asked self.old self.new result }
    {
        let Asked { sort, frames } = self.asked.take()?;
        let replies = mem::replace(&mut self.replies, Vec::new(self.alloc));
        self.taken = Log::new();
        if self.refused.is_none() && frames.nones().len() <= replies.len() {
            return Some(told_in(self.alloc, sort, replies));
        }
        let refusal = end_of(self.refused, self.failed, self.came.as_slice());
        self.refused = Some(refusal);
        Some(Told::Refused(refusal))
    }
}
