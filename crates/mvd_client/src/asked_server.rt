//! A server as a shell asks it.
ghost use Rattle.std.specs.Prelude.{◌≡◌, ◌≢◌, ◌+◌, ◌-◌, ◌^◌, ◌||◌, ◌&&◌, Err, IfErr, OnOk, true, false, if◌then◌else◌, min, not, None};
ghost use Rattle.mvd_client.specs.AskedServer.{RepliesNoted, breaks_at, breaks_link, ended_by, ends_connection, has_frame, lost_of};
ghost use Rattle.mvd_client.specs.AskedServer.{may_be_sent, may_change, passed_on};
ghost use Rattle.mvd_client.specs.Talked.{SaysBye};
ghost use Rattle.mvd_dots.specs.declared.refusals.Refusal.TheVariants.{Memory};
ghost use Rattle.mvd_remote.specs.Lines.{line_of, refused_of};
ghost use Rattle.mvd_wire.specs.Requests.{request_frame};

use mvd_dots::Refusal;
use mvd_frames::encode_request;
use mvd_peer::Endpoint;
use mvd_remote::{Line, Remote};
use mvd_shell::{Losses, fits};
use mvd_wire::{Reply, Request};
use std::alloc::Global;

/// A server at the other end of a line, and what is known of the writes to which no reply came.
#[derive(Drop)]
pub struct AskedServer<L: Line> {
    alloc: Global,
    pub remote: Remote<L>,
    /// The link has broken: what is asked from now on is not sent.
    pub is_down: bool,
    /// How many writes may have been done, though no reply came.
    pub lost: u64,
    /// The refusal behind which the server ended the connection, if it did: each later request is refused so.
    pub ended: Option<Refusal>,
    /// The server was shown a token and let it in: then 38 is what that does not allow, and the connection goes on.
    pub shown: bool,
}

/// Reads how many writes of an `AskedServer` are lost.
pub struct Noted;

impl<L: Line> Losses<AskedServer<L>> for Noted {
    ghost lost = { lost_of };

    fn lost(asked: &AskedServer<L>) -> u64 {
        asked.lost
    }
}

impl<L: Line> AskedServer<L> {
    /// The server at the other end of a line over which no request went, but for a token that was shown.
    pub fn over(alloc: Global, line: L, shown: bool) -> Self
        ensures line { line_of result.remote ≡ line }
        ensures goes_on { refused_of result.remote ≡ None }
        ensures up { result.is_down ≡ false }
        ensures none_lost { result.lost ≡ 0 }
        ensures goes { result.ended ≡ None }
        ensures shown { result.shown ≡ shown }
    {
        AskedServer {
            alloc,
            remote: Remote::over(alloc, line),
            is_down: false,
            lost: 0,
            ended: None,
            shown,
        }
    }

    /// Why a request is not handed to the link: it has no frame, or memory is refused for that. A link that has broken
    /// is asked whatever it is, and says how it broke.
    fn framed(&self, request: &Request) -> Result<(), Refusal>
        ensures ok { OnOk result (self.now.is_down ≡ false → has_frame request.now ≡ true) }
        ensures none { IfErr result (λ refusal. refusal ≢ Memory → request_frame request.now ≡ Err refusal) }
    {
        if self.is_down {
            return Ok(());
        }
        match encode_request(self.alloc, request) {
            Ok(_frame) => Ok(()),
            Err(refusal) => Err(refusal),
        }
    }

    /// Notes that no reply came to a request, whether the link was handed that, and how it was refused.
    fn note(&mut self, is_write: bool, is_handed: bool, refusal: Refusal)
        ensures remote { self.new.remote ≡ self.old.remote }
        ensures ended { self.new.ended ≡ self.old.ended }
        ensures shown { self.new.shown ≡ self.old.shown }
        ensures down { self.new.is_down ≡ (self.old.is_down || breaks_at is_handed refusal) }
        ensures lost { self.new.lost ≡ (if is_write && (not self.old.is_down && may_be_sent is_handed refusal)
            then min (self.old.lost + 1) (2 ^ 64 - 1) else self.old.lost) }
    {
        let is_broken = is_handed && breaks_link(refusal);
        if is_write && !self.is_down && (refusal.number() == 20 || is_broken) {
            self.lost = self.lost.saturating_add(1);
        }
        self.is_down = self.is_down || is_broken;
    }

    /// Says Bye. Where the server has ended the connection, this is how.
    pub fn bye(&mut self) -> Result<(), Refusal>
        ensures { SaysBye L.Line self.old self.new result }
    {
        match self.ended {
            Some(refusal) => Err(refusal),
            None => self.remote.bye(),
        }
    }
}

impl<L: Line> Endpoint for AskedServer<L> {
    ghost answers = { RepliesNoted L.Line };

    fn ask(&mut self, request: Request) -> Reply {
        match self.ended {
            Some(refusal) => return Reply::Refused(refusal),
            None => {}
        }
        let is_write = may_change(&request);
        match self.framed(&request) {
            Ok(()) => {}
            Err(refusal) => {
                drop(request);
                self.note(is_write, false, refusal);
                return Reply::Refused(refusal);
            }
        }
        let told = self.remote.ask(&request);
        match told {
            Ok(reply) => {
                self.ended = ended_by(self.shown, &reply);
                let passed = passed_on(&request, reply);
                drop(request);
                passed
            }
            Err(refusal) => {
                drop(request);
                self.note(is_write, true, refusal);
                Reply::Refused(refusal)
            }
        }
    }
}

/// What is made of a reply: a page that is none of those asked for is 33.
fn passed_on(request: &Request, reply: Reply) -> Reply
    ensures { result ≡ passed_on request.now reply }
{
    if fits(request, &reply) {
        return reply;
    }
    drop(reply);
    Reply::Refused(Refusal::BadBody)
}

/// Whether a request may change what a site holds.
fn may_change(request: &Request) -> bool
    ensures { result ≡ may_change request.now }
{
    matches!(
        request,
        Request::Put(..) | Request::Delete(..) | Request::Push(..)
    )
}

/// Whether a link that refuses so a request that it was handed has broken.
fn breaks_link(refusal: Refusal) -> bool
    ensures { result ≡ breaks_link refusal }
{
    let number = refusal.number();
    30 <= number && number <= 36
}

/// By which refusal a reply says that the server has ended the connection, if it does.
fn ended_by(shown: bool, reply: &Reply) -> Option<Refusal>
    ensures { result ≡ ended_by shown reply.now }
{
    match reply {
        Reply::Refused(refusal) if ends_connection(shown, *refusal) => Some(*refusal),
        _ => None,
    }
}

/// Whether a server ends the connection behind a refusal, where it was shown a token or not.
fn ends_connection(shown: bool, refusal: Refusal) -> bool
    ensures { result ≡ ends_connection shown refusal }
{
    let number = refusal.number();
    number == 34 || number == 36 || number == 38 && !shown
}
