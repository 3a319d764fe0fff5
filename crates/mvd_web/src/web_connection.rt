//! One connection: from the bytes that came to the bytes that leave.
ghost use Rattle.std.specs.Prelude.{◌≡◌, ◌<◌, ◌≤◌, ◌↔◌, [], length, true, Some, None, IsTrue, OnErr, OnOk, option_copied};
ghost use Rattle.mvd_http.specs.Guard.{named_by};
ghost use Rattle.mvd_web.specs.Response.{origin_or_none, response_bytes};
ghost use Rattle.mvd_web.specs.declared.taken.Asked.{Asked};

use crate::desk::Desk;
use crate::response::{Manner, push_response};
use crate::taken::Asked;
use crate::web_ending::{ending_of, fault_in};
use bytes::BytesMut;
use http_server::{Config, Connection, State};
use mvd_conn::Passes;
use mvd_dots::Refusal;
use mvd_http::{Answer, Fault, Names};
use mvd_wire::Ending;
use std::alloc::{AllocError, Global};
use std::hash::RandomState;
use std::mem;

/// The most bytes that wait to leave: from there on no request is taken and no input is wanted.
pub const WAITS_MAX: usize = 262_144;

/// The most bytes of a body.
pub const BODY_MAX: usize = 2_097_152;

/// The bytes that came, the request that was taken of them and is not answered, and the bytes that wait to leave.
#[derive(Drop)]
pub struct WebConnection {
    alloc: Global,
    parser: Connection,
    /// The request that waits for its answer.
    asked: Option<Asked>,
    output: BytesMut,
    /// Memory that was taken for the response to a write, before the site is asked for it.
    spare: Option<Vec<u8>>,
    /// There is nothing to take before more bytes come.
    rests: bool,
    /// Why nothing more is taken and nothing more leaves.
    stopped: Option<Refusal>,
}

impl WebConnection {
    ghost use Rattle.mvd_web.specs.Ends.{fault_in as fault_told};
    ghost use Rattle.mvd_web.specs.Inside.{web_of};
    ghost use Rattle.mvd_web.specs.Web.{EndsInput, Feeds, IsNew, IsOver, Queues, RespondsTo, TakesRequest, WantsBytes};
    ghost use Rattle.mvd_web.specs.Web.{is_awake, is_closed, is_free as free_now, manner_asked, pushed};
    ghost use Rattle.mvd_web.specs.Web.{stopped_by, unasked, web_ending, web_sent};
    ghost use Rattle.mvd_web.specs.Steps.{Drops, StepsOn, PassesOn, ReadsOn};

    /// A connection on which nothing happened yet. The keys hide in which order a peer's fields are kept.
    pub fn new(alloc: Global, keys: RandomState) -> WebConnection
        ensures { IsNew (web_of result) }
    {
        // While anything waits there, the parser takes nothing further: so at most one request is taken at a time.
        let config = Config {
            max_body_len: BODY_MAX,
            max_pending: 0,
            ..Config::default()
        };
        WebConnection {
            alloc,
            parser: Connection::new(alloc, keys, config),
            asked: None,
            output: BytesMut::new(alloc),
            spare: None,
            rests: true,
            stopped: None,
        }
    }

    /// Whether more bytes are wanted: all that came was looked at, no request waits for its answer, and there is room
    /// for responses.
    pub fn wants_input(&self) -> bool
        ensures { IsTrue result ↔ WantsBytes (web_of self.now) }
    {
        self.rests && self.is_free() && self.parser.wants_read()
    }

    /// Whether a request may be taken.
    fn is_free(&self) -> bool
        ensures { result ≡ free_now (web_of self.now) }
    {
        self.stopped.is_none() && self.asked.is_none() && self.output.len() < WAITS_MAX
    }

    /// Whether there may be a request, or an end, in what came.
    pub fn is_busy(&self) -> bool
        ensures { result ≡ is_awake (web_of self.now) }
    {
        !self.rests && self.is_free()
    }

    /// Takes bytes that came. Where memory is refused, the connection stops.
    pub fn feed(&mut self, bytes: &[u8])
        ensures { Feeds (web_of self.old) bytes.now (web_of self.new) }
    {
        self.rests = false;
        let mut rest = bytes;
        for _piece in 0..bytes.len() {
            if rest.is_empty() {
                return;
            }
            if self.parser.read_from(&mut rest).is_err() {
                return self.stop(Refusal::Memory);
            }
        }
    }

    /// Tells that the input is at its end.
    pub fn end_input(&mut self)
        ensures { EndsInput (web_of self.old) (web_of self.new) }
    {
        self.rests = false;
        let mut none: &[u8] = &[];
        if self.parser.read_from(&mut none).is_err() {
            self.stop(Refusal::Memory);
        }
    }

    /// Ends the connection at once, for this cause.
    pub fn stop(&mut self, refusal: Refusal)
        ensures { web_of self.new ≡ stopped_by (web_of self.old) refusal }
    {
        if self.stopped.is_none() {
            self.stopped = Some(refusal);
        }
    }

    /// Takes the next request, where no other waits for its answer. Whether one was taken. Only one that comes
    /// in is read further than its head. Where none was taken, what the parser answers for itself is queued, and for a
    /// request that it refuses the response that names the fault.
    pub fn next(&mut self, passes: Option<&Passes>, names: &Names) -> bool
        ensures { TakesRequest (option_copied passes.entry) (named_by names.now)
            (web_of self.old) result (web_of self.new) }
    {
        if self.is_free() {
            return self.look(passes, names);
        }
        false
    }

    /// The same, where a request may be taken.
    fn look(&mut self, passes: Option<&Passes>, names: &Names) -> bool
        requires { free_now (web_of self.old) ≡ true }
        ensures { TakesRequest (option_copied passes.entry) (named_by names.now)
            (web_of self.old) result (web_of self.new) }
    {
        if self.advance(passes, names) {
            self.drop_pending();
            return true;
        }
        self.pass_on();
        false
    }

    /// Queues what is said where no request was read, if anything.
    fn pass_on(&mut self)
        ensures { PassesOn (web_of self.old) (web_of self.new) }
    {
        if self.parser.wants_write() {
            self.say();
        } else {
            self.rests = true;
        }
    }

    /// Queues what the parser answers for itself; for a request that it refuses, the response that names the fault.
    fn say(&mut self)
        requires { 0 < length (web_of self.old).heard.pending }
        ensures { PassesOn (web_of self.old) (web_of self.new) }
    {
        match fault_in(self.parser.state()) {
            Some(fault) => self.tell(fault),
            None => self.move_all(),
        }
    }

    /// Queues the response that names a fault, in place of what the parser says.
    fn tell(&mut self, fault: Fault)
        requires waits { 0 < length (web_of self.old).heard.pending }
        requires refused { fault_told (web_of self.old).heard.state ≡ Some fault }
        ensures { PassesOn (web_of self.old) (web_of self.new) }
    {
        self.drop_pending();
        let manner = Manner {
            is_last: true,
            is_head: false,
        };
        self.queue(fault.answer(), fault.body(), manner, no_origin());
    }

    /// Queues what the parser answers for itself. Where memory is refused, the connection stops.
    fn move_all(&mut self)
        requires waits { 0 < length (web_of self.old).heard.pending }
        requires open { fault_told (web_of self.old).heard.state ≡ None }
        ensures { PassesOn (web_of self.old) (web_of self.new) }
    {
        self.rests = false;
        if self.move_pending().is_err() {
            self.stop(Refusal::Memory);
        }
    }

    /// The request that waits for its answer.
    pub fn asked(&self) -> Option<&Asked>
        ensures { option_copied result ≡ (web_of self.now).asked }
    {
        self.asked.as_ref()
    }

    /// Queues the response to the request that waits for it. Where memory is refused, the connection stops.
    pub fn respond(&mut self, answer: Answer, body: &str)
        ensures { RespondsTo (web_of self.old).asked (web_of self.old) answer body.now (web_of self.new) }
    {
        let asked = self.take_asked();
        if let Some(asked) = &asked {
            self.answer_to(asked, answer, body);
        }
        drop(asked);
    }

    /// Queues the response to this request, which waits no longer.
    fn answer_to(&mut self, asked: &Asked, answer: Answer, body: &str)
        ensures { Queues (web_of self.old) (response_bytes answer body.now (manner_asked (web_of self.old) asked.now)
            (origin_or_none asked.now.origin)) (web_of self.new) }
    {
        let manner = Manner {
            is_last: self.is_last(),
            is_head: asked.is_head,
        };
        self.queue(answer, body, manner, origin_in(asked));
        self.give_spare();
    }

    /// Gives back what was taken for the response to a write. It is there for that response now.
    pub fn give_spare(&mut self)
        ensures { web_of self.new ≡ web_of self.old }
    {
        self.spare = None;
    }

    /// The request no longer waits.
    fn take_asked(&mut self) -> Option<Asked>
        ensures asked { result ≡ (web_of self.old).asked }
        ensures gone { web_of self.new ≡ unasked (web_of self.old) }
    {
        self.asked.take()
    }

    /// Whether no request is read after those that were.
    fn is_last(&self) -> bool
        ensures { result ≡ is_closed (web_of self.now).heard.state }
    {
        !matches!(self.parser.state(), State::Open)
    }

    /// Queues a response. Where memory is refused, nothing of it leaves.
    fn queue(&mut self, answer: Answer, body: &str, manner: Manner, origin: &[u8])
        ensures { Queues (web_of self.old) (response_bytes answer body.now manner origin.now) (web_of self.new) }
    {
        self.rests = false;
        if self.push(&answer, body, &manner, origin).is_err()
            && self.push_again(&answer, body, &manner, origin).is_err()
        {
            self.stop(Refusal::Memory);
        }
    }

    /// Puts a response behind what waits to leave: all of it, or nothing.
    fn push(
        &mut self,
        answer: &Answer,
        body: &str,
        manner: &Manner,
        origin: &[u8],
    ) -> Result<(), AllocError>
        ensures ok { OnOk result (web_of self.new ≡
            pushed (web_of self.old) (response_bytes answer.now body.now manner.now origin.now)) }
        ensures err { OnErr result (web_of self.new ≡ web_of self.old) }
    {
        let answer = *answer;
        let manner = *manner;
        push_response(self.alloc, &mut self.output, answer, body, manner, origin)
    }

    /// The same, where memory was refused: what was taken for a response is given back first.
    fn push_again(
        &mut self,
        answer: &Answer,
        body: &str,
        manner: &Manner,
        origin: &[u8],
    ) -> Result<(), AllocError>
        ensures ok { OnOk result (web_of self.new ≡
            pushed (web_of self.old) (response_bytes answer.now body.now manner.now origin.now)) }
        ensures err { OnErr result (web_of self.new ≡ web_of self.old) }
    {
        self.give_spare();
        self.push(answer, body, manner, origin)
    }

    /// The bytes that wait to leave.
    pub fn waiting(&self) -> &[u8]
        ensures { result.now ≡ (web_of self.now).waits }
    {
        self.output.as_slice()
    }

    /// Tells that so many of the waiting bytes left.
    pub fn sent(&mut self, count: usize)
        requires { count ≤ length (web_of self.old).waits }
        ensures { web_of self.new ≡ web_sent (web_of self.old) count }
    {
        self.output.advance(count);
    }

    /// How the connection ends, where no further request is taken.
    pub fn ending(&self) -> Option<Ending>
        ensures { result ≡ web_ending (web_of self.now) }
    {
        match self.stopped {
            Some(refusal) => Some(Ending::Stopped(refusal)),
            None => ending_of(self.parser.state()),
        }
    }

    /// Whether nothing is left to do.
    pub fn is_done(&self) -> bool
        ensures { IsTrue result ↔ IsOver (web_of self.now) }
    {
        if self.stopped.is_some() {
            return true;
        }
        self.parser.is_done() && self.asked.is_none() && self.output.is_empty()
    }

    /// Reads at most one request. Whether one was read.
    fn advance<'a>(&mut self, passes: Option<&'a Passes>, names: &'a Names) -> bool
        requires { (web_of self.old).asked ≡ None }
        ensures { ReadsOn (option_copied passes.entry) (named_by names.now) (web_of self.old) result (web_of self.new) }
    {
        let mut desk = Desk {
            alloc: self.alloc,
            passes,
            names,
            asked: None,
            spare: None,
        };
        self.parser.advance(&mut desk);
        mem::swap(&mut self.asked, &mut desk.asked);
        mem::swap(&mut self.spare, &mut desk.spare);
        drop(desk);
        self.asked.is_some()
    }

    /// What the parser answers for itself leaves as it is.
    fn move_pending(&mut self) -> Result<(), AllocError>
        ensures moved { StepsOn (web_of self.old) (web_of self.new) }
        ensures all { OnOk result ((web_of self.new).heard.pending ≡ []) }
    {
        while self.parser.wants_write() {
            let bytes = self.parser.output();
            let count = bytes.len();
            self.output.extend_from_slice(bytes)?;
            self.parser.sent(count);
        }
        Ok(())
    }

    /// What stands in place of a response does not leave.
    fn drop_pending(&mut self)
        ensures kept { Drops (web_of self.old) (web_of self.new) }
        ensures all { (web_of self.new).heard.pending ≡ [] }
    {
        while self.parser.wants_write() {
            let count = self.parser.output().len();
            self.parser.sent(count);
        }
    }
}

/// What stands for an origin where there is none.
fn no_origin() -> &'static [u8]
    ensures { result.now ≡ [] }
{
    &[]
}

/// The other origin whose page may read the response, or nothing.
fn origin_in(asked: &Asked) -> &[u8]
    ensures { result.now ≡ origin_or_none asked.now.origin }
{
    match &asked.origin {
        Some(origin) => origin.as_slice(),
        None => &[],
    }
}
