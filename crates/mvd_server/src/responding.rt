//! The responses to requests of HTTP, as they are queued.
ghost use Rattle.std.specs.Prelude.{◌≡◌, IfOk, IsTrue, Some, option_copied, string_bytes, true};
ghost use Rattle.mvd_http.specs.Answers.{IsToldAs};
ghost use Rattle.mvd_http.specs.declared.fields.Content.TheVariants.{Json};
ghost use Rattle.mvd_server.specs.Errands.{AwaitsChange};
ghost use Rattle.mvd_server.specs.Plans.{plain_answer};
ghost use Rattle.mvd_server.specs.Responding.{AnswersReply, AnswersWeb, RefusesWeb, TellsPushed, content_of as content_for};
ghost use Rattle.mvd_server.specs.Responding.{json_answer, refused_for, status_or_500};
ghost use Rattle.mvd_server.specs.Since.{IsLetStill};
ghost use Rattle.mvd_web.specs.Inside.{web_of};
ghost use Rattle.mvd_web.specs.Web.{RespondsTo};

use crate::metrics::Counts;
use http::StatusCode;
use mvd_conn::Passes;
use mvd_dots::Refusal;
use mvd_http::{
    Answer, Content, Question, live_response_of, misread_response, refused_response, response_of,
    texts_response_of,
};
use mvd_web::{Asked, Entry, WebConnection};
use mvd_wire::Reply;
use std::alloc::{AllocError, Global};

pub(crate) fn answer_of(status: StatusCode, content: Content) -> Answer
    ensures { result ≡ plain_answer status content }
{
    Answer {
        status,
        content,
        allow: None,
        asks_token: false,
        preflight: None,
    }
}

/// Queues the response to the request that waits for it, and counts it.
pub(crate) fn respond(web: &mut WebConnection, counts: &mut Counts, answer: Answer, body: &str)
    ensures { RespondsTo (web_of web.old).asked (web_of web.old) answer body.now (web_of web.new) }
{
    counts.note(answer.status.as_u16());
    web.respond(answer, body);
}

/// What a body is that is JSON, if there is one.
fn content_of(body: &str) -> Content
    ensures { result ≡ content_for body.now }
{
    if body.is_empty() {
        Content::Nothing
    } else {
        Content::Json
    }
}

/// The status of this number, or 500 where there is none.
fn status_of(number: u16) -> StatusCode
    ensures { result ≡ status_or_500 number }
{
    StatusCode::from_u16(number).unwrap_or(StatusCode::INTERNAL_SERVER_ERROR)
}

fn respond_json(web: &mut WebConnection, counts: &mut Counts, status: u16, body: &str)
    ensures { RespondsTo (web_of web.old).asked (web_of web.old) (json_answer status body.now) body.now
        (web_of web.new) }
{
    let answer = answer_of(status_of(status), content_of(body));
    respond(web, counts, answer, body);
}

/// Tells the request that waits that it is refused. Where there is no memory for that, the connection ends.
#[tactic(auto, using(crate::proofs::Answering::refuses))]
pub(crate) fn refuse(alloc: Global, web: &mut WebConnection, counts: &mut Counts, refusal: Refusal)
    ensures { RefusesWeb refusal (web_of web.old) (web_of web.new) }
{
    let mut body = String::new(alloc);
    match put_refusal(web.asked(), refusal, &mut body) {
        Ok(status) => respond_json(web, counts, status, body.as_str()),
        Err(_) => web.stop(Refusal::Memory),
    }
}

/// Puts the body of a refusal into `body`, and gives its status. Of a document that is refused it names the place.
fn put_refusal(
    asked: Option<&Asked>,
    refusal: Refusal,
    body: &mut String,
) -> Result<u16, AllocError>
    ensures { IfOk result (λ status. IsToldAs (refused_for (option_copied asked.entry) refusal) status
        (string_bytes body.new)) }
{
    let Some(asked) = asked else {
        return refused_response(body, refusal);
    };
    match &asked.question {
        Ok(Question::Misread(_, place)) => misread_response(body, refusal, place),
        _ => refused_response(body, refusal),
    }
}

/// Whether the request that waits asks what changed.
#[tactic(auto, using(crate::proofs::Answering::awaits_if))]
pub(crate) fn asks_changes(web: &WebConnection) -> bool
    ensures { IsTrue result → AwaitsChange (web_of web.now).asked }
{
    match web.asked() {
        Some(asked) => matches!(asked.question, Ok(Question::Changes(..))),
        None => false,
    }
}

/// Whether the request that waits has a right that one of these passes gives.
pub(crate) fn is_let_by(passes: &Passes, asked: Option<&Asked>) -> bool
    ensures { result ≡ true → IsLetStill (Some passes.now) (option_copied asked.entry) }
{
    match asked {
        Some(asked) => match &asked.entry {
            Entry::Open(right) => passes.grant(right),
            _ => false,
        },
        None => false,
    }
}

/// Tells a body that was put down, or why it was not.
pub(crate) fn tell_pushed(
    alloc: Global,
    web: &mut WebConnection,
    pushed: Result<(), Refusal>,
    body: &str,
    counts: &mut Counts,
)
    ensures { TellsPushed pushed body.now (web_of web.old) (web_of web.new) }
{
    match pushed {
        Ok(()) => respond(web, counts, answer_of(StatusCode::OK, Content::Json), body),
        Err(refusal) => refuse(alloc, web, counts, refusal),
    }
}

/// Queues the response to the request that waits, which is answered by this reply. Where there is no memory for it, it
/// is told with that which was taken before the site was asked.
#[tactic(auto, using(crate::proofs::Answering::answered, crate::proofs::Answering::answered_so))]
pub(crate) fn tell_reply(alloc: Global, web: &mut WebConnection, reply: &Reply, counts: &mut Counts)
    ensures { AnswersWeb (web_of web.old).asked reply.now (web_of web.old) (web_of web.new) }
{
    let mut body = String::new(alloc);
    let status = match web.asked() {
        Some(asked) => put_body(alloc, &asked.question, reply, &mut body),
        None => return,
    };
    match status {
        Ok(status) => respond_json(web, counts, status, body.as_str()),
        Err(_) => {
            web.give_spare();
            tell_last(alloc, web, reply, counts);
        }
    }
}

/// The same. Where there is no memory for the response to a change, which may be stored, the connection ends without
/// one.
#[tactic(auto, using(crate::proofs::Answering::answered))]
fn tell_last(alloc: Global, web: &mut WebConnection, reply: &Reply, counts: &mut Counts)
    ensures { AnswersWeb (web_of web.old).asked reply.now (web_of web.old) (web_of web.new) }
{
    let mut body = String::new(alloc);
    let status = match web.asked() {
        Some(asked) => put_body(alloc, &asked.question, reply, &mut body),
        None => return,
    };
    match status {
        Ok(status) => respond_json(web, counts, status, body.as_str()),
        Err(refusal) => web.stop(refusal),
    }
}

/// Puts the body of the response to a question into `body`, and gives its status.
fn put_body(
    alloc: Global,
    question: &Result<Question, Refusal>,
    reply: &Reply,
    body: &mut String,
) -> Result<u16, Refusal>
    ensures { IfOk result (λ status. AnswersReply question.now reply.now status (string_bytes body.new)) }
{
    match question {
        Ok(Question::Ask(request)) => Ok(response_of(alloc, request, reply, body)?),
        Ok(Question::Live(request)) => Ok(live_response_of(alloc, request, reply, body)?),
        Ok(Question::Texts(request)) => Ok(texts_response_of(alloc, request, reply, body)?),
        _ => Err(Refusal::BadKind),
    }
}
