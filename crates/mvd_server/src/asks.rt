//! Many questions of one request: they are answered at once, from the site as it is, in a line each.
ghost use Rattle.std.specs.Prelude.{◌≡◌, ◌∷◌, ◌++◌, ℕ, List, [], IfOk, OnOk, Ok, length, string_bytes};
ghost use Rattle.mvd_replica.specs.Replicas.{site_of};
ghost use Rattle.mvd_server.specs.Questions.{TellsAsks, TellsBadLine, answer_line, ask_line, asks_of, asks_text};
ghost use Rattle.mvd_site.specs.Answer.{answer_from};
ghost use Rattle.mvd_web.specs.Inside.{web_of};

use crate::metrics::Counts;
use crate::responding::{answer_of, refuse, respond};
use http::StatusCode;
use mvd_conn::Right;
use mvd_dots::Refusal;
use mvd_http::{
    Content, Question, Spelling, push_bad_line, push_denied, push_later, push_refused, push_told,
};
use mvd_replica::Replica;
use mvd_site::{Prepared, Site};
use mvd_web::WebConnection;
use mvd_wire::{Reply, Request};
use sqlite::Alter;
use std::alloc::{AllocError, Global};

/// So many bytes of lines are told; then states, and the keys of buckets, are to be asked again.
const TOLD_MAX: usize = 1_048_576;

/// Tells the request that waits a line for each of its questions, as far as a right allows them.
pub(crate) fn tell_asks<S: Alter + Drop>(
    alloc: Global,
    right: Right,
    web: &mut WebConnection,
    replica: &Replica<S>,
    counts: &mut Counts,
)
    ensures { TellsAsks right (site_of replica.now) (web_of web.old).asked (web_of web.old) (web_of web.new) }
{
    let mut lines = String::new(alloc);
    let pushed = match web.asked() {
        Some(asked) => push_asked(alloc, &right, replica.site(), &asked.question, &mut lines),
        None => return,
    };
    match pushed {
        Ok(()) => {
            let answer = answer_of(StatusCode::OK, Content::Lines);
            respond(web, counts, answer, lines.as_str());
        }
        Err(refusal) => refuse(alloc, web, counts, refusal),
    }
}

/// Tells the request that waits which of its lines has another form.
pub(crate) fn tell_bad_line(alloc: Global, web: &mut WebConnection, line: u64, counts: &mut Counts)
    ensures { TellsBadLine line (web_of web.old) (web_of web.new) }
{
    let mut body = String::new(alloc);
    match push_bad_line(&mut body, line) {
        Ok(()) => {
            let answer = answer_of(StatusCode::BAD_REQUEST, Content::Json);
            respond(web, counts, answer, body.as_str());
        }
        Err(_) => refuse(alloc, web, counts, Refusal::Memory),
    }
}

fn push_asked(
    alloc: Global,
    right: &Right,
    site: &Site,
    question: &Result<Question, Refusal>,
    out: &mut String,
) -> Result<(), Refusal>
    requires { string_bytes out.old ≡ [] }
    ensures { OnOk result (asks_of right.now site.now question.now ≡ Ok (string_bytes out.new)) }
{
    match question {
        Ok(Question::Asks(asks, spelling)) => {
            push_asks(alloc, right, site, *spelling, asks.as_slice(), out)
        }
        _ => Err(Refusal::BadKind),
    }
}

fn push_asks(
    alloc: Global,
    right: &Right,
    site: &Site,
    spelling: Spelling,
    asks: &[Result<Request, Refusal>],
    out: &mut String,
) -> Result<(), Refusal>
    ensures { OnOk result
        (asks_text right.now site.now spelling (string_bytes out.old) asks.now ≡ Ok (string_bytes out.new)) }
{
    for ask in asks {
        push_ask(alloc, right, site, spelling, ask, out)?;
        push_line_end(out)?;
    }
    Ok(())
}

fn push_line_end(out: &mut String) -> Result<(), AllocError>
    ensures { OnOk result (string_bytes out.new ≡ string_bytes out.old ++ 10 ∷ []) }
{
    out.push_str("\n")
}

/// Puts the line of a question behind what was told: not the answer, where its right does not allow it.
fn push_ask(
    alloc: Global,
    right: &Right,
    site: &Site,
    spelling: Spelling,
    ask: &Result<Request, Refusal>,
    out: &mut String,
) -> Result<(), Refusal>
    ensures { OnOk result ((line : List ℕ)
        × (ask_line right.now site.now spelling (length (string_bytes out.old)) ask.now ≡ Ok line)
        × (string_bytes out.new ≡ string_bytes out.old ++ line)) }
{
    let request = match ask {
        Ok(request) => request,
        Err(refusal) => return Ok(push_refused(out, *refusal)?),
    };
    if right.allows(request) {
        return push_answer(alloc, site, spelling, request, out);
    }
    push_denied(alloc, request, out)
}

fn push_answer(
    alloc: Global,
    site: &Site,
    spelling: Spelling,
    request: &Request,
    out: &mut String,
) -> Result<(), Refusal>
    ensures { OnOk result ((line : List ℕ)
        × (answer_line site.now spelling (length (string_bytes out.old)) request.now ≡ Ok line)
        × (string_bytes out.new ≡ string_bytes out.old ++ line)) }
{
    if out.as_str().len() >= TOLD_MAX && push_later(alloc, request, out)? {
        return Ok(());
    }
    let reply = reply_to(site, request)?;
    push_told(alloc, request, spelling, &reply, out)
}

/// What the site answers to a question.
pub(crate) fn reply_to(site: &Site, request: &Request) -> Result<Reply, Refusal>
    ensures { IfOk result (λ reply. reply ≡ answer_from site.now.config site.now.states request.now) }
{
    match site.prepare(request)? {
        Prepared::Answer(reply) => Ok(reply),
        Prepared::Change(_) => Err(Refusal::BadKind),
    }
}
