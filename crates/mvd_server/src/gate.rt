//! From a request of HTTP to what is asked of the site, and from the reply to the response.
ghost use Rattle.std.specs.Prelude.{ℕ, option_copied};
ghost use Rattle.mvd_http.specs.declared.fields.Content.TheVariants.{Json};
ghost use Rattle.mvd_http.specs.Guard.{named_by};
ghost use Rattle.mvd_server.specs.Admitted.{Decides};
ghost use Rattle.mvd_host.specs.AtHand.{AtHandValue};
ghost use Rattle.mvd_server.specs.Errands.{AsksAtHand, AsksNextOf, DoesPlan, StopsIf, TakesIf, TellsBatch, TellsOrWaits};
ghost use Rattle.mvd_server.specs.Plans.{IsFreePlan, IsPlanFor, IsPlanIf, TellsFault, TellsMethods};
ghost use Rattle.mvd_replica.specs.Replicas.{site_of};
ghost use Rattle.mvd_server.specs.Questions.{TellsText};
ghost use Rattle.mvd_server.specs.Responding.{not_admitted, token_answer};
ghost use Rattle.mvd_server.specs.Since.{followed_in, since_told};
ghost use Rattle.mvd_web.specs.Inside.{web_of};
ghost use Rattle.mvd_web.specs.Rights.{may_ask};
ghost use Rattle.mvd_web.specs.Web.{RespondsTo};

use crate::asks::{tell_asks, tell_bad_line};
use crate::at_once::{tell_health, tell_metrics, tell_root};
use crate::batch::Batch;
use crate::changes::{followed_by, push_since, root_to_wait_from};
use crate::copying::copy_request;
use crate::listings::tell_listed;
use crate::metrics::Counts;
use crate::responding::{answer_of, refuse, respond, tell_pushed};
use http::StatusCode;
use mvd_conn::{Passes, Right};
use mvd_dots::Refusal;
use mvd_host::{AtHand, Feed};
use mvd_http::{Answer, Content, Fault, Methods, Names, PAGE, Question};
use mvd_replica::Replica;
use mvd_web::{Asked, Entry, WebConnection, may_ask};
use mvd_wire::{Reply, Request};
use sqlite::Alter;
use std::alloc::Global;

const NOT_ADMITTED: &str = "{\"refused\":38,\"name\":\"NotAdmitted\"}";

/// What is done about a request.
#[derive(Drop)]
enum Plan {
    /// This is asked of the site.
    Ask(Request),
    /// These writes are.
    Writes(Batch),
    /// Its questions are answered at once, in lines, as far as a right allows them.
    Asks(Right),
    /// Its page is told at once.
    Listed,
    /// Its line of this number is told to have another form.
    BadLine(u64),
    /// It is answered by what the server keeps, maybe after so many seconds.
    Changes(Option<[u8; 32]>, u32),
    /// It is answered at once, by what the server keeps.
    Root,
    Metrics,
    Health,
    /// The server ends, where tokens are asked for.
    Stop,
    /// It is answered at once, by this.
    Told(Answer, &'static str),
    /// A token is asked for.
    NotAdmitted,
    Refused(Refusal),
}

/// What is left of a request that was taken.
#[derive(Drop)]
pub(crate) enum Rest {
    /// Its response was queued, or the site is asked.
    Nothing,
    /// The site is to be asked for these writes.
    Writes(Batch),
    /// It waits for a change of this root, for so many seconds.
    Waits([u8; 32], u32),
    /// The server is to end.
    Stops,
}

/// What is done about a request. Nothing is asked of the site, or told of it, for one that does not come in.
fn plan_of(alloc: Global, asked: &Asked) -> Plan
    ensures { Decides asked.now.entry asked.now.question result }
{
    match asked.entry {
        Entry::Open(right) => match &asked.question {
            Ok(question) => plan_if(alloc, right, question),
            Err(refusal) => Plan::Refused(*refusal),
        },
        Entry::Free => plan_free(&asked.question),
        Entry::HostMissing => fault(Fault::HostMissing, None),
        Entry::Stranger(cause) => fault(cause, None),
        Entry::Conditional => fault(Fault::PreconditionFailed, None),
        Entry::Preflight => methods_of(&asked.question),
        Entry::NoToken => Plan::NotAdmitted,
    }
}

/// What is done about a question of whoever shows no token.
fn plan_free(question: &Result<Question, Refusal>) -> Plan
    ensures { IsFreePlan question.now result }
{
    match question {
        Ok(Question::Page) => Plan::Told(answer_of(StatusCode::OK, Content::Html), PAGE),
        Ok(Question::Health) => Plan::Health,
        Ok(Question::TooLong) => fault(Fault::ContentTooLarge, None),
        _ => Plan::NotAdmitted,
    }
}

/// What is done about a question: nothing, where its right does not allow it.
fn plan_if(alloc: Global, right: Right, question: &Question) -> Plan
    ensures { IsPlanIf (may_ask right question.now) right question.now result }
{
    if may_ask(&right, question) {
        return plan_for(alloc, right, question);
    }
    Plan::Told(
        answer_of(StatusCode::FORBIDDEN, Content::Json),
        NOT_ADMITTED,
    )
}

/// What is done about a question of whoever may ask it.
fn plan_for(alloc: Global, right: Right, question: &Question) -> Plan
    ensures { IsPlanFor right question.now result }
{
    match question {
        Question::Ask(request) | Question::Live(request) | Question::Texts(request) => {
            match copy_request(alloc, request) {
                Ok(request) => Plan::Ask(request),
                Err(refusal) => Plan::Refused(refusal),
            }
        }
        Question::Many(writes) => match Batch::new(alloc, right, writes.as_slice()) {
            Ok(batch) => Plan::Writes(batch),
            Err(refusal) => Plan::Refused(refusal),
        },
        Question::Asks(..) => Plan::Asks(right),
        Question::Listed(..) => Plan::Listed,
        Question::BadLine(line) => Plan::BadLine(*line),
        Question::Changes(since, wait, _) => Plan::Changes(*since, *wait),
        Question::Page => Plan::Told(answer_of(StatusCode::OK, Content::Html), PAGE),
        Question::Root => Plan::Root,
        Question::Metrics => Plan::Metrics,
        Question::Health => Plan::Health,
        Question::Stop => Plan::Stop,
        Question::TooLong => fault(Fault::ContentTooLarge, None),
        Question::Misread(refusal, _) => Plan::Refused(*refusal),
        Question::Nowhere => fault(Fault::NotFound, None),
        Question::NotAllowed(methods) => fault(Fault::MethodNotAllowed, Some(*methods)),
    }
}

/// By which methods a page of another origin may ask what it asked so.
fn methods_of(question: &Result<Question, Refusal>) -> Plan
    ensures { TellsMethods question.now result }
{
    match question {
        Ok(Question::NotAllowed(methods)) => {
            let answer = Answer {
                preflight: Some(*methods),
                ..answer_of(StatusCode::NO_CONTENT, Content::Nothing)
            };
            Plan::Told(answer, "")
        }
        _ => fault(Fault::NotFound, None),
    }
}

/// What is told of a fault of HTTP's own.
fn fault(cause: Fault, allow: Option<Methods>) -> Plan
    ensures { TellsFault cause allow result }
{
    let answer = Answer {
        allow,
        ..answer_of(cause.status(), Content::Json)
    };
    Plan::Told(answer, cause.body())
}

/// Takes the next request of a client, where none waits for its answer. What the site is asked waits at hand for the
/// next round, and others are answered at once, or it is told what is left to do.
pub(crate) fn ask<S: Alter + Drop>(
    alloc: Global,
    passes: Option<&Passes>,
    names: &Names,
    hand: &mut AtHand,
    web: &mut WebConnection,
    number: u64,
    replica: &Replica<S>,
    changes: &Feed,
    counts: &mut Counts,
) -> Rest
    ensures { AsksNextOf (site_of replica.now) changes.now (option_copied passes.entry) (named_by names.now) number
        (web_of web.old) hand.old (web_of web.new) hand.new result }
{
    if !web.next(passes, names) {
        return Rest::Nothing;
    }
    let plan = match web.asked() {
        Some(asked) => plan_of(alloc, asked),
        None => return Rest::Nothing,
    };
    let is_guarded = passes.is_some();
    carry_out(
        alloc, plan, is_guarded, hand, web, number, replica, changes, counts,
    )
}

/// Does what is to be done about the request that waits.
fn carry_out<S: Alter + Drop>(
    alloc: Global,
    plan: Plan,
    is_guarded: bool,
    hand: &mut AtHand,
    web: &mut WebConnection,
    number: u64,
    replica: &Replica<S>,
    changes: &Feed,
    counts: &mut Counts,
) -> Rest
    ensures { DoesPlan (site_of replica.now) changes.now is_guarded number plan
        (web_of web.old) hand.old (web_of web.new) hand.new result }
{
    match plan {
        Plan::Ask(request) => {
            ask_site(alloc, request, hand, web, number, counts);
            Rest::Nothing
        }
        Plan::Writes(batch) => Rest::Writes(batch),
        Plan::Changes(since, wait) => {
            wait_or_tell(alloc, web, replica, changes, since, wait, counts)
        }
        Plan::Asks(right) => {
            tell_asks(alloc, right, web, replica, counts);
            Rest::Nothing
        }
        Plan::Listed => {
            tell_listed(alloc, web, replica, counts);
            Rest::Nothing
        }
        Plan::BadLine(line) => {
            tell_bad_line(alloc, web, line, counts);
            Rest::Nothing
        }
        Plan::Root => {
            tell_root(alloc, web, replica, counts);
            Rest::Nothing
        }
        Plan::Metrics => {
            tell_metrics(alloc, web, replica, counts);
            Rest::Nothing
        }
        Plan::Health => {
            tell_health(alloc, web, replica, counts);
            Rest::Nothing
        }
        Plan::Stop => stop_if(web, counts, is_guarded),
        Plan::Told(answer, body) => {
            respond(web, counts, answer, body);
            Rest::Nothing
        }
        Plan::NotAdmitted => {
            ask_token(web, counts);
            Rest::Nothing
        }
        Plan::Refused(refusal) => {
            refuse(alloc, web, counts, refusal);
            Rest::Nothing
        }
    }
}

/// Asks the site at hand, or tells why not.
fn ask_site(
    alloc: Global,
    request: Request,
    hand: &mut AtHand,
    web: &mut WebConnection,
    number: u64,
    counts: &mut Counts,
)
    ensures { AsksAtHand number request (web_of web.old) hand.old (web_of web.new) hand.new }
{
    if let Err(refusal) = hand.ask(number, request) {
        refuse(alloc, web, counts, refusal);
    }
}

/// Tells what changed since a root, or that the request waits where nothing did.
fn wait_or_tell<S: Alter + Drop>(
    alloc: Global,
    web: &mut WebConnection,
    replica: &Replica<S>,
    changes: &Feed,
    since: Option<[u8; 32]>,
    wait: u32,
    counts: &mut Counts,
) -> Rest
    ensures { TellsOrWaits changes.now (site_of replica.now).states since wait
        (web_of web.old) (web_of web.new) result }
{
    match root_to_wait_from(web.asked(), changes, since, wait) {
        Ok(Some(root)) => Rest::Waits(root, wait),
        Ok(None) => {
            tell_changes(alloc, web, replica, changes, since, counts);
            Rest::Nothing
        }
        Err(refusal) => {
            refuse(alloc, web, counts, refusal);
            Rest::Nothing
        }
    }
}

/// Tells that the server ends, where tokens are asked for.
fn stop_if(web: &mut WebConnection, counts: &mut Counts, is_guarded: bool) -> Rest
    ensures { StopsIf is_guarded (web_of web.old) (web_of web.new) result }
{
    if is_guarded {
        let answer = answer_of(StatusCode::ACCEPTED, Content::Nothing);
        respond(web, counts, answer, "");
        return Rest::Stops;
    }
    let cause = Fault::NotFound;
    respond(
        web,
        counts,
        answer_of(cause.status(), Content::Json),
        cause.body(),
    );
    Rest::Nothing
}

/// Tells that a token is asked for.
fn ask_token(web: &mut WebConnection, counts: &mut Counts)
    ensures { RespondsTo (web_of web.old).asked (web_of web.old) token_answer not_admitted (web_of web.new) }
{
    let answer = Answer {
        asks_token: true,
        ..answer_of(StatusCode::UNAUTHORIZED, Content::Json)
    };
    respond(web, counts, answer, NOT_ADMITTED);
}

/// Tells what changed since a root.
fn tell_changes<S: Alter + Drop>(
    alloc: Global,
    web: &mut WebConnection,
    replica: &Replica<S>,
    changes: &Feed,
    since: Option<[u8; 32]>,
    counts: &mut Counts,
)
    ensures { TellsText Json (since_told changes.now (site_of replica.now).states since (followed_in (web_of web.old).asked))
        (web_of web.old) (web_of web.new) }
{
    let mut body = String::new(alloc);
    let pushed = match followed_by(web.asked()) {
        Some(followed) => push_since(alloc, changes, replica, since, followed, &mut body),
        None => Err(Refusal::BadKind),
    };
    tell_pushed(alloc, web, pushed, body.as_str(), counts);
}

/// Puts down the line of a reply to one of the writes of a client, if there is a reply, and queues the response once all
/// lines are there.
#[tactic(auto, using(crate::proofs::Errands::tells_all, crate::proofs::Errands::tells_none, crate::proofs::Errands::tells_stop))]
pub(crate) fn answer_writes(
    web: &mut WebConnection,
    batch: &mut Batch,
    reply: Option<&Reply>,
    counts: &mut Counts,
)
    ensures { (n : ℕ) (hand hand' : AtHandValue) → TakesIf n (option_copied reply.entry) hand hand' →
        TellsBatch n (web_of web.old) batch.old hand (web_of web.new) batch.new hand' }
{
    match batch.tell(reply) {
        Ok(true) => respond(
            web,
            counts,
            answer_of(StatusCode::OK, Content::Lines),
            batch.lines(),
        ),
        Ok(false) => {}
        Err(refusal) => web.stop(refusal),
    }
}
