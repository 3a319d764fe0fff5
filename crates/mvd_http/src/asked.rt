//! What a request asks.
ghost use Rattle.std.specs.Prelude.{◌≡◌, codes, option_copied, Ok, Err};
ghost use Rattle.std.specs.FinSet as set;
ghost use Rattle.std.specs.Str.{bytes_eq, is_utf8};
ghost use Rattle.mvd_dots.specs.Answer.{IsAnswer};
ghost use Rattle.mvd_dots.specs.declared.refusals.Refusal.TheVariants.{BadContext};
ghost use Rattle.mvd_docs.specs.Document.{document_of};
ghost use Rattle.mvd_print.specs.Place.{fault_json};
ghost use Rattle.mvd_http.specs.declared.question.Question.TheVariants.{Misread};
ghost use Rattle.mvd_http.specs.Asked.{key_in as key_read, IsQuestionOf, IsQuestionOfKey, IsOfKeys, IsOfList};
ghost use Rattle.mvd_http.specs.Asked.{IsOfPath, IsOfServer, IsQuestion, form_at as form_told, is_too_long as too_long};
ghost use Rattle.mvd_http.specs.Asked.{delete_question as deletes, put_or_place};
ghost use Rattle.mvd_http.specs.Asked.{put_question as puts, read_only as only_read, state_question, stop_asked, verb_of as verb_read};
ghost use Rattle.mvd_http.specs.Seen.{IsContext, IsSeen, IsWrite};

use crate::lists_asked::{keys_of, list_of};
use crate::options::spelling_in;
use crate::posted::{Form, listed_in};
use crate::question::{Methods, Question, Spelling, Verb};
use crate::target::{before, behind, without};
use crate::target_parts::key_in;
use crate::writing::is_list_of_changes;
use mvd_docs::Document;
use mvd_dots::{Context, Refusal};
use mvd_keys::Key;
use mvd_print::FaultPlace;
use mvd_wire::Request;
use std::alloc::Global;

/// The most bytes of a body that is no list of writes or states.
const MOST_BYTES: usize = 1_048_576;

/// What a request asks that has this method, this target, this field `Mvd-Context`, if any, and this body.
pub fn question_of(
    alloc: Global,
    method: &[u8],
    target: &[u8],
    context: Option<&[u8]>,
    body: &[u8],
) -> Result<Question, Refusal>
    ensures { IsQuestion method.now target.now (option_copied context.entry) body.now result }
{
    let path = before(target, b'?');
    let query = behind(target, b'?');
    let verb = verb_of(method);
    if is_too_long(path, body) {
        return Ok(Question::TooLong);
    }
    match without(path, b"/keys/") {
        Some(key) => of_key(alloc, verb, key, query, context, body),
        None => of_path(alloc, verb, path, query, body),
    }
}

/// Whether a body is longer than it may be there. None has more bytes than writes and states may have.
fn is_too_long(path: &[u8], body: &[u8]) -> bool
    ensures { result ≡ too_long path.now body.now }
{
    body.len() > MOST_BYTES && !is_list_of_changes(path)
}

pub(crate) fn verb_of(method: &[u8]) -> Verb
    ensures { result ≡ verb_read method.now }
{
    if method == b"GET".as_slice() || method == b"HEAD".as_slice() {
        return Verb::Read;
    }
    if method == b"PUT".as_slice() {
        return Verb::Put;
    }
    if method == b"DELETE".as_slice() {
        return Verb::Delete;
    }
    if method == b"POST".as_slice() {
        return Verb::Post;
    }
    Verb::Other
}

/// What is asked of a key.
fn of_key(
    alloc: Global,
    verb: Verb,
    key: &[u8],
    query: &[u8],
    context: Option<&[u8]>,
    body: &[u8],
) -> Result<Question, Refusal>
    ensures { IsQuestionOfKey verb key.now query.now (option_copied context.entry) body.now result }
{
    match verb {
        Verb::Read => get_of(alloc, key, query),
        Verb::Put => put_in(alloc, key, context, body),
        Verb::Delete => delete_in(alloc, key, context),
        Verb::Post | Verb::Other => Ok(Question::NotAllowed(Methods::OfKey)),
    }
}

fn get_of(alloc: Global, key: &[u8], query: &[u8]) -> Result<Question, Refusal>
    ensures { IsAnswer result (state_question key.now query.now) }
{
    let key = key_in(alloc, key)?;
    match spelling_in(query) {
        Spelling::Plain => Ok(Question::Ask(Request::Get(key))),
        Spelling::Quoted => Ok(Question::Texts(Request::Get(key))),
    }
}

fn put_in(
    alloc: Global,
    key: &[u8],
    context: Option<&[u8]>,
    body: &[u8],
) -> Result<Question, Refusal>
    ensures { IsWrite (Ok set.empty) (key_read key.now) (option_copied context.entry) (puts body.now) result }
{
    match key_in(alloc, key) {
        Ok(key) => match seen_or_none(alloc, context) {
            Ok(seen) => put_of(alloc, key, seen, body),
            Err(refusal) => Err(refusal),
        },
        Err(refusal) => Err(refusal),
    }
}

#[tactic(auto, using(crate::proofs::Texts::is_text, crate::proofs::Texts::is_no_text), unfolding(crate::specs::Paths::read_text))]
fn put_of(alloc: Global, key: Key, seen: Context, body: &[u8]) -> Result<Question, Refusal>
    ensures { IsAnswer result (puts body.now key seen) }
{
    match str::from_utf8(body) {
        Ok(text) => put_text(alloc, key, seen, text),
        Err(_) => misread(alloc, Refusal::BadDocument, ""),
    }
}

fn put_text(alloc: Global, key: Key, seen: Context, text: &str) -> Result<Question, Refusal>
    ensures { IsAnswer result (put_or_place text.now key seen (document_of text.now)) }
{
    match Document::read(alloc, text) {
        Ok(document) => Ok(Question::Ask(Request::Put(key, seen, document))),
        Err(Refusal::Memory) => Err(Refusal::Memory),
        Err(refusal) => misread(alloc, refusal, text),
    }
}

/// The question of a document that is refused so.
fn misread(alloc: Global, refusal: Refusal, text: &str) -> Result<Question, Refusal>
    ensures { IsAnswer result (Ok (Misread refusal (fault_json refusal text.now))) }
{
    let place = FaultPlace::find(alloc, refusal, text)?;
    Ok(Question::Misread(refusal, place))
}

fn delete_in(alloc: Global, key: &[u8], context: Option<&[u8]>) -> Result<Question, Refusal>
    ensures { IsWrite (Err BadContext) (key_read key.now) (option_copied context.entry) deletes result }
{
    match key_in(alloc, key) {
        Ok(key) => match seen(alloc, context) {
            Ok(seen) => Ok(Question::Ask(Request::Delete(key, seen))),
            Err(refusal) => Err(refusal),
        },
        Err(refusal) => Err(refusal),
    }
}

/// The context of the field, or the empty one.
fn seen_or_none(alloc: Global, context: Option<&[u8]>) -> Result<Context, Refusal>
    ensures { IsSeen (Ok set.empty) (option_copied context.entry) result }
{
    match context {
        Some(text) => context_of(alloc, text),
        None => Ok(Context::new(alloc)),
    }
}

/// The context of the field.
fn seen(alloc: Global, context: Option<&[u8]>) -> Result<Context, Refusal>
    ensures { IsSeen (Err BadContext) (option_copied context.entry) result }
{
    match context {
        Some(text) => context_of(alloc, text),
        None => Err(Refusal::BadContext),
    }
}

#[tactic(auto, using(crate::proofs::Texts::is_text, crate::proofs::Texts::is_no_text))]
fn context_of(alloc: Global, text: &[u8]) -> Result<Context, Refusal>
    ensures { IsContext (is_utf8 text.now) text.now result }
{
    match str::from_utf8(text) {
        Ok(text) => Context::read(alloc, text),
        Err(_) => Err(Refusal::BadContext),
    }
}

/// What is asked by a path that names no key.
fn of_path(
    alloc: Global,
    verb: Verb,
    path: &[u8],
    query: &[u8],
    body: &[u8],
) -> Result<Question, Refusal>
    ensures { IsOfPath (form_told path.now query.now) verb path.now query.now body.now result }
{
    match form_at(path, query) {
        Some(form) => of_list(alloc, form, verb, body),
        None => of_server(alloc, verb, path, query, body),
    }
}

/// What the lines are that are sent to a path, if it is of a list alone.
fn form_at(path: &[u8], query: &[u8]) -> Option<Form>
    ensures { result ≡ form_told path.now query.now }
{
    if path == b"/get".as_slice() {
        return Some(Form::Keys(spelling_in(query)));
    }
    if path == b"/push".as_slice() {
        return Some(Form::States);
    }
    None
}

/// What is asked by a list.
fn of_list(alloc: Global, form: Form, verb: Verb, body: &[u8]) -> Result<Question, Refusal>
    ensures { IsOfList form verb body.now result }
{
    match verb {
        Verb::Post => listed_in(alloc, form, body),
        _ => Ok(Question::NotAllowed(Methods::OfPost)),
    }
}

/// What is asked of the server, or of a list of the site.
fn of_server(
    alloc: Global,
    verb: Verb,
    path: &[u8],
    query: &[u8],
    body: &[u8],
) -> Result<Question, Refusal>
    ensures { IsOfServer (bytes_eq path.now (codes "/keys")) verb path.now query.now body.now result }
{
    if path == b"/keys".as_slice() {
        return of_keys(alloc, verb, query, body);
    }
    if path == b"/stop".as_slice() {
        return Ok(stop_of(verb));
    }
    read_only(alloc, verb, path, query)
}

/// What is asked of the server's end.
fn stop_of(verb: Verb) -> Question
    ensures { result ≡ stop_asked verb }
{
    match verb {
        Verb::Post => Question::Stop,
        _ => Question::NotAllowed(Methods::OfPost),
    }
}

/// What is asked of all keys.
fn of_keys(alloc: Global, verb: Verb, query: &[u8], body: &[u8]) -> Result<Question, Refusal>
    ensures { IsOfKeys verb query.now body.now result }
{
    match verb {
        Verb::Read => keys_of(alloc, query),
        Verb::Post => listed_in(alloc, Form::Writes, body),
        _ => Ok(Question::NotAllowed(Methods::OfKeys)),
    }
}

fn read_only(alloc: Global, verb: Verb, path: &[u8], query: &[u8]) -> Result<Question, Refusal>
    ensures { IsAnswer result (only_read verb path.now query.now) }
{
    match verb {
        Verb::Read => list_of(alloc, path, query),
        _ => Ok(Question::NotAllowed(Methods::OfList)),
    }
}
