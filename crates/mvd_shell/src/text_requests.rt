//! The requests that texts are.
ghost use Rattle.std.specs.Prelude.{◌≡◌, ◌↔◌, IsTrue, List, codes};
ghost use Rattle.mvd_dots.specs.Answer.{IsAnswer};
ghost use Rattle.mvd_shell.specs.Asked.{Exchange, IsWriteOfLine, Sees, delete_request, digit_in, find_asked, keys_request};
ghost use Rattle.mvd_shell.specs.Asked.{path_in, put_request, question, range_asked, row_request, rows_request};
ghost use Rattle.mvd_shell.specs.Asked.{shown_context as shown_by};
ghost use Rattle.mvd_shell.specs.Talk.{AnswersExchanges, AsksFirst};

use mvd_docs::{Document, Field, Term, ViewName};
use mvd_dots::{Context, Dot, Refusal};
use mvd_input::Ask;
use mvd_keys::{Key, Path, Place};
use mvd_peer::Endpoint;
use mvd_wire::{Prefix, Reply, Request};
use std::alloc::Global;

/// The request that the texts are, for its first page where it asks for a list. They are read from left to right.
pub fn request_of<A: Endpoint>(
    alloc: Global,
    asked: &mut A,
    ask: Ask<'_>,
) -> Result<Request, Refusal>
    ensures { AsksFirst A.answers asked.old asked.new ask.entry result }
{
    match ask {
        Ask::Put {
            key,
            context,
            document,
        } => put_in(alloc, asked, key, context, document),
        Ask::Delete { key, context } => delete_in(alloc, asked, key, context),
        _ => question_of(alloc, ask),
    }
}

/// The question that the texts are: a write is none.
fn question_of(alloc: Global, ask: Ask<'_>) -> Result<Request, Refusal>
    ensures { IsAnswer result (question ask.entry) }
{
    match ask {
        Ask::Put { .. } | Ask::Delete { .. } => Err(Refusal::BadKind),
        Ask::Get { key } => Ok(Request::Get(Key::read(alloc, key)?)),
        Ask::Row { view, term } => row_of(alloc, view, term),
        Ask::Node { path } => Ok(Request::Node(path_of(alloc, path)?)),
        Ask::Find { field, term } => find_of(alloc, field, term, None),
        Ask::Range { field, terms } => range_of(alloc, field, terms, None),
        Ask::Rows { view } => rows_of(alloc, view, None),
        Ask::Keys { prefix } => keys_of(alloc, prefix, None),
        Ask::Conflicts => Ok(Request::Conflicts(None)),
    }
}

fn put_in<A: Endpoint>(
    alloc: Global,
    asked: &mut A,
    key: &str,
    context: &str,
    document: &str,
) -> Result<Request, Refusal>
    ensures { (exchanges : List Exchange) × AnswersExchanges A.answers exchanges asked.old asked.new
        × IsWriteOfLine key.now context.now (put_request document.now) exchanges result }
{
    match Key::read(alloc, key) {
        Ok(key) => match context_of(alloc, asked, &key, context) {
            Ok(seen) => put_seen(alloc, key, seen, document),
            Err(refusal) => Err(refusal),
        },
        Err(refusal) => Err(refusal),
    }
}

fn put_seen(alloc: Global, key: Key, seen: Context, document: &str) -> Result<Request, Refusal>
    ensures { IsAnswer result (put_request document.now key seen) }
{
    let document = Document::read(alloc, document)?;
    Ok(Request::Put(key, seen, document))
}

fn delete_in<A: Endpoint>(
    alloc: Global,
    asked: &mut A,
    key: &str,
    context: &str,
) -> Result<Request, Refusal>
    ensures { (exchanges : List Exchange) × AnswersExchanges A.answers exchanges asked.old asked.new ×
        IsWriteOfLine key.now context.now delete_request exchanges result }
{
    match Key::read(alloc, key) {
        Ok(key) => match context_of(alloc, asked, &key, context) {
            Ok(seen) => Ok(Request::Delete(key, seen)),
            Err(refusal) => Err(refusal),
        },
        Err(refusal) => Err(refusal),
    }
}

/// The context of a text; `@` is the context that is shown for the key now.
fn context_of<A: Endpoint>(
    alloc: Global,
    asked: &mut A,
    key: &Key,
    text: &str,
) -> Result<Context, Refusal>
    ensures { (exchanges : List Exchange) × AnswersExchanges A.answers exchanges asked.old asked.new ×
        Sees key.now text.now exchanges result }
{
    if is_at(text) {
        shown_now(alloc, asked, key)
    } else {
        Context::read(alloc, text)
    }
}

/// Whether a text stands for what is shown.
fn is_at(text: &str) -> bool
    ensures { IsTrue result ↔ (text.now ≡ codes "@") }
{
    text == "@"
}

/// The context that is shown for a key now.
fn shown_now<A: Endpoint>(alloc: Global, asked: &mut A, key: &Key) -> Result<Context, Refusal>
    ensures { (exchanges : List Exchange) × AnswersExchanges A.answers exchanges asked.old asked.new ×
        Sees key.now (codes "@") exchanges result }
{
    let Ok(key) = key.copy(alloc) else {
        return Err(Refusal::Memory);
    };
    let reply = asked.ask(Request::Get(key));
    shown(reply)
}

/// The context of the state that is told.
fn shown(reply: Reply) -> Result<Context, Refusal>
    ensures { IsAnswer result (shown_by reply) }
{
    let context = context_in(&reply);
    drop(reply);
    context
}

fn context_in(reply: &Reply) -> Result<Context, Refusal>
    ensures { IsAnswer result (shown_by reply.now) }
{
    match reply {
        Reply::State(state) => state.context().copy(),
        Reply::Refused(refusal) => Err(*refusal),
        _ => Err(Refusal::BadKind),
    }
}

fn row_of(alloc: Global, view: &str, term: &str) -> Result<Request, Refusal>
    ensures { IsAnswer result (row_request view.now term.now) }
{
    let view = ViewName::read(alloc, view)?;
    Ok(Request::Row(view, Term::read(alloc, term)?))
}

/// The places of a term after one of them.
pub fn find_of(
    alloc: Global,
    field: &str,
    term: &str,
    after: Option<(Key, Dot)>,
) -> Result<Request, Refusal>
    ensures { IsAnswer result (find_asked field.now term.now after) }
{
    let field = Field::read(alloc, field)?;
    Ok(Request::Find(field, Term::read(alloc, term)?, after))
}

/// The places of the terms from one to another, after one of them.
pub fn range_of(
    alloc: Global,
    field: &str,
    terms: &str,
    after: Option<Place>,
) -> Result<Request, Refusal>
    ensures { IsAnswer result (range_asked field.now terms.now after) }
{
    let field = Field::read(alloc, field)?;
    let (from, to) = Term::read_pair(alloc, terms)?;
    Ok(Request::Range(field, from, to, after))
}

/// The rows of a view after that of a term.
pub fn rows_of(alloc: Global, view: &str, after: Option<Term>) -> Result<Request, Refusal>
    ensures { IsAnswer result (rows_request view.now after) }
{
    Ok(Request::Rows(ViewName::read(alloc, view)?, after))
}

/// The keys that begin with a prefix, or all where there is none, after one of them.
pub fn keys_of(alloc: Global, prefix: Option<&str>, after: Option<Key>) -> Result<Request, Refusal>
    ensures { IsAnswer result (keys_request prefix.entry after) }
{
    let prefix = Prefix::read(alloc, prefix.unwrap_or(""))?;
    Ok(Request::Keys(prefix, after))
}

/// The path of a text: `-`, or 1 to 3 lower-case hexadecimal digits.
fn path_of(alloc: Global, text: &str) -> Result<Path, Refusal>
    ensures { IsAnswer result (path_in text.now) }
{
    if text == "-" {
        return Path::new(alloc, &[]);
    }
    match text.as_bytes() {
        [a] => Path::new(alloc, &[digit_of(*a)]),
        [a, b] => Path::new(alloc, &[digit_of(*a), digit_of(*b)]),
        [a, b, c] => Path::new(alloc, &[digit_of(*a), digit_of(*b), digit_of(*c)]),
        _ => Err(Refusal::BadPath),
    }
}

/// The hexadecimal digit of a letter, or 255, which is none.
fn digit_of(letter: u8) -> u8
    ensures { result ≡ digit_in letter }
{
    match letter {
        b'0'..=b'9' => letter - b'0',
        b'a'..=b'f' => letter - b'a' + 10,
        _ => u8::MAX,
    }
}
