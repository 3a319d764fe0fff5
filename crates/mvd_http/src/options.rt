//! The options of lists: how many entries a page has, and what is told of them.
ghost use Rattle.std.specs.Prelude.{◌≡◌};
ghost use Rattle.mvd_dots.specs.Answer.{IsAnswer};
ghost use Rattle.mvd_http.specs.Options.{documents_in as documents_asked, is_set as set_to_one, limit_in as limit_read};
ghost use Rattle.mvd_http.specs.Options.{limit_of as limit_told, most_of as most_told, page_of as page_asked};
ghost use Rattle.mvd_http.specs.Options.{spelling_in as spelling_asked, wanted_in as wanted_read, wanted_with as wanted_so};

use crate::place::number_in;
use crate::question::{Question, Spelling, Wanted};
use crate::target::given;
use crate::target_parts::decoded;
use mvd_dots::Refusal;
use mvd_wire::Request;
use std::alloc::Global;

/// The most entries of a page, and the most with documents.
const MOST_ENTRIES: u64 = 1_000;

const MOST_DOCUMENTS: usize = 100;

/// Whether an option is `1`.
fn is_set(query: &[u8], name: &[u8]) -> bool
    ensures { result ≡ set_to_one name.now query.now }
{
    given(query, name) == b"1".as_slice()
}

/// How documents are told.
pub fn spelling_in(query: &[u8]) -> Spelling
    ensures { result ≡ spelling_asked query.now }
{
    if is_set(query, b"text=") {
        Spelling::Quoted
    } else {
        Spelling::Plain
    }
}

/// How documents are told, where this option asks for them.
pub fn documents_in(query: &[u8], name: &[u8]) -> Option<Spelling>
    ensures { result ≡ documents_asked name.now query.now }
{
    if is_set(query, name) {
        Some(spelling_in(query))
    } else {
        None
    }
}

fn limit_of(limit: Option<u64>) -> Result<usize, Refusal>
    ensures { result ≡ limit_told limit }
{
    match limit {
        Some(limit) if limit >= 1 && limit <= MOST_ENTRIES => Ok(limit as usize),
        _ => Err(Refusal::BadBody),
    }
}

/// How many entries a page has at most.
fn limit_in(alloc: Global, part: &[u8]) -> Result<usize, Refusal>
    ensures { IsAnswer result (limit_read part.now) }
{
    if part.is_empty() {
        return Ok(MOST_ENTRIES as usize);
    }
    let bytes = decoded(alloc, part)?;
    limit_of(number_in(bytes.as_slice()))
}

/// Fewer, where these documents are told.
fn most_of(documents: Option<Spelling>, limit: usize) -> usize
    ensures { result ≡ most_told documents limit }
{
    match documents {
        Some(_) => limit.min(MOST_DOCUMENTS),
        None => limit,
    }
}

fn wanted_with(limit: usize, query: &[u8]) -> Wanted
    ensures { result ≡ wanted_so limit query.now }
{
    let documents = documents_in(query, b"documents=");
    Wanted {
        live: is_set(query, b"live="),
        digests: is_set(query, b"digests="),
        documents,
        limit: most_of(documents, limit),
    }
}

/// What is told of a page.
pub fn wanted_in(alloc: Global, query: &[u8]) -> Result<Wanted, Refusal>
    ensures { IsAnswer result (wanted_read query.now) }
{
    let limit = limit_in(alloc, given(query, b"limit="))?;
    Ok(wanted_with(limit, query))
}

/// The page of a request, told as is wanted.
pub fn page_of(wanted: Wanted, request: Request) -> Question
    ensures { result ≡ page_asked wanted request }
{
    if wanted.digests || wanted.limit < MOST_ENTRIES as usize {
        return Question::Listed(request, wanted);
    }
    if wanted.live {
        return Question::Live(request);
    }
    Question::Ask(request)
}
