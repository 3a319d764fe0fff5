//! What a request asks of the server, or of a list of the site.
ghost use Rattle.std.specs.Prelude.{◌≡◌, ◌==◌, [], Ok, codes, length, map};
ghost use Rattle.std.specs.List.{slice_split};
ghost use Rattle.mvd_keys.specs.Path.{path_of};
ghost use Rattle.mvd_wire.specs.Codec.{Gives};
ghost use Rattle.mvd_http.specs.Asked.{digit_in};
ghost use Rattle.mvd_http.specs.Seen.{then_read};
ghost use Rattle.mvd_dots.specs.Answer.{IsAnswer};
ghost use Rattle.mvd_http.specs.Asked.{bound as bound_given, changes_question, conflicts_asked, index_asked, keys_question};
ghost use Rattle.mvd_http.specs.Asked.{list_asked, named_list as list_named, row_question, rows_question, told_asked, tree_asked};
ghost use Rattle.mvd_http.specs.Asked.{few_paths, node_or_keys, paths_asked, paths_or, under_path, view_asked};
ghost use Rattle.mvd_http.specs.Paths.{without as left_behind};

use crate::options::{documents_in, page_of, wanted_in};
use crate::place::place_if_given;
use crate::question::{Followed, Question, Spelling};
use crate::since::{root_if_given, wait_in};
use crate::target::{given, without, without_end};
use crate::target_parts::{
    decoded, field_in, key_if_given, path_in, path_of_bytes, prefix_in, term_if_given, term_in,
    view_in,
};
use mvd_dots::Refusal;
use mvd_keys::Path;
use mvd_wire::{Items, Request};
use std::alloc::Global;

/// The most paths of one request.
const PATHS_MAX: usize = 64;

pub fn list_of(alloc: Global, path: &[u8], query: &[u8]) -> Result<Question, Refusal>
    ensures { IsAnswer result (list_asked path.now query.now) }
{
    if path == b"/".as_slice() {
        return Ok(Question::Page);
    }
    if path == b"/root".as_slice() {
        return Ok(Question::Root);
    }
    if path == b"/metrics".as_slice() {
        return Ok(Question::Metrics);
    }
    if path == b"/health".as_slice() {
        return Ok(Question::Health);
    }
    told_of(alloc, path, query)
}

/// What is told of the keys and their changes.
fn told_of(alloc: Global, path: &[u8], query: &[u8]) -> Result<Question, Refusal>
    ensures { IsAnswer result (told_asked path.now query.now) }
{
    if path == b"/conflicts".as_slice() {
        return conflicts_of(alloc, query);
    }
    if path == b"/changes".as_slice() {
        return changes_of(alloc, query);
    }
    if path == b"/tree".as_slice() {
        return tree_of(alloc, query);
    }
    named_list(alloc, path, query)
}

/// The keys that are held.
pub fn keys_of(alloc: Global, query: &[u8]) -> Result<Question, Refusal>
    ensures { IsAnswer result (keys_question query.now) }
{
    let prefix = prefix_in(alloc, given(query, b"prefix="))?;
    let after = key_if_given(alloc, given(query, b"after="))?;
    let wanted = wanted_in(alloc, query)?;
    Ok(page_of(wanted, Request::Keys(prefix, after)))
}

fn conflicts_of(alloc: Global, query: &[u8]) -> Result<Question, Refusal>
    ensures { IsAnswer result (conflicts_asked query.now) }
{
    let after = key_if_given(alloc, given(query, b"after="))?;
    let wanted = wanted_in(alloc, query)?;
    Ok(page_of(wanted, Request::Conflicts(after)))
}

fn changes_of(alloc: Global, query: &[u8]) -> Result<Question, Refusal>
    ensures { IsAnswer result (changes_question query.now) }
{
    let since = root_if_given(alloc, given(query, b"since="))?;
    let wait = wait_in(alloc, given(query, b"wait="))?;
    let followed = Followed {
        prefix: prefix_in(alloc, given(query, b"prefix="))?,
        states: documents_in(query, b"states="),
    };
    Ok(Question::Changes(since, wait, followed))
}

/// A list of an index or a view.
fn named_list(alloc: Global, path: &[u8], query: &[u8]) -> Result<Question, Refusal>
    ensures { IsAnswer result (list_named (left_behind (codes "/index/") path.now) path.now query.now) }
{
    match without(path, b"/index/") {
        Some(field) => index_of(alloc, field, query),
        None => match without(path, b"/views/") {
            Some(view) => view_of(alloc, view, query),
            None => Ok(Question::Nowhere),
        },
    }
}

fn tree_of(alloc: Global, query: &[u8]) -> Result<Question, Refusal>
    ensures { IsAnswer result (tree_asked query.now) }
{
    let paths = given(query, b"paths=");
    if paths.is_empty() {
        return at_path(alloc, query);
    }
    nodes_of(alloc, &decoded(alloc, paths)?)
}

fn at_path(alloc: Global, query: &[u8]) -> Result<Question, Refusal>
    ensures { IsAnswer result (paths_or [] query.now) }
{
    let path = path_in(alloc, given(query, b"path="))?;
    keys_under(alloc, path, query)
}

/// The nodes of some paths, and the keys of buckets.
fn nodes_of(alloc: Global, paths: &[u8]) -> Result<Question, Refusal>
    ensures { IsAnswer result (few_paths (slice_split (λ c. c == 44) paths.now)) }
{
    if path_count(paths) > PATHS_MAX {
        return Err(Refusal::BadPath);
    }
    let asks = each_node_of(alloc, paths)?;
    Ok(Question::Asks(Items::new(asks), Spelling::Plain))
}

/// How many paths these are.
fn path_count(paths: &[u8]) -> usize
    ensures { result ≡ length (slice_split (λ c. c == 44) paths.now) }
{
    paths.split(|byte| *byte == b',').count()
}

fn each_node_of(alloc: Global, paths: &[u8]) -> Result<Vec<Result<Request, Refusal>>, Refusal>
    ensures { Gives (λ v. v.items) result (paths_asked (slice_split (λ c. c == 44) paths.now)) }
{
    let mut asks = Vec::new(alloc);
    for path in paths.split(|byte| *byte == b',') {
        let ask = node_of(alloc, path)?;
        asks.push(Ok(ask))?;
    }
    Ok(asks)
}

/// A node, or the keys of a bucket.
fn node_of(alloc: Global, path: &[u8]) -> Result<Request, Refusal>
    ensures { IsAnswer result (then_read (path_of (map digit_in path.now)) (λ p. Ok (node_or_keys p))) }
{
    let path = path_of_bytes(alloc, path)?;
    if path.digits().len() == 3 {
        return Ok(Request::Bucket(path, None));
    }
    Ok(Request::Node(path))
}

/// The keys of a bucket, or a node.
fn keys_under(alloc: Global, path: Path, query: &[u8]) -> Result<Question, Refusal>
    ensures { IsAnswer result (under_path path query.now) }
{
    if path.digits().len() != 3 {
        return Ok(Question::Ask(Request::Node(path)));
    }
    let after = key_if_given(alloc, given(query, b"after="))?;
    let wanted = wanted_in(alloc, query)?;
    Ok(page_of(wanted, Request::Bucket(path, after)))
}

/// A bound of an index: `is` stands for both.
fn bound<'a>(query: &'a [u8], name: &[u8]) -> &'a [u8]
    ensures { result.now ≡ bound_given name.now query.now }
{
    let both = given(query, b"is=");
    if both.is_empty() {
        return given(query, name);
    }
    both
}

fn index_of(alloc: Global, field: &[u8], query: &[u8]) -> Result<Question, Refusal>
    ensures { IsAnswer result (index_asked field.now query.now) }
{
    let field = field_in(alloc, field)?;
    let low = term_in(alloc, bound(query, b"from="))?;
    let high = term_in(alloc, bound(query, b"to="))?;
    let after = place_if_given(alloc, given(query, b"after="))?;
    let wanted = wanted_in(alloc, query)?;
    Ok(page_of(wanted, Request::Range(field, low, high, after)))
}

/// The rows of a view, or one of them.
fn view_of(alloc: Global, view: &[u8], query: &[u8]) -> Result<Question, Refusal>
    ensures { IsAnswer result (view_asked view.now query.now) }
{
    match without_end(view, b"/rows") {
        Some(name) => rows_of(alloc, name, query),
        None => match without_end(view, b"/row") {
            Some(name) => row_of(alloc, name, query),
            None => Ok(Question::Nowhere),
        },
    }
}

fn rows_of(alloc: Global, view: &[u8], query: &[u8]) -> Result<Question, Refusal>
    ensures { IsAnswer result (rows_question view.now query.now) }
{
    let view = view_in(alloc, view)?;
    let after = term_if_given(alloc, given(query, b"after="))?;
    let wanted = wanted_in(alloc, query)?;
    Ok(page_of(wanted, Request::Rows(view, after)))
}

fn row_of(alloc: Global, view: &[u8], query: &[u8]) -> Result<Question, Refusal>
    ensures { IsAnswer result (row_question view.now query.now) }
{
    let view = view_in(alloc, view)?;
    let term = term_in(alloc, given(query, b"is="))?;
    Ok(Question::Ask(Request::Row(view, term)))
}
