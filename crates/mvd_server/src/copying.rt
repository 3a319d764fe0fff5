//! Copies of what is asked over HTTP: the request stays with its client's connection, and the copy is asked.
ghost use Rattle.std.specs.Prelude.{◌≡◌, IfErr, IfOk, Ok, false, true};
ghost use Rattle.mvd_dots.specs.Answer.{IsAnswer};
ghost use Rattle.mvd_dots.specs.declared.refusals.Refusal.TheVariants as Refusal;
ghost use Rattle.mvd_server.specs.Batches.{is_web_request};
ghost use Rattle.mvd_wire.specs.declared.request.Request.TheVariants.{Bucket, Delete, Find, Keys, Push, Put, Range, Row};
ghost use Rattle.mvd_wire.specs.declared.request.Request.TheVariants.{Rows};

use mvd_docs::{Document, Field, Term, ViewName};
use mvd_dots::{Context, Dot, Refusal};
use mvd_keys::{Key, KeyState, Path, Place};
use mvd_wire::{Prefix, Request};
use std::alloc::Global;

/// A copy of a request that may be asked over HTTP. Any other is refused as `BadKind`.
pub(crate) fn copy_request(alloc: Global, request: &Request) -> Result<Request, Refusal>
    ensures copy { IfOk result (λ copy. (copy ≡ request.now) × (is_web_request request.now ≡ true)) }
    ensures err { IfErr result (λ e. is_web_request request.now ≡ true → e ≡ Refusal.Memory) }
    ensures kind { IfErr result (λ e. is_web_request request.now ≡ false → e ≡ Refusal.BadKind) }
{
    match request {
        Request::Get(key) => Ok(Request::Get(key.copy(alloc)?)),
        Request::Put(key, seen, document) => copy_put(alloc, key, seen, document),
        Request::Delete(key, seen) => copy_delete(alloc, key, seen),
        Request::Find(field, term, after) => copy_find(alloc, field, term, after),
        Request::Row(view, term) => copy_row(alloc, view, term),
        Request::Rows(view, after) => copy_rows(alloc, view, after),
        Request::Node(path) => Ok(Request::Node(copy_path(alloc, path)?)),
        Request::Bucket(path, after) => copy_bucket(alloc, path, after),
        Request::Push(key, state) => copy_push(alloc, key, state),
        Request::Range(field, from, to, after) => copy_range(alloc, field, from, to, after),
        Request::Keys(prefix, after) => copy_keys(alloc, prefix, after),
        Request::Conflicts(after) => Ok(Request::Conflicts(copy_key(alloc, after)?)),
        _ => Err(Refusal::BadKind),
    }
}

fn copy_put(
    alloc: Global,
    key: &Key,
    seen: &Context,
    document: &Document,
) -> Result<Request, Refusal>
    ensures { IsAnswer result (Ok (Put key.now seen.now document.now)) }
{
    let key = key.copy(alloc)?;
    let seen = seen.copy()?;
    Ok(Request::Put(key, seen, document.copy()?))
}

fn copy_delete(alloc: Global, key: &Key, seen: &Context) -> Result<Request, Refusal>
    ensures { IsAnswer result (Ok (Delete key.now seen.now)) }
{
    let key = key.copy(alloc)?;
    Ok(Request::Delete(key, seen.copy()?))
}

fn copy_push(alloc: Global, key: &Key, state: &KeyState) -> Result<Request, Refusal>
    ensures { IsAnswer result (Ok (Push key.now state.now)) }
{
    let key = key.copy(alloc)?;
    Ok(Request::Push(key, state.copy(alloc)?))
}

fn copy_find(
    alloc: Global,
    field: &Field,
    term: &Term,
    after: &Option<(Key, Dot)>,
) -> Result<Request, Refusal>
    ensures { IsAnswer result (Ok (Find field.now term.now after.now)) }
{
    let field = field.copy(alloc)?;
    let term = term.copy(alloc)?;
    Ok(Request::Find(field, term, copy_spot(alloc, after)?))
}

fn copy_row(alloc: Global, view: &ViewName, term: &Term) -> Result<Request, Refusal>
    ensures { IsAnswer result (Ok (Row view.now term.now)) }
{
    let view = view.copy(alloc)?;
    Ok(Request::Row(view, term.copy(alloc)?))
}

fn copy_rows(alloc: Global, view: &ViewName, after: &Option<Term>) -> Result<Request, Refusal>
    ensures { IsAnswer result (Ok (Rows view.now after.now)) }
{
    let view = view.copy(alloc)?;
    Ok(Request::Rows(view, copy_term(alloc, after)?))
}

fn copy_range(
    alloc: Global,
    field: &Field,
    from: &Term,
    to: &Term,
    after: &Option<Place>,
) -> Result<Request, Refusal>
    ensures { IsAnswer result (Ok (Range field.now from.now to.now after.now)) }
{
    let field = field.copy(alloc)?;
    let from = from.copy(alloc)?;
    let to = to.copy(alloc)?;
    Ok(Request::Range(field, from, to, copy_place(alloc, after)?))
}

fn copy_bucket(alloc: Global, path: &Path, after: &Option<Key>) -> Result<Request, Refusal>
    ensures { IsAnswer result (Ok (Bucket path.now after.now)) }
{
    let path = copy_path(alloc, path)?;
    Ok(Request::Bucket(path, copy_key(alloc, after)?))
}

fn copy_keys(alloc: Global, prefix: &Prefix, after: &Option<Key>) -> Result<Request, Refusal>
    ensures { IsAnswer result (Ok (Keys prefix.now after.now)) }
{
    let prefix = prefix.copy(alloc)?;
    Ok(Request::Keys(prefix, copy_key(alloc, after)?))
}

fn copy_path(alloc: Global, path: &Path) -> Result<Path, Refusal>
    ensures { IsAnswer result (Ok path.now) }
{
    Path::new(alloc, path.digits())
}

fn copy_key(alloc: Global, key: &Option<Key>) -> Result<Option<Key>, Refusal>
    ensures { IsAnswer result (Ok key.now) }
{
    match key {
        Some(key) => Ok(Some(key.copy(alloc)?)),
        None => Ok(None),
    }
}

fn copy_term(alloc: Global, term: &Option<Term>) -> Result<Option<Term>, Refusal>
    ensures { IsAnswer result (Ok term.now) }
{
    match term {
        Some(term) => Ok(Some(term.copy(alloc)?)),
        None => Ok(None),
    }
}

fn copy_spot(alloc: Global, spot: &Option<(Key, Dot)>) -> Result<Option<(Key, Dot)>, Refusal>
    ensures { IsAnswer result (Ok spot.now) }
{
    match spot {
        Some((key, dot)) => Ok(Some((key.copy(alloc)?, *dot))),
        None => Ok(None),
    }
}

fn copy_place(alloc: Global, place: &Option<Place>) -> Result<Option<Place>, Refusal>
    ensures { IsAnswer result (Ok place.now) }
{
    match place {
        Some(place) => Ok(Some(place.copy(alloc)?)),
        None => Ok(None),
    }
}
