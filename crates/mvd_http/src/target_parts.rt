//! Parts of a target, with their escapes undone.
ghost use Rattle.std.specs.Prelude.{◌≡◌, map, IfOk, IsOkUnless};
ghost use Rattle.percent_encoding.specs.Percent.{percent_decode};
ghost use Rattle.mvd_dots.specs.Answer.{IsAnswer};
ghost use Rattle.mvd_dots.specs.declared.refusals.Refusal.TheVariants.{BadBody, BadKey, BadTerm, Memory};
ghost use Rattle.mvd_dots.specs.declared.refusals.Refusal.TheVariants.{NoIndex, NoView};
ghost use Rattle.mvd_docs.specs.Name.{field_of, view_name_of};
ghost use Rattle.mvd_docs.specs.Term.{term_of_json};
ghost use Rattle.mvd_keys.specs.Key.{key_of_text};
ghost use Rattle.mvd_keys.specs.Path.{path_of};
ghost use Rattle.mvd_wire.specs.Prefix.{prefix_of_text};
ghost use Rattle.mvd_http.specs.Paths.{read_text};
ghost use Rattle.mvd_http.specs.Asked.{digit_in, else_refused, field_named_in as field_read, if_given, key_in as key_read};
ghost use Rattle.mvd_http.specs.Asked.{path_asked as path_read, prefix_in as prefix_read, term_in as term_read};
ghost use Rattle.mvd_http.specs.Asked.{view_named_in as view_read};

use mvd_docs::{Field, Term, ViewName};
use mvd_dots::Refusal;
use mvd_keys::{Key, Path};
use mvd_wire::Prefix;
use percent_encoding::percent_decode;
use std::alloc::Global;

/// The bytes of a part, with its escapes undone.
pub fn decoded(alloc: Global, part: &[u8]) -> Result<Vec<u8>, Refusal>
    ensures bytes { IfOk result (λ bytes. bytes.items ≡ percent_decode part.now) }
    ensures memory { IsOkUnless result Refusal.Memory }
{
    let mut bytes = Vec::new(alloc);
    percent_decode(part).append_to(&mut bytes)?;
    Ok(bytes)
}

#[tactic(auto, using(crate::proofs::Texts::is_text, crate::proofs::Texts::is_no_text), unfolding(crate::specs::Paths::read_text))]
pub fn key_of(alloc: Global, bytes: &[u8]) -> Result<Key, Refusal>
    ensures { IsAnswer result (read_text key_of_text BadKey bytes.now) }
{
    match str::from_utf8(bytes) {
        Ok(text) => Key::read(alloc, text),
        Err(_) => Err(Refusal::BadKey),
    }
}

#[tactic(auto, using(crate::proofs::Texts::is_text, crate::proofs::Texts::is_no_text), unfolding(crate::specs::Paths::read_text))]
pub fn term_of(alloc: Global, bytes: &[u8]) -> Result<Term, Refusal>
    ensures { IsAnswer result (read_text term_of_json BadTerm bytes.now) }
{
    match str::from_utf8(bytes) {
        Ok(text) => Term::read(alloc, text),
        Err(_) => Err(Refusal::BadTerm),
    }
}

#[tactic(auto, using(crate::proofs::Texts::is_text, crate::proofs::Texts::is_no_text), unfolding(crate::specs::Paths::read_text))]
fn prefix_of(alloc: Global, bytes: &[u8]) -> Result<Prefix, Refusal>
    ensures { IsAnswer result (read_text prefix_of_text BadKey bytes.now) }
{
    match str::from_utf8(bytes) {
        Ok(text) => Prefix::read(alloc, text),
        Err(_) => Err(Refusal::BadKey),
    }
}

/// A text that names no field is refused as a field that has no index.
fn field_named(alloc: Global, text: &str) -> Result<Field, Refusal>
    ensures { IsAnswer result (else_refused NoIndex (field_of text.now)) }
{
    match Field::read(alloc, text) {
        Ok(field) => Ok(field),
        Err(Refusal::Memory) => Err(Refusal::Memory),
        Err(_) => Err(Refusal::NoIndex),
    }
}

/// A text that names no view is refused as the name of none.
fn view_named(alloc: Global, text: &str) -> Result<ViewName, Refusal>
    ensures { IsAnswer result (else_refused NoView (view_name_of text.now)) }
{
    match ViewName::read(alloc, text) {
        Ok(view) => Ok(view),
        Err(Refusal::Memory) => Err(Refusal::Memory),
        Err(_) => Err(Refusal::NoView),
    }
}

#[tactic(auto, using(crate::proofs::Texts::is_text, crate::proofs::Texts::is_no_text), unfolding(crate::specs::Paths::read_text))]
fn field_of_bytes(alloc: Global, bytes: &[u8]) -> Result<Field, Refusal>
    ensures { IsAnswer result (read_text (λ t. else_refused NoIndex (field_of t)) NoIndex bytes.now) }
{
    match str::from_utf8(bytes) {
        Ok(text) => field_named(alloc, text),
        Err(_) => Err(Refusal::NoIndex),
    }
}

#[tactic(auto, using(crate::proofs::Texts::is_text, crate::proofs::Texts::is_no_text), unfolding(crate::specs::Paths::read_text))]
fn view_of_bytes(alloc: Global, bytes: &[u8]) -> Result<ViewName, Refusal>
    ensures { IsAnswer result (read_text (λ t. else_refused NoView (view_name_of t)) NoView bytes.now) }
{
    match str::from_utf8(bytes) {
        Ok(text) => view_named(alloc, text),
        Err(_) => Err(Refusal::NoView),
    }
}

pub fn key_in(alloc: Global, part: &[u8]) -> Result<Key, Refusal>
    ensures { IsAnswer result (key_read part.now) }
{
    let bytes = decoded(alloc, part)?;
    key_of(alloc, bytes.as_slice())
}

pub fn prefix_in(alloc: Global, part: &[u8]) -> Result<Prefix, Refusal>
    ensures { IsAnswer result (prefix_read part.now) }
{
    let bytes = decoded(alloc, part)?;
    prefix_of(alloc, bytes.as_slice())
}

pub fn field_in(alloc: Global, part: &[u8]) -> Result<Field, Refusal>
    ensures { IsAnswer result (field_read part.now) }
{
    let bytes = decoded(alloc, part)?;
    field_of_bytes(alloc, bytes.as_slice())
}

pub fn view_in(alloc: Global, part: &[u8]) -> Result<ViewName, Refusal>
    ensures { IsAnswer result (view_read part.now) }
{
    let bytes = decoded(alloc, part)?;
    view_of_bytes(alloc, bytes.as_slice())
}

pub fn term_in(alloc: Global, part: &[u8]) -> Result<Term, Refusal>
    ensures { IsAnswer result (term_read part.now) }
{
    let bytes = decoded(alloc, part)?;
    term_of(alloc, bytes.as_slice())
}

/// The path of at most three lower-case hexadecimal digits.
pub fn path_in(alloc: Global, part: &[u8]) -> Result<Path, Refusal>
    ensures { IsAnswer result (path_read part.now) }
{
    let bytes = decoded(alloc, part)?;
    path_of_bytes(alloc, bytes.as_slice())
}

pub fn path_of_bytes(alloc: Global, bytes: &[u8]) -> Result<Path, Refusal>
    ensures { IsAnswer result (path_of (map digit_in bytes.now)) }
{
    match bytes {
        [] => Path::new(alloc, &[]),
        [a] => Path::new(alloc, &[digit_of(*a)]),
        [a, b] => Path::new(alloc, &[digit_of(*a), digit_of(*b)]),
        [a, b, c] => Path::new(alloc, &[digit_of(*a), digit_of(*b), digit_of(*c)]),
        _ => Err(Refusal::BadPath),
    }
}

/// The hexadecimal digit of a letter, or 255, which is none.
fn digit_of(letter: u8) -> u8
    ensures { result ≡ digit_in letter }
{
    match letter {
        b'0'..=b'9' => letter - b'0',
        b'a'..=b'f' => letter - b'a' + 10,
        _ => u8::MAX,
    }
}

pub fn key_if_given(alloc: Global, part: &[u8]) -> Result<Option<Key>, Refusal>
    ensures { IsAnswer result (if_given key_read part.now) }
{
    if part.is_empty() {
        return Ok(None);
    }
    Ok(Some(key_in(alloc, part)?))
}

pub fn term_if_given(alloc: Global, part: &[u8]) -> Result<Option<Term>, Refusal>
    ensures { IsAnswer result (if_given term_read part.now) }
{
    if part.is_empty() {
        return Ok(None);
    }
    Ok(Some(term_in(alloc, part)?))
}
