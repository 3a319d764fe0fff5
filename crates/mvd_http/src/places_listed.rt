//! Pages of an index, of which a document may be told with each place.
ghost use Rattle.std.specs.Prelude.{◌≡◌, ◌≤◌, ◌++◌, IfErr, IfOk, IfSome, IsOkUnless, IsTrue, OnOk, Some, length};
ghost use Rattle.std.specs.Prelude.{option_map, string_bytes, take, true};
ghost use Rattle.std.specs.FinMap.Entries.{find};
ghost use Rattle.std.specs.Option.{option_copied};
ghost use Rattle.mvd_dots.specs.Dot.{dot_cmp};
ghost use Rattle.mvd_keys.specs.State.{pairs_of, rises};
ghost use Rattle.mvd_http.specs.Listed.{IsUntold, Serves, document_at, place_front_of, place_in, places_listed, places_told};

use crate::documents::push_document;
use crate::json_lists::{push_place, push_place_front, push_place_next};
use crate::json_words::push_word;
use crate::listed::{Holds, ROOM, first_of, has_more, push_comma};
use crate::question::{Spelling, Wanted};
use mvd_docs::Document;
use mvd_dots::{Dot, Refusal};
use mvd_keys::{Key, KeyState, Place, Sibling};
use std::alloc::Global;

/// Puts a page of an index, with what is wanted of each place, behind what `out` holds.
pub fn push_places_listed<H: Holds>(
    alloc: Global,
    held: &H,
    wanted: Wanted,
    places: &[Place],
    more: bool,
    out: &mut String,
) -> Result<(), Refusal>
    ensures text { OnOk result (string_bytes out.new ≡
        string_bytes out.old ++ places_listed wanted (H.states held.now) places.now more) }
    ensures refused { IfErr result (IsUntold (H.refusal held.now)) }
{
    push_word(out, "{\"places\":[")?;
    let first = first_of(places, wanted.limit);
    let count = push_items(alloc, held, wanted.documents, first, out)?;
    push_word(out, "]")?;
    let goes_on = has_more(more, count, places.len());
    push_place_next(alloc, out, &first[..count], goes_on)?;
    Ok(push_word(out, "}")?)
}

/// Puts down the places of a page. It gives how many were. Places of one key that follow each other need one look at its
/// state.
fn push_items<H: Holds>(
    alloc: Global,
    held: &H,
    documents: Option<Spelling>,
    places: &[Place],
    out: &mut String,
) -> Result<usize, Refusal>
    ensures within { IfOk result (λ count. count ≤ length places.now) }
    ensures front { IfOk result (λ count.
        take count places.now ≡ place_front_of documents (H.states held.now) places.now) }
    ensures text { IfOk result (λ count. string_bytes out.new ≡
        string_bytes out.old ++ places_told documents (H.states held.now) (take count places.now)) }
    ensures refused { IfErr result (IsUntold (H.refusal held.now)) }
{
    let mut room = ROOM;
    let mut state = KeyState::empty(alloc);
    let mut last = None;
    for index in 0..places.len() {
        if room == 0 {
            return Ok(index);
        }
        let place = &places[index];
        look_up(held, documents, &place.key, last, &mut state)?;
        last = Some(&place.key);
        push_comma(out, index == 0)?;
        let told = push_item(alloc, documents, place, &state, out)?;
        room = room.saturating_sub(told);
    }
    Ok(places.len())
}

/// Makes a state that of a key, where documents are wanted. It is so already where the last key is the same.
fn look_up<H: Holds>(
    held: &H,
    documents: Option<Spelling>,
    key: &Key,
    last: Option<&Key>,
    state: &mut KeyState,
) -> Result<(), Refusal>
    requires { IfSome last (λ last. Serves documents (H.states held.now) state.old last.now) }
    ensures served { OnOk result (Serves documents (H.states held.now) state.new key.now) }
    ensures refused { IsOkUnless result (H.refusal held.now) }
{
    if documents.is_some() && !is_key(last, key) {
        *state = held.state_of(key)?;
    }
    Ok(())
}

/// Whether the last key, if there is one, is this key.
fn is_key(last: Option<&Key>, key: &Key) -> bool
    ensures { result ≡ true → option_copied last.entry ≡ Some key.now }
{
    match last {
        Some(last) => last == key,
        None => false,
    }
}

/// A place, with its document in this state where that is wanted. It gives how many bytes that took.
fn push_item(
    alloc: Global,
    documents: Option<Spelling>,
    place: &Place,
    state: &KeyState,
    out: &mut String,
) -> Result<usize, Refusal>
    ensures text { OnOk result (string_bytes out.new ≡
        string_bytes out.old ++ place_in documents state.now place.now) }
    ensures told { IfOk result (λ told. told ≡ length (place_in documents state.now place.now)) }
    ensures memory { IsOkUnless result Refusal.Memory }
{
    let before = out.len();
    push_told(alloc, documents, place, state, out)?;
    Ok(out.len() - before)
}

fn push_told(
    alloc: Global,
    documents: Option<Spelling>,
    place: &Place,
    state: &KeyState,
    out: &mut String,
) -> Result<(), Refusal>
    ensures text { OnOk result (string_bytes out.new ≡
        string_bytes out.old ++ place_in documents state.now place.now) }
    ensures memory { IsOkUnless result Refusal.Memory }
{
    let Some(spelling) = documents else {
        return push_place(alloc, out, place);
    };
    push_place_front(alloc, out, place)?;
    push_document_at(alloc, out, spelling, place.dot, state)?;
    Ok(push_word(out, "}")?)
}

/// The document of the sibling with this dot, if there is one.
fn push_document_at(
    alloc: Global,
    out: &mut String,
    spelling: Spelling,
    dot: Dot,
    state: &KeyState,
) -> Result<(), Refusal>
    ensures text { OnOk result (string_bytes out.new ≡
        string_bytes out.old ++ document_at spelling dot state.now) }
    ensures memory { IsOkUnless result Refusal.Memory }
{
    let Some(document) = document_of_dot(state.siblings(), dot) else {
        return Ok(());
    };
    push_word(out, ",")?;
    push_document(alloc, out, spelling, document)?;
    Ok(())
}

fn document_of_dot(siblings: &[Sibling], dot: Dot) -> Option<&Document>
    requires { IsTrue (rises siblings.now) }
    ensures { option_map (λ document. document.now) result ≡ find dot_cmp dot (pairs_of siblings.now) }
{
    match siblings.binary_search_by(|sibling| sibling.dot.cmp(&dot)) {
        Ok(index) => Some(&siblings[index].document),
        Err(_) => None,
    }
}
