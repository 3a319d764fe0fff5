//! Pages of which more is told than a reply has, or less.
ghost use Rattle.std.specs.Prelude.{◌≡◌, ◌≤◌, ◌-◌, ◌++◌, ◌||◌, List, ℕ, Ok, IfErr, IfOk, IsOkUnless, OnOk, length};
ghost use Rattle.std.specs.Prelude.{nat_lt, string_bytes, take, true};
ghost use Rattle.sha2.specs.Sha256.{sha256};
ghost use Rattle.mvd_keys.specs.State.{State};
ghost use Rattle.mvd_keys.specs.Writes.{Key};
ghost use Rattle.mvd_http.specs.Json.{comma_if, led_if};
ghost use Rattle.mvd_http.specs.Listed.{IsUnlisted, IsUntold, count_json, digest_told, first_keys, first_rows, front_of, hashed_bytes};
ghost use Rattle.mvd_http.specs.Listed.{is_told as told_of, item_bytes, item_json, items_json, listed_json, listed_told};
ghost use Rattle.mvd_http.specs.Listed.{siblings_told, spelling, state_digest};

use crate::count_lists::{KeyCount, push_count_next};
use crate::documents::push_members;
use crate::json_lists::{KeyDigest, ViewRow, push_keys_page, push_rows_page};
use crate::json_words::{push_digest, push_number, push_quoted, push_word};
use crate::places_listed::push_places_listed;
use crate::question::{Spelling, Wanted};
use crate::told_lines::refusal_of;
use mvd_dots::Refusal;
use mvd_keys::{Key, KeyState};
use mvd_wire::{Reply, write_key, write_state};
use sha2::{Digest, Sha256};
use std::alloc::{AllocError, Global};

/// So many bytes are told and hashed; then the page ends.
pub const ROOM: usize = 1_048_576;

/// Where the keys are held of which a page tells.
pub trait Holds {
    ghost use Rattle.mvd_dots.specs.declared.refusals.Refusal.{Refusal};

    /// The state of each.
    ghost states: { Self → Key → State };

    /// Why one is not told.
    ghost refusal: { Self → Refusal };

    /// The state of a key, or why it is not told.
    fn state_of(&self, key: &Key) -> Result<KeyState, Refusal>
        ensures state { IfOk result (λ state. state ≡ states self.now key.now) }
        ensures refused { IsOkUnless result (refusal self.now) };
}

/// Puts the page of keys that a reply tells, with what is wanted of each, behind what `out` holds.
pub fn push_listed<H: Holds>(
    alloc: Global,
    held: &H,
    wanted: Wanted,
    reply: &Reply,
    out: &mut String,
) -> Result<(), Refusal>
    ensures text { OnOk result ((text : List ℕ) × (listed_told wanted (H.states held.now) reply.now ≡ Ok text)
        × (string_bytes out.new ≡ string_bytes out.old ++ text)) }
    ensures refused { IfErr result
        (IsUnlisted (listed_told wanted (H.states held.now) reply.now) (H.refusal held.now)) }
{
    match reply {
        Reply::Counts(keys, more) => push_page(alloc, held, wanted, keys.as_slice(), *more, out),
        Reply::Places(places, more) => {
            push_places_listed(alloc, held, wanted, places.as_slice(), *more, out)
        }
        Reply::Rows(rows, more) => push_first_rows(alloc, wanted, rows.as_slice(), *more, out),
        Reply::Keys(keys, more) => push_first_keys(alloc, wanted, keys.as_slice(), *more, out),
        _ => Err(refusal_of(reply)),
    }
}

/// The first entries, so many at most.
pub fn first_of<T>(entries: &[T], limit: usize) -> &[T]
    ensures { result.now ≡ take limit entries.now }
{
    &entries[..limit.min(entries.len())]
}

/// Whether a page has a next one that has so many of these entries.
pub fn has_more(more: bool, count: usize, whole: usize) -> bool
    ensures { result ≡ (more || nat_lt count whole) }
{
    more || count < whole
}

fn push_first_rows(
    alloc: Global,
    wanted: Wanted,
    rows: &[ViewRow],
    more: bool,
    out: &mut String,
) -> Result<(), Refusal>
    ensures text { OnOk result (string_bytes out.new ≡ string_bytes out.old ++ first_rows wanted rows.now more) }
    ensures memory { IsOkUnless result Refusal.Memory }
{
    let first = first_of(rows, wanted.limit);
    push_rows_page(alloc, out, first, has_more(more, wanted.limit, rows.len()))
}

fn push_first_keys(
    alloc: Global,
    wanted: Wanted,
    keys: &[KeyDigest],
    more: bool,
    out: &mut String,
) -> Result<(), Refusal>
    ensures text { OnOk result (string_bytes out.new ≡ string_bytes out.old ++ first_keys wanted keys.now more) }
    ensures memory { IsOkUnless result Refusal.Memory }
{
    let first = first_of(keys, wanted.limit);
    push_keys_page(alloc, out, first, has_more(more, wanted.limit, keys.len()))
}

fn push_page<H: Holds>(
    alloc: Global,
    held: &H,
    wanted: Wanted,
    keys: &[KeyCount],
    more: bool,
    out: &mut String,
) -> Result<(), Refusal>
    ensures text { OnOk result (string_bytes out.new ≡
        string_bytes out.old ++ listed_json wanted (H.states held.now) keys.now more) }
    ensures refused { IfErr result (IsUntold (H.refusal held.now)) }
{
    push_word(out, "{\"keys\":[")?;
    let first = first_of(keys, wanted.limit);
    let count = push_items(alloc, held, wanted, first, out)?;
    push_word(out, "]")?;
    let goes_on = has_more(more, count, keys.len());
    push_count_next(alloc, out, &first[..count], goes_on)?;
    Ok(push_word(out, "}")?)
}

/// Puts down the items of a page. It gives how many of the keys were gone through.
fn push_items<H: Holds>(
    alloc: Global,
    held: &H,
    wanted: Wanted,
    keys: &[KeyCount],
    out: &mut String,
) -> Result<usize, Refusal>
    ensures within { IfOk result (λ count. count ≤ length keys.now) }
    ensures front { IfOk result (λ count. take count keys.now ≡ front_of wanted (H.states held.now) keys.now) }
    ensures text { IfOk result (λ count. string_bytes out.new ≡
        string_bytes out.old ++ items_json wanted (H.states held.now) (take count keys.now)) }
    ensures refused { IfErr result (IsUntold (H.refusal held.now)) }
{
    let mut room = ROOM;
    let mut is_first = true;
    for index in 0..keys.len() {
        if room == 0 {
            return Ok(index);
        }
        let entry = &keys[index];
        if is_told(wanted, entry) {
            room = push_item(alloc, held, wanted, entry, is_first, room, out)?;
            is_first = false;
        }
    }
    Ok(keys.len())
}

/// Whether a key is not left out.
fn is_told(wanted: Wanted, entry: &KeyCount) -> bool
    ensures { result ≡ told_of wanted entry.now }
{
    !wanted.live || entry.1 > 0
}

/// Puts a key down behind those that were told, if any. It gives how much room is left.
fn push_item<H: Holds>(
    alloc: Global,
    held: &H,
    wanted: Wanted,
    entry: &KeyCount,
    is_first: bool,
    room: usize,
    out: &mut String,
) -> Result<usize, Refusal>
    requires { told_of wanted entry.now ≡ true }
    ensures text { OnOk result (string_bytes out.new ≡ string_bytes out.old
        ++ led_if is_first (λ e. item_json wanted e (H.states held.now e.0)) entry.now) }
    ensures room { IfOk result (λ left. left ≡ room - item_bytes wanted entry.now (H.states held.now entry.now.0)) }
    ensures refused { IfErr result (IsUntold (H.refusal held.now)) }
{
    push_comma(out, is_first)?;
    let before = out.len();
    let state = held.state_of(&entry.0)?;
    let hashed = push_entry(alloc, out, wanted, entry, &state)?;
    let told = out.len() - before;
    Ok(room.saturating_sub(told).saturating_sub(hashed))
}

pub fn push_comma(out: &mut String, is_first: bool) -> Result<(), AllocError>
    ensures { OnOk result (string_bytes out.new ≡ string_bytes out.old ++ comma_if is_first) }
{
    push_word(out, if is_first { "" } else { "," })
}

/// What is told of a key in this state. It gives how many bytes were hashed.
fn push_entry(
    alloc: Global,
    out: &mut String,
    wanted: Wanted,
    entry: &KeyCount,
    state: &KeyState,
) -> Result<usize, Refusal>
    ensures text { OnOk result (string_bytes out.new ≡
        string_bytes out.old ++ item_json wanted entry.now state.now) }
    ensures hashed { IfOk result (λ count. count ≡ hashed_bytes wanted.digests entry.now.0 state.now) }
    ensures memory { IsOkUnless result Refusal.Memory }
{
    push_word(out, "{\"key\":")?;
    push_quoted(alloc, out, entry.0.text())?;
    push_siblings_of(alloc, out, wanted.documents, entry.1, state)?;
    let hashed = push_digest_if(alloc, out, wanted.digests, &entry.0, state)?;
    push_word(out, "}")?;
    Ok(hashed)
}

/// What is told of the siblings of a key in this state: their number, or what they are.
fn push_siblings_of(
    alloc: Global,
    out: &mut String,
    documents: Option<Spelling>,
    count: u32,
    state: &KeyState,
) -> Result<(), Refusal>
    ensures text { OnOk result (string_bytes out.new ≡
        string_bytes out.old ++ siblings_told documents count state.now) }
    ensures memory { IsOkUnless result Refusal.Memory }
{
    match documents {
        Some(spelling) => push_members(alloc, out, spelling, state),
        None => push_sibling_count(out, count),
    }
}

fn push_sibling_count(out: &mut String, count: u32) -> Result<(), Refusal>
    ensures text { OnOk result (string_bytes out.new ≡ string_bytes out.old ++ count_json count) }
    ensures memory { IsOkUnless result Refusal.Memory }
{
    push_word(out, ",\"siblings\":")?;
    Ok(push_number(out, u64::from(count))?)
}

/// The digest of a key in this state, where it is wanted. It gives how many bytes were hashed.
fn push_digest_if(
    alloc: Global,
    out: &mut String,
    is_wanted: bool,
    key: &Key,
    state: &KeyState,
) -> Result<usize, Refusal>
    ensures text { OnOk result (string_bytes out.new ≡
        string_bytes out.old ++ digest_told is_wanted key.now state.now) }
    ensures hashed { IfOk result (λ count. count ≡ hashed_bytes is_wanted key.now state.now) }
    ensures memory { IsOkUnless result Refusal.Memory }
{
    if !is_wanted {
        return Ok(0);
    }
    let bytes = spelled(alloc, key, state)?;
    push_word(out, ",\"digest\":")?;
    push_digest(alloc, out, digest_of(&bytes))?;
    Ok(bytes.len())
}

/// A key in its state, as they are spelled.
fn spelled(alloc: Global, key: &Key, state: &KeyState) -> Result<Vec<u8>, AllocError>
    ensures { IfOk result (λ bytes. bytes.items ≡ spelling key.now state.now) }
{
    let mut bytes = Vec::new(alloc);
    write_key(&mut bytes, key)?;
    write_state(&mut bytes, state)?;
    Ok(bytes)
}

fn digest_of(bytes: &[u8]) -> [u8; 32]
    ensures { result ≡ sha256 bytes.now }
{
    let mut hasher = Sha256::new();
    hasher.update(bytes);
    hasher.finalize()
}
