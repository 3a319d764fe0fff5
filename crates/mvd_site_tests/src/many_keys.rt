//! Sessions over many keys, and pages of them.
use crate::peers::{Counting, written};
use crate::two_sites::meet;
use mvd_dots::Refusal;
use mvd_keys::{Key, KeyState};
use mvd_wire::{Prefix, Reply, Request};

/// Gives a side this state at so many keys.
pub fn fill(side: &mut Counting, keys: u64, state: &KeyState) -> Result<(), Refusal> {
    for n in 0..keys {
        push_at(side, n, state)?;
    }
    Ok(())
}

/// Gives a side this state at the key of a number.
fn push_at(side: &mut Counting, n: u64, state: &KeyState) -> Result<(), Refusal> {
    let name = format!(in side.alloc; "k{n}")?;
    let key = Key::read(side.alloc, &name)?;
    side.site.push(&key, state)
}

/// How many of the keys differ.
const DIFFER: u64 = 10;

/// Writes at a few keys of a side.
fn write_few(side: &mut Counting) -> Result<(), Refusal> {
    let alloc = side.alloc;
    for n in 0..DIFFER {
        let key = format!(in alloc; "k{n}")?;
        side.put(&key, "1:1", "{\"x\":1}")?;
    }
    Ok(())
}

/// Whether a side was asked few questions about the keys that differ.
fn is_few(asked: [u64; 4]) -> bool {
    asked[0] <= 4 * DIFFER + 1 && asked[1] <= DIFFER && asked[2] == DIFFER && asked[3] <= DIFFER
}

/// Gives both sides so many keys, of which a few differ.
fn fill_both(one: &mut Counting, two: &mut Counting, keys: u64) -> Result<(), Refusal> {
    let state = written(one.alloc)?;
    fill(one, keys, &state)?;
    fill(two, keys, &state)?;
    write_few(two)
}

/// Whether a session of two sites with twenty thousand keys asks few questions.
pub fn ask_few(one: &mut Counting, two: &mut Counting) -> Result<bool, Refusal> {
    fill_both(one, two, 20_000)?;
    let is_met = meet(one.alloc, one, two) == Ok(DIFFER);
    Ok(is_met && is_few(one.asked) && is_few(two.asked) && one.root()? == two.root()?)
}

/// A page of keys: how many it has, whether more are left, and the last.
type Page = (usize, bool, Option<Key>);

/// The page of a reply.
fn page_of(side: &Counting, reply: &Reply) -> Result<Page, Refusal> {
    let Reply::Counts(keys, more) = reply else {
        return Err(Refusal::Damaged);
    };
    let last = match keys.as_slice().last() {
        Some((key, _)) => Some(key.copy(side.alloc)?),
        None => None,
    };
    Ok((keys.as_slice().len(), *more, last))
}

/// The page of keys that a side gives after a key. Nothing is claimed of it.
fn asked_page(side: &mut Counting, after: Option<Key>) -> Result<Page, Refusal> {
    let request = Request::Keys(Prefix::read(side.alloc, "k")?, after);
    let reply = side.site.answer(&request);
    page_of(side, &reply)
}

/// Whether the keys of a side come as a thousand of which more are left, and a last one.
fn is_paged(side: &mut Counting) -> Result<bool, Refusal> {
    let (first, is_more, last) = asked_page(side, None)?;
    let (second, is_more_then, _) = asked_page(side, last)?;
    Ok((first, is_more, second, is_more_then) == (1_000, true, 1, false))
}

/// Whether it is so of a thousand keys and one.
pub fn are_paged(side: &mut Counting) -> Result<bool, Refusal> {
    let state = written(side.alloc)?;
    fill(side, 1_001, &state)?;
    is_paged(side)
}
