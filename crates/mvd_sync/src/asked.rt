//! What a session asks of a side at once.
ghost use Rattle.std.specs.Prelude.{◌≡◌, ◌≤◌, ◌<◌, length, min, take, IfOk, IfErr};
ghost use Rattle.std.specs.Option.{option_copied};
ghost use Rattle.mvd_peer.specs.Asking.{asked, only_gets, only_nodes, only_pages, only_pushes};
ghost use Rattle.mvd_sync.specs.Meetings.{held_keys};
ghost use Rattle.mvd_sync.specs.Steps.{AreSmall, IsBoundedWindow, cut_wanted};

use crate::asking::take;
use crate::cursor::Entry;
use crate::meetings::keys_held;
use crate::report::Side;
use mvd_dots::Refusal;
use mvd_keys::{Key, KeyState, Path};
use mvd_peer::Window;
use std::alloc::Global;

/// What is asked next: of one side, or of both, which may be asked at once.
#[derive(Drop)]
pub struct Step {
    pub local: Option<Window>,
    pub peer: Option<Window>,
}

/// How many of so many questions are asked, where so many are left.
fn most(left: u64, wanted: usize) -> usize
    ensures { result ≡ min left wanted }
{
    let mut rest = left;
    take(&mut rest, wanted)
}

/// Copies of paths.
fn copy_paths(alloc: Global, paths: &[Path]) -> Result<Vec<Path>, Refusal>
    ensures copied { IfOk result (λ all. all.items ≡ paths.now) }
    ensures memory { IfErr result (λ refusal. refusal ≡ Refusal.Memory) }
{
    let mut all = Vec::with_capacity(alloc, paths.len())?;
    for path in paths {
        all.push(Path::new(alloc, path.digits())?)?;
    }
    Ok(all)
}

/// A copy of a key, if there is one.
fn copy_after(alloc: Global, after: Option<&Key>) -> Result<Option<Key>, Refusal>
    ensures copied { IfOk result (λ copy. copy ≡ option_copied after.entry) }
    ensures memory { IfErr result (λ refusal. refusal ≡ Refusal.Memory) }
{
    match after {
        Some(key) => Ok(Some(key.copy(alloc)?)),
        None => Ok(None),
    }
}

/// Copies of questions about pages.
fn copy_pages(
    alloc: Global,
    pages: &[(Path, Option<Key>)],
) -> Result<Vec<(Path, Option<Key>)>, Refusal>
    ensures copied { IfOk result (λ all. all.items ≡ pages.now) }
    ensures memory { IfErr result (λ refusal. refusal ≡ Refusal.Memory) }
{
    let mut all = Vec::with_capacity(alloc, pages.len())?;
    for (path, after) in pages {
        let path = Path::new(alloc, path.digits())?;
        all.push((path, copy_after(alloc, after.as_ref())?))?;
    }
    Ok(all)
}

/// Copies of keys and their states.
fn copy_pairs(alloc: Global, pairs: &[(Key, KeyState)]) -> Result<Vec<(Key, KeyState)>, Refusal>
    ensures copied { IfOk result (λ all. all.items ≡ pairs.now) }
    ensures memory { IfErr result (λ refusal. refusal ≡ Refusal.Memory) }
{
    let mut all = Vec::with_capacity(alloc, pairs.len())?;
    for (key, state) in pairs {
        all.push((key.copy(alloc)?, state.copy(alloc)?))?;
    }
    Ok(all)
}

/// The window of the first of these nodes, as many as are left.
pub fn nodes_window(alloc: Global, paths: &[Path], left: u64) -> Result<Option<Window>, Refusal>
    requires few { length paths.now ≤ 64 }
    ensures asked { IfOk result (λ window. asked window ≡ cut_wanted left (only_nodes paths.now)) }
    ensures bounded { IfOk result IsBoundedWindow }
    ensures memory { IfErr result (λ refusal. refusal ≡ Refusal.Memory) }
{
    let count = most(left, paths.len());
    if count == 0 {
        return Ok(None);
    }
    Ok(Some(Window::Nodes(copy_paths(alloc, &paths[..count])?)))
}

/// The window of the first of these pages, as many as are left.
pub fn pages_window(
    alloc: Global,
    pages: &[(Path, Option<Key>)],
    left: u64,
) -> Result<Option<Window>, Refusal>
    requires few { length pages.now ≤ 64 }
    ensures asked { IfOk result (λ window. asked window ≡ cut_wanted left (only_pages pages.now)) }
    ensures bounded { IfOk result IsBoundedWindow }
    ensures memory { IfErr result (λ refusal. refusal ≡ Refusal.Memory) }
{
    let count = most(left, pages.len());
    if count == 0 {
        return Ok(None);
    }
    Ok(Some(Window::Pages(copy_pages(alloc, &pages[..count])?)))
}

/// The window of the first keys of these entries that a side holds, as many as are left.
pub fn gets_window(
    alloc: Global,
    entries: &[Entry],
    side: Side,
    left: u64,
) -> Result<Option<Window>, Refusal>
    requires few { length entries.now ≤ 1000 }
    ensures asked { IfOk result (λ window. asked window ≡ cut_wanted left (only_gets (held_keys side entries.now))) }
    ensures bounded { IfOk result IsBoundedWindow }
    ensures memory { IfErr result (λ refusal. refusal ≡ Refusal.Memory) }
{
    let mut keys = keys_held(alloc, entries, side)?;
    let count = most(left, keys.len());
    if count == 0 {
        return Ok(None);
    }
    keys.truncate(count);
    Ok(Some(Window::Gets(keys)))
}

/// The window of the first of these pushes, as many as are left.
pub fn pushes_window(
    alloc: Global,
    pairs: &[(Key, KeyState)],
    left: u64,
) -> Result<Option<Window>, Refusal>
    requires small { AreSmall pairs.now }
    ensures asked { IfOk result (λ window. asked window ≡ cut_wanted left (only_pushes pairs.now)) }
    ensures bounded { IfOk result IsBoundedWindow }
    ensures memory { IfErr result (λ refusal. refusal ≡ Refusal.Memory) }
{
    let count = most(left, pairs.len());
    if count == 0 {
        return Ok(None);
    }
    Ok(Some(Window::Pushes(copy_pairs(alloc, &pairs[..count])?)))
}
