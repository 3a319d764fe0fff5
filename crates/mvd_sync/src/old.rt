//! Whether a local file is older than what its peers saw of it.
ghost use Rattle.std.specs.Prelude.{ℕ, ◌↔◌, IsTrue, IfSome, IfNone, unwrap_or, Some};
ghost use Rattle.std.specs.Option.{option_copied};
ghost use Rattle.mvd_dots.specs.Context.{HoldsDot, IsEntryAt};
ghost use Rattle.mvd_dots.specs.Entry.{HasCounter, IsEntry};
ghost use Rattle.mvd_keys.specs.State.{empty_state};
ghost use Rattle.mvd_sync.specs.Olds.{HasUnseen};

use mvd_dots::{Context, Entry};
use mvd_keys::KeyState;

/// The entry of a site, where it has a dot.
fn entry_at(seen: &Context, site: u32) -> Option<&Entry>
    ensures found { IfSome result (λ entry. IsEntryAt seen.now site entry.now) }
    ensures missing { IfNone result ((n : ℕ) → HoldsDot seen.now site n → ⊥) }
{
    for entry in seen.entries() {
        if entry.site == site {
            return Some(entry);
        }
    }
    None
}

/// Whether a context has each dot of an entry.
fn has_entry(seen: &Context, entry: &Entry) -> bool
    requires { IsEntry entry.now }
    ensures { IsTrue result ↔ ((n : ℕ) → HasCounter entry.now.base entry.now.loose n
        → HoldsDot seen.now entry.now.site n) }
{
    match entry_at(seen, entry.site) {
        Some(held) => held.includes(entry),
        None => false,
    }
}

/// Whether a local state has seen each dot of an entry. A side that has no state has seen nothing.
fn has_seen(mine: Option<&KeyState>, entry: &Entry) -> bool
    requires { IsEntry entry.now }
    ensures { IsTrue result ↔ ((n : ℕ) → HasCounter entry.now.base entry.now.loose n
        → HoldsDot (unwrap_or (option_copied mine.entry) empty_state).context entry.now.site n) }
{
    match mine {
        Some(mine) => has_entry(mine.context(), entry),
        None => false,
    }
}

/// Whether the peer's state has a dot of this site that the local state has not seen.
fn has_other(site: u32, mine: Option<&KeyState>, theirs: &KeyState) -> bool
    ensures { IsTrue result ↔ HasUnseen (Some site) (unwrap_or (option_copied mine.entry) empty_state) theirs.now }
{
    match entry_at(theirs.context(), site) {
        Some(entry) => !has_seen(mine, entry),
        None => false,
    }
}

/// The same, where the site's number is known.
fn has_any_other(number: Option<u32>, mine: Option<&KeyState>, theirs: &KeyState) -> bool
    ensures { IsTrue result ↔ HasUnseen number (unwrap_or (option_copied mine.entry) empty_state) theirs.now }
{
    match number {
        Some(site) => has_other(site, mine, theirs),
        None => false,
    }
}

/// Whether the peer's state of a key has a dot of this site that the local state has not seen.
pub fn has_unseen(number: Option<u32>, mine: Option<&KeyState>, theirs: Option<&KeyState>) -> bool
    ensures { IsTrue result ↔ HasUnseen number
        (unwrap_or (option_copied mine.entry) empty_state) (unwrap_or (option_copied theirs.entry) empty_state) }
{
    match theirs {
        Some(theirs) => has_any_other(number, mine, theirs),
        None => false,
    }
}
