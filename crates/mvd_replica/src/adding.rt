//! Which keys requests add, and whether a site has room for them: only a change of a key that is not held needs room.
ghost use Rattle.std.specs.Prelude.{◌≡◌, ◌≤◌, IfErr, IfOk, false, option_copied, true};
ghost use Rattle.mvd_dots.specs.declared.refusals.Refusal.TheVariants.{Memory};
ghost use Rattle.mvd_replica.specs.Adding.{CountsAdded, IsTight, KeepsRoomFor, LacksRoomFor};
ghost use Rattle.mvd_replica.specs.Adding.{adds_of, adds_one, is_unheld, key_to_change, may_add as adds_unheld};

use mvd_dots::Refusal;
use mvd_keys::Key;
use mvd_site::{Prepared, Site};
use mvd_wire::Request;

/// The most requests that share a commit.
pub(crate) const SHARING_MAX: usize = 1_024;

/// The key that a request asks to change.
pub fn key_asked(request: &Request) -> Option<&Key>
    ensures { option_copied result ≡ key_to_change request.now }
{
    match request {
        Request::Put(key, ..) | Request::Delete(key, _) | Request::Push(key, _) => Some(key),
        _ => None,
    }
}

/// Whether a key is not held. It takes memory, since it copies the state.
fn lacks(site: &Site, key: &Key) -> Result<bool, Refusal>
    ensures lacks { IfOk result (λ lacks. lacks ≡ is_unheld site.now.states key.now) }
    ensures memory { IfErr result (λ refusal. refusal ≡ Memory) }
{
    // Here it is known that each state that is held has seen a dot.
    site.stands();
    match site.get(key) {
        Ok(state) => Ok(state.context().is_empty()),
        // A broken site refuses it, too; nobody asks one, since it comes to no change.
        Err(_) => Err(Refusal::Memory),
    }
}

/// Whether a request may add a key: it asks to change one that is not held.
fn may_add(site: &Site, request: &Request) -> Result<bool, Refusal>
    ensures adds { IfOk result (λ adds. adds ≡ adds_unheld site.now.states request.now) }
    ensures memory { IfErr result (λ refusal. refusal ≡ Memory) }
{
    match key_asked(request) {
        Some(key) => lacks(site, key),
        None => Ok(false),
    }
}

/// Whether there is room for all keys that one commit may add.
fn is_ample(site: &Site) -> bool
    ensures { result ≡ true → IsTight site.now → ⊥ }
{
    site.key_count() as usize + SHARING_MAX <= site.config().max_keys() as usize
}

/// How many keys a change of a key adds; at most, where the site has room for all that one commit may add.
fn added_by(site: &Site, key: &Key) -> Result<u32, Refusal>
    ensures counts { IfOk result (CountsAdded site.now (adds_one site.now.states key.now)) }
    ensures memory { IfErr result (λ refusal. refusal ≡ Memory) }
{
    if is_ample(site) {
        return Ok(1);
    }
    let adds = lacks(site, key)?;
    if adds {
        return Ok(1);
    }
    Ok(0)
}

/// The same of what was prepared.
pub(crate) fn keys_added(site: &Site, prepared: &Prepared) -> Result<u32, Refusal>
    ensures counts { IfOk result (CountsAdded site.now (adds_of site.now.states prepared.now)) }
    ensures memory { IfErr result (λ refusal. refusal ≡ Memory) }
{
    match prepared {
        Prepared::Change(change) => added_by(site, change.key()),
        Prepared::Answer(_) => Ok(0),
    }
}

/// Whether there may be less room for a request once so many keys are added: then there is room for none more, and the
/// request may add one.
pub(crate) fn lacks_room(site: &Site, added: u32, request: &Request) -> Result<bool, Refusal>
    requires few { added ≤ 1024 }
    ensures keeps { IfOk result (λ lacks. lacks ≡ false → KeepsRoomFor site.now request.now added) }
    ensures lacks { IfOk result (λ lacks. lacks ≡ true → LacksRoomFor site.now request.now added) }
    ensures memory { IfErr result (λ refusal. refusal ≡ Memory) }
{
    if added == 0 {
        return Ok(false);
    }
    let most = site.config().max_keys();
    if site.key_count() + added < most {
        return Ok(false);
    }
    may_add(site, request)
}
