//! What a site tells of questions that change nothing.
ghost use Rattle.std.specs.Prelude.{◌≡◌, IfErr, IfOk, Some};
ghost use Rattle.mvd_dots.specs.declared.refusals.Refusal.TheVariants.{Memory};
ghost use Rattle.mvd_peer.specs.Asking.{asked, only_pushes};
ghost use Rattle.mvd_peer.specs.SiteTells.{TellsNodes, TellsPages, TellsReads, TellsStates};

use crate::holding::hold;
use crate::window::{Page, Told, Window};
use mvd_dots::Refusal;
use mvd_keys::{Key, KeyState, Path};
use mvd_site::Site;
use mvd_wire::Digests;

/// What a site tells of a window that changes nothing: an answer for each question, in order; or that memory was
/// refused. The states that a window pushes are given back.
pub fn read<'a>(site: &Site, window: &'a Window) -> Result<Told, &'a [(Key, KeyState)]>
    ensures told { IfOk result (TellsReads site.now window.now) }
    ensures pushes { IfErr result (λ pairs. asked (Some window.now) ≡ only_pushes pairs.now) }
{
    Ok(match window {
        Window::Nodes(paths) => nodes_at(site, paths).map_or_else(Told::Refused, Told::Nodes),
        Window::Pages(asked) => pages_at(site, asked).map_or_else(Told::Refused, Told::Pages),
        Window::Gets(keys) => states_at(site, keys).map_or_else(Told::Refused, Told::States),
        Window::Pushes(pairs) => return Err(pairs),
    })
}

/// The digests of nodes.
fn nodes_at(site: &Site, paths: &[Path]) -> Result<Vec<Result<Digests, Refusal>>, Refusal>
    ensures told { IfOk result (λ told. TellsNodes site.now paths.now told.items) }
    ensures memory { IfErr result (λ refusal. refusal ≡ Memory) }
{
    let mut told = Vec::with_capacity(site.alloc(), paths.len())?;
    for path in paths {
        told.push(site.node(path))?;
    }
    Ok(told)
}

/// Pages of buckets, each after a key or from the first.
fn pages_at(
    site: &Site,
    asked: &[(Path, Option<Key>)],
) -> Result<Vec<Result<Page, Refusal>>, Refusal>
    ensures told { IfOk result (λ told. TellsPages site.now asked.now told.items) }
    ensures memory { IfErr result (λ refusal. refusal ≡ Memory) }
{
    let mut told = Vec::with_capacity(site.alloc(), asked.len())?;
    for (path, after) in asked {
        told.push(site.bucket(path, after.as_ref()))?;
    }
    Ok(told)
}

/// The states of keys: as many of the first as are fewer bytes than 1,048,576, and one more.
fn states_at(site: &Site, keys: &[Key]) -> Result<Vec<Result<KeyState, Refusal>>, Refusal>
    ensures told { IfOk result (λ told. TellsStates site.now keys.now told.items) }
    ensures memory { IfErr result (λ refusal. refusal ≡ Memory) }
{
    let mut told = Vec::with_capacity(site.alloc(), keys.len())?;
    let mut bytes = 0;
    for key in keys {
        told.push(hold(&mut bytes, site.get(key)))?;
    }
    Ok(told)
}
