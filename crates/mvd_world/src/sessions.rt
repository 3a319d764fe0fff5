//! Sessions of two sites of one world.
ghost use Rattle.std.specs.Prelude.{◌≡◌, ◌≢◌, ◌<◌, length};
ghost use Rattle.mvd_world.specs.Worlds.{ExchangeSites, TwoMeet};

use mvd_dots::Refusal;
use mvd_site::Site;
use mvd_sync::{Report, SyncFault, sync};
use std::alloc::Global;

/// A session of two sites. A broken side is told at once.
fn session(alloc: Global, local: &mut Site, peer: &mut Site) -> Result<Report, SyncFault>
    ensures exchange { ExchangeSites local.old peer.old local.new peer.new result }
    ensures local_config { local.new.config ≡ local.old.config }
    ensures peer_config { peer.new.config ≡ peer.old.config }
{
    if local.is_broken() {
        return Err(SyncFault::Local(Refusal::Broken));
    }
    if peer.is_broken() {
        return Err(SyncFault::Peer(Refusal::Broken));
    }
    local.stands();
    peer.stands();
    let ended = sync(alloc, local, peer);
    local.stands();
    peer.stands();
    ended
}

/// A session of two sites of a list.
pub fn sync_at(
    alloc: Global,
    sites: &mut [Site],
    local: usize,
    peer: usize,
) -> Result<Report, SyncFault>
    requires local { local < length sites.old }
    requires peer { peer < length sites.old }
    requires two { local ≢ peer }
    ensures { TwoMeet sites.old sites.new local peer result }
{
    if local < peer {
        let (front, back) = sites.split_at_mut(peer);
        session(alloc, &mut front[local], &mut back[0])
    } else {
        let (front, back) = sites.split_at_mut(local);
        session(alloc, &mut back[0], &mut front[peer])
    }
}
