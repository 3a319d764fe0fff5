//! What requests weigh in a round: each change something, and the bytes of states that they have it prepare.
ghost use Rattle.std.specs.Prelude.{◌≡◌, ◌≤◌, ◌^◌, ◌-◌, min, true};
ghost use Rattle.mvd_host.specs.Weights.{has_to_wait as waits_told, weight_of};

use mvd_conn::Connection;
use mvd_frames::decode_request;
use mvd_site::Site;
use mvd_wire::{Request, state_length};
use std::alloc::Global;

/// What the requests of a round weigh from which on none is taken that weighs more than a little.
pub(crate) const WEIGHT_MAX: u64 = 4_194_304;

/// What a change weighs at most that is taken until the others weigh twice as much as they may.
const LITTLE: u64 = 4_096;

/// What a change weighs beside its bytes.
const CHANGE: u64 = 1_024;

/// What a request weighs: a change 1,024, the bytes of its key's state, and of what it puts or pushes there.
pub(crate) fn weight(site: &Site, request: &Request) -> u64
    ensures { result ≡ min (weight_of site.now.states request.now) (2 ^ 64 - 1) }
{
    match request {
        Request::Put(key, _, document) => {
            let given = CHANGE.saturating_add(document.text().len() as u64);
            site.state_bytes(key).saturating_add(given)
        }
        Request::Delete(key, _) => site.state_bytes(key).saturating_add(CHANGE),
        Request::Push(key, pushed) => {
            let given = state_length(pushed).saturating_add(CHANGE);
            site.state_bytes(key).saturating_add(given)
        }
        _ => 0,
    }
}

/// Whether a request that weighs so much has to wait for another round, where those of this one weigh so much: a change
/// that weighs more than a little, once they weigh as much as they may, and any, once they weigh twice as much.
pub(crate) fn has_to_wait(weighed: u64, weighs: u64) -> bool
    ensures { result ≡ waits_told weighed weighs }
{
    (weighed >= WEIGHT_MAX && weighs > LITTLE) || (weighed >= 2 * WEIGHT_MAX && weighs > 0)
}

/// Whether the next frame of a client has to wait for another round. A long one is not read to find out: where many
/// wait, each round would read them all again.
pub(crate) fn waits(alloc: Global, site: &Site, weighed: u64, connection: &Connection) -> bool
    ensures { result ≡ true → 4194304 ≤ weighed }
{
    if weighed < WEIGHT_MAX {
        return false;
    }
    match connection.coming() {
        Some((kind, payload)) => {
            if payload.len() as u64 > LITTLE {
                return true;
            }
            match decode_request(alloc, kind, payload) {
                Ok(request) => has_to_wait(weighed, weight(site, &request)),
                Err(_) => false,
            }
        }
        None => false,
    }
}
