//! What replies may bring, as things stand before a round: so a connection takes more behind a get of a short state.
ghost use Rattle.std.specs.Prelude.{◌≡◌, ◌⊎◌, min};
ghost use Rattle.mvd_conn.specs.History.{frame_most};
ghost use Rattle.mvd_host.specs.Foreseen.{foreseen};

use mvd_conn::Connection;
use mvd_replica::key_asked;
use mvd_site::Site;
use mvd_wire::Request;

/// The longest reply, in bytes.
const REPLY_MAX: u64 = 1_200_004;

/// The length and the kind of a frame, in bytes.
const HEAD: u64 = 5;

/// What a change adds to a state at most beside what its frame brings: a dot, twice, with the lengths around them.
const BESIDE: u64 = 64;

/// The gets of a round that follow changes of their own clients, from which on each is the last of its client's turn.
/// What others change in the round may make their replies longer, and all replies of a round are in memory together.
const FOLLOWING_MAX: u32 = 256;

/// The most bytes of the reply to the request in hand, as things stand: of a get those of the state that is held, and
/// what the changes in front of it may add. Nothing is looked at where there is no such change, or no frame comes behind
/// it: questions alone share no commit, so there a second look at the state would gain nothing.
pub(crate) fn reply_most(
    site: &Site,
    given: u64,
    request: &Request,
    connection: &Connection,
) -> usize
    ensures { (result ≡ frame_most) ⊎ (result ≡ min frame_most (foreseen site.now.states given request.now)) }
{
    match request {
        Request::Get(key) if given > 0 && connection.coming().is_some() => {
            let more = given.saturating_add(HEAD);
            site.state_bytes(key).saturating_add(more).min(REPLY_MAX) as usize
        }
        _ => REPLY_MAX as usize,
    }
}

/// What a request whose frame is in hand may add to a state, in bytes.
pub(crate) fn given_by(request: &Request, connection: &Connection) -> u64 {
    if key_asked(request).is_none() {
        return 0;
    }
    match connection.frame() {
        Some((_, payload)) => (payload.len() as u64).saturating_add(BESIDE),
        None => 0,
    }
}

/// Counts a get that follows a change of its own client. Whether another frame of that may be taken behind it.
pub(crate) fn may_follow(following: &mut u32, given: u64, request: &Request) -> bool {
    if given == 0 || !matches!(request, Request::Get(_)) {
        return true;
    }
    *following = following.saturating_add(1);
    *following < FOLLOWING_MAX
}
