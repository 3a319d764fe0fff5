//! A side that gives the state of one key for that of any key.
use crate::peers::Counting;
use crate::two_sites::first_left;
use mvd_dots::Refusal;
use mvd_keys::Key;
use mvd_sync::Side;

/// Puts what is to be given, and what it clashes with.
fn put_both(site: &mut Counting, peer: &mut Counting) -> Result<bool, Refusal> {
    Ok(
        peer.put("a", "-", "{\"x\":1}")?
            && peer.put("b", "-", "{\"x\":2}")?
            && site.put("b", "-", "{\"x\":3}")?,
    )
}

/// Whether a session takes the state of `a` that it is given, and the next one leaves the key for which the peer
/// refuses it.
pub fn takes_what_is_given(site: &mut Counting, peer: &mut Counting) -> Result<bool, Refusal> {
    peer.given = Some(Key::read(peer.alloc, "a")?);
    let are_put = put_both(site, peer)?;
    let left = first_left(site, peer, (2, 0, 0))?;
    let are_taken = site.shows("b", "1:1,2:1", 2)? && site.shows("a", "2:1", 1)?;
    let then = first_left(site, peer, (0, 1, 0))?;
    Ok(are_put && left.is_none() && are_taken && then == Some((Side::Peer, Refusal::DotClash)))
}
