//! Sessions of two sites, as no script tells them: how much is asked, and two sites of one number.
use crate::many_keys::fill;
use crate::peers::{Counting, written};
use mvd_dots::Refusal;
use mvd_keys::KeyState;
use mvd_peer::Peer;
use mvd_sync::{Report, Side, SyncFault, sync, sync_within};
use std::alloc::Global;

/// How many keys were exchanged, where none was refused and none was older than what the peer saw; else a number of no
/// session.
fn keys_of(report: &Report) -> u64 {
    if report.refused == 0 && report.old == 0 && report.first_refused.as_slice().is_empty() {
        report.keys
    } else {
        u64::MAX
    }
}

/// How a session ends, where no key is refused.
pub fn meet<L: Peer, P: Peer>(
    alloc: Global,
    local: &mut L,
    peer: &mut P,
) -> Result<u64, SyncFault> {
    sync(alloc, local, peer).map(|report| keys_of(&report))
}

/// The same, with so many questions to each side, of which there is at least one.
pub fn meet_within(
    local: &mut Counting,
    peer: &mut Counting,
    questions: u64,
) -> Result<u64, SyncFault> {
    sync_within(local.alloc, local, peer, questions.clamp(1, 100)).map(|report| keys_of(&report))
}

/// Whether a key that one side alone holds takes five questions: three nodes, a page, and a get or a push. Then one is
/// enough.
fn five_are_enough(one: &mut Counting, two: &mut Counting) -> bool {
    let few = Err(SyncFault::Local(Refusal::TooManyRequests));
    meet_within(one, two, 1) == few
        && meet_within(one, two, 4) == few
        && meet_within(one, two, 5) == Ok(1)
        && meet_within(one, two, 1) == Ok(0)
}

/// Whether each side was asked so much in these four sessions.
pub fn are_asked(one: &mut Counting, two: &mut Counting) -> Result<bool, Refusal> {
    let is_put = one.put("a", "-", "{}")?;
    let are_enough = five_are_enough(one, two);
    let are_so = one.asked == [8, 2, 1, 0] && two.asked == [8, 2, 0, 1];
    Ok(is_put && are_enough && are_so && two.shows("a", "1:1", 1)?)
}

/// The first key of a report that was refused, by which side, and how; so many are exchanged, refused, and old.
fn left_of(report: &Report, counts: (u64, u64, u64)) -> Result<Option<(Side, Refusal)>, Refusal> {
    if (report.keys, report.refused, report.old) != counts {
        return Err(Refusal::Damaged);
    }
    match report.first_refused.as_slice().first() {
        Some(left) => Ok(Some((left.side, left.refusal))),
        None => Ok(None),
    }
}

/// The same of the report of a session.
pub fn first_left(
    one: &mut Counting,
    two: &mut Counting,
    counts: (u64, u64, u64),
) -> Result<Option<(Side, Refusal)>, Refusal> {
    match sync(one.alloc, one, two) {
        Ok(report) => left_of(&report, counts),
        Err(_) => Err(Refusal::Damaged),
    }
}

/// Writes the same dot at `a`, and a key of its own on each side.
fn write_same(one: &mut Counting, other: &mut Counting) -> Result<bool, Refusal> {
    Ok(
        one.put("a", "-", "{\"x\":1}")?
            && other.put("a", "-", "{\"x\":2}")?
            && one.put("b", "-", "{}")?
            && other.put("c", "-", "{}")?,
    )
}

/// Whether a key of which two sites wrote the same dot is left, and the others cross.
pub fn clash(one: &mut Counting, other: &mut Counting) -> Result<bool, Refusal> {
    let are_put = write_same(one, other)?;
    // Both have the number 1, so at `c` the second has seen a dot of the first that this has not.
    let left = first_left(one, other, (2, 1, 1))?;
    Ok(
        are_put
            && left == Some((Side::Local, Refusal::DotClash))
            && one.shows("a", "1:1", 1)?
            && one.shows("c", "1:1", 1)?
            && other.shows("b", "1:1", 1)?,
    )
}

/// Whether a copy of site 1 that has one of its two keys is told so, and then has the other.
fn copy_is_told(
    copy: &mut Counting,
    two: &mut Counting,
    state: &KeyState,
) -> Result<bool, Refusal> {
    fill(copy, 1, state)?;
    fill(two, 2, state)?;
    let is_put = two.put("c", "-", "{}")?;
    let left = first_left(copy, two, (2, 0, 1))?;
    Ok(is_put && left.is_none() && copy.shows("k1", "1:1", 1)?)
}

/// Whether a session tells an old copy of the first site from that.
pub fn tells_old(one: &mut Counting, two: &mut Counting) -> Result<bool, Refusal> {
    let state = written(one.alloc)?;
    copy_is_told(one, two, &state)
}
