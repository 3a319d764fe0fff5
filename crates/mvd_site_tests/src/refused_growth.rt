//! A session in which one allocation is refused, whichever it is: `rt try --test --fail-alloc N` refuses the Nth.
use crate::peers::Counting;
use crate::trials::{Trial, holds};
use crate::two_sites::meet;
use mvd_dots::Refusal;
use mvd_sync::SyncFault;
use std::alloc::Global;
use std::test::Fail;

/// A key's context on a side, and how many siblings it has there.
type Shown = (&'static str, usize);

/// A key, what the first side shows of it before a session, what the second does, and what both do after it.
const KEYS: [(&str, Shown, Shown, Shown); 3] = [
    ("a", ("1:1", 1), ("-", 0), ("1:1", 1)),
    ("b", ("-", 0), ("2:1", 1), ("2:1", 1)),
    ("c", ("1:1", 1), ("2:1", 1), ("1:1,2:1", 2)),
];

/// Whether a key came to be on each side alone, and a third on both.
fn put_all(one: &mut Counting, two: &mut Counting) -> Result<bool, Refusal> {
    Ok(
        one.put("a", "-", "{}")?
            && two.put("b", "-", "{}")?
            && one.put("c", "-", "{}")?
            && two.put("c", "-", "{}")?,
    )
}

/// Whether a side shows one of these two at a key; unless it is broken, and then it tells that.
fn shows(side: &Counting, key: &str, old: Shown, joined: Shown) -> Result<bool, Refusal> {
    if side.site.is_broken() {
        return Ok(side.shows(key, "-", 0) == Err(Refusal::Broken));
    }
    Ok(side.shows(key, joined.0, joined.1)? || side.shows(key, old.0, old.1)?)
}

/// Whether each side shows of each key the join of both, or, where that is not asked for, what it did before.
fn all_show(one: &Counting, two: &Counting, joined_alone: bool) -> Result<bool, Refusal> {
    for (key, first, second, joined) in KEYS {
        let (first, second) = if joined_alone {
            (joined, joined)
        } else {
            (first, second)
        };
        if !shows(one, key, first, joined)? || !shows(two, key, second, joined)? {
            return Ok(false);
        }
    }
    Ok(true)
}

/// Whether each side shows of each key the join. One allocation alone is refused, so a second look is had.
fn are_joined(one: &Counting, two: &Counting) -> Result<bool, Refusal> {
    match all_show(one, two, true) {
        Err(Refusal::Memory) => all_show(one, two, true),
        answer => answer,
    }
}

/// Whether a session told that memory was refused, or that a side is broken.
fn is_of_memory(fault: SyncFault) -> bool {
    match fault {
        SyncFault::Local(refusal) | SyncFault::Peer(refusal) => {
            refusal == Refusal::Memory || refusal == Refusal::Broken
        }
    }
}

/// Whether a session, asked again, ends with what a broken side tells, or else well, with all joined.
fn ends_then(one: &mut Counting, two: &mut Counting) -> Result<bool, Refusal> {
    let alloc = one.alloc;
    if one.site.is_broken() {
        return Ok(meet(alloc, one, two) == Err(SyncFault::Local(Refusal::Broken)));
    }
    if two.site.is_broken() {
        return Ok(meet(alloc, one, two) == Err(SyncFault::Peer(Refusal::Broken)));
    }
    Ok(meet(alloc, one, two).is_ok() && are_joined(one, two)?)
}

/// Whether a session ends with all joined, or else, where memory was refused, leaves old states and joins alone.
fn stands(one: &mut Counting, two: &mut Counting) -> Result<bool, Refusal> {
    match meet(one.alloc, one, two) {
        Ok(keys) => Ok(keys == 3 && are_joined(one, two)?),
        Err(fault) => {
            Ok(is_of_memory(fault) && all_show(one, two, false)? && ends_then(one, two)?)
        }
    }
}

/// Whether a session of these two stands; 20 where the keys could not be put, and there alone, since that is tried
/// again.
pub fn session_of(one: &mut Counting, two: &mut Counting) -> Result<bool, Refusal> {
    if put_all(one, two) == Ok(true) {
        Ok(stands(one, two) == Ok(true))
    } else {
        Err(Refusal::Memory)
    }
}

/// Whether a session stands. One allocation alone is refused, so the sites and the keys can be had the second time.
fn session_stands(alloc: Global) -> Result<bool, Refusal> {
    match holds(alloc, 2, 10, Trial::Growth) {
        Err(Refusal::Memory) => holds(alloc, 2, 10, Trial::Growth),
        answer => answer,
    }
}

#[test]
fn a_refused_allocation_leaves_old_states_or_joins(rt: HostRuntime) -> Result<(), Fail> {
    assert!(rt; session_stands(rt.alloc())?);
    Ok(())
}
