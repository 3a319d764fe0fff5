//! Records that are opened again, by another site and with room for fewer keys, and after writes of new keys and others.
use super::at_hand::requests_of;
use super::replica_calls::{
    GET, PUT, Root, STATE, Told, WRITTEN, asks, conn_of, end, new_replica, open_again,
    opened_within, root_of,
};
use mvd_dots::Refusal;
use mvd_replica::Replica;
use mvd_wire::Reply;
use sqlite::{Alter, Connection};
use std::alloc::Global;
use std::test::Fail;

/// Requests at two keys, and their replies: puts, and what is there then.
const PUTS: [(&str, &str); 2] = [
    (PUT, WRITTEN),
    ("0000001222016100000000000000077b2261223a327d", WRITTEN),
];

const GETS: [(&str, &str); 2] = [
    (GET, STATE),
    (
        "00000003210161",
        "0000002ea100000001000000010000000000000001000000000001000000010000000000000001000000077b2261223a327d",
    ),
];

/// A site, how many keys it may hold, and why the records of two keys of site 1 are refused to it, if they are.
type Again = (u32, u32, Option<Refusal>);

const AGAIN: [Again; 3] = [
    (2, 2, Some(Refusal::SiteMismatch)),
    (1, 1, Some(Refusal::Full)),
    (1, 2, None),
];

/// Whether a replica answers both requests so.
fn answers<S: Alter + Drop>(
    alloc: Global,
    replica: &mut Replica<S>,
    asked: &[(&str, &str)],
) -> bool {
    for (request, wanted) in asked {
        if !matches!(asks(alloc, replica, request, wanted), Told::Wanted) {
            return false;
        }
    }
    true
}

/// Why the records that a connection holds are refused so, if they are; and whether, where they are not, they answer
/// as before.
fn found<S: Alter + Drop>(
    alloc: Global,
    conn: Connection<S>,
    site: u32,
    max_keys: u32,
) -> (Option<Refusal>, bool, Connection<S>) {
    match opened_within(alloc, conn, site, max_keys) {
        Ok(mut replica) => {
            let is_same = answers(alloc, &mut replica, &GETS);
            (None, is_same, conn_of(replica))
        }
        Err((refusal, conn)) => (Some(refusal), true, conn),
    }
}

/// Whether records are refused, or answer, as they should.
fn is_found<S: Alter + Drop>(
    alloc: Global,
    conn: Connection<S>,
    again: &Again,
) -> (bool, Connection<S>) {
    let (refusal, is_same, conn) = found(alloc, conn, again.0, again.1);
    (refusal == again.2 && is_same, conn)
}

/// The same of the records of two keys, opened again and again.
fn are_found<S: Alter + Drop>(alloc: Global, mut conn: Connection<S>) -> bool {
    let mut are_so = true;
    for again in &AGAIN {
        let (is_so, next) = is_found(alloc, conn, again);
        conn = next;
        are_so = are_so && is_so;
    }
    drop(conn);
    are_so
}

/// The same of the records of this replica, where the keys are put.
fn is_opened_again<S: Alter + Drop>(alloc: Global, mut replica: Replica<S>) -> bool {
    let are_put = answers(alloc, &mut replica, &PUTS);
    are_found(alloc, conn_of(replica)) && are_put
}

#[test]
fn two_keys_are_opened_again(rt: HostRuntime) -> Result<(), Fail> {
    let replica = new_replica(rt.alloc(), 1, &[])?;
    assert!(rt; is_opened_again(rt.alloc(), replica));
    Ok(())
}

const PUT_AT_A: &str = "0000001222016100000000000000077b2261223a327d";

const PUT_AT_C: &str = "0000001222016300000000000000077b2261223a337d";

/// Pushes to `b` of the dot 2:1 and of 2:2, which replaces it.
const PUSH_AT_B: &str =
    "0000003029016200000001000000020000000000000001000000000001000000020000000000000001000000077b2261223a347d";

const NEXT_AT_B: &str =
    "0000003029016200000001000000020000000000000002000000000001000000020000000000000002000000077b2261223a357d";

/// Writes of three commits: of keys that are new, one of them twice; of keys that are there, beside a new one, which is
/// put twice; and of one that is there.
const COMMITS: [&[&str]; 3] = [
    &[PUT, PUT_AT_A, PUT, PUSH_AT_B],
    &[PUT_AT_C, PUT_AT_A, NEXT_AT_B, PUT_AT_C],
    &[PUT],
];

/// Whether what these frames ask is accepted, in one commit.
fn share_a_commit<S: Alter>(
    alloc: Global,
    replica: &mut Replica<S>,
    frames: &[&str],
) -> Result<bool, Refusal> {
    let requests = requests_of(alloc, frames)?;
    let commits = replica.commits();
    let replies = replica.answer_all(&requests)?;
    let mut are_accepted = replies.len() == frames.len();
    for reply in &replies {
        are_accepted = are_accepted && !matches!(reply, Reply::Refused(_));
    }
    Ok(are_accepted && replica.commits() == commits.saturating_add(1))
}

/// Whether a replica commits the writes so.
fn are_committed<S: Alter>(alloc: Global, replica: &mut Replica<S>) -> Result<bool, Refusal> {
    for frames in &COMMITS {
        if !share_a_commit(alloc, replica, frames)? {
            return Ok(false);
        }
    }
    Ok(true)
}

/// What a replica holds: its root, and how many keys.
fn held<S: Alter + Drop>(replica: &Replica<S>) -> (Root, u32) {
    (root_of(replica), replica.key_count())
}

/// Whether a replica commits the writes, and its records have them when they are opened again.
fn has_all_writes<S: Alter + Drop>(
    alloc: Global,
    mut replica: Replica<S>,
) -> Result<bool, Refusal> {
    let are_committed = are_committed(alloc, &mut replica);
    let (root, keys) = held(&replica);
    let again = open_again(alloc, conn_of(replica), 1)?;
    let (same_root, same_keys) = held(&again);
    end(again);
    Ok(are_committed? && same_root == root && same_keys == 4 && keys == 4)
}

#[test]
fn new_keys_and_others_are_opened_again(rt: HostRuntime) -> Result<(), Fail> {
    let replica = new_replica(rt.alloc(), 1, &[])?;
    assert!(rt; has_all_writes(rt.alloc(), replica)?);
    Ok(())
}
