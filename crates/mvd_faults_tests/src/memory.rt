//! One growth that is refused, whichever it is: tools/faults.sh refuses each in turn. With none refused all is as ever.
use super::asked_sites::ASKED;
use super::at_hand::told_at_hand;
use super::damaged::THREE_OLD;
use super::host_calls::told_by_three;
use super::replica_calls::{
    Bytes, EMPTY, GET, PUT, STATE, Told, WRITTEN, asks, conn_of, end, first_frame, new_replica,
    open_again, serves, tells,
};
use super::stream_ways::ALL;
use mvd_dots::Refusal;
use mvd_replica::Replica;
use sqlite::Alter;
use std::alloc::Global;
use std::test::Fail;

// These are for any store: a proof about one that is known carries its clauses.

/// The same replica; one that is broken tells it once more, and is opened again.
fn mended<S: Alter + Drop>(
    alloc: Global,
    mut replica: Replica<S>,
    number: u32,
) -> Result<Replica<S>, Refusal> {
    if !replica.is_broken() {
        return Ok(replica);
    }
    let told = asks(alloc, &mut replica, GET, STATE);
    let conn = conn_of(replica);
    if matches!(told, Told::Broken) {
        open_again(alloc, conn, number)
    } else {
        drop(conn);
        Err(Refusal::Damaged)
    }
}

/// Whether a replica answers a request as a line says, on a connection of its own.
fn line_is_answered<S: Alter + Drop>(alloc: Global, replica: &mut Replica<S>, line: &str) -> bool {
    let (request, wanted) = line.split_once(' ').unwrap_or(("", ""));
    matches!(asks(alloc, replica, request, wanted), Told::Wanted)
}

/// The number of the first line, from one on, that a replica answers otherwise; how many there are where it answers
/// all as it should.
fn answered<S: Alter + Drop>(
    alloc: Global,
    replica: &mut Replica<S>,
    asked: &str,
    from: usize,
) -> usize {
    let mut count = 0usize;
    for line in asked.lines() {
        if count >= from && !line_is_answered(alloc, replica, line) {
            return count;
        }
        count = count.saturating_add(1);
    }
    count
}

/// Whether a replica answers as it should; one that is broken is opened again, and has the write.
fn all_is_answered<S: Alter + Drop>(
    alloc: Global,
    mut replica: Replica<S>,
    number: u32,
    asked: &str,
) -> Result<bool, Refusal> {
    let count = answered(alloc, &mut replica, asked, 0);
    let from = count.saturating_add(usize::from(replica.is_broken()));
    let mut replica = mended(alloc, replica, number)?;
    let last = answered(alloc, &mut replica, asked, from);
    end(replica);
    Ok(last == asked.lines().count() && (from > count || count == last))
}

/// The statements by which the records of a site are made.
fn statements_of(head: &str) -> &'static [&'static str] {
    match head {
        "1 old" => THREE_OLD,
        _ => &[],
    }
}

fn number_of(head: &str) -> u32 {
    match head {
        "2 new" => 2,
        "3 new" => 3,
        _ => 1,
    }
}

/// Whether a new replica answers what a site is asked.
fn site_answers(alloc: Global, site: &str) -> Result<bool, Refusal> {
    let (head, asked) = site.split_once('\n').unwrap_or(("", ""));
    let number = number_of(head);
    let replica = new_replica(alloc, number, statements_of(head))?;
    all_is_answered(alloc, replica, number, asked)
}

#[test]
fn a_replica_is_asked_again(rt: HostRuntime) -> Result<(), Fail> {
    for site in ASKED.split('#') {
        assert!(rt; site_answers(rt.alloc(), site)?, "{site}");
    }
    Ok(())
}

const PUT_AT_A: &str = "0000001222016100000000000000077b2261223a327d";

const FIND: &str = "0000000e2400016103000000000000000200";

const PUT_AT_B: &str =
    "00000025220162000000000000001a7b22616d6f756e74223a352c2263697479223a224f736c6f227d";

const ROW: &str = "0000000f2500057370656e640400044f736c6f";

/// The frames of all pairs on one connection, and those of three clients: the puts share a round, and so do the
/// questions.
const AT_ONCE: [&str; 6] = [PUT, GET, PUT_AT_A, FIND, PUT_AT_B, ROW];

const IN_ROUNDS: [&str; 6] = [PUT, PUT_AT_A, PUT_AT_B, GET, FIND, ROW];

/// A put, a question that it bears on, and the replies to this with the put and without.
type Pair = (&'static str, &'static str, &'static str, &'static str);

const PAIRS: [Pair; 3] = [
    (PUT, GET, STATE, EMPTY),
    (
        PUT_AT_A,
        FIND,
        "0000001ba40000010300000000000000020161000000010000000000000001",
        "00000004a4000000",
    ),
    (
        PUT_AT_B,
        ROW,
        "0000002aa50000000000000001000000000000000000000000000000050100000000000000050000000000000005",
        "0000001aa500000000000000000000000000000000000000000000000000",
    ),
];

/// Whether a put and the question behind it may be answered so, where the put is there afterwards or not. The put
/// that breaks the site is there; of those behind it only such as share its commit may be. Where puts share a commit,
/// a later one may break the site before the question is asked.
fn may_tell(put: Told, question: Told, is_there: bool, was_broken: bool, shares: bool) -> bool {
    match (put, question) {
        (Told::Wanted, Told::Wanted | Told::Refused | Told::Nothing) => is_there,
        (Told::Wanted, Told::Broken) => shares && is_there,
        (Told::Refused, Told::Wanted | Told::Nothing) => !is_there,
        (Told::Nothing, Told::Nothing) => !is_there,
        (Told::Broken, Told::Broken) => is_there != was_broken || (shares && is_there),
        _ => false,
    }
}

/// Whether a replica has the put of a pair; `None` where it answers neither with it nor without.
fn has_put<S: Alter + Drop>(alloc: Global, replica: &mut Replica<S>, pair: &Pair) -> Option<bool> {
    if matches!(asks(alloc, replica, pair.1, pair.2), Told::Wanted) {
        return Some(true);
    }
    match asks(alloc, replica, pair.1, pair.3) {
        Told::Wanted => Some(false),
        _ => None,
    }
}

/// Whether the frames for a pair tell what the replica has afterwards; and what the first one tells.
fn pair_tells<S: Alter + Drop>(
    alloc: Global,
    replica: &mut Replica<S>,
    pair: &Pair,
    frames: (&[u8], &[u8]),
    was_broken: bool,
    shares: bool,
) -> (bool, Told) {
    let put = tells(frames.0, WRITTEN);
    let wanted = match put {
        Told::Wanted => pair.2,
        _ => pair.3,
    };
    let question = tells(frames.1, wanted);
    let may_be = match has_put(alloc, replica, pair) {
        Some(is_there) => may_tell(put, question, is_there, was_broken, shares),
        None => false,
    };
    (may_be, put)
}

/// Whether the frames for the pairs tell what the replica has afterwards, where the puts may share a commit or not.
fn pairs_tell<S: Alter + Drop>(
    alloc: Global,
    replica: &mut Replica<S>,
    mut output: &[u8],
    shares: bool,
) -> bool {
    let mut was_broken = false;
    for pair in &PAIRS {
        let (put, rest) = first_frame(output);
        let (question, rest) = first_frame(rest);
        output = rest;
        let (may_be, told) = pair_tells(alloc, replica, pair, (put, question), was_broken, shares);
        if !may_be {
            return false;
        }
        was_broken = was_broken || matches!(told, Told::Broken);
    }
    true
}

/// What one connection is told of all pairs. (Where it ends otherwise than it may, that is a frame that no reply is.)
fn told_at_once<S: Alter + Drop>(alloc: Global, replica: &mut Replica<S>) -> Bytes {
    let (output, ended) = serves(alloc, replica, &Bytes::of(&AT_ONCE), ALL, ALL);
    if ended == "end" || ended == "Memory" {
        output
    } else {
        Bytes::of(&["0000000100"])
    }
}

/// How the pairs are asked: on one connection, or in rounds: by three connections, or at hand.
#[derive(Clone, Copy)]
enum Way {
    Single,
    Connections,
    Hand,
}

/// What clients are told of all pairs.
fn told_by<S: Alter + Drop>(alloc: Global, replica: &mut Replica<S>, way: Way) -> Bytes {
    match way {
        Way::Single => told_at_once(alloc, replica),
        Way::Connections => told_by_three(alloc, replica, &IN_ROUNDS),
        Way::Hand => told_at_hand(alloc, replica, &IN_ROUNDS),
    }
}

/// Whether clients of a new replica are told of the pairs what is there; one that is broken then is opened again.
fn all_is_told<S: Alter + Drop>(
    alloc: Global,
    mut replica: Replica<S>,
    way: Way,
) -> Result<bool, Refusal> {
    let output = told_by(alloc, &mut replica, way);
    let mut replica = mended(alloc, replica, 1)?;
    let shares = !matches!(way, Way::Single);
    let are_told = pairs_tell(alloc, &mut replica, output.bytes(), shares);
    end(replica);
    Ok(are_told)
}

fn pairs_are_told(alloc: Global, way: Way) -> Result<bool, Refusal> {
    all_is_told(alloc, new_replica(alloc, 1, &[])?, way)
}

#[test]
fn a_connection_tells_what_is_there(rt: HostRuntime) -> Result<(), Fail> {
    assert!(rt; pairs_are_told(rt.alloc(), Way::Single)?);
    Ok(())
}

#[test]
fn a_round_tells_what_is_there(rt: HostRuntime) -> Result<(), Fail> {
    assert!(rt; pairs_are_told(rt.alloc(), Way::Connections)?);
    Ok(())
}

#[test]
fn a_round_tells_at_hand_what_is_there(rt: HostRuntime) -> Result<(), Fail> {
    assert!(rt; pairs_are_told(rt.alloc(), Way::Hand)?);
    Ok(())
}
