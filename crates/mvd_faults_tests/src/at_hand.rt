//! Requests at hand: clients that are no connections ask a host as values, and are told as values.
use super::host_calls::{admit_all, feed, round_at_hand, take};
use super::replica_calls::{
    Bytes, CLASH, CLASHES, GET, PUT, ROOM, STATE, Told, WRITTEN, end, new_replica, tells,
};
use mvd_dots::Refusal;
use mvd_frames::{decode_request, encode_reply};
use mvd_host::{AtHand, FIRST_AT_HAND, Host};
use mvd_replica::Replica;
use mvd_wire::{Reply, Request};
use sqlite::Alter;
use std::alloc::Global;
use std::test::Fail;

/// The replies to the second put at one key, and to the third.
const SECOND: &str = "0000000da2000000010000000000000002";

const THIRD: &str = "0000000da2000000010000000000000003";

// What is asked and told stands here as frames. Each call stands in a helper with no clause, so that no proof carries
// the clauses of two.

/// The request of a frame.
fn request_of(alloc: Global, frame: &str) -> Result<Request, Refusal> {
    match Bytes::of(&[frame]).bytes() {
        [_, _, _, _, kind, payload @ ..] => decode_request(alloc, *kind, payload),
        _ => Err(Refusal::BadKind),
    }
}

pub fn requests_of(alloc: Global, frames: &[&str]) -> Result<Vec<Request>, Refusal> {
    let mut requests = Vec::with_capacity(alloc, frames.len())?;
    for frame in frames {
        requests.push(request_of(alloc, frame)?)?;
    }
    Ok(requests)
}

/// A client asks what a frame does.
fn ask(alloc: Global, hand: &mut AtHand, client: u64, frame: &str) -> Result<(), Refusal> {
    hand.ask(client, request_of(alloc, frame)?)
}

/// A client asks all that these frames do, at once: what came of that, and how many requests are left.
fn ask_all(
    alloc: Global,
    hand: &mut AtHand,
    client: u64,
    frames: &[&str],
) -> Result<(Result<(), Refusal>, usize), Refusal> {
    let mut requests = requests_of(alloc, frames)?;
    let asked = hand.ask_all(client, &mut requests);
    Ok((asked, requests.len()))
}

/// The frame of a reply, which is made once more where memory was refused.
fn frame_of(alloc: Global, reply: &Reply) -> Bytes {
    let mut bytes = Bytes::of(&[]);
    for _ in 0..2u32 {
        if bytes.len == 0
            && let Ok(frame) = encode_reply(alloc, reply)
        {
            bytes.put(frame.as_slice());
        }
    }
    bytes
}

/// The next reply that is left, as a frame, with its client, if there is one.
fn next(alloc: Global, hand: &mut AtHand) -> Option<(u64, Bytes)> {
    let (client, reply) = hand.next()?;
    Some((client, frame_of(alloc, &reply)))
}

/// Whether the next reply that is left is this one, to this client.
fn tells_next(alloc: Global, hand: &mut AtHand, client: u64, reply: &str) -> bool {
    match next(alloc, hand) {
        Some((number, bytes)) => {
            number == client && matches!(tells(bytes.bytes(), reply), Told::Wanted)
        }
        None => false,
    }
}

/// Whether a client is told this reply alone to what a frame asks, in one round.
fn is_told<S: Alter>(
    alloc: Global,
    host: &mut Host,
    replica: &mut Replica<S>,
    hand: &mut AtHand,
    frame: &str,
    reply: &str,
) -> bool {
    if ask(alloc, hand, FIRST_AT_HAND, frame).is_err() {
        return false;
    }
    round_at_hand(alloc, host, replica, &[], hand);
    tells_next(alloc, hand, FIRST_AT_HAND, reply) && next(alloc, hand).is_none()
}

fn put_push_and_get_are_told(alloc: Global) -> Result<bool, Refusal> {
    let mut replica = new_replica(alloc, 1, &[])?;
    let mut host = Host::new(alloc);
    let mut hand = AtHand::new(alloc);
    let are_told = is_told(alloc, &mut host, &mut replica, &mut hand, PUT, WRITTEN)
        && is_told(alloc, &mut host, &mut replica, &mut hand, CLASH, CLASHES)
        && is_told(alloc, &mut host, &mut replica, &mut hand, GET, STATE);
    drop(hand);
    drop(host);
    end(replica);
    Ok(are_told)
}

#[test]
fn a_client_at_hand_is_told(rt: HostRuntime) -> Result<(), Fail> {
    assert!(rt; put_push_and_get_are_told(rt.alloc())?);
    Ok(())
}

/// Whether two puts that a client asks at once are told in their order, and share a commit with that of a connection.
fn puts_share_a_round<S: Alter>(
    alloc: Global,
    replica: &mut Replica<S>,
    host: &mut Host,
    hand: &mut AtHand,
) -> Result<bool, Refusal> {
    let client = FIRST_AT_HAND + 1;
    admit_all(host, 1);
    feed(host, 0, Bytes::of(&[PUT]).bytes());
    let asked = ask_all(alloc, hand, client, &[PUT, PUT])?;
    round_at_hand(alloc, host, replica, &[0], hand);
    let are_told = tells_next(alloc, hand, client, WRITTEN)
        && tells_next(alloc, hand, client, SECOND)
        && next(alloc, hand).is_none();
    let is_third = matches!(tells(take(host, 0, ROOM).bytes(), THIRD), Told::Wanted);
    Ok(matches!(asked, (Ok(()), 0)) && are_told && is_third && replica.commits() == 1)
}

/// Whether none of these may be asked at hand, and a round does nothing then: what has the number of a connection, alone
/// or among others.
fn are_refused<S: Alter>(
    alloc: Global,
    replica: &mut Replica<S>,
    host: &mut Host,
    hand: &mut AtHand,
) -> Result<bool, Refusal> {
    let one = ask(alloc, hand, FIRST_AT_HAND - 1, PUT);
    let all = ask_all(alloc, hand, FIRST_AT_HAND - 1, &[PUT, GET])?;
    let are_bad = matches!(
        (one, all),
        (Err(Refusal::BadKind), (Err(Refusal::BadKind), 2))
    );
    round_at_hand(alloc, host, replica, &[], hand);
    Ok(are_bad && next(alloc, hand).is_none() && replica.commits() == 0)
}

/// What comes of one of these for a new replica.
fn comes_of(alloc: Global, shares: bool) -> Result<bool, Refusal> {
    let mut replica = new_replica(alloc, 1, &[])?;
    let mut host = Host::new(alloc);
    let mut hand = AtHand::new(alloc);
    let is_so = if shares {
        puts_share_a_round(alloc, &mut replica, &mut host, &mut hand)
    } else {
        are_refused(alloc, &mut replica, &mut host, &mut hand)
    };
    drop(hand);
    drop(host);
    end(replica);
    is_so
}

#[test]
fn what_is_at_hand_shares_a_round(rt: HostRuntime) -> Result<(), Fail> {
    assert!(rt; comes_of(rt.alloc(), true)?);
    Ok(())
}

#[test]
fn what_may_not_wait_is_refused(rt: HostRuntime) -> Result<(), Fail> {
    assert!(rt; comes_of(rt.alloc(), false)?);
    Ok(())
}

/// A client asks what a frame does, once more where memory was refused.
fn ask_again(alloc: Global, hand: &mut AtHand, client: u64, frame: &str) {
    if ask(alloc, hand, client, frame).is_err() {
        let _ = ask(alloc, hand, client, frame);
    }
}

/// The same at once of all that these frames do.
fn ask_all_again(alloc: Global, hand: &mut AtHand, client: u64, frames: &[&str]) {
    let made = match requests_of(alloc, frames) {
        Ok(requests) => Ok(requests),
        Err(_) => requests_of(alloc, frames),
    };
    if let Ok(mut requests) = made {
        if hand.ask_all(client, &mut requests).is_err() {
            let _ = hand.ask_all(client, &mut requests);
        }
        drop(requests);
    }
}

/// Puts each reply that is left in its place: that to the first client is the first, and those to the other, of which so
/// many came before, are the second and the third. How many came to the other.
fn put_told(alloc: Global, hand: &mut AtHand, others: usize, told: &mut [Bytes; 3]) -> usize {
    let mut count = others;
    for _ in 0..3u32 {
        if let Some((client, bytes)) = next(alloc, hand) {
            let is_other = client != FIRST_AT_HAND;
            count = count.saturating_add(usize::from(is_other));
            if let Some(output) = told.get_mut(if is_other { count } else { 0 }) {
                output.put(bytes.bytes());
            }
        }
    }
    count
}

/// What two clients at hand are told, of whom the first asks what the first of three frames does, and the second what
/// the other two do, all of them in one round, or in two where memory was refused, the other client first or last: the
/// replies to the first of three behind each other, and so on.
pub fn told_at_hand<S: Alter>(alloc: Global, replica: &mut Replica<S>, frames: &[&str]) -> Bytes {
    let mut told = [Bytes::of(&[]); 3];
    let mut host = Host::new(alloc);
    let mut hand = AtHand::new(alloc);
    for each in frames.chunks(3) {
        if let [first, others @ ..] = each {
            ask_again(alloc, &mut hand, FIRST_AT_HAND, first);
            ask_all_again(alloc, &mut hand, FIRST_AT_HAND + 1, others);
        }
        let mut others = 0;
        for _ in 0..2u32 {
            round_at_hand(alloc, &mut host, replica, &[], &mut hand);
            others = put_told(alloc, &mut hand, others, &mut told);
        }
    }
    drop(hand);
    drop(host);
    let mut output = Bytes::of(&[]);
    for bytes in &told {
        output.put(bytes.bytes());
    }
    output
}
