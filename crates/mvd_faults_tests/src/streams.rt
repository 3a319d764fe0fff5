//! Readers and writers that fail in the middle, where they give and take all at once or a byte a call.
use super::replica_calls::{
    BAD_CONTEXT, Bytes, CLASH, CLASHES, EMPTY, GET, PUT, STATE, Told, WIDE, WRITTEN, asks, end,
    new_replica, serves,
};
use super::stream_ways::{ALL, BYTE, FAILS, NOTHING, WHOLE, Way, Ways};
use mvd_dots::Refusal;
use mvd_replica::Replica;
use sqlite::Alter;
use std::alloc::Global;
use std::test::Fail;

/// Requests, of which the fourth is of no kind, and the fifth is a Bye that is malformed; the last is a row of a view
/// of the three puts before it. And the replies.
const REQUESTS: [&str; 10] = [
    PUT,
    WIDE,
    CLASH,
    "0000000170",
    "000000022f00",
    GET,
    "00000025220161000000000000001a7b22616d6f756e74223a352c2263697479223a224f736c6f227d",
    "00000026220161000000000000001b7b22616d6f756e74223a2d372c2263697479223a224f736c6f227d",
    "0000001a220162000000000000000f7b2263697479223a224f736c6f227d",
    "0000000f2500057370656e640400044f736c6f",
];

const REPLIES: [&str; 10] = [
    WRITTEN,
    BAD_CONTEXT,
    CLASHES,
    "00000002ee20",
    "00000002ee21",
    STATE,
    WRITTEN,
    "0000000da2000000010000000000000002",
    WRITTEN,
    "0000002aa50000000000000003fffffffffffffffffffffffffffffffe01fffffffffffffff90000000000000005",
];

/// What a connection gives, how it ends, and whether a put of `PUT` is there.
type Given = (Bytes, &'static str, bool);

/// What a replica's first connection with these requests gives over such streams.
fn connected<S: Alter + Drop>(
    alloc: Global,
    mut replica: Replica<S>,
    read: Ways,
    write: Ways,
) -> Given {
    let (output, ended) = serves(alloc, &mut replica, &Bytes::of(&REQUESTS), read, write);
    let is_put = matches!(asks(alloc, &mut replica, GET, STATE), Told::Wanted);
    end(replica);
    (output, ended, is_put)
}

/// The same of a new replica.
fn given(alloc: Global, read: Ways, write: Ways) -> Result<Given, Refusal> {
    Ok(connected(alloc, new_replica(alloc, 1, &[])?, read, write))
}

/// How many requests these bytes are the replies to, where the refusal of the reading follows.
fn answered_before(output: &[u8]) -> Option<usize> {
    for requests in 0..=REPLIES.len() {
        let mut wanted = Bytes::of(&REPLIES[..requests]);
        wanted.add("00000002ee22");
        if output == wanted.bytes() {
            return Some(requests);
        }
    }
    None
}

/// Whether the connection may give this where a read failed, or else a write, and the put be there or not.
fn may_fail(of_reader: bool, output: &[u8], ended: &str, is_put: bool) -> bool {
    if of_reader {
        let answered = answered_before(output);
        return ended == "ReadFailed" && answered.is_some() && is_put == (answered != Some(0));
    }
    let whole = Bytes::of(&REPLIES);
    let whole = whole.bytes();
    ended == "WriteFailed" && whole.starts_with(output) && output.len() < whole.len() && is_put
}

/// A stream's calls, of which each in turn goes one way and the others another.
type Calls = (&'static str, bool, Way, Way);

const CALLS: [Calls; 6] = [
    ("reads fail", true, FAILS, WHOLE),
    ("reads of a byte fail", true, FAILS, BYTE),
    ("writes fail", false, FAILS, WHOLE),
    ("writes take nothing", false, NOTHING, WHOLE),
    ("writes of a byte fail", false, FAILS, BYTE),
    ("writes of a byte take nothing", false, NOTHING, BYTE),
];

/// How many calls there are, each of which fails as it should; where none fails, all replies are there.
fn failing(alloc: Global, calls: &Calls) -> Result<usize, Fail> {
    for before in 0..1_000usize {
        let ways = (before, calls.2, calls.3);
        let (read, write) = if calls.1 { (ways, ALL) } else { (ALL, ways) };
        let (output, ended, is_put) = given(alloc, read, write)?;
        if ended == "end" && output.bytes() == Bytes::of(&REPLIES).bytes() {
            return Ok(before);
        }
        if !may_fail(calls.1, output.bytes(), ended, is_put) {
            return Err(Fail::new(format_args!("{}: {before}", calls.0)));
        }
    }
    Err(Fail::new("no connection went well"))
}

#[test]
fn each_read_and_write_may_fail(rt: HostRuntime) -> Result<(), Fail> {
    for calls in &CALLS {
        let count = failing(rt.alloc(), calls)?;
        println!(rt; "{count} {}", calls.0)?;
    }
    Ok(())
}

/// What a client of a site that holds nothing sends, what it is told, and how its connection ends.
type Exact = (&'static str, &'static str, &'static str);

const EXACT: [Exact; 8] = [
    (GET, EMPTY, "end"),
    // Cut after six bytes.
    ("000000032101", "00000002ee1e", "Truncated"),
    // A get of version 1, and one behind it.
    (
        "0000000301016b0000000321016b",
        "00000002ee2000000007a1000000000000",
        "end",
    ),
    // A frame of no kind, a malformed Bye, and a length of 0.
    (
        "0000000170000000022f0000000000",
        "00000002ee2000000002ee2100000002ee1f",
        "FrameTooLong",
    ),
    ("ffffffff", "00000002ee1f", "FrameTooLong"),
    // More siblings than there are, more loose counters than there are, and a site whose base is 0.
    ("0000000929016b00000000ffff", "00000002ee21", "end"),
    (
        "0000001722016b00000001000000010000000000000000ffffffff",
        "00000002ee21",
        "end",
    ),
    (
        "0000001722016b0000000100000001000000000000000000000000",
        BAD_CONTEXT,
        "end",
    ),
];

/// Whether a replica tells just that.
fn is_told<S: Alter + Drop>(alloc: Global, replica: &mut Replica<S>, exact: &Exact) -> bool {
    let (output, ended) = serves(alloc, replica, &Bytes::of(&[exact.0]), ALL, ALL);
    output.bytes() == Bytes::of(&[exact.1]).bytes() && ended == exact.2
}

/// How many of these connections a replica serves so, one after the other, until it does not.
fn told_exactly<S: Alter + Drop>(alloc: Global, mut replica: Replica<S>) -> usize {
    let mut count = 0usize;
    for exact in &EXACT {
        if !is_told(alloc, &mut replica, exact) {
            break;
        }
        count = count.saturating_add(1);
    }
    end(replica);
    count
}

#[test]
fn frames_are_answered_exactly(rt: HostRuntime) -> Result<(), Fail> {
    let replica = new_replica(rt.alloc(), 1, &[])?;
    assert_eq!(rt; told_exactly(rt.alloc(), replica), EXACT.len());
    Ok(())
}
