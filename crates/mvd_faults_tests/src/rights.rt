//! What a token allows over frames: each line of the table, of four tokens.
use super::host_calls::{feed, round, take};
use super::replica_calls::{Bytes, ROOM, end, new_replica, root_of};
use mvd_conn::{Guard, Passes, Right};
use mvd_dots::Refusal;
use mvd_host::Host;
use mvd_replica::Replica;
use sqlite::Alter;
use std::alloc::Global;
use std::test::Fail;

/// A token, whether it may write, and what keys begin with; and a Hello with it.
const TOKENS: [(&[u8], bool, &[u8], &str); 4] = [
    (
        b"all-that-there-is",
        true,
        b"",
        "000000142d0011616c6c2d746861742d74686572652d6973",
    ),
    (
        b"who-reads-it-all!",
        false,
        b"",
        "000000142d001177686f2d72656164732d69742d616c6c21",
    ),
    (
        b"writes-below-u1/!",
        true,
        b"u1/",
        "000000142d00117772697465732d62656c6f772d75312f21",
    ),
    (
        b"reads-below-u1/!!",
        false,
        b"u1/",
        "000000142d001172656164732d62656c6f772d75312f2121",
    ),
];

/// Requests, and which of the tokens allow them.
const ROWS: &[(&str, &str, [bool; 4])] = &[
    (
        "Get within",
        "00000006210475312f78",
        [true, true, true, true],
    ),
    (
        "Get beyond",
        "00000006210475322f78",
        [true, true, false, false],
    ),
    (
        "Get of a front of the prefix",
        "0000000421027531",
        [true, true, false, false],
    ),
    (
        "Put within",
        "00000015220475312f7800000000000000077b2261223a317d",
        [true, false, true, false],
    ),
    (
        "Put beyond",
        "00000015220475322f7800000000000000077b2261223a317d",
        [true, false, false, false],
    ),
    (
        "Delete within",
        "0000000a230475312f7800000000",
        [true, false, true, false],
    ),
    (
        "Delete beyond",
        "0000000a230475322f7800000000",
        [true, false, false, false],
    ),
    (
        "Push within",
        "0000000c290475312f78000000000000",
        [true, false, true, false],
    ),
    (
        "Push beyond",
        "0000000c290475322f78000000000000",
        [true, false, false, false],
    ),
    (
        "Keys of the prefix",
        "000000062b0375312f00",
        [true, true, true, true],
    ),
    (
        "Keys of a longer one",
        "000000072b0475312f7800",
        [true, true, true, true],
    ),
    (
        "Keys of a front of it",
        "000000042b017500",
        [true, true, false, false],
    ),
    ("Keys of all", "000000032b0000", [true, true, false, false]),
    (
        "Find",
        "0000000e2400016103000000000000000100",
        [true, true, false, false],
    ),
    (
        "Row",
        "0000000d25000176030000000000000001",
        [true, true, false, false],
    ),
    ("Rows", "000000052600017600", [true, true, false, false]),
    ("Node", "000000022700", [true, true, false, false]),
    ("Bucket", "00000006280300000000", [true, true, false, false]),
    (
        "Range",
        "000000172a00016103000000000000000103000000000000000100",
        [true, true, false, false],
    ),
    ("Conflicts", "000000022c00", [true, true, false, false]),
    (
        "Hello",
        "000000162d0013616e6f746865722d746f6b656e2d69742d6973",
        [true, true, true, true],
    ),
];

/// That it is not allowed, and what is told of a Hello and of a Bye.
const NOT_ADMITTED: &str = "00000002ee26";

const DONE: &str = "00000001a3";

const BYE: &str = "000000012f";

fn passes(alloc: Global) -> Result<Passes, Refusal> {
    let mut passes = Passes::new(alloc);
    for (token, writes, prefix, _) in &TOKENS {
        if let Some(right) = Right::new(*writes, prefix) {
            passes.add(token, right)?;
        }
    }
    Ok(passes)
}

// Each call stands in a helper with no clause, so that no proof carries the clauses of two.

fn admit(host: &mut Host) {
    let _ = host.admit(Some(Guard::Asks));
}

fn meet(host: &mut Host, passes: &Passes) {
    host.meet(0, passes);
}

/// What a client is told that sends these frames.
fn told_by<S: Alter>(
    alloc: Global,
    replica: &mut Replica<S>,
    passes: &Passes,
    frames: &[&str],
) -> Bytes {
    let mut host = Host::new(alloc);
    admit(&mut host);
    feed(&mut host, 0, Bytes::of(frames).bytes());
    for _ in frames {
        meet(&mut host, passes);
        round(alloc, &mut host, replica, &[0]);
    }
    let told = take(&mut host, 0, ROOM);
    drop(host);
    told
}

/// Whether a token allows a request just where it is to, whether the connection goes on, and the site is as it was where
/// it does not.
fn is_as_wanted(alloc: Global, request: &str, token: usize, wanted: bool) -> Result<bool, Refusal> {
    let passes = passes(alloc)?;
    let mut replica = new_replica(alloc, 1, &[])?;
    let before = root_of(&replica);
    let hello = TOKENS[token % 4].3;
    let told = told_by(alloc, &mut replica, &passes, &[hello, request, BYE]);
    let same = root_of(&replica) == before;
    end(replica);
    let denied = Bytes::of(&[DONE, NOT_ADMITTED, DONE]);
    Ok((told.bytes() == denied.bytes()) != wanted && (wanted || same))
}

#[test]
fn each_line_of_the_table(rt: HostRuntime) -> Result<(), Fail> {
    for (name, request, wanted) in ROWS {
        for token in 0..4 {
            let is = is_as_wanted(rt.alloc(), request, token, wanted[token])?;
            assert!(rt; is, "{name} of token {token}");
        }
    }
    Ok(())
}

/// Passes without the first token.
fn fewer(alloc: Global) -> Result<Passes, Refusal> {
    let mut passes = Passes::new(alloc);
    for (token, writes, prefix, _) in TOKENS.iter().skip(1) {
        if let Some(right) = Right::new(*writes, prefix) {
            passes.add(token, right)?;
        }
    }
    Ok(passes)
}

/// What a client is told whose token is taken away behind its first request, and which asks again.
fn told_late(alloc: Global) -> Result<Bytes, Refusal> {
    let (all, others) = (passes(alloc)?, fewer(alloc)?);
    let mut replica = new_replica(alloc, 1, &[])?;
    let mut host = Host::new(alloc);
    admit(&mut host);
    feed(&mut host, 0, Bytes::of(&[TOKENS[0].3]).bytes());
    meet(&mut host, &all);
    round(alloc, &mut host, &mut replica, &[0]);
    meet(&mut host, &others);
    round(alloc, &mut host, &mut replica, &[0]);
    feed(&mut host, 0, Bytes::of(&[BYE]).bytes());
    meet(&mut host, &others);
    round(alloc, &mut host, &mut replica, &[0]);
    let told = take(&mut host, 0, ROOM);
    drop(host);
    end(replica);
    Ok(told)
}

#[test]
fn a_token_that_is_gone(rt: HostRuntime) -> Result<(), Fail> {
    let told = told_late(rt.alloc())?;
    assert!(rt; told.bytes() == Bytes::of(&[DONE, NOT_ADMITTED]).bytes());
    Ok(())
}
