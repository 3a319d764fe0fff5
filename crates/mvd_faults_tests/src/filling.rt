//! What one client may fill: how many of its pushes share a commit, how many of its changes of a long state a round takes,
//! and how many bytes wait for it where it asks for much and reads nothing.
use super::host_calls::{admit_all, drop_waiting, feed, round};
use super::replica_calls::{Bytes, counted, end, new_replica, push};
use mvd_dots::Refusal;
use mvd_host::Host;
use mvd_replica::Replica;
use sqlite::Alter;
use std::alloc::Global;
use std::test::Fail;

/// The bytes of a push around the letter of its key.
const PUSH: [&str; 2] = [
    "00000030290161",
    "00000001000000090000000000000001000000000001000000090000000000000001000000077b2261223a327d",
];

/// The bytes of a put before its document, which is of 60,008 bytes, and the ends of the document.
const PUT: [&str; 3] = ["0000ea7322016b000000000000ea68", "7b227a223a22", "227d"];

/// A put of the shortest document.
const SHORT: &str = "0000000d22016b00000000000000027b7d";

/// The number of puts that leave a state of over a million bytes, and of those that come to it at once.
const LONG: u32 = 17;

const SHORTS: usize = 8;

const GET: &str = "0000000321016b";

/// The number of puts that are siblings: the key's state has more than 300,000 bytes then.
const PUTS: u32 = 5;

const GETS: usize = 64;

/// A push to each of so many keys.
fn pushes(alloc: Global, count: u8) -> Vec<u8> {
    let mut bytes = Vec::new(alloc);
    for at in 0..count {
        let mut frame = Bytes::of(&PUSH);
        frame.room[6] = at.saturating_add(33);
        push(&mut bytes, frame.bytes());
    }
    bytes
}

/// A put of the long document.
fn put(alloc: Global) -> Vec<u8> {
    let mut bytes = Vec::new(alloc);
    push(&mut bytes, Bytes::of(&PUT[..2]).bytes());
    for _ in 0..600u32 {
        push(&mut bytes, [b'x'; 100].as_slice());
    }
    push(&mut bytes, Bytes::of(&PUT[2..]).bytes());
    bytes
}

fn gets(alloc: Global) -> Vec<u8> {
    let mut bytes = Vec::new(alloc);
    for _ in 0..GETS {
        push(&mut bytes, Bytes::of(&[GET]).bytes());
    }
    bytes
}

/// How many replies wait, and how many bytes.
fn waiting(host: &Host) -> (usize, usize) {
    let waits = host.waiting(0).unwrap_or(&[]);
    (counted(waits).0, waits.len())
}

/// The most rounds that it takes to answer all that may be answered.
fn rounds<S: Alter>(alloc: Global, host: &mut Host, replica: &mut Replica<S>) {
    for _ in 0..GETS {
        round(alloc, host, replica, &[0]);
    }
}

/// How many replies wait after one round of these bytes, and how many commits were made.
fn filled<S: Alter>(alloc: Global, replica: &mut Replica<S>, bytes: &[u8]) -> (usize, u64) {
    let mut host = Host::new(alloc);
    admit_all(&mut host, 1);
    feed(&mut host, 0, bytes);
    round(alloc, &mut host, replica, &[0]);
    let told = waiting(&host);
    drop(host);
    (told.0, replica.commits())
}

/// Of puts to a state of 1,020,000 bytes that come at once: how many replies wait after one round, and how many commits
/// that made.
fn weighed<S: Alter>(alloc: Global, replica: &mut Replica<S>) -> (usize, u64) {
    let mut host = Host::new(alloc);
    admit_all(&mut host, 1);
    let put = put(alloc);
    for _ in 0..LONG {
        feed(&mut host, 0, put.as_slice());
        round(alloc, &mut host, replica, &[0]);
        drop_waiting(&mut host, 0);
    }
    drop(put);
    let before = replica.commits();
    let shorts = shorts(alloc);
    feed(&mut host, 0, shorts.as_slice());
    drop(shorts);
    round(alloc, &mut host, replica, &[0]);
    let told = waiting(&host);
    drop(host);
    (told.0, replica.commits().saturating_sub(before))
}

fn shorts(alloc: Global) -> Vec<u8> {
    let mut bytes = Vec::new(alloc);
    for _ in 0..SHORTS {
        push(&mut bytes, Bytes::of(&[SHORT]).bytes());
    }
    bytes
}

/// How many replies to the gets of the long state wait at most, how many bytes, and how many replies there are when all
/// of them were read.
fn pressed<S: Alter>(alloc: Global, replica: &mut Replica<S>) -> (usize, usize, usize) {
    let mut host = Host::new(alloc);
    admit_all(&mut host, 1);
    let put = put(alloc);
    for _ in 0..PUTS {
        feed(&mut host, 0, put.as_slice());
        round(alloc, &mut host, replica, &[0]);
        drop_waiting(&mut host, 0);
    }
    drop(put);
    let gets = gets(alloc);
    feed(&mut host, 0, gets.as_slice());
    drop(gets);
    let mut most = (0, 0);
    let mut all = 0usize;
    for _ in 0..GETS {
        rounds(alloc, &mut host, replica);
        let now = waiting(&host);
        all = all.saturating_add(now.0);
        most = (now.0.max(most.0), now.1.max(most.1));
        drop_waiting(&mut host, 0);
    }
    drop(host);
    (most.0, most.1, all)
}

#[test]
fn pushes_share_a_commit(rt: HostRuntime) -> Result<(), Fail> {
    let bytes = pushes(rt.alloc(), 90);
    let told = filled_of(rt.alloc(), bytes.as_slice())?;
    drop(bytes);
    assert_eq!(rt; told, (90, 1));
    Ok(())
}

fn filled_of(alloc: Global, bytes: &[u8]) -> Result<(usize, u64), Refusal> {
    let mut replica = new_replica(alloc, 1, &[])?;
    let told = filled(alloc, &mut replica, bytes);
    end(replica);
    Ok(told)
}

/// Four states have 4,080,000 bytes, and five are more than a round and a commit may have: the others wait.
#[test]
fn long_states_wait_for_a_round(rt: HostRuntime) -> Result<(), Fail> {
    let told = weighed_of(rt.alloc())?;
    assert_eq!(rt; told, (5, 1));
    Ok(())
}

fn weighed_of(alloc: Global) -> Result<(usize, u64), Refusal> {
    let mut replica = new_replica(alloc, 1, &[])?;
    let told = weighed(alloc, &mut replica);
    end(replica);
    Ok(told)
}

#[test]
fn one_long_reply_waits(rt: HostRuntime) -> Result<(), Fail> {
    let (replies, bytes, all) = pressed_of(rt.alloc())?;
    println!(rt; "{replies} replies and {bytes} bytes waited, of {all} replies")?;
    assert!(rt; replies == 1 && bytes > 300_000 && bytes < 301_000);
    assert_eq!(rt; all, GETS);
    Ok(())
}

fn pressed_of(alloc: Global) -> Result<(usize, usize, usize), Refusal> {
    let mut replica = new_replica(alloc, 1, &[])?;
    let told = pressed(alloc, &mut replica);
    end(replica);
    Ok(told)
}
