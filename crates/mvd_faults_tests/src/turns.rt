//! Puts and questions of one client in turns: they share a commit where no question asks for what a put changes.
use super::host_calls::{admit_all, feed, round, take};
use super::replica_calls::{Bytes, GET, PUT, ROOM, counted, end, new_replica};
use mvd_dots::Refusal;
use mvd_host::Host;
use mvd_replica::Replica;
use sqlite::Alter;
use std::alloc::Global;
use std::test::Fail;

/// A question for the state of `j`, which nobody writes.
const OTHER: &str = "0000000321016a";

/// The replies to eight puts and eight of these questions in turns, in one round: how many they are, how many of them
/// are a dot, how many bytes are none, and how many commits the puts were.
fn told<S: Alter>(
    alloc: Global,
    host: &mut Host,
    replica: &mut Replica<S>,
    question: &str,
) -> ((usize, usize, usize), u64) {
    admit_all(host, 1);
    let mut frames = Bytes::of(&[]);
    for _ in 0..8u32 {
        frames.add(PUT);
        frames.add(question);
    }
    feed(host, 0, frames.bytes());
    round(alloc, host, replica, &[0]);
    (counted(take(host, 0, ROOM).bytes()), replica.commits())
}

/// The same of a new replica.
fn told_anew(alloc: Global, question: &str) -> Result<((usize, usize, usize), u64), Refusal> {
    let mut replica = new_replica(alloc, 1, &[])?;
    let mut host = Host::new(alloc);
    let it = told(alloc, &mut host, &mut replica, question);
    drop(host);
    end(replica);
    Ok(it)
}

#[test]
fn puts_and_questions_in_turns_are_one_commit(rt: HostRuntime) -> Result<(), Fail> {
    let (replies, commits) = told_anew(rt.alloc(), OTHER)?;
    assert!(rt; replies == (16, 8, 0));
    assert!(rt; commits == 1);
    Ok(())
}

#[test]
fn a_question_for_what_a_put_changes_waits_for_its_commit(rt: HostRuntime) -> Result<(), Fail> {
    let (_, commits) = told_anew(rt.alloc(), GET)?;
    assert!(rt; commits == 8);
    Ok(())
}
