//! Who may come in: what a client is told that has to show a token, and one that has not.
use super::host_calls::{feed, round, take};
use super::replica_calls::{Bytes, EMPTY, GET, PUT, ROOM, WRITTEN, end, new_replica, root_of};
use mvd_conn::{Guard, Passes, Right};
use mvd_dots::Refusal;
use mvd_host::Host;
use mvd_replica::Replica;
use sqlite::Alter;
use std::alloc::Global;
use std::test::Fail;

const TOKEN: &[u8] = b"sixteen-letters!";

/// A Hello with that token, and its reply.
const HELLO: &str = "000000132d00107369787465656e2d6c65747465727321";

const DONE: &str = "00000001a3";

/// With another last byte, with half of it, and with none.
const OTHER: &str = "000000132d00107369787465656e2d6c65747465727320";

const HALF: &str = "0000000b2d00087369787465656e2d";

const NONE: &str = "000000032d0000";

/// That a client is not let in.
const NOT_ADMITTED: &str = "00000002ee26";

// Each call stands in a helper with no clause, so that no proof carries the clauses of two.

fn admit(host: &mut Host, guard: Option<Guard>) {
    let _ = host.admit(guard);
}

fn meet(host: &mut Host, passes: Option<&Passes>) {
    if let Some(passes) = passes {
        host.meet(0, passes);
    }
}

/// The passes of this token alone.
fn passes_of(alloc: Global, token: &[u8]) -> Result<Passes, Refusal> {
    let mut passes = Passes::new(alloc);
    passes.add(token, Right::ALL)?;
    Ok(passes)
}

fn goes_on(host: &Host) -> bool {
    host.ending(0).is_none()
}

/// What a client is told that sends these frames in pieces of so many bytes, and whether its connection goes on.
fn told_by<S: Alter>(
    alloc: Global,
    replica: &mut Replica<S>,
    passes: Option<&Passes>,
    frames: &[&str],
    size: usize,
) -> (Bytes, bool) {
    let mut host = Host::new(alloc);
    admit(&mut host, passes.map(|_| Guard::Asks));
    for piece in Bytes::of(frames).bytes().chunks(size.max(1)) {
        feed(&mut host, 0, piece);
        meet(&mut host, passes);
        round(alloc, &mut host, replica, &[0]);
    }
    // Each of them is answered in a round of its own, if it has to be.
    for _ in frames {
        meet(&mut host, passes);
        round(alloc, &mut host, replica, &[0]);
    }
    let told = take(&mut host, 0, ROOM);
    let goes_on = goes_on(&host);
    drop(host);
    (told, goes_on)
}

/// Whether a client of a new site that sends these frames is told these, whether its connection goes on as is wanted,
/// and whether the site has a key then as is wanted.
fn is_told(
    alloc: Global,
    passes: Option<&Passes>,
    sent: &[&str],
    told: &[&str],
    goes: bool,
    writes: bool,
) -> Result<bool, Refusal> {
    let mut as_wanted = true;
    for size in [1, 7, ROOM] {
        let mut replica = new_replica(alloc, 1, &[])?;
        let before = root_of(&replica);
        let (came, went) = told_by(alloc, &mut replica, passes, sent, size);
        let wrote = root_of(&replica) != before;
        end(replica);
        as_wanted &= came.bytes() == Bytes::of(told).bytes() && went == goes && wrote == writes;
    }
    Ok(as_wanted)
}

#[test]
fn the_token_lets_in(rt: HostRuntime) -> Result<(), Fail> {
    let alloc = rt.alloc();
    let passes = passes_of(alloc, TOKEN)?;
    let passes = Some(&passes);
    let sent = [HELLO, GET, HELLO, PUT];
    let told = [DONE, EMPTY, DONE, WRITTEN];
    assert!(rt; is_told(alloc, passes, &[HELLO], &[DONE], true, false)?);
    assert!(rt; is_told(alloc, passes, &sent, &told, true, true)?);
    Ok(())
}

#[test]
fn nothing_else_does(rt: HostRuntime) -> Result<(), Fail> {
    let passes = passes_of(rt.alloc(), TOKEN)?;
    let passes = Some(&passes);
    let told = [NOT_ADMITTED];
    for first in [OTHER, HALF, NONE, GET, PUT] {
        assert!(rt; is_told(rt.alloc(), passes, &[first], &told, false, false)?);
        assert!(rt;
            is_told(
                rt.alloc(),
                passes,
                &[first, HELLO, PUT],
                &told,
                false,
                false
            )?
        );
    }
    Ok(())
}

#[test]
fn without_a_token_each_hello_is_done(rt: HostRuntime) -> Result<(), Fail> {
    for hello in [NONE, HELLO, OTHER] {
        let told = [DONE, WRITTEN, DONE];
        assert!(rt; is_told(rt.alloc(), None, &[hello, PUT, hello], &told, true, true)?);
    }
    Ok(())
}
