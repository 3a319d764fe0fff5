//! A window that is asked by mail, whose replies come in pieces.
use mvd_dots::Refusal;
use mvd_keys::Key;
use mvd_meet::Caller;
use mvd_peer::{Told, Window};
use std::alloc::Global;
use std::test::Fail;

/// The reply to a get of a key that has no value.
const REPLY: [u8; 11] = [0, 0, 0, 7, 0xA1, 0, 0, 0, 0, 0, 0];

fn two_gets(alloc: Global) -> Result<Window, Refusal> {
    let mut keys = Vec::new(alloc);
    keys.push(Key::read(alloc, "a")?)?;
    keys.push(Key::read(alloc, "b")?)?;
    Ok(Window::Gets(keys))
}

/// Feeds a reply in pieces of so many bytes. Whether something was due before each of them.
fn comes(caller: &mut Caller, reply: &[u8], size: usize) -> Result<bool, Refusal> {
    let mut was_due = true;
    for piece in reply.chunks(size.max(1)) {
        was_due = was_due && !caller.has_all();
        caller.feed(piece)?;
    }
    Ok(was_due)
}

/// Whether two states are told, once the replies to both gets came.
fn is_told(alloc: Global, size: usize) -> Result<bool, Refusal> {
    let mut caller = Caller::new(alloc);
    caller.ask(&two_gets(alloc)?)?;
    let was_due = comes(&mut caller, &REPLY, size)? && comes(&mut caller, &REPLY, size)?;
    let has_all = caller.has_all();
    match caller.tell() {
        Some(Told::States(states)) => {
            Ok(was_due && has_all && states.len() == 2 && states.iter().all(|state| state.is_ok()))
        }
        _ => Ok(false),
    }
}

/// Whether a reply of another kind is told as such, though the second never comes.
fn is_refused(alloc: Global) -> Result<bool, Refusal> {
    let mut caller = Caller::new(alloc);
    caller.ask(&two_gets(alloc)?)?;
    caller.feed(&[0, 0, 0, 1, 0xA3])?;
    let has_all = caller.has_all();
    match caller.tell() {
        Some(Told::Refused(refusal)) => Ok(has_all && refusal == Refusal::BadKind),
        _ => Ok(false),
    }
}

#[test]
fn replies_that_come_in_pieces(rt: HostRuntime) -> Result<(), Fail> {
    for size in [1, 3, 11] {
        assert!(rt; is_told(rt.alloc(), size)?, "{size}");
    }
    assert!(rt; is_refused(rt.alloc())?);
    Ok(())
}
