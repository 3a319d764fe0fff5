//! A remote site over bytes in memory.
use crate::peers::{Counting, written};
use crate::two_sites::meet;
use mvd_dots::Refusal;
use mvd_frames::decode_request;
use mvd_keys::{Key, KeyState};
use mvd_line_tests::{Served, ServedAmongOthers};
use mvd_peer::{Peer, Told, Window};
use mvd_remote::{Duplex, Remote};
use mvd_rows::Defs;
use mvd_site::{Config, Site};
use mvd_sync::SyncFault;
use mvd_wire::{Request, Token};
use std::alloc::Global;

/// A site at the other end that gives these bytes, and keeps what it is sent.
type Link<'a> = Remote<Duplex<&'a [u8], Vec<u8>>>;

/// The question about the root, and a Bye.
const ASKED: [u8; 11] = [0, 0, 0, 2, 0x27, 0, 0, 0, 0, 1, 0x2F];

/// Whether just so many bytes of these two went out.
fn are_sent(remote: Link, bytes: usize) -> bool {
    let (_, written) = remote.into_parts();
    written.len() == bytes && ASKED.starts_with(&written)
}

/// Whether a session of this site over a link that gives these bytes ends so, and a Bye, with so much sent.
fn ends(
    local: &mut Counting,
    replies: &[u8],
    session: Result<u64, SyncFault>,
    bye: Result<(), Refusal>,
    bytes: usize,
) -> bool {
    let alloc = local.alloc;
    let mut remote = Remote::new(alloc, replies, Vec::new(alloc));
    let met = meet(alloc, local, &mut remote);
    let said = remote.bye();
    met == session && said == bye && are_sent(remote, bytes)
}

/// What a site with no key replies about its root, 32 zeros, sixteen children, and their zeros, and then to a Bye.
fn empty_root() -> [u8; 555] {
    let mut replies = [0; 555];
    replies[2] = 2;
    replies[3] = 0x22;
    replies[4] = 0xA7;
    replies[37] = 16;
    replies[553] = 1;
    replies[554] = 0xA3;
    replies
}

/// Whether a session with an empty site ends well; one over a link that ends, which stays refused; and one with a site
/// that tells a refusal.
pub fn are_ended(local: &mut Counting) -> bool {
    let ended = Refusal::Truncated;
    let told = [0, 0, 0, 2, 0xEE, 0x15, 0, 0, 0, 1, 0xA3];
    let refused = Err(SyncFault::Peer(Refusal::Store));
    ends(local, &empty_root(), Ok(0), Ok(()), 11)
        && ends(local, &[], Err(SyncFault::Peer(ended)), Err(ended), 6)
        && ends(local, &told, refused, Ok(()), 11)
}

/// Whether a Hello is refused as the reply says, and the next one is taken.
fn is_let_in(remote: &mut Link, token: &Token) -> bool {
    remote.hello(token) == Err(Refusal::NotAdmitted) && remote.hello(token) == Ok(())
}

/// Whether it is so, and just two Hellos went out.
pub fn says_hello(alloc: Global) -> Result<bool, Refusal> {
    let token = Token::read(alloc, b"ab")?;
    let replies = [0, 0, 0, 2, 0xEE, 0x26, 0, 0, 0, 1, 0xA3];
    let mut remote = Remote::new(alloc, replies.as_slice(), Vec::new(alloc));
    let is_let_in = is_let_in(&mut remote, &token);
    let (_, written) = remote.into_parts();
    let hello = b"\0\0\0\x05\x2D\0\x02ab\0\0\0\x05\x2D\0\x02ab";
    Ok(is_let_in && written.as_slice() == hello.as_slice())
}

/// A request of each kind, and the kind of its reply.
const REQUESTS: [(u8, &[u8], u8); 14] = [
    (0x21, &[1, 0x6B], 0xA1),
    (0x22, &[1, 0x6B, 0, 0, 0, 0, 0, 0, 0, 2, b'{', b'}'], 0xA2),
    (0x23, &[1, 0x6B, 0, 0, 0, 0], 0xA3),
    (0x24, &[0, 1, b'a', 0, 0], 0xA4),
    (0x25, &[0, 1, b'v', 0], 0xA5),
    (0x26, &[0, 1, b'v', 0], 0xA6),
    (0x27, &[0], 0xA7),
    (0x28, &[3, 0, 0, 0, 0], 0xA8),
    (0x29, &[1, 0x6B, 0, 0, 0, 0, 0, 0], 0xA3),
    (0x2A, &[0, 1, b'a', 0, 0, 0], 0xA4),
    (0x2B, &[0, 0], 0xA9),
    (0x2C, &[0], 0xA9),
    (0x2D, &[0, 0], 0xA3),
    (0x2F, &[], 0xA3),
];

/// The kind of a reply and what follows it, which is zeros but for a dot, and how many of these there are.
const REPLIES: [(u8, u8); 9] = [
    (0xA1, 6),
    (0xA2, 12),
    (0xA3, 0),
    (0xA4, 3),
    (0xA5, 25),
    (0xA6, 3),
    (0xA7, 33),
    (0xA8, 3),
    (0xA9, 3),
];

fn frame_of(reply: (u8, u8)) -> [u8; 38] {
    let mut frame = [0; 38];
    frame[3] = reply.1.saturating_add(1);
    frame[4] = reply.0;
    if reply.0 == 0xA2 {
        frame[8] = 1;
        frame[16] = 1;
    }
    frame
}

/// Whether a question is answered, or why it is not.
fn takes(remote: &mut Link, asked: &Request) -> Result<(), Refusal> {
    match remote.ask(asked) {
        Ok(_) => Ok(()),
        Err(refusal) => Err(refusal),
    }
}

/// Whether a question takes a reply whose kind is its own, or else is refused it for good.
fn is_answered(remote: &mut Link, asked: &Request, is_own: bool) -> bool {
    let told = takes(remote, asked);
    if is_own {
        return told == Ok(());
    }
    let refused = Err(Refusal::BadKind);
    told == refused && remote.bye() == refused
}

/// Whether it is so where this frame comes, and a frame with just this payload goes out.
fn is_taken(alloc: Global, asked: &Request, payload: &[u8], frame: &[u8], is_own: bool) -> bool {
    let mut remote = Remote::new(alloc, frame, Vec::new(alloc));
    let is_answered = is_answered(&mut remote, asked, is_own);
    let (_, written) = remote.into_parts();
    let sent = written.as_slice();
    is_answered && sent.len() == payload.len().saturating_add(5) && sent.ends_with(payload)
}

fn takes_its_kind(
    alloc: Global,
    request: &(u8, &[u8], u8),
    reply: (u8, u8),
) -> Result<bool, Refusal> {
    let asked = decode_request(alloc, request.0, request.1)?;
    Ok(is_taken(
        alloc,
        &asked,
        request.1,
        &frame_of(reply),
        request.2 == reply.0,
    ))
}

/// Whether it is so of each request and each reply.
pub fn take_their_kinds(alloc: Global) -> Result<bool, Refusal> {
    for request in &REQUESTS {
        for reply in REPLIES {
            if !takes_its_kind(alloc, request, reply)? {
                return Ok(false);
            }
        }
    }
    Ok(true)
}

/// Whether a session with each of these replies ends so.
pub fn end_with_other_kinds(local: &mut Counting) -> bool {
    for reply in REPLIES {
        // The reply of a node's kind is that of a bucket; the link goes on, and has no byte more.
        let (refusal, bye, bytes) = if reply.0 == 0xA7 {
            (Refusal::BadBody, Refusal::Truncated, 11)
        } else {
            (Refusal::BadKind, Refusal::BadKind, 6)
        };
        let told = Err(SyncFault::Peer(refusal));
        if !ends(local, &frame_of(reply), told, Err(bye), bytes) {
            return false;
        }
    }
    true
}

/// What a window pushes.
type Pushes = Vec<(Key, KeyState)>;

fn add_push(pushes: &mut Pushes, alloc: Global, key: &str) -> Result<(), Refusal> {
    let state = written(alloc)?;
    pushes.push((Key::read(alloc, key)?, state))?;
    Ok(())
}

fn add_pushes(pushes: &mut Pushes, alloc: Global) -> Result<(), Refusal> {
    for key in ["a", "b", "c"] {
        add_push(pushes, alloc, key)?;
    }
    Ok(())
}

/// What is told of a window that asks something.
fn told_of(remote: &mut Link, window: &Window) -> Option<Told> {
    if window.count() > 0 {
        Some(Peer::ask(remote, window))
    } else {
        None
    }
}

/// Whether each push of a window but the second is taken, and a Bye is answered.
fn takes_all_but_one(remote: &mut Link, pushes: &Window) -> bool {
    let answers = [Ok(()), Err(Refusal::DotClash), Ok(())];
    match told_of(remote, pushes) {
        Some(Told::Pushes(told)) => told.as_slice() == answers.as_slice() && remote.bye() == Ok(()),
        _ => false,
    }
}

/// Whether a window of three pushes is written whole, its three replies are read though one of them refuses, and a Bye
/// is answered.
fn stays_in_step(alloc: Global, pushes: &Window) -> bool {
    let replies = [
        0, 0, 0, 1, 0xA3, 0, 0, 0, 2, 0xEE, 0x0B, 0, 0, 0, 1, 0xA3, 0, 0, 0, 1, 0xA3,
    ];
    let mut remote = Remote::new(alloc, replies.as_slice(), Vec::new(alloc));
    takes_all_but_one(&mut remote, pushes)
}

/// Whether a window is told that the input ended, for good.
fn is_cut(remote: &mut Link, pushes: &Window) -> bool {
    match told_of(remote, pushes) {
        Some(Told::Refused(refusal)) => {
            refusal == Refusal::Truncated && remote.bye() == Err(Refusal::Truncated)
        }
        _ => false,
    }
}

/// Whether a window is written whole where the input ends after its first reply, and tells that.
fn is_written(alloc: Global, pushes: &Window) -> bool {
    let mut remote = Remote::new(alloc, [0, 0, 0, 1, 0xA3].as_slice(), Vec::new(alloc));
    let is_cut = is_cut(&mut remote, pushes);
    let (_, written) = remote.into_parts();
    is_cut && written.len() == 3 * 47
}

/// The same of a state of one put by site 1, at three keys.
pub fn windows_are_whole(alloc: Global) -> Result<bool, Refusal> {
    let mut pushes = Vec::new(alloc);
    add_pushes(&mut pushes, alloc)?;
    let pushes = Window::Pushes(pushes);
    Ok(is_written(alloc, &pushes) && stays_in_step(alloc, &pushes))
}

/// Whether a session gives that a key, after which the roots are equal, and a Bye is answered.
fn meets_far(local: &mut Counting, remote: &mut Remote<Served>) -> bool {
    let alloc = local.alloc;
    let met = meet(alloc, local, remote);
    let again = meet(alloc, local, remote);
    met == Ok(1) && again == Ok(0) && remote.bye() == Ok(())
}

/// The same of a site behind a line.
fn meets_site(local: &mut Counting, far: Site) -> bool {
    let alloc = local.alloc;
    let mut remote = Remote::over(alloc, Served::new(alloc, far));
    meets_far(local, &mut remote)
}

/// The same of this site with one key, and one with none behind a line.
pub fn meets_over_a_line(local: &mut Counting) -> Result<bool, Refusal> {
    let alloc = local.alloc;
    local.put("k", "-", "{}")?;
    let far = Site::new(alloc, Config::new(2, 10, Defs::new(alloc)))?;
    Ok(meets_site(local, far))
}

/// What others push into a site: the states of a third one, at a key that both hold, and at two that nobody else holds.
fn of_others(alloc: Global) -> Result<Vec<(Key, KeyState)>, Refusal> {
    let mut third = Counting::new(alloc, 3, 10)?;
    let mut others = Vec::new(alloc);
    for name in ["k", "m", "n"] {
        third.put(name, "-", "{}")?;
        let key = Key::read(alloc, name)?;
        let state = third.site.get(&key)?;
        others.push((key, state))?;
    }
    Ok(others)
}

fn has_all(local: &Counting, states: &[(Key, KeyState)]) -> Result<bool, Refusal> {
    for (key, state) in states {
        if !local.site.get(key)?.includes(state) {
            return Ok(false);
        }
    }
    Ok(true)
}

/// Whether sessions with a site end well while others write to it, and the roots are equal once nobody does.
fn meets_written(local: &mut Counting, remote: &mut Remote<ServedAmongOthers>) -> bool {
    let alloc = local.alloc;
    let met = meet(alloc, local, remote);
    let again = meet(alloc, local, remote);
    let last = meet(alloc, local, remote);
    met.is_ok() && again.is_ok() && last == Ok(0)
}

/// The same of a site behind a line, with what others push before each of its first replies.
fn meets_live(local: &mut Counting, far: Site, others: Vec<(Key, KeyState)>) -> bool {
    let alloc = local.alloc;
    let mut remote = Remote::over(alloc, ServedAmongOthers::new(alloc, far, others));
    meets_written(local, &mut remote)
}

/// The same of this site with one key, which then has all that others pushed, and one with none behind a line.
pub fn meets_among_others(local: &mut Counting) -> Result<bool, Refusal> {
    let alloc = local.alloc;
    local.put("k", "-", "{}")?;
    let far = Site::new(alloc, Config::new(2, 10, Defs::new(alloc)))?;
    let others = of_others(alloc)?;
    Ok(meets_live(local, far, others) && has_all(local, &of_others(alloc)?)?)
}
