//! A session of two sites as a machine, while others write to them between its windows.
use crate::peers::{Counting, written};
use crate::two_sites::meet;
use mvd_dots::Refusal;
use mvd_keys::{Key, KeyState};
use mvd_peer::{Peer, Told, Window};
use mvd_sync::{Machine, SyncFault};
use std::alloc::Global;
use std::test::Fail;

/// Behind how many of the first windows somebody writes to the first site, and to the second.
pub type Writers = (u32, u32);

/// A session asks each side no more than so many questions.
const QUESTIONS: u64 = 1_000;

/// The keys that the first site holds as the session begins.
const KEYS: &str = "a b c d e f g h i j k l m n o p q r s t u v w x y z";

/// How many keys there are, with one that nobody held before.
const NAMES: u64 = 27;

fn refusal_of(fault: SyncFault) -> Refusal {
    match fault {
        SyncFault::Local(refusal) | SyncFault::Peer(refusal) => refusal,
    }
}

/// What a side tells of a window; nothing, where it is asked nothing.
fn told_if(side: &mut Counting, window: Option<&Window>) -> Option<Told> {
    match window {
        Some(window) if window.count() > 0 => Some(side.ask(window)),
        _ => None,
    }
}

/// Whether the session asked something more, which was told.
fn goes_on(machine: &mut Machine, one: &mut Counting, two: &mut Counting) -> Result<bool, Refusal> {
    let step = match machine.next() {
        Ok(Some(step)) => step,
        Ok(None) => return Ok(false),
        Err(fault) => return Err(refusal_of(fault)),
    };
    let mine = told_if(one, step.local.as_ref());
    let theirs = told_if(two, step.peer.as_ref());
    match machine.take(mine, theirs) {
        Ok(()) => Ok(true),
        Err(fault) => Err(refusal_of(fault)),
    }
}

/// Puts a document at a key, with the context that was read there.
fn write_at(side: &mut Counting, name: &str) -> Result<bool, Refusal> {
    let key = Key::read(side.alloc, name)?;
    let seen = side.site.get(&key)?.context().print()?;
    side.put(name, &seen, "{\"n\":1}")
}

/// Writes at a key that the session goes over, and at one that nobody held before.
fn write(side: &mut Counting) -> Result<bool, Refusal> {
    Ok(write_at(side, "m")? && write_at(side, "new")?)
}

/// How many windows there were until the session was done.
fn windows(
    machine: &mut Machine,
    one: &mut Counting,
    two: &mut Counting,
    writers: Writers,
) -> Result<u32, Refusal> {
    for turn in 0..100u32 {
        if !goes_on(machine, one, two)? {
            return Ok(turn);
        }
        if turn < writers.0 && !write(one)? || turn < writers.1 && !write(two)? {
            return Err(Refusal::Damaged);
        }
    }
    Err(Refusal::TooManyRequests)
}

fn windows_of(one: &mut Counting, two: &mut Counting, writers: Writers) -> Result<u32, Refusal> {
    match Machine::new(one.alloc, Some(1), QUESTIONS) {
        Ok(mut machine) => {
            let count = windows(&mut machine, one, two, writers);
            drop(machine);
            count
        }
        Err(fault) => Err(refusal_of(fault)),
    }
}

/// Whether the second site has of each key what the first had as the session began, or more.
fn has_all(two: &Counting, began: &KeyState) -> Result<bool, Refusal> {
    for name in KEYS.split(' ') {
        let key = Key::read(two.alloc, name)?;
        if !two.site.get(&key)?.includes(began) {
            return Ok(false);
        }
    }
    Ok(true)
}

/// Whether a site has at a key nothing that the other has not.
fn has_no_more(one: &Counting, two: &Counting, name: &str) -> Result<bool, Refusal> {
    let key = Key::read(one.alloc, name)?;
    let state = two.site.get(&key)?;
    Ok(one.site.get(&key)?.includes(&state))
}

/// Whether a session of a site that holds keys with one that holds none ends well, though others write to both. The
/// second then has all that the first held, and, where nobody wrote to it, nothing else. One more session leaves both
/// alike.
pub fn meets_beside(
    one: &mut Counting,
    two: &mut Counting,
    writers: Writers,
) -> Result<bool, Refusal> {
    for name in KEYS.split(' ') {
        one.put(name, "-", "{}")?;
    }
    let count = windows_of(one, two, writers)?;
    let has_all = has_all(two, &written(one.alloc)?)?;
    let has_no_more = writers.1 > 0 || has_no_more(one, two, "m")? && has_no_more(one, two, "new")?;
    let again = meet(one.alloc, one, two);
    let are_alike = matches!(again, Ok(keys) if keys <= 2) && one.root()? == two.root()?;
    Ok(count >= 5 && has_all && has_no_more && are_alike)
}

// ---- a writer by seed

/// The next of the numbers that follow a seed.
fn next(seed: u64) -> u64 {
    seed.wrapping_mul(6_364_136_223_846_793_005)
        .wrapping_add(1_442_695_040_888_963_407)
}

/// The key of a number.
fn name_of(number: u64) -> &'static str {
    let mut left = number;
    for name in KEYS.split(' ') {
        if left == 0 {
            return name;
        }
        left -= 1;
    }
    "new"
}

/// Puts a document at a key, blindly or with the context that was read there. The last site is given what came of it.
fn put_at(
    side: &mut Counting,
    all: &mut Counting,
    name: &str,
    is_blind: bool,
) -> Result<bool, Refusal> {
    let is_put = if is_blind {
        side.put(name, "-", "{\"n\":2}")?
    } else {
        write_at(side, name)?
    };
    let key = Key::read(side.alloc, name)?;
    let state = side.site.get(&key)?;
    all.site.push(&key, &state)?;
    Ok(is_put)
}

/// Writes at the first site, at the second, or at both, as a number says.
fn write_some(
    one: &mut Counting,
    two: &mut Counting,
    all: &mut Counting,
    number: u64,
) -> Result<bool, Refusal> {
    let name = name_of((number >> 8) % NAMES);
    let is_blind = (number >> 40) % 4 == 0;
    let at = (number >> 60) % 4;
    let is_at_one = at < 3 && put_at(one, all, name, is_blind)?;
    let is_at_two = at > 1 && put_at(two, all, name, is_blind)?;
    Ok(is_at_one || is_at_two)
}

/// How many windows there were until the session was done, with a write between every two.
fn windows_beside(
    machine: &mut Machine,
    one: &mut Counting,
    two: &mut Counting,
    all: &mut Counting,
    seed: u64,
) -> Result<u32, Refusal> {
    let mut number = seed;
    for turn in 0..100u32 {
        if !goes_on(machine, one, two)? {
            return Ok(turn);
        }
        number = next(number);
        if !write_some(one, two, all, number)? {
            return Err(Refusal::Damaged);
        }
    }
    Err(Refusal::TooManyRequests)
}

fn session_beside(
    one: &mut Counting,
    two: &mut Counting,
    all: &mut Counting,
    seed: u64,
) -> Result<u32, Refusal> {
    match Machine::new(one.alloc, Some(1), QUESTIONS) {
        Ok(mut machine) => {
            let count = windows_beside(&mut machine, one, two, all, seed);
            drop(machine);
            count
        }
        Err(fault) => Err(refusal_of(fault)),
    }
}

/// What a site holds of the keys of the first.
fn states_of(side: &Counting) -> Result<Vec<KeyState>, Refusal> {
    let mut states = Vec::new(side.alloc);
    for name in KEYS.split(' ') {
        let key = Key::read(side.alloc, name)?;
        states.push(side.site.get(&key)?)?;
    }
    Ok(states)
}

/// Whether a site has of each of these keys that state, or more.
fn includes_all(side: &Counting, states: &[KeyState]) -> Result<bool, Refusal> {
    for (name, state) in KEYS.split(' ').zip(states) {
        let key = Key::read(side.alloc, name)?;
        if !side.site.get(&key)?.includes(state) {
            return Ok(false);
        }
    }
    Ok(true)
}

/// One for the root, and five for each key.
const FEW: u64 = 1 + 5 * NAMES;

/// Whether a session beside a writer ends well after few questions, with all that the first site held at the second.
fn ends_beside(
    one: &mut Counting,
    two: &mut Counting,
    all: &mut Counting,
    seed: u64,
) -> Result<bool, Refusal> {
    let asked = (one.questions, two.questions);
    let began = states_of(one)?;
    let count = session_beside(one, two, all, seed)?;
    let is_few = one.questions.saturating_sub(asked.0) <= FEW
        && two.questions.saturating_sub(asked.1) <= FEW;
    Ok(count >= 5 && is_few && includes_all(two, &began)?)
}

/// The same after the first site wrote at a key. After one more session both sites have what was written, and nothing
/// else.
fn meets_beside_seed(
    one: &mut Counting,
    two: &mut Counting,
    all: &mut Counting,
    seed: u64,
) -> Result<bool, Refusal> {
    put_at(one, all, name_of(seed % NAMES), false)?;
    let ends = ends_beside(one, two, all, seed)?;
    let again = meet(one.alloc, one, two);
    let root = all.root()?;
    let are_alike = matches!(again, Ok(keys) if keys <= NAMES)
        && one.root()? == root
        && two.root()? == root;
    Ok(ends && are_alike)
}

/// Whether it is so of a hundred seeds, one after the other, where the first site holds its keys.
fn meet_beside_seeds(
    one: &mut Counting,
    two: &mut Counting,
    all: &mut Counting,
) -> Result<bool, Refusal> {
    for name in KEYS.split(' ') {
        put_at(one, all, name, true)?;
    }
    for seed in 0..100 {
        if !meets_beside_seed(one, two, all, seed)? {
            return Ok(false);
        }
    }
    Ok(true)
}

/// Two sites that hold no key, to which others write so; or by seeds, where nothing is told.
fn with_two(
    one: &mut Counting,
    two: &mut Counting,
    writers: Option<Writers>,
) -> Result<bool, Refusal> {
    match writers {
        Some(writers) => meets_beside(one, two, writers),
        None => {
            let mut all = Counting::new(one.alloc, 3, 30)?;
            meet_beside_seeds(one, two, &mut all)
        }
    }
}

fn with_one(one: &mut Counting, writers: Option<Writers>) -> Result<bool, Refusal> {
    let mut two = Counting::new(one.alloc, 2, 30)?;
    with_two(one, &mut two, writers)
}

fn holds(alloc: Global, writers: Option<Writers>) -> Result<bool, Refusal> {
    let mut one = Counting::new(alloc, 1, 30)?;
    with_one(&mut one, writers)
}

/// A write at the first window alone, at each, at the second site, and at both.
const CASES: [Writers; 4] = [(1, 0), (99, 0), (0, 99), (99, 99)];

#[test]
fn a_session_beside_a_writer_ends_well(rt: HostRuntime) -> Result<(), Fail> {
    for writers in CASES {
        assert!(rt; holds(rt.alloc(), Some(writers))?, "{writers:?}");
    }
    Ok(())
}

#[test]
fn so_does_one_beside_a_writer_by_seed(rt: HostRuntime) -> Result<(), Fail> {
    assert!(rt; holds(rt.alloc(), None)?);
    Ok(())
}
