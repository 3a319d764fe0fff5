//! Sessions of three sites that run into each other, with writers between their windows.
use mvd_docs::Document;
use mvd_dots::{Context, Refusal};
use mvd_keys::{Key, Path};
use mvd_rows::Defs;
use mvd_wire::{Reply, Request};
use mvd_world::{Came, OpenWorld, Outcome, Step};
use std::alloc::Global;
use std::test::Fail;

/// The most windows that a session of this test has.
const MOST_WINDOWS: u32 = 60;

/// How many keys the sites write, in turn.
const KEYS: u32 = 7;

/// Puts a document at a site, whose author has seen nothing.
fn put(alloc: Global, world: &mut OpenWorld, site: u32, number: u32) -> Result<bool, Refusal> {
    let key = format!(in alloc; "k{}", number % KEYS)?;
    let text = format!(in alloc; "{{\"n\":{number}}}")?;
    let request = Request::Put(
        Key::read(alloc, &key)?,
        Context::read(alloc, "-")?,
        Document::read(alloc, &text)?,
    );
    let outcome = world.step(&Step::Write { site, request });
    Ok(matches!(&outcome, Outcome::Replied(Reply::Written(_))))
}

/// The number of a session that begins, or 0.
fn begin(world: &mut OpenWorld, local: u32, peer: u32) -> u64 {
    match world.begin(local, peer) {
        Came::Began(number) => number,
        _ => 0,
    }
}

/// One window of a session: whether it goes on, or none where it ended otherwise than with no fault and no key left.
fn goes(world: &mut OpenWorld, session: u64) -> Option<bool> {
    match world.go(session) {
        Came::Went => Some(true),
        Came::Met(report) if report.refused == 0 => Some(false),
        _ => None,
    }
}

/// Whether two sessions end well that take turns, with so many puts among their windows.
fn run_into(
    alloc: Global,
    world: &mut OpenWorld,
    first: u64,
    second: u64,
    puts: u32,
) -> Result<bool, Refusal> {
    let mut left = [first, second];
    for window in 0..MOST_WINDOWS {
        for session in &mut left {
            if window < puts && !put(alloc, world, window % 3 + 1, window)? {
                return Ok(false);
            }
            if *session == 0 {
                continue;
            }
            match goes(world, *session) {
                Some(true) => {}
                Some(false) => *session = 0,
                None => return Ok(false),
            }
        }
    }
    Ok(left == [0, 0])
}

/// The root's digest of a site.
fn root(alloc: Global, world: &OpenWorld, site: u32) -> Result<[u8; 32], Refusal> {
    let path = Path::new(alloc, &[])?;
    match world.world().site(site) {
        Some(site) => Ok(site.node(&path)?.own),
        None => Err(Refusal::Damaged),
    }
}

/// Whether all three sites hold the same, and something.
fn agree(alloc: Global, world: &OpenWorld) -> Result<bool, Refusal> {
    let first = root(alloc, world, 1)?;
    Ok(first != [0; 32] && first == root(alloc, world, 2)? && first == root(alloc, world, 3)?)
}

/// Two sessions that go on among writers, and then enough without.
fn meet_all(alloc: Global, world: &mut OpenWorld) -> Result<bool, Refusal> {
    for number in 0..30 {
        if !put(alloc, world, number % 3 + 1, number)? {
            return Ok(false);
        }
    }
    let (first, second) = (begin(world, 1, 2), begin(world, 2, 3));
    let among = run_into(alloc, world, first, second, 12)?;
    let (third, fourth) = (begin(world, 1, 2), begin(world, 3, 2));
    let after = run_into(alloc, world, third, fourth, 0)?;
    let (fifth, sixth) = (begin(world, 2, 1), begin(world, 2, 3));
    let last = run_into(alloc, world, fifth, sixth, 0)?;
    Ok(among && after && last && agree(alloc, world)?)
}

#[test]
fn sessions_that_run_into_each_other_make_all_agree(rt: HostRuntime) -> Result<(), Fail> {
    let alloc = rt.alloc();
    let mut world = OpenWorld::new(alloc, 3, 100, Defs::new(alloc))?;
    assert!(rt; meet_all(alloc, &mut world)?);
    Ok(())
}

#[test]
fn a_session_that_is_not_there_goes_nowhere(rt: HostRuntime) -> Result<(), Fail> {
    let alloc = rt.alloc();
    let mut world = OpenWorld::new(alloc, 2, 100, Defs::new(alloc))?;
    assert!(rt; matches!(world.begin(1, 1), Came::NoSuch));
    assert!(rt; matches!(world.begin(1, 3), Came::NoSuch));
    assert!(rt; matches!(world.go(1), Came::NoSuch));
    assert!(rt; begin(&mut world, 2, 1) == 1);
    assert!(rt; goes(&mut world, 1) == Some(true));
    assert!(rt; goes(&mut world, 1) == Some(false));
    assert!(rt; matches!(world.go(1), Came::NoSuch));
    Ok(())
}
