//! A script of which one growth is refused, whichever it is: tools/faults.sh refuses each in turn. With none refused
//! it prints as ever.
use mvd_dots::Refusal;
use mvd_input::Fault;
use mvd_script::sim;
use std::alloc::{AllocError, Global};
use std::test::Fail;

/// Head lines, and then commands, each of which but the last prints one line. What the session brings changes no line
/// behind it.
const SCRIPT: &str =
    "sites 2\nindex n\nview v n n\nput 1 k - {\"n\":1}\nrange 1 n [0,9]\nsend 1 k\nrecv 2 1\n\
    put 2 k @ {\"n\":2}\nfind 2 n 2\nrows 2 v\nput 1 m - {\"n\":3}\nrow 1 v 3\ndel 1 m 1:1\nroot 1\n\
    put 2 j - {\"n\":4}\nput 2 j - {\"n\":5}\nconflicts 2\nkeys 2 k\nsync 1 2\nget 2 k\n";

const HEAD_LINES: usize = 3;

const PRINTED: &str =
    "dot 1:1\n1 k 1:1\nmessage 1\nok\ndot 2:1\nk 2:1\n2 1 2 2 2\ndot 1:1\n1 3 3 3\nok\n\
    c9b4e8c078ef9a25f9ce5dbc2d930b395a2f082cf1debd9ea849997ea04723ec\ndot 2:1\ndot 2:2\nj 2\nk 1\n\
    keys 3\ncontext 1:1,2:1\n2:1 {\"n\":2}\n";

/// How a script ended.
#[derive(Clone, Copy, PartialEq, Eq)]
enum End {
    Whole,
    /// Memory was refused.
    Stopped,
    Other,
}

/// As much is printed at most.
const ROOM: usize = 600;

/// What a script printed, in a room of its own, so that it takes no memory, and how it ended.
#[derive(Clone, Copy)]
struct Ran {
    room: [u8; ROOM],
    len: usize,
    end: End,
}

impl Ran {
    fn text(&self) -> &str {
        match str::from_utf8(&self.room[..self.len.min(ROOM)]) {
            Ok(text) => text,
            Err(_) => "",
        }
    }
}

fn end_of(ended: Result<(), Fault>) -> End {
    match ended {
        Ok(()) => End::Whole,
        Err(Fault::Stopped(Refusal::Memory)) => End::Stopped,
        Err(_) => End::Other,
    }
}

fn outcome_of(alloc: Global, script: &str) -> Ran {
    let mut room = [0; ROOM];
    let mut reader = script.as_bytes();
    let mut writer: &mut [u8] = &mut room;
    let end = end_of(sim(alloc, &mut reader, &mut writer));
    let left = writer.len();
    let len = ROOM.saturating_sub(left);
    Ran { room, len, end }
}

/// Whether a line tells that memory was refused, or that the site is broken.
fn is_refused(line: &str) -> bool {
    line == "refused 20 Memory" || line == "refused 22 Broken"
}

/// The script without the commands that were refused.
fn without_refused(alloc: Global, printed: &str) -> Result<String, AllocError> {
    let mut script = String::new(alloc);
    let mut said = printed.lines();
    for (number, line) in SCRIPT.lines().enumerate() {
        if number >= HEAD_LINES
            && let Some(said) = said.next()
            && is_refused(said)
        {
            continue;
        }
        script.push_str(line)?;
        script.push_str("\n")?;
    }
    Ok(script)
}

/// Whether what is printed is, but for what was refused, this.
fn is_but_refused(printed: &str, wanted: &str) -> bool {
    let mut left = wanted.lines();
    for line in printed.lines() {
        if is_refused(line) {
            continue;
        }
        match left.next() {
            Some(found) if found == line => {}
            _ => return false,
        }
    }
    left.next().is_none()
}

/// Whether a script tells what it did: what was refused was not done, and all else is as in a script without it.
/// Where it stops, it has printed what it prints before.
fn tells(alloc: Global) -> Result<bool, AllocError> {
    let first = outcome_of(alloc, SCRIPT);
    if first.end == End::Stopped {
        return Ok(PRINTED.starts_with(first.text()));
    }
    if first.text() == PRINTED {
        return Ok(first.end == End::Whole);
    }
    let script = without_refused(alloc, first.text())?;
    let again = outcome_of(alloc, script.as_str());
    Ok(first.end == End::Whole && is_but_refused(first.text(), again.text()))
}

#[test]
fn a_script_tells_what_it_did(rt: HostRuntime) -> Result<(), Fail> {
    assert!(rt; tells(rt.alloc())?);
    Ok(())
}
