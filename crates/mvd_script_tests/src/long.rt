//! Texts at their limits, and long scripts.
use crate::scripts::{printed, text_of};
use mvd_dots::Refusal;
use mvd_input::Fault;
use std::alloc::{AllocError, Global};
use std::test::Fail;

/// Long scripts.
#[derive(Clone, Copy)]
enum Long {
    /// Puts of the longest key, term and document, and of some that are longer by a letter.
    Limits,
    /// Puts of the longest document side by side at one key, one more than a state holds.
    Siblings,
    /// Comments of so many times 64 bytes, and another byte where that is said.
    Comments(u32, bool),
    /// Puts at one site, and gets at another once it is told.
    Turns,
    /// Puts that go round 20,000 keys, with the digest of the root after each.
    Changes,
    /// So many keys, each in a group of its own, under one term of an index; and then these questions.
    Keys(u32, &'static str),
    /// So many keys with two siblings each, and then these questions.
    Conflicts(u32, &'static str),
}

/// Adds a line with so many letters in it.
fn push_line(out: &mut String, before: &str, letters: u32, behind: &str) -> Result<(), AllocError> {
    out.push_str(before)?;
    for _ in 0..letters {
        out.push_str("x")?;
    }
    out.push_str(behind)?;
    out.push_str("\n")
}

/// Adds a put of a document with a text of so many letters.
fn push_document(out: &mut String, letters: u32) -> Result<(), AllocError> {
    push_line(out, "put 1 k - {\"a\":\"", letters, "\"}")
}

/// Adds puts of two texts, of which the second is too long for a term, and asks for them.
fn push_terms(out: &mut String) -> Result<(), AllocError> {
    push_line(out, "put 1 l - {\"t\":\"", 512, "\"}")?;
    push_line(out, "put 1 m - {\"t\":\"", 513, "\"}")?;
    out.push_str("range 1 t [null,\"y\"]\n")?;
    push_line(out, "find 1 t \"", 512, "\"")?;
    push_line(out, "find 1 t \"", 513, "\"")
}

fn push_limits(out: &mut String) -> Result<(), AllocError> {
    out.push_str("sites 1\nindex t\n")?;
    push_terms(out)?;
    push_line(out, "keys 1 ", 128, "")?;
    push_line(out, "keys 1 ", 129, "")?;
    push_line(out, "put 1 ", 128, " - {}")?;
    push_line(out, "put 1 ", 129, " - {}")?;
    push_document(out, 65_528)?;
    push_document(out, 65_529)
}

fn push_siblings(out: &mut String) -> Result<(), AllocError> {
    out.push_str("sites 1\n")?;
    for _ in 0..18u32 {
        push_document(out, 65_528)?;
    }
    Ok(())
}

/// A comment of 64 bytes, with its line feed.
const COMMENT: &str = "# 16,777,216 bytes are a script still, and one byte more is not\n";

fn push_comments(out: &mut String, count: u32, is_longer: bool) -> Result<(), AllocError> {
    for _ in 0..count {
        out.push_str(COMMENT)?;
    }
    out.push_str(if is_longer { "#" } else { "" })
}

fn push_turns(out: &mut String) -> Result<(), AllocError> {
    out.push_str("sites 2\n")?;
    for turn in 0..25_000u32 {
        let key = turn % 1_000;
        let message = u64::from(turn) + 1;
        writeln!(
            out,
            "put 1 k{key} @ {{\"n\":{turn}}}\nsend 1 k{key}\nrecv 2 {message}\nget 2 k{key}"
        )?;
    }
    Ok(())
}

fn push_changes(out: &mut String) -> Result<(), AllocError> {
    out.push_str("sites 1\n")?;
    for turn in 0..50_000u32 {
        let key = turn % 20_000;
        writeln!(out, "put 1 k{key} @ {{}}\nroot 1")?;
    }
    Ok(())
}

fn push_keys(out: &mut String, keys: u32, questions: &str) -> Result<(), AllocError> {
    out.push_str("sites 1\nindex n\nview v g n\n")?;
    for key in 0..keys {
        writeln!(out, "put 1 k{key} - {{\"g\":{key},\"n\":1}}")?;
    }
    out.push_str(questions)
}

fn push_conflicts(out: &mut String, keys: u32, questions: &str) -> Result<(), AllocError> {
    out.push_str("sites 1\n")?;
    for key in 0..keys {
        writeln!(out, "put 1 k{key} - {{}}\nput 1 k{key} - {{}}")?;
    }
    out.push_str(questions)
}

fn push_long(out: &mut String, long: Long) -> Result<(), AllocError> {
    match long {
        Long::Limits => push_limits(out),
        Long::Siblings => push_siblings(out),
        Long::Comments(count, is_longer) => push_comments(out, count, is_longer),
        Long::Turns => push_turns(out),
        Long::Changes => push_changes(out),
        Long::Keys(keys, questions) => push_keys(out, keys, questions),
        Long::Conflicts(keys, questions) => push_conflicts(out, keys, questions),
    }
}

fn script(alloc: Global, long: Long) -> Result<String, AllocError> {
    let mut script = String::new(alloc);
    push_long(&mut script, long)?;
    Ok(script)
}

/// What a script prints.
fn printed_of(alloc: Global, long: Long) -> Result<Vec<u8>, Fault> {
    let script = script(alloc, long)?;
    printed(alloc, script.as_str())
}

/// Whether a script prints so many lines, the last of which are these.
fn prints(alloc: Global, long: Long, count: usize, last: &str) -> Result<bool, Fault> {
    let out = printed_of(alloc, long)?;
    let text = text_of(&out);
    Ok(text.lines().count() == count && text.ends_with(last))
}

/// What is printed behind two puts and one line of a range, of the first of them.
const AT_LIMITS: &str =
    " l 1:1\nl 1:1\nrefused 15 BadTerm\nnone\nrefused 1 BadKey\ndot 1:1\nrefused 1 BadKey\ndot 1:1\n\
    refused 6 DocumentTooLong\n";

const OF_SIBLINGS: &str =
    "dot 1:1\ndot 1:2\ndot 1:3\ndot 1:4\ndot 1:5\ndot 1:6\ndot 1:7\ndot 1:8\ndot 1:9\ndot 1:10\ndot 1:11\n\
    dot 1:12\ndot 1:13\ndot 1:14\ndot 1:15\ndot 1:16\ndot 1:17\nrefused 9 StateTooLarge\n";

const LAST_ROOT: &str = "fe63bf067988a1893dd1d0f58fc1698996b8a74d032d73a900e3f9580aa48087\n";

/// Scripts, how many lines they print, and the last of these.
const SCRIPTS: [(Long, usize, &str); 6] = [
    (Long::Limits, 11, AT_LIMITS),
    (Long::Siblings, 18, OF_SIBLINGS),
    (Long::Comments(262_144, false), 0, ""),
    // Lists of more than a page, and of just one.
    (
        Long::Keys(
            1_001,
            "find 1 n 1\nrows 1 v\nrange 1 n [1,1]\nkeys 1\nkeys 1 k9\n",
        ),
        5_116,
        "\nk998 1\nk999 1\n",
    ),
    (Long::Keys(1_000, "keys 1 k\n"), 2_000, "\nk998 1\nk999 1\n"),
    (
        Long::Conflicts(
            1_001,
            "conflicts 1\nput 1 k999 @ {}\nconflicts 1\nkeys 1 k99\n",
        ),
        4_015,
        "\nk998 2\nk999 1\n",
    ),
];

#[test]
fn long_scripts(rt: HostRuntime) -> Result<(), Fail> {
    for (long, count, last) in SCRIPTS {
        assert!(rt; prints(rt.alloc(), long, count, last)?, "{count} lines");
    }
    Ok(())
}

// Those that take long have a test each, since a test may take a minute.

#[test]
fn many_turns(rt: HostRuntime) -> Result<(), Fail> {
    let last = "message 25000\nok\ncontext 1:25\n1:25 {\"n\":24999}\n";
    assert!(rt; prints(rt.alloc(), Long::Turns, 125_000, last)?);
    Ok(())
}

#[test]
fn digests_after_many_changes(rt: HostRuntime) -> Result<(), Fail> {
    assert!(rt; prints(rt.alloc(), Long::Changes, 100_000, LAST_ROOT)?);
    Ok(())
}

#[test]
fn lists_of_many_keys(rt: HostRuntime) -> Result<(), Fail> {
    let long = Long::Keys(100_000, "find 1 n 1\nrows 1 v\nkeys 1\nrow 1 v 7\n");
    assert!(rt; prints(rt.alloc(), long, 400_001, "\nk99999 1\n1 1 1 1\n")?);
    Ok(())
}

fn is_too_long(alloc: Global, long: Long) -> bool {
    let ended = printed_of(alloc, long);
    matches!(&ended, Err(Fault::Stopped(Refusal::FrameTooLong)))
}

#[test]
fn a_script_past_its_limit(rt: HostRuntime) {
    assert!(rt; is_too_long(rt.alloc(), Long::Comments(262_144, true)));
}
