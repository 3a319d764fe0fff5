//! States and connections at their limits: each request in time.
use super::replica_calls::{Bytes, end, new_replica, push, replies};
use mvd_replica::Replica;
use sqlite::Alter;
use std::alloc::Global;
use std::test::Fail;
use std::time::Instant;

/// Sites, with a `#` between two. The first line of each has its number, and rows: how many, and of each the bytes
/// before its number and those behind it; the numbers are the multiples of the word between. Each other line is a
/// request: its bytes behind its length, up to where rows may stand in it and from there on; whether the rows stand
/// `in` it, `behind` its frame, or nowhere; what the site says (the first bytes of its first reply, how many bytes its
/// replies are together, and how the connection ends); and a name. Bytes are hexadecimal digits, or `-` where there are
/// none.
///
/// The first site holds at the key `k` as many siblings of the shortest document, `{}`, as have room in a state,
/// 63,887: all but one are delivered, and one is put. The second one is given a context of 70,000 loose counters of
/// site 2, which are 560,036 bytes with the dot 1:1. The third one gets the state that this leaves, and deletes by
/// its context. The others are asked a question, behind which there are a million frames of no kind, which is one
/// frame more than a connection may have; a frame that is too long; the half of a frame; and a Bye with bytes behind
/// it.
const ASKED: &str = "\
2 63886 00000002 1 000000027b7d
29016b0000000100000002000000000000f98e00000000f98e - in a3 5 end delivered
22016b00000000000000027b7d - - a2 17 end put
22016b00000000000000027b7d - - ee09 6 end put once more
21016b - - a1 1149993 end read
23016b0000000100000002000000000000f98f00000000 - - a3 5 end deleted
21016b - - a1 27 end read again
#1 70000 - 2 -
22016b0000000100000002000000000000000000011170 000000027b7d in a2 17 end put
21016b - - a1 560061 end read
#3 70000 - 2 -
29016b000000020000000100000000000000010000000000000002000000000000000000011170 0001000000010000000000000001000000027b7d \
    in a3 5 end delivered
21016b - - a1 560061 end read there
23016b000000020000000100000000000000010000000000000002000000000000000000011170 - in a3 5 end deleted
21016b - - a1 560043 end read again
#1 1000 00000002 1 000000077b2261223a317d
29016b000000010000000200000000000003e80000000003e8 - in a3 5 end delivered
2400016103000000000000000100 - - a40003e8 23008 end found, all
22016b00000000000000077b2261223a317d - - a2 17 end put
2400016103000000000000000100 - - a40103e8 23008 end found, and more
2400016103000000000000000101016b0000000200000000000003e7 - - a4000001 31 end found behind these
#4 149999 - 1 -
70ffffffffffffff - in ee20 6 end as long as may be
70ffffffffffffff ff in ee1f 6 FrameTooLong a byte longer
#4 1000000 0000000970 1 -
21016b - behind a1 6000011 TooManyRequests too many
#4 1 0000000021 1 -
21016b - behind a1 17 FrameTooLong no length
#4 1 00124f8121 1 -
21016b - behind a1 17 FrameTooLong a byte too long
#4 1 ffffffff21 1 -
21016b - behind a1 17 FrameTooLong too long
#4 1 0000006321 1 -
21016b - behind a1 17 Truncated a half
#4 1 000000012f 1 -
21016b - behind a1 16 bye a Bye
";

/// A word of a line.
fn word(line: &str, at: usize) -> &str {
    line.split(' ').nth(at).unwrap_or("")
}

fn number(line: &str, at: usize) -> u64 {
    word(line, at).parse::<u64>().unwrap_or(0)
}

fn digits(line: &str, at: usize) -> Bytes {
    Bytes::of(&[word(line, at)])
}

/// The bytes of the rows of a site.
fn rows_of(alloc: Global, site: &str) -> Vec<u8> {
    let before = digits(site, 2);
    let step = number(site, 3);
    let behind = digits(site, 4);
    let mut bytes = Vec::new(alloc);
    for at in 0..number(site, 1) {
        push(&mut bytes, before.bytes());
        push(
            &mut bytes,
            &at.saturating_add(1).saturating_mul(step).to_be_bytes(),
        );
        push(&mut bytes, behind.bytes());
    }
    bytes
}

/// The bytes of a request, and of what stands behind it.
fn request_of(alloc: Global, line: &str, rows: &[u8]) -> Vec<u8> {
    let begin = digits(line, 0);
    let end = digits(line, 1);
    let inside = if word(line, 2) == "in" { rows } else { &[] };
    let behind = if word(line, 2) == "behind" { rows } else { &[] };
    let len = begin
        .len
        .saturating_add(inside.len())
        .saturating_add(end.len);
    let mut request = Vec::new(alloc);
    push(&mut request, &u32::try_from(len).unwrap_or(0).to_be_bytes());
    push(&mut request, begin.bytes());
    push(&mut request, inside);
    push(&mut request, end.bytes());
    push(&mut request, behind);
    request
}

/// What a site says to a request: whether its first reply begins as the line says, how many bytes its replies are, and
/// how the connection ends.
fn said<S: Alter + Drop>(
    alloc: Global,
    replica: &mut Replica<S>,
    line: &str,
    rows: &[u8],
) -> (bool, usize, &'static str) {
    let request = request_of(alloc, line, rows);
    let (output, ended) = replies(alloc, replica, request.as_slice());
    drop(request);
    let payload = output.as_slice().get(4..).unwrap_or(&[]);
    let begins = payload.starts_with(digits(line, 3).bytes());
    let len = output.len();
    drop(output);
    (begins, len, ended)
}

/// Whether a line says so.
fn is_wanted(line: &str, said: (bool, usize, &str)) -> bool {
    said.0 && number(line, 4) == said.1 as u64 && word(line, 5) == said.2
}

/// Fails where a site does not say what it should to a request; and tells how long it took.
fn take<S: Alter + Drop>(
    rt: HostRuntime,
    replica: &mut Replica<S>,
    line: &str,
    rows: &[u8],
) -> Result<(), Fail> {
    let start = Instant::now(&rt)?;
    let said = said(rt.alloc(), replica, line, rows);
    let took = start.elapsed(&rt)?.as_millis();
    println!(rt; "{} bytes in {took} ms: {line}", said.1)?;
    if is_wanted(line, said) {
        Ok(())
    } else {
        Err(Fail::new(line))
    }
}

fn take_lines<S: Alter + Drop>(
    rt: HostRuntime,
    replica: &mut Replica<S>,
    lines: &str,
    rows: &[u8],
) -> Result<(), Fail> {
    for line in lines.lines() {
        take(rt, replica, line, rows)?;
    }
    Ok(())
}

/// The same of all that a new site is asked.
fn take_site(rt: HostRuntime, site: &str) -> Result<(), Fail> {
    let (first, lines) = site.split_once('\n').unwrap_or(("", ""));
    let number = u32::try_from(number(first, 0)).unwrap_or(0);
    let mut replica = new_replica(rt.alloc(), number, &[])?;
    let rows = rows_of(rt.alloc(), first);
    let taken = take_lines(rt, &mut replica, lines, rows.as_slice());
    drop(rows);
    end(replica);
    taken
}

#[test]
fn limits_are_kept(rt: HostRuntime) -> Result<(), Fail> {
    for site in ASKED.split('#') {
        take_site(rt, site)?;
    }
    Ok(())
}
