//! Frames that are cut or changed, each in turn, and random ones, from a generator with a fixed seed.
use super::replica_calls::{
    Bytes, CLASH, GET, PUT, WIDE, counted, end, new_replica, push, replies,
};
use mvd_replica::Replica;
use sqlite::Alter;
use std::alloc::Global;
use std::test::Fail;

/// What the numbers so far leave: it determines those that follow.
pub type Random = u64;

/// The next number below a limit, or 0 where that is 0.
pub fn below(random: &mut Random, limit: u64) -> u64 {
    let mut x = *random | 1;
    x ^= x << 13;
    x ^= x >> 7;
    x ^= x << 17;
    *random = x;
    (x >> 11).checked_rem(limit).unwrap_or(0)
}

// The forms of a piece of a payload, a line each: what is often there, what is at a limit, and what is none. A form
// is bytes in hexadecimal digits; behind a `+`, so many letters; behind a second one, bytes at the end.

const KEY: &str = "\
0161
0162
0163
0164
0165
0166
0167
0168
0169
0161
0162
0163
0164
00
02+2
7f+127
80+128
81+129
ff+255
";

const PREFIX: &str = "\
00
00
0161
7f+127
80+128
81+129
0120
";

const TOKEN: &str = "\
0000
0001+1
0100+256
0101+257
ffff
";

const CONTEXT: &str = "\
00000000
00000000
0000000100000001000000000000000100000000
0000000100000001000000000000000300000000
0000000100000001000000000000000000000000
00000001000000010000000000000001000000010000000000000003
00000001000000010000000000000001000000010000000000000002
000000010000000200000000000000000000000200000000000000020000000000000005
000000010000000200000000000000000000000200000000000000050000000000000002
00000001000000010000000000000001ffffffff
000000020000000100000000000000020000000000000002000000000000000200000000
000000020000000200000000000000020000000000000001000000000000000200000000
ffffffff
";

const DOCUMENT: &str = "\
000000087b2261223a22+0+227d
000000097b2261223a22+1+227d
000000097b2261223a22+1+227d
000000097b2261223a22+1+227d
0000000a7b2276223a22+2+227d
0000000c7b2263697479223a22+1+227d
0000000f7b2263697479223a22+4+227d
000000337b2263697479223a22+40+227d
0000ffff7b2261223a22+65527+227d
000100007b2261223a22+65528+227d
000100017b2261223a22+65529+227d
";

const TERM: &str = "\
00
01
02
033ff0000000000000
03ffffffffffffffff
040000
040001+1
040004+4
0401ff+511
040200+512
040201+513
05
";

const NAME: &str = "\
000463697479
00057370656e64
000161
0000
003f+63
0040+64
0041+65
";

const PATH: &str = "\
00
0103
02000f
03010203
030f000a
0400000000
020110
";

const DOT: &str = "\
000000010000000000000001
000000010000000000000002
000000020000000000000002
000000030000000000000001
000000000000000000000001
000000010000000000000000
ffffffff0000ffffffffffff
000000010001000000000000
";

/// The flag of an option that is not there, and of one that is.
const NONE: &str = "\
00
00
02
";

const SOME: &str = "\
01
";

/// How many siblings a state has.
const NO_SIBLING: &str = "\
0000
";

const SIBLING: &str = "\
0001
0001
0001
ffff
";

const SIBLINGS: &str = "\
0002
";

/// The payload of each kind of request, in each of its shapes, a letter for a piece; and frames that are no request.
/// A Bye is the last.
const KINDS: &str = "\
21 k
22 kcd
22 kcd
23 kc
24 ntz
24 ntskv
25 nt
26 nz
26 nst
27 p
28 pz
28 psk
29 kce
29 kcovd
29 kcmvdvd
2a nttz
2a nttstkv
2b az
2b ask
2c z
2c sk
2d h
20 k
a1 covd
2f -
";

fn forms_of(piece: u8) -> &'static str {
    match piece {
        b'k' => KEY,
        b'a' => PREFIX,
        b'h' => TOKEN,
        b'c' => CONTEXT,
        b'd' => DOCUMENT,
        b't' => TERM,
        b'n' => NAME,
        b'p' => PATH,
        b'v' => DOT,
        b'z' => NONE,
        b's' => SOME,
        b'e' => NO_SIBLING,
        b'o' => SIBLING,
        b'm' => SIBLINGS,
        _ => "",
    }
}

fn line_at(text: &'static str, at: u64) -> &'static str {
    text.lines().nth(at as usize).unwrap_or("")
}

fn line_count(text: &str) -> u64 {
    text.lines().count() as u64
}

fn add_digits(payload: &mut Vec<u8>, digits: &str) {
    let bytes = Bytes::of(&[digits]);
    push(payload, bytes.bytes());
}

/// Adds a form of a piece to a payload.
fn add_form(payload: &mut Vec<u8>, form: &str) {
    let (begin, rest) = form.split_once('+').unwrap_or((form, "0"));
    let (letters, end) = rest.split_once('+').unwrap_or((rest, ""));
    add_digits(payload, begin);
    for _ in 0..letters.parse::<u32>().unwrap_or(0) {
        push(payload, b"x");
    }
    add_digits(payload, end);
}

/// Adds these pieces to a payload, each in one of its forms.
fn add_pieces(random: &mut Random, pieces: &str, payload: &mut Vec<u8>) {
    for piece in pieces.bytes() {
        let forms = forms_of(piece);
        let at = below(random, line_count(forms));
        add_form(payload, line_at(forms, at));
    }
}

/// Takes away some of the bytes from a place on, puts some at the end, or changes one; mostly none.
fn damage(random: &mut Random, bytes: &mut Vec<u8>, from: usize) {
    let behind = bytes.len().saturating_sub(from) as u64;
    let at = from.saturating_add(below(random, behind) as usize);
    let byte = below(random, 256).to_be_bytes()[7];
    match below(random, 8) {
        0 => bytes.truncate(at),
        1 => push(bytes, b"xx"),
        2 => {
            if let Some(found) = bytes.get_mut(at) {
                *found = byte;
            }
        }
        _ => {}
    }
}

/// Adds a frame to a connection's bytes.
fn add_frame(alloc: Global, random: &mut Random, input: &mut Vec<u8>) {
    // A Bye is seldom.
    let most = line_count(KINDS).saturating_mul(8).saturating_sub(7);
    let at = below(random, most) / 8;
    let mut payload = Vec::new(alloc);
    if let Some((kind, pieces)) = line_at(KINDS, at).split_once(' ') {
        add_pieces(random, pieces, &mut payload);
        damage(random, &mut payload, 0);
        let len = u32::try_from(payload.len()).unwrap_or(0);
        push(input, &len.saturating_add(1).to_be_bytes());
        add_digits(input, kind);
        push(input, payload.as_slice());
    }
    drop(payload);
}

const FRAMES: u32 = 40;

/// Each second connection has frames that are damaged as a whole, with their lengths.
const CONNECTIONS: u32 = 250;

/// How many of such frames a connection answers, which is all, or those up to a Bye, unless frames are damaged as a
/// whole; `None` where it ends otherwise, or another byte is among the replies.
fn answered<S: Alter + Drop>(
    alloc: Global,
    random: &mut Random,
    replica: &mut Replica<S>,
    are_whole: bool,
) -> Option<usize> {
    let mut input = Vec::new(alloc);
    for _ in 0..FRAMES {
        let from = input.len();
        add_frame(alloc, random, &mut input);
        if !are_whole {
            damage(random, &mut input, from);
        }
    }
    let (output, ended) = replies(alloc, replica, input.as_slice());
    let (replies, _, left) = counted(output.as_slice());
    drop(output);
    drop(input);
    let is_well = ended == "bye" || (ended == "end" && replies == FRAMES as usize);
    if left == 0 && (is_well || !are_whole) {
        Some(replies)
    } else {
        None
    }
}

/// How many connections are answered, one after the other, until one is not; and how many frames.
fn answered_of_all<S: Alter + Drop>(alloc: Global, replica: &mut Replica<S>) -> (u32, usize) {
    let mut random = 0x9E37_79B9_7F4A_7C15;
    let mut frames = 0usize;
    for connection in 0..CONNECTIONS {
        match answered(alloc, &mut random, replica, connection % 2 == 0) {
            Some(replies) => frames = frames.saturating_add(replies),
            None => return (connection, frames),
        }
    }
    (CONNECTIONS, frames)
}

/// Whether what comes on a connection has nothing but replies, and a question for `k` on the next one a state.
fn goes_on<S: Alter + Drop>(alloc: Global, replica: &mut Replica<S>, input: &Bytes) -> bool {
    let (output, _) = replies(alloc, replica, input.bytes());
    let (_, _, left) = counted(output.as_slice());
    drop(output);
    let (state, ended) = replies(alloc, replica, Bytes::of(&[GET]).bytes());
    let (states, _, behind) = counted(state.as_slice());
    let is_state = matches!(state.as_slice(), [_, _, _, _, 0xA1, ..]);
    drop(state);
    left == 0 && is_state && (states, behind, ended) == (1, 0, "end")
}

/// The first place at which three requests on one connection do not go on so where they are cut there, or where the
/// byte there is replaced by its complement; how many bytes they have where there is no such place.
fn goes_on_to<S: Alter + Drop>(alloc: Global, replica: &mut Replica<S>) -> usize {
    let whole = Bytes::of(&[PUT, WIDE, CLASH]);
    for at in 0..whole.len {
        let mut cut = whole;
        cut.len = at;
        let mut changed = whole;
        if let Some(byte) = changed.room.get_mut(at) {
            *byte = !*byte;
        }
        if !goes_on(alloc, replica, &cut) || !goes_on(alloc, replica, &changed) {
            return at;
        }
    }
    whole.len
}

#[test]
fn frames_of_any_bytes_are_answered(rt: HostRuntime) -> Result<(), Fail> {
    let mut replica = new_replica(rt.alloc(), 1, &[])?;
    let places = goes_on_to(rt.alloc(), &mut replica);
    let (connections, frames) = answered_of_all(rt.alloc(), &mut replica);
    let keys = replica.key_count();
    end(replica);
    println!(rt; "{frames} frames on {connections} connections, {keys} keys")?;
    assert!(rt; places == 120 && connections == CONNECTIONS);
    Ok(())
}
