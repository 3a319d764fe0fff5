//! Hexadecimal lines, files of definitions, and a connection within one process.
use mvd_app::loop_run;
use mvd_input::{Fault, hex_bytes, read_defs};
use mvd_rows::Defs;
use mvd_site::Config;
use std::alloc::{AllocError, Global};
use std::net::Net;
use std::test::Fail;

/// What comes of an input: it is read, or its line of this number is at fault, or else it is refused with that number.
type Came = Result<(), (u64, u8)>;

const TOO_LONG: Came = Err((0, 31));

fn came_of(fault: Fault) -> Came {
    match fault {
        Fault::Line(line) => Err((line, 0)),
        Fault::Stopped(refusal) => Err((0, refusal.number())),
    }
}

/// Lines, a byte that follows them, and how often.
type Input = (&'static [u8], u8, u32);

fn text_of(alloc: Global, input: Input) -> Result<Vec<u8>, AllocError> {
    let mut text = Vec::new(alloc);
    text.extend_from_slice(input.0)?;
    for _ in 0..input.2 {
        text.push(input.1)?;
    }
    Ok(text)
}

/// Whether lines of hexadecimal spell this.
fn spell(alloc: Global, lines: &[u8], wanted: &[u8]) -> bool {
    match hex_bytes(alloc, lines) {
        Ok(bytes) => bytes.as_slice() == wanted,
        Err(_) => false,
    }
}

/// What comes of lines of hexadecimal.
fn of_hexadecimal(alloc: Global, lines: &[u8]) -> Came {
    match hex_bytes(alloc, lines) {
        Ok(_) => Ok(()),
        Err(fault) => came_of(fault),
    }
}

/// What comes of definitions.
fn of_definitions(alloc: Global, lines: &[u8]) -> Came {
    match read_defs(alloc, lines) {
        Ok(_) => Ok(()),
        Err(fault) => came_of(fault),
    }
}

/// Whether that comes of lines of hexadecimal, or of definitions.
fn comes(alloc: Global, is_hex: bool, input: Input, wanted: Came) -> Result<bool, AllocError> {
    let text = text_of(alloc, input)?;
    let came = if is_hex {
        of_hexadecimal(alloc, &text)
    } else {
        of_definitions(alloc, &text)
    };
    Ok(came == wanted)
}

/// Lines of hexadecimal, and files of definitions.
const INPUTS: [(bool, Input, Came); 13] = [
    (true, (b"xy", 0, 0), Err((1, 0))),
    (true, (b"00\n000\n", 0, 0), Err((2, 0))),
    (true, (b"00\n", b'0', 65_534), Ok(())),
    (true, (b"xy\n", b'0', 65_538), Err((1, 0))),
    (true, (b"00\n", b'0', 65_536), TOO_LONG),
    (true, (b"", b'\n', 131_072), Ok(())),
    (true, (b"x", b'\n', 131_072), TOO_LONG),
    (
        false,
        (b"# two\n\nindex city\nview v city n\n", 0, 0),
        Ok(()),
    ),
    (
        false,
        (b"index city\nview v city n\nmax 1", 0, 0),
        Err((3, 0)),
    ),
    (false, (b"index city\nindex city", 0, 0), Err((2, 0))),
    (false, (b"\xff", 0, 0), Err((1, 0))),
    (false, (b"", b'\n', 65_536), Ok(())),
    (false, (b"x", b'\n', 65_536), TOO_LONG),
];

#[test]
fn inputs_have_their_forms(rt: HostRuntime) -> Result<(), Fail> {
    assert!(rt; spell(rt.alloc(), b"00ff\n\nA0\n", &[0, 255, 160]));
    for (is_hex, input, wanted) in INPUTS {
        let bytes = input.0.len();
        assert!(rt; comes(rt.alloc(), is_hex, input, wanted)?, "{bytes} bytes");
    }
    Ok(())
}

/// Whether a connection with these requests prints this.
fn prints<N: Net>(rt: &N, alloc: Global, lines: &[u8], wanted: &str) -> Result<bool, Fault> {
    let mut reader = lines;
    let mut out = Vec::new(alloc);
    let config = Config::new(1, 10, Defs::new(alloc));
    loop_run(rt, alloc, &mut reader, &mut out, config)?;
    Ok(out.as_slice() == wanted.as_bytes())
}

/// What comes of a connection with these requests, which is well if it prints this.
fn of_connection<N: Net>(rt: &N, alloc: Global, lines: &[u8], wanted: &str) -> Came {
    match prints(rt, alloc, lines, wanted) {
        Ok(true) => Ok(()),
        Ok(false) => Err((0, 0)),
        Err(fault) => came_of(fault),
    }
}

fn is_printed<N: Net>(
    rt: &N,
    alloc: Global,
    input: Input,
    printed: &str,
    wanted: Came,
) -> Result<bool, AllocError> {
    let text = text_of(alloc, input)?;
    Ok(of_connection(rt, alloc, &text, printed) == wanted)
}

/// Requests over a connection, and what they print. What follows a Bye is not answered.
const REQUESTS: [(Input, &str, Came); 4] = [
    (
        (b"000000032101\n6b\n000000012f", 0, 0),
        "00000007a1000000000000\n00000001a3\nended bye\n",
        Ok(()),
    ),
    (
        (b"0000", 0, 0),
        "00000002ee1e\nended 30 Truncated\n",
        Ok(()),
    ),
    ((b"00\nxy", 0, 0), "", Err((2, 0))),
    (
        (b"000000012f\n", b'0', 60_000),
        "00000001a3\nended bye\n",
        Ok(()),
    ),
];

#[test]
fn requests_are_answered_over_a_connection(rt: HostRuntime) -> Result<(), Fail> {
    for (input, printed, wanted) in REQUESTS {
        let is_so = is_printed(&rt, rt.alloc(), input, printed, wanted)?;
        assert!(rt; is_so, "{printed}");
    }
    Ok(())
}
