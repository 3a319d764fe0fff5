//! Scripts that end early, readers that fail, and writers that do.
use mvd_dots::Refusal;
use mvd_input::Fault;
use mvd_script::sim;
use std::alloc::Global;
use std::io;
use std::io::{Read, Write};

/// Scripts that end at a line that is no command, what they print before, and that line's number.
const BAD_LINES: &[(&str, &str, u64)] = &[
    ("get 1 k\n", "", 1),
    ("sites 0\n", "", 1),
    ("sites 17\n", "", 1),
    ("sites 01\n", "", 1),
    ("sites\n", "", 1),
    ("max 1\nsites 1\n", "", 1),
    ("sites 1\nsites 1\n", "", 2),
    ("sites 1\nmax 0\n", "", 2),
    ("sites 1\nmax 1000001\n", "", 2),
    ("sites 1\nmax 1\nmax 1\n", "", 3),
    ("sites 1\nget 1 k\nmax 1\n", "context -\n", 3),
    ("sites 1\n# more\n\nget 1 k\nget 1\n", "context -\n", 5),
    ("sites 1\nget 01 k\n", "", 2),
    ("sites 1\nget +1 k\n", "", 2),
    ("sites 1\nget 18446744073709551616 k\n", "", 2),
    ("sites 1\nget 1 k \n", "", 2),
    ("sites 1\n get 1 k\n", "", 2),
    ("sites 1\nput 1 k -\n", "", 2),
    ("sites 1\nrecv 1 x\n", "", 2),
    ("sites 1\nunknown 1 k\n", "", 2),
    ("sites 1\nroot 1 k\n", "", 2),
    ("index a\nsites 1\n", "", 1),
    ("sites 1\nindex a..b\n", "", 2),
    ("sites 1\nindex a b\n", "", 2),
    ("sites 1\nindex a\nindex a\n", "", 3),
    ("sites 1\nget 1 k\nindex a\n", "context -\n", 3),
    ("sites 1\nview v a\n", "", 2),
    ("sites 1\nview v a b\nview v c d\n", "", 3),
    ("sites 1\nnode 1\n", "", 2),
    ("sites 1\nfind 1 f\n", "", 2),
    ("sites 1\nrow 1 v\n", "", 2),
    ("sync 1 2\n", "", 1),
    ("sites 2\nsync 1\n", "", 2),
    ("sites 2\nsync 1 2 \n", "", 2),
    ("sites 2\nsync 1 x\n", "", 2),
    ("sites 1\nkeys 1 a\nkeys 1 \n", "none\n", 3),
    ("sites 1\nkeys 1 a \n", "", 2),
    ("sites 1\nkeys 1 a b\n", "", 2),
    ("sites 1\nkeys\n", "", 2),
    ("sites 1\nkeys \n", "", 2),
    ("sites 1\nkeys a\n", "", 2),
    ("sites 1\nkeys 01\n", "", 2),
    ("keys 1\n", "", 1),
    ("sites 1\nconflicts 1\nconflicts 1 a\n", "none\n", 3),
    ("sites 1\nconflicts 1 \n", "", 2),
    ("sites 1\nconflicts\n", "", 2),
    ("sites 1\nget 1\n", "", 2),
    ("sites 1\nrows 1\n", "", 2),
];

/// Whether the bytes end as a script at the line of this number, and print this before.
fn ends_at(alloc: Global, mut script: &[u8], wanted: &str, number: u64) -> bool {
    let mut out = Vec::new(alloc);
    let ended = sim(alloc, &mut script, &mut out);
    let is_there = matches!(&ended, Err(Fault::Line(line)) if *line == number);
    is_there && out.as_slice() == wanted.as_bytes()
}

#[test]
fn lines_that_are_no_commands(rt: HostRuntime) {
    for (script, wanted, number) in BAD_LINES {
        assert!(rt;
            ends_at(rt.alloc(), script.as_bytes(), wanted, *number),
            "{script}"
        );
    }
    let no_text = b"sites 1\nget 1 k\nget 1 \xff\n";
    assert!(rt; ends_at(rt.alloc(), no_text, "context -\n", 3));
}

/// A reader and a writer that fail at once.
#[derive(Drop)]
struct Broken;

impl Read for Broken {
    fn read(&mut self, _buf: &mut [u8]) -> io::Result<usize> {
        Err(io::Error::from(io::ErrorKind::Other))
    }
}

impl Write for Broken {
    fn write(&mut self, _buf: &[u8]) -> io::Result<usize> {
        Err(io::Error::from(io::ErrorKind::Other))
    }

    fn flush(&mut self) -> io::Result<()> {
        Ok(())
    }
}

/// Whether a script is stopped for this reason.
fn is_stopped<R: Read, W: Write>(
    alloc: Global,
    reader: &mut R,
    writer: &mut W,
    wanted: Refusal,
) -> bool {
    let ended = sim(alloc, reader, writer);
    matches!(&ended, Err(Fault::Stopped(refusal)) if *refusal == wanted)
}

/// Whether a script that does not end, or cannot be read, is stopped and prints nothing; and one that cannot be
/// printed.
fn are_stopped(alloc: Global) -> bool {
    let mut out = Vec::new(alloc);
    let mut script = b"sites 1\nget 1 k\n".as_slice();
    is_stopped(
        alloc,
        &mut io::repeat(b'\n'),
        &mut out,
        Refusal::FrameTooLong,
    ) && is_stopped(alloc, &mut Broken, &mut out, Refusal::ReadFailed)
        && is_stopped(alloc, &mut script, &mut Broken, Refusal::WriteFailed)
        && out.is_empty()
}

#[test]
fn readers_and_writers_that_fail(rt: HostRuntime) {
    assert!(rt; are_stopped(rt.alloc()));
}
