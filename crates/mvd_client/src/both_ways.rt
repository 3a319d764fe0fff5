//! A stream both ways: while a write would wait, what comes is read.
ghost use Rattle.std.specs.Prelude.{◌≡◌, ◌++◌, [], List, ℕ, Option, IfOk, IfErr, OnOk};
ghost use Rattle.std.specs.Io.{ReadsAtMost, WritesAtMost};
ghost use Rattle.std.specs.Io.KnownBytes.{Keeps, ReadConsumes, WriteAppends};
ghost use Rattle.mvd_client.specs.Early.{still_to_read};

use std::alloc::{AllocError, Global};
use std::collections::VecDeque;
use std::io::{self, ErrorKind, Read, Write};

/// The most bytes that are read at once.
const PIECE: usize = 65_536;

/// The most bytes that may come before they are asked for: those of 1,000 of the longest replies.
const EARLY_MOST: usize = 1_200_004_000;

/// A stream on which no read and no write waits: one that would wait is refused with `WouldBlock`.
pub trait Nonblocking: Sized + Drop {
    /// The bytes that it has still to give, where they are known.
    ghost remaining: { Self → Option (List ℕ) };

    /// The bytes that it took, where they are known.
    ghost contents: { Self → Option (List ℕ) };

    /// Reads what has come. It gives 0 where nothing will come.
    fn read_now(&mut self, buf: &mut [u8]) -> io::Result<usize>
        ensures bound { ReadsAtMost result buf.new }
        ensures bytes { ReadConsumes (remaining self.old) (remaining self.new) result buf.new }
        ensures unsent { Keeps (contents self.old) (contents self.new) };

    /// Writes as many of the bytes as there is room for.
    fn write_now(&mut self, buf: &[u8]) -> io::Result<usize>
        ensures bound { WritesAtMost result buf.now }
        ensures bytes { WriteAppends (contents self.old) (contents self.new) result buf.now }
        ensures unread { Keeps (remaining self.old) (remaining self.new) };

    /// Waits until something has come, or there is room.
    fn wait(&mut self) -> io::Result<()>
        ensures unread { Keeps (remaining self.old) (remaining self.new) }
        ensures unsent { Keeps (contents self.old) (contents self.new) };
}

/// A stream that is read and written, and waits in either. A write that would wait gives way to a read: what has come
/// is kept until it is asked for. So the other end can send on, and then read on, however little the link between them
/// holds.
#[derive(Drop)]
pub struct BothWays<S: Nonblocking> {
    stream: S,
    /// What came before it was asked for.
    early: VecDeque<u8>,
    piece: Vec<u8>,
}

impl<S: Nonblocking> BothWays<S> {
    /// A stream from which nothing was read yet.
    pub fn new(alloc: Global, stream: S) -> Result<Self, AllocError>
        ensures stream { IfOk result (λ both. both.stream ≡ stream) }
        ensures none { IfOk result (λ both. both.early.items ≡ []) }
    {
        Ok(BothWays {
            stream,
            early: VecDeque::new(alloc),
            piece: Vec::from_elem(alloc, 0, PIECE)?,
        })
    }

    /// Reads what has come, or waits where nothing has.
    fn read_early(&mut self) -> io::Result<()>
        ensures unread { OnOk result
            (Keeps (still_to_read S.remaining self.old) (still_to_read S.remaining self.new)) }
        ensures unsent { Keeps (S.contents self.old.stream) (S.contents self.new.stream) }
    {
        match self.stream.read_now(&mut self.piece) {
            Ok(0) => self.stream.wait(),
            Ok(count) => keep(&mut self.early, &self.piece[..count]),
            Err(error) if would_wait(&error) => self.stream.wait(),
            Err(error) => Err(error),
        }
    }
}

/// Whether a read or a write was refused since it would wait.
fn would_wait(error: &io::Error) -> bool {
    matches!(error.kind(), ErrorKind::WouldBlock)
}

/// Keeps what came early, unless it is too much.
fn keep(early: &mut VecDeque<u8>, bytes: &[u8]) -> io::Result<()>
    ensures { OnOk result (early.new.items ≡ early.old.items ++ bytes.now) }
{
    if bytes.len() > EARLY_MOST.saturating_sub(early.len()) {
        return Err(io::Error::from(ErrorKind::OutOfMemory));
    }
    match early.write(bytes) {
        Ok(_) => Ok(()),
        Err(error) => Err(error),
    }
}

/// Reads what comes next.
fn read_next<S: Nonblocking>(stream: &mut S, buf: &mut [u8]) -> io::Result<usize>
    ensures bound { ReadsAtMost result buf.new }
    ensures bytes { ReadConsumes (S.remaining stream.old) (S.remaining stream.new) result buf.new }
{
    'turns: for _ in 0..u64::MAX {
        match stream.read_now(buf) {
            Err(error) if would_wait(&error) => stream.wait()?,
            ended => return ended,
        }
    }
    Err(io::Error::from(ErrorKind::TimedOut))
}

impl<S: Nonblocking> Read for BothWays<S> {
    ghost remaining = { still_to_read S.remaining };

    fn read(&mut self, buf: &mut [u8]) -> io::Result<usize> {
        if self.early.is_empty() {
            return read_next(&mut self.stream, buf);
        }
        self.early.read(buf)
    }
}

impl<S: Nonblocking> Write for BothWays<S> {
    ghost contents = { λ both. S.contents both.stream };

    // What is still to be read stays, whatever comes meanwhile.
    fn write(&mut self, buf: &[u8]) -> io::Result<usize>
        ensures bound { WritesAtMost result buf.now }
        ensures bytes { WriteAppends (S.contents self.old.stream) (S.contents self.new.stream) result buf.now }
        ensures unread { OnOk result
            (Keeps (still_to_read S.remaining self.old) (still_to_read S.remaining self.new)) }
    {
        'turns: for _ in 0..u64::MAX {
            match self.stream.write_now(buf) {
                Err(error) if would_wait(&error) => self.read_early()?,
                ended => return ended,
            }
        }
        Err(io::Error::from(ErrorKind::TimedOut))
    }

    fn flush(&mut self) -> io::Result<()> {
        Ok(())
    }
}
