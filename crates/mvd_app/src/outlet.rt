//! Where a server prints: standard output and standard error, which hold nobody up where nobody reads them.
ghost use Rattle.std.specs.Prelude.{◌≤◌, IfOk, length};

use mio::unix::SourceFd;
use mio::{Events, Interest, Poll, Token};
use std::alloc::Global;
use std::fmt::Write as Print;
use std::io::{self, ErrorKind, Write};
use std::net::Net;
use std::os::fd::RawFd;
use std::time::Duration;

/// The descriptor of standard output.
pub(crate) const STANDARD_OUTPUT: RawFd = 1;

/// That of standard error.
pub(crate) const STANDARD_ERROR: RawFd = 2;

/// The most bytes that leave together: a pipe that has room takes as many without a wait (`PIPE_BUF`).
const PIECE: usize = 4_096;

/// The most bytes of the line that tells of dropped ones.
const NOTICE: usize = 32;

/// The writer of one of them, for which nobody waits. Lines that cannot leave at once, or for which a disk has no
/// room, are dropped and counted, and the next ones that leave follow a line that tells how many. Where the system does
/// not say whether there is room, as of a regular file, a write tells.
#[derive(Drop)]
pub(crate) struct Outlet<'w, W: Write> {
    writer: &'w mut W,
    /// What it writes to.
    descriptor: RawFd,
    poll: Poll,
    events: Events,
    is_watched: bool,
    dropped: u64,
    /// What left last is not a whole line.
    is_cut: bool,
    /// The line that tells of dropped ones, of how many, and how many of its bytes left while not all did.
    notice: String,
    named: u64,
    noticed: usize,
}

impl<'w, W: Write> Outlet<'w, W> {
    pub(crate) fn new<N: Net>(
        rt: &N,
        alloc: Global,
        descriptor: RawFd,
        writer: &'w mut W,
    ) -> io::Result<Self> {
        let notice = String::with_capacity(alloc, NOTICE)?;
        let events = Events::with_capacity(alloc, 1)?;
        let poll = Poll::new(rt)?;
        let mut output = SourceFd(&descriptor);
        let registered = poll
            .registry()
            .register(&mut output, Token(0), Interest::WRITABLE);
        let is_watched = registered.is_ok();
        Ok(Outlet {
            writer,
            descriptor,
            poll,
            events,
            is_watched,
            dropped: 0,
            is_cut: false,
            notice,
            named: 0,
            noticed: 0,
        })
    }

    /// Whether a piece leaves without a wait. The system tells of room once, unless it is asked anew. Where nobody is
    /// left to read, it tells so too, and a write is refused at once.
    fn has_room(&mut self) -> bool {
        if !self.is_watched {
            return true;
        }
        let mut output = SourceFd(&self.descriptor);
        let registry = self.poll.registry();
        let asked = registry.reregister(&mut output, Token(0), Interest::WRITABLE);
        let looked = self.poll.poll(&mut self.events, Some(Duration::ZERO));
        asked.is_ok() && looked.is_ok() && !self.events.is_empty()
    }

    /// Tells how many lines were dropped, if some were, and whether there is room behind that.
    fn tell_dropped(&mut self) -> io::Result<bool> {
        if self.noticed == 0 {
            if self.dropped == 0 {
                return Ok(true);
            }
            self.begin_notice()?;
        }
        let rest = behind(self.notice.as_bytes(), self.noticed);
        let count = leave(self.writer, rest)?;
        self.is_cut = is_cut(rest, count, self.is_cut);
        self.noticed = self.noticed.saturating_add(count);
        if self.noticed < self.notice.len() {
            return Ok(false);
        }
        self.noticed = 0;
        self.dropped = self.dropped.saturating_sub(self.named);
        Ok(self.dropped == 0 && self.has_room())
    }

    /// The line that tells of all that were dropped until now, on a line of its own.
    fn begin_notice(&mut self) -> io::Result<()> {
        self.notice.clear();
        if self.is_cut {
            self.notice.push('\n')?;
        }
        writeln!(self.notice, "dropped {}", self.dropped)?;
        self.named = self.dropped;
        Ok(())
    }

    /// Counts the lines of what is dropped.
    fn count(&mut self, lines: &[u8]) {
        for byte in lines {
            if *byte == b'\n' {
                self.dropped = self.dropped.saturating_add(1);
            }
        }
    }
}

impl<W: Write> Write for Outlet<'_, W> {
    fn write(&mut self, buf: &[u8]) -> io::Result<usize> {
        if !self.has_room() || !self.tell_dropped()? {
            self.count(buf);
            return Ok(buf.len());
        }
        let piece = &buf[..piece_of(buf)];
        let count = leave(self.writer, piece)?;
        if count == 0 {
            self.count(buf);
            return Ok(buf.len());
        }
        self.is_cut = is_cut(piece, count, self.is_cut);
        Ok(count)
    }

    // What is written has left.
    fn flush(&mut self) -> io::Result<()> {
        Ok(())
    }
}

/// How many of the bytes leave together: whole lines, unless the first one is longer than a piece.
fn piece_of(buf: &[u8]) -> usize
    ensures { result ≤ length buf.now }
{
    let most = buf.len().min(PIECE);
    match buf[..most].iter().rposition(|byte| *byte == b'\n') {
        Some(at) => at + 1,
        None => most,
    }
}

/// What is left behind so many bytes.
fn behind(bytes: &[u8], count: usize) -> &[u8] {
    &bytes[count.min(bytes.len())..]
}

/// Writes once. It gives how many bytes left: none where there is no room for one.
fn leave<W: Write>(writer: &mut W, piece: &[u8]) -> io::Result<usize>
    ensures { IfOk result (λ count. count ≤ length piece.now) }
{
    match writer.write(piece) {
        Ok(count) => {
            writer.flush()?;
            Ok(count)
        }
        Err(error) => if is_want_of_room(error.kind()) {
            Ok(0)
        } else {
            Err(error)
        },
    }
}

/// Whether a disk has no room, for this user at least, or a pipe that others fill, too.
fn is_want_of_room(kind: ErrorKind) -> bool {
    matches!(
        kind,
        ErrorKind::StorageFull
            | ErrorKind::QuotaExceeded
            | ErrorKind::FileTooLarge
            | ErrorKind::WouldBlock
    )
}

/// Whether what left is not a whole line, once so many bytes of a piece left.
fn is_cut(piece: &[u8], count: usize, before: bool) -> bool {
    match piece[..count.min(piece.len())].last() {
        Some(byte) => *byte != b'\n',
        None => before,
    }
}
