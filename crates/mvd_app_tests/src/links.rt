//! Links: what is sent leaves at once, and a stream that does not take it, or gives nothing, is told as such.
ghost use Rattle.std.specs.Prelude.{None};

use mvd_client::{BothWays, Link, Nonblocking};
use mvd_dots::Refusal;
use mvd_remote::Line;
use std::alloc::Global;
use std::cell::Cell;
use std::io::{self, ErrorKind, Read, Write};

/// A stream that gives its bytes, and tells how many it was given by then. It counts its writes.
#[derive(Drop)]
struct Mirror<'a> {
    input: &'a [u8],
    taken: u64,
    writes: &'a Cell<u64>,
    asked: &'a Cell<u64>,
}

impl Read for Mirror<'_> {
    fn read(&mut self, buf: &mut [u8]) -> io::Result<usize> {
        self.asked.set(self.taken);
        self.input.read(buf)
    }
}

impl Write for Mirror<'_> {
    fn write(&mut self, buf: &[u8]) -> io::Result<usize> {
        self.taken = self.taken.saturating_add(buf.len() as u64);
        self.writes.set(self.writes.get().saturating_add(1));
        Ok(buf.len())
    }

    fn flush(&mut self) -> io::Result<()> {
        Ok(())
    }
}

/// Whether a frame comes once a window of five thousand bytes was sent.
fn comes_by(alloc: Global, stream: Mirror<'_>) -> bool {
    let Ok(mut link) = Link::new(alloc, stream) else {
        return false;
    };
    link.send(&[0; 5_000]).is_ok() && matches!(link.receive(alloc), Ok(Some(_)))
}

#[test]
fn a_window_leaves_at_once_and_before_a_read(rt: HostRuntime) {
    let input = [0, 0, 0, 1, 0xA3];
    let writes = Cell::new(0);
    let asked = Cell::new(0);
    let stream = Mirror {
        input: &input,
        taken: 0,
        writes: &writes,
        asked: &asked,
    };
    let came = comes_by(rt.alloc(), stream);
    assert!(rt; (came, writes.get(), asked.get()) == (true, 1, 5_000));
}

/// A stream at which nothing comes in time. It takes so many bytes, and then no more.
#[derive(Drop)]
struct Silent {
    room: usize,
}

impl Nonblocking for Silent {
    ghost remaining = { λ _. None };

    ghost contents = { λ _. None };

    fn read_now(&mut self, _buf: &mut [u8]) -> io::Result<usize> {
        Err(io::Error::from(ErrorKind::WouldBlock))
    }

    fn write_now(&mut self, buf: &[u8]) -> io::Result<usize> {
        let count = self.room.min(buf.len());
        self.room = self.room.saturating_sub(count);
        if count == 0 {
            return Err(io::Error::from(ErrorKind::WouldBlock));
        }
        Ok(count)
    }

    fn wait(&mut self) -> io::Result<()> {
        Err(io::Error::from(ErrorKind::TimedOut))
    }
}

/// How sending ten bytes ended, and then taking a frame, over a stream that takes so many.
fn silence(alloc: Global, room: usize) -> (Result<(), Refusal>, Refusal) {
    let Ok(stream) = BothWays::new(alloc, Silent { room }) else {
        return (Err(Refusal::Memory), Refusal::Memory);
    };
    let Ok(mut link) = Link::new(alloc, stream) else {
        return (Err(Refusal::Memory), Refusal::Memory);
    };
    let sent = link.send(&[0; 10]);
    match link.receive(alloc) {
        Ok(_) => (sent, Refusal::Broken),
        Err(refusal) => (sent, refusal),
    }
}

#[test]
fn bytes_that_do_not_leave_in_time_are_a_write_that_failed(rt: HostRuntime) {
    let alloc = rt.alloc();
    let all = silence(alloc, 10);
    assert!(rt; all == (Ok(()), Refusal::ReadFailed));
    let some = silence(alloc, 9);
    assert!(rt; some == (Err(Refusal::WriteFailed), Refusal::ReadFailed));
}
