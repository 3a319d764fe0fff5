//! Streams that fail, or that give and take a byte, at a call that is chosen.
use std::io;
use std::io::{Read, Write};

/// How many bytes a call of a stream gives or takes at most; `None` where it fails.
pub type Way = Option<usize>;

pub const WHOLE: Way = Some(usize::MAX);

pub const FAILS: Way = None;

pub const NOTHING: Way = Some(0);

pub const BYTE: Way = Some(1);

/// The number of a call, counted from 0; how a stream goes at this call, and how at each other.
pub type Ways = (usize, Way, Way);

/// Those of a stream that does all that it is asked.
pub const ALL: Ways = (0, WHOLE, WHOLE);

/// How many bytes of so many are to go over in this call.
fn turn(ways: &mut Ways, len: usize) -> io::Result<usize> {
    let way = if ways.0 == 0 { ways.1 } else { ways.2 };
    ways.0 = ways.0.checked_sub(1).unwrap_or(usize::MAX);
    match way {
        Some(most) => Ok(len.min(most)),
        None => Err(io::Error::from(io::ErrorKind::Other)),
    }
}

/// A stream over another.
#[derive(Drop)]
pub struct Stream<T> {
    pub inner: T,
    pub ways: Ways,
}

impl<T: Read> Read for Stream<T> {
    fn read(&mut self, buf: &mut [u8]) -> io::Result<usize> {
        let len = turn(&mut self.ways, buf.len())?.min(buf.len());
        self.inner.read(&mut buf[..len])
    }
}

impl<T: Write> Write for Stream<T> {
    fn write(&mut self, buf: &[u8]) -> io::Result<usize> {
        let len = turn(&mut self.ways, buf.len())?.min(buf.len());
        self.inner.write(&buf[..len])
    }

    fn flush(&mut self) -> io::Result<()> {
        Ok(())
    }
}
