//! A stream of which it is known what comes.
ghost use Rattle.std.specs.Prelude.{◌≡◌, ◌<◌, Some, false};

use std::io::{self, ErrorKind, Read};

/// A stream that gives the bytes that are awaited, and then ends. It fails where the stream gives others.
#[derive(Drop)]
pub(crate) struct Awaited<'a, R: Read> {
    stream: &'a mut R,
    rest: &'a [u8],
}

impl<'a, R: Read> Awaited<'a, R> {
    pub(crate) fn new(stream: &'a mut R, rest: &'a [u8]) -> Self
        ensures { result.rest.now ≡ rest.now }
    {
        Awaited { stream, rest }
    }
}

impl<R: Read> Read for Awaited<'_, R> {
    ghost remaining = { λ awaited. Some awaited.rest.now };

    #[tactic(auto, using(crate::proofs::Loops::awaited_rest))]
    fn read(&mut self, buf: &mut [u8]) -> io::Result<usize> {
        let count = self.stream.read(buf)?;
        let awaited = self.rest;
        let Some(rest) = awaited.strip_prefix(&buf[..count]) else {
            return Err(io::Error::from(ErrorKind::InvalidData));
        };
        if ends_early(count, buf.len(), rest.len()) {
            return Err(io::Error::from(ErrorKind::UnexpectedEof));
        }
        self.rest = rest;
        Ok(count)
    }
}

/// Whether a stream that gave so many bytes, for which there was so much room, has ended before all came.
fn ends_early(count: usize, room: usize, awaited: usize) -> bool
    ensures { result ≡ false → count ≡ 0 → 0 < room → awaited ≡ 0 }
{
    count == 0 && room > 0 && awaited > 0
}
