//! A connection to a server: what is sent leaves at once.
ghost use Rattle.std.specs.Prelude.{◌≡◌, ◌++◌, [], IfErr, IfOk, None, Some};
ghost use Rattle.mvd_dots.specs.declared.refusals.Refusal.TheVariants.{Memory};
ghost use Rattle.mvd_client.specs.Sent.{bytes_in};
ghost use Rattle.mvd_remote.specs.Lines.{nowhere};

use http_server::Log;
use mvd_dots::Refusal;
use mvd_frames::{read_frame, write_frame};
use mvd_remote::Line;
use mvd_wire::Frame;
use std::alloc::Global;
use std::io::{self, BufReader, Read, Write};

/// The most bytes that are read at once.
const PIECE: usize = 65_536;

/// A stream to a server, which is read many bytes at once. The requests of a window are sent together, and leave before
/// a reply is waited for. So a stream that does not take them is told as such, and not as one that cannot be read.
#[derive(Drop)]
pub struct Link<S: Read + Write + Drop> {
    stream: BufReader<S>,
    /// The bytes that it took to send, for proofs alone.
    sent: Log<u8, ()>,
}

impl<S: Read + Write + Drop> Link<S> {
    pub fn new(alloc: Global, stream: S) -> Result<Self, Refusal>
        ensures none { IfOk result (λ link. link.sent.items ≡ []) }
        ensures memory { IfErr result (λ refusal. refusal ≡ Memory) }
    {
        match BufReader::with_capacity(alloc, PIECE, stream) {
            Ok(stream) => Ok(Link {
                stream,
                sent: Log::new(),
            }),
            Err(_) => Err(Refusal::Memory),
        }
    }
}

impl<S: Read + Write + Drop> Write for Link<S> {
    ghost contents = { λ link. Some (bytes_in link.sent.items) };

    fn write(&mut self, bytes: &[u8]) -> io::Result<usize> {
        match self.stream.get_mut().write(bytes) {
            Ok(count) => {
                note(&mut self.sent, &bytes[..count]);
                Ok(count)
            }
            Err(error) => Err(error),
        }
    }

    fn flush(&mut self) -> io::Result<()> {
        self.stream.get_mut().flush()
    }
}

/// Notes the bytes that were taken.
fn note(sent: &mut Log<u8, ()>, bytes: &[u8])
    ensures { bytes_in sent.new.items ≡ bytes_in sent.old.items ++ bytes.now }
{
    for byte in bytes {
        *sent = sent.and(byte, &());
    }
}

/// It is known which bytes were sent, and nothing of those that come.
impl<S: Read + Write + Drop> Line for Link<S> {
    ghost remaining = { λ _. None };

    ghost contents = { λ link. Some (bytes_in link.sent.items) };

    // No contract of a stream ties what comes to what was sent.
    ghost is_true = { λ _. ⊥ };

    ghost far = { λ _. nowhere };

    ghost is_live = { λ _. ⊥ };

    ghost awaits = { λ _. [] };

    ghost in_form = { λ _ never. absurd never };

    ghost live_form = { λ _ never. absurd never };

    fn send(&mut self, frames: &[u8]) -> Result<(), Refusal> {
        write_frame(self, frames)?;
        match self.flush() {
            Ok(()) => Ok(()),
            Err(_) => Err(Refusal::WriteFailed),
        }
    }

    fn receive(&mut self, alloc: Global) -> Result<Option<Frame>, Refusal> {
        read_frame(alloc, &mut self.stream)
    }
}
