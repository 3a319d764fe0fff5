//! The answering of one connection.
ghost use Rattle.mvd_replica.specs.Served.{ServesOver};

use crate::replica::Replica;
use crate::turns::{stop, take_turn};
use mvd_dots::Refusal;
use mvd_wire::Ending;
use sqlite::Alter;
use std::alloc::Global;
use std::io::{Read, Write};

/// How a connection ended well.
#[derive(Clone, Copy, Debug, PartialEq, Eq)]
pub enum Ended {
    /// It was said.
    Bye,
    /// The input ended after a frame.
    End,
}

impl From<Ended> for Ending {
    fn from(ended: Ended) -> Ending {
        match ended {
            Ended::Bye => Ending::Bye,
            Ended::End => Ending::End,
        }
    }
}

/// The most frames of a connection that are answered.
pub const FRAMES_MAX: u32 = 1_000_000;

/// Answers the frames of one connection, one after the other, until its Bye or its end. Any other end
/// is a refusal: `Truncated`, `FrameTooLong`, `ReadFailed` or `Memory` while a frame is read,
/// `TooManyRequests` after as many as there may be, each told in one frame more; or `WriteFailed`,
/// after which nothing more is written.
pub fn serve<R: Read, W: Write, S: Alter>(
    alloc: Global,
    reader: &mut R,
    writer: &mut W,
    replica: &mut Replica<S>,
) -> Result<Ended, Refusal>
    ensures { ServesOver R.remaining W.contents
        (replica.old, reader.old, writer.old) (replica.new, reader.new, writer.new) result }
{
    for _frame in 0..FRAMES_MAX {
        match take_turn(alloc, reader, writer, replica) {
            Ok(None) => continue,
            Ok(Some(ended)) => return Ok(ended),
            Err(refusal) => return Err(refusal),
        }
    }
    Err(stop(writer, Refusal::TooManyRequests))
}
