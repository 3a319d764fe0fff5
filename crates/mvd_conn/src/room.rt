//! Room in a buffer.
ghost use Rattle.std.specs.Prelude.{◌≡◌};
ghost use Rattle.bytes.specs.Filled.{MakesSpare};

use bytes::BytesMut;
use std::alloc::AllocError;

/// The spare bytes asked for beyond what is needed, so that what a buffer holds is not moved for each of them.
const MORE: usize = 65_536;

/// Makes room for that many bytes.
pub(crate) fn make_room(buffer: &mut BytesMut, needed: usize) -> Result<(), AllocError>
    ensures items { buffer.new.items ≡ buffer.old.items }
    ensures spare { MakesSpare result buffer.old.spare buffer.new.spare needed }
{
    if buffer.capacity() - buffer.len() >= needed {
        return Ok(());
    }
    buffer.reserve(needed.saturating_add(MORE))
}
