//! How a connection ended, in words.
use mvd_wire::Ending;
use std::alloc::AllocError;
use std::fmt::Write as Print;

/// Whether a connection ended without a fault.
pub(crate) fn is_good(ending: Ending) -> bool {
    match ending {
        Ending::Bye | Ending::End => true,
        Ending::Stopped(_) => false,
    }
}

/// Tells how a connection ended.
pub(crate) fn tell_end(told: &mut String, ordinal: u64, ending: Ending) -> Result<(), AllocError> {
    writeln!(told, "connection {ordinal} {ending}")?;
    Ok(())
}
