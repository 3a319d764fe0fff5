//! How the input stands.
use mvd_dots::Refusal;

/// Whether more bytes may come in.
#[derive(Clone, Copy, Debug)]
pub enum Source {
    /// They may.
    Open,
    /// The input is at its end.
    AtEnd,
    /// No more is read, for this cause.
    Failed(Refusal),
}
