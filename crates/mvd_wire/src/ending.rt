//! How a connection ends.
use mvd_dots::Refusal;
use std::fmt;

/// Why no further frame, or request, of a connection is taken. As text: `bye`, `end`, or the number and name of the
/// refusal.
#[derive(Clone, Copy, Debug)]
pub enum Ending {
    /// It was said.
    Bye,
    /// The input ended after a frame.
    End,
    /// A refusal, which is told in one frame more, but for 35.
    Stopped(Refusal),
}

impl fmt::Display for Ending {
    fn fmt<W: fmt::Write>(&self, f: &mut fmt::Formatter<W>) -> fmt::Result {
        match self {
            Ending::Bye => f.write_str("bye"),
            Ending::End => f.write_str("end"),
            Ending::Stopped(refusal) => write!(f, "{refusal}"),
        }
    }
}
