//! The lines in which many writes are told.
ghost use Rattle.std.specs.Prelude.{◌≡◌, ◌≤◌, ◌<◌, ◌+◌, ◌++◌, OnOk, OnErr, length, string_bytes, string_len};
ghost use Rattle.std.specs.String.{string_capacity};
ghost use Rattle.mvd_http.specs.Json.{line_text, write_text, written_line};
ghost use Rattle.mvd_http.specs.Room.{FillsRoom};

use crate::json_words::{push_dot, push_word};
use crate::responses::push_refused;
use mvd_dots::{Dot, Refusal};
use mvd_wire::Reply;
use std::alloc::AllocError;

/// The most bytes that a line takes.
pub const LINE_ROOM: usize = 64;

/// Puts the line of one reply to a write behind what `out` holds. Where `out` has room for `LINE_ROOM` bytes more, it
/// gives no error.
pub fn push_line(out: &mut String, reply: &Reply) -> Result<(), AllocError>
    ensures text { OnOk result (string_bytes out.new ≡ string_bytes out.old ++ line_text reply.now) }
    ensures room { FillsRoom result out.old (length (line_text reply.now)) out.new }
    ensures short { length (line_text reply.now) ≤ LINE_ROOM }
{
    push_write(out, reply)?;
    push_word(out, "\n")
}

#[tactic(auto, using(crate::proofs::LineLengths::refused_short))]
fn push_write(out: &mut String, reply: &Reply) -> Result<(), AllocError>
    ensures text { OnOk result (string_bytes out.new ≡ string_bytes out.old ++ write_text reply.now) }
    ensures room { FillsRoom result out.old (length (write_text reply.now)) out.new }
    ensures short { length (write_text reply.now) < LINE_ROOM }
{
    match reply {
        Reply::Written(dot) => push_written(out, *dot),
        Reply::Done => push_word(out, "{}"),
        Reply::Refused(refusal) => push_refused(out, *refusal),
        Reply::State(_)
        | Reply::Places(..)
        | Reply::Row(_)
        | Reply::Rows(..)
        | Reply::Digests(_)
        | Reply::Keys(..)
        | Reply::Counts(..) => push_refused(out, Refusal::BadKind),
    }
}

#[tactic(auto, using(crate::proofs::LineLengths::written_short))]
fn push_written(out: &mut String, dot: Dot) -> Result<(), AllocError>
    ensures text { OnOk result (string_bytes out.new ≡ string_bytes out.old ++ written_line dot) }
    ensures room { FillsRoom result out.old (length (written_line dot)) out.new }
    ensures short { length (written_line dot) < LINE_ROOM }
{
    push_word(out, "{\"dot\":\"")?;
    push_dot(out, dot)?;
    push_word(out, "\"}")
}
