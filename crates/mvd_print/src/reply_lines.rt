//! Replies.
ghost use Rattle.std.specs.Prelude.{string_bytes};
ghost use Rattle.mvd_print.specs.Added.{Prints};
ghost use Rattle.mvd_print.specs.Text.{reply_text, short_text};

use crate::lines::{print_done, print_written};
use crate::row_lines::{print_counts, print_places, print_row, print_rows};
use crate::state_lines::{print_digest, print_state};
use mvd_dots::Refusal;
use mvd_wire::Reply;
use std::alloc::Global;

/// Prints a reply, its places with their terms or without. A refusal is not printed but given back, and so is
/// `BadKind` for a page of a bucket, which has no text.
pub fn print_reply(
    alloc: Global,
    has_terms: bool,
    reply: &Reply,
    out: &mut String,
) -> Result<(), Refusal>
    ensures { Prints (reply_text has_terms reply.now) (string_bytes out.old) (string_bytes out.new) result }
{
    match reply {
        Reply::State(state) => print_state(state, out),
        Reply::Written(dot) => Ok(print_written(*dot, out)?),
        Reply::Done => Ok(print_done(out)?),
        Reply::Places(places, _) => print_places(alloc, has_terms, places.as_slice(), out),
        Reply::Row(row) => Ok(print_row(row.count, row.sum, row.ends, out)?),
        Reply::Rows(rows, _) => print_rows(alloc, rows.as_slice(), out),
        Reply::Digests(digests) => Ok(print_digest(alloc, digests.own, out)?),
        Reply::Counts(counts, _) => Ok(print_counts(counts.as_slice(), out)?),
        Reply::Keys(..) => Err(Refusal::BadKind),
        Reply::Refused(refusal) => Err(*refusal),
    }
}

/// Prints a reply that tells no more than that something was done, or its dot. A refusal is not printed but given
/// back, and so is `BadKind` for any other reply. It takes no memory but that of the text.
pub fn print_short(reply: &Reply, out: &mut String) -> Result<(), Refusal>
    ensures { Prints (short_text reply.now) (string_bytes out.old) (string_bytes out.new) result }
{
    match reply {
        Reply::Written(dot) => Ok(print_written(*dot, out)?),
        Reply::Done => Ok(print_done(out)?),
        Reply::Refused(refusal) => Err(*refusal),
        _ => Err(Refusal::BadKind),
    }
}
