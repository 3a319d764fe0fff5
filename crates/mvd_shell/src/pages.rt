//! Lists, asked for page after page.
ghost use Rattle.std.specs.Prelude.{Some};
ghost use Rattle.mvd_dots.specs.Answer.{IsAnswer};
ghost use Rattle.mvd_shell.specs.Asked.{next_asked, next_counts, next_places, next_rows};

use crate::text_requests::{find_of, keys_of, range_of, rows_of};
use mvd_docs::Term;
use mvd_dots::Refusal;
use mvd_input::Ask;
use mvd_keys::{Key, Place};
use mvd_wire::{Reply, Request};
use std::alloc::Global;

/// The request for what comes after the page that a reply is, where more is left.
pub fn next_page(alloc: Global, ask: Ask<'_>, reply: &Reply) -> Result<Option<Request>, Refusal>
    ensures { IsAnswer result (next_asked ask.entry reply.now) }
{
    match reply {
        Reply::Places(places, true) => match places.as_slice().last() {
            Some(place) => after_place(alloc, ask, place),
            None => Ok(None),
        },
        Reply::Rows(rows, true) => match rows.as_slice().last() {
            Some(row) => after_row(alloc, ask, &row.0),
            None => Ok(None),
        },
        Reply::Counts(counts, true) => match counts.as_slice().last() {
            Some(count) => after_key(alloc, ask, &count.0),
            None => Ok(None),
        },
        _ => Ok(None),
    }
}

fn after_place(alloc: Global, ask: Ask<'_>, place: &Place) -> Result<Option<Request>, Refusal>
    ensures { IsAnswer result (next_places ask.entry (Some place.now)) }
{
    match ask {
        Ask::Find { field, term } => {
            let after = (place.key.copy(alloc)?, place.dot);
            Ok(Some(find_of(alloc, field, term, Some(after))?))
        }
        Ask::Range { field, terms } => {
            let after = place.copy(alloc)?;
            Ok(Some(range_of(alloc, field, terms, Some(after))?))
        }
        _ => Ok(None),
    }
}

fn after_row(alloc: Global, ask: Ask<'_>, term: &Term) -> Result<Option<Request>, Refusal>
    ensures { IsAnswer result (next_rows ask.entry (Some term.now)) }
{
    match ask {
        Ask::Rows { view } => {
            let after = term.copy(alloc)?;
            Ok(Some(rows_of(alloc, view, Some(after))?))
        }
        _ => Ok(None),
    }
}

fn after_key(alloc: Global, ask: Ask<'_>, key: &Key) -> Result<Option<Request>, Refusal>
    ensures { IsAnswer result (next_counts ask.entry (Some key.now)) }
{
    match ask {
        Ask::Keys { prefix } => {
            let after = key.copy(alloc)?;
            Ok(Some(keys_of(alloc, prefix, Some(after))?))
        }
        Ask::Conflicts => {
            let after = key.copy(alloc)?;
            Ok(Some(Request::Conflicts(Some(after))))
        }
        _ => Ok(None),
    }
}
