//! Places of indexes, rows of views, and keys with their numbers of siblings, a line each.
ghost use Rattle.std.specs.Prelude.{◌≡◌, ◌++◌, OnOk, IsOkUnless, string_bytes};
ghost use Rattle.mvd_print.specs.Added.{Extends};
ghost use Rattle.mvd_print.specs.Text.{count_text, ends_text, line, list_text, place_text, places_text, row_words};
ghost use Rattle.mvd_print.specs.Text.{spot_words, two_text, view_row_text};

use crate::words::{push_dot, push_number, push_signed, push_term, push_whole, push_word};
use mvd_docs::Term;
use mvd_dots::Refusal;
use mvd_keys::{Key, Place};
use std::alloc::{AllocError, Global};

/// A row of a view as it is told: its term, its count, its sum, and its ends.
pub type ViewRow = (Term, u64, i128, Option<(i64, i64)>);

/// Two numbers, each behind a space.
fn push_two(out: &mut String, least: i64, greatest: i64) -> Result<(), AllocError>
    ensures text { OnOk result (string_bytes out.new ≡ string_bytes out.old ++ two_text least greatest) }
    ensures kept { Extends (string_bytes out.old) (string_bytes out.new) }
{
    push_word(out, " ")?;
    push_whole(out, least)?;
    push_word(out, " ")?;
    push_whole(out, greatest)?;
    Ok(())
}

/// The least and the greatest number, or `- -` where there is none, each behind a space.
fn push_ends(out: &mut String, ends: Option<(i64, i64)>) -> Result<(), AllocError>
    ensures text { OnOk result (string_bytes out.new ≡ string_bytes out.old ++ ends_text ends) }
    ensures kept { Extends (string_bytes out.old) (string_bytes out.new) }
{
    match ends {
        Some((least, greatest)) => push_two(out, least, greatest)?,
        None => push_word(out, " - -")?,
    }
    Ok(())
}

/// The count, the sum, and the least and the greatest number of a row.
pub fn print_row(
    count: u64,
    sum: i128,
    ends: Option<(i64, i64)>,
    out: &mut String,
) -> Result<(), AllocError>
    ensures text { OnOk result (string_bytes out.new ≡ string_bytes out.old ++ line (row_words count sum ends)) }
    ensures kept { Extends (string_bytes out.old) (string_bytes out.new) }
{
    push_number(out, count)?;
    push_word(out, " ")?;
    push_signed(out, sum)?;
    push_ends(out, ends)?;
    push_word(out, "\n")?;
    Ok(())
}

/// A row, behind its term.
fn print_view_row(alloc: Global, row: &ViewRow, out: &mut String) -> Result<(), Refusal>
    ensures text { OnOk result (string_bytes out.new ≡ string_bytes out.old ++ view_row_text row.now) }
    ensures kept { Extends (string_bytes out.old) (string_bytes out.new) }
    ensures memory { IsOkUnless result Refusal.Memory }
{
    push_term(alloc, out, &row.0)?;
    push_word(out, " ")?;
    Ok(print_row(row.1, row.2, row.3, out)?)
}

/// A line for each row, or `none`.
pub fn print_rows(alloc: Global, rows: &[ViewRow], out: &mut String) -> Result<(), Refusal>
    ensures text { OnOk result (string_bytes out.new ≡ string_bytes out.old ++ list_text view_row_text rows.now) }
    ensures kept { Extends (string_bytes out.old) (string_bytes out.new) }
    ensures memory { IsOkUnless result Refusal.Memory }
{
    if rows.is_empty() {
        return Ok(push_word(out, "none\n")?);
    }
    for row in rows {
        print_view_row(alloc, row, out)?;
    }
    Ok(())
}

/// The place's key and dot.
fn print_spot(place: &Place, out: &mut String) -> Result<(), AllocError>
    ensures text { OnOk result (string_bytes out.new ≡ string_bytes out.old ++ line (spot_words place.now)) }
    ensures kept { Extends (string_bytes out.old) (string_bytes out.new) }
{
    push_word(out, place.key.text())?;
    push_word(out, " ")?;
    push_dot(out, place.dot)?;
    push_word(out, "\n")?;
    Ok(())
}

/// The place, behind its term where there may be several terms.
fn print_place(
    alloc: Global,
    has_terms: bool,
    place: &Place,
    out: &mut String,
) -> Result<(), Refusal>
    ensures text { OnOk result (string_bytes out.new ≡ string_bytes out.old ++ place_text has_terms place.now) }
    ensures kept { Extends (string_bytes out.old) (string_bytes out.new) }
    ensures memory { IsOkUnless result Refusal.Memory }
{
    if !has_terms {
        return Ok(print_spot(place, out)?);
    }
    push_term(alloc, out, &place.term)?;
    push_word(out, " ")?;
    Ok(print_spot(place, out)?)
}

/// A line for each place, or `none`.
pub fn print_places(
    alloc: Global,
    has_terms: bool,
    places: &[Place],
    out: &mut String,
) -> Result<(), Refusal>
    ensures text { OnOk result (string_bytes out.new ≡ string_bytes out.old ++ places_text has_terms places.now) }
    ensures kept { Extends (string_bytes out.old) (string_bytes out.new) }
    ensures memory { IsOkUnless result Refusal.Memory }
{
    if places.is_empty() {
        return Ok(push_word(out, "none\n")?);
    }
    for place in places {
        print_place(alloc, has_terms, place, out)?;
    }
    Ok(())
}

/// The key, and how many siblings it has.
fn print_count(count: &(Key, u32), out: &mut String) -> Result<(), AllocError>
    ensures text { OnOk result (string_bytes out.new ≡ string_bytes out.old ++ count_text count.now) }
    ensures kept { Extends (string_bytes out.old) (string_bytes out.new) }
{
    push_word(out, count.0.text())?;
    push_word(out, " ")?;
    push_number(out, u64::from(count.1))?;
    push_word(out, "\n")?;
    Ok(())
}

/// A line for each key, or `none`.
pub fn print_counts(counts: &[(Key, u32)], out: &mut String) -> Result<(), AllocError>
    ensures text { OnOk result (string_bytes out.new ≡ string_bytes out.old ++ list_text count_text counts.now) }
    ensures kept { Extends (string_bytes out.old) (string_bytes out.new) }
{
    if counts.is_empty() {
        return push_word(out, "none\n");
    }
    for count in counts {
        print_count(count, out)?;
    }
    Ok(())
}
