//! Whether a database is another program's.
ghost use Rattle.std.specs.Prelude.{◌≡◌};
ghost use Rattle.sqlite.specs.Held.{state};
ghost use Rattle.mvd_records.specs.Foreign.{FindsForeign, are_columns, has_meta, has_other, has_states, is_column};
ghost use Rattle.mvd_records.specs.Foreign.{is_first, is_map, is_meta, is_ours, is_states};

use sqlite::{Alter, Connection};
use sqlite_schema::names::same_name;
use sqlite_schema::schema::{Column, Kind, Table};

/// Whether a column has this name, and takes values of this kind alone, and no NULL.
fn is_column(column: &Column, name: &[u8], kind: Kind) -> bool
    ensures { result ≡ is_column name.now kind column.now }
{
    same_name(column.name.as_slice(), name)
        && column.kind == kind
        && column.is_strict
        && column.not_null
}

/// Whether these are two columns: a text, and a value of this kind.
fn are_columns(columns: &[Column], text: &[u8], value: &[u8], kind: Kind) -> bool
    ensures { result ≡ are_columns text.now value.now kind columns.now }
{
    let [first, second] = columns else {
        return false;
    };
    is_column(first, text, Kind::Text) && is_column(second, value, kind)
}

/// Whether this is the place of the first column alone.
fn is_first(places: &[usize]) -> bool
    ensures { result ≡ is_first places.now }
{
    let [place] = places else {
        return false;
    };
    *place == 1
}

/// Whether a table has this name and these columns, the first of which is its primary key.
fn is_map(table: &Table, name: &[u8], text: &[u8], value: &[u8], kind: Kind) -> bool
    ensures { result ≡ is_map name.now text.now value.now kind table.now }
{
    same_name(table.name.as_slice(), name)
        && are_columns(table.columns.as_slice(), text, value, kind)
        && is_first(table.primary.as_slice())
}

fn is_states(table: &Table, name: &[u8]) -> bool
    ensures { result ≡ is_states name.now table.now }
{
    is_map(table, name, b"key", b"state", Kind::Blob)
}

fn is_meta(table: &Table) -> bool
    ensures { result ≡ is_meta table.now }
{
    is_map(table, b"meta", b"name", b"value", Kind::Integer)
}

fn is_ours(table: &Table) -> bool
    ensures { result ≡ is_ours table.now }
{
    is_states(table, b"states") || is_meta(table) || is_states(table, b"states2")
}

fn has_states(tables: &[Table]) -> bool
    ensures { result ≡ has_states tables.now }
{
    tables.iter().any(|table| is_states(table, b"states"))
}

fn has_meta(tables: &[Table]) -> bool
    ensures { result ≡ has_meta tables.now }
{
    tables.iter().any(|table| is_meta(table))
}

fn has_other(tables: &[Table]) -> bool
    ensures { result ≡ has_other tables.now }
{
    tables.iter().any(|table| !is_ours(table))
}

/// Whether the connection holds the database of another program. It reads nothing, and writes nothing.
pub fn is_foreign<S: Alter>(conn: &Connection<S>) -> bool
    ensures { FindsForeign (state S.Store conn.now) result }
{
    if !conn.is_autocommit() {
        return false;
    }
    let schema = conn.schema();
    let tables = schema.tables.as_slice();
    if has_states(tables) && has_meta(tables) {
        return false;
    }
    has_other(tables) || !schema.views.is_empty()
}
