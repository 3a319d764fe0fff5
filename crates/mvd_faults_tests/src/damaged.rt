//! Records that are damaged, and files that are.
use super::file_calls::{NEVER, Work, database, files_with, on_these};
use super::replica_calls::push;
use mvd_dots::Refusal;
use std::alloc::Global;
use std::test::Fail;

/// The tables of version 1, and those of version 2.
const OLD: &str = "CREATE TABLE states (key TEXT PRIMARY KEY NOT NULL, state BLOB NOT NULL) STRICT;
CREATE TABLE meta (name TEXT PRIMARY KEY NOT NULL, value INTEGER NOT NULL) STRICT;";

const NEW: &str =
    "CREATE TABLE states2 (key TEXT PRIMARY KEY NOT NULL, state BLOB NOT NULL) STRICT;";

/// The marks of version 1 and of version 2.
const ONE: &str = "INSERT INTO meta VALUES ('format', 1), ('site', 1);";

const TWO: &str = "INSERT INTO meta VALUES ('format', 2), ('site', 1);";

/// Rows of three keys of version 1.
const OLD_ROWS: &str = "INSERT INTO states VALUES
 ('a', x'00010001000000000000000100000000000100010000000000000001000000077b2261223a317d'),
 ('b', x'00010001000000000000000100000000000100010000000000000001000000077b2261223a327d'),
 ('k', x'00010001000000000000000100000000000100010000000000000001000000077b2261223a317d')";

/// The records of site 1 with three keys of version 1.
pub const THREE_OLD: &[&str] = &[OLD, ONE, OLD_ROWS];

/// Rows that are damaged, a line each, behind the version whose marks stand in front of them, or a `-` where none do.
const DAMAGED: &str = "\
- INSERT INTO meta VALUES ('format', 9), ('site', 1)
- INSERT INTO meta VALUES ('format', 0), ('site', 1)
- INSERT INTO meta VALUES ('format', 4294967298), ('site', 1)
2 INSERT INTO meta VALUES ('third', 1)
- INSERT INTO meta VALUES ('format', 2)
- INSERT INTO meta VALUES ('format', 2), ('place', 1)
- INSERT INTO meta VALUES ('format', 2), ('site', 0)
- INSERT INTO meta VALUES ('format', 2), ('site', 4294967296)
- INSERT INTO meta VALUES ('format', 2), ('site', 4294967297)
2 INSERT INTO states2 VALUES \
    ('a b', x'00000001000000010000000000000001000000000001000000010000000000000001000000077b2261223a317d')
2 INSERT INTO states2 VALUES \
    ('', x'00000001000000010000000000000001000000000001000000010000000000000001000000077b2261223a317d')
2 INSERT INTO states2 VALUES ('k', x'')
2 INSERT INTO states2 VALUES ('k', x'00')
2 INSERT INTO states2 VALUES ('k', x'000000000000')
2 INSERT INTO states2 VALUES ('k', x'0000000100000001000000000000000100000000000000')
2 INSERT INTO states2 VALUES \
    ('k', x'00000001000000010000000000000001000000000001000000010000000000000001000000077b2261223a327d00')
2 INSERT INTO states VALUES ('k', x'00010001000000000000000100000000000100010000000000000001000000077b2261223a317d')
1 INSERT INTO states VALUES ('k', x'')
1 INSERT INTO states VALUES ('k', x'00')
1 INSERT INTO states VALUES ('k', x'00000000')
1 INSERT INTO states VALUES ('k', x'00010001000000000000000100000000000100010000000000000001000000077b2261223a317d00')
1 INSERT INTO states VALUES ('k', x'00010001000000000000000100000000000100010000000000000001000000077b2261223a317d'); \
    INSERT INTO states2 VALUES \
        ('k', x'00000001000000010000000000000001000000000001000000010000000000000001000000077b2261223a317d')
";

/// Databases of other programs, a line each, some with a table of one of our names.
const FOREIGN: &str = "\
CREATE TABLE note (id INTEGER PRIMARY KEY, title TEXT NOT NULL); INSERT INTO note (title) VALUES ('a');
CREATE VIEW one AS SELECT 1 AS x;
CREATE TABLE meta (key TEXT, value TEXT); CREATE TABLE urls (url TEXT); INSERT INTO meta VALUES ('version', '9');
CREATE TABLE states (id INTEGER PRIMARY KEY, state TEXT); CREATE TABLE events (id INTEGER PRIMARY KEY);
CREATE TABLE states (code TEXT PRIMARY KEY, name TEXT); INSERT INTO states VALUES ('NY', 'New York');
CREATE TABLE meta (name TEXT, value TEXT);
CREATE TABLE states2 (key TEXT PRIMARY KEY NOT NULL, state TEXT NOT NULL) STRICT;
CREATE TABLE states (code TEXT); CREATE TABLE meta (name TEXT PRIMARY KEY, value INTEGER); CREATE TABLE other (x);
";

/// Databases of ours, a line each, behind the tables of version 1 where it begins with a 1: one of the tables, names in
/// other letters, and tables of ours beside other objects.
const OURS: &str = "\
- CREATE TABLE states (key TEXT PRIMARY KEY NOT NULL, state BLOB NOT NULL) STRICT
- CREATE TABLE Meta (Name TEXT PRIMARY KEY NOT NULL, Value INTEGER NOT NULL) STRICT
- CREATE TABLE states2 (key TEXT NOT NULL PRIMARY KEY, state BLOB NOT NULL) STRICT
1 CREATE TABLE note (id INTEGER PRIMARY KEY, title TEXT); INSERT INTO note (title) VALUES ('a')
1 CREATE VIEW one AS SELECT 1 AS x
1 CREATE INDEX by_state ON states (state)
";

/// A change of a file: in each of its bytes from one on and before another there is this byte; and the file ends
/// after so many bytes.
type Change = (usize, usize, u8, usize);

/// These bytes after a change.
fn changed(alloc: Global, bytes: &[u8], change: Change) -> Vec<u8> {
    let mut copy = Vec::new(alloc);
    for (at, byte) in bytes.iter().enumerate() {
        if at < change.3 {
            let is_in = change.0 <= at && at < change.1;
            push(&mut copy, &[if is_in { change.2 } else { *byte }]);
        }
    }
    copy
}

/// Why the records in a file of these bytes are refused, if they are; and whether they are so again, and the file
/// stays as it is.
fn found_in(alloc: Global, bytes: &[u8]) -> Result<(Option<Refusal>, bool), Refusal> {
    let files = files_with(alloc, bytes, NEVER)?;
    let (once, files) = on_these(alloc, files, (Work::Open, 0));
    let (twice, files) = on_these(alloc, files, (Work::Open, 0));
    let is_same = files.db.inner().bytes() == bytes;
    drop(files);
    Ok((once.refusal, is_same && once.refusal == twice.refusal))
}

/// The same of a file after a change.
fn found_after(
    alloc: Global,
    bytes: &[u8],
    change: Change,
) -> Result<(Option<Refusal>, bool), Refusal> {
    let copy = changed(alloc, bytes, change);
    let found = found_in(alloc, copy.as_slice());
    drop(copy);
    found
}

/// Whether the records after these statements are refused as damaged, twice, and stay. The file's journal is of this
/// mode: 1 is a rollback journal, and 2 a log.
fn are_damaged(alloc: Global, statements: &[&str], mode: u8) -> Result<bool, Refusal> {
    let bytes = database(alloc, Work::Statements(statements))?;
    let found = found_after(alloc, bytes.as_slice(), (18, 20, mode, usize::MAX));
    drop(bytes);
    Ok(found? == (Some(Refusal::Damaged), true))
}

/// The same of rows behind their marks.
fn rows_are_damaged(alloc: Global, line: &str) -> Result<bool, Refusal> {
    let (version, rows) = line.split_once(' ').unwrap_or(("", ""));
    let marks = match version {
        "1" => ONE,
        "2" => TWO,
        _ => "",
    };
    are_damaged(alloc, &[OLD, NEW, marks, rows], 2)
}

/// The same of another program's tables, with a journal of either mode.
fn is_foreign(alloc: Global, tables: &str) -> Result<bool, Refusal> {
    Ok(are_damaged(alloc, &[tables], 1)? && are_damaged(alloc, &[tables], 2)?)
}

/// Whether the records after these statements are opened, and opened again.
fn are_opened(alloc: Global, line: &str) -> Result<bool, Refusal> {
    let (version, more) = line.split_once(' ').unwrap_or(("", ""));
    let (tables, marks) = if version == "1" { (OLD, ONE) } else { ("", "") };
    let bytes = database(alloc, Work::Statements(&[tables, marks, more]))?;
    let files = files_with(alloc, bytes.as_slice(), NEVER)?;
    drop(bytes);
    let (once, files) = on_these(alloc, files, (Work::Open, 0));
    let (twice, files) = on_these(alloc, files, (Work::Open, 0));
    drop(files);
    Ok(once.refusal.is_none() && twice.refusal.is_none())
}

#[test]
fn records_are_opened_or_refused_and_stay(rt: HostRuntime) -> Result<(), Fail> {
    for line in DAMAGED.lines() {
        assert!(rt; rows_are_damaged(rt.alloc(), line)?, "{line}");
    }
    for tables in FOREIGN.lines() {
        assert!(rt; is_foreign(rt.alloc(), tables)?, "{tables}");
    }
    for line in OURS.lines() {
        assert!(rt; are_opened(rt.alloc(), line)?, "{line}");
    }
    Ok(())
}

const PAGE: usize = 4_096;

/// How many changes of a file there are, and how many of them make it refused: of each page, zeros in it, a cut at
/// its beginning, and one a little later; and two files of one value, up to the end of the page and up to some place
/// in it.
fn refused_changes(alloc: Global, bytes: &[u8]) -> Result<(usize, usize), Refusal> {
    let mut tried = 0usize;
    let mut refused = 0usize;
    for page in 0..bytes.len() / PAGE {
        let at = page.saturating_mul(PAGE);
        let end = at.saturating_add(PAGE);
        let middle = at.saturating_add(100);
        let byte = [0, b'S', b'x', 0xFF][page % 4];
        let changes: [Change; 5] = [
            (at, end, 0, usize::MAX),
            // (a file of no byte is a new one)
            (0, 0, 0, at.max(2)),
            (0, 0, 0, at.saturating_add(1_000)),
            (0, end, byte, end),
            (0, middle, byte, middle),
        ];
        for change in changes {
            let (refusal, _) = found_after(alloc, bytes, change)?;
            tried = tried.saturating_add(1);
            refused = refused.saturating_add(usize::from(refusal.is_some()));
        }
    }
    Ok((tried, refused))
}

/// The same of a file of records with ten keys, which is opened as it is.
fn tried(alloc: Global) -> Result<(usize, usize), Refusal> {
    let bytes = database(alloc, Work::Documents(10, 1_000))?;
    let counts = refused_changes(alloc, bytes.as_slice());
    let found = found_in(alloc, bytes.as_slice());
    drop(bytes);
    match found?.0 {
        Some(refusal) => Err(refusal),
        None => counts,
    }
}

#[test]
fn a_file_that_is_cut_or_overwritten_is_refused(rt: HostRuntime) -> Result<(), Fail> {
    let (tried, refused) = tried(rt.alloc())?;
    println!(rt; "{refused} of {tried} changes")?;
    assert!(rt; refused == tried && tried >= 100);
    Ok(())
}
