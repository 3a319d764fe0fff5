//! Opening the records: the tables and the marks, in one transaction.
ghost use Rattle.std.specs.Prelude.{◌≡◌, ◌⊎◌, ◌<◌, ◌^◌, map, codes, MatchOption, IfErr};
ghost use Rattle.sqlite.specs.Held.{state};
ghost use Rattle.mvd_records.specs.Jobs.{DoesInside, making_tables, marking, opening, settling, telling};
ghost use Rattle.mvd_records.specs.States.{AreMarks, IsMark, first_two};
ghost use Rattle.mvd_records.specs.Records.{TellsMarks};

use crate::jobs::{Job, execute};
use mvd_dots::Refusal;
use sqlite::types::ValueRef;
use sqlite::{Alter, Row, Transaction, params};

/// Makes the tables that are missing.
fn make_tables<S: Alter>(tx: &mut Transaction<'_, S>) -> Result<(), Refusal>
    ensures same_reference { tx.new.conn.ghost_name ≡ tx.old.conn.ghost_name }
    ensures done { DoesInside making_tables (state S.Store tx.old.conn.now) result
        (state S.Store tx.new.conn.now) }
{
    match execute(
        tx,
        "CREATE TABLE IF NOT EXISTS states (key TEXT PRIMARY KEY NOT NULL, state BLOB NOT NULL) STRICT",
        &[],
    ) {
        Ok(_) => {}
        Err(refusal) => return Err(refusal),
    }
    match execute(
        tx,
        "CREATE TABLE IF NOT EXISTS meta (name TEXT PRIMARY KEY NOT NULL, value INTEGER NOT NULL) STRICT",
        &[],
    ) {
        Ok(_) => {}
        Err(refusal) => return Err(refusal),
    }
    match execute(
        tx,
        "CREATE TABLE IF NOT EXISTS states2 (key TEXT PRIMARY KEY NOT NULL, state BLOB NOT NULL) STRICT",
        &[],
    ) {
        Ok(_) => Ok(()),
        Err(refusal) => Err(refusal),
    }
}

/// The number of the mark of this name, where the row is that mark.
fn mark_in(row: &Row, name: &str) -> Option<u32>
    ensures { MatchOption result ((n : _) → n < 2 ^ 32 → ¬ IsMark name.now row.now n) (λ n. IsMark name.now row.now n) }
{
    let Ok(ValueRef::Text(text)) = row.get_ref(0) else {
        return None;
    };
    let Ok(ValueRef::Int(value)) = row.get_ref(1) else {
        return None;
    };
    if text != name.as_bytes() {
        return None;
    }
    u32::try_from(value).ok()
}

/// The version and the site, where the rows are the two marks in this order.
fn pair_in(first: &Row, second: &Row) -> Option<(u32, u32)>
    ensures { MatchOption result ((v s : _) → v < 2 ^ 32 → s < 2 ^ 32 → ¬ (IsMark (codes "format") first.now v ×
        IsMark (codes "site") second.now s)) (λ p. IsMark (codes "format") first.now p.0 ×
        IsMark (codes "site") second.now p.1) }
{
    match (mark_in(first, "format"), mark_in(second, "site")) {
        (Some(version), Some(site)) => Some((version, site)),
        _ => None,
    }
}

/// The version and the site, where the rows are the two marks.
pub fn marks_in(rows: &[Row]) -> Option<(u32, u32)>
    ensures { MatchOption result ((v s : _) → v < 2 ^ 32 → s < 2 ^ 32 →
        ¬ AreMarks v s (map first_two rows.now)) (λ p. AreMarks p.0 p.1 (map first_two rows.now)) }
{
    if rows.len() != 2 {
        return None;
    }
    let first = &rows[0];
    let second = &rows[1];
    match pair_in(first, second) {
        Some(marks) => Some(marks),
        None => pair_in(second, first),
    }
}

/// The version that the rows of `meta` tell to a site. No rows tell none.
fn version_in(rows: &[Row], site: u32) -> Result<Option<u32>, Refusal>
    ensures told { TellsMarks (map first_two rows.now) site result }
    ensures refusal { IfErr result (λ e. (e ≡ Refusal.SiteMismatch) ⊎ (e ≡ Refusal.Damaged)) }
{
    if rows.is_empty() {
        return Ok(None);
    }
    let Some((version, found)) = marks_in(rows) else {
        return Err(Refusal::Damaged);
    };
    if version < 1 || version > 2 || found < 1 {
        return Err(Refusal::Damaged);
    }
    if found != site {
        return Err(Refusal::SiteMismatch);
    }
    Ok(Some(version))
}

fn read_version<S: Alter>(tx: &mut Transaction<'_, S>, site: u32) -> Result<Option<u32>, Refusal>
    ensures same_reference { tx.new.conn.ghost_name ≡ tx.old.conn.ghost_name }
    ensures done { DoesInside (telling site) (state S.Store tx.old.conn.now) result
        (state S.Store tx.new.conn.now) }
{
    match tx.query_all("SELECT name, value FROM meta", &[]) {
        Ok(rows) => version_in(&rows, site),
        Err(_) => Err(Refusal::Store),
    }
}

fn write_marks<S: Alter>(tx: &mut Transaction<'_, S>, site: u32) -> Result<(), Refusal>
    ensures same_reference { tx.new.conn.ghost_name ≡ tx.old.conn.ghost_name }
    ensures done { DoesInside (marking site) (state S.Store tx.old.conn.now) result
        (state S.Store tx.new.conn.now) }
{
    match execute(
        tx,
        "INSERT INTO meta (name, value) VALUES ('format', 2), ('site', ?1)",
        params![site],
    ) {
        Ok(_) => Ok(()),
        Err(refusal) => Err(refusal),
    }
}

/// The version of this site's records. It writes the marks where there are none.
fn settle<S: Alter>(tx: &mut Transaction<'_, S>, site: u32) -> Result<u32, Refusal>
    ensures same_reference { tx.new.conn.ghost_name ≡ tx.old.conn.ghost_name }
    ensures done { DoesInside (settling site) (state S.Store tx.old.conn.now) result
        (state S.Store tx.new.conn.now) }
{
    match read_version(tx, site) {
        Ok(Some(version)) => Ok(version),
        Ok(None) => match write_marks(tx, site) {
            Ok(()) => Ok(2),
            Err(refusal) => Err(refusal),
        },
        Err(refusal) => Err(refusal),
    }
}

/// Makes what is missing of the records of a site, and tells their version.
#[derive(Drop)]
pub struct Open {
    pub site: u32,
}

impl Job for Open {
    type Out = u32;

    ghost means = { λ job. opening job.site };

    fn run<S: Alter>(&self, tx: &mut Transaction<'_, S>) -> Result<u32, Refusal> {
        match make_tables(tx) {
            Ok(()) => {}
            Err(refusal) => return Err(refusal),
        }
        settle(tx, self.site)
    }
}
