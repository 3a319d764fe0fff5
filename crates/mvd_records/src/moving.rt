//! Moving keys from the old table to the new one.
ghost use Rattle.std.specs.Prelude.{◌≡◌};
ghost use Rattle.sqlite.specs.Held.{state};
ghost use Rattle.mvd_records.specs.Jobs.{DoesInside, finding_old, finishing, moving, one_statement, raising};

use crate::jobs::{Job, execute};
use crate::storing::put_new;
use mvd_dots::Refusal;
use sqlite::{Alter, Transaction, params};

fn take_old<S: Alter>(tx: &mut Transaction<'_, S>, key: &str) -> Result<(), Refusal>
    ensures same_reference { tx.new.conn.ghost_name ≡ tx.old.conn.ghost_name }
    ensures done { DoesInside (one_statement key.now) (state S.Store tx.old.conn.now) result
        (state S.Store tx.new.conn.now) }
{
    match execute(tx, "DELETE FROM states WHERE key = ?1", params![key]) {
        Ok(0) => Err(Refusal::Damaged),
        Ok(_) => Ok(()),
        Err(refusal) => Err(refusal),
    }
}

/// Moves a key of version 1, with its state spelled anew. 17 where the key is no old one.
#[derive(Drop)]
pub struct Move<'a> {
    pub key: &'a str,
    pub bytes: &'a [u8],
}

impl Job for Move<'_> {
    type Out = ();

    ghost means = { λ job. moving job.key.now job.bytes.now };

    fn run<S: Alter>(&self, tx: &mut Transaction<'_, S>) -> Result<(), Refusal> {
        match take_old(tx, self.key) {
            Ok(()) => {}
            Err(refusal) => return Err(refusal),
        }
        put_new(tx, self.key, self.bytes)
    }
}

/// Whether an old key is left.
fn has_old<S: Alter>(tx: &mut Transaction<'_, S>) -> Result<bool, Refusal>
    ensures same_reference { tx.new.conn.ghost_name ≡ tx.old.conn.ghost_name }
    ensures done { DoesInside finding_old (state S.Store tx.old.conn.now) result (state S.Store tx.new.conn.now) }
{
    match tx.query_all("SELECT key FROM states LIMIT 1", &[]) {
        Ok(rows) => Ok(!rows.is_empty()),
        Err(_) => Err(Refusal::Store),
    }
}

fn set_version<S: Alter>(tx: &mut Transaction<'_, S>) -> Result<(), Refusal>
    ensures same_reference { tx.new.conn.ghost_name ≡ tx.old.conn.ghost_name }
    ensures done { DoesInside raising (state S.Store tx.old.conn.now) result (state S.Store tx.new.conn.now) }
{
    match execute(tx, "UPDATE meta SET value = 2 WHERE name = 'format'", &[]) {
        Ok(_) => Ok(()),
        Err(refusal) => Err(refusal),
    }
}

/// The version becomes 2. 17 where an old key is left.
#[derive(Drop)]
pub struct Finish;

impl Job for Finish {
    type Out = ();

    ghost means = { λ _. finishing };

    fn run<S: Alter>(&self, tx: &mut Transaction<'_, S>) -> Result<(), Refusal> {
        match has_old(tx) {
            Ok(false) => {}
            Ok(true) => return Err(Refusal::Damaged),
            Err(refusal) => return Err(refusal),
        }
        set_version(tx)
    }
}
