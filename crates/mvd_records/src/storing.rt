//! Setting the states of keys.
ghost use Rattle.std.specs.Prelude.{◌≡◌};
ghost use Rattle.sqlite.specs.Held.{state};
ghost use Rattle.mvd_records.specs.Jobs.{DoesInside, changing, saving, saving_all};
ghost use Rattle.mvd_records.specs.Pairs.{saved_entries};

use crate::jobs::{Job, execute};
use mvd_dots::Refusal;
use sqlite::{Alter, Transaction, params};

/// Changes the state of a key that is there: whether it was.
fn change_state<S: Alter>(
    tx: &mut Transaction<'_, S>,
    key: &str,
    bytes: &[u8],
) -> Result<bool, Refusal>
    ensures same_reference { tx.new.conn.ghost_name ≡ tx.old.conn.ghost_name }
    ensures done { DoesInside (changing key.now bytes.now) (state S.Store tx.old.conn.now) result
        (state S.Store tx.new.conn.now) }
{
    match execute(
        tx,
        "UPDATE states2 SET state = ?2 WHERE key = ?1",
        params![key, bytes],
    ) {
        Ok(count) => Ok(count != 0),
        Err(refusal) => Err(refusal),
    }
}

/// Puts in a key that is not there, with its state.
pub fn put_new<S: Alter>(
    tx: &mut Transaction<'_, S>,
    key: &str,
    bytes: &[u8],
) -> Result<(), Refusal>
    ensures same_reference { tx.new.conn.ghost_name ≡ tx.old.conn.ghost_name }
    ensures done { DoesInside (saving key.now bytes.now) (state S.Store tx.old.conn.now) result
        (state S.Store tx.new.conn.now) }
{
    match execute(
        tx,
        "INSERT INTO states2 (key, state) VALUES (?1, ?2)",
        params![key, bytes],
    ) {
        Ok(_) => Ok(()),
        Err(refusal) => Err(refusal),
    }
}

/// Sets the state of one key inside a transaction. A key that is held is looked for first; any other is put in at once.
fn set_state<S: Alter>(tx: &mut Transaction<'_, S>, save: &Save<'_>) -> Result<(), Refusal>
    ensures same_reference { tx.new.conn.ghost_name ≡ tx.old.conn.ghost_name }
    ensures done { DoesInside (saving save.now.key.now save.now.bytes.now) (state S.Store tx.old.conn.now) result
        (state S.Store tx.new.conn.now) }
{
    if !save.is_held {
        return put_new(tx, save.key, save.bytes);
    }
    match change_state(tx, save.key, save.bytes) {
        Ok(true) => Ok(()),
        Ok(false) => put_new(tx, save.key, save.bytes),
        Err(refusal) => Err(refusal),
    }
}

/// Sets the state of one key.
#[derive(Drop)]
pub struct Save<'a> {
    pub key: &'a str,
    pub bytes: &'a [u8],
    /// The key is in the table, so the save looks for it first; where it is not there after all, it is put in. Without
    /// this it is put in at once. The table has each key once: so, where it is there after all, the save is refused
    /// with 21, and with it all that are saved together. Nothing is lost, and nothing is stored.
    pub is_held: bool,
}

impl Job for Save<'_> {
    type Out = ();

    ghost means = { λ job. saving job.key.now job.bytes.now };

    fn run<S: Alter>(&self, tx: &mut Transaction<'_, S>) -> Result<(), Refusal> {
        set_state(tx, self)
    }
}

/// Sets the states of these keys, one after the other.
#[derive(Drop)]
pub struct SaveAll<'a> {
    pub saves: &'a [Save<'a>],
}

impl Job for SaveAll<'_> {
    type Out = ();

    ghost means = { λ job. saving_all (saved_entries job.saves.now) };

    fn run<S: Alter>(&self, tx: &mut Transaction<'_, S>) -> Result<(), Refusal> {
        for save in self.saves {
            match set_state(tx, save) {
                Ok(()) => {}
                Err(refusal) => return Err(refusal),
            }
        }
        Ok(())
    }
}
