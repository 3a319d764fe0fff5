//! Two maps from key to bytes, and a version, in the tables of a database.
ghost use Rattle.std.specs.Prelude.{◌≡◌, ◌≤◌};
ghost use Rattle.sqlite.specs.Held.{state};
ghost use Rattle.sqlite.specs.State.{IsLive};
ghost use Rattle.mvd_records.specs.Pairs.{saved_entries};

use crate::jobs::in_transaction;
use crate::loading::StateTable;
use crate::moving::{Finish, Move};
use crate::open::Open;
use crate::storing::{Save, SaveAll};
use crate::{foreign, loading, statements};
use mvd_dots::Refusal;
use mvd_keys::Key;
use sqlite::{Alter, Connection};
use std::alloc::Global;
use std::marker::Model;

/// The records of a site, in the tables of a database. Each call has one relation (`specs/Calls`).
#[derive(Drop)]
pub struct Records<S: Alter> {
    alloc: Global,
    version: u32,
    conn: Connection<S>,
}

impl<S: Alter> Model for Records<S> {
    ghost use Rattle.mvd_records.specs.Seen.{RecordsValue, records_code};

    ghost Value = { RecordsValue S };

    ghost coded = { records_code S.code };

    ghost view = { λ r. record { version = r.version; conn = r.conn } };
}

impl<S: Alter> Records<S> {
    ghost use Rattle.mvd_records.specs.Calls.{Finishes, Loads, MovesOldKey, Opens, Saves, SavesAll};
    ghost use Rattle.mvd_records.specs.Seen.{seen};
    ghost use Rattle.mvd_records.specs.declared.loading.StateTable.TheVariants.{Version1, Version2};

    /// Opens the records of a site, and makes in one transaction what is missing. A refusal gives
    /// the connection back: 21, or 17 where the marks are none of ours, or 16 where they are
    /// another site's. Another program's database is refused with 17 before anything is written,
    /// and the connection is as it was.
    pub fn open(
        alloc: Global,
        mut conn: Connection<S>,
        site: u32,
    ) -> Result<Records<S>, (Refusal, Connection<S>)>
        requires { 1 ≤ site }
        ensures { Opens S.Store conn site result }
    {
        if foreign::is_foreign(&conn) {
            return Err((Refusal::Damaged, conn));
        }
        match in_transaction(&mut conn, &Open { site }) {
            Ok(version) => Ok(Records {
                alloc,
                version,
                conn,
            }),
            Err(refusal) => Err((refusal, conn)),
        }
    }

    /// The version of the format: 1 until the old keys are moved, and then 2.
    pub fn version(&self) -> u32
        ensures value { result ≡ self.now.version }
        ensures live { IsLive (state S.Store self.now.conn) }
    {
        // Here it is known that the database obeys its schema.
        let _schema = self.conn.schema();
        self.version
    }

    /// Sets the state of one key.
    pub fn save(&mut self, save: &Save<'_>) -> Result<(), Refusal>
        requires { self.old.version ≡ 2 }
        ensures { Saves (seen S.Store self.old) save.now.key.now save.now.bytes.now result (seen S.Store self.new) }
    {
        in_transaction(&mut self.conn, save)
    }

    /// Sets the states of these keys in one transaction, one after the other: all of them, or none.
    pub fn save_all(&mut self, saves: &[Save<'_>]) -> Result<(), Refusal>
        requires { self.old.version ≡ 2 }
        ensures { SavesAll (seen S.Store self.old) (saved_entries saves.now) result (seen S.Store self.new) }
    {
        in_transaction(&mut self.conn, &SaveAll { saves })
    }

    /// The map of version 2, by rising key. 17 where a key is out of form or in both maps, or an
    /// old key is left in version 2.
    pub fn load_all(&mut self) -> Result<Vec<(Key, Vec<u8>)>, Refusal>
        ensures { Loads Version2 (seen S.Store self.old) result (seen S.Store self.new) }
    {
        self.load(StateTable::Version2)
    }

    /// The map of version 1, whose keys are not moved yet, by rising key. 17 where a key is out of
    /// form or in both maps, or an old key is left in version 2.
    pub fn load_old(&mut self) -> Result<Vec<(Key, Vec<u8>)>, Refusal>
        ensures { Loads Version1 (seen S.Store self.old) result (seen S.Store self.new) }
    {
        self.load(StateTable::Version1)
    }

    fn load(&mut self, table: StateTable) -> Result<Vec<(Key, Vec<u8>)>, Refusal>
        ensures { Loads table (seen S.Store self.old) result (seen S.Store self.new) }
    {
        if !statements::is_open(&mut self.conn) {
            return Err(Refusal::Store);
        }
        loading::load(self.alloc, &mut self.conn, self.version, table)
    }

    /// Moves a key of version 1, whose state is spelled anew, in one transaction. 17 where the key is no old one.
    pub fn move_key(&mut self, key: &Key, bytes: &[u8]) -> Result<(), Refusal>
        ensures { MovesOldKey (seen S.Store self.old) key.now bytes.now result (seen S.Store self.new) }
    {
        let key = key.text();
        in_transaction(&mut self.conn, &Move { key, bytes })
    }

    /// Ends the move: the version becomes 2. 17 where an old key is left.
    pub fn finish(&mut self) -> Result<(), Refusal>
        ensures { Finishes (seen S.Store self.old) result (seen S.Store self.new) }
    {
        match in_transaction(&mut self.conn, &Finish) {
            Ok(()) => {
                self.version = 2;
                Ok(())
            }
            Err(refusal) => Err(refusal),
        }
    }

    /// The connection that the records stand in.
    pub fn into_connection(self) -> Connection<S>
        ensures { result ≡ self.conn }
    {
        let Records {
            alloc: _,
            version: _,
            conn,
        } = self;
        conn
    }
}
