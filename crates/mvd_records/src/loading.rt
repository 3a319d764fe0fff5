//! The rows of the tables of states, read one at a time.
ghost use Rattle.std.specs.Prelude.{◌≡◌, ◌⊎◌, [], IsTrue, true, false, map, IfOk, IfErr, OnOk, OnErr};
ghost use Rattle.std.specs.List.{AllByRecursion};
ghost use Rattle.std.specs.FinMap.{entries};
ghost use Rattle.sqlite.specs.Held.{state};
ghost use Rattle.sqlite.specs.State.{HasCleanDisk, KeepsCommit, Survives, Shown, Begins, CommitsShowing};
ghost use Rattle.sqlite.specs.Given.{IsPlain};
ghost use Rattle.sqlite.specs.Listing.{understood};
ghost use Rattle.mvd_keys.specs.Key.{is_key};
ghost use Rattle.mvd_records.specs.States.{shown_row_entry};
ghost use Rattle.mvd_records.specs.Records.{IsQuiescent, IsSound, HoldsRecords, OnlyReads, AreKeys, IsWhole};
ghost use Rattle.mvd_records.specs.Records.{old_states, new_states, states_at};
ghost use Rattle.mvd_records.specs.Pairs.{pair_entries, ArePairs, pairs_rise};

use crate::pairs::push_row;
use crate::statements::{check, is_settled};
use mvd_dots::Refusal;
use mvd_keys::Key;
use sqlite::{Alter, Connection};
use std::alloc::Global;

/// The two tables of states, each by the version of the format that it came with.
#[derive(Clone, Copy)]
pub enum StateTable {
    /// `states`: the map of version 1, whose keys are not moved yet.
    Version1,
    /// `states2`: the map of version 2.
    Version2,
}

/// The keys and states that a query shows.
fn read_pairs<S: Alter>(
    alloc: Global,
    conn: &mut Connection<S>,
    sql: &str,
) -> Result<Vec<(Key, Vec<u8>)>, Refusal>
    ensures before { IsSound (state S.Store conn.new) → IsSound (state S.Store conn.old) }
    ensures open { HasCleanDisk (state S.Store conn.new) → OnOk result (IsTrue (state S.Store conn.new).is_open) }
    ensures shown { HasCleanDisk (state S.Store conn.new) →
        IsPlain (understood (state S.Store conn.old).now.schema sql.now) → IfOk result (λ pairs. (rows : _) ×
        Shown sql.now [] (state S.Store conn.old) (state S.Store conn.new) rows ×
        (pair_entries pairs.items ≡ map shown_row_entry rows)) }
    ensures form { IfOk result (λ pairs. AllByRecursion (λ e. is_key e.0 ≡ true) (pair_entries pairs.items)) }
    ensures rising { IfOk result (λ pairs. pairs_rise (pair_entries pairs.items)) }
    ensures damaged { HasCleanDisk (state S.Store conn.new) →
        IsPlain (understood (state S.Store conn.old).now.schema sql.now) → IfErr result (λ e. e ≡ Refusal.Damaged →
        (rows : _) × Begins sql.now [] (state S.Store conn.old) rows × ¬ ArePairs rows) }
    ensures kept { HasCleanDisk (state S.Store conn.new) →
        IsPlain (understood (state S.Store conn.old).now.schema sql.now) →
        KeepsCommit (state S.Store conn.old) (state S.Store conn.new) }
    ensures refusal { IfErr result (λ e. (e ≡ Refusal.Damaged) ⊎ ((e ≡ Refusal.Memory) ⊎ (e ≡ Refusal.Store))) }
    ensures survives { Survives (state S.Store conn.old) (state S.Store conn.new) (CommitsShowing sql.now []
        (state S.Store conn.old)) }
{
    let mut pairs = Vec::new(alloc);
    let mut rows = match conn.query(sql, &[]) {
        Ok(rows) => rows,
        Err(_) => return Err(Refusal::Store),
    };
    'rows: for _ in 0..u64::MAX {
        match rows.advance() {
            Ok(()) => {}
            Err(_) => return Err(Refusal::Store),
        }
        let row = match rows.get() {
            Some(row) => row,
            None => return Ok(pairs),
        };
        match push_row(alloc, &mut pairs, row) {
            Ok(()) => {}
            Err(refusal) => return Err(refusal),
        }
    }
    Err(Refusal::Memory)
}

fn read_table<S: Alter>(
    alloc: Global,
    conn: &mut Connection<S>,
    table: StateTable,
) -> Result<Vec<(Key, Vec<u8>)>, Refusal>
    ensures reads { OnlyReads (state S.Store conn.old) (state S.Store conn.new) }
    ensures entries { (version site : _) → IsSound (state S.Store conn.new) →
        HoldsRecords version site (state S.Store conn.old).committed →
        IfOk result (λ pairs. pair_entries pairs.items ≡ entries (states_at table (state S.Store conn.old).committed)) }
    ensures keys { (version site : _) → IsSound (state S.Store conn.new) →
        HoldsRecords version site (state S.Store conn.old).committed →
        OnOk result (AreKeys (states_at table (state S.Store conn.old).committed)) }
    ensures open { HasCleanDisk (state S.Store conn.new) → OnOk result (IsTrue (state S.Store conn.new).is_open) }
    ensures rising { IfOk result (λ pairs. pairs_rise (pair_entries pairs.items)) }
    ensures damaged { (version site : _) → IsSound (state S.Store conn.new) →
        HoldsRecords version site (state S.Store conn.old).committed → IfErr result (λ e. e ≡ Refusal.Damaged →
        ¬ AreKeys (states_at table (state S.Store conn.old).committed)) }
    ensures refusal { IfErr result (λ e. (e ≡ Refusal.Damaged) ⊎ ((e ≡ Refusal.Memory) ⊎ (e ≡ Refusal.Store))) }
{
    if !is_settled(conn) {
        return Err(Refusal::Store);
    }
    let sql = match table {
        StateTable::Version1 => "SELECT key, state FROM states ORDER BY key",
        StateTable::Version2 => "SELECT key, state FROM states2 ORDER BY key",
    };
    read_pairs(alloc, conn, sql)
}

/// The map in one of the two tables, by rising key.
pub fn load<S: Alter>(
    alloc: Global,
    conn: &mut Connection<S>,
    version: u32,
    table: StateTable,
) -> Result<Vec<(Key, Vec<u8>)>, Refusal>
    ensures reads { OnlyReads (state S.Store conn.old) (state S.Store conn.new) }
    ensures entries { (marked site : _) → IsSound (state S.Store conn.new) →
        HoldsRecords marked site (state S.Store conn.old).committed →
        IfOk result (λ pairs. pair_entries pairs.items ≡ entries (states_at table (state S.Store conn.old).committed)) }
    ensures open { HasCleanDisk (state S.Store conn.new) → OnOk result (IsTrue (state S.Store conn.new).is_open) }
    ensures rising { IfOk result (λ pairs. pairs_rise (pair_entries pairs.items)) }
    ensures whole { (marked site : _) → IsSound (state S.Store conn.new) →
        HoldsRecords marked site (state S.Store conn.old).committed →
        OnOk result (IsWhole version (states_at table (state S.Store conn.old).committed) (old_states
        (state S.Store conn.old).committed) (new_states (state S.Store conn.old).committed)) }
    ensures damaged { (marked site : _) → IsSound (state S.Store conn.new) →
        HoldsRecords marked site (state S.Store conn.old).committed → IfErr result (λ e. e ≡ Refusal.Damaged →
        ¬ IsWhole version (states_at table (state S.Store conn.old).committed) (old_states
        (state S.Store conn.old).committed) (new_states (state S.Store conn.old).committed)) }
    ensures refusal { IfErr result (λ e. (e ≡ Refusal.Damaged) ⊎ ((e ≡ Refusal.Memory) ⊎ (e ≡ Refusal.Store))) }
{
    match check(conn, version) {
        Ok(()) => {}
        Err(refusal) => return Err(refusal),
    }
    read_table(alloc, conn, table)
}
