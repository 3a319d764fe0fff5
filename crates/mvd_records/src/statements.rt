ghost use Rattle.std.specs.Prelude.{◌≡◌, ◌≢◌, ◌⊎◌, [], IsTrue, IfErr, IfOk, MatchBool, OnOk, OnErr, not};
ghost use Rattle.sqlite.specs.Held.{state};
ghost use Rattle.sqlite.specs.State.{HasCleanDisk, IsUnchanged, KeepsCommit, Shown, Survives, CommitsShowing};
ghost use Rattle.sqlite.specs.Given.{IsPlain};
ghost use Rattle.sqlite.specs.Listing.{understood};
ghost use Rattle.mvd_records.specs.Causes.{FindsShut};
ghost use Rattle.mvd_records.specs.Records.{IsQuiescent, IsSound, HoldsRecords};
ghost use Rattle.mvd_records.specs.Records.{OnlyReads, HasNone, AreDisjoint, ShareNoKey, old_states};
ghost use Rattle.mvd_records.specs.Records.{new_states};

use mvd_dots::Refusal;
use sqlite::{Alter, Connection};

/// No transaction is under way, so what the connection sees is what was committed.
pub fn is_settled<S: Alter>(conn: &Connection<S>) -> bool
    ensures exact { result ≡ not (state S.Store conn.now).in_transaction }
    ensures settled { IsTrue result → IsQuiescent (state S.Store conn.now) }
{
    let _schema = conn.schema();
    conn.is_autocommit()
}

/// Whether the store is open. It compiles an empty statement: only an open store does, and it commits nothing.
pub fn is_open<S: Alter>(conn: &mut Connection<S>) -> bool
    ensures open { HasCleanDisk (state S.Store conn.new) → IsTrue result →
        IsUnchanged (state S.Store conn.old) (state S.Store conn.new) }
    ensures shut { FindsShut (state S.Store conn.old) (state S.Store conn.new) result }
    ensures kept { HasCleanDisk (state S.Store conn.new) →
        KeepsCommit (state S.Store conn.old) (state S.Store conn.new) }
    ensures survives { Survives (state S.Store conn.old) (state S.Store conn.new) (λ _. ⊥) }
{
    conn.prepare("").is_ok()
}

/// Whether a query shows a row.
fn shows_any<S: Alter>(conn: &mut Connection<S>, sql: &str) -> Result<bool, Refusal>
    ensures before { IsSound (state S.Store conn.new) → IsSound (state S.Store conn.old) }
    ensures open { HasCleanDisk (state S.Store conn.new) → OnOk result (IsTrue (state S.Store conn.new).is_open) }
    ensures shown { HasCleanDisk (state S.Store conn.new) → IfOk result (λ any. (rows : _) ×
        Shown sql.now [] (state S.Store conn.old) (state S.Store conn.new) rows ×
        MatchBool any (rows ≢ []) (rows ≡ [])) }
    ensures kept { HasCleanDisk (state S.Store conn.new) →
        IsPlain (understood (state S.Store conn.old).now.schema sql.now) →
        KeepsCommit (state S.Store conn.old) (state S.Store conn.new) }
    ensures refusal { IfErr result (λ e. e ≡ Refusal.Store) }
    ensures survives { Survives (state S.Store conn.old) (state S.Store conn.new) (CommitsShowing sql.now []
        (state S.Store conn.old)) }
{
    match conn.query_all(sql, &[]) {
        Ok(rows) => Ok(!rows.is_empty()),
        Err(_) => Err(Refusal::Store),
    }
}

/// Whether an old key is left.
fn has_old<S: Alter>(conn: &mut Connection<S>) -> Result<bool, Refusal>
    ensures reads { OnlyReads (state S.Store conn.old) (state S.Store conn.new) }
    ensures open { HasCleanDisk (state S.Store conn.new) → OnOk result (IsTrue (state S.Store conn.new).is_open) }
    ensures any { (version site : _) → IsSound (state S.Store conn.new) →
        HoldsRecords version site (state S.Store conn.old).committed →
        IfOk result (λ any. MatchBool any (¬ HasNone (old_states (state S.Store conn.old).committed)) (HasNone
        (old_states (state S.Store conn.old).committed))) }
    ensures refusal { IfErr result (λ e. e ≡ Refusal.Store) }
{
    if !is_settled(conn) {
        return Err(Refusal::Store);
    }
    shows_any(conn, "SELECT key FROM states LIMIT 1")
}

/// Whether a key is in both maps.
fn has_both<S: Alter>(conn: &mut Connection<S>) -> Result<bool, Refusal>
    ensures reads { OnlyReads (state S.Store conn.old) (state S.Store conn.new) }
    ensures open { HasCleanDisk (state S.Store conn.new) → OnOk result (IsTrue (state S.Store conn.new).is_open) }
    ensures any { (version site : _) → IsSound (state S.Store conn.new) →
        HoldsRecords version site (state S.Store conn.old).committed →
        IfOk result (λ any. MatchBool any (¬ AreDisjoint (old_states (state S.Store conn.old).committed) (new_states
        (state S.Store conn.old).committed)) (AreDisjoint (old_states (state S.Store conn.old).committed) (new_states
        (state S.Store conn.old).committed))) }
    ensures refusal { IfErr result (λ e. e ≡ Refusal.Store) }
{
    if !is_settled(conn) {
        return Err(Refusal::Store);
    }
    shows_any(
        conn,
        "SELECT states.key FROM states, states2 WHERE states.key = states2.key LIMIT 1",
    )
}

/// Refuses a key in both maps, and in version 2 an old key.
pub fn check<S: Alter>(conn: &mut Connection<S>, version: u32) -> Result<(), Refusal>
    ensures reads { OnlyReads (state S.Store conn.old) (state S.Store conn.new) }
    ensures open { HasCleanDisk (state S.Store conn.new) → OnOk result (IsTrue (state S.Store conn.new).is_open) }
    ensures apart { (marked site : _) → IsSound (state S.Store conn.new) →
        HoldsRecords marked site (state S.Store conn.old).committed →
        OnOk result (ShareNoKey version (old_states (state S.Store conn.old).committed) (new_states
        (state S.Store conn.old).committed)) }
    ensures damaged { (marked site : _) → IsSound (state S.Store conn.new) →
        HoldsRecords marked site (state S.Store conn.old).committed → IfErr result (λ e. e ≡ Refusal.Damaged →
        ¬ ShareNoKey version (old_states (state S.Store conn.old).committed) (new_states
        (state S.Store conn.old).committed)) }
    ensures refusal { IfErr result (λ e. (e ≡ Refusal.Damaged) ⊎ (e ≡ Refusal.Store)) }
{
    if version == 2 {
        match has_old(conn) {
            Ok(false) => Ok(()),
            Ok(true) => Err(Refusal::Damaged),
            Err(refusal) => Err(refusal),
        }
    } else {
        match has_both(conn) {
            Ok(false) => Ok(()),
            Ok(true) => Err(Refusal::Damaged),
            Err(refusal) => Err(refusal),
        }
    }
}
