//! Jobs that are done in one transaction: all of one, or nothing.
ghost use Rattle.std.specs.Prelude.{◌≡◌, IfErr, IfOk, IsTrue};
ghost use Rattle.sqlite.specs.Held.{state};
ghost use Rattle.sqlite.specs.State.{HasCleanDisk};
ghost use Rattle.sqlite.specs.Values.{bound};
ghost use Rattle.mvd_records.specs.Jobs.{DoesInside, DoesWhole, Meaning, RanStatement};
ghost use Rattle.mvd_records.specs.Records.{StaysInside};

use crate::statements::{is_open, is_settled};
use mvd_dots::Refusal;
use sqlite::types::ValueRef;
use sqlite::{Alter, Connection, Transaction};

/// What is done in one transaction.
pub trait Job {
    /// What is told once it is done.
    type Out: Drop;

    /// What it makes of a database, and of which it is refused.
    ghost means: { Self → Meaning Self.Out };

    /// Does it inside a transaction.
    fn run<S: Alter>(&self, tx: &mut Transaction<'_, S>) -> Result<Self::Out, Refusal>
        ensures same_reference { tx.new.conn.ghost_name ≡ tx.old.conn.ghost_name }
        ensures done { DoesInside (means self.now) (state S.Store tx.old.conn.now) result
            (state S.Store tx.new.conn.now) };
}

/// Does the job in a transaction of its own. A refusal rolls it back.
pub fn in_transaction<S: Alter, J: Job>(
    conn: &mut Connection<S>,
    job: &J,
) -> Result<J::Out, Refusal>
    ensures { DoesWhole (J.means job.now) (state S.Store conn.old) result (state S.Store conn.new) }
{
    if !is_open(conn) {
        return Err(Refusal::Store);
    }
    if !is_settled(conn) {
        return Err(Refusal::Store);
    }
    let mut tx = conn.transaction();
    let out = match job.run(&mut tx) {
        Ok(out) => out,
        Err(refusal) => return Err(refusal),
    };
    match tx.commit() {
        Ok(()) => Ok(out),
        Err(_) => Err(Refusal::Store),
    }
}

/// Runs a statement inside a transaction.
pub fn execute<S: Alter>(
    tx: &mut Transaction<'_, S>,
    sql: &str,
    params: &[ValueRef<'_>],
) -> Result<usize, Refusal>
    ensures same_reference { tx.new.conn.ghost_name ≡ tx.old.conn.ghost_name }
    ensures stays { StaysInside (state S.Store tx.old.conn.now) (state S.Store tx.new.conn.now) }
    ensures ran { HasCleanDisk (state S.Store tx.new.conn.now) →
        IsTrue (state S.Store tx.old.conn.now).in_transaction →
        IfOk result (λ count. RanStatement sql.now (bound params.now) (state S.Store tx.old.conn.now) count
        (state S.Store tx.new.conn.now)) }
    ensures refusal { IfErr result (λ e. e ≡ Refusal.Store) }
{
    match tx.execute(sql, params) {
        Ok(count) => Ok(count),
        Err(_) => Err(Refusal::Store),
    }
}
