//! Whose records a database holds.
ghost use Rattle.sqlite.specs.Held.{state};
ghost use Rattle.mvd_records.specs.Calls.{TellsOwner};
ghost use Rattle.mvd_records.specs.Causes.{NamesNone};
ghost use Rattle.mvd_records.specs.Records.{OnlyReads};

use crate::open::marks_in;
use crate::statements::is_settled;
use sqlite::{Alter, Connection};

/// The site that the marks of a database name, where they can be read.
pub fn owner_in<S: Alter>(conn: &mut Connection<S>) -> Option<u32>
    ensures reads { OnlyReads (state S.Store conn.old) (state S.Store conn.new) }
    ensures named { TellsOwner (state S.Store conn.old) (state S.Store conn.new) result }
    ensures unnamed { NamesNone (state S.Store conn.old) (state S.Store conn.new) result }
{
    if !is_settled(conn) {
        return None;
    }
    match conn.query_all("SELECT name, value FROM meta", &[]) {
        Ok(rows) => match marks_in(&rows) {
            Some((_version, site)) => Some(site),
            None => None,
        },
        Err(_) => None,
    }
}
