//! How a command ends that worked on a file.
ghost use Rattle.std.specs.Prelude.{None, Some};
ghost use Rattle.mvd_app.specs.Stored.{EndsAs, LeavesSite};
ghost use Rattle.mvd_replica.specs.Replicas.{site_of};

use mvd_dots::Refusal;
use mvd_hint::{Harm, Stop};
use mvd_replica::Replica;
use sqlite::{FileStore, Files};
use sqlite_disk::Disk;

/// What is left of a site that was worked on: its file with its log, closed; the site, where it is not to be closed; or
/// its store, where its file could not be.
#[derive(Drop)]
pub enum Left<F: Drop, R: Drop, S: Drop> {
    Closed(F),
    Open(R),
    Unclosed(S),
}

/// What is left of a site whose file stands on such a disk.
pub type LeftOf<D> = Left<Files<D>, Replica<FileStore<D>>, FileStore<D>>;

/// How a command ended, and what is left of the site that it worked on. Who is given that can only drop it.
#[derive(Drop)]
pub struct Ran<'a, L: Drop> {
    pub(crate) left: Option<L>,
    pub ended: Result<(), Stop<'a>>,
}

/// Closes a stored site that was worked on, also where the work was stopped. A site that the work broke is not closed:
/// what was stored stands in the log. Nor is one whose file came to such harm that a close would only lose more.
pub fn finish<'a, D: Disk + Drop>(
    db: &'a str,
    replica: Replica<FileStore<D>>,
    worked: Result<(), Stop<'a>>,
    harm: Option<Harm>,
) -> (LeftOf<D>, Result<(), Stop<'a>>)
    // It is closed, unless it is broken, its harm bars that, or its file cannot be: then it, or its store, is left.
    ensures left { LeavesSite replica harm result.0 }
    // The command is stopped with the harm that came to its file; else with what the work was stopped with; else with 22
    // where the site is broken, and with 21 where its file cannot be closed.
    ensures ended { EndsAs db.entry harm worked.entry result.0 (site_of replica).broken result.1 }
{
    match harm {
        Some(harm) => {
            let left = left_after(replica, harm);
            (left, Err(Stop::in_harmed(db, harm)))
        }
        None => finish_whole(db, replica, worked),
    }
}

/// The file of a site that came to harm, closed; or the site, where that would lose more, or its store.
fn left_after<D: Disk + Drop>(site: Replica<FileStore<D>>, harm: Harm) -> LeftOf<D>
    ensures { LeavesSite site (Some harm) result }
{
    if harm.bars_closing() {
        return Left::Open(site);
    }
    if site.is_broken() {
        return Left::Open(site);
    }
    match site.close() {
        Ok(files) => Left::Closed(files),
        Err((error, store)) => {
            let _error = error;
            Left::Unclosed(store)
        }
    }
}

/// Closes a site whose file came to no harm.
fn finish_whole<'a, D: Disk + Drop>(
    db: &'a str,
    replica: Replica<FileStore<D>>,
    worked: Result<(), Stop<'a>>,
) -> (LeftOf<D>, Result<(), Stop<'a>>)
    ensures left { LeavesSite replica None result.0 }
    ensures ended { EndsAs db.entry None worked.entry result.0 (site_of replica).broken result.1 }
{
    if replica.is_broken() {
        let ended = worked.and(Err(Stop::from(Refusal::Broken)));
        return (Left::Open(replica), ended);
    }
    match replica.close() {
        Ok(files) => (Left::Closed(files), worked),
        Err((error, store)) => {
            let ended = worked.and(Err(Stop::in_file(db, error)));
            (Left::Unclosed(store), ended)
        }
    }
}
