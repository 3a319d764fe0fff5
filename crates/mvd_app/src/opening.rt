//! A site opened from its file, which is made where it is missing; or why it was not.
ghost use Rattle.std.specs.Prelude.{◌≡◌, IfErr, IfOk, IsErrAnd, IsTrue, Ok, false, true};
ghost use Rattle.mvd_app.specs.Found.{is_lost, is_missing};
ghost use Rattle.mvd_dots.specs.declared.refusals.Refusal.TheVariants.{Store as RefusedStore};
ghost use Rattle.mvd_input.specs.declared.fault.Fault.TheVariants.{Stopped};
ghost use Rattle.mvd_app.specs.Refused.{TellsEither, TellsFileFault, TellsForeign, TellsOurs, TellsUnusable};
ghost use Rattle.mvd_app.specs.Stored.{CannotOpen, StopsAtFile, TellsLost};
ghost use Rattle.mvd_records.specs.Foreign.{HoldsForeign};
ghost use Rattle.mvd_records.specs.Records.{OnlyReads};
ghost use Rattle.mvd_replica.specs.FileCalls.{OpensAsSite};
ghost use Rattle.sqlite.specs.Held.{state};
ghost use Rattle.sqlite.specs.WalFiles.{image_at};

use crate::paths::{LEAST_LOG, Paths};
use mvd_dots::Refusal;
use mvd_hint::Stop;
use mvd_records::{is_foreign, owner_in};
use mvd_replica::{FileFault, Replica};
use mvd_site::Config;
use sqlite::{Alter, Connection, ErrorCode, FileFrom, FileStore, Start};
use sqlite_disk::Disk;
use sqlite_trees::store::Store;

/// What the system tells of a file, and of the log beside it. It is `None` where it tells nothing.
#[derive(Clone, Copy)]
struct Told {
    is_there: Option<bool>,
    /// The bytes of the log: none where there is no log.
    log: Option<u64>,
}

impl Told {
    fn of(paths: &Paths<'_>, file: &str) -> Self {
        Told {
            is_there: paths.is_there(file),
            log: paths.log_length(file).ok(),
        }
    }

    /// Whether the file is missing.
    fn is_missing(self) -> bool
        ensures { result ≡ is_missing self.is_there }
    {
        match self.is_there {
            Some(is_there) => !is_there,
            None => false,
        }
    }

    /// Whether the file was lost: it is missing, and its log has pages.
    fn is_lost(self) -> bool
        ensures { result ≡ is_lost self }
    {
        match self.log {
            Some(bytes) => self.is_missing() && bytes >= LEAST_LOG,
            None => false,
        }
    }
}

/// Opens the site that a file holds. A missing file is made, which is told on standard error; but not where its log
/// has pages: then the file was lost, and the log, which stays as it is, is all that there is of what was stored.
pub fn opened<'a, S: Start>(
    paths: &Paths<'_>,
    db: &'a str,
    config: Config,
    start: S,
) -> Result<Replica<FileStore<FileFrom<S>>>, Stop<'a>>
    ensures opened { IfOk result (λ replica. OpensAsSite (image_at S.Start) config (Ok replica)) }
    ensures refused { IfErr result (CannotOpen ⟦<FileStore<FileFrom<S>> as Store>⟧ (image_at S.Start) config db.entry) }
{
    let told = Told::of(paths, db);
    opened_as(paths, db, told, config, start)
}

/// Opens it by what the system tells.
fn opened_as<'a, S: Start>(
    paths: &Paths<'_>,
    db: &'a str,
    told: Told,
    config: Config,
    start: S,
) -> Result<Replica<FileStore<FileFrom<S>>>, Stop<'a>>
    ensures opened { IfOk result (λ replica. OpensAsSite (image_at S.Start) config (Ok replica)) }
    // A file that was lost is refused as lost.
    ensures lost { is_lost told ≡ true → IsErrAnd result (TellsLost db.entry) }
    // No other file is told so: it is opened, or refused for a cause.
    ensures found { is_lost told ≡ false → IfErr result (StopsAtFile ⟦<FileStore<FileFrom<S>> as Store>⟧
        (image_at S.Start) config db.entry) }
    ensures refused { IfErr result (CannotOpen ⟦<FileStore<FileFrom<S>> as Store>⟧ (image_at S.Start) config db.entry) }
{
    if told.is_lost() {
        drop(config);
        drop(start);
        return Err(Stop::in_lost(db));
    }
    let site = config.site();
    match paths.open_site(db, start, config) {
        Ok(replica) => {
            if told.is_missing() {
                paths.tell_new(db, site);
            }
            Ok(replica)
        }
        Err(fault) => Err(unopened(paths, db, told.log, fault)),
    }
}

/// Why a file was not opened as a site. The open makes a log where there is none, and may add to one. It is left as it
/// was, with as many bytes, while the file's lock is still held, so that nobody else has it open.
fn unopened<'a, D: Disk + Drop>(
    paths: &Paths<'_>,
    file: &'a str,
    log: Option<u64>,
    fault: FileFault<D>,
) -> Stop<'a>
    ensures { TellsFileFault ⟦<FileStore<D> as Store>⟧ file.entry fault result }
{
    match fault {
        FileFault::File(error, left) => {
            if left.is_some() {
                let _ = paths.leave_log(file, log);
            }
            drop(left);
            unusable(paths, file, error)
        }
        FileFault::Records(refusal, mut conn) => {
            let stop = refused_in(file, refusal, &mut conn);
            let _ = paths.leave_log(file, log);
            drop(conn);
            stop
        }
    }
}

/// What a command is stopped with where no database could be opened. Want of memory is told as such.
fn unusable<'a>(paths: &Paths<'_>, file: &'a str, error: sqlite::Error) -> Stop<'a>
    ensures { TellsUnusable error result }
{
    match error {
        sqlite::Error::SqliteFailure(ErrorCode::OutOfMemory) => Stop::from(Refusal::Memory),
        sqlite::Error::SqliteFailure(ErrorCode::CannotOpen) => unopenable(paths, file, error),
        error => Stop::in_file(file, error),
    }
}

/// Why a file cannot be opened at all, as far as that can be told: no more can be open, or it has a second name, by
/// which another program might write it.
fn unopenable<'a>(paths: &Paths<'_>, file: &'a str, error: sqlite::Error) -> Stop<'a>
    ensures { result.fault ≡ Stopped RefusedStore }
{
    if paths.are_too_many(file) {
        return Stop::without_descriptors();
    }
    if paths.has_second_name(file).unwrap_or(false) {
        return Stop::in_linked(file);
    }
    Stop::in_file(file, error)
}

/// Why the records of a file are refused: it is another program's, or another site's, or the refusal says it.
pub fn refused_in<'a, S: Alter>(
    file: &'a str,
    refusal: Refusal,
    conn: &mut Connection<S>,
) -> Stop<'a>
    ensures reads { OnlyReads (state S.Store conn.old) (state S.Store conn.new) }
    ensures either { TellsEither file.entry refusal result }
    // Another program's file is told as such, and stays as it is.
    ensures foreign { HoldsForeign (state S.Store conn.old) → TellsForeign file.entry conn.old conn.new result }
    // Of one of ours its marks are read.
    ensures ours { IsTrue (state S.Store conn.old).is_open → ¬ HoldsForeign (state S.Store conn.old) →
        TellsOurs file.entry refusal (state S.Store conn.old) (state S.Store conn.new) result }
{
    if is_foreign(conn) {
        return Stop::in_foreign(file);
    }
    let owner = owner_in(conn);
    Stop::in_records(file, refusal, owner)
}
