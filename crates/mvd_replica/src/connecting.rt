//! The connection to the files at a path. It is the kit's `Connection::open_from`, but for the length of the log.
ghost use Rattle.std.specs.Prelude.{codes, ◌≡◌, ◌⊎◌, true, false, None, IsTrue, IfErr, IfOk, IfSome, IsErrAnd};
ghost use Rattle.sqlite.specs.Files.{FailsToOpenFiles, IsCleanLeft, IsOpened, LeavesFiles, file_state};
ghost use Rattle.sqlite.specs.Held.{IsNew};
ghost use Rattle.sqlite.specs.Opening.{is_open_error};
ghost use Rattle.sqlite.specs.Start.{FindsIn};
ghost use Rattle.sqlite.specs.State.{HasCleanDisk};
ghost use Rattle.sqlite.specs.WalFiles.{image_at};
ghost use Rattle.sqlite_std_file.specs.File.{IsFresh, file_is_usable};
ghost use Rattle.mvd_replica.specs.Refused.{HasNoFiles};

use sqlite::{Connection, Error, ErrorCode, FileFrom, FileStore, Files, Leftover, Options, Start};
use sqlite_std_file::OpenError;
use std::hash::{BuildHasher, RandomState};
use std::io::ErrorKind;

/// How many pages the log has before they are copied into the database file: eight times as many as the kit has. So a
/// page that changes again and again is copied once for eight times as many changes. They are 33 megabytes.
const LOG_PAGES: usize = 8_000;

const CANNOT_OPEN: Error = Error::SqliteFailure(ErrorCode::CannotOpen);

const NO_MEMORY: Error = Error::SqliteFailure(ErrorCode::OutOfMemory);

/// The file at a path and its log. `:memory:` and a URI name no file.
fn files_at<S: Start>(rt: &HostRuntime, path: &str, start: S) -> Result<Files<FileFrom<S>>, Error>
    ensures memory { path.now ≡ codes ":memory:" → result ≡ Err (Error.SqliteFailure ErrorCode.CannotOpen) }
    ensures named { IfErr result (λ e. IsTrue (is_open_error e)) }
    ensures usable { IfOk result (λ files.
        IsTrue (file_is_usable S.Start files.log) × IsTrue (file_is_usable S.Start files.db)) }
    ensures fresh { IfOk result (λ files. IsFresh true files.log × IsFresh false files.db) }
    ensures kind { IfErr result HasNoFiles }
{
    if path == ":memory:" || path.starts_with("file:") {
        return Err(CANNOT_OPEN);
    }
    match sqlite_std_file::open(rt, path, start) {
        Ok(files) => Ok(files),
        Err(OpenError::OutOfMemory) => Err(NO_MEMORY),
        Err(OpenError::Busy) => Err(Error::SqliteFailure(ErrorCode::DatabaseBusy)),
        Err(OpenError::Io(error)) if error.kind() == ErrorKind::OutOfMemory => Err(NO_MEMORY),
        Err(_) => Err(CANNOT_OPEN),
    }
}

/// The kit's options, with a longer log, and no more pages in memory.
fn options(rt: &HostRuntime) -> Result<Options, Error>
    ensures log { IfOk result (λ options. options.checkpoint_frames ≡ 8000) }
    ensures pages { IfOk result (λ options. (options.cache_pages ≡ 2000) × (options.spill_pages ≡ 2000)) }
    ensures kind { IfErr result (λ e. e ≡ Error.SqliteFailure ErrorCode.CannotOpen) }
{
    let state = match RandomState::new(rt) {
        Ok(state) => state,
        Err(_) => return Err(CANNOT_OPEN),
    };
    let mut options = Options::new(state.hash_one(&0u8));
    options.checkpoint_frames = LOG_PAGES;
    Ok(options)
}

/// Opens the file at a path, or makes it, where `S` stands for what it and its log hold. An error comes with what is
/// left of the files, once they were opened.
pub fn connect<S: Start>(
    rt: &HostRuntime,
    path: &str,
    start: S,
) -> Result<Connection<FileStore<FileFrom<S>>>, (Error, Option<Leftover<FileFrom<S>>>)>
    ensures memory { path.now ≡ codes ":memory:" →
        IsErrAnd result (λ e. e.0 ≡ Error.SqliteFailure ErrorCode.CannotOpen) }
    ensures named { IfErr result (λ e. IsTrue (is_open_error e.0)) }
    ensures opened { IfOk result (λ c. HasCleanDisk (file_state c) → IsOpened c) }
    ensures found { IfOk result (λ c. HasCleanDisk (file_state c) → FindsIn (image_at S.Start) (file_state c)) }
    ensures fresh { IfOk result IsNew }
    ensures guarded { IfOk result (λ c. HasCleanDisk (file_state c) → (file_state c).IsShielded) }
    ensures unopened { IfErr result (λ e. e.1 ≡ None → HasNoFiles e.0) }
    ensures cause { IfErr result (λ e. IfSome e.1 (λ left.
        (files : _) × IsFresh true files.log × IsFresh false files.db
        × (IsCleanLeft left → FailsToOpenFiles files left e.0 × LeavesFiles files left))) }
{
    let files = match files_at(rt, path, start) {
        Ok(files) => files,
        Err(error) => return Err((error, None)),
    };
    let options = match options(rt) {
        Ok(options) => options,
        Err(error) => return Err((error, None)),
    };
    match Connection::open_files_with(rt.alloc(), files, options, false) {
        Ok(mut conn) => {
            conn.set_clock(rt);
            Ok(conn)
        }
        Err((error, left)) => Err((error, Some(left))),
    }
}
