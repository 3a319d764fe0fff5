//! A site in a file: opened from what the file and its log hold, and closed into them.
ghost use Rattle.std.specs.Prelude.{◌≡◌, IsErrAnd, codes};
ghost use Rattle.mvd_replica.specs.FileCalls.{ClosesReplica, IsNoFile, OpensAsSite};
ghost use Rattle.sqlite.specs.WalFiles.{image_at};

use crate::connecting::connect;
use crate::replica::Replica;
use mvd_dots::Refusal;
use mvd_site::Config;
use sqlite::{Connection, Error, FileFrom, FileStore, Files, Leftover, Start};
use sqlite_disk::Disk;

/// Why a file was not opened as a site.
#[derive(Drop)]
pub enum FileFault<D: Disk + Drop> {
    /// No database could be opened: with what is left of the files, if they had been opened.
    File(Error, Option<Leftover<D>>),
    /// Its records are refused. With the connection: to another program's database as it was, to one of ours as it
    /// was, or with the tables, the marks or the moved keys that the open had made by then.
    Records(Refusal, Connection<FileStore<D>>),
}

/// Opens the site that the file at a path holds, which is made where it is missing. The clause holds
/// for whatever stands in the file and its log: `S` names that, and no code can read it. `main` alone
/// picks one: `Unknown`, where a torn write leaves each byte old or new. No clause ties it to the path, but that
/// `:memory:` is no file.
pub fn open_file<S: Start>(
    rt: &HostRuntime,
    path: &str,
    start: S,
    config: Config,
) -> Result<Replica<FileStore<FileFrom<S>>>, FileFault<FileFrom<S>>>
    ensures opens { OpensAsSite (image_at S.Start) config result }
    // This names no file.
    ensures memory { path.now ≡ codes ":memory:" → IsErrAnd result IsNoFile }
{
    let conn = match connect(rt, path, start) {
        Ok(conn) => conn,
        Err((error, left)) => return Err(FileFault::File(error, left)),
    };
    match Replica::open(rt.alloc(), conn, config) {
        Ok(replica) => {
            replica.stands();
            Ok(replica)
        }
        Err((refusal, conn)) => Err(FileFault::Records(refusal, conn)),
    }
}

impl<D: Disk + Drop> Replica<FileStore<D>> {
    /// Copies what the log holds into the file, and gives both back. If nobody else has written them and their disk
    /// has returned what was written, the file with its log holds what the records held, and so does the file alone,
    /// now and after a crash. An error gives the store back: a crash leaves of it nothing that it could not leave
    /// before the call.
    pub fn close(self) -> Result<Files<D>, (Error, FileStore<D>)>
        ensures { ClosesReplica self result }
    {
        let conn = self.into_connection();
        // Here it is known that the database obeys its schema.
        let _schema = conn.schema();
        match conn.close_files() {
            Ok(files) => Ok(files),
            Err(failed) => Err(failed),
        }
    }
}
