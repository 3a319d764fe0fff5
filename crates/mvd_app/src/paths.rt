//! The files that a command reaches by their paths.
ghost use Rattle.std.specs.Prelude.{◌≡◌, ◌++◌, IfErr, IfOk, IsErrAnd, codes, string_bytes};
ghost use Rattle.mvd_app.specs.Tasks.{ServesTo};
ghost use Rattle.mvd_input.specs.Ends.{ReadsNot};
ghost use Rattle.mvd_replica.specs.FileCalls.{IsNoFile, OpensAsSite};
ghost use Rattle.mvd_server.specs.TokenFiles.{IsUnreadSo, names_asked, passes_asked};
ghost use Rattle.sqlite.specs.WalFiles.{image_at};

use mvd_dots::Refusal;
use mvd_hint::{Harm, Stop, Watch, lacks_descriptors};
use mvd_input::{Fault, read_input};
use mvd_replica::{FileFault, Replica, open_file};
use mvd_server::{Sockets, Terms, Tokens, TokensFault, read_tokens, serve_run};
use mvd_site::Config;
use sqlite::{Alter, FileFrom, FileStore, Start};
use sqlite_trees::store::Store;
use std::alloc::{AllocError, Global};
use std::fs;
use std::fs::{File, OpenOptions};
use std::io::{self, Stderr, Write};
use std::net::SocketAddr;
use std::os::unix::fs::MetadataExt;

/// Fewer bytes than a log with a page takes: 32 for its head, 24 for that of the page, and 512 for the page.
pub(crate) const LEAST_LOG: u64 = 568;

/// As many bytes come to a log with pages where it is opened: the last of them shuts it behind its last page.
const SHUT: u64 = 9;

/// What reaches files by their paths: nothing else of this crate does. It reads what a command names, opens the file of
/// a site, and removes or cuts the log beside one that was refused, and nothing else.
#[derive(Drop)]
pub(crate) struct Paths<'a>(&'a HostRuntime);

impl<'p> Paths<'p> {
    pub(crate) fn of(rt: &'p HostRuntime) -> Self {
        Paths(rt)
    }

    pub(crate) fn alloc(&self) -> Global {
        self.0.alloc()
    }

    /// Where faults are told.
    pub(crate) fn errors(&self) -> Stderr {
        self.0.stderr()
    }

    /// Tells that a file is new.
    pub(crate) fn tell_new(&self, file: &str, site: u32) {
        let _ = eprintln!(self.0; "mvd: {file} is new: the file of site {site}");
    }

    /// Whether a file is there, if the system tells that.
    pub(crate) fn is_there(&self, file: &str) -> Option<bool> {
        fs::exists(self.0, file).ok()
    }

    /// How many bytes the log beside a file has: none where there is no log.
    pub(crate) fn log_length(&self, file: &str) -> io::Result<u64> {
        let log = log_beside(self.alloc(), file)?;
        if !fs::exists(self.0, log.as_str())? {
            return Ok(0);
        }
        Ok(fs::metadata(self.0, log.as_str())?.len())
    }

    /// Removes the log beside a file, where it holds no page. Where the open added to it, and nobody else did, it has as
    /// many bytes again as it had before.
    pub(crate) fn leave_log(&self, file: &str, before: Option<u64>) -> io::Result<()> {
        let bytes = self.log_length(file)?;
        let log = log_beside(self.alloc(), file)?;
        if bytes < LEAST_LOG {
            return fs::remove_file(self.0, log.as_str());
        }
        match before {
            Some(before) if bytes == before.saturating_add(SHUT) => {
                let log = OpenOptions::new().write(true).open(self.0, log.as_str())?;
                log.set_len(before)
            }
            _ => Ok(()),
        }
    }

    /// Whether as many files as a database needs, with its log and its folder, cannot be open at once.
    pub(crate) fn are_too_many(&self, file: &str) -> bool {
        let first = fs::open(self.0, file);
        let second = fs::open(self.0, file);
        let third = fs::open(self.0, file);
        lacks(&first) || lacks(&second) || lacks(&third)
    }

    /// Whether the file or the log beside it has a hard link.
    pub(crate) fn has_second_name(&self, file: &str) -> io::Result<bool> {
        let log = log_beside(self.alloc(), file)?;
        let has_log_two = match fs::metadata(self.0, log.as_str()) {
            Ok(told) => told.nlink() > 1,
            Err(_) => false,
        };
        Ok(has_log_two || fs::metadata(self.0, file)?.nlink() > 1)
    }

    /// What a file holds, of at most so many bytes.
    pub(crate) fn read(&self, file: &str, most: usize) -> Result<Vec<u8>, Fault>
        ensures { IfErr result ReadsNot }
    {
        let Ok(mut opened) = fs::open(self.0, file) else {
            return Err(Fault::Stopped(Refusal::ReadFailed));
        };
        read_input(self.alloc(), &mut opened, most)
    }

    /// The tokens that a file holds.
    pub(crate) fn tokens(&self, file: &str) -> Result<Tokens, TokensFault>
        ensures { IfErr result IsUnreadSo }
    {
        read_tokens(self.0, self.alloc(), file)
    }

    /// Opens the file of a site, which is made where it is missing.
    pub(crate) fn open_site<S: Start>(
        &self,
        file: &str,
        start: S,
        config: Config,
    ) -> Result<Replica<FileStore<FileFrom<S>>>, FileFault<FileFrom<S>>>
        ensures opens { OpensAsSite (image_at S.Start) config result }
        // This names no file.
        ensures memory { file.now ≡ codes ":memory:" → IsErrAnd result IsNoFile }
    {
        open_file(self.0, file, start, config)
    }

    /// Watches a file that was opened, and its log.
    pub(crate) fn watch(&self, file: &str) -> Watch {
        Watch::new(self.0, file)
    }

    /// The harm that came to a file and its log since they were opened, if any.
    pub(crate) fn look(&self, watch: &mut Watch) -> Option<Harm> {
        watch.look(self.0)
    }

    /// Serves a stored site, whose file is watched meanwhile; the file of tokens is read again.
    pub(crate) fn serve<'a, K: Sockets, S: Alter + Drop, W: Write, E: Write>(
        &self,
        sockets: &mut K,
        replica: &mut Replica<S>,
        address: SocketAddr,
        terms: Terms<'_>,
        watch: &mut Watch,
        writer: &mut W,
        errors: &mut E,
    ) -> Result<(), Stop<'a>>
        ensures { ServesTo K.Sockets (passes_asked terms.entry) (names_asked terms.entry)
            sockets.old replica.old sockets.new replica.new result }
    {
        serve_run(
            self.0,
            self.alloc(),
            sockets,
            replica,
            address,
            terms,
            watch,
            writer,
            errors,
        )
    }
}

fn lacks(opened: &io::Result<File>) -> bool {
    match opened {
        Ok(_) => false,
        Err(error) => lacks_descriptors(*error),
    }
}

/// The name of the log beside a file.
fn log_beside(alloc: Global, file: &str) -> Result<String, AllocError>
    ensures { IfOk result (λ log. string_bytes log ≡ file.now ++ codes "-wal") }
{
    let mut log = String::new(alloc);
    log.push_str(file)?;
    log.push_str("-wal")?;
    Ok(log)
}
