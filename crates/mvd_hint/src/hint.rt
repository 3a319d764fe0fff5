//! A fault, and what there is to do about it.
ghost use Rattle.std.specs.Prelude.{◌≡◌, ◌≢◌, ◌<◌, ◌≤◌, ℕ, IsSomeAnd, None, Some};
ghost use Rattle.mvd_hint.specs.Named.{NamesServer};
ghost use Rattle.mvd_hint.specs.Stops.{stop_at_harm};
ghost use Rattle.mvd_dots.specs.Refusal.{number_of};
ghost use Rattle.mvd_dots.specs.declared.refusals.Refusal.TheVariants.{BadBody, BadKind, Damaged, DotClash, FrameTooLong};
ghost use Rattle.mvd_dots.specs.declared.refusals.Refusal.TheVariants.{Full, Memory, NotAdmitted, ReadFailed, SiteMismatch};
ghost use Rattle.mvd_dots.specs.declared.refusals.Refusal.TheVariants.{Store, TooManyRequests};
ghost use Rattle.mvd_input.specs.declared.fault.Fault.TheVariants.{Stopped};
ghost use Rattle.mvd_input.specs.declared.fault.Fault.TheVariants as faults;

use crate::harm::Harm;
use mvd_dots::Refusal;
use mvd_input::{Fault, PassFault};
use sqlite::ErrorCode;
use std::fmt;
use std::io::{self, ErrorKind};
use std::net::SocketAddr;
use thiserror::Error;

/// Where a fault came, and what to do about it. A file is named as the command line names it.
#[derive(Debug, Clone, Copy, Error)]
pub enum Hint<'a> {
    #[error("standard input cannot be read")]
    NoInput,
    #[error("standard input: docs/FORMATS.md lists the lines of a script, of which `sites N` is the first")]
    Script,
    #[error("standard input: a line has two hexadecimal digits for each byte")]
    Hexadecimal,
    #[error("an input is too long: docs/BEHAVIOUR.md tells how long each may be")]
    TooLong,
    #[error("{0} cannot be read: --defs names a file of lines `index F` and `view V G S`")]
    NoDefs(&'a str),
    #[error("{0}: a line is `index F` or `view V G S`, none of them twice, and at most 16 of either")]
    BadDefs(&'a str),
    #[error("{0} cannot be read: --token-file names a file with a token in each line")]
    NoToken(&'a str),
    #[error("{0}: {1}")]
    BadToken(&'a str, PassFault),
    #[error("{0} is in use: end the program that has it open, or ask that one through its port")]
    InUse(&'a str),
    #[error("{0} is no database of mvd, or damaged, or was left half made, as on a full disk: make room and try again, name another file, or make a new site from a copy (docs/USING.md, Backups)")]
    NoDatabase(&'a str),
    #[error("{0} is missing, but its log is there: put the file back, docs/USING.md tells how")]
    Lost(&'a str),
    #[error("{0} {1}: docs/USING.md, Backups, tells what is left of it")]
    Harmed(&'a str, Harm),
    #[error("{0} has a second name, a hard link, or its log has: remove that name, or copy the file")]
    Linked(&'a str),
    #[error("no more files can be open: raise the limit of descriptors (`ulimit -n`)")]
    NoDescriptors,
    #[error("{0}: {1}; check its folder, its permissions and the disk")]
    Unusable(&'a str, sqlite::Error),
    #[error("{0} is the file of site {1}: give that number as --site, or name another file")]
    OtherSite(&'a str, u32),
    #[error("{0} is damaged, or of a later version of mvd: use that version, name another file, or make a new site from a copy (docs/USING.md, Backups)")]
    Damaged(&'a str),
    #[error("{0} is the file of another program: name another file")]
    Foreign(&'a str),
    #[error("the file has no room for so many keys: raise --max-keys, up to 1000000")]
    Full,
    #[error("{0} is in use: end the program that listens there, or name another port")]
    PortInUse(SocketAddr),
    #[error("no permission to listen at {0}: name a --port of 1024 or more")]
    NoRight(SocketAddr),
    #[error("{0}: {1}; --address names an address of this machine")]
    NoListener(SocketAddr, io::Error),
    #[error("{0}: {1}; start `mvd serve` there, or name another --address and --port")]
    NoServer(SocketAddr, io::Error),
    #[error("the connection with {0} broke: what was done before stays; run a sync again, and read a key before you write it again")]
    Broken(SocketAddr),
    #[error("the server at {0} refused it, or what it told was refused here: what was done before stays")]
    Refused(SocketAddr),
    #[error("the server at {0} has no place, or takes no more of this connection: try again, or give it more --clients; what was done before stays")]
    NoPlace(SocketAddr),
    #[error("{0} does not answer as mvd does: name another --address and --port, or bring both to one version")]
    NoPeer(SocketAddr),
    #[error("the server at {0} asks for a token, or for another one: name the file with its token by --token-file")]
    NotAdmitted(SocketAddr),
    #[error("two files wrote under one site's number: go on from one of them, as a new site (docs/USING.md, Backups)")]
    Clash,
    #[error("all other keys were exchanged; docs/USING.md tells what to do about a key that is refused")]
    Left,
}

/// That a file was older than what the other side saw of it, at how many keys, and what to do.
#[derive(Debug, Clone, Copy, Error)]
#[error("the file was older than what the server saw of it, keys {0}: it looks like an old copy (docs/USING.md, Backups)")]
pub struct Older(pub u64);

/// What the system tells where this process, or all together, can open no more.
const FULL: [i32; 2] = [24, 23];

/// Whether the system told that no more can be open.
pub fn lacks_descriptors(error: io::Error) -> bool {
    match error.raw_os_error() {
        Some(code) => FULL.contains(&code),
        None => false,
    }
}

/// Why a command was stopped, and what there is to do about it where something is known.
#[derive(Clone, Copy)]
pub struct Stop<'a> {
    pub fault: Fault,
    pub hint: Option<Hint<'a>>,
}

/// The fault, and the hint on a line of its own.
impl fmt::Display for Stop<'_> {
    fn fmt<W: fmt::Write>(&self, f: &mut fmt::Formatter<W>) -> fmt::Result {
        let fault = &self.fault;
        match &self.hint {
            Some(hint) => write!(f, "mvd: {fault}\nmvd: {hint}"),
            None => write!(f, "mvd: {fault}"),
        }
    }
}

impl From<Fault> for Stop<'_> {
    ghost use Rattle.std.specs.Prelude.{◌≡◌, None};

    ghost from_gives = { λ fault stop. stop ≡ record { fault = fault; hint = None } };

    fn from(fault: Fault) -> Self {
        Stop { fault, hint: None }
    }
}

impl From<Refusal> for Stop<'_> {
    ghost use Rattle.std.specs.Prelude.{◌≡◌, None};
    ghost use Rattle.mvd_input.specs.declared.fault.Fault.TheVariants.{Stopped};

    ghost from_gives = { λ refusal stop. stop ≡ record { fault = Stopped refusal; hint = None } };

    fn from(refusal: Refusal) -> Self {
        Stop::from(Fault::Stopped(refusal))
    }
}

impl<'a> Stop<'a> {
    fn new(refusal: Refusal, hint: Hint<'a>) -> Stop<'a>
        ensures fault { result.fault ≡ Stopped refusal }
        ensures hint { result.hint ≡ Some hint.entry }
    {
        Stop {
            fault: Fault::Stopped(refusal),
            hint: Some(hint),
        }
    }

    /// The lines of standard input are at fault, which should be of this form.
    pub fn in_input(fault: Fault, form: Hint<'a>) -> Stop<'a>
        ensures fault { result.fault ≡ fault }
        ensures line { (number : ℕ) → fault ≡ faults.Line number → result.hint ≡ Some form.entry }
        ensures unread { fault ≡ Stopped ReadFailed → result.hint ≡ Some Hint.NoInput }
        ensures long { fault ≡ Stopped FrameTooLong → result.hint ≡ Some Hint.TooLong }
    {
        let hint = match fault {
            Fault::Line(_) => Some(form),
            Fault::Stopped(Refusal::ReadFailed) => Some(Hint::NoInput),
            Fault::Stopped(Refusal::FrameTooLong) => Some(Hint::TooLong),
            Fault::Stopped(_) => None,
        };
        Stop { fault, hint }
    }

    /// A file of definitions is at fault.
    pub fn in_defs(file: &'a str, fault: Fault) -> Stop<'a>
        ensures fault { result.fault ≡ fault }
        ensures line { (number : ℕ) → fault ≡ faults.Line number → result.hint ≡ Some (Hint.BadDefs file.entry) }
        ensures unread { fault ≡ Stopped ReadFailed → result.hint ≡ Some (Hint.NoDefs file.entry) }
        ensures long { fault ≡ Stopped FrameTooLong → result.hint ≡ Some Hint.TooLong }
    {
        let hint = match fault {
            Fault::Line(_) => Some(Hint::BadDefs(file)),
            Fault::Stopped(Refusal::ReadFailed) => Some(Hint::NoDefs(file)),
            Fault::Stopped(Refusal::FrameTooLong) => Some(Hint::TooLong),
            Fault::Stopped(_) => None,
        };
        Stop { fault, hint }
    }

    /// The file with tokens is at fault.
    pub fn in_token_file(file: &'a str, fault: Fault) -> Stop<'a>
        ensures fault { result.fault ≡ fault }
        ensures unread { fault ≡ Stopped ReadFailed → result.hint ≡ Some (Hint.NoToken file.entry) }
        ensures long { fault ≡ Stopped FrameTooLong → result.hint ≡ Some Hint.TooLong }
    {
        let hint = match fault {
            Fault::Stopped(Refusal::ReadFailed) => Some(Hint::NoToken(file)),
            Fault::Stopped(Refusal::FrameTooLong) => Some(Hint::TooLong),
            Fault::Stopped(_) | Fault::Line(_) => None,
        };
        Stop { fault, hint }
    }

    /// What stands in a file with tokens is none.
    pub fn no_token(file: &'a str, fault: PassFault) -> Stop<'a>
        ensures fault { result.fault ≡ Stopped ReadFailed }
        ensures hint { result.hint ≡ Some (Hint.BadToken file.entry fault) }
    {
        Stop::new(Refusal::ReadFailed, Hint::BadToken(file, fault))
    }

    /// A file cannot be opened as a database, or not be closed.
    pub fn in_file(file: &'a str, error: sqlite::Error) -> Stop<'a>
        ensures { result.fault ≡ Stopped Store }
    {
        let hint = match error {
            sqlite::Error::SqliteFailure(ErrorCode::DatabaseBusy) => Hint::InUse(file),
            sqlite::Error::SqliteFailure(ErrorCode::NotADatabase | ErrorCode::DatabaseCorrupt) => {
                Hint::NoDatabase(file)
            }
            error => Hint::Unusable(file, error),
        };
        Stop::new(Refusal::Store, hint)
    }

    /// A file is missing, and its log still has what was stored.
    pub fn in_lost(file: &'a str) -> Stop<'a>
        ensures fault { result.fault ≡ Stopped Store }
        ensures hint { result.hint ≡ Some (Hint.Lost file.entry) }
    {
        Stop::new(Refusal::Store, Hint::Lost(file))
    }

    /// A file was removed, replaced or cut while it was open, or its log was.
    pub fn in_harmed(file: &'a str, harm: Harm) -> Stop<'a>
        ensures { result ≡ stop_at_harm file.entry harm }
    {
        Stop::new(Refusal::Store, Hint::Harmed(file, harm))
    }

    /// A file is refused since it has a second name.
    pub fn in_linked(file: &'a str) -> Stop<'a>
        ensures fault { result.fault ≡ Stopped Store }
        ensures hint { result.hint ≡ Some (Hint.Linked file.entry) }
    {
        Stop::new(Refusal::Store, Hint::Linked(file))
    }

    /// A file cannot be opened since no more can be.
    pub fn without_descriptors() -> Stop<'a>
        ensures fault { result.fault ≡ Stopped Store }
        ensures hint { result.hint ≡ Some Hint.NoDescriptors }
    {
        Stop::new(Refusal::Store, Hint::NoDescriptors)
    }

    /// The records of a file are refused. Their marks name this site, where they can be read.
    pub fn in_records(file: &'a str, refusal: Refusal, owner: Option<u32>) -> Stop<'a>
        ensures fault { result.fault ≡ Stopped refusal }
        ensures damaged { refusal ≡ Damaged → result.hint ≡ Some (Hint.Damaged file.entry) }
        ensures full { refusal ≡ Full → result.hint ≡ Some Hint.Full }
        ensures store { refusal ≡ Store → result.hint ≡ Some (Hint.NoDatabase file.entry) }
        ensures owner { (site : _) → refusal ≡ SiteMismatch → owner ≡ Some site →
            result.hint ≡ Some (Hint.OtherSite file.entry site) }
    {
        match (refusal, owner) {
            (Refusal::SiteMismatch, Some(site)) => Stop::new(refusal, Hint::OtherSite(file, site)),
            (Refusal::Damaged, _) => Stop::new(refusal, Hint::Damaged(file)),
            (Refusal::Full, _) => Stop::new(refusal, Hint::Full),
            (Refusal::Store, _) => Stop::new(refusal, Hint::NoDatabase(file)),
            _ => Stop::from(refusal),
        }
    }

    /// A file is another program's.
    pub fn in_foreign(file: &'a str) -> Stop<'a>
        ensures fault { result.fault ≡ Stopped Damaged }
        ensures hint { result.hint ≡ Some (Hint.Foreign file.entry) }
    {
        Stop::new(Refusal::Damaged, Hint::Foreign(file))
    }

    /// Nothing can listen at an address.
    pub fn unheard(address: SocketAddr, error: io::Error) -> Stop<'a>
        ensures { result.fault ≡ Stopped ReadFailed }
    {
        let hint = match error.kind() {
            _ if lacks_descriptors(error) => Hint::NoDescriptors,
            ErrorKind::AddrInUse => Hint::PortInUse(address),
            ErrorKind::PermissionDenied => Hint::NoRight(address),
            _ => Hint::NoListener(address, error),
        };
        Stop::new(Refusal::ReadFailed, hint)
    }

    /// No server answers at an address.
    pub fn unanswered(address: SocketAddr, error: io::Error) -> Stop<'a>
        ensures fault { result.fault ≡ Stopped ReadFailed }
        ensures hint { result.hint ≡ Some (Hint.NoServer address error) }
    {
        Stop::new(Refusal::ReadFailed, Hint::NoServer(address, error))
    }

    /// This side of a session refuses.
    pub fn in_session(refusal: Refusal) -> Stop<'a>
        ensures fault { result.fault ≡ Stopped refusal }
        ensures clash { refusal ≡ DotClash → result.hint ≡ Some Hint.Clash }
        ensures full { refusal ≡ Full → result.hint ≡ Some Hint.Full }
        ensures other { refusal ≢ DotClash → refusal ≢ Full → result.hint ≡ None }
    {
        match refusal {
            Refusal::DotClash => Stop::new(refusal, Hint::Clash),
            Refusal::Full => Stop::new(refusal, Hint::Full),
            _ => Stop::from(refusal),
        }
    }

    /// The server at an address refuses, or does not let this in, or the connection with it breaks. Memory may have
    /// been refused at either end of it, so then no hint names one.
    pub fn at_server(address: SocketAddr, refusal: Refusal) -> Stop<'a>
        ensures fault { result.fault ≡ Stopped refusal }
        ensures memory { refusal ≡ Memory → result.hint ≡ None }
        ensures clash { refusal ≡ DotClash → result.hint ≡ Some Hint.Clash }
        ensures long { refusal ≡ FrameTooLong → result.hint ≡ Some (Hint.NoPeer address) }
        ensures kind { refusal ≡ BadKind → result.hint ≡ Some (Hint.NoPeer address) }
        ensures body { refusal ≡ BadBody → result.hint ≡ Some (Hint.NoPeer address) }
        ensures own { refusal ≢ DotClash → refusal ≢ Memory → number_of refusal < 30 →
            result.hint ≡ Some (Hint.Refused address) }
        ensures token { refusal ≡ NotAdmitted → result.hint ≡ Some (Hint.NotAdmitted address) }
        ensures place { refusal ≡ TooManyRequests → result.hint ≡ Some (Hint.NoPlace address) }
        ensures broken { refusal ≢ FrameTooLong → refusal ≢ BadKind → refusal ≢ BadBody → refusal ≢ NotAdmitted →
            refusal ≢ TooManyRequests → 30 ≤ number_of refusal → result.hint ≡ Some (Hint.Broken address) }
        // The hint names the address, but for that of a clash.
        ensures named { refusal ≢ DotClash → refusal ≢ Memory → IsSomeAnd result.hint (NamesServer address) }
    {
        let hint = match refusal {
            Refusal::Memory => return Stop::from(refusal),
            Refusal::DotClash => Hint::Clash,
            Refusal::FrameTooLong | Refusal::BadKind | Refusal::BadBody => Hint::NoPeer(address),
            Refusal::NotAdmitted => Hint::NotAdmitted(address),
            Refusal::TooManyRequests => Hint::NoPlace(address),
            _ if refusal.number() < 30 => Hint::Refused(address),
            _ => Hint::Broken(address),
        };
        Stop::new(refusal, hint)
    }

    /// A session left keys, of which the first was refused so.
    pub fn left(refusal: Refusal) -> Stop<'a>
        ensures fault { result.fault ≡ Stopped refusal }
        ensures hint { result.hint ≡ Some Hint.Left }
    {
        Stop::new(refusal, Hint::Left)
    }
}
