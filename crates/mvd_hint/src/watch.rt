//! Whether a file is still the one that was opened, and its log.
ghost use Rattle.std.specs.Prelude.{◌≡◌};
ghost use Rattle.mvd_hint.specs.Harm.{FindsHarm, Looks, change_if, mark_then};

use crate::harm::{Change, Found, Harm, Mark};
use std::fs::{self, Files};
use std::io::{self, ErrorKind, Read};
use std::os::unix::fs::MetadataExt;

/// What a file and a log begin with names their kind, so it is not zero.
const HEAD: usize = 8;

/// A file that is open, and its log, looked at by their names.
#[derive(Drop)]
pub struct Watch {
    /// None where they could not be told; nothing is found then.
    names: Option<Names>,
    marks: Marks,
}

#[derive(Drop)]
struct Names {
    file: String,
    log: String,
}

/// What was known of a file and of its log when they were looked at last, where something was.
#[derive(Clone, Copy)]
pub(crate) struct Marks {
    pub file: Option<Mark>,
    pub log: Option<Mark>,
}

impl Names {
    /// A file and its log lie where links lead.
    fn of(rt: &HostRuntime, name: &str) -> io::Result<Names> {
        let real = fs::canonicalize(rt, name)?;
        let mut file = String::new(rt.alloc());
        file.push_str(real.as_str())?;
        let mut log = String::new(rt.alloc());
        log.push_str(real.as_str())?;
        log.push_str("-wal")?;
        Ok(Names { file, log })
    }

    fn look<R: Files>(&self, rt: &R) -> (Found, Found) {
        (found(rt, self.file.as_str()), found(rt, self.log.as_str()))
    }
}

impl Marks {
    /// Takes what the system tells of the file and of the log, and gives the harm that came to them. Where there is
    /// some, the marks stay, so that it is found again.
    fn take(&mut self, file: Found, log: Found) -> Option<Harm>
        ensures { Looks file log self.old self.new result }
    {
        let harm = Harm::of(change_since(self.file, file), change_since(self.log, log));
        if harm.is_none() {
            self.file = marked(self.file, file);
            self.log = marked(self.log, log);
        }
        harm
    }
}

/// What became of a file since it had a mark.
fn change_since(mark: Option<Mark>, found: Found) -> Option<Change>
    ensures { result ≡ change_if mark found }
{
    match mark {
        Some(mark) => mark.change(found),
        None => None,
    }
}

/// The mark of a file after a look.
fn marked(mark: Option<Mark>, found: Found) -> Option<Mark>
    ensures { result ≡ mark_then mark found }
{
    match (mark, found) {
        (Some(_), Found::There(now)) => Some(now),
        _ => mark,
    }
}

impl Watch {
    /// Watches the file of this name, which was opened, and its log.
    pub fn new(rt: &HostRuntime, name: &str) -> Watch {
        let Ok(names) = Names::of(rt, name) else {
            return Watch {
                names: None,
                marks: Marks {
                    file: None,
                    log: None,
                },
            };
        };
        let (file, log) = names.look(rt);
        Watch {
            names: Some(names),
            marks: Marks {
                file: first_mark(file),
                log: first_mark(log),
            },
        }
    }

    /// Looks at the file and at its log: the harm that came to them since they were opened, if any.
    pub fn look<R: Files>(&mut self, rt: &R) -> Option<Harm>
        ensures { FindsHarm self.old.marks self.new.marks result }
    {
        let (file, log) = match &self.names {
            Some(names) => names.look(rt),
            None => (Found::Untold, Found::Untold),
        };
        self.marks.take(file, log)
    }

    /// What they had when they were looked at last.
    pub fn lengths(&self) -> Lengths {
        Lengths {
            file: length_of(self.marks.file),
            log: length_of(self.marks.log),
        }
    }
}

/// How many bytes a file has, and its log, where that was told.
#[derive(Clone, Copy)]
pub struct Lengths {
    pub file: Option<u64>,
    pub log: Option<u64>,
}

fn length_of(mark: Option<Mark>) -> Option<u64> {
    match mark {
        Some(mark) => Some(mark.length),
        None => None,
    }
}

fn first_mark(found: Found) -> Option<Mark> {
    match found {
        Found::There(mark) => Some(mark),
        Found::Missing | Found::Untold => None,
    }
}

/// What the system tells of a name.
fn found<R: Files>(rt: &R, name: &str) -> Found {
    match mark_of(rt, name) {
        Ok(mark) => Found::There(mark),
        Err(error) if error.kind() == ErrorKind::NotFound => Found::Missing,
        Err(_) => Found::Untold,
    }
}

fn mark_of<R: Files>(rt: &R, name: &str) -> io::Result<Mark> {
    let told = fs::metadata(rt, name)?;
    Ok(Mark {
        device: told.dev(),
        number: told.ino(),
        length: told.len(),
        // Nothing but a file is opened: another thing may have it wait.
        is_blank: told.is_file() && begins_with_zeros(rt, name).unwrap_or(false),
    })
}

fn begins_with_zeros<R: Files>(rt: &R, name: &str) -> io::Result<bool> {
    let mut head = [1; HEAD];
    let mut file = fs::open(rt, name)?;
    let _ = file.read(&mut head)?;
    Ok(head.iter().all(|byte| *byte == 0))
}
